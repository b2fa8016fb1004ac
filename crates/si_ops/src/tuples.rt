// Tuples: operators between them, and the built-in that makes them.

ghost use Rattle.std.specs.Prelude.{◌≡◌, ◌≤◌, ◌<◌, ◌+◌, ◌-◌, ◌*◌, true, length, nat_lt, ◌||◌, OnOk, IfOk, None, ◌++◌, ◌∷◌, [], replicate};
ghost use Rattle.si_semantics.specs.Value as pure;
ghost use Rattle.si_semantics.specs.Value.{tuple_of, Int};
ghost use Rattle.si_semantics.specs.Operations as operations;
ghost use Rattle.si_semantics.specs.Operations.{operate, range_items};
ghost use Rattle.si_semantics.specs.Tuples.{max_values, max_levels, is_too_large, copies, repeated_items, characters_in, numbers_in, integers_in};
ghost use Rattle.si_arena.specs.Memory.{Memory, value_of, all_of, Lies, AllLie, PlacesTuple};
ghost use Rattle.si_arena.specs.Texts.{text_of};
ghost use Rattle.si_arena.specs.Bytes.{bytes_of};
ghost use Rattle.si_ops.specs.Runs.{Runs};
ghost use Rattle.si_ops.specs.Operands.{members_of, made_of, NeedsNone, IsTold};
ghost use Rattle.si_ops.specs.Calls.{NeedsNoTuple};
ghost use Rattle.si_ops.specs.Items.{world_of};

use crate::characters::length_of;
use crate::gone_over::{collected, items_count};
use crate::ranges::{item_of, items_in};
use si_arena::{Arena, Cause, Fault, Ref, Size, Steps, View};
use si_plain::limits::{MAX_TUPLE_LEVELS, MAX_TUPLE_VALUES};
use si_plain::{BinaryOperator, NoMemory};
use std::alloc::Global;

/// The items of a tuple; none of what is no tuple.
pub fn members<'a>(arena: &'a Arena, value: &'a Ref) -> &'a [Ref]
    requires { Lies arena.now value.now }
    ensures items { all_of arena.now result.now ≡ members_of (value_of arena.now value.now) }
    ensures lie { AllLie arena.now result.now }
{
    match arena.view(value) {
        View::Tuple(items) => items,
        _ => &[],
    }
}

/// An operator between two tuples, of which `+` alone gives a value. A tuple that is too large takes no memory.
pub fn joined_tuples(
    arena: &mut Arena,
    operator: BinaryOperator,
    left: Ref,
    right: Ref,
) -> Result<Ref, Fault>
    requires left { Lies arena.old left }
    requires right { Lies arena.old right }
    ensures runs { Runs (λ w. operate operator (tuple_of (members_of (value_of arena.old left))) (tuple_of (members_of (value_of arena.old right))) w) arena.old arena.new result }
    ensures memory { NeedsNone left right (made_of operator (tuple_of (members_of (value_of arena.old left))) (tuple_of (members_of (value_of arena.old right)))) → (arena.new ≡ arena.old) × IsTold result }
{
    match operator {
        BinaryOperator::Add => join_tuples(arena, left, right),
        _ => Err(Fault::Raises(Cause::WrongType)),
    }
}

/// An operator between a tuple and an integer, of which `*` alone gives a value. A tuple that is too large takes no
/// memory.
pub fn tuple_copies(
    arena: &mut Arena,
    operator: BinaryOperator,
    tuple: Ref,
    count: i64,
) -> Result<Ref, Fault>
    requires { Lies arena.old tuple }
    ensures runs { Runs (λ w. operate operator (tuple_of (members_of (value_of arena.old tuple))) (Int count) w) arena.old arena.new result }
    ensures memory { NeedsNone tuple tuple (made_of operator (tuple_of (members_of (value_of arena.old tuple))) (Int count)) → (arena.new ≡ arena.old) × IsTold result }
{
    match operator {
        BinaryOperator::Multiply => repeat_tuple(arena, tuple, count),
        _ => Err(Fault::Raises(Cause::WrongType)),
    }
}

// The items of one tuple and then those of another, as a tuple.
fn join_tuples(arena: &mut Arena, left: Ref, right: Ref) -> Result<Ref, Fault>
    requires left { Lies arena.old left }
    requires right { Lies arena.old right }
    ensures tuple { PlacesTuple (members_of (value_of arena.old left) ++ members_of (value_of arena.old right)) arena.old arena.new result }
    ensures told { is_too_large (tuple_of (members_of (value_of arena.old left) ++ members_of (value_of arena.old right))) ≡ true → IsTold result }
{
    let (first, second) = (arena.size(left), arena.size(right));
    if is_past(
        values_joined(first, second),
        first.levels.max(second.levels),
    ) {
        return Err(Fault::Raises(Cause::TooLong));
    }
    let items = joined(arena, left, right)?;
    arena.place_tuple(items.as_slice())
}

// The items of one tuple and then those of another.
fn joined(arena: &Arena, left: Ref, right: Ref) -> Result<Vec<Ref>, NoMemory>
    requires left { Lies arena.now left }
    requires right { Lies arena.now right }
    ensures all { IfOk result (λ all. all_of arena.now all.items ≡ members_of (value_of arena.now left) ++ members_of (value_of arena.now right)) }
    ensures lie { IfOk result (λ all. AllLie arena.now all.items) }
{
    gathered(
        arena.allocator(),
        members(arena, &left),
        members(arena, &right),
    )
}

// How many values a tuple of the items of two others is.
fn values_joined(left: Size, right: Size) -> u64
    requires { 1 ≤ right.values }
    ensures { result + 1 ≡ left.values + right.values }
{
    u64::from(left.values) + u64::from(right.values - 1)
}

// Whether so many values, or so many levels, are past those of a tuple.
fn is_past(values: u64, levels: u32) -> bool
    ensures { result ≡ (nat_lt max_values values || nat_lt max_levels levels) }
{
    values > u64::from(MAX_TUPLE_VALUES) || levels > MAX_TUPLE_LEVELS
}

/// Some values and then others.
pub fn gathered(alloc: Global, first: &[Ref], second: &[Ref]) -> Result<Vec<Ref>, NoMemory>
    ensures { IfOk result (λ all. all.items ≡ first.now ++ second.now) }
{
    let mut all = Vec::new(alloc);
    all.extend_from_slice(first)?;
    all.extend_from_slice(second)?;
    Ok(all)
}

// The items of a tuple so many times, as a tuple; below 0 as 0.
fn repeat_tuple(arena: &mut Arena, tuple: Ref, count: i64) -> Result<Ref, Fault>
    requires { Lies arena.old tuple }
    ensures tuple { PlacesTuple (repeated_items (members_of (value_of arena.old tuple)) count) arena.old arena.new result }
    ensures told { is_too_large (tuple_of (repeated_items (members_of (value_of arena.old tuple)) count)) ≡ true → IsTold result }
{
    if count <= 0 {
        return arena.place_tuple(&[]);
    }
    repeat_items(arena, tuple, count as u64)
}

// The items of a tuple so many times, as a tuple.
fn repeat_items(arena: &mut Arena, tuple: Ref, count: u64) -> Result<Ref, Fault>
    requires lies { Lies arena.old tuple }
    requires some { 0 < count }
    ensures tuple { PlacesTuple (copies count (members_of (value_of arena.old tuple))) arena.old arena.new result }
    ensures told { is_too_large (tuple_of (copies count (members_of (value_of arena.old tuple)))) ≡ true → IsTold result }
{
    let items = members(arena, &tuple);
    if items.is_empty() {
        return arena.place_tuple(&[]);
    }
    if is_copied_past(arena.size(tuple), count) {
        return Err(Fault::Raises(Cause::TooLong));
    }
    let all = copied(arena.allocator(), items, count)?;
    arena.place_tuple(all.as_slice())
}

// Whether the items of a tuple so many times are past those of a tuple.
fn is_copied_past(size: Size, count: u64) -> bool
    requires { 1 ≤ size.values }
    ensures { result ≡ (nat_lt max_values (1 + count * (size.values - 1)) || nat_lt max_levels size.levels) }
{
    match count.checked_mul(u64::from(size.values - 1)) {
        Some(more) => more >= u64::from(MAX_TUPLE_VALUES) || size.levels > MAX_TUPLE_LEVELS,
        None => true,
    }
}

/// Values so many times.
pub fn copied(alloc: Global, items: &[Ref], count: u64) -> Result<Vec<Ref>, NoMemory>
    ensures all { (m : Memory) → IfOk result (λ all. all_of m all.items ≡ copies count (all_of m items.now)) }
    ensures lie { (m : Memory) → AllLie m items.now → IfOk result (λ all. AllLie m all.items) }
{
    if let [item] = items {
        return filled(alloc, *item, count);
    }
    let mut all = Vec::new(alloc);
    for _turn in 0..count {
        all.extend_from_slice(items)?;
    }
    Ok(all)
}

// One value so many times, for which memory is asked once.
fn filled(alloc: Global, item: Ref, count: u64) -> Result<Vec<Ref>, NoMemory>
    ensures { IfOk result (λ all. all.items ≡ replicate count item) }
{
    let mut all = Vec::new(alloc);
    all.resize(count as usize, item)?;
    Ok(all)
}

/// A call of `tuple`, with one argument. A tuple, and what has too many items for one, takes no memory.
pub fn call_tuple(arena: &mut Arena, arguments: &[Ref]) -> Result<Ref, Fault>
    requires { AllLie arena.old arguments.now }
    ensures runs { Runs (λ w. operations.call_built_in pure.MakeTuple (all_of arena.old arguments.now) w) arena.old arena.new result }
    ensures memory { NeedsNoTuple arena.old.store (all_of arena.old arguments.now) → IsTold result }
{
    match arguments {
        [value] => tuple_from(arena, *value),
        _ => Err(Fault::Raises(Cause::WrongArguments)),
    }
}

// The tuple of a value's items; a tuple is its own.
fn tuple_from(arena: &mut Arena, value: Ref) -> Result<Ref, Fault>
    requires { Lies arena.old value }
    ensures runs { Runs (λ w. operations.tuple_from (value_of arena.old value) w) arena.old arena.new result }
    ensures memory { NeedsNoTuple arena.old.store (value_of arena.old value ∷ []) → IsTold result }
{
    match arena.view(&value) {
        View::Str(text) => {
            let count = length_of(text);
            place_characters(arena, value, count)
        }
        View::Bytes(_) => place_octets(arena, value),
        View::Range(steps) => {
            let steps = *steps;
            place_numbers(arena, &steps)
        }
        View::Tuple(_) => Ok(value),
        View::Object(_) => place_gone_over(arena, value),
        _ => Err(Fault::Raises(Cause::WrongType)),
    }
}

// The items of an object, where it can be gone over, as a tuple.
fn place_gone_over(arena: &mut Arena, object: Ref) -> Result<Ref, Fault>
    requires { Lies arena.old object }
    ensures runs { Runs (λ w. operations.tuple_made (operations.items_from (value_of arena.old object) w) w) arena.old arena.new result }
    ensures memory { operations.items_from (value_of arena.old object) (world_of arena.old) ≡ None → IsTold result }
{
    let Some(count) = items_count(arena, object) else {
        return Err(Fault::Raises(Cause::WrongType));
    };
    if count >= u64::from(MAX_TUPLE_VALUES) {
        return Err(Fault::Raises(Cause::TooLong));
    }
    let items = collected(arena, object, count as usize)?;
    arena.place_tuple(items.as_slice())
}

// The characters of a str that has so many, as a tuple.
fn place_characters(arena: &mut Arena, text: Ref, count: usize) -> Result<Ref, Fault>
    requires lies { Lies arena.old text }
    requires count { count ≡ length (text_of arena.old.texts text) }
    ensures tuple { PlacesTuple (characters_in (text_of arena.old.texts text)) arena.old arena.new result }
    ensures told { is_too_large (tuple_of (characters_in (text_of arena.old.texts text))) ≡ true → IsTold result }
{
    if count >= MAX_TUPLE_VALUES as usize {
        return Err(Fault::Raises(Cause::TooLong));
    }
    let items = characters_of(arena, text, count)?;
    arena.place_tuple(items.as_slice())
}

// The characters of a str that has so many, each as a str.
fn characters_of(arena: &Arena, text: Ref, count: usize) -> Result<Vec<Ref>, NoMemory>
    requires lies { Lies arena.now text }
    requires count { count ≡ length (text_of arena.now.texts text) }
    ensures all { IfOk result (λ all. all_of arena.now all.items ≡ characters_in (text_of arena.now.texts text)) }
    ensures lie { IfOk result (λ all. AllLie arena.now all.items) }
{
    let mut all = Vec::new(arena.allocator());
    for i in 0..count {
        keep(&mut all, arena.character(text, i))?;
    }
    Ok(all)
}

// Bytes as a tuple of integers.
fn place_octets(arena: &mut Arena, bytes: Ref) -> Result<Ref, Fault>
    requires { Lies arena.old bytes }
    ensures tuple { PlacesTuple (numbers_in (bytes_of arena.old.texts bytes)) arena.old arena.new result }
    ensures told { is_too_large (tuple_of (numbers_in (bytes_of arena.old.texts bytes))) ≡ true → IsTold result }
{
    let octets = arena.bytes(&bytes);
    if octets.len() >= MAX_TUPLE_VALUES as usize {
        return Err(Fault::Raises(Cause::TooLong));
    }
    let items = octets_of(arena.allocator(), octets)?;
    arena.place_tuple(items.as_slice())
}

// Bytes, each as an integer.
fn octets_of(alloc: Global, bytes: &[u8]) -> Result<Vec<Ref>, NoMemory>
    ensures all { (m : Memory) → IfOk result (λ all. all_of m all.items ≡ numbers_in bytes.now) }
    ensures lie { (m : Memory) → IfOk result (λ all. AllLie m all.items) }
{
    let mut all = Vec::new(alloc);
    for i in 0..bytes.len() {
        keep(&mut all, Ref::Int(i64::from(bytes[i])))?;
    }
    Ok(all)
}

// The items of a range as a tuple.
fn place_numbers(arena: &mut Arena, steps: &Steps) -> Result<Ref, Fault>
    ensures tuple { PlacesTuple (integers_in (range_items steps.now.start steps.now.stop steps.now.step)) arena.old arena.new result }
    ensures told { is_too_large (tuple_of (integers_in (range_items steps.now.start steps.now.stop steps.now.step))) ≡ true → IsTold result }
{
    if items_in(steps) >= u64::from(MAX_TUPLE_VALUES) {
        return Err(Fault::Raises(Cause::TooLong));
    }
    let items = numbers_of(arena.allocator(), steps)?;
    arena.place_tuple(items.as_slice())
}

// The items of a range.
fn numbers_of(alloc: Global, steps: &Steps) -> Result<Vec<Ref>, NoMemory>
    ensures all { (m : Memory) → IfOk result (λ all. all_of m all.items ≡ integers_in (range_items steps.now.start steps.now.stop steps.now.step)) }
    ensures lie { (m : Memory) → IfOk result (λ all. AllLie m all.items) }
{
    let mut all = Vec::new(alloc);
    for i in 0..items_in(steps) {
        keep(&mut all, Ref::Int(item_of(steps, i)))?;
    }
    Ok(all)
}

/// Puts a value after others.
pub fn keep(values: &mut Vec<Ref>, value: Ref) -> Result<(), NoMemory>
    ensures { OnOk result (values.new.items ≡ values.old.items ++ value ∷ []) }
{
    values.push(value)?;
    Ok(())
}
