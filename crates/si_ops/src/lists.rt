// Lists and dicts that are made: displays, operators between lists, and the built-in that makes them.

ghost use Rattle.std.specs.Prelude.{◌≡◌, ◌<◌, ◌+◌, ◌*◌, ◌++◌, length, nat_lt, pos, IfOk};
ghost use Rattle.si_semantics.specs.Value.{Address};
ghost use Rattle.si_semantics.specs.Value as pure;
ghost use Rattle.si_semantics.specs.Text.{max_length};
ghost use Rattle.si_semantics.specs.Operations as operations;
ghost use Rattle.si_semantics.specs.Containers as containers;
ghost use Rattle.si_arena.specs.Memory.{value_of, all_of, list_at, Lies, AllLie, IsListAt};
ghost use Rattle.si_ops.specs.Calls.{Makes};
ghost use Rattle.si_ops.specs.Operands.{IsNoList};

use crate::gone_over::{collected, items_count};
use crate::operand::integer_in;
use crate::tuples::{copied, gathered};
use si_arena::{Arena, Cause, Fault, Ref};
use si_plain::limits::MAX_STR_LENGTH;
use si_plain::{BinaryOperator, NoMemory};

// The most items of a list: as many as a str may have characters.
const MAX_ITEMS: usize = MAX_STR_LENGTH;

/// A new list of these items (Python Language Reference 3.14, 6.2.5). `TooLong` where they are too many; where it is
/// refused, the arena is as before.
pub fn make_list(arena: &mut Arena, items: &[Ref]) -> Result<Ref, Fault>
    requires { AllLie arena.old items.now }
    ensures { Makes (λ w. operations.list_within (all_of arena.old items.now) w) arena.old arena.new result }
{
    if items.len() > MAX_ITEMS {
        return Err(Fault::Raises(Cause::TooLong));
    }
    let list = arena.make_list_of(items)?;
    Ok(list)
}

/// A new dict of keys and values by turns (Python Language Reference 3.14, 6.2.7): a key that comes again has the later
/// value. `WrongType` where a key is none; where it is refused, the arena is as before.
pub fn make_dict(arena: &mut Arena, items: &[Ref]) -> Result<Ref, Fault>
    requires { AllLie arena.old items.now }
    ensures { Makes (λ w. containers.dict_of (all_of arena.old items.now) w) arena.old arena.new result }
{
    match arena.make_dict(items) {
        Ok(Some(dict)) => Ok(dict),
        Ok(None) => Err(Fault::Raises(Cause::WrongType)),
        Err(_) => Err(Fault::NoMemory),
    }
}

/// Whether the list at an address and so many items more are too many for a list.
#[inline(always)]
pub fn are_too_many(arena: &Arena, address: usize, more: u64) -> bool
    requires address { address < length arena.now.store }
    requires list { IsListAt arena.now address }
    ensures { result ≡ nat_lt max_length (length (list_at arena.now address) + more) }
{
    is_past_all(items_at(arena, address).len() as u64, more)
}

// Whether so many and so many items are too many for a list.
#[inline(always)]
fn is_past_all(count: u64, more: u64) -> bool
    ensures { result ≡ nat_lt max_length (count + more) }
{
    match count.checked_add(more) {
        Some(all) => all > MAX_ITEMS as u64,
        None => true,
    }
}

// The items of the list at an address.
fn items_at(arena: &Arena, address: usize) -> &[Ref]
    requires address { address < length arena.now.store }
    requires list { IsListAt arena.now address }
    ensures items { all_of arena.now result.now ≡ list_at arena.now address }
    ensures lie { AllLie arena.now result.now }
{
    match arena.list(address) {
        Some(items) => items,
        None => unreachable!(),
    }
}

/// An operator between the lists at two addresses, of which `+` alone gives a value, a new list.
pub fn joined_lists(
    arena: &mut Arena,
    operator: BinaryOperator,
    left: usize,
    right: usize,
) -> Result<Ref, Fault>
    requires left { left < length arena.old.store }
    requires left_list { IsListAt arena.old left }
    requires right { right < length arena.old.store }
    requires right_list { IsListAt arena.old right }
    ensures { Makes (λ w. operations.operate operator (Address left) (Address right) w) arena.old arena.new result }
{
    match operator {
        BinaryOperator::Add => join_lists(arena, left, right),
        _ => Err(Fault::Raises(Cause::WrongType)),
    }
}

// The items of one list and then those of another, in a new list.
fn join_lists(arena: &mut Arena, left: usize, right: usize) -> Result<Ref, Fault>
    requires left { left < length arena.old.store }
    requires left_list { IsListAt arena.old left }
    requires right { right < length arena.old.store }
    requires right_list { IsListAt arena.old right }
    ensures { Makes (λ w. operations.list_within (list_at arena.old left ++ list_at arena.old right) w) arena.old arena.new result }
{
    let more = items_at(arena, right).len() as u64;
    if are_too_many(arena, left, more) {
        return Err(Fault::Raises(Cause::TooLong));
    }
    let items = both(arena, left, right)?;
    let list = arena.make_list(items)?;
    Ok(list)
}

// The items of one list and then those of another.
fn both(arena: &Arena, left: usize, right: usize) -> Result<Vec<Ref>, NoMemory>
    requires left { left < length arena.now.store }
    requires left_list { IsListAt arena.now left }
    requires right { right < length arena.now.store }
    requires right_list { IsListAt arena.now right }
    ensures all { IfOk result (λ all. all_of arena.now all.items ≡ list_at arena.now left ++ list_at arena.now right) }
    ensures lie { IfOk result (λ all. AllLie arena.now all.items) }
{
    gathered(
        arena.allocator(),
        items_at(arena, left),
        items_at(arena, right),
    )
}

/// An operator between the list at an address and what is no list, of which `*` and an integer alone give a value, a new
/// list.
pub fn list_copies(
    arena: &mut Arena,
    operator: BinaryOperator,
    list: usize,
    other: Ref,
) -> Result<Ref, Fault>
    requires address { list < length arena.old.store }
    requires list { IsListAt arena.old list }
    requires other { Lies arena.old other }
    requires none { IsNoList arena.old.store (value_of arena.old other) }
    ensures { Makes (λ w. operations.operate operator (Address list) (value_of arena.old other) w) arena.old arena.new result }
{
    match operator {
        BinaryOperator::Multiply => match integer_in(arena, other) {
            Ok(count) => repeat_list(arena, list, count),
            Err(cause) => Err(Fault::Raises(cause)),
        },
        _ => Err(Fault::Raises(Cause::WrongType)),
    }
}

// The items of a list so many times, in a new list; below 0 as 0.
fn repeat_list(arena: &mut Arena, list: usize, count: i64) -> Result<Ref, Fault>
    requires address { list < length arena.old.store }
    requires list { IsListAt arena.old list }
    ensures { Makes (λ w. operations.list_repeated (list_at arena.old list) count w) arena.old arena.new result }
{
    if count <= 0 {
        let list = arena.make_list_of(&[])?;
        return Ok(list);
    }
    repeat_items(arena, list, count as u64)
}

// The items of a list so many times, in a new list.
fn repeat_items(arena: &mut Arena, list: usize, count: u64) -> Result<Ref, Fault>
    requires address { list < length arena.old.store }
    requires list { IsListAt arena.old list }
    ensures { Makes (λ w. operations.list_repeated (list_at arena.old list) (pos count) w) arena.old arena.new result }
{
    let items = items_at(arena, list);
    if items.is_empty() {
        let list = arena.make_list_of(&[])?;
        return Ok(list);
    }
    if is_copied_past(items.len() as u64, count) {
        return Err(Fault::Raises(Cause::TooLong));
    }
    let all = copied(arena.allocator(), items, count)?;
    let list = arena.make_list(all)?;
    Ok(list)
}

// Whether so many items so many times are too many for a list.
fn is_copied_past(items: u64, count: u64) -> bool
    ensures { result ≡ nat_lt max_length (count * items) }
{
    match count.checked_mul(items) {
        Some(all) => all > MAX_ITEMS as u64,
        None => true,
    }
}

/// A call of `list`, with one argument.
pub fn call_list(arena: &mut Arena, arguments: &[Ref]) -> Result<Ref, Fault>
    requires { AllLie arena.old arguments.now }
    ensures { Makes (λ w. operations.call_built_in pure.MakeList (all_of arena.old arguments.now) w) arena.old arena.new result }
{
    match arguments {
        [value] => list_from(arena, *value),
        _ => Err(Fault::Raises(Cause::WrongArguments)),
    }
}

// A new list of a value's items.
fn list_from(arena: &mut Arena, value: Ref) -> Result<Ref, Fault>
    requires { Lies arena.old value }
    ensures { Makes (λ w. operations.list_from (value_of arena.old value) w) arena.old arena.new result }
{
    let Some(count) = items_count(arena, value) else {
        return Err(Fault::Raises(Cause::WrongType));
    };
    if count > MAX_ITEMS as u64 {
        return Err(Fault::Raises(Cause::TooLong));
    }
    let items = collected(arena, value, count as usize)?;
    let list = arena.make_list(items)?;
    Ok(list)
}
