// Subscriptions.

ghost use Rattle.std.specs.Prelude.{◌≡◌, ◌<◌, IfSome, Ok, length, slice_get};
ghost use Rattle.si_semantics.specs.Value.{Int};
ghost use Rattle.si_semantics.specs.Subscription as subscription;
ghost use Rattle.si_semantics.specs.Operations.{range_length, integer_in};
ghost use Rattle.si_semantics.specs.Dicts.{key_of};
ghost use Rattle.si_arena.specs.Memory.{Memory, value_of, all_of, list_at, dict_at, Lies, AllLie, IsListAt};
ghost use Rattle.si_arena.specs.Texts.{text_of};
ghost use Rattle.si_ops.specs.Runs.{Tells, Finds};
ghost use Rattle.si_ops.specs.inner.Held.{lack_of};

use crate::characters::length_of;
use crate::held::{Held, held_by, is_key};
use crate::lack::Lack;
use crate::operand::integer_in;
use crate::ranges::{item_of, items_in};
use si_arena::{Arena, Cause, Ref, Steps, View};

/// `object[index]` (Python Language Reference 3.14, 6.3.2). It takes no memory.
#[inline(always)]
pub fn subscript(arena: &Arena, object: Ref, index: Ref) -> Result<Ref, Lack>
    requires object { Lies arena.now object }
    requires index { Lies arena.now index }
    ensures { Finds (λ w. subscription.subscript (value_of arena.now object) (value_of arena.now index) w) (value_of arena.now index) arena.now result }
{
    if let (Ref::Object(address), Ref::Int(n)) = (object, index) {
        if let Some(item) = listed_at(arena, address, n) {
            return Ok(item);
        }
    }
    subscript_any(arena, object, index)
}

// The item at an index of the list at an address, where both are there.
#[inline(always)]
fn listed_at(arena: &Arena, address: usize, index: i64) -> Option<Ref>
    requires { address < length arena.now.store }
    ensures { IfSome result (λ r. Tells (λ w. subscription.object_item (slice_get w.store address) (Int index) w) arena.now (Ok r)) }
{
    match arena.list(address) {
        Some(items) => match member_in(arena, items, index) {
            Ok(item) => Some(item),
            Err(_) => None,
        },
        None => None,
    }
}

// The same as `subscript`, for values of any kinds.
#[inline(never)]
fn subscript_any(arena: &Arena, object: Ref, index: Ref) -> Result<Ref, Lack>
    requires object { Lies arena.now object }
    requires index { Lies arena.now index }
    ensures { Finds (λ w. subscription.subscript (value_of arena.now object) (value_of arena.now index) w) (value_of arena.now index) arena.now result }
{
    match held_by(arena, object) {
        Held::List(address) => found(item_in_list(arena, address, index)),
        Held::Dict(address) => value_in_dict(arena, address, index),
        Held::Other => found(item_in(arena, object, index)),
    }
}

// An item, or why there is none.
fn found(item: Result<Ref, Cause>) -> Result<Ref, Lack>
    ensures { result ≡ lack_of item }
{
    match item {
        Ok(item) => Ok(item),
        Err(cause) => Err(Lack::Raises(cause)),
    }
}

// The item at an index of the list at an address.
fn item_in_list(arena: &Arena, address: usize, index: Ref) -> Result<Ref, Cause>
    requires address { address < length arena.now.store }
    requires list { IsListAt arena.now address }
    requires index { Lies arena.now index }
    ensures { Tells (λ w. subscription.item_in_list (list_at arena.now address) (integer_in (value_of arena.now index)) w) arena.now result }
{
    let index = integer_in(arena, index)?;
    match arena.list(address) {
        Some(items) => member_in(arena, items, index),
        None => unreachable!(),
    }
}

// The value of a key of the dict at an address.
fn value_in_dict(arena: &Arena, address: usize, index: Ref) -> Result<Ref, Lack>
    requires address { address < length arena.now.store }
    requires index { Lies arena.now index }
    ensures { Finds (λ w. subscription.value_in_dict (dict_at arena.now address) (value_of arena.now index) (key_of (value_of arena.now index)) w) (value_of arena.now index) arena.now result }
{
    if !is_key(arena, index) {
        return Err(Lack::Raises(Cause::WrongType));
    }
    match arena.find(address, index) {
        Some(value) => Ok(value),
        None => Err(Lack::NoKey),
    }
}

// The item of a value at an index, of what is no object.
fn item_in(arena: &Arena, object: Ref, index: Ref) -> Result<Ref, Cause>
    requires object { Lies arena.now object }
    requires index { Lies arena.now index }
    ensures { Tells (λ w. subscription.item_at (value_of arena.now object) (integer_in (value_of arena.now index)) w) arena.now result }
{
    let index = integer_in(arena, index)?;
    match arena.view(&object) {
        View::Str(text) => character_in(arena, object, length_of(text), index),
        View::Bytes(bytes) => octet_in(bytes, index),
        View::Range(steps) => number_in(steps, index),
        View::Tuple(items) => member_in(arena, items, index),
        _ => Err(Cause::WrongType),
    }
}

// The character at an index of a str that has so many.
fn character_in(arena: &Arena, text: Ref, count: usize, index: i64) -> Result<Ref, Cause>
    requires lies { Lies arena.now text }
    requires count { count ≡ length (text_of arena.now.texts text) }
    ensures { Tells (λ w. subscription.character_at (text_of arena.now.texts text) (subscription.item_meant count index) w) arena.now result }
{
    match item_meant(count as u64, index) {
        Some(place) => Ok(arena.character(text, place as usize)),
        None => Err(Cause::Outside),
    }
}

// The byte at an index, as an integer.
fn octet_in(bytes: &[u8], index: i64) -> Result<Ref, Cause>
    ensures { (m : Memory) → Tells (λ w. subscription.byte_at bytes.now (subscription.item_meant (length bytes.now) index) w) m result }
{
    match item_meant(bytes.len() as u64, index) {
        Some(place) => Ok(Ref::Int(i64::from(bytes[place as usize]))),
        None => Err(Cause::Outside),
    }
}

// The item of values at an index.
#[inline(always)]
fn member_in(arena: &Arena, items: &[Ref], index: i64) -> Result<Ref, Cause>
    requires { AllLie arena.now items.now }
    ensures { Tells (λ w. subscription.item_of (all_of arena.now items.now) (subscription.item_meant (length items.now) index) w) arena.now result }
{
    match item_meant(items.len() as u64, index) {
        Some(place) => Ok(items[place as usize]),
        None => Err(Cause::Outside),
    }
}

// The item of a range at an index.
fn number_in(steps: &Steps, index: i64) -> Result<Ref, Cause>
    ensures { (m : Memory) → Tells (λ w. subscription.number_at steps.now.start steps.now.step (subscription.item_meant (range_length steps.now.start steps.now.stop steps.now.step) index) w) m result }
{
    match item_meant(items_in(steps), index) {
        Some(place) => Ok(Ref::Int(item_of(steps, place))),
        None => Err(Cause::Outside),
    }
}

/// Which of so many items an index means: one below 0 counts from the end.
#[inline(always)]
pub fn item_meant(count: u64, index: i64) -> Option<u64>
    ensures is { result ≡ subscription.item_meant count index }
    ensures inside { IfSome result (λ place. place < count) }
{
    let distance = index.unsigned_abs();
    if index < 0 {
        return count.checked_sub(distance);
    }
    if distance < count {
        Some(distance)
    } else {
        None
    }
}
