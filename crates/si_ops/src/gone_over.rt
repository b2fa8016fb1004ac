// All items of what can be gone over.

ghost use Rattle.std.specs.Prelude.{◌≡◌, ◌<◌, [], length, option_map, unwrap_or, slice_get, get_or, Some, IfOk};
ghost use Rattle.si_semantics.specs.Operations.{items_from, items_of_object};
ghost use Rattle.si_arena.specs.Memory.{value_of, all_of, Lies, AllLie};
ghost use Rattle.si_ops.specs.Items.{world_of, gone_over, Unpacks};

use crate::characters::length_of;
use crate::ranges::{item_of, items_in};
use crate::tuples::keep;
use si_arena::{Arena, Cause, Contents, Ref, View};
use si_plain::{Kind, NoMemory};

/// How many items a value gives, where it can be gone over (Python Language Reference 3.14, 8.3).
pub fn items_count(arena: &Arena, value: Ref) -> Option<u64>
    requires { Lies arena.now value }
    ensures { result ≡ option_map length (items_from (value_of arena.now value) (world_of arena.now)) }
{
    match arena.view(&value) {
        View::Str(text) => Some(length_of(text) as u64),
        View::Bytes(bytes) => Some(bytes.len() as u64),
        View::Range(steps) => Some(items_in(steps)),
        View::Tuple(items) => Some(items.len() as u64),
        View::Object(address) => object_count(arena, address),
        _ => None,
    }
}

// How many items the object at an address gives: a list its items, a dict its keys.
fn object_count(arena: &Arena, address: usize) -> Option<u64>
    requires { address < length arena.now.store }
    ensures { result ≡ option_map length (items_of_object (slice_get arena.now.store address)) }
{
    match arena.object(address) {
        Contents::List(items) => Some(items.len() as u64),
        Contents::Dict(pairs) => Some(pairs.len() as u64),
        Contents::Plain(_) => None,
    }
}

/// The item at an index of those that a value gives where it is gone over. It takes no memory.
pub fn nth_item(arena: &Arena, value: Ref, index: u64) -> Ref
    requires lies { Lies arena.now value }
    requires there { index < length (gone_over arena.now (value_of arena.now value)) }
    ensures item { slice_get (gone_over arena.now (value_of arena.now value)) index ≡ Some (value_of arena.now result) }
    ensures lies { Lies arena.now result }
{
    match arena.view(&value) {
        View::Str(_) => arena.character(value, index as usize),
        View::Bytes(bytes) => Ref::Int(i64::from(bytes[index as usize])),
        View::Range(steps) => Ref::Int(item_of(steps, index)),
        View::Tuple(items) => nth_of(items, index as usize),
        View::Object(address) => nth_of_object(arena, address, index as usize),
        _ => unreachable!(),
    }
}

// The item at an index.
#[inline(always)]
fn nth_of(items: &[Ref], index: usize) -> Ref
    requires { index < length items.now }
    ensures { result ≡ get_or items.now index result }
{
    items[index]
}

// The item at an index of those that the object at an address gives.
fn nth_of_object(arena: &Arena, address: usize, index: usize) -> Ref
    requires address { address < length arena.now.store }
    requires there { index < length (unwrap_or (items_of_object (slice_get arena.now.store address)) []) }
    ensures item { slice_get (unwrap_or (items_of_object (slice_get arena.now.store address)) []) index ≡ Some (value_of arena.now result) }
    ensures lies { Lies arena.now result }
{
    match arena.object(address) {
        Contents::List(items) => items[index],
        Contents::Dict(pairs) => pairs.pair(index).key,
        Contents::Plain(_) => unreachable!(),
    }
}

/// All items that a value gives, which are so many.
pub fn collected(arena: &Arena, value: Ref, count: usize) -> Result<Vec<Ref>, NoMemory>
    requires lies { Lies arena.now value }
    requires count { count ≡ length (gone_over arena.now (value_of arena.now value)) }
    ensures all { IfOk result (λ all. all_of arena.now all.items ≡ gone_over arena.now (value_of arena.now value)) }
    ensures lie { IfOk result (λ all. AllLie arena.now all.items) }
{
    let mut all = Vec::new(arena.allocator());
    for i in 0..count {
        keep(&mut all, nth_item(arena, value, i as u64))?;
    }
    Ok(all)
}

/// Whether a value has just so many items, one for each of so many targets (Python Language Reference 3.14, 7.2):
/// `WrongType` where it can't be gone over, `Arithmetic` with a ValueError where it has more or fewer. It takes no memory.
pub fn unpacks(arena: &Arena, count: usize, value: Ref) -> Result<(), Cause>
    requires { Lies arena.now value }
    ensures { Unpacks count arena.now (value_of arena.now value) result }
{
    match items_count(arena, value) {
        Some(items) => {
            if items == count as u64 {
                Ok(())
            } else {
                Err(Cause::Arithmetic(Kind::ValueError))
            }
        }
        None => Err(Cause::WrongType),
    }
}
