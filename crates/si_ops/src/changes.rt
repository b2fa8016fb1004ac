// What changes lists and dicts: `u[v] = z`, `del u[v]`, and `+=`.

ghost use Rattle.std.specs.Prelude.{◌≡◌, ◌<◌, length, slice_get};
ghost use Rattle.si_semantics.specs.Tree as tree;
ghost use Rattle.si_semantics.specs.Containers as containers;
ghost use Rattle.si_semantics.specs.Dicts.{key_of};
ghost use Rattle.si_semantics.specs.Operations.{integer_in};
ghost use Rattle.si_arena.specs.Memory.{value_of, list_at, dict_at, Lies, IsListAt, IsDictAt};
ghost use Rattle.si_ops.specs.Calls.{Makes};
ghost use Rattle.si_ops.specs.Changes.{Changes, Deletes, IsGranted, IsNoDict};
ghost use Rattle.si_ops.specs.Operands.{made_of, NeedsNone, IsTold, AreNoLists};
ghost use Rattle.si_ops.specs.inner.Held.{PlaceIn};

use crate::arithmetic::binary;
use crate::gone_over::{collected, items_count};
use crate::held::{Held, held_by, is_key};
use crate::lack::Lack;
use crate::lists::are_too_many;
use crate::operand::integer_in;
use crate::subscripts::item_meant;
use si_arena::{Arena, Cause, Fault, Ref};
use si_plain::BinaryOperator;

/// `object[index] = value` (Python Language Reference 3.14, 7.2): of a list the item at an index, of a dict the value of a
/// key; no other value can be changed so. Memory may be refused only for a dict, which asks for it for a key that is not there. Where it is refused, the
/// arena is as before.
#[inline(always)]
pub fn set_item(arena: &mut Arena, object: Ref, index: Ref, value: Ref) -> Result<(), Fault>
    requires object { Lies arena.old object }
    requires index { Lies arena.old index }
    requires value { Lies arena.old value }
    ensures changes { Changes (λ w. containers.set_item (value_of arena.old object) (value_of arena.old index) (value_of arena.old value) w) arena.old arena.new result }
    ensures memory { IsNoDict arena.old.store (value_of arena.old object) → IsGranted result }
{
    if let (Ref::Object(address), Ref::Int(n)) = (object, index) {
        if let Some(at) = place_in(arena, address, n) {
            arena.set_item(address, at, value);
            return Ok(());
        }
    }
    set_any(arena, object, index, value)
}

/// Where the item at an index lies in the list at an address, where both are there.
#[inline(always)]
pub fn place_in(arena: &Arena, address: usize, index: i64) -> Option<usize>
    requires { address < length arena.now.store }
    ensures { PlaceIn arena.now address index result }
{
    match arena.list(address) {
        Some(items) => match item_meant(items.len() as u64, index) {
            Some(place) => Some(place as usize),
            None => None,
        },
        None => None,
    }
}

// The same as `set_item`, for values of any kinds.
#[inline(never)]
fn set_any(arena: &mut Arena, object: Ref, index: Ref, value: Ref) -> Result<(), Fault>
    requires object { Lies arena.old object }
    requires index { Lies arena.old index }
    requires value { Lies arena.old value }
    ensures changes { Changes (λ w. containers.set_item (value_of arena.old object) (value_of arena.old index) (value_of arena.old value) w) arena.old arena.new result }
    ensures memory { IsNoDict arena.old.store (value_of arena.old object) → IsGranted result }
{
    match held_by(arena, object) {
        Held::List(address) => set_in_list(arena, address, index, value),
        Held::Dict(address) => set_in_dict(arena, address, index, value),
        Held::Other => Err(Fault::Raises(Cause::WrongType)),
    }
}

// The item at an index of the list at an address is another value.
fn set_in_list(arena: &mut Arena, address: usize, index: Ref, value: Ref) -> Result<(), Fault>
    requires address { address < length arena.old.store }
    requires list { IsListAt arena.old address }
    requires index { Lies arena.old index }
    requires value { Lies arena.old value }
    ensures changes { Changes (λ w. containers.set_in_list address (list_at arena.old address) (integer_in (value_of arena.old index)) (value_of arena.old value) w) arena.old arena.new result }
    ensures memory { IsGranted result }
{
    match integer_in(arena, index) {
        Ok(n) => match place_in(arena, address, n) {
            Some(at) => {
                arena.set_item(address, at, value);
                Ok(())
            }
            None => Err(Fault::Raises(Cause::Outside)),
        },
        Err(cause) => Err(Fault::Raises(cause)),
    }
}

// A key of the dict at an address has a value.
fn set_in_dict(arena: &mut Arena, address: usize, key: Ref, value: Ref) -> Result<(), Fault>
    requires address { address < length arena.old.store }
    requires dict { IsDictAt arena.old address }
    requires key { Lies arena.old key }
    requires value { Lies arena.old value }
    ensures { Changes (λ w. containers.set_in_dict address (dict_at arena.old address) (key_of (value_of arena.old key)) (value_of arena.old value) w) arena.old arena.new result }
{
    if !is_key(arena, key) {
        return Err(Fault::Raises(Cause::WrongType));
    }
    arena.set_pair(address, key, value)?;
    Ok(())
}

/// `del object[index]` (Python Language Reference 3.14, 7.5): of a list the item at an index, of a dict a key with its
/// value. It takes no memory.
pub fn delete_item(arena: &mut Arena, object: Ref, index: Ref) -> Result<(), Lack>
    requires object { Lies arena.old object }
    requires index { Lies arena.old index }
    ensures { Deletes (λ w. containers.delete_item (value_of arena.old object) (value_of arena.old index) w) (value_of arena.old index) arena.old arena.new result }
{
    match held_by(arena, object) {
        Held::List(address) => delete_in_list(arena, address, index),
        Held::Dict(address) => delete_in_dict(arena, address, index),
        Held::Other => Err(Lack::Raises(Cause::WrongType)),
    }
}

// The item at an index of the list at an address is deleted.
fn delete_in_list(arena: &mut Arena, address: usize, index: Ref) -> Result<(), Lack>
    requires address { address < length arena.old.store }
    requires list { IsListAt arena.old address }
    requires index { Lies arena.old index }
    ensures { Deletes (λ w. containers.delete_in_list address (list_at arena.old address) (integer_in (value_of arena.old index)) w) (value_of arena.old index) arena.old arena.new result }
{
    match integer_in(arena, index) {
        Ok(n) => match place_in(arena, address, n) {
            Some(at) => {
                let _item = arena.remove_item(address, at);
                Ok(())
            }
            None => Err(Lack::Raises(Cause::Outside)),
        },
        Err(cause) => Err(Lack::Raises(cause)),
    }
}

// A key of the dict at an address is deleted, where it is there.
fn delete_in_dict(arena: &mut Arena, address: usize, key: Ref) -> Result<(), Lack>
    requires address { address < length arena.old.store }
    requires dict { IsDictAt arena.old address }
    requires key { Lies arena.old key }
    ensures { Deletes (λ w. containers.delete_in_dict address (dict_at arena.old address) (value_of arena.old key) (key_of (value_of arena.old key)) w) (value_of arena.old key) arena.old arena.new result }
{
    if !is_key(arena, key) {
        return Err(Lack::Raises(Cause::WrongType));
    }
    match arena.find(address, key) {
        Some(_) => {
            let _value = arena.remove_pair(address, key);
            Ok(())
        }
        None => Err(Lack::NoKey),
    }
}

/// The operator of an augmented assignment (Python Language Reference 3.14, 7.2.1): `+=` adds the items of whatever can be
/// gone over to a list, in its place; all else is as between two operands. Where it is refused, the arena is as before; of
/// two values that are no lists it takes no memory where `binary` takes none.
#[inline(always)]
pub fn augment(
    arena: &mut Arena,
    operator: BinaryOperator,
    left: Ref,
    right: Ref,
) -> Result<Ref, Fault>
    requires left { Lies arena.old left }
    requires right { Lies arena.old right }
    ensures makes { Makes (λ w. containers.augment operator (value_of arena.old left) (value_of arena.old right) w) arena.old arena.new result }
    ensures memory { AreNoLists arena.old.store (value_of arena.old left) (value_of arena.old right) → NeedsNone left right (made_of operator (value_of arena.old left) (value_of arena.old right)) → (arena.new ≡ arena.old) × IsTold result }
{
    match operator {
        BinaryOperator::Add => match left {
            Ref::Int(_) => binary(arena, operator, left, right),
            _ => add_to(arena, left, right),
        },
        _ => binary(arena, operator, left, right),
    }
}

// A value, where it is a list, with the items of another, in its place.
#[inline(never)]
fn add_to(arena: &mut Arena, left: Ref, right: Ref) -> Result<Ref, Fault>
    requires left { Lies arena.old left }
    requires right { Lies arena.old right }
    ensures makes { Makes (λ w. containers.augment tree.Add (value_of arena.old left) (value_of arena.old right) w) arena.old arena.new result }
    ensures memory { AreNoLists arena.old.store (value_of arena.old left) (value_of arena.old right) → NeedsNone left right (made_of tree.Add (value_of arena.old left) (value_of arena.old right)) → (arena.new ≡ arena.old) × IsTold result }
{
    match held_by(arena, left) {
        Held::List(address) => extend(arena, address, right),
        Held::Dict(_) => binary(arena, BinaryOperator::Add, left, right),
        Held::Other => binary(arena, BinaryOperator::Add, left, right),
    }
}

// The list at an address with the items of a value, in its place, where they are not too many.
fn extend(arena: &mut Arena, address: usize, value: Ref) -> Result<Ref, Fault>
    requires address { address < length arena.old.store }
    requires list { IsListAt arena.old address }
    requires value { Lies arena.old value }
    ensures { Makes (λ w. containers.added_to address (slice_get w.store address) (value_of arena.old value) w) arena.old arena.new result }
{
    let Some(count) = items_count(arena, value) else {
        return Err(Fault::Raises(Cause::WrongType));
    };
    if are_too_many(arena, address, count) {
        return Err(Fault::Raises(Cause::TooLong));
    }
    let items = collected(arena, value, count as usize)?;
    arena.extend(address, items.as_slice())?;
    Ok(Ref::Object(address))
}
