// What methods do with lists and dicts.

ghost use Rattle.std.specs.Prelude.{◌<◌, length, slice_get};
ghost use Rattle.si_semantics.specs.Containers as containers;
ghost use Rattle.si_semantics.specs.Dicts.{key_of};
ghost use Rattle.si_semantics.specs.Operations.{integer_in};
ghost use Rattle.si_arena.specs.Memory.{value_of, list_at, dict_at, Lies, IsListAt, IsDictAt};
ghost use Rattle.si_ops.specs.Runs.{Tells};
ghost use Rattle.si_ops.specs.Changes.{Changes, Takes, TakesItem};

use crate::changes::place_in;
use crate::held::{Held, held_at, is_key};
use crate::lack::Lack;
use crate::lists::are_too_many;
use crate::operand::integer_in;
use si_arena::{Arena, Cause, Fault, Ref};

/// A value at the end of the list at an address (Python Standard Library 3.14, "Built-in Types": mutable sequence types).
/// `TooLong` where the list has as many items as it may have; where it is refused, the arena is as before.
#[inline(always)]
pub fn append(arena: &mut Arena, address: usize, value: Ref) -> Result<(), Fault>
    requires address { address < length arena.old.store }
    requires value { Lies arena.old value }
    ensures { Changes (λ w. containers.append address (slice_get w.store address) (value_of arena.old value) w) arena.old arena.new result }
{
    match held_at(arena, address) {
        Held::List(list) => append_to(arena, list, value),
        Held::Dict(_) => Err(Fault::Raises(Cause::WrongType)),
        Held::Other => Err(Fault::Raises(Cause::WrongType)),
    }
}

// The same of what is a list.
#[inline(always)]
fn append_to(arena: &mut Arena, address: usize, value: Ref) -> Result<(), Fault>
    requires address { address < length arena.old.store }
    requires list { IsListAt arena.old address }
    requires value { Lies arena.old value }
    ensures { Changes (λ w. containers.append address (slice_get w.store address) (value_of arena.old value) w) arena.old arena.new result }
{
    if are_too_many(arena, address, 1) {
        return Err(Fault::Raises(Cause::TooLong));
    }
    arena.append(address, value)?;
    Ok(())
}

/// The item at an index of the list at an address, which is taken away (Python Standard Library 3.14, "Built-in Types":
/// mutable sequence types). It takes no memory.
pub fn pop_item(arena: &mut Arena, address: usize, index: Ref) -> Result<Ref, Cause>
    requires address { address < length arena.old.store }
    requires index { Lies arena.old index }
    ensures { TakesItem (λ w. containers.pop_item address (slice_get w.store address) (integer_in (value_of arena.old index)) w) arena.old arena.new result }
{
    match held_at(arena, address) {
        Held::List(list) => pop_in_list(arena, list, index),
        Held::Dict(_) => Err(Cause::WrongType),
        Held::Other => Err(Cause::WrongType),
    }
}

// The same of what is a list.
fn pop_in_list(arena: &mut Arena, address: usize, index: Ref) -> Result<Ref, Cause>
    requires address { address < length arena.old.store }
    requires list { IsListAt arena.old address }
    requires index { Lies arena.old index }
    ensures { TakesItem (λ w. containers.pop_in_list address (list_at arena.old address) (integer_in (value_of arena.old index)) w) arena.old arena.new result }
{
    match integer_in(arena, index) {
        Ok(n) => match place_in(arena, address, n) {
            Some(at) => Ok(arena.remove_item(address, at)),
            None => Err(Cause::Outside),
        },
        Err(cause) => Err(cause),
    }
}

/// The value of a key of the dict at an address, or another value where it is not there (Python Standard Library 3.14,
/// "dict"). It takes no memory.
pub fn get_value(arena: &Arena, address: usize, key: Ref, other: Ref) -> Result<Ref, Cause>
    requires address { address < length arena.now.store }
    requires key { Lies arena.now key }
    requires other { Lies arena.now other }
    ensures { Tells (λ w. containers.get_value (slice_get w.store address) (value_of arena.now key) (value_of arena.now other) w) arena.now result }
{
    match held_at(arena, address) {
        Held::Dict(dict) => get_in_dict(arena, dict, key, other),
        Held::List(_) => Err(Cause::WrongType),
        Held::Other => Err(Cause::WrongType),
    }
}

// The same of what is a dict.
fn get_in_dict(arena: &Arena, address: usize, key: Ref, other: Ref) -> Result<Ref, Cause>
    requires address { address < length arena.now.store }
    requires key { Lies arena.now key }
    requires other { Lies arena.now other }
    ensures { Tells (λ w. containers.get_in_dict (dict_at arena.now address) (key_of (value_of arena.now key)) (value_of arena.now other) w) arena.now result }
{
    if !is_key(arena, key) {
        return Err(Cause::WrongType);
    }
    match arena.find(address, key) {
        Some(value) => Ok(value),
        None => Ok(other),
    }
}

/// The value of a key of the dict at an address, which is taken away (Python Standard Library 3.14, "dict"). It takes no
/// memory.
pub fn pop_value(arena: &mut Arena, address: usize, key: Ref) -> Result<Ref, Lack>
    requires address { address < length arena.old.store }
    requires key { Lies arena.old key }
    ensures { Takes (λ w. containers.pop_value address (slice_get w.store address) (value_of arena.old key) w) (value_of arena.old key) arena.old arena.new result }
{
    match held_at(arena, address) {
        Held::Dict(dict) => pop_in_dict(arena, dict, key),
        Held::List(_) => Err(Lack::Raises(Cause::WrongType)),
        Held::Other => Err(Lack::Raises(Cause::WrongType)),
    }
}

// The same of what is a dict.
fn pop_in_dict(arena: &mut Arena, address: usize, key: Ref) -> Result<Ref, Lack>
    requires address { address < length arena.old.store }
    requires dict { IsDictAt arena.old address }
    requires key { Lies arena.old key }
    ensures { Takes (λ w. containers.pop_in_dict address (dict_at arena.old address) (value_of arena.old key) (key_of (value_of arena.old key)) w) (value_of arena.old key) arena.old arena.new result }
{
    if !is_key(arena, key) {
        return Err(Lack::Raises(Cause::WrongType));
    }
    match arena.find(address, key) {
        Some(value) => {
            let _value = arena.remove_pair(address, key);
            Ok(value)
        }
        None => Err(Lack::NoKey),
    }
}
