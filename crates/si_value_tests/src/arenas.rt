// Lists and dicts, as a host of scripts would use them.

ghost use Rattle.std.specs.Prelude.{◌<◌, length};
ghost use Rattle.si_arena.specs.Memory.{AllLie};

use crate::made::dict;
use si_arena::{Arena, Contents, Ref};
use std::alloc::{AllocError, Global};
use std::test::Fail;

// Whether the items of the list at an address are these integers.
fn shows(arena: &Arena, address: usize, wanted: &[i64]) -> bool
    requires { address < length arena.now.store }
{
    match arena.list(address) {
        Some(items) => are_integers(items, wanted),
        None => false,
    }
}

fn are_integers(items: &[Ref], wanted: &[i64]) -> bool {
    if items.len() != wanted.len() {
        return false;
    }
    for i in 0..items.len() {
        let same = match items[i] {
            Ref::Int(n) => n == wanted[i],
            _ => false,
        };
        if !same {
            return false;
        }
    }
    true
}

// Whether the keys of the dict at an address are these integers, in this order, and so its values.
fn has_pairs(arena: &Arena, address: usize, keys: &[i64], values: &[i64]) -> bool
    requires { address < length arena.now.store }
{
    match arena.object(address) {
        Contents::Dict(dict) => {
            if dict.len() != keys.len() || dict.len() != values.len() {
                return false;
            }
            for i in 0..dict.len() {
                let pair = dict.pair(i);
                if !are_integers(&[pair.key, pair.value], &[keys[i], values[i]]) {
                    return false;
                }
            }
            true
        }
        _ => false,
    }
}

// Whether a list of 1 and 2 has its items twice, with 3 between, where 3 and then its own are put at its end.
fn grows_by_itself(alloc: Global) -> Result<bool, AllocError> {
    let mut arena = Arena::new(alloc);
    let _list = arena.make_list_of(&[Ref::Int(1), Ref::Int(2)])?;
    arena.append(0, Ref::Int(3))?;
    arena.extend_from(0, Ref::Object(0))?;
    Ok(shows(&arena, 0, &[1, 2, 3, 1, 2, 3]))
}

#[test]
fn a_list_grows_by_itself(rt: HostRuntime) -> Result<(), Fail> {
    assert!(rt; grows_by_itself(rt.alloc())?);
    Ok(())
}

// Whether a list of 5, 6 and 7 gives 5 and has 6 and 8 left, where its last item is set to 8 and its first is taken.
fn changes(alloc: Global) -> Result<bool, AllocError> {
    let mut arena = Arena::new(alloc);
    let _list = arena.make_list_of(&[Ref::Int(5), Ref::Int(6), Ref::Int(7)])?;
    arena.set_item(0, 2, Ref::Int(8));
    let taken = arena.remove_item(0, 0);
    Ok(matches!(taken, Ref::Int(5)) && shows(&arena, 0, &[6, 8]))
}

#[test]
fn an_item_is_changed_and_taken(rt: HostRuntime) -> Result<(), Fail> {
    assert!(rt; changes(rt.alloc())?);
    Ok(())
}

// Whether of two lists of 1 the second alone grows.
fn are_two(alloc: Global) -> Result<bool, AllocError> {
    let row = Vec::from_slice(alloc, &[Ref::Int(1)])?;
    let mut arena = Arena::new(alloc);
    let _first = arena.make_list(row)?;
    let second = arena.make_list_of(&[Ref::Int(1)])?;
    arena.extend(1, &[Ref::Int(2), Ref::Int(3)])?;
    let is_second = matches!(second, Ref::Object(1));
    Ok(is_second && shows(&arena, 0, &[1]) && shows(&arena, 1, &[1, 2, 3]))
}

#[test]
fn two_lists_are_two(rt: HostRuntime) -> Result<(), Fail> {
    assert!(rt; are_two(rt.alloc())?);
    Ok(())
}

// Whether a dict of integers, each key with its value after it, has these keys in this order, and these values.
fn keeps(arena: &mut Arena, operands: &[Ref], keys: &[i64], values: &[i64]) -> bool
    requires { AllLie arena.old operands.now }
{
    match dict(arena, operands) {
        Some(address) => has_pairs(arena, address, keys, values),
        None => false,
    }
}

#[test]
fn a_dict_keeps_the_order_of_its_keys(rt: HostRuntime) {
    let mut arena = Arena::new(rt.alloc());
    let operands = [Ref::Int(3), Ref::Int(30), Ref::Int(1), Ref::Int(10)];
    assert!(rt; keeps(&mut arena, &operands, &[3, 1], &[30, 10]));
}

#[test]
fn a_later_value_keeps_the_place_of_its_key(rt: HostRuntime) {
    let mut arena = Arena::new(rt.alloc());
    let operands = [
        Ref::Int(3),
        Ref::Int(30),
        Ref::Int(1),
        Ref::Int(10),
        Ref::Int(3),
        Ref::Int(33),
    ];
    assert!(rt; keeps(&mut arena, &operands, &[3, 1], &[33, 10]));
}

// Whether the value of a text in a dict is 5.
fn has_five(arena: &mut Arena, address: usize, text: &str) -> bool
    requires { address < length arena.old.store }
{
    match arena.place_text(text) {
        Ok(key) => matches!(arena.find(address, key), Some(Ref::Int(5))),
        Err(_) => false,
    }
}

// What a dict gives for a text, whose one key is another text: whether its value is 5.
fn gives_five(arena: &mut Arena, key: &str, text: &str) -> Option<bool> {
    let Ok(key) = arena.place_text(key) else {
        return None;
    };
    match dict(arena, &[key, Ref::Int(5)]) {
        Some(address) => Some(has_five(arena, address, text)),
        None => None,
    }
}

// Keys of each form of a text: in the value itself, of one byte a character, and wide.
#[test]
fn texts_are_keys_by_their_characters(rt: HostRuntime) {
    let mut arena = Arena::new(rt.alloc());
    for text in [
        "a",
        "a name of more than eleven",
        "5 \u{20ac} for a caf\u{e9}",
    ] {
        assert!(rt; gives_five(&mut arena, text, text) == Some(true), "{text}");
        let other = "another name of more than eleven";
        assert!(rt;
            gives_five(&mut arena, text, other) == Some(false),
            "{text}"
        );
    }
}

// Whether no dict is made with a truth as its key, so that the next one is the first object, and that has no value for a truth.
fn truth_is_no_key(alloc: Global) -> Result<bool, AllocError> {
    let truth = Ref::Truth([], true);
    let mut arena = Arena::new(alloc);
    let none = arena.make_dict(&[truth, Ref::Int(1)])?;
    let one = arena.make_dict(&[Ref::Int(1), Ref::Int(1)])?;
    match (none, one) {
        (None, Some(Ref::Object(0))) => Ok(arena.find(0, truth).is_none()),
        _ => Ok(false),
    }
}

#[test]
fn what_is_no_key_makes_no_dict(rt: HostRuntime) -> Result<(), Fail> {
    assert!(rt; truth_is_no_key(rt.alloc())?);
    Ok(())
}

// Whether a dict gives the value of a key that is taken, and has it no longer, but that which was set.
fn sets_and_takes(alloc: Global) -> Result<bool, AllocError> {
    let mut arena = Arena::new(alloc);
    let _dict = arena.make_dict(&[Ref::Int(1), Ref::Int(10), Ref::Int(2), Ref::Int(20)])?;
    arena.set_pair(0, Ref::Int(3), Ref::Int(30))?;
    let taken = arena.remove_pair(0, Ref::Int(1));
    let again = arena.remove_pair(0, Ref::Int(1));
    let has_left = has_pairs(&arena, 0, &[2, 3], &[20, 30]);
    Ok(matches!(taken, Some(Ref::Int(10))) && again.is_none() && has_left)
}

#[test]
fn a_key_is_set_and_taken(rt: HostRuntime) -> Result<(), Fail> {
    assert!(rt; sets_and_takes(rt.alloc())?);
    Ok(())
}
