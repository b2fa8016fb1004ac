// What is in a value.

ghost use Rattle.std.specs.Prelude.{◌≡◌, ◌≤◌, ◌<◌, drop, length, slice_get, Ok};
ghost use Rattle.si_semantics.specs.Parts.{begins_with, is_part};
ghost use Rattle.si_semantics.specs.World.{World};
ghost use Rattle.si_semantics.specs.Value.{Str, Bytes};
ghost use Rattle.si_semantics.specs.Operations as operations;
ghost use Rattle.si_arena.specs.Texts.{characters_in};
ghost use Rattle.si_semantics.specs.Dicts.{key_of};
ghost use Rattle.si_arena.specs.Memory.{Memory, value_of, all_of, dict_at, range_of, Lies, AllLie};
ghost use Rattle.si_arena.specs.Views.{value_in};
ghost use Rattle.si_ops.specs.Runs.{decided};

use crate::characters::{character_at, length_of};
use crate::equality::are_equal;
use crate::held::is_key;
use crate::ranges::is_among;
use crate::refusal::Refusal;
use crate::truth::int_of_truth;
use si_arena::{Arena, Characters, Contents, Ref, Steps, View};

/// `item in whole`, where it has an answer (Python Language Reference 3.14, 6.10.2). It takes no memory.
pub fn contains(arena: &Arena, whole: Ref, item: Ref) -> Result<bool, Refusal>
    requires whole { Lies arena.now whole }
    requires item { Lies arena.now item }
    ensures { (w : World) → w.store ≡ arena.now.store → operations.contains (value_of arena.now whole) (value_of arena.now item) w ≡ decided result }
{
    match arena.view(&whole) {
        View::Str(text) => is_in_text(text, arena.view(&item)),
        View::Bytes(bytes) => is_in_bytes(bytes, arena.view(&item)),
        View::Range(steps) => Ok(is_item_of(steps, arena.view(&item))),
        View::Tuple(items) => is_any_of(arena, items, item),
        View::Object(address) => is_in_object(arena, address, item),
        _ => Err(Refusal::WrongType),
    }
}

// Whether a value is a part of a text, where it is a str.
fn is_in_text(text: Characters, part: View) -> Result<bool, Refusal>
    ensures { (m : Memory) (w : World) → operations.contains (Str (characters_in text.entry)) (value_in m part.entry) w ≡ decided result }
{
    match part {
        View::Str(part) => Ok(is_part(text, part)),
        _ => Err(Refusal::WrongType),
    }
}

// Whether a value is a part of bytes, where it is bytes or an integer.
fn is_in_bytes(bytes: &[u8], part: View) -> Result<bool, Refusal>
    ensures { (m : Memory) (w : World) → operations.contains (Bytes bytes.now) (value_in m part.entry) w ≡ decided result }
{
    match part {
        View::Bytes(part) => Ok(is_part(Characters::Narrow(bytes), Characters::Narrow(part))),
        View::Int(n) => is_byte_in(bytes, n),
        View::Truth(truth) => is_byte_in(bytes, int_of_truth(truth)),
        _ => Err(Refusal::WrongType),
    }
}

// Whether an integer is among bytes, where it can be one.
fn is_byte_in(bytes: &[u8], n: i64) -> Result<bool, Refusal>
    ensures { decided result ≡ operations.is_byte_in bytes.now n }
{
    match u8::try_from(n) {
        Ok(byte) => Ok(is_part(Characters::Narrow(bytes), Characters::Narrow(&[byte]))),
        Err(_) => Err(Refusal::WrongValue),
    }
}

// Whether a value is an item of a range.
fn is_item_of(steps: &Steps, item: View) -> bool
    ensures { (m : Memory) (w : World) → operations.contains (range_of steps.now) (value_in m item.entry) w ≡ Ok result }
{
    match item {
        View::Int(n) => is_among(n, steps),
        View::Truth(truth) => is_among(int_of_truth(truth), steps),
        _ => false,
    }
}

// Whether a value is equal to one of these: it is asked whether it is equal to each, from the left.
fn is_any_of(arena: &Arena, items: &[Ref], item: Ref) -> Result<bool, Refusal>
    requires items { AllLie arena.now items.now }
    requires item { Lies arena.now item }
    ensures { (w : World) → w.store ≡ arena.now.store → operations.is_any_of (all_of arena.now items.now) (value_of arena.now item) w ≡ decided result }
{
    for i in 0..items.len() {
        match are_equal(arena, item, items[i]) {
            Ok(false) => {}
            Ok(true) => return Ok(true),
            Err(refusal) => return Err(refusal),
        }
    }
    Ok(false)
}

// Whether a value is an item of the list, or a key of the dict, at an address.
fn is_in_object(arena: &Arena, address: usize, item: Ref) -> Result<bool, Refusal>
    requires address { address < length arena.now.store }
    requires item { Lies arena.now item }
    ensures { (w : World) → w.store ≡ arena.now.store → operations.object_contains (slice_get arena.now.store address) (value_of arena.now item) w ≡ decided result }
{
    match arena.object(address) {
        Contents::List(items) => is_any_of(arena, items, item),
        Contents::Dict(_) => is_key_at(arena, address, item),
        Contents::Plain(_) => Err(Refusal::WrongType),
    }
}

// Whether a value is a key of the dict at an address, where it can be one.
fn is_key_at(arena: &Arena, address: usize, item: Ref) -> Result<bool, Refusal>
    requires address { address < length arena.now.store }
    requires item { Lies arena.now item }
    ensures { operations.is_key (key_of (value_of arena.now item)) (dict_at arena.now address) ≡ decided result }
{
    if !is_key(arena, item) {
        return Err(Refusal::WrongType);
    }
    Ok(arena.find(address, item).is_some())
}

// Whether a text is a part of another.
#[tactic(auto, using(crate::proofs::Parts::part_next, crate::proofs::Parts::part_found, crate::proofs::Parts::part_end))]
fn is_part(whole: Characters, part: Characters) -> bool
    ensures { result ≡ is_part (characters_in whole.entry) (characters_in part.entry) }
{
    for start in 0..length_of(whole) {
        if begins_at(whole, start, part) {
            return true;
        }
    }
    length_of(part) == 0
}

// Whether a text begins, from an index on, with another.
#[tactic(auto, using(crate::proofs::Parts::begins_next, crate::proofs::Parts::begins_apart, crate::proofs::Parts::begins_short, crate::proofs::Parts::begins_end))]
fn begins_at(whole: Characters, start: usize, part: Characters) -> bool
    requires { start ≤ length (characters_in whole) }
    ensures { result ≡ begins_with (drop start (characters_in whole.entry)) (characters_in part.entry) }
{
    for i in 0..length_of(part) {
        if length_of(whole) - start <= i {
            return false;
        }
        if character_at(whole, start + i) != character_at(part, i) {
            return false;
        }
    }
    true
}
