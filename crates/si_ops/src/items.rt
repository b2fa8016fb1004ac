// What a `for` goes over.

ghost use Rattle.std.specs.Prelude.{◌≡◌, option_map, IfSome, ◌<◌, length, slice_get};
ghost use Rattle.si_semantics.specs.World.{World};
ghost use Rattle.si_semantics.specs.Operations.{iterator_of};
ghost use Rattle.si_arena.specs.Memory.{Memory, value_of, Lies};
ghost use Rattle.si_arena.specs.Texts.{text_of};
ghost use Rattle.si_semantics.specs.Operations.{iterator_at};
ghost use Rattle.si_ops.specs.Items.{items_of, ItemsLie, GivesItem, GivesNext};
ghost use Rattle.si_ops.specs.declared.items.Items.TheVariants as item;

use crate::ranges::is_item;
use crate::tuples::members;
use si_arena::{Arena, Cause, Contents, Ref, View};
use si_plain::add;

/// What a `for` still has to give (Python Language Reference 3.14, 8.3).
#[derive(Clone, Copy, Debug)]
pub enum Items {
    /// The integers from one on, a step apart, before a stop.
    Numbers {
        at: i64,
        stop: i64,
        step: i64,
    },
    /// The characters of a str that has so many, of which so many were given.
    Characters {
        text: Ref,
        given: u32,
        length: u32,
    },
    /// Bytes, each as an integer, of which so many were given.
    Octets {
        bytes: Ref,
        given: usize,
    },
    /// The items of a tuple, of which so many were given.
    Members {
        tuple: Ref,
        given: usize,
    },
    /// The items of the list at an address, from a position on: it is looked at as it is at that turn.
    Listed {
        address: usize,
        at: usize,
    },
    /// The keys of the dict at an address, from a position on, and how many it had at first.
    Keys {
        address: usize,
        at: usize,
        count: usize,
    },
    /// Nothing.
    NoMore,
}

// What a `for` goes over is copied, and so it is small.
const _: () = prove!(size_of::<Items>() <= 32);

impl Items {
    /// What a value gives, where it can be gone over. It takes no memory.
    pub fn of(arena: &Arena, value: Ref) -> Option<Items>
        requires { Lies arena.now value }
        ensures items { (w : World) → w.store ≡ arena.now.store → option_map (items_of arena.now) result ≡ iterator_of (value_of arena.now value) w }
        ensures lie { IfSome result (λ items. ItemsLie arena.now items) }
    {
        match arena.view(&value) {
            View::Range(steps) => Some(Items::Numbers {
                at: steps.start,
                stop: steps.stop,
                step: steps.step,
            }),
            View::Str(_) => Some(Items::Characters {
                text: value,
                given: 0,
                length: length_in(value),
            }),
            View::Bytes(_) => Some(Items::Octets {
                bytes: value,
                given: 0,
            }),
            View::Tuple(_) => Some(Items::Members {
                tuple: value,
                given: 0,
            }),
            View::Object(address) => items_at(arena, address),
            _ => None,
        }
    }

    /// The next item, and what is left, where there is one; `SizeChanged` where a dict has not as many keys as at first. It
    /// takes no memory.
    #[inline(always)]
    pub fn next(self, arena: &Arena) -> Result<Option<(Ref, Items)>, Cause>
        requires { ItemsLie arena.now self }
        ensures { GivesNext arena.now self result }
    {
        match self {
            Items::Numbers { at, stop, step } => Ok(next_number(at, stop, step)),
            Items::Characters {
                text,
                given,
                length,
            } => Ok(next_character(arena, text, given, length)),
            Items::Octets { bytes, given } => Ok(next_octet(arena, bytes, given)),
            Items::Members { tuple, given } => Ok(next_member(arena, tuple, given)),
            Items::Listed { address, at } => Ok(next_listed(arena, address, at)),
            Items::Keys { address, at, count } => next_key(arena, address, at, count),
            Items::NoMore => Ok(None),
        }
    }
}

// What the object at an address gives: a list its items, a dict its keys.
fn items_at(arena: &Arena, address: usize) -> Option<Items>
    requires { address < length arena.now.store }
    ensures items { (m : Memory) → option_map (items_of m) result ≡ iterator_at address (slice_get arena.now.store address) }
    ensures lie { IfSome result (λ items. ItemsLie arena.now items) }
{
    match arena.object(address) {
        Contents::List(_) => Some(Items::Listed { address, at: 0 }),
        Contents::Dict(pairs) => Some(Items::Keys {
            address,
            at: 0,
            count: pairs.len(),
        }),
        Contents::Plain(_) => None,
    }
}

// How many characters a text has.
fn length_in(text: Ref) -> u32
    ensures { (m : Memory) → Lies m text → result ≡ length (text_of m.texts text) }
{
    match text {
        Ref::Short(short) => short.as_slice().len() as u32,
        Ref::Narrow { length, start: _ } => length,
        Ref::Wide { length, start: _ } => length,
        _ => 0,
    }
}

// The next integer, and what is left. Mostly the step is 1: by a way of its own neither the way that it goes is asked, nor whether
// what follows lies past the integers.
#[inline(always)]
fn next_number(at: i64, stop: i64, step: i64) -> Option<(Ref, Items)>
    ensures { (m : Memory) → GivesItem m (item.Numbers at stop step) result }
{
    if step == 1 {
        return next_by(at, stop, 1);
    }
    next_by(at, stop, step)
}

// The same, by any step: what lies past the integers lies past the stop.
#[inline(always)]
fn next_by(at: i64, stop: i64, step: i64) -> Option<(Ref, Items)>
    ensures { (m : Memory) → GivesItem m (item.Numbers at stop step) result }
{
    if !is_item(at, stop, step) {
        return None;
    }
    let rest = match add(at, step) {
        Ok(next) => Items::Numbers {
            at: next,
            stop,
            step,
        },
        Err(_) => Items::NoMore,
    };
    Some((Ref::Int(at), rest))
}

// The next character of a text, as a text, and what is left.
fn next_character(arena: &Arena, text: Ref, given: u32, length: u32) -> Option<(Ref, Items)>
    requires { ItemsLie arena.now (item.Characters text given length) }
    ensures { GivesItem arena.now (item.Characters text given length) result }
{
    if given >= length {
        return None;
    }
    let character = arena.character(text, given as usize);
    let rest = Items::Characters {
        text,
        given: given + 1,
        length,
    };
    Some((character, rest))
}

// The next of bytes, as an integer, and what is left.
fn next_octet(arena: &Arena, bytes: Ref, given: usize) -> Option<(Ref, Items)>
    requires { ItemsLie arena.now (item.Octets bytes given) }
    ensures { GivesItem arena.now (item.Octets bytes given) result }
{
    let all = arena.bytes(&bytes);
    if given >= all.len() {
        return None;
    }
    let octet = Ref::Int(i64::from(all[given]));
    let given = given + 1;
    Some((octet, Items::Octets { bytes, given }))
}

// The next item of a tuple, and what is left.
fn next_member(arena: &Arena, tuple: Ref, given: usize) -> Option<(Ref, Items)>
    requires { ItemsLie arena.now (item.Members tuple given) }
    ensures { GivesItem arena.now (item.Members tuple given) result }
{
    let all = members(arena, &tuple);
    if given >= all.len() {
        return None;
    }
    let member = all[given];
    let given = given + 1;
    Some((member, Items::Members { tuple, given }))
}

// The item of a list at a position, and what is left.
#[inline(always)]
fn next_listed(arena: &Arena, address: usize, at: usize) -> Option<(Ref, Items)>
    requires { address < length arena.now.store }
    ensures { GivesItem arena.now (item.Listed address at) result }
{
    match arena.list(address) {
        Some(items) => {
            if at >= items.len() {
                return None;
            }
            let next = items[at];
            let at = at + 1;
            Some((next, Items::Listed { address, at }))
        }
        None => None,
    }
}

// The key of a dict at a position, and what is left, where it has as many keys as at first.
fn next_key(
    arena: &Arena,
    address: usize,
    at: usize,
    count: usize,
) -> Result<Option<(Ref, Items)>, Cause>
    requires { address < length arena.now.store }
    ensures { GivesNext arena.now (item.Keys address at count) result }
{
    match arena.object(address) {
        Contents::Dict(pairs) => {
            if pairs.len() != count {
                return Err(Cause::SizeChanged);
            }
            if at >= count {
                return Ok(None);
            }
            let key = pairs.pair(at).key;
            let at = at + 1;
            Ok(Some((key, Items::Keys { address, at, count })))
        }
        Contents::List(_) => Ok(None),
        Contents::Plain(_) => Ok(None),
    }
}
