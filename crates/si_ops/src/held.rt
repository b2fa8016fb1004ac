// What a value holds that can be changed.

ghost use Rattle.std.specs.Prelude.{◌≡◌, ◌<◌, length, is_some};
ghost use Rattle.si_semantics.specs.Value.{Address};
ghost use Rattle.si_semantics.specs.Dicts.{key_of};
ghost use Rattle.si_arena.specs.Memory.{value_of, Lies};
ghost use Rattle.si_ops.specs.inner.Held.{IsHeld};

use si_arena::{Arena, Contents, Ref, View};

/// What a value holds that can be changed: the items of the list or the pairs of the dict at an address, or nothing.
#[derive(Clone, Copy, Debug)]
pub enum Held {
    List(usize),
    Dict(usize),
    Other,
}

/// What a value holds.
#[inline(always)]
pub fn held_by(arena: &Arena, value: Ref) -> Held
    requires { Lies arena.now value }
    ensures { IsHeld arena.now (value_of arena.now value) result }
{
    match value {
        Ref::Object(address) => held_at(arena, address),
        Ref::Range(place) => {
            let _steps = arena.steps(place);
            Held::Other
        }
        Ref::Tuple(place) => {
            let _items = arena.tuple(place);
            Held::Other
        }
        _ => Held::Other,
    }
}

/// What the object at an address holds: mostly the items of a list.
#[inline(always)]
pub fn held_at(arena: &Arena, address: usize) -> Held
    requires { address < length arena.now.store }
    ensures { IsHeld arena.now (Address address) result }
{
    match arena.list(address) {
        Some(_) => Held::List(address),
        None => held_otherwise(arena, address),
    }
}

// The same, whatever it holds.
#[inline(never)]
fn held_otherwise(arena: &Arena, address: usize) -> Held
    requires { address < length arena.now.store }
    ensures { IsHeld arena.now (Address address) result }
{
    match arena.object(address) {
        Contents::List(_) => Held::List(address),
        Contents::Dict(_) => Held::Dict(address),
        Contents::Plain(_) => Held::Other,
    }
}

/// Whether a value can be a key of a dict (Python Language Reference 3.14, 3.2.7.1): an integer or a str.
pub fn is_key(arena: &Arena, value: Ref) -> bool
    requires { Lies arena.now value }
    ensures { result ≡ is_some (key_of (value_of arena.now value)) }
{
    match arena.view(&value) {
        View::Int(_) => true,
        View::Str(_) => true,
        _ => false,
    }
}
