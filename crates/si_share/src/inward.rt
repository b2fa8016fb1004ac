// Parcels that are copied into an arena.

ghost use Rattle.std.specs.Prelude.{◌≡◌, ◌≤◌, length, is_some, true};
ghost use Rattle.si_semantics.specs.Text.{max_length};
ghost use Rattle.si_semantics.specs.Parcels.{Leaf, IsParcel, tuple_of};
ghost use Rattle.si_semantics.specs.Parcels as tree;
ghost use Rattle.si_semantics.specs.Shareable.{value_of_parcel};
ghost use Rattle.si_arena.specs.Short.{FitsShort};
ghost use Rattle.si_share.specs.Copies.{CopiesIn, NeedsRoom};

use crate::bytes::bytes_in;
use crate::scalars::scalar_in;
use si_arena::{Arena, Fault, Ref};
use si_parcel::{Atom, Parcel, Top};
use si_plain::{NoMemory, Text};
use std::alloc::AllocError;

/// A value that denotes the parcel's, in this arena, where all else is as it was. `NoMemory` where memory is refused: only a str takes any that is longer than 11 characters or has one of 256 or more, more than 11
/// bytes, and a tuple. Then what lay in the arena lies there and denotes what it did, and after a str or bytes the arena is
/// unchanged.
pub fn copy_in(arena: &mut Arena, parcel: &Parcel) -> Result<Ref, NoMemory>
    ensures copied { CopiesIn parcel.now arena.old arena.new result }
    ensures kept { ¬ NeedsRoom parcel.now → arena.new ≡ arena.old }
{
    value_in(arena, parcel)
}

// The value of a parcel that has one.
#[cycle(value_in)]
fn value_in(arena: &mut Arena, parcel: &Parcel) -> Result<Ref, NoMemory>
    requires { is_some (value_of_parcel parcel.now) ≡ true }
    ensures copied { CopiesIn parcel.now arena.old arena.new result }
    ensures kept { ¬ NeedsRoom parcel.now → arena.new ≡ arena.old }
{
    parcel.facts();
    match parcel.top() {
        Top::Atom(Atom::Nothing) => Ok(Ref::None),
        Top::Atom(Atom::Truth(truth)) => Ok(Ref::Truth([], truth)),
        Top::Atom(Atom::Int(int)) => Ok(Ref::Int(int)),
        Top::Atom(Atom::Str(text)) => str_in(arena, text),
        Top::Atom(Atom::Bytes(octets)) => bytes_in(arena, octets),
        Top::Atom(Atom::Queue(id, maxsize)) => Ok(Ref::Queue { id, maxsize }),
        Top::Tuple(items) => tuple_in(arena, items),
    }
}

// A tuple of the values of these parcels.
#[cycle(value_in)]
fn tuple_in(arena: &mut Arena, items: &[Parcel]) -> Result<Ref, NoMemory>
    requires fits { IsParcel (tuple_of items.now) }
    requires known { is_some (value_of_parcel (tuple_of items.now)) ≡ true }
    ensures { CopiesIn (tuple_of items.now) arena.old arena.new result }
{
    let mut values = Vec::with_capacity(arena.allocator(), items.len())?;
    'items: for item in items {
        let value = match scalar_in(item) {
            Some(value) => value,
            None => value_in(arena, item)?,
        };
        match values.push(value) {
            Ok(()) => {}
            Err(_) => return Err(AllocError),
        }
    }
    match arena.place_tuple(values.as_slice()) {
        Ok(placed) => Ok(placed),
        Err(Fault::NoMemory) => Err(AllocError),
        Err(Fault::Raises(_)) => unreachable!(),
    }
}

// A str of these characters, of which there are no more than a str may have.
fn str_in(arena: &mut Arena, text: &Text) -> Result<Ref, NoMemory>
    requires { length text.now ≤ max_length }
    ensures copied { CopiesIn (Leaf (tree.Str text.now)) arena.old arena.new result }
    ensures kept { FitsShort text.now → arena.new ≡ arena.old }
{
    match arena.place_text(text.as_str()) {
        Ok(placed) => Ok(placed),
        Err(Fault::NoMemory) => Err(AllocError),
        Err(Fault::Raises(_)) => unreachable!(),
    }
}
