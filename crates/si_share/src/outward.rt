// Values that are copied out of an arena.

ghost use Rattle.std.specs.Prelude.{◌≡◌, length, option_map};
ghost use Rattle.si_semantics.specs.Shareable.{is_shareable, parcel_of};
ghost use Rattle.si_semantics.specs.Parcels.{longest_in};
ghost use Rattle.si_semantics.specs.Value as pure;
ghost use Rattle.si_arena.specs.Memory.{value_of, Lies};
ghost use Rattle.si_arena.specs.Texts.{characters_in};
ghost use Rattle.si_share.specs.Copies.{CopiesOut};
ghost use Rattle.si_share.specs.inner.Fitting.{Fits};

use crate::bytes::bytes_out;
use crate::fault::ShareFault;
use crate::scalars::{is_scalar, scalar_out};
use crate::text::text_of;
use si_arena::{Arena, Characters, Ref, View};
use si_parcel::{Parcel, StrFault, TupleFault};
use si_plain::limits::{MAX_STR_LENGTH, MAX_TUPLE_LEVELS, MAX_TUPLE_VALUES};
use std::alloc::Global;

/// Whether a value may be sent to another interpreter (PEP 734, "Shareable Objects"): None, True, False, an int, a str,
/// bytes, a queue, or a tuple all of whose items may; a list and a dict may not. Takes no memory.
pub fn is_shareable(arena: &Arena, value: Ref) -> bool
    requires { Lies arena.now value }
    ensures { result ≡ is_shareable (value_of arena.now value) }
{
    longest(arena, value).is_some()
}

/// The parcel of a value, a copy that may be sent to another interpreter (PEP 734, "Shareable Objects"). `NotShareable`
/// exactly where `is_shareable` is false; `TooLarge` exactly where it is shareable and past the limits of a parcel, as a
/// str of more than 1,048,576 characters; `NoMemory` where memory is refused: only a str, bytes or a tuple within the
/// limits takes any.
pub fn copy_out(alloc: Global, arena: &Arena, value: Ref) -> Result<Parcel, ShareFault>
    requires { Lies arena.now value }
    ensures { CopiesOut (value_of arena.now value) result }
{
    let Some(longest) = longest(arena, value) else {
        return Err(ShareFault::NotShareable);
    };
    let size = arena.size(value);
    if size.values > MAX_TUPLE_VALUES {
        return Err(ShareFault::TooLarge);
    }
    if size.levels > MAX_TUPLE_LEVELS {
        return Err(ShareFault::TooLarge);
    }
    if longest > MAX_STR_LENGTH {
        return Err(ShareFault::TooLarge);
    }
    parcel_out(alloc, arena, value)
}

// How long the longest str or bytes in a value is, where it is shareable.
fn longest(arena: &Arena, value: Ref) -> Option<usize>
    requires { Lies arena.now value }
    ensures { result ≡ option_map longest_in (parcel_of (value_of arena.now value)) }
{
    match arena.view(&value) {
        View::None => Some(0),
        View::Truth(_) => Some(0),
        View::Int(_) => Some(0),
        View::Str(characters) => Some(length_of(characters)),
        View::Bytes(bytes) => Some(bytes.len()),
        View::Tuple(items) => {
            let mut most = 0;
            'items: for item in items {
                if !is_scalar(*item) {
                    let Some(length) = longest(arena, *item) else {
                        return None;
                    };
                    most = length.max(most);
                }
            }
            Some(most)
        }
        View::BuiltIn(_) => None,
        View::Function(_, _) => None,
        View::Range(_) => None,
        View::Kind(_) => None,
        View::Module(_) => None,
        View::Queue(_, _) => Some(0),
        View::Interpreter(_) => None,
        View::Exec(_) => None,
        View::Object(_) => None,
    }
}

// The parcel of a value that fits into one.
fn parcel_out(alloc: Global, arena: &Arena, value: Ref) -> Result<Parcel, ShareFault>
    requires there { Lies arena.now value }
    requires fits { Fits (value_of arena.now value) }
    ensures { CopiesOut (value_of arena.now value) result }
{
    match arena.view(&value) {
        View::None => Ok(Parcel::none()),
        View::Truth(truth) => Ok(Parcel::truth(truth)),
        View::Int(int) => Ok(Parcel::int(int)),
        View::Str(characters) => str_out(alloc, characters),
        View::Bytes(bytes) => bytes_out(alloc, bytes),
        View::Tuple(items) => {
            let mut parcels = Vec::with_capacity(alloc, items.len())?;
            'items: for item in items {
                let parcel = match scalar_out(*item) {
                    Some(parcel) => parcel,
                    None => parcel_out(alloc, arena, *item)?,
                };
                match parcels.push(parcel) {
                    Ok(()) => {}
                    Err(_) => return Err(ShareFault::NoMemory),
                }
            }
            match Parcel::tuple(alloc, parcels) {
                Ok(parcel) => Ok(parcel),
                Err(TupleFault::TooLarge(_)) => unreachable!(),
                Err(TupleFault::TooDeep(_)) => unreachable!(),
                Err(TupleFault::NoMemory(_)) => Err(ShareFault::NoMemory),
            }
        }
        View::BuiltIn(_) => unreachable!(),
        View::Function(_, _) => unreachable!(),
        View::Range(_) => unreachable!(),
        View::Kind(_) => unreachable!(),
        View::Module(_) => unreachable!(),
        View::Queue(id, maxsize) => Ok(Parcel::queue(id, maxsize)),
        View::Interpreter(_) => unreachable!(),
        View::Exec(_) => unreachable!(),
        View::Object(_) => unreachable!(),
    }
}

// The parcel of a str of these characters.
fn str_out(alloc: Global, characters: Characters<'_>) -> Result<Parcel, ShareFault>
    ensures { CopiesOut (pure.Str (characters_in characters.entry)) result }
{
    if length_of(characters) > MAX_STR_LENGTH {
        return Err(ShareFault::TooLarge);
    }
    let text = text_of(alloc, characters)?;
    match Parcel::str(alloc, text) {
        Ok(parcel) => Ok(parcel),
        Err(StrFault::TooLong(_)) => unreachable!(),
        Err(StrFault::NoMemory(_)) => Err(ShareFault::NoMemory),
    }
}

// How many characters these are.
fn length_of(characters: Characters<'_>) -> usize
    ensures { result ≡ length (characters_in characters.entry) }
{
    match characters {
        Characters::Narrow(characters) => characters.len(),
        Characters::Wide(characters) => characters.len(),
    }
}
