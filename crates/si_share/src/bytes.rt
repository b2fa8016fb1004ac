// Bytes that are copied out of an arena and into one.

ghost use Rattle.std.specs.Prelude.{◌≡◌, ◌≤◌, length};
ghost use Rattle.si_semantics.specs.Text.{max_length};
ghost use Rattle.si_semantics.specs.Value as pure;
ghost use Rattle.si_semantics.specs.Parcels.{Leaf};
ghost use Rattle.si_semantics.specs.Parcels as tree;
ghost use Rattle.si_share.specs.Copies.{CopiesIn, CopiesOut};

use crate::fault::ShareFault;
use si_arena::{Arena, Fault, Ref};
use si_parcel::Parcel;
use si_plain::limits::MAX_STR_LENGTH;
use si_plain::{NoMemory, Octets};
use std::alloc::{AllocError, Global};

// The parcel of these bytes.
pub(crate) fn bytes_out(alloc: Global, bytes: &[u8]) -> Result<Parcel, ShareFault>
    ensures { CopiesOut (pure.Bytes bytes.now) result }
{
    if bytes.len() > MAX_STR_LENGTH {
        return Err(ShareFault::TooLarge);
    }
    let octets = Octets::from_slice(alloc, bytes)?;
    match Parcel::bytes(octets) {
        Ok(parcel) => Ok(parcel),
        Err(_) => unreachable!(),
    }
}

// These bytes, of which there are no more than there may be.
pub(crate) fn bytes_in(arena: &mut Arena, octets: &Octets) -> Result<Ref, NoMemory>
    requires { length octets.now ≤ max_length }
    ensures copied { CopiesIn (Leaf (tree.Bytes octets.now)) arena.old arena.new result }
    ensures kept { length octets.now ≤ 11 → arena.new ≡ arena.old }
{
    match arena.place_bytes(octets.as_slice()) {
        Ok(placed) => Ok(placed),
        Err(Fault::NoMemory) => Err(AllocError),
        Err(Fault::Raises(_)) => unreachable!(),
    }
}
