// What has no parts.

ghost use Rattle.std.specs.Prelude.{codes, ◌≡◌, ◌++◌, OnOk, string_bytes, encode_utf8_all};
ghost use Rattle.std.specs.Fmt.{signed_decimal, decimal};
ghost use Rattle.si_semantics.specs.Parcels.{length_of};

use si_plain::{Octets, Text};
use std::alloc::AllocError;

/// A shareable value with no parts (PEP 734, "Shareable Objects"), as it is seen in its parcel, which keeps it in another
/// form. True is not 1: they are two atoms.
#[derive(Clone, Copy)]
pub enum Atom<'a> {
    /// None.
    Nothing,
    /// True or False.
    Truth(bool),
    /// An int.
    Int(i64),
    /// A str.
    Str(&'a Text),
    /// A bytes.
    Bytes(&'a Octets),
    /// A queue: its number, and the most items that it holds, 0 for no bound.
    Queue(u32, u64),
}

impl Atom<'_> {
    ghost use Rattle.si_parcel.specs.Atoms.{atom_of};

    /// Its characters or bytes, where it is a str or a bytes; else 0.
    pub fn len(&self) -> usize
        ensures { result ≡ length_of (atom_of self.now) }
    {
        match self {
            Atom::Str(text) => text.len(),
            Atom::Bytes(bytes) => bytes.as_slice().len(),
            _ => 0,
        }
    }
}

// The `repr` of an int, after what was written.
pub(crate) fn show_int(n: i64, out: &mut String) -> Result<(), AllocError>
    ensures { OnOk result (string_bytes out.new ≡ string_bytes out.old ++ encode_utf8_all (signed_decimal n)) }
{
    write!(out, "{n}")
}

// The `repr` of a queue, after what was written.
pub(crate) fn show_queue(id: u32, out: &mut String) -> Result<(), AllocError>
    ensures { OnOk result (string_bytes out.new ≡ string_bytes out.old ++ encode_utf8_all (codes "Queue(" ++ decimal id ++ codes ")")) }
{
    out.push_str("Queue(")?;
    show_number(id, out)?;
    out.push_str(")")
}

fn show_number(n: u32, out: &mut String) -> Result<(), AllocError>
    ensures { OnOk result (string_bytes out.new ≡ string_bytes out.old ++ encode_utf8_all (decimal n)) }
{
    write!(out, "{n}")
}
