// What lines are put together from.

ghost use Rattle.std.specs.Prelude.{◌≡◌, ◌++◌, OnOk, string_bytes, true};
ghost use Rattle.std.specs.Fmt.{decimal};
ghost use Rattle.si_plain.specs.Repr.{repr_of};
ghost use Rattle.si_semantics.specs.Parcels.{shown};
ghost use Rattle.si_history.specs.inner.Adding.{Adds, is_ascii};

use si_parcel::Parcel;
use si_plain::{NoMemory, Text, repr_str};
use std::alloc::Global;

// Adds a word of ASCII.
pub(crate) fn push_word(out: &mut String, word: &str) -> Result<(), NoMemory>
    requires { is_ascii word.now ≡ true }
    ensures { OnOk result (Adds (string_bytes out.old) (string_bytes out.new) word.now) }
{
    out.push_str(word)
}

// Adds a number, in decimal.
pub(crate) fn push_number(out: &mut String, number: u64) -> Result<(), NoMemory>
    ensures { OnOk result (Adds (string_bytes out.old) (string_bytes out.new) (decimal number)) }
{
    write!(out, "{number}")
}

// Adds a word of ASCII, and a number.
pub(crate) fn push_numbered(out: &mut String, word: &str, number: u64) -> Result<(), NoMemory>
    requires { is_ascii word.now ≡ true }
    ensures { OnOk result (Adds (string_bytes out.old) (string_bytes out.new) (word.now ++ decimal number)) }
{
    push_word(out, word)?;
    push_number(out, number)
}

// Adds the `repr` of a str, however long.
pub(crate) fn push_quoted(alloc: Global, out: &mut String, text: &Text) -> Result<(), NoMemory>
    ensures { OnOk result (Adds (string_bytes out.old) (string_bytes out.new) (repr_of text.now)) }
{
    out.push_str(repr_str(alloc, text.as_str())?.as_str())
}

// Adds the `repr` of a parcel, however long.
pub(crate) fn push_parcel(alloc: Global, out: &mut String, parcel: &Parcel) -> Result<(), NoMemory>
    ensures { OnOk result (Adds (string_bytes out.old) (string_bytes out.new) (shown parcel.now)) }
{
    out.push_str(parcel.show(alloc)?.as_str())
}
