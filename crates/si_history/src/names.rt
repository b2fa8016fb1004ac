// Names to bind.

ghost use Rattle.std.specs.Prelude.{OnOk, string_bytes};
ghost use Rattle.si_history.specs.History.{names_text, name_text};
ghost use Rattle.si_history.specs.inner.Adding.{Adds};

use crate::pieces::{push_quoted, push_word};
use si_parcel::Parcel;
use si_plain::{NoMemory, Text};
use std::alloc::Global;

// Adds each name, after a space. The parcels are not told.
pub(crate) fn push_names(
    alloc: Global,
    out: &mut String,
    pairs: &[(Text, Parcel)],
) -> Result<(), NoMemory>
    ensures { OnOk result (Adds (string_bytes out.old) (string_bytes out.new) (names_text pairs.now)) }
{
    'pairs: for pair in pairs {
        push_name(alloc, out, pair)?;
    }
    Ok(())
}

// Adds a name, after a space.
fn push_name(alloc: Global, out: &mut String, pair: &(Text, Parcel)) -> Result<(), NoMemory>
    ensures { OnOk result (Adds (string_bytes out.old) (string_bytes out.new) (name_text pair.now)) }
{
    push_word(out, " ")?;
    push_quoted(alloc, out, &pair.0)
}
