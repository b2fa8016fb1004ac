// Interpreters by their numbers.

ghost use Rattle.std.specs.Prelude.{OnOk, string_bytes};
ghost use Rattle.si_history.specs.History.{ids_text, further_ids};
ghost use Rattle.si_history.specs.inner.Adding.{Adds};

use crate::pieces::{push_number, push_numbered};
use si_plain::NoMemory;

// Adds the numbers, with spaces between.
pub(crate) fn push_ids(out: &mut String, ids: &[u32]) -> Result<(), NoMemory>
    ensures { OnOk result (Adds (string_bytes out.old) (string_bytes out.new) (ids_text ids.now)) }
{
    match ids {
        [] => Ok(()),
        [first, others @ ..] => {
            push_number(out, u64::from(*first))?;
            push_further_ids(out, others)
        }
    }
}

// Adds each number, after a space.
fn push_further_ids(out: &mut String, ids: &[u32]) -> Result<(), NoMemory>
    ensures { OnOk result (Adds (string_bytes out.old) (string_bytes out.new) (further_ids ids.now)) }
{
    'ids: for id in ids {
        push_numbered(out, " ", u64::from(*id))?;
    }
    Ok(())
}
