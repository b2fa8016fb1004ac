// How a run ended.

ghost use Rattle.std.specs.Prelude.{OnOk, string_bytes};
ghost use Rattle.si_semantics.specs.Life as life;
ghost use Rattle.si_parcel.specs.Shared.{outcome_of};
ghost use Rattle.si_history.specs.History.{outcome_text};
ghost use Rattle.si_history.specs.inner.Adding.{Adds};

use crate::pieces::{push_quoted, push_word};
use si_parcel::Outcome;
use si_plain::{Kind, NoMemory, Text};
use std::alloc::Global;

// Adds how a run ended.
pub(crate) fn push_outcome(
    alloc: Global,
    out: &mut String,
    outcome: &Outcome,
) -> Result<(), NoMemory>
    ensures { OnOk result (Adds (string_bytes out.old) (string_bytes out.new) (outcome_text (outcome_of outcome.now))) }
{
    match outcome {
        Outcome::Returned => push_word(out, "returned"),
        Outcome::Raised(kind, message) => push_raised(alloc, out, *kind, message.as_text()),
    }
}

// Adds what left a run.
fn push_raised(alloc: Global, out: &mut String, kind: Kind, message: &Text) -> Result<(), NoMemory>
    ensures { OnOk result (Adds (string_bytes out.old) (string_bytes out.new) (outcome_text (life.Raised kind message.now))) }
{
    push_word(out, "raised ")?;
    push_word(out, kind.name())?;
    push_word(out, " ")?;
    push_quoted(alloc, out, message)
}
