// The calls, a line each.

ghost use Rattle.std.specs.Prelude.{◌≡◌, ◌++◌, codes, IfOk, OnOk, string_bytes, encode_utf8_all};
ghost use Rattle.std.specs.Fmt.{decimal};
ghost use Rattle.si_history.specs.History.{call_line, history as text_of};
ghost use Rattle.si_history.specs.inner.Adding.{Adds};

use crate::action::push_action;
use crate::answer::push_answer;
use crate::pieces::{push_number, push_word};
use si_hub::Call;
use si_plain::NoMemory;
use std::alloc::Global;

/// The text of a history: a line for each call of a hub's journal, in order (this project's own format). A line has the
/// number of the call from 1, which interpreter asked, the action, ` = ` and the answer, with spaces between, and a line
/// feed. No call gives no text. Names, messages and parcels stand by their `repr`, however long.
///
/// # Errors
///
/// `NoMemory` where memory was refused, and never else.
pub fn history(alloc: Global, journal: &[Call]) -> Result<String, NoMemory>
    ensures { IfOk result (λ s. string_bytes s ≡ encode_utf8_all (text_of journal.now)) }
{
    let mut out = String::new(alloc);
    'calls: for (at, call) in journal.iter().enumerate() {
        push_call(alloc, &mut out, at as u64 + 1, call)?;
    }
    Ok(out)
}

// Adds the line of a call with this number.
fn push_call(alloc: Global, out: &mut String, number: u64, call: &Call) -> Result<(), NoMemory>
    ensures { OnOk result (Adds (string_bytes out.old) (string_bytes out.new) (call_line number call.now)) }
{
    push_numbers(out, number, call.by)?;
    push_action(alloc, out, &call.action)?;
    push_word(out, " = ")?;
    push_answer(alloc, out, &call.answer)?;
    push_word(out, "\n")
}

// Adds the number of a call and who asked, each with a space after it.
fn push_numbers(out: &mut String, number: u64, by: u32) -> Result<(), NoMemory>
    ensures { OnOk result (Adds (string_bytes out.old) (string_bytes out.new) (decimal number ++ codes " " ++ decimal by ++ codes " ")) }
{
    push_number(out, number)?;
    push_word(out, " ")?;
    push_number(out, u64::from(by))?;
    push_word(out, " ")
}
