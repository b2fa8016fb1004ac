// What was asked.

ghost use Rattle.std.specs.Prelude.{◌≡◌, ◌++◌, OnOk, string_bytes, true, codes};
ghost use Rattle.std.specs.Fmt.{decimal};
ghost use Rattle.si_semantics.specs.Parcels.{shown};
ghost use Rattle.si_parcel.specs.Shared.{action_of, outcome_of};
ghost use Rattle.si_history.specs.History.{action_text, names_text, outcome_text};
ghost use Rattle.si_history.specs.inner.Adding.{Adds, is_ascii};

use crate::names::push_names;
use crate::outcome::push_outcome;
use crate::pieces::{push_numbered, push_parcel, push_word};
use si_parcel::{Action, Binds, Outcome, Parcel};
use si_plain::NoMemory;
use std::alloc::Global;

// Adds an action.
pub(crate) fn push_action(alloc: Global, out: &mut String, action: &Action) -> Result<(), NoMemory>
    ensures { OnOk result (Adds (string_bytes out.old) (string_bytes out.new) (action_text (action_of action.now))) }
{
    match action {
        Action::Create => push_word(out, "create"),
        Action::CreateQueue(maxsize) => push_numbered(out, "queue ", *maxsize),
        Action::Put(queue, parcel) => push_put(alloc, out, "put ", *queue, parcel),
        Action::PutNow(queue, parcel) => push_put(alloc, out, "putnow ", *queue, parcel),
        Action::Get(queue) => push_numbered(out, "get ", u64::from(*queue)),
        Action::GetNow(queue) => push_numbered(out, "getnow ", u64::from(*queue)),
        Action::Size(queue) => push_numbered(out, "size ", u64::from(*queue)),
        Action::Prepare(id, binds) => push_prepare(alloc, out, *id, binds),
        Action::Start(id, _) => push_numbered(out, "start ", u64::from(*id)),
        Action::Await(run) => push_numbered(out, "await ", *run),
        Action::IsRunning(id) => push_numbered(out, "running ", u64::from(*id)),
        Action::Close(id) => push_numbered(out, "close ", u64::from(*id)),
        Action::ListAll => push_word(out, "list"),
        Action::Take => push_word(out, "take"),
        Action::End(outcome) => push_end(alloc, out, outcome),
    }
}

// Adds a put, by its word: the queue, and the parcel.
fn push_put(
    alloc: Global,
    out: &mut String,
    word: &str,
    queue: u32,
    parcel: &Parcel,
) -> Result<(), NoMemory>
    requires { is_ascii word.now ≡ true }
    ensures { OnOk result (Adds (string_bytes out.old) (string_bytes out.new) (word.now ++ decimal queue ++ codes " " ++ shown parcel.now)) }
{
    push_numbered(out, word, u64::from(queue))?;
    push_word(out, " ")?;
    push_parcel(alloc, out, parcel)
}

// Adds a prepare: the interpreter, and the names.
fn push_prepare(alloc: Global, out: &mut String, id: u32, binds: &Binds) -> Result<(), NoMemory>
    ensures { OnOk result (Adds (string_bytes out.old) (string_bytes out.new) (codes "prepare " ++ decimal id ++ names_text binds.now)) }
{
    push_numbered(out, "prepare ", u64::from(id))?;
    push_names(alloc, out, binds.as_slice())
}

// Adds an end: the outcome.
fn push_end(alloc: Global, out: &mut String, outcome: &Outcome) -> Result<(), NoMemory>
    ensures { OnOk result (Adds (string_bytes out.old) (string_bytes out.new) (codes "end " ++ outcome_text (outcome_of outcome.now))) }
{
    push_word(out, "end ")?;
    push_outcome(alloc, out, outcome)
}
