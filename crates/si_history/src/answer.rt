// What was answered.

ghost use Rattle.std.specs.Prelude.{◌++◌, OnOk, string_bytes, codes};
ghost use Rattle.si_parcel.specs.Shared.{answer_of, job_of};
ghost use Rattle.si_history.specs.History.{answer_text, job_text, names_text};
ghost use Rattle.si_history.specs.inner.Adding.{Adds};

use crate::ids::push_ids;
use crate::names::push_names;
use crate::outcome::push_outcome;
use crate::pieces::{push_number, push_numbered, push_parcel, push_word};
use si_parcel::{Answer, Binds, Job};
use si_plain::NoMemory;
use std::alloc::Global;

// Adds an answer.
pub(crate) fn push_answer(alloc: Global, out: &mut String, answer: &Answer) -> Result<(), NoMemory>
    ensures { OnOk result (Adds (string_bytes out.old) (string_bytes out.new) (answer_text (answer_of answer.now))) }
{
    match answer {
        Answer::Limit => push_word(out, "limit"),
        Answer::Created(id) => push_numbered(out, "interpreter ", u64::from(*id)),
        Answer::QueueMade(queue) => push_numbered(out, "queue ", u64::from(*queue)),
        Answer::Started(run) => push_numbered(out, "run ", *run),
        Answer::Done => push_word(out, "done"),
        Answer::Full => push_word(out, "full"),
        Answer::Empty => push_word(out, "empty"),
        Answer::Item(parcel) => push_parcel(alloc, out, parcel),
        Answer::Count(count) => push_number(out, *count),
        Answer::NotFound => push_word(out, "notfound"),
        Answer::Running => push_word(out, "running"),
        Answer::Current => push_word(out, "current"),
        Answer::Main => push_word(out, "main"),
        Answer::Ended(outcome) => push_outcome(alloc, out, outcome),
        Answer::Truth(true) => push_word(out, "True"),
        Answer::Truth(false) => push_word(out, "False"),
        Answer::Ids(ids) => push_ids(out, ids.as_slice()),
        Answer::Given(job) => push_job(alloc, out, job),
    }
}

// Adds what an interpreter is given to do.
fn push_job(alloc: Global, out: &mut String, job: &Job) -> Result<(), NoMemory>
    ensures { OnOk result (Adds (string_bytes out.old) (string_bytes out.new) (job_text (job_of job.now))) }
{
    match job {
        Job::Bind(binds) => push_bind(alloc, out, binds),
        Job::Run(run, _) => push_numbered(out, "run ", *run),
        Job::Closing => push_word(out, "closing"),
    }
}

// Adds that names are to be bound.
fn push_bind(alloc: Global, out: &mut String, binds: &Binds) -> Result<(), NoMemory>
    ensures { OnOk result (Adds (string_bytes out.old) (string_bytes out.new) (codes "bind" ++ names_text binds.now)) }
{
    push_word(out, "bind")?;
    push_names(alloc, out, binds.as_slice())
}
