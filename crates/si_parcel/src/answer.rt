// What a shared action is answered.

ghost use Rattle.std.specs.Prelude.{◌≡◌, ◌↔◌, true, IfOk, IsOk, IsTrue};

use crate::action::Action;
use crate::ids::Ids;
use crate::job::Job;
use crate::outcome::Outcome;
use crate::parcel::Parcel;
use std::alloc::{AllocError, Global};

/// What a shared action is answered.
#[derive(Drop)]
pub enum Answer {
    /// There are as many as the limits allow.
    Limit,
    /// The interpreter that was made.
    Created(u32),
    /// The queue that was made.
    QueueMade(u32),
    /// The run that was started.
    Started(u64),
    /// It is done.
    Done,
    /// The queue is full.
    Full,
    /// The queue is empty.
    Empty,
    /// The item that was taken.
    Item(Parcel),
    /// How many items there are.
    Count(u64),
    /// The interpreter is closed.
    NotFound,
    /// The interpreter runs.
    Running,
    /// The interpreter is the one that asks.
    Current,
    /// The interpreter is the main one.
    Main,
    /// How the run ended.
    Ended(Outcome),
    /// Whether it is so.
    Truth(bool),
    /// The interpreters that are not closed.
    Ids(Ids),
    /// What is to be done.
    Given(Job),
}

// Each call of the journal has an answer.
const _: () = prove!(std::mem::size_of::<Answer>() <= 32);

impl Answer {
    ghost use Rattle.si_semantics.specs.Actions.{fits};
    ghost use Rattle.si_parcel.specs.Shared.{action_of, answer_of};
    ghost use Rattle.si_parcel.specs.Bare.{is_bare_answer};

    /// The same answer again. `AllocError` where memory is refused; an answer without text, parcel and list takes none.
    pub fn clone_answer(&self, alloc: Global) -> Result<Answer, AllocError>
        ensures same { IfOk result (λ a. a ≡ self.now) }
        ensures no_memory { is_bare_answer (answer_of self.now) ≡ true → IsOk result }
    {
        match self {
            Answer::Limit => Ok(Answer::Limit),
            Answer::Created(id) => Ok(Answer::Created(*id)),
            Answer::QueueMade(id) => Ok(Answer::QueueMade(*id)),
            Answer::Started(run) => Ok(Answer::Started(*run)),
            Answer::Done => Ok(Answer::Done),
            Answer::Full => Ok(Answer::Full),
            Answer::Empty => Ok(Answer::Empty),
            Answer::Item(parcel) => Ok(Answer::Item(parcel.clone_parcel(alloc)?)),
            Answer::Count(count) => Ok(Answer::Count(*count)),
            Answer::NotFound => Ok(Answer::NotFound),
            Answer::Running => Ok(Answer::Running),
            Answer::Current => Ok(Answer::Current),
            Answer::Main => Ok(Answer::Main),
            Answer::Ended(outcome) => Ok(Answer::Ended(outcome.clone_outcome()?)),
            Answer::Truth(truth) => Ok(Answer::Truth(*truth)),
            Answer::Ids(ids) => Ok(Answer::Ids(ids.clone_ids(alloc)?)),
            Answer::Given(job) => Ok(Answer::Given(job.clone_job(alloc)?)),
        }
    }

    // Whether the two are the same.
    pub(crate) fn same(&self, other: &Answer) -> bool
        ensures { IsTrue result ↔ (self.now ≡ other.now) }
    {
        match (self, other) {
            (Answer::Limit, Answer::Limit) => true,
            (Answer::Created(i), Answer::Created(j)) => *i == *j,
            (Answer::QueueMade(q), Answer::QueueMade(r)) => *q == *r,
            (Answer::Started(r), Answer::Started(s)) => *r == *s,
            (Answer::Done, Answer::Done) => true,
            (Answer::Full, Answer::Full) => true,
            (Answer::Empty, Answer::Empty) => true,
            (Answer::Item(parcel), Answer::Item(other)) => parcel.same(other),
            (Answer::Count(m), Answer::Count(n)) => *m == *n,
            (Answer::NotFound, Answer::NotFound) => true,
            (Answer::Running, Answer::Running) => true,
            (Answer::Current, Answer::Current) => true,
            (Answer::Main, Answer::Main) => true,
            (Answer::Ended(outcome), Answer::Ended(other)) => outcome.same(other),
            (Answer::Truth(b), Answer::Truth(c)) => *b == *c,
            (Answer::Ids(ids), Answer::Ids(others)) => ids == others,
            (Answer::Given(job), Answer::Given(other)) => job.same(other),
            _ => false,
        }
    }

    /// Whether an action may be given this answer. Takes no memory.
    pub fn fits(&self, action: &Action) -> bool
        ensures { result ≡ fits (answer_of self.now) (action_of action.now) }
    {
        match action {
            Action::Create => matches!(self, Answer::Limit | Answer::Created(_)),
            Action::CreateQueue(_) => matches!(self, Answer::Limit | Answer::QueueMade(_)),
            Action::Put(_, _) => matches!(self, Answer::Done),
            Action::PutNow(_, _) => matches!(self, Answer::Full | Answer::Done),
            Action::Get(_) => matches!(self, Answer::Item(_)),
            Action::GetNow(_) => matches!(self, Answer::Empty | Answer::Item(_)),
            Action::Size(_) => matches!(self, Answer::Count(_)),
            Action::Prepare(_, _) => {
                matches!(self, Answer::NotFound | Answer::Running | Answer::Done)
            }
            Action::Start(_, _) => {
                matches!(
                    self,
                    Answer::NotFound | Answer::Running | Answer::Started(_)
                )
            }
            Action::Await(_) => matches!(self, Answer::Ended(_)),
            Action::IsRunning(_) => matches!(self, Answer::NotFound | Answer::Truth(_)),
            Action::Close(_) => matches!(
                self,
                Answer::NotFound | Answer::Current | Answer::Main | Answer::Running | Answer::Done
            ),
            Action::ListAll => matches!(self, Answer::Ids(_)),
            Action::Take => matches!(self, Answer::Given(_)),
            Action::End(_) => matches!(self, Answer::Done),
        }
    }
}

impl PartialEq for Answer {
    ghost use Rattle.si_parcel.specs.Same.{same_by, same_by_per};
    ghost use Rattle.si_parcel.specs.contracts.answer.Answer.{the_row};

    ghost eq = { same_by the_row.coded };

    ghost laws = { same_by_per the_row.coded };

    /// Whether the two are the same.
    fn eq(&self, other: &Answer) -> bool
        ensures eq { result ≡ same_by the_row.coded self.now other.now }
        ensures same { IsTrue result ↔ (self.now ≡ other.now) }
    {
        self.same(other)
    }
}

impl Eq for Answer {
    ghost use Rattle.si_parcel.specs.Same.{same_by_equiv};
    ghost use Rattle.si_parcel.specs.contracts.answer.Answer.{the_row};

    ghost laws = { same_by_equiv the_row.coded };
}
