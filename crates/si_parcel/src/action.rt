// What an interpreter asks of what all share.

ghost use Rattle.std.specs.Prelude.{◌≡◌, ◌↔◌, true, IfOk, IsOk, IsTrue};

use crate::binds::Binds;
use crate::boxed_text::BoxedText;
use crate::outcome::Outcome;
use crate::parcel::Parcel;
use std::alloc::{AllocError, Global};

/// A shared action. Interpreters, queues and runs go by their numbers.
#[derive(Drop)]
pub enum Action {
    /// A new interpreter.
    Create,
    /// A new queue of at most so many items, 0 for no bound.
    CreateQueue(u64),
    /// A parcel at the end of a queue, once it is not full.
    Put(u32, Parcel),
    /// A parcel at the end of a queue, unless it is full.
    PutNow(u32, Parcel),
    /// The first item of a queue, once it has one.
    Get(u32),
    /// The first item of a queue, if it has one.
    GetNow(u32),
    /// How many items a queue has.
    Size(u32),
    /// Names to bind in an interpreter.
    Prepare(u32, Binds),
    /// A run of this text in an interpreter.
    Start(u32, BoxedText),
    /// How a run ended, once it has.
    Await(u64),
    /// Whether an interpreter runs.
    IsRunning(u32),
    /// To close an interpreter.
    Close(u32),
    /// The interpreters that are not closed.
    ListAll,
    /// The next job of one's own.
    Take,
    /// The own run ended so.
    End(Outcome),
}

// Each call of the journal has an action.
const _: () = prove!(std::mem::size_of::<Action>() <= 24);

impl Action {
    ghost use Rattle.si_parcel.specs.Shared.{action_of};
    ghost use Rattle.si_parcel.specs.Bare.{is_bare_action};

    /// The same action again. `AllocError` where memory is refused; an action without text and parcel takes none.
    pub fn clone_action(&self, alloc: Global) -> Result<Action, AllocError>
        ensures same { IfOk result (λ a. a ≡ self.now) }
        ensures no_memory { is_bare_action (action_of self.now) ≡ true → IsOk result }
    {
        match self {
            Action::Create => Ok(Action::Create),
            Action::CreateQueue(maxsize) => Ok(Action::CreateQueue(*maxsize)),
            Action::Put(queue, parcel) => Ok(Action::Put(*queue, parcel.clone_parcel(alloc)?)),
            Action::PutNow(queue, parcel) => Ok(Action::PutNow(
                *queue,
                parcel.clone_parcel(alloc)?,
            )),
            Action::Get(queue) => Ok(Action::Get(*queue)),
            Action::GetNow(queue) => Ok(Action::GetNow(*queue)),
            Action::Size(queue) => Ok(Action::Size(*queue)),
            Action::Prepare(id, binds) => Ok(Action::Prepare(*id, binds.clone_binds(alloc)?)),
            Action::Start(id, text) => Ok(Action::Start(*id, text.clone()?)),
            Action::Await(run) => Ok(Action::Await(*run)),
            Action::IsRunning(id) => Ok(Action::IsRunning(*id)),
            Action::Close(id) => Ok(Action::Close(*id)),
            Action::ListAll => Ok(Action::ListAll),
            Action::Take => Ok(Action::Take),
            Action::End(outcome) => Ok(Action::End(outcome.clone_outcome()?)),
        }
    }

    // Whether the two are the same.
    pub(crate) fn same(&self, other: &Action) -> bool
        ensures { IsTrue result ↔ (self.now ≡ other.now) }
    {
        match (self, other) {
            (Action::Create, Action::Create) => true,
            (Action::CreateQueue(m), Action::CreateQueue(n)) => *m == *n,
            (Action::Put(q, parcel), Action::Put(r, other)) => *q == *r && parcel.same(other),
            (Action::PutNow(q, parcel), Action::PutNow(r, other)) => *q == *r && parcel.same(other),
            (Action::Get(q), Action::Get(r)) => *q == *r,
            (Action::GetNow(q), Action::GetNow(r)) => *q == *r,
            (Action::Size(q), Action::Size(r)) => *q == *r,
            (Action::Prepare(i, binds), Action::Prepare(j, other)) => *i == *j && binds.same(other),
            (Action::Start(i, text), Action::Start(j, other)) => *i == *j && text == other,
            (Action::Await(r), Action::Await(s)) => *r == *s,
            (Action::IsRunning(i), Action::IsRunning(j)) => *i == *j,
            (Action::Close(i), Action::Close(j)) => *i == *j,
            (Action::ListAll, Action::ListAll) => true,
            (Action::Take, Action::Take) => true,
            (Action::End(outcome), Action::End(other)) => outcome.same(other),
            _ => false,
        }
    }
}

impl PartialEq for Action {
    ghost use Rattle.si_parcel.specs.Same.{same_by, same_by_per};
    ghost use Rattle.si_parcel.specs.contracts.action.Action.{the_row};

    ghost eq = { same_by the_row.coded };

    ghost laws = { same_by_per the_row.coded };

    /// Whether the two are the same.
    fn eq(&self, other: &Action) -> bool
        ensures eq { result ≡ same_by the_row.coded self.now other.now }
        ensures same { IsTrue result ↔ (self.now ≡ other.now) }
    {
        self.same(other)
    }
}

impl Eq for Action {
    ghost use Rattle.si_parcel.specs.Same.{same_by_equiv};
    ghost use Rattle.si_parcel.specs.contracts.action.Action.{the_row};

    ghost laws = { same_by_equiv the_row.coded };
}
