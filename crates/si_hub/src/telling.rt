// What an action is answered: a copy for the journal, made before anything changes.

ghost use Rattle.std.specs.Prelude.{◌≡◌, ℕ, List, IfOk, IsOk, IsSome, Some, true, slice_get};
ghost use Rattle.si_semantics.specs.Parcels.{Tree};
ghost use Rattle.si_semantics.specs.Shared as shared;
ghost use Rattle.si_semantics.specs.Shared.{reply, is_enabled};
ghost use Rattle.si_semantics.specs.History.{answer_in};
ghost use Rattle.si_parcel.specs.Shared.{action_of, answer_of};
ghost use Rattle.si_hub.specs.Hubs.{takes_none};

use crate::shared::Shared;
use si_parcel::{Action, Answer};
use si_plain::NoMemory;
use si_plain::limits::MAX_QUEUES;
use si_registry::Standing;

impl Shared {
    // What an action that is enabled is answered.
    #[tactic(auto, unfolding(si_semantics::specs::Shared::reply))]
    pub(crate) fn answer(&self, by: u32, action: &Action, most: u32) -> Result<Answer, NoMemory>
        requires { is_enabled (reply most self.now by (action_of action.now)) ≡ true }
        ensures value { IfOk result (λ r. answer_in (reply most self.now by (action_of action.now)) ≡ Some (answer_of r)) }
        ensures no_memory { takes_none (action_of action.now) ≡ true → IsOk result }
    {
        match action {
            Action::Create => Ok(self.created(most)),
            Action::CreateQueue(_) => Ok(self.queue_made()),
            Action::Put(_, _) => Ok(Answer::Done),
            Action::PutNow(q, _) => Ok(self.put_or_full(*q)),
            Action::Get(q) => self.first_item(*q),
            Action::GetNow(q) => self.first_item(*q),
            Action::Size(q) => Ok(Answer::Count(self.size(*q))),
            Action::Prepare(j, _) => Ok(self.prepared(*j)),
            Action::Start(j, _) => Ok(self.started(*j)),
            Action::Await(r) => self.outcome(*r),
            Action::IsRunning(j) => Ok(self.is_running(*j)),
            Action::Close(j) => Ok(self.closed(by, *j)),
            Action::ListAll => self.list_all(),
            Action::Take => self.first_job(by),
            Action::End(_) => Ok(Answer::Done),
        }
    }

    fn created(&self, most: u32) -> Answer
        ensures { answer_in (shared.create most self.now) ≡ Some (answer_of result) }
    {
        let id = self.registry.count();
        if id >= most as usize {
            Answer::Limit
        } else {
            Answer::Created(id as u32)
        }
    }

    fn queue_made(&self) -> Answer
        ensures { (maxsize : ℕ) → answer_in (shared.create_queue maxsize self.now) ≡ Some (answer_of result) }
    {
        let id = self.queues.count();
        if id >= MAX_QUEUES {
            Answer::Limit
        } else {
            Answer::QueueMade(id as u32)
        }
    }

    fn put_or_full(&self, queue: u32) -> Answer
        requires { IsSome (slice_get self.now.queues queue) }
        ensures { (p : Tree) → answer_in (shared.put_now queue p self.now) ≡ Some (answer_of result) }
    {
        match self.queues.queue(queue) {
            None => unreachable!(),
            Some(queue) => {
                if queue.is_full() {
                    Answer::Full
                } else {
                    Answer::Done
                }
            }
        }
    }

    // A copy of the oldest item of a queue, if it has one.
    fn first_item(&self, queue: u32) -> Result<Answer, NoMemory>
        requires { IsSome (slice_get self.now.queues queue) }
        ensures now { IfOk result (λ r. answer_in (shared.get_now queue self.now) ≡ Some (answer_of r)) }
        ensures first { IfOk result (λ r. is_enabled (shared.get queue self.now) ≡ true → answer_in (shared.get queue self.now) ≡ Some (answer_of r)) }
    {
        match self.queues.queue(queue) {
            None => unreachable!(),
            Some(queue) => match queue.first() {
                None => Ok(Answer::Empty),
                Some(item) => {
                    let item = item.clone_parcel(self.alloc)?;
                    Ok(Answer::Item(item))
                }
            },
        }
    }

    fn prepared(&self, id: u32) -> Answer
        requires { IsSome (slice_get self.now.interpreters id) }
        ensures { (binds : List (List ℕ × Tree)) → answer_in (shared.prepare id binds self.now) ≡ Some (answer_of result) }
    {
        match self.registry.interpreter(id) {
            None => unreachable!(),
            Some(interpreter) => match interpreter.standing() {
                Standing::Closed => Answer::NotFound,
                Standing::Running(_) => Answer::Running,
                Standing::Idle => Answer::Done,
            },
        }
    }

    fn started(&self, id: u32) -> Answer
        requires { IsSome (slice_get self.now.interpreters id) }
        ensures { (text : List ℕ) → answer_in (shared.start id text self.now) ≡ Some (answer_of result) }
    {
        match self.registry.interpreter(id) {
            None => unreachable!(),
            Some(interpreter) => match interpreter.standing() {
                Standing::Closed => Answer::NotFound,
                Standing::Running(_) => Answer::Running,
                Standing::Idle => Answer::Started(self.registry.runs()),
            },
        }
    }

    fn closed(&self, by: u32, id: u32) -> Answer
        requires { IsSome (slice_get self.now.interpreters id) }
        ensures { answer_in (shared.close by id self.now) ≡ Some (answer_of result) }
    {
        match self.registry.interpreter(id) {
            None => unreachable!(),
            Some(interpreter) => {
                if interpreter.is_closed() {
                    return Answer::NotFound;
                }
                if by == id {
                    return Answer::Current;
                }
                if id == 0 {
                    return Answer::Main;
                }
                if interpreter.is_running() {
                    return Answer::Running;
                }
                Answer::Done
            }
        }
    }

    // A copy of the oldest job in an inbox.
    fn first_job(&self, by: u32) -> Result<Answer, NoMemory>
        requires { is_enabled (shared.take by self.now) ≡ true }
        ensures { IfOk result (λ r. answer_in (shared.take by self.now) ≡ Some (answer_of r)) }
    {
        match self.registry.interpreter(by) {
            None => unreachable!(),
            Some(interpreter) => match interpreter.first_job() {
                None => unreachable!(),
                Some(job) => {
                    let job = job.clone_job(self.alloc)?;
                    Ok(Answer::Given(job))
                }
            },
        }
    }
}
