// The shared state.

ghost use Rattle.std.specs.Prelude.{◌≡◌, IfOk, IsOk, OnErr, true};
ghost use Rattle.si_semantics.specs.Shared.{Replied, reply, is_enabled, first_state};
ghost use Rattle.si_parcel.specs.Shared.{action_of, answer_of};
ghost use Rattle.si_hub.specs.Hubs.{takes_none};

use si_parcel::{Action, Answer, BoxedText};
use si_plain::NoMemory;
use si_queues::Queues;
use si_registry::Registry;
use std::alloc::Global;
use std::marker::Model;

// The queues, the interpreters and the runs.
#[derive(Drop)]
pub(crate) struct Shared {
    pub(crate) alloc: Global,
    pub(crate) queues: Queues,
    pub(crate) registry: Registry,
}

impl Model for Shared {
    ghost use Rattle.si_semantics.specs.Shared.{State};
    ghost use Rattle.si_hub.specs.HubCode.{state_code};

    ghost Value = { State };

    ghost coded = { state_code };

    ghost view = { λ s. record { queues = s.queues; interpreters = s.registry.interpreters; runs = s.registry.runs } };
}

impl Shared {
    // At first interpreter 0 runs, and its run lies in its inbox.
    pub(crate) fn new(alloc: Global, script: BoxedText) -> Result<Shared, NoMemory>
        ensures { IfOk result (λ s. s ≡ first_state script) }
    {
        let mut registry = Registry::new(alloc);
        match registry.create(1)? {
            None => unreachable!(),
            Some(_) => {
                registry.start(0, script)?;
                Ok(Shared {
                    alloc,
                    queues: Queues::new(alloc),
                    registry,
                })
            }
        }
    }

    // Whether an action of interpreter `by` is enabled.
    #[tactic(auto, unfolding(si_semantics::specs::Shared::reply))]
    pub(crate) fn enabled(&self, by: u32, action: &Action, most: u32) -> bool
        ensures { result ≡ is_enabled (reply most self.now by (action_of action.now)) }
    {
        let Some(interpreter) = self.registry.interpreter(by) else {
            return false;
        };
        if let Action::Take = action {
            return interpreter.first_job().is_some();
        }
        if interpreter.taken_run().is_none() {
            return false;
        }
        match action {
            Action::Create => true,
            Action::CreateQueue(_) => true,
            Action::Put(q, _) => match self.queues.queue(*q) {
                None => false,
                Some(queue) => !queue.is_full(),
            },
            Action::PutNow(q, _) => self.queues.queue(*q).is_some(),
            Action::Get(q) => match self.queues.queue(*q) {
                None => false,
                Some(queue) => queue.first().is_some(),
            },
            Action::GetNow(q) => self.queues.queue(*q).is_some(),
            Action::Size(q) => self.queues.queue(*q).is_some(),
            Action::Prepare(j, _) => self.registry.interpreter(*j).is_some(),
            Action::Start(j, _) => self.registry.interpreter(*j).is_some(),
            Action::Await(r) => match self.registry.run(*r) {
                None => false,
                Some(run) => run.outcome().is_some(),
            },
            Action::IsRunning(j) => self.registry.interpreter(*j).is_some(),
            Action::Close(j) => self.registry.interpreter(*j).is_some(),
            Action::ListAll => true,
            Action::Take => false,
            Action::End(_) => true,
        }
    }

    // Does an action that is enabled, and answers it.
    #[tactic(auto, unfolding(si_semantics::specs::Shared::reply))]
    pub(crate) fn act(&mut self, by: u32, action: Action, most: u32) -> Result<Answer, NoMemory>
        requires { is_enabled (reply most self.old by (action_of action)) ≡ true }
        ensures ok { IfOk result (λ r. reply most self.old by (action_of action) ≡ Replied (answer_of r) self.new) }
        ensures err { OnErr result (self.new ≡ self.old) }
        ensures no_memory { takes_none (action_of action) ≡ true → IsOk result }
    {
        match action {
            Action::Create => self.create(most),
            Action::CreateQueue(maxsize) => self.create_queue(maxsize),
            Action::Put(q, parcel) => match self.put(q, parcel) {
                Ok(()) => Ok(Answer::Done),
                Err(refused) => Err(refused),
            },
            Action::PutNow(q, parcel) => self.put_now(q, parcel),
            Action::Get(q) => Ok(Answer::Item(self.get(q))),
            Action::GetNow(q) => self.get_now(q),
            Action::Size(q) => Ok(Answer::Count(self.size(q))),
            Action::Prepare(j, binds) => self.prepare(j, binds),
            Action::Start(j, text) => self.start(j, text),
            Action::Await(r) => self.outcome(r),
            Action::IsRunning(j) => Ok(self.is_running(j)),
            Action::Close(j) => self.close(by, j),
            Action::ListAll => self.list_all(),
            Action::Take => self.take(by),
            Action::End(outcome) => self.end(by, outcome),
        }
    }
}
