// The shared state with the journal of its calls.

ghost use Rattle.std.specs.Prelude.{◌≡◌, ◌<◌, ◌≤◌, ◌+◌, ◌↔◌, [], length, IfOk, IfErr, IsOk, IsErrAnd, OnOk, OnErr, MatchOption, None, Some, true, false, slice_get};
ghost use Rattle.si_plain.specs.Characters.{characters_of};
ghost use Rattle.si_semantics.specs.History.{answer_in};
ghost use Rattle.si_semantics.specs.Actions as shared;
ghost use Rattle.si_parcel.specs.Shared.{action_of, answer_of};
ghost use Rattle.si_parcel.specs.declared.action.Action.TheVariants.{Get};
ghost use Rattle.si_hub.specs.Hubs.{IsTold, state_of, reply_at, can_act, Acts, takes_none};

use crate::shared::Shared;
use si_parcel::{Action, Answer, BoxedText};
use si_plain::{Limits, NoMemory, Text};
use si_queues::Queue;
use si_semantics::sharing::within_limits;
use std::alloc::Global;
use std::marker::Model;

/// A shared action that was done: by which interpreter, and what it was answered.
#[derive(Drop)]
pub struct Call {
    pub by: u32,
    pub action: Action,
    pub answer: Answer,
}

// A call is written to memory that is in no cache: a line of it.
const _: () = prove!(std::mem::size_of::<Call>() <= 64);

impl Model for Call {
    ghost use Rattle.si_semantics.specs.History.{Call};
    ghost use Rattle.si_hub.specs.HubCode.{call_code};
    ghost use Rattle.si_parcel.specs.Shared.{action_of, answer_of};

    ghost Value = { Call };

    ghost coded = { call_code };

    ghost view = { λ c. record { by = c.by; action = action_of c.action; answer = answer_of c.answer } };
}

/// Why an action was not done.
#[derive(Clone, Copy, Debug, PartialEq, Eq)]
pub enum Why {
    /// It is not enabled now.
    NotNow,
    /// Memory was refused.
    NoMemory,
}

/// An action that was not done, with the reason. Nothing has changed.
#[derive(Drop)]
pub struct NotActed {
    pub why: Why,
    pub action: Action,
}

// What an action takes, made before anything changes: its answer for the journal, and a copy of the action.
#[derive(Drop)]
struct Stock {
    answer: Answer,
    action: Action,
}

/// The state that interpreters share, and the journal of the calls that made it, in order: the state is that which these
/// calls leave of the first state of its script and its limits.
#[derive(Drop)]
pub struct Hub {
    alloc: Global,
    script: Text,
    limits: Limits,
    shared: Shared,
    journal: Vec<Call>,
}

impl Model for Hub {
    ghost use Rattle.std.specs.Prelude.{◌-◌, vec_len, vec_capacity};
    ghost use Rattle.si_hub.specs.HubCode.{HubView, hub_code};
    ghost use Rattle.si_hub.specs.Hubs.{IsReplay};

    ghost Value = { HubView };

    ghost coded = { hub_code };

    ghost view = { λ h. record { past = record { script = h.script; limits = h.limits; journal = h.journal.items }; spare = vec_capacity h.journal - vec_len h.journal } };

    ghost invariant = { λ h. IsReplay h.shared (record { script = h.script; limits = h.limits; journal = h.journal.items }) };
}

impl Hub {
    /// The first state of a script: interpreter 0 runs, and its run, of the script, lies in its inbox.
    ///
    /// # Errors
    ///
    /// `NoMemory` where memory was refused.
    pub fn new(alloc: Global, script: &str, limits: Limits) -> Result<Hub, NoMemory>
        ensures { IfOk result (λ h. h.past ≡ record { script = characters_of script.now; limits = limits; journal = [] }) }
    {
        let text = Text::from_str(alloc, script)?;
        let first = BoxedText::new(alloc, Text::from_str(alloc, script)?)?;
        let shared = Shared::new(alloc, first)?;
        Ok(Hub {
            alloc,
            script: text,
            limits,
            shared,
            journal: Vec::new(alloc),
        })
    }

    /// Each call of the journal was enabled at its point, and was replied its answer; and there are at most as many
    /// interpreters as the limits allow, closed ones counted. Costs nothing.
    pub fn facts(&self)
        ensures told { IsTold self.now.past }
        ensures few { length (state_of self.now.past).interpreters ≤ self.now.past.limits.interpreters }
    {
        let _ = &self.journal;
        let _most = self.limits.interpreters();
        within_limits();
    }

    /// The calls that were made, in order.
    pub fn journal(&self) -> &[Call]
        ensures { result.now ≡ self.now.past.journal }
    {
        self.journal.as_slice()
    }

    /// The same calls, handed over; all else is let go of.
    pub fn into_journal(self) -> Vec<Call>
        ensures { result.items ≡ self.past.journal }
    {
        self.journal
    }

    /// The script of interpreter 0's first run.
    pub fn script(&self) -> &str
        ensures { characters_of result.now ≡ self.now.past.script }
    {
        self.script.as_str()
    }

    /// The limits that it was made with.
    pub fn limits(&self) -> Limits
        ensures { result ≡ self.now.past.limits }
    {
        self.limits
    }

    /// The parcels of a queue, the oldest first, if the queue was made.
    pub fn queue(&self, id: u32) -> Option<&Queue>
        ensures { MatchOption result
            (slice_get (state_of self.now.past).queues id ≡ None)
            (λ q. slice_get (state_of self.now.past).queues id ≡ Some q.now) }
    {
        self.shared.queues.queue(id)
    }

    /// For how many calls the journal has room.
    pub fn spare(&self) -> usize
        ensures { result ≡ self.now.spare }
    {
        self.journal.capacity() - self.journal.len()
    }

    /// Makes room in the journal for `n` calls more.
    ///
    /// # Errors
    ///
    /// `NoMemory` where memory was refused; the room is as it was then.
    pub fn reserve(&mut self, n: usize) -> Result<(), NoMemory>
        ensures past { self.new.past ≡ self.old.past }
        ensures ok { OnOk result (n ≤ self.new.spare) }
        ensures more { self.old.spare ≤ self.new.spare }
        ensures err { OnErr result (self.new.spare ≡ self.old.spare) }
    {
        self.journal.reserve(n)
    }

    // Makes room in the journal for one call more, if it has none.
    fn make_room(&mut self) -> Result<(), NoMemory>
        ensures past { self.new.past ≡ self.old.past }
        ensures room { OnOk result (0 < self.new.spare) }
        ensures more { self.old.spare ≤ self.new.spare }
        ensures no_memory { 0 < self.old.spare → IsOk result }
    {
        if self.spare() > 0 {
            return Ok(());
        }
        self.reserve(1)
    }

    /// Whether an action of interpreter `by` is enabled: exactly where `act` would not answer `NotNow`. Takes no memory.
    pub fn enabled(&self, by: u32, action: &Action) -> bool
        ensures { result ≡ can_act self.now.past by (action_of action.now) }
    {
        self.shared.enabled(by, action, self.limits.interpreters())
    }

    // Makes what an action that is enabled takes.
    fn prepare(&self, by: u32, action: &Action) -> Result<Stock, NoMemory>
        requires { can_act self.now.past by (action_of action.now) ≡ true }
        ensures action { IfOk result (λ s. s.action ≡ action.now) }
        ensures answer { IfOk result (λ s. answer_in (reply_at self.now.past by (action_of action.now)) ≡ Some (answer_of s.answer)) }
        ensures no_memory { takes_none (action_of action.now) ≡ true → IsOk result }
    {
        let answer = self.shared.answer(by, action, self.limits.interpreters())?;
        let action = action.clone_action(self.alloc)?;
        Ok(Stock { answer, action })
    }

    // Does an action that is enabled, with room in the journal: a copy of it in the state, and itself in the journal.
    #[inline(never)]
    fn act_on(&mut self, by: u32, action: Action) -> Result<Answer, NotActed>
        requires enabled { can_act self.old.past by (action_of action) ≡ true }
        requires room { 0 < self.old.spare }
        ensures ok { IfOk result (λ r. Acts self.old.past by (action_of action) (answer_of r) self.new.past) }
        ensures err { IfErr result (λ e. (e.action ≡ action) × (self.new.past ≡ self.old.past)) }
        ensures memory { IfErr result (λ e. e.why ≡ Why.NoMemory) }
        ensures spare { self.old.spare ≤ self.new.spare + 1 }
        ensures kept { OnErr result (self.old.spare ≤ self.new.spare) }
        ensures no_memory { takes_none (action_of action) ≡ true → IsOk result }
    {
        match self.prepare(by, &action) {
            Err(_) => Err(no_memory(action)),
            Ok(stock) => match self
                .shared
                .act(by, stock.action, self.limits.interpreters())
            {
                Err(_) => Err(no_memory(action)),
                Ok(told) => {
                    let answer = stock.answer;
                    self.journal.push_reserved(Call { by, action, answer });
                    Ok(told)
                }
            },
        }
    }

    // The same for a put, in fewer steps: a copy of the parcel goes into the queue.
    fn put(&mut self, by: u32, action: Action) -> Result<Answer, NotActed>
        requires enabled { can_act self.old.past by (action_of action) ≡ true }
        requires room { 0 < self.old.spare }
        ensures ok { IfOk result (λ r. Acts self.old.past by (action_of action) (answer_of r) self.new.past) }
        ensures err { IfErr result (λ e. (e.action ≡ action) × (self.new.past ≡ self.old.past)) }
        ensures memory { IfErr result (λ e. e.why ≡ Why.NoMemory) }
        ensures spare { self.old.spare ≤ self.new.spare + 1 }
        ensures kept { OnErr result (self.old.spare ≤ self.new.spare) }
        ensures no_memory { takes_none (action_of action) ≡ true → IsOk result }
    {
        let Action::Put(queue, parcel) = &action else {
            return self.act_on(by, action);
        };
        match self.shared.put_copy(*queue, parcel) {
            Err(_) => Err(no_memory(action)),
            Ok(()) => {
                let answer = Answer::Done;
                self.journal.push_reserved(Call { by, action, answer });
                Ok(Answer::Done)
            }
        }
    }

    // Takes the oldest item of a queue: itself for who asked, and a copy of it into the journal.
    fn get(&mut self, by: u32, queue: u32) -> Result<Answer, NotActed>
        requires enabled { can_act self.old.past by (shared.Get queue) ≡ true }
        requires room { 0 < self.old.spare }
        ensures ok { IfOk result (λ r. Acts self.old.past by (shared.Get queue) (answer_of r) self.new.past) }
        ensures err { IfErr result (λ e. (e.action ≡ Get queue) × (self.new.past ≡ self.old.past)) }
        ensures memory { IfErr result (λ e. e.why ≡ Why.NoMemory) }
        ensures spare { self.old.spare ≤ self.new.spare + 1 }
        ensures kept { OnErr result (self.old.spare ≤ self.new.spare) }
    {
        let Ok(copy) = self.shared.first(queue) else {
            return Err(no_memory(Action::Get(queue)));
        };
        let item = self.shared.get(queue);
        let action = Action::Get(queue);
        let answer = Answer::Item(copy);
        self.journal.push_reserved(Call { by, action, answer });
        Ok(Answer::Item(item))
    }

    // Counts the items of a queue.
    fn size(&mut self, by: u32, queue: u32) -> u64
        requires enabled { can_act self.old.past by (shared.Size queue) ≡ true }
        requires room { 0 < self.old.spare }
        ensures ok { Acts self.old.past by (shared.Size queue) (shared.Count result) self.new.past }
        ensures spare { self.old.spare ≤ self.new.spare + 1 }
    {
        let count = self.shared.size(queue);
        let action = Action::Size(queue);
        let answer = Answer::Count(count);
        self.journal.push_reserved(Call { by, action, answer });
        count
    }

    /// Does an action of interpreter `by` that is enabled, and answers it. The call is then the last of the journal.
    /// With `Size` or `IsRunning` it takes no memory where the journal has room.
    ///
    /// # Errors
    ///
    /// `NotNow` exactly where the action is not enabled, `NoMemory` where memory was refused. The action comes back, and
    /// nothing has changed, but that the journal may have more room.
    pub fn act(&mut self, by: u32, action: Action) -> Result<Answer, NotActed>
        ensures ok { IfOk result (λ r. Acts self.old.past by (action_of action) (answer_of r) self.new.past) }
        ensures err { IfErr result (λ e. (e.action ≡ action) × (self.new.past ≡ self.old.past)) }
        ensures not_now { IsErrAnd result (λ e. e.why ≡ Why.NotNow) ↔ (can_act self.old.past by (action_of action) ≡ false) }
        ensures room { self.old.spare ≤ self.new.spare + 1 }
        ensures kept { OnErr result (self.old.spare ≤ self.new.spare) }
        ensures no_memory { takes_none (action_of action) ≡ true → 0 < self.old.spare → can_act self.old.past by (action_of action) ≡ true → IsOk result }
    {
        if !self.enabled(by, &action) {
            let why = Why::NotNow;
            return Err(NotActed { why, action });
        }
        if self.make_room().is_err() {
            return Err(no_memory(action));
        }
        match &action {
            Action::Get(queue) => self.get(by, *queue),
            Action::Size(queue) => Ok(Answer::Count(self.size(by, *queue))),
            Action::Put(_, _) => self.put(by, action),
            _ => self.act_on(by, action),
        }
    }
}

// An action for which memory was refused.
fn no_memory(action: Action) -> NotActed
    ensures action { result.action ≡ action }
    ensures why { result.why ≡ Why.NoMemory }
{
    NotActed {
        why: Why::NoMemory,
        action,
    }
}
