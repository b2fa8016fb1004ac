// How an interpreter comes to stand at an action.

ghost use Rattle.std.specs.Prelude.{◌≡◌, ◌<◌, ◌-◌, ◌++◌, ◌∷◌, [], Some, None, IfOk, OnOk, vec_len, vec_capacity};
ghost use Rattle.si_parcel.specs.Shared.{outcome_of};
ghost use Rattle.si_slots.specs.Machine.{Course, Ending};
ghost use Rattle.si_steps.specs.Machines.{HasEnded};
ghost use Rattle.si_steps.specs.Moments.{HasAction};
ghost use Rattle.si_interp.specs.inner.Keeps.{Arrived, Comes, ComesSo, IsKept, Leaves};
ghost use Rattle.si_interp.specs.declared.interp.State.TheVariants.{AtAction};

use crate::interp::{Logged, State};
use crate::origins::Origins;
use si_parcel::{Action, BoxedText, Outcome};
use si_plain::NoMemory;
use si_steps::{Machine, Outcome as Ended, Step as Line};
use std::alloc::Global;

/// Where a line or an answer leads.
#[derive(Drop)]
pub enum Next {
    /// A run goes on.
    Runs,
    /// It waits for a job.
    Takes,
    /// It asks this of what all share.
    Asks(Action),
    /// A run has ended so.
    Ends(Outcome),
    /// It is gone.
    Gone,
}

/// Puts a value into a slot.
pub fn put(slot: &mut Option<Action>, value: Option<Action>)
    ensures { slot.new ≡ value }
{
    *slot = value;
}

/// Adds an entry to a log, for which there is room.
pub fn note(log: &mut Vec<Logged>, entry: Logged)
    requires { 0 < vec_capacity log.old - vec_len log.old }
    ensures { log.new.items ≡ log.old.items ++ entry ∷ [] }
{
    match log.push(entry) {
        Ok(()) => {}
        Err(_) => unreachable!(),
    }
}

// Keeps an action twice, once for the log and once to be handed out, with room in the log for its answer.
fn keep(
    first: Action,
    second: Action,
    log: &mut Vec<Logged>,
    kept: &mut Option<Action>,
    offered: &mut Option<Action>,
) -> Result<(), NoMemory>
    requires { first ≡ second }
    ensures log { log.new.items ≡ log.old.items }
    ensures ok { OnOk result (IsKept first AtAction kept.new offered.new (vec_capacity log.new - vec_len log.new)) }
{
    log.reserve(1)?;
    put(kept, Some(first));
    put(offered, Some(second));
    Ok(())
}

/// Stands where a line or an answer has led. `NoMemory` where memory was refused to keep the action at which it stands.
pub fn arrive(
    alloc: Global,
    next: Next,
    log: &mut Vec<Logged>,
    kept: &mut Option<Action>,
    offered: &mut Option<Action>,
) -> Result<State, NoMemory>
    ensures log { log.new.items ≡ log.old.items }
    ensures ok { IfOk result (λ s. Arrived next s kept.new offered.new (vec_capacity log.new - vec_len log.new)) }
{
    match next {
        Next::Runs => Ok(State::Ready),
        Next::Gone => Ok(State::Gone),
        Next::Takes => {
            keep(Action::Take, Action::Take, log, kept, offered)?;
            Ok(State::AtAction)
        }
        Next::Asks(action) => {
            let copy = action.clone_action(alloc)?;
            keep(action, copy, log, kept, offered)?;
            Ok(State::AtAction)
        }
        Next::Ends(outcome) => {
            let copy = outcome.clone_outcome()?;
            keep(Action::End(outcome), Action::End(copy), log, kept, offered)?;
            Ok(State::AtAction)
        }
    }
}

/// How the run ended that has come to its end. Where an exception has left it, what is known of where that came from is noted.
///
/// # Errors
///
/// `NoMemory` where memory was refused.
pub fn told(alloc: Global, machine: &Machine, origins: &mut Origins) -> Result<Outcome, NoMemory>
    ghost c: { Course }
    requires { HasEnded c machine.now }
    ensures { IfOk result (λ o. c.place ≡ Ending (outcome_of o)) }
{
    match machine.take_outcome()? {
        Ended::Returned => Ok(Outcome::Returned),
        Ended::Raised(kind, message) => {
            let message = BoxedText::new(alloc, message)?;
            origins.note(machine);
            Ok(Outcome::Raised(kind, message))
        }
    }
}

// Stands at the end of a run. `NoMemory` where memory was refused, to tell how the run ended or to keep that.
fn come_to_end(
    alloc: Global,
    machine: &Machine,
    log: &mut Vec<Logged>,
    kept: &mut Option<Action>,
    offered: &mut Option<Action>,
    origins: &mut Origins,
) -> Result<State, NoMemory>
    ghost c: { Course }
    requires { HasEnded c machine.now }
    ensures log { log.new.items ≡ log.old.items }
    ensures ok { IfOk result (λ s. ComesSo c s kept.new offered.new (vec_capacity log.new - vec_len log.new)) }
{
    let outcome = told(alloc, machine, origins)?;
    arrive(alloc, Next::Ends(outcome), log, kept, offered)
}

// Stands at a request, whose action is taken out of the machine. `NoMemory` where memory was refused to keep the action.
fn come_to_request(
    alloc: Global,
    machine: &mut Machine,
    log: &mut Vec<Logged>,
    kept: &mut Option<Action>,
    offered: &mut Option<Action>,
) -> Result<State, NoMemory>
    ghost c: { Course }
    requires { HasAction c.place machine.old.action }
    ensures rest { machine.new ≡ record machine.old { action = None } }
    ensures log { log.new.items ≡ log.old.items }
    ensures ok { IfOk result (λ s. ComesSo c s kept.new offered.new (vec_capacity log.new - vec_len log.new)) }
{
    let action = machine.take_request();
    arrive(alloc, Next::Asks(action), log, kept, offered)
}

/// Stands at the action to which the next line of this number, log and lines has come; of these the contract speaks alone.
///
/// # Errors
///
/// `NoMemory` where memory was refused, to tell how the run ended or to keep the action.
#[inline(never)]
pub fn come_to_action(
    alloc: Global,
    machine: &mut Machine,
    came: Line,
    id: u32,
    locals: u64,
    log: &mut Vec<Logged>,
    kept: &mut Option<Action>,
    offered: &mut Option<Action>,
    origins: &mut Origins,
) -> Result<State, NoMemory>
    ghost c: { Course }
    requires { Comes c machine.old came }
    ensures rest { Leaves came machine.old machine.new }
    ensures log { log.new.items ≡ log.old.items }
    ensures ok { IfOk result (λ s. ComesSo c s kept.new offered.new (vec_capacity log.new - vec_len log.new)) }
{
    let _ = id;
    let _ = locals;
    match came {
        Line::Ended => come_to_end(alloc, machine, log, kept, offered, origins),
        Line::Wants => come_to_request(alloc, machine, log, kept, offered),
        Line::Local => unreachable!(),
        Line::Starved => unreachable!(),
    }
}
