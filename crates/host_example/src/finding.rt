// What a host finds of a plug-in that it has run.

ghost use Rattle.std.specs.Prelude.{◌≡◌, IfOk, MatchOption, None, Some};
ghost use Rattle.si_plain.specs.Characters.{characters_of};
ghost use Rattle.si_parcel.specs.Shared.{outcome_of};
ghost use Rattle.host_example.specs.Findings.{Finds, Tells, first_end};

use si_interp::{Interp, Logged, NotShown};
use si_parcel::{Action, Outcome};
use si_plain::{Kind, Limits, Text};
use si_world::{End, World};
use std::alloc::{AllocError, Global};
use std::fmt;

/// What is found of a plug-in: how its first run ended, and what a global of its interpreter 0 denotes after that.
#[derive(Drop)]
pub enum Finding {
    /// It is over, and the value of the global is shown so, as `repr` shows it.
    Shown(Text),
    /// It is over, and nothing is bound to the global.
    Unbound,
    /// It is over, and `repr` of the global raises an exception of this kind.
    NotShown(Kind),
    /// It is over, and an exception has left its run, of this kind and with this message.
    Raised(Kind, Text),
    /// It is not over, and ended so.
    Unfinished(End),
}

impl fmt::Display for Finding {
    fn fmt<W: fmt::Write>(&self, f: &mut fmt::Formatter<W>) -> fmt::Result {
        match self {
            Finding::Shown(text) => f.write_str(text.as_str()),
            Finding::Unbound => f.write_str("left no result"),
            Finding::NotShown(kind) => write!(f, "left a result that can't be shown: {kind}"),
            Finding::Raised(kind, message) => write!(f, "raised {kind}: {}", message.as_str()),
            Finding::Unfinished(End::Spent) => f.write_str("used up its turns"),
            Finding::Unfinished(End::Stuck) => f.write_str("waits for what never comes"),
            Finding::Unfinished(End::Starved) => f.write_str("was refused memory"),
            Finding::Unfinished(_) => f.write_str("was given all turns that there are"),
        }
    }
}

/// How the first run of an interpreter ended, by its log, if it did.
fn first_end(log: &[Logged]) -> Option<&Outcome>
    ensures { MatchOption result (first_end log.now ≡ None) (λ o. first_end log.now ≡ Some (outcome_of o.now)) }
{
    for entry in log {
        if let Action::End(outcome) = &entry.action {
            return Some(outcome);
        }
    }
    None
}

/// What is found of an interpreter whose plug-in is over.
fn found(alloc: Global, interp: &Interp, global: &str) -> Result<Finding, AllocError>
    ensures { IfOk result (Tells interp.now global.now) }
{
    if let Some(Outcome::Raised(kind, message)) = first_end(interp.log()) {
        let message = Text::from_str(alloc, message.as_text().as_str())?;
        return Ok(Finding::Raised(*kind, message));
    }
    match interp.global(global) {
        Ok(Some(text)) => Ok(Finding::Shown(text)),
        Ok(None) => Ok(Finding::Unbound),
        Err(NotShown::Raises(kind)) => Ok(Finding::NotShown(kind)),
        Err(NotShown::NoMemory) => Err(AllocError),
    }
}

/// Runs a plug-in until nothing of it can move, and tells what is found then: of a world of this script, to which turns led, as
/// many as it takes, but no more than 64 bits can count.
///
/// # Errors
///
/// `AllocError` where memory was refused to the host.
pub fn find(
    alloc: Global,
    plug_in: &str,
    limits: Limits,
    global: &str,
) -> Result<Finding, AllocError>
    ensures { IfOk result (Finds (characters_of plug_in.now) limits global.now) }
{
    let mut world = World::new(alloc, plug_in, limits)?;
    world.serial(u64::MAX);
    world.facts();
    match (world.end(), world.interp(0)) {
        (End::Finished, Some(interp)) => found(alloc, interp, global),
        (end, _) => Ok(Finding::Unfinished(end)),
    }
}
