// What is seen of interpreters.

use si_interp::{Interp, Logged, RunOrigin, State};
use si_parcel::{Action, Answer, Outcome};
use si_plain::NoMemory;
use si_world::{Recording, Report, Standing, World};
use std::alloc::Global;

// What is seen of an interpreter: its number, its actions with their answers, where the exceptions came from that left its
// runs, how it stands, and the action at which it stands, if it stands at one.
#[derive(Drop)]
pub(crate) struct Seen<'a> {
    pub(crate) id: u32,
    pub(crate) log: &'a [Logged],
    pub(crate) origins: &'a [RunOrigin],
    pub(crate) state: State,
    pub(crate) action: Option<&'a Action>,
}

impl<'a> Seen<'a> {
    // Of an interpreter.
    fn of_interp(interp: &'a Interp) -> Seen<'a> {
        Seen {
            id: interp.id(),
            log: interp.log(),
            origins: interp.origins(),
            state: interp.state(),
            action: interp.pending(),
        }
    }

    // Of a report.
    fn of_report(report: &'a Report) -> Seen<'a> {
        let (state, action) = match report.standing() {
            Standing::Ready => (State::Ready, None),
            Standing::AtAction(action) => (State::AtAction, Some(action)),
            Standing::Gone => (State::Gone, None),
            Standing::Starved => (State::Starved, None),
        };
        Seen {
            id: report.id(),
            log: report.log(),
            origins: report.origins(),
            state,
            action,
        }
    }

    // Whether an exception left one of its runs.
    pub(crate) fn has_raised(&self) -> bool {
        for entry in self.log {
            if let Action::End(Outcome::Raised(_, _)) = &entry.action {
                return true;
            }
        }
        false
    }

    // Whether it has started the run of this number, and in which interpreter.
    pub(crate) fn started(&self, run: u64) -> Option<u32> {
        for entry in self.log {
            if let (Action::Start(id, _), Answer::Started(number)) = (
                &entry.action,
                &entry.answer,
            ) {
                if *number == run {
                    return Some(*id);
                }
            }
        }
        None
    }
}

// All interpreters of a world that were created.
pub(crate) fn seen_in_world(alloc: Global, world: &World) -> Result<Vec<Seen<'_>>, NoMemory> {
    let mut all = Vec::new(alloc);
    for i in 0..world.created() {
        if let Some(interp) = world.interp(i) {
            all.push(Seen::of_interp(interp))?;
        }
    }
    Ok(all)
}

// The same of a recording.
pub(crate) fn seen_in_recording(
    alloc: Global,
    recording: &Recording,
) -> Result<Vec<Seen<'_>>, NoMemory> {
    let mut all = Vec::new(alloc);
    for report in recording.reports() {
        all.push(Seen::of_report(report))?;
    }
    Ok(all)
}
