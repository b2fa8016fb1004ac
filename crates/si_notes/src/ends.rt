// What keeps interpreters from going on.

use crate::notes::Notes;
use crate::seen::Seen;
use si_interp::State;
use si_parcel::Action;
use si_plain::NoMemory;
use si_world::End;
use std::fmt;

// What an interpreter waits for.
#[derive(Clone, Copy)]
enum Wanted {
    Item(u32),
    Room(u32),
    // The end of a run, by the interpreter that runs it, where that is known.
    Run(Option<u32>),
}

// An interpreter that waits.
#[derive(Clone, Copy)]
struct Waiting {
    id: u32,
    wanted: Wanted,
}

impl fmt::Display for Waiting {
    fn fmt<W: fmt::Write>(&self, f: &mut fmt::Formatter<W>) -> fmt::Result {
        let id = self.id;
        write!(f, "interpreter {id} waits for ")?;
        match self.wanted {
            Wanted::Item(queue) => write!(f, "an item of queue {queue}"),
            Wanted::Room(queue) => write!(f, "room in queue {queue}"),
            Wanted::Run(Some(other)) => write!(f, "the end of a run in interpreter {other}"),
            Wanted::Run(None) => f.write_str("the end of a run"),
        }
    }
}

// Tells what keeps these interpreters, by how their turns came to their end, of which each has so many. `NoMemory` where
// memory was refused.
pub(crate) fn tell_end(
    all: &[Seen],
    end: End,
    turns: u64,
    notes: &mut Notes,
) -> Result<(), NoMemory> {
    match end {
        End::Spent => tell_spent(all, turns, notes),
        End::Starved => tell_starved(all, notes),
        End::Stuck => tell_stuck(all, notes),
        End::Open | End::Finished => Ok(()),
    }
}

// Tells which interpreters have used up their turns.
fn tell_spent(all: &[Seen], turns: u64, notes: &mut Notes) -> Result<(), NoMemory> {
    for seen in all {
        if seen.state == State::Ready {
            let id = seen.id;
            notes.add(&format_args!(
                "interpreter {id} had more to do after {turns} turns; --turns N allows another number"
            ))?;
        }
    }
    Ok(())
}

// Tells to which interpreters memory was refused.
fn tell_starved(all: &[Seen], notes: &mut Notes) -> Result<(), NoMemory> {
    for seen in all {
        if seen.state == State::Starved {
            let id = seen.id;
            notes.add(&format_args!(
                "interpreter {id} was refused memory; it needs more, or a script that keeps less"
            ))?;
        }
    }
    Ok(())
}

// Tells which interpreters wait within a run, and for what.
fn tell_stuck(all: &[Seen], notes: &mut Notes) -> Result<(), NoMemory> {
    for seen in all {
        let wanted = match seen.action {
            Some(Action::Get(queue)) => Wanted::Item(*queue),
            Some(Action::Put(queue, _)) => Wanted::Room(*queue),
            Some(Action::Await(run)) => Wanted::Run(interpreter_of(all, *run)),
            _ => continue,
        };
        let id = seen.id;
        notes.add(&Waiting { id, wanted })?;
    }
    Ok(())
}

// The interpreter in which the run of this number was started, if one of these has started it.
fn interpreter_of(all: &[Seen], run: u64) -> Option<u32> {
    for seen in all {
        if let Some(id) = seen.started(run) {
            return Some(id);
        }
    }
    None
}
