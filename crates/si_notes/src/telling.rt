// All that is told of a run.

use crate::ends::tell_end;
use crate::notes::Notes;
use crate::raised::tell_raised;
use crate::seen::{Seen, seen_in_recording, seen_in_world};
use si_plain::NoMemory;
use si_world::{End, Recording, World};
use std::alloc::Global;

impl Notes {
    /// What is told of a world. Where memory is refused they are those that were made before.
    pub fn of_world(alloc: Global, world: &World) -> Notes {
        let mut notes = Notes::new(alloc);
        let _ = tell_world(alloc, world, &mut notes);
        notes
    }

    /// The same of a recording.
    pub fn of_recording(alloc: Global, recording: &Recording) -> Notes {
        let mut notes = Notes::new(alloc);
        let _ = tell_recording(alloc, recording, &mut notes);
        notes
    }
}

// Tells of a world.
fn tell_world(alloc: Global, world: &World, notes: &mut Notes) -> Result<(), NoMemory> {
    let all = seen_in_world(alloc, world)?;
    tell_all(
        alloc,
        all.as_slice(),
        world.end(),
        world.limits().turns(),
        notes,
    )
}

// Tells of a recording.
fn tell_recording(alloc: Global, recording: &Recording, notes: &mut Notes) -> Result<(), NoMemory> {
    let all = seen_in_recording(alloc, recording)?;
    let turns = recording.limits().turns();
    tell_all(alloc, all.as_slice(), recording.end(), turns, notes)
}

// Tells of these interpreters, and of how their turns came to their end.
fn tell_all(
    alloc: Global,
    all: &[Seen],
    end: End,
    turns: u64,
    notes: &mut Notes,
) -> Result<(), NoMemory> {
    for seen in all {
        if seen.has_raised() {
            tell_raised(alloc, seen, notes)?;
        }
    }
    tell_end(all, end, turns, notes)
}
