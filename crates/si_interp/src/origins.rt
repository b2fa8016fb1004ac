// Where the exceptions came from that left an interpreter's runs.

use si_steps::{Machine, Origin};
use std::alloc::Global;
use std::marker::Model;

/// Where the exception came from that left a run of an interpreter.
#[derive(Clone, Copy, Debug)]
pub struct RunOrigin {
    /// Which of the interpreter's runs this is, from 0, in order of the texts that it was given to run. A text that isn't read
    /// counts as well: its run is left by a SyntaxError that came from no statement, so it has no origin.
    pub run: u32,
    /// The statements that the exception came from. The text of each is told by the number of the run for which it was given.
    pub origin: Origin,
}

/// What an interpreter notes of its runs, for people alone: no contract sees any of it. Where memory is refused for a note, the
/// note is left out.
#[derive(Drop)]
pub struct Origins {
    // How many texts it was given to run.
    runs: u32,
    // Of each text whose code was made, the number of its run.
    read: Vec<u32>,
    // Whether the number of each text is known.
    is_whole: bool,
    // The runs that exceptions left.
    left: Vec<RunOrigin>,
}

impl Model for Origins {
    ghost Value = { Unit {0} };

    ghost view = { λ _. tt };
}

impl Origins {
    /// Nothing is noted yet.
    pub fn none(alloc: Global) -> Origins {
        Origins {
            runs: 0,
            read: Vec::new(alloc),
            is_whole: true,
            left: Vec::new(alloc),
        }
    }

    // The number of the run that was begun last.
    fn run(&self) -> u32 {
        self.runs.saturating_sub(1)
    }

    /// The run of another text begins.
    pub fn begin_run(&mut self) {
        self.runs = self.runs.saturating_add(1);
    }

    /// The code of that text was made.
    pub fn add_text(&mut self) {
        let run = self.run();
        self.is_whole = self.is_whole && self.read.push(run).is_ok();
    }

    /// An exception has left the run.
    #[inline(never)]
    pub fn note(&mut self, machine: &Machine) {
        if !self.is_whole {
            return;
        }
        let run = self.run();
        if let Some(origin) = machine.origin() {
            let origin = origin.of_runs(self.read.as_slice());
            let _ = self.left.push(RunOrigin { run, origin });
        }
    }

    /// The runs that exceptions left whose origins are known, in order.
    pub fn as_slice(&self) -> &[RunOrigin] {
        self.left.as_slice()
    }
}
