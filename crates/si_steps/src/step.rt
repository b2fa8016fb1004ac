// What a step did.

use si_plain::{Kind, Text};

/// How a run ended.
#[derive(Debug, Drop)]
pub enum Outcome {
    /// It came to the end of its text.
    Returned,
    /// An exception left it: the kind, and the message.
    Raised(Kind, Text),
}

/// How a run ended, as a state keeps it.
#[derive(Clone, Copy, Debug, PartialEq, Eq)]
pub enum Exit {
    /// It came to the end of its text.
    Returned,
    /// The exception at this address left it.
    Raised(usize),
}

/// What a step did. How a run ended, the machine keeps until it is asked.
#[derive(Clone, Copy, Debug, PartialEq, Eq)]
pub enum Step {
    /// One instruction; the run goes on.
    Local,
    /// One instruction, with which the run has ended.
    Ended,
    /// One instruction, with which the machine asks an action, which it hands out, and waits for the answer.
    Wants,
    /// No instruction: memory was refused. The machine stands still.
    Starved,
}
