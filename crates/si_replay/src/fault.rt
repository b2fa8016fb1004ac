// Why a schedule is not replayed.

use thiserror::Error;

/// Why a schedule is not replayed; an entry is named by its number, from 1. Its `Display` is the message for people, without
/// a line end.
#[derive(Clone, Copy, Debug, Drop, Error, PartialEq, Eq)]
pub enum ReplayFault {
    /// The interpreter of this entry stands at an action that is not enabled.
    #[error("entry {0} of the schedule: its interpreter waits for what can't come yet")]
    NotEnabled(u64),
    /// The interpreter of this entry was not created, or is gone.
    #[error("entry {0} of the schedule: there is no such interpreter, or no more")]
    Nobody(u64),
    /// The interpreter of this entry has a line to run, and no turn left for it.
    #[error("entry {0} of the schedule: its interpreter has no turns left")]
    Spent(u64),
    /// Memory was refused to an interpreter.
    #[error("memory was refused to an interpreter")]
    Starved,
    /// After the last entry some action is enabled.
    #[error("an action can still be taken after the last entry of the schedule")]
    Unfinished,
    /// Memory was refused for the world, or for its recording.
    #[error("out of memory")]
    NoMemory,
}
