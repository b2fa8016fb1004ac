// Why a command stops without a report.

ghost use Rattle.std.specs.Prelude.{◌≡◌};
ghost use Rattle.si_cli.specs.Status.{status_of_fault, status_of_replay, status_of_run_fault};

use si_replay::ReplayFault;
use si_workers::RunFault;
use std::alloc::AllocError;
use thiserror::Error;

/// Why a command isn't carried out. Its `Display` is the message for people, without a line end.
#[derive(Debug, Drop, Error)]
pub enum CliFault {
    /// A write failed.
    #[error("the output can't be written")]
    Write,
    /// The script isn't UTF-8, or the grammar has no tree for it; the line where reading stopped, counted from 1.
    #[error("line {0}: invalid syntax")]
    Script(usize),
    /// The schedule isn't UTF-8, which counts as its first line, or this is its first line, counted from 1, that can't be
    /// continued to the text of a schedule.
    #[error("line {0}: no line of a schedule")]
    Schedule(u64),
    /// The schedule can't be followed.
    #[error("{0}")]
    Replay(ReplayFault),
    /// The script's worker threads came to no recording.
    #[error("{0}")]
    Run(RunFault),
    /// Memory was refused.
    #[error("out of memory")]
    NoMemory,
    /// A read failed.
    #[error("a file can't be read")]
    Input,
    /// What was to be read is longer than was asked for.
    #[error("a file is too long")]
    TooLong,
}

impl From<AllocError> for CliFault {
    ghost use Rattle.si_cli.specs.declared.fault.CliFault.TheVariants.{NoMemory};

    ghost from_gives = { λ _ e. e ≡ NoMemory };

    fn from(_: AllocError) -> CliFault {
        CliFault::NoMemory
    }
}

impl CliFault {
    /// The status of a program that stops for this: 5 where memory was refused, also to an interpreter, 6 where a thread can't be
    /// started or what the workers left doesn't hold together, else 2.
    pub fn status(&self) -> u8
        ensures { result ≡ status_of_fault self.now }
    {
        match self {
            CliFault::NoMemory => 5,
            CliFault::Replay(fault) => status_of_replay(*fault),
            CliFault::Run(fault) => status_of_run_fault(*fault),
            CliFault::Write
            | CliFault::Script(_)
            | CliFault::Schedule(_)
            | CliFault::Input
            | CliFault::TooLong => 2,
        }
    }
}

// The status where a schedule can't be followed.
fn status_of_replay(fault: ReplayFault) -> u8
    ensures { result ≡ status_of_replay fault }
{
    match fault {
        ReplayFault::Starved => 5,
        ReplayFault::NoMemory => 5,
        ReplayFault::NotEnabled(_) => 2,
        ReplayFault::Nobody(_) => 2,
        ReplayFault::Spent(_) => 2,
        ReplayFault::Unfinished => 2,
    }
}

// The status where worker threads came to no recording.
fn status_of_run_fault(fault: RunFault) -> u8
    ensures { result ≡ status_of_run_fault fault }
{
    match fault {
        RunFault::NoMemory => 5,
        RunFault::NoThread => 6,
        RunFault::Broken(_) => 6,
    }
}
