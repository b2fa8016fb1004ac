// Why a run has no recording.

use std::alloc::AllocError;
use thiserror::Error;

/// Why a run by worker threads has no recording. Its `Display` is the message for people, without a line end.
#[derive(Clone, Copy, Debug, Drop, Error, PartialEq, Eq)]
pub enum RunFault {
    /// Memory was refused.
    #[error("out of memory")]
    NoMemory,
    /// A thread can't be started.
    #[error("a thread can't be started")]
    NoThread,
    /// What is left of this interpreter doesn't fit the journal; or, with 0, the hub is of another script or of other limits, or
    /// some interpreter can still be moved.
    #[error("what is left of interpreter {0} doesn't fit the journal")]
    Broken(u32),
}

impl From<AllocError> for RunFault {
    ghost use Rattle.std.specs.Prelude.{◌≡◌};
    ghost use Rattle.si_workers.specs.declared.fault.RunFault.TheVariants.{NoMemory};

    ghost from_gives = { λ _ e. e ≡ NoMemory };

    fn from(_: AllocError) -> RunFault {
        RunFault::NoMemory
    }
}
