// Why a script is refused.
ghost use Rattle.std.specs.Prelude.{Some, None, if◌then◌else◌};
ghost use Rattle.si_scope.specs.Faults.{Returns};

use si_syntax::Line;
use std::alloc::{AllocError, AllocFailed};

/// Why a script is refused.
#[derive(Clone, Copy, Debug, PartialEq, Eq)]
pub enum ScopeFault {
    /// A statement stands where it may not, a parameter comes twice, or a name is declared global that is a parameter or
    /// was used before; the line of that statement, of the `def` or of the `global`.
    Scope(Line),
    /// Memory was refused.
    NoMemory,
}

// A statement in this line may stand there, or may not.
pub(crate) fn allowed(may: bool, line: Line) -> Result<(), ScopeFault>
    ensures { Returns result (if may then Some tt else None) }
{
    if may {
        Ok(())
    } else {
        Err(ScopeFault::Scope(line))
    }
}

impl From<AllocError> for ScopeFault {
    ghost use Rattle.std.specs.Prelude.{◌≡◌};
    ghost use Rattle.si_scope.specs.declared.fault.ScopeFault.TheVariants.{NoMemory};

    ghost from_gives = { λ _ e. e ≡ NoMemory };

    fn from(_: AllocError) -> ScopeFault {
        ScopeFault::NoMemory
    }
}

impl<T: Drop> From<AllocFailed<T>> for ScopeFault {
    ghost use Rattle.std.specs.Prelude.{◌≡◌};
    ghost use Rattle.si_scope.specs.declared.fault.ScopeFault.TheVariants.{NoMemory};

    ghost from_gives = { λ _ e. e ≡ NoMemory };

    fn from(_: AllocFailed<T>) -> ScopeFault {
        ScopeFault::NoMemory
    }
}
