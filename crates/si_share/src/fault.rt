// Why a value is not copied out of an arena.

use si_plain::NoMemory;

/// Why a value is not copied out of an arena.
#[derive(Clone, Copy, Debug, PartialEq, Eq)]
pub enum ShareFault {
    /// The value is not shareable (PEP 734, "Shareable Objects").
    NotShareable,
    /// The value is shareable, but past the limits of a parcel (this project's own).
    TooLarge,
    /// Memory was refused.
    NoMemory,
}

impl From<NoMemory> for ShareFault {
    ghost use Rattle.std.specs.Prelude.{◌≡◌};
    ghost use Rattle.si_share.specs.declared.fault.ShareFault.TheVariants.{NoMemory as Refused};

    ghost from_gives = { λ _ e. e ≡ Refused };

    fn from(_: NoMemory) -> ShareFault {
        ShareFault::NoMemory
    }
}
