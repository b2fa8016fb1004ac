// How a run ended.

ghost use Rattle.std.specs.Prelude.{◌≡◌, ◌↔◌, true, IfOk, IsOk, IsTrue};

use crate::boxed_text::BoxedText;
use si_plain::Kind;
use std::alloc::AllocError;

/// How a run ended.
#[derive(Drop)]
pub enum Outcome {
    /// At its end.
    Returned,
    /// Left by an exception of this kind with this message.
    Raised(Kind, BoxedText),
}

impl Outcome {
    ghost use Rattle.si_parcel.specs.Shared.{outcome_of};
    ghost use Rattle.si_parcel.specs.Bare.{is_bare_outcome};

    /// The same outcome again. `AllocError` where memory is refused; `Returned` takes none.
    pub fn clone_outcome(&self) -> Result<Outcome, AllocError>
        ensures same { IfOk result (λ o. o ≡ self.now) }
        ensures no_memory { is_bare_outcome (outcome_of self.now) ≡ true → IsOk result }
    {
        match self {
            Outcome::Returned => Ok(Outcome::Returned),
            Outcome::Raised(kind, message) => Ok(Outcome::Raised(*kind, message.clone()?)),
        }
    }

    // Whether the two are the same.
    pub(crate) fn same(&self, other: &Outcome) -> bool
        ensures { IsTrue result ↔ (self.now ≡ other.now) }
    {
        match (self, other) {
            (Outcome::Returned, Outcome::Returned) => true,
            (Outcome::Raised(kind, message), Outcome::Raised(other, text)) => {
                *kind == *other && message == text
            }
            _ => false,
        }
    }
}

impl PartialEq for Outcome {
    ghost use Rattle.si_parcel.specs.Same.{same_by, same_by_per};
    ghost use Rattle.si_parcel.specs.contracts.outcome.Outcome.{the_row};

    ghost eq = { same_by the_row.coded };

    ghost laws = { same_by_per the_row.coded };

    /// Whether the two are the same.
    fn eq(&self, other: &Outcome) -> bool
        ensures eq { result ≡ same_by the_row.coded self.now other.now }
        ensures same { IsTrue result ↔ (self.now ≡ other.now) }
    {
        self.same(other)
    }
}

impl Eq for Outcome {
    ghost use Rattle.si_parcel.specs.Same.{same_by_equiv};
    ghost use Rattle.si_parcel.specs.contracts.outcome.Outcome.{the_row};

    ghost laws = { same_by_equiv the_row.coded };
}
