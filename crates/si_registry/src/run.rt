// One run.

ghost use Rattle.std.specs.Prelude.{◌≡◌, MatchOption, Some, None};
ghost use Rattle.si_parcel.specs.Shared.{outcome_of};

use si_parcel::Outcome;
use std::marker::Model;

/// A run, which has an outcome once it has ended.
#[derive(Drop)]
pub struct Run {
    outcome: Option<Outcome>,
}

impl Model for Run {
    ghost use Rattle.std.specs.Prelude.{Option};
    ghost use Rattle.std.specs.Coded.{coded_option};
    ghost use Rattle.si_semantics.specs.Life.{Outcome};
    ghost use Rattle.si_registry.specs.RegistryCode.{outcome_code};
    ghost use Rattle.si_registry.specs.Registers.{ended_of};

    ghost Value = { Option Outcome };

    ghost coded = { coded_option outcome_code };

    ghost view = { λ r. ended_of r.outcome };
}

impl Run {
    // One that has not ended.
    pub(crate) fn new() -> Run
        ensures { result ≡ None }
    {
        Run { outcome: None }
    }

    // One that has ended so.
    pub(crate) fn ended(outcome: Outcome) -> Run
        ensures { result ≡ Some (outcome_of outcome) }
    {
        Run {
            outcome: Some(outcome),
        }
    }

    /// How it ended, if it has.
    pub fn outcome(&self) -> Option<&Outcome>
        ensures { MatchOption result (self.now ≡ None) (λ o. self.now ≡ Some (outcome_of o.now)) }
    {
        self.outcome.as_ref()
    }
}
