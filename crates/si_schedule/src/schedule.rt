// A schedule.

ghost use Rattle.std.specs.Prelude.{◌≡◌, ◌<◌, ◌≤◌, ◌↔◌, IsTrue, SomeIff, All};
ghost use Rattle.si_schedule.specs.Schedules.{IsSchedule};

use si_plain::limits::MAX_INTERPRETERS;
use std::marker::Model;

/// How many interpreters a run may create, from 1 to 64, and the interpreters whose shared actions were taken, in order,
/// by their numbers, each below that. The limits are this project's own.
#[derive(Drop)]
pub struct Schedule {
    interpreters: u32,
    callers: Vec<u32>,
}

impl Model for Schedule {
    ghost use Rattle.si_schedule.specs.Schedules.{Schedule, IsSchedule};

    ghost Value = { Schedule };

    ghost view = { λ s. record { interpreters = s.interpreters; callers = s.callers.items } };

    ghost invariant = { λ s. IsSchedule (record { interpreters = s.interpreters; callers = s.callers.items }) };
}

impl Schedule {
    /// The schedule of these callers, in order; none where `interpreters` is not from 1 to 64, or a caller is not below it.
    pub fn new(interpreters: u32, callers: Vec<u32>) -> Option<Schedule>
        ensures { SomeIff result (IsSchedule (record { interpreters = interpreters; callers = callers.items })) (record { interpreters = interpreters; callers = callers.items }) }
    {
        if (1..=MAX_INTERPRETERS).contains(&interpreters) && are_below(&callers, interpreters) {
            Some(Schedule::within(interpreters, callers))
        } else {
            None
        }
    }

    // The schedule of numbers that are within their limits.
    pub(crate) fn within(interpreters: u32, callers: Vec<u32>) -> Schedule
        requires { IsSchedule (record { interpreters = interpreters; callers = callers.items }) }
        ensures { result ≡ record { interpreters = interpreters; callers = callers.items } }
    {
        Schedule {
            interpreters,
            callers,
        }
    }

    /// How many interpreters the run may create, closed ones counted: from 1 to 64.
    pub fn interpreters(&self) -> u32
        ensures value { result ≡ self.now.interpreters }
        ensures least { 1 ≤ result }
        ensures most { result ≤ 64 }
    {
        self.interpreters
    }

    /// The interpreters whose shared actions were taken, in order.
    pub fn callers(&self) -> &[u32]
        ensures { result.now ≡ self.now.callers }
    {
        self.callers.as_slice()
    }

    /// Its numbers are within their limits. Costs nothing.
    pub fn facts(&self)
        ensures { IsSchedule self.now }
    {
        let _ = &self.callers;
    }
}

// Whether each of these is one of so many interpreters.
fn are_below(callers: &[u32], interpreters: u32) -> bool
    ensures { IsTrue result ↔ All (λ i. i < interpreters) callers.now }
{
    callers.iter().all(|&by| by < interpreters)
}
