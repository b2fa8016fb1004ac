// Where an exception came from. No contract speaks of it.
ghost use Rattle.std.specs.Prelude.{◌≡◌};

use std::marker::Model;

/// How many of the places of an exception are kept, beside the last.
pub const MAX_TRACED: usize = 10;

/// Where the exception that was raised last came from: the place of the code where it was raised, and those of the calls
/// that it has left since. It is a hint, for people: contracts see none of it. It takes no memory.
#[derive(Debug, Drop)]
pub struct Trace {
    /// The exception, where there are places.
    address: usize,
    /// The first places, and the last at the end.
    places: [usize; MAX_TRACED + 1],
    /// How many places there are, with those that are not kept.
    count: u32,
}

impl Model for Trace {
    ghost Value = { Unit {0} };

    ghost view = { λ t. tt };
}

impl Trace {
    /// No exception was raised.
    pub fn new() -> Trace {
        Trace {
            address: 0,
            places: [0; MAX_TRACED + 1],
            count: 0,
        }
    }

    /// An exception at an address is raised at a place of the code, unless it is the one that was raised last, which goes
    /// on.
    #[inline(always)]
    pub fn begin(&mut self, address: usize, place: usize)
        ensures { self.new ≡ self.old }
    {
        if self.count == 0 || self.address != address {
            self.address = address;
            self.places[0] = place;
            self.count = 1;
        }
    }

    /// The call is left that returns to a place: the call stands right before it.
    pub fn leave(&mut self, after: usize)
        ensures { self.new ≡ self.old }
    {
        let next = (self.count as usize).min(MAX_TRACED);
        self.places[next] = after.saturating_sub(1);
        self.count = self.count.saturating_add(1);
    }

    /// The places, innermost first: where the exception was raised, and the calls that it has left; of more than
    /// `MAX_TRACED + 1` the first `MAX_TRACED` and the last.
    pub fn places(&self) -> &[usize] {
        let kept = (self.count as usize).min(MAX_TRACED + 1);
        &self.places[..kept]
    }

    /// How many places are left out before the last.
    pub fn left_out(&self) -> u32 {
        self.count.saturating_sub(MAX_TRACED as u32 + 1)
    }

    /// The exception, by its address, if one was raised.
    pub fn address(&self) -> Option<usize> {
        if self.count == 0 {
            None
        } else {
            Some(self.address)
        }
    }
}
