// Where an exception that left a run came from. No contract speaks of it.

use crate::state::State;
use crate::step::Exit;
use si_slots::Spot;
use si_stacks::MAX_TRACED;

/// Where an exception that left a run came from: the statement that raised it, and those of the calls that it left, the
/// innermost first. Of more than `MAX_TRACED + 1` it has the first `MAX_TRACED` and the last. It is a hint, for people.
#[derive(Clone, Copy, Debug)]
pub struct Origin {
    /// The first so many are of meaning.
    spots: [Spot; MAX_TRACED + 1],
    count: usize,
    left_out: u32,
}

impl Origin {
    // Of no statement yet; so many will be left out.
    fn new(left_out: u32) -> Origin {
        let nowhere = Spot {
            text: 0,
            statement: 0,
        };
        Origin {
            spots: [nowhere; MAX_TRACED + 1],
            count: 0,
            left_out,
        }
    }

    // One more, that of the next call.
    fn push(&mut self, spot: Spot) {
        if self.count <= MAX_TRACED {
            self.spots[self.count] = spot;
            self.count += 1;
        }
    }

    /// The statements, innermost first; the last is one of the run itself.
    pub fn spots(&self) -> &[Spot] {
        let count = self.count.min(MAX_TRACED + 1);
        &self.spots[..count]
    }

    /// How many calls are left out before the last statement.
    pub fn left_out(&self) -> u32 {
        self.left_out
    }

    /// The same with the number of the run in place of that of each text: the text of a number is that of the run that
    /// stands there. A text that has none keeps its number.
    pub fn of_runs(&self, runs: &[u32]) -> Origin {
        let mut origin = Origin::new(self.left_out);
        for spot in self.spots() {
            let text = match runs.get(spot.text as usize) {
                Some(run) => *run,
                None => spot.text,
            };
            origin.push(Spot {
                text,
                statement: spot.statement,
            });
        }
        origin
    }
}

impl State {
    /// Where the exception came from that left the last run, if one did and its code is known.
    pub fn origin(&self) -> Option<Origin> {
        match self.outcome {
            Exit::Returned => None,
            Exit::Raised(address) => {
                if self.trace.address() == Some(address) {
                    self.traced()
                } else {
                    None
                }
            }
        }
    }

    // Where the exception came from that was raised last.
    fn traced(&self) -> Option<Origin> {
        let mut origin = Origin::new(self.trace.left_out());
        for place in self.trace.places() {
            origin.push(self.table.spot(*place)?);
        }
        Some(origin)
    }
}
