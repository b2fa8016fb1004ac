// How a recording ends.

ghost use Rattle.std.specs.Prelude.{◌≡◌, ◌≢◌, ◌≤◌, length};
ghost use Rattle.si_parcel.specs.Shared.{action_of};
ghost use Rattle.si_interp.specs.Meaning.{At};
ghost use Rattle.si_world.specs.Marks.{AtRest};
ghost use Rattle.si_world.specs.Reports.{end_by, end_of, first_of_ends, members, rank};

use crate::report::{Report, Standing};
use crate::world::World;
use si_hub::Hub;
use si_interp::{Interp, State};
use si_parcel::Action;

/// How the turns of a script came to their end: the first of these that holds.
#[derive(Clone, Copy, Debug, Drop, PartialEq, Eq)]
pub enum End {
    /// Some interpreter could still be moved.
    Open,
    /// Memory was refused to some interpreter, and no other can be moved.
    Starved,
    /// Some interpreter has a line to run, and no turn left for it.
    Spent,
    /// Some interpreter waits with a run open.
    Stuck,
    /// No interpreter waits but for a job.
    Finished,
}

impl End {
    fn rank(self) -> u32
        ensures { result ≡ rank self }
    {
        match self {
            End::Open => 0,
            End::Starved => 1,
            End::Spent => 2,
            End::Stuck => 3,
            End::Finished => 4,
        }
    }

    // The one of the two that goes before.
    fn first(self, other: End) -> End
        ensures { result ≡ first_of_ends self other }
    {
        if self.rank() <= other.rank() {
            self
        } else {
            other
        }
    }
}

// What one interpreter says of the end.
fn end_at(hub: &Hub, interp: &Interp, i: u32) -> End
    ensures { result ≡ end_by hub.now.past i interp.now.locals interp.now.stand }
{
    match interp.state() {
        State::Ready => {
            if interp.locals() < hub.limits().turns() {
                End::Open
            } else {
                End::Spent
            }
        }
        State::AtAction => match interp.pending() {
            None => unreachable!(),
            Some(action) => end_waiting(hub, action, i),
        },
        State::Gone => End::Finished,
        State::Starved => End::Starved,
    }
}

// The same of one that stands at an action.
fn end_waiting(hub: &Hub, action: &Action, i: u32) -> End
    ensures { result ≡ end_by hub.now.past i 0 (At (action_of action.now)) }
{
    if hub.enabled(i, action) {
        return End::Open;
    }
    match action {
        Action::Take => End::Finished,
        _ => End::Stuck,
    }
}

// What the report of one interpreter says of the end.
fn end_seen(hub: &Hub, report: &Report, i: u32) -> End
    ensures { result ≡ end_by hub.now.past i report.now.locals report.now.stand }
{
    match report.standing() {
        Standing::Ready => {
            if report.locals() < hub.limits().turns() {
                End::Open
            } else {
                End::Spent
            }
        }
        Standing::AtAction(action) => end_waiting(hub, action, i),
        Standing::Gone => End::Finished,
        Standing::Starved => End::Starved,
    }
}

// How interpreters end that these are the reports of, by their numbers.
pub(crate) fn end_of_reports(hub: &Hub, reports: &[Report]) -> End
    requires { length reports.now ≤ 64 }
    ensures { result ≡ end_of hub.now.past reports.now }
{
    let mut end = End::Finished;
    for i in 0..reports.len() as u32 {
        end = end.first(end_seen(hub, &reports[i as usize], i));
    }
    end
}

impl World {
    /// How the turns so far end, of what stands there now. Where it is not open, the world is at rest.
    pub fn end(&self) -> End
        ensures value { result ≡ end_of self.now.past (members self.now) }
        ensures rest { result ≢ End.Open → AtRest self.now }
    {
        let mut end = End::Finished;
        for i in 0..self.made {
            end = end.first(end_at(&self.hub, &self.interps[i as usize], i));
        }
        end
    }
}
