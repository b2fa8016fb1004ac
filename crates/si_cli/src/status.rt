// The program's status after a run.

ghost use Rattle.std.specs.Prelude.{◌≡◌};
ghost use Rattle.si_parcel.specs.Shared.{outcome_of};
ghost use Rattle.si_world.specs.Reports.{members, recorded};
ghost use Rattle.si_cli.specs.Report.{status_by, status_of, status_of_log, status_of_main, status_of_run};

use si_interp::Logged;
use si_parcel::{Action, Outcome};
use si_world::{End, Recording, Report, World};

/// The program's status after a world: 5 where memory was refused, 3 where a run waits for good, 4 where turns were used
/// up, and where all is finished 1 if an exception left the main run, else 0.
pub(crate) fn status_of(world: &World) -> u8
    ensures { result ≡ status_of (recorded world.now) }
{
    status_by(world.end(), status_of_main(world))
}

/// The program's status after a recording, in the same way.
pub(crate) fn status_of_recording(recording: &Recording) -> u8
    ensures { result ≡ status_of recording.now }
{
    status_by(recording.end(), status_of_first(recording.reports()))
}

/// The program's status by how the turns came to their end, and by the main run's status.
fn status_by(end: End, main: u8) -> u8
    ensures { result ≡ status_by end main }
{
    match end {
        End::Starved => 5,
        End::Stuck => 3,
        End::Spent => 4,
        End::Open => 4,
        End::Finished => main,
    }
}

/// The status of the main run, that of the first of these.
fn status_of_first(reports: &[Report]) -> u8
    ensures { result ≡ status_of_main reports.now }
{
    match reports.first() {
        None => 0,
        Some(main) => status_of_log(main.log()),
    }
}

/// The status of the main run, which was created.
fn status_of_main(world: &World) -> u8
    ensures { result ≡ status_of_main (members world.now) }
{
    let _created = world.created();
    match world.interp(0) {
        None => 0,
        Some(main) => status_of_log(main.log()),
    }
}

/// The status of the first run of a log that has ended; 0 where none has.
fn status_of_log(log: &[Logged]) -> u8
    ensures { result ≡ status_of_log log.now }
{
    'entries: for entry in log {
        if let Action::End(outcome) = &entry.action {
            return status_of_run(outcome);
        }
    }
    0
}

/// The status of a run that has ended.
fn status_of_run(outcome: &Outcome) -> u8
    ensures { result ≡ status_of_run (outcome_of outcome.now) }
{
    match outcome {
        Outcome::Returned => 0,
        Outcome::Raised(_, _) => 1,
    }
}
