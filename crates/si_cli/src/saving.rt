// Saving the schedule that was taken.

ghost use Rattle.std.specs.Prelude.{IfErr, OnOk};
ghost use Rattle.std.specs.Io.KnownBytes.{Appends};
ghost use Rattle.si_schedule.specs.Schedules.{text_of};
ghost use Rattle.si_replay.specs.Replays.{schedule_in};
ghost use Rattle.si_cli.specs.Service.{LeavesAlone};
ghost use Rattle.si_cli.specs.inner.Faults.{IsOfSaving};

use crate::fault::CliFault;
use crate::report::write_text;
use crate::serving::flush;
use si_replay::{schedule_of, schedule_of_recording};
use si_schedule::Schedule;
use si_world::{Recording, World};
use std::alloc::Global;
use std::io::Write;

/// Appends the text of the schedule of a world: the order in which its calls were made. `NoMemory` where memory was refused,
/// and then nothing was written; `Write` where a write or the last flush failed.
pub(crate) fn save_schedule<W: Write>(
    alloc: Global,
    world: &World,
    saved: &mut W,
) -> Result<(), CliFault>
    ensures text { OnOk result (Appends (W.contents saved.old) (W.contents saved.new) (text_of (schedule_in world.now))) }
    ensures kind { IfErr result IsOfSaving }
    ensures alone { IfErr result (LeavesAlone (W.contents saved.old) (W.contents saved.new)) }
{
    let schedule = schedule_of(alloc, world)?;
    save(alloc, &schedule, saved)
}

/// The same of a recording.
pub(crate) fn save_schedule_of<W: Write>(
    alloc: Global,
    recording: &Recording,
    saved: &mut W,
) -> Result<(), CliFault>
    ensures text { OnOk result (Appends (W.contents saved.old) (W.contents saved.new) (text_of (schedule_in recording.now))) }
    ensures kind { IfErr result IsOfSaving }
    ensures alone { IfErr result (LeavesAlone (W.contents saved.old) (W.contents saved.new)) }
{
    let schedule = schedule_of_recording(alloc, recording)?;
    save(alloc, &schedule, saved)
}

// Appends the text of a schedule.
fn save<W: Write>(alloc: Global, schedule: &Schedule, saved: &mut W) -> Result<(), CliFault>
    ensures text { OnOk result (Appends (W.contents saved.old) (W.contents saved.new) (text_of schedule.now)) }
    ensures kind { IfErr result IsOfSaving }
    ensures alone { IfErr result (LeavesAlone (W.contents saved.old) (W.contents saved.new)) }
{
    let text = si_schedule::write(alloc, schedule)?;
    write_text(saved, text.as_str())?;
    flush(saved)
}
