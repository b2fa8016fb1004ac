// Runs made again from their schedules.

ghost use Rattle.std.specs.Prelude.{IfErr, IfOk};
ghost use Rattle.si_semantics.specs.Tree.{Stmts};
ghost use Rattle.si_cli.specs.Service.{IsNotRepeated, IsOfSchedule, IsPlan, IsRefusal, IsRepeated, IsScript, LeavesAlone, ReportsAgain, TellsHistory};
ghost use Rattle.si_cli.specs.inner.Faults.{IsOfRepeating};

use crate::fault::CliFault;
use crate::report::{write_recorded, write_text};
use crate::serving::{flush, prepare_script};
use crate::status::status_of_recording;
use si_history::history;
use si_notes::Notes;
use si_plain::Limits;
use si_replay::{ReplayFault, replay};
use si_schedule::{ReadFault, Schedule};
use si_world::Recording;
use std::alloc::Global;
use std::io::Write;

/// Makes the run of a script again that has this schedule, reports it, and makes notes of it.
pub(crate) fn repeat<W: Write>(
    alloc: Global,
    script: &[u8],
    schedule: &[u8],
    limits: Limits,
    out: &mut W,
    notes: &mut Notes,
) -> Result<u8, CliFault>
    ensures reports { IfOk result (ReportsAgain limits script.now schedule.now (W.contents out.old) (W.contents out.new)) }
    ensures refused { IfErr result (λ fault. IsRefusal fault → (body : Stmts) → IsScript script.now body → ⊥) }
    ensures plan { IfErr result (IsNotRepeated limits script.now schedule.now) }
    ensures alone { IfErr result (LeavesAlone (W.contents out.old) (W.contents out.new)) }
{
    let recording = repeated(alloc, script, schedule, limits)?;
    write_recorded(out, &recording)?;
    flush(out)?;
    *notes = Notes::of_recording(alloc, &recording);
    Ok(status_of_recording(&recording))
}

/// Makes the run of a script again that has this schedule, and tells its history.
pub(crate) fn tell_history<W: Write>(
    alloc: Global,
    script: &[u8],
    schedule: &[u8],
    limits: Limits,
    out: &mut W,
) -> Result<u8, CliFault>
    ensures tells { IfOk result (TellsHistory limits script.now schedule.now (W.contents out.old) (W.contents out.new)) }
    ensures refused { IfErr result (λ fault. IsRefusal fault → (body : Stmts) → IsScript script.now body → ⊥) }
    ensures plan { IfErr result (IsNotRepeated limits script.now schedule.now) }
    ensures alone { IfErr result (LeavesAlone (W.contents out.old) (W.contents out.new)) }
{
    let recording = repeated(alloc, script, schedule, limits)?;
    let text = history(alloc, recording.journal())?;
    write_text(out, text.as_str())?;
    flush(out)?;
    Ok(status_of_recording(&recording))
}

/// What is recorded of the run of a script that has this schedule.
fn repeated(
    alloc: Global,
    script: &[u8],
    schedule: &[u8],
    limits: Limits,
) -> Result<Recording, CliFault>
    ensures repeated { IfOk result (IsRepeated limits script.now schedule.now) }
    ensures refused { IfErr result (λ fault. IsRefusal fault → (body : Stmts) → IsScript script.now body → ⊥) }
    ensures plan { IfErr result (IsNotRepeated limits script.now schedule.now) }
    ensures kind { IfErr result IsOfRepeating }
{
    let (text, reading) = prepare_script(alloc, script)?;
    let plan = read_schedule(alloc, schedule)?;
    match replay(alloc, text, Some(reading), limits, &plan) {
        Ok(recording) => Ok(recording),
        Err(ReplayFault::NoMemory) => Err(CliFault::NoMemory),
        Err(fault) => Err(CliFault::Replay(fault)),
    }
}

/// The schedule of a text's bytes.
fn read_schedule(alloc: Global, schedule: &[u8]) -> Result<Schedule, CliFault>
    ensures plan { IfOk result (IsPlan schedule.now) }
    ensures fault { IfErr result (IsOfSchedule schedule.now) }
{
    let Ok(text) = std::str::from_utf8(schedule) else {
        return Err(CliFault::Schedule(1));
    };
    match si_schedule::read(alloc, text) {
        Ok(plan) => {
            plan.facts();
            Ok(plan)
        }
        Err(ReadFault::BadLine(line)) => Err(CliFault::Schedule(line)),
        Err(ReadFault::NoMemory) => Err(CliFault::NoMemory),
    }
}
