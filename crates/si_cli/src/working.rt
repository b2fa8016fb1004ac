// Runs by worker threads.

ghost use Rattle.std.specs.Prelude.{IfErr, IfOk, is_some};
ghost use Rattle.si_semantics.specs.Tree.{Stmts};
ghost use Rattle.si_cli.specs.Service.{HasWorked, IsOfThreads, IsOfWork, IsRefusal, IsScript, LeavesAlone, LeavesWork, ReportsWorked, SavesWork, Works};
ghost use Rattle.si_cli.specs.inner.Faults.{IsOfWorking};

use crate::asked::Request;
use crate::fault::CliFault;
use crate::report::write_recorded;
use crate::saving::save_schedule_of;
use crate::serving::{flush, prepare_script};
use crate::status::status_of_recording;
use si_notes::Notes;
use si_plain::Limits;
use si_workers::{Gate, RunFault};
use si_world::Recording;
use std::alloc::Global;
use std::io::Write;
use std::sync::Wait;
use std::thread::Threads;

/// Carries out a request of `run` (for any other there is `serve`), and answers the program's status.
///
/// The script is run by worker threads, one for each interpreter that the limits allow, and the report is appended to `out`;
/// before its first byte the schedule that was taken is appended to `saved`, if that is asked for. The status is as for
/// `serial`. `gate` is called by the worker of interpreter i before and after each stretch of local turns of it. What people
/// are told beside the report is put into `notes`, of which no contract speaks.
///
/// # Errors
///
/// In this order: `Script` where the script isn't UTF-8, isn't read, or is not well scoped; `Run` where a thread can't be started, or
/// what the workers left doesn't hold together; `NoMemory` where memory was refused before anything was written; `Write` where
/// a write or the last flush failed.
pub fn serve_run<A: Write, B: Write, G: Gate + Sync, R: Threads + Wait + Sync>(
    rt: &R,
    alloc: Global,
    request: &Request,
    script: &[u8],
    saved: &mut A,
    out: &mut B,
    notes: &mut Notes,
    gate: &G,
) -> Result<u8, CliFault>
    requires { IsOfThreads request.now }
    ensures works { IfOk result (Works request.now script.now (B.contents out.old) (B.contents out.new) (A.contents saved.old) (A.contents saved.new)) }
    // Only a script that is not read is refused as a script.
    ensures refused { IfErr result (λ fault. IsRefusal fault → (body : Stmts) → IsScript script.now body → ⊥) }
    ensures kind { IfErr result IsOfWork }
    // After every other fault than that of a write both writers are as before,
    ensures alone { IfErr result (LeavesAlone (B.contents out.old) (B.contents out.new)) }
    // and the report is not begun before the schedule is saved.
    ensures first { IfErr result (LeavesWork request.now script.now (B.contents out.old) (B.contents out.new) (A.contents saved.old) (A.contents saved.new)) }
{
    match request {
        Request::Run {
            limits,
            saved: at,
            ..
        } => {
            work(
                rt,
                alloc,
                script,
                *limits,
                at.is_some(),
                saved,
                out,
                notes,
                gate,
            )
        }
        Request::Serial { .. } => unreachable!(),
        Request::Check { .. } => unreachable!(),
        Request::Replay { .. } => unreachable!(),
        Request::History { .. } => unreachable!(),
    }
}

// Runs a script by worker threads, saves its schedule where that is asked for, reports its run, and makes notes of it.
fn work<A: Write, B: Write, G: Gate + Sync, R: Threads + Wait + Sync>(
    rt: &R,
    alloc: Global,
    script: &[u8],
    limits: Limits,
    is_saved: bool,
    saved: &mut A,
    out: &mut B,
    notes: &mut Notes,
    gate: &G,
) -> Result<u8, CliFault>
    ensures reports { IfOk result (ReportsWorked limits is_saved script.now (B.contents out.old) (B.contents out.new) (A.contents saved.old) (A.contents saved.new)) }
    ensures refused { IfErr result (λ fault. IsRefusal fault → (body : Stmts) → IsScript script.now body → ⊥) }
    ensures kind { IfErr result IsOfWork }
    ensures alone { IfErr result (LeavesAlone (B.contents out.old) (B.contents out.new)) }
    ensures first { IfErr result (SavesWork is_saved script.now limits (B.contents out.old) (B.contents out.new) (A.contents saved.old) (A.contents saved.new)) }
{
    let recording = worked(rt, alloc, script, limits, gate)?;
    if is_saved {
        save_schedule_of(alloc, &recording, saved)?;
    }
    write_recorded(out, &recording)?;
    flush(out)?;
    *notes = Notes::of_recording(alloc, &recording);
    Ok(status_of_recording(&recording))
}

// What is recorded of a script that is read and run by worker threads.
fn worked<G: Gate + Sync, R: Threads + Wait + Sync>(
    rt: &R,
    alloc: Global,
    script: &[u8],
    limits: Limits,
    gate: &G,
) -> Result<Recording, CliFault>
    ensures worked { IfOk result (HasWorked limits script.now) }
    ensures refused { IfErr result (λ fault. IsRefusal fault → (body : Stmts) → IsScript script.now body → ⊥) }
    ensures fault { IfErr result IsOfWorking }
{
    let (text, reading) = prepare_script(alloc, script)?;
    match si_workers::run(rt, alloc, text, Some(reading), limits, gate) {
        Ok(recording) => Ok(recording),
        Err(RunFault::NoMemory) => Err(CliFault::NoMemory),
        Err(fault) => Err(CliFault::Run(fault)),
    }
}
