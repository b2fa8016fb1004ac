// Carrying out a command.

ghost use Rattle.std.specs.Prelude.{◌≡◌, ℕ, IfErr, IfOk, IsOkUnless, IsUtf8, OnOk};
ghost use Rattle.std.specs.Io.KnownBytes.{Keeps};
ghost use Rattle.si_semantics.specs.Layout.{line_at};
ghost use Rattle.si_semantics.specs.Tree.{Stmts};
ghost use Rattle.si_parse.specs.inner.Gives.{IsSyntax};
ghost use Rattle.si_cli.specs.Service.{Answers, IsOfPlan, IsOfScript, IsOfThreads, HasRun, IsOfRun, IsReadable, IsRefusal, IsReported, IsScript, LeavesAlone, LeavesSaved, Reports, SavesFirst, SaysOk, without_mark};

use crate::asked::Request;
use crate::fault::CliFault;
use crate::repeating::{repeat, tell_history};
use crate::report::{write_report, write_text};
use crate::saving::save_schedule;
use crate::status::status_of;
use si_notes::Notes;
use si_parse::ParseFault;
use si_plain::{Limits, line_ends};
use si_reading::{Reading, read};
use si_world::World;
use std::alloc::Global;
use std::io::Write;

/// A byte order mark in UTF-8.
const MARK: [u8; 3] = [0xef, 0xbb, 0xbf];

/// Carries out a request of any command but `run` (for that one there is `serve_run`), and answers the program's status.
///
/// `Serial` runs the script, all interpreters turn by turn in rounds until none can be moved, and appends the report to
/// `out`; before its first byte the schedule that was taken is appended to `saved`, if that is asked for. `Replay` makes the
/// run again whose schedule is `schedule`, and appends its report, `History` the lines of its calls. The status is 5 where
/// memory was refused to an interpreter, 3 where a run waits for good, 4 where turns were used up, 1 where an exception left
/// the main run, else 0. `Check` appends the line `ok` where the script is read and well scoped, and runs nothing of it; the
/// status is 0.
///
/// `script` is the script's bytes, of which one byte order mark at their front is dropped, and `schedule` those of a
/// schedule, which no command but `Replay` and `History` reads. No command but `Serial` writes to `saved`. What people are
/// told beside a report is put into `notes`, of which no contract speaks.
///
/// # Errors
///
/// In this order: `Script` where the script isn't UTF-8, isn't read, or is not well scoped; `Schedule` where the schedule
/// isn't UTF-8 or the text of no schedule; `Replay` where it can't be followed; `NoMemory` where memory was refused before
/// anything was written; `Write` where a write or the last flush failed.
pub fn serve<A: Write, B: Write>(
    alloc: Global,
    request: &Request,
    script: &[u8],
    schedule: &[u8],
    saved: &mut A,
    out: &mut B,
    notes: &mut Notes,
) -> Result<u8, CliFault>
    requires { IsOfThreads request.now → ⊥ }
    ensures answers { IfOk result
        (Answers request.now script.now schedule.now (B.contents out.old) (B.contents out.new) (A.contents saved.old) (A.contents saved.new)) }
    // Only a script that is not read is refused as a script.
    ensures refused { IfErr result (λ fault. IsRefusal fault → (body : Stmts) → IsScript script.now body → ⊥) }
    // Only a schedule that is none is refused as one, and only one that can't be followed is not followed.
    ensures plan { IfErr result (IsOfPlan request.now script.now schedule.now) }
    // After every other fault than that of a write both writers are as before,
    ensures alone { IfErr result (LeavesAlone (B.contents out.old) (B.contents out.new)) }
    // and the report is not begun before the schedule is saved.
    ensures first { IfErr result (LeavesSaved request.now script.now (B.contents out.old) (B.contents out.new) (A.contents saved.old) (A.contents saved.new)) }
{
    match request {
        Request::Serial {
            limits,
            saved: at,
            ..
        } => { serial(alloc, script, *limits, at.is_some(), saved, out, notes) }
        Request::Run { .. } => unreachable!(),
        Request::Check { .. } => check(alloc, script, out),
        Request::Replay { limits, .. } => repeat(alloc, script, schedule, *limits, out, notes),
        Request::History { limits, .. } => tell_history(alloc, script, schedule, *limits, out),
    }
}

/// Runs a script within these limits, saves its schedule where that is asked for, reports its run, and makes notes of it.
fn serial<A: Write, B: Write>(
    alloc: Global,
    script: &[u8],
    limits: Limits,
    is_saved: bool,
    saved: &mut A,
    out: &mut B,
    notes: &mut Notes,
) -> Result<u8, CliFault>
    ensures reports { IfOk result (Reports limits is_saved script.now (B.contents out.old) (B.contents out.new) (A.contents saved.old) (A.contents saved.new)) }
    ensures refused { IfErr result (λ fault. IsRefusal fault → (body : Stmts) → IsScript script.now body → ⊥) }
    ensures kind { IfErr result IsOfRun }
    ensures alone { IfErr result (LeavesAlone (B.contents out.old) (B.contents out.new)) }
    ensures first { IfErr result (SavesFirst is_saved script.now limits (B.contents out.old) (B.contents out.new) (A.contents saved.old) (A.contents saved.new)) }
{
    let world = ran(alloc, script, limits)?;
    if is_saved {
        save_schedule(alloc, &world, saved)?;
    }
    let status = report(out, &world)?;
    *notes = Notes::of_world(alloc, &world);
    Ok(status)
}

/// The world of a script that is read, after all of its turns.
fn ran(alloc: Global, script: &[u8], limits: Limits) -> Result<World, CliFault>
    ensures ran { IfOk result (HasRun limits script.now) }
    ensures refused { IfErr result (λ fault. IsRefusal fault → (body : Stmts) → IsScript script.now body → ⊥) }
    ensures fault { IfErr result IsOfScript }
{
    let (text, reading) = prepare_script(alloc, script)?;
    let mut world = World::new(alloc, text, limits)?;
    world.prepare(reading);
    let _turns = world.serial(u64::MAX);
    world.facts();
    Ok(world)
}

/// Reports a world, and answers the status after it.
fn report<W: Write>(out: &mut W, world: &World) -> Result<u8, CliFault>
    ensures told { IfOk result (IsReported world.now (W.contents out.old) (W.contents out.new)) }
    ensures fault { IsOkUnless result CliFault.Write }
{
    write_report(out, world)?;
    flush(out)?;
    Ok(status_of(world))
}

/// Tells that a script is read and well scoped, where it is, by the line `ok`.
fn check<W: Write>(alloc: Global, script: &[u8], out: &mut W) -> Result<u8, CliFault>
    ensures says { IfOk result (SaysOk script.now (W.contents out.old) (W.contents out.new)) }
    ensures refused { IfErr result (λ fault. IsRefusal fault → (body : Stmts) → IsScript script.now body → ⊥) }
    ensures kind { IfErr result IsOfRun }
    ensures alone { IfErr result (LeavesAlone (W.contents out.old) (W.contents out.new)) }
{
    read_script(alloc, script)?;
    write_text(out, "ok\n")?;
    flush(out)?;
    Ok(0)
}

/// Reads a script, of which nothing is kept.
fn read_script(alloc: Global, script: &[u8]) -> Result<(), CliFault>
    ensures read { OnOk result (IsReadable script.now) }
    ensures refused { IfErr result (λ fault. IsRefusal fault → (body : Stmts) → IsScript script.now body → ⊥) }
    ensures fault { IfErr result IsOfScript }
{
    let text = decode(script)?;
    match read(alloc, text) {
        Ok(_) => Ok(()),
        Err(fault) => Err(refusal(fault)),
    }
}

/// The text of a script that is read, and what it is read as.
pub(crate) fn prepare_script(alloc: Global, script: &[u8]) -> Result<(&str, Reading), CliFault>
    ensures text { IfOk result (λ both. both.0.now ≡ without_mark script.now) }
    ensures read { OnOk result (IsReadable script.now) }
    ensures refused { IfErr result (λ fault. IsRefusal fault → (body : Stmts) → IsScript script.now body → ⊥) }
    ensures fault { IfErr result IsOfScript }
{
    let text = decode(script)?;
    match Reading::new(alloc, text) {
        Ok(reading) => Ok((text, reading)),
        Err(fault) => Err(refusal(fault)),
    }
}

/// Why the program ends where a script could not be read.
fn refusal(fault: ParseFault) -> CliFault
    ensures line { (line : ℕ) → fault ≡ ParseFault.Syntax line → result ≡ CliFault.Script line }
    ensures syntax { IsRefusal result → IsSyntax fault }
    ensures kind { IsOfScript result }
{
    match fault {
        ParseFault::Syntax(line) => CliFault::Script(line),
        ParseFault::NoMemory => CliFault::NoMemory,
    }
}

/// The text of a script's bytes, less one byte order mark at its front.
fn decode(script: &[u8]) -> Result<&str, CliFault>
    ensures text { IfOk result (λ text. text.now ≡ without_mark script.now) }
    ensures utf8 { OnOk result (IsUtf8 (without_mark script.now)) }
    ensures refused { IfErr result (λ fault. IsOfScript fault × ¬ IsUtf8 (without_mark script.now)) }
{
    let bytes = script.strip_prefix(&MARK).unwrap_or(script);
    match std::str::from_utf8(bytes) {
        Ok(text) => Ok(text),
        Err(error) => Err(CliFault::Script(line_of(bytes, error.valid_up_to()))),
    }
}

/// The line, counted from 1, in which the byte at a place stands.
fn line_of(bytes: &[u8], at: usize) -> usize
    ensures { result ≡ line_at bytes.now at }
{
    1 + line_ends(bytes, at)
}

/// Passes on what a writer has kept back.
pub(crate) fn flush<W: Write>(out: &mut W) -> Result<(), CliFault>
    ensures kept { Keeps (W.contents out.old) (W.contents out.new) }
    ensures fault { IsOkUnless result CliFault.Write }
{
    match out.flush() {
        Ok(()) => Ok(()),
        Err(_) => Err(CliFault::Write),
    }
}
