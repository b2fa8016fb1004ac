// The text of a report.

ghost use Rattle.std.specs.Prelude.{◌≡◌, IsOkUnless, OnOk, encode_utf8_all};
ghost use Rattle.std.specs.Io.KnownBytes.{Appends};
ghost use Rattle.si_plain.specs.Characters.{characters_of};
ghost use Rattle.si_semantics.specs.Life as life;
ghost use Rattle.si_semantics.specs.Report.{heading, outcome_line};
ghost use Rattle.si_parcel.specs.Shared.{action_of, outcome_of};
ghost use Rattle.si_world.specs.Reports.{members, recorded};
ghost use Rattle.si_cli.specs.Report.{action_line, end_line, part_by, parts_of, raised_lines, report_of};
ghost use Rattle.si_cli.specs.inner.Parts.{after_kind};

use crate::fault::CliFault;
use itoa::Buffer;
use si_interp::Logged;
use si_parcel::{Action, Outcome};
use si_plain::{Kind, Text};
use si_world::{End, Recording, Report, World};
use std::io::Write;

/// Appends the report of a world as it stands: of each interpreter that was created, by number, its heading, what it
/// printed, and a line for each of its runs that an exception left; and last how the turns came to their end.
/// `CliFault::Write` where a write failed; a part of the report may then be written.
pub(crate) fn write_report<W: Write>(out: &mut W, world: &World) -> Result<(), CliFault>
    ensures report { OnOk result (Appends (W.contents out.old) (W.contents out.new) (encode_utf8_all (report_of (recorded world.now)))) }
    ensures fault { IsOkUnless result CliFault.Write }
{
    write_parts(out, world)?;
    write_text(out, end_text(world.end()))
}

/// Appends the report of a recording, which is that of the world that was recorded.
pub(crate) fn write_recorded<W: Write>(out: &mut W, recording: &Recording) -> Result<(), CliFault>
    ensures report { OnOk result (Appends (W.contents out.old) (W.contents out.new) (encode_utf8_all (report_of recording.now))) }
    ensures fault { IsOkUnless result CliFault.Write }
{
    write_reports(out, recording.reports())?;
    write_text(out, end_text(recording.end()))
}

/// Appends the parts of these interpreters.
fn write_reports<W: Write>(out: &mut W, reports: &[Report]) -> Result<(), CliFault>
    ensures parts { OnOk result (Appends (W.contents out.old) (W.contents out.new) (encode_utf8_all (parts_of reports.now))) }
    ensures fault { IsOkUnless result CliFault.Write }
{
    'reports: for report in reports {
        write_part(out, report.id(), report.printed().as_str(), report.log())?;
    }
    Ok(())
}

/// Appends the parts of all interpreters that were created.
fn write_parts<W: Write>(out: &mut W, world: &World) -> Result<(), CliFault>
    ensures parts { OnOk result (Appends (W.contents out.old) (W.contents out.new)
        (encode_utf8_all (parts_of (members world.now)))) }
    ensures fault { IsOkUnless result CliFault.Write }
{
    world.facts();
    for i in 0..world.created() {
        match world.interp(i) {
            None => unreachable!(),
            Some(interp) => write_part(out, interp.id(), interp.printed(), interp.log())?,
        }
    }
    Ok(())
}

/// Appends an interpreter's part, by its number, what it has printed and its log.
fn write_part<W: Write>(out: &mut W, id: u32, printed: &str, log: &[Logged]) -> Result<(), CliFault>
    ensures part { OnOk result (Appends (W.contents out.old) (W.contents out.new)
        (encode_utf8_all (part_by id (characters_of printed.now) log.now))) }
    ensures fault { IsOkUnless result CliFault.Write }
{
    write_heading(out, id)?;
    write_text(out, printed)?;
    write_raised_lines(out, log)
}

/// Appends the line that begins the part of an interpreter with this number.
fn write_heading<W: Write>(out: &mut W, id: u32) -> Result<(), CliFault>
    ensures line { OnOk result (Appends (W.contents out.old) (W.contents out.new)
        (encode_utf8_all (heading id))) }
    ensures fault { IsOkUnless result CliFault.Write }
{
    let mut buffer = Buffer::new();
    write_text(out, "== interpreter ")?;
    write_text(out, buffer.format(id))?;
    write_text(out, " ==\n")
}

/// Appends the lines of the exceptions that left the runs of an interpreter, by its log.
fn write_raised_lines<W: Write>(out: &mut W, log: &[Logged]) -> Result<(), CliFault>
    ensures lines { OnOk result (Appends (W.contents out.old) (W.contents out.new)
        (encode_utf8_all (raised_lines log.now))) }
    ensures fault { IsOkUnless result CliFault.Write }
{
    'entries: for entry in log {
        write_action(out, &entry.action)?;
    }
    Ok(())
}

/// Appends the line of an action, if it has one: the end of a run that an exception left.
fn write_action<W: Write>(out: &mut W, action: &Action) -> Result<(), CliFault>
    ensures line { OnOk result (Appends (W.contents out.old) (W.contents out.new)
        (encode_utf8_all (action_line (action_of action.now)))) }
    ensures fault { IsOkUnless result CliFault.Write }
{
    match action {
        Action::End(outcome) => write_outcome(out, outcome),
        _ => Ok(()),
    }
}

/// Appends the line of the exception that left a run, if one did.
fn write_outcome<W: Write>(out: &mut W, outcome: &Outcome) -> Result<(), CliFault>
    ensures line { OnOk result (Appends (W.contents out.old) (W.contents out.new)
        (encode_utf8_all (outcome_line (outcome_of outcome.now)))) }
    ensures fault { IsOkUnless result CliFault.Write }
{
    match outcome {
        Outcome::Returned => Ok(()),
        Outcome::Raised(kind, message) => write_raised(out, *kind, message.as_text()),
    }
}

/// Appends the line of an exception.
fn write_raised<W: Write>(out: &mut W, kind: Kind, message: &Text) -> Result<(), CliFault>
    ensures line { OnOk result (Appends (W.contents out.old) (W.contents out.new)
        (encode_utf8_all (outcome_line (life.Raised kind message.now)))) }
    ensures fault { IsOkUnless result CliFault.Write }
{
    write_text(out, "raised ")?;
    write_text(out, kind.name())?;
    write_message(out, message)?;
    write_text(out, "\n")
}

/// Appends what stands after a kind: a message that is not empty, after a colon.
fn write_message<W: Write>(out: &mut W, message: &Text) -> Result<(), CliFault>
    ensures line { OnOk result (Appends (W.contents out.old) (W.contents out.new)
        (encode_utf8_all (after_kind message.now))) }
    ensures fault { IsOkUnless result CliFault.Write }
{
    if message.is_empty() {
        return Ok(());
    }
    write_text(out, ": ")?;
    write_text(out, message.as_str())
}

/// The last line.
fn end_text(end: End) -> &'static str
    ensures { result.now ≡ encode_utf8_all (end_line end) }
{
    match end {
        End::Open => "end: open\n",
        End::Starved => "end: starved\n",
        End::Spent => "end: spent\n",
        End::Stuck => "end: stuck\n",
        End::Finished => "end: finished\n",
    }
}

/// Appends a text.
pub(crate) fn write_text<W: Write>(out: &mut W, text: &str) -> Result<(), CliFault>
    ensures text { OnOk result (Appends (W.contents out.old) (W.contents out.new) text.now) }
    ensures fault { IsOkUnless result CliFault.Write }
{
    match out.write_all(text.as_bytes()) {
        Ok(()) => Ok(()),
        Err(_) => Err(CliFault::Write),
    }
}
