// What is seen of one interpreter.

ghost use Rattle.std.specs.Prelude.{◌≡◌, [], IfOk, false};
ghost use Rattle.si_interp.specs.View.{taken_view, view_of};
ghost use Rattle.si_world.specs.Reports.{stand_of};

use si_interp::{Interp, Logged, RunOrigin, State};
use si_parcel::Action;
use si_plain::{NoMemory, Text};
use std::alloc::Global;
use std::marker::Model;

/// How an interpreter stands.
#[derive(Drop)]
pub enum Standing {
    /// It has a line to run.
    Ready,
    /// It stands at an action.
    AtAction(Action),
    /// It is gone.
    Gone,
    /// It stands still for good.
    Starved,
}

/// What is seen of an interpreter: its number, all that it has printed, its actions with their answers in order, the lines
/// that it has run, and how it stands. For people it has where the exceptions came from that left its runs; no contract sees that.
#[derive(Drop)]
pub struct Report {
    id: u32,
    printed: Text,
    log: Vec<Logged>,
    locals: u64,
    standing: Standing,
    origins: Vec<RunOrigin>,
}

impl Model for Report {
    ghost use Rattle.std.specs.Prelude.{false};
    ghost use Rattle.si_interp.specs.Meaning.{InterpView};
    ghost use Rattle.si_interp.specs.InterpCode.{view_code};
    ghost use Rattle.si_interp.specs.View.{view_of};
    ghost use Rattle.si_world.specs.Reports.{stand_of};

    ghost Value = { InterpView };

    ghost coded = { view_code };

    ghost view = { λ r. view_of r.id r.printed r.log.items r.locals (stand_of r.standing) false };
}

// The same entries again.
fn copy_log(alloc: Global, log: &[Logged]) -> Result<Vec<Logged>, NoMemory>
    ensures { IfOk result (λ copy. copy.items ≡ log.now) }
{
    let mut copy = Vec::with_capacity(alloc, log.len())?;
    for entry in log {
        let action = entry.action.clone_action(alloc)?;
        let answer = entry.answer.clone_answer(alloc)?;
        let at = entry.at;
        copy.push(Logged { action, answer, at })?;
    }
    Ok(copy)
}

// How an interpreter stands.
fn standing_of(alloc: Global, interp: &Interp) -> Result<Standing, NoMemory>
    ensures { IfOk result (λ s. stand_of s ≡ interp.now.stand) }
{
    Ok(match interp.state() {
        State::Ready => Standing::Ready,
        State::AtAction => match interp.pending() {
            None => unreachable!(),
            Some(action) => Standing::AtAction(action.clone_action(alloc)?),
        },
        State::Gone => Standing::Gone,
        State::Starved => Standing::Starved,
    })
}

impl Report {
    // What is seen of an interpreter, but for its log.
    fn without_log(alloc: Global, interp: &Interp) -> Result<Report, NoMemory>
        ensures { IfOk result (λ r. r ≡ view_of interp.now.id interp.now.printed [] interp.now.locals interp.now.stand false) }
    {
        Ok(Report {
            id: interp.id(),
            printed: Text::from_str(alloc, interp.printed())?,
            log: Vec::new(alloc),
            locals: interp.locals(),
            standing: standing_of(alloc, interp)?,
            origins: Vec::from_slice(alloc, interp.origins())?,
        })
    }

    /// What is seen of an interpreter, by copy.
    ///
    /// # Errors
    ///
    /// `NoMemory` where memory was refused.
    pub fn of(alloc: Global, interp: &Interp) -> Result<Report, NoMemory>
        ensures { IfOk result (λ r. r ≡ taken_view interp.now false) }
    {
        let mut report = Report::without_log(alloc, interp)?;
        report.log = copy_log(alloc, interp.log())?;
        Ok(report)
    }

    /// The same of an interpreter that is let go of: its log is taken over, not copied.
    ///
    /// # Errors
    ///
    /// `NoMemory` where memory was refused. The interpreter is gone then.
    pub fn taking(alloc: Global, interp: Interp) -> Result<Report, NoMemory>
        ensures { IfOk result (λ r. r ≡ taken_view interp false) }
    {
        let mut report = Report::without_log(alloc, &interp)?;
        report.log = interp.into_log();
        Ok(report)
    }

    /// The interpreter's number.
    pub fn id(&self) -> u32
        ensures { result ≡ self.now.id }
    {
        self.id
    }

    /// All that it has printed.
    pub fn printed(&self) -> &Text
        ensures { result.now ≡ self.now.printed }
    {
        &self.printed
    }

    /// Its actions, each with its answer, in order.
    pub fn log(&self) -> &[Logged]
        ensures { result.now ≡ self.now.log }
    {
        self.log.as_slice()
    }

    /// How many lines it has run.
    pub fn locals(&self) -> u64
        ensures { result ≡ self.now.locals }
    {
        self.locals
    }

    /// How it stands.
    pub fn standing(&self) -> &Standing
        ensures { stand_of result.now ≡ self.now.stand }
    {
        &self.standing
    }

    /// Where the exceptions came from that left its runs, in order of the runs: hints for people, as the interpreter gave them
    /// (`Interp::origins`).
    pub fn origins(&self) -> &[RunOrigin] {
        self.origins.as_slice()
    }
}
