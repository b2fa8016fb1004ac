// One interpreter.

ghost use Rattle.std.specs.Prelude.{◌≡◌, ◌≢◌, ◌<◌, ◌≤◌, ◌+◌, ◌-◌, ◌^◌, [], true, false, None, Some, IfOk, IfSome, IfNone, MatchOption, vec_len, vec_capacity};
ghost use Rattle.std.specs.Option.{IsSomeAnd};
ghost use Rattle.si_plain.specs.Characters.{characters_of};
ghost use Rattle.si_semantics.specs.Actions as shared;
ghost use Rattle.si_parcel.specs.Shared.{action_of, answer_of};
ghost use Rattle.si_steps.specs.Machines.{Steps};
ghost use Rattle.si_steps.specs.Shown.{ShowsGlobal};
ghost use Rattle.si_interp.specs.Globals.{globals_of, shown_of};
ghost use Rattle.si_interp.specs.Meaning.{At, Ready, Shows};
ghost use Rattle.si_interp.specs.View.{view_of, action_at, FitsStand, Answers, Stepped, SteppedOn, step_at, state_at, starved_view, taken_view};
ghost use Rattle.si_slots.specs.Machine.{Course};
ghost use Rattle.si_interp.specs.inner.Keeps.{IsUnderWay, IsGoing, moment_of};
ghost use Rattle.si_interp.specs.inner.Lines.{LinesLed};

use crate::arriving::{arrive, come_to_action, note, put};
use crate::origins::{Origins, RunOrigin};
use crate::taking::answered;
use si_parcel::{Action, Answer};
use si_plain::{NoMemory, Text};
use si_reading::Reading;
use si_steps::{Machine, NotShown, Step as Line};
use std::alloc::Global;
use std::marker::Model;

/// An action that was answered, and how many lines the interpreter had run before its answer.
#[derive(Drop)]
pub struct Logged {
    pub action: Action,
    pub answer: Answer,
    pub at: u64,
}

impl Model for Logged {
    ghost use Rattle.si_interp.specs.Meaning.{Logged};
    ghost use Rattle.si_interp.specs.InterpCode.{logged_code};
    ghost use Rattle.si_parcel.specs.Shared.{action_of, answer_of};

    ghost Value = { Logged };

    ghost coded = { logged_code };

    ghost view = { λ l. record { action = action_of l.action; answer = answer_of l.answer; at = l.at } };
}

/// What a step did.
#[derive(Clone, Copy, Debug, Drop, PartialEq, Eq)]
pub enum Step {
    /// A line was run, and there is another.
    Local,
    /// It stands at an action. Where it did so before, nothing was done.
    Asks,
    /// It is gone; nothing was done.
    Gone,
    /// It stands still for good. No line was run.
    Starved,
}

/// How an interpreter stands.
#[derive(Clone, Copy, Debug, Drop, PartialEq, Eq)]
pub enum State {
    /// It has a line to run.
    Ready,
    /// It stands at an action, and goes on with its answer.
    AtAction,
    /// It is gone.
    Gone,
    /// It stands still for good: memory was refused, or it was told to.
    Starved,
}

/// One interpreter, with all that it has printed and the answers that it was given.
#[derive(Drop)]
pub struct Interp {
    id: u32,
    machine: Machine,
    log: Vec<Logged>,
    locals: u64,
    state: State,
    kept: Option<Action>,
    offered: Option<Action>,
    /// A text that may be the first that it is given to run, with the script as which it is read.
    prepared: Option<Reading>,
    origins: Origins,
    alloc: Global,
}

// One line of a machine that is at the moment of this number and log, after these lines and those that were given since: of that
// the contract speaks alone.
#[inline(always)]
fn line(machine: &mut Machine, id: u32, log: &Vec<Logged>, locals: u64, given: u64) -> Line
    ghost c: { Course }
    requires { IsUnderWay c machine.old }
    ensures { Steps c machine.old machine.new result }
{
    let _ = id;
    let _ = log;
    let _ = locals;
    let _ = given;
    machine.step()
}

// At most so many lines of a machine that is at the moment of this number, log and lines, of which the contract speaks alone, as
// long as its run goes on: how many went on, and what was done last. The one loop in which a machine is stepped: the step is drawn
// into it, and how many lines there were is counted beside the machine.
#[inline(always)]
fn lines(machine: &mut Machine, id: u32, log: &Vec<Logged>, locals: u64, most: u64) -> (u64, Line)
    requires { IsGoing id log.now.items locals (moment_of id log.now.items locals) machine.old }
    ensures led { LinesLed id log.now.items locals machine.old most result.0 result.1 machine.new }
    ensures within { result.0 ≤ most }
{
    let mut given = 0;
    let mut came = Line::Local;
    while given < most {
        came = line(machine, id, log, locals, given);
        match came {
            Line::Local => given += 1,
            _ => break,
        }
    }
    (given, came)
}

impl Model for Interp {
    ghost use Rattle.std.specs.Prelude.{◌-◌, vec_len, vec_capacity};
    ghost use Rattle.si_plain.specs.Characters.{characters_of};
    ghost use Rattle.si_steps.specs.Machines.{printed_of};
    ghost use Rattle.si_interp.specs.Meaning.{InterpView};
    ghost use Rattle.si_interp.specs.InterpCode.{view_code};

    ghost Value = { InterpView };

    ghost coded = { view_code };

    ghost use Rattle.si_interp.specs.View.{view_of};
    ghost use Rattle.si_interp.specs.inner.Keeps.{stand_in, taken_in, Keeps};

    ghost view = { λ a. view_of a.id (characters_of (printed_of a.machine)) a.log.items a.locals (stand_in a.state a.kept) (taken_in a.state a.offered) };

    ghost invariant = { λ a. Keeps a.id a.machine a.log.items a.locals (vec_capacity a.log - vec_len a.log) a.state a.kept a.offered };
}

impl Interp {
    /// A new interpreter of this number: it waits for a job.
    ///
    /// # Errors
    ///
    /// `NoMemory` where memory was refused.
    pub fn new(alloc: Global, id: u32) -> Result<Interp, NoMemory>
        ensures { IfOk result (λ i. i ≡ view_of id [] [] 0 (At shared.Take) false) }
    {
        let mut log = Vec::new(alloc);
        log.reserve(1)?;
        Ok(Interp {
            id,
            machine: Machine::new(alloc, id),
            log,
            locals: 0,
            state: State::AtAction,
            kept: Some(Action::Take),
            offered: Some(Action::Take),
            prepared: None,
            origins: Origins::none(alloc),
            alloc,
        })
    }

    /// Has a text at hand with the script as which it is read: where it is the next text that it is given to run, it is not read
    /// once more. Nothing else comes of it.
    pub fn prepare(&mut self, reading: Reading)
        ensures { self.new ≡ self.old }
    {
        self.prepared = Some(reading);
    }

    /// It shows its meaning. Costs nothing.
    pub fn facts(&self)
        ensures { Shows self.now }
    {
        let _ = &self.locals;
    }

    /// Its number.
    pub fn id(&self) -> u32
        ensures { result ≡ self.now.id }
    {
        self.id
    }

    /// All that it has printed.
    pub fn printed(&self) -> &str
        ensures { characters_of result.now ≡ self.now.printed }
    {
        self.machine.printed()
    }

    /// The actions that were answered, in order.
    pub fn log(&self) -> &[Logged]
        ensures { result.now ≡ self.now.log }
    {
        self.log.as_slice()
    }

    /// The same actions, handed over; all else is let go of.
    pub fn into_log(self) -> Vec<Logged>
        ensures { result.items ≡ self.log }
    {
        self.log
    }

    /// How many lines it has run.
    pub fn locals(&self) -> u64
        ensures { result ≡ self.now.locals }
    {
        self.locals
    }

    /// How it stands.
    pub fn state(&self) -> State
        ensures { result ≡ state_at self.now.stand }
    {
        self.state
    }

    /// The action at which it stands, until it is answered.
    pub fn pending(&self) -> Option<&Action>
        ensures { MatchOption result (action_at self.now.stand ≡ None) (λ a. action_at self.now.stand ≡ Some (action_of a.now)) }
    {
        match self.state {
            State::AtAction => self.kept.as_ref(),
            _ => None,
        }
    }

    /// Whether the action at which it stands was handed out.
    pub fn is_taken(&self) -> bool
        ensures { result ≡ self.now.taken }
    {
        match self.state {
            State::AtAction => self.offered.is_none(),
            _ => false,
        }
    }

    /// Where the exceptions came from that left runs of it, in order of the runs: hints for people, of which no contract speaks.
    /// A run of which no hint could be had is left out, as where memory for it was refused; nothing else differs then.
    pub fn origins(&self) -> &[RunOrigin] {
        self.origins.as_slice()
    }

    /// What a global denotes, as a text: the `repr` of the value that is bound to the name now. None where nothing is bound to
    /// it, and where the interpreter is gone or stands still for good, so that no script of it sees a global any more. The name
    /// goes by its bytes, which are its characters where it is ASCII, as each name of a script is.
    ///
    /// # Errors
    ///
    /// `Raises` where `repr` raises an exception: RecursionError where values are too deep within each other, OverflowError
    /// where the text is longer than a str may be. `NoMemory` where memory was refused.
    pub fn global(&self, name: &str) -> Result<Option<Text>, NotShown>
        ensures { ShowsGlobal (shown_of (globals_of self.now) name.now) result }
    {
        match self.state {
            State::Gone => Ok(None),
            State::Starved => Ok(None),
            _ => self.machine.global(name),
        }
    }

    /// Hands out the action at which it stands, once.
    pub fn take_action(&mut self) -> Option<Action>
        ensures some { IfSome result (λ a. (self.old.stand ≡ At (action_of a)) × (self.old.taken ≡ false) × (self.new ≡ taken_view self.old true)) }
        ensures none { IfNone result (self.new ≡ self.old) }
        ensures hands { (a : shared.Action) → self.old.stand ≡ At a → self.old.taken ≡ false → IsSomeAnd result (λ b. action_of b ≡ a) }
    {
        match self.state {
            State::AtAction => self.offered.take(),
            _ => None,
        }
    }

    /// Takes back the action that it handed out.
    pub fn give_back(&mut self, action: Action)
        requires taken { self.old.taken ≡ true }
        requires same { self.old.stand ≡ At (action_of action) }
        ensures { self.new ≡ taken_view self.old false }
    {
        put(&mut self.offered, Some(action));
    }

    /// Stops it for good.
    pub fn starve(&mut self)
        ensures { self.new ≡ starved_view self.old }
    {
        self.state = State::Starved;
    }

    /// Runs at most so many lines, one after the other, as long as there is one to run: how many turns these were, and what the
    /// last of them did. With a line it may come to the end of its run or to a request, at which it then stands. Where memory is
    /// refused, also that to tell how the run ended or what is asked, it stands still for good: that is a turn, but no line that
    /// counts.
    #[inline(always)]
    pub fn lines(&mut self, most: u64) -> (u64, Step)
        requires ready { self.old.stand ≡ Ready }
        requires small { self.old.locals + most ≤ 1099511627776 }
        ensures { SteppedOn self.old most result.0 result.1 self.new }
    {
        let (given, came) = lines(&mut self.machine, self.id, &self.log, self.locals, most);
        self.locals += given;
        match came {
            Line::Local => (given, Step::Local),
            Line::Starved => {
                self.state = State::Starved;
                (given + 1, Step::Starved)
            }
            came => match come_to_action(
                self.alloc,
                &mut self.machine,
                came,
                self.id,
                self.locals,
                &mut self.log,
                &mut self.kept,
                &mut self.offered,
                &mut self.origins,
            ) {
                Err(_) => {
                    self.state = State::Starved;
                    (given + 1, Step::Starved)
                }
                Ok(state) => {
                    self.state = state;
                    self.locals += 1;
                    (given + 1, Step::Asks)
                }
            },
        }
    }

    /// Runs one line, where it has one. With that it may come to the end of its run or to a request, at which it then stands.
    /// Where memory is refused, also that to tell how the run ended or what is asked, it stands still for good, and the line
    /// doesn't count.
    pub fn step(&mut self) -> Step
        requires { self.old.locals < 2 ^ 40 }
        ensures still { self.old.stand ≢ Ready → (self.new ≡ self.old) × (result ≡ step_at self.old.stand) }
        ensures ready { self.old.stand ≡ Ready → Stepped self.old result self.new }
        ensures told { result ≡ step_at self.new.stand }
    {
        match self.state {
            State::Starved => Step::Starved,
            State::AtAction => Step::Asks,
            State::Gone => Step::Gone,
            State::Ready => self.lines(1).1,
        }
    }

    /// Answers the action that it handed out, which then is the last of its log. It goes on with the job that it is given, waits
    /// for the next, or goes on with the answer to what its script asked: it runs, stands at the end of its run where an exception
    /// has left it, or asks again. Where memory is refused it stands still for good.
    pub fn answer(&mut self, answer: Answer)
        requires taken { self.old.taken ≡ true }
        requires fits { FitsStand (answer_of answer) self.old.stand }
        ensures { Answers self.old (answer_of answer) self.new }
    {
        let Some(action) = self.kept.take() else {
            unreachable!()
        };
        let at = self.locals;
        match answered(
            self.alloc,
            &mut self.machine,
            self.id,
            self.log.as_slice(),
            at,
            &action,
            &answer,
            &mut self.prepared,
            &mut self.origins,
        ) {
            Err(_) => {
                note(&mut self.log, Logged { action, answer, at });
                self.state = State::Starved;
            }
            Ok(next) => {
                note(&mut self.log, Logged { action, answer, at });
                match arrive(
                    self.alloc,
                    next,
                    &mut self.log,
                    &mut self.kept,
                    &mut self.offered,
                ) {
                    Err(_) => self.state = State::Starved,
                    Ok(state) => self.state = state,
                }
            }
        }
    }
}
