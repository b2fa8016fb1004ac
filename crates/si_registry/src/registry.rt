// All interpreters and runs, by their numbers.

ghost use Rattle.std.specs.Prelude.{◌≡◌, ◌<◌, ◌≤◌, ◌^◌, List, [], ◌∷◌, ◌++◌, length, IfOk, OnOk, OnErr, MatchOption, IfSome, IsSome, Some, None, slice_get, slice_set};
ghost use Rattle.si_semantics.specs.Shared as shared;
ghost use Rattle.si_semantics.specs.Shared.{Interpreter, idle_interpreter, open_from};
ghost use Rattle.si_semantics.specs.Actions as action;
ghost use Rattle.si_parcel.specs.Shared.{job_of, outcome_of};
ghost use Rattle.si_registry.specs.Registers.{with_interpreter, with_run};

use crate::interpreter::{Interpreter, Standing};
use crate::run::Run;
use si_parcel::{Binds, BoxedText, Ids, Job, Outcome};
use si_plain::NoMemory;
use std::alloc::Global;
use std::marker::Model;

/// The interpreters that were created, closed ones counted, and the runs that were started. The number of each is how
/// many there were before: numbers count up from 0, and none is given twice.
#[derive(Drop)]
pub struct Registry {
    alloc: Global,
    interpreters: Vec<Interpreter>,
    runs: Vec<Run>,
}

impl Model for Registry {
    ghost use Rattle.std.specs.Prelude.{◌≤◌, ◌^◌, length};
    ghost use Rattle.si_registry.specs.RegistryCode.{Registered, registered_code};

    ghost Value = { Registered };

    ghost coded = { registered_code };

    ghost view = { λ r. record { interpreters = r.interpreters.items; runs = r.runs.items } };

    ghost invariant = { λ r. length r.interpreters.items ≤ 2 ^ 32 };
}

impl Registry {
    /// No interpreter, and no run.
    pub fn new(alloc: Global) -> Registry
        ensures { result ≡ record { interpreters = []; runs = [] } }
    {
        Registry {
            alloc,
            interpreters: Vec::new(alloc),
            runs: Vec::new(alloc),
        }
    }

    /// How many interpreters there are, closed ones counted.
    pub fn count(&self) -> usize
        ensures { result ≡ length self.now.interpreters }
    {
        self.interpreters.len()
    }

    /// How many runs were started.
    pub fn runs(&self) -> u64
        ensures { result ≡ length self.now.runs }
    {
        self.runs.len() as u64
    }

    /// The interpreter of this number, if it was created.
    pub fn interpreter(&self, id: u32) -> Option<&Interpreter>
        ensures { MatchOption result (slice_get self.now.interpreters id ≡ None) (λ m. slice_get self.now.interpreters id ≡ Some m.now) }
    {
        self.interpreters.get(id as usize)
    }

    /// The run of this number, if it was started.
    pub fn run(&self, run: u64) -> Option<&Run>
        ensures { MatchOption result (slice_get self.now.runs run ≡ None) (λ r. slice_get self.now.runs run ≡ Some r.now) }
    {
        self.runs.get(run as usize)
    }

    /// The numbers of the interpreters that are not closed, rising.
    pub fn open(&self) -> Result<Ids, NoMemory>
        ensures { IfOk result (λ ids. ids ≡ open_from 0 self.now.interpreters) }
    {
        open_ids(self.alloc, self.interpreters.as_slice())
    }

    /// Creates an idle interpreter, where there are fewer than `most`, and tells its number. `None` where there are not;
    /// nothing has changed then.
    ///
    /// # Errors
    ///
    /// `NoMemory` where memory was refused; nothing has changed then. So it is with each call below.
    pub fn create(&mut self, most: u32) -> Result<Option<u32>, NoMemory>
        ensures made { IfOk result (λ o. MatchOption o
            ((most ≤ length self.old.interpreters) × (self.new ≡ self.old))
            (λ id. (id ≡ length self.old.interpreters) × (length self.old.interpreters < most)
            × (self.new ≡ record { interpreters = self.old.interpreters ++ idle_interpreter ∷ []; runs = self.old.runs }))) }
        ensures err { OnErr result (self.new ≡ self.old) }
    {
        let id = self.interpreters.len();
        if id >= most as usize {
            return Ok(None);
        }
        let interpreter = Interpreter::new(self.alloc);
        self.interpreters.push(interpreter)?;
        Ok(Some(id as u32))
    }

    /// Puts names to bind into the inbox of an interpreter that was created.
    pub fn prepare(&mut self, id: u32, binds: Binds) -> Result<(), NoMemory>
        requires { id < length self.old.interpreters }
        ensures ok { OnOk result ((m : Interpreter) → slice_get self.old.interpreters id ≡ Some m
            → self.new ≡ with_interpreter id (record { standing = m.standing; inbox = m.inbox ++ action.Bind binds ∷ [] }) self.old) }
        ensures err { OnErr result (self.new ≡ self.old) }
    {
        let standing = self.interpreters[id as usize].standing();
        self.interpreters[id as usize].send(standing, Job::Bind(binds))
    }

    /// Starts a run of a text in an interpreter that was created, puts it into its inbox, and tells its number.
    pub fn start(&mut self, id: u32, text: BoxedText) -> Result<u64, NoMemory>
        requires { id < length self.old.interpreters }
        ensures run { IfOk result (λ run. run ≡ length self.old.runs) }
        ensures ok { OnOk result ((m : Interpreter) → slice_get self.old.interpreters id ≡ Some m → self.new ≡ with_run id m text self.old) }
        ensures err { OnErr result (self.new ≡ self.old) }
    {
        let run = self.runs.len() as u64;
        self.runs.reserve(1)?;
        self.interpreters[id as usize].send(Standing::Running(run), Job::Run(run, text))?;
        self.runs.push_reserved(Run::new());
        Ok(run)
    }

    /// Closes an interpreter that was created, and puts that it closes into its inbox.
    pub fn close(&mut self, id: u32) -> Result<(), NoMemory>
        requires { id < length self.old.interpreters }
        ensures ok { OnOk result ((m : Interpreter) → slice_get self.old.interpreters id ≡ Some m
            → self.new ≡ with_interpreter id (record { standing = shared.Closed; inbox = m.inbox ++ action.Closing ∷ [] }) self.old) }
        ensures err { OnErr result (self.new ≡ self.old) }
    {
        self.interpreters[id as usize].send(Standing::Closed, Job::Closing)
    }

    /// Takes the oldest job of an interpreter that was created. `None` where it has none; nothing has changed then.
    pub fn take(&mut self, id: u32) -> Option<Job>
        requires { id < length self.old.interpreters }
        ensures first { (m : Interpreter) (j : action.Job) (rest : List action.Job) → slice_get self.old.interpreters id ≡ Some m → m.inbox ≡ j ∷ rest
            → IfSome result (λ job. job_of job ≡ j) × IsSome result × (self.new ≡ with_interpreter id (record { standing = m.standing; inbox = rest }) self.old) }
        ensures none { (m : Interpreter) → slice_get self.old.interpreters id ≡ Some m → m.inbox ≡ [] → (result ≡ None) × (self.new ≡ self.old) }
    {
        if self.interpreters[id as usize].first_job().is_none() {
            return None;
        }
        self.interpreters[id as usize].take()
    }

    /// Ends a run that was started with this outcome; the interpreter that was created is idle from then on.
    pub fn end(&mut self, id: u32, run: u64, outcome: Outcome)
        requires { id < length self.old.interpreters }
        ensures { (m : Interpreter) → slice_get self.old.interpreters id ≡ Some m
            → self.new ≡ record { interpreters = slice_set self.old.interpreters id (record { standing = shared.Idle; inbox = m.inbox }); runs = slice_set self.old.runs run (Some (outcome_of outcome)) } }
    {
        self.interpreters[id as usize].set_standing(Standing::Idle);
        end_run(&mut self.runs, run, outcome);
    }
}

// Ends a run, if it was started.
#[tactic(auto, using(std::proofs::lemmas::List::set_past))]
fn end_run(runs: &mut Vec<Run>, run: u64, outcome: Outcome)
    ensures { runs.new.items ≡ slice_set runs.old.items run (Some (outcome_of outcome)) }
{
    if run < runs.len() as u64 {
        runs[run as usize] = Run::ended(outcome);
    }
}

// The numbers of those that are not closed.
fn open_ids(alloc: Global, interpreters: &[Interpreter]) -> Result<Ids, NoMemory>
    requires { length interpreters.now ≤ 2 ^ 32 }
    ensures { IfOk result (λ ids. ids ≡ open_from 0 interpreters.now) }
{
    let mut ids = Vec::new(alloc);
    'each: for id in 0..interpreters.len() {
        if !interpreters[id].is_closed() {
            ids.push(id as u32)?;
        }
    }
    Ok(Ids::new(ids))
}
