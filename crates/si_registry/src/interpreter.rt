// One interpreter, as others see it.

ghost use Rattle.std.specs.Prelude.{◌≡◌, List, [], ◌∷◌, ◌++◌, OnOk, OnErr, OnSome, MatchOption};
ghost use Rattle.si_semantics.specs.Actions as shared;
ghost use Rattle.si_parcel.specs.Shared.{job_of};
ghost use Rattle.si_semantics.specs.Shared.{idle_interpreter, is_closed, is_running, run_if_empty};
ghost use Rattle.si_registry.specs.Registers.{standing_of};

use si_parcel::Job;
use si_plain::NoMemory;
use std::alloc::Global;
use std::collections::VecDeque;
use std::marker::Model;

/// What an interpreter does.
#[derive(Clone, Copy, Debug, PartialEq, Eq)]
pub enum Standing {
    /// Nothing.
    Idle,
    /// A run, by its number.
    Running(u64),
    /// Nothing ever again.
    Closed,
}

// A job that was not taken yet.
#[derive(Drop)]
struct Waiting {
    job: Job,
}

impl Model for Waiting {
    ghost use Rattle.si_semantics.specs.Actions.{Job};
    ghost use Rattle.si_registry.specs.RegistryCode.{job_code};
    ghost use Rattle.si_parcel.specs.Shared.{job_of};

    ghost Value = { Job };

    ghost coded = { job_code };

    ghost view = { λ w. job_of w.job };
}

/// An interpreter: what it does, and the jobs that it has not taken yet, the oldest first.
#[derive(Drop)]
pub struct Interpreter {
    standing: Standing,
    inbox: VecDeque<Waiting>,
}

impl Model for Interpreter {
    ghost use Rattle.si_semantics.specs.Shared.{Interpreter};
    ghost use Rattle.si_registry.specs.RegistryCode.{interpreter_code};
    ghost use Rattle.si_registry.specs.Registers.{standing_of};

    ghost Value = { Interpreter };

    ghost coded = { interpreter_code };

    ghost view = { λ m. record { standing = standing_of m.standing; inbox = m.inbox.items } };
}

impl Interpreter {
    // An idle one with an empty inbox.
    pub(crate) fn new(alloc: Global) -> Interpreter
        ensures { result ≡ idle_interpreter }
    {
        Interpreter {
            standing: Standing::Idle,
            inbox: VecDeque::new(alloc),
        }
    }

    /// What it does.
    pub fn standing(&self) -> Standing
        ensures { standing_of result ≡ self.now.standing }
    {
        self.standing
    }

    /// Whether it is closed.
    pub fn is_closed(&self) -> bool
        ensures { result ≡ is_closed self.now.standing }
    {
        matches!(self.standing, Standing::Closed)
    }

    /// Whether it runs, be its run taken or not.
    pub fn is_running(&self) -> bool
        ensures { result ≡ is_running self.now.standing }
    {
        matches!(self.standing, Standing::Running(_))
    }

    /// The oldest job in its inbox.
    pub fn first_job(&self) -> Option<&Job>
        ensures { MatchOption result (self.now.inbox ≡ []) (λ j. (rest : List shared.Job) × (self.now.inbox ≡ job_of j.now ∷ rest)) }
    {
        match self.inbox.front() {
            None => None,
            Some(waiting) => Some(&waiting.job),
        }
    }

    /// The run that it has taken: it runs, and its inbox is empty.
    pub fn taken_run(&self) -> Option<u64>
        ensures run { result ≡ run_if_empty self.now.standing self.now.inbox }
        ensures empty { OnSome result (self.now.inbox ≡ []) }
    {
        if !self.inbox.is_empty() {
            return None;
        }
        match self.standing {
            Standing::Idle => None,
            Standing::Running(run) => Some(run),
            Standing::Closed => None,
        }
    }

    // What it does from now on.
    pub(crate) fn set_standing(&mut self, standing: Standing)
        ensures { self.new ≡ record { standing = standing_of standing; inbox = self.old.inbox } }
    {
        self.standing = standing;
    }

    // A job more, and what it does from now on.
    pub(crate) fn send(&mut self, standing: Standing, job: Job) -> Result<(), NoMemory>
        ensures ok { OnOk result (self.new ≡ record { standing = standing_of standing; inbox = self.old.inbox ++ job_of job ∷ [] }) }
        ensures err { OnErr result (self.new ≡ self.old) }
    {
        self.inbox.reserve(1)?;
        self.inbox.push_back_reserved(Waiting { job });
        self.standing = standing;
        Ok(())
    }

    // The oldest job, taken away.
    pub(crate) fn take(&mut self) -> Option<Job>
        ensures { MatchOption result
            ((self.old.inbox ≡ []) × (self.new ≡ self.old))
            (λ j. self.old ≡ record { standing = self.new.standing; inbox = job_of j ∷ self.new.inbox }) }
    {
        match self.inbox.pop_front() {
            None => None,
            Some(Waiting { job }) => Some(job),
        }
    }
}
