// What an interpreter is given to do.

ghost use Rattle.std.specs.Prelude.{◌≡◌, ◌↔◌, true, IfOk, IsOk, IsTrue};

use crate::binds::Binds;
use crate::boxed_text::BoxedText;
use std::alloc::{AllocError, Global};

/// What an interpreter is given to do.
#[derive(Drop)]
pub enum Job {
    /// Names to bind.
    Bind(Binds),
    /// A run by its number, and its text.
    Run(u64, BoxedText),
    /// To close.
    Closing,
}

impl Job {
    ghost use Rattle.si_parcel.specs.Shared.{job_of};
    ghost use Rattle.si_parcel.specs.Bare.{is_bare_job};

    /// The same job again. `AllocError` where memory is refused; `Closing` takes none.
    pub fn clone_job(&self, alloc: Global) -> Result<Job, AllocError>
        ensures same { IfOk result (λ j. j ≡ self.now) }
        ensures no_memory { is_bare_job (job_of self.now) ≡ true → IsOk result }
    {
        match self {
            Job::Bind(binds) => Ok(Job::Bind(binds.clone_binds(alloc)?)),
            Job::Run(run, text) => Ok(Job::Run(*run, text.clone()?)),
            Job::Closing => Ok(Job::Closing),
        }
    }

    // Whether the two are the same.
    pub(crate) fn same(&self, other: &Job) -> bool
        ensures { IsTrue result ↔ (self.now ≡ other.now) }
    {
        match (self, other) {
            (Job::Bind(binds), Job::Bind(others)) => binds.same(others),
            (Job::Run(run, text), Job::Run(other, script)) => *run == *other && text == script,
            (Job::Closing, Job::Closing) => true,
            _ => false,
        }
    }
}

impl PartialEq for Job {
    ghost use Rattle.si_parcel.specs.Same.{same_by, same_by_per};
    ghost use Rattle.si_parcel.specs.contracts.job.Job.{the_row};

    ghost eq = { same_by the_row.coded };

    ghost laws = { same_by_per the_row.coded };

    /// Whether the two are the same.
    fn eq(&self, other: &Job) -> bool
        ensures eq { result ≡ same_by the_row.coded self.now other.now }
        ensures same { IsTrue result ↔ (self.now ≡ other.now) }
    {
        self.same(other)
    }
}

impl Eq for Job {
    ghost use Rattle.si_parcel.specs.Same.{same_by_equiv};
    ghost use Rattle.si_parcel.specs.contracts.job.Job.{the_row};

    ghost laws = { same_by_equiv the_row.coded };
}
