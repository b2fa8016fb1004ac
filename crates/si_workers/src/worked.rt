// What a worker leaves of its interpreter.

ghost use Rattle.std.specs.Prelude.{◌≡◌, false, IfOk};
ghost use Rattle.si_interp.specs.Meaning.{Shows};
ghost use Rattle.si_interp.specs.View.{taken_view};

use si_interp::{Interp, Logged};
use si_plain::NoMemory;
use si_world::Report;
use std::alloc::Global;
use std::marker::Model;

/// What a worker leaves of its interpreter: it shows its meaning. A contract sees its report.
#[derive(Drop)]
pub struct Worked {
    interp: Interp,
}

impl Model for Worked {
    ghost use Rattle.std.specs.Prelude.{false};
    ghost use Rattle.si_interp.specs.Meaning.{InterpView, Shows};
    ghost use Rattle.si_interp.specs.InterpCode.{view_code};
    ghost use Rattle.si_interp.specs.View.{taken_view};

    ghost Value = { InterpView };

    ghost coded = { view_code };

    ghost view = { λ w. taken_view w.interp false };

    ghost invariant = { λ w. Shows (taken_view w.interp false) };
}

impl Worked {
    /// What is left of an interpreter. Whether its action was handed out doesn't count.
    pub fn of(interp: Interp) -> Worked
        ensures { result ≡ taken_view interp false }
    {
        interp.facts();
        Worked { interp }
    }

    /// It shows its meaning; whether its action was handed out isn't seen. Costs nothing.
    pub fn facts(&self)
        ensures shows { Shows self.now }
        ensures free { self.now.taken ≡ false }
    {
        let _ = &self.interp;
    }

    /// The interpreter's number.
    pub fn id(&self) -> u32
        ensures { result ≡ self.now.id }
    {
        self.interp.id()
    }

    // Its actions that were answered, in order.
    pub(crate) fn log(&self) -> &[Logged]
        ensures { result.now ≡ self.now.log }
    {
        self.interp.log()
    }

    // How many lines it has run.
    pub(crate) fn locals(&self) -> u64
        ensures { result ≡ self.now.locals }
    {
        self.interp.locals()
    }

    // Its report: its log is taken over, not copied.
    pub(crate) fn into_report(self, alloc: Global) -> Result<Report, NoMemory>
        ensures { IfOk result (λ r. r ≡ self) }
    {
        Report::taking(alloc, self.interp)
    }
}
