// The interpreters that were created, with their inboxes, and the outcomes of the runs.
//
// Contracts see each interpreter as what it does and the jobs that it has not taken, and all of them, and the runs, as
// lists by their numbers (si_semantics/specs/Shared.antt). Where memory is refused, nothing has changed.
//
// In reading order: `interpreter` (one of them), `run` (one run), `registry` (all of them).
#![tactic(auto)]

mod interpreter;
mod registry;
mod run;

pub use interpreter::{Interpreter, Standing};
pub use registry::Registry;
pub use run::Run;
