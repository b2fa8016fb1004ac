// One interpreter's whole life.
//
// An interpreter runs lines of its machine until it comes to stand at a shared action, which it hands out: its script asks
// something of others, it waits for a job, or tells how its run ended; with the answer it goes on. The one contract: whatever
// answers it is given, it shows its meaning (`Interp::facts`; specs/Meaning.antt). What it has printed and how it stands is the
// life of those answers (specs/Life.antt) at the number of lines that it has run, on time; each action of its log is what that
// life asks, at the lines where its course stands there (specs/Course.antt). Where memory is refused it stands still for good,
// and shows what it has shown.
//
// In reading order: `interp` (the interpreter; its views are in specs/View.antt), `arriving` (how it comes to stand at an
// action), `taking` (what an answer makes of it), `origins` (where the exceptions came from that left its runs: hints, which no
// contract sees). specs/inner and specs/InterpCode.antt are for the proofs alone.
#![tactic(auto)]

mod arriving;
mod interp;
mod origins;
mod taking;

pub use interp::{Interp, Logged, State, Step};
pub use origins::RunOrigin;
pub use si_slots::Spot;
pub use si_steps::{NotShown, Origin};
