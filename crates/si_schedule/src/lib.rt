// The text of a schedule: how many interpreters a run may create, and whose shared actions were taken, in order.
//
// A schedule has exactly one text, and a text at most one schedule. `write` makes the text of a schedule, and `read` gives
// the schedule of a text, so that what was written is read again. All other texts are refused with the number of their
// first bad line, the first with which no schedule's text begins. Definitions: specs/Schedules.antt, specs/BadLines.antt;
// worked cases: specs/Worked.antt.
//
// In reading order: `schedule` (a schedule), `writing` (its text), `fault` (why nothing is read), `line` (lines and
// numbers), `reading` (the schedule of a text), `laws`.
#![tactic(auto)]

mod fault;
pub mod laws;
mod line;
mod reading;
mod schedule;
mod writing;

pub use fault::ReadFault;
pub use reading::read;
pub use schedule::Schedule;
pub use writing::write;
