// A run made again from its schedule: from the order in which its shared actions were taken.
//
// `replay` gives a script its turns so that just the shared actions of a schedule are taken, in their order, and records
// what is left. The lines between two actions of an interpreter follow from the answers that it had, so the schedule is
// all that has to be known of a run: whatever turns complete the schedule, the recording is theirs, and where there are
// such turns, only memory can be wanting. `schedule_of` makes the schedule of a world, and by `replays_again` its replay
// leaves what the world has. Definitions: specs/Replays.antt, specs/Order.antt.
//
// In reading order: `fault` (why a schedule is not replayed), `replaying` (the replay), `scheduling` (the schedule of a
// world).
#![tactic(auto)]

mod fault;
mod replaying;
mod scheduling;

pub use fault::ReplayFault;
pub use replaying::replay;
pub use scheduling::{replays_again, schedule_of, schedule_of_recording};
