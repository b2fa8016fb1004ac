// All interpreters of a script, moved by turns on one thread.
//
// A turn of an interpreter is one line of its machine, one shared action, or nothing; its mark says which. After any turns
// the calls of the journal are a legal history of the script's meaning, and each interpreter shows its meaning under the
// answers that the journal gave it and no others: `World::facts` says so of every world, `World::turn` and `World::run` say
// which turns led there, and `World::serial` gives turns in rounds until nothing can move.
//
// In reading order: `mark` (what a turn did), `moving` (a turn of one interpreter), `world` (all of them, and a turn),
// `listed` (turns of a list), `rounds` (turns in rounds), `ending` (how it ended), `report` and `recording` (what is seen, by
// copy or taken over).
#![tactic(auto)]

mod ending;
mod listed;
mod mark;
mod moving;
mod recording;
mod report;
mod rounds;
mod world;

pub use ending::End;
pub use mark::Mark;
pub use moving::stretch;
pub use recording::{QueueItems, Recording};
pub use report::{Report, Standing};
pub use world::World;
