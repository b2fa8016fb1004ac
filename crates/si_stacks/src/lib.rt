// The stacks of a machine with a frame of slots: the frames of the calls that are under way, in one row of values, and
// the blocks that were entered.
//
// A frame is the slots of its locals and after them the room for its temporaries. A callee's slots begin where its
// arguments lie among the temporaries of its caller, so no argument is copied. `specs/Frames.antt` and
// `specs/Blocks.antt` say what is seen of the two stacks, and `specs/Places.antt` which temporaries, slots and blocks
// of a machine's place stand in both: the laws of `proofs/` say it after each call.
//
// In reading order: `stack` (`Stack`, of which both are made), `frames` (`Frames`), `trace` (`Trace`: where an exception came from, of which no contract speaks) and
// `blocks` (`Block`, `Leaving`, `Blocks`).
#![tactic(auto)]

mod blocks;
mod frames;
mod stack;
mod trace;

pub use blocks::{Block, Blocks, Leaving};
pub use frames::{Frames, Shape};
pub use trace::{MAX_TRACED, Trace};
