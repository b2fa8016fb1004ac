// The steps of the machine with a frame of slots: what each instruction makes of a state.
//
// A state has its values in an arena (`si_arena`), its slots and temporaries in frames and what was entered in blocks
// (`si_stacks`), and its code in a table (`si_slots`). `specs/Moments.antt` says what it is for a state to stand at a
// moment of the machine's definition (`si_slots/specs/Machine.antt`): its temporaries, its slots, its blocks and its
// world. The method of an instruction takes a state that stands at a moment and does exactly the instruction's line.
// The step takes the instruction at a state's place, and a `Machine` goes so along a course of that definition
// (`specs/Machines.antt`).
//
// In reading order: `step` (what a step did), `constants` (None and truths as operands), `state` (what a machine has), `landing` (where a value goes), `raising`
// (how exceptions are raised), `reading` (how operands are read), `flow` (the instructions of branches, chains and
// loops), `tries` (those of `try` and of unbinding), `values` (those of operands and operations), `subscripts`,
// `items` (what sets and deletes items), `displays`, `unpacking`, `names` (those of globals), `calls` (calls of functions and of other values), `attributes`, `methods` (calls of
// methods), `appending` (items at the end of lists, by one instruction), `requests` (what is asked, and its answers), `leaving` (`break`,
// `continue`, `return` and the end of a finally suite), `short`, `short_values`, `short_items`, `short_blocks` and `short_methods`
// (instructions as they stand in 8 bytes), `execute` (one instruction), `begin` (how a run begins), `bind` (globals bound between runs),
// `origin` (where an exception that left a run came from), `showing` (what hosts are shown of globals), `machine`.
#![tactic(auto)]

mod appending;
mod attributes;
mod begin;
mod bind;
mod calls;
mod constants;
mod displays;
mod execute;
mod flow;
mod items;
mod landing;
mod leaving;
mod machine;
mod methods;
mod missing;
mod names;
mod origin;
mod raising;
mod reading;
mod requests;
mod short;
mod short_blocks;
mod short_items;
mod short_methods;
mod short_values;
mod showing;
mod state;
mod step;
mod subscripts;
mod tries;
mod unpacking;
mod values;

pub use machine::Machine;
pub use origin::Origin;
pub use showing::NotShown;
pub use step::{Outcome, Step};
