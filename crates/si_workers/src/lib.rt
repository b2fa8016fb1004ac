// A run by worker threads: each interpreter runs in a thread of its own.
//
// What interpreters share stands in a book under one lock: the hub, and what the worker of each interpreter does. A worker
// runs the lines of its own interpreter without the lock; a shared action it puts to the book, where it is done at once, or
// waits there until another's action has enabled it. So the order of the lock is the order of the journal. When all is over
// `gather` tests what the workers have left, and puts it together, with the journal and the logs taken over: what is recorded is of
// a world of the script, whose calls are a legal history, and in which each interpreter shows its meaning under the answers of the
// journal and can't be moved; and turns on one thread leave the same. Definitions: specs/Books.antt, specs/Gathers.antt.
//
// In reading order: `acted` (what became of an action), `page` (what one worker does), `book` (the hub with all pages),
// `sleepers` (which workers sleep), `worked` (what is left of an interpreter), `fault`, `agreeing` (a log beside the journal),
// `gathering`, `running` (the threads).
#![tactic(auto)]

mod acted;
mod agreeing;
mod book;
mod fault;
mod gathering;
mod page;
mod running;
mod sleepers;
mod worked;

pub use acted::Acted;
pub use book::Book;
pub use fault::RunFault;
pub use gathering::gather;
pub use running::{Gate, run};
pub use worked::Worked;
