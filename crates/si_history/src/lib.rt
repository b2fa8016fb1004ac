// The text of a history: what interpreters asked of what they share, and what they were answered, one line for each call.
//
// `history` is given the journal of a hub. Its contract says the very text, by specs/History.antt: the number of the call
// from 1, who asked, the action, ` = ` and the answer. Nothing of a journal is left out but the texts of runs, and the
// parcels of names to bind. The format is this project's own.
//
// In reading order: `pieces` (a word, a number, a name, a parcel), `outcome` (how a run ended), `names` (those to bind),
// `ids` (interpreters), `action`, `answer`, `lines` (the calls), `cases` (some that a reader can follow by hand).
#![tactic(auto)]

mod action;
mod answer;
mod cases;
mod ids;
mod lines;
mod names;
mod outcome;
mod pieces;

pub use cases::worked_history;
pub use lines::history;
