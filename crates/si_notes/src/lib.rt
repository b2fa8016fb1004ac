// What is told on standard error once a report went out: lines for people, each of which begins `subpy: `.
//
// Of each run that an exception left they say in which line of its text that was raised, and from which lines the
// functions were called that it left; of a run whose text isn't read, where and why; and of a run that didn't come to its
// end, which interpreters are kept, by what, and what helps. Where memory is refused while they are made, those that are
// made by then are told. They are hints: contracts see nothing of them, and theirs is that they are safe and that they
// return.
//
// In reading order: `notes` (the lines), `seen` (what they are made of), `texts` (the texts of runs, and their lines),
// `raised` (runs that exceptions left), `ends` (what keeps the others), `telling` (all of it in a row).
#![tactic(auto)]

mod ends;
mod notes;
mod raised;
mod seen;
mod telling;
mod texts;

pub use notes::Notes;
