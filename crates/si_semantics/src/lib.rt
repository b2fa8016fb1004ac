// What scripts mean. Definitions alone, in `specs/`: who believes them has to believe nothing else of the language.
//
// In reading order: `Value`, `Text` and `Numerals` (values, how they are written, and which integers texts write),
// `Tree` (what a text is read as), `World` and `Operations` (what a script changes, and what an operation does to it),
// `Scope` (which names are local, and where `break`, `continue`, `return`, `global` and `def` stand), `Meaning` (the
// evaluation of a tree, and what a call means), `Life` (an interpreter's life, one function of the answers that it is
// given, and what it prints), `Report` (what the program prints, and its status), `Laws` (what is proved of lives). How
// a text is read: `Tokens`, `Literals`, `Words`, `Layout`, `Grammar`, `Limits`. What interpreters share: `Parcels`,
// `Shareable` (which values are sent, and as which parcels), `Actions`, `Shared`, `History`, `SharedLaws` (what is
// proved of every journal). Worked cases of each stand in `Worked`, by subject (`Scripts` has short forms for them).
//
// The one contract is that they hold together: the cases compute, and a life only ever grows (`laws`); queues keep their
// order, numbers are given once, and each action has one answer (`sharing`).
#![tactic(auto)]

pub mod laws;
pub mod sharing;
