// From scripts to instructions of the machine of slots.
//
// `compile` adds the code of a script to a `si_slots::CodeTable`: the table then stands for what it stood for, with the
// code and the functions that si_slots/specs/Code.antt gives the script's tree; or memory was refused, and the table is as
// it was. Within the crate a refused call may leave the table with more than it had: `compile` returns to a mark.
//
// In reading order: `folding`, constants that are computed; `operand`, where the operand of an instruction lies; `expression`, the code of each expression and
// of a test; `condition`, the tests of statements, with `and` and `or`; `naming`, how names are bound; `targets`, how
// targets are bound to what lies in temporaries; `evaluating`, `assigning`, `updating` and `simple`, statements without suites;
// `suite`, statements one after another; `silence`, which of them have no code; `choosing`, the code of `if`; `repeats` and
// `handlers`, that of loops and of `try`, with `loops` and `trying`, their parts around their suites; `script`, the code
// of a whole script, functions first. specs/inner is for the proofs alone.
#![tactic(auto)]

mod assigning;
mod choosing;
mod condition;
mod evaluating;
mod expression;
mod folding;
mod handlers;
mod loops;
mod naming;
mod operand;
mod repeats;
mod script;
mod silence;
mod simple;
mod suite;
mod targets;
mod trying;
mod updating;

pub use script::compile;
