// A machine with a frame of slots, and the code of trees for it: definitions, laws of them, and the table of such code.
//
// In reading order: specs/Machine.antt (the machine: one line an instruction, whose operands lie in slots),
// specs/Code.antt (the code of a tree) with specs/CodeCases.antt (worked cases), specs/Running.antt (the run of one
// text), specs/Correct.antt (what such code does, against what a tree means), specs/Shows.antt and
// specs/Interpreter.antt (what an interpreter shows of its life at any moment), specs/Laws.antt (laws of courses);
// `laws`, which state them. Then the code as it lies in memory: `instr`, the instructions, in 8 bytes each; `operand`
// and `full`, instructions in full; `routine`, what is known of a function's code; `table`, their lines, literals and
// slots; `aim`, its jumps; `bind`, globals bound to functions; `method`, calls of methods; `fetch`, how its code is
// read; `spots`, of which statement it is. specs/Contents.antt and specs/Views.antt say what a table has and what it
// stands for; specs/inner/Jumps.antt is for the proofs alone.
#![tactic(auto)]

mod aim;
mod bind;
mod fetch;
mod frame;
mod full;
mod instr;
mod keywords;
pub mod laws;
mod literal;
mod method;
mod named;
mod operand;
mod pack;
mod routine;
mod spots;
mod table;
mod unpack;

pub use full::FullInstr;
pub use instr::Instr;
pub use keywords::Keywords;
pub use literal::Literal;
pub use named::NamedInstr;
pub use operand::{Aim, Constant, Operand, Source, Target};
pub use routine::Routine;
pub use spots::Spot;
pub use table::{CodeTable, Mark};
pub use unpack::{apart_at, is_constant, is_literal, jump_at, source_at, target_at, widened};
