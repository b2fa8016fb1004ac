// Hints for people: why a script is refused, and in which line a statement stands.
//
// `hint` is called only where a script is refused: it tells the place, and the reason in the words of docs/LANGUAGE.md. It
// goes over the words of what was read without a fault, then over the tokens from there on, or over those of all the text,
// and stops at the first place that breaks a rule. `Statements` has the lines of a text's
// statements, by the numbers that these have in the order in which code is made of them; it is made only where an exception
// has left a run. What both tell is a hint: no contract depends on it, and theirs is that they are safe and that they return.
//
// In reading order: `shortened` (words that are repeated), `reason` (what is told), `form` (forms of Python that are left
// out, and slips), `fault` (a place and a reason), `words` and `literal` (words that are none), `layout` (indentation),
// `shape` (what may stand before `=`), `level` (an expression as far as it was read), `block` (compound statements and what
// may stand in them), `state` (what is expected next), `walk` (going over the tokens), with `statement` (how statements
// begin), `header` (clauses and their suites), `naming` (parameters, `global`, imports), `operand` and `after`
// (expressions), `joint` (commas, colons and assignments), `bracket` (brackets and ends), `front` (what need not be gone over
// again), and `telling`, which puts all of it together; and `placing` (the lines of statements).
#![tactic(auto)]

mod after;
mod block;
mod bracket;
mod fault;
mod form;
mod front;
mod header;
mod joint;
mod layout;
mod level;
mod literal;
mod naming;
mod operand;
mod placing;
mod reason;
mod shape;
mod shortened;
mod state;
mod statement;
mod telling;
mod walk;
mod words;

pub use form::{Form, Slip};
pub use placing::{StatementLine, Statements, statement_line};
pub use reason::{Found, Hint, Reason, Rule};
pub use shape::Shape;
pub use shortened::Shortened;
pub use telling::{hint, text_hint};
