// From a script's text to its tree, by the grammar of `si_semantics`.
//
// The one contract: `parse` gives the tree that the tokens of the text derive, and refuses a text only where there
// is none (or where memory is refused).
//
// In reading order: `fault` says why a text is refused, `fitted` cuts what stays in a tree to its length, `literal` has the
// values of literals, `lookahead` the token at a place, `name` names in a row, `precedence` what continues an expression
// and how tightly, `argument` what a call is passed, `expression` reads an expression by precedence climbing,
// `expressions` a tuple without brackets, `target` a target, `statement` small statements and lines, `block` compound
// statements and their suites, `handler` those of `try`, and `parser` a whole text.
#![tactic(auto)]

mod argument;
mod block;
mod expression;
mod expressions;
mod fault;
mod fitted;
mod handler;
mod literal;
mod lookahead;
mod name;
mod octets;
mod parser;
mod precedence;
mod statement;
mod target;

pub use fault::ParseFault;
pub use parser::parse;
