// Which names are local to the functions of a script, and where its statements stand.
//
// The one contract: `resolve` answers a script, `Scoped`, only where the tree is well scoped by the definitions of
// `si_semantics` (specs/Scope.antt), and refuses a tree only where it isn't (or where memory is refused). A `Scoped` has
// the tree as it was, and the names that are local to each of its functions.
//
// In reading order: `fault` says why a script is refused, `scoped` has scripts whose names are resolved, `seen` the names
// of a function as far as its suite was gone over, `expression` the names that an expression uses, `suite` goes over a
// function's suite, and `text` over a whole script. specs/Locals.antt says what a resolved script keeps; specs/inner/Walk.antt
// has the steps of the walk, for the proofs alone.
#![tactic(auto)]

mod expression;
mod fault;
mod scoped;
mod seen;
mod suite;
mod text;

pub use fault::ScopeFault;
pub use scoped::Scoped;
pub use text::resolve;
