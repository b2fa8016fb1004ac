// The tree as which a text is read, if it is read and well scoped.
//
// The one contract: `read` answers the script whose tree is `tree_in` of the text's bytes, and refuses a text for its
// syntax only where `tree_in` has none (or memory is refused). `tree_in` is a function, so that a definition can say of
// any text what is run where it is given; the laws say which tree it has: the one as which the text is read and which is
// well scoped (specs/Taken.antt), and none where there is no such tree.
//
// In reading order: specs/Taken.antt (what it is for a text to be taken), specs/Texts.antt (the tree of a text of
// characters) with specs/Worked.antt (worked cases), specs/Laws.antt (what holds of it); `laws`, which state them; `script`,
// which reads. specs/inner/Trees.antt, where `tree_in` is put together of the parts of reading, is for the proofs alone.
#![tactic(auto)]

pub mod laws;
mod reading;
mod script;

pub use reading::Reading;
pub use script::read;
