// The arena of one interpreter: what its scripts' values are, and what they point at.
//
// A value is a `Ref`, which is copied. None, truths, integers, kinds, built-ins, functions, short texts and a few bytes
// are in the `Ref` itself, and so are modules, queues and interpreters, by their numbers; a longer text, and more bytes, are
// a slice of a row of characters, a range lies at a place, and so does a tuple, whose items are a slice of a row of values:
// all stay as they are for good. Lists, dicts, exceptions and threads are objects, each at an address; a list and a dict
// change in their place. `specs/Memory.antt` says what an arena stands for and what a `Ref` that lies in it denotes; each
// call says what is denoted after it: what lay in the arena lies in it and denotes the same after anything is placed, made or
// changed, but the object that was changed (`proofs/Lying.antt` and `proofs/Changed.antt` have these laws for the crates
// above), and a call that is refused changes nothing.
//
// A dict finds a key by its `Atom`, which takes no memory: an integer, a text of few characters, or the number of a word. A
// longer text that is a key of a dict is a word, by where it lies in the rows, and is found there by its characters.
//
// In reading order: `short` (a text in a `Ref`), `value` (`Ref`), `refusal` and `cause` (why an exception was raised, and what
// it says), `object` (ranges, exceptions and threads), `characters` and `texts` (the two rows of characters), `bytes` (which
// lie as texts do), `tuples`, `cells` (the items of a list), `atom`, `hasher`, `words`, `keys` and `dict`, `contents` and `held` (what an
// object holds, and what lies at its address), `view` (what a `Ref` shows), `arena`, `lists` and `dicts`.
#![tactic(auto)]

mod arena;
mod atom;
mod bytes;
mod cause;
mod cells;
mod characters;
mod contents;
mod dict;
mod dicts;
mod hasher;
mod held;
mod keys;
mod lists;
mod object;
mod refusal;
mod short;
mod texts;
mod tuples;
mod value;
mod view;
mod words;

pub use arena::Arena;
pub use cause::{Cause, Fault};
pub use characters::Characters;
pub use contents::Contents;
pub use dict::{Dict, Pair};
pub use object::{Object, Steps};
pub use refusal::Refusal;
pub use short::Short;
pub use tuples::Size;
pub use value::{AtWord, BuiltIn, Ref};
pub use view::View;
