// A dict's key, as it is looked up.

use crate::short::Short;
use std::hash::{Hash, Hasher};

/// A key of a dict, in the one form that all its values have: an integer, a text of few characters, or one of the arena's
/// words, by its number.
#[derive(Clone, Copy, Debug, PartialEq, Eq)]
pub enum Atom {
    Int(i64),
    Short(Short),
    Word(usize),
}

impl Hash for Atom {
    ghost use Rattle.si_arena.specs.inner.Hashing.{atom_writes, writes_same};

    ghost hash_input = { atom_writes };

    ghost respects_eq = { writes_same };

    #[inline(always)]
    fn hash<H: Hasher>(&self, state: &mut H) {
        match self {
            Atom::Int(n) => state.write_i64(*n),
            Atom::Short(text) => text.hash(state),
            Atom::Word(at) => state.write_usize(*at),
        }
    }
}

// Keys lie in a row, and so they are small.
const _: () = prove!(size_of::<Atom>() <= 16);
