// Dicts: keys with their values, in order.

ghost use Rattle.std.specs.Prelude.{◌≡◌, ◌<◌, [], length, slice_get, Some, IfOk, OnOk, OnErr, option_map};
ghost use Rattle.si_arena.specs.declared.atom.Atom.{Atom};
ghost use Rattle.si_arena.specs.declared.dict.Pair.{Pair};
ghost use Rattle.si_arena.specs.Memory.{Memory, pair_of, pairs_of, PairLies, PairsLie};
ghost use Rattle.si_arena.specs.inner.Keys.{found_pair, inserted, removed};

use crate::atom::Atom;
use crate::hasher::KeyHasher;
use crate::value::Ref;
use indexmap::IndexMap;
use si_plain::NoMemory;
use std::alloc::Global;
use std::hash::BuildHasherDefault;
use std::marker::Model;

/// A key of a dict, which is an integer or a str, and its value.
#[derive(Clone, Copy, Debug)]
pub struct Pair {
    pub key: Ref,
    pub value: Ref,
}

/// A dict (Python Language Reference 3.14, 3.2.7.1): its pairs, in the order in which their keys were added.
#[derive(Drop)]
pub struct Dict {
    entries: Box<IndexMap<Atom, Pair, BuildHasherDefault<KeyHasher>>>,
}

impl Model for Dict {
    ghost use Rattle.std.specs.Prelude.{List};
    ghost use Rattle.si_arena.specs.declared.atom.Atom.{Atom};
    ghost use Rattle.si_arena.specs.declared.dict.Pair.{Pair};

    ghost Value = { List (Atom × Pair) };

    ghost view = { λ d. d.entries.value.entries };
}

impl Dict {
    /// The empty dict. `AllocError` where memory is refused.
    pub(crate) fn new(alloc: Global) -> Result<Dict, NoMemory>
        ensures { IfOk result (λ d. d ≡ []) }
    {
        let entries = Box::new(
            alloc,
            IndexMap::with_hasher(alloc, BuildHasherDefault::new()),
        )?;
        Ok(Dict { entries })
    }

    /// How many pairs it has.
    pub fn len(&self) -> usize
        ensures { result ≡ length self.now }
    {
        self.entries.len()
    }

    /// The pair at a position.
    pub fn pair(&self, at: usize) -> Pair
        requires { at < length self.now }
        ensures pair { (m : Memory) → slice_get (pairs_of m self.now) at ≡ Some (pair_of m result) }
        ensures lies { (m : Memory) → PairsLie m self.now → PairLies m result }
    {
        match self.entries.get_index(at) {
            Some((_, pair)) => *pair,
            None => unreachable!(),
        }
    }

    /// The pair of a key, where it is there.
    #[inline(always)]
    pub(crate) fn get(&self, key: &Atom) -> Option<&Pair>
        ensures { option_map (λ p. p.now) result ≡ found_pair key.now self.now }
    {
        self.entries.get(key)
    }

    /// A key has a value: one that is there keeps its place, a new one is the last. Unchanged where memory is refused.
    pub(crate) fn set(&mut self, key: Atom, pair: Pair) -> Result<(), NoMemory>
        ensures ok { OnOk result (self.new ≡ inserted key pair self.old) }
        ensures err { OnErr result (self.new ≡ self.old) }
    {
        self.entries.insert(key, pair)?;
        Ok(())
    }

    /// A key is taken away, where it is there, and its pair is given; the others keep their order.
    pub(crate) fn remove(&mut self, key: &Atom) -> Option<Pair>
        ensures pair { result ≡ found_pair key.now self.old }
        ensures rest { self.new ≡ removed key.now self.old }
    {
        self.entries.shift_remove(key)
    }
}

// An entry, with its hash and its place in the table of the map, has at most 64 bytes.
const _: () = prove!(size_of::<Atom>() + size_of::<Pair>() <= 48);
