// What lies at the address of an object.

ghost use Rattle.std.specs.Prelude.{◌≡◌, ◌<◌, ℕ, List, length, slice_get, Some, OnOk, OnErr, option_map};
ghost use Rattle.si_arena.specs.Memory.{Memory, object_of, ObjectLies, held_of, HeldLies, contents_of, ContentsLie};
ghost use Rattle.si_arena.specs.inner.Changes.{items_in, entries_in, appended, extended, with_item, without_item, with_entry, without_entry};
ghost use Rattle.si_arena.specs.inner.Keys.{found_pair, HeldMeans};

use crate::atom::Atom;
use crate::cause::Cause;
use crate::cells::Cells;
use crate::contents::Contents;
use crate::dict::{Dict, Pair};
use crate::object::Object;
use crate::value::Ref;
use si_plain::{Kind, NoMemory};

/// What lies at the address of an object: what `Object` has, a list or a dict.
#[derive(Drop)]
pub enum Held {
    Bare(Kind),
    Made(Kind, Ref),
    Caused(Cause),
    Thread { interpreter: u32, text: Ref },
    Started(u64),
    List(Cells),
    Dict(Dict),
}

impl Held {
    /// An exception or a thread.
    pub fn plain(object: Object) -> Held
        ensures is { (m : Memory) → held_of m result ≡ object_of m object }
        ensures lies { (m : Memory) → ObjectLies m object → HeldLies m result }
        ensures means { (m : Memory) (us : List (List ℕ)) → HeldMeans m us result }
    {
        match object {
            Object::Bare(kind) => Held::Bare(kind),
            Object::Made(kind, argument) => Held::Made(kind, argument),
            Object::Caused(cause) => Held::Caused(cause),
            Object::Thread { interpreter, text } => Held::Thread { interpreter, text },
            Object::Started(run) => Held::Started(run),
        }
    }

    /// What it holds.
    pub fn contents(&self) -> Contents<'_>
        ensures is { (m : Memory) → contents_of m result ≡ held_of m self.now }
        ensures lies { (m : Memory) → HeldLies m self.now → ContentsLie m result }
    {
        match self {
            Held::Bare(kind) => Contents::Plain(Object::Bare(*kind)),
            Held::Made(kind, argument) => Contents::Plain(Object::Made(*kind, *argument)),
            Held::Caused(cause) => Contents::Plain(Object::Caused(*cause)),
            Held::Thread { interpreter, text } => Contents::Plain(Object::Thread {
                interpreter: *interpreter,
                text: *text,
            }),
            Held::Started(run) => Contents::Plain(Object::Started(*run)),
            Held::List(items) => Contents::List(items.as_slice()),
            Held::Dict(dict) => Contents::Dict(dict),
        }
    }

    /// A list with one item more; unchanged where memory is refused.
    #[inline(always)]
    pub fn append(&mut self, item: Ref) -> Result<(), NoMemory>
        ensures ok { OnOk result (self.new ≡ appended item self.old) }
        ensures err { OnErr result (self.new ≡ self.old) }
    {
        match self {
            Held::List(items) => items.push(item),
            _ => Ok(()),
        }
    }

    /// A list with more items; unchanged where memory is refused.
    pub fn extend(&mut self, more: &[Ref]) -> Result<(), NoMemory>
        ensures ok { OnOk result (self.new ≡ extended more.now self.old) }
        ensures err { OnErr result (self.new ≡ self.old) }
    {
        match self {
            Held::List(items) => items.extend(more),
            _ => Ok(()),
        }
    }

    /// A list with another item in the place of one.
    pub fn set_item(&mut self, at: usize, item: Ref)
        requires { at < length (items_in self.old) }
        ensures { self.new ≡ with_item at item self.old }
    {
        if let Held::List(items) = self {
            items.set(at, item);
        }
    }

    /// A list without one of its items, which is given.
    pub fn remove_item(&mut self, at: usize) -> Ref
        requires { at < length (items_in self.old) }
        ensures item { slice_get (items_in self.old) at ≡ Some result }
        ensures rest { self.new ≡ without_item at self.old }
    {
        match self {
            Held::List(items) => items.remove(at),
            _ => unreachable!(),
        }
    }

    /// The pair of a key of a dict, where it is there.
    #[inline(always)]
    pub fn get(&self, key: &Atom) -> Option<&Pair>
        ensures { option_map (λ p. p.now) result ≡ found_pair key.now (entries_in self.now) }
    {
        match self {
            Held::Dict(dict) => dict.get(key),
            _ => None,
        }
    }

    /// A dict in which a key has a value; unchanged where memory is refused.
    pub fn set_pair(&mut self, key: Atom, pair: Pair) -> Result<(), NoMemory>
        ensures ok { OnOk result (self.new ≡ with_entry key pair self.old) }
        ensures err { OnErr result (self.new ≡ self.old) }
    {
        match self {
            Held::Dict(dict) => dict.set(key, pair),
            _ => Ok(()),
        }
    }

    /// A dict without a key, whose pair is given, where it is there.
    pub fn remove_pair(&mut self, key: &Atom) -> Option<Pair>
        ensures pair { result ≡ found_pair key.now (entries_in self.old) }
        ensures rest { self.new ≡ without_entry key.now self.old }
    {
        match self {
            Held::Dict(dict) => dict.remove(key),
            _ => None,
        }
    }
}

// What lies at addresses lies in a row, and so it is small.
const _: () = prove!(size_of::<Held>() <= 24);
