// The tuples of an arena, each at a place.

ghost use Rattle.std.specs.Prelude.{◌≡◌, ◌^◌, ◌+◌, ◌<◌, ◌≤◌, [], length, IfOk, OnErr};
ghost use Rattle.si_arena.specs.Tuples.{IsPushed, items_at, tuple_in};

use crate::value::Ref;
use si_plain::NoMemory;
use std::alloc::Global;
use std::marker::Model;

/// How large a value is: how many values, an atom being 1 and a tuple 1 and its items, and how many levels of tuples.
#[derive(Clone, Copy, Debug, PartialEq, Eq)]
pub struct Size {
    pub values: u32,
    pub levels: u32,
}

/// A tuple: so many items from one on of the row of items, and how large it is.
#[derive(Clone, Copy, Debug)]
pub(crate) struct Tuple {
    start: usize,
    length: u32,
    size: Size,
}

/// The items of all tuples in one row, which only grows, and the tuples.
#[derive(Drop)]
pub struct Tuples {
    items: Vec<Ref>,
    tuples: Vec<Tuple>,
}

impl Model for Tuples {
    ghost use Rattle.si_arena.specs.Tuples.{Row};

    ghost Value = { Row };

    ghost view = { λ t. record { items = t.items.items; tuples = t.tuples.items } };
}

impl Tuples {
    /// No tuples.
    pub fn new(alloc: Global) -> Tuples
        ensures { result ≡ record { items = []; tuples = [] } }
    {
        Tuples {
            items: Vec::new(alloc),
            tuples: Vec::new(alloc),
        }
    }

    /// A tuple of these items, which is so large, and its place; unchanged where memory is refused.
    pub fn push(&mut self, items: &[Ref], size: Size) -> Result<usize, NoMemory>
        requires { length items.now < 2 ^ 32 }
        ensures ok { IfOk result (λ place. IsPushed items.now size self.old self.new place) }
        ensures err { OnErr result (self.new ≡ self.old) }
    {
        let start = self.items.len();
        let place = self.tuples.len();
        let length = items.len() as u32;
        self.items.extend_from_slice(items)?;
        match self.tuples.push(Tuple {
            start,
            length,
            size,
        }) {
            Ok(()) => Ok(place),
            Err(refused) => {
                self.items.truncate(start);
                Err(refused.into())
            }
        }
    }

    /// The items of the tuple at a place.
    pub fn items(&self, place: usize) -> &[Ref]
        requires place { place < length self.now.tuples }
        requires within { (tuple_in self.now place).start + (tuple_in self.now place).length ≤ length self.now.items }
        ensures { result.now ≡ items_at self.now.items (tuple_in self.now place) }
    {
        let tuple = self.tuples[place];
        &self.items[tuple.start..tuple.start + tuple.length as usize]
    }

    /// How large the tuple at a place is.
    pub fn size(&self, place: usize) -> Size
        requires { place < length self.now.tuples }
        ensures { result ≡ (tuple_in self.now place).size }
    {
        self.tuples[place].size
    }
}
