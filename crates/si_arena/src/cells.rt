// The items of a list.

ghost use Rattle.std.specs.Prelude.{◌≡◌, ◌<◌, ◌+◌, ◌++◌, ◌∷◌, [], length, slice_get, slice_set, Some, IfOk, OnOk, OnErr, vec_capacity, vec_len};
ghost use Rattle.si_arena.specs.inner.Changes.{without};

use crate::value::Ref;
use si_plain::NoMemory;
use std::alloc::Global;
use std::marker::Model;

/// Values in a row, which grows in its place.
#[derive(Drop)]
pub struct Cells {
    items: Box<Vec<Ref>>,
}

impl Model for Cells {
    ghost use Rattle.std.specs.Prelude.{List};
    ghost use Rattle.si_arena.specs.declared.value.Ref.{Ref};

    ghost Value = { List Ref };

    ghost view = { λ c. c.items.value.items };
}

impl Cells {
    /// These items. `AllocError` where memory is refused.
    pub fn new(alloc: Global, items: Vec<Ref>) -> Result<Cells, NoMemory>
        ensures { IfOk result (λ c. c ≡ items.items) }
    {
        let items = Box::new(alloc, items)?;
        Ok(Cells { items })
    }

    /// All of them.
    #[inline(always)]
    pub fn as_slice(&self) -> &[Ref]
        ensures { result.now ≡ self.now }
    {
        self.items.as_slice()
    }

    /// One more at the end; unchanged where memory is refused. Mostly there is room for it.
    #[inline(always)]
    pub fn push(&mut self, item: Ref) -> Result<(), NoMemory>
        ensures ok { OnOk result (self.new ≡ self.old ++ item ∷ []) }
        ensures err { OnErr result (self.new ≡ self.old) }
    {
        if self.items.len() == self.items.capacity() {
            make_room(&mut self.items)?;
        }
        self.items.push_reserved(item);
        Ok(())
    }

    /// More at the end; unchanged where memory is refused.
    pub fn extend(&mut self, items: &[Ref]) -> Result<(), NoMemory>
        ensures ok { OnOk result (self.new ≡ self.old ++ items.now) }
        ensures err { OnErr result (self.new ≡ self.old) }
    {
        self.items.extend_from_slice(items)?;
        Ok(())
    }

    /// Another in the place of one.
    pub fn set(&mut self, at: usize, item: Ref)
        requires { at < length self.old }
        ensures { self.new ≡ slice_set self.old at item }
    {
        self.items[at] = item;
    }

    /// One is taken away, and given.
    pub fn remove(&mut self, at: usize) -> Ref
        requires { at < length self.old }
        ensures item { slice_get self.old at ≡ Some result }
        ensures rest { self.new ≡ without at self.old }
    {
        self.items.remove(at)
    }
}

// Memory for one more. The item itself is not handed on, so that it is written right to where it goes.
#[inline(never)]
fn make_room(items: &mut Vec<Ref>) -> Result<(), NoMemory>
    ensures same { items.new.items ≡ items.old.items }
    ensures room { OnOk result (vec_len items.new < vec_capacity items.new) }
{
    items.reserve(1)?;
    Ok(())
}
