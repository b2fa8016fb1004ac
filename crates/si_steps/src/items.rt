// What sets and deletes items.
ghost use Rattle.std.specs.Prelude.{length};
ghost use Rattle.si_slots.specs.Contents.{SourceResolves};
ghost use Rattle.si_slots.specs.Machine as machine;
ghost use Rattle.si_slots.specs.Views.{source_of};
ghost use Rattle.si_steps.specs.Moments.{Moment, IsReady, Does};
ghost use Rattle.si_steps.specs.inner.Operands.{words_at};

use crate::state::State;
use crate::step::Step;
use si_arena::Fault;
use si_ops::{Lack, delete_item, set_item};
use si_slots::Source;

impl State {
    /// The item of an object at an index is set to a value. An item of a list is set where it lies.
    #[inline(always)]
    pub fn store_item(&mut self, value: Source, object: Source, index: Source) -> Step
        ghost p: { Moment }
        requires ready { IsReady (machine.StoreItem (source_of (words_at self.old) value) (source_of (words_at self.old) object) (source_of (words_at self.old) index)) self.old p }
        requires value { SourceResolves (length self.old.table.literals) (length self.old.table.names) value }
        requires object { SourceResolves (length self.old.table.literals) (length self.old.table.names) object }
        requires index { SourceResolves (length self.old.table.literals) (length self.old.table.names) index }
        ensures { Does (machine.StoreItem (source_of (words_at self.old) value) (source_of (words_at self.old) object) (source_of (words_at self.old) index)) p self.old self.new result }
    {
        let value = match self.read(value) {
            Ok(value) => value,
            Err(missing) => return self.raise_missing(missing),
        };
        let object = match self.read(object) {
            Ok(value) => value,
            Err(missing) => return self.raise_missing(missing),
        };
        let index = match self.read(index) {
            Ok(value) => value,
            Err(missing) => return self.raise_missing(missing),
        };
        match set_item(&mut self.arena, object, index, value) {
            Ok(()) => self.advance(),
            Err(Fault::Raises(cause)) => self.raise(cause),
            Err(Fault::NoMemory) => self.starve(),
        }
    }

    /// The item of an object at an index is deleted; or KeyError is raised with the index, where that is a key that is not
    /// there.
    #[inline(never)]
    pub fn delete_item(&mut self, container: Source, key: Source) -> Step
        ghost p: { Moment }
        requires ready { IsReady (machine.DeleteItem (source_of (words_at self.old) container) (source_of (words_at self.old) key)) self.old p }
        requires container { SourceResolves (length self.old.table.literals) (length self.old.table.names) container }
        requires key { SourceResolves (length self.old.table.literals) (length self.old.table.names) key }
        ensures { Does (machine.DeleteItem (source_of (words_at self.old) container) (source_of (words_at self.old) key)) p self.old self.new result }
    {
        let container = match self.read(container) {
            Ok(value) => value,
            Err(missing) => return self.raise_missing(missing),
        };
        let key = match self.read(key) {
            Ok(value) => value,
            Err(missing) => return self.raise_missing(missing),
        };
        match delete_item(&mut self.arena, container, key) {
            Ok(()) => self.advance(),
            Err(Lack::Raises(cause)) => self.raise(cause),
            Err(Lack::NoKey) => self.raise_key(key),
        }
    }
}
