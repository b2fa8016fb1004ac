// A stack of values that are copied.
ghost use Rattle.std.specs.Prelude.{◌≡◌, ◌<◌, [], ◌∷◌, drop, length, reverse, true, false, OnOk, OnErr, MatchOption, vec_capacity, vec_len};

use si_plain::NoMemory;
use std::alloc::Global;
use std::marker::Model;

/// A stack, which contracts see from its top on. What was taken from it leaves its memory, so a value is mostly written
/// right to where it goes: one that is handed to a call, as `Vec::push` takes it, is copied in parts, for which the
/// processor waits.
#[derive(Drop)]
pub struct Stack<T: Copy> {
    /// What lies on the stack, the topmost last, and what was taken from it after that.
    items: Vec<T>,
    depth: usize,
}

impl<T: Copy> Model for Stack<T> {
    ghost use Rattle.std.specs.Prelude.{List, ◌≤◌, length, reverse, take};

    ghost Value = { List T };

    ghost view = { λ s. reverse (take s.depth s.items.items) };

    ghost invariant = { λ s. s.depth ≤ length s.items.items };
}

impl<T: Copy> Stack<T> {
    /// Nothing lies on it.
    pub fn new(alloc: Global) -> Stack<T>
        ensures { result ≡ [] }
    {
        Stack {
            items: Vec::new(alloc),
            depth: 0,
        }
    }

    /// How many values lie on it.
    #[inline(always)]
    pub fn len(&self) -> usize
        ensures { result ≡ length self.now }
    {
        self.depth
    }

    /// What lies on it, the topmost last.
    #[inline(always)]
    pub fn as_slice(&self) -> &[T]
        ensures { reverse result.now ≡ self.now }
    {
        &self.items[..self.depth]
    }

    /// One more, at the top.
    ///
    /// # Errors
    ///
    /// `NoMemory` where memory was refused; nothing has changed then.
    #[inline(always)]
    pub fn push(&mut self, item: T) -> Result<(), NoMemory>
        ensures ok { OnOk result (self.new ≡ item ∷ self.old) }
        ensures err { OnErr result (self.new ≡ self.old) }
    {
        if self.depth < self.items.len() {
            self.items[self.depth] = item;
        } else {
            make_room(&mut self.items)?;
            self.items.push_reserved(item);
        }
        self.depth += 1;
        Ok(())
    }

    /// One more, at the top, where its memory is there from before; whether it was. Nothing has changed where it wasn't.
    #[inline(always)]
    pub(crate) fn push_in_place(&mut self, item: T) -> bool
        ensures yes { result ≡ true → self.new ≡ item ∷ self.old }
        ensures no { result ≡ false → self.new ≡ self.old }
    {
        if self.depth == self.items.len() {
            return false;
        }
        self.items[self.depth] = item;
        self.depth += 1;
        true
    }

    /// The topmost.
    #[inline(always)]
    pub fn top(&self) -> Option<T>
        ensures { MatchOption result (self.now ≡ []) (λ item. self.now ≡ item ∷ drop 1 self.now) }
    {
        if self.depth == 0 {
            None
        } else {
            Some(self.items[self.depth - 1])
        }
    }

    /// The topmost, which is taken.
    #[inline(always)]
    pub fn pop(&mut self) -> Option<T>
        ensures { MatchOption result ((self.old ≡ []) × (self.new ≡ [])) (λ item. self.old ≡ item ∷ self.new) }
    {
        if self.depth == 0 {
            None
        } else {
            self.depth -= 1;
            Some(self.items[self.depth])
        }
    }

    /// Another in place of the topmost.
    #[inline(always)]
    pub fn replace(&mut self, item: T)
        requires { 0 < length self.old }
        ensures { self.new ≡ item ∷ drop 1 self.old }
    {
        let last = self.depth - 1;
        self.items[last] = item;
    }

    /// All is taken.
    pub fn clear(&mut self)
        ensures { self.new ≡ [] }
    {
        self.depth = 0;
    }
}

// Memory for one more. The value itself is not handed on, so that it is written right to where it goes.
#[inline(never)]
fn make_room<T: Copy>(items: &mut Vec<T>) -> Result<(), NoMemory>
    ensures same { items.new.items ≡ items.old.items }
    ensures room { OnOk result (vec_len items.new < vec_capacity items.new) }
{
    items.reserve(1)?;
    Ok(())
}
