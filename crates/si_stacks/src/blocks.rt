// What was entered and not left: bodies of loops, suites of a `try`, its clauses and its finally suite, calls.
ghost use Rattle.std.specs.Prelude.{◌≡◌, ◌<◌, List, [], ◌∷◌, length, drop, OnOk, OnErr, MatchOption};
ghost use Rattle.si_stacks.specs.Blocks.{concerns, reached, handles, is_handled, active_in, active_of, LeavesFrame};

use crate::stack::Stack;
use crate::trace::Trace;
use si_arena::Ref;
use si_plain::NoMemory;
use std::alloc::Global;
use std::marker::Model;

/// How a suite is left other than at its end.
#[derive(Clone, Copy, Debug)]
pub enum Leaving {
    /// By the exception at this address.
    Raises(usize),
    /// By `return` with this value.
    Returns(Ref),
    /// By `break`.
    Breaks,
    /// By `continue`.
    Continues,
}

/// What was entered: `I` is what a `for` still has to give, and `T` says where the value of a call goes.
#[derive(Clone, Copy, Debug)]
pub enum Block<I, T> {
    /// The body of a loop, with the place of its test and of what follows the loop.
    Loop {
        start: usize,
        after: usize,
    },
    /// The body of a `for`, with the place where it asks for an item, of what follows it, and what it still has to give.
    Each {
        start: usize,
        after: usize,
        items: I,
    },
    /// The suite of a `try`, with the place of its except clauses.
    Catch(usize),
    /// What stands in front of a finally suite, with the place of that suite.
    Final(usize),
    /// A finally suite, and what is left at its end.
    Pending(Option<Leaving>),
    /// Except clauses, with the address of the exception that has come to them.
    Handling(usize),
    /// A call, with the place after it and where its value goes.
    Frame {
        after: usize,
        target: T,
    },
}

impl Leaving {
    /// Whether this leaving stops at a block: at a finally suite, at a call, and where it leads.
    pub fn concerns<I: Copy, T: Copy>(self, block: Block<I, T>) -> bool
        ensures { result ≡ concerns self block }
    {
        match block {
            Block::Final(_) => true,
            Block::Frame { .. } => true,
            Block::Catch(_) => matches!(self, Leaving::Raises(_)),
            Block::Loop { .. } => matches!(self, Leaving::Breaks | Leaving::Continues),
            Block::Each { .. } => matches!(self, Leaving::Breaks | Leaving::Continues),
            Block::Pending(_) => false,
            Block::Handling(_) => false,
        }
    }
}

impl<I: Copy, T: Copy> Block<I, T> {
    /// Whether an exception goes to this.
    pub fn handles(self) -> bool
        ensures { result ≡ handles self }
    {
        matches!(self, Block::Catch(_) | Block::Final(_))
    }

    /// The exception that is active in this, by its address.
    pub fn active(self) -> Option<usize>
        ensures { result ≡ active_in self }
    {
        match self {
            Block::Handling(address) => Some(address),
            Block::Pending(Some(Leaving::Raises(address))) => Some(address),
            _ => None,
        }
    }
}

/// What was entered and not left, which contracts see from the innermost on.
#[derive(Drop)]
pub struct Blocks<I: Copy, T: Copy> {
    items: Stack<Block<I, T>>,
}

impl<I: Copy, T: Copy> Model for Blocks<I, T> {
    ghost use Rattle.std.specs.Prelude.{List};
    ghost use Rattle.si_stacks.specs.declared.blocks.Block.{Block as Item};

    ghost Value = { List (Item I T) };

    ghost view = { λ b. b.items };
}

impl<I: Copy, T: Copy> Blocks<I, T> {
    /// Nothing was entered.
    pub fn new(alloc: Global) -> Blocks<I, T>
        ensures { result ≡ [] }
    {
        Blocks {
            items: Stack::new(alloc),
        }
    }

    /// One more, the innermost.
    ///
    /// # Errors
    ///
    /// `NoMemory` where memory was refused; nothing was entered then.
    #[inline(always)]
    pub fn push(&mut self, block: Block<I, T>) -> Result<(), NoMemory>
        ensures ok { OnOk result (self.new ≡ block ∷ self.old) }
        ensures err { OnErr result (self.new ≡ self.old) }
    {
        self.items.push(block)
    }

    /// The innermost.
    #[inline(always)]
    pub fn innermost(&self) -> Option<Block<I, T>>
        ensures { MatchOption result (self.now ≡ []) (λ b. self.now ≡ b ∷ drop 1 self.now) }
    {
        self.items.top()
    }

    /// The innermost, which is left.
    #[inline(always)]
    pub fn pop(&mut self) -> Option<Block<I, T>>
        ensures { MatchOption result ((self.old ≡ []) × (self.new ≡ [])) (λ b. self.old ≡ b ∷ self.new) }
    {
        self.items.pop()
    }

    /// The innermost is left, where there is one.
    #[inline(always)]
    pub fn discard(&mut self)
        ensures { self.new ≡ drop 1 self.old }
    {
        match self.pop() {
            Some(_) => {}
            None => {}
        }
    }

    /// Another in place of the innermost.
    #[inline(always)]
    pub fn replace(&mut self, block: Block<I, T>)
        requires { 0 < length self.old }
        ensures { self.new ≡ block ∷ drop 1 self.old }
    {
        self.items.replace(block);
    }

    /// All that such leaving passes is left.
    pub fn pass(&mut self, leaving: Leaving)
        ensures { self.new ≡ reached leaving self.old }
    {
        while let Some(block) = self.innermost() {
            if leaving.concerns(block) {
                return;
            }
            let _ = self.pop();
        }
    }

    /// The innermost call is left with all that was entered within it, as an exception leaves it; except clauses and a
    /// finally suite within it stop that. Whether a call was left, which the trace notes then.
    pub fn leave_frame(&mut self, trace: &mut Trace) -> bool
        ensures frame { LeavesFrame self.old self.new result }
        ensures trace { trace.new ≡ trace.old }
    {
        self.pass(Leaving::Raises(0));
        match self.innermost() {
            Some(Block::Frame { after, target: _ }) => {
                let _ = self.pop();
                trace.leave(after);
                true
            }
            _ => false,
        }
    }

    /// Whether an exception goes to one of these.
    pub fn is_handled(&self) -> bool
        ensures { result ≡ is_handled self.now }
    {
        let items = self.items.as_slice();
        let mut left = items.len();
        while left > 0 {
            left -= 1;
            if items[left].handles() {
                return true;
            }
        }
        false
    }

    /// The innermost active exception, by its address.
    pub fn active(&self) -> Option<usize>
        ensures { result ≡ active_of self.now }
    {
        let items = self.items.as_slice();
        let mut left = items.len();
        while left > 0 {
            left -= 1;
            if let Some(address) = items[left].active() {
                return Some(address);
            }
        }
        None
    }

    /// All is left.
    pub fn clear(&mut self)
        ensures { self.new ≡ [] }
    {
        self.items.clear();
    }
}
