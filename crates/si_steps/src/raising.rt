// How exceptions are raised.
ghost use Rattle.std.specs.Prelude.{◌≡◌, ◌<◌, length};
ghost use Rattle.si_arena.specs.Causes.{CauseLies};
ghost use Rattle.si_arena.specs.Memory.{Lies};
ghost use Rattle.si_slots.specs.Machine.{goes, leave};
ghost use Rattle.si_semantics.specs.Meaning as meaning;
ghost use Rattle.si_steps.specs.Moments.{Moment, Did};
ghost use Rattle.si_steps.specs.inner.Pieces.{IsDone, IsUnderWay, Unwound, IsMet, key_line, raised_line};

use crate::state::{Standing, State};
use crate::step::{Exit, Step};
use si_arena::{Cause, Object, Ref};
use si_plain::Kind;
use si_stacks::{Block, Leaving};

impl State {
    /// An operation raises an exception.
    #[inline(never)]
    pub fn raise(&mut self, cause: Cause) -> Step
        ghost p: { Moment }
        requires ready { IsUnderWay self.old p }
        requires lies { CauseLies self.old.arena.names cause }
        ensures { Did (raised_line cause self.old p) p self.old self.new result }
    {
        match self.arena.make(Object::Caused(cause)) {
            Ok(Ref::Object(address)) => self.leave_raised(address),
            Ok(_) => unreachable!(),
            Err(_) => self.starve(),
        }
    }

    /// A key is not there: KeyError is raised, whose argument it is (Python Standard Library 3.14, "Built-in Exceptions").
    #[inline(never)]
    pub fn raise_key(&mut self, key: Ref) -> Step
        ghost p: { Moment }
        requires ready { IsUnderWay self.old p }
        requires lies { Lies self.old.arena key }
        ensures { Did (key_line key self.old p) p self.old self.new result }
    {
        self.fail(Object::Made(Kind::KeyError, key))
    }

    /// Leaves what was entered by the exception at an address: for the innermost except clauses or finally suite, also
    /// of a caller, else the run ends.
    #[inline(never)]
    pub fn leave_raised(&mut self, address: usize) -> Step
        ghost p: { Moment }
        requires ready { IsUnderWay self.old p }
        requires there { address < length self.old.arena.store }
        ensures did { Did (goes (leave (meaning.Raises address) p.w p.slots p.bs) p.w) p self.old self.new result }
        ensures done { IsDone result }
    {
        let place = self.pc;
        self.trace.begin(address, place);
        self.unwind(address);
        match self.blocks.innermost() {
            Some(Block::Catch(clauses)) => self.arrive(clauses, Block::Handling(address)),
            Some(Block::Final(suite)) => {
                self.arrive(suite, Block::Pending(Some(Leaving::Raises(address))))
            }
            Some(Block::Loop { .. }) => unreachable!(),
            Some(Block::Each { .. }) => unreachable!(),
            Some(Block::Pending(_)) => unreachable!(),
            Some(Block::Handling(_)) => unreachable!(),
            Some(Block::Frame { .. }) => unreachable!(),
            None => self.end_raised(address),
        }
    }

    // Up to the innermost block to which an exception goes, or out of all; the calls within it are left.
    fn unwind(&mut self, address: usize)
        ghost p: { Moment }
        requires ready { IsUnderWay self.old p }
        requires there { address < length self.old.arena.store }
        ensures unwound { Unwound address p self.old self.new }
        ensures met { IsMet self.new.blocks }
    {
        while self.blocks.leave_frame(&mut self.trace) {
            self.frames.leave();
        }
    }

    // The exception at an address leaves the run.
    fn end_raised(&mut self, address: usize) -> Step
        ensures step { result ≡ Step.Ended }
        ensures state { self.new ≡ record self.old { standing = Standing.Idle; outcome = Exit.Raised address } }
    {
        self.standing = Standing::Idle;
        self.outcome = Exit::Raised(address);
        Step::Ended
    }
}
