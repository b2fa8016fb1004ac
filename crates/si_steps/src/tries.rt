// What the instructions of `try` and of unbinding make of a state.
ghost use Rattle.std.specs.Prelude.{IsSome};
ghost use Rattle.si_slots.specs.Machine as machine;
ghost use Rattle.si_slots.specs.Views.{target_of};
ghost use Rattle.si_stacks.specs.Blocks.{active_of};
ghost use Rattle.si_steps.specs.Moments.{Moment, IsReady, Does};
ghost use Rattle.si_steps.specs.inner.Pieces.{IsDone};

use crate::state::State;
use crate::step::Step;
use si_arena::{Cause, Ref};
use si_slots::Target;
use si_stacks::Block;

impl State {
    /// Into the suite of a `try`.
    #[inline(never)]
    pub fn enter_try(&mut self, count: u32) -> Step
        ghost p: { Moment }
        requires ready { IsReady (machine.EnterTry count) self.old p }
        ensures { Does (machine.EnterTry count) p self.old self.new result }
    {
        let clauses = self.ahead(count);
        let next = self.ahead(0);
        self.enter(Block::Catch(clauses), next)
    }

    /// Into what stands in front of a finally suite.
    #[inline(never)]
    pub fn enter_finally(&mut self, count: u32) -> Step
        ghost p: { Moment }
        requires ready { IsReady (machine.EnterFinally count) self.old p }
        ensures { Does (machine.EnterFinally count) p self.old self.new result }
    {
        let suite = self.ahead(count);
        let next = self.ahead(0);
        self.enter(Block::Final(suite), next)
    }

    /// Out of the innermost block.
    pub fn leave_block(&mut self) -> Step
        ghost p: { Moment }
        requires ready { IsReady machine.LeaveBlock self.old p }
        ensures did { Does machine.LeaveBlock p self.old self.new result }
        ensures done { IsDone result }
    {
        let _ = self.blocks.pop();
        self.advance()
    }

    /// Into a finally suite, with nothing to leave after it.
    pub fn start_finally(&mut self) -> Step
        ghost p: { Moment }
        requires ready { IsReady machine.StartFinally self.old p }
        ensures did { Does machine.StartFinally p self.old self.new result }
        ensures done { IsDone result }
    {
        match self.blocks.innermost() {
            Some(_) => {
                self.blocks.replace(Block::Pending(None));
                self.advance()
            }
            None => unreachable!(),
        }
    }

    /// The exception of the innermost block goes to a target.
    pub fn copy_exception(&mut self, target: Target) -> Step
        ghost p: { Moment }
        requires ready { IsReady (machine.CopyException (target_of target)) self.old p }
        ensures { Does (machine.CopyException (target_of target)) p self.old self.new result }
    {
        match self.blocks.innermost() {
            Some(Block::Handling(address)) => self.put(target, Ref::Object(address)),
            Some(Block::Loop { .. }) => unreachable!(),
            Some(Block::Each { .. }) => unreachable!(),
            Some(Block::Catch(_)) => unreachable!(),
            Some(Block::Final(_)) => unreachable!(),
            Some(Block::Pending(_)) => unreachable!(),
            Some(Block::Frame { .. }) => unreachable!(),
            None => unreachable!(),
        }
    }

    /// The active exception is raised again.
    pub fn raise_again(&mut self) -> Step
        ghost p: { Moment }
        requires ready { IsReady machine.RaiseAgain self.old p }
        ensures did { Does machine.RaiseAgain p self.old self.new result }
        ensures done { IsSome (active_of self.old.blocks) → IsDone result }
    {
        match self.blocks.active() {
            Some(address) => self.leave_raised(address),
            None => self.raise(Cause::NoneActive),
        }
    }

    /// The local at a slot is not bound any more.
    pub fn unbind_local(&mut self, slot: u32) -> Step
        ghost p: { Moment }
        requires ready { IsReady (machine.UnbindLocal slot) self.old p }
        ensures did { Does (machine.UnbindLocal slot) p self.old self.new result }
        ensures done { IsDone result }
    {
        self.frames.set_local(slot as usize, Ref::Unbound);
        self.advance()
    }
}
