// Displays of tuples, lists and dicts.

ghost use Rattle.si_slots.specs.Machine as machine;
ghost use Rattle.si_slots.specs.Views.{target_of};
ghost use Rattle.si_steps.specs.Moments.{Moment, IsReady, Does};

use crate::state::State;
use crate::step::Step;
use si_arena::Fault;
use si_ops::{make_dict, make_list};
use si_slots::Target;

impl State {
    /// The tuple of what lies in so many temporaries from one on, which are taken, goes to a target.
    #[inline(never)]
    pub fn gather(&mut self, target: Target, at: u32, count: u32) -> Step
        ghost p: { Moment }
        requires { IsReady (machine.Gather (target_of target) at count) self.old p }
        ensures { Does (machine.Gather (target_of target) at count) p self.old self.new result }
    {
        let items = self.frames.arguments(at as usize, count as usize);
        match self.arena.place_tuple(items) {
            Ok(tuple) => self.put(target, tuple),
            Err(Fault::Raises(cause)) => self.raise(cause),
            Err(Fault::NoMemory) => self.starve(),
        }
    }

    /// The new list of what lies in so many temporaries from one on, which are taken, goes to a target. Room for it is made
    /// first, so that none is asked for once it is there.
    #[inline(never)]
    pub fn gather_list(&mut self, target: Target, at: u32, count: u32) -> Step
        ghost p: { Moment }
        requires { IsReady (machine.GatherList (target_of target) at count) self.old p }
        ensures { Does (machine.GatherList (target_of target) at count) p self.old self.new result }
    {
        if self.make_room(target).is_err() {
            return self.starve();
        }
        let elements = self.frames.arguments(at as usize, count as usize);
        let made = make_list(&mut self.arena, elements);
        self.conclude(target, made)
    }

    /// The new dict of what lies in so many temporaries from one on, keys and values by turns, which are taken, goes to a
    /// target; or TypeError. Room for it is made first, so that none is asked for once it is there.
    #[inline(never)]
    pub fn gather_dict(&mut self, target: Target, at: u32, count: u32) -> Step
        ghost p: { Moment }
        requires { IsReady (machine.GatherDict (target_of target) at count) self.old p }
        ensures { Does (machine.GatherDict (target_of target) at count) p self.old self.new result }
    {
        if self.make_room(target).is_err() {
            return self.starve();
        }
        let operands = self.frames.arguments(at as usize, count as usize);
        let made = make_dict(&mut self.arena, operands);
        self.conclude(target, made)
    }
}
