// What is asked of others, and its answers.
ghost use Rattle.std.specs.Prelude.{◌≡◌, ◌≤◌, ◌^◌, Some};
ghost use Rattle.si_semantics.specs.World.{Request};
ghost use Rattle.si_semantics.specs.Replies as replies;
ghost use Rattle.si_arena.specs.Memory.{object_of, Lies, ObjectLies};
ghost use Rattle.si_parcel.specs.Shared.{answer_of};
ghost use Rattle.si_methods.specs.Given.{answer_in};
ghost use Rattle.si_slots.specs.Views.{target_of};
ghost use Rattle.si_steps.specs.Moments.{Moment, IsAt, Did};
ghost use Rattle.si_steps.specs.inner.Asking.{IsAwaiting, KeepsRequest, Resumes, Fails, reply_line};

use crate::state::{Standing, State};
use crate::step::Step;
use si_arena::{Object, Ref};
use si_methods::{Awaited, Replied, reply};
use si_parcel::{Action, Answer};
use si_slots::Target;

impl State {
    /// Asks an action, of which this is kept; the value of its answer goes to a target, and the run to a place.
    pub fn ask(&mut self, awaited: Awaited, action: Action, target: Target, next: usize) -> Step
        ensures step { result ≡ Step.Wants }
        ensures state { self.new ≡ record self.old { standing = Standing.Waiting; pc = next; awaited = awaited; target = target; action = Some action } }
    {
        self.pc = next;
        self.awaited = awaited;
        self.target = target;
        self.action = Some(action);
        self.standing = Standing::Waiting;
        Step::Wants
    }

    /// An answer to the action that was asked: its value goes to its target, or its exception is raised, or a further action
    /// is asked. Room for the value is made first, so that none is asked for once it is there.
    pub fn answer(&mut self, answer: &Answer) -> Step
        ghost q: { Request × Moment }
        requires { IsAwaiting q.0 self.old q.1 }
        ensures did { Did (reply_line (replies.reply q.0 (answer_in (answer_of answer.now)) q.1.w) (target_of self.old.target) self.old.pc q.1) q.1 self.old self.new result }
        ensures kept { KeepsRequest self.old self.new result }
    {
        let target = self.target;
        let next = self.pc;
        if self.make_room(target).is_err() {
            return self.starve();
        }
        let alloc = self.table.allocator();
        match reply(alloc, &mut self.arena, self.awaited, answer) {
            Ok(Replied::Got(value)) => self.resume_with(target, value, next),
            Ok(Replied::Failed(object)) => self.fail(object),
            Ok(Replied::Wants(awaited, action)) => self.ask(awaited, action, target, next),
            Err(_) => self.starve(),
        }
    }

    // The run goes on, with a value for its target.
    fn resume_with(&mut self, target: Target, value: Ref, next: usize) -> Step
        requires value { Lies self.old.arena value }
        requires place { next ≤ 2 ^ 63 }
        ensures step { result ≡ Step.Local }
        ensures state { Resumes target value next self.old self.new }
    {
        self.standing = Standing::Running;
        self.land(target, value, next);
        Step::Local
    }

    /// The run goes on, with an exception that is made and raised.
    pub fn fail(&mut self, object: Object) -> Step
        ghost p: { Moment }
        requires at { IsAt self.old p }
        requires lies { ObjectLies self.old.arena object }
        ensures { Fails (object_of self.old.arena object) p self.old self.new result }
    {
        match self.arena.make(object) {
            Ok(Ref::Object(address)) => {
                let place = self.raised_at();
                self.trace.begin(address, place);
                self.standing = Standing::Running;
                self.leave_raised(address)
            }
            Ok(_) => unreachable!(),
            Err(_) => self.starve(),
        }
    }

    // The place of the instruction that raises: where an answer was awaited, that in front of the next.
    fn raised_at(&self) -> usize {
        match self.standing {
            Standing::Waiting => self.pc.saturating_sub(1),
            Standing::Running => self.pc,
            Standing::Idle => self.pc,
            Standing::Starved => self.pc,
        }
    }
}
