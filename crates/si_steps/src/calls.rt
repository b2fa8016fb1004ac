// What calls make of a state.
ghost use Rattle.std.specs.Prelude.{◌≡◌, ◌+◌, ◌-◌, ◌<◌, ◌≤◌, ◌^◌, length, Some, None};
ghost use Rattle.si_arena.specs.Memory.{Memory, Lies, value_of};
ghost use Rattle.si_arena.specs.Views.{value_in};
ghost use Rattle.si_slots.specs.Machine as machine;
ghost use Rattle.si_slots.specs.Views.{target_of};
ghost use Rattle.si_steps.specs.Moments.{Moment, IsReady, Does};
ghost use Rattle.si_steps.specs.inner.Pieces.{IsCallee, Enters, Prints, function_number};

use crate::state::State;
use crate::step::Step;
use si_arena::{Arena, Cause, Fault, Ref, View};
use si_ops::Called;
use si_plain::limits::MAX_CALLS;
use si_slots::{Routine, Target};
use si_stacks::{Block, Shape};

impl State {
    /// Calls what lies in a temporary with so many arguments, which lie above it; they are taken, and the value of the
    /// call goes to a target.
    #[inline(always)]
    pub fn call(&mut self, target: Target, at: u32, count: u32) -> Step
        ghost p: { Moment }
        requires ready { IsReady (machine.Call (target_of target) at count) self.old p }
        ensures { Does (machine.Call (target_of target) at count) p self.old self.new result }
    {
        let callee = self.frames.temporary(at as usize);
        match function_in(&self.arena, callee) {
            Some(number) => self.call_function(callee, number, target, at, count),
            None => self.call_provided(callee, target, at, count),
        }
    }

    /// The same, out of line.
    #[inline(never)]
    pub fn call_any(&mut self, target: Target, at: u32, count: u32) -> Step
        ghost p: { Moment }
        requires ready { IsReady (machine.Call (target_of target) at count) self.old p }
        ensures { Does (machine.Call (target_of target) at count) p self.old self.new result }
    {
        self.call(target, at, count)
    }

    // A call of a value that is no function of a script. Room for its value is made first, so that none is asked for once
    // it is there.
    #[inline(never)]
    fn call_provided(&mut self, callee: Ref, target: Target, at: u32, count: u32) -> Step
        ghost p: { Moment }
        requires ready { IsReady (machine.Call (target_of target) at count) self.old p }
        requires callee { IsCallee callee at self.old p }
        requires kind { function_number (value_of self.old.arena callee) ≡ None }
        ensures { Does (machine.Call (target_of target) at count) p self.old self.new result }
    {
        let next = self.pc + 1;
        if self.make_room(target).is_err() {
            return self.starve();
        }
        self.line.clear();
        let arguments = self.frames.arguments(at as usize + 1, count as usize);
        match si_ops::call(&mut self.arena, &mut self.line, callee, arguments) {
            Ok(Called::Value(value)) => {
                self.land(target, value, next);
                Step::Local
            }
            Ok(Called::Printed) => self.print(target, next),
            Err(Fault::Raises(cause)) => self.raise(cause),
            Err(Fault::NoMemory) => self.starve(),
        }
    }

    // Prints the line, which gives None.
    fn print(&mut self, target: Target, next: usize) -> Step
        requires { next ≤ 2 ^ 63 }
        ensures { Prints target next self.old self.new result }
    {
        match self.printed.push_str(self.line.as_str()) {
            Ok(()) => {
                self.land(target, Ref::None, next);
                Step::Local
            }
            Err(_) => self.starve(),
        }
    }

    /// A call of the function of a number, which lies in a temporary.
    #[inline(always)]
    pub fn call_function(
        &mut self,
        callee: Ref,
        number: u32,
        target: Target,
        at: u32,
        count: u32,
    ) -> Step
        ghost p: { Moment }
        requires ready { IsReady (machine.Call (target_of target) at count) self.old p }
        requires callee { IsCallee callee at self.old p }
        requires kind { function_number (value_of self.old.arena callee) ≡ Some number }
        ensures { Does (machine.Call (target_of target) at count) p self.old self.new result }
    {
        match self.table.routine(number) {
            Some(routine) => {
                if count != routine.parameters {
                    self.raise(Cause::WrongArguments)
                } else if self.frames.depth() < MAX_CALLS {
                    self.begin(routine, target, at as usize + 1)
                } else {
                    self.raise(Cause::TooDeep)
                }
            }
            None => self.raise(Cause::NotCallable),
        }
    }

    // A function begins, whose arguments are the temporaries from a place on.
    #[inline(always)]
    fn begin(&mut self, routine: Routine, target: Target, at: usize) -> Step
        requires place { self.old.pc < 2 ^ 63 }
        requires arguments { at + routine.parameters ≤ length self.old.frames.temporaries }
        ensures { Enters routine target at self.old self.new result }
    {
        let after = self.pc + 1;
        if self.blocks.push(Block::Frame { after, target }).is_err() {
            return self.starve();
        }
        let parameters = routine.parameters as usize;
        if self
            .frames
            .enter(at, parameters, shape_of(routine))
            .is_err()
        {
            self.blocks.discard();
            return self.starve();
        }
        self.pc = routine.at;
        Step::Local
    }

    /// A call where an argument is passed by name, which nothing that can be called takes.
    pub fn call_by_name(&mut self, target: Target, at: u32, count: u32) -> Step
        ghost p: { Moment }
        requires ready { IsReady (machine.CallByName (target_of target) at count) self.old p }
        ensures { Does (machine.CallByName (target_of target) at count) p self.old self.new result }
    {
        let callee = self.frames.temporary(at as usize);
        let cause = si_ops::call_by_name(&self.arena, callee);
        self.raise(cause)
    }
}

// The number of the function of a script that a value is.
#[inline(always)]
fn function_in(arena: &Arena, callee: Ref) -> Option<u32>
    requires { Lies arena.now callee }
    ensures { result ≡ function_number (value_of arena.now callee) }
{
    match callee {
        Ref::Function { number, name: _ } => Some(number),
        Ref::BuiltIn(_, _) => None,
        _ => function_shown(arena.view(&callee)),
    }
}

// The same of what is shown.
#[inline(never)]
fn function_shown(view: View) -> Option<u32>
    ensures { (m : Memory) → result ≡ function_number (value_in m view.entry) }
{
    match view {
        View::Function(number, _) => Some(number),
        _ => None,
    }
}

// For how many temporaries there is room as a function begins.
const FIRST_ROOM: usize = 8;

// The frame of a function as it begins: its locals, its parameters included, and room for a few temporaries; more is made
// as they come.
#[inline(always)]
fn shape_of(routine: Routine) -> Shape
    ensures parameters { routine.parameters ≤ result.locals }
    ensures others { result.locals - routine.parameters ≡ routine.locals - routine.parameters }
{
    let parameters = routine.parameters as usize;
    let locals = routine.locals as usize;
    Shape {
        locals: if locals < parameters {
            parameters
        } else {
            locals
        },
        temporaries: FIRST_ROOM,
    }
}
