// Calls of methods.
ghost use Rattle.std.specs.Prelude.{◌≡◌, ◌<◌, length, map, string_bytes, IfOk};
ghost use Rattle.si_slots.specs.Literals.{keywords_in, literal_at};
ghost use Rattle.si_slots.specs.Machine as machine;
ghost use Rattle.si_slots.specs.Views.{target_of, text_at};
ghost use Rattle.si_steps.specs.Moments.{Moment, IsReady, Does, Did};
ghost use Rattle.si_steps.specs.inner.Asking.{IsMethodCall, method_line};

use crate::reading::text_of;
use crate::state::State;
use crate::step::Step;
use si_arena::{Fault, Ref};
use si_methods::{Answered, Method};
use si_plain::{NoMemory, Text};
use si_slots::{Literal, Target};
use std::alloc::Global;

impl State {
    /// Calls the method whose name stands at a slot of what lies in a temporary, or that itself where it has no such method,
    /// with so many arguments, which lie above it, of which the last ones have these names; they are taken, and the value of
    /// the call goes to a target. Or an action is asked, whose answer makes the value.
    #[inline(always)]
    pub fn call_method(
        &mut self,
        target: Target,
        at: u32,
        count: u32,
        slot: u32,
        names: &[Text],
    ) -> Step
        ghost p: { Moment }
        requires ready { IsReady (machine.CallMethod (target_of target) at count (text_at self.old.table.names slot) names.now) self.old p }
        requires there { slot < length self.old.table.names }
        ensures { Does (machine.CallMethod (target_of target) at count (text_at self.old.table.names slot) names.now) p self.old self.new result }
    {
        let object = self.frames.temporary(at as usize);
        match self.method(object, slot) {
            Some(method) => self.call_found(method, object, target, at, count, names),
            None => {
                if names.is_empty() {
                    self.call_any(target, at, count)
                } else {
                    self.call_by_name(target, at, count)
                }
            }
        }
    }

    /// The same, where the names of the last arguments stand at a place of the table's literals.
    #[inline(never)]
    pub fn call_method_by_name(
        &mut self,
        target: Target,
        at: u32,
        count: u32,
        slot: u32,
        place: u32,
    ) -> Step
        ghost p: { Moment }
        requires ready { IsReady (machine.CallMethod (target_of target) at count (text_at self.old.table.names slot) (keywords_in (literal_at self.old.table.literals place))) self.old p }
        requires there { slot < length self.old.table.names }
        requires keywords { place < length self.old.table.literals }
        ensures { Does (machine.CallMethod (target_of target) at count (text_at self.old.table.names slot) (keywords_in (literal_at self.old.table.literals place))) p self.old self.new result }
    {
        match self.keywords(place) {
            Ok(names) => self.call_method(target, at, count, slot, names.as_slice()),
            Err(_) => self.starve(),
        }
    }

    // The names of arguments that stand at a place of the table's literals.
    fn keywords(&self, place: u32) -> Result<Vec<Text>, NoMemory>
        requires { place < length self.now.table.literals }
        ensures { IfOk result (λ names. names.items ≡ keywords_in (literal_at self.now.table.literals place)) }
    {
        let alloc = self.table.allocator();
        match &self.table.literals()[place as usize] {
            Literal::Keywords(names) => texts_of(alloc, names.as_slice()),
            Literal::Str(_) => Ok(Vec::new(alloc)),
            Literal::Bytes(_) => Ok(Vec::new(alloc)),
            Literal::Int(_) => Ok(Vec::new(alloc)),
        }
    }

    /// Calls a method that an object has. Room for its value is made first, so that none is asked for once it is there.
    #[inline(never)]
    pub fn call_found(
        &mut self,
        method: Method,
        object: Ref,
        target: Target,
        at: u32,
        count: u32,
        names: &[Text],
    ) -> Step
        ghost p: { Moment }
        requires { IsMethodCall at count object self.old p }
        ensures { Did (method_line method object (target_of target) at names.now self.old p) p self.old self.new result }
    {
        let next = self.pc + 1;
        if self.make_room(target).is_err() {
            return self.starve();
        }
        let alloc = self.table.allocator();
        let arguments = self.frames.arguments(at as usize + 1, count as usize);
        match si_methods::call_method(
            alloc,
            &mut self.arena,
            self.own,
            method,
            object,
            arguments,
            names,
        ) {
            Ok(Answered::Value(value)) => {
                self.land(target, value, next);
                Step::Local
            }
            Ok(Answered::Asks(awaited, action)) => self.ask(awaited, action, target, next),
            Ok(Answered::NoKey(key)) => self.raise_key(key),
            Err(Fault::Raises(cause)) => self.raise(cause),
            Err(Fault::NoMemory) => self.starve(),
        }
    }
}

// The characters of names, which are ASCII.
fn texts_of(alloc: Global, names: &[String]) -> Result<Vec<Text>, NoMemory>
    ensures { IfOk result (λ texts. texts.items ≡ map string_bytes names.now) }
{
    let mut texts = Vec::new(alloc);
    for name in names {
        texts.push(text_of(alloc, name.as_str())?)?;
    }
    Ok(texts)
}
