// Unpacking.
ghost use Rattle.std.specs.Prelude.{◌≡◌, ◌+◌, ◌<◌, ◌^◌, length, List};
ghost use Rattle.si_semantics.specs.Value.{Value};
ghost use Rattle.si_arena.specs.Memory.{value_of, Lies};
ghost use Rattle.si_slots.specs.Contents.{SourceResolves};
ghost use Rattle.si_slots.specs.Machine as machine;
ghost use Rattle.si_slots.specs.Machine.{laid};
ghost use Rattle.si_slots.specs.Views.{source_of};
ghost use Rattle.si_ops.specs.Items.{gone_over};
ghost use Rattle.si_stacks.specs.Places.{Keeps};
ghost use Rattle.si_steps.specs.Moments.{Moment, IsReady, Does};
ghost use Rattle.si_steps.specs.inner.Pieces.{LaysOut};
ghost use Rattle.si_steps.specs.inner.Operands.{words_at};

use crate::state::State;
use crate::step::Step;
use si_arena::{Arena, Cause, Ref};
use si_ops::{nth_item, unpacks};
use si_slots::Source;
use si_stacks::Frames;

impl State {
    /// The items of an operand, of which there have to be so many, go to the temporaries from one on: the last one to that,
    /// and the first one above the others; or TypeError or ValueError.
    #[inline(never)]
    pub fn unpack(&mut self, source: Source, at: u32, count: u32) -> Step
        ghost p: { Moment }
        requires ready { IsReady (machine.Unpack (source_of (words_at self.old) source) at count) self.old p }
        requires there { SourceResolves (length self.old.table.literals) (length self.old.table.names) source }
        ensures { Does (machine.Unpack (source_of (words_at self.old) source) at count) p self.old self.new result }
    {
        match self.read(source) {
            Ok(value) => match unpacks(&self.arena, count as usize, value) {
                Ok(()) => self.lay_out(value, at as usize, count as usize),
                Err(cause) => self.raise(cause),
            },
            Err(missing) => self.raise_missing(missing),
        }
    }

    /// What lies in so many temporaries from one on, which are the last, lies in them the other way round; or OverflowError,
    /// where a tuple of it would be too large.
    #[inline(never)]
    pub fn reverse(&mut self, at: u32, count: u32) -> Step
        ghost p: { Moment }
        requires { IsReady (machine.Reverse at count) self.old p }
        ensures { Does (machine.Reverse at count) p self.old self.new result }
    {
        let items = self.frames.arguments(at as usize, count as usize);
        if !self.arena.admits_tuple(items) {
            return self.raise(Cause::TooLong);
        }
        self.frames.reverse(at as usize, count as usize);
        self.advance()
    }

    // The items of a value, which has so many, go to the temporaries from one on. Room for them is made first.
    fn lay_out(&mut self, value: Ref, at: usize, count: usize) -> Step
        requires place { self.old.pc < 2 ^ 63 }
        requires lies { Lies self.old.arena value }
        requires count { length (gone_over self.old.arena (value_of self.old.arena value)) ≡ count }
        requires bounds { at + count < 2 ^ 63 }
        ensures { LaysOut value at self.old self.new result }
    {
        if self.frames.make_room(at + count).is_err() {
            return self.starve();
        }
        lay_items(&self.arena, &mut self.frames, value, at, count);
        self.advance()
    }
}

// Puts the items of a value, which has so many, into the temporaries from one on, for which there is room: the last item
// first.
fn lay_items(arena: &Arena, frames: &mut Frames, value: Ref, at: usize, count: usize)
    requires lies { Lies arena.now value }
    requires count { length (gone_over arena.now (value_of arena.now value)) ≡ count }
    requires room { at + count < length frames.old.temporaries }
    requires bounds { at + count < 2 ^ 63 }
    ensures laid { (ts : List Value) → Keeps arena.now frames.old.temporaries ts → Keeps arena.now frames.new.temporaries (laid at (gone_over arena.now (value_of arena.now value)) ts) }
    ensures rest { frames.new ≡ record frames.old { temporaries = frames.new.temporaries } }
{
    for done in 0..count {
        let item = nth_item(arena, value, (count - 1 - done) as u64);
        frames.set_temporary(at + done, item);
    }
}
