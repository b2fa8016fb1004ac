// The turns of a list.

ghost use Rattle.std.specs.Prelude.{◌≡◌, IfOk, OnErr};
ghost use Rattle.si_world.specs.Marks.{Ran};
ghost use Rattle.si_world.specs.Core.{core_of, core_run, NoneStarved};

use crate::mark::Mark;
use crate::world::World;
use si_plain::NoMemory;

impl World {
    /// The turns of a list, one after the other: the mark of each. Where memory is refused to no interpreter, marks and what
    /// is left are a function of the list.
    ///
    /// # Errors
    ///
    /// `NoMemory` where there is no memory for the marks; nothing has changed then.
    pub fn run(&mut self, turns: &[u32]) -> Result<Vec<Mark>, NoMemory>
        ensures ran { IfOk result (λ ms. Ran self.old turns.now ms.items self.new) }
        ensures core { IfOk result (λ ms. NoneStarved self.new → core_run (core_of self.old) turns.now ≡ (ms.items, core_of self.new)) }
        ensures err { OnErr result (self.new ≡ self.old) }
    {
        let mut marks = Vec::with_capacity(self.alloc, turns.len())?;
        for turn in turns {
            self.facts();
            let mark = self.turn(*turn);
            match marks.push(mark) {
                Ok(()) => {}
                Err(_) => unreachable!(),
            }
        }
        Ok(marks)
    }
}
