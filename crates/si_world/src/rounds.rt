// Turns given in rounds.

ghost use Rattle.std.specs.Prelude.{◌≡◌, ◌≤◌, ◌<◌, ◌+◌, ℕ, false};
ghost use Rattle.si_world.specs.Marks.{AtRest, RanLines, HasNoLine};
ghost use Rattle.si_world.specs.Rounds.{Serves};
ghost use Rattle.si_world.specs.inner.Serving.{Gives, stint_idle, round_idle, IsIdleTurn};
ghost use Rattle.si_world.specs.inner.Stretches.{last_idle};

use crate::moving::stretch;
use crate::world::World;

impl World {
    /// Turns of interpreter i while each runs a line: how many, and whether memory was refused in the last of them. There are
    /// none where it was not created, has no line to run, or no turn left.
    pub fn lines(&mut self, i: u32) -> (u64, bool)
        ensures ran { RanLines self.old i result.0 result.1 self.new }
        ensures all { result.1 ≡ false → HasNoLine self.new i }
    {
        let turns = self.limits().turns();
        self.some_lines(i, turns)
    }

    // The same of at most `left` turns.
    fn some_lines(&mut self, i: u32, left: u64) -> (u64, bool)
        ensures gives { Gives 0 self.old result.0 self.new (last_idle result.1) }
        ensures within { result.0 ≤ left }
        ensures ran { RanLines self.old i result.0 result.1 self.new }
        ensures all { self.old.past.limits.turns ≤ left → result.1 ≡ false → HasNoLine self.new i }
    {
        if i >= self.made {
            return (0, false);
        }
        let turns = self.hub.limits().turns();
        let interp = &mut self.interps[i as usize];
        stretch(interp, turns, left)
    }

    // Turns of one interpreter until one moves it no more, or none is left: how many, and whether any moved it.
    fn stint(&mut self, i: u32, left: u64) -> (u64, bool)
        ensures gives { (t : ℕ) → t ≤ 127 → Gives t self.old result.0 self.new (stint_idle result.1 t) }
        ensures within { result.0 ≤ left }
        ensures some { 0 < left → 0 < result.0 }
        ensures idle { result.1 ≡ false → 0 < result.0 → IsIdleTurn self.old i self.new }
    {
        let mut given = 0;
        let mut moved = false;
        while given < left {
            let mark = self.turn(i);
            given += 1;
            if !mark.is_move() {
                return (given, moved);
            }
            moved = true;
            let (lines, starved) = self.some_lines(i, left - given);
            given += lines;
            if starved {
                return (given, moved);
            }
        }
        (given, moved)
    }

    // A stint of each interpreter that was created, by their numbers: how many turns, and whether any moved its interpreter.
    fn round(&mut self, left: u64) -> (u64, bool)
        ensures gives { (t : ℕ) → t ≤ 64 → Gives t self.old result.0 self.new (round_idle result.1 64 t) }
        ensures within { result.0 ≤ left }
        ensures some { 0 < left → 0 < result.0 }
        ensures rest { result.1 ≡ false → result.0 < left → AtRest self.new }
    {
        let mut given = 0;
        let mut moved = false;
        let mut i = 0;
        while i < self.created() {
            let (more, more_moved) = self.stint(i, left - given);
            given += more;
            moved = moved || more_moved;
            i += 1;
        }
        (given, moved)
    }

    /// Turns in rounds: interpreter 0 and each after it up to the last that was created has turns until one is marked
    /// neither Local nor Acted; one that is created in a round has its turns in that round. It ends after a round in which
    /// nothing moved, when no interpreter can move, or when `budget` turns were given. Answers how many turns were given.
    pub fn serial(&mut self, budget: u64) -> u64
        ensures serves { Serves self.old result self.new }
        ensures within { result ≤ budget }
        ensures rest { result < budget → AtRest self.new }
    {
        let mut given = 0;
        while given < budget {
            let (more, moved) = self.round(budget - given);
            given += more;
            if !moved {
                return given;
            }
        }
        given
    }
}
