// Globals that are bound between runs.
ghost use Rattle.std.specs.Prelude.{◌≡◌, OnOk};
ghost use Rattle.si_semantics.specs.Shareable.{value_of_parcel};
ghost use Rattle.si_semantics.specs.World.{World, set_global};
ghost use Rattle.si_arena.specs.Memory.{value_of, Lies};
ghost use Rattle.si_slots.specs.Contents.{Extends};
ghost use Rattle.si_slots.specs.Views.{table_of};
ghost use Rattle.si_steps.specs.Machines.{bound_to};
ghost use Rattle.si_steps.specs.Moments.{IsWorld, ground_of};
ghost use Rattle.si_steps.specs.inner.Firsts.{Binds};

use crate::state::State;
use si_arena::Ref;
use si_parcel::Parcel;
use si_plain::NoMemory;
use si_share::copy_in;

impl State {
    /// The global of a name is bound to the value of a parcel.
    pub fn bind_parcel(&mut self, name: &str, parcel: &Parcel) -> Result<(), NoMemory>
        ensures ok { OnOk result ((w : World) → IsWorld (ground_of self.old) w → IsWorld (ground_of self.new) (bound_to name.now (value_of_parcel parcel.now) w)) }
        ensures code { table_of self.new.table ≡ table_of self.old.table }
        ensures grown { Extends self.old.table self.new.table }
        ensures same { Binds self.old self.new }
    {
        let value = copy_in(&mut self.arena, parcel)?;
        self.bind(name, value)?;
        Ok(())
    }

    // The global of a name is bound to a value.
    fn bind(&mut self, name: &str, value: Ref) -> Result<(), NoMemory>
        requires { Lies self.old.arena value }
        ensures ok { OnOk result ((w : World) → IsWorld (ground_of self.old) w → IsWorld (ground_of self.new) (set_global name.now (value_of self.old.arena value) w)) }
        ensures code { table_of self.new.table ≡ table_of self.old.table }
        ensures grown { Extends self.old.table self.new.table }
        ensures same { Binds self.old self.new }
    {
        let slot = self.table.slot_of(name)?;
        self.learn_slots()?;
        self.table.facts();
        self.globals[slot as usize] = value;
        Ok(())
    }
}
