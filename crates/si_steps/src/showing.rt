// What hosts are shown of globals.
ghost use Rattle.std.specs.Prelude.{◌≡◌, IfOk, IfSome};
ghost use Rattle.std.specs.Option.{option_map};
ghost use Rattle.si_semantics.specs.Text.{repr_in};
ghost use Rattle.si_semantics.specs.World.{World};
ghost use Rattle.si_arena.specs.Memory.{value_of, Lies};
ghost use Rattle.si_steps.specs.Shown.{IsShown, ShowsGlobal, shown_in};
ghost use Rattle.si_steps.specs.Moments.{IsSound, IsWorld, global_of, ground_of};

use crate::reading::{bound, text_of};
use crate::state::State;
use si_arena::{Arena, Fault, Ref};
use si_ops::{first_global, push_repr};
use si_plain::{Kind, NoMemory, Text};
use std::alloc::Global;

/// Why a value is not shown.
#[derive(Clone, Copy, Debug, PartialEq, Eq)]
pub enum NotShown {
    /// Its `repr` raises an exception of this kind.
    Raises(Kind),
    /// Memory was refused.
    NoMemory,
}

impl From<NoMemory> for NotShown {
    ghost use Rattle.std.specs.Prelude.{◌≡◌};
    ghost use Rattle.si_steps.specs.declared.showing.NotShown.TheVariants.{NoMemory as Refused};

    ghost from_gives = { λ _ e. e ≡ Refused };

    fn from(_: NoMemory) -> NotShown {
        NotShown::NoMemory
    }
}

impl State {
    /// The `repr` of the value of a global, by the bytes of its name; None where nothing is bound to it.
    pub fn show_global(&self, name: &str) -> Result<Option<Text>, NotShown>
        requires { IsSound (ground_of self.now) }
        ensures { (w : World) → IsWorld (ground_of self.now) w → ShowsGlobal (shown_in w name.now) result }
    {
        match self.global_named(name)? {
            None => Ok(None),
            Some(value) => {
                let text = shown(self.table.allocator(), &self.arena, value)?;
                Ok(Some(text))
            }
        }
    }

    // The value of the global of a name. A name without a slot is as at first.
    fn global_named(&self, name: &str) -> Result<Option<Ref>, NoMemory>
        requires { IsSound (ground_of self.now) }
        ensures value { IfOk result (λ found. option_map (value_of self.now.arena) found ≡ global_of self.now.arena self.now.table.names self.now.globals.items name.now) }
        ensures lies { IfOk result (λ found. IfSome found (λ value. Lies self.now.arena value)) }
    {
        for slot in 0..self.table.slots() {
            let Some(found) = self.table.name(slot as u32) else {
                unreachable!();
            };
            if found == name {
                return Ok(bound(self.globals[slot]));
            }
        }
        let text = text_of(self.table.allocator(), name)?;
        Ok(bound(first_global(text.as_str())))
    }
}

// The `repr` of a value.
fn shown(alloc: Global, arena: &Arena, value: Ref) -> Result<Text, NotShown>
    requires { Lies arena.now value }
    ensures { IsShown (repr_in arena.now.store (value_of arena.now value)) result }
{
    let mut text = String::new(alloc);
    match push_repr(&mut text, arena, value) {
        Ok(()) => Ok(Text::from_str(alloc, text.as_str())?),
        Err(Fault::Raises(cause)) => Err(NotShown::Raises(cause.kind())),
        Err(Fault::NoMemory) => Err(NotShown::NoMemory),
    }
}
