// The schedule of a world.

ghost use Rattle.std.specs.Prelude.{◌≡◌, IfOk};
ghost use Rattle.si_world.specs.Marks.{AtRest};
ghost use Rattle.si_world.specs.Core.{core_of, NoneStarved};
ghost use Rattle.si_replay.specs.Replays.{callers, schedule_in, core_after, Completes};
ghost use Rattle.si_replay.specs.Order.{order_of};

use si_hub::Call;
use si_plain::NoMemory;
use si_schedule::Schedule;
use si_world::{Recording, World};
use std::alloc::Global;

// Who made these calls, in order.
fn callers_of(alloc: Global, journal: &[Call]) -> Result<Vec<u32>, NoMemory>
    ensures { IfOk result (λ by. by.items ≡ callers journal.now) }
{
    let mut by = Vec::with_capacity(alloc, journal.len())?;
    for call in journal {
        by.push(call.by)?;
    }
    Ok(by)
}

/// The schedule of a world: how many interpreters its limits allow, and who made its calls, in order.
///
/// # Errors
///
/// `NoMemory` where memory was refused.
pub fn schedule_of(alloc: Global, world: &World) -> Result<Schedule, NoMemory>
    ensures { IfOk result (λ s. s ≡ schedule_in world.now) }
{
    world.facts();
    let by = callers_of(alloc, world.journal())?;
    match Schedule::new(world.limits().interpreters(), by) {
        Some(schedule) => Ok(schedule),
        None => unreachable!(),
    }
}

/// The schedule of what is recorded of a world, which is that of the world.
///
/// # Errors
///
/// `NoMemory` where memory was refused.
pub fn schedule_of_recording(alloc: Global, recording: &Recording) -> Result<Schedule, NoMemory>
    ensures { IfOk result (λ s. s ≡ schedule_in recording.now) }
{
    recording.facts();
    let by = callers_of(alloc, recording.journal())?;
    match Schedule::new(recording.limits().interpreters(), by) {
        Some(schedule) => Ok(schedule),
        None => unreachable!(),
    }
}

/// An order of turns leads to the calls of a world and to the lines of its interpreters. Where memory was refused to none of
/// them and none can move, these turns complete the world's schedule: so a replay of it leaves the same again, unless
/// memory is wanting. Costs nothing.
pub fn replays_again(world: &World)
    ensures core { core_after world.now.past.script world.now.past.limits (order_of world.now) ≡ core_of world.now }
    ensures completes { NoneStarved world.now → AtRest world.now → Completes world.now.past.script world.now.past.limits (schedule_in world.now).callers (order_of world.now) }
{
    world.facts();
}
