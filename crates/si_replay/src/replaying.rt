// The replay of a schedule.

ghost use Rattle.std.specs.Prelude.{◌≡◌, ◌≢◌, ℕ, List, [], IfOk, IfErr, OnOk, Some, false, slice_get};
ghost use Rattle.si_plain.specs.Characters.{characters_of};
ghost use Rattle.si_interp.specs.Meaning.{InterpView, Starved};
ghost use Rattle.si_world.specs.Core.{NoneStarved};
ghost use Rattle.si_world.specs.Worlds.{first_of};
ghost use Rattle.si_replay.specs.Replays.{limits_for, core_after, Completes, IsReplayed, IsOfTurns, IsFault, IsWantOfMemory};
ghost use Rattle.si_replay.specs.inner.Steps.{Stretched, Entered, IsEntryFault, Settled, Rested, IsTailFault, Walked, IsLeft};

use crate::fault::ReplayFault;
use si_interp::State;
use si_plain::{Limits, NoMemory};
use si_reading::Reading;
use si_schedule::Schedule;
use si_world::{Mark, Recording, World};
use std::alloc::Global;

// Turns of interpreter i until one is marked otherwise than Local: that mark.
fn stretch(world: &mut World, i: u32) -> Mark
    ensures { Stretched world.old i result world.new }
{
    let (_lines, starved) = world.lines(i);
    world.facts();
    if starved {
        Mark::Starved
    } else {
        world.turn(i)
    }
}

// Whether memory was refused to interpreter i; also where there is none.
fn is_starved(world: &World, i: u32) -> bool
    ensures { result ≡ false → (v : InterpView) → slice_get world.now.interps i ≡ Some v → v.stand ≢ Starved }
{
    match world.interp(i) {
        None => true,
        Some(interp) => matches!(interp.state(), State::Starved),
    }
}

// The call of entry k, of interpreter i: its turns up to an action, which is then taken.
fn enter(world: &mut World, i: u32, k: u64) -> Result<(), ReplayFault>
    requires { NoneStarved world.old }
    ensures ok { OnOk result (Entered world.old i world.new) }
    ensures err { IfErr result (λ f. IsEntryFault world.old.past i k f) }
{
    match stretch(world, i) {
        Mark::Local => unreachable!(),
        Mark::Acted => {
            if is_starved(world, i) {
                Err(ReplayFault::Starved)
            } else {
                Ok(())
            }
        }
        Mark::Waited => Err(ReplayFault::NotEnabled(k)),
        Mark::Spent => Err(ReplayFault::Spent(k)),
        Mark::Nobody => Err(ReplayFault::Nobody(k)),
        Mark::Starved => Err(ReplayFault::Starved),
    }
}

// The calls of all entries, in their order.
fn walk(world: &mut World, entries: &[u32]) -> Result<(), ReplayFault>
    requires fed { NoneStarved world.old }
    requires first { world.old.past.journal ≡ [] }
    ensures ok { OnOk result (Walked world.old entries.now world.new) }
    ensures err { IfErr result (λ f. IsFault world.old.past.script world.old.past.limits entries.now f) }
{
    let mut k = 0;
    for by in entries {
        k += 1;
        enter(world, *by, k)?;
    }
    Ok(())
}

// Turns of interpreter i until it can't move. An action that can be taken here is one too many.
fn settle(world: &mut World, i: u32) -> Result<(), ReplayFault>
    requires { NoneStarved world.old }
    ensures ok { OnOk result (Settled world.old i world.new) }
    ensures err { IfErr result (λ f. IsTailFault world.old.past f) }
{
    match stretch(world, i) {
        Mark::Acted => Err(ReplayFault::Unfinished),
        Mark::Starved => Err(ReplayFault::Starved),
        _ => Ok(()),
    }
}

// The same of each interpreter that was created.
fn finish(world: &mut World) -> Result<(), ReplayFault>
    requires { NoneStarved world.old }
    ensures ok { OnOk result (Rested world.old world.new) }
    ensures err { IfErr result (λ f. IsTailFault world.old.past f) }
{
    let count = world.created();
    for i in 0..count {
        settle(world, i)?;
    }
    Ok(())
}

// The world of a script before any turn, with the script as it was read, if it was.
fn first_world(
    alloc: Global,
    script: &str,
    prepared: Option<Reading>,
    limits: Limits,
) -> Result<World, NoMemory>
    ensures { IfOk result (λ w. w ≡ first_of (characters_of script.now) limits) }
{
    let mut world = World::new(alloc, script, limits)?;
    if let Some(reading) = prepared {
        world.prepare(reading);
    }
    Ok(world)
}

// The world of a script after the calls of these entries, in their order, where no interpreter can move.
fn replayed(
    alloc: Global,
    script: &str,
    prepared: Option<Reading>,
    limits: Limits,
    entries: &[u32],
) -> Result<World, ReplayFault>
    ensures ok { IfOk result (λ w. IsLeft (characters_of script.now) limits entries.now w) }
    ensures err { IfErr result (λ f. IsFault (characters_of script.now) limits entries.now f) }
{
    let mut world = match first_world(alloc, script, prepared, limits) {
        Err(_) => return Err(ReplayFault::NoMemory),
        Ok(world) => world,
    };
    walk(&mut world, entries)?;
    finish(&mut world)?;
    Ok(world)
}

// The recording of such a world: whatever turns complete the entries, it is what they leave.
fn completed(
    alloc: Global,
    script: &str,
    prepared: Option<Reading>,
    limits: Limits,
    entries: &[u32],
) -> Result<Recording, ReplayFault>
    ensures ok { IfOk result (λ r. IsReplayed (characters_of script.now) limits entries.now r) }
    ensures err { IfErr result (λ f. IsFault (characters_of script.now) limits entries.now f) }
    ensures same { IfOk result (λ r. (turns : List ℕ) → Completes (characters_of script.now) limits entries.now turns → IsOfTurns (core_after (characters_of script.now) limits turns) r) }
    ensures memory { IfErr result (λ f. (turns : List ℕ) → Completes (characters_of script.now) limits entries.now turns → IsWantOfMemory f) }
{
    match replayed(alloc, script, prepared, limits, entries) {
        Err(fault) => Err(fault),
        Ok(world) => {
            world.facts();
            match world.into_recording() {
                Ok(recording) => Ok(recording),
                Err(_) => Err(ReplayFault::NoMemory),
            }
        }
    }
}

// The limits for a schedule.
fn limits_of(limits: Limits, schedule: &Schedule) -> Limits
    ensures { result ≡ limits_for limits schedule.now }
{
    match Limits::new(schedule.interpreters(), limits.turns()) {
        Ok(own) => own,
        Err(_) => unreachable!(),
    }
}

/// The run of a script that takes just the shared actions of a schedule, in their order, under these limits, but with the
/// schedule's number of interpreters. Where some turns complete the schedule, it is what they leave. Where the script was read
/// before, `prepared` has what it was read as, and it is not read once more; nothing else comes of that.
///
/// # Errors
///
/// `NotEnabled`, `Nobody` or `Spent` with the number of the first entry whose action can't be taken; `Unfinished` where an
/// action can still be taken after the last entry; `Starved` and `NoMemory` where memory was refused. Where some turns
/// complete the schedule, only the last two can come.
pub fn replay(
    alloc: Global,
    script: &str,
    prepared: Option<Reading>,
    limits: Limits,
    schedule: &Schedule,
) -> Result<Recording, ReplayFault>
    // Some turns leave what is recorded, with these callers, and no interpreter can move.
    ensures ok { IfOk result (λ r. IsReplayed (characters_of script.now) (limits_for limits schedule.now) schedule.now.callers r) }
    // When each fault comes.
    ensures err { IfErr result (λ f. IsFault (characters_of script.now) (limits_for limits schedule.now) schedule.now.callers f) }
    // Whatever turns complete the schedule, this is what they leave,
    ensures same { IfOk result (λ r. (turns : List ℕ) → Completes (characters_of script.now) (limits_for limits schedule.now) schedule.now.callers turns → IsOfTurns (core_after (characters_of script.now) (limits_for limits schedule.now) turns) r) }
    // and only memory can be wanting.
    ensures memory { IfErr result (λ f. (turns : List ℕ) → Completes (characters_of script.now) (limits_for limits schedule.now) schedule.now.callers turns → IsWantOfMemory f) }
{
    let own = limits_of(limits, schedule);
    completed(alloc, script, prepared, own, schedule.callers())
}
