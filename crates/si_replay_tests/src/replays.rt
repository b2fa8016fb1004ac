// Runs that are made again.

use si_plain::{Limits, NoMemory};
use si_replay::{ReplayFault, replay, replays_again, schedule_of};
use si_schedule::Schedule;
use si_world::{End, Mark, Recording, World};
use std::alloc::{AllocError, Global};
use std::test::Fail;

fn limits(turns: u64) -> Result<Limits, Fail> {
    Ok(Limits::new(8, turns).map_err(|_| "the limits")?)
}

// The schedule of these callers.
fn schedule(alloc: Global, callers: &[u32]) -> Result<Schedule, Fail> {
    let mut by = Vec::new(alloc);
    for caller in callers {
        by.push(*caller)?;
    }
    Ok(Schedule::new(8, by).ok_or("the schedule")?)
}

// A world of a script, after turns in rounds.
fn served(alloc: Global, script: &str) -> Result<World, Fail> {
    let mut world = World::new(alloc, script, limits(1_000)?)?;
    let given = world.serial(u64::MAX);
    if given == u64::MAX || world.end() == End::Starved {
        return Err(AllocError)?;
    }
    Ok(world)
}

// Whether what one has printed first, and how it ended, is the other's.
fn is_same(one: &Recording, other: &Recording) -> bool {
    let same_end = one.end() == other.end();
    let same_calls = one.journal().len() == other.journal().len();
    match (one.reports().first(), other.reports().first()) {
        (Some(left), Some(right)) => {
            same_end && same_calls && left.printed().as_str() == right.printed().as_str()
        }
        _ => false,
    }
}

// A run of a script, and the same made again from its schedule.
fn run_twice(alloc: Global, script: &str) -> Result<(Recording, Recording), Fail> {
    let world = served(alloc, script)?;
    replays_again(&world);
    let schedule = schedule_of(alloc, &world)?;
    let once = world.recording()?;
    let Ok(again) = replay(alloc, script, None, limits(1_000)?, &schedule) else {
        return Err("not replayed")?;
    };
    Ok((once, again))
}

#[test]
fn made_again(rt: HostRuntime) -> Result<(), Fail> {
    let (once, again) = run_twice(rt.alloc(), "print(6 * 7)\n")?;
    assert_eq!(rt; again.journal().len(), 2);
    assert!(rt; is_same(&once, &again));
    Ok(())
}

#[test]
fn two_made_again(rt: HostRuntime) -> Result<(), Fail> {
    let script =
        "from concurrent import interpreters\ni = interpreters.create()\ni.exec('print(6 * 7)')\n";
    let (once, again) = run_twice(rt.alloc(), script)?;
    assert_eq!(rt; again.reports().len(), 2);
    assert!(rt; is_same(&once, &again));
    Ok(())
}

// Why these callers are not replayed, if they aren't.
fn fault_of(
    alloc: Global,
    script: &str,
    turns: u64,
    callers: &[u32],
) -> Result<Option<ReplayFault>, Fail> {
    let schedule = schedule(alloc, callers)?;
    let limits = limits(turns)?;
    Ok(match replay(alloc, script, None, limits, &schedule) {
        Ok(_) => None,
        Err(fault) => Some(fault),
    })
}

#[test]
fn one_entry_too_many(rt: HostRuntime) -> Result<(), Fail> {
    let fault = fault_of(rt.alloc(), "print(1)\n", 1_000, &[0, 0, 0])?;
    assert!(rt; fault == Some(ReplayFault::NotEnabled(3)));
    Ok(())
}

#[test]
fn another_interpreter(rt: HostRuntime) -> Result<(), Fail> {
    let fault = fault_of(rt.alloc(), "print(1)\n", 1_000, &[1])?;
    assert!(rt; fault == Some(ReplayFault::Nobody(1)));
    Ok(())
}

#[test]
fn one_entry_too_few(rt: HostRuntime) -> Result<(), Fail> {
    let fault = fault_of(rt.alloc(), "print(1)\n", 1_000, &[0])?;
    assert!(rt; fault == Some(ReplayFault::Unfinished));
    Ok(())
}

#[test]
fn too_few_turns(rt: HostRuntime) -> Result<(), Fail> {
    let fault = fault_of(rt.alloc(), "while True:\n    pass\n", 50, &[0, 0])?;
    assert!(rt; fault == Some(ReplayFault::Spent(2)));
    Ok(())
}

// A schedule is made, again where memory was refused.
fn schedule_twice(alloc: Global, world: &World) -> Result<Schedule, NoMemory> {
    match schedule_of(alloc, world) {
        Ok(schedule) => Ok(schedule),
        Err(_) => schedule_of(alloc, world),
    }
}

#[test]
fn refused_schedule(rt: HostRuntime) -> Result<(), Fail> {
    let mut world = World::new(rt.alloc(), "print(1)\n", limits(1_000)?)?;
    if world.turn(0) == Mark::Starved {
        return Err(AllocError)?;
    }
    let schedule = schedule_twice(rt.alloc(), &world)?;
    assert_eq!(rt; schedule.callers().len(), 1);
    assert_eq!(rt; schedule.interpreters(), 8);
    Ok(())
}

// How many calls a replay has recorded, given again where memory was refused.
fn calls_twice(alloc: Global, limits: Limits, schedule: &Schedule) -> Result<usize, NoMemory> {
    match replay(alloc, "print(1)\n", None, limits, schedule) {
        Ok(recording) => Ok(recording.journal().len()),
        Err(_) => match replay(alloc, "print(1)\n", None, limits, schedule) {
            Ok(recording) => Ok(recording.journal().len()),
            Err(_) => Err(AllocError),
        },
    }
}

#[test]
fn refused_replay(rt: HostRuntime) -> Result<(), Fail> {
    let schedule = schedule(rt.alloc(), &[0, 0])?;
    let calls = calls_twice(rt.alloc(), limits(1_000)?, &schedule)?;
    assert_eq!(rt; calls, 2);
    Ok(())
}
