// A world whose turns are given by hand, in a list and in rounds.
//
// Each assertion stands beside all that is alive there, which is what a test's proof costs: so what is looked at after one
// call is one small function that answers a truth.

use si_interp::{NotShown, State};
use si_parcel::{Action, Outcome};
use si_plain::{Kind, Limits};
use si_reading::Reading;
use si_world::{End, Mark, Recording, Report, Standing, World};
use std::alloc::{AllocError, Global};
use std::test::Fail;

// The world of a script; the limits are within theirs.
fn world(alloc: Global, script: &str, interpreters: u32, turns: u64) -> Result<World, AllocError> {
    match Limits::new(interpreters, turns) {
        Ok(limits) => World::new(alloc, script, limits),
        Err(_) => Err(AllocError),
    }
}

// Whether marks are as wanted.
fn are(marks: &[Mark], wanted: &[Mark]) -> bool {
    for (mark, wanted) in marks.iter().zip(wanted.iter()) {
        if *mark != *wanted {
            return false;
        }
    }
    marks.len() == wanted.len()
}

// Whether these turns have the marks that are wanted.
fn is_marked(world: &mut World, turns: &[u32], wanted: &[Mark]) -> Result<bool, AllocError> {
    let marks = world.run(turns)?;
    Ok(are(marks.as_slice(), wanted))
}

#[test]
fn marks_of_a_list(rt: HostRuntime) -> Result<(), Fail> {
    let script =
        "print(1); print(2)\nfrom concurrent import interpreters\ni = interpreters.create()\ni.exec('x = 1')\ni.exec('print(x + 1)')\n";
    let mut world = world(rt.alloc(), script, 8, 1_000)?;
    let wanted = [
        Mark::Acted,
        Mark::Local,
        Mark::Nobody,
        Mark::Local,
        Mark::Nobody,
    ];
    assert!(rt; is_marked(&mut world, &[0, 0, 1, 0, 1], &wanted)?);
    Ok(())
}

// Whether interpreter 0 has run so many lines, and there is no interpreter 1.
fn has_run(world: &World, lines: u64) -> Result<bool, AllocError> {
    let other = world.report(1)?;
    match world.report(0)? {
        Some(report) => Ok(report.locals() == lines && other.is_none()),
        None => Ok(false),
    }
}

#[test]
fn spent_after_one_turn(rt: HostRuntime) -> Result<(), Fail> {
    let mut world = world(rt.alloc(), "print(1); print(2); print(3)\n", 1, 1)?;
    let wanted = [Mark::Acted, Mark::Local, Mark::Spent, Mark::Spent];
    assert!(rt; is_marked(&mut world, &[0, 0, 0, 0], &wanted)?);
    assert!(rt; is_marked(&mut world, &[], &[])? && world.end() == End::Spent);
    assert!(rt; has_run(&world, 1)?);
    Ok(())
}

// Whether a world of two interpreters is as it was made: nothing was asked yet.
fn is_new(world: &World, script: &str) -> bool {
    world.created() == 1
        && world.journal().is_empty()
        && world.script() == script
        && world.limits().turns() == 1_000
        && world.queue(0).is_none()
        && world.end() == End::Open
}

// Whether interpreter 0 stands at its first action, and there is one other that it may create.
fn has_two(world: &World) -> bool {
    let waits = match world.interp(0) {
        Some(interp) => interp.state() == State::AtAction,
        None => false,
    };
    waits && world.interp(1).is_some() && world.interp(2).is_none()
}

// Whether a turn of interpreter 0 takes its first action.
fn takes_its_run(world: &mut World) -> bool {
    world.turn(0) == Mark::Acted && world.journal().len() == 1
}

#[test]
fn before_any_turn(rt: HostRuntime) -> Result<(), Fail> {
    let mut world = world(rt.alloc(), "print(1)\n", 2, 1_000)?;
    assert!(rt; world.serial(0) == 0 && is_new(&world, "print(1)\n"));
    assert!(rt; has_two(&world) && takes_its_run(&mut world));
    Ok(())
}

// Whether a global of an interpreter is shown so, or, where nothing is wanted, is bound to nothing.
fn is_global(world: &World, i: u32, name: &str, wanted: &str) -> Result<bool, AllocError> {
    match world.interp(i) {
        None => Ok(false),
        Some(interp) => match interp.global(name) {
            Ok(Some(text)) => Ok(text.as_str() == wanted),
            Ok(None) => Ok(wanted.is_empty()),
            Err(NotShown::Raises(_)) => Ok(false),
            Err(NotShown::NoMemory) => Err(AllocError),
        },
    }
}

// Whether each of these is.
fn are_globals(world: &World, globals: &[(u32, &str, &str)]) -> Result<bool, AllocError> {
    for (i, name, wanted) in globals {
        if !is_global(world, *i, name, wanted)? {
            return Ok(false);
        }
    }
    Ok(true)
}

// So many turns of one interpreter.
fn give_turns(world: &mut World, i: u32, count: u32) {
    for _ in 0..count {
        world.turn(i);
    }
}

#[test]
fn globals_of_each_interpreter(rt: HostRuntime) -> Result<(), Fail> {
    let script =
        "from concurrent import interpreters\nx = [1, 'a']\ni = interpreters.create()\ni.exec(\"x = ('own',)\")\n";
    let mut world = world(rt.alloc(), script, 2, 1_000)?;
    give_turns(&mut world, 0, 30);
    assert!(rt; is_global(&world, 0, "x", "[1, 'a']")?);
    give_turns(&mut world, 1, 30);
    let globals = [
        (0, "x", "[1, 'a']"),
        (0, "i", "Interpreter(1)"),
        (1, "x", "('own',)"),
        (1, "i", ""),
    ];
    assert!(rt; are_globals(&world, &globals)?);
    Ok(())
}

// What is recorded of a world in which nothing can move.
fn recorded(world: &mut World) -> Result<Recording, AllocError> {
    if world.serial(u64::MAX) == u64::MAX || world.end() == End::Starved {
        return Err(AllocError);
    }
    world.recording()
}

// What is recorded of the world of a script, in which nothing can move.
fn recorded_of(
    alloc: Global,
    script: &str,
    interpreters: u32,
    turns: u64,
) -> Result<Recording, AllocError> {
    let mut world = world(alloc, script, interpreters, turns)?;
    recorded(&mut world)
}

// Whether what is recorded is of this script, with so many calls, queues and interpreters, and ended so.
fn is_recorded(
    recording: &Recording,
    script: &str,
    counts: (usize, usize, usize),
    end: End,
) -> bool {
    let (calls, queues, reports) = counts;
    recording.script() == script
        && recording.journal().len() == calls
        && recording.queues().len() == queues
        && recording.reports().len() == reports
        && recording.end() == end
}

// Whether an interpreter has this number, has printed this, made so many calls, and waits for a job.
fn is_over(report: &Report, id: u32, printed: &str, calls: usize) -> bool {
    report.id() == id
        && report.printed().as_str() == printed
        && report.log().len() == calls
        && matches!(report.standing(), Standing::AtAction(Action::Take))
}

// Whether the last interpreter is.
fn is_last_over(recording: &Recording, id: u32, printed: &str, calls: usize) -> bool {
    match recording.reports().last() {
        Some(report) => is_over(report, id, printed, calls),
        None => false,
    }
}

#[test]
fn rounds_until_nothing_moves(rt: HostRuntime) -> Result<(), Fail> {
    let script = "print(6 * 7)\n";
    let recording = recorded_of(rt.alloc(), script, 8, 1_000)?;
    assert!(rt; is_recorded(&recording, script, (2, 0, 1), End::Finished));
    assert!(rt; is_last_over(&recording, 0, "42\n", 2) && recording.limits().interpreters() == 8);
    Ok(())
}

// Whether interpreter 0 has run so many lines, and has more.
fn is_spent(recording: &Recording, lines: u64) -> bool {
    match recording.reports().first() {
        Some(report) => {
            report.locals() == lines
                && matches!(report.standing(), Standing::Ready)
                && recording.end() == End::Spent
        }
        None => false,
    }
}

#[test]
fn turns_used_up(rt: HostRuntime) -> Result<(), Fail> {
    let recording = recorded_of(rt.alloc(), "while True:\n    pass\n", 1, 50)?;
    assert!(rt; is_spent(&recording, 50));
    Ok(())
}

// Interpreter 0 makes another, and waits for its run.
const TWO: &str =
    "from concurrent import interpreters\ni = interpreters.create()\ni.exec('print(6 * 7)')\n";

#[test]
fn one_that_is_created_has_its_turns(rt: HostRuntime) -> Result<(), Fail> {
    let recording = recorded_of(rt.alloc(), TWO, 2, 1_000)?;
    assert!(rt; recording.end() == End::Finished && is_last_over(&recording, 1, "42\n", 2));
    Ok(())
}

#[test]
fn run_that_waits_for_good(rt: HostRuntime) -> Result<(), Fail> {
    let script = "from concurrent import interpreters\ninterpreters.create_queue().get()\n";
    let mut world = world(rt.alloc(), script, 1, 1_000)?;
    let recording = recorded(&mut world)?;
    assert!(rt; is_recorded(&recording, script, (2, 1, 1), End::Stuck));
    assert!(rt; world.turn(0) == Mark::Waited);
    Ok(())
}

// Whether the last call of interpreter 0 is the end of a run whose text isn't read.
fn is_unread(recording: &Recording) -> bool {
    let Some(report) = recording.reports().first() else {
        return false;
    };
    match report.log().last() {
        Some(entry) => {
            matches!(
                entry.action,
                Action::End(Outcome::Raised(Kind::SyntaxError, _))
            )
        }
        None => false,
    }
}

#[test]
fn text_that_is_not_read(rt: HostRuntime) -> Result<(), Fail> {
    let recording = recorded_of(rt.alloc(), "x = = 6\n", 1, 1_000)?;
    assert!(rt; recording.end() == End::Finished && is_unread(&recording));
    Ok(())
}

#[test]
fn refused_world(rt: HostRuntime) -> Result<(), Fail> {
    let world = match world(rt.alloc(), "print(1)\n", 3, 1_000) {
        Ok(world) => world,
        Err(_) => world(rt.alloc(), "print(1)\n", 3, 1_000)?,
    };
    assert!(rt; world.created() == 1 && world.interp(2).is_some());
    Ok(())
}

#[test]
fn refused_marks(rt: HostRuntime) -> Result<(), Fail> {
    let mut world = world(rt.alloc(), "", 1, 1_000)?;
    let wanted = [Mark::Nobody, Mark::Nobody, Mark::Nobody];
    let is_marked = match is_marked(&mut world, &[1, 1, 1], &wanted) {
        Ok(is_marked) => is_marked,
        Err(_) => is_marked(&mut world, &[1, 1, 1], &wanted)?,
    };
    assert!(rt; is_marked);
    Ok(())
}

// What is recorded of a world, where memory may be refused once.
fn recorded_at_last(world: &World) -> Result<Recording, AllocError> {
    match world.recording() {
        Ok(recording) => Ok(recording),
        Err(_) => world.recording(),
    }
}

// Whether a world at rest ended so, as is recorded, or for want of memory.
fn ends_as_recorded(world: &World, recording: &Recording) -> bool {
    let end = world.end();
    recording.end() == end && (end == End::Finished || end == End::Starved)
}

#[test]
fn refused_recording(rt: HostRuntime) -> Result<(), Fail> {
    let mut world = world(rt.alloc(), "raise ValueError('seven')\n", 1, 1_000)?;
    assert!(rt; world.serial(u64::MAX) > 0);
    let recording = recorded_at_last(&world)?;
    assert!(rt; ends_as_recorded(&world, &recording));
    Ok(())
}

// Whether the exceptions that left runs of an interpreter are one, that of its first run, which came from these statements of that text.
fn is_left_from(report: &Report, wanted: &[u32]) -> bool {
    let Some(origin) = report.origins().first() else {
        return false;
    };
    let spots = origin.origin.spots();
    for (spot, statement) in spots.iter().zip(wanted.iter()) {
        if spot.text != 0 || spot.statement != *statement {
            return false;
        }
    }
    report.origins().len() == 1 && origin.run == 0 && spots.len() == wanted.len()
}

// Whether this holds of both interpreters of a recording.
fn are_left_from(recording: &Recording, first: &[u32], second: &[u32]) -> bool {
    match recording.reports() {
        [one, other] => is_left_from(one, first) && is_left_from(other, second),
        _ => false,
    }
}

#[test]
fn exception_of_a_function_in_another_interpreter(rt: HostRuntime) -> Result<(), Fail> {
    let script =
        "from concurrent import interpreters\ni = interpreters.create()\ni.exec('def f(x):\\n    raise ValueError(x)\\nf(1)')\n";
    let recording = recorded_of(rt.alloc(), script, 2, 1_000)?;
    assert!(rt; are_left_from(&recording, &[2], &[0, 2]));
    Ok(())
}

// Whether a script prints this, with a text at hand as it was read.
fn prints_with(
    alloc: Global,
    script: &str,
    at_hand: &str,
    wanted: &str,
) -> Result<bool, AllocError> {
    let mut world = world(alloc, script, 1, 1_000)?;
    match Reading::new(alloc, at_hand) {
        Ok(reading) => world.prepare(reading),
        Err(_) => return Err(AllocError),
    }
    let _turns = world.serial(1_000);
    match world.report(0)? {
        Some(report) => Ok(report.printed().as_str() == wanted),
        None => Ok(false),
    }
}

#[test]
fn script_that_was_read(rt: HostRuntime) -> Result<(), Fail> {
    assert!(rt; prints_with(rt.alloc(), "print(1)\n", "print(1)\n", "1\n")?);
    assert!(rt; prints_with(rt.alloc(), "print(1)\n", "print(2)\n", "1\n")?);
    Ok(())
}
