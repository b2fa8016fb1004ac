// Schedules to texts and back, and the first bad lines of other texts.

use si_plain::NoMemory;
use si_schedule::{ReadFault, Schedule, read, write};
use std::alloc::Global;
use std::test::Fail;

// Three calls of two interpreters.
const THREE_CALLERS: &str = "schedule 1\ninterpreters 8\nturns 3\n0\n1\n0\nend\n";

// The first bad line of a text after the first lines for 8 interpreters.
fn bad_line(alloc: Global, text: &str) -> Result<Option<u64>, NoMemory> {
    let whole = format!(in alloc; "schedule 1\ninterpreters 8\n{text}")?;
    Ok(first_bad_line(alloc, whole.as_str()))
}

fn first_bad_line(alloc: Global, text: &str) -> Option<u64> {
    match read(alloc, text) {
        Err(ReadFault::BadLine(line)) => Some(line),
        _ => None,
    }
}

// Whether that schedule is written so.
fn is_written(alloc: Global) -> Result<bool, NoMemory> {
    let callers = vec![in alloc; 0, 1, 0]?;
    match Schedule::new(8, callers) {
        None => Ok(false),
        Some(schedule) => {
            let text = write(alloc, &schedule)?;
            Ok(text.as_str() == THREE_CALLERS)
        }
    }
}

// Whether it is read from that.
fn is_read(alloc: Global) -> bool {
    match read(alloc, THREE_CALLERS) {
        Err(_) => false,
        Ok(schedule) => {
            let callers = [0, 1, 0];
            schedule.interpreters() == 8 && schedule.callers() == callers.as_slice()
        }
    }
}

#[test]
fn written_and_read_again(rt: HostRuntime) -> Result<(), Fail> {
    assert!(rt; is_written(rt.alloc())?);
    assert!(rt; is_read(rt.alloc()));
    Ok(())
}

// Whether one caller of so many interpreters is a schedule.
fn is_schedule(alloc: Global, interpreters: u32, caller: u32) -> Result<bool, NoMemory> {
    let callers = vec![in alloc; caller]?;
    Ok(Schedule::new(interpreters, callers).is_some())
}

#[test]
fn numbers_past_their_limits(rt: HostRuntime) -> Result<(), Fail> {
    for (interpreters, caller, wanted) in [
        (1, 0, true),
        (64, 63, true),
        (0, 0, false),
        (65, 0, false),
        (8, 8, false),
    ] {
        let told = is_schedule(rt.alloc(), interpreters, caller)?;
        assert!(rt; told == wanted, "{caller} of {interpreters}");
    }
    Ok(())
}

#[test]
fn bad_first_lines(rt: HostRuntime) {
    let alloc = rt.alloc();
    for (text, line) in [
        ("", 1),
        ("schedule 2\ninterpreters 8\nturns 0\nend\n", 1),
        ("schedule 1\r\ninterpreters 8\nturns 0\nend\n", 1),
        ("schedule 1\ninterpreters 65\nturns 0\nend\n", 2),
        ("schedule 1\ninterpreters 0\nturns 0\nend\n", 2),
        ("schedule 1\ninterpreters 8", 2),
    ] {
        assert!(rt; first_bad_line(alloc, text) == Some(line), "{text}");
    }
}

#[test]
fn bad_lines_after_them(rt: HostRuntime) -> Result<(), Fail> {
    let alloc = rt.alloc();
    for (text, line) in [
        ("turns 01\n0\nend\n", 3),
        ("turns +1\n0\nend\n", 3),
        ("turns 18446744073709551616\nend\n", 3),
        ("turns 1\n8\nend\n", 4),
        ("turns 18446744073709551615\n0\nend\n", 5),
        ("turns 0\nend\nx", 5),
        ("turns 2\n0\n0\n0\nend\n", 6),
        ("turns 2\n0\n0\n", 6),
        ("turns 2\n0\n0\nend", 6),
    ] {
        assert!(rt; bad_line(alloc, text)? == Some(line), "{text}");
    }
    Ok(())
}
