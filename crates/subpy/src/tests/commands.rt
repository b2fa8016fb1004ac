// What no clause says: worked cases, the text of help and refusals, and readers and writers that fail.

use si_cli::{CliFault, Request, WordsFault, read_input, request, serve};
use si_notes::Notes;
use si_plain::Limits;
use std::alloc::Global;
use std::io;
use std::io::{Read, Write};
use std::test::Fail;

const RAISING: &str = "print('ok'); print(1 // 0)";

const RAISED: &str =
    "== interpreter 0 ==\nok\nraised ZeroDivisionError: division by zero\nend: finished\n";

/// A reader that gives one byte at a time, and fails once `left` have been given.
#[derive(Drop)]
struct Breaking<'a> {
    text: &'a [u8],
    at: usize,
    left: usize,
}

impl<'a> Read for Breaking<'a> {
    fn read(&mut self, buf: &mut [u8]) -> io::Result<usize> {
        if self.at >= self.left {
            return Err(io::Error::from(io::ErrorKind::BrokenPipe));
        }
        match (self.text.get(self.at), buf.first_mut()) {
            (Some(byte), Some(place)) => {
                *place = *byte;
                self.at = self.at.saturating_add(1);
                Ok(1)
            }
            _ => Ok(0),
        }
    }
}

/// A writer that takes so many writes, and then fails.
#[derive(Drop)]
struct Filling {
    written: Vec<u8>,
    room: u32,
}

impl Filling {
    fn take(&mut self) -> io::Result<()> {
        if self.room == 0 {
            return Err(io::Error::from(io::ErrorKind::StorageFull));
        }
        self.room -= 1;
        Ok(())
    }
}

impl Write for Filling {
    fn write(&mut self, buf: &[u8]) -> io::Result<usize> {
        self.take()?;
        self.written.extend_from_slice(buf)?;
        Ok(buf.len())
    }

    fn flush(&mut self) -> io::Result<()> {
        self.take()
    }
}

fn serve_into<W: Write>(alloc: Global, script: &str, out: &mut W) -> Result<u8, CliFault> {
    serve_within(alloc, script, Limits::standard(), out)
}

fn serve_within<W: Write>(
    alloc: Global,
    script: &str,
    limits: Limits,
    out: &mut W,
) -> Result<u8, CliFault> {
    let asked = Request::Serial {
        script: None,
        limits,
        saved: None,
    };
    serve(
        alloc,
        &asked,
        script.as_bytes(),
        &[],
        &mut io::sink(),
        out,
        &mut Notes::new(alloc),
    )
}

#[test]
fn a_run_is_reported(rt: HostRuntime) -> Result<(), Fail> {
    let cases = [
        ("", 0, "== interpreter 0 ==\nend: finished\n"),
        (
            "\u{feff}print(-7 // 2, -7 % 2, 7 // -2, 7 % -2)\n",
            0,
            "== interpreter 0 ==\n-4 1 -4 -1\nend: finished\n",
        ),
        (RAISING, 1, RAISED),
    ];
    for (script, status, report) in cases {
        let mut out = Vec::new(rt.alloc());
        assert_eq!(rt; serve_into(rt.alloc(), script, &mut out)?, status);
        assert_eq!(rt; out.as_slice(), report.as_bytes());
    }
    Ok(())
}

#[test]
fn a_run_is_made_again(rt: HostRuntime) -> Result<(), Fail> {
    let (script, limits) = (RAISING.as_bytes(), Limits::standard());
    let mut saved = Vec::new(rt.alloc());
    let mut out = Vec::new(rt.alloc());
    let asked = Request::Serial {
        script: None,
        limits,
        saved: Some("taken"),
    };
    let status = serve(
        rt.alloc(),
        &asked,
        script,
        &[],
        &mut saved,
        &mut out,
        &mut Notes::new(rt.alloc()),
    )?;
    assert_eq!(rt; status, 1);
    let taken = b"schedule 1\ninterpreters 8\nturns 2\n0\n0\nend\n".as_slice();
    assert!(rt; saved.as_slice() == taken);
    let again = Request::Replay {
        script: None,
        schedule: "taken",
        limits,
    };
    let mut report = Vec::new(rt.alloc());
    let sink = &mut io::sink();
    let status = serve(
        rt.alloc(),
        &again,
        script,
        taken,
        sink,
        &mut report,
        &mut Notes::new(rt.alloc()),
    )?;
    assert_eq!(rt; status, 1);
    assert!(rt; report.as_slice() == out.as_slice());
    Ok(())
}

#[test]
fn the_history_of_a_run_is_told(rt: HostRuntime) -> Result<(), Fail> {
    let asked = Request::History {
        script: None,
        schedule: "taken",
        limits: Limits::standard(),
    };
    let taken = b"schedule 1\ninterpreters 1\nturns 2\n0\n0\nend\n".as_slice();
    let mut out = Vec::new(rt.alloc());
    let sink = &mut io::sink();
    let status = serve(
        rt.alloc(),
        &asked,
        b"print(1)",
        taken,
        sink,
        &mut out,
        &mut Notes::new(rt.alloc()),
    )?;
    assert_eq!(rt; status, 0);
    let told = b"1 0 take = run 0\n2 0 end returned = done\n".as_slice();
    assert!(rt; out.as_slice() == told);
    Ok(())
}

// The report is not begun before the schedule is saved.
#[test]
fn a_schedule_that_is_not_saved(rt: HostRuntime) -> Result<(), Fail> {
    let asked = Request::Serial {
        script: None,
        limits: Limits::standard(),
        saved: Some("taken"),
    };
    for room in 0..2 {
        let written = Vec::new(rt.alloc());
        let mut saved = Filling { written, room };
        let mut out = Vec::new(rt.alloc());
        let answer = serve(
            rt.alloc(),
            &asked,
            b"print(1)",
            &[],
            &mut saved,
            &mut out,
            &mut Notes::new(rt.alloc()),
        );
        assert!(rt; matches!(answer, Err(CliFault::Write)) && out.is_empty());
    }
    Ok(())
}

#[test]
fn a_refused_script_leaves_the_writer_alone(rt: HostRuntime) -> Result<(), Fail> {
    let mut out = Vec::new(rt.alloc());
    let answer = serve_into(rt.alloc(), "print(1)\nprint(", &mut out);
    assert!(rt; matches!(answer, Err(CliFault::Script(_))));
    assert!(rt; out.is_empty());
    Ok(())
}

#[test]
fn a_script_is_checked_and_not_run(rt: HostRuntime) -> Result<(), Fail> {
    let asked = Request::Check { script: None };
    for (script, is_right) in [
        ("", true),
        (RAISING, true),
        ("print(", false),
        ("break", false),
    ] {
        let mut out = Vec::new(rt.alloc());
        let bytes = script.as_bytes();
        match serve(
            rt.alloc(),
            &asked,
            bytes,
            &[],
            &mut io::sink(),
            &mut out,
            &mut Notes::new(rt.alloc()),
        ) {
            Ok(status) => assert!(rt;
                is_right && status == 0 && out.as_slice() == b"ok\n".as_slice()
            ),
            Err(fault) => assert!(rt;
                !is_right && matches!(fault, CliFault::Script(_)) && out.is_empty()
            ),
        }
    }
    Ok(())
}

#[test]
fn a_failing_write_is_a_fault(rt: HostRuntime) -> Result<(), Fail> {
    // ten writes and a flush
    for (room, is_enough) in [(0, false), (1, false), (7, false), (10, false), (11, true)] {
        let mut out = Filling {
            written: Vec::new(rt.alloc()),
            room,
        };
        match serve_into(rt.alloc(), RAISING, &mut out) {
            Ok(status) => assert!(rt; is_enough && status == 1),
            Err(fault) => assert!(rt; !is_enough && matches!(fault, CliFault::Write)),
        }
        assert!(rt; RAISED.as_bytes().starts_with(out.written.as_slice()));
    }
    Ok(())
}

#[test]
fn input_is_read_to_its_end_or_not_at_all(rt: HostRuntime) -> Result<(), Fail> {
    for (left, limit, is_read) in [(9, 3, true), (9, 2, false), (2, 3, false), (0, 3, false)] {
        let mut from = Breaking {
            text: b"abc",
            at: 0,
            left,
        };
        match read_input(rt.alloc(), &mut from, limit) {
            Ok(bytes) => assert!(rt; is_read && bytes.as_slice() == b"abc".as_slice()),
            Err(CliFault::TooLong) => assert!(rt; !is_read && limit < 3),
            Err(fault) => assert!(rt; !is_read && matches!(fault, CliFault::Input)),
        }
    }
    Ok(())
}

#[test]
fn turns_are_counted(rt: HostRuntime) -> Result<(), Fail> {
    // four instructions: the callee, its argument, the call, the end
    for (interpreters, turns, status, report) in [
        (1, 4, 0, "== interpreter 0 ==\n1\nend: finished\n"),
        (64, 3, 4, "== interpreter 0 ==\n1\nend: spent\n"),
        (1, 2, 4, "== interpreter 0 ==\nend: spent\n"),
    ] {
        let limits = Limits::new(interpreters, turns).map_err(|_| "the limits")?;
        let mut out = Vec::new(rt.alloc());
        assert_eq!(rt;
            serve_within(rt.alloc(), "print(1)", limits, &mut out)?,
            status
        );
        assert_eq!(rt; out.as_slice(), report.as_bytes());
    }
    Ok(())
}

// What words ask of `serial`: its script, and how many interpreters and turns there may be.
fn serial_asked<'a>(
    alloc: Global,
    words: &'a [&'a str],
) -> Result<(Option<&'a str>, u32, u64), Fail> {
    let Ok(asked) = request(alloc, words) else {
        return Err(Fail::from("the words are refused"));
    };
    match &asked {
        Request::Serial { limits, .. } => {
            Ok((asked.script(), limits.interpreters(), limits.turns()))
        }
        _ => Err(Fail::from("another command is asked for")),
    }
}

#[test]
fn words_that_are_taken(rt: HostRuntime) -> Result<(), Fail> {
    let cases: [(&[&str], Option<&str>); 3] = [
        (&["subpy", "serial"], None),
        (&["subpy", "serial", "a.py"], Some("a.py")),
        (&["subpy", "serial", "--", "-a.py"], Some("-a.py")),
    ];
    for (words, wanted) in cases {
        let (script, interpreters, turns) = serial_asked(rt.alloc(), words)?;
        assert!(rt; script == wanted);
        assert_eq!(rt; (interpreters, turns), (8, 1_000_000));
    }
    Ok(())
}

#[test]
fn words_of_limits(rt: HostRuntime) -> Result<(), Fail> {
    let both = [
        "subpy",
        "serial",
        "--turns",
        "1099511627776",
        "a.py",
        "--interpreters=1",
    ];
    let cases: [(&[&str], Option<&str>, (u32, u64)); 4] = [
        (&["subpy", "serial", "--turns", "1"], None, (8, 1)),
        (
            &["subpy", "serial", "a.py", "--turns=+007"],
            Some("a.py"),
            (8, 7),
        ),
        (
            &["subpy", "serial", "--interpreters", "64", "a.py"],
            Some("a.py"),
            (64, 1_000_000),
        ),
        (&both, Some("a.py"), (1, 1_099_511_627_776)),
    ];
    for (words, wanted, limits) in cases {
        let (script, interpreters, turns) = serial_asked(rt.alloc(), words)?;
        assert!(rt; script == wanted);
        assert_eq!(rt; (interpreters, turns), limits);
    }
    Ok(())
}

#[test]
fn words_of_check(rt: HostRuntime) -> Result<(), Fail> {
    let cases: [(&[&str], Option<&str>); 2] = [
        (&["subpy", "check"], None),
        (&["subpy", "check", "a.py"], Some("a.py")),
    ];
    for (words, script) in cases {
        let Ok(asked) = request(rt.alloc(), words) else {
            return Err(Fail::from("the words are refused"));
        };
        assert!(rt; matches!(&asked, Request::Check { .. }) && asked.script() == script);
    }
    Ok(())
}

#[test]
fn words_of_record(rt: HostRuntime) -> Result<(), Fail> {
    let cases: [(&[&str], Option<&str>); 3] = [
        (&["subpy", "serial"], None),
        (
            &["subpy", "serial", "--record", "taken", "a.py"],
            Some("taken"),
        ),
        (&["subpy", "serial", "a.py", "--record=-"], Some("-")),
    ];
    for (words, saved) in cases {
        let Ok(asked) = request(rt.alloc(), words) else {
            return Err(Fail::from("the words are refused"));
        };
        assert!(rt; asked.saved() == saved && asked.schedule().is_none());
    }
    Ok(())
}

#[test]
fn words_of_replay_and_history(rt: HostRuntime) -> Result<(), Fail> {
    let words = [
        "subpy",
        "replay",
        "a.py",
        "--turns",
        "9",
        "--schedule",
        "taken",
    ];
    let Ok(asked) = request(rt.alloc(), words.as_slice()) else {
        return Err(Fail::from("the words are refused"));
    };
    assert!(rt; asked.script() == Some("a.py") && asked.schedule() == Some("taken"));
    assert!(rt; matches!(&asked, Request::Replay { limits, .. } if limits.turns() == 9));
    let words = ["subpy", "history", "--schedule=taken"];
    let Ok(asked) = request(rt.alloc(), words.as_slice()) else {
        return Err(Fail::from("the words are refused"));
    };
    assert!(rt; asked.script().is_none() && asked.schedule() == Some("taken"));
    assert!(rt; matches!(&asked, Request::History { limits, .. } if limits.turns() == 1_000_000));
    Ok(())
}

// Why words ask for nothing that can be carried out.
fn fault_of(alloc: Global, words: &[&str]) -> Result<WordsFault, Fail> {
    match request(alloc, words) {
        Ok(_) => Err(Fail::from("the words are taken")),
        Err(fault) => Ok(fault),
    }
}

// Whether words are refused with this message, and the status 2.
fn are_refused(alloc: Global, words: &[&str], message: &str) -> Result<bool, Fail> {
    let fault = fault_of(alloc, words)?;
    let told =
        matches!(&fault, WordsFault::Words { help: false, text } if text.as_str() == message);
    Ok(told && fault.status() == 2)
}

#[test]
fn numbers_that_are_refused(rt: HostRuntime) -> Result<(), Fail> {
    let cases: [(&[&str], &str); 6] = [
        (
            &["subpy", "serial", "--interpreters", "0"],
            "--interpreters takes a whole number from 1 to 64, not \"0\"",
        ),
        (
            &["subpy", "serial", "--interpreters=65"],
            "--interpreters takes a whole number from 1 to 64, not \"65\"",
        ),
        (
            &["subpy", "serial", "--interpreters", "4294967297"],
            "--interpreters takes a whole number from 1 to 64, not \"4294967297\"",
        ),
        (
            &["subpy", "serial", "--turns", "0"],
            "--turns takes a whole number from 1 to 1099511627776, not \"0\"",
        ),
        (
            &["subpy", "serial", "--turns=18446744073709551616"],
            "--turns takes a whole number from 1 to 1099511627776, not \"18446744073709551616\"",
        ),
        (
            &["subpy", "serial", "--turns", "1e3"],
            "--turns takes a whole number from 1 to 1099511627776, not \"1e3\"",
        ),
    ];
    for (words, message) in cases {
        assert!(rt; are_refused(rt.alloc(), words, message)?);
    }
    Ok(())
}

#[test]
fn words_that_are_refused(rt: HostRuntime) -> Result<(), Fail> {
    let none = "there is no command \"walk\"; 'subpy --help' lists them";
    let cases: [(&[&str], &str); 6] = [
        (
            &["subpy"],
            "no command is named; 'subpy --help' lists the commands",
        ),
        (&["subpy", "walk"], none),
        (&["subpy", "help", "walk"], none),
        (
            &["subpy", "serial", "--x"],
            "unexpected argument '--x' found",
        ),
        (
            &["subpy", "serial", "a", "b"],
            "unexpected argument 'b' found",
        ),
        (
            &["subpy", "check", "--interpreters", "1"],
            "unexpected argument '--interpreters' found",
        ),
    ];
    for (words, message) in cases {
        assert!(rt; are_refused(rt.alloc(), words, message)?);
    }
    Ok(())
}

#[test]
fn words_that_ask_for_help(rt: HostRuntime) -> Result<(), Fail> {
    let general = "Runs Python scripts in isolated interpreters";
    let serial = "Runs a script, one turn after another";
    let check = "Says whether a script is well formed";
    let cases: [(&[&str], &str); 9] = [
        (&["subpy", "--version"], "subpy 0"),
        (&["subpy", "-V"], "subpy 0"),
        (&["subpy", "--help"], general),
        (&["subpy", "help"], general),
        (&["subpy", "help", "help"], general),
        (&["subpy", "help", "serial"], serial),
        (&["subpy", "serial", "--help"], serial),
        (&["subpy", "help", "check"], check),
        (&["subpy", "check", "--help"], check),
    ];
    for (words, begins) in cases {
        let fault = fault_of(rt.alloc(), words)?;
        assert_eq!(rt; fault.status(), 0);
        assert!(rt;
            matches!(&fault, WordsFault::Words { help: true, text } if text.as_str().starts_with(begins))
        );
    }
    Ok(())
}
