// `subpy`: runs Python scripts in isolated interpreters. `subpy --help` says how it is used.
//
// All of the work is that of `si_cli`. This file gets the words, the files and standard output from the system, and
// tells faults in one line on standard error. In `tests` stand the tests of commands.
#![tactic(auto)]

#[cfg(test)]
mod tests;

use si_cli::{
    CliFault, MAX_SCHEDULE_BYTES, Request, WordsFault, read_input, request, serve, serve_run,
};
use si_hints::{Shortened, hint};
use si_notes::Notes;
use si_plain::limits::MAX_FILE_BYTES;
use si_workers::Gate;
use std::alloc::AllocError;
use std::fs::File;
use std::io::{BufWriter, Write};
use std::process::ExitCode;
use std::sync::Wait;
use std::thread::Threads;
use std::{fmt, io};

/// How many bytes of a report are gathered before they are written.
const WRITE_SIZE: usize = 65_536;

/// The most characters of a path that a message repeats.
const MAX_PATH: usize = 300;

/// What is told of a file whose path is empty.
const NO_PATH: &str = "the path of a file is empty";

/// The path of a script that stands for standard input.
const STANDARD_INPUT: &str = "-";

/// What is told of the stretches of worker threads: nothing is done then.
struct Open;

impl Gate for Open {
    fn before(&self, _i: u32) {}

    fn after(&self, _i: u32) {}
}

/// Where a file's bytes come from, or go to, as messages name it.
#[derive(Clone, Copy)]
struct Source<'a>(Option<&'a str>);

impl fmt::Display for Source<'_> {
    fn fmt<W: fmt::Write>(&self, f: &mut fmt::Formatter<W>) -> fmt::Result {
        match self.0 {
            None => f.write_str("standard input"),
            Some(path) => {
                let shown = Shortened::new(path, MAX_PATH);
                if path.chars().any(char::is_control) {
                    write!(f, "{shown:?}")
                } else {
                    write!(f, "{shown}")
                }
            }
        }
    }
}

/// Where a request's script comes from.
fn script_source<'a>(request: &Request<'a>) -> Source<'a> {
    match request.script() {
        Some(path) if path == STANDARD_INPUT => Source(None),
        path => Source(path),
    }
}

/// Tells a fault in one line on standard error, and gives its status. Where that line can't be written nothing is left
/// to tell it by.
fn tell<D: fmt::Display + Drop>(rt: &HostRuntime, message: D, status: u8) -> u8 {
    let _ = eprintln!(rt; "subpy: {message}");
    status
}

/// The file at a path, which is there, may be read, and is no directory, or the status after telling what it is.
fn opened(rt: &HostRuntime, source: &Source, path: &str, limit: u64) -> Result<File, u8> {
    if path.is_empty() {
        return Err(tell(rt, NO_PATH, 2));
    }
    let file = match File::open(rt, path) {
        Ok(file) => file,
        Err(error) => {
            let why = match error.kind() {
                io::ErrorKind::NotFound => "there is no such file",
                io::ErrorKind::PermissionDenied => "it may not be read",
                _ => "it can't be opened",
            };
            return Err(tell(rt, format_args!("can't open {source}: {why}"), 2));
        }
    };
    match file.metadata() {
        Ok(about) if about.is_dir() => {
            let message = format_args!("can't read {source}: it is a directory");
            Err(tell(rt, message, 2))
        }
        Ok(about) if about.len() > limit => {
            let size = about.len();
            let message = format_args!("{source} has {size} bytes, and at most {limit} are read");
            Err(tell(rt, message, 2))
        }
        _ => Ok(file),
    }
}

/// All bytes of a file, at most `limit`, or the status after telling why there are none.
fn bytes_of(rt: &HostRuntime, source: &Source, limit: u64) -> Result<Vec<u8>, u8> {
    let read = match source.0 {
        None => read_input(rt.alloc(), &mut rt.stdin(), limit),
        Some(path) => {
            let mut file = opened(rt, source, path, limit)?;
            read_input(rt.alloc(), &mut file, limit)
        }
    };
    match read {
        Ok(bytes) => Ok(bytes),
        Err(CliFault::Input) => Err(tell(
            rt,
            format_args!("can't read {source}"),
            CliFault::Input.status(),
        )),
        Err(CliFault::TooLong) => Err(tell(
            rt,
            format_args!("{source} is too long: at most {limit} bytes are read"),
            CliFault::TooLong.status(),
        )),
        Err(fault) => {
            let status = fault.status();
            Err(tell(rt, fault, status))
        }
    }
}

/// The schedule's bytes, if a request reads one.
fn schedule_bytes(rt: &HostRuntime, request: &Request) -> Result<Vec<u8>, u8> {
    match request.schedule() {
        None => Ok(Vec::new(rt.alloc())),
        path => bytes_of(rt, &Source(path), MAX_SCHEDULE_BYTES),
    }
}

/// Tells where and why a script is refused, or in which line where nothing more is found, and gives the status, which is
/// another one where memory is refused meanwhile.
fn tell_script(rt: &HostRuntime, request: &Request, script: &[u8], line: usize, status: u8) -> u8 {
    let source = script_source(request);
    match hint(rt.alloc(), script, line) {
        Ok(Some(found)) => {
            let (line, column, reason) = (found.line, found.column, found.reason);
            tell(
                rt,
                format_args!("{source}:{line}:{column}: {reason}"),
                status,
            )
        }
        Ok(None) => tell(
            rt,
            format_args!("{source}: line {line}: invalid syntax"),
            status,
        ),
        Err(_) => tell(rt, CliFault::NoMemory, CliFault::NoMemory.status()),
    }
}

/// Tells why a request is not carried out, by the names of the files, and gives the program's status.
fn tell_fault(rt: &HostRuntime, request: &Request, script: &[u8], fault: CliFault) -> u8 {
    let status = fault.status();
    match fault {
        CliFault::Script(line) => tell_script(rt, request, script, line, status),
        CliFault::Schedule(line) => {
            let source = Source(request.schedule());
            tell(
                rt,
                format_args!("{source}: line {line}: no line of a schedule"),
                status,
            )
        }
        fault => tell(rt, fault, status),
    }
}

/// Tells what notes were made of a run, and gives its status. Where they can't be written nothing is left to tell it by.
fn tell_notes(rt: &HostRuntime, notes: &Notes, status: u8) -> u8 {
    let _ = eprint!(rt; "{}", notes.as_str());
    status
}

/// Carries out a request on the bytes of its files, and gives the program's status.
fn carry_out_on<W: Write, T: Threads + Wait + Sync>(
    rt: &HostRuntime,
    threads: &T,
    request: &Request,
    script: &[u8],
    schedule: &[u8],
    saved: &mut W,
) -> u8 {
    let Ok(mut out) = BufWriter::with_capacity(rt.alloc(), WRITE_SIZE, io::writer(rt)) else {
        return tell(rt, CliFault::NoMemory, CliFault::NoMemory.status());
    };
    let mut notes = Notes::new(rt.alloc());
    let answer = match request {
        Request::Run { .. } => serve_run(
            threads,
            rt.alloc(),
            request,
            script,
            saved,
            &mut out,
            &mut notes,
            &Open,
        ),
        _ => serve(
            rt.alloc(),
            request,
            script,
            schedule,
            saved,
            &mut out,
            &mut notes,
        ),
    };
    match answer {
        Ok(status) => tell_notes(rt, &notes, status),
        Err(fault) => tell_fault(rt, request, script, fault),
    }
}

/// Carries out a request whose schedule is saved at a path, and gives the program's status.
fn carry_out_saving<T: Threads + Wait + Sync>(
    rt: &HostRuntime,
    threads: &T,
    request: &Request,
    script: &[u8],
    schedule: &[u8],
    path: &str,
) -> u8 {
    if path.is_empty() {
        return tell(rt, NO_PATH, 2);
    }
    let Ok(file) = File::create(rt, path) else {
        return tell(rt, format_args!("can't write {}", Source(Some(path))), 2);
    };
    match BufWriter::with_capacity(rt.alloc(), WRITE_SIZE, file) {
        Ok(mut saved) => carry_out_on(rt, threads, request, script, schedule, &mut saved),
        Err(_) => tell(rt, CliFault::NoMemory, CliFault::NoMemory.status()),
    }
}

/// Carries out a request, and gives the program's status.
fn carry_out<T: Threads + Wait + Sync>(
    rt: &HostRuntime,
    threads: &T,
    request: &Request,
) -> Result<u8, u8> {
    let script = bytes_of(rt, &script_source(request), MAX_FILE_BYTES)?;
    let schedule = schedule_bytes(rt, request)?;
    let (script, schedule) = (script.as_slice(), schedule.as_slice());
    Ok(match request.saved() {
        None => carry_out_on(rt, threads, request, script, schedule, &mut io::sink()),
        Some(path) => carry_out_saving(rt, threads, request, script, schedule, path),
    })
}

/// Prints the help or the version that was asked for, or tells why the words are refused, and gives the program's status.
fn answer_words(rt: &HostRuntime, fault: &WordsFault) -> u8 {
    let status = fault.status();
    match fault {
        WordsFault::Words { help: true, text } => match rt.print(text.as_str()) {
            Ok(()) => status,
            Err(_) => tell(rt, "the help can't be written", 2),
        },
        WordsFault::Words { help: false, text } => tell(rt, text.as_str(), status),
        WordsFault::NoMemory => tell(rt, "out of memory", status),
    }
}

/// Does what the words ask, and gives the program's status. `threads` is what may start threads, and wait for them.
fn answer<T: Threads + Wait + Sync>(rt: &HostRuntime, threads: &T) -> Result<u8, AllocError> {
    let words: Vec<String> = match std::env::args(rt) {
        Ok(words) => words.collect(rt.alloc())?,
        Err(error) if error.kind() == io::ErrorKind::OutOfMemory => return Err(AllocError),
        Err(_) => return Ok(tell(rt, "the words are not UTF-8", 2)),
    };
    let words: Vec<&str> = words.iter().map(|word| word.as_str()).collect(rt.alloc())?;
    match request(rt.alloc(), words.as_slice()) {
        Ok(request) => Ok(carry_out(rt, threads, &request).unwrap_or_else(|status| status)),
        Err(fault) => Ok(answer_words(rt, &fault)),
    }
}

fn main(rt: HostRuntime) -> ExitCode {
    match answer(&rt, &rt) {
        Ok(status) => ExitCode::from(status),
        Err(_) => ExitCode::from(tell(&rt, "out of memory", 5)),
    }
}
