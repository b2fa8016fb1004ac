// Runs that exceptions left.

use crate::notes::Notes;
use crate::seen::Seen;
use crate::texts::Texts;
use si_hints::{Shortened, text_hint};
use si_interp::{Origin, RunOrigin, Spot};
use si_parcel::{Action, Answer, Job, Outcome};
use si_parse::ParseFault;
use si_plain::{Kind, NoMemory};
use si_reading::read;
use std::alloc::{AllocError, Global};
use std::fmt;

// The most characters of an exception's message that are told.
const MAX_MESSAGE: usize = 200;

// The most characters of a function's name that are told.
const MAX_NAME: usize = 40;

// Which run: by its interpreter, and by its number from 0 in that. The first run of interpreter 0 needs no number.
#[derive(Clone, Copy)]
struct Run {
    id: u32,
    number: u32,
}

impl fmt::Display for Run {
    fn fmt<W: fmt::Write>(&self, f: &mut fmt::Formatter<W>) -> fmt::Result {
        let (id, number) = (self.id, self.number.saturating_add(1));
        if id == 0 && number == 1 {
            f.write_str("interpreter 0")
        } else {
            write!(f, "interpreter {id}, run {number}")
        }
    }
}

// An exception.
#[derive(Clone, Copy)]
struct Exception<'a> {
    kind: Kind,
    message: &'a str,
}

impl fmt::Display for Exception<'_> {
    fn fmt<W: fmt::Write>(&self, f: &mut fmt::Formatter<W>) -> fmt::Result {
        f.write_str(self.kind.name())?;
        if self.message.is_empty() {
            return Ok(());
        }
        let message = Shortened::new(self.message, MAX_MESSAGE);
        write!(f, ": {message}")
    }
}

// A line, by the number of the run whose text has it where that is another.
#[derive(Clone, Copy)]
struct Place {
    line: u32,
    other: Option<u32>,
}

impl fmt::Display for Place {
    fn fmt<W: fmt::Write>(&self, f: &mut fmt::Formatter<W>) -> fmt::Result {
        let line = self.line;
        match self.other {
            None => write!(f, "line {line}"),
            Some(number) => {
                let number = number.saturating_add(1);
                write!(f, "line {line} of run {number}")
            }
        }
    }
}

// A call that an exception left, or the statement of the run from which all were made.
#[derive(Clone, Copy)]
struct Left<'a> {
    function: Option<&'a str>,
    place: Place,
}

impl fmt::Display for Left<'_> {
    fn fmt<W: fmt::Write>(&self, f: &mut fmt::Formatter<W>) -> fmt::Result {
        let place = self.place;
        match self.function {
            None => write!(f, "  {place}"),
            Some(name) => {
                let name = Shortened::new(name, MAX_NAME);
                write!(f, "  in {name}, {place}")
            }
        }
    }
}

// Calls that an exception left and that are not told one by one.
#[derive(Clone, Copy)]
struct More(u32);

impl fmt::Display for More {
    fn fmt<W: fmt::Write>(&self, f: &mut fmt::Formatter<W>) -> fmt::Result {
        match self.0 {
            1 => f.write_str("  and 1 more call"),
            count => write!(f, "  and {count} more calls"),
        }
    }
}

// Tells of each run of an interpreter that an exception left. `NoMemory` where memory was refused.
pub(crate) fn tell_raised(alloc: Global, seen: &Seen, notes: &mut Notes) -> Result<(), NoMemory> {
    let mut texts = Texts::new(alloc);
    for entry in seen.log {
        match (&entry.action, &entry.answer) {
            (Action::Take, Answer::Given(Job::Run(_, text))) => {
                texts.add(text.as_text().as_str())?;
            }
            (Action::End(Outcome::Raised(kind, message)), _) => {
                let message = message.as_text().as_str();
                let exception = Exception {
                    kind: *kind,
                    message,
                };
                tell_run(alloc, seen, &mut texts, &exception, notes)?;
            }
            _ => {}
        }
    }
    Ok(())
}

// Tells of the last run of these, which an exception left.
fn tell_run(
    alloc: Global,
    seen: &Seen,
    texts: &mut Texts,
    exception: &Exception,
    notes: &mut Notes,
) -> Result<(), NoMemory> {
    let Some((number, text)) = texts.last() else {
        return Ok(());
    };
    let id = seen.id;
    let run = Run { id, number };
    match origin_of(seen.origins, number) {
        Some(origin) => tell_origin(&run, &origin, texts, exception, notes),
        None => tell_text(alloc, &run, text, exception, notes),
    }
}

// Where the exception came from that left the run of a number, if that is known. They stand in the order of their runs.
fn origin_of(origins: &[RunOrigin], number: u32) -> Option<Origin> {
    let at = origins.partition_point(|of_run| of_run.run < number);
    match origins.get(at) {
        Some(found) if found.run == number => Some(found.origin),
        _ => None,
    }
}

// Where a statement stands, as it is told of a run. `NoMemory` where memory was refused.
fn left_at<'a>(
    run: &Run,
    spot: &Spot,
    texts: &mut Texts<'a>,
) -> Result<Option<Left<'a>>, NoMemory> {
    let Some(found) = texts.line(*spot)? else {
        return Ok(None);
    };
    let other = if spot.text == run.number {
        None
    } else {
        Some(spot.text)
    };
    let line = found.line;
    Ok(Some(Left {
        function: found.function,
        place: Place { line, other },
    }))
}

// Tells where the exception came from that left a run, and which calls it left.
fn tell_origin(
    run: &Run,
    origin: &Origin,
    texts: &mut Texts,
    exception: &Exception,
    notes: &mut Notes,
) -> Result<(), NoMemory> {
    let spots = origin.spots();
    tell_place(run, spots.first(), texts, exception, notes)?;
    let Some((last, calls)) = spots.split_last() else {
        return Ok(());
    };
    if calls.is_empty() {
        return Ok(());
    }
    for spot in calls {
        tell_left(run, spot, texts, notes)?;
    }
    if origin.left_out() > 0 {
        notes.add(&More(origin.left_out()))?;
    }
    tell_left(run, last, texts, notes)
}

// Tells in which line the exception was raised that left a run.
fn tell_place(
    run: &Run,
    spot: Option<&Spot>,
    texts: &mut Texts,
    exception: &Exception,
    notes: &mut Notes,
) -> Result<(), NoMemory> {
    let left = match spot {
        Some(spot) => left_at(run, spot, texts)?,
        None => None,
    };
    match left {
        Some(left) => {
            let place = left.place;
            notes.add(&format_args!("{run}: {place}: {exception}"))
        }
        None => notes.add(&format_args!("{run}: {exception}")),
    }
}

// Tells of a call that the exception left.
fn tell_left(run: &Run, spot: &Spot, texts: &mut Texts, notes: &mut Notes) -> Result<(), NoMemory> {
    match left_at(run, spot, texts)? {
        Some(left) => notes.add(&left),
        None => Ok(()),
    }
}

// Tells of a run that an exception left, and of which no instruction is known: where and why its text isn't read, if it
// isn't.
fn tell_text(
    alloc: Global,
    run: &Run,
    text: &str,
    exception: &Exception,
    notes: &mut Notes,
) -> Result<(), NoMemory> {
    if exception.kind != Kind::SyntaxError {
        return notes.add(&format_args!("{run}: {exception}"));
    }
    match read(alloc, text) {
        Ok(_) => notes.add(&format_args!("{run}: {exception}")),
        Err(ParseFault::NoMemory) => Err(AllocError),
        Err(ParseFault::Syntax(line)) => match text_hint(alloc, text, line)? {
            Some(found) => {
                let (line, column, reason) = (found.line, found.column, found.reason);
                notes.add(&format_args!("{run}: {line}:{column}: {reason}"))
            }
            None => notes.add(&format_args!("{run}: line {line}: {exception}")),
        },
    }
}
