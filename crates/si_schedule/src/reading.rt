// The schedule of a text.

ghost use Rattle.std.specs.Prelude.{◌≡◌, ◌≢◌, ◌<◌, ◌≤◌, ◌^◌, ℕ, [], ◌++◌, ◌∷◌, IfOk, IfErr, IfSome, IfNone};
ghost use Rattle.std.specs.Fmt.{decimal};
ghost use Rattle.si_schedule.specs.Schedules.{Schedule as Value, IsSchedule, version_line, interpreters_line, count_line, text_of};
ghost use Rattle.si_schedule.specs.BadLines.{IsBadLine, IsReadFault, IsNoMemory};
ghost use Rattle.si_schedule.specs.inner.Reading.{HasRead, IsNoVersion, IsNoInterpreters, IsNoCount, IsNoCaller, IsEnding};

use crate::fault::ReadFault;
use crate::line::{is_word, next_line, number, number_after};
use crate::schedule::Schedule;
use si_plain::limits::MAX_INTERPRETERS;
use std::alloc::Global;

/// The schedule whose text this is, as `write` makes it. The memory that it takes grows with the lines that are there,
/// and not with the number of callers that the third line names.
///
/// # Errors
///
/// `BadLine` where it is the text of no schedule, with the number of its first bad line; `NoMemory` where memory was
/// refused.
pub fn read(alloc: Global, text: &str) -> Result<Schedule, ReadFault>
    // What is read has this text, and is the only schedule that has it.
    ensures ok { IfOk result (λ s. text.now ≡ text_of s) }
    ensures only { IfOk result (λ s. (t : Value) → IsSchedule t → text.now ≡ text_of t → s ≡ t) }

    // A bad line is the first one; and the text of a schedule has none.
    ensures err { IfErr result (IsReadFault text.now) }
    ensures memory { IfErr result (λ f. (t : Value) → IsSchedule t → text.now ≡ text_of t → IsNoMemory f) }
{
    read_text(alloc, text)
}

// As `read`, whose other clauses follow from these.
fn read_text(alloc: Global, text: &str) -> Result<Schedule, ReadFault>
    ensures ok { IfOk result (λ s. text.now ≡ text_of s) }
    ensures is { IfOk result (λ s. IsSchedule s) }
    ensures err { IfErr result (IsReadFault text.now) }
{
    let (interpreters, count, start) = match read_head(text) {
        Err(line) => return Err(ReadFault::BadLine(line)),
        Ok(head) => head,
    };
    let mut callers = Vec::new(alloc);
    let mut left = start;
    for _read in 0..count {
        match next_caller(left, interpreters) {
            None => return Err(ReadFault::BadLine(callers.len() as u64 + 4)),
            Some((by, after)) => {
                match callers.push(by) {
                    Ok(()) => {}
                    Err(_) => return Err(ReadFault::NoMemory),
                }
                left = after;
            }
        }
    }
    match last_line(left) {
        Ending::Ended => Ok(Schedule::within(interpreters, callers)),
        Ending::NotEnded => Err(ReadFault::BadLine(callers.len() as u64 + 4)),
        Ending::GoesOn => Err(ReadFault::BadLine(callers.len() as u64 + 5)),
    }
}

// The first three lines: how many interpreters, how many callers, and what follows; or which of them is bad.
fn read_head(text: &str) -> Result<(u32, u64, &str), u64>
    ensures ok { IfOk result (λ x. HasRead text.now x.0 x.1 [] x.2.now) }
    ensures err { IfErr result (IsBadLine text.now) }
{
    match next_version(text) {
        None => Err(1),
        Some(after_version) => match next_interpreters(after_version) {
            None => Err(2),
            Some((interpreters, after_interpreters)) => match next_count(after_interpreters) {
                None => Err(3),
                Some((count, left)) => Ok((interpreters, count, left)),
            },
        },
    }
}

// What follows the line of the version.
fn next_version(text: &str) -> Option<&str>
    ensures some { IfSome result (λ left. text.now ≡ version_line ++ 10 ∷ left.now) }
    ensures none { IfNone result (IsNoVersion text.now) }
{
    match next_line(text) {
        None => None,
        Some((line, left)) => {
            if is_word(line, "schedule 1") {
                Some(left)
            } else {
                None
            }
        }
    }
}

// How many interpreters the next line names, and what follows it.
fn next_interpreters(text: &str) -> Option<(u32, &str)>
    ensures some { IfSome result (λ x. (1 ≤ x.0) × (x.0 ≤ 64) × (text.now ≡ interpreters_line x.0 ++ 10 ∷ x.1.now)) }
    ensures none { IfNone result (IsNoInterpreters text.now) }
{
    match next_line(text) {
        None => None,
        Some((line, left)) => match interpreters_in(line) {
            None => None,
            Some(interpreters) => Some((interpreters, left)),
        },
    }
}

fn interpreters_in(line: &str) -> Option<u32>
    ensures some { IfSome result (λ w. (1 ≤ w) × (w ≤ 64) × (line.now ≡ interpreters_line w)) }
    ensures none { IfNone result ((w : ℕ) → 1 ≤ w → w ≤ 64 → line.now ≢ interpreters_line w) }
{
    match number_after(line, "interpreters ") {
        None => None,
        Some(number) => {
            if (1..=u64::from(MAX_INTERPRETERS)).contains(&number) {
                Some(number as u32)
            } else {
                None
            }
        }
    }
}

// How many callers the next line names, and what follows it.
fn next_count(text: &str) -> Option<(u64, &str)>
    ensures some { IfSome result (λ x. (x.0 < 2 ^ 64) × (text.now ≡ count_line x.0 ++ 10 ∷ x.1.now)) }
    ensures none { IfNone result (IsNoCount text.now) }
{
    match next_line(text) {
        None => None,
        Some((line, left)) => match number_after(line, "turns ") {
            None => None,
            Some(count) => Some((count, left)),
        },
    }
}

// The caller that the next line names, and what follows it.
fn next_caller(text: &str, interpreters: u32) -> Option<(u32, &str)>
    ensures some { IfSome result (λ x. (x.0 < interpreters) × (text.now ≡ decimal x.0 ++ 10 ∷ x.1.now)) }
    ensures none { IfNone result (IsNoCaller text.now interpreters) }
{
    match next_line(text) {
        None => None,
        Some((line, left)) => match caller_in(line, interpreters) {
            None => None,
            Some(by) => Some((by, left)),
        },
    }
}

fn caller_in(line: &str, interpreters: u32) -> Option<u32>
    ensures some { IfSome result (λ i. (i < interpreters) × (line.now ≡ decimal i)) }
    ensures none { IfNone result ((i : ℕ) → i < interpreters → line.now ≢ decimal i) }
{
    match number(line) {
        None => None,
        Some(number) => {
            if number < u64::from(interpreters) {
                Some(number as u32)
            } else {
                None
            }
        }
    }
}

// How a text ends after its callers.
#[derive(Clone, Copy, Debug, Drop, PartialEq, Eq)]
enum Ending {
    // With the last line.
    Ended,
    // The next line is not the last.
    NotEnded,
    // Something follows the last line.
    GoesOn,
}

fn last_line(text: &str) -> Ending
    ensures { IsEnding text.now result }
{
    match next_line(text) {
        None => Ending::NotEnded,
        Some((line, left)) => {
            if !is_word(line, "end") {
                return Ending::NotEnded;
            }
            if left.is_empty() {
                Ending::Ended
            } else {
                Ending::GoesOn
            }
        }
    }
}
