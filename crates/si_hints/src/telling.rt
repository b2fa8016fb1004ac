// What is told of a script that is refused.

use crate::fault::{Fault, Stop};
use crate::front::settled;
use crate::layout::{bad_indentation, first_place, line_and_column};
use crate::reason::{Hint, Reason};
use crate::walk::Walk;
use crate::words::bad_word;
use si_plain::NoMemory;
use si_plain::limits::{MAX_EXPRESSION_DEPTH, MAX_TEXT_BYTES};
use si_token::{TokenFault, TokenRow, tokens};
use std::alloc::{AllocError, Global};

/// A byte order mark in UTF-8.
const MARK: [u8; 3] = [0xef, 0xbb, 0xbf];

/// The first place of a script, of which one byte order mark at its front is dropped, at which it breaks a rule, and the
/// reason; none where none is found. `line` is the line where reading stopped, counted from 1: an expression that is too
/// deep is told there.
///
/// # Errors
///
/// `NoMemory` where memory was refused.
pub fn hint<'a>(
    alloc: Global,
    script: &'a [u8],
    line: usize,
) -> Result<Option<Hint<'a>>, NoMemory> {
    let bytes = script.strip_prefix(&MARK).unwrap_or(script);
    match std::str::from_utf8(bytes) {
        Ok(text) => text_hint(alloc, text, line),
        Err(error) => Ok(Some(placed(
            bytes,
            Fault {
                at: error.valid_up_to(),
                reason: Reason::NotUtf8,
            },
        ))),
    }
}

/// The same of a text, of which nothing is dropped.
///
/// # Errors
///
/// `NoMemory` where memory was refused.
pub fn text_hint<'a>(
    alloc: Global,
    text: &'a str,
    line: usize,
) -> Result<Option<Hint<'a>>, NoMemory> {
    match first_fault(alloc, text, line)? {
        Some(fault) => Ok(Some(placed(text.as_bytes(), fault))),
        None => Ok(None),
    }
}

// A fault by its line and column.
fn placed<'a>(bytes: &[u8], fault: Fault<'a>) -> Hint<'a> {
    let (line, column) = line_and_column(bytes, fault.at);
    Hint {
        line,
        column,
        reason: fault.reason,
    }
}

// The first fault of a text, of which reading stopped in a line.
fn first_fault<'a>(
    alloc: Global,
    text: &'a str,
    line: usize,
) -> Result<Option<Fault<'a>>, NoMemory> {
    if text.len() > MAX_TEXT_BYTES {
        let reason = Reason::TextTooLong(text.len());
        return Ok(Some(Fault { at: 0, reason }));
    }
    let start = settled(alloc, text, line)?;
    if start > 0 {
        let rest = text.get(start..).unwrap_or("");
        match tokens(alloc, rest) {
            Ok(all) => {
                if let Some(Fault { at, reason }) = walked(alloc, &all, None)? {
                    let at = at.saturating_add(start);
                    return Ok(Some(Fault { at, reason }));
                }
            }
            Err(TokenFault::NoMemory) => return Err(AllocError),
            Err(TokenFault::BadText(_) | TokenFault::TooLong) => {
                return first_of_words(alloc, text, start);
            }
        }
    }
    first_of_all(alloc, text, line)
}

// The first fault of a text, all of which is gone over.
fn first_of_all<'a>(
    alloc: Global,
    text: &'a str,
    line: usize,
) -> Result<Option<Fault<'a>>, NoMemory> {
    match tokens(alloc, text) {
        Ok(all) => match walked(alloc, &all, None)? {
            None if all.len() > MAX_EXPRESSION_DEPTH as usize => Ok(Some(Fault {
                at: first_place(text, line),
                reason: Reason::Depth,
            })),
            found => Ok(found),
        },
        Err(TokenFault::NoMemory) => Err(AllocError),
        Err(TokenFault::BadText(_) | TokenFault::TooLong) => first_of_words(alloc, text, 0),
    }
}

// The first fault of a text that has no tokens, and whose words are right before a place.
fn first_of_words<'a>(
    alloc: Global,
    text: &'a str,
    place: usize,
) -> Result<Option<Fault<'a>>, NoMemory> {
    let (end, bad) = match bad_word(text, place) {
        Some((start, fault)) => (start, Some(fault)),
        None => (text.len(), None),
    };
    match tokens(alloc, text.get(..end).unwrap_or("")) {
        Ok(all) => walked(alloc, &all, bad),
        Err(TokenFault::NoMemory) => Err(AllocError),
        Err(TokenFault::BadText(line)) => first_of_lines(alloc, text, line),
        Err(TokenFault::TooLong) => Ok(None),
    }
}

// The first fault of a text in a line of which the indentation is wrong.
fn first_of_lines<'a>(
    alloc: Global,
    text: &'a str,
    line: usize,
) -> Result<Option<Fault<'a>>, NoMemory> {
    let (start, fault) = bad_indentation(text, line);
    match tokens(alloc, text.get(..start).unwrap_or("")) {
        Ok(all) => walked(alloc, &all, Some(fault)),
        Err(TokenFault::NoMemory) => Err(AllocError),
        Err(TokenFault::BadText(_) | TokenFault::TooLong) => Ok(Some(fault)),
    }
}

// The first fault of tokens, after which a fault of the text follows, or none.
fn walked<'a>(
    alloc: Global,
    tokens: &TokenRow<'a>,
    bad: Option<Fault<'a>>,
) -> Result<Option<Fault<'a>>, NoMemory> {
    let mut walk = Walk::new(alloc);
    match walk.all(tokens, bad) {
        Ok(()) => Ok(bad),
        Err(Stop::Fault(fault)) => Ok(Some(fault)),
        Err(Stop::NoMemory) => Err(AllocError),
    }
}
