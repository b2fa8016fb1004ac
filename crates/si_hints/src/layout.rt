// Lines and columns.

use crate::fault::Fault;
use crate::reason::Reason;

// The line and the column of a place: lines, and the characters of a line, are counted from 1.
pub(crate) fn line_and_column(bytes: &[u8], place: usize) -> (usize, usize) {
    let mut line: usize = 1;
    let mut column: usize = 1;
    let mut before = 0;
    for at in 0..place.min(bytes.len()) {
        let b = bytes[at];
        if b == b'\r' || b == b'\n' {
            if b == b'\r' || before != b'\r' {
                line = line.saturating_add(1);
            }
            column = 1;
        } else if b & 0xc0 != 0x80 {
            column = column.saturating_add(1);
        }
        before = b;
    }
    (line, column)
}

// Where a line begins.
fn line_start(bytes: &[u8], line: usize) -> usize {
    let mut found: usize = 1;
    let mut start = 0;
    for at in 0..bytes.len() {
        let b = bytes[at];
        let next = at + 1;
        let feed = bytes.get(next) == Some(&b'\n');
        if b == b'\n' || b == b'\r' && !feed {
            if found == line {
                return start;
            }
            found = found.saturating_add(1);
            start = next;
        }
    }
    start
}

// The place of a line's first character that is no space, and of its first tab before its first token.
fn indentation(bytes: &[u8], start: usize) -> (usize, Option<usize>) {
    let mut tab = None;
    for at in start..bytes.len() {
        match bytes[at] {
            b' ' => {}
            b'\t' => {
                if tab.is_none() {
                    tab = Some(at);
                }
            }
            _ => return (at, tab),
        }
    }
    (bytes.len(), tab)
}

// What is wrong in front of a line's first token, where something is; and where the line begins.
pub(crate) fn bad_indentation<'a>(text: &'a str, line: usize) -> (usize, Fault<'a>) {
    let bytes = text.as_bytes();
    let start = line_start(bytes, line);
    match indentation(bytes, start) {
        (_, Some(at)) => {
            let reason = Reason::Tab;
            (start, Fault { at, reason })
        }
        (at, None) => {
            let reason = Reason::NoBlock;
            (start, Fault { at, reason })
        }
    }
}

// The place of a line's first character that is no blank.
pub(crate) fn first_place(text: &str, line: usize) -> usize {
    let bytes = text.as_bytes();
    let (at, _) = indentation(bytes, line_start(bytes, line));
    at
}
