// Literals of texts and of bytes: where they end, and what is wrong with them.

use crate::fault::Fault;
use crate::reason::Reason;
use si_token::{begins_raw, between_quotes, escape, next_character, unprefixed};

// The end of the literal that begins at a place, and whose quotes begin at another.
pub(crate) fn literal_end<'a>(text: &'a str, start: usize, at: usize) -> Result<usize, Fault<'a>> {
    let bytes = text.as_bytes();
    let quote = bytes.get(at).copied();
    let in_three = bytes.get(at.saturating_add(1)).copied() == quote
        && bytes.get(at.saturating_add(2)).copied() == quote;
    let count = if in_three { 3 } else { 1 };
    let Some(end) = body_end(bytes, quote, count, at.saturating_add(count))? else {
        return Err(Fault {
            at: start,
            reason: Reason::NotClosed { in_three },
        });
    };
    let word = text.get(start..end).unwrap_or("");
    if let Some(fault) = wrong_value(word, start, end.saturating_sub(count)) {
        return Err(fault);
    }
    Ok(end)
}

// The end of the closing quotes, as many as `count`, of what begins at a place; none where they are missing.
fn body_end<'a>(
    bytes: &[u8],
    quote: Option<u8>,
    count: usize,
    start: usize,
) -> Result<Option<usize>, Fault<'a>> {
    // how many quotes stand in a row just before, and whether a backslash, or one with a CR after it, does
    let mut row: usize = 0;
    let mut escaped = false;
    let mut joins = false;
    for at in start..bytes.len() {
        let b = bytes[at];
        if b == 0 {
            return Err(Fault {
                at,
                reason: Reason::Nul,
            });
        }
        if escaped {
            escaped = false;
            joins = b == b'\r';
            row = 0;
        } else if Some(b) == quote {
            row = row.saturating_add(1);
            joins = false;
            if row == count {
                return Ok(Some(at.saturating_add(1)));
            }
        } else if count == 1 && (b == b'\r' || b == b'\n' && !joins) {
            return Ok(None);
        } else {
            escaped = b == b'\\';
            joins = false;
            row = 0;
        }
    }
    Ok(None)
}

// What is wrong between the quotes of a literal, which begins at a place and whose closing quotes begin at another.
fn wrong_value<'a>(word: &'a str, start: usize, end: usize) -> Option<Fault<'a>> {
    let in_bytes = matches!(
        word.as_bytes(),
        [b'b' | b'B', ..] | [b'r' | b'R', b'b' | b'B', ..]
    );
    let is_raw = begins_raw(word);
    let mut rest = between_quotes(unprefixed(word));
    let mut skipped = 0;
    for _ in 0..word.len() {
        let at = end.saturating_sub(rest.len()).max(start);
        let (character, after) = next_character(rest)?;
        if in_bytes && !character.is_ascii() {
            let reason = Reason::NotAscii(character);
            return Some(Fault { at, reason });
        }
        if skipped > 0 {
            skipped -= 1;
        } else if character == '\\' && !is_raw {
            let Some((_, count)) = escape(in_bytes, after) else {
                let reason = Reason::Escape;
                return Some(Fault { at, reason });
            };
            skipped = count;
        }
        rest = after;
    }
    None
}
