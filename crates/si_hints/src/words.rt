// The first word of a text that is none.

ghost use Rattle.std.specs.Prelude.{◌≤◌};

use crate::fault::Fault;
use crate::form::{Form, Slip};
use crate::literal::literal_end;
use crate::reason::Reason;
use si_token::int_value;

// The first place of a text, from one on where a word begins, where no word begins, and what is wrong there or in what
// begins there.
pub(crate) fn bad_word<'a>(text: &'a str, start: usize) -> Option<(usize, Fault<'a>)> {
    let bytes = text.as_bytes();
    let mut at = start;
    for _ in start..bytes.len() {
        let first = *bytes.get(at)?;
        match word_end(text, at, first) {
            Ok(end) => at = end,
            Err(fault) => return Some((at, fault)),
        }
    }
    None
}

// Whether a name or a number may have the byte.
fn continues_name(b: u8) -> bool {
    b.is_ascii_alphanumeric() || b == b'_'
}

// The end of the name or the number that begins at a place.
fn name_end(bytes: &[u8], start: usize) -> usize {
    for at in start..bytes.len() {
        if !continues_name(bytes[at]) {
            return at;
        }
    }
    bytes.len()
}

// The end of the word that begins at a place with this byte.
fn word_end<'a>(text: &'a str, at: usize, first: u8) -> Result<usize, Fault<'a>> {
    match first {
        b'0'..=b'9' => number_end(text, at),
        b'\'' | b'"' => literal_end(text, at, at),
        b'#' => comment_end(text.as_bytes(), at),
        b' ' | b'\t' | b'\n' | b'\r' => Ok(at.saturating_add(1)),
        _ if continues_name(first) => {
            let end = name_end(text.as_bytes(), at);
            let word = text.get(at..end).unwrap_or("");
            match text.as_bytes().get(end) {
                Some(b'\'' | b'"') if is_prefix(word) => literal_end(text, at, end),
                _ => Ok(end),
            }
        }
        _ => operator_end(text, at, first),
    }
}

// Whether a word before a quote belongs to a literal.
fn is_prefix(word: &str) -> bool {
    match word.as_bytes() {
        [b'r' | b'R' | b'u' | b'U' | b'b' | b'B'] => true,
        [b'b' | b'B', b'r' | b'R'] | [b'r' | b'R', b'b' | b'B'] => true,
        _ => false,
    }
}

// The end of the comment that begins at a place.
fn comment_end<'a>(bytes: &[u8], start: usize) -> Result<usize, Fault<'a>> {
    for at in start..bytes.len() {
        match bytes[at] {
            b'\n' | b'\r' => return Ok(at),
            0 => {
                return Err(Fault {
                    at,
                    reason: Reason::Nul,
                });
            }
            _ => {}
        }
    }
    Ok(bytes.len())
}

// The end of an operator, or of its first character where that is one, too.
fn operator_end<'a>(text: &'a str, at: usize, first: u8) -> Result<usize, Fault<'a>> {
    let next = text.as_bytes().get(at.saturating_add(1)).copied();
    match (first, next) {
        (b'/', Some(b'/')) | (b'!', Some(b'=')) => Ok(at.saturating_add(2)),
        (b'+' | b'-' | b'*' | b'%' | b'&' | b'|' | b'^' | b'~' | b'<' | b'>' | b'=', _) => {
            Ok(at.saturating_add(1))
        }
        (b'(' | b')' | b'[' | b']' | b'{' | b'}' | b',' | b':' | b'.' | b';', _) => {
            Ok(at.saturating_add(1))
        }
        _ => Err(Fault {
            at,
            reason: no_word(text, at, first),
        }),
    }
}

// Why no word begins at a place with this byte.
fn no_word<'a>(text: &'a str, at: usize, first: u8) -> Reason<'a> {
    match first {
        0 => Reason::Nul,
        b'/' => Reason::LeftOut(Form::Division),
        b'!' => Reason::Slip(Slip::Not),
        b'\\' => Reason::LeftOut(Form::JoinedLines),
        b'@' => Reason::LeftOut(Form::MatrixProduct),
        _ => match text.get(at..).unwrap_or("").chars().next() {
            Some(c) => Reason::Character(c),
            None => Reason::NotUtf8,
        },
    }
}

// The end of the number that begins at a place.
fn number_end<'a>(text: &'a str, at: usize) -> Result<usize, Fault<'a>> {
    let bytes = text.as_bytes();
    let end = name_end(bytes, at);
    let word = text.get(at..end).unwrap_or("");
    if bytes.get(end) == Some(&b'.') {
        let reason = Reason::LeftOut(Form::Floats);
        return Err(Fault { at, reason });
    }
    match int_value(word.as_bytes()) {
        Some(_) => Ok(end),
        None => Err(Fault {
            at,
            reason: no_number(word),
        }),
    }
}

// Why a word that begins with a digit is no number.
fn no_number<'a>(word: &'a str) -> Reason<'a> {
    match word.as_bytes() {
        [b'0', b'x' | b'X', digits @ ..] => no_prefixed(16, digits, word),
        [b'0', b'o' | b'O', digits @ ..] => no_prefixed(8, digits, word),
        [b'0', b'b' | b'B', digits @ ..] => no_prefixed(2, digits, word),
        bytes => no_decimal(bytes, word),
    }
}

// Why a word with these digits after its prefix is no number.
fn no_prefixed<'a>(base: u32, digits: &[u8], word: &'a str) -> Reason<'a>
    requires some { 2 ≤ base }
    requires few { base ≤ 36 }
{
    if are_digits(base, digits.strip_prefix(b"_").unwrap_or(digits)) {
        Reason::TooLarge(word)
    } else {
        Reason::NoNumber(word)
    }
}

// Why a word without prefix is no number.
fn no_decimal<'a>(bytes: &[u8], word: &'a str) -> Reason<'a> {
    if are_digits(10, bytes) {
        return match bytes.first() {
            Some(b'0') => Reason::LeadingZero(word),
            _ => Reason::TooLarge(word),
        };
    }
    match bytes.split_last() {
        Some((b'j' | b'J', digits)) if are_digits(10, digits) => {
            Reason::LeftOut(Form::ComplexNumbers)
        }
        _ if is_scaled(bytes) => Reason::LeftOut(Form::Floats),
        _ => Reason::NoNumber(word),
    }
}

// Whether these are digits of a base, one at least, with at most one `_` before each.
fn are_digits(base: u32, digits: &[u8]) -> bool
    requires some { 2 ≤ base }
    requires few { base ≤ 36 }
{
    let mut after_digit = false;
    for b in digits {
        if *b == b'_' {
            if !after_digit {
                return false;
            }
            after_digit = false;
        } else if (*b as char).to_digit(base).is_some() {
            after_digit = true;
        } else {
            return false;
        }
    }
    after_digit
}

// Whether digits stand before an `e`, and nothing or digits after it.
fn is_scaled(word: &[u8]) -> bool {
    for (place, b) in word.iter().enumerate() {
        if *b == b'e' || *b == b'E' {
            let after = word.get(place.saturating_add(1)..).unwrap_or(&[]);
            return after.is_empty() || are_digits(10, after);
        }
        if !b.is_ascii_digit() && *b != b'_' {
            return false;
        }
    }
    false
}
