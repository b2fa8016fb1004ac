// What the characters of a literal stand for: its quotes, and its escapes.

ghost use Rattle.std.specs.Prelude.{◌≡◌, ◌+◌, ◌*◌, ◌<◌, ◌≤◌, length, chars, nat_lt, IfSome, SomeIff, IsUtf8};
ghost use Rattle.std.specs.List.{list_all};
ghost use Rattle.std.specs.Option.{option_map, is_some};
ghost use Rattle.si_semantics.specs.Literals.{is_raw, is_of_bytes, is_prefix, is_double_prefix, is_of_texts, begins_raw, unprefixed, quotes_at, peeled, between_quotes, letter_escape, digits_within, numbered, after_letter, escape, value_of_literal};
ghost use Rattle.si_semantics.specs.Words.{has_value};
ghost use Rattle.si_token.specs.inner.Literals.{characters, front_of, digit_front, up_to, written_of};

use crate::words::begins_bytes;

// The greatest number of a character.
const MAX_CHARACTER: u32 = 0x10_ffff;

// The first character, and what follows it.
fn front<'a>(text: &'a str) -> Option<(char, &'a str)>
    ensures gives { option_map (λ r. (r.0, chars r.1.now)) result ≡ front_of (chars text.now) }
    ensures utf8 { IfSome result (λ r. IsUtf8 r.1.now) }
    ensures shorter { IfSome result (λ r. length r.1.now < length text.now) }
{
    let mut rest = text.chars();
    let first = rest.next()?;
    Some((first, rest.as_str()))
}

/// The first character, a line end as LF, and what follows it.
pub fn next_character<'a>(text: &'a str) -> Option<(char, &'a str)>
    ensures gives { option_map (λ r. (r.0, characters r.1.now)) result ≡ front_of (characters text.now) }
    ensures utf8 { IfSome result (λ r. IsUtf8 r.1.now) }
    ensures shorter { IfSome result (λ r. length r.1.now < length text.now) }
{
    let (first, rest) = front(text)?;
    if first != '\r' {
        return Some((first, rest));
    }
    if let Some((second, after)) = front(rest) {
        if second == '\n' {
            return Some(('\n', after));
        }
    }
    Some(('\n', rest))
}

fn is_raw(c: char) -> bool
    ensures { result ≡ is_raw c }
{
    c == 'r' || c == 'R'
}

fn is_of_bytes(c: char) -> bool
    ensures { result ≡ is_of_bytes c }
{
    c == 'b' || c == 'B'
}

fn is_prefix(c: char) -> bool
    ensures { result ≡ is_prefix c }
{
    is_raw(c) || is_of_bytes(c) || c == 'u' || c == 'U'
}

fn is_double_prefix(c: char, d: char) -> bool
    ensures { result ≡ is_double_prefix c d }
{
    is_of_bytes(c) && is_raw(d) || is_raw(c) && is_of_bytes(d)
}

/// Whether the prefix has an `r`, in either case: then a backslash stands for itself.
pub fn begins_raw(literal: &str) -> bool
    ensures { result ≡ begins_raw (chars literal.now) }
{
    let Some((first, rest)) = front(literal) else {
        return false;
    };
    match front(rest) {
        Some((second, _)) => is_raw(first) || is_of_bytes(first) && is_raw(second),
        None => is_raw(first),
    }
}

/// A literal without its prefix, one of `r`, `u`, `b`, or `b` and `r`, in either case.
pub fn unprefixed<'a>(literal: &'a str) -> &'a str
    ensures { chars result.now ≡ unprefixed (chars literal.now) }
{
    let Some((first, rest)) = front(literal) else {
        return literal;
    };
    if let Some((second, after)) = front(rest) {
        if is_double_prefix(first, second) {
            return after;
        }
    }
    if is_prefix(first) { rest } else { literal }
}

// How many quotes open a literal without prefix.
fn quotes_at(literal: &str) -> usize
    ensures { result ≡ quotes_at (chars literal.now) }
{
    let Some((a, rest)) = front(literal) else {
        return 1;
    };
    let Some((b, rest)) = front(rest) else {
        return 1;
    };
    match front(rest) {
        Some((c, _)) if a == b && b == c => 3,
        _ => 1,
    }
}

// Without its first and its last character.
fn peeled<'a>(text: &'a str) -> &'a str
    ensures { chars result.now ≡ peeled (chars text.now) }
{
    let Some((_, after)) = front(text) else {
        return text;
    };
    let mut inside = after.chars();
    let _ = inside.next_back();
    inside.as_str()
}

/// What stands between the quotes of a literal without prefix, one or three at each end.
pub fn between_quotes<'a>(literal: &'a str) -> &'a str
    ensures { chars result.now ≡ between_quotes (chars literal.now) }
{
    if quotes_at(literal) == 3 {
        peeled(peeled(peeled(literal)))
    } else {
        peeled(literal)
    }
}

// The value of the digit in front, and what follows it.
fn next_digit<'a>(base: u32, text: &'a str) -> Option<(u32, &'a str)>
    requires some { 2 ≤ base }
    requires few { base ≤ 36 }
    ensures gives { option_map (λ r. (r.0, characters r.1.now)) result ≡ digit_front base (characters text.now) }
    ensures utf8 { IfSome result (λ r. IsUtf8 r.1.now) }
{
    let (first, rest) = next_character(text)?;
    Some((first.to_digit(base)?, rest))
}

// A number with one digit more, where it is not past the limit.
fn with_digit(base: u32, number: u32, digit: u32, limit: u32) -> Option<u32>
    ensures { SomeIff result (number * base + digit ≤ limit) (number * base + digit) }
{
    let next = number.checked_mul(base)?.checked_add(digit)?;
    if next <= limit { Some(next) } else { None }
}

// The number that the digits in front write, as many as there are, but at least and at most so many; and how many
// they are.
fn digits(base: u32, least: usize, most: usize, limit: u32, text: &str) -> Option<(u32, usize)>
    requires some { 2 ≤ base }
    requires few { base ≤ 36 }
    ensures gives { result ≡ up_to limit (digits_within base least most 0 (characters text.now)) }
    ensures within { IfSome result (λ r. r.1 ≤ most) }
{
    let mut number = 0;
    let mut rest = text;
    for count in 0..most {
        let Some((digit, after)) = next_digit(base, rest) else {
            return if count < least {
                None
            } else {
                Some((number, count))
            };
        };
        number = with_digit(base, number, digit, limit)?;
        rest = after;
    }
    Some((number, most))
}

// The character with the number that the digits in front write, and how many they are.
fn numbered(
    base: u32,
    least: usize,
    most: usize,
    limit: u32,
    text: &str,
) -> Option<(Option<char>, usize)>
    requires some { 2 ≤ base }
    requires few { base ≤ 36 }
    ensures gives { option_map written_of result ≡ numbered limit (digits_within base least most 0 (characters text.now)) }
    ensures within { IfSome result (λ r. r.1 ≤ most) }
{
    let (number, count) = digits(base, least, most, limit, text)?;
    Some((Some(char::from_u32(number)?), count))
}

// The same, of exactly so many hexadecimal digits, and with the letter before them.
fn hexadecimal(count: usize, text: &str) -> Option<(Option<char>, usize)>
    requires { count ≤ 8 }
    ensures { option_map written_of result ≡ after_letter (numbered MAX_CHARACTER (digits_within 16 count count 0 (characters text.now))) }
{
    let (character, digits) = numbered(16, count, count, MAX_CHARACTER, text)?;
    Some((character, digits + 1))
}

// The escapes of one letter.
fn letter_escape(letter: char) -> Option<char>
    ensures { result ≡ letter_escape letter }
{
    match letter {
        '\\' | '\'' | '"' => Some(letter),
        'a' => Some('\x07'),
        'b' => Some('\x08'),
        'f' => Some('\x0c'),
        'n' => Some('\n'),
        'r' => Some('\r'),
        't' => Some('\t'),
        'v' => Some('\x0b'),
        _ => None,
    }
}

// What begins an escape in texts alone.
fn is_of_texts(c: char) -> bool
    ensures { result ≡ is_of_texts c }
{
    c == 'N' || c == 'U' || c == 'u'
}

/// What the characters after a backslash stand for in bytes, or in a text: a character or none, and how many of them
/// belong to the escape (Python Language Reference 3.14, 2.5.4 "Escape sequences"); `None` where the escape is refused.
pub fn escape(bytes: bool, after: &str) -> Option<(Option<char>, usize)>
    ensures { option_map written_of result ≡ escape bytes (characters after.now) }
{
    let Some((letter, rest)) = next_character(after) else {
        return Some((Some('\\'), 0));
    };
    if bytes && is_of_texts(letter) {
        return Some((Some('\\'), 0));
    }
    if let Some(value) = letter_escape(letter) {
        return Some((Some(value), 1));
    }
    match letter {
        '\n' => Some((None, 1)),
        '0'..='7' => numbered(8, 1, 3, 255, after),
        'x' => hexadecimal(2, rest),
        'u' => hexadecimal(4, rest),
        'U' => hexadecimal(8, rest),
        'N' => None,
        _ => Some((Some('\\'), 0)),
    }
}

/// Whether a literal has a value: each of its escapes is one, and bytes are ASCII alone.
pub fn has_value(literal: &str) -> bool
    ensures { result ≡ has_value literal.now }
{
    if !begins_bytes(literal.as_bytes()) {
        return is_written(false, literal);
    }
    if !is_ascii(literal) {
        return false;
    }
    is_written(true, literal)
}

/// Whether a literal is ASCII alone.
pub fn is_ascii(literal: &str) -> bool
    ensures { result ≡ list_all (λ b. nat_lt b 128) literal.now }
{
    literal.as_bytes().iter().all(|b| b.is_ascii())
}

// Whether a literal writes something: each of its escapes is one. In a raw one there is none to look at.
fn is_written(bytes: bool, literal: &str) -> bool
    ensures { result ≡ is_some (value_of_literal bytes (chars literal.now)) }
{
    if begins_raw(literal) {
        return true;
    }
    let mut rest = between_quotes(unprefixed(literal));
    // how many of the next characters belong to the escape before
    let mut skipped = 0;
    while let Some((character, after)) = next_character(rest) {
        rest = after;
        if skipped > 0 {
            skipped -= 1;
        } else if character == '\\' {
            let Some((_, count)) = escape(bytes, after) else {
                return false;
            };
            skipped = count;
        }
    }
    true
}
