// The integers that texts write.

ghost use Rattle.std.specs.Prelude.{◌≡◌, ◌^◌, ◌-◌, ◌+◌, ◌*◌, ◌≤◌, true, SomeIff, FitsSigned, min, length, drop, option_map};
ghost use Rattle.std.specs.Int.{w64};
ghost use Rattle.si_plain.specs.Integers.{in_range};
ghost use Rattle.si_semantics.specs.Numerals as numerals;
ghost use Rattle.si_arena.specs.Texts.{characters_in};
ghost use Rattle.si_ops.specs.Numerals.{signed_number};

use crate::characters::{character_at, length_of};
use si_arena::Characters;
use si_plain::Kind;

/// The integer that a text writes, with white space before it and after it (Python Standard Library 3.14, "Built-in
/// Functions": int). `ValueError` where it writes none, `OverflowError` where 64 bits do not hold it.
pub fn read_integer(text: Characters) -> Result<i64, Kind>
    ensures { result ≡ numerals.read_integer (characters_in text.entry) }
{
    let start = end_of_space(text, 0);
    if start == length_of(text) {
        return Err(Kind::ValueError);
    }
    match character_at(text, start) {
        '-' => read_digits(text, start + 1, true),
        '+' => read_digits(text, start + 1, false),
        _ => read_digits(text, start, false),
    }
}

// Where the white space ends that stands in a text from an index on.
fn end_of_space(text: Characters, start: usize) -> usize
    requires { start ≤ length (characters_in text) }
    ensures within { result ≤ length (characters_in text.entry) }
    ensures after { numerals.after_space (drop start (characters_in text.entry)) ≡ drop result (characters_in text.entry) }
{
    for i in start..length_of(text) {
        if !is_space(character_at(text, i)) {
            return i;
        }
    }
    length_of(text)
}

// White space: a space, and those from the tab to the carriage return.
fn is_space(character: char) -> bool
    ensures { result ≡ numerals.is_space character }
{
    character == ' ' || ('\t' <= character && character <= '\r')
}

// The integer that digits from an index on write, below 0 or not.
fn read_digits(text: Characters, start: usize, is_negative: bool) -> Result<i64, Kind>
    requires { start ≤ length (characters_in text) }
    ensures { result ≡ numerals.read (option_map (signed_number is_negative) (numerals.digits_after true 0 (drop start (characters_in text.entry)))) }
{
    match digits_at(text, start) {
        Some(magnitude) => with_sign(magnitude, is_negative),
        None => Err(Kind::ValueError),
    }
}

// The number that digits from an index on write, with white space after them; one past 64 bits is as good as their
// greatest.
fn digits_at(text: Characters, start: usize) -> Option<u64>
    requires { start ≤ length (characters_in text) }
    ensures { result ≡ option_map (λ n. min n (2 ^ 64 - 1)) (numerals.digits_after true 0 (drop start (characters_in text.entry))) }
{
    let mut number: u64 = 0;
    let mut is_due = true;
    for i in start..length_of(text) {
        let character = character_at(text, i);
        if is_digit(character) {
            number = with_digit(number, character);
            is_due = false;
        } else if is_due {
            return None;
        } else if character == '_' {
            is_due = true;
        } else {
            return whole(number, text, i);
        }
    }
    if is_due { None } else { Some(number) }
}

// A decimal digit.
fn is_digit(character: char) -> bool
    ensures { result ≡ numerals.is_digit character }
{
    '0' <= character && character <= '9'
}

// A number with one more digit after it.
fn with_digit(number: u64, digit: char) -> u64
    ensures { result ≡ min (number * 10 + (digit - 48)) (2 ^ 64 - 1) }
{
    let digit = u64::from(digit).saturating_sub(u64::from('0'));
    number.saturating_mul(10).saturating_add(digit)
}

// A number, if nothing but white space stands from an index on.
fn whole(number: u64, text: Characters, start: usize) -> Option<u64>
    requires { start ≤ length (characters_in text) }
    ensures { result ≡ numerals.whole number (numerals.after_space (drop start (characters_in text.entry))) }
{
    if end_of_space(text, start) == length_of(text) {
        Some(number)
    } else {
        None
    }
}

/// An integer by its size, below 0 or not; `OverflowError` where 64 bits do not hold it.
pub fn with_sign(magnitude: u64, is_negative: bool) -> Result<i64, Kind>
    ensures { result ≡ in_range (signed_number is_negative magnitude) }
{
    signed(magnitude, is_negative).ok_or(Kind::OverflowError)
}

// The same, where 64 bits hold it.
fn signed(magnitude: u64, is_negative: bool) -> Option<i64>
    ensures { SomeIff result (FitsSigned w64 (signed_number is_negative magnitude)) (signed_number is_negative magnitude) }
{
    if is_negative {
        0i64.checked_sub_unsigned(magnitude)
    } else {
        0i64.checked_add_unsigned(magnitude)
    }
}
