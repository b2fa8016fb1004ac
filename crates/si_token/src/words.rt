// The word at the front of a text, and where it may stand.

ghost use Rattle.std.specs.Prelude.{◌≡◌, ◌<◌, ◌≤◌, ◌==◌, length, IfSome, false};
ghost use Rattle.std.specs.List.{prefix_len};
ghost use Rattle.std.specs.Option.{option_map};
ghost use Rattle.si_semantics.specs.Literals.{is_quote, is_raw, is_of_bytes, is_prefix, is_double_prefix, prefix_at, unprefixed, begins_bytes, quotes_at};
ghost use Rattle.si_semantics.specs.Words.{continues_name, begins_name, in_comment, is_digit, is_plain, is_number, is_apart, is_prefixing, is_closed, is_allowed};
ghost use Rattle.si_token.specs.inner.Reading.{sort_of_byte, begins_quoted, sort_at, body_length, quoted_length, text_length, line_end_length, length_of, longest_at};
ghost use Rattle.si_token.specs.Views.{sort_of, word_of};

use crate::literal::has_value;
use crate::numbers::int_value;
use crate::symbols::symbol_length;

/// What a word of a text is.
#[derive(Clone, Copy, Debug, PartialEq, Eq)]
pub enum Sort {
    /// An identifier or a keyword.
    Name,
    Int,
    Text,
    Operator,
    Spaces,
    Tabs,
    Comment,
    LineEnd,
}

fn begins_name(b: u8) -> bool
    ensures { result ≡ begins_name b }
{
    b.is_ascii_alphabetic() || b == b'_'
}

fn is_digit(b: u8) -> bool
    ensures { result ≡ is_digit b }
{
    b.is_ascii_digit()
}

// What a name or a number may hold after its first byte.
fn continues_name(b: u8) -> bool
    ensures { result ≡ continues_name b }
{
    begins_name(b) || is_digit(b)
}

// What a comment may hold: all but line ends and NUL.
fn in_comment(b: u8) -> bool
    ensures { result ≡ in_comment b }
{
    b != b'\n' && b != b'\r' && b != 0
}

fn is_quote(b: u8) -> bool
    ensures { result ≡ is_quote b }
{
    b == b'\'' || b == b'"'
}

// A prefix of a literal, of one letter.
fn is_prefix(b: u8) -> bool
    ensures { result ≡ is_prefix b }
{
    is_raw(b) || is_of_bytes(b) || b == b'u' || b == b'U'
}

fn is_raw(b: u8) -> bool
    ensures { result ≡ is_raw b }
{
    b == b'r' || b == b'R'
}

fn is_of_bytes(b: u8) -> bool
    ensures { result ≡ is_of_bytes b }
{
    b == b'b' || b == b'B'
}

// Two letters that are a prefix of a literal together.
fn is_double_prefix(b: u8, c: u8) -> bool
    ensures { result ≡ is_double_prefix b c }
{
    is_of_bytes(b) && is_raw(c) || is_raw(b) && is_of_bytes(c)
}

// How many letters a literal's prefix has.
fn prefix_length(bytes: &[u8]) -> usize
    ensures gives { result ≡ prefix_at bytes.now }
    ensures within { result ≤ length bytes.now }
{
    match bytes {
        [first, second, ..] if is_double_prefix(*first, *second) => 2,
        [first, ..] if is_prefix(*first) => 1,
        _ => 0,
    }
}

/// Whether a literal is one of bytes.
pub fn begins_bytes(word: &[u8]) -> bool
    ensures { result ≡ begins_bytes word.now }
{
    match word {
        [] => false,
        [first] => is_of_bytes(*first),
        [first, second, ..] => is_of_bytes(*first) || is_raw(*first) && is_of_bytes(*second),
    }
}

// What stands for itself between so many quotes.
fn is_plain(count: usize, b: u8) -> bool
    ensures { result ≡ is_plain count b }
{
    if count == 1 { in_comment(b) } else { b != 0 }
}

// The sort of the words that begin with this byte, where it is no prefix.
fn sort_of_byte(first: u8) -> Sort
    ensures { sort_of result ≡ sort_of_byte first }
{
    if begins_name(first) {
        Sort::Name
    } else if is_digit(first) {
        Sort::Int
    } else {
        match first {
            b'\'' | b'"' => Sort::Text,
            b' ' => Sort::Spaces,
            b'\t' => Sort::Tabs,
            b'#' => Sort::Comment,
            b'\n' | b'\r' => Sort::LineEnd,
            _ => Sort::Operator,
        }
    }
}

// Whether a quote stands at the front.
fn begins_quoted(bytes: &[u8]) -> bool
    ensures { result ≡ begins_quoted bytes.now }
{
    match bytes {
        [first, ..] => is_quote(*first),
        [] => false,
    }
}

// The sort of the words at the front.
fn sort_at(bytes: &[u8]) -> Sort
    ensures { sort_of result ≡ sort_at bytes.now }
{
    match bytes {
        [] => Sort::Operator,
        _ if begins_quoted(unprefixed(bytes)) => Sort::Text,
        [first, ..] => sort_of_byte(*first),
    }
}

// The length of a name or a number.
fn name_length(bytes: &[u8]) -> usize
    ensures { result ≡ prefix_len continues_name bytes.now }
{
    bytes.iter().take_while(|b| continues_name(**b)).count()
}

fn comment_length(bytes: &[u8]) -> usize
    ensures { result ≡ prefix_len in_comment bytes.now }
{
    bytes.iter().take_while(|b| in_comment(**b)).count()
}

// How often the byte stands at the front.
fn repeated_length(bytes: &[u8], byte: u8) -> usize
    ensures { result ≡ prefix_len (λ b. b == byte) bytes.now }
{
    bytes.iter().take_while(|b| **b == byte).count()
}

// How many quotes open a literal.
fn quotes_at(bytes: &[u8]) -> usize
    ensures gives { result ≡ quotes_at bytes.now }
    ensures within { 0 < length bytes.now → result ≤ length bytes.now }
{
    match bytes {
        [a, b, c, ..] if *a == *b && *b == *c => 3,
        _ => 1,
    }
}

// The length of what follows the open quotes, up to the end of as many closed ones.
fn body_length(count: usize, quote: u8, bytes: &[u8]) -> Option<usize>
    ensures gives { result ≡ body_length count quote 0 false bytes.now }
    ensures within { IfSome result (λ n. n ≤ length bytes.now) }
{
    // how many closed quotes stand in a row just before, and whether an escaped CR does
    let mut row = 0;
    let mut joins = false;
    let mut i = 0;
    while row != count {
        let b = *bytes.get(i)?;
        i += 1;
        if b == quote {
            row += 1;
            joins = false;
        } else if b == b'\\' {
            let next = *bytes.get(i)?;
            if next == 0 {
                return None;
            }
            i += 1;
            row = 0;
            joins = next == b'\r';
        } else if is_plain(count, b) || joins && b == b'\n' {
            row = 0;
            joins = false;
        } else {
            return None;
        }
    }
    Some(i)
}

// The length of a literal without prefix.
fn quoted_length(bytes: &[u8]) -> Option<usize>
    ensures gives { result ≡ quoted_length bytes.now }
    ensures within { IfSome result (λ n. n ≤ length bytes.now) }
{
    let quote = *bytes.first()?;
    if !is_quote(quote) {
        return None;
    }
    let count = quotes_at(bytes);
    Some(count + body_length(count, quote, &bytes[count..])?)
}

// The length of a literal, with its prefix and quotes.
fn text_length(bytes: &[u8]) -> Option<usize>
    ensures { result ≡ text_length bytes.now }
{
    let prefix = prefix_length(bytes);
    Some(prefix + quoted_length(&bytes[prefix..])?)
}

fn line_end_length(bytes: &[u8]) -> usize
    ensures { result ≡ line_end_length bytes.now }
{
    match bytes {
        [b'\r', b'\n', ..] => 2,
        _ => 1,
    }
}

// The length of the longest word of this sort, where a byte of the sort stands at the front.
fn length_of(sort: Sort, bytes: &[u8]) -> Option<usize>
    ensures { result ≡ length_of (sort_of sort) bytes.now }
{
    match sort {
        Sort::Name | Sort::Int => Some(name_length(bytes)),
        Sort::Text => text_length(bytes),
        Sort::Operator => symbol_length(bytes),
        Sort::Spaces => Some(repeated_length(bytes, b' ')),
        Sort::Tabs => Some(repeated_length(bytes, b'\t')),
        Sort::Comment => Some(comment_length(bytes)),
        Sort::LineEnd => Some(line_end_length(bytes)),
    }
}

// A number has a value.
fn is_number(word: &[u8]) -> bool
    ensures { result ≡ is_number word.now }
{
    int_value(word).is_some()
}

// No point follows.
fn is_apart(rest: &[u8]) -> bool
    ensures { result ≡ is_apart rest.now }
{
    match rest {
        [next, ..] => *next != b'.',
        [] => true,
    }
}

// A letter or two before a quote are a prefix.
fn is_prefixing(word: &[u8], rest: &[u8]) -> bool
    ensures { result ≡ is_prefixing word.now rest.now }
{
    match (word, rest) {
        ([letter], [next, ..]) => is_prefix(*letter) && is_quote(*next),
        ([first, second], [next, ..]) => is_double_prefix(*first, *second) && is_quote(*next),
        _ => false,
    }
}

// A literal without its prefix.
fn unprefixed(word: &[u8]) -> &[u8]
    ensures { result.now ≡ unprefixed word.now }
{
    &word[prefix_length(word)..]
}

// After an empty literal no third quote stands.
fn is_closed(word: &[u8], rest: &[u8]) -> bool
    ensures { result ≡ is_closed word.now rest.now }
{
    match (word, rest) {
        ([_, quote], [next, ..]) => *next != *quote,
        _ => true,
    }
}

/// Whether a word may stand before the rest.
pub fn is_allowed(sort: Sort, word: &str, rest: &str) -> bool
    ensures { result ≡ is_allowed (sort_of sort) word.now rest.now }
{
    let bytes = word.as_bytes();
    let after = rest.as_bytes();
    match sort {
        Sort::Name => !is_prefixing(bytes, after),
        Sort::Int => is_number(bytes) && is_apart(after),
        Sort::Text => has_value(word) && is_closed(unprefixed(bytes), after),
        _ => true,
    }
}

/// The longest word at the front: its sort and its length.
pub fn longest_word(bytes: &[u8]) -> Option<(Sort, usize)>
    ensures { option_map word_of result ≡ longest_at bytes.now }
{
    if bytes.is_empty() {
        return None;
    }
    let sort = sort_at(bytes);
    Some((sort, length_of(sort, bytes)?))
}
