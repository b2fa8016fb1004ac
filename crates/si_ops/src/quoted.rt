// How a text and bytes are written as literals of a script.

ghost use Rattle.std.specs.Prelude.{codes, ◌++◌, ◌≡◌, ◌∷◌, [], ◌==◌, ◌<◌, OnOk, OnErr, encode_utf8_all, flat_map};
ghost use Rattle.std.specs.List.{list_any};
ghost use Rattle.std.specs.Char.{digit_char};
ghost use Rattle.si_plain.specs.Characters.{characters_of};
ghost use Rattle.si_plain.specs.Repr.{quote_of, escaped, escaped_byte, hex_escape, repr_of, bytes_repr_of};
ghost use Rattle.si_arena.specs.Texts.{characters_in};
ghost use Rattle.si_ops.specs.Writing.{Adds, Lacks, bytes_between};

use crate::pieces::{put, put_char};
use si_arena::Characters;
use si_plain::NoMemory;

// Adds the `repr` of a str (Python Standard Library 3.14, "Built-in Functions").
pub fn put_quoted(out: &mut String, characters: Characters) -> Result<(), NoMemory>
    ensures ok { OnOk result (Adds (encode_utf8_all (repr_of (characters_in characters.entry))) out.old out.new) }
    ensures err { OnErr result (Lacks (encode_utf8_all (repr_of (characters_in characters.entry))) out.old out.new) }
{
    match characters {
        Characters::Narrow(characters) => put_narrow_quoted(out, characters),
        Characters::Wide(characters) => put_wide_quoted(out, characters),
    }
}

// The `repr` of characters below 256.
fn put_narrow_quoted(out: &mut String, characters: &[u8]) -> Result<(), NoMemory>
    ensures ok { OnOk result (Adds (encode_utf8_all (repr_of characters.now)) out.old out.new) }
    ensures err { OnErr result (Lacks (encode_utf8_all (repr_of characters.now)) out.old out.new) }
{
    let quote = narrow_quote(characters);
    put_char(out, quote)?;
    put_narrow_escaped(out, quote, characters)?;
    put_char(out, quote)?;
    Ok(())
}

// The `repr` of characters.
fn put_wide_quoted(out: &mut String, characters: &[char]) -> Result<(), NoMemory>
    ensures ok { OnOk result (Adds (encode_utf8_all (repr_of characters.now)) out.old out.new) }
    ensures err { OnErr result (Lacks (encode_utf8_all (repr_of characters.now)) out.old out.new) }
{
    let quote = wide_quote(characters);
    put_char(out, quote)?;
    put_wide_escaped(out, quote, characters)?;
    put_char(out, quote)?;
    Ok(())
}

// The quote for characters below 256.
#[tactic(auto, unfolding(si_plain::specs::Repr::quote_of))]
fn narrow_quote(characters: &[u8]) -> char
    ensures { result ≡ quote_of characters.now }
{
    if characters.contains(&b'\'') && !characters.contains(&b'"') {
        '"'
    } else {
        '\''
    }
}

// The quote for characters.
#[tactic(auto, unfolding(si_plain::specs::Repr::quote_of))]
fn wide_quote(characters: &[char]) -> char
    ensures { result ≡ quote_of characters.now }
{
    if characters.contains(&'\'') && !characters.contains(&'"') {
        '"'
    } else {
        '\''
    }
}

// Whether a character is in a text.
pub fn has_character(text: &str, wanted: char) -> bool
    ensures { result ≡ list_any (λ c. c == wanted) (characters_of text.now) }
{
    text.chars().any(|c| c == wanted)
}

// Adds characters below 256, as they stand between quotes.
fn put_narrow_escaped(out: &mut String, quote: char, characters: &[u8]) -> Result<(), NoMemory>
    ensures ok { OnOk result (Adds (encode_utf8_all (flat_map (escaped quote) characters.now)) out.old out.new) }
    ensures err { OnErr result (Lacks (encode_utf8_all (flat_map (escaped quote) characters.now)) out.old out.new) }
{
    for c in characters {
        put_escaped(out, quote, char::from(*c))?;
    }
    Ok(())
}

// Adds characters, as they stand between quotes.
fn put_wide_escaped(out: &mut String, quote: char, characters: &[char]) -> Result<(), NoMemory>
    ensures ok { OnOk result (Adds (encode_utf8_all (flat_map (escaped quote) characters.now)) out.old out.new) }
    ensures err { OnErr result (Lacks (encode_utf8_all (flat_map (escaped quote) characters.now)) out.old out.new) }
{
    for c in characters {
        put_escaped(out, quote, *c)?;
    }
    Ok(())
}

// Adds the `repr` of bytes: `b` and the same.
pub fn put_bytes(out: &mut String, bytes: &[u8]) -> Result<(), NoMemory>
    ensures ok { OnOk result (Adds (encode_utf8_all (bytes_repr_of bytes.now)) out.old out.new) }
    ensures err { OnErr result (Lacks (encode_utf8_all (bytes_repr_of bytes.now)) out.old out.new) }
{
    put_prefixed(out, bytes)
}

// Adds `b` and bytes between quotes.
fn put_prefixed(out: &mut String, bytes: &[u8]) -> Result<(), NoMemory>
    ensures ok { OnOk result (Adds (codes "b" ++ encode_utf8_all (bytes_between (quote_of bytes.now) bytes.now)) out.old out.new) }
    ensures err { OnErr result (Lacks (codes "b" ++ encode_utf8_all (bytes_between (quote_of bytes.now) bytes.now)) out.old out.new) }
{
    put(out, "b")?;
    put_bytes_quoted(out, bytes)
}

// Adds bytes between quotes.
fn put_bytes_quoted(out: &mut String, bytes: &[u8]) -> Result<(), NoMemory>
    ensures ok { OnOk result (Adds (encode_utf8_all (bytes_between (quote_of bytes.now) bytes.now)) out.old out.new) }
    ensures err { OnErr result (Lacks (encode_utf8_all (bytes_between (quote_of bytes.now) bytes.now)) out.old out.new) }
{
    let quote = narrow_quote(bytes);
    put_char(out, quote)?;
    put_bytes_escaped(out, quote, bytes)?;
    put_char(out, quote)?;
    Ok(())
}

// Adds bytes, as they stand between quotes.
fn put_bytes_escaped(out: &mut String, quote: char, bytes: &[u8]) -> Result<(), NoMemory>
    ensures ok { OnOk result (Adds (encode_utf8_all (flat_map (escaped_byte quote) bytes.now)) out.old out.new) }
    ensures err { OnErr result (Lacks (encode_utf8_all (flat_map (escaped_byte quote) bytes.now)) out.old out.new) }
{
    for b in bytes {
        put_escaped_byte(out, quote, *b)?;
    }
    Ok(())
}

// Adds a byte, as it stands between quotes.
#[tactic(auto, unfolding(si_plain::specs::Repr::escaped_byte))]
fn put_escaped_byte(out: &mut String, quote: char, b: u8) -> Result<(), NoMemory>
    ensures ok { OnOk result (Adds (encode_utf8_all (escaped_byte quote b)) out.old out.new) }
    ensures err { OnErr result (Lacks (encode_utf8_all (escaped_byte quote b)) out.old out.new) }
{
    if b < 128 {
        put_escaped(out, quote, char::from(b))
    } else {
        put_hex(out, b)
    }
}

// Adds a text, as it stands between quotes.
pub fn put_str_escaped(out: &mut String, quote: char, text: &str) -> Result<(), NoMemory>
    ensures ok { OnOk result (Adds (encode_utf8_all (flat_map (escaped quote) (characters_of text.now))) out.old out.new) }
    ensures err { OnErr result (Lacks (encode_utf8_all (flat_map (escaped quote) (characters_of text.now))) out.old out.new) }
{
    for c in text.chars() {
        put_escaped(out, quote, c)?;
    }
    Ok(())
}

// Adds a character, as it stands between quotes.
#[tactic(auto, unfolding(si_plain::specs::Repr::escaped))]
fn put_escaped(out: &mut String, quote: char, c: char) -> Result<(), NoMemory>
    ensures ok { OnOk result (Adds (encode_utf8_all (escaped quote c)) out.old out.new) }
    ensures err { OnErr result (Lacks (encode_utf8_all (escaped quote c)) out.old out.new) }
{
    if c == '\\' || c == quote {
        return put_after_backslash(out, c);
    }
    match c {
        '\n' => put_after_backslash(out, 'n'),
        '\r' => put_after_backslash(out, 'r'),
        '\t' => put_after_backslash(out, 't'),
        '\0'..'\x20' | '\x7f' => put_hex(out, c as u8),
        _ => put_one(out, c),
    }
}

// Adds a character as it is.
fn put_one(out: &mut String, c: char) -> Result<(), NoMemory>
    ensures ok { OnOk result (Adds (encode_utf8_all (c ∷ [])) out.old out.new) }
    ensures err { OnErr result (Lacks (encode_utf8_all (c ∷ [])) out.old out.new) }
{
    put_char(out, c)
}

fn put_after_backslash(out: &mut String, c: char) -> Result<(), NoMemory>
    ensures ok { OnOk result (Adds (encode_utf8_all (92 ∷ c ∷ [])) out.old out.new) }
    ensures err { OnErr result (Lacks (encode_utf8_all (92 ∷ c ∷ [])) out.old out.new) }
{
    put(out, "\\")?;
    put_one(out, c)
}

fn put_hex(out: &mut String, b: u8) -> Result<(), NoMemory>
    ensures ok { OnOk result (Adds (encode_utf8_all (hex_escape b)) out.old out.new) }
    ensures err { OnErr result (Lacks (encode_utf8_all (hex_escape b)) out.old out.new) }
{
    put(out, "\\x")?;
    put_char(out, hex_digit(b / 16))?;
    put_one(out, hex_digit(b % 16))
}

fn hex_digit(digit: u8) -> char
    requires { digit < 16 }
    ensures { result ≡ digit_char digit }
{
    let digits = b"0123456789abcdef";
    digits[digit as usize] as char
}
