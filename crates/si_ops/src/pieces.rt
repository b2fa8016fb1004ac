// Pieces of text at the end of a String.

ghost use Rattle.std.specs.Prelude.{◌++◌, OnOk, OnErr, encode_utf8_all, encode_utf8};
ghost use Rattle.si_semantics.specs.Text as semantics;
ghost use Rattle.si_arena.specs.Texts.{characters_in};
ghost use Rattle.si_ops.specs.Writing.{Adds, Lacks};

use itoa::Buffer;
use si_arena::Characters;
use si_plain::NoMemory;
use std::str::from_utf8;

// Adds a text.
pub fn put(out: &mut String, text: &str) -> Result<(), NoMemory>
    ensures ok { OnOk result (Adds text.now out.old out.new) }
    ensures err { OnErr result (Lacks text.now out.old out.new) }
{
    out.push_str(text)
}

// Adds a character.
pub fn put_char(out: &mut String, c: char) -> Result<(), NoMemory>
    ensures ok { OnOk result (Adds (encode_utf8 c) out.old out.new) }
    ensures err { OnErr result (Lacks (encode_utf8 c) out.old out.new) }
{
    out.push(c)
}

// Adds three texts.
pub fn put_within(out: &mut String, front: &str, middle: &str, back: &str) -> Result<(), NoMemory>
    ensures ok { OnOk result (Adds (front.now ++ (middle.now ++ back.now)) out.old out.new) }
    ensures err { OnErr result (Lacks (front.now ++ (middle.now ++ back.now)) out.old out.new) }
{
    put(out, front)?;
    put(out, middle)?;
    put(out, back)
}

// Adds an integer.
pub fn put_int(out: &mut String, n: i64) -> Result<(), NoMemory>
    ensures ok { OnOk result (Adds (encode_utf8_all (semantics.decimal n)) out.old out.new) }
    ensures err { OnErr result (Lacks (encode_utf8_all (semantics.decimal n)) out.old out.new) }
{
    put_digits(out, n)
}

// Adds the digits of an integer, which are ASCII.
fn put_digits(out: &mut String, n: i64) -> Result<(), NoMemory>
    ensures ok { OnOk result (Adds (semantics.decimal n) out.old out.new) }
    ensures err { OnErr result (Lacks (semantics.decimal n) out.old out.new) }
{
    let mut buffer = Buffer::new();
    put(out, buffer.format(n))
}

// Adds the characters of a str.
pub fn put_characters(out: &mut String, characters: Characters) -> Result<(), NoMemory>
    ensures ok { OnOk result (Adds (encode_utf8_all (characters_in characters.entry)) out.old out.new) }
    ensures err { OnErr result (Lacks (encode_utf8_all (characters_in characters.entry)) out.old out.new) }
{
    match characters {
        Characters::Narrow(characters) => put_narrow(out, characters),
        Characters::Wide(characters) => put_wide(out, characters),
    }
}

// Adds characters below 256: all at once where they are ASCII.
fn put_narrow(out: &mut String, characters: &[u8]) -> Result<(), NoMemory>
    ensures ok { OnOk result (Adds (encode_utf8_all characters.now) out.old out.new) }
    ensures err { OnErr result (Lacks (encode_utf8_all characters.now) out.old out.new) }
{
    if characters.is_ascii() {
        if let Ok(text) = from_utf8(characters) {
            return put(out, text);
        }
    }
    put_each(out, characters)
}

// Adds characters below 256, one by one.
fn put_each(out: &mut String, characters: &[u8]) -> Result<(), NoMemory>
    ensures ok { OnOk result (Adds (encode_utf8_all characters.now) out.old out.new) }
    ensures err { OnErr result (Lacks (encode_utf8_all characters.now) out.old out.new) }
{
    for c in characters {
        put_char(out, char::from(*c))?;
    }
    Ok(())
}

// Adds characters.
fn put_wide(out: &mut String, characters: &[char]) -> Result<(), NoMemory>
    ensures ok { OnOk result (Adds (encode_utf8_all characters.now) out.old out.new) }
    ensures err { OnErr result (Lacks (encode_utf8_all characters.now) out.old out.new) }
{
    for c in characters {
        put_char(out, *c)?;
    }
    Ok(())
}
