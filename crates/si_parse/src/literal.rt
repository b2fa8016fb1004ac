// The values of literals of strs and bytes.

ghost use Rattle.std.specs.Prelude.{◌≡◌, ◌<◌, ◌==◌, ◌||◌, ◌++◌, not, chars, All, IfOk, OnOk};
ghost use Rattle.std.specs.Option.{option_to_list};
ghost use Rattle.si_semantics.specs.Literals.{value_of_literal, value_of_str, value_of_bytes};
ghost use Rattle.si_parse.specs.inner.Gives.{Gives};

use crate::fault::ParseFault;
use si_plain::Text;
use si_token::{begins_raw, between_quotes, escape, is_ascii, next_character, unprefixed};
use std::alloc::{AllocError, Global};

// Puts the character after the others, where there is one.
fn keep(text: &mut Text, written: Option<char>) -> Result<(), AllocError>
    ensures { OnOk result (text.new ≡ text.old ++ option_to_list written) }
{
    if let Some(character) = written {
        text.push(character)?;
    }
    Ok(())
}

// Whether a character stands for itself: in a raw literal a backslash does too.
fn is_plain(raw: bool, character: char) -> bool
    ensures { result ≡ (raw || not (character == 92)) }
{
    raw || character != '\\'
}

// The value of a str literal, which stands in the line.
pub(crate) fn str_value(alloc: Global, literal: &str, line: usize) -> Result<Text, ParseFault>
    ensures { Gives (λ text. text) result (value_of_str literal.now) }
{
    written(alloc, false, literal, line)
}

// The value of a bytes literal, which stands in the line.
pub(crate) fn bytes_value(alloc: Global, literal: &str, line: usize) -> Result<Vec<u8>, ParseFault>
    ensures { Gives (λ bytes. bytes.items) result (value_of_bytes literal.now) }
{
    if !is_ascii(literal) {
        return Err(ParseFault::Syntax(line));
    }
    let text = written(alloc, true, literal, line)?;
    Ok(bytes_of(alloc, text.as_str())?)
}

// The numbers of characters as bytes.
fn bytes_of(alloc: Global, text: &str) -> Result<Vec<u8>, AllocError>
    requires { All (λ c. c < 256) (chars text.now) }
    ensures { IfOk result (λ bytes. bytes.items ≡ chars text.now) }
{
    let mut bytes = Vec::new(alloc);
    for character in text.chars() {
        bytes.push(character as u8)?;
    }
    Ok(bytes)
}

// What a literal writes, of bytes or of a text.
fn written(alloc: Global, bytes: bool, literal: &str, line: usize) -> Result<Text, ParseFault>
    ensures { Gives (λ text. text) result (value_of_literal bytes (chars literal.now)) }
{
    let raw = begins_raw(literal);
    let mut rest = between_quotes(unprefixed(literal));
    let mut text = Text::new(alloc);
    // how many of the next characters belong to the escape before
    let mut skipped = 0;
    while let Some((character, after)) = next_character(rest) {
        rest = after;
        if skipped > 0 {
            skipped -= 1;
        } else if is_plain(raw, character) {
            text.push(character)?;
        } else {
            let Some((character, count)) = escape(bytes, after) else {
                return Err(ParseFault::Syntax(line));
            };
            keep(&mut text, character)?;
            skipped = count;
        }
    }
    Ok(text)
}
