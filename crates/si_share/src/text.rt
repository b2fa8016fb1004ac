// The text of characters that lie in an arena.

ghost use Rattle.std.specs.Prelude.{◌≡◌, IfOk};
ghost use Rattle.si_arena.specs.Texts.{characters_in};

use si_arena::Characters;
use si_plain::{NoMemory, Text};
use std::alloc::Global;

/// These characters. `AllocError` where memory is refused.
pub fn text_of(alloc: Global, characters: Characters<'_>) -> Result<Text, NoMemory>
    ensures { IfOk result (λ t. t ≡ characters_in characters.entry) }
{
    match characters {
        Characters::Narrow(characters) => narrow_text(alloc, characters),
        Characters::Wide(characters) => wide_text(alloc, characters),
    }
}

// Characters below 256, of which most texts have only ASCII: that is copied as it stands.
fn narrow_text(alloc: Global, characters: &[u8]) -> Result<Text, NoMemory>
    ensures { IfOk result (λ t. t ≡ characters.now) }
{
    if characters.is_ascii() {
        if let Ok(ascii) = std::str::from_utf8(characters) {
            let text = Text::from_str(alloc, ascii)?;
            return Ok(text);
        }
    }
    latin_text(alloc, characters)
}

// Characters below 256, one by one: each takes at most two bytes.
fn latin_text(alloc: Global, characters: &[u8]) -> Result<Text, NoMemory>
    ensures { IfOk result (λ t. t ≡ characters.now) }
{
    let mut text = Text::with_capacity(alloc, characters.len().saturating_mul(2))?;
    for c in characters {
        text.push(char::from(*c))?;
    }
    Ok(text)
}

// Any characters, one by one: each takes at most four bytes.
fn wide_text(alloc: Global, characters: &[char]) -> Result<Text, NoMemory>
    ensures { IfOk result (λ t. t ≡ characters.now) }
{
    let mut text = Text::with_capacity(alloc, characters.len().saturating_mul(4))?;
    for c in characters {
        text.push(*c)?;
    }
    Ok(text)
}
