// The characters of texts, compared where they lie.

ghost use Rattle.std.specs.Prelude.{◌≡◌, ◌≤◌, ◌<◌, drop, length, slice_index};
ghost use Rattle.si_plain.specs.Characters.{characters_of};
ghost use Rattle.si_semantics.specs.Parts.{begins_with};
ghost use Rattle.si_semantics.specs.Text.{same_text};
ghost use Rattle.si_semantics.specs.Attributes as attributes;
ghost use Rattle.si_arena.specs.Texts.{characters_in};

use si_arena::Characters;
use si_plain::Text;

/// Whether a name has the characters of this word.
pub fn is_spelled(name: &Text, word: &str) -> bool
    ensures { result ≡ same_text name.now (characters_of word.now) }
{
    name.as_str() == word
}

/// Whether two words have the same characters.
pub fn same_word(word: &str, other: &str) -> bool
    ensures { result ≡ same_text (characters_of word.now) (characters_of other.now) }
{
    word == other
}

/// Whether a text begins, from an index on, with another.
#[tactic(auto, using(si_ops::proofs::Parts::begins_next, si_ops::proofs::Parts::begins_apart, si_ops::proofs::Parts::begins_short, si_ops::proofs::Parts::begins_end))]
pub fn begins_at(whole: Characters, start: usize, part: Characters) -> bool
    requires { start ≤ length (characters_in whole) }
    ensures { result ≡ begins_with (drop start (characters_in whole.entry)) (characters_in part.entry) }
{
    for i in 0..length_of(part) {
        if length_of(whole) - start <= i {
            return false;
        }
        if character_at(whole, start + i) != character_at(part, i) {
            return false;
        }
    }
    true
}

/// Whether a text ends with another: it begins with it where so many characters are left.
#[tactic(auto, using(crate::proofs::Ending::ends_short, crate::proofs::Ending::ends_is))]
pub fn ends_at(whole: Characters, part: Characters) -> bool
    ensures { result ≡ attributes.ends_with (characters_in whole.entry) (characters_in part.entry) }
{
    let (length, count) = (length_of(whole), length_of(part));
    if count > length {
        return false;
    }
    begins_at(whole, length - count, part)
}

/// How many characters a text has.
pub fn length_of(text: Characters) -> usize
    ensures { result ≡ length (characters_in text.entry) }
{
    match text {
        Characters::Narrow(characters) => characters.len(),
        Characters::Wide(characters) => characters.len(),
    }
}

// The character of a text at an index.
fn character_at(text: Characters, index: usize) -> char
    requires { index < length (characters_in text) }
    ensures { result ≡ slice_index (characters_in text.entry) index }
{
    match text {
        Characters::Narrow(characters) => char::from(characters[index]),
        Characters::Wide(characters) => characters[index],
    }
}
