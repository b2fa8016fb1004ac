// The characters of a text, where they lie.

ghost use Rattle.std.specs.Prelude.{◌≡◌, ◌<◌, ◌∷◌, [], length, slice_index};
ghost use Rattle.si_semantics.specs.Text.{same_text};
ghost use Rattle.si_arena.specs.Texts.{characters_in};
ghost use Rattle.si_arena.specs.inner.Words.{number_from, number_of};

/// The characters of a text, each by its code point: one byte each, where all are below 256, or four.
#[derive(Clone, Copy, Debug)]
pub enum Characters<'a> {
    Narrow(&'a [u8]),
    Wide(&'a [char]),
}

/// Whether two texts have the same characters.
pub(crate) fn are_same(left: Characters, right: Characters) -> bool
    ensures { result ≡ same_text (characters_in left.entry) (characters_in right.entry) }
{
    match (left, right) {
        (Characters::Narrow(left), Characters::Narrow(right)) => left == right,
        (Characters::Wide(left), Characters::Wide(right)) => left == right,
        _ => are_same_by_index(left, right),
    }
}

// The same, character by character.
#[tactic(auto, using(crate::proofs::Compared::same_next, crate::proofs::Compared::same_not, crate::proofs::Compared::same_end, crate::proofs::Compared::differ_long))]
fn are_same_by_index(left: Characters, right: Characters) -> bool
    ensures { result ≡ same_text (characters_in left.entry) (characters_in right.entry) }
{
    if length_of(left) != length_of(right) {
        return false;
    }
    for i in 0..length_of(left) {
        if character_at(left, i) != character_at(right, i) {
            return false;
        }
    }
    true
}

// How many characters a text has.
fn length_of(text: Characters) -> usize
    ensures { result ≡ length (characters_in text.entry) }
{
    match text {
        Characters::Narrow(characters) => characters.len(),
        Characters::Wide(characters) => characters.len(),
    }
}

// The character of a text at an index.
fn character_at(text: Characters, index: usize) -> char
    requires { index < length (characters_in text) }
    ensures { result ≡ slice_index (characters_in text.entry) index }
{
    match text {
        Characters::Narrow(characters) => char::from(characters[index]),
        Characters::Wide(characters) => characters[index],
    }
}

/// A number of a text, by which it is looked up: that of the same characters is the same.
pub(crate) fn number_in(text: Characters) -> u64
    ensures { result ≡ number_of (characters_in text.entry) }
{
    match text {
        Characters::Narrow(characters) => narrow_number(characters),
        Characters::Wide(characters) => wide_number(characters),
    }
}

fn narrow_number(characters: &[u8]) -> u64
    ensures { result ≡ number_of characters.now }
{
    let mut number = 0;
    for c in characters {
        number = with_character(number, *c as u64);
    }
    number
}

fn wide_number(characters: &[char]) -> u64
    ensures { result ≡ number_of characters.now }
{
    let mut number = 0;
    for c in characters {
        number = with_character(number, *c as u64);
    }
    number
}

// The number of a text with one character more.
fn with_character(number: u64, character: u64) -> u64
    ensures { result ≡ number_from number (character ∷ []) }
{
    number.wrapping_mul(1_000_003).wrapping_add(character)
}
