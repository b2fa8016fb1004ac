// The characters of texts, compared where they lie.

ghost use Rattle.std.specs.Prelude.{◌≡◌, ◌<◌, length, slice_index};
ghost use Rattle.si_semantics.specs.Text.{same_text};
ghost use Rattle.si_semantics.specs.Operations as operations;
ghost use Rattle.si_arena.specs.Texts.{characters_in};

use si_arena::Characters;

/// Whether two texts have the same characters.
pub fn are_same(left: Characters, right: Characters) -> bool
    ensures { result ≡ same_text (characters_in left.entry) (characters_in right.entry) }
{
    match (left, right) {
        (Characters::Narrow(left), Characters::Narrow(right)) => left == right,
        (Characters::Wide(left), Characters::Wide(right)) => left == right,
        _ => are_same_by_index(left, right),
    }
}

/// Whether a text comes before another: at the first character that differs, or where it ends and the other goes on
/// (Python Language Reference 3.14, 6.10.1).
#[tactic(auto, using(crate::proofs::Compared::before_next, crate::proofs::Compared::before_apart, crate::proofs::Compared::before_end, crate::proofs::Compared::before_last))]
pub fn is_before(left: Characters, right: Characters) -> bool
    ensures { result ≡ operations.is_before (characters_in left.entry) (characters_in right.entry) }
{
    for i in 0..length_of(left) {
        if i >= length_of(right) {
            return false;
        }
        let (c, d) = (character_at(left, i), character_at(right, i));
        if c != d {
            return c < d;
        }
    }
    length_of(left) < length_of(right)
}

// The same as `are_same`, character by character.
#[tactic(auto, using(crate::proofs::Compared::same_next, crate::proofs::Compared::same_not, crate::proofs::Compared::same_end, crate::proofs::Compared::differ_long))]
fn are_same_by_index(left: Characters, right: Characters) -> bool
    ensures { result ≡ same_text (characters_in left.entry) (characters_in right.entry) }
{
    if length_of(left) != length_of(right) {
        return false;
    }
    for i in 0..length_of(left) {
        if character_at(left, i) != character_at(right, i) {
            return false;
        }
    }
    true
}

/// How many characters a text has.
pub fn length_of(text: Characters) -> usize
    ensures { result ≡ length (characters_in text.entry) }
{
    match text {
        Characters::Narrow(characters) => characters.len(),
        Characters::Wide(characters) => characters.len(),
    }
}

/// The character of a text at an index.
#[inline(always)]
pub fn character_at(text: Characters, index: usize) -> char
    requires { index < length (characters_in text) }
    ensures { result ≡ slice_index (characters_in text.entry) index }
{
    match text {
        Characters::Narrow(characters) => char::from(characters[index]),
        Characters::Wide(characters) => characters[index],
    }
}
