// Which keys values are.

ghost use Rattle.std.specs.Prelude.{◌≡◌, ℕ, List, Some, IfOk, OnErr};
ghost use Rattle.si_semantics.specs.Value as pure;
ghost use Rattle.si_arena.specs.Short.{short_text};
ghost use Rattle.si_arena.specs.Texts.{text_of, IsText, TextLies};
ghost use Rattle.si_arena.specs.inner.Words.{words_of, WordsLie};
ghost use Rattle.si_arena.specs.inner.Keys.{key_in, Means, FindsAtom, TakesAtom};

use crate::atom::Atom;
use crate::short::Short;
use crate::texts::Texts;
use crate::value::Ref;
use crate::words::Words;
use si_plain::NoMemory;

/// The atom of a value, where it is a key that a dict may have. Takes no memory.
#[inline(always)]
pub fn atom_of(texts: &Texts, words: &Words, key: &Ref) -> Option<Atom>
    requires words { WordsLie texts.now words.now }
    requires key { TextLies texts.now key.now }
    ensures { FindsAtom (words_of texts.now words.now) (key_in texts.now key.now) result }
{
    match key {
        Ref::Int(n) => Some(Atom::Int(*n)),
        Ref::Short(short) => Some(short_atom(short)),
        Ref::Narrow { .. } => text_atom(texts, words, key),
        Ref::Wide { .. } => text_atom(texts, words, key),
        _ => None,
    }
}

/// The atom of a value that is to be a key, where it can be one: a text that is too long for a `Short` is a word from now
/// on. Where memory is refused, the words are as before.
pub fn atom_for(texts: &Texts, words: &mut Words, key: &Ref) -> Result<Option<Atom>, NoMemory>
    requires words { WordsLie texts.now words.old }
    requires key { TextLies texts.now key.now }
    ensures ok { IfOk result (λ atom. TakesAtom texts.now words.old words.new (key_in texts.now key.now) atom) }
    ensures err { OnErr result (words.new ≡ words.old) }
{
    match key {
        Ref::Int(n) => Ok(Some(Atom::Int(*n))),
        Ref::Short(short) => Ok(Some(short_atom(short))),
        Ref::Narrow { .. } => Ok(Some(word_for(texts, words, key)?)),
        Ref::Wide { .. } => Ok(Some(word_for(texts, words, key)?)),
        _ => Ok(None),
    }
}

#[inline(always)]
fn short_atom(short: &Short) -> Atom
    ensures { (us : List (List ℕ)) → Means us result (pure.Word (short_text short.now)) }
{
    short.fits();
    Atom::Short(*short)
}

// The atom of a text, where a dict may have it.
fn text_atom(texts: &Texts, words: &Words, text: &Ref) -> Option<Atom>
    requires words { WordsLie texts.now words.now }
    requires text { TextLies texts.now text.now }
    ensures { FindsAtom (words_of texts.now words.now) (Some (pure.Word (text_of texts.now text.now))) result }
{
    match Short::from_characters(texts.characters(text)) {
        Some(short) => Some(short_atom(&short)),
        None => match words.find(texts, text) {
            Some(word) => Some(Atom::Word(word)),
            None => None,
        },
    }
}

// The atom of a text that is to be a key.
fn word_for(texts: &Texts, words: &mut Words, text: &Ref) -> Result<Atom, NoMemory>
    requires words { WordsLie texts.now words.old }
    requires text { IsText text.now × TextLies texts.now text.now }
    ensures ok { IfOk result (λ atom. TakesAtom texts.now words.old words.new (Some (pure.Word (text_of texts.now text.now))) (Some atom)) }
    ensures err { OnErr result (words.new ≡ words.old) }
{
    if let Some(short) = Short::from_characters(texts.characters(text)) {
        return Ok(short_atom(&short));
    }
    if let Some(word) = words.find(texts, text) {
        return Ok(Atom::Word(word));
    }
    Ok(Atom::Word(words.add(texts, *text)?))
}
