// A str of a script: a list of characters.

ghost use Rattle.std.specs.Prelude.{◌≡◌, ◌↔◌, [], ◌∷◌, ◌++◌, length, IsTrue, IfOk, OnOk, OnErr, encode_utf8_all};
ghost use Rattle.si_plain.specs.Characters.{characters_of};

use crate::bytes::Bytes;
use std::alloc::{AllocError, Global};
use std::marker::Model;

/// A str of a script (Python Language Reference 3.14, 3.2.5.1 "Immutable sequences"): a list of characters, kept as
/// UTF-8 with its count: in the value itself where it is short. A contract sees the list, by code points.
#[derive(Debug, Drop)]
pub struct Text {
    alloc: Global,
    bytes: Bytes,
    characters: usize,
}

impl Model for Text {
    ghost use Rattle.std.specs.Prelude.{◌≡◌, ℕ, List, length};
    ghost use Rattle.si_plain.specs.Characters.{characters_of};
    ghost use Rattle.si_plain.specs.Bytes.{bytes_of, IsText};

    ghost Value = { List ℕ };

    ghost view = { λ t. characters_of (bytes_of t.bytes) };

    ghost invariant = { λ t. (t.characters ≡ length (characters_of (bytes_of t.bytes))) × IsText (bytes_of t.bytes) };
}

impl Text {
    /// The empty text.
    pub fn new(alloc: Global) -> Text
        ensures { result ≡ [] }
    {
        Text {
            alloc,
            bytes: Bytes::new(),
            characters: 0,
        }
    }

    /// The empty text, with room for so many bytes of UTF-8. `AllocError` where memory is refused.
    pub fn with_capacity(alloc: Global, capacity: usize) -> Result<Text, AllocError>
        ensures { IfOk result (λ t. t ≡ []) }
    {
        let bytes = Bytes::with_capacity(alloc, capacity)?;
        let characters = 0;
        Ok(Text {
            alloc,
            bytes,
            characters,
        })
    }

    /// The characters of `text`.
    pub fn from_str(alloc: Global, text: &str) -> Result<Text, AllocError>
        ensures { IfOk result (λ t. t ≡ characters_of text.now) }
    {
        let mut copy = Text::with_capacity(alloc, text.len())?;
        copy.push_str(text)?;
        Ok(copy)
    }

    /// Its characters in UTF-8.
    pub fn as_str(&self) -> &str
        ensures bytes { result.now ≡ encode_utf8_all self.now }
        ensures characters { characters_of result.now ≡ self.now }
    {
        self.bytes.as_str()
    }

    /// How many characters it has. Costs nothing.
    pub fn len(&self) -> usize
        ensures { result ≡ length self.now }
    {
        self.characters
    }

    /// Whether it has no character.
    pub fn is_empty(&self) -> bool
        ensures { IsTrue result ↔ (self.now ≡ []) }
    {
        self.characters == 0
    }

    /// One more character at its end; unchanged where memory is refused.
    pub fn push(&mut self, c: char) -> Result<(), AllocError>
        ensures ok { OnOk result (self.new ≡ self.old ++ c ∷ []) }
        ensures err { OnErr result (self.new ≡ self.old) }
    {
        let mut buffer = [0; 4];
        self.bytes.push_str(self.alloc, c.encode_utf8(&mut buffer))?;
        self.characters += 1;
        Ok(())
    }

    /// The characters of `text` at its end; unchanged where memory is refused.
    pub fn push_str(&mut self, text: &str) -> Result<(), AllocError>
        ensures ok { OnOk result (self.new ≡ self.old ++ characters_of text.now) }
        ensures err { OnErr result (self.new ≡ self.old) }
    {
        self.bytes.push_str(self.alloc, text)?;
        self.characters += count_of(text);
        Ok(())
    }

    /// Another text at its end; unchanged where memory is refused.
    pub fn append(&mut self, other: &Text) -> Result<(), AllocError>
        ensures ok { OnOk result (self.new ≡ self.old ++ other.now) }
        ensures err { OnErr result (self.new ≡ self.old) }
    {
        self.bytes.push_str(self.alloc, other.as_str())?;
        self.characters += other.characters;
        Ok(())
    }
}

impl Clone for Text {
    ghost is_clone = { λ text copy. copy ≡ text };

    fn clone(&self) -> Result<Text, AllocError> {
        let bytes = self.bytes.copied()?;
        let characters = self.characters;
        Ok(Text {
            alloc: self.alloc,
            bytes,
            characters,
        })
    }
}

impl PartialEq for Text {
    ghost use Rattle.std.specs.Prelude.{bytes_eq};
    ghost use Rattle.std.specs.Cmp.{partial_equiv_from_equiv};
    ghost use Rattle.std.specs.Cmp.Lexicographic.{nat_list_eq_equiv};

    ghost eq = { bytes_eq };

    ghost laws = { partial_equiv_from_equiv nat_list_eq_equiv };

    fn eq(&self, other: &Text) -> bool {
        self.as_str() == other.as_str()
    }
}

impl Eq for Text {
    ghost use Rattle.std.specs.Cmp.Lexicographic.{nat_list_eq_equiv};

    ghost laws = { nat_list_eq_equiv };
}

// How many characters a str has.
fn count_of(text: &str) -> usize
    ensures { result ≡ length (characters_of text.now) }
{
    text.chars().count()
}

// Texts are moved, and so they are small.
const _: () = prove!(size_of::<Text>() <= 40);
