// A text in the value itself.

ghost use Rattle.std.specs.Prelude.{◌≡◌, ◌≤◌, take};
ghost use Rattle.si_arena.specs.inner.Padding.{padded};

use crate::characters::Characters;
use crate::value::AtWord;
use std::hash::{Hash, Hasher};

/// A text of at most 11 characters, each of a code point below 256, so that it takes no memory of its own.
#[derive(Clone, Copy, Debug)]
pub struct Short {
    // a word begins at the first byte
    at: AtWord,
    characters: [u8; 11],
    length: u8,
    ghost within: { length ≤ 11 },
    // zeros follow the characters, so that equal texts have equal bytes
    ghost zeros: { characters ≡ padded (take length characters) },
}

impl Short {
    ghost use Rattle.std.specs.Prelude.{◌≡◌, ◌+◌, ◌<◌, ◌≤◌, ◌++◌, ◌∷◌, [], length, take, drop, MatchOption};
    ghost use Rattle.std.specs.Int.{w32, w64, from_le_bytes, to_le_bytes};
    ghost use Rattle.si_plain.specs.Characters.{characters_of};
    ghost use Rattle.si_arena.specs.Short.{short_text, FitsShort};
    ghost use Rattle.si_arena.specs.Texts.{characters_in};
    ghost use Rattle.si_arena.specs.inner.Padding.{number_of};

    /// The most characters that it has.
    pub const CAPACITY: usize = 11;

    /// The empty text.
    pub fn new() -> Short
        ensures { short_text result ≡ [] }
    {
        Short {
            at: [],
            characters: [0; 11],
            length: 0,
        }
    }

    /// The text of this character alone.
    pub fn of(c: u8) -> Short
        ensures { short_text result ≡ c ∷ [] }
    {
        let mut short = Short::new();
        short.push(c);
        short
    }

    /// The characters of `text`, where they are few enough and each is below 256.
    pub fn from_str(text: &str) -> Option<Short>
        ensures { MatchOption result (¬ FitsShort (characters_of text.now)) (λ s. short_text s ≡ characters_of text.now) }
    {
        if text.is_ascii() {
            return Short::from_narrow(text.as_bytes());
        }
        let mut short = Short::new();
        for c in text.chars() {
            if c > '\u{ff}' {
                return None;
            }
            if short.as_slice().len() == Short::CAPACITY {
                return None;
            }
            short.push(c as u8);
        }
        Some(short)
    }

    /// The text of these characters, where they are few enough and each is below 256.
    pub fn from_characters(characters: Characters) -> Option<Short>
        ensures { MatchOption result (¬ FitsShort (characters_in characters.entry)) (λ s. short_text s ≡ characters_in characters.entry) }
    {
        match characters {
            Characters::Narrow(characters) => Short::from_narrow(characters),
            Characters::Wide(characters) => Short::from_wide(characters),
        }
    }

    // The text of these characters, where they are few enough.
    fn from_narrow(characters: &[u8]) -> Option<Short>
        ensures { MatchOption result (¬ FitsShort characters.now) (λ s. short_text s ≡ characters.now) }
    {
        if characters.len() > Short::CAPACITY {
            return None;
        }
        let mut short = Short::new();
        short.append(characters);
        Some(short)
    }

    // The text of these characters, where they are few enough and each is below 256.
    fn from_wide(characters: &[char]) -> Option<Short>
        ensures { MatchOption result (¬ FitsShort characters.now) (λ s. short_text s ≡ characters.now) }
    {
        if characters.len() > Short::CAPACITY {
            return None;
        }
        let mut short = Short::new();
        for c in characters {
            if *c > '\u{ff}' {
                return None;
            }
            short.push(*c as u8);
        }
        Some(short)
    }

    /// Its characters are few enough, and each is below 256.
    pub(crate) fn fits(&self)
        ensures { FitsShort (short_text self.now) }
    {
        let characters = self.as_slice();
        for i in 0..characters.len() {
            let _byte = characters[i];
        }
    }

    /// Its characters, by their code points.
    pub fn as_slice(&self) -> &[u8]
        ensures { result.now ≡ short_text self.now }
    {
        &self.characters[..self.length as usize]
    }

    // The first 8 of its 11 bytes, as one number.
    #[inline(always)]
    fn first_eight(&self) -> u64
        ensures value { result ≡ from_le_bytes w64 (take 8 self.now.characters) }
        ensures bytes { to_le_bytes w64 result ≡ take 8 self.now.characters }
    {
        let [a, b, c, d, e, f, g, h, _, _, _] = self.characters;
        u64::from_le_bytes([a, b, c, d, e, f, g, h])
    }

    // The other 3 of its 11 bytes and its length, as one number.
    #[inline(always)]
    fn others(&self) -> u32
        ensures value { result ≡ from_le_bytes w32 (drop 8 self.now.characters ++ self.now.length ∷ []) }
        ensures bytes { to_le_bytes w32 result ≡ drop 8 self.now.characters ++ self.now.length ∷ [] }
    {
        let [_, _, _, _, _, _, _, _, a, b, c] = self.characters;
        u32::from_le_bytes([a, b, c, self.length])
    }

    // Its 11 bytes, as one number.
    #[inline(always)]
    fn number(&self) -> u128
        ensures { result ≡ number_of self.now.characters }
    {
        let [_, _, _, _, _, _, _, _, a, b, c] = self.characters;
        let last = u32::from_le_bytes([a, b, c, 0]);
        u128::from(last) * 0x1_0000_0000_0000_0000 + u128::from(self.first_eight())
    }

    /// One more character at its end.
    pub fn push(&mut self, c: u8)
        requires { length (short_text self.old) < 11 }
        ensures { short_text self.new ≡ short_text self.old ++ c ∷ [] }
    {
        self.characters[self.length as usize] = c;
        self.length += 1;
    }

    /// More characters at its end.
    pub fn append(&mut self, characters: &[u8])
        requires { length (short_text self.old) + length characters.now ≤ 11 }
        ensures { short_text self.new ≡ short_text self.old ++ characters.now }
    {
        for c in characters {
            self.push(*c);
        }
    }
}

impl PartialEq for Short {
    ghost use Rattle.std.specs.Prelude.{bytes_eq};
    ghost use Rattle.std.specs.Cmp.{partial_equiv_from_equiv, on_equiv};
    ghost use Rattle.std.specs.Cmp.Lexicographic.{nat_list_eq_equiv};
    ghost use Rattle.si_arena.specs.Short.{short_text};

    ghost eq = { λ s t. bytes_eq (short_text s) (short_text t) };

    ghost laws = { partial_equiv_from_equiv (on_equiv short_text nat_list_eq_equiv) };

    #[inline(always)]
    fn eq(&self, other: &Short) -> bool {
        self.first_eight() == other.first_eight() && self.others() == other.others()
    }
}

impl Eq for Short {
    ghost use Rattle.std.specs.Cmp.{on_equiv};
    ghost use Rattle.std.specs.Cmp.Lexicographic.{nat_list_eq_equiv};
    ghost use Rattle.si_arena.specs.Short.{short_text};

    ghost laws = { on_equiv short_text nat_list_eq_equiv };
}

impl Hash for Short {
    ghost use Rattle.std.specs.Hash as fed;
    ghost use Rattle.std.proofs.Common.{ap};
    ghost use Rattle.si_arena.specs.Short.{short_text};
    ghost use Rattle.si_arena.specs.inner.Padding.{bytes_same, number_of};

    ghost hash_input = { λ s. fed.u128 (number_of s.characters) };

    ghost respects_eq = { λ s t h. ap (λ cs. fed.u128 (number_of cs)) (bytes_same (short_text s) (short_text t) s.zeros t.zeros h) };

    #[inline(always)]
    fn hash<H: Hasher>(&self, state: &mut H) {
        state.write_u128(self.number());
    }
}
