// The long texts that are keys of dicts.

ghost use Rattle.std.specs.Prelude.{◌≡◌, [], IfOk, OnErr};
ghost use Rattle.si_arena.specs.Short.{FitsShort};
ghost use Rattle.si_arena.specs.Texts.{text_of, characters_in, IsText, TextLies};
ghost use Rattle.si_arena.specs.inner.Words.{FindsWord, IsStrange, IsNext, WordsLie};

use crate::characters::{Characters, are_same, number_in};
use crate::texts::Texts;
use crate::value::Ref;
use indexmap::IndexMap;
use si_plain::NoMemory;
use std::alloc::Global;
use std::marker::Model;

/// The texts that are keys of dicts and too long for a `Short`, each once, so that a word's number is as good as its
/// characters; and the first word of each number of a text.
#[derive(Drop)]
pub struct Words {
    first: IndexMap<u64, usize>,
    texts: Vec<Ref>,
}

impl Model for Words {
    ghost use Rattle.si_arena.specs.inner.Words.{Words};

    ghost Value = { Words };

    ghost view = { λ w. record { first = w.first.entries; texts = w.texts.items } };
}

impl Words {
    /// No words.
    pub fn new(alloc: Global) -> Words
        ensures { result ≡ record { first = []; texts = [] } }
    {
        Words {
            first: IndexMap::new(alloc),
            texts: Vec::new(alloc),
        }
    }

    /// The word of a text. Takes no memory.
    pub fn find(&self, texts: &Texts, text: &Ref) -> Option<usize>
        requires words { WordsLie texts.now self.now }
        requires text { TextLies texts.now text.now }
        ensures { FindsWord texts.now self.now (text_of texts.now text.now) result }
    {
        let characters = texts.characters(text);
        let first = *self.first.get(&number_in(characters))?;
        if are_same(texts.characters(&self.texts[first]), characters) {
            return Some(first);
        }
        self.search(texts, characters)
    }

    // The word of these characters, among all.
    fn search(&self, texts: &Texts, characters: Characters) -> Option<usize>
        requires { WordsLie texts.now self.now }
        ensures { FindsWord texts.now self.now (characters_in characters.entry) result }
    {
        for i in 0..self.texts.len() {
            if are_same(texts.characters(&self.texts[i]), characters) {
                return Some(i);
            }
        }
        None
    }

    /// A text that is no word and too long for a `Short` is the next word; unchanged where memory is refused.
    pub fn add(&mut self, texts: &Texts, text: Ref) -> Result<usize, NoMemory>
        requires words { WordsLie texts.now self.old }
        requires text { IsText text × TextLies texts.now text }
        requires long { ¬ FitsShort (text_of texts.now text) }
        requires strange { IsStrange texts.now self.old (text_of texts.now text) }
        ensures ok { IfOk result (λ word. IsNext texts.now text self.old self.new word) }
        ensures err { OnErr result (self.new ≡ self.old) }
    {
        let word = self.texts.len();
        let number = number_in(texts.characters(&text));
        self.texts.push(text)?;
        if self.first.contains_key(&number) {
            return Ok(word);
        }
        match self.first.insert(number, word) {
            Ok(_) => Ok(word),
            Err(refused) => {
                self.texts.truncate(word);
                Err(refused.into())
            }
        }
    }
}
