// The dicts of an arena.

ghost use Rattle.std.specs.Prelude.{◌≡◌, ◌<◌, [], length, IfOk, IfSome, OnOk, OnErr, option_map};
ghost use Rattle.si_semantics.specs.Value as pure;
ghost use Rattle.si_semantics.specs.Dicts.{key_of, value_at, with_pair, without_key, with_pairs};
ghost use Rattle.si_arena.specs.Texts.{TextLies};
ghost use Rattle.si_arena.specs.inner.Words.{WordsLie, Grown};
ghost use Rattle.si_arena.specs.inner.Keys.{AddsPair, EachTextLies, GathersDict};
ghost use Rattle.si_arena.specs.Memory.{value_of, all_of, Lies, AllLie, key_meant, IsKey, dict_at, IsDictAt, with_object, value_by, MakesDict};

use crate::arena::Arena;
use crate::dict::{Dict, Pair};
use crate::held::Held;
use crate::keys::{atom_for, atom_of};
use crate::texts::Texts;
use crate::value::Ref;
use crate::words::Words;
use si_plain::NoMemory;
use std::alloc::Global;

impl Arena {
    /// A dict of keys and values by turns, at the next address: a key that comes again has the later value (Python Language
    /// Reference 3.14, 6.2.7). There is none where a key is no integer and no str. Unchanged where it is refused.
    pub fn make_dict(&mut self, operands: &[Ref]) -> Result<Option<Ref>, NoMemory>
        requires { AllLie self.old operands.now }
        ensures ok { IfOk result (λ r. MakesDict (with_pairs [] (all_of self.old operands.now)) self.old self.new r) }
        ensures err { OnErr result (self.new ≡ self.old) }
    {
        let address = self.objects.len();
        match gathered(self.alloc, &self.texts, &mut self.words, operands)? {
            Some(dict) => {
                self.objects.push(Held::Dict(dict))?;
                Ok(Some(Ref::Object(address)))
            }
            None => Ok(None),
        }
    }

    /// The value of a key of the dict at an address, where a dict is there and has the key. Takes no memory.
    pub fn find(&self, address: usize, key: Ref) -> Option<Ref>
        requires address { address < length self.now.store }
        requires key { Lies self.now key }
        ensures value { option_map (value_of self.now) result ≡ value_by (key_of (value_of self.now key)) (dict_at self.now address) }
        ensures lies { IfSome result (λ r. Lies self.now r) }
    {
        match self.look_up(address, &key) {
            Some(value) => Some(*value),
            None => None,
        }
    }

    /// The same value, where it lies, so that it is copied only where it goes.
    pub fn look_up(&self, address: usize, key: &Ref) -> Option<&Ref>
        requires address { address < length self.now.store }
        requires key { Lies self.now key.now }
        ensures value { option_map (λ r. value_of self.now r.now) result ≡ value_by (key_of (value_of self.now key.now)) (dict_at self.now address) }
        ensures lies { IfSome result (λ r. Lies self.now r.now) }
    {
        match atom_of(&self.texts, &self.words, key) {
            Some(atom) => value_at(self.objects[address].get(&atom)),
            None => None,
        }
    }

    /// A key of the dict at an address has a value: one that is there keeps its place, a new one is the last. Unchanged where
    /// memory is refused.
    pub fn set_pair(&mut self, address: usize, key: Ref, value: Ref) -> Result<(), NoMemory>
        requires dict { IsDictAt self.old address }
        requires key { Lies self.old key }
        requires is_key { IsKey (value_of self.old key) }
        requires value { Lies self.old value }
        ensures ok { OnOk result (self.new ≡ with_object address (pure.Pairs (with_pair (key_meant (value_of self.old key)) (value_of self.old value) (dict_at self.old address))) self.old) }
        ensures err { OnErr result (self.new ≡ self.old) }
    {
        match atom_for(&self.texts, &mut self.words, &key)? {
            Some(atom) => {
                self.objects[address].set_pair(atom, Pair { key, value })?;
                Ok(())
            }
            None => unreachable!(),
        }
    }

    /// A key is taken away from the dict at an address, where it is there, and its value is given; the others keep their
    /// order. Takes no memory.
    pub fn remove_pair(&mut self, address: usize, key: Ref) -> Option<Ref>
        requires dict { IsDictAt self.old address }
        requires key { Lies self.old key }
        requires is_key { IsKey (value_of self.old key) }
        ensures value { option_map (value_of self.new) result ≡ value_at (key_meant (value_of self.old key)) (dict_at self.old address) }
        ensures lies { IfSome result (λ r. Lies self.new r) }
        ensures rest { self.new ≡ with_object address (pure.Pairs (without_key (key_meant (value_of self.old key)) (dict_at self.old address))) self.old }
    {
        match atom_of(&self.texts, &self.words, &key) {
            Some(atom) => value_in(self.objects[address].remove_pair(&atom)),
            None => None,
        }
    }
}

// The value of a pair that lies in a dict, where there is one.
#[inline(always)]
fn value_at(pair: Option<&Pair>) -> Option<&Ref>
    ensures { option_map (λ r. r.now) result ≡ option_map (λ p. p.value) (option_map (λ p. p.now) pair.entry) }
{
    match pair {
        Some(pair) => Some(&pair.value),
        None => None,
    }
}

// The value of a pair, where there is one.
fn value_in(pair: Option<Pair>) -> Option<Ref>
    ensures { result ≡ option_map (λ p. p.value) pair }
{
    match pair {
        Some(pair) => Some(pair.value),
        None => None,
    }
}

// The dict of keys and values by turns; there is none where a key is no integer and no str. Where it is refused, the words
// may be more.
fn gathered(
    alloc: Global,
    texts: &Texts,
    words: &mut Words,
    operands: &[Ref],
) -> Result<Option<Dict>, NoMemory>
    requires words { WordsLie texts.now words.old }
    requires operands { EachTextLies texts.now operands.now }
    ensures ok { IfOk result (λ dict. GathersDict texts.now operands.now words.old words.new dict) }
    ensures err { Grown texts.now words.old words.new }
{
    let mut dict = Dict::new(alloc)?;
    for i in 0..operands.len() / 2 {
        match add_pair(
            texts,
            words,
            &mut dict,
            operands[2 * i],
            operands[2 * i + 1],
        ) {
            Ok(true) => {}
            Ok(false) => return Ok(None),
            Err(refused) => return Err(refused),
        }
    }
    Ok(Some(dict))
}

// A key of a dict has a value, where it can be a key; where memory is refused, the words may be more.
fn add_pair(
    texts: &Texts,
    words: &mut Words,
    dict: &mut Dict,
    key: Ref,
    value: Ref,
) -> Result<bool, NoMemory>
    requires words { WordsLie texts.now words.old }
    requires key { TextLies texts.now key }
    ensures ok { IfOk result (λ is_key. AddsPair texts.now (record { key = key; value = value }) words.old words.new dict.old dict.new is_key) }
    ensures err { Grown texts.now words.old words.new }
{
    match atom_for(texts, words, &key)? {
        Some(atom) => {
            dict.set(atom, Pair { key, value })?;
            Ok(true)
        }
        None => Ok(false),
    }
}
