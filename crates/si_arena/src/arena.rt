// The arena of one interpreter.

ghost use Rattle.std.specs.Prelude.{IsOk, ◌+◌, ◌≤◌, ◌≡◌, ◌<◌, ◌∷◌, [], length, slice_get, slice_set, slice_index, Some, IfOk, OnErr, ◌++◌, true, not};
ghost use Rattle.si_plain.specs.Characters.{characters_of};
ghost use Rattle.si_semantics.specs.Text.{max_length};
ghost use Rattle.si_semantics.specs.Value as pure;
ghost use Rattle.si_arena.specs.Short.{FitsShort};
ghost use Rattle.si_arena.specs.Texts.{IsNarrow, GoesOn, IsTooLong, size_of, text_of, repeated_text};
ghost use Rattle.si_arena.specs.Causes.{name_at};
ghost use Rattle.si_semantics.specs.Tuples.{count_of, levels_of, is_too_large};
ghost use Rattle.si_arena.specs.Bytes.{bytes_of, text_of_bytes};
ghost use Rattle.si_arena.specs.Tuples.{Measures};
ghost use Rattle.si_arena.specs.Memory.{value_of, all_of, range_of, object_of, ObjectLies, Lies, AllLie, Placed, PlacesText, PlacesBytes, PlacesTuple, IsNamed, IsMade};
ghost use Rattle.si_arena.specs.Views.{value_in};

use crate::bytes::{bytes_of_text, text_of_bytes};
use crate::cause::{Cause, Fault};
use crate::contents::Contents;
use crate::held::Held;
use crate::object::{Object, Steps};
use crate::texts::Texts;
use crate::tuples::{Size, Tuples};
use crate::value::Ref;
use crate::view::View;
use crate::words::Words;
use si_plain::limits::{MAX_TUPLE_LEVELS, MAX_TUPLE_VALUES};
use si_plain::{NoMemory, Text};
use std::alloc::Global;
use std::marker::Model;

/// What the scripts of one interpreter hold: texts, names, ranges, tuples and objects, and the long texts that are keys of
/// dicts.
#[derive(Drop)]
pub struct Arena {
    pub(crate) alloc: Global,
    pub(crate) texts: Texts,
    names: Vec<Text>,
    ranges: Vec<Steps>,
    pub(crate) tuples: Tuples,
    pub(crate) words: Words,
    pub(crate) objects: Vec<Held>,
}

impl Model for Arena {
    ghost use Rattle.si_arena.specs.Memory.{Memory};
    ghost use Rattle.si_arena.specs.Arenas.{memory_of, IsArena};
    ghost use Rattle.std.specs.Coded.{codes};
    ghost use Rattle.si_semantics.specs.Code.{value_code};

    ghost Value = { Memory };

    ghost coded = { Prim.hlevel (codes, value_code) };

    ghost view = { λ a. memory_of a.texts a.names.items a.ranges.items a.tuples.items a.tuples.tuples a.objects.items };

    ghost invariant = { λ a. IsArena a.texts a.names.items a.ranges.items a.tuples.items a.tuples.tuples a.objects.items a.words };
}

impl Arena {
    /// An arena that holds nothing.
    pub fn new(alloc: Global) -> Arena
        ensures { result ≡ record { texts = record { narrow = []; wide = [] }; names = []; ranges = []; tuples = []; store = [] } }
    {
        Arena {
            alloc,
            texts: Texts::new(alloc),
            names: Vec::new(alloc),
            ranges: Vec::new(alloc),
            tuples: Tuples::new(alloc),
            words: Words::new(alloc),
            objects: Vec::new(alloc),
        }
    }

    /// The str of these characters; at most 11 of them, all below 256, take no memory. `TooLong` where they are more than those of a str may be; unchanged where it is
    /// refused.
    pub fn place_text(&mut self, text: &str) -> Result<Ref, Fault>
        ensures text { PlacesText (characters_of text.now) self.old self.new result }
        ensures long { max_length < length (characters_of text.now) → IsTooLong result }
        ensures short { FitsShort (characters_of text.now) → (self.new ≡ self.old) × IsOk result }
    {
        self.texts.place(text)
    }

    /// The characters of one str and then those of another (Python Language Reference 3.14, 6.7). At most 11 of them,
    /// all below 256, take no memory; where the first ends its row, and the second has room there, only the second is
    /// copied, and the rows come to no more characters than before and those of the second. `TooLong` where they are
    /// more than those of a str may be; unchanged where it is refused.
    pub fn join(&mut self, left: Ref, right: Ref) -> Result<Ref, Fault>
        requires left { Lies self.old left }
        requires right { Lies self.old right }
        ensures text { PlacesText (text_of self.old.texts left ++ text_of self.old.texts right) self.old self.new result }
        ensures long { max_length < length (text_of self.old.texts left ++ text_of self.old.texts right) → IsTooLong result }
        ensures short { IsNarrow left → IsNarrow right → length (text_of self.old.texts left) + length (text_of self.old.texts right) ≤ 11 → (self.new ≡ self.old) × IsOk result }
        ensures in_place { GoesOn self.old.texts left right → size_of self.new.texts ≤ size_of self.old.texts + length (text_of self.old.texts right) }
    {
        self.texts.join(left, right)
    }

    /// A str so many times (Python Standard Library 3.14, "Built-in Types": common sequence operations); a count below
    /// 0 is as good as 0. At most 11 characters of a str that has no wide one take no memory. `TooLong` where it is
    /// longer than a str may be; unchanged where it is refused.
    pub fn repeat(&mut self, text: Ref, count: i64) -> Result<Ref, Fault>
        requires { Lies self.old text }
        ensures text { PlacesText (repeated_text (text_of self.old.texts text) count) self.old self.new result }
        ensures long { max_length < length (repeated_text (text_of self.old.texts text) count) → IsTooLong result }
        ensures short { IsNarrow text → length (repeated_text (text_of self.old.texts text) count) ≤ 11 → (self.new ≡ self.old) × IsOk result }
    {
        self.texts.repeat(text, count)
    }

    /// The character of a str at an index, as a str. Takes no memory.
    pub fn character(&self, text: Ref, index: usize) -> Ref
        requires lies { Lies self.now text }
        requires index { index < length (text_of self.now.texts text) }
        ensures { Placed self.now (pure.Str (slice_index (text_of self.now.texts text) index ∷ [])) result self.now }
    {
        self.texts.character(text, index)
    }

    /// Bytes; at most 11 of them take no memory. `TooLong` where they are more than bytes may be; unchanged where it is
    /// refused.
    pub fn place_bytes(&mut self, bytes: &[u8]) -> Result<Ref, Fault>
        ensures bytes { PlacesBytes bytes.now self.old self.new result }
        ensures long { max_length < length bytes.now → IsTooLong result }
        ensures short { length bytes.now ≤ 11 → (self.new ≡ self.old) × IsOk result }
    {
        let placed = self.texts.place_narrow(bytes)?;
        Ok(bytes_of_text(placed))
    }

    /// Some bytes and then others (Python Language Reference 3.14, 6.7). At most 11 of them take no memory; where the
    /// first end the row, only the others are copied. `TooLong` where they are more than bytes may be; unchanged where it
    /// is refused.
    #[tactic(auto, using(crate::proofs::Growing::bytes_text_narrow))]
    pub fn join_bytes(&mut self, left: Ref, right: Ref) -> Result<Ref, Fault>
        requires left { Lies self.old left }
        requires right { Lies self.old right }
        ensures bytes { PlacesBytes (bytes_of self.old.texts left ++ bytes_of self.old.texts right) self.old self.new result }
        ensures long { max_length < length (bytes_of self.old.texts left ++ bytes_of self.old.texts right) → IsTooLong result }
        ensures short { length (bytes_of self.old.texts left) + length (bytes_of self.old.texts right) ≤ 11 → (self.new ≡ self.old) × IsOk result }
        ensures in_place { GoesOn self.old.texts (text_of_bytes left) (text_of_bytes right) → size_of self.new.texts ≤ size_of self.old.texts + length (bytes_of self.old.texts right) }
    {
        let joined = self.texts.join(text_of_bytes(left), text_of_bytes(right))?;
        Ok(bytes_of_text(joined))
    }

    /// Bytes so many times (Python Standard Library 3.14, "Built-in Types": common sequence operations); a count below 0
    /// is as good as 0. At most 11 of them take no memory. `TooLong` where they are more than bytes may be; unchanged
    /// where it is refused.
    pub fn repeat_bytes(&mut self, bytes: Ref, count: i64) -> Result<Ref, Fault>
        requires { Lies self.old bytes }
        ensures bytes { PlacesBytes (repeated_text (bytes_of self.old.texts bytes) count) self.old self.new result }
        ensures long { max_length < length (repeated_text (bytes_of self.old.texts bytes) count) → IsTooLong result }
        ensures short { length (repeated_text (bytes_of self.old.texts bytes) count) ≤ 11 → (self.new ≡ self.old) × IsOk result }
    {
        let repeated = self.texts.repeat(text_of_bytes(bytes), count)?;
        Ok(bytes_of_text(repeated))
    }

    /// A range; unchanged where memory is refused.
    pub fn place_range(&mut self, steps: Steps) -> Result<Ref, NoMemory>
        ensures ok { IfOk result (λ r. Placed self.old (range_of steps) r self.new) }
        ensures err { OnErr result (self.new ≡ self.old) }
    {
        let place = self.ranges.len();
        self.ranges.push(steps)?;
        Ok(Ref::Range(place))
    }

    /// A tuple of these items (Python Language Reference 3.14, 3.2.5.1). `TooLong` where it is more than 65,536 values, or
    /// more than 200 levels deep; unchanged where it is refused.
    pub fn place_tuple(&mut self, items: &[Ref]) -> Result<Ref, Fault>
        requires { AllLie self.old items.now }
        ensures tuple { PlacesTuple (all_of self.old items.now) self.old self.new result }
        ensures large { is_too_large (pure.tuple_of (all_of self.old items.now)) ≡ true → IsTooLong result }
    {
        let Some(size) = self.size_of_all(items) else {
            return Err(Fault::Raises(Cause::TooLong));
        };
        let place = self.tuples.push(items, size)?;
        Ok(Ref::Tuple(place))
    }

    /// Whether a tuple of these items is not too large: no more than 65,536 values, and no more than 200 levels deep.
    pub fn admits_tuple(&self, items: &[Ref]) -> bool
        requires { AllLie self.now items.now }
        ensures { result ≡ not (is_too_large (pure.tuple_of (all_of self.now items.now))) }
    {
        self.size_of_all(items).is_some()
    }

    // How large a tuple of these items is, where it is not too large.
    fn size_of_all(&self, items: &[Ref]) -> Option<Size>
        requires { AllLie self.now items.now }
        ensures { Measures (pure.tuple_of (all_of self.now items.now)) result }
    {
        let mut values = 1;
        let mut levels = 0;
        for i in 0..items.len() {
            let more = self.size(items[i]);
            if more.values > MAX_TUPLE_VALUES - values {
                return None;
            }
            values += more.values;
            levels = more.levels.max(levels);
        }
        if levels >= MAX_TUPLE_LEVELS {
            return None;
        }
        Some(Size {
            values,
            levels: levels + 1,
        })
    }

    /// How large a value is.
    pub fn size(&self, value: Ref) -> Size
        requires { Lies self.now value }
        ensures values { result.values ≡ count_of (value_of self.now value) }
        ensures levels { result.levels ≡ levels_of (value_of self.now value) }
    {
        match value {
            Ref::Tuple(place) => self.tuples.size(place),
            _ => Size {
                values: 1,
                levels: 0,
            },
        }
    }

    /// A name, by which functions and causes are named, and its number; unchanged where memory is refused.
    pub fn add_name(&mut self, name: &str) -> Result<usize, NoMemory>
        ensures ok { IfOk result (λ number. IsNamed (characters_of name.now) self.old self.new number) }
        ensures err { OnErr result (self.new ≡ self.old) }
    {
        let number = self.names.len();
        let name = Text::from_str(self.alloc, name)?;
        self.names.push(name)?;
        Ok(number)
    }

    /// An exception or a thread, at the next address; unchanged where memory is refused.
    pub fn make(&mut self, object: Object) -> Result<Ref, NoMemory>
        requires { ObjectLies self.old object }
        ensures ok { IfOk result (λ r. IsMade (object_of self.old object) self.old self.new r) }
        ensures err { OnErr result (self.new ≡ self.old) }
    {
        let address = self.objects.len();
        self.objects.push(Held::plain(object))?;
        Ok(Ref::Object(address))
    }

    /// The object at an address is a thread that was started, by its run, from now on; nothing else is changed. Takes no
    /// memory.
    pub fn start(&mut self, address: usize, run: u64)
        requires { address < length self.old.store }
        ensures { self.new ≡ record self.old { store = slice_set self.old.store address (pure.Started run) } }
    {
        self.objects[address] = Held::Started(run);
    }
}

impl Arena {
    ghost use Rattle.std.specs.Prelude.{◌≡◌, ◌<◌, length, get_or, slice_get, Some, IfOk};
    ghost use Rattle.si_arena.specs.Causes.{name_at, message_of, CauseLies};
    ghost use Rattle.si_arena.specs.Memory.{value_of, all_of, range_of, contents_of, ContentsLie, Lies, AllLie};
    ghost use Rattle.si_arena.specs.Bytes.{bytes_of};
    ghost use Rattle.si_arena.specs.Views.{value_in, ShowsText, PartsLie};

    /// The bytes that a value is; none of what is no bytes.
    pub fn bytes<'a>(&'a self, value: &'a Ref) -> &'a [u8]
        requires { Lies self.now value.now }
        ensures { result.now ≡ bytes_of self.now.texts value.now }
    {
        match value {
            Ref::ShortBytes(short) => short.as_slice(),
            Ref::Bytes { length, start } => self.texts.narrow_slice(*length, *start),
            _ => &[],
        }
    }

    /// The allocator of its rows.
    pub fn allocator(&self) -> Global {
        self.alloc
    }

    /// What a value is.
    pub fn view<'a>(&'a self, value: &'a Ref) -> View<'a>
        requires { Lies self.now value.now }
        ensures value { value_in self.now result ≡ value_of self.now value.now }
        ensures text { ShowsText result value.now }
        ensures parts { PartsLie self.now result }
    {
        match value {
            Ref::Unbound => unreachable!(),
            Ref::None => View::None,
            Ref::Truth(_, truth) => View::Truth(*truth),
            Ref::Int(n) => View::Int(*n),
            Ref::Short(_) => View::Str(self.texts.characters(value)),
            Ref::Narrow { .. } => View::Str(self.texts.characters(value)),
            Ref::Wide { .. } => View::Str(self.texts.characters(value)),
            Ref::ShortBytes(_) => View::Bytes(self.bytes(value)),
            Ref::Bytes { .. } => View::Bytes(self.bytes(value)),
            Ref::BuiltIn(_, built_in) => View::BuiltIn(*built_in),
            Ref::Function { number, name } => View::Function(*number, &self.names[*name]),
            Ref::Range(place) => View::Range(&self.ranges[*place]),
            Ref::Tuple(place) => View::Tuple(self.tuples.items(*place)),
            Ref::Kind(_, kind) => View::Kind(*kind),
            Ref::Module(_, name) => View::Module(*name),
            Ref::Queue { id, maxsize } => View::Queue(*id, *maxsize),
            Ref::Interpreter(id) => View::Interpreter(*id),
            Ref::Exec(id) => View::Exec(*id),
            Ref::Object(address) => View::Object(*address),
        }
    }

    /// The integers of the range at a place.
    pub fn steps(&self, place: usize) -> &Steps
        requires { place < length self.now.ranges }
        ensures { range_of result.now ≡ get_or self.now.ranges place pure.Nothing }
    {
        &self.ranges[place]
    }

    /// The items of the tuple at a place.
    pub fn tuple(&self, place: usize) -> &[Ref]
        requires { place < length self.now.tuples }
        ensures tuple { pure.tuple_of (all_of self.now result.now) ≡ get_or self.now.tuples place pure.Nothing }
        ensures lie { AllLie self.now result.now }
    {
        self.tuples.items(place)
    }

    /// What the object at an address holds.
    pub fn object(&self, address: usize) -> Contents<'_>
        requires { address < length self.now.store }
        ensures object { slice_get self.now.store address ≡ Some (contents_of self.now result) }
        ensures lies { ContentsLie self.now result }
    {
        self.objects[address].contents()
    }

    /// The name of a number.
    pub fn name(&self, number: usize) -> &Text
        requires { number < length self.now.names }
        ensures { result.now ≡ name_at self.now.names number }
    {
        &self.names[number]
    }

    /// The message of an exception that was raised so. `AllocError` where memory is refused.
    pub fn message(&self, cause: Cause) -> Result<Text, NoMemory>
        requires { CauseLies self.now.names cause }
        ensures { IfOk result (λ t. t ≡ message_of self.now.names cause) }
    {
        cause.message(self.alloc, self.names.as_slice())
    }
}
