// The rows in which the characters of texts lie.

ghost use Rattle.std.specs.Prelude.{IsOk, IsSome, if◌then◌else◌, ◌*◌, IfSome, ◌<◌, ◌^◌, ◌∷◌, slice_index, ◌≡◌, ◌+◌, ◌≤◌, ◌++◌, [], take, drop, length, OnOk, OnErr, IfOk};
ghost use Rattle.si_semantics.specs.Text.{max_length};
ghost use Rattle.si_semantics.specs.Operations.{times};
ghost use Rattle.si_plain.specs.Characters.{characters_of};
ghost use Rattle.si_arena.specs.Short.{short_text, FitsShort};
ghost use Rattle.si_arena.specs.declared.value.Width.TheVariants as width;
ghost use Rattle.si_arena.specs.Texts.{EndsRow, GoesOn, size_of, copies_of, text_of, TextLies, IsNarrow, FitsIn, IsAdded, StandsLast, row_of, with_row, Adds, IsTooLong, characters_in, repeated_text};

use crate::cause::{Cause, Fault};
use crate::characters::Characters;
use crate::short::Short;
use crate::value::{Ref, Width};
use si_plain::NoMemory;
use si_plain::limits::MAX_STR_LENGTH;
use std::alloc::{AllocError, Global};
use std::marker::Model;

/// Two rows of characters, which only grow, so that a slice of one stays the text that it is: the narrow one has a byte
/// a character, for texts whose characters are all below 256, and the wide one four.
#[derive(Drop)]
pub struct Texts {
    narrow: Vec<u8>,
    wide: Vec<char>,
}

impl Model for Texts {
    ghost use Rattle.si_arena.specs.Texts.{Rows};

    ghost Value = { Rows };

    ghost view = { λ t. record { narrow = t.narrow.items; wide = t.wide.items } };
}

impl Texts {
    /// Two empty rows.
    pub fn new(alloc: Global) -> Texts
        ensures { result ≡ record { narrow = []; wide = [] } }
    {
        Texts {
            narrow: Vec::new(alloc),
            wide: Vec::new(alloc),
        }
    }

    /// The characters of a text that lies here; none of what is no text.
    pub fn characters<'a>(&'a self, text: &'a Ref) -> Characters<'a>
        requires { TextLies self.now text.now }
        ensures { characters_in result ≡ text_of self.now text.now }
    {
        match text {
            Ref::Wide { length, start } => {
                let (length, start) = (*length as usize, *start);
                Characters::Wide(&self.wide[start..start + length])
            }
            _ => Characters::Narrow(self.narrow_characters(text)),
        }
    }

    /// So many characters of the narrow row, from one on.
    pub fn narrow_slice(&self, count: u32, start: usize) -> &[u8]
        requires { start + count ≤ length self.now.narrow }
        ensures { result.now ≡ take count (drop start self.now.narrow) }
    {
        &self.narrow[start..start + count as usize]
    }

    // The characters of a text that is not in the wide row.
    fn narrow_characters<'a>(&'a self, text: &'a Ref) -> &'a [u8]
        requires lies { TextLies self.now text.now }
        requires narrow { IsNarrow text.now }
        ensures { result.now ≡ text_of self.now text.now }
    {
        match text {
            Ref::Short(short) => short.as_slice(),
            Ref::Narrow { length, start } => self.narrow_slice(*length, *start),
            _ => &[],
        }
    }
}

impl Texts {
    // How many characters a text has; none what is no text.
    fn length(&self, text: Ref) -> usize
        requires { TextLies self.now text }
        ensures length { result ≡ length (text_of self.now text) }
        ensures small { result < 2 ^ 32 }
    {
        match text {
            Ref::Short(short) => short.as_slice().len(),
            Ref::Narrow { length, start: _ } => length as usize,
            Ref::Wide { length, start: _ } => length as usize,
            _ => 0,
        }
    }

    // How many characters stand in a row.
    fn end(&self, width: Width) -> usize
        ensures { result ≡ length (row_of width self.now) }
    {
        match width {
            Width::Narrow => self.narrow.len(),
            Width::Wide => self.wide.len(),
        }
    }

    // Takes back what stands in a row from an end on.
    fn cut(&mut self, width: Width, end: usize)
        ensures { self.new ≡ with_row width (take end (row_of width self.old)) self.old }
    {
        match width {
            Width::Narrow => self.narrow.truncate(end),
            Width::Wide => self.wide.truncate(end),
        }
    }

    // The characters of a text at the end of a row; unchanged where memory is refused.
    fn push(&mut self, width: Width, text: Ref) -> Result<(), NoMemory>
        requires lies { TextLies self.old text }
        requires fits { FitsIn width text }
        ensures ok { OnOk result (self.new ≡ with_row width (row_of width self.old ++ text_of self.old text) self.old) }
        ensures err { OnErr result (self.new ≡ self.old) }
    {
        match width {
            Width::Narrow => self.push_narrow(text),
            Width::Wide => self.push_wide(text),
        }
    }

    // The characters of a text at the end of the narrow row; unchanged where memory is refused.
    fn push_narrow(&mut self, text: Ref) -> Result<(), NoMemory>
        requires lies { TextLies self.old text }
        requires narrow { IsNarrow text }
        ensures ok { OnOk result (self.new ≡ record self.old { narrow = self.old.narrow ++ text_of self.old text }) }
        ensures err { OnErr result (self.new ≡ self.old) }
    {
        match text {
            Ref::Short(short) => self.narrow.extend_from_slice(short.as_slice()),
            Ref::Narrow { length, start } => {
                self.narrow
                    .extend_from_within(start..start + length as usize)
            }
            _ => Ok(()),
        }
    }

    // The characters of a text at the end of the wide row; unchanged where memory is refused.
    fn push_wide(&mut self, text: Ref) -> Result<(), NoMemory>
        requires { TextLies self.old text }
        ensures ok { OnOk result (self.new ≡ record self.old { wide = self.old.wide ++ text_of self.old text }) }
        ensures err { OnErr result (self.new ≡ self.old) }
    {
        match text {
            Ref::Short(short) => widen(&mut self.wide, short.as_slice()),
            Ref::Narrow { length, start } => {
                widen(&mut self.wide, &self.narrow[start..start + length as usize])
            }
            Ref::Wide { length, start } => {
                self.wide.extend_from_within(start..start + length as usize)
            }
            _ => Ok(()),
        }
    }
}

impl Texts {
    // Where a text of a row starts, where nothing stands after it in the row.
    fn last_start(&self, width: Width, text: Ref) -> Option<usize>
        requires { TextLies self.now text }
        ensures is { IfSome result (λ start. (start ≤ length (row_of width self.now)) × (drop start (row_of width self.now) ≡ text_of self.now text)) }
        ensures there { EndsRow width self.now text → IsSome result }
    {
        let end = self.end(width);
        match (width, text) {
            (Width::Narrow, Ref::Narrow { length, start }) if start + length as usize == end => {
                Some(start)
            }
            (Width::Wide, Ref::Wide { length, start }) if start + length as usize == end => {
                Some(start)
            }
            _ => None,
        }
    }

    // Lets a text stand at the end of a row, where it is copied to unless it ends there already, and says where it
    // starts there; unchanged where memory is refused.
    fn put_last(&mut self, width: Width, text: Ref) -> Result<usize, NoMemory>
        requires lies { TextLies self.old text }
        requires fits { FitsIn width text }
        ensures ok { IfOk result (λ start. StandsLast width (text_of self.old text) self.old self.new start) }
        ensures there { EndsRow width self.old text → self.new ≡ self.old }
        ensures err { OnErr result (self.new ≡ self.old) }
    {
        if let Some(start) = self.last_start(width, text) {
            return Ok(start);
        }
        let start = self.end(width);
        self.push(width, text)?;
        Ok(start)
    }

    // One text and then another in a row, of this length together; unchanged where memory is refused.
    fn join_in(&mut self, width: Width, left: Ref, right: Ref, count: u32) -> Result<Ref, NoMemory>
        requires left { TextLies self.old left × FitsIn width left }
        requires right { TextLies self.old right × FitsIn width right }
        requires count { count ≡ length (text_of self.old left ++ text_of self.old right) }
        ensures ok { IfOk result (λ r. IsAdded (text_of self.old left ++ text_of self.old right) self.old self.new r) }
        ensures fits { IfOk result (λ r. FitsIn width r) }
        ensures in_place { EndsRow width self.old left → OnOk result (self.new ≡ with_row width (row_of width self.old ++ text_of self.old right) self.old) }
        ensures err { OnErr result (self.new ≡ self.old) }
    {
        let end = self.end(width);
        let start = self.put_last(width, left)?;
        if let Err(refused) = self.push(width, right) {
            self.cut(width, end);
            return Err(refused);
        }
        Ok(width.slice(count, start))
    }

    // A text so many times at the end of a row; unchanged where memory is refused.
    fn push_copies(&mut self, width: Width, text: Ref, copies: usize) -> Result<(), NoMemory>
        requires lies { TextLies self.old text }
        requires fits { FitsIn width text }
        ensures ok { OnOk result (self.new ≡ with_row width (row_of width self.old ++ times copies (text_of self.old text)) self.old) }
        ensures err { OnErr result (self.new ≡ self.old) }
    {
        let end = self.end(width);
        for i in 0..copies {
            if let Err(refused) = self.push(width, text) {
                self.cut(width, end);
                return Err(refused);
            }
        }
        Ok(())
    }
}

impl Texts {
    /// One text and then another, as a text. Where the first ends its row and the second has room there, only the
    /// second is copied. `TooLong` where they are longer together than a str may be; unchanged where it is refused.
    pub fn join(&mut self, left: Ref, right: Ref) -> Result<Ref, Fault>
        requires left { TextLies self.old left }
        requires right { TextLies self.old right }
        ensures text { Adds (text_of self.old left ++ text_of self.old right) self.old self.new result }
        ensures long { max_length < length (text_of self.old left ++ text_of self.old right) → IsTooLong result }
        ensures short { IsNarrow left → IsNarrow right → length (text_of self.old left) + length (text_of self.old right) ≤ 11 → (self.new ≡ self.old) × IsOk result }
        ensures in_place { GoesOn self.old left right → size_of self.new ≤ size_of self.old + length (text_of self.old right) }
        ensures narrow { IsNarrow left → IsNarrow right → IfOk result (λ r. IsNarrow r) }
    {
        let count = self.length(left) + self.length(right);
        if count > MAX_STR_LENGTH {
            return Err(Fault::Raises(Cause::TooLong));
        }
        let width = Width::of_both(left, right);
        if width == Width::Narrow && count <= Short::CAPACITY {
            return Ok(Ref::Short(self.short_join(&left, &right)));
        }
        Ok(self.join_in(width, left, right, count as u32)?)
    }

    // One text and then another, in the value itself.
    fn short_join(&self, left: &Ref, right: &Ref) -> Short
        requires left { TextLies self.now left.now × IsNarrow left.now }
        requires right { TextLies self.now right.now × IsNarrow right.now }
        requires few { length (text_of self.now left.now) + length (text_of self.now right.now) ≤ 11 }
        ensures { short_text result ≡ text_of self.now left.now ++ text_of self.now right.now }
    {
        let mut joined = Short::new();
        joined.append(self.narrow_characters(left));
        joined.append(self.narrow_characters(right));
        joined
    }

    /// A text so many times, as a text; a count below 0 is as good as 0. At most 11 characters, all below 256, take no
    /// memory. `TooLong` where it is longer than a str may be; unchanged where it is refused.
    pub fn repeat(&mut self, text: Ref, count: i64) -> Result<Ref, Fault>
        requires { TextLies self.old text }
        ensures text { Adds (repeated_text (text_of self.old text) count) self.old self.new result }
        ensures long { max_length < length (repeated_text (text_of self.old text) count) → IsTooLong result }
        ensures short { IsNarrow text → length (repeated_text (text_of self.old text) count) ≤ 11 → (self.new ≡ self.old) × IsOk result }
        ensures narrow { IsNarrow text → IfOk result (λ r. IsNarrow r) }
    {
        let length = self.length(text);
        let copies = copies_that_count(length, count);
        let total = length.saturating_mul(copies);
        if total > MAX_STR_LENGTH {
            return Err(Fault::Raises(Cause::TooLong));
        }
        let width = Width::of_both(text, text);
        if width == Width::Narrow && total <= Short::CAPACITY {
            return Ok(Ref::Short(self.short_copies(&text, copies)));
        }
        let start = self.end(width);
        self.push_copies(width, text, copies)?;
        Ok(width.slice(total as u32, start))
    }

    // A text so many times, in the value itself.
    fn short_copies(&self, text: &Ref, copies: usize) -> Short
        requires lies { TextLies self.now text.now }
        requires narrow { IsNarrow text.now }
        requires few { copies * length (text_of self.now text.now) ≤ 11 }
        ensures { short_text result ≡ times copies (text_of self.now text.now) }
    {
        let characters = self.narrow_characters(text);
        let mut all = Short::new();
        for i in 0..copies {
            all.append(characters);
        }
        all
    }
}

impl Texts {
    /// The character of a text at an index, as a text. Takes no memory.
    pub fn character(&self, text: Ref, index: usize) -> Ref
        requires lies { TextLies self.now text }
        requires index { index < length (text_of self.now text) }
        ensures { IsAdded (slice_index (text_of self.now text) index ∷ []) self.now self.now result }
    {
        match text {
            Ref::Wide { length: _, start } => {
                let start = start + index;
                let character = self.wide[start];
                if character <= '\u{ff}' {
                    return Ref::Short(Short::of(character as u8));
                }
                Ref::Wide { length: 1, start }
            }
            _ => Ref::Short(Short::of(self.narrow_characters(&text)[index])),
        }
    }

    /// The characters of `text`, as a text. `TooLong` where they are more than those of a str may be; unchanged where
    /// it is refused.
    pub fn place(&mut self, text: &str) -> Result<Ref, Fault>
        ensures text { Adds (characters_of text.now) self.old self.new result }
        ensures long { max_length < length (characters_of text.now) → IsTooLong result }
        ensures short { FitsShort (characters_of text.now) → (self.new ≡ self.old) × IsOk result }
    {
        if let Some(short) = Short::from_str(text) {
            return Ok(Ref::Short(short));
        }
        let count = count_of(text);
        if count > MAX_STR_LENGTH {
            return Err(Fault::Raises(Cause::TooLong));
        }
        let start = self.end(Width::Narrow);
        if self.push_narrow_str(text)? {
            return Ok(Width::Narrow.slice(count as u32, start));
        }
        let start = self.end(Width::Wide);
        self.push_wide_str(text)?;
        Ok(Width::Wide.slice(count as u32, start))
    }

    /// Characters below 256, as a text. `TooLong` where they are more than those of a str may be; unchanged where it is
    /// refused.
    pub fn place_narrow(&mut self, characters: &[u8]) -> Result<Ref, Fault>
        ensures text { Adds characters.now self.old self.new result }
        ensures long { max_length < length characters.now → IsTooLong result }
        ensures short { length characters.now ≤ 11 → (self.new ≡ self.old) × IsOk result }
        ensures narrow { IfOk result (λ r. IsNarrow r) }
    {
        if characters.len() <= Short::CAPACITY {
            let mut short = Short::new();
            short.append(characters);
            return Ok(Ref::Short(short));
        }
        if characters.len() > MAX_STR_LENGTH {
            return Err(Fault::Raises(Cause::TooLong));
        }
        let start = self.narrow.len();
        self.narrow.extend_from_slice(characters)?;
        Ok(Width::Narrow.slice(characters.len() as u32, start))
    }

    // The characters of a str at the end of the narrow row, and whether each is below 256: if not, or where memory is
    // refused, the rows are as they were.
    fn push_narrow_str(&mut self, text: &str) -> Result<bool, NoMemory>
        ensures ok { IfOk result (λ all. self.new ≡ (if all then with_row width.Narrow (self.old.narrow ++ characters_of text.now) self.old else self.old)) }
        ensures err { OnErr result (self.new ≡ self.old) }
    {
        narrowed(&mut self.narrow, text)
    }

    // The characters of a str at the end of the wide row; unchanged where memory is refused.
    fn push_wide_str(&mut self, text: &str) -> Result<(), NoMemory>
        ensures ok { OnOk result (self.new ≡ with_row width.Wide (self.old.wide ++ characters_of text.now) self.old) }
        ensures err { OnErr result (self.new ≡ self.old) }
    {
        widened(&mut self.wide, text)
    }
}

// How many characters a str has.
fn count_of(text: &str) -> usize
    ensures { result ≡ length (characters_of text.now) }
{
    text.chars().count()
}

// The characters of a str at the end of the narrow row, and whether each is below 256: if not, or where memory is
// refused, the row is as it was.
fn narrowed(narrow: &mut Vec<u8>, text: &str) -> Result<bool, NoMemory>
    ensures ok { IfOk result (λ all. narrow.new.items ≡ (if all then narrow.old.items ++ characters_of text.now else narrow.old.items)) }
    ensures err { OnErr result (narrow.new.items ≡ narrow.old.items) }
{
    if text.is_ascii() {
        narrow.extend_from_slice(text.as_bytes())?;
        return Ok(true);
    }
    // no room is made for what goes into the other row
    if text.chars().any(|c| c > '\u{ff}') {
        return Ok(false);
    }
    let end = narrow.len();
    narrow.reserve(count_of(text))?;
    for c in text.chars() {
        if c > '\u{ff}' {
            narrow.truncate(end);
            return Ok(false);
        }
        if narrow.push(c as u8).is_err() {
            narrow.truncate(end);
            return Err(AllocError);
        }
    }
    Ok(true)
}

// The characters of a str at the end of the wide row; unchanged where memory is refused.
fn widened(wide: &mut Vec<char>, text: &str) -> Result<(), NoMemory>
    ensures ok { OnOk result (wide.new.items ≡ wide.old.items ++ characters_of text.now) }
    ensures err { OnErr result (wide.new.items ≡ wide.old.items) }
{
    let end = wide.len();
    wide.reserve(count_of(text))?;
    for c in text.chars() {
        if wide.push(c).is_err() {
            wide.truncate(end);
            return Err(AllocError);
        }
    }
    Ok(())
}

// How many copies of a text of this length count: none of an empty one.
fn copies_that_count(length: usize, count: i64) -> usize
    ensures { result ≡ copies_of length count }
{
    if length == 0 || count < 0 {
        0
    } else {
        count as usize
    }
}

// Characters below 256 at the end of the wide row; unchanged where memory is refused.
fn widen(wide: &mut Vec<char>, characters: &[u8]) -> Result<(), NoMemory>
    ensures ok { OnOk result (wide.new.items ≡ wide.old.items ++ characters.now) }
    ensures err { OnErr result (wide.new.items ≡ wide.old.items) }
{
    let end = wide.len();
    for c in characters {
        if wide.push(char::from(*c)).is_err() {
            wide.truncate(end);
            return Err(AllocError);
        }
    }
    Ok(())
}
