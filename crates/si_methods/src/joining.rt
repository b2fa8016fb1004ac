// `str.join`.

ghost use Rattle.std.specs.Prelude.{◌≡◌, ◌++◌, ◌∷◌, [], ◌<◌, ℕ, List, length, drop, slice_index, IfOk, OnOk};
ghost use Rattle.si_semantics.specs.Value as pure;
ghost use Rattle.si_semantics.specs.Attributes as attributes;
ghost use Rattle.si_arena.specs.Memory.{Memory, value_of, all_of, Lies, AllLie, PlacesText};
ghost use Rattle.si_arena.specs.Texts.{characters_in};
ghost use Rattle.si_methods.specs.Joining.{values_in, characters_gathered, told, ComesTo, PiecesLie, HasPieces, IsPiece, Joins, JoinsItems};
ghost use Rattle.si_methods.specs.Answering.{Answers};

use crate::arguments::only_argument;
use crate::characters::length_of;
use crate::request::{Answered, placed};
use crate::shown::characters_of;
use si_arena::{Arena, Cause, Characters, Fault, Ref, View};
use si_plain::limits::MAX_STR_LENGTH;
use si_plain::{NoMemory, Text};
use std::alloc::Global;

// What may be joined: values, or the characters of a str.
#[derive(Clone, Copy)]
enum Pieces<'a> {
    Values(&'a [Ref]),
    Characters(Characters<'a>),
}

// The text that is gathered: characters below 256 as they stand, as long as it has no others.
#[derive(Drop)]
enum Gathered {
    Narrow(Vec<u8>),
    Wide(Text),
}

/// `str.join` (Python Standard Library 3.14, "Built-in Types": string methods): the strs of a list or a tuple, or the
/// characters of a str, with this str between them. `WrongArguments`, `WrongType`, and `TooLong` where they come to more
/// characters than a str may have; `NoMemory` where memory is refused. Where nothing is given, the arena is as before.
pub fn join_texts(
    alloc: Global,
    arena: &mut Arena,
    object: Ref,
    arguments: &[Ref],
    names: &[Text],
) -> Result<Answered, Fault>
    requires object { Lies arena.old object }
    requires arguments { AllLie arena.old arguments.now }
    ensures { (own : ℕ) → Answers (λ w. attributes.call_method attributes.JoinTexts (value_of arena.old object) (all_of arena.old arguments.now) names.now w) own arena.old arena.new result }
{
    match only_argument(arguments, names) {
        Some(items) => join_items(alloc, arena, object, items),
        None => Err(Fault::Raises(Cause::WrongArguments)),
    }
}

// The items of a value, with a str between them, as a str.
fn join_items(alloc: Global, arena: &mut Arena, object: Ref, items: Ref) -> Result<Answered, Fault>
    requires object { Lies arena.old object }
    requires items { Lies arena.old items }
    ensures { (own : ℕ) → Answers (λ w. attributes.joins_texts (value_of arena.old object) (attributes.texts_in (value_of arena.old items) w) w) own arena.old arena.new result }
{
    match joined(alloc, arena, &object, &items) {
        Ok(gathered) => placed(place(alloc, arena, &gathered)),
        Err(fault) => Err(fault),
    }
}

// What is gathered, as a str.
fn place(alloc: Global, arena: &mut Arena, gathered: &Gathered) -> Result<Ref, Fault>
    ensures { PlacesText (characters_gathered gathered.now) arena.old arena.new result }
{
    match gathered {
        Gathered::Narrow(characters) => place_narrow(alloc, arena, characters),
        Gathered::Wide(text) => arena.place_text(text.as_str()),
    }
}

// Characters below 256 as a str: most have only ASCII, which is UTF-8 as it stands.
fn place_narrow(alloc: Global, arena: &mut Arena, characters: &[u8]) -> Result<Ref, Fault>
    ensures { PlacesText characters.now arena.old arena.new result }
{
    if characters.is_ascii() {
        if let Ok(ascii) = std::str::from_utf8(characters) {
            return arena.place_text(ascii);
        }
    }
    match text_of_narrow(alloc, characters) {
        Ok(text) => arena.place_text(text.as_str()),
        Err(_) => Err(Fault::NoMemory),
    }
}

// The text of the items of a value with a str between them.
fn joined(alloc: Global, arena: &Arena, object: &Ref, items: &Ref) -> Result<Gathered, Fault>
    requires object { Lies arena.now object.now }
    requires items { Lies arena.now items.now }
    ensures { JoinsItems (value_of arena.now object.now) (value_of arena.now items.now) arena.now result }
{
    match characters_of(arena, object) {
        Some(between) => joined_by(alloc, arena, between, items),
        None => Err(Fault::Raises(Cause::WrongType)),
    }
}

// The same with a text between them.
fn joined_by<'a>(
    alloc: Global,
    arena: &'a Arena,
    between: Characters<'a>,
    items: &'a Ref,
) -> Result<Gathered, Fault>
    requires { Lies arena.now items.now }
    ensures { JoinsItems (pure.Str (characters_in between.entry)) (value_of arena.now items.now) arena.now result }
{
    match pieces_of(arena, items) {
        Some(pieces) => join_pieces(alloc, arena, between, pieces),
        None => Err(Fault::Raises(Cause::WrongType)),
    }
}

// What may be joined of a value.
fn pieces_of<'a>(arena: &'a Arena, value: &'a Ref) -> Option<Pieces<'a>>
    requires { Lies arena.now value.now }
    ensures { HasPieces (value_of arena.now value.now) arena.now result }
{
    match arena.view(value) {
        View::Str(characters) => Some(Pieces::Characters(characters)),
        View::Tuple(items) => Some(Pieces::Values(items)),
        View::Object(address) => match arena.list(address) {
            Some(items) => Some(Pieces::Values(items)),
            None => None,
        },
        _ => None,
    }
}

// Texts with another between them, as one.
fn join_pieces<'a>(
    alloc: Global,
    arena: &'a Arena,
    between: Characters<'a>,
    pieces: Pieces<'a>,
) -> Result<Gathered, Fault>
    requires { PiecesLie arena.now pieces }
    ensures { Joins (attributes.joined_texts (characters_in between.entry) (values_in arena.now pieces.entry)) arena.now result }
{
    if count_of(pieces) == 0 {
        return Ok(Gathered::Narrow(Vec::new(alloc)));
    }
    match piece_at(arena, pieces, 0) {
        Some(first) => join_others(alloc, arena, first, between, pieces),
        None => Err(Fault::Raises(Cause::WrongType)),
    }
}

// The first text, and then the others, each after another.
fn join_others<'a>(
    alloc: Global,
    arena: &'a Arena,
    first: Characters<'a>,
    between: Characters<'a>,
    pieces: Pieces<'a>,
) -> Result<Gathered, Fault>
    requires lie { PiecesLie arena.now pieces }
    requires some { 0 < length (values_in arena.now pieces) }
    ensures { Joins (told (characters_in first.entry) (attributes.joined_after (characters_in between.entry) (drop 1 (values_in arena.now pieces.entry)))) arena.now result }
{
    let mut gathered = Gathered::Narrow(Vec::new(alloc));
    push(alloc, &mut gathered, first)?;
    let mut count = length_of(first);
    for i in 1..count_of(pieces) {
        match piece_at(arena, pieces, i) {
            Some(piece) => match push_after(alloc, &mut gathered, count, between, piece) {
                Ok(more) => count = more,
                Err(_) => return Err(Fault::NoMemory),
            },
            None => return Err(Fault::Raises(Cause::WrongType)),
        }
    }
    if count > MAX_STR_LENGTH {
        return Err(Fault::Raises(Cause::TooLong));
    }
    Ok(gathered)
}

// Two texts at the end of one that comes to so many characters, and to how many it comes then. Past those of a str nothing is
// added any more: what comes later may still be no str, and then it is that which is raised.
#[inline(always)]
fn push_after(
    alloc: Global,
    gathered: &mut Gathered,
    count: usize,
    between: Characters<'_>,
    piece: Characters<'_>,
) -> Result<usize, NoMemory>
    ensures { (done : List ℕ) → ComesTo done (characters_gathered gathered.old) count → IfOk result (λ more. ComesTo ((done ++ characters_in between.entry) ++ characters_in piece.entry) (characters_gathered gathered.new) more) }
{
    let more = count
        .saturating_add(length_of(between))
        .saturating_add(length_of(piece));
    if more > MAX_STR_LENGTH {
        return Ok(more);
    }
    push(alloc, gathered, between)?;
    push(alloc, gathered, piece)?;
    Ok(more)
}

// How many there are.
fn count_of(pieces: Pieces<'_>) -> usize
    ensures { (m : Memory) → result ≡ length (values_in m pieces.entry) }
{
    match pieces {
        Pieces::Values(items) => items.len(),
        Pieces::Characters(characters) => length_of(characters),
    }
}

// The characters of the one at an index, where it is a str.
fn piece_at<'a>(arena: &'a Arena, pieces: Pieces<'a>, at: usize) -> Option<Characters<'a>>
    requires lie { PiecesLie arena.now pieces }
    requires at { at < length (values_in arena.now pieces) }
    ensures { IsPiece (values_in arena.now pieces.entry) at result }
{
    match pieces {
        Pieces::Values(items) => characters_of(arena, &items[at]),
        Pieces::Characters(characters) => Some(character(characters, at)),
    }
}

// The character at an index, as a text.
fn character(characters: Characters<'_>, at: usize) -> Characters<'_>
    requires { at < length (characters_in characters) }
    ensures { characters_in result ≡ slice_index (characters_in characters.entry) at ∷ [] }
{
    match characters {
        Characters::Narrow(characters) => Characters::Narrow(&characters[at..at + 1]),
        Characters::Wide(characters) => Characters::Wide(&characters[at..at + 1]),
    }
}

// Characters at the end of what is gathered.
#[inline(always)]
fn push(alloc: Global, gathered: &mut Gathered, characters: Characters<'_>) -> Result<(), NoMemory>
    ensures { OnOk result (characters_gathered gathered.new ≡ characters_gathered gathered.old ++ characters_in characters.entry) }
{
    match characters {
        Characters::Narrow(characters) => push_narrow(gathered, characters),
        Characters::Wide(characters) => push_wide(alloc, gathered, characters),
    }
}

// Characters below 256: as they stand, unless some before them are not.
#[inline(always)]
fn push_narrow(gathered: &mut Gathered, characters: &[u8]) -> Result<(), NoMemory>
    ensures { OnOk result (characters_gathered gathered.new ≡ characters_gathered gathered.old ++ characters.now) }
{
    match gathered {
        Gathered::Narrow(narrow) => narrow.extend_from_slice(characters),
        Gathered::Wide(text) => push_latin(text, characters),
    }
}

// Any characters: from here on it is a text.
fn push_wide(alloc: Global, gathered: &mut Gathered, characters: &[char]) -> Result<(), NoMemory>
    ensures { OnOk result (characters_gathered gathered.new ≡ characters_gathered gathered.old ++ characters.now) }
{
    match gathered {
        Gathered::Narrow(narrow) => {
            let mut text = text_of_narrow(alloc, narrow)?;
            push_each(&mut text, characters)?;
            *gathered = Gathered::Wide(text);
            Ok(())
        }
        Gathered::Wide(text) => push_each(text, characters),
    }
}

// The text of characters below 256.
fn text_of_narrow(alloc: Global, characters: &[u8]) -> Result<Text, NoMemory>
    ensures { IfOk result (λ text. text ≡ characters.now) }
{
    let mut text = Text::with_capacity(alloc, characters.len())?;
    push_latin(&mut text, characters)?;
    Ok(text)
}

// Characters below 256 at the end of a text, of which most have only ASCII: that is copied as it stands.
fn push_latin(text: &mut Text, characters: &[u8]) -> Result<(), NoMemory>
    ensures { OnOk result (text.new ≡ text.old ++ characters.now) }
{
    if characters.is_ascii() {
        if let Ok(ascii) = std::str::from_utf8(characters) {
            return text.push_str(ascii);
        }
    }
    push_each_latin(text, characters)
}

// Characters below 256 at the end of a text, one by one.
fn push_each_latin(text: &mut Text, characters: &[u8]) -> Result<(), NoMemory>
    ensures { OnOk result (text.new ≡ text.old ++ characters.now) }
{
    for c in characters {
        text.push(char::from(*c))?;
    }
    Ok(())
}

// Any characters at the end of a text, one by one.
fn push_each(text: &mut Text, characters: &[char]) -> Result<(), NoMemory>
    ensures { OnOk result (text.new ≡ text.old ++ characters.now) }
{
    for c in characters {
        text.push(*c)?;
    }
    Ok(())
}
