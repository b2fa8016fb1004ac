// The built-ins that give a value.

ghost use Rattle.std.specs.Prelude.{◌≡◌, ◌∷◌, [], ◌<◌, length, slice_get, pos, unsigned_abs};
ghost use Rattle.si_plain.specs.Integers.{in_range};
ghost use Rattle.si_semantics.specs.Value as pure;
ghost use Rattle.si_semantics.specs.Operations as operations;
ghost use Rattle.si_arena.specs.Memory.{Memory, value_of, all_of, Lies, AllLie, PlacesText};
ghost use Rattle.si_arena.specs.Texts.{characters_in};
ghost use Rattle.si_ops.specs.Runs.{Tells, Runs};
ghost use Rattle.si_ops.specs.Operands.{IsTold};
ghost use Rattle.si_ops.specs.Calls.{Spells, IsByte, AreBytes};

use crate::characters::{character_at, length_of};
use crate::comparison::compare;
use crate::numerals::{read_integer, with_sign};
use crate::operand::integer_in;
use crate::ranges::items_in;
use crate::truth::{int_of_truth, is_true};
use si_arena::{Arena, Cause, Characters, Contents, Fault, Ref, View};
use si_plain::{ComparisonOperator, Kind};

/// A call of `len`, with one argument.
pub fn call_len(arena: &Arena, arguments: &[Ref]) -> Result<Ref, Cause>
    requires { AllLie arena.now arguments.now }
    ensures { Tells (λ w. operations.call_built_in pure.Len (all_of arena.now arguments.now) w) arena.now result }
{
    match arguments {
        [value] => length_in(arena, *value),
        _ => Err(Cause::WrongArguments),
    }
}

// How many characters, bytes, items or keys a value has.
fn length_in(arena: &Arena, value: Ref) -> Result<Ref, Cause>
    requires { Lies arena.now value }
    ensures { Tells (λ w. operations.length_of (value_of arena.now value) w) arena.now result }
{
    match arena.view(&value) {
        View::Str(text) => Ok(Ref::Int(length_of(text) as i64)),
        View::Bytes(bytes) => Ok(Ref::Int(bytes.len() as i64)),
        View::Range(steps) => integer(with_sign(items_in(steps), false)),
        View::Tuple(items) => Ok(Ref::Int(items.len() as i64)),
        View::Object(address) => length_at(arena, address),
        _ => Err(Cause::WrongType),
    }
}

// How many items or keys the object at an address has: a list, a dict.
fn length_at(arena: &Arena, address: usize) -> Result<Ref, Cause>
    requires { address < length arena.now.store }
    ensures { Tells (λ w. operations.length_of_object (slice_get arena.now.store address) w) arena.now result }
{
    match arena.object(address) {
        Contents::List(items) => Ok(Ref::Int(items.len() as i64)),
        Contents::Dict(pairs) => integer(with_sign(pairs.len() as u64, false)),
        Contents::Plain(_) => Err(Cause::WrongType),
    }
}

// An integer as a value, or why there is none.
fn integer(answer: Result<i64, Kind>) -> Result<Ref, Cause>
    ensures { (m : Memory) → Tells (λ w. operations.integer answer w) m result }
{
    match answer {
        Ok(n) => Ok(Ref::Int(n)),
        Err(kind) => Err(Cause::Arithmetic(kind)),
    }
}

/// A call of `bool`, with one argument.
pub fn call_bool(arena: &Arena, arguments: &[Ref]) -> Result<Ref, Cause>
    requires { AllLie arena.now arguments.now }
    ensures { Tells (λ w. operations.call_built_in pure.MakeBool (all_of arena.now arguments.now) w) arena.now result }
{
    match arguments {
        [value] => Ok(Ref::Truth([], is_true(arena, *value))),
        _ => Err(Cause::WrongArguments),
    }
}

/// A call of `abs`, with one argument.
pub fn call_abs(arena: &Arena, arguments: &[Ref]) -> Result<Ref, Cause>
    requires { AllLie arena.now arguments.now }
    ensures { Tells (λ w. operations.call_built_in pure.Abs (all_of arena.now arguments.now) w) arena.now result }
{
    match arguments {
        [value] => absolute_of(arena, *value),
        _ => Err(Cause::WrongArguments),
    }
}

// The integer that a value is or counts as, without its sign.
fn absolute_of(arena: &Arena, value: Ref) -> Result<Ref, Cause>
    requires { Lies arena.now value }
    ensures { Tells (λ w. operations.absolute (operations.integer_in (value_of arena.now value)) w) arena.now result }
{
    let n = integer_in(arena, value)?;
    integer(absolute(n))
}

// An integer without its sign; `OverflowError` for the least one.
fn absolute(n: i64) -> Result<i64, Kind>
    ensures { result ≡ in_range (pos (unsigned_abs n)) }
{
    with_sign(n.unsigned_abs(), false)
}

/// A call of `int`, with one argument.
pub fn call_int(arena: &Arena, arguments: &[Ref]) -> Result<Ref, Cause>
    requires { AllLie arena.now arguments.now }
    ensures { Tells (λ w. operations.call_built_in pure.MakeInt (all_of arena.now arguments.now) w) arena.now result }
{
    match arguments {
        [value] => integer_of(arena, *value),
        _ => Err(Cause::WrongArguments),
    }
}

// The integer that a value is, counts as or writes.
fn integer_of(arena: &Arena, value: Ref) -> Result<Ref, Cause>
    requires { Lies arena.now value }
    ensures { Tells (λ w. operations.integer_of (value_of arena.now value) w) arena.now result }
{
    match arena.view(&value) {
        View::Int(n) => Ok(Ref::Int(n)),
        View::Truth(truth) => Ok(Ref::Int(int_of_truth(truth))),
        View::Str(text) => integer(read_integer(text)),
        _ => Err(Cause::WrongType),
    }
}

/// A call of `ord`, with one argument.
pub fn call_ord(arena: &Arena, arguments: &[Ref]) -> Result<Ref, Cause>
    requires { AllLie arena.now arguments.now }
    ensures { Tells (λ w. operations.call_built_in pure.Ord (all_of arena.now arguments.now) w) arena.now result }
{
    match arguments {
        [value] => code_of(arena, *value),
        _ => Err(Cause::WrongArguments),
    }
}

// The number of the one character of a str.
fn code_of(arena: &Arena, value: Ref) -> Result<Ref, Cause>
    requires { Lies arena.now value }
    ensures { Tells (λ w. operations.code_of (value_of arena.now value) w) arena.now result }
{
    match arena.view(&value) {
        View::Str(text) => code_in(text),
        _ => Err(Cause::WrongType),
    }
}

// The number of the one character of a text.
fn code_in(text: Characters) -> Result<Ref, Cause>
    ensures { (m : Memory) → Tells (λ w. operations.code_of (pure.Str (characters_in text.entry)) w) m result }
{
    if length_of(text) != 1 {
        return Err(Cause::WrongType);
    }
    Ok(Ref::Int(i64::from(u32::from(character_at(text, 0)))))
}

/// A call of `chr`, with one argument. A character below 256 takes no memory.
pub fn call_chr(arena: &mut Arena, arguments: &[Ref]) -> Result<Ref, Fault>
    requires { AllLie arena.old arguments.now }
    ensures runs { Runs (λ w. operations.call_built_in pure.Chr (all_of arena.old arguments.now) w) arena.old arena.new result }
    ensures memory { AreBytes (all_of arena.old arguments.now) → IsTold result }
{
    match arguments {
        [value] => place_code(arena, *value),
        _ => Err(Fault::Raises(Cause::WrongArguments)),
    }
}

// The str of the character with the number that a value is or counts as.
fn place_code(arena: &mut Arena, value: Ref) -> Result<Ref, Fault>
    requires { Lies arena.old value }
    ensures runs { Runs (λ w. operations.character_of (operations.integer_in (value_of arena.old value)) w) arena.old arena.new result }
    ensures memory { IsByte (operations.integer_in (value_of arena.old value)) → IsTold result }
{
    match character_in(arena, value) {
        Ok(character) => place_character(arena, character),
        Err(cause) => Err(Fault::Raises(cause)),
    }
}

// The str of a character.
fn place_character(arena: &mut Arena, character: char) -> Result<Ref, Fault>
    ensures text { PlacesText (character ∷ []) arena.old arena.new result }
    ensures memory { character < 256 → IsTold result }
{
    let mut buffer = [0; 4];
    arena.place_text(character.encode_utf8(&mut buffer))
}

// The character with the number that a value is or counts as.
fn character_in(arena: &Arena, value: Ref) -> Result<char, Cause>
    requires { Lies arena.now value }
    ensures { Spells (λ w. operations.character_of (operations.integer_in (value_of arena.now value)) w) arena.now result }
{
    let number = integer_in(arena, value)?;
    match u32::try_from(number) {
        Ok(code) => char::from_u32(code).ok_or(Cause::Arithmetic(Kind::ValueError)),
        Err(_) => Err(Cause::Arithmetic(Kind::ValueError)),
    }
}

/// A call of `min`, with two arguments or more.
pub fn call_min(arena: &Arena, arguments: &[Ref]) -> Result<Ref, Cause>
    requires { AllLie arena.now arguments.now }
    ensures { Tells (λ w. operations.call_built_in pure.Min (all_of arena.now arguments.now) w) arena.now result }
{
    if arguments.len() < 2 {
        return Err(Cause::WrongArguments);
    }
    least(arena, arguments[0], &arguments[1..])
}

// The least of a value and others, the first of equal ones.
fn least(arena: &Arena, first: Ref, others: &[Ref]) -> Result<Ref, Cause>
    requires first { Lies arena.now first }
    requires others { AllLie arena.now others.now }
    ensures { Tells (λ w. operations.least (value_of arena.now first) (all_of arena.now others.now) w) arena.now result }
{
    let mut least = first;
    for value in others {
        if compare(arena, ComparisonOperator::Less, *value, least)? {
            least = *value;
        }
    }
    Ok(least)
}

/// A call of `max`, with two arguments or more.
pub fn call_max(arena: &Arena, arguments: &[Ref]) -> Result<Ref, Cause>
    requires { AllLie arena.now arguments.now }
    ensures { Tells (λ w. operations.call_built_in pure.Max (all_of arena.now arguments.now) w) arena.now result }
{
    if arguments.len() < 2 {
        return Err(Cause::WrongArguments);
    }
    greatest(arena, arguments[0], &arguments[1..])
}

// The greatest of a value and others, the first of equal ones.
fn greatest(arena: &Arena, first: Ref, others: &[Ref]) -> Result<Ref, Cause>
    requires first { Lies arena.now first }
    requires others { AllLie arena.now others.now }
    ensures { Tells (λ w. operations.greatest (value_of arena.now first) (all_of arena.now others.now) w) arena.now result }
{
    let mut greatest = first;
    for value in others {
        if compare(arena, ComparisonOperator::Greater, *value, greatest)? {
            greatest = *value;
        }
    }
    Ok(greatest)
}
