// The methods of strs.

ghost use Rattle.std.specs.Prelude.{ℕ, List};
ghost use Rattle.si_semantics.specs.Value as pure;
ghost use Rattle.si_semantics.specs.Parts.{begins_with};
ghost use Rattle.si_semantics.specs.Attributes as attributes;
ghost use Rattle.si_arena.specs.Memory.{value_of, all_of, Lies, AllLie};
ghost use Rattle.si_methods.specs.Shown.{AreStrs, IsTextOf};
ghost use Rattle.si_methods.specs.Answering.{Answers, told_of};

use crate::arguments::only_argument;
use crate::characters::{begins_at, ends_at};
use crate::request::{Answered, placed};
use crate::shown::characters_of;
use si_arena::{Arena, Cause, Characters, Fault, Ref};
use si_plain::Text;
use si_share::text_of;
use std::alloc::Global;

/// `str.startswith` of one str (Python Standard Library 3.14, "Built-in Types": string methods). `WrongArguments`,
/// `WrongType`. Takes no memory.
pub fn starts_with(
    arena: &Arena,
    object: Ref,
    arguments: &[Ref],
    names: &[Text],
) -> Result<Answered, Cause>
    requires object { Lies arena.now object }
    requires arguments { AllLie arena.now arguments.now }
    ensures { (own : ℕ) → Answers (λ w. attributes.call_method attributes.StartsWith (value_of arena.now object) (all_of arena.now arguments.now) names.now w) own arena.now arena.now (told_of result) }
{
    match only_argument(arguments, names) {
        Some(part) => begins(arena, object, part),
        None => Err(Cause::WrongArguments),
    }
}

// Whether a value begins with another, where both are strs.
fn begins(arena: &Arena, whole: Ref, part: Ref) -> Result<Answered, Cause>
    requires whole { Lies arena.now whole }
    requires part { Lies arena.now part }
    ensures { (own : ℕ) → Answers (λ w. attributes.tested_texts begins_with (value_of arena.now whole) (value_of arena.now part) w) own arena.now arena.now (told_of result) }
{
    match both_characters(arena, &whole, &part) {
        Some(both) => Ok(Answered::Value(Ref::Truth([], begins_at(both.0, 0, both.1)))),
        None => Err(Cause::WrongType),
    }
}

/// `str.endswith` of one str (Python Standard Library 3.14, "Built-in Types": string methods). `WrongArguments`,
/// `WrongType`. Takes no memory.
pub fn ends_with(
    arena: &Arena,
    object: Ref,
    arguments: &[Ref],
    names: &[Text],
) -> Result<Answered, Cause>
    requires object { Lies arena.now object }
    requires arguments { AllLie arena.now arguments.now }
    ensures { (own : ℕ) → Answers (λ w. attributes.call_method attributes.EndsWith (value_of arena.now object) (all_of arena.now arguments.now) names.now w) own arena.now arena.now (told_of result) }
{
    match only_argument(arguments, names) {
        Some(part) => ends(arena, object, part),
        None => Err(Cause::WrongArguments),
    }
}

// Whether a value ends with another, where both are strs.
fn ends(arena: &Arena, whole: Ref, part: Ref) -> Result<Answered, Cause>
    requires whole { Lies arena.now whole }
    requires part { Lies arena.now part }
    ensures { (own : ℕ) → Answers (λ w. attributes.tested_texts attributes.ends_with (value_of arena.now whole) (value_of arena.now part) w) own arena.now arena.now (told_of result) }
{
    match both_characters(arena, &whole, &part) {
        Some(both) => Ok(Answered::Value(Ref::Truth([], ends_at(both.0, both.1)))),
        None => Err(Cause::WrongType),
    }
}

// The characters of two values, where both are strs.
fn both_characters<'a>(
    arena: &'a Arena,
    whole: &'a Ref,
    part: &'a Ref,
) -> Option<(Characters<'a>, Characters<'a>)>
    requires whole { Lies arena.now whole.now }
    requires part { Lies arena.now part.now }
    ensures { AreStrs (value_of arena.now whole.now) (value_of arena.now part.now) result }
{
    let Some(whole) = characters_of(arena, whole) else {
        return None;
    };
    let Some(part) = characters_of(arena, part) else {
        return None;
    };
    Some((whole, part))
}

/// `str.encode` (Python Standard Library 3.14, "Built-in Types": string methods): its characters in UTF-8, as bytes.
/// `WrongArguments`, `WrongType`, and `TooLong` where they are more than bytes may be; `NoMemory` where memory is refused.
/// Where nothing is given, the arena is as before.
pub fn encode(
    alloc: Global,
    arena: &mut Arena,
    object: Ref,
    arguments: &[Ref],
) -> Result<Answered, Fault>
    requires { Lies arena.old object }
    ensures { (own : ℕ) (names : List pure.Text) → Answers (λ w. attributes.call_method attributes.Encode (value_of arena.old object) (all_of arena.old arguments.now) names w) own arena.old arena.new result }
{
    if !arguments.is_empty() {
        return Err(Fault::Raises(Cause::WrongArguments));
    }
    encoded(alloc, arena, object)
}

// The bytes of a str.
fn encoded(alloc: Global, arena: &mut Arena, object: Ref) -> Result<Answered, Fault>
    requires { Lies arena.old object }
    ensures { (own : ℕ) → Answers (λ w. attributes.encodes (value_of arena.old object) w) own arena.old arena.new result }
{
    match text_in(alloc, arena, &object) {
        Ok(text) => placed(arena.place_bytes(text.as_str().as_bytes())),
        Err(fault) => Err(fault),
    }
}

// The characters of a str, as a text.
fn text_in(alloc: Global, arena: &Arena, value: &Ref) -> Result<Text, Fault>
    requires { Lies arena.now value.now }
    ensures { IsTextOf (value_of arena.now value.now) result }
{
    match characters_of(arena, value) {
        Some(characters) => match text_of(alloc, characters) {
            Ok(text) => Ok(text),
            Err(_) => Err(Fault::NoMemory),
        },
        None => Err(Fault::Raises(Cause::WrongType)),
    }
}
