// Calls of what is there from the first: built-ins and kinds of exceptions.

ghost use Rattle.std.specs.Prelude.{◌≡◌, ◌≤◌, ◌∷◌, [], length, string_bytes, drop, take};
ghost use Rattle.std.specs.Str.{IsCharBoundary};
ghost use Rattle.si_plain.specs.Characters.{characters_of};
ghost use Rattle.si_semantics.specs.Value as pure;
ghost use Rattle.si_semantics.specs.Text as semantics;
ghost use Rattle.si_semantics.specs.Operations as operations;
ghost use Rattle.si_arena.specs.Memory.{built_in_of, value_of, all_of, Lies, AllLie, PlacesText};
ghost use Rattle.si_ops.specs.Runs.{Throws, Runs};
ghost use Rattle.si_ops.specs.Calls.{Makes, Calls, Spans, call_of, NeedsNone, IsSaid};
ghost use Rattle.si_ops.specs.inner.Written as written;

use crate::bytes::call_bytes;
use crate::characters::length_of;
use crate::line::push_line;
use crate::lists::call_list;
use crate::operand::integer_in;
use crate::provided::{
    call_abs, call_bool, call_chr, call_int, call_len, call_max, call_min, call_ord,
};
use crate::shown::{push_repr, push_str};
use crate::tuples::call_tuple;
use itoa::Buffer;
use si_arena::{Arena, BuiltIn, Cause, Characters, Fault, Object, Ref, Short, Steps, View};
use si_plain::Kind;
use si_plain::limits::MAX_STR_LENGTH;

/// What a call gave.
#[derive(Clone, Copy, Debug)]
pub enum Called {
    /// This value.
    Value(Ref),
    /// None, and what it printed is at the end of the line.
    Printed,
}

/// A call of a value that is no function of a script, with its arguments (Python Language Reference 3.14, 6.3.3; Python
/// Standard Library 3.14, "Built-in Functions" and "Built-in Exceptions"): of a built-in, or of a kind of exception,
/// which makes one. What `print` prints is added to `line`, where a `str` may also be written before it is placed.
/// `NotCallable` for any other value, `WrongArguments`, `WrongType`, `Arithmetic`, `TooDeep` and `TooLong` as the
/// definition raises them. Where nothing is given, the arena and the text of `line` are as before. Memory is asked for
/// neither by `print`, where the line has room, nor by `tuple`, where it makes none, nor by what makes no str, no bytes, no
/// range, no list and no exception, nor where the value can't be called.
pub fn call(
    arena: &mut Arena,
    line: &mut String,
    callee: Ref,
    arguments: &[Ref],
) -> Result<Called, Fault>
    requires callee { Lies arena.old callee }
    requires arguments { AllLie arena.old arguments.now }
    ensures calls { Calls (λ w. operations.call_provided (value_of arena.old callee) (all_of arena.old arguments.now) w) arena.old arena.new line.old line.new result }
    ensures memory { NeedsNone arena.old line.old (value_of arena.old callee) (all_of arena.old arguments.now) → IsSaid result }
{
    match arena.view(&callee) {
        View::BuiltIn(function) => call_built_in(arena, line, function, arguments),
        View::Kind(kind) => {
            let made = call_kind(arena, kind, arguments)?;
            Ok(Called::Value(made))
        }
        _ => Err(Fault::Raises(Cause::NotCallable)),
    }
}

/// Why a call with an argument by name raises: nothing that can be called takes one yet (this project's own). A value
/// that can't be called raises `NotCallable`, any other `WrongArguments`.
pub fn call_by_name(arena: &Arena, callee: Ref) -> Cause
    requires { Lies arena.now callee }
    ensures { Throws (λ w. operations.call_by_name (value_of arena.now callee) w) arena.now result }
{
    match arena.view(&callee) {
        View::BuiltIn(_) => Cause::WrongArguments,
        View::Kind(_) => Cause::WrongArguments,
        View::Function(_, _) => Cause::WrongArguments,
        _ => Cause::NotCallable,
    }
}

// A call of a built-in.
fn call_built_in(
    arena: &mut Arena,
    line: &mut String,
    function: BuiltIn,
    arguments: &[Ref],
) -> Result<Called, Fault>
    requires { AllLie arena.old arguments.now }
    ensures calls { Calls (λ w. operations.call_built_in (built_in_of function) (all_of arena.old arguments.now) w) arena.old arena.new line.old line.new result }
    ensures memory { NeedsNone arena.old line.old (pure.Provided (built_in_of function)) (all_of arena.old arguments.now) → IsSaid result }
{
    match function {
        BuiltIn::Print => print(arena, line, arguments),
        BuiltIn::Range => {
            let range = make_range(arena, arguments)?;
            Ok(Called::Value(range))
        }
        BuiltIn::Str => {
            let text = make_str(arena, line, arguments)?;
            Ok(Called::Value(text))
        }
        BuiltIn::Repr => {
            let text = make_repr(arena, line, arguments)?;
            Ok(Called::Value(text))
        }
        BuiltIn::Len => told(call_len(arena, arguments)),
        BuiltIn::Bool => told(call_bool(arena, arguments)),
        BuiltIn::Abs => told(call_abs(arena, arguments)),
        BuiltIn::Int => told(call_int(arena, arguments)),
        BuiltIn::Ord => told(call_ord(arena, arguments)),
        BuiltIn::Chr => {
            let text = call_chr(arena, arguments)?;
            Ok(Called::Value(text))
        }
        BuiltIn::Min => told(call_min(arena, arguments)),
        BuiltIn::Max => told(call_max(arena, arguments)),
        BuiltIn::Bytes => {
            let bytes = call_bytes(arena, arguments)?;
            Ok(Called::Value(bytes))
        }
        BuiltIn::Tuple => {
            let tuple = call_tuple(arena, arguments)?;
            Ok(Called::Value(tuple))
        }
        BuiltIn::List => {
            let list = call_list(arena, arguments)?;
            Ok(Called::Value(list))
        }
    }
}

// What a call makes of a value that takes no memory, or of why there is none.
fn told(answer: Result<Ref, Cause>) -> Result<Called, Fault>
    ensures call { result ≡ call_of answer }
    ensures said { IsSaid result }
{
    match answer {
        Ok(value) => Ok(Called::Value(value)),
        Err(cause) => Err(Fault::Raises(cause)),
    }
}

// A call of `print`.
fn print(arena: &Arena, line: &mut String, arguments: &[Ref]) -> Result<Called, Fault>
    requires { AllLie arena.now arguments.now }
    ensures calls { Calls (λ w. operations.call_built_in pure.Print (all_of arena.now arguments.now) w) arena.now arena.now line.old line.new result }
    ensures memory { NeedsNone arena.now line.old (pure.Provided pure.Print) (all_of arena.now arguments.now) → IsSaid result }
{
    push_line(line, arena, arguments)?;
    Ok(Called::Printed)
}

// A call of `range`, with one to three arguments.
fn make_range(arena: &mut Arena, arguments: &[Ref]) -> Result<Ref, Fault>
    requires { AllLie arena.old arguments.now }
    ensures { Runs (λ w. operations.call_built_in pure.MakeRange (all_of arena.old arguments.now) w) arena.old arena.new result }
{
    match arguments {
        [stop] => range_between(arena, Ref::Int(0), *stop, Ref::Int(1)),
        [start, stop] => range_between(arena, *start, *stop, Ref::Int(1)),
        [start, stop, step] => range_between(arena, *start, *stop, *step),
        _ => Err(Fault::Raises(Cause::WrongArguments)),
    }
}

// A range from one value to another, a step apart.
fn range_between(arena: &mut Arena, start: Ref, stop: Ref, step: Ref) -> Result<Ref, Fault>
    requires start { Lies arena.old start }
    requires stop { Lies arena.old stop }
    requires step { Lies arena.old step }
    ensures { Runs (λ w. operations.range_of (operations.integer_in (value_of arena.old start)) (operations.integer_in (value_of arena.old stop)) (operations.integer_in (value_of arena.old step)) w) arena.old arena.new result }
{
    match steps_between(arena, start, stop, step) {
        Ok(steps) => Ok(arena.place_range(steps)?),
        Err(cause) => Err(Fault::Raises(cause)),
    }
}

// The integers from one value to another, a step apart that is not 0.
fn steps_between(arena: &Arena, start: Ref, stop: Ref, step: Ref) -> Result<Steps, Cause>
    requires start { Lies arena.now start }
    requires stop { Lies arena.now stop }
    requires step { Lies arena.now step }
    ensures { Spans (λ w. operations.range_of (operations.integer_in (value_of arena.now start)) (operations.integer_in (value_of arena.now stop)) (operations.integer_in (value_of arena.now step)) w) arena.now result }
{
    let start = integer_in(arena, start)?;
    let stop = integer_in(arena, stop)?;
    let step = integer_in(arena, step)?;
    if step == 0 {
        return Err(Cause::Arithmetic(Kind::ValueError));
    }
    Ok(Steps { start, stop, step })
}

// A call of `str`, with one argument.
fn make_str(arena: &mut Arena, line: &mut String, arguments: &[Ref]) -> Result<Ref, Fault>
    requires { AllLie arena.old arguments.now }
    ensures runs { Runs (λ w. operations.call_built_in pure.MakeStr (all_of arena.old arguments.now) w) arena.old arena.new result }
    ensures line { string_bytes line.new ≡ string_bytes line.old }
{
    match arguments {
        [value] => place_str(arena, line, *value),
        _ => Err(Fault::Raises(Cause::WrongArguments)),
    }
}

// A call of `repr`, with one argument.
fn make_repr(arena: &mut Arena, line: &mut String, arguments: &[Ref]) -> Result<Ref, Fault>
    requires { AllLie arena.old arguments.now }
    ensures runs { Runs (λ w. operations.call_built_in pure.Repr (all_of arena.old arguments.now) w) arena.old arena.new result }
    ensures line { string_bytes line.new ≡ string_bytes line.old }
{
    match arguments {
        [value] => place_repr(arena, line, *value),
        _ => Err(Fault::Raises(Cause::WrongArguments)),
    }
}

// The `str` of a value, as a str: of an integer its digits, of a str the same str.
fn place_str(arena: &mut Arena, line: &mut String, value: Ref) -> Result<Ref, Fault>
    requires { Lies arena.old value }
    ensures runs { Runs (λ w. operations.call_built_in pure.MakeStr (value_of arena.old value ∷ []) w) arena.old arena.new result }
    ensures line { string_bytes line.new ≡ string_bytes line.old }
{
    match value {
        Ref::Int(n) => place_int(arena, n),
        _ => place_other_str(arena, line, value),
    }
}

// The same of a value that is no integer.
fn place_other_str(arena: &mut Arena, line: &mut String, value: Ref) -> Result<Ref, Fault>
    requires { Lies arena.old value }
    ensures runs { Runs (λ w. operations.call_built_in pure.MakeStr (value_of arena.old value ∷ []) w) arena.old arena.new result }
    ensures line { string_bytes line.new ≡ string_bytes line.old }
{
    if is_own_str(arena, value) {
        return Ok(value);
    }
    place_written_str(arena, line, value)
}

// Whether a value is a str, which is then its own `str`.
fn is_own_str(arena: &Arena, value: Ref) -> bool
    requires { Lies arena.now value }
    ensures { result ≡ written.is_own_str (value_of arena.now value) }
{
    match arena.view(&value) {
        View::Str(characters) => length_of(characters) <= MAX_STR_LENGTH,
        _ => false,
    }
}

// The `str` of a value, as a str. It is written at the end of a line, and taken away there.
fn place_written_str(arena: &mut Arena, line: &mut String, value: Ref) -> Result<Ref, Fault>
    requires { Lies arena.old value }
    ensures runs { Runs (λ w. operations.call_built_in pure.MakeStr (value_of arena.old value ∷ []) w) arena.old arena.new result }
    ensures line { string_bytes line.new ≡ string_bytes line.old }
{
    let start = line.len();
    push_str(line, arena, value)?;
    place_after(arena, line, start)
}

// The `repr` of a value, as a str: of an integer its digits.
fn place_repr(arena: &mut Arena, line: &mut String, value: Ref) -> Result<Ref, Fault>
    requires { Lies arena.old value }
    ensures runs { Runs (λ w. operations.call_built_in pure.Repr (value_of arena.old value ∷ []) w) arena.old arena.new result }
    ensures line { string_bytes line.new ≡ string_bytes line.old }
{
    match value {
        Ref::Int(n) => place_int(arena, n),
        _ => place_written_repr(arena, line, value),
    }
}

// The `repr` of a value, written and placed in the same way.
fn place_written_repr(arena: &mut Arena, line: &mut String, value: Ref) -> Result<Ref, Fault>
    requires { Lies arena.old value }
    ensures runs { Runs (λ w. operations.call_built_in pure.Repr (value_of arena.old value ∷ []) w) arena.old arena.new result }
    ensures line { string_bytes line.new ≡ string_bytes line.old }
{
    let start = line.len();
    push_repr(line, arena, value)?;
    place_after(arena, line, start)
}

// The digits of an integer, as a str, which is not too long.
fn place_int(arena: &mut Arena, n: i64) -> Result<Ref, Fault>
    ensures text { PlacesText (semantics.decimal n) arena.old arena.new result }
    ensures few { length (semantics.decimal n) ≤ semantics.max_length }
{
    let mut buffer = Buffer::new();
    let digits = buffer.format(n);
    match Short::from_characters(Characters::Narrow(digits.as_bytes())) {
        Some(short) => Ok(Ref::Short(short)),
        None => arena.place_text(digits),
    }
}

// Places what stands in a line from a start on, and takes it away there.
fn place_after(arena: &mut Arena, line: &mut String, start: usize) -> Result<Ref, Fault>
    requires { IsCharBoundary (string_bytes line.old) start }
    ensures text { PlacesText (characters_of (drop start (string_bytes line.old))) arena.old arena.new result }
    ensures line { string_bytes line.new ≡ take start (string_bytes line.old) }
{
    let placed = arena.place_text(&line.as_str()[start..]);
    line.truncate(start);
    placed
}

// A call of a kind: an exception with an argument or without one.
fn call_kind(arena: &mut Arena, kind: Kind, arguments: &[Ref]) -> Result<Ref, Fault>
    requires { AllLie arena.old arguments.now }
    ensures { Makes (λ w. operations.call_kind kind (all_of arena.old arguments.now) w) arena.old arena.new result }
{
    match arguments {
        [] => Ok(arena.make(Object::Bare(kind))?),
        [argument] => Ok(arena.make(Object::Made(kind, *argument))?),
        _ => Err(Fault::Raises(Cause::WrongArguments)),
    }
}
