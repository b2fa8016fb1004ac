// The exceptions that answers make, with their messages.

ghost use Rattle.std.specs.Prelude.{codes, pos, ◌≡◌, ◌++◌, IfOk};
ghost use Rattle.si_plain.specs.Characters.{characters_of};
ghost use Rattle.si_plain.specs.declared.kind.Kind.TheVariants as kinds;
ghost use Rattle.si_semantics.specs.Text.{decimal, kind_and_message};
ghost use Rattle.si_methods.specs.Replying.{MakesException};

use si_arena::{Arena, Cause, Fault, Object};
use si_plain::{Kind, NoMemory, Text};
use std::alloc::{AllocError, Global};

/// The exception that an interpreter is closed. `AllocError` where memory is refused; then the arena is as it was.
pub fn not_found(alloc: Global, arena: &mut Arena, id: u32) -> Result<Object, NoMemory>
    ensures { MakesException kinds.InterpreterNotFoundError (codes "interpreter " ++ (decimal (pos id) ++ codes " not found")) arena.old arena.new result }
{
    let message = interpreter_message(alloc, id, " not found")?;
    exception(arena, Kind::InterpreterNotFoundError, &message)
}

/// The exception that an interpreter runs. `AllocError` where memory is refused; then the arena is as it was.
pub fn is_running(alloc: Global, arena: &mut Arena, id: u32) -> Result<Object, NoMemory>
    ensures { MakesException kinds.InterpreterError (codes "interpreter " ++ (decimal (pos id) ++ codes " is running")) arena.old arena.new result }
{
    let message = interpreter_message(alloc, id, " is running")?;
    exception(arena, Kind::InterpreterError, &message)
}

// The message that an interpreter is so.
fn interpreter_message(alloc: Global, id: u32, end: &str) -> Result<Text, NoMemory>
    ensures { IfOk result (λ t. t ≡ codes "interpreter " ++ (decimal (pos id) ++ characters_of end.now)) }
{
    let number = number_text(alloc, id)?;
    let mut text = Text::from_str(alloc, "interpreter ")?;
    text.append(&number)?;
    text.push_str(end)?;
    Ok(text)
}

// A number in decimal.
fn number_text(alloc: Global, id: u32) -> Result<Text, NoMemory>
    ensures { IfOk result (λ t. t ≡ decimal (pos id)) }
{
    let digits = format!(in alloc; "{id}")?;
    Text::from_str(alloc, digits.as_str())
}

/// The exception that tells of the one by which a run was left. `AllocError` where memory is refused; then the arena is as it
/// was.
pub fn execution_failed(
    alloc: Global,
    arena: &mut Arena,
    kind: Kind,
    message: &Text,
) -> Result<Object, NoMemory>
    ensures { MakesException kinds.ExecutionFailed (kind_and_message kind message.now) arena.old arena.new result }
{
    let message = told(alloc, kind, message)?;
    exception(arena, Kind::ExecutionFailed, &message)
}

// A kind, and a message if there is one.
fn told(alloc: Global, kind: Kind, message: &Text) -> Result<Text, NoMemory>
    ensures { IfOk result (λ t. t ≡ kind_and_message kind message.now) }
{
    let mut text = Text::from_str(alloc, kind.name())?;
    if message.is_empty() {
        return Ok(text);
    }
    text.push_str(": ")?;
    text.append(message)?;
    Ok(text)
}

// The exception of a kind with a message; where the message is too long for a str, that is said in its place.
fn exception(arena: &mut Arena, kind: Kind, message: &Text) -> Result<Object, NoMemory>
    ensures { MakesException kind message.now arena.old arena.new result }
{
    match arena.place_text(message.as_str()) {
        Ok(text) => Ok(Object::Made(kind, text)),
        Err(Fault::Raises(_)) => Ok(Object::Caused(Cause::TooLong)),
        Err(Fault::NoMemory) => Err(AllocError),
    }
}
