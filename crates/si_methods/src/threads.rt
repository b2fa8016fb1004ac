// Threads.

ghost use Rattle.std.specs.Prelude.{◌≡◌, ◌<◌, ℕ, List, IfOk, Some, length, slice_get};
ghost use Rattle.si_semantics.specs.Value as pure;
ghost use Rattle.si_semantics.specs.Operations as operations;
ghost use Rattle.si_semantics.specs.Attributes as attributes;
ghost use Rattle.si_arena.specs.Memory.{Memory, value_of, all_of, object_of, ObjectLies, Lies, AllLie};
ghost use Rattle.si_arena.specs.Texts.{IsText, text_of};
ghost use Rattle.si_methods.specs.Passing.{IsOnlyText};
ghost use Rattle.si_methods.specs.Answering.{Answers, told_of};

use crate::arguments::thread_arguments;
use crate::request::{Answered, Awaited};
use crate::sent::boxed;
use crate::shown::{address_of, characters_of, exec_of, only_item};
use si_arena::{Arena, Cause, Contents, Fault, Object, Ref, Refusal};
use si_parcel::{Action, BoxedText};
use si_plain::{NoMemory, Text};
use std::alloc::Global;

/// `threading.Thread(target=.., args=..)` (Python Standard Library 3.14, "threading"): a thread that is to run `exec` of an
/// interpreter with one text. `WrongArguments`, `WrongType`; `NoMemory` where memory is refused for the object; then the arena
/// is as it was.
pub fn make_thread(arena: &mut Arena, arguments: &[Ref], names: &[Text]) -> Result<Answered, Fault>
    requires { AllLie arena.old arguments.now }
    ensures { (own : ℕ) (v : pure.Value) → Answers (λ w. attributes.call_method attributes.MakeThread v (all_of arena.old arguments.now) names.now w) own arena.old arena.new result }
{
    match thread_arguments(arguments, names) {
        Some(pair) => thread_of(arena, pair.0, pair.1),
        None => Err(Fault::Raises(Cause::WrongArguments)),
    }
}

// A thread with this target and these arguments.
fn thread_of(arena: &mut Arena, target: Ref, args: Ref) -> Result<Answered, Fault>
    requires target { Lies arena.old target }
    requires args { Lies arena.old args }
    ensures { (own : ℕ) → Answers (λ w. attributes.thread_of (value_of arena.old target) (value_of arena.old args) w) own arena.old arena.new result }
{
    match exec_of(arena, target) {
        Some(interpreter) => thread_in(arena, interpreter, args),
        None => Err(Fault::Raises(Cause::WrongType)),
    }
}

// A thread that is to run `exec` of an interpreter with these arguments.
fn thread_in(arena: &mut Arena, interpreter: u32, args: Ref) -> Result<Answered, Fault>
    requires { Lies arena.old args }
    ensures { (own : ℕ) → Answers (λ w. attributes.thread_of (pure.Exec interpreter) (value_of arena.old args) w) own arena.old arena.new result }
{
    match only_text(arena, args) {
        Some(text) => made(arena, interpreter, text),
        None => Err(Fault::Raises(Cause::WrongType)),
    }
}

// A thread that is to run a text in an interpreter.
fn made(arena: &mut Arena, interpreter: u32, text: Ref) -> Result<Answered, Fault>
    requires lies { Lies arena.old text }
    requires text { IsText text }
    ensures { (own : ℕ) → Answers (λ w. operations.placed (pure.Thread interpreter (text_of arena.old.texts text)) w) own arena.old arena.new result }
{
    match arena.make(Object::Thread { interpreter, text }) {
        Ok(thread) => Ok(Answered::Value(thread)),
        Err(_) => Err(Fault::NoMemory),
    }
}

// The text of a tuple of one text.
fn only_text(arena: &Arena, args: Ref) -> Option<Ref>
    requires { Lies arena.now args }
    ensures { IsOnlyText arena.now (value_of arena.now args) result }
{
    match only_item(arena, args) {
        Some(item) => match characters_of(arena, &item) {
            Some(_) => Some(item),
            None => None,
        },
        None => None,
    }
}

/// `start` of a thread (Python Standard Library 3.14, "threading"): asks for a run of its text. `WrongArguments`, `WrongType`;
/// `Refused(AlreadyStarted)` where it was started; `NoMemory` where memory is refused for the text.
pub fn start(
    alloc: Global,
    arena: &Arena,
    object: Ref,
    arguments: &[Ref],
) -> Result<Answered, Fault>
    requires { Lies arena.now object }
    ensures { (own : ℕ) (names : List pure.Text) → Answers (λ w. attributes.call_method attributes.Start (value_of arena.now object) (all_of arena.now arguments.now) names w) own arena.now arena.now result }
{
    if !arguments.is_empty() {
        return Err(Fault::Raises(Cause::WrongArguments));
    }
    match address_of(arena, object) {
        Some(thread) => run_of(alloc, arena, thread),
        None => Err(Fault::Raises(Cause::WrongType)),
    }
}

// To ask for a run of the text of the thread at an address.
fn run_of(alloc: Global, arena: &Arena, thread: usize) -> Result<Answered, Fault>
    requires { thread < length arena.now.store }
    ensures { (own : ℕ) → Answers (λ w. attributes.starts thread (slice_get w.store thread) w) own arena.now arena.now result }
{
    match arena.object(thread) {
        Contents::Plain(object) => run_of_object(alloc, arena, thread, object),
        Contents::List(_) => Err(Fault::Raises(Cause::WrongType)),
        Contents::Dict(_) => Err(Fault::Raises(Cause::WrongType)),
    }
}

// To ask for a run of the text of a thread.
fn run_of_object(
    alloc: Global,
    arena: &Arena,
    thread: usize,
    object: Object,
) -> Result<Answered, Fault>
    requires address { thread < length arena.now.store }
    requires lies { ObjectLies arena.now object }
    ensures { (own : ℕ) → Answers (λ w. attributes.starts thread (Some (object_of arena.now object)) w) own arena.now arena.now result }
{
    match object {
        Object::Bare(_) => Err(Fault::Raises(Cause::WrongType)),
        Object::Made(_, _) => Err(Fault::Raises(Cause::WrongType)),
        Object::Caused(_) => Err(Fault::Raises(Cause::WrongType)),
        Object::Thread { interpreter, text } => match copied(alloc, arena, text) {
            Ok(text) => {
                let kept = Awaited::StartThread {
                    thread,
                    interpreter,
                };
                Ok(Answered::Asks(kept, Action::Start(interpreter, text)))
            }
            Err(_) => Err(Fault::NoMemory),
        },
        Object::Started(_) => Err(Fault::Raises(Cause::Refused(Refusal::AlreadyStarted))),
    }
}

// The text of a thread, as it goes into an action.
fn copied(alloc: Global, arena: &Arena, text: Ref) -> Result<BoxedText, NoMemory>
    requires lies { Lies arena.now text }
    requires text { IsText text }
    ensures { IfOk result (λ t. t ≡ text_of arena.now.texts text) }
{
    match characters_of(arena, &text) {
        Some(characters) => boxed(alloc, characters),
        None => unreachable!(),
    }
}

/// `join` of a thread (Python Standard Library 3.14, "threading"): asks for the end of its run. `WrongArguments`, `WrongType`;
/// `Refused(NotStarted)` where it was not started. Takes no memory.
pub fn join(arena: &Arena, object: Ref, arguments: &[Ref]) -> Result<Answered, Cause>
    requires { Lies arena.now object }
    ensures { (own : ℕ) (names : List pure.Text) → Answers (λ w. attributes.call_method attributes.Join (value_of arena.now object) (all_of arena.now arguments.now) names w) own arena.now arena.now (told_of result) }
{
    if !arguments.is_empty() {
        return Err(Cause::WrongArguments);
    }
    match address_of(arena, object) {
        Some(thread) => end_of(arena, thread),
        None => Err(Cause::WrongType),
    }
}

// To ask for the end of the run of the thread at an address.
fn end_of(arena: &Arena, thread: usize) -> Result<Answered, Cause>
    requires { thread < length arena.now.store }
    ensures { (own : ℕ) → Answers (λ w. attributes.joins (slice_get w.store thread) w) own arena.now arena.now (told_of result) }
{
    match arena.object(thread) {
        Contents::Plain(object) => end_of_object(object),
        Contents::List(_) => Err(Cause::WrongType),
        Contents::Dict(_) => Err(Cause::WrongType),
    }
}

// To ask for the end of the run of a thread.
fn end_of_object(object: Object) -> Result<Answered, Cause>
    ensures { (m : Memory) (own : ℕ) → Answers (λ w. attributes.joins (Some (object_of m object)) w) own m m (told_of result) }
{
    match object {
        Object::Bare(_) => Err(Cause::WrongType),
        Object::Made(_, _) => Err(Cause::WrongType),
        Object::Caused(_) => Err(Cause::WrongType),
        Object::Thread { .. } => Err(Cause::Refused(Refusal::NotStarted)),
        Object::Started(run) => Ok(Answered::Asks(Awaited::JoinThread, Action::Await(run))),
    }
}
