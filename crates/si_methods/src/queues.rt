// The methods of queues.

ghost use Rattle.std.specs.Prelude.{codes, ℕ, List};
ghost use Rattle.si_semantics.specs.Value as pure;
ghost use Rattle.si_semantics.specs.Attributes as attributes;
ghost use Rattle.si_arena.specs.Memory.{value_of, all_of, Lies, AllLie};
ghost use Rattle.si_methods.specs.Passing.{AsksQueue, PutsItem};
ghost use Rattle.si_methods.specs.Needing.{IsBare, AreBare, IsTold};
ghost use Rattle.si_methods.specs.Answering.{Answers, told_of};

use crate::arguments::one_argument;
use crate::request::{Answered, Awaited};
use crate::sent::sent;
use crate::shown::queue_of;
use si_arena::{Arena, Cause, Fault, Ref};
use si_parcel::{Action, Parcel};
use si_plain::Text;
use std::alloc::Global;

// The queue that is asked by a call without an argument, and the most items that it may have.
fn asked(arena: &Arena, object: Ref, arguments: &[Ref]) -> Result<(u32, u64), Cause>
    requires { Lies arena.now object }
    ensures { AsksQueue (value_of arena.now object) (all_of arena.now arguments.now) arena.now result }
{
    if !arguments.is_empty() {
        return Err(Cause::WrongArguments);
    }
    match queue_of(arena, object) {
        Some(queue) => Ok(queue),
        None => Err(Cause::WrongType),
    }
}

/// `qsize` (PEP 734): asks how many items a queue has. `WrongArguments`, `WrongType`. Takes no memory.
pub fn size(arena: &Arena, object: Ref, arguments: &[Ref]) -> Result<Answered, Cause>
    requires { Lies arena.now object }
    ensures { (own : ℕ) (names : List pure.Text) → Answers (λ w. attributes.call_method attributes.Size (value_of arena.now object) (all_of arena.now arguments.now) names w) own arena.now arena.now (told_of result) }
{
    match asked(arena, object, arguments) {
        Ok(queue) => Ok(Answered::Asks(Awaited::Size, Action::Size(queue.0))),
        Err(cause) => Err(cause),
    }
}

/// `empty` (PEP 734): asks a queue for its size. `WrongArguments`, `WrongType`. Takes no memory.
pub fn is_empty(arena: &Arena, object: Ref, arguments: &[Ref]) -> Result<Answered, Cause>
    requires { Lies arena.now object }
    ensures { (own : ℕ) (names : List pure.Text) → Answers (λ w. attributes.call_method attributes.IsEmpty (value_of arena.now object) (all_of arena.now arguments.now) names w) own arena.now arena.now (told_of result) }
{
    match asked(arena, object, arguments) {
        Ok(queue) => Ok(Answered::Asks(Awaited::IsEmpty, Action::Size(queue.0))),
        Err(cause) => Err(cause),
    }
}

/// `full` (PEP 734): asks a queue for its size. `WrongArguments`, `WrongType`. Takes no memory.
pub fn is_full(arena: &Arena, object: Ref, arguments: &[Ref]) -> Result<Answered, Cause>
    requires { Lies arena.now object }
    ensures { (own : ℕ) (names : List pure.Text) → Answers (λ w. attributes.call_method attributes.IsFull (value_of arena.now object) (all_of arena.now arguments.now) names w) own arena.now arena.now (told_of result) }
{
    match asked(arena, object, arguments) {
        Ok(queue) => Ok(Answered::Asks(Awaited::IsFull(queue.1), Action::Size(queue.0))),
        Err(cause) => Err(cause),
    }
}

/// `get` (PEP 734): asks for the first item of a queue, once there is one. `WrongArguments`, `WrongType`. Takes no memory.
pub fn get(arena: &Arena, object: Ref, arguments: &[Ref]) -> Result<Answered, Cause>
    requires { Lies arena.now object }
    ensures { (own : ℕ) (names : List pure.Text) → Answers (λ w. attributes.call_method attributes.Get (value_of arena.now object) (all_of arena.now arguments.now) names w) own arena.now arena.now (told_of result) }
{
    match asked(arena, object, arguments) {
        Ok(queue) => Ok(Answered::Asks(Awaited::Get, Action::Get(queue.0))),
        Err(cause) => Err(cause),
    }
}

/// `get_nowait` (PEP 734): asks for the first item of a queue, if there is one. `WrongArguments`, `WrongType`. Takes no memory.
pub fn get_now(arena: &Arena, object: Ref, arguments: &[Ref]) -> Result<Answered, Cause>
    requires { Lies arena.now object }
    ensures { (own : ℕ) (names : List pure.Text) → Answers (λ w. attributes.call_method attributes.GetNow (value_of arena.now object) (all_of arena.now arguments.now) names w) own arena.now arena.now (told_of result) }
{
    match asked(arena, object, arguments) {
        Ok(queue) => Ok(Answered::Asks(Awaited::GetNow, Action::GetNow(queue.0))),
        Err(cause) => Err(cause),
    }
}

// The queue and the parcel of a call that puts an item.
fn item_put(
    alloc: Global,
    arena: &Arena,
    object: Ref,
    arguments: &[Ref],
    names: &[Text],
) -> Result<(u32, Parcel), Fault>
    requires object { Lies arena.now object }
    requires arguments { AllLie arena.now arguments.now }
    ensures puts { PutsItem (λ does w. attributes.one_argument (codes "obj") (all_of arena.now arguments.now) names.now does w) (value_of arena.now object) arena.now result }
    ensures memory { AreBare (all_of arena.now arguments.now) → IsTold result }
{
    match one_argument("obj", arguments, names) {
        Some(item) => put_into(alloc, arena, object, item),
        None => Err(Fault::Raises(Cause::WrongArguments)),
    }
}

// The queue that a value is, and the parcel of an item that is put into it.
fn put_into(alloc: Global, arena: &Arena, object: Ref, item: Ref) -> Result<(u32, Parcel), Fault>
    requires object { Lies arena.now object }
    requires item { Lies arena.now item }
    ensures puts { PutsItem (λ does w. does (value_of arena.now item)) (value_of arena.now object) arena.now result }
    ensures memory { IsBare (value_of arena.now item) → IsTold result }
{
    match queue_of(arena, object) {
        Some(queue) => match sent(alloc, arena, item) {
            Ok(parcel) => Ok((queue.0, parcel)),
            Err(fault) => Err(fault),
        },
        None => Err(Fault::Raises(Cause::WrongType)),
    }
}

/// `put` (PEP 734): asks to put an item into a queue, once there is room. `WrongArguments`, `WrongType`, and
/// `Refused(NotShareable)` where the item is not shareable or past the limits of parcels; `NoMemory` where memory is refused
/// for the parcel, as none is for that of what is no str, no bytes and no tuple.
pub fn put(
    alloc: Global,
    arena: &Arena,
    object: Ref,
    arguments: &[Ref],
    names: &[Text],
) -> Result<Answered, Fault>
    requires object { Lies arena.now object }
    requires arguments { AllLie arena.now arguments.now }
    ensures answers { (own : ℕ) → Answers (λ w. attributes.call_method attributes.Put (value_of arena.now object) (all_of arena.now arguments.now) names.now w) own arena.now arena.now result }
    ensures memory { AreBare (all_of arena.now arguments.now) → IsTold result }
{
    match item_put(alloc, arena, object, arguments, names) {
        Ok(put) => Ok(Answered::Asks(Awaited::Put, Action::Put(put.0, put.1))),
        Err(fault) => Err(fault),
    }
}

/// `put_nowait` (PEP 734): asks to put an item into a queue, if there is room. `WrongArguments`, `WrongType`, and
/// `Refused(NotShareable)` where the item is not shareable or past the limits of parcels; `NoMemory` where memory is refused
/// for the parcel, as none is for that of what is no str, no bytes and no tuple.
pub fn put_now(
    alloc: Global,
    arena: &Arena,
    object: Ref,
    arguments: &[Ref],
    names: &[Text],
) -> Result<Answered, Fault>
    requires object { Lies arena.now object }
    requires arguments { AllLie arena.now arguments.now }
    ensures answers { (own : ℕ) → Answers (λ w. attributes.call_method attributes.PutNow (value_of arena.now object) (all_of arena.now arguments.now) names.now w) own arena.now arena.now result }
    ensures memory { AreBare (all_of arena.now arguments.now) → IsTold result }
{
    match item_put(alloc, arena, object, arguments, names) {
        Ok(put) => Ok(Answered::Asks(Awaited::PutNow, Action::PutNow(put.0, put.1))),
        Err(fault) => Err(fault),
    }
}
