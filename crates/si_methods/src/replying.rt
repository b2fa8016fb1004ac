// What an answer makes of a request.

ghost use Rattle.std.specs.Prelude.{◌≡◌, ◌<◌, length, map, Ok, IfOk, OnErr};
ghost use Rattle.si_semantics.specs.Value as pure;
ghost use Rattle.si_semantics.specs.Actions as shared;
ghost use Rattle.si_semantics.specs.Replies.{is_full};
ghost use Rattle.si_parcel.specs.Shared.{answer_of, outcome_of};
ghost use Rattle.si_arena.specs.Memory.{Memory, IsMade};
ghost use Rattle.si_methods.specs.declared.request.Awaited.TheVariants as awaited;
ghost use Rattle.si_methods.specs.Kept.{AwaitedLies};
ghost use Rattle.si_methods.specs.Replying.{Replies, failed_of, received_of};

use crate::messages::{execution_failed, is_running, not_found};
use crate::request::Awaited;
use crate::values::{integer, integer_of};
use si_arena::{Arena, Cause, Object, Ref, Refusal};
use si_parcel::{Action, Answer, Outcome};
use si_plain::{Kind, NoMemory};
use si_share::copy_in;
use std::alloc::Global;

/// What an answer makes of a request.
#[derive(Drop)]
pub enum Replied {
    /// This value.
    Got(Ref),
    /// An exception, which is not among the objects yet.
    Failed(Object),
    /// A further action is asked, of which this is kept.
    Wants(Awaited, Action),
}

/// What an answer makes of the request of which this is kept (PEP 734, "Interpreter Objects" and "Queue Objects"). An answer
/// that does not fit is never given, and would make None. `AllocError` where memory is refused, for the item of a queue, for
/// the message of an exception and for a list of interpreters; then what lay in the arena lies there and denotes what it did,
/// and no object was changed or made.
pub fn reply(
    alloc: Global,
    arena: &mut Arena,
    awaited: Awaited,
    answer: &Answer,
) -> Result<Replied, NoMemory>
    requires { AwaitedLies arena.old awaited }
    ensures { Replies awaited (answer_of answer.now) arena.old arena.new result }
{
    match awaited {
        Awaited::Create => Ok(created(answer)),
        Awaited::CreateQueue(maxsize) => Ok(queue_made(maxsize, answer)),
        Awaited::Put => Ok(nothing()),
        Awaited::PutNow => Ok(put_now(answer)),
        Awaited::Get => item(arena, answer),
        Awaited::GetNow => item_now(arena, answer),
        Awaited::Size => Ok(counted(answer)),
        Awaited::IsEmpty => Ok(emptiness(answer)),
        Awaited::IsFull(maxsize) => Ok(fullness(maxsize, answer)),
        Awaited::Prepare(id) => prepared(alloc, arena, id, answer),
        Awaited::Exec(id) => run_started(alloc, arena, id, answer),
        Awaited::AwaitExec => run_ended(alloc, arena, answer),
        Awaited::StartThread {
            thread,
            interpreter,
        } => thread_started(alloc, arena, thread, interpreter, answer),
        Awaited::JoinThread => Ok(nothing()),
        Awaited::ListAll => listed(alloc, arena, answer),
        Awaited::IsRunning(id) => runs(alloc, arena, id, answer),
        Awaited::Close(id) => closed(alloc, arena, id, answer),
    }
}

// None.
fn nothing() -> Replied
    ensures { result ≡ Replied.Got Ref.None }
{
    Replied::Got(Ref::None)
}

// An exception of the rules of modules.
fn refused(refusal: Refusal) -> Replied
    ensures { result ≡ Replied.Failed (Object.Caused (Cause.Refused refusal)) }
{
    Replied::Failed(Object::Caused(Cause::Refused(refusal)))
}

// An exception, unless memory was refused for it.
fn failed(object: Result<Object, NoMemory>) -> Result<Replied, NoMemory>
    ensures { result ≡ failed_of object }
{
    match object {
        Ok(object) => Ok(Replied::Failed(object)),
        Err(refused) => Err(refused),
    }
}

// A value, unless memory was refused for it.
fn received(value: Result<Ref, NoMemory>) -> Result<Replied, NoMemory>
    ensures { result ≡ received_of value }
{
    match value {
        Ok(value) => Ok(Replied::Got(value)),
        Err(refused) => Err(refused),
    }
}

// Of `create`.
fn created(answer: &Answer) -> Replied
    ensures { (m : Memory) → Replies awaited.Create (answer_of answer.now) m m (Ok result) }
{
    match answer {
        Answer::Created(id) => Replied::Got(Ref::Interpreter(*id)),
        Answer::Limit => refused(Refusal::TooManyInterpreters),
        _ => nothing(),
    }
}

// Of `create_queue`.
fn queue_made(maxsize: u64, answer: &Answer) -> Replied
    ensures { (m : Memory) → Replies (awaited.CreateQueue maxsize) (answer_of answer.now) m m (Ok result) }
{
    match answer {
        Answer::QueueMade(id) => Replied::Got(Ref::Queue { id: *id, maxsize }),
        Answer::Limit => refused(Refusal::TooManyQueues),
        _ => nothing(),
    }
}

// Of `put_nowait`.
fn put_now(answer: &Answer) -> Replied
    ensures { (m : Memory) → Replies awaited.PutNow (answer_of answer.now) m m (Ok result) }
{
    match answer {
        Answer::Full => refused(Refusal::QueueIsFull),
        _ => nothing(),
    }
}

// Of `get`.
fn item(arena: &mut Arena, answer: &Answer) -> Result<Replied, NoMemory>
    ensures { Replies awaited.Get (answer_of answer.now) arena.old arena.new result }
{
    match answer {
        Answer::Item(parcel) => received(copy_in(arena, parcel)),
        _ => Ok(nothing()),
    }
}

// Of `get_nowait`.
fn item_now(arena: &mut Arena, answer: &Answer) -> Result<Replied, NoMemory>
    ensures { Replies awaited.GetNow (answer_of answer.now) arena.old arena.new result }
{
    match answer {
        Answer::Item(parcel) => received(copy_in(arena, parcel)),
        Answer::Empty => Ok(refused(Refusal::QueueIsEmpty)),
        _ => Ok(nothing()),
    }
}

// Of `qsize`.
fn counted(answer: &Answer) -> Replied
    ensures { (m : Memory) → Replies awaited.Size (answer_of answer.now) m m (Ok result) }
{
    match answer {
        Answer::Count(count) => match integer_of(*count) {
            Ok(n) => Replied::Got(integer(n)),
            Err(_) => Replied::Failed(Object::Caused(Cause::Arithmetic(Kind::OverflowError))),
        },
        _ => nothing(),
    }
}

// Of `empty`.
fn emptiness(answer: &Answer) -> Replied
    ensures { (m : Memory) → Replies awaited.IsEmpty (answer_of answer.now) m m (Ok result) }
{
    match answer {
        Answer::Count(count) => Replied::Got(Ref::Truth([], *count == 0)),
        _ => nothing(),
    }
}

// Of `full`.
fn fullness(maxsize: u64, answer: &Answer) -> Replied
    ensures { (m : Memory) → Replies (awaited.IsFull maxsize) (answer_of answer.now) m m (Ok result) }
{
    match answer {
        Answer::Count(count) => Replied::Got(Ref::Truth([], is_at_bound(maxsize, *count))),
        _ => nothing(),
    }
}

// Whether a queue of so many items has as many as it may have, 0 for no bound.
fn is_at_bound(maxsize: u64, count: u64) -> bool
    ensures { result ≡ is_full maxsize count }
{
    maxsize != 0 && maxsize <= count
}

// Of `prepare_main`.
fn prepared(alloc: Global, arena: &mut Arena, id: u32, answer: &Answer) -> Result<Replied, NoMemory>
    ensures { Replies (awaited.Prepare id) (answer_of answer.now) arena.old arena.new result }
{
    match answer {
        Answer::NotFound => failed(not_found(alloc, arena, id)),
        Answer::Running => failed(is_running(alloc, arena, id)),
        _ => Ok(nothing()),
    }
}

// Of `exec`, as its run is started: its end is wanted then.
fn run_started(
    alloc: Global,
    arena: &mut Arena,
    id: u32,
    answer: &Answer,
) -> Result<Replied, NoMemory>
    ensures { Replies (awaited.Exec id) (answer_of answer.now) arena.old arena.new result }
{
    match answer {
        Answer::Started(run) => Ok(Replied::Wants(Awaited::AwaitExec, Action::Await(*run))),
        Answer::NotFound => failed(not_found(alloc, arena, id)),
        Answer::Running => failed(is_running(alloc, arena, id)),
        _ => Ok(nothing()),
    }
}

// Of `exec`, as its run has ended.
fn run_ended(alloc: Global, arena: &mut Arena, answer: &Answer) -> Result<Replied, NoMemory>
    ensures { Replies awaited.AwaitExec (answer_of answer.now) arena.old arena.new result }
{
    match answer {
        Answer::Ended(outcome) => executed(alloc, arena, outcome),
        _ => Ok(nothing()),
    }
}

// Of `exec`, as its run has ended so.
fn executed(alloc: Global, arena: &mut Arena, outcome: &Outcome) -> Result<Replied, NoMemory>
    ensures { Replies awaited.AwaitExec (shared.Ended (outcome_of outcome.now)) arena.old arena.new result }
{
    match outcome {
        Outcome::Returned => Ok(nothing()),
        Outcome::Raised(kind, message) => {
            failed(execution_failed(alloc, arena, *kind, message.as_text()))
        }
    }
}

// Of `start` of a thread: it is started by its run.
fn thread_started(
    alloc: Global,
    arena: &mut Arena,
    thread: usize,
    id: u32,
    answer: &Answer,
) -> Result<Replied, NoMemory>
    requires { thread < length arena.old.store }
    ensures { Replies (awaited.StartThread thread id) (answer_of answer.now) arena.old arena.new result }
{
    match answer {
        Answer::Started(run) => {
            arena.start(thread, *run);
            Ok(nothing())
        }
        Answer::NotFound => failed(not_found(alloc, arena, id)),
        Answer::Running => failed(is_running(alloc, arena, id)),
        _ => Ok(nothing()),
    }
}

// Of `list_all`: a new list of interpreters.
fn listed(alloc: Global, arena: &mut Arena, answer: &Answer) -> Result<Replied, NoMemory>
    ensures { Replies awaited.ListAll (answer_of answer.now) arena.old arena.new result }
{
    match answer {
        Answer::Ids(ids) => received(list_of(alloc, arena, ids.as_slice())),
        _ => Ok(nothing()),
    }
}

// A new list of the interpreters of these numbers.
fn list_of(alloc: Global, arena: &mut Arena, ids: &[u32]) -> Result<Ref, NoMemory>
    ensures ok { IfOk result (λ r. IsMade (pure.Items (map pure.Interpreter ids.now)) arena.old arena.new r) }
    ensures err { OnErr result (arena.new ≡ arena.old) }
{
    let interpreters = interpreters_of(alloc, ids)?;
    arena.make_list(interpreters)
}

// The interpreters of these numbers.
fn interpreters_of(alloc: Global, ids: &[u32]) -> Result<Vec<Ref>, NoMemory>
    ensures { IfOk result (λ interpreters. interpreters.items ≡ map Ref.Interpreter ids.now) }
{
    let mut interpreters = Vec::with_capacity(alloc, ids.len())?;
    for id in ids {
        interpreters.push(Ref::Interpreter(*id))?;
    }
    Ok(interpreters)
}

// Of `is_running`.
fn runs(alloc: Global, arena: &mut Arena, id: u32, answer: &Answer) -> Result<Replied, NoMemory>
    ensures { Replies (awaited.IsRunning id) (answer_of answer.now) arena.old arena.new result }
{
    match answer {
        Answer::Truth(truth) => Ok(Replied::Got(Ref::Truth([], *truth))),
        Answer::NotFound => failed(not_found(alloc, arena, id)),
        _ => Ok(nothing()),
    }
}

// Of `close`.
fn closed(alloc: Global, arena: &mut Arena, id: u32, answer: &Answer) -> Result<Replied, NoMemory>
    ensures { Replies (awaited.Close id) (answer_of answer.now) arena.old arena.new result }
{
    match answer {
        Answer::NotFound => failed(not_found(alloc, arena, id)),
        Answer::Current => Ok(refused(Refusal::Current)),
        Answer::Main => Ok(refused(Refusal::Main)),
        Answer::Running => failed(is_running(alloc, arena, id)),
        _ => Ok(nothing()),
    }
}
