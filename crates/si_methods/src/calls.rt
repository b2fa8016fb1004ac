// Calls of methods.

ghost use Rattle.std.specs.Prelude.{◌≡◌};
ghost use Rattle.si_semantics.specs.Attributes as attributes;
ghost use Rattle.si_arena.specs.Memory.{value_of, all_of, Lies, AllLie};
ghost use Rattle.si_methods.specs.Methods.{method_in};
ghost use Rattle.si_methods.specs.Answering.{Answers, told_of};
ghost use Rattle.si_methods.specs.Needing.{TakesNone, IsTold};

use crate::containers::{append, get_value, pop_item, pop_value};
use crate::interpreters::{close, execute, is_running, prepare_main};
use crate::joining::join_texts;
use crate::method::Method;
use crate::modules::{create, create_queue, get_current, get_main, is_shareable, list_all};
use crate::queues::{get, get_now, is_empty, is_full, put, put_now, size};
use crate::request::Answered;
use crate::texts::{encode, ends_with, starts_with};
use crate::threads::{join, make_thread, start};
use si_arena::{Arena, Cause, Fault, Ref};
use si_plain::Text;
use std::alloc::Global;

/// A call of a method of an object by the interpreter of a number, with arguments of which the last ones have these names
/// (Python Standard Library 3.14, "Built-in Types": string methods, mutable sequence types and "dict", and "threading"; PEP
/// 734): a value, a key that is not there, or an action that is asked of what all share, and what is kept of it to understand
/// its answer (`reply`). `WrongArguments`, `WrongType`, `TooLong`, `Outside`, and `Refused` of `NotShareable`, `AlreadyStarted`
/// and `NotStarted` as the definition raises them; `NoMemory` where memory is refused: for an item of a list, a str, bytes, a
/// thread, a parcel, and a text or names that go to others. Where no value is given, the arena is as before.
pub fn call_method(
    alloc: Global,
    arena: &mut Arena,
    own: u32,
    method: Method,
    object: Ref,
    arguments: &[Ref],
    names: &[Text],
) -> Result<Answered, Fault>
    requires object { Lies arena.old object }
    requires arguments { AllLie arena.old arguments.now }
    ensures answers { Answers (λ w. attributes.call_method (method_in method) (value_of arena.old object) (all_of arena.old arguments.now) names.now w) own arena.old arena.new result }
    ensures memory { TakesNone (method_in method) (all_of arena.old arguments.now) → IsTold result }
{
    match method {
        Method::StartsWith => told(starts_with(arena, object, arguments, names)),
        Method::EndsWith => told(ends_with(arena, object, arguments, names)),
        Method::JoinTexts => join_texts(alloc, arena, object, arguments, names),
        Method::Encode => encode(alloc, arena, object, arguments),
        Method::Append => append(arena, object, arguments, names),
        Method::PopItem => told(pop_item(arena, object, arguments, names)),
        Method::GetValue => told(get_value(arena, object, arguments, names)),
        Method::PopValue => told(pop_value(arena, object, arguments, names)),
        Method::Create => told(create(arguments)),
        Method::ListAll => told(list_all(arguments)),
        Method::GetCurrent => told(get_current(own, arguments)),
        Method::GetMain => told(get_main(arguments)),
        Method::CreateQueue => told(create_queue(arena, arguments, names)),
        Method::IsShareable => told(is_shareable(arena, arguments, names)),
        Method::MakeThread => make_thread(arena, arguments, names),
        Method::Start => start(alloc, arena, object, arguments),
        Method::Join => told(join(arena, object, arguments)),
        Method::Execute => execute(alloc, arena, object, arguments, names),
        Method::IsRunning => told(is_running(arena, object, arguments)),
        Method::Close => told(close(arena, object, arguments)),
        Method::PrepareMain => prepare_main(alloc, arena, object, arguments, names),
        Method::IsEmpty => told(is_empty(arena, object, arguments)),
        Method::IsFull => told(is_full(arena, object, arguments)),
        Method::Size => told(size(arena, object, arguments)),
        Method::Put => put(alloc, arena, object, arguments, names),
        Method::PutNow => put_now(alloc, arena, object, arguments, names),
        Method::Get => told(get(arena, object, arguments)),
        Method::GetNow => told(get_now(arena, object, arguments)),
    }
}

// What a call gives for which no memory is taken.
fn told(answered: Result<Answered, Cause>) -> Result<Answered, Fault>
    ensures { result ≡ told_of answered }
{
    match answered {
        Ok(answered) => Ok(answered),
        Err(cause) => Err(Fault::Raises(cause)),
    }
}
