// The functions of the module of interpreters.

ghost use Rattle.std.specs.Prelude.{◌≡◌, ℕ, List, Some, Ok};
ghost use Rattle.si_semantics.specs.Value as pure;
ghost use Rattle.si_semantics.specs.World as world;
ghost use Rattle.si_semantics.specs.World.{World, Asked};
ghost use Rattle.si_semantics.specs.Operations as operations;
ghost use Rattle.si_semantics.specs.Attributes as attributes;
ghost use Rattle.si_arena.specs.Memory.{Memory, value_of, all_of, Lies, AllLie};
ghost use Rattle.si_methods.specs.Answering.{Answers, told_of};

use crate::arguments::one_argument;
use crate::request::{Answered, Awaited};
use si_arena::{Arena, Cause, Ref};
use si_ops::integer_in;
use si_parcel::Action;
use si_plain::Text;

/// `create` (PEP 734): asks for a new interpreter. `WrongArguments`. Takes no memory.
pub fn create(arguments: &[Ref]) -> Result<Answered, Cause>
    ensures { (m : Memory) (own : ℕ) (v : pure.Value) (names : List pure.Text) → Answers (λ w. attributes.call_method attributes.Create v (all_of m arguments.now) names w) own m m (told_of result) }
{
    if !arguments.is_empty() {
        return Err(Cause::WrongArguments);
    }
    Ok(Answered::Asks(Awaited::Create, Action::Create))
}

/// `list_all` (PEP 734): asks for the interpreters that are not closed. `WrongArguments`. Takes no memory.
pub fn list_all(arguments: &[Ref]) -> Result<Answered, Cause>
    ensures { (m : Memory) (own : ℕ) (v : pure.Value) (names : List pure.Text) → Answers (λ w. attributes.call_method attributes.ListAll v (all_of m arguments.now) names w) own m m (told_of result) }
{
    if !arguments.is_empty() {
        return Err(Cause::WrongArguments);
    }
    Ok(Answered::Asks(Awaited::ListAll, Action::ListAll))
}

/// `get_current` (PEP 734): the interpreter of this number. `WrongArguments`. Takes no memory.
pub fn get_current(own: u32, arguments: &[Ref]) -> Result<Answered, Cause>
    ensures { (m : Memory) (v : pure.Value) (names : List pure.Text) → Answers (λ w. attributes.call_method attributes.GetCurrent v (all_of m arguments.now) names w) own m m (told_of result) }
{
    if !arguments.is_empty() {
        return Err(Cause::WrongArguments);
    }
    Ok(Answered::Value(Ref::Interpreter(own)))
}

/// `get_main` (PEP 734): the main interpreter. `WrongArguments`. Takes no memory.
pub fn get_main(arguments: &[Ref]) -> Result<Answered, Cause>
    ensures { (m : Memory) (own : ℕ) (v : pure.Value) (names : List pure.Text) → Answers (λ w. attributes.call_method attributes.GetMain v (all_of m arguments.now) names w) own m m (told_of result) }
{
    if !arguments.is_empty() {
        return Err(Cause::WrongArguments);
    }
    Ok(Answered::Value(Ref::Interpreter(0)))
}

/// `create_queue` (PEP 734): asks for a new queue of at most so many items, 0 and below for no bound. `WrongArguments`,
/// `WrongType`. Takes no memory.
pub fn create_queue(arena: &Arena, arguments: &[Ref], names: &[Text]) -> Result<Answered, Cause>
    requires { AllLie arena.now arguments.now }
    ensures { (own : ℕ) (v : pure.Value) → Answers (λ w. attributes.call_method attributes.CreateQueue v (all_of arena.now arguments.now) names.now w) own arena.now arena.now (told_of result) }
{
    if arguments.is_empty() {
        return Ok(queue_of(0));
    }
    match one_argument("maxsize", arguments, names) {
        Some(maxsize) => queue_within(arena, maxsize),
        None => Err(Cause::WrongArguments),
    }
}

// To ask for a queue of at most as many items as a value says.
fn queue_within(arena: &Arena, maxsize: Ref) -> Result<Answered, Cause>
    requires { Lies arena.now maxsize }
    ensures { (own : ℕ) → Answers (λ w. attributes.queue_of (operations.integer_in (value_of arena.now maxsize)) w) own arena.now arena.now (told_of result) }
{
    match integer_in(arena, maxsize) {
        Ok(n) => Ok(queue_of(n)),
        Err(cause) => Err(cause),
    }
}

// To ask for a queue of at most so many items, 0 and below for no bound.
fn queue_of(n: i64) -> Answered
    ensures { (m : Memory) (own : ℕ) → Answers (λ w. attributes.queue_of (Some n) w) own m m (Ok result) }
{
    let most = most_items(n);
    Answered::Asks(Awaited::CreateQueue(most), Action::CreateQueue(most))
}

// The most items of a queue, 0 for no bound.
fn most_items(n: i64) -> u64
    ensures { (w : World) → attributes.queue_of (Some n) w ≡ Asked (world.CreateQueue result) w }
{
    if n < 0 { 0 } else { n.unsigned_abs() }
}

/// `is_shareable` (PEP 734): whether a value may be sent to another interpreter. `WrongArguments`. Takes no memory.
pub fn is_shareable(arena: &Arena, arguments: &[Ref], names: &[Text]) -> Result<Answered, Cause>
    requires { AllLie arena.now arguments.now }
    ensures { (own : ℕ) (v : pure.Value) → Answers (λ w. attributes.call_method attributes.IsShareable v (all_of arena.now arguments.now) names.now w) own arena.now arena.now (told_of result) }
{
    match one_argument("obj", arguments, names) {
        Some(value) => Ok(Answered::Value(Ref::Truth([], si_share::is_shareable(arena, value)))),
        None => Err(Cause::WrongArguments),
    }
}
