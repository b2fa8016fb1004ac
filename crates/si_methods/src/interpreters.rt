// The methods of interpreters.

ghost use Rattle.std.specs.Prelude.{◌≡◌, ◌≤◌, ◌<◌, ◌∷◌, ◌++◌, [], ℕ, List, length, Ok, IfOk};
ghost use Rattle.si_semantics.specs.Value as pure;
ghost use Rattle.si_semantics.specs.Attributes as attributes;
ghost use Rattle.si_arena.specs.Memory.{value_of, all_of, Lies, AllLie};
ghost use Rattle.si_methods.specs.Passing.{AsksInterpreter, IsNamespace, NamespaceLies, pairs_in, granted_of, AreSent};
ghost use Rattle.si_methods.specs.Answering.{Answers, told_of};

use crate::arguments::only_argument;
use crate::request::{Answered, Awaited};
use crate::sent::{all_sent, boxed, namespace_sent};
use crate::shown::{address_of, characters_of, interpreter_of, is_none};
use si_arena::{Arena, Cause, Contents, Dict, Fault, Ref};
use si_parcel::{Action, Binds, Parcel};
use si_plain::{NoMemory, Text};
use std::alloc::{AllocError, Global};

// The interpreter that is asked by a call without an argument.
fn asked(arena: &Arena, object: Ref, arguments: &[Ref]) -> Result<u32, Cause>
    requires { Lies arena.now object }
    ensures { AsksInterpreter (value_of arena.now object) (all_of arena.now arguments.now) arena.now result }
{
    if !arguments.is_empty() {
        return Err(Cause::WrongArguments);
    }
    match interpreter_of(arena, object) {
        Some(id) => Ok(id),
        None => Err(Cause::WrongType),
    }
}

/// `is_running` (PEP 734): asks whether an interpreter runs. `WrongArguments`, `WrongType`. Takes no memory.
pub fn is_running(arena: &Arena, object: Ref, arguments: &[Ref]) -> Result<Answered, Cause>
    requires { Lies arena.now object }
    ensures { (own : ℕ) (names : List pure.Text) → Answers (λ w. attributes.call_method attributes.IsRunning (value_of arena.now object) (all_of arena.now arguments.now) names w) own arena.now arena.now (told_of result) }
{
    match asked(arena, object, arguments) {
        Ok(id) => Ok(Answered::Asks(Awaited::IsRunning(id), Action::IsRunning(id))),
        Err(cause) => Err(cause),
    }
}

/// `close` (PEP 734): asks to close an interpreter. `WrongArguments`, `WrongType`. Takes no memory.
pub fn close(arena: &Arena, object: Ref, arguments: &[Ref]) -> Result<Answered, Cause>
    requires { Lies arena.now object }
    ensures { (own : ℕ) (names : List pure.Text) → Answers (λ w. attributes.call_method attributes.Close (value_of arena.now object) (all_of arena.now arguments.now) names w) own arena.now arena.now (told_of result) }
{
    match asked(arena, object, arguments) {
        Ok(id) => Ok(Answered::Asks(Awaited::Close(id), Action::Close(id))),
        Err(cause) => Err(cause),
    }
}

/// `exec` (PEP 734): asks for a run of a text in an interpreter. `WrongArguments`, `WrongType`; `NoMemory` where memory is
/// refused for the text.
pub fn execute(
    alloc: Global,
    arena: &Arena,
    object: Ref,
    arguments: &[Ref],
    names: &[Text],
) -> Result<Answered, Fault>
    requires object { Lies arena.now object }
    requires arguments { AllLie arena.now arguments.now }
    ensures { (own : ℕ) → Answers (λ w. attributes.call_method attributes.Execute (value_of arena.now object) (all_of arena.now arguments.now) names.now w) own arena.now arena.now result }
{
    match only_argument(arguments, names) {
        Some(text) => run_in(alloc, arena, object, text),
        None => Err(Fault::Raises(Cause::WrongArguments)),
    }
}

// To ask for a run of a text in an interpreter.
fn run_in(alloc: Global, arena: &Arena, object: Ref, text: Ref) -> Result<Answered, Fault>
    requires object { Lies arena.now object }
    requires text { Lies arena.now text }
    ensures { (own : ℕ) → Answers (λ w. attributes.executes_in (value_of arena.now object) (value_of arena.now text) w) own arena.now arena.now result }
{
    match interpreter_of(arena, object) {
        Some(id) => run_text(alloc, arena, id, text),
        None => Err(Fault::Raises(Cause::WrongType)),
    }
}

// To ask for a run of a text in the interpreter of a number.
fn run_text(alloc: Global, arena: &Arena, id: u32, text: Ref) -> Result<Answered, Fault>
    requires { Lies arena.now text }
    ensures { (own : ℕ) → Answers (λ w. attributes.executes id (value_of arena.now text) w) own arena.now arena.now result }
{
    match characters_of(arena, &text) {
        Some(characters) => match boxed(alloc, characters) {
            Ok(text) => Ok(Answered::Asks(Awaited::Exec(id), Action::Start(id, text))),
            Err(_) => Err(Fault::NoMemory),
        },
        None => Err(Fault::Raises(Cause::WrongType)),
    }
}

/// `prepare_main` (PEP 734): asks to bind names in an interpreter: the keys of a dict that is passed without a name, and then
/// those by which arguments are passed. `WrongArguments`; `WrongType` where what is passed without a name is neither a dict nor
/// None, or a key is no str; `Refused(NotShareable)` where a value is not shareable or past the limits of parcels: what comes
/// first pair by pair, and the key before its value. `NoMemory` where memory is refused for names and parcels.
pub fn prepare_main(
    alloc: Global,
    arena: &Arena,
    object: Ref,
    arguments: &[Ref],
    names: &[Text],
) -> Result<Answered, Fault>
    requires object { Lies arena.now object }
    requires arguments { AllLie arena.now arguments.now }
    ensures { (own : ℕ) → Answers (λ w. attributes.call_method attributes.PrepareMain (value_of arena.now object) (all_of arena.now arguments.now) names.now w) own arena.now arena.now result }
{
    match interpreter_of(arena, object) {
        Some(id) => prepare(alloc, arena, id, arguments, names),
        None => Err(Fault::Raises(Cause::WrongType)),
    }
}

// To ask to bind names in the interpreter of a number.
fn prepare(
    alloc: Global,
    arena: &Arena,
    id: u32,
    arguments: &[Ref],
    names: &[Text],
) -> Result<Answered, Fault>
    requires { AllLie arena.now arguments.now }
    ensures { (own : ℕ) → Answers (λ w. attributes.prepares_in (pure.Interpreter id) (all_of arena.now arguments.now) names.now w) own arena.now arena.now result }
{
    let split = arguments.len().saturating_sub(names.len());
    let (positional, named) = arguments.split_at(split);
    prepare_parts(alloc, arena, id, positional, names, named)
}

// The same, with what is passed without a name and what with one.
fn prepare_parts(
    alloc: Global,
    arena: &Arena,
    id: u32,
    positional: &[Ref],
    names: &[Text],
    values: &[Ref],
) -> Result<Answered, Fault>
    requires first { AllLie arena.now positional.now }
    requires lie { AllLie arena.now values.now }
    requires named { length values.now ≤ length names.now }
    ensures { (own : ℕ) → Answers (λ w. attributes.prepare id (all_of arena.now positional.now) (attributes.paired names.now (all_of arena.now values.now)) w) own arena.now arena.now result }
{
    match namespace_of(arena, positional) {
        Ok(namespace) => bind(alloc, arena, id, namespace, names, values),
        Err(cause) => Err(Fault::Raises(cause)),
    }
}

// To ask to bind the keys of a dict, where there is one, and then these names in the interpreter of a number, to copies of
// their values.
fn bind(
    alloc: Global,
    arena: &Arena,
    id: u32,
    namespace: Option<&Dict>,
    names: &[Text],
    values: &[Ref],
) -> Result<Answered, Fault>
    requires first { NamespaceLies arena.now namespace }
    requires lie { AllLie arena.now values.now }
    requires named { length values.now ≤ length names.now }
    ensures { (own : ℕ) → Answers (λ w. attributes.prepares id (attributes.parcels_by_name (pairs_in arena.now namespace.entry ++ attributes.as_pairs (attributes.paired names.now (all_of arena.now values.now)))) w) own arena.now arena.now result }
{
    match bound(alloc, arena, namespace, names, values) {
        Ok(binds) => Ok(Answered::Asks(Awaited::Prepare(id), Action::Prepare(id, binds))),
        Err(unsent) => Err(unsent),
    }
}

// The names of a dict, where there is one, and then these, with the parcels of their values.
fn bound(
    alloc: Global,
    arena: &Arena,
    namespace: Option<&Dict>,
    names: &[Text],
    values: &[Ref],
) -> Result<Binds, Fault>
    requires first { NamespaceLies arena.now namespace }
    requires lie { AllLie arena.now values.now }
    requires named { length values.now ≤ length names.now }
    ensures { AreSent (pairs_in arena.now namespace.entry ++ attributes.as_pairs (attributes.paired names.now (all_of arena.now values.now))) result }
{
    match namespace_sent(alloc, arena, namespace) {
        Ok(pairs) => bound_after(alloc, arena, pairs, names, values),
        Err(fault) => Err(fault),
    }
}

// Some names with their parcels, and then these, with the parcels of their values.
fn bound_after(
    alloc: Global,
    arena: &Arena,
    pairs: Vec<(Text, Parcel)>,
    names: &[Text],
    values: &[Ref],
) -> Result<Binds, Fault>
    requires lie { AllLie arena.now values.now }
    requires named { length values.now ≤ length names.now }
    ensures { (before : List (pure.Key × pure.Value)) → attributes.parcels_by_name before ≡ Ok pairs.items → AreSent (before ++ attributes.as_pairs (attributes.paired names.now (all_of arena.now values.now))) result }
{
    match all_sent(alloc, arena, names, values) {
        Ok(named) => granted(together(alloc, pairs, named)),
        Err(fault) => Err(fault),
    }
}

// Names with parcels, unless memory was refused for them.
fn granted(binds: Result<Binds, NoMemory>) -> Result<Binds, Fault>
    ensures { result ≡ granted_of binds }
{
    match binds {
        Ok(binds) => Ok(binds),
        Err(_) => Err(Fault::NoMemory),
    }
}

// Names with their parcels, and then others.
fn together(
    alloc: Global,
    pairs: Vec<(Text, Parcel)>,
    named: Vec<(Text, Parcel)>,
) -> Result<Binds, NoMemory>
    ensures { IfOk result (λ binds. binds ≡ pairs.items ++ named.items) }
{
    let mut pairs = pairs;
    let mut named = named;
    pairs.append(&mut named)?;
    match Binds::new(alloc, pairs) {
        Ok(binds) => Ok(binds),
        Err(_) => Err(AllocError),
    }
}

// The dict that stands before the names; None, or nothing, stands for one without keys.
fn namespace_of<'a>(arena: &'a Arena, positional: &[Ref]) -> Result<Option<&'a Dict>, Cause>
    requires { AllLie arena.now positional.now }
    ensures { IsNamespace (all_of arena.now positional.now) arena.now result }
{
    match positional {
        [] => Ok(None),
        [namespace] => dict_in(arena, *namespace),
        _ => Err(Cause::WrongArguments),
    }
}

// The dict that a value is; None stands for one without keys.
fn dict_in(arena: &Arena, namespace: Ref) -> Result<Option<&Dict>, Cause>
    requires { Lies arena.now namespace }
    ensures { IsNamespace (value_of arena.now namespace ∷ []) arena.now result }
{
    if is_none(arena, namespace) {
        return Ok(None);
    }
    match address_of(arena, namespace) {
        Some(address) => dict_at(arena, address),
        None => Err(Cause::WrongType),
    }
}

// The dict at an address.
fn dict_at(arena: &Arena, address: usize) -> Result<Option<&Dict>, Cause>
    requires { address < length arena.now.store }
    ensures { IsNamespace (pure.Address address ∷ []) arena.now result }
{
    match arena.object(address) {
        Contents::Plain(_) => Err(Cause::WrongType),
        Contents::List(_) => Err(Cause::WrongType),
        Contents::Dict(dict) => Ok(Some(dict)),
    }
}
