// The methods of lists and dicts.

ghost use Rattle.std.specs.Prelude.{◌≡◌, ℕ, ◌<◌, length};
ghost use Rattle.si_semantics.specs.Value as pure;
ghost use Rattle.si_semantics.specs.Attributes as attributes;
ghost use Rattle.si_arena.specs.Memory.{value_of, all_of, Lies, AllLie};
ghost use Rattle.si_methods.specs.Passing.{PassesIndex, PassesKey};
ghost use Rattle.si_methods.specs.Answering.{Answers, told_of, lacking_of};

use crate::arguments::only_argument;
use crate::request::Answered;
use crate::shown::address_of;
use si_arena::{Arena, Cause, Fault, Ref};
use si_ops::Lack;
use si_plain::Text;

/// `append` of a list (Python Standard Library 3.14, "Built-in Types": mutable sequence types): a value at its end.
/// `WrongArguments`, `WrongType`, and `TooLong` where the list has as many items as it may have; `NoMemory` where memory is
/// refused for one more. Where it is refused, the list is as before.
pub fn append(
    arena: &mut Arena,
    object: Ref,
    arguments: &[Ref],
    names: &[Text],
) -> Result<Answered, Fault>
    requires object { Lies arena.old object }
    requires arguments { AllLie arena.old arguments.now }
    ensures { (own : ℕ) → Answers (λ w. attributes.call_method attributes.Append (value_of arena.old object) (all_of arena.old arguments.now) names.now w) own arena.old arena.new result }
{
    match only_argument(arguments, names) {
        Some(value) => append_to(arena, object, value),
        None => Err(Fault::Raises(Cause::WrongArguments)),
    }
}

// A value at the end of a list.
fn append_to(arena: &mut Arena, object: Ref, value: Ref) -> Result<Answered, Fault>
    requires object { Lies arena.old object }
    requires value { Lies arena.old value }
    ensures { (own : ℕ) → Answers (λ w. attributes.appends (value_of arena.old object) (value_of arena.old value) w) own arena.old arena.new result }
{
    match address_of(arena, object) {
        Some(address) => match si_ops::append(arena, address, value) {
            Ok(()) => Ok(Answered::Value(Ref::None)),
            Err(fault) => Err(fault),
        },
        None => Err(Fault::Raises(Cause::WrongType)),
    }
}

/// `pop` of a list (Python Standard Library 3.14, "Built-in Types": mutable sequence types): the item at an index, which is
/// taken away; that of the last one, where no index is passed. `WrongArguments`, `WrongType`, and `Outside` where no item has
/// the index; then the list is as before. Takes no memory.
pub fn pop_item(
    arena: &mut Arena,
    object: Ref,
    arguments: &[Ref],
    names: &[Text],
) -> Result<Answered, Cause>
    requires object { Lies arena.old object }
    requires arguments { AllLie arena.old arguments.now }
    ensures { (own : ℕ) → Answers (λ w. attributes.call_method attributes.PopItem (value_of arena.old object) (all_of arena.old arguments.now) names.now w) own arena.old arena.new (told_of result) }
{
    match address_of(arena, object) {
        Some(address) => pop_at(arena, address, arguments, names),
        None => Err(Cause::WrongType),
    }
}

// The same of the list at an address.
fn pop_at(
    arena: &mut Arena,
    address: usize,
    arguments: &[Ref],
    names: &[Text],
) -> Result<Answered, Cause>
    requires address { address < length arena.old.store }
    requires arguments { AllLie arena.old arguments.now }
    ensures { (own : ℕ) → Answers (λ w. attributes.pops (pure.Address address) (all_of arena.old arguments.now) names.now w) own arena.old arena.new (told_of result) }
{
    match passed_index(arguments, names) {
        Some(index) => match si_ops::pop_item(arena, address, index) {
            Ok(item) => Ok(Answered::Value(item)),
            Err(cause) => Err(cause),
        },
        None => Err(Cause::WrongArguments),
    }
}

// The index that is passed, or that of the last item.
fn passed_index(arguments: &[Ref], names: &[Text]) -> Option<Ref>
    ensures { PassesIndex arguments.now names.now result }
{
    if !names.is_empty() {
        return None;
    }
    match arguments {
        [] => Some(Ref::Int(-1)),
        [index] => Some(*index),
        _ => None,
    }
}

/// `get` of a dict (Python Standard Library 3.14, "Built-in Types": "dict"): the value of a key, or where it is not there the
/// value that is passed after it, or None. `WrongArguments`, `WrongType`. Takes no memory.
pub fn get_value(
    arena: &Arena,
    object: Ref,
    arguments: &[Ref],
    names: &[Text],
) -> Result<Answered, Cause>
    requires object { Lies arena.now object }
    requires arguments { AllLie arena.now arguments.now }
    ensures { (own : ℕ) → Answers (λ w. attributes.call_method attributes.GetValue (value_of arena.now object) (all_of arena.now arguments.now) names.now w) own arena.now arena.now (told_of result) }
{
    match address_of(arena, object) {
        Some(address) => get_at(arena, address, arguments, names),
        None => Err(Cause::WrongType),
    }
}

// The same of the dict at an address.
fn get_at(
    arena: &Arena,
    address: usize,
    arguments: &[Ref],
    names: &[Text],
) -> Result<Answered, Cause>
    requires address { address < length arena.now.store }
    requires arguments { AllLie arena.now arguments.now }
    ensures { (own : ℕ) → Answers (λ w. attributes.gets_value (pure.Address address) (all_of arena.now arguments.now) names.now w) own arena.now arena.now (told_of result) }
{
    match passed_key(arguments, names) {
        Some(pair) => match si_ops::get_value(arena, address, pair.0, pair.1) {
            Ok(value) => Ok(Answered::Value(value)),
            Err(cause) => Err(cause),
        },
        None => Err(Cause::WrongArguments),
    }
}

// The key that is passed, and the value that stands for its own where it is not there.
fn passed_key(arguments: &[Ref], names: &[Text]) -> Option<(Ref, Ref)>
    ensures { PassesKey arguments.now names.now result }
{
    if !names.is_empty() {
        return None;
    }
    match arguments {
        [key] => Some((*key, Ref::None)),
        [key, other] => Some((*key, *other)),
        _ => None,
    }
}

/// `pop` of a dict (Python Standard Library 3.14, "Built-in Types": "dict"): the value of a key, which is taken away.
/// `WrongArguments`, `WrongType`; then the dict is as before, as where the key is not there. Takes no memory.
pub fn pop_value(
    arena: &mut Arena,
    object: Ref,
    arguments: &[Ref],
    names: &[Text],
) -> Result<Answered, Cause>
    requires object { Lies arena.old object }
    requires arguments { AllLie arena.old arguments.now }
    ensures { (own : ℕ) → Answers (λ w. attributes.call_method attributes.PopValue (value_of arena.old object) (all_of arena.old arguments.now) names.now w) own arena.old arena.new (told_of result) }
{
    match only_argument(arguments, names) {
        Some(key) => pop_key(arena, object, key),
        None => Err(Cause::WrongArguments),
    }
}

// The value of a key of a dict, which is taken away.
fn pop_key(arena: &mut Arena, object: Ref, key: Ref) -> Result<Answered, Cause>
    requires object { Lies arena.old object }
    requires key { Lies arena.old key }
    ensures { (own : ℕ) → Answers (λ w. attributes.pops_value (value_of arena.old object) (value_of arena.old key) w) own arena.old arena.new (told_of result) }
{
    match address_of(arena, object) {
        Some(address) => match si_ops::pop_value(arena, address, key) {
            Ok(value) => Ok(Answered::Value(value)),
            Err(lack) => lacking(key, lack),
        },
        None => Err(Cause::WrongType),
    }
}

// Why the value of a key is not given.
fn lacking(key: Ref, lack: Lack) -> Result<Answered, Cause>
    ensures { result ≡ lacking_of key lack }
{
    match lack {
        Lack::Raises(cause) => Err(cause),
        Lack::NoKey => Ok(Answered::NoKey(key)),
    }
}
