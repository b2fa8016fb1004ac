// The attributes of values that are no methods.

ghost use Rattle.std.specs.Prelude.{◌≡◌, pos, Ok, SomeIff, FitsSigned};
ghost use Rattle.std.specs.Int.{w64};
ghost use Rattle.si_plain.specs.Integers.{in_range};
ghost use Rattle.si_plain.specs.declared.modules.ModuleName.TheVariants as module_name;
ghost use Rattle.si_semantics.specs.Value as pure;
ghost use Rattle.si_semantics.specs.Operations as operations;
ghost use Rattle.si_arena.specs.Memory.{Memory, value_of, Lies};
ghost use Rattle.si_methods.specs.Methods.{HasAttribute};

use crate::characters::is_spelled;
use si_arena::{Arena, Cause, Ref, View};
use si_plain::{Kind, ModuleName, Text};

/// The value of an attribute (Python Language Reference 3.14, 6.3.1): of the module of interpreters its kinds of exception, of
/// a queue its number and the most items that it may have, of an interpreter its number and its `exec` (PEP 734). None where
/// the value has no such attribute. `Arithmetic(OverflowError)` where it is an integer past 64 bits. Takes no memory.
pub fn attribute(arena: &Arena, value: Ref, name: &Text) -> Result<Option<Ref>, Cause>
    requires { Lies arena.now value }
    ensures { HasAttribute (value_of arena.now value) name.now arena.now result }
{
    match arena.view(&value) {
        View::None => Ok(None),
        View::Truth(_) => Ok(None),
        View::Int(_) => Ok(None),
        View::Str(_) => Ok(None),
        View::Bytes(_) => Ok(None),
        View::BuiltIn(_) => Ok(None),
        View::Function(_, _) => Ok(None),
        View::Range(_) => Ok(None),
        View::Tuple(_) => Ok(None),
        View::Kind(_) => Ok(None),
        View::Module(owner) => Ok(attribute_of_module(owner, name)),
        View::Queue(id, maxsize) => attribute_of_queue(id, maxsize, name),
        View::Interpreter(id) => Ok(attribute_of_interpreter(id, name)),
        View::Exec(_) => Ok(None),
        View::Object(_) => Ok(None),
    }
}

// An attribute of a module.
fn attribute_of_module(owner: ModuleName, name: &Text) -> Option<Ref>
    ensures { (m : Memory) → HasAttribute (pure.Module owner) name.now m (Ok result) }
{
    match owner {
        ModuleName::Threading => None,
        ModuleName::Interpreters => kind_of_module(name),
    }
}

// An attribute of the module of interpreters: a kind of exception.
fn kind_of_module(name: &Text) -> Option<Ref>
    ensures { (m : Memory) → HasAttribute (pure.Module module_name.Interpreters) name.now m (Ok result) }
{
    let kinds = [
        Kind::NotShareableError,
        Kind::InterpreterError,
        Kind::InterpreterNotFoundError,
        Kind::ExecutionFailed,
        Kind::QueueEmpty,
        Kind::QueueFull,
    ];
    match kind_named(name, &kinds) {
        Some(kind) => Some(Ref::Kind([], kind)),
        None => None,
    }
}

// The kind of a name among these.
fn kind_named(name: &Text, kinds: &[Kind]) -> Option<Kind>
    ensures { result ≡ operations.kind_named name.now kinds.now }
{
    for kind in kinds {
        if is_spelled(name, kind.name()) {
            return Some(*kind);
        }
    }
    None
}

// An attribute of a queue.
fn attribute_of_queue(id: u32, maxsize: u64, name: &Text) -> Result<Option<Ref>, Cause>
    ensures { (m : Memory) → HasAttribute (pure.Queue id maxsize) name.now m result }
{
    if is_spelled(name, "id") {
        return Ok(Some(number(id)));
    }
    if is_spelled(name, "maxsize") {
        return match integer_of(maxsize) {
            Ok(n) => Ok(Some(integer(n))),
            Err(_) => Err(Cause::Arithmetic(Kind::OverflowError)),
        };
    }
    Ok(None)
}

/// A number as an integer of a script. `OverflowError` where it is past 64 bits with a sign.
pub fn integer_of(n: u64) -> Result<i64, Kind>
    ensures { result ≡ in_range (pos n) }
{
    signed(n).ok_or(Kind::OverflowError)
}

// The same, where 64 bits hold it.
fn signed(n: u64) -> Option<i64>
    ensures { SomeIff result (FitsSigned w64 (pos n)) (pos n) }
{
    0i64.checked_add_unsigned(n)
}

/// An integer of a script.
pub fn integer(n: i64) -> Ref
    ensures { result ≡ Ref.Int n }
{
    Ref::Int(n)
}

// A number of an interpreter or a queue as an integer of a script.
fn number(id: u32) -> Ref
    ensures { result ≡ Ref.Int (pos id) }
{
    Ref::Int(i64::from(id))
}

// An attribute of an interpreter.
fn attribute_of_interpreter(id: u32, name: &Text) -> Option<Ref>
    ensures { (m : Memory) → HasAttribute (pure.Interpreter id) name.now m (Ok result) }
{
    if is_spelled(name, "id") {
        return Some(number(id));
    }
    if is_spelled(name, "exec") {
        return Some(Ref::Exec(id));
    }
    None
}
