// What a value is to a method.

ghost use Rattle.std.specs.Prelude.{◌≡◌, ◌<◌, length, IfSome};
ghost use Rattle.si_arena.specs.Memory.{value_of, Lies};
ghost use Rattle.si_methods.specs.Shown.{IsStr, IsQueue, IsInterpreter, IsExec, IsAddress, IsOnlyItem, HasOne, is_nothing};
ghost use Rattle.si_arena.specs.Texts.{IsText};

use si_arena::{Arena, Characters, Ref, View};

/// The characters of a str; none of any other value.
pub fn characters_of<'a>(arena: &'a Arena, value: &'a Ref) -> Option<Characters<'a>>
    requires { Lies arena.now value.now }
    ensures characters { IsStr (value_of arena.now value.now) result }
    ensures text { IfSome result (λ characters. IsText value.now) }
{
    match arena.view(value) {
        View::None => None,
        View::Truth(_) => None,
        View::Int(_) => None,
        View::Str(characters) => Some(characters),
        View::Bytes(_) => None,
        View::BuiltIn(_) => None,
        View::Function(_, _) => None,
        View::Range(_) => None,
        View::Tuple(_) => None,
        View::Kind(_) => None,
        View::Module(_) => None,
        View::Queue(_, _) => None,
        View::Interpreter(_) => None,
        View::Exec(_) => None,
        View::Object(_) => None,
    }
}

/// The number of a queue, and the most items that it may have; none of any other value.
pub fn queue_of(arena: &Arena, value: Ref) -> Option<(u32, u64)>
    requires { Lies arena.now value }
    ensures { IsQueue (value_of arena.now value) result }
{
    match arena.view(&value) {
        View::None => None,
        View::Truth(_) => None,
        View::Int(_) => None,
        View::Str(_) => None,
        View::Bytes(_) => None,
        View::BuiltIn(_) => None,
        View::Function(_, _) => None,
        View::Range(_) => None,
        View::Tuple(_) => None,
        View::Kind(_) => None,
        View::Module(_) => None,
        View::Queue(id, maxsize) => Some((id, maxsize)),
        View::Interpreter(_) => None,
        View::Exec(_) => None,
        View::Object(_) => None,
    }
}

/// The number of an interpreter; none of any other value.
pub fn interpreter_of(arena: &Arena, value: Ref) -> Option<u32>
    requires { Lies arena.now value }
    ensures { IsInterpreter (value_of arena.now value) result }
{
    match arena.view(&value) {
        View::None => None,
        View::Truth(_) => None,
        View::Int(_) => None,
        View::Str(_) => None,
        View::Bytes(_) => None,
        View::BuiltIn(_) => None,
        View::Function(_, _) => None,
        View::Range(_) => None,
        View::Tuple(_) => None,
        View::Kind(_) => None,
        View::Module(_) => None,
        View::Queue(_, _) => None,
        View::Interpreter(id) => Some(id),
        View::Exec(_) => None,
        View::Object(_) => None,
    }
}

/// The address of an object; none of any other value.
pub fn address_of(arena: &Arena, value: Ref) -> Option<usize>
    requires { Lies arena.now value }
    ensures address { IsAddress (value_of arena.now value) result }
    ensures lies { IfSome result (λ x. x < length arena.now.store) }
{
    match arena.view(&value) {
        View::None => None,
        View::Truth(_) => None,
        View::Int(_) => None,
        View::Str(_) => None,
        View::Bytes(_) => None,
        View::BuiltIn(_) => None,
        View::Function(_, _) => None,
        View::Range(_) => None,
        View::Tuple(_) => None,
        View::Kind(_) => None,
        View::Module(_) => None,
        View::Queue(_, _) => None,
        View::Interpreter(_) => None,
        View::Exec(_) => None,
        View::Object(address) => Some(address),
    }
}

/// The number of the interpreter whose `exec` a value is; none of any other value.
pub fn exec_of(arena: &Arena, value: Ref) -> Option<u32>
    requires { Lies arena.now value }
    ensures { IsExec (value_of arena.now value) result }
{
    match arena.view(&value) {
        View::None => None,
        View::Truth(_) => None,
        View::Int(_) => None,
        View::Str(_) => None,
        View::Bytes(_) => None,
        View::BuiltIn(_) => None,
        View::Function(_, _) => None,
        View::Range(_) => None,
        View::Tuple(_) => None,
        View::Kind(_) => None,
        View::Module(_) => None,
        View::Queue(_, _) => None,
        View::Interpreter(_) => None,
        View::Exec(id) => Some(id),
        View::Object(_) => None,
    }
}

/// The item of a tuple of one item; none of any other value.
pub fn only_item(arena: &Arena, value: Ref) -> Option<Ref>
    requires { Lies arena.now value }
    ensures { IsOnlyItem arena.now (value_of arena.now value) result }
{
    match arena.view(&value) {
        View::None => None,
        View::Truth(_) => None,
        View::Int(_) => None,
        View::Str(_) => None,
        View::Bytes(_) => None,
        View::BuiltIn(_) => None,
        View::Function(_, _) => None,
        View::Range(_) => None,
        View::Tuple(items) => first_of_one(items),
        View::Kind(_) => None,
        View::Module(_) => None,
        View::Queue(_, _) => None,
        View::Interpreter(_) => None,
        View::Exec(_) => None,
        View::Object(_) => None,
    }
}

// The one of these, where there is one alone.
fn first_of_one(items: &[Ref]) -> Option<Ref>
    ensures { HasOne items.now result }
{
    match items {
        [item] => Some(*item),
        _ => None,
    }
}

/// Whether a value is None.
pub fn is_none(arena: &Arena, value: Ref) -> bool
    requires { Lies arena.now value }
    ensures { result ≡ is_nothing (value_of arena.now value) }
{
    match arena.view(&value) {
        View::None => true,
        View::Truth(_) => false,
        View::Int(_) => false,
        View::Str(_) => false,
        View::Bytes(_) => false,
        View::BuiltIn(_) => false,
        View::Function(_, _) => false,
        View::Range(_) => false,
        View::Tuple(_) => false,
        View::Kind(_) => false,
        View::Module(_) => false,
        View::Queue(_, _) => false,
        View::Interpreter(_) => false,
        View::Exec(_) => false,
        View::Object(_) => false,
    }
}
