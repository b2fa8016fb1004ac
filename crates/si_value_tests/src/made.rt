// What the tests make in an arena, by calls that say no more of it than that it lies there. Where they said all that the
// arena says, each assertion after them would be proved beside that.

ghost use Rattle.std.specs.Prelude.{IfOk, IfSome, ◌<◌, length};
ghost use Rattle.si_arena.specs.Memory.{AllLie, Lies, ObjectLies};

use si_arena::{Arena, Characters, Object, Ref, View};
use si_ops::push_repr;
use si_plain::NoMemory;
use std::alloc::Global;

// A text that is placed, if it is.
pub(crate) fn text(arena: &mut Arena, text: &str) -> Option<Ref>
    ensures { IfSome result (λ r. Lies arena.new r) }
{
    match arena.place_text(text) {
        Ok(value) => Some(value),
        Err(_) => None,
    }
}

// A tuple that is placed, if it is.
pub(crate) fn tuple(arena: &mut Arena, items: &[Ref]) -> Option<Ref>
    requires { AllLie arena.old items.now }
    ensures { IfSome result (λ r. Lies arena.new r) }
{
    match arena.place_tuple(items) {
        Ok(value) => Some(value),
        Err(_) => None,
    }
}

// A list of these items.
pub(crate) fn list(arena: &mut Arena, items: &[Ref]) -> Result<Ref, NoMemory>
    requires { AllLie arena.old items.now }
    ensures { IfOk result (λ r. Lies arena.new r) }
{
    arena.make_list_of(items)
}

// The address of a dict that is made of these operands, if one is.
pub(crate) fn dict(arena: &mut Arena, operands: &[Ref]) -> Option<usize>
    requires { AllLie arena.old operands.now }
    ensures { IfSome result (λ address. address < length arena.new.store) }
{
    match arena.make_dict(operands) {
        Ok(Some(Ref::Object(address))) => Some(address),
        _ => None,
    }
}

// An object that is made there.
pub(crate) fn object(arena: &mut Arena, object: Object) -> Result<Ref, NoMemory>
    requires { ObjectLies arena.old object }
    ensures { IfOk result (λ r. Lies arena.new r) }
{
    arena.make(object)
}

// The number of a name.
pub(crate) fn name(arena: &mut Arena, name: &str) -> Result<usize, NoMemory>
    ensures { IfOk result (λ number. number < length arena.new.names) }
{
    arena.add_name(name)
}

// Whether a value is written so by `repr`.
pub(crate) fn is_repr(alloc: Global, arena: &Arena, value: Ref, wanted: &str) -> bool
    requires { Lies arena.now value }
{
    let mut written = String::new(alloc);
    match push_repr(&mut written, arena, value) {
        Ok(()) => written.as_str() == wanted,
        Err(_) => false,
    }
}

// Whether a value is a text of these characters, each of one byte.
pub(crate) fn is_narrow(arena: &Arena, value: Ref, wanted: &[u8]) -> bool
    requires { Lies arena.now value }
{
    match arena.view(&value) {
        View::Str(Characters::Narrow(shown)) => shown == wanted,
        _ => false,
    }
}
