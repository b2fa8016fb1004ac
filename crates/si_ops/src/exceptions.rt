// Which except clause catches which exception, and what `raise` raises.

ghost use Rattle.std.specs.Prelude.{◌≡◌, Option, ℕ, ◌<◌, length, slice_get, IsOk, IsSome, Some, IfSome, IfOk, OnErr};
ghost use Rattle.si_plain.specs.declared.kind.Kind.{Kind};
ghost use Rattle.si_semantics.specs.Value as pure;
ghost use Rattle.si_semantics.specs.Operations as operations;
ghost use Rattle.si_arena.specs.declared.value.Ref.TheVariants as ref;
ghost use Rattle.si_arena.specs.Causes.{kind_of, message_of, CauseLies};
ghost use Rattle.si_arena.specs.Memory.{Memory, value_of, all_of, object_of, contents_of, Lies, AllLie, ObjectLies, IsMade};
ghost use Rattle.si_ops.specs.Runs.{Decides};
ghost use Rattle.si_ops.specs.Raised.{IsRaised};
ghost use Rattle.si_ops.specs.inner.Objects.{is_exception};

use si_arena::{Arena, Cause, Contents, Object, Ref, View};
use si_plain::{Kind, NoMemory};

/// Whether an except clause with this value matches the exception at an address (Python Language Reference 3.14,
/// 8.4.1). It takes no memory.
pub fn catches(arena: &Arena, clause: Ref, address: usize) -> Result<bool, Cause>
    requires clause { Lies arena.now clause }
    requires address { address < length arena.now.store }
    ensures { Decides (λ w. operations.catches (value_of arena.now clause) address w) arena.now result }
{
    match arena.view(&clause) {
        View::Kind(top) => Ok(is_of(arena.object(address), top)),
        View::Tuple(kinds) => match is_of_one(arena, kinds, arena.object(address)) {
            Some(truth) => Ok(truth),
            None => Err(Cause::WrongType),
        },
        _ => Err(Cause::WrongType),
    }
}

// Whether an object is an exception of a kind, or of one under it; no other object is one.
fn is_of(contents: Contents, top: Kind) -> bool
    ensures { (m : Memory) → result ≡ operations.is_of top (Some (contents_of m contents.entry)) }
{
    match contents {
        Contents::Plain(object) => is_plain_of(object, top),
        Contents::List(_) => false,
        Contents::Dict(_) => false,
    }
}

// The same of an exception or a thread.
fn is_plain_of(object: Object, top: Kind) -> bool
    ensures { (m : Memory) → result ≡ operations.is_of top (Some (object_of m object)) }
{
    match object {
        Object::Bare(kind) => kind.is_a(top),
        Object::Made(kind, _) => kind.is_a(top),
        Object::Caused(cause) => cause.kind().is_a(top),
        Object::Thread { .. } => false,
        Object::Started(_) => false,
    }
}

// Whether an object is an exception of one of these kinds, or of one under it; there is no answer where one of these is
// no kind.
fn is_of_one(arena: &Arena, kinds: &[Ref], contents: Contents) -> Option<bool>
    requires { AllLie arena.now kinds.now }
    ensures { result ≡ operations.is_of_one (all_of arena.now kinds.now) (Some (contents_of arena.now contents.entry)) }
{
    let mut matches = false;
    for i in 0..kinds.len() {
        let View::Kind(top) = arena.view(&kinds[i]) else {
            return None;
        };
        matches = matches || is_of(contents, top);
    }
    Some(matches)
}

/// The exception that `raise` with a value raises, by its address (Python Language Reference 3.14, 7.8): an exception
/// itself, of a kind a new one without argument, and for any other value, a thread, a list and a dict too, a new TypeError. Memory is asked for only where
/// one is made; where it is refused, the arena is as before.
pub fn raised_by(arena: &mut Arena, value: Ref) -> Result<usize, NoMemory>
    requires { Lies arena.old value }
    ensures ok { IfOk result (λ x. IsRaised (λ w. operations.raised_by (value_of arena.old value) w) arena.old arena.new x) }
    ensures err { OnErr result (arena.new ≡ arena.old) }
    ensures memory { (x : ℕ) (k : Kind) (a : Option pure.Value) → value ≡ ref.Object x → slice_get arena.old.store x ≡ Some (pure.Exception k a) → (arena.new ≡ arena.old) × IsOk result }
{
    match value {
        Ref::Object(address) => {
            if is_exception(arena.object(address)) {
                return Ok(address);
            }
            raised_for(arena, Cause::WrongType)
        }
        Ref::Kind(_, kind) => make_at(arena, Object::Bare(kind)),
        Ref::Range(place) => {
            let _steps = arena.steps(place);
            raised_for(arena, Cause::WrongType)
        }
        Ref::Tuple(place) => {
            let _items = arena.tuple(place);
            raised_for(arena, Cause::WrongType)
        }
        _ => raised_for(arena, Cause::WrongType),
    }
}

// Whether an object is an exception.
fn is_exception(contents: Contents) -> bool
    ensures { (m : Memory) → result ≡ is_exception (contents_of m contents.entry) }
{
    match contents {
        Contents::Plain(object) => is_plain_exception(object),
        Contents::List(_) => false,
        Contents::Dict(_) => false,
    }
}

// The same of an exception or a thread.
fn is_plain_exception(object: Object) -> bool
    ensures { (m : Memory) → result ≡ is_exception (object_of m object) }
{
    match object {
        Object::Bare(_) | Object::Made(_, _) | Object::Caused(_) => true,
        Object::Thread { .. } | Object::Started(_) => false,
    }
}

/// The exception that a bare `raise` raises, by its address: the active one, where there is one, else a new RuntimeError
/// (Python Language Reference 3.14, 7.8). Memory is asked for only where one is made; where it is refused, the arena is
/// as before.
pub fn raised_again(arena: &mut Arena, active: Option<usize>) -> Result<usize, NoMemory>
    requires { IfSome active (λ x. x < length arena.old.store) }
    ensures ok { IfOk result (λ x. IsRaised (λ w. operations.raised_again active w) arena.old arena.new x) }
    ensures err { OnErr result (arena.new ≡ arena.old) }
    ensures memory { IsSome active → (arena.new ≡ arena.old) × IsOk result }
{
    match active {
        Some(address) => Ok(address),
        None => raised_for(arena, Cause::NoneActive),
    }
}

/// A new exception of a cause's kind with its message, by its address; where memory is refused, the arena is as before.
pub fn raised_for(arena: &mut Arena, cause: Cause) -> Result<usize, NoMemory>
    requires { CauseLies arena.old.names cause }
    ensures ok { IfOk result (λ x. IsRaised (λ w. operations.exception (kind_of cause) (Some (pure.Str (message_of arena.old.names cause))) w) arena.old arena.new x) }
    ensures err { OnErr result (arena.new ≡ arena.old) }
{
    make_at(arena, Object::Caused(cause))
}

// Makes an exception, and gives its address.
fn make_at(arena: &mut Arena, object: Object) -> Result<usize, NoMemory>
    requires { ObjectLies arena.old object }
    ensures ok { IfOk result (λ x. IsMade (object_of arena.old object) arena.old arena.new (ref.Object x)) }
    ensures err { OnErr result (arena.new ≡ arena.old) }
{
    match arena.make(object)? {
        Ref::Object(address) => Ok(address),
        _ => unreachable!(),
    }
}
