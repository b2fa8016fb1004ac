// Bytes: operators between them, and the built-in that makes them.

ghost use Rattle.std.specs.Prelude.{◌≡◌, ◌∷◌, [], ◌++◌, Some, None, IfOk, IfErr, OnOk};
ghost use Rattle.si_semantics.specs.Value.{Bytes, Int};
ghost use Rattle.si_semantics.specs.Value as pure;
ghost use Rattle.si_semantics.specs.Operations as operations;
ghost use Rattle.si_semantics.specs.Operations.{operate, bytes_from, range_items};
ghost use Rattle.si_arena.specs.Memory.{value_of, all_of, Lies, AllLie};
ghost use Rattle.si_arena.specs.Bytes.{bytes_of};
ghost use Rattle.si_ops.specs.Runs.{Runs};
ghost use Rattle.si_ops.specs.Operands.{made_of, NeedsNone, IsTold};
ghost use Rattle.si_plain.specs.Integers.{sum_of};
ghost use Rattle.si_ops.specs.Calls.{IsRefusal, byte_of, StepsTo};

use crate::operand::integer_in;
use crate::ranges::items_in;
use si_arena::{Arena, Cause, Fault, Ref, Steps, View};
use si_plain::{BinaryOperator, Kind, NoMemory, add};
use std::alloc::Global;

/// An operator between bytes and bytes, of which `+` alone gives a value.
pub fn joined_bytes(
    arena: &mut Arena,
    operator: BinaryOperator,
    left: Ref,
    right: Ref,
) -> Result<Ref, Fault>
    requires left { Lies arena.old left }
    requires right { Lies arena.old right }
    ensures runs { Runs (λ w. operate operator (Bytes (bytes_of arena.old.texts left)) (Bytes (bytes_of arena.old.texts right)) w) arena.old arena.new result }
    ensures memory { NeedsNone left right (made_of operator (Bytes (bytes_of arena.old.texts left)) (Bytes (bytes_of arena.old.texts right))) → (arena.new ≡ arena.old) × IsTold result }
{
    match operator {
        BinaryOperator::Add => arena.join_bytes(left, right),
        _ => Err(Fault::Raises(Cause::WrongType)),
    }
}

/// An operator between bytes and an integer, of which `*` alone gives a value.
pub fn byte_copies(
    arena: &mut Arena,
    operator: BinaryOperator,
    bytes: Ref,
    count: i64,
) -> Result<Ref, Fault>
    requires { Lies arena.old bytes }
    ensures runs { Runs (λ w. operate operator (Bytes (bytes_of arena.old.texts bytes)) (Int count) w) arena.old arena.new result }
    ensures memory { NeedsNone bytes bytes (made_of operator (Bytes (bytes_of arena.old.texts bytes)) (Int count)) → (arena.new ≡ arena.old) × IsTold result }
{
    match operator {
        BinaryOperator::Multiply => arena.repeat_bytes(bytes, count),
        _ => Err(Fault::Raises(Cause::WrongType)),
    }
}

/// A call of `bytes`, with one argument.
pub fn call_bytes(arena: &mut Arena, arguments: &[Ref]) -> Result<Ref, Fault>
    requires { AllLie arena.old arguments.now }
    ensures { Runs (λ w. operations.call_built_in pure.MakeBytes (all_of arena.old arguments.now) w) arena.old arena.new result }
{
    match arguments {
        [value] => place_items(arena, *value),
        _ => Err(Fault::Raises(Cause::WrongArguments)),
    }
}

// The bytes of the items of a value.
fn place_items(arena: &mut Arena, value: Ref) -> Result<Ref, Fault>
    requires { Lies arena.old value }
    ensures { Runs (λ w. operations.bytes_of (value_of arena.old value) w) arena.old arena.new result }
{
    let bytes = match arena.view(&value) {
        View::Range(steps) => bytes_in(arena.allocator(), steps)?,
        View::Tuple(items) => bytes_meant(arena, items)?,
        View::Object(address) => match arena.list(address) {
            Some(items) => bytes_meant(arena, items)?,
            None => return Err(Fault::Raises(Cause::WrongType)),
        },
        _ => return Err(Fault::Raises(Cause::WrongType)),
    };
    arena.place_bytes(bytes.as_slice())
}

// The bytes of the items of a range, where each is from 0 to 255.
fn bytes_in(alloc: Global, steps: &Steps) -> Result<Vec<u8>, Fault>
    ensures ok { IfOk result (λ bytes. bytes_from (range_items steps.now.start steps.now.stop steps.now.step) ≡ Some bytes.items) }
    ensures err { IfErr result (λ fault. IsRefusal fault (bytes_from (range_items steps.now.start steps.now.stop steps.now.step))) }
{
    let mut bytes = Vec::new(alloc);
    let mut at = steps.start;
    for i in 0..items_in(steps) {
        let Some(byte) = byte_of(at) else {
            return Err(Fault::Raises(Cause::Arithmetic(Kind::ValueError)));
        };
        keep(&mut bytes, byte)?;
        at = step_from(at, steps.step);
    }
    Ok(bytes)
}

// The bytes that values are, where each is one.
fn bytes_meant(arena: &Arena, items: &[Ref]) -> Result<Vec<u8>, Fault>
    requires { AllLie arena.now items.now }
    ensures ok { IfOk result (λ bytes. operations.bytes_in (all_of arena.now items.now) ≡ Some bytes.items) }
    ensures err { IfErr result (λ fault. IsRefusal fault (operations.bytes_in (all_of arena.now items.now))) }
{
    let mut bytes = Vec::new(arena.allocator());
    for i in 0..items.len() {
        let Some(byte) = byte_meant(arena, items[i]) else {
            return Err(Fault::Raises(Cause::Arithmetic(Kind::ValueError)));
        };
        keep(&mut bytes, byte)?;
    }
    Ok(bytes)
}

// The byte that a value is.
fn byte_meant(arena: &Arena, value: Ref) -> Option<u8>
    requires { Lies arena.now value }
    ensures { result ≡ operations.byte_meant (operations.integer_in (value_of arena.now value)) }
{
    match integer_in(arena, value) {
        Ok(n) => byte_of(n),
        Err(_) => None,
    }
}

// Puts a byte after others.
fn keep(bytes: &mut Vec<u8>, byte: u8) -> Result<(), NoMemory>
    ensures { OnOk result (bytes.new.items ≡ bytes.old.items ++ byte ∷ []) }
{
    bytes.push(byte)?;
    Ok(())
}

// An integer from 0 to 255 as a byte.
fn byte_of(n: i64) -> Option<u8>
    ensures { result ≡ byte_of n }
{
    match u8::try_from(n) {
        Ok(byte) => Some(byte),
        Err(_) => None,
    }
}

// The integer a step after another; where it lies past the integers -1, which is no byte either.
fn step_from(at: i64, step: i64) -> i64
    ensures { StepsTo (sum_of at step) result }
{
    match add(at, step) {
        Ok(next) => next,
        Err(_) => -1,
    }
}
