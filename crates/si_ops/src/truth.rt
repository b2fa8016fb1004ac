// Whether a value counts as true.

ghost use Rattle.std.specs.Prelude.{◌≡◌, ◌<◌, length, slice_get, not, nat_eq};
ghost use Rattle.si_semantics.specs.World.{World};
ghost use Rattle.si_semantics.specs.Meaning as meaning;
ghost use Rattle.si_semantics.specs.Operations as operations;
ghost use Rattle.si_arena.specs.Memory.{Memory, value_of, Lies};
ghost use Rattle.si_arena.specs.Views.{value_in};
ghost use Rattle.si_arena.specs.Texts.{characters_in};
ghost use Rattle.si_semantics.specs.Value.{Str, Bytes};
ghost use Rattle.si_ops.specs.inner.Equal.{IsNoObject};

use crate::ranges::is_item;
use si_arena::{Arena, Characters, Contents, Ref, View};
use si_plain::BooleanOperator;

/// True counts as 1 and False as 0 (Python Language Reference 3.14, 3.2).
#[inline(always)]
pub fn int_of_truth(truth: bool) -> i64
    ensures { result ≡ operations.int_of_truth truth }
{
    if truth { 1 } else { 0 }
}

/// Whether a value counts as true (Python Standard Library 3.14, "Built-in Types": truth value testing).
#[inline(always)]
pub fn is_true(arena: &Arena, value: Ref) -> bool
    requires { Lies arena.now value }
    ensures { (w : World) → w.store ≡ arena.now.store → result ≡ operations.is_true (value_of arena.now value) w }
{
    match value {
        Ref::Truth(_, truth) => truth,
        Ref::Int(n) => n != 0,
        _ => is_other_true(arena, value),
    }
}

// The same of any value.
#[inline(never)]
fn is_other_true(arena: &Arena, value: Ref) -> bool
    requires { Lies arena.now value }
    ensures { (w : World) → w.store ≡ arena.now.store → result ≡ operations.is_true (value_of arena.now value) w }
{
    match arena.view(&value) {
        View::Object(address) => is_object_true(arena, address),
        other => is_shown_true(other),
    }
}

// Whether the object at an address counts as true: a list that has items, a dict that has keys, and all others.
fn is_object_true(arena: &Arena, address: usize) -> bool
    requires { address < length arena.now.store }
    ensures { result ≡ operations.is_true_object (slice_get arena.now.store address) }
{
    match arena.object(address) {
        Contents::List(items) => has_any(items.len()),
        Contents::Dict(pairs) => has_any(pairs.len()),
        Contents::Plain(_) => true,
    }
}

/// Whether an operand decides the `and` or the `or` (Python Language Reference 3.14, 6.11).
#[inline(always)]
pub fn decides(arena: &Arena, operator: BooleanOperator, value: Ref) -> bool
    requires { Lies arena.now value }
    ensures { (w : World) → w.store ≡ arena.now.store → result ≡ meaning.decides operator (value_of arena.now value) w }
{
    match operator {
        BooleanOperator::And => !is_true(arena, value),
        BooleanOperator::Or => is_true(arena, value),
    }
}

// Whether what is shown, which is no object, counts as true.
fn is_shown_true(view: View) -> bool
    requires { IsNoObject view }
    ensures { (m : Memory) (w : World) → result ≡ operations.is_true (value_in m view.entry) w }
{
    match view {
        View::None => false,
        View::Truth(truth) => truth,
        View::Int(n) => n != 0,
        View::Str(text) => has_characters(text),
        View::Bytes(bytes) => has_bytes(bytes),
        View::BuiltIn(_) => true,
        View::Function(_, _) => true,
        View::Range(steps) => is_item(steps.start, steps.stop, steps.step),
        View::Tuple(items) => !items.is_empty(),
        View::Kind(_) => true,
        View::Module(_) => true,
        View::Queue(_, _) => true,
        View::Interpreter(_) => true,
        View::Exec(_) => true,
        View::Object(_) => unreachable!(),
    }
}

// Whether so many are any.
fn has_any(count: usize) -> bool
    ensures { result ≡ not (nat_eq count 0) }
{
    count != 0
}

// Whether there are bytes.
fn has_bytes(bytes: &[u8]) -> bool
    ensures { (w : World) → result ≡ operations.is_true (Bytes bytes.now) w }
{
    !bytes.is_empty()
}

// Whether a text has characters.
fn has_characters(text: Characters) -> bool
    ensures { (w : World) → result ≡ operations.is_true (Str (characters_in text.entry)) w }
{
    match text {
        Characters::Narrow(characters) => !characters.is_empty(),
        Characters::Wide(characters) => !characters.is_empty(),
    }
}
