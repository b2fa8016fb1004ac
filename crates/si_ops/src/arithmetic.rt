// Operators before a value and between two.

ghost use Rattle.std.specs.Prelude.{◌≡◌, true};
ghost use Rattle.si_semantics.specs.Value.{Int, Str, Truth};
ghost use Rattle.si_semantics.specs.World.{World};
ghost use Rattle.si_semantics.specs.Operations as operations;
ghost use Rattle.si_semantics.specs.Operations.{operate_integers, operate_truths, operate, operate_unary};
ghost use Rattle.si_arena.specs.Memory.{Memory, value_of, Lies};
ghost use Rattle.si_arena.specs.Texts.{text_of};
ghost use Rattle.si_ops.specs.Runs.{Runs, Tells};
ghost use Rattle.si_ops.specs.Calls.{Makes};
ghost use Rattle.si_ops.specs.Operands.{IsNoInteger, AreNoLists, made_of, NeedsNone, IsTold};
ghost use Rattle.si_ops.specs.inner.Held.{IsListIn};

use crate::bytes::{byte_copies, joined_bytes};
use crate::held::{Held, held_by};
use crate::lists::{joined_lists, list_copies};
use crate::operand::Operand;
use crate::truth::{int_of_truth, is_true};
use crate::tuples::{joined_tuples, tuple_copies};
use si_arena::{Arena, Cause, Fault, Ref};
use si_plain::{
    BinaryOperator, Kind, UnaryOperator, add, bit_and, bit_or, bit_xor, floordiv, invert, modulo,
    mul, neg, power, shl, shr, sub,
};

/// An operator before a value (Python Language Reference 3.14, 6.6; `not`: 6.11). It takes no memory.
pub fn unary(arena: &Arena, operator: UnaryOperator, value: Ref) -> Result<Ref, Cause>
    requires { Lies arena.now value }
    ensures { Tells (λ w. operate_unary operator (value_of arena.now value) w) arena.now result }
{
    match Operand::of(arena, value) {
        Operand::Integer(n) => of_integer(operator, n),
        Operand::Truth(truth) => of_truth(operator, truth),
        Operand::Text => of_other(arena, operator, value),
        Operand::Bytes => of_other(arena, operator, value),
        Operand::Tuple => of_other(arena, operator, value),
        Operand::Other => of_other(arena, operator, value),
    }
}

// An operator before an integer.
fn of_integer(operator: UnaryOperator, n: i64) -> Result<Ref, Cause>
    ensures { (m : Memory) → Tells (λ w. operate_unary operator (Int n) w) m result }
{
    match operator {
        UnaryOperator::Not => Ok(Ref::Truth([], !is_nonzero(n))),
        UnaryOperator::Plus => Ok(Ref::Int(n)),
        UnaryOperator::Minus => match neg(n) {
            Ok(n) => Ok(Ref::Int(n)),
            Err(kind) => Err(Cause::Arithmetic(kind)),
        },
        UnaryOperator::Invert => Ok(Ref::Int(invert(n))),
    }
}

// Whether an integer counts as true.
fn is_nonzero(n: i64) -> bool
    ensures { (w : World) → result ≡ operations.is_true (Int n) w }
{
    n != 0
}

// An operator before True or False: all but `not` take it as an integer.
fn of_truth(operator: UnaryOperator, truth: bool) -> Result<Ref, Cause>
    ensures { (m : Memory) → Tells (λ w. operate_unary operator (Truth truth) w) m result }
{
    match operator {
        UnaryOperator::Not => Ok(Ref::Truth([], !truth)),
        _ => of_integer(operator, int_of_truth(truth)),
    }
}

// An operator before what counts as no integer: `not` alone takes it.
fn of_other(arena: &Arena, operator: UnaryOperator, value: Ref) -> Result<Ref, Cause>
    requires lies { Lies arena.now value }
    requires other { IsNoInteger (value_of arena.now value) }
    ensures { Tells (λ w. operate_unary operator (value_of arena.now value) w) arena.now result }
{
    match operator {
        UnaryOperator::Not => Ok(Ref::Truth([], !is_true(arena, value))),
        UnaryOperator::Plus => Err(Cause::WrongType),
        UnaryOperator::Minus => Err(Cause::WrongType),
        UnaryOperator::Invert => Err(Cause::WrongType),
    }
}

/// An operator between two values (Python Language Reference 3.14, 6.5 and 6.7 to 6.9). It takes no memory where it
/// makes neither a str, nor bytes, nor a tuple, nor a list, nor where it makes at most 11 characters of operands that have no wide one, or
/// at most 11 bytes, nor where a tuple would be too large.
#[inline(always)]
pub fn binary(
    arena: &mut Arena,
    operator: BinaryOperator,
    left: Ref,
    right: Ref,
) -> Result<Ref, Fault>
    requires left { Lies arena.old left }
    requires right { Lies arena.old right }
    ensures makes { Makes (λ w. operate operator (value_of arena.old left) (value_of arena.old right) w) arena.old arena.new result }
    ensures memory { AreNoLists arena.old.store (value_of arena.old left) (value_of arena.old right) → NeedsNone left right (made_of operator (value_of arena.old left) (value_of arena.old right)) → (arena.new ≡ arena.old) × IsTold result }
{
    match (left, right) {
        (Ref::Int(x), Ref::Int(y)) => integers(operator, x, y),
        _ => {
            if is_text(&left) && is_text(&right) {
                joined(arena, operator, left, right)
            } else {
                operands(arena, operator, left, right)
            }
        }
    }
}

/// An operator between two integers (Python Language Reference 3.14, 6.5 and 6.7 to 6.9).
#[inline(always)]
pub fn on_integers(operator: BinaryOperator, x: i64, y: i64) -> Result<i64, Kind>
    ensures { result ≡ operate_integers operator x y }
{
    match operator {
        BinaryOperator::Add => add(x, y),
        BinaryOperator::Subtract => sub(x, y),
        BinaryOperator::Multiply => mul(x, y),
        BinaryOperator::FloorDivide => floordiv(x, y),
        BinaryOperator::Modulo => modulo(x, y),
        BinaryOperator::Power => power(x, y),
        BinaryOperator::BitOr => Ok(bit_or(x, y)),
        BinaryOperator::BitXor => Ok(bit_xor(x, y)),
        BinaryOperator::BitAnd => Ok(bit_and(x, y)),
        BinaryOperator::ShiftLeft => shl(x, y),
        BinaryOperator::ShiftRight => shr(x, y),
    }
}

// The value of an operator between two integers.
#[inline(always)]
fn integers(operator: BinaryOperator, x: i64, y: i64) -> Result<Ref, Fault>
    ensures runs { (m : Memory) → Runs (λ w. operate operator (Int x) (Int y) w) m m result }
    ensures told { IsTold result }
{
    match on_integers(operator, x, y) {
        Ok(n) => Ok(Ref::Int(n)),
        Err(kind) => Err(Fault::Raises(Cause::Arithmetic(kind))),
    }
}

// An operator between two of True and False: `|`, `^` and `&` give one of them (Python Language Reference 3.14, 6.9).
fn truths(operator: BinaryOperator, x: bool, y: bool) -> Result<Ref, Fault>
    ensures runs { (m : Memory) → Runs (λ w. operate_truths operator x y w) m m result }
    ensures told { IsTold result }
{
    match operator {
        BinaryOperator::BitOr => Ok(Ref::Truth([], x || y)),
        BinaryOperator::BitXor => Ok(Ref::Truth([], x != y)),
        BinaryOperator::BitAnd => Ok(Ref::Truth([], x && y)),
        _ => integers(operator, int_of_truth(x), int_of_truth(y)),
    }
}

// The same as `binary`, for operands of any kinds: `+` and `*` of lists make new lists.
#[inline(never)]
fn operands(
    arena: &mut Arena,
    operator: BinaryOperator,
    left: Ref,
    right: Ref,
) -> Result<Ref, Fault>
    requires left { Lies arena.old left }
    requires right { Lies arena.old right }
    ensures makes { Makes (λ w. operate operator (value_of arena.old left) (value_of arena.old right) w) arena.old arena.new result }
    ensures memory { AreNoLists arena.old.store (value_of arena.old left) (value_of arena.old right) → NeedsNone left right (made_of operator (value_of arena.old left) (value_of arena.old right)) → (arena.new ≡ arena.old) × IsTold result }
{
    match (list_in(arena, left), list_in(arena, right)) {
        (None, None) => placed(arena, operator, left, right),
        (Some(x), Some(y)) => joined_lists(arena, operator, x, y),
        (Some(x), None) => list_copies(arena, operator, x, right),
        (None, Some(y)) => list_copies(arena, operator, y, left),
    }
}

// Whether a value is a text.
#[inline(always)]
fn is_text(value: &Ref) -> bool
    ensures { result ≡ true → (m : Memory) → value_of m value.now ≡ Str (text_of m.texts value.now) }
{
    match value {
        Ref::Short(_) => true,
        Ref::Narrow { .. } => true,
        Ref::Wide { .. } => true,
        _ => false,
    }
}

// The address of a list.
#[inline(always)]
fn list_in(arena: &Arena, value: Ref) -> Option<usize>
    requires { Lies arena.now value }
    ensures { IsListIn arena.now (value_of arena.now value) result }
{
    match held_by(arena, value) {
        Held::List(address) => Some(address),
        Held::Dict(_) => None,
        Held::Other => None,
    }
}

// An operator between two values that are no lists, whose value may be placed.
fn placed(arena: &mut Arena, operator: BinaryOperator, left: Ref, right: Ref) -> Result<Ref, Fault>
    requires left { Lies arena.old left }
    requires right { Lies arena.old right }
    requires no_lists { AreNoLists arena.old.store (value_of arena.old left) (value_of arena.old right) }
    ensures runs { Runs (λ w. operate operator (value_of arena.old left) (value_of arena.old right) w) arena.old arena.new result }
    ensures memory { NeedsNone left right (made_of operator (value_of arena.old left) (value_of arena.old right)) → (arena.new ≡ arena.old) × IsTold result }
{
    let (first, second) = (Operand::of(arena, left), Operand::of(arena, right));
    match (first, second) {
        (Operand::Integer(x), Operand::Integer(y)) => integers(operator, x, y),
        (Operand::Integer(x), Operand::Truth(y)) => integers(operator, x, int_of_truth(y)),
        (Operand::Truth(x), Operand::Integer(y)) => integers(operator, int_of_truth(x), y),
        (Operand::Truth(x), Operand::Truth(y)) => truths(operator, x, y),
        (Operand::Text, Operand::Text) => joined(arena, operator, left, right),
        (Operand::Text, Operand::Integer(n)) => copies(arena, operator, left, n),
        (Operand::Text, Operand::Truth(b)) => copies(arena, operator, left, int_of_truth(b)),
        (Operand::Integer(n), Operand::Text) => copies(arena, operator, right, n),
        (Operand::Truth(b), Operand::Text) => copies(arena, operator, right, int_of_truth(b)),
        (Operand::Bytes, Operand::Bytes) => joined_bytes(arena, operator, left, right),
        (Operand::Bytes, Operand::Integer(n)) => byte_copies(arena, operator, left, n),
        (Operand::Bytes, Operand::Truth(b)) => byte_copies(arena, operator, left, int_of_truth(b)),
        (Operand::Integer(n), Operand::Bytes) => byte_copies(arena, operator, right, n),
        (Operand::Truth(b), Operand::Bytes) => byte_copies(arena, operator, right, int_of_truth(b)),
        (Operand::Tuple, Operand::Tuple) => joined_tuples(arena, operator, left, right),
        (Operand::Tuple, Operand::Integer(n)) => tuple_copies(arena, operator, left, n),
        (Operand::Tuple, Operand::Truth(b)) => tuple_copies(arena, operator, left, int_of_truth(b)),
        (Operand::Integer(n), Operand::Tuple) => tuple_copies(arena, operator, right, n),
        (Operand::Truth(b), Operand::Tuple) => tuple_copies(
            arena,
            operator,
            right,
            int_of_truth(b),
        ),
        (Operand::Text, Operand::Bytes) => Err(Fault::Raises(Cause::WrongType)),
        (Operand::Text, Operand::Tuple) => Err(Fault::Raises(Cause::WrongType)),
        (Operand::Bytes, Operand::Text) => Err(Fault::Raises(Cause::WrongType)),
        (Operand::Bytes, Operand::Tuple) => Err(Fault::Raises(Cause::WrongType)),
        (Operand::Tuple, Operand::Text) => Err(Fault::Raises(Cause::WrongType)),
        (Operand::Tuple, Operand::Bytes) => Err(Fault::Raises(Cause::WrongType)),
        (Operand::Other, _) => Err(Fault::Raises(Cause::WrongType)),
        (_, Operand::Other) => Err(Fault::Raises(Cause::WrongType)),
    }
}

// An operator between two texts, of which `+` alone gives a value.
#[inline(never)]
fn joined(arena: &mut Arena, operator: BinaryOperator, left: Ref, right: Ref) -> Result<Ref, Fault>
    requires left { Lies arena.old left }
    requires right { Lies arena.old right }
    ensures runs { Runs (λ w. operate operator (Str (text_of arena.old.texts left)) (Str (text_of arena.old.texts right)) w) arena.old arena.new result }
    ensures memory { NeedsNone left right (made_of operator (Str (text_of arena.old.texts left)) (Str (text_of arena.old.texts right))) → (arena.new ≡ arena.old) × IsTold result }
{
    match operator {
        BinaryOperator::Add => arena.join(left, right),
        _ => Err(Fault::Raises(Cause::WrongType)),
    }
}

// An operator between a text and an integer, of which `*` alone gives a value.
fn copies(arena: &mut Arena, operator: BinaryOperator, text: Ref, count: i64) -> Result<Ref, Fault>
    requires { Lies arena.old text }
    ensures runs { Runs (λ w. operate operator (Str (text_of arena.old.texts text)) (Int count) w) arena.old arena.new result }
    ensures memory { NeedsNone text text (made_of operator (Str (text_of arena.old.texts text)) (Int count)) → (arena.new ≡ arena.old) × IsTold result }
{
    match operator {
        BinaryOperator::Multiply => arena.repeat(text, count),
        _ => Err(Fault::Raises(Cause::WrongType)),
    }
}
