// Comparisons.

ghost use Rattle.std.specs.Prelude.{◌≡◌};
ghost use Rattle.si_semantics.specs.World.{World};
ghost use Rattle.si_semantics.specs.Value.{Int};
ghost use Rattle.si_semantics.specs.Operations as operations;
ghost use Rattle.si_arena.specs.Memory.{Memory, value_of, Lies};
ghost use Rattle.si_arena.specs.Views.{value_in};
ghost use Rattle.si_ops.specs.Runs.{Decides, answer_of, decided};

use crate::characters::is_before as comes_before;
use crate::equality::are_equal;
use crate::membership::contains;
use crate::refusal::Refusal;
use crate::truth::int_of_truth;
use si_arena::{Arena, Cause, Characters, Ref, View};
use si_plain::ComparisonOperator;

/// A comparison of two values (Python Language Reference 3.14, 6.10). It takes no memory.
#[inline(always)]
pub fn compare(
    arena: &Arena,
    operator: ComparisonOperator,
    left: Ref,
    right: Ref,
) -> Result<bool, Cause>
    requires left { Lies arena.now left }
    requires right { Lies arena.now right }
    ensures { Decides (λ w. operations.compare operator (value_of arena.now left) (value_of arena.now right) w) arena.now result }
{
    match (left, right) {
        (Ref::Int(x), Ref::Int(y)) => match compare_integers(operator, x, y) {
            Some(truth) => Ok(truth),
            None => Err(Cause::WrongType),
        },
        _ => compare_others(arena, operator, left, right),
    }
}

// The same as `compare`, for values of any kinds.
#[inline(never)]
fn compare_others(
    arena: &Arena,
    operator: ComparisonOperator,
    left: Ref,
    right: Ref,
) -> Result<bool, Cause>
    requires left { Lies arena.now left }
    requires right { Lies arena.now right }
    ensures { Decides (λ w. operations.compare operator (value_of arena.now left) (value_of arena.now right) w) arena.now result }
{
    match answer(arena, operator, left, right) {
        Ok(truth) => Ok(truth),
        Err(refusal) => Err(refusal.cause()),
    }
}

/// A comparison of two integers, where it has an answer (Python Language Reference 3.14, 6.10.1): neither is in the other.
#[inline(always)]
pub fn compare_integers(operator: ComparisonOperator, x: i64, y: i64) -> Option<bool>
    ensures { (w : World) → operations.compare operator (Int x) (Int y) w ≡ operations.truth (answer_of result) w }
{
    match operator {
        ComparisonOperator::Less => Some(x < y),
        ComparisonOperator::Greater => Some(y < x),
        ComparisonOperator::LessEqual => Some(x <= y),
        ComparisonOperator::GreaterEqual => Some(y <= x),
        ComparisonOperator::Equal => Some(x == y),
        ComparisonOperator::NotEqual => Some(x != y),
        ComparisonOperator::Is => Some(false),
        ComparisonOperator::IsNot => Some(true),
        ComparisonOperator::In | ComparisonOperator::NotIn => None,
    }
}

// A comparison of two values, where it has an answer.
fn answer(
    arena: &Arena,
    operator: ComparisonOperator,
    left: Ref,
    right: Ref,
) -> Result<bool, Refusal>
    requires left { Lies arena.now left }
    requires right { Lies arena.now right }
    ensures { (w : World) → w.store ≡ arena.now.store → operations.compare operator (value_of arena.now left) (value_of arena.now right) w ≡ operations.truth (decided result) w }
{
    match operator {
        ComparisonOperator::Less => is_before(arena, left, right),
        ComparisonOperator::Greater => is_before(arena, right, left),
        ComparisonOperator::LessEqual => opposite(is_before(arena, right, left)),
        ComparisonOperator::GreaterEqual => opposite(is_before(arena, left, right)),
        ComparisonOperator::Equal => are_equal(arena, left, right),
        ComparisonOperator::NotEqual => opposite(are_equal(arena, left, right)),
        ComparisonOperator::Is => Ok(are_one_apart(arena, &left, &right)),
        ComparisonOperator::IsNot => Ok(!are_one_apart(arena, &left, &right)),
        ComparisonOperator::In => contains(arena, right, left),
        ComparisonOperator::NotIn => opposite(contains(arena, right, left)),
    }
}

// The other answer of a comparison, where there is one.
fn opposite(answer: Result<bool, Refusal>) -> Result<bool, Refusal>
    ensures { decided result ≡ operations.opposite (decided answer) }
{
    match answer {
        Ok(truth) => Ok(!truth),
        Err(refusal) => Err(refusal),
    }
}

// `x < y`, where the two have an order.
fn is_before(arena: &Arena, x: Ref, y: Ref) -> Result<bool, Refusal>
    requires x { Lies arena.now x }
    requires y { Lies arena.now y }
    ensures { (w : World) → operations.is_less (value_of arena.now x) (value_of arena.now y) w ≡ decided result }
{
    is_less(arena.view(&x), arena.view(&y))
}

// The same of what is shown.
fn is_less(x: View, y: View) -> Result<bool, Refusal>
    ensures { (m : Memory) (w : World) → operations.is_less (value_in m x.entry) (value_in m y.entry) w ≡ decided result }
{
    match (x, y) {
        (View::Int(a), View::Int(b)) => Ok(a < b),
        (View::Int(a), View::Truth(b)) => Ok(a < int_of_truth(b)),
        (View::Truth(a), View::Int(b)) => Ok(int_of_truth(a) < b),
        (View::Truth(a), View::Truth(b)) => Ok(int_of_truth(a) < int_of_truth(b)),
        (View::Str(a), View::Str(b)) => Ok(comes_before(a, b)),
        (View::Bytes(a), View::Bytes(b)) => {
            Ok(comes_before(Characters::Narrow(a), Characters::Narrow(b)))
        }
        _ => Err(Refusal::WrongType),
    }
}

/// Whether two values are one and the same: None, True and False are each the only value of their kind, and `is` says of no other
/// that it is the same (Python Language Reference 3.14, 6.10.3; the profile leaves the others out). It goes by the kinds of the
/// two, where they lie, and takes no memory.
#[inline(always)]
pub fn are_one(arena: &Arena, x: &Ref, y: &Ref) -> bool
    requires x { Lies arena.now x.now }
    requires y { Lies arena.now y.now }
    ensures { result ≡ operations.is_same (value_of arena.now x.now) (value_of arena.now y.now) }
{
    match (x, y) {
        (Ref::None, Ref::None) => true,
        (Ref::Truth(_, a), Ref::Truth(_, b)) => *a == *b,
        (Ref::Range(place), _) => {
            let _range = arena.steps(*place);
            false
        }
        (Ref::Tuple(place), _) => {
            let _tuple = arena.tuple(*place);
            false
        }
        (_, Ref::Range(place)) => {
            let _range = arena.steps(*place);
            false
        }
        (_, Ref::Tuple(place)) => {
            let _tuple = arena.tuple(*place);
            false
        }
        _ => false,
    }
}

// The same out of line, so that other comparisons have nothing of it.
#[inline(never)]
fn are_one_apart(arena: &Arena, x: &Ref, y: &Ref) -> bool
    requires x { Lies arena.now x.now }
    requires y { Lies arena.now y.now }
    ensures { result ≡ operations.is_same (value_of arena.now x.now) (value_of arena.now y.now) }
{
    are_one(arena, x, y)
}
