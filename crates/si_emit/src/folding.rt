// Constants that are computed as a text is compiled.
ghost use Rattle.std.specs.Prelude.{◌≡◌, ◌++◌, ℤ, Some, IfOk};
ghost use Rattle.std.specs.Option.{option_map};
ghost use Rattle.si_syntax.specs.Trees.{expr_of};
ghost use Rattle.si_slots.specs.Code as code;
ghost use Rattle.si_semantics.specs.Value.{Int};
ghost use Rattle.si_emit.specs.inner.Foldings.{between_of, computed_in, integer_of, signed_of, value_of};

use si_ops::on_integers;
use si_plain::{BinaryOperator, Kind, NoMemory, Text, UnaryOperator, invert, neg};
use si_syntax::Expr;
use std::alloc::Global;

/// The most characters of a str that is made.
const MAX_FOLDED: usize = 64;

/// A value that is known as a text is compiled: an integer, or a str.
#[derive(Drop)]
pub(crate) enum Known {
    Int(i64),
    Str(Text),
}

/// The constant that an expression is computed to, where it is no constant itself: it has operators and constants alone, and
/// nothing in it raises.
pub(crate) fn computed(alloc: Global, expr: &Expr) -> Result<Option<Known>, NoMemory>
    ensures { IfOk result (λ found. option_map value_of found ≡ computed_in (expr_of expr.now)) }
{
    match expr {
        Expr::Unary(_, _) => folded(alloc, expr),
        Expr::Binary(_, _, _) => folded(alloc, expr),
        _ => Ok(None),
    }
}

// The value of an expression of constants alone, where it is computed.
fn folded(alloc: Global, expr: &Expr) -> Result<Option<Known>, NoMemory>
    ensures { IfOk result (λ found. option_map value_of found ≡ code.folded (expr_of expr.now)) }
{
    match expr {
        Expr::Int(value) => Ok(Some(Known::Int(*value))),
        Expr::Str(literal) => short(alloc, literal),
        Expr::Unary(operator, operand) => match folded(alloc, operand)? {
            Some(value) => Ok(before(*operator, &value)),
            None => Ok(None),
        },
        Expr::Binary(operator, left, right) => {
            let Some(left) = folded(alloc, left)? else {
                return Ok(None);
            };
            match folded(alloc, right)? {
                Some(right) => between(alloc, *operator, &left, &right),
                None => Ok(None),
            }
        }
        _ => Ok(None),
    }
}

/// The integer that an expression of constants alone is computed to, where it is one.
pub(crate) fn integer_in(expr: &Expr) -> Option<i64>
    ensures { result ≡ integer_of (code.folded (expr_of expr.now)) }
{
    match expr {
        Expr::Int(value) => Some(*value),
        Expr::Unary(operator, operand) => integer_before(*operator, integer_in(operand)),
        Expr::Binary(operator, left, right) => {
            integer_between(*operator, integer_in(left), integer_in(right))
        }
        _ => None,
    }
}

// An operator before an integer, where it is there.
fn integer_before(operator: UnaryOperator, operand: Option<i64>) -> Option<i64>
    ensures { result ≡ signed_of operator operand }
{
    match operand {
        Some(n) => signed(operator, n),
        None => None,
    }
}

// An operator between two integers, where both are there.
#[tactic(auto, using(crate::proofs::Foldings::integer_ok))]
fn integer_between(operator: BinaryOperator, left: Option<i64>, right: Option<i64>) -> Option<i64>
    ensures { result ≡ between_of operator left right }
{
    match (left, right) {
        (Some(x), Some(y)) => on_integers(operator, x, y).ok(),
        _ => None,
    }
}

// An operator before an integer, but for `not`.
fn signed(operator: UnaryOperator, n: i64) -> Option<i64>
    ensures { result ≡ integer_of (code.folded_unary operator (Some (Int n))) }
{
    match operator {
        UnaryOperator::Plus => Some(n),
        UnaryOperator::Minus => neg(n).ok(),
        UnaryOperator::Invert => Some(invert(n)),
        UnaryOperator::Not => None,
    }
}

// An operator before a constant.
fn before(operator: UnaryOperator, value: &Known) -> Option<Known>
    ensures { option_map value_of result ≡ code.folded_unary operator (Some (value_of value.now)) }
{
    match value {
        Known::Int(n) => Some(Known::Int(signed(operator, *n)?)),
        Known::Str(_) => None,
    }
}

// An operator between two constants.
fn between(
    alloc: Global,
    operator: BinaryOperator,
    left: &Known,
    right: &Known,
) -> Result<Option<Known>, NoMemory>
    ensures { IfOk result (λ found. option_map value_of found ≡ code.folded_binary operator (Some (value_of left.now)) (Some (value_of right.now))) }
{
    match (operator, left, right) {
        (_, Known::Int(x), Known::Int(y)) => Ok(integer(on_integers(operator, *x, *y))),
        (BinaryOperator::Add, Known::Str(left), Known::Str(right)) => joined(alloc, left, right),
        (BinaryOperator::Multiply, Known::Str(text), Known::Int(n)) => copies(alloc, text, *n),
        (BinaryOperator::Multiply, Known::Int(n), Known::Str(text)) => copies(alloc, text, *n),
        _ => Ok(None),
    }
}

// What an operation on integers gives, where it raises nothing.
fn integer(outcome: Result<i64, Kind>) -> Option<Known>
    ensures { option_map value_of result ≡ code.folded_integer outcome }
{
    match outcome {
        Ok(n) => Some(Known::Int(n)),
        Err(_) => None,
    }
}

// A str literal, where it is short enough.
fn short(alloc: Global, literal: &Text) -> Result<Option<Known>, NoMemory>
    ensures { IfOk result (λ found. option_map value_of found ≡ code.folded_str literal.now) }
{
    joined(alloc, literal, &Text::new(alloc))
}

// One text and then another, where they are short enough together.
fn joined(alloc: Global, left: &Text, right: &Text) -> Result<Option<Known>, NoMemory>
    ensures { IfOk result (λ found. option_map value_of found ≡ code.folded_str (left.now ++ right.now)) }
{
    if left.len().saturating_add(right.len()) > MAX_FOLDED {
        return Ok(None);
    }
    let mut made = Text::new(alloc);
    made.append(left)?;
    made.append(right)?;
    Ok(Some(Known::Str(made)))
}

// A text so many times, where that is short enough.
#[tactic(auto, using(crate::proofs::Foldings::copies_empty, crate::proofs::Foldings::times_next))]
fn copies(alloc: Global, text: &Text, count: i64) -> Result<Option<Known>, NoMemory>
    ensures { IfOk result (λ found. option_map value_of found ≡ code.folded_copies text.now count) }
{
    let mut made = Text::new(alloc);
    if count <= 0 {
        return Ok(Some(Known::Str(made)));
    }
    if text.is_empty() {
        return Ok(Some(Known::Str(made)));
    }
    let count = count as usize;
    if count.saturating_mul(text.len()) > MAX_FOLDED {
        return Ok(None);
    }
    for i in 0..count {
        made.append(text)?;
    }
    Ok(Some(Known::Str(made)))
}
