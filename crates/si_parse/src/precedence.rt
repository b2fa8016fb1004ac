// What continues an expression, and how tightly: levels and strengths of operators.

ghost use Rattle.std.specs.Prelude.{◌≡◌, ◌∷◌, option_map, IfSome};
ghost use Rattle.si_semantics.specs.Grammar.{Word, left_level, right_level, prefix_level, item_level};
ghost use Rattle.si_token.specs.Views.{symbol_of, keyword_of};
ghost use Rattle.si_parse.specs.inner.Lookahead.{role_of, continuation_at, strength_of, rest_of};
ghost use Rattle.si_parse.specs.inner.Expressions.{prefix_at, comparison_symbol, comparison_at};
ghost use Rattle.si_parse.specs.inner.Gives.{from, continuation_view};

use crate::lookahead::{after_word, token_at};
use si_plain::{BinaryOperator, BooleanOperator, ComparisonOperator, UnaryOperator};
use si_token::{Keyword, Symbol, TokenKind, TokenRow};

// The levels of expressions, each named for its production, the loosest first.
pub(crate) const EXPRESSION: u32 = 1;

pub(crate) const DISJUNCTION: u32 = 3;

const CONJUNCTION: u32 = 5;

const INVERSION: u32 = 7;

pub(crate) const BIT_OR: u32 = 10;

const BIT_XOR: u32 = 11;

const BIT_AND: u32 = 12;

const SHIFT: u32 = 13;

const SUM: u32 = 14;

const TERM: u32 = 15;

pub(crate) const FACTOR: u32 = 16;

const PRIMARY: u32 = 18;

// What a token does after an operand.
#[derive(Clone, Copy)]
pub(crate) enum Continuation {
    Operator(BinaryOperator),
    Attribute,
    Arguments,
    Index,
    Comparison,
    Boolean(BooleanOperator),
    // the `if` of a conditional expression
    Condition,
    Nothing,
}

// The level that the left operand of an operator has at least.
fn left_level(operator: BinaryOperator) -> u32
    ensures { result ≡ left_level operator }
{
    match operator {
        BinaryOperator::BitOr => BIT_OR,
        BinaryOperator::BitXor => BIT_XOR,
        BinaryOperator::BitAnd => BIT_AND,
        BinaryOperator::ShiftLeft | BinaryOperator::ShiftRight => SHIFT,
        BinaryOperator::Add | BinaryOperator::Subtract => SUM,
        BinaryOperator::Multiply | BinaryOperator::FloorDivide | BinaryOperator::Modulo => TERM,
        BinaryOperator::Power => PRIMARY,
    }
}

// The level that its right operand has at least.
pub(crate) fn right_level(operator: BinaryOperator) -> u32
    ensures { result ≡ right_level operator }
{
    match operator {
        BinaryOperator::BitOr => BIT_XOR,
        BinaryOperator::BitXor => BIT_AND,
        BinaryOperator::BitAnd => SHIFT,
        BinaryOperator::ShiftLeft | BinaryOperator::ShiftRight => SUM,
        BinaryOperator::Add | BinaryOperator::Subtract => TERM,
        BinaryOperator::Multiply | BinaryOperator::FloorDivide | BinaryOperator::Modulo => FACTOR,
        BinaryOperator::Power => FACTOR,
    }
}

// The level of an operator before its operand, which has the same level at least.
pub(crate) fn prefix_level(operator: UnaryOperator) -> u32
    ensures { result ≡ prefix_level operator }
{
    match operator {
        UnaryOperator::Plus | UnaryOperator::Minus | UnaryOperator::Invert => FACTOR,
        UnaryOperator::Not => INVERSION,
    }
}

// The level that each operand of `and`, or of `or`, has at least.
pub(crate) fn item_level(operator: BooleanOperator) -> u32
    ensures { result ≡ item_level operator }
{
    match operator {
        BooleanOperator::Or => CONJUNCTION,
        BooleanOperator::And => INVERSION,
    }
}

// What a symbol does after an operand.
fn role_of(symbol: Symbol) -> Continuation
    ensures { continuation_view result ≡ role_of (symbol_of symbol) }
{
    match symbol {
        Symbol::Bar => Continuation::Operator(BinaryOperator::BitOr),
        Symbol::Caret => Continuation::Operator(BinaryOperator::BitXor),
        Symbol::Ampersand => Continuation::Operator(BinaryOperator::BitAnd),
        Symbol::LeftShift => Continuation::Operator(BinaryOperator::ShiftLeft),
        Symbol::RightShift => Continuation::Operator(BinaryOperator::ShiftRight),
        Symbol::Plus => Continuation::Operator(BinaryOperator::Add),
        Symbol::Minus => Continuation::Operator(BinaryOperator::Subtract),
        Symbol::Star => Continuation::Operator(BinaryOperator::Multiply),
        Symbol::DoubleSlash => Continuation::Operator(BinaryOperator::FloorDivide),
        Symbol::Percent => Continuation::Operator(BinaryOperator::Modulo),
        Symbol::DoubleStar => Continuation::Operator(BinaryOperator::Power),
        Symbol::LeftParenthesis => Continuation::Arguments,
        Symbol::LeftBracket => Continuation::Index,
        Symbol::Dot => Continuation::Attribute,
        Symbol::Less | Symbol::Greater => Continuation::Comparison,
        Symbol::LessEqual | Symbol::GreaterEqual => Continuation::Comparison,
        Symbol::EqualEqual | Symbol::NotEqual => Continuation::Comparison,
        _ => Continuation::Nothing,
    }
}

// What a keyword does after an operand, in front of what stands at the place: a `not` does something where `in` stands
// there.
fn word_role(keyword: Keyword, tokens: &TokenRow, rest: usize) -> Continuation
    ensures { continuation_view result ≡ continuation_at (Word (keyword_of keyword) ∷ from tokens.now rest) }
{
    match keyword {
        Keyword::And => Continuation::Boolean(BooleanOperator::And),
        Keyword::Or => Continuation::Boolean(BooleanOperator::Or),
        Keyword::Is | Keyword::In => Continuation::Comparison,
        Keyword::If => Continuation::Condition,
        Keyword::Not => match after_word(tokens, rest, Keyword::In) {
            Some(_) => Continuation::Comparison,
            None => Continuation::Nothing,
        },
        _ => Continuation::Nothing,
    }
}

// What the token at the place does after an operand, and the place after it.
pub(crate) fn what_follows(tokens: &TokenRow, at: usize) -> (Continuation, usize)
    ensures role { continuation_view result.0 ≡ continuation_at (from tokens.now at) }
    ensures rest { from tokens.now result.1 ≡ rest_of (from tokens.now at) }
{
    let Some(token) = token_at(tokens, at) else {
        return (Continuation::Nothing, at);
    };
    match token.kind {
        TokenKind::Symbol(symbol) => (role_of(symbol), at + 1),
        TokenKind::Keyword(keyword) => (word_role(keyword, tokens, at + 1), at + 1),
        _ => (Continuation::Nothing, at + 1),
    }
}

// The level at which it still continues an expression, or 0.
pub(crate) fn strength(continuation: Continuation) -> u32
    ensures { result ≡ strength_of (continuation_view continuation) }
{
    match continuation {
        Continuation::Operator(operator) => left_level(operator),
        Continuation::Attribute | Continuation::Arguments | Continuation::Index => PRIMARY,
        Continuation::Comparison => 9,
        Continuation::Boolean(BooleanOperator::And) => 6,
        Continuation::Boolean(BooleanOperator::Or) => 4,
        Continuation::Condition => 2,
        Continuation::Nothing => 0,
    }
}

// The operator before an operand, where one stands at the place, and the place after it.
pub(crate) fn prefix_at(tokens: &TokenRow, at: usize) -> Option<(UnaryOperator, usize)>
    ensures operator { option_map (λ x. x.0) result ≡ prefix_at (from tokens.now at) }
    ensures rest { IfSome result (λ x. from tokens.now x.1 ≡ rest_of (from tokens.now at)) }
{
    let token = token_at(tokens, at)?;
    match token.kind {
        TokenKind::Symbol(Symbol::Plus) => Some((UnaryOperator::Plus, at + 1)),
        TokenKind::Symbol(Symbol::Minus) => Some((UnaryOperator::Minus, at + 1)),
        TokenKind::Symbol(Symbol::Tilde) => Some((UnaryOperator::Invert, at + 1)),
        TokenKind::Keyword(Keyword::Not) => Some((UnaryOperator::Not, at + 1)),
        _ => None,
    }
}

// The operator of a comparison that a symbol is.
fn comparison_symbol(symbol: Symbol) -> Option<ComparisonOperator>
    ensures { result ≡ comparison_symbol (symbol_of symbol) }
{
    match symbol {
        Symbol::Less => Some(ComparisonOperator::Less),
        Symbol::Greater => Some(ComparisonOperator::Greater),
        Symbol::LessEqual => Some(ComparisonOperator::LessEqual),
        Symbol::GreaterEqual => Some(ComparisonOperator::GreaterEqual),
        Symbol::EqualEqual => Some(ComparisonOperator::Equal),
        Symbol::NotEqual => Some(ComparisonOperator::NotEqual),
        _ => None,
    }
}

// The operator of a comparison, where one stands at the place, and the place after it.
pub(crate) fn comparison_at(tokens: &TokenRow, at: usize) -> Option<(ComparisonOperator, usize)>
    ensures { option_map (λ x. (x.0, from tokens.now x.1)) result ≡ comparison_at (from tokens.now at) }
{
    let token = token_at(tokens, at)?;
    match token.kind {
        TokenKind::Symbol(symbol) => {
            let operator = comparison_symbol(symbol)?;
            Some((operator, at + 1))
        }
        TokenKind::Keyword(Keyword::Is) => match after_word(tokens, at + 1, Keyword::Not) {
            Some(rest) => Some((ComparisonOperator::IsNot, rest)),
            None => Some((ComparisonOperator::Is, at + 1)),
        },
        TokenKind::Keyword(Keyword::In) => Some((ComparisonOperator::In, at + 1)),
        TokenKind::Keyword(Keyword::Not) => {
            let rest = after_word(tokens, at + 1, Keyword::In)?;
            Some((ComparisonOperator::NotIn, rest))
        }
        _ => None,
    }
}
