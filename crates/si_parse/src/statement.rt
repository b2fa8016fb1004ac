// Small statements, lines, and all lines of a text.

ghost use Rattle.std.specs.Prelude.{◌≡◌, ◌+◌, ◌-◌, map, option_map, IfSome};
ghost use Rattle.si_token.specs.Views.{symbol_of};
ghost use Rattle.si_semantics.specs.Grammar.{max_depth};
ghost use Rattle.si_syntax.specs.Trees.{expr_of, stmt_of};
ghost use Rattle.si_parse.specs.inner.Lookahead.{rest_of};
ghost use Rattle.si_parse.specs.inner.Expressions.{expression_at};
ghost use Rattle.si_parse.specs.inner.Statements.{assignment_symbol, assignment_at, word_statement, spelled_by, assigned_by, augmented_by, deleted_by, returned_by, raised_by, global_by, statement_by, line_by};
ghost use Rattle.si_parse.specs.inner.Lines.{is_end, module_by};
ghost use Rattle.si_parse.specs.inner.Gives.{Gives, from};

use crate::block::block;
use crate::expression::expression;
use crate::expressions::expressions;
use crate::fault::ParseFault;
use crate::fitted::fitted;
use crate::lookahead::{after, after_line, after_word, ends_small, import_at, line_at, token_at};
use crate::name::names;
use crate::precedence::{EXPRESSION, FACTOR};
use crate::target::as_target;
use si_plain::BinaryOperator;
use si_plain::limits::{MAX_EXPRESSION_DEPTH, MAX_NESTING};
use si_syntax::{Assign, Augment, AugmentItem, Expr, Item, Stmt};
use si_token::{Keyword, Symbol, TokenKind, TokenRow};
use std::alloc::Global;

// The assignment that a sign is: a plain one, or an augmented one with its operator.
fn assignment_symbol(symbol: Symbol) -> Option<Option<BinaryOperator>>
    ensures { result ≡ assignment_symbol (symbol_of symbol) }
{
    match symbol {
        Symbol::Equal => Some(None),
        Symbol::BarEqual => Some(Some(BinaryOperator::BitOr)),
        Symbol::CaretEqual => Some(Some(BinaryOperator::BitXor)),
        Symbol::AmpersandEqual => Some(Some(BinaryOperator::BitAnd)),
        Symbol::LeftShiftEqual => Some(Some(BinaryOperator::ShiftLeft)),
        Symbol::RightShiftEqual => Some(Some(BinaryOperator::ShiftRight)),
        Symbol::PlusEqual => Some(Some(BinaryOperator::Add)),
        Symbol::MinusEqual => Some(Some(BinaryOperator::Subtract)),
        Symbol::StarEqual => Some(Some(BinaryOperator::Multiply)),
        Symbol::DoubleSlashEqual => Some(Some(BinaryOperator::FloorDivide)),
        Symbol::PercentEqual => Some(Some(BinaryOperator::Modulo)),
        Symbol::DoubleStarEqual => Some(Some(BinaryOperator::Power)),
        _ => None,
    }
}

// The assignment whose sign stands at the place, and the place after it.
fn assignment_at(tokens: &TokenRow, at: usize) -> Option<(Option<BinaryOperator>, usize)>
    ensures { option_map (λ x. (x.0, from tokens.now x.1)) result ≡ assignment_at (from tokens.now at) }
{
    let token = token_at(tokens, at)?;
    match token.kind {
        TokenKind::Symbol(symbol) => {
            let operator = assignment_symbol(symbol)?;
            Some((operator, at + 1))
        }
        _ => None,
    }
}

// The statement that is one word, where it stands at the place, and the place after it.
fn word_statement(tokens: &TokenRow, at: usize) -> Option<(Stmt, usize)>
    ensures statement { option_map (λ x. stmt_of x.0) result ≡ word_statement (from tokens.now at) }
    ensures rest { IfSome result (λ x. from tokens.now x.1 ≡ rest_of (from tokens.now at)) }
{
    let token = token_at(tokens, at)?;
    match token.kind {
        TokenKind::Keyword(Keyword::Pass) => Some((Stmt::Pass, at + 1)),
        TokenKind::Keyword(Keyword::Break) => Some((Stmt::Break(token.line()), at + 1)),
        TokenKind::Keyword(Keyword::Continue) => Some((Stmt::Continue(token.line()), at + 1)),
        _ => None,
    }
}

// An expression or an assignment, and the place after it.
fn spelled(alloc: Global, tokens: &TokenRow, start: usize) -> Result<(Stmt, usize), ParseFault>
    ensures { Gives (λ x. (stmt_of x.0, from tokens.now x.1)) result (spelled_by (expression_at max_depth) (from tokens.now start)) }
{
    let (first, _, at) = expressions(alloc, EXPRESSION, tokens, start)?;
    match assignment_at(tokens, at) {
        None => Ok((Stmt::Evaluate(first), at)),
        Some((None, _)) => assigned(alloc, first, tokens, at),
        Some((Some(operator), rest)) => augmented(alloc, first, operator, tokens, rest),
    }
}

// The assignment to an expression, from the place of its `=`, and the place after it.
#[tactic(auto, using(crate::proofs::Steps::many_by_zero, crate::proofs::Steps::many_by_step))]
fn assigned(
    alloc: Global,
    first: Expr,
    tokens: &TokenRow,
    start: usize,
) -> Result<(Stmt, usize), ParseFault>
    ensures { Gives (λ x. (stmt_of x.0, from tokens.now x.1)) result (assigned_by (expression_at max_depth) (expr_of first) (from tokens.now start)) }
{
    let mut targets = Vec::with_capacity(alloc, 1)?;
    let mut value = first;
    let mut at = start;
    for _turn in start..tokens.len() {
        let Some(rest) = after(tokens, at, Symbol::Equal) else {
            let targets = fitted(targets);
            return Ok((Stmt::Assign(Assign { targets, value }), at));
        };
        let target = as_target(alloc, value, line_at(tokens, at))?;
        let (next, _, end) = expressions(alloc, EXPRESSION, tokens, rest)?;
        targets.push(target)?;
        value = next;
        at = end;
    }
    Err(ParseFault::Syntax(line_at(tokens, at)))
}

// The augmented assignment to an expression, from after its sign, and the place after it.
fn augmented(
    alloc: Global,
    target: Expr,
    operator: BinaryOperator,
    tokens: &TokenRow,
    start: usize,
) -> Result<(Stmt, usize), ParseFault>
    ensures { Gives (λ x. (stmt_of x.0, from tokens.now x.1)) result (augmented_by (expression_at max_depth) (expr_of target) operator (from tokens.now start)) }
{
    let (value, _, end) = expressions(alloc, EXPRESSION, tokens, start)?;
    match target {
        Expr::Name(name) => {
            let statement = Augment {
                name,
                operator,
                value,
            };
            Ok((Stmt::Augment(statement), end))
        }
        Expr::Subscript(object, index) => {
            let statement = AugmentItem {
                item: Item { object, index },
                operator,
                value,
            };
            Ok((Stmt::AugmentItem(statement), end))
        }
        _ => Err(ParseFault::Syntax(line_at(tokens, start))),
    }
}

// The statement from after its `del`.
fn deleted(alloc: Global, tokens: &TokenRow, start: usize) -> Result<(Stmt, usize), ParseFault>
    ensures { Gives (λ x. (stmt_of x.0, from tokens.now x.1)) result (deleted_by (expression_at max_depth) (from tokens.now start)) }
{
    let (target, _, end) = expression(alloc, MAX_EXPRESSION_DEPTH, FACTOR, tokens, start)?;
    match target {
        Expr::Subscript(object, index) => Ok((Stmt::Delete(Item { object, index }), end)),
        _ => Err(ParseFault::Syntax(line_at(tokens, start))),
    }
}

// The statement from after its `return`, which stands in the line.
fn returned(
    alloc: Global,
    line: usize,
    tokens: &TokenRow,
    at: usize,
) -> Result<(Stmt, usize), ParseFault>
    ensures { Gives (λ x. (stmt_of x.0, from tokens.now x.1)) result (returned_by (expression_at max_depth) (from tokens.now at)) }
{
    if ends_small(tokens, at) {
        return Ok((Stmt::Return(line, None), at));
    }
    let (value, _, end) = expressions(alloc, EXPRESSION, tokens, at)?;
    Ok((Stmt::Return(line, Some(value)), end))
}

// The statement from after its `raise`.
fn raised(alloc: Global, tokens: &TokenRow, at: usize) -> Result<(Stmt, usize), ParseFault>
    ensures { Gives (λ x. (stmt_of x.0, from tokens.now x.1)) result (raised_by (expression_at max_depth) (from tokens.now at)) }
{
    if ends_small(tokens, at) {
        return Ok((Stmt::Raise(None), at));
    }
    let (value, _, end) = expression(alloc, MAX_EXPRESSION_DEPTH, EXPRESSION, tokens, at)?;
    Ok((Stmt::Raise(Some(value)), end))
}

// The statement from after its `global`, which stands in the line.
fn global(
    alloc: Global,
    line: usize,
    tokens: &TokenRow,
    at: usize,
) -> Result<(Stmt, usize), ParseFault>
    ensures { Gives (λ x. (stmt_of x.0, from tokens.now x.1)) result (global_by (from tokens.now at)) }
{
    let (names, end) = names(alloc, tokens, at)?;
    Ok((Stmt::Global(line, names), end))
}

// A small statement, and the place after it.
fn statement(alloc: Global, tokens: &TokenRow, start: usize) -> Result<(Stmt, usize), ParseFault>
    ensures { Gives (λ x. (stmt_of x.0, from tokens.now x.1)) result (statement_by (expression_at max_depth) (from tokens.now start)) }
{
    if let Some((word, rest)) = word_statement(tokens, start) {
        return Ok((word, rest));
    }
    if let Some((module, rest)) = import_at(tokens, start) {
        return Ok((Stmt::Import(line_at(tokens, start), module), rest));
    }
    if let Some(rest) = after_word(tokens, start, Keyword::Return) {
        return returned(alloc, line_at(tokens, start), tokens, rest);
    }
    if let Some(rest) = after_word(tokens, start, Keyword::Global) {
        return global(alloc, line_at(tokens, start), tokens, rest);
    }
    if let Some(rest) = after_word(tokens, start, Keyword::Raise) {
        return raised(alloc, tokens, rest);
    }
    if let Some(rest) = after_word(tokens, start, Keyword::Del) {
        return deleted(alloc, tokens, rest);
    }
    spelled(alloc, tokens, start)
}

// The statements before with those of a line, and the place after it.
#[tactic(auto, using(crate::proofs::Steps::separated_by_zero))]
pub(crate) fn line(
    alloc: Global,
    before: Vec<Stmt>,
    tokens: &TokenRow,
    start: usize,
) -> Result<(Vec<Stmt>, usize), ParseFault>
    ensures { Gives (λ x. (map stmt_of x.0.items, from tokens.now x.1)) result (line_by (expression_at max_depth) (map stmt_of before.items) (from tokens.now start)) }
{
    let mut body = before;
    let mut at = start;
    for _turn in start..tokens.len() {
        let (next, rest) = statement(alloc, tokens, at)?;
        body.push(next)?;
        if let Some(end) = after_line(tokens, rest) {
            return Ok((body, end));
        }
        let Some(more) = after(tokens, rest, Symbol::Semicolon) else {
            return Err(ParseFault::Syntax(line_at(tokens, rest)));
        };
        at = more;
    }
    Err(ParseFault::Syntax(line_at(tokens, at)))
}

// Whether the token at the place is the last one, the end of the text.
fn is_end(tokens: &TokenRow, at: usize) -> bool
    ensures { result ≡ is_end (from tokens.now at) }
{
    let Some(token) = token_at(tokens, at) else {
        return false;
    };
    match token.kind {
        TokenKind::End => match token_at(tokens, at + 1) {
            None => true,
            Some(_) => false,
        },
        _ => false,
    }
}

// The statements of all lines.
#[tactic(auto, using(crate::proofs::Steps::many_by_zero, crate::proofs::Steps::many_by_step))]
pub(crate) fn statements(alloc: Global, tokens: &TokenRow) -> Result<Vec<Stmt>, ParseFault>
    ensures { Gives (λ body. map stmt_of body.items) result (option_map (λ r. r.0) (module_by (from tokens.now 0))) }
{
    let mut body = Vec::new(alloc);
    let mut at = 0;
    for _turn in 0..tokens.len() {
        if is_end(tokens, at) {
            return Ok(body);
        }
        let (longer, rest) = block(alloc, MAX_NESTING, body, tokens, at)?;
        body = longer;
        at = rest;
    }
    Err(ParseFault::Syntax(line_at(tokens, at)))
}
