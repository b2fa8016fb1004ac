// `try` statements: their except clauses, and the suites of `else` and `finally`.

ghost use Rattle.std.specs.Prelude.{◌-◌, ◌<◌, map, option_map, string_bytes};
ghost use Rattle.si_syntax.specs.Trees.{expr_of, stmt_of, clause_of};
ghost use Rattle.si_parse.specs.inner.Handlers.{caught_by, clause_by, catches_by, bare_by, handlers_by, try_by};
ghost use Rattle.si_parse.specs.inner.Lines.{block_at};
ghost use Rattle.si_parse.specs.inner.Gives.{Gives, from};

use crate::block::{otherwise, suite};
use crate::expression::expression;
use crate::fault::ParseFault;
use crate::fitted::fitted;
use crate::lookahead::{after_catch, after_word, line_at};
use crate::name::name;
use crate::precedence::EXPRESSION;
use si_plain::limits::MAX_EXPRESSION_DEPTH;
use si_syntax::{Clause, Expr, Finally, Stmt, Try};
use si_token::{Keyword, TokenRow};
use std::alloc::Global;

// Except clauses, and the place after them.
type Clauses = Result<(Vec<Clause>, usize), ParseFault>;

// The statement from after its `try`.
#[cycle(blocks)]
#[tactic(auto, using(crate::proofs::Turns::tried_none))]
pub(crate) fn try_statement(
    alloc: Global,
    parts: u32,
    tokens: &TokenRow,
    start: usize,
) -> Result<(Stmt, usize), ParseFault>
    requires { parts < 999 }
    ensures { Gives (λ x. (stmt_of x.0, from tokens.now x.1)) result (try_by (block_at parts) (from tokens.now start)) }
{
    let (body, rest) = suite(alloc, parts, tokens, start)?;
    let (clauses, last, at) = handlers(alloc, parts, tokens, rest)?;
    if let Some(cleanup) = after_word(tokens, at, Keyword::Finally) {
        let (cleanup, end) = suite(alloc, parts, tokens, cleanup)?;
        let tried = Try {
            body,
            clauses,
            last,
        };
        let statement = Finally {
            tried,
            end: cleanup,
        };
        return Ok((Stmt::Finally(Box::new(alloc, statement)?), end));
    }
    if clauses.is_empty() {
        return Err(ParseFault::Syntax(line_at(tokens, at)));
    }
    let statement = Try {
        body,
        clauses,
        last,
    };
    Ok((Stmt::Try(statement), at))
}

// The except clauses, the suite of the `else` after them, and the place after it. Without a clause no `else` is read.
#[cycle(blocks)]
#[tactic(auto, using(crate::proofs::Turns::handled_some, crate::proofs::Turns::handled_none))]
fn handlers(
    alloc: Global,
    parts: u32,
    tokens: &TokenRow,
    start: usize,
) -> Result<(Vec<Clause>, Vec<Stmt>, usize), ParseFault>
    requires { parts < 999 }
    ensures { Gives (λ x. ((map clause_of x.0.items, map stmt_of x.1.items), from tokens.now x.2)) result (handlers_by (block_at parts) (from tokens.now start)) }
{
    let (caught, rest) = catches(alloc, parts, tokens, start)?;
    let (clauses, at) = bare(alloc, parts, caught, tokens, rest)?;
    if clauses.is_empty() {
        return Ok((clauses, Vec::new(alloc), at));
    }
    let (last, end) = otherwise(alloc, parts, tokens, at)?;
    Ok((clauses, last, end))
}

// The except clauses that have an expression.
#[cycle(blocks)]
#[tactic(auto, using(crate::proofs::Steps::many_by_zero, crate::proofs::Steps::many_by_step))]
fn catches(alloc: Global, parts: u32, tokens: &TokenRow, start: usize) -> Clauses
    requires { parts < 999 }
    ensures { Gives (λ x. (map clause_of x.0.items, from tokens.now x.1)) result (catches_by (block_at parts) (from tokens.now start)) }
{
    let mut clauses = Vec::new(alloc);
    let mut at = start;
    for _turn in start..tokens.len() {
        let Some(rest) = after_catch(tokens, at) else {
            return Ok((fitted(clauses), at));
        };
        let (next, end) = clause(alloc, parts, tokens, rest)?;
        clauses.push(next)?;
        at = end;
    }
    Err(ParseFault::Syntax(line_at(tokens, at)))
}

// The clauses with a bare one after them, where an `except` stands at the place.
#[cycle(blocks)]
fn bare(alloc: Global, parts: u32, before: Vec<Clause>, tokens: &TokenRow, at: usize) -> Clauses
    requires { parts < 999 }
    ensures { Gives (λ x. (map clause_of x.0.items, from tokens.now x.1)) result (bare_by (block_at parts) (map clause_of before.items) (from tokens.now at)) }
{
    let Some(rest) = after_word(tokens, at, Keyword::Except) else {
        return Ok((before, at));
    };
    let (body, end) = suite(alloc, parts, tokens, rest)?;
    let mut clauses = before;
    clauses.push(Clause {
        value: None,
        name: None,
        body,
    })?;
    Ok((clauses, end))
}

// An except clause from after its `except`, with an expression.
#[cycle(blocks)]
fn clause(
    alloc: Global,
    parts: u32,
    tokens: &TokenRow,
    start: usize,
) -> Result<(Clause, usize), ParseFault>
    requires { parts < 999 }
    ensures { Gives (λ x. (clause_of x.0, from tokens.now x.1)) result (clause_by (block_at parts) (from tokens.now start)) }
{
    let (value, name, at) = caught(alloc, tokens, start)?;
    let (body, end) = suite(alloc, parts, tokens, at)?;
    let clause = Clause {
        value: Some(value),
        name,
        body,
    };
    Ok((clause, end))
}

// The expression of an except clause, the name after its `as` where there is one, and the place after them.
fn caught(
    alloc: Global,
    tokens: &TokenRow,
    start: usize,
) -> Result<(Expr, Option<String>, usize), ParseFault>
    ensures { Gives (λ x. ((expr_of x.0, option_map string_bytes x.1), from tokens.now x.2)) result (caught_by (from tokens.now start)) }
{
    let (value, _, at) = expression(alloc, MAX_EXPRESSION_DEPTH, EXPRESSION, tokens, start)?;
    let Some(rest) = after_word(tokens, at, Keyword::As) else {
        return Ok((value, None, at));
    };
    let (name, end) = name(alloc, tokens, rest)?;
    Ok((value, Some(name), end))
}
