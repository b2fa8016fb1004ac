// Compound statements and their suites.

ghost use Rattle.std.specs.Prelude.{◌-◌, ◌<◌, map};
ghost use Rattle.si_syntax.specs.Trees.{stmt_of, branch_of};
ghost use Rattle.si_parse.specs.inner.Blocks.{indented_by, suite_by, branch_by, over_by, elifs_by, otherwise_by, if_by, while_by, for_by, define_by};
ghost use Rattle.si_parse.specs.inner.Lines.{compound_by, block_at};
ghost use Rattle.si_parse.specs.inner.Gives.{Gives, from, header_view};

use crate::expression::expression;
use crate::expressions::expressions;
use crate::fault::ParseFault;
use crate::fitted::fitted;
use crate::handler::try_statement;
use crate::lookahead::{
    Header, after, after_dedent, after_indent, after_newline, after_word, header_at, line_at,
};
use crate::name::{name, parameters};
use crate::precedence::EXPRESSION;
use crate::statement::line;
use crate::target::target;
use si_plain::limits::MAX_EXPRESSION_DEPTH;
use si_syntax::{Branch, Define, For, If, Stmt, While};
use si_token::{Keyword, Symbol, TokenRow};
use std::alloc::Global;

// Statements, and the place after them.
type Suite = Result<(Vec<Stmt>, usize), ParseFault>;

// The statements before with those of a line, or with a compound statement; so many of these are nested at most.
#[cycle(blocks)]
#[tactic(auto, using(crate::proofs::Steps::block_at_zero, crate::proofs::Steps::block_at_step))]
pub(crate) fn block(
    alloc: Global,
    nesting: u32,
    before: Vec<Stmt>,
    tokens: &TokenRow,
    at: usize,
) -> Suite
    requires { nesting < 1000 }
    ensures { Gives (λ x. (map stmt_of x.0.items, from tokens.now x.1)) result (block_at nesting (map stmt_of before.items) (from tokens.now at)) }
{
    if nesting == 0 {
        return line(alloc, before, tokens, at);
    }
    let Some((header, rest)) = header_at(tokens, at) else {
        return line(alloc, before, tokens, at);
    };
    let begin = line_at(tokens, at);
    let (statement, end) = compound(alloc, nesting - 1, header, begin, tokens, rest)?;
    let mut body = before;
    body.push(statement)?;
    Ok((body, end))
}

// The statement from after its word, which stands in the line.
#[cycle(blocks)]
fn compound(
    alloc: Global,
    parts: u32,
    header: Header,
    line: usize,
    tokens: &TokenRow,
    start: usize,
) -> Result<(Stmt, usize), ParseFault>
    requires { parts < 999 }
    ensures { Gives (λ x. (stmt_of x.0, from tokens.now x.1)) result (compound_by (block_at parts) (header_view header) (from tokens.now start)) }
{
    match header {
        Header::If => if_statement(alloc, parts, tokens, start),
        Header::While => while_statement(alloc, parts, tokens, start),
        Header::For => for_statement(alloc, parts, tokens, start),
        Header::Try => try_statement(alloc, parts, tokens, start),
        Header::Def => definition(alloc, parts, line, tokens, start),
    }
}

// The statement from after its `if`.
#[cycle(blocks)]
#[tactic(auto, using(si_syntax::proofs::Forms::if_is))]
fn if_statement(
    alloc: Global,
    parts: u32,
    tokens: &TokenRow,
    start: usize,
) -> Result<(Stmt, usize), ParseFault>
    requires { parts < 999 }
    ensures { Gives (λ x. (stmt_of x.0, from tokens.now x.1)) result (if_by (block_at parts) (from tokens.now start)) }
{
    let (first, rest) = branch(alloc, parts, tokens, start)?;
    let (elifs, at) = elifs(alloc, parts, tokens, rest)?;
    let (last, end) = otherwise(alloc, parts, tokens, at)?;
    let statement = Box::new(alloc, If { first, elifs, last })?;
    Ok((Stmt::If(statement), end))
}

// The statement from after its `while`.
#[cycle(blocks)]
fn while_statement(
    alloc: Global,
    parts: u32,
    tokens: &TokenRow,
    start: usize,
) -> Result<(Stmt, usize), ParseFault>
    requires { parts < 999 }
    ensures { Gives (λ x. (stmt_of x.0, from tokens.now x.1)) result (while_by (block_at parts) (from tokens.now start)) }
{
    let (first, at) = branch(alloc, parts, tokens, start)?;
    let Branch { test, body } = first;
    let (last, end) = otherwise(alloc, parts, tokens, at)?;
    let statement = Box::new(alloc, While { test, body, last })?;
    Ok((Stmt::While(statement), end))
}

// The statement from after its `for`.
#[cycle(blocks)]
fn for_statement(
    alloc: Global,
    parts: u32,
    tokens: &TokenRow,
    start: usize,
) -> Result<(Stmt, usize), ParseFault>
    requires { parts < 999 }
    ensures { Gives (λ x. (stmt_of x.0, from tokens.now x.1)) result (for_by (block_at parts) (from tokens.now start)) }
{
    let (target, rest) = target(alloc, tokens, start)?;
    let (first, at) = over(alloc, parts, tokens, rest)?;
    let Branch { test: items, body } = first;
    let (last, end) = otherwise(alloc, parts, tokens, at)?;
    let statement = For {
        target,
        items,
        body,
        last,
    };
    Ok((Stmt::For(Box::new(alloc, statement)?), end))
}

// The statement from after its `def`, which stands in the line.
#[cycle(blocks)]
fn definition(
    alloc: Global,
    parts: u32,
    line: usize,
    tokens: &TokenRow,
    start: usize,
) -> Result<(Stmt, usize), ParseFault>
    requires { parts < 999 }
    ensures { Gives (λ x. (stmt_of x.0, from tokens.now x.1)) result (define_by (block_at parts) (from tokens.now start)) }
{
    let (name, rest) = name(alloc, tokens, start)?;
    let Some(first) = after(tokens, rest, Symbol::LeftParenthesis) else {
        return Err(ParseFault::Syntax(line_at(tokens, rest)));
    };
    let (parameters, at) = parameters(alloc, tokens, first)?;
    let (body, end) = suite(alloc, parts, tokens, at)?;
    let statement = Define {
        line,
        name,
        parameters,
        body,
    };
    Ok((Stmt::Define(statement), end))
}

// A test and its suite, and the place after them.
#[cycle(blocks)]
fn branch(
    alloc: Global,
    parts: u32,
    tokens: &TokenRow,
    start: usize,
) -> Result<(Branch, usize), ParseFault>
    requires { parts < 999 }
    ensures { Gives (λ x. (branch_of x.0, from tokens.now x.1)) result (branch_by (block_at parts) (from tokens.now start)) }
{
    let (test, _, at) = expression(alloc, MAX_EXPRESSION_DEPTH, EXPRESSION, tokens, start)?;
    let (body, end) = suite(alloc, parts, tokens, at)?;
    Ok((Branch { test, body }, end))
}

// What a `for` goes over and its suite, and the place after them.
#[cycle(blocks)]
fn over(
    alloc: Global,
    parts: u32,
    tokens: &TokenRow,
    start: usize,
) -> Result<(Branch, usize), ParseFault>
    requires { parts < 999 }
    ensures { Gives (λ x. (branch_of x.0, from tokens.now x.1)) result (over_by (block_at parts) (from tokens.now start)) }
{
    let (test, _, at) = expressions(alloc, EXPRESSION, tokens, start)?;
    let (body, end) = suite(alloc, parts, tokens, at)?;
    Ok((Branch { test, body }, end))
}

// The test and the suite of each `elif`, and the place after them.
#[cycle(blocks)]
#[tactic(auto, using(crate::proofs::Steps::many_by_zero, crate::proofs::Steps::many_by_step))]
fn elifs(
    alloc: Global,
    parts: u32,
    tokens: &TokenRow,
    start: usize,
) -> Result<(Vec<Branch>, usize), ParseFault>
    requires { parts < 999 }
    ensures { Gives (λ x. (map branch_of x.0.items, from tokens.now x.1)) result (elifs_by (block_at parts) (from tokens.now start)) }
{
    let mut elifs = Vec::new(alloc);
    let mut at = start;
    for _turn in start..tokens.len() {
        let Some(rest) = after_word(tokens, at, Keyword::Elif) else {
            return Ok((fitted(elifs), at));
        };
        let (next, end) = branch(alloc, parts, tokens, rest)?;
        elifs.push(next)?;
        at = end;
    }
    Err(ParseFault::Syntax(line_at(tokens, at)))
}

// The suite of an `else`, where one stands at the place.
#[cycle(blocks)]
pub(crate) fn otherwise(alloc: Global, parts: u32, tokens: &TokenRow, at: usize) -> Suite
    requires { parts < 999 }
    ensures { Gives (λ x. (map stmt_of x.0.items, from tokens.now x.1)) result (otherwise_by (block_at parts) (from tokens.now at)) }
{
    match after_word(tokens, at, Keyword::Else) {
        Some(rest) => suite(alloc, parts, tokens, rest),
        None => Ok((Vec::new(alloc), at)),
    }
}

// A colon with a line after it, or with indented lines.
#[cycle(blocks)]
pub(crate) fn suite(alloc: Global, parts: u32, tokens: &TokenRow, at: usize) -> Suite
    requires { parts < 999 }
    ensures { Gives (λ x. (map stmt_of x.0.items, from tokens.now x.1)) result (suite_by (block_at parts) (from tokens.now at)) }
{
    let Some(rest) = after(tokens, at, Symbol::Colon) else {
        return Err(ParseFault::Syntax(line_at(tokens, at)));
    };
    let Some(next) = after_newline(tokens, rest) else {
        let (body, end) = line(alloc, Vec::new(alloc), tokens, rest)?;
        return Ok((fitted(body), end));
    };
    match after_indent(tokens, next) {
        Some(first) => indented(alloc, parts, tokens, first),
        None => Err(ParseFault::Syntax(line_at(tokens, next))),
    }
}

// The lines from after an indent up to the dedent, of which there is one at least.
#[cycle(blocks)]
#[tactic(auto, using(crate::proofs::Steps::many_by_zero, crate::proofs::Steps::many_by_step))]
fn indented(alloc: Global, parts: u32, tokens: &TokenRow, start: usize) -> Suite
    requires { parts < 999 }
    ensures { Gives (λ x. (map stmt_of x.0.items, from tokens.now x.1)) result (indented_by (block_at parts) (from tokens.now start)) }
{
    if after_dedent(tokens, start).is_some() {
        return Err(ParseFault::Syntax(line_at(tokens, start)));
    }
    let mut body = Vec::new(alloc);
    let mut at = start;
    for _turn in start..tokens.len() {
        if let Some(end) = after_dedent(tokens, at) {
            return Ok((fitted(body), end));
        }
        let (longer, rest) = block(alloc, parts, body, tokens, at)?;
        body = longer;
        at = rest;
    }
    Err(ParseFault::Syntax(line_at(tokens, at)))
}
