// Names that stand in a row: those of a `global`, and parameters.

ghost use Rattle.std.specs.Prelude.{map, string_bytes};
ghost use Rattle.si_parse.specs.inner.Names.{name_at, names_by, listed_by, parameters_by};
ghost use Rattle.si_parse.specs.inner.Gives.{Gives, from};

use crate::fault::ParseFault;
use crate::fitted::fitted;
use crate::lookahead::{after, after_items, line_at, token_at};
use si_plain::limits::MAX_PARAMETERS;
use si_token::{Symbol, TokenKind, TokenRow};
use std::alloc::Global;

// Names, and the place after them.
type Names = Result<(Vec<String>, usize), ParseFault>;

// The name that stands at the place, and the place after it.
pub(crate) fn name(
    alloc: Global,
    tokens: &TokenRow,
    at: usize,
) -> Result<(String, usize), ParseFault>
    ensures { Gives (λ x. (string_bytes x.0, from tokens.now x.1)) result (name_at (from tokens.now at)) }
{
    let Some(token) = token_at(tokens, at) else {
        return Err(ParseFault::Syntax(line_at(tokens, at)));
    };
    match token.kind {
        TokenKind::Name => Ok((String::from_str(alloc, token.text)?, at + 1)),
        _ => Err(ParseFault::Syntax(token.line())),
    }
}

// Names with commas between them, of which there is one at least.
#[tactic(auto, using(crate::proofs::Steps::many_by_zero, crate::proofs::Steps::many_by_step))]
pub(crate) fn names(alloc: Global, tokens: &TokenRow, start: usize) -> Names
    ensures { Gives (λ x. (map string_bytes x.0.items, from tokens.now x.1)) result (names_by (from tokens.now start)) }
{
    let (first, rest) = name(alloc, tokens, start)?;
    let mut names = Vec::new(alloc);
    names.push(first)?;
    let mut at = rest;
    for _turn in rest..tokens.len() {
        let Some(more) = after(tokens, at, Symbol::Comma) else {
            return Ok((fitted(names), at));
        };
        let (next, end) = name(alloc, tokens, more)?;
        names.push(next)?;
        at = end;
    }
    Err(ParseFault::Syntax(line_at(tokens, at)))
}

// The names after an open bracket, up to the closed one.
#[tactic(auto, using(crate::proofs::Steps::separated_by_zero))]
fn listed(alloc: Global, tokens: &TokenRow, start: usize) -> Names
    ensures { Gives (λ x. (map string_bytes x.0.items, from tokens.now x.1)) result (listed_by (from tokens.now start)) }
{
    if let Some(rest) = after(tokens, start, Symbol::RightParenthesis) {
        return Ok((Vec::new(alloc), rest));
    }
    let mut names = Vec::new(alloc);
    let mut at = start;
    for _turn in start..tokens.len() {
        let (next, rest) = name(alloc, tokens, at)?;
        names.push(next)?;
        if let Some(end) = after_items(tokens, rest, Symbol::RightParenthesis) {
            return Ok((names, end));
        }
        let Some(more) = after(tokens, rest, Symbol::Comma) else {
            return Err(ParseFault::Syntax(line_at(tokens, rest)));
        };
        at = more;
    }
    Err(ParseFault::Syntax(line_at(tokens, at)))
}

// The same, where there are no more than a function may have.
pub(crate) fn parameters(alloc: Global, tokens: &TokenRow, start: usize) -> Names
    ensures { Gives (λ x. (map string_bytes x.0.items, from tokens.now x.1)) result (parameters_by (from tokens.now start)) }
{
    let (names, end) = listed(alloc, tokens, start)?;
    if names.len() > MAX_PARAMETERS {
        return Err(ParseFault::Syntax(line_at(tokens, start)));
    }
    Ok((names, end))
}
