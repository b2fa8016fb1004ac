// An expression, or a tuple round which no brackets stand.

ghost use Rattle.std.specs.Prelude.{◌-◌, ◌+◌, ◌≤◌, [], ◌∷◌, map, IfOk};
ghost use Rattle.si_semantics.specs.Grammar.{max_depth};
ghost use Rattle.si_syntax.specs.Trees.{expr_of};
ghost use Rattle.si_parse.specs.inner.Expressions.{expression_at};
ghost use Rattle.si_parse.specs.inner.Unbracketed.{expressions_by, further_by};
ghost use Rattle.si_parse.specs.inner.Gives.{Gives, from};

use crate::expression::{Read, expression, within};
use crate::fault::ParseFault;
use crate::fitted::fitted;
use crate::lookahead::{after, after_comma, line_at, past_comma};
use si_plain::limits::MAX_EXPRESSION_DEPTH;
use si_syntax::Expr;
use si_token::{Symbol, TokenRow};
use std::alloc::Global;

// An expression of a level, or the tuple that it begins where a comma follows.
pub(crate) fn expressions(alloc: Global, level: u32, tokens: &TokenRow, start: usize) -> Read
    ensures { Gives (λ x. (expr_of x.0, x.1, from tokens.now x.2)) result (expressions_by (expression_at max_depth) level (from tokens.now start)) }
{
    let (first, depth, at) = expression(alloc, MAX_EXPRESSION_DEPTH, level, tokens, start)?;
    if after(tokens, at, Symbol::Comma).is_none() {
        return Ok((first, depth, at));
    }
    let (items, greatest, end) = further(alloc, level, first, depth, tokens, at)?;
    let tree = Expr::Tuple(items);
    within(
        MAX_EXPRESSION_DEPTH,
        tree,
        greatest + 1,
        tokens,
        past_comma(tokens, end),
    )
}

// The item with those after it, each after its comma, and the greatest depth among them.
#[tactic(auto, using(crate::proofs::Steps::chain_by_zero))]
fn further(
    alloc: Global,
    level: u32,
    first: Expr,
    first_depth: u32,
    tokens: &TokenRow,
    start: usize,
) -> Result<(Vec<Expr>, u32, usize), ParseFault>
    requires { first_depth ≤ max_depth }
    ensures reads { Gives (λ x. ((map expr_of x.0.items, x.1), from tokens.now x.2)) result (further_by (expression_at max_depth) level (expr_of first ∷ [], first_depth) (from tokens.now start)) }
    ensures shallow { IfOk result (λ x. x.1 ≤ max_depth) }
{
    let mut items = Vec::new(alloc);
    items.push(first)?;
    let mut depth = first_depth;
    let mut at = start;
    for _turn in start..tokens.len() {
        let Some(rest) = after_comma(tokens, at) else {
            return Ok((fitted(items), depth, at));
        };
        let (next, next_depth, end) = expression(alloc, MAX_EXPRESSION_DEPTH, level, tokens, rest)?;
        items.push(next)?;
        depth = depth.max(next_depth);
        at = end;
    }
    Err(ParseFault::Syntax(line_at(tokens, at)))
}
