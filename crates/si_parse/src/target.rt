// Targets.

ghost use Rattle.std.specs.Prelude.{map};
ghost use Rattle.si_semantics.specs.Grammar as grammar;
ghost use Rattle.si_semantics.specs.Grammar.{exprs_of};
ghost use Rattle.si_syntax.specs.Trees.{expr_of, target_of, targets_of};
ghost use Rattle.si_parse.specs.inner.Targets.{target_by};
ghost use Rattle.si_parse.specs.inner.Gives.{Gives, from};

use crate::expressions::expressions;
use crate::fault::ParseFault;
use crate::lookahead::{after_word, line_at};
use crate::precedence::FACTOR;
use si_syntax::{Expr, Item, Target};
use si_token::{Keyword, TokenRow};
use std::alloc::Global;

// The target that an expression is; the line is that of the fault where it is none.
#[cycle(targets)]
pub(crate) fn as_target(alloc: Global, expr: Expr, line: usize) -> Result<Target, ParseFault>
    ensures { Gives target_of result (grammar.target_of (expr_of expr)) }
{
    match expr {
        Expr::Name(name) => Ok(Target::Named(name)),
        Expr::Subscript(object, index) => Ok(Target::Item(Item { object, index })),
        Expr::Tuple(items) => unpacked(alloc, items, line),
        Expr::ListDisplay(items) => unpacked(alloc, items, line),
        _ => Err(ParseFault::Syntax(line)),
    }
}

// The target that the items of a tuple or a list are, where there is one at least.
#[cycle(targets)]
fn unpacked(alloc: Global, items: Vec<Expr>, line: usize) -> Result<Target, ParseFault>
    ensures { Gives target_of result (grammar.unpack_of (grammar.targets_of (exprs_of (map expr_of items.items)))) }
{
    let targets = as_targets(alloc, items, line)?;
    if targets.is_empty() {
        return Err(ParseFault::Syntax(line));
    }
    Ok(Target::Unpack(targets))
}

// The targets that expressions in a row are.
#[cycle(targets)]
fn as_targets(alloc: Global, exprs: Vec<Expr>, line: usize) -> Result<Vec<Target>, ParseFault>
    ensures { Gives (λ ts. targets_of ts.items) result (grammar.targets_of (exprs_of (map expr_of exprs.items))) }
{
    let mut targets = Vec::new(alloc);
    for expr in exprs {
        let target = as_target(alloc, expr, line)?;
        targets.push(target)?;
    }
    Ok(targets)
}

// The targets of a `for`, and the place after the `in`. A target is of every level: it is asked for at one at which no
// operator but `**` is read.
pub(crate) fn target(
    alloc: Global,
    tokens: &TokenRow,
    start: usize,
) -> Result<(Target, usize), ParseFault>
    ensures { Gives (λ x. (target_of x.0, from tokens.now x.1)) result (target_by (from tokens.now start)) }
{
    let (first, _, at) = expressions(alloc, FACTOR, tokens, start)?;
    let target = as_target(alloc, first, line_at(tokens, start))?;
    match after_word(tokens, at, Keyword::In) {
        Some(rest) => Ok((target, rest)),
        None => Err(ParseFault::Syntax(line_at(tokens, at))),
    }
}
