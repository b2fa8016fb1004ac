// Arguments of calls: by place or by name.

ghost use Rattle.std.specs.Prelude.{◌≡◌, [], map, option_map, string_bytes};
ghost use Rattle.si_syntax.specs.Trees.{expr_of};
ghost use Rattle.si_parse.specs.inner.Expressions.{named_at, passed_from};
ghost use Rattle.si_parse.specs.inner.Gives.{Gives, from, argument_of};

use crate::fault::ParseFault;
use crate::fitted::fitted;
use crate::lookahead::{after, token_at};
use si_plain::Names;
use si_syntax::Expr;
use si_token::{Symbol, TokenKind, TokenRow};
use std::alloc::Global;

// An argument of a call.
#[derive(Drop)]
pub(crate) enum Argument {
    Positional(Expr),
    // the name by which it is passed
    ByName(String, Expr),
}

// The name by which an argument is passed, where one with an `=` after it stands at the place, and the place after
// both.
pub(crate) fn named_at<'a>(tokens: &TokenRow<'a>, at: usize) -> Option<(&'a str, usize)>
    ensures { option_map (λ x. (x.0.now, from tokens.now x.1)) result ≡ named_at (from tokens.now at) }
{
    let token = token_at(tokens, at)?;
    match token.kind {
        TokenKind::Name => {
            let rest = after(tokens, at + 1, Symbol::Equal)?;
            Some((token.text, rest))
        }
        _ => None,
    }
}

// The expressions of arguments, and the names of those that are passed by name. These stand after the others, and no
// name comes twice; the line is that of the fault where it is not so.
pub(crate) fn passed(
    alloc: Global,
    arguments: Vec<Argument>,
    line: usize,
) -> Result<(Vec<Expr>, Vec<String>), ParseFault>
    ensures { Gives (λ x. (map expr_of x.0.items, map string_bytes x.1.items)) result (passed_from ([], []) (map argument_of arguments.items)) }
{
    let mut values = Vec::with_capacity(alloc, arguments.len())?;
    let mut names = Vec::new(alloc);
    let mut seen = Names::new(alloc);
    for argument in arguments {
        match argument {
            Argument::Positional(value) => {
                if !names.is_empty() {
                    return Err(ParseFault::Syntax(line));
                }
                values.push(value)?;
            }
            Argument::ByName(name, value) => {
                if seen.position(name.as_str()).is_some() {
                    return Err(ParseFault::Syntax(line));
                }
                seen.slot_of(name.as_str())?;
                names.push(name)?;
                values.push(value)?;
            }
        }
    }
    Ok((values, fitted(names)))
}
