// Expressions, by precedence climbing with one token of look-ahead.

ghost use Rattle.std.specs.Prelude.{◌≡◌, ◌+◌, ◌-◌, ◌<◌, ◌≤◌, [], map, string_bytes, IfOk};
ghost use Rattle.si_token.specs.Views.{symbol_of};
ghost use Rattle.si_syntax.specs.Trees.{expr_of, link_of};
ghost use Rattle.si_parse.specs.inner.Lookahead.{rest_of};
ghost use Rattle.si_parse.specs.inner.Expressions.{within, strings_by, str_by, is_singleton, compared_by, operand_by, atom_by, unary_by, items_by, bracketed_by, list_by, dict_by, pair_by, pairs_by, continued_by, binary_by, attribute_by, call_of, call_by, subscript_by, compare_by, boolean_by, conditional_by, extended_by, argument_by, arguments_by, operands_by, links_by, expression_at};
ghost use Rattle.si_parse.specs.inner.Gives.{Gives, from, continuation_view, argument_of};

use crate::argument::{Argument, named_at, passed};
use crate::fault::ParseFault;
use crate::fitted::fitted;
use crate::literal::str_value;
use crate::lookahead::{after, after_boolean, after_items, after_word, line_at, token_at};
use crate::name::name;
use crate::octets::bytes_at;
use crate::precedence::{
    BIT_OR, Continuation, DISJUNCTION, EXPRESSION, comparison_at, item_level, prefix_at,
    prefix_level, right_level, strength, what_follows,
};
use si_plain::limits::MAX_STR_LENGTH;
use si_plain::{BinaryOperator, BooleanOperator, ComparisonOperator, Octets, Text, UnaryOperator};
use si_syntax::{CallNames, Expr};
use si_token::{Keyword, Symbol, TokenKind, TokenRow, int_value};
use std::alloc::{AllocError, Global};

// An expression with its depth, and the place after it.
pub(crate) type Read = Result<(Expr, u32, usize), ParseFault>;

// The tree, where it is no deeper than the limit.
pub(crate) fn within(limit: u32, tree: Expr, depth: u32, tokens: &TokenRow, at: usize) -> Read
    ensures reads { Gives (λ x. (expr_of x.0, x.1, from tokens.now x.2)) result (within limit (expr_of tree) depth (from tokens.now at)) }
    ensures shallow { IfOk result (λ x. x.1 ≤ limit) }
{
    if depth <= limit {
        Ok((tree, depth, at))
    } else {
        Err(ParseFault::Syntax(line_at(tokens, at)))
    }
}

// The value of the str literals from the place on, and the place after them.
fn strings(alloc: Global, tokens: &TokenRow, at: usize) -> Result<(Text, usize), ParseFault>
    ensures { Gives (λ x. (x.0, from tokens.now x.1)) result (strings_by [] (from tokens.now at)) }
{
    let mut text = Text::new(alloc);
    for place in at..tokens.len() {
        let Some(token) = token_at(tokens, place) else {
            return Ok((text, place));
        };
        let TokenKind::Str = token.kind else {
            return Ok((text, place));
        };
        let value = str_value(alloc, token.text, token.line())?;
        text.append(&value)?;
    }
    Ok((text, tokens.len()))
}

// The same, no longer than a str may be.
fn str_at(alloc: Global, tokens: &TokenRow, at: usize) -> Result<(Text, usize), ParseFault>
    ensures { Gives (λ x. (x.0, from tokens.now x.1)) result (str_by (from tokens.now at)) }
{
    let (text, end) = strings(alloc, tokens, at)?;
    if text.len() > MAX_STR_LENGTH {
        return Err(ParseFault::Syntax(line_at(tokens, at)));
    }
    Ok((text, end))
}

// An expression of a level, no deeper than the budget.
#[cycle(expressions)]
#[tactic(auto, using(crate::proofs::Steps::expression_at_zero, crate::proofs::Steps::expression_at_step))]
pub(crate) fn expression(
    alloc: Global,
    budget: u32,
    level: u32,
    tokens: &TokenRow,
    at: usize,
) -> Read
    requires { budget < 1000 }
    ensures reads { Gives (λ x. (expr_of x.0, x.1, from tokens.now x.2)) result (expression_at budget level (from tokens.now at)) }
    ensures shallow { IfOk result (λ x. x.1 ≤ budget) }
{
    if budget == 0 {
        return Err(ParseFault::Syntax(line_at(tokens, at)));
    }
    let (left, depth, at) = operand(alloc, budget - 1, level, tokens, at)?;
    continued(alloc, budget - 1, level, left, depth, tokens, at)
}

// An operator before its operand, or an operand without one.
#[cycle(expressions)]
fn operand(alloc: Global, parts: u32, level: u32, tokens: &TokenRow, at: usize) -> Read
    requires { parts < 999 }
    ensures reads { Gives (λ x. (expr_of x.0, x.1, from tokens.now x.2)) result (operand_by (expression_at parts) level (from tokens.now at)) }
    ensures shallow { IfOk result (λ x. x.1 ≤ parts + 1) }
{
    match prefix_at(tokens, at) {
        Some((operator, rest)) => unary(alloc, parts, level, operator, tokens, rest),
        None => atom(alloc, parts, tokens, at),
    }
}

// A name, a literal, a word that is one, or what stands in brackets.
#[cycle(expressions)]
fn atom(alloc: Global, parts: u32, tokens: &TokenRow, at: usize) -> Read
    requires { parts < 999 }
    ensures reads { Gives (λ x. (expr_of x.0, x.1, from tokens.now x.2)) result (atom_by (expression_at parts) (from tokens.now at)) }
    ensures shallow { IfOk result (λ x. x.1 ≤ parts + 1) }
{
    let Some(token) = token_at(tokens, at) else {
        return Err(ParseFault::Syntax(line_at(tokens, at)));
    };
    match token.kind {
        TokenKind::Name => Ok((Expr::Name(String::from_str(alloc, token.text)?), 1, at + 1)),
        TokenKind::Int => match int_value(token.text.as_bytes()) {
            Some(value) => Ok((Expr::Int(value), 1, at + 1)),
            None => Err(ParseFault::Syntax(token.line())),
        },
        TokenKind::Str => {
            let (text, at) = str_at(alloc, tokens, at)?;
            Ok((Expr::Str(text), 1, at))
        }
        TokenKind::Bytes => {
            let (bytes, at) = bytes_at(alloc, tokens, at)?;
            Ok((Expr::Bytes(Octets::new(alloc, bytes)?), 1, at))
        }
        TokenKind::Keyword(Keyword::None) => Ok((Expr::Nothing, 1, at + 1)),
        TokenKind::Keyword(Keyword::True) => Ok((Expr::Truth(true), 1, at + 1)),
        TokenKind::Keyword(Keyword::False) => Ok((Expr::Truth(false), 1, at + 1)),
        TokenKind::Symbol(Symbol::LeftParenthesis) => bracketed(alloc, parts, tokens, at + 1),
        TokenKind::Symbol(Symbol::LeftBracket) => list(alloc, parts, tokens, at + 1),
        TokenKind::Symbol(Symbol::LeftBrace) => dict(alloc, parts, tokens, at + 1),
        _ => Err(ParseFault::Syntax(token.line())),
    }
}

// The operator with its operand, which begins at the place, where an expression of the level may stand.
#[cycle(expressions)]
fn unary(
    alloc: Global,
    parts: u32,
    level: u32,
    operator: UnaryOperator,
    tokens: &TokenRow,
    at: usize,
) -> Read
    requires { parts < 999 }
    ensures reads { Gives (λ x. (expr_of x.0, x.1, from tokens.now x.2)) result (unary_by (expression_at parts) level operator (from tokens.now at)) }
    ensures shallow { IfOk result (λ x. x.1 ≤ parts + 1) }
{
    if prefix_level(operator) < level {
        return Err(ParseFault::Syntax(line_at(tokens, at)));
    }
    let (inner, depth, at) = expression(alloc, parts, prefix_level(operator), tokens, at)?;
    Ok((
        Expr::Unary(operator, Box::new(alloc, inner)?),
        depth + 1,
        at,
    ))
}

// The expression or the tuple after an open round bracket, up to the closed one.
#[cycle(expressions)]
fn bracketed(alloc: Global, parts: u32, tokens: &TokenRow, at: usize) -> Read
    requires { parts < 999 }
    ensures reads { Gives (λ x. (expr_of x.0, x.1, from tokens.now x.2)) result (bracketed_by (expression_at parts) (from tokens.now at)) }
    ensures shallow { IfOk result (λ x. x.1 ≤ parts + 1) }
{
    if let Some(rest) = after(tokens, at, Symbol::RightParenthesis) {
        return Ok((Expr::Tuple(Vec::new(alloc)), 1, rest));
    }
    let (first, depth, at) = expression(alloc, parts, EXPRESSION, tokens, at)?;
    if let Some(rest) = after(tokens, at, Symbol::RightParenthesis) {
        return Ok((first, depth + 1, rest));
    }
    let Some(rest) = after(tokens, at, Symbol::Comma) else {
        return Err(ParseFault::Syntax(line_at(tokens, at)));
    };
    let mut before = Vec::new(alloc);
    before.push(first)?;
    let bracket = Symbol::RightParenthesis;
    let (values, depth, at) = items(alloc, parts, bracket, before, depth, tokens, rest)?;
    Ok((Expr::Tuple(values), depth + 1, at))
}

// The list after an open bracket, up to the closed one.
#[cycle(expressions)]
fn list(alloc: Global, parts: u32, tokens: &TokenRow, at: usize) -> Read
    requires { parts < 999 }
    ensures reads { Gives (λ x. (expr_of x.0, x.1, from tokens.now x.2)) result (list_by (expression_at parts) (from tokens.now at)) }
    ensures shallow { IfOk result (λ x. x.1 ≤ parts + 1) }
{
    let none = Vec::new(alloc);
    let (values, depth, at) = items(alloc, parts, Symbol::RightBracket, none, 0, tokens, at)?;
    Ok((Expr::ListDisplay(values), depth + 1, at))
}

// The dict after an open brace, up to the closed one.
#[cycle(expressions)]
fn dict(alloc: Global, parts: u32, tokens: &TokenRow, at: usize) -> Read
    requires { parts < 999 }
    ensures reads { Gives (λ x. (expr_of x.0, x.1, from tokens.now x.2)) result (dict_by (expression_at parts) (from tokens.now at)) }
    ensures shallow { IfOk result (λ x. x.1 ≤ parts + 1) }
{
    let (values, depth, at) = pairs(alloc, parts, tokens, at)?;
    Ok((Expr::DictDisplay(values), depth + 1, at))
}

// A key and its value, the greatest depth of both, and the place after them.
#[cycle(expressions)]
fn pair(
    alloc: Global,
    parts: u32,
    tokens: &TokenRow,
    at: usize,
) -> Result<(Expr, Expr, u32, usize), ParseFault>
    requires { parts < 999 }
    ensures reads { Gives (λ x. ((expr_of x.0, expr_of x.1), x.2, from tokens.now x.3)) result (pair_by (expression_at parts) (from tokens.now at)) }
    ensures shallow { IfOk result (λ x. x.2 ≤ parts) }
{
    let (key, key_depth, at) = expression(alloc, parts, EXPRESSION, tokens, at)?;
    let Some(rest) = after(tokens, at, Symbol::Colon) else {
        return Err(ParseFault::Syntax(line_at(tokens, at)));
    };
    let (value, value_depth, at) = expression(alloc, parts, EXPRESSION, tokens, rest)?;
    Ok((key, value, key_depth.max(value_depth), at))
}

// The keys and values after an open brace by turns, up to the closed one, and the greatest depth among them.
#[cycle(expressions)]
#[tactic(auto, using(crate::proofs::Steps::separated_by_zero))]
fn pairs(
    alloc: Global,
    parts: u32,
    tokens: &TokenRow,
    start: usize,
) -> Result<(Vec<Expr>, u32, usize), ParseFault>
    requires { parts < 999 }
    ensures reads { Gives (λ x. ((map expr_of x.0.items, x.1), from tokens.now x.2)) result (pairs_by (expression_at parts) (from tokens.now start)) }
    ensures shallow { IfOk result (λ x. x.1 ≤ parts) }
{
    if let Some(rest) = after(tokens, start, Symbol::RightBrace) {
        return Ok((Vec::new(alloc), 0, rest));
    }
    let mut values = Vec::new(alloc);
    let mut depth: u32 = 0;
    let mut at = start;
    for _turn in start..tokens.len() {
        let (key, value, pair_depth, rest) = pair(alloc, parts, tokens, at)?;
        values.push(key)?;
        values.push(value)?;
        depth = depth.max(pair_depth);
        if let Some(end) = after_items(tokens, rest, Symbol::RightBrace) {
            return Ok((fitted(values), depth, end));
        }
        let Some(more) = after(tokens, rest, Symbol::Comma) else {
            return Err(ParseFault::Syntax(line_at(tokens, rest)));
        };
        at = more;
    }
    Err(ParseFault::Syntax(line_at(tokens, at)))
}

// The items of a tuple or a list after those before, up to the closed bracket, and the greatest depth among them.
#[cycle(expressions)]
#[tactic(auto, using(crate::proofs::Steps::separated_by_zero))]
fn items(
    alloc: Global,
    parts: u32,
    bracket: Symbol,
    before: Vec<Expr>,
    before_depth: u32,
    tokens: &TokenRow,
    start: usize,
) -> Result<(Vec<Expr>, u32, usize), ParseFault>
    requires limit { parts < 999 }
    requires shallow { before_depth ≤ parts }
    ensures reads { Gives (λ x. ((map expr_of x.0.items, x.1), from tokens.now x.2)) result (items_by (expression_at parts) (symbol_of bracket) (map expr_of before.items, before_depth) (from tokens.now start)) }
    ensures shallow { IfOk result (λ x. x.1 ≤ parts) }
{
    if let Some(rest) = after(tokens, start, bracket) {
        return Ok((before, before_depth, rest));
    }
    let mut values = before;
    let mut depth = before_depth;
    let mut at = start;
    for _turn in start..tokens.len() {
        let (next, next_depth, rest) = expression(alloc, parts, EXPRESSION, tokens, at)?;
        values.push(next)?;
        depth = depth.max(next_depth);
        if let Some(end) = after_items(tokens, rest, bracket) {
            return Ok((fitted(values), depth, end));
        }
        let Some(more) = after(tokens, rest, Symbol::Comma) else {
            return Err(ParseFault::Syntax(line_at(tokens, rest)));
        };
        at = more;
    }
    Err(ParseFault::Syntax(line_at(tokens, at)))
}

// The operand with the operators and calls after it, as far as they are of the level.
#[cycle(expressions)]
#[tactic(auto, using(crate::proofs::Steps::continued_by_zero, crate::proofs::Steps::continued_by_step))]
fn continued(
    alloc: Global,
    parts: u32,
    level: u32,
    operand: Expr,
    operand_depth: u32,
    tokens: &TokenRow,
    start: usize,
) -> Read
    requires limit { parts < 999 }
    requires shallow { operand_depth ≤ parts + 1 }
    ensures reads { Gives (λ x. (expr_of x.0, x.1, from tokens.now x.2)) result (continued_by (expression_at parts) (parts + 1) level (parts + 1) (expr_of operand) operand_depth (from tokens.now start)) }
    ensures shallow { IfOk result (λ x. x.1 ≤ parts + 1) }
{
    let mut left = operand;
    let mut depth = operand_depth;
    let mut at = start;
    for _turn in 0..parts + 1 {
        let (next, after_next) = what_follows(tokens, at);
        if strength(next) < level {
            return Ok((left, depth, at));
        }
        let (longer, deeper, rest) = extended(
            alloc, parts, left, depth, next, tokens, at, after_next,
        )?;
        left = longer;
        depth = deeper;
        at = rest;
    }
    Err(ParseFault::Syntax(line_at(tokens, at)))
}

// The operand with what continues it; `at` is the place of the token that does, and `rest` the one after it.
#[cycle(expressions)]
fn extended(
    alloc: Global,
    parts: u32,
    left: Expr,
    depth: u32,
    continuation: Continuation,
    tokens: &TokenRow,
    at: usize,
    rest: usize,
) -> Read
    requires limit { parts < 999 }
    requires shallow { depth ≤ parts + 1 }
    requires next { from tokens.now rest ≡ rest_of (from tokens.now at) }
    ensures reads { Gives (λ x. (expr_of x.0, x.1, from tokens.now x.2)) result (extended_by (expression_at parts) (parts + 1) (expr_of left) depth (from tokens.now at) (continuation_view continuation)) }
    ensures shallow { IfOk result (λ x. x.1 ≤ parts + 1) }
{
    match continuation {
        Continuation::Operator(operator) => binary(
            alloc, parts, left, depth, operator, tokens, rest,
        ),
        Continuation::Attribute => attribute(alloc, parts, left, depth, tokens, rest),
        Continuation::Arguments => call(alloc, parts, left, depth, tokens, rest),
        Continuation::Index => subscript(alloc, parts, left, depth, tokens, rest),
        Continuation::Comparison => compare(alloc, parts, left, depth, tokens, at),
        Continuation::Boolean(operator) => boolean(alloc, parts, left, depth, operator, tokens, at),
        Continuation::Condition => conditional(alloc, parts, left, depth, tokens, rest),
        Continuation::Nothing => Err(ParseFault::Syntax(line_at(tokens, at))),
    }
}

// The operand with an operator and its right operand, which begins at the place.
#[cycle(expressions)]
fn binary(
    alloc: Global,
    parts: u32,
    left: Expr,
    depth: u32,
    operator: BinaryOperator,
    tokens: &TokenRow,
    at: usize,
) -> Read
    requires limit { parts < 999 }
    requires shallow { depth ≤ parts + 1 }
    ensures reads { Gives (λ x. (expr_of x.0, x.1, from tokens.now x.2)) result (binary_by (expression_at parts) (parts + 1) (expr_of left) depth operator (from tokens.now at)) }
    ensures shallow { IfOk result (λ x. x.1 ≤ parts + 1) }
{
    let (right, right_depth, at) = expression(alloc, parts, right_level(operator), tokens, at)?;
    let tree = Expr::Binary(operator, Box::new(alloc, left)?, Box::new(alloc, right)?);
    within(parts + 1, tree, depth.max(right_depth) + 1, tokens, at)
}

// The object with the name of its attribute, from after the dot.
fn attribute(
    alloc: Global,
    parts: u32,
    left: Expr,
    depth: u32,
    tokens: &TokenRow,
    at: usize,
) -> Read
    requires limit { parts < 999 }
    requires shallow { depth ≤ parts + 1 }
    ensures reads { Gives (λ x. (expr_of x.0, x.1, from tokens.now x.2)) result (attribute_by (parts + 1) (expr_of left) depth (from tokens.now at)) }
    ensures shallow { IfOk result (λ x. x.1 ≤ parts + 1) }
{
    let (name, rest) = name(alloc, tokens, at)?;
    let tree = Expr::Attribute(Box::new(alloc, left)?, name);
    within(parts + 1, tree, depth + 1, tokens, rest)
}

// The names of a call.
fn call_names(
    alloc: Global,
    attribute: Option<String>,
    arguments: Vec<String>,
) -> Result<Box<CallNames>, AllocError>
    ensures attribute { IfOk result (λ n. n.value.attribute ≡ attribute) }
    ensures arguments { IfOk result (λ n. n.value.arguments ≡ arguments) }
{
    let names = CallNames {
        attribute,
        arguments,
    };
    Ok(Box::new(alloc, names)?)
}

// The call of a tree with these arguments. Where it is an attribute, its object is the callee.
fn called(
    alloc: Global,
    left: Expr,
    values: Vec<Expr>,
    names: Vec<String>,
) -> Result<Expr, AllocError>
    ensures { IfOk result (λ e. expr_of e ≡ call_of (expr_of left) (map expr_of values.items, map string_bytes names.items)) }
{
    match left {
        Expr::Attribute(object, name) => {
            let names = call_names(alloc, Some(name), names)?;
            Ok(Expr::Call(object, names, values))
        }
        _ => {
            let callee = Box::new(alloc, left)?;
            let names = call_names(alloc, None, names)?;
            Ok(Expr::Call(callee, names, values))
        }
    }
}

// The callee with its arguments, from after the open bracket.
#[cycle(expressions)]
fn call(alloc: Global, parts: u32, left: Expr, depth: u32, tokens: &TokenRow, at: usize) -> Read
    requires limit { parts < 999 }
    requires shallow { depth ≤ parts + 1 }
    ensures reads { Gives (λ x. (expr_of x.0, x.1, from tokens.now x.2)) result (call_by (expression_at parts) (parts + 1) (expr_of left) depth (from tokens.now at)) }
    ensures shallow { IfOk result (λ x. x.1 ≤ parts + 1) }
{
    let (arguments, arguments_depth, at) = arguments(alloc, parts, tokens, at)?;
    let (values, names) = passed(alloc, arguments, line_at(tokens, at))?;
    let tree = called(alloc, left, values, names)?;
    within(parts + 1, tree, depth.max(arguments_depth) + 1, tokens, at)
}

// The object with its index, from after the open bracket.
#[cycle(expressions)]
fn subscript(
    alloc: Global,
    parts: u32,
    left: Expr,
    depth: u32,
    tokens: &TokenRow,
    at: usize,
) -> Read
    requires limit { parts < 999 }
    requires shallow { depth ≤ parts + 1 }
    ensures reads { Gives (λ x. (expr_of x.0, x.1, from tokens.now x.2)) result (subscript_by (expression_at parts) (parts + 1) (expr_of left) depth (from tokens.now at)) }
    ensures shallow { IfOk result (λ x. x.1 ≤ parts + 1) }
{
    let (index, index_depth, at) = expression(alloc, parts, EXPRESSION, tokens, at)?;
    let Some(rest) = after(tokens, at, Symbol::RightBracket) else {
        return Err(ParseFault::Syntax(line_at(tokens, at)));
    };
    let tree = Expr::Subscript(Box::new(alloc, left)?, Box::new(alloc, index)?);
    within(parts + 1, tree, depth.max(index_depth) + 1, tokens, rest)
}

// The operand with a chain of comparisons, whose first operator stands at the place.
#[cycle(expressions)]
#[tactic(auto, using(si_syntax::proofs::Forms::compare_is))]
fn compare(alloc: Global, parts: u32, left: Expr, depth: u32, tokens: &TokenRow, at: usize) -> Read
    requires limit { parts < 999 }
    requires shallow { depth ≤ parts + 1 }
    ensures reads { Gives (λ x. (expr_of x.0, x.1, from tokens.now x.2)) result (compare_by (expression_at parts) (parts + 1) (expr_of left) depth (from tokens.now at)) }
    ensures shallow { IfOk result (λ x. x.1 ≤ parts + 1) }
{
    let (links, links_depth, at) = links(alloc, parts, tokens, at)?;
    let tree = Expr::Compare(Box::new(alloc, left)?, links);
    within(parts + 1, tree, depth.max(links_depth) + 1, tokens, at)
}

// The operand with others after it, each after the word of the operator, whose first one stands at the place.
#[cycle(expressions)]
fn boolean(
    alloc: Global,
    parts: u32,
    left: Expr,
    depth: u32,
    operator: BooleanOperator,
    tokens: &TokenRow,
    at: usize,
) -> Read
    requires limit { parts < 999 }
    requires shallow { depth ≤ parts + 1 }
    ensures reads { Gives (λ x. (expr_of x.0, x.1, from tokens.now x.2)) result (boolean_by (expression_at parts) (parts + 1) (expr_of left) depth operator (from tokens.now at)) }
    ensures shallow { IfOk result (λ x. x.1 ≤ parts + 1) }
{
    let (others, others_depth, at) = operands(alloc, parts, operator, tokens, at)?;
    let tree = Expr::Boolean(operator, Box::new(alloc, left)?, others);
    within(parts + 1, tree, depth.max(others_depth) + 1, tokens, at)
}

// The value with its test, which begins at the place, after an `if`, and the other value.
#[cycle(expressions)]
fn conditional(
    alloc: Global,
    parts: u32,
    left: Expr,
    depth: u32,
    tokens: &TokenRow,
    at: usize,
) -> Read
    requires limit { parts < 999 }
    requires shallow { depth ≤ parts + 1 }
    ensures reads { Gives (λ x. (expr_of x.0, x.1, from tokens.now x.2)) result (conditional_by (expression_at parts) (parts + 1) (expr_of left) depth (from tokens.now at)) }
    ensures shallow { IfOk result (λ x. x.1 ≤ parts + 1) }
{
    let (test, test_depth, at) = expression(alloc, parts, DISJUNCTION, tokens, at)?;
    let Some(rest) = after_word(tokens, at, Keyword::Else) else {
        return Err(ParseFault::Syntax(line_at(tokens, at)));
    };
    let (other, other_depth, at) = expression(alloc, parts, EXPRESSION, tokens, rest)?;
    let tree = Expr::Conditional(
        Box::new(alloc, test)?,
        Box::new(alloc, left)?,
        Box::new(alloc, other)?,
    );
    within(
        parts + 1,
        tree,
        depth.max(test_depth.max(other_depth)) + 1,
        tokens,
        at,
    )
}

// An argument that begins at the place, its depth, and the place after it.
#[cycle(expressions)]
fn argument(
    alloc: Global,
    parts: u32,
    tokens: &TokenRow,
    at: usize,
) -> Result<(Argument, u32, usize), ParseFault>
    requires { parts < 999 }
    ensures reads { Gives (λ x. (argument_of x.0, x.1, from tokens.now x.2)) result (argument_by (expression_at parts) (from tokens.now at)) }
    ensures shallow { IfOk result (λ x. x.1 ≤ parts) }
{
    match named_at(tokens, at) {
        Some((name, rest)) => {
            let (value, depth, end) = expression(alloc, parts, EXPRESSION, tokens, rest)?;
            Ok((
                Argument::ByName(String::from_str(alloc, name)?, value),
                depth,
                end,
            ))
        }
        None => {
            let (value, depth, end) = expression(alloc, parts, EXPRESSION, tokens, at)?;
            Ok((Argument::Positional(value), depth, end))
        }
    }
}

// The arguments after an open bracket, up to the closed one, and the greatest depth among them.
#[cycle(expressions)]
#[tactic(auto, using(crate::proofs::Steps::separated_by_zero))]
fn arguments(
    alloc: Global,
    parts: u32,
    tokens: &TokenRow,
    start: usize,
) -> Result<(Vec<Argument>, u32, usize), ParseFault>
    requires { parts < 999 }
    ensures reads { Gives (λ x. ((map argument_of x.0.items, x.1), from tokens.now x.2)) result (arguments_by (expression_at parts) (from tokens.now start)) }
    ensures shallow { IfOk result (λ x. x.1 ≤ parts) }
{
    if let Some(rest) = after(tokens, start, Symbol::RightParenthesis) {
        return Ok((Vec::new(alloc), 0, rest));
    }
    let mut arguments = Vec::new(alloc);
    let mut depth: u32 = 0;
    let mut at = start;
    for _turn in start..tokens.len() {
        let (next, next_depth, rest) = argument(alloc, parts, tokens, at)?;
        arguments.push(next)?;
        depth = depth.max(next_depth);
        if let Some(end) = after_items(tokens, rest, Symbol::RightParenthesis) {
            return Ok((arguments, depth, end));
        }
        let Some(more) = after(tokens, rest, Symbol::Comma) else {
            return Err(ParseFault::Syntax(line_at(tokens, rest)));
        };
        at = more;
    }
    Err(ParseFault::Syntax(line_at(tokens, at)))
}

// The operands after the first one, each after the word of the operator, and the greatest depth among them.
#[cycle(expressions)]
#[tactic(auto, using(crate::proofs::Steps::chain_by_zero))]
fn operands(
    alloc: Global,
    parts: u32,
    operator: BooleanOperator,
    tokens: &TokenRow,
    start: usize,
) -> Result<(Vec<Expr>, u32, usize), ParseFault>
    requires { parts < 999 }
    ensures reads { Gives (λ x. ((map expr_of x.0.items, x.1), from tokens.now x.2)) result (operands_by (expression_at parts) operator (from tokens.now start)) }
    ensures shallow { IfOk result (λ x. x.1 ≤ parts) }
{
    let mut others = Vec::with_capacity(alloc, 1)?;
    let mut depth: u32 = 0;
    let mut at = start;
    for _turn in start..tokens.len() {
        let Some(rest) = after_boolean(operator, tokens, at) else {
            return Ok((fitted(others), depth, at));
        };
        let (other, other_depth, end) = expression(
            alloc,
            parts,
            item_level(operator),
            tokens,
            rest,
        )?;
        others.push(other)?;
        depth = depth.max(other_depth);
        at = end;
    }
    Err(ParseFault::Syntax(line_at(tokens, at)))
}

// Whether the tree of this depth is None, True or False, by one word alone.
fn is_singleton(tree: &Expr, depth: u32) -> bool
    ensures { result ≡ is_singleton (expr_of tree.now) depth }
{
    match tree {
        Expr::Nothing | Expr::Truth(_) => depth == 1,
        _ => false,
    }
}

// The operand of a comparison, which begins at the place. After `is` it is one word.
#[cycle(expressions)]
fn compared(
    alloc: Global,
    parts: u32,
    operator: ComparisonOperator,
    tokens: &TokenRow,
    at: usize,
) -> Read
    requires { parts < 999 }
    ensures reads { Gives (λ x. (expr_of x.0, x.1, from tokens.now x.2)) result (compared_by (expression_at parts) operator (from tokens.now at)) }
    ensures shallow { IfOk result (λ x. x.1 ≤ parts) }
{
    let (tree, depth, end) = expression(alloc, parts, BIT_OR, tokens, at)?;
    let names_one = matches!(operator, ComparisonOperator::Is | ComparisonOperator::IsNot);
    if names_one && !is_singleton(&tree, depth) {
        return Err(ParseFault::Syntax(line_at(tokens, at)));
    }
    Ok((tree, depth, end))
}

// The operators of a chain of comparisons with their operands, and the greatest depth among them.
#[cycle(expressions)]
#[tactic(auto, using(crate::proofs::Steps::chain_by_zero))]
fn links(
    alloc: Global,
    parts: u32,
    tokens: &TokenRow,
    start: usize,
) -> Result<(Vec<(ComparisonOperator, Expr)>, u32, usize), ParseFault>
    requires { parts < 999 }
    ensures reads { Gives (λ x. ((map link_of x.0.items, x.1), from tokens.now x.2)) result (links_by (expression_at parts) (from tokens.now start)) }
    ensures shallow { IfOk result (λ x. x.1 ≤ parts) }
{
    let mut links = Vec::with_capacity(alloc, 1)?;
    let mut depth: u32 = 0;
    let mut at = start;
    for _turn in start..tokens.len() {
        let Some((operator, rest)) = comparison_at(tokens, at) else {
            return Ok((fitted(links), depth, at));
        };
        let (operand, operand_depth, end) = compared(alloc, parts, operator, tokens, rest)?;
        links.push((operator, operand))?;
        depth = depth.max(operand_depth);
        at = end;
    }
    Err(ParseFault::Syntax(line_at(tokens, at)))
}
