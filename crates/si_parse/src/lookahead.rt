// One token of look-ahead: the token at a place, and the place after it.

ghost use Rattle.std.specs.Prelude.{◌≡◌, ◌+◌, ◌<◌, ◌^◌, [], ◌∷◌, option_map, MatchOption, OnSome};
ghost use Rattle.si_semantics.specs.Grammar.{terminal_of, Sign, Word, NEWLINE, INDENT, DEDENT};
ghost use Rattle.si_semantics.specs.Tokens as token;
ghost use Rattle.si_token.specs.Views.{keyword_of, symbol_of, token_of};
ghost use Rattle.si_parse.specs.inner.Lookahead.{after, after_boolean, header_at};
ghost use Rattle.si_parse.specs.inner.Lists.{closing};
ghost use Rattle.si_parse.specs.inner.Unbracketed.{after_comma, ends_items, past_comma};
ghost use Rattle.si_parse.specs.inner.Statements.{after_name, after_import, after_from, after_interpreters, import_at, ends_small};
ghost use Rattle.si_parse.specs.inner.Handlers.{after_catch};
ghost use Rattle.si_parse.specs.inner.Gives.{from, header_view};

use si_plain::{BooleanOperator, ModuleName};
use si_token::{Keyword, Symbol, Token, TokenKind, TokenRow};

// The word with which a compound statement begins.
#[derive(Clone, Copy)]
pub(crate) enum Header {
    If,
    While,
    For,
    Try,
    Def,
}

// The token at the place.
pub(crate) fn token_at<'a>(tokens: &TokenRow<'a>, at: usize) -> Option<Token<'a>>
    ensures split { MatchOption result (from tokens.now at ≡ []) (λ t. from tokens.now at ≡ terminal_of (token_of t) ∷ from tokens.now (at + 1)) }
    ensures inside { OnSome result (at < 2 ^ 63) }
{
    tokens.get(at)
}

// The line of the token at the place, and 1 where there is none.
pub(crate) fn line_at(tokens: &TokenRow, at: usize) -> usize {
    match token_at(tokens, at) {
        Some(token) => token.line(),
        None => 1,
    }
}

// The place after the symbol, where it stands at the place.
#[tactic(auto, using(crate::proofs::Numbers::symbols_same, crate::proofs::Numbers::symbols_differ))]
pub(crate) fn after(tokens: &TokenRow, at: usize, symbol: Symbol) -> Option<usize>
    ensures { option_map (from tokens.now) result ≡ after (Sign (symbol_of symbol)) (from tokens.now at) }
{
    let token = token_at(tokens, at)?;
    match token.kind {
        TokenKind::Symbol(found) => { if found == symbol { Some(at + 1) } else { None } }
        _ => None,
    }
}

// The place after the keyword, where it stands at the place.
#[tactic(auto, using(crate::proofs::Numbers::keywords_same, crate::proofs::Numbers::keywords_differ))]
pub(crate) fn after_word(tokens: &TokenRow, at: usize, keyword: Keyword) -> Option<usize>
    ensures { option_map (from tokens.now) result ≡ after (Word (keyword_of keyword)) (from tokens.now at) }
{
    let token = token_at(tokens, at)?;
    match token.kind {
        TokenKind::Keyword(found) => { if found == keyword { Some(at + 1) } else { None } }
        _ => None,
    }
}

// The place after the name, where it stands at the place.
fn after_name(tokens: &TokenRow, at: usize, name: &str) -> Option<usize>
    ensures { option_map (from tokens.now) result ≡ after_name name.now (from tokens.now at) }
{
    let token = token_at(tokens, at)?;
    match token.kind {
        TokenKind::Name => {
            if token.text == name {
                Some(at + 1)
            } else {
                None
            }
        }
        _ => None,
    }
}

// The place after an `import` of the name, where one stands at the place.
fn after_import(tokens: &TokenRow, at: usize, name: &str) -> Option<usize>
    ensures { option_map (from tokens.now) result ≡ after_import name.now (from tokens.now at) }
{
    let rest = after_word(tokens, at, Keyword::Import)?;
    after_name(tokens, rest, name)
}

// The place after a `from` and the name, where they stand at the place.
fn after_from(tokens: &TokenRow, at: usize, name: &str) -> Option<usize>
    ensures { option_map (from tokens.now) result ≡ after_from name.now (from tokens.now at) }
{
    let rest = after_word(tokens, at, Keyword::From)?;
    after_name(tokens, rest, name)
}

// The place after the import of `concurrent.interpreters`, where it stands at the place.
fn after_interpreters(tokens: &TokenRow, at: usize) -> Option<usize>
    ensures { option_map (from tokens.now) result ≡ after_interpreters (from tokens.now at) }
{
    let rest = after_from(tokens, at, "concurrent")?;
    after_import(tokens, rest, "interpreters")
}

// The module whose import stands at the place, and the place after it.
pub(crate) fn import_at(tokens: &TokenRow, at: usize) -> Option<(ModuleName, usize)>
    ensures { option_map (λ x. (x.0, from tokens.now x.1)) result ≡ import_at (from tokens.now at) }
{
    if let Some(rest) = after_import(tokens, at, "threading") {
        return Some((ModuleName::Threading, rest));
    }
    let rest = after_interpreters(tokens, at)?;
    Some((ModuleName::Interpreters, rest))
}

// The place after the end of a line, where it stands at the place.
pub(crate) fn after_newline(tokens: &TokenRow, at: usize) -> Option<usize>
    ensures { option_map (from tokens.now) result ≡ after NEWLINE (from tokens.now at) }
{
    let token = token_at(tokens, at)?;
    match token.kind {
        TokenKind::Newline => Some(at + 1),
        _ => None,
    }
}

// The place after an indent, where one stands at the place.
pub(crate) fn after_indent(tokens: &TokenRow, at: usize) -> Option<usize>
    ensures { option_map (from tokens.now) result ≡ after INDENT (from tokens.now at) }
{
    let token = token_at(tokens, at)?;
    match token.kind {
        TokenKind::Indent => Some(at + 1),
        _ => None,
    }
}

// The place after a dedent, where one stands at the place.
pub(crate) fn after_dedent(tokens: &TokenRow, at: usize) -> Option<usize>
    ensures { option_map (from tokens.now) result ≡ after DEDENT (from tokens.now at) }
{
    let token = token_at(tokens, at)?;
    match token.kind {
        TokenKind::Dedent => Some(at + 1),
        _ => None,
    }
}

// The place after the word of the operator, where it stands at the place.
pub(crate) fn after_boolean(
    operator: BooleanOperator,
    tokens: &TokenRow,
    at: usize,
) -> Option<usize>
    ensures { option_map (from tokens.now) result ≡ after_boolean operator (from tokens.now at) }
{
    match operator {
        BooleanOperator::And => after_word(tokens, at, Keyword::And),
        BooleanOperator::Or => after_word(tokens, at, Keyword::Or),
    }
}

// The place after a closed bracket, before which a comma may stand.
pub(crate) fn after_items(tokens: &TokenRow, at: usize, bracket: Symbol) -> Option<usize>
    ensures { option_map (from tokens.now) result ≡ closing (after (Sign token.Comma)) (after (Sign (symbol_of bracket))) (from tokens.now at) }
{
    match after(tokens, at, Symbol::Comma) {
        Some(rest) => after(tokens, rest, bracket),
        None => after(tokens, at, bracket),
    }
}

// The place after the end of a line, before which a semicolon may stand.
pub(crate) fn after_line(tokens: &TokenRow, at: usize) -> Option<usize>
    ensures { option_map (from tokens.now) result ≡ closing (after (Sign token.Semicolon)) (after NEWLINE) (from tokens.now at) }
{
    match after(tokens, at, Symbol::Semicolon) {
        Some(rest) => after_newline(tokens, rest),
        None => after_newline(tokens, at),
    }
}

// The place after an `except` that no colon follows, where one stands at the place.
pub(crate) fn after_catch(tokens: &TokenRow, at: usize) -> Option<usize>
    ensures { option_map (from tokens.now) result ≡ after_catch (from tokens.now at) }
{
    let rest = after_word(tokens, at, Keyword::Except)?;
    match after(tokens, rest, Symbol::Colon) {
        Some(_) => None,
        None => Some(rest),
    }
}

// The place after a comma, where one stands at the place and an item of a tuple has to follow it.
pub(crate) fn after_comma(tokens: &TokenRow, at: usize) -> Option<usize>
    ensures { option_map (from tokens.now) result ≡ after_comma (from tokens.now at) }
{
    let rest = after(tokens, at, Symbol::Comma)?;
    if ends_items(tokens, rest) {
        None
    } else {
        Some(rest)
    }
}

// The place after the comma, where one stands at the place, or else the place itself.
pub(crate) fn past_comma(tokens: &TokenRow, at: usize) -> usize
    ensures { from tokens.now result ≡ past_comma (from tokens.now at) }
{
    match after(tokens, at, Symbol::Comma) {
        Some(rest) => rest,
        None => at,
    }
}

// Whether no item of a tuple without brackets can stand at the place.
fn ends_items(tokens: &TokenRow, at: usize) -> bool
    ensures { result ≡ ends_items (from tokens.now at) }
{
    let Some(token) = token_at(tokens, at) else {
        return false;
    };
    match token.kind {
        TokenKind::Newline => true,
        TokenKind::Symbol(Symbol::Semicolon) | TokenKind::Symbol(Symbol::Colon) => true,
        TokenKind::Symbol(Symbol::Equal) | TokenKind::Keyword(Keyword::In) => true,
        _ => false,
    }
}

// Whether a small statement ends at the place.
pub(crate) fn ends_small(tokens: &TokenRow, at: usize) -> bool
    ensures { result ≡ ends_small (from tokens.now at) }
{
    let Some(token) = token_at(tokens, at) else {
        return false;
    };
    match token.kind {
        TokenKind::Newline | TokenKind::Symbol(Symbol::Semicolon) => true,
        _ => false,
    }
}

// The word of a compound statement, where one stands at the place, and the place after it.
pub(crate) fn header_at(tokens: &TokenRow, at: usize) -> Option<(Header, usize)>
    ensures { option_map (λ x. (header_view x.0, from tokens.now x.1)) result ≡ header_at (from tokens.now at) }
{
    let token = token_at(tokens, at)?;
    match token.kind {
        TokenKind::Keyword(Keyword::If) => Some((Header::If, at + 1)),
        TokenKind::Keyword(Keyword::While) => Some((Header::While, at + 1)),
        TokenKind::Keyword(Keyword::For) => Some((Header::For, at + 1)),
        TokenKind::Keyword(Keyword::Try) => Some((Header::Try, at + 1)),
        TokenKind::Keyword(Keyword::Def) => Some((Header::Def, at + 1)),
        _ => None,
    }
}
