// The layout: what words do to lines, brackets and blocks.

ghost use Rattle.std.specs.Prelude.{◌≡◌, ◌+◌, ◌<◌, ◌≤◌, ◌^◌, [], ◌∷◌, length, replicate, reverse, IfSome, OnOk};
ghost use Rattle.std.specs.Option.{option_map, option_to_list};
ghost use Rattle.si_semantics.specs.Layout.{token, brackets_after, opens, closes, innermost, closing};
ghost use Rattle.si_semantics.specs.Tokens.{Dedent};
ghost use Rattle.si_token.specs.Views.{kind_of, sort_of, symbol_of, token_of, place_of, laid_of};
ghost use Rattle.si_token.specs.inner.Laying.{line_start, after, after_spaces, after_tabs, after_token, after_dedents, with_line_end, laid, missing_newline, Adds};
ghost use Rattle.si_token.specs.inner.Places.{IsWithin};
ghost use Rattle.si_token.specs.Spans.{IsPart};

use crate::row::TokenRow;
use crate::token::{Span, Symbol, Token, TokenKind};
use crate::words::Sort;
use std::alloc::AllocError;

/// Where a reader of words stands.
#[derive(Clone, Copy)]
pub struct Place {
    /// How many bytes came before.
    pub at: usize,
    /// The line of the next byte, counted from 1.
    pub line: usize,
    /// A token stands in this logical line already.
    pub begun: bool,
    /// How many spaces stand before the first token of the line.
    pub column: usize,
    /// A tab stands there.
    pub has_tab: bool,
    /// How many brackets are open.
    pub brackets: usize,
}

/// The beginning of a logical line.
pub fn line_start(at: usize, line: usize) -> Place
    requires { line ≤ at + 1 }
    ensures gives { place_of result ≡ line_start at }
    ensures line { result.line ≡ line }
    ensures within { IsWithin result }
{
    Place {
        at,
        line,
        begun: false,
        column: 0,
        has_tab: false,
        brackets: 0,
    }
}

/// The token that this word is here.
pub fn token_at<'a>(place: Place, kind: TokenKind, word: &'a str) -> Token<'a>
    requires room { place.at + length word.now < 2 ^ 31 }
    requires within { IsWithin place }
    ensures kind { result.kind ≡ kind }
    ensures part { IsPart place.at place.line word.now result }
{
    Token {
        kind,
        text: word,
        span: Span {
            start: place.at as u32,
            end: (place.at + word.len()) as u32,
            line: place.line as u32,
        },
    }
}

// One of `( [ {`.
fn opens(symbol: Symbol) -> bool
    ensures { result ≡ opens (symbol_of symbol) }
{
    matches!(
        symbol,
        Symbol::LeftParenthesis | Symbol::LeftBracket | Symbol::LeftBrace
    )
}

// One of `) ] }`.
fn closes(symbol: Symbol) -> bool
    ensures { result ≡ closes (symbol_of symbol) }
{
    matches!(
        symbol,
        Symbol::RightParenthesis | Symbol::RightBracket | Symbol::RightBrace
    )
}

// How many brackets are open after a token of this kind.
fn brackets_after(kind: TokenKind, brackets: usize) -> usize
    requires { brackets < 2 ^ 63 }
    ensures { result ≡ brackets_after (Some (kind_of kind)) brackets }
{
    match kind {
        TokenKind::Symbol(symbol) => {
            if opens(symbol) {
                brackets + 1
            } else if closes(symbol) {
                brackets.saturating_sub(1)
            } else {
                brackets
            }
        }
        _ => brackets,
    }
}

// After a word that makes no token and moves no column.
fn after(place: Place, word: &str) -> Place
    requires room { place.at + length word.now < 2 ^ 31 }
    requires within { IsWithin place }
    ensures gives { place_of result ≡ after (place_of place) word.now }
    ensures within { IsWithin result }
{
    Place {
        at: place.at + word.len(),
        ..place
    }
}

// After spaces, which count at a line's beginning.
fn after_spaces(place: Place, word: &str) -> Place
    requires room { place.at + length word.now < 2 ^ 31 }
    requires within { IsWithin place }
    ensures gives { place_of result ≡ after_spaces (place_of place) word.now }
    ensures within { IsWithin result }
{
    Place {
        at: place.at + word.len(),
        column: place.column + word.len(),
        ..place
    }
}

// After tabs, which leave a line's first token no column.
fn after_tabs(place: Place, word: &str) -> Place
    requires room { place.at + length word.now < 2 ^ 31 }
    requires within { IsWithin place }
    ensures gives { place_of result ≡ after_tabs (place_of place) word.now }
    ensures within { IsWithin result }
{
    Place {
        at: place.at + word.len(),
        has_tab: true,
        ..place
    }
}

// A word that is a token.
fn with_token<'a>(place: Place, kind: TokenKind, word: &'a str) -> (Option<Token<'a>>, Place)
    requires room { place.at + length word.now < 2 ^ 31 }
    requires some { 0 < length word.now }
    requires within { IsWithin place }
    ensures gives { laid_of result ≡ (token place.at word.now (kind_of kind) ∷ [], after_token (place_of place) (kind_of kind) word.now) }
    ensures part { IfSome result.0 (IsPart place.at place.line word.now) }
    ensures within { IsWithin result.1 }
{
    let next = Place {
        at: place.at + word.len(),
        begun: true,
        brackets: brackets_after(kind, place.brackets),
        ..place
    };
    (Some(token_at(place, kind, word)), next)
}

// A line end makes a NEWLINE after a token, and nothing inside brackets or in a line with no token.
fn with_line_end<'a>(place: Place, word: &'a str) -> (Option<Token<'a>>, Place)
    requires room { place.at + length word.now < 2 ^ 31 }
    requires some { 0 < length word.now }
    requires within { IsWithin place }
    ensures gives { laid_of result ≡ with_line_end (place_of place) word.now }
    ensures part { IfSome result.0 (IsPart place.at place.line word.now) }
    ensures within { IsWithin result.1 }
{
    let at = place.at + word.len();
    if place.brackets > 0 {
        return (None, Place { at, ..place });
    }
    let next = line_start(at, place.line);
    if place.begun {
        (Some(token_at(place, TokenKind::Newline, word)), next)
    } else {
        (None, next)
    }
}

/// The token that a word makes, where it makes one, and the place after the word, but for its line: the caller counts
/// line ends.
pub fn laid<'a>(
    place: Place,
    kind: Option<TokenKind>,
    sort: Sort,
    word: &'a str,
) -> (Option<Token<'a>>, Place)
    requires room { place.at + length word.now < 2 ^ 31 }
    requires some { 0 < length word.now }
    requires within { IsWithin place }
    ensures gives { laid_of result ≡ laid (place_of place) (option_map kind_of kind) (sort_of sort) word.now }
    ensures part { IfSome result.0 (IsPart place.at place.line word.now) }
    ensures within { IsWithin result.1 }
{
    if let Some(kind) = kind {
        return with_token(place, kind, word);
    }
    match sort {
        Sort::Spaces => (None, after_spaces(place, word)),
        Sort::Tabs => (None, after_tabs(place, word)),
        Sort::LineEnd => with_line_end(place, word),
        _ => (None, after(place, word)),
    }
}

/// The NEWLINE that is missing at the end of the text, where one is.
pub fn missing_newline<'a>(place: Place) -> Option<Token<'a>>
    requires room { place.at < 2 ^ 31 }
    requires within { IsWithin place }
    ensures gives { option_to_list (option_map token_of result) ≡ missing_newline (place_of place) }
    ensures part { IfSome result (IsPart place.at place.line []) }
{
    if !place.begun {
        return None;
    }
    Some(token_at(place, TokenKind::Newline, ""))
}

/// The column of the innermost block; the columns of blocks stand in a `Vec`, the innermost last.
pub fn innermost(columns: &[usize]) -> usize
    ensures { result ≡ innermost (reverse columns.now) }
{
    match columns.last() {
        Some(column) => *column,
        None => 0,
    }
}

/// Closes the blocks that are deeper than this column, and counts them.
pub fn close_deeper(columns: &mut Vec<usize>, column: usize) -> usize
    ensures closed { closing column (reverse columns.old.items) ≡ after_dedents result (closing column (reverse columns.new.items)) }
    ensures deepest { innermost (reverse columns.new.items) ≤ column }
{
    let mut closed = 0;
    while innermost(columns) > column {
        columns.pop();
        closed += 1;
    }
    closed
}

/// Puts an empty token of this kind after the others.
pub fn put_empty(all: &mut TokenRow<'_>, place: Place, kind: TokenKind) -> Result<(), AllocError>
    requires room { place.at < 2 ^ 31 }
    requires within { IsWithin place }
    ensures source { all.new.source ≡ all.old.source }
    ensures adds { OnOk result (Adds place.at place.line (kind_of kind ∷ []) all.old.items all.new.items) }
{
    all.push(token_at(place, kind, ""))
}

/// Puts so many DEDENTs after the others.
pub fn dedents(all: &mut TokenRow<'_>, place: Place, count: usize) -> Result<(), AllocError>
    requires room { place.at < 2 ^ 31 }
    requires within { IsWithin place }
    ensures source { all.new.source ≡ all.old.source }
    ensures adds { OnOk result (Adds place.at place.line (replicate count Dedent) all.old.items all.new.items) }
{
    for _ in 0..count {
        put_empty(all, place, TokenKind::Dedent)?;
    }
    Ok(())
}
