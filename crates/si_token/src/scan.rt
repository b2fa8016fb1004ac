// From a text to its tokens.

ghost use Rattle.std.specs.Prelude.{◌≡◌, ◌<◌, ◌≤◌, ◌^◌, ◌++◌, length, List, reverse, All, map, IfSome, IfNone, IfOk, IfErr, OnOk};
ghost use Rattle.std.specs.Option.{option_map, option_to_list};
ghost use Rattle.std.specs.Str.{IsUtf8};
ghost use Rattle.si_token.specs.inner.Reading.{word_at};
ghost use Rattle.si_semantics.specs.Words.{spelled, keywords};
ghost use Rattle.si_semantics.specs.Literals.{begins_bytes};
ghost use Rattle.si_semantics.specs.Layout.{literal_kind, name_kind, HasTokens};
ghost use Rattle.si_semantics.specs.Layout as lines;
ghost use Rattle.si_semantics.specs.Tokens as tokens;
ghost use Rattle.si_token.specs.Views.{kind_of, sort_of, token_of, place_of};
ghost use Rattle.si_token.specs.inner.Laying.{begins, before_word, Stands};
ghost use Rattle.si_token.specs.inner.Kept.{IsWhole};
ghost use Rattle.si_token.specs.Rows.{plain};
ghost use Rattle.si_token.specs.inner.Places.{IsWithin};
ghost use Rattle.si_token.specs.Faults.{IsBadText, IsTooLong};
ghost use Rattle.si_token.specs.Spans.{IsSliceOf, IsOnLine, LieBetween, EndsIn};
ghost use Rattle.si_token.specs.declared.token.TokenKind.TheVariants.{End};

use crate::keywords::keyword;
use crate::layout::{
    Place, close_deeper, dedents, innermost, laid, line_start, missing_newline, put_empty, token_at,
};
use crate::row::TokenRow;
use crate::symbols::symbol;
use crate::token::{Token, TokenKind};
use crate::words::{Sort, begins_bytes, is_allowed, longest_word};
use si_plain::limits::MAX_TEXT_BYTES;
use si_plain::line_ends;
use std::alloc::{AllocError, AllocFailed, Global};

/// Why a text has no tokens.
#[derive(Clone, Copy, Debug, PartialEq, Eq)]
pub enum TokenFault {
    /// The lexical rules allow no tokens. The first line that breaks them is counted from 1 and is for people.
    BadText(usize),
    /// The text is longer than 1,048,576 bytes.
    TooLong,
    /// Memory was refused.
    NoMemory,
}

impl From<AllocError> for TokenFault {
    ghost use Rattle.si_token.specs.declared.scan.TokenFault.TheVariants.{NoMemory};

    ghost from_gives = { λ _ e. e ≡ NoMemory };

    fn from(_: AllocError) -> TokenFault {
        TokenFault::NoMemory
    }
}

impl<T: Drop> From<AllocFailed<T>> for TokenFault {
    ghost use Rattle.si_token.specs.declared.scan.TokenFault.TheVariants.{NoMemory};

    ghost from_gives = { λ _ e. e ≡ NoMemory };

    fn from(_: AllocFailed<T>) -> TokenFault {
        TokenFault::NoMemory
    }
}

// What a name is: a keyword where it spells one.
fn name_kind(word: &str) -> TokenKind
    ensures { kind_of result ≡ name_kind (spelled keywords word.now) }
{
    match keyword(word) {
        Some(found) => TokenKind::Keyword(found),
        None => TokenKind::Name,
    }
}

// What a literal in quotes is.
fn literal_kind(word: &str) -> TokenKind
    ensures { kind_of result ≡ literal_kind (begins_bytes word.now) }
{
    if begins_bytes(word.as_bytes()) {
        TokenKind::Bytes
    } else {
        TokenKind::Str
    }
}

// The kind of token that a word is; blanks, comments and line ends are none.
fn token_kind(sort: Sort, word: &str) -> Option<TokenKind>
    ensures { option_map kind_of result ≡ lines.kind_of (sort_of sort) word.now }
{
    match sort {
        Sort::Name => Some(name_kind(word)),
        Sort::Int => Some(TokenKind::Int),
        Sort::Text => Some(literal_kind(word)),
        Sort::Operator => {
            let found = symbol(word.as_bytes())?;
            Some(TokenKind::Symbol(found))
        }
        Sort::Spaces | Sort::Tabs | Sort::Comment | Sort::LineEnd => None,
    }
}

// The word at the front of what is left, and what follows it.
fn cut<'a>(rest: &'a str) -> Option<(Sort, &'a str, &'a str)>
    ensures word { IfSome result (λ w. word_at rest.now ≡ Some (sort_of w.0, length w.1.now)) }
    ensures parts { IfSome result (λ w. rest.now ≡ w.1.now ++ w.2.now) }
    ensures some { IfSome result (λ w. 0 < length w.1.now) }
    ensures utf8 { IfSome result (λ w. IsUtf8 w.2.now) }
    ensures none { IfNone result (word_at rest.now ≡ None) }
{
    let (sort, length) = longest_word(rest.as_bytes())?;
    let (front, after) = rest.split_at(length);
    if is_allowed(sort, front, after) {
        Some((sort, front, after))
    } else {
        None
    }
}

// Puts the token after the others, where there is one.
fn keep<'a>(all: &mut TokenRow<'a>, made: Option<Token<'a>>) -> Result<(), AllocError>
    requires slice { IfSome made (IsSliceOf all.old.source) }
    requires whole { IfSome made (λ t. IsWhole all.old.source t.span) }
    ensures source { all.new.source ≡ all.old.source }
    ensures items { OnOk result (all.new.items ≡ all.old.items ++ option_to_list (option_map plain made.entry)) }
{
    if let Some(token) = made {
        all.push(token)?;
    }
    Ok(())
}

// Puts what stands before a line's first token after the other tokens: an INDENT, or DEDENTs.
fn begin_line<'a>(
    all: &mut TokenRow<'a>,
    columns: &mut Vec<usize>,
    place: Place,
) -> Result<(), TokenFault>
    requires room { place.at < 2 ^ 31 }
    requires within { IsWithin place }
    ensures source { all.new.source ≡ all.old.source }
    ensures begun { OnOk result (Stands place.at place.line (begins (place_of place) (reverse columns.old.items)) (reverse columns.new.items) all.old.items all.new.items) }
    ensures refused { IfErr result (λ fault. IsBadText fault → begins (place_of place) (reverse columns.old.items) ≡ None) }
    ensures short { IfErr result (λ fault. IsTooLong fault → ⊥) }
{
    if place.has_tab {
        return Err(TokenFault::BadText(place.line));
    }
    if place.column > innermost(columns) {
        columns.push(place.column)?;
        put_empty(all, place, TokenKind::Indent)?;
        return Ok(());
    }
    let closed = close_deeper(columns, place.column);
    if place.column != innermost(columns) {
        return Err(TokenFault::BadText(place.line));
    }
    dedents(all, place, closed)?;
    Ok(())
}

// Puts what stands before a word after the other tokens, where the word is a line's first token.
fn before_word<'a>(
    all: &mut TokenRow<'a>,
    columns: &mut Vec<usize>,
    place: Place,
    kind: Option<TokenKind>,
) -> Result<(), TokenFault>
    requires room { place.at < 2 ^ 31 }
    requires within { IsWithin place }
    ensures source { all.new.source ≡ all.old.source }
    ensures begun { OnOk result (Stands place.at place.line (before_word (place_of place) (reverse columns.old.items) (option_map kind_of kind)) (reverse columns.new.items) all.old.items all.new.items) }
    ensures refused { IfErr result (λ fault. IsBadText fault → before_word (place_of place) (reverse columns.old.items) (option_map kind_of kind) ≡ None) }
    ensures short { IfErr result (λ fault. IsTooLong fault → ⊥) }
{
    if kind.is_none() || place.begun {
        return Ok(());
    }
    begin_line(all, columns, place)
}

/// The tokens of a text, in order, the last of them the end.
///
/// `BadText` where the lexical rules allow none: a NUL, a byte that begins no word, a number or literal that is none, an
/// escape that stands for no character, a tab before the first token of a line, a line that closes a block and stands at
/// the column of none that stays open.
/// `TooLong` where the text has more than 1,048,576 bytes (this project's own limit), whatever they are.
/// `NoMemory` only where memory was refused.
pub fn tokens(alloc: Global, text: &str) -> Result<TokenRow<'_>, TokenFault>
    // What is answered is the one list that the rules allow.
    ensures tokens { IfOk result (λ all. HasTokens (map token_of all.items) text.now) }
    ensures only { IfOk result (λ all. (ts : List tokens.Token) → HasTokens ts text.now → ts ≡ map token_of all.items) }

    // Each token is the part of the source that its span says, and they stand one after the other.
    ensures slices { IfOk result (λ all. All (IsSliceOf text.now) all.items) }
    ensures order { IfOk result (λ all. LieBetween 0 all.items (length text.now)) }
    ensures end { IfOk result (λ all. EndsIn End all.items) }

    // Each begins in the line that its span says, counted over the whole source.
    ensures lines { IfOk result (λ all. All (IsOnLine text.now) all.items) }

    // A text is called too long just where it is.
    ensures short { IfOk result (λ _. length text.now ≤ 1048576) }
    ensures long { IfErr result (λ fault. IsTooLong fault → 1048576 < length text.now) }

    // A text is refused only where the rules allow no tokens.
    ensures refused { IfErr result (λ fault. IsBadText fault → (ts : List tokens.Token) → HasTokens ts text.now → ⊥) }
{
    if text.len() > MAX_TEXT_BYTES {
        return Err(TokenFault::TooLong);
    }
    let mut all = TokenRow::new(alloc, text);
    let mut columns = Vec::new(alloc);
    let mut place = line_start(0, 1);
    let mut rest = text;
    while !rest.is_empty() {
        let Some((sort, front, after)) = cut(rest) else {
            return Err(TokenFault::BadText(place.line));
        };
        let kind = token_kind(sort, front);
        before_word(&mut all, &mut columns, place, kind)?;
        let (made, next) = laid(place, kind, sort, front);
        keep(&mut all, made)?;
        let line = place.line + line_ends(rest.as_bytes(), front.len());
        place = Place { line, ..next };
        rest = after;
    }
    keep(&mut all, missing_newline(place))?;
    dedents(&mut all, place, columns.len())?;
    all.push(token_at(place, TokenKind::End, ""))?;
    Ok(all)
}
