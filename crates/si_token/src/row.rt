// The tokens of a text, as they are kept.

ghost use Rattle.std.specs.Prelude.{◌≡◌, ◌<◌, ◌^◌, [], ◌∷◌, ◌++◌, length, slice_get, OnSome, OnOk, OnErr};
ghost use Rattle.std.specs.Option.{option_map};
ghost use Rattle.si_token.specs.Spans.{IsSliceOf};
ghost use Rattle.si_token.specs.Rows.{plain};
ghost use Rattle.si_token.specs.inner.Kept.{IsWhole};

use crate::token::{Span, Token, TokenKind};
use std::alloc::{AllocError, Global};
use std::marker::Model;

// A token without its text: what it is, and where its text lies in the source.
#[derive(Clone, Copy)]
struct Spot {
    span: Span,
    kind: TokenKind,
}

// There is one for each word of a script, and so they are small.
const _: () = prove!(size_of::<Spot>() <= 16);

impl Spot {
    // Where its text begins and ends.
    fn bounds(self) -> (usize, usize)
        ensures { result ≡ (self.span.start, self.span.end) }
    {
        (self.span.start as usize, self.span.end as usize)
    }
}

/// The tokens of a text, in order. They borrow the text, and each takes 16 bytes: its own text is the part of the source
/// where it stands.
#[derive(Drop)]
pub struct TokenRow<'a> {
    source: &'a str,
    spots: Vec<Spot>,
}

impl<'a> Model for TokenRow<'a> {
    ghost use Rattle.si_token.specs.Rows.{Row};
    ghost use Rattle.si_token.specs.inner.Kept.{row_in, AreWhole};

    ghost Value = { Row };

    ghost view = { λ r. row_in r.source.now r.spots.items };

    ghost invariant = { λ r. AreWhole r.source.now r.spots.items };
}

impl<'a> TokenRow<'a> {
    // No token of this source.
    pub(crate) fn new(alloc: Global, source: &'a str) -> TokenRow<'a>
        ensures source { result.source ≡ source.now }
        ensures items { result.items ≡ [] }
    {
        TokenRow {
            source,
            spots: Vec::new(alloc),
        }
    }

    /// How many tokens there are.
    pub fn len(&self) -> usize
        ensures { result ≡ length self.now.items }
    {
        self.spots.len()
    }

    /// The token at a place, counted from 0, if there are so many.
    pub fn get(&self, at: usize) -> Option<Token<'a>>
        ensures token { option_map plain result ≡ slice_get self.now.items at }
        ensures few { OnSome result (at < 2 ^ 63) }
    {
        let spot = *self.spots.get(at)?;
        let (start, end) = spot.bounds();
        let text = if start < end {
            &self.source[start..end]
        } else {
            ""
        };
        Some(Token {
            text,
            span: spot.span,
            kind: spot.kind,
        })
    }

    // Puts a token of the source after the others. Where memory is refused they are as before.
    pub(crate) fn push(&mut self, token: Token<'a>) -> Result<(), AllocError>
        requires slice { IsSliceOf self.old.source token }
        requires whole { IsWhole self.old.source token.span }
        ensures source { self.new.source ≡ self.old.source }
        ensures items { OnOk result (self.new.items ≡ self.old.items ++ plain token.entry ∷ []) }
        ensures err { OnErr result (self.new ≡ self.old) }
    {
        let spot = Spot {
            span: token.span,
            kind: token.kind,
        };
        self.spots.push(spot)?;
        Ok(())
    }
}
