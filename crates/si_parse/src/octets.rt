// Bytes literals beside each other.

ghost use Rattle.std.specs.Prelude.{◌≡◌, [], ◌++◌, OnOk};
ghost use Rattle.si_parse.specs.inner.Gives.{Gives, from};
ghost use Rattle.si_parse.specs.inner.Expressions.{octets_by, bytes_by};

use crate::fault::ParseFault;
use crate::literal::bytes_value;
use crate::lookahead::{line_at, token_at};
use si_plain::limits::MAX_STR_LENGTH;
use si_token::{TokenKind, TokenRow};
use std::alloc::{AllocError, Global};

// The bytes of the bytes literals from the place on, and the place after them.
fn octets(alloc: Global, tokens: &TokenRow, at: usize) -> Result<(Vec<u8>, usize), ParseFault>
    ensures { Gives (λ x. (x.0.items, from tokens.now x.1)) result (octets_by [] (from tokens.now at)) }
{
    let mut bytes = Vec::new(alloc);
    for place in at..tokens.len() {
        let Some(token) = token_at(tokens, place) else {
            return Ok((bytes, place));
        };
        let TokenKind::Bytes = token.kind else {
            return Ok((bytes, place));
        };
        let value = bytes_value(alloc, token.text, token.line())?;
        append(&mut bytes, value.as_slice())?;
    }
    Ok((bytes, tokens.len()))
}

// Puts bytes after others.
fn append(bytes: &mut Vec<u8>, more: &[u8]) -> Result<(), AllocError>
    ensures { OnOk result (bytes.new.items ≡ bytes.old.items ++ more.now) }
{
    bytes.extend_from_slice(more)
}

// The same, no more than bytes may be.
pub(crate) fn bytes_at(
    alloc: Global,
    tokens: &TokenRow,
    at: usize,
) -> Result<(Vec<u8>, usize), ParseFault>
    ensures { Gives (λ x. (x.0.items, from tokens.now x.1)) result (bytes_by (from tokens.now at)) }
{
    let (bytes, end) = octets(alloc, tokens, at)?;
    if bytes.len() > MAX_STR_LENGTH {
        return Err(ParseFault::Syntax(line_at(tokens, at)));
    }
    Ok((bytes, end))
}
