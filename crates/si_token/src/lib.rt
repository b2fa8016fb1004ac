// The tokens of a script's text.
//
// A text is cut into words, each the longest that begins there: names, numbers, literals, operators, and the blanks,
// comments and line ends between them. The layout then makes tokens of words: blanks and comments make none, a
// line end makes one after a token and outside brackets, and what is deeper than the line before is a block.
//
// `tokens` answers the one list of tokens that the definition allows (`HasTokens` of
// si_semantics), each a slice of the source, in order, and in the line that its span says; `BadText` says that there is
// none, `TooLong` that the text is longer than a script may be.
//
// Read: `token` (what a token is), `row` (the tokens of a text, as they are kept), `symbols` and `keywords` (the
// spellings), `numbers` (the values of integer literals), `literal` (the quotes and escapes of literals of strs and
// bytes), `words` (the word at the front, and where it may stand), `layout` (lines, brackets and blocks), `scan` (the loop
// over the text).
#![tactic(auto)]

mod keywords;
mod layout;
mod literal;
mod numbers;
mod row;
mod scan;
mod symbols;
mod token;
mod words;

pub use literal::{begins_raw, between_quotes, escape, is_ascii, next_character, unprefixed};
pub use numbers::int_value;
pub use row::TokenRow;
pub use scan::{TokenFault, tokens};
pub use token::{Keyword, Span, Symbol, Token, TokenKind};
