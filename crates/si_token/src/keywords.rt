// The keywords, by their spelling.

ghost use Rattle.std.specs.Prelude.{◌≡◌, map, nat_eq};
ghost use Rattle.std.specs.Option.{option_map};
ghost use Rattle.std.specs.Cmp.Lexicographic.{pointwise};
ghost use Rattle.si_semantics.specs.Words.{spelled, keywords};
ghost use Rattle.si_token.specs.Views.{keyword_of, entry_of};

use crate::token::Keyword;

const OF_TWO: [(&str, Keyword); 5] = [
    ("as", Keyword::As),
    ("if", Keyword::If),
    ("in", Keyword::In),
    ("is", Keyword::Is),
    ("or", Keyword::Or),
];

const OF_THREE: [(&str, Keyword); 6] = [
    ("and", Keyword::And),
    ("def", Keyword::Def),
    ("del", Keyword::Del),
    ("for", Keyword::For),
    ("not", Keyword::Not),
    ("try", Keyword::Try),
];

const OF_FOUR: [(&str, Keyword); 7] = [
    ("None", Keyword::None),
    ("True", Keyword::True),
    ("elif", Keyword::Elif),
    ("else", Keyword::Else),
    ("from", Keyword::From),
    ("pass", Keyword::Pass),
    ("with", Keyword::With),
];

const OF_FIVE: [(&str, Keyword); 8] = [
    ("False", Keyword::False),
    ("async", Keyword::Async),
    ("await", Keyword::Await),
    ("break", Keyword::Break),
    ("class", Keyword::Class),
    ("raise", Keyword::Raise),
    ("while", Keyword::While),
    ("yield", Keyword::Yield),
];

const OF_SIX: [(&str, Keyword); 6] = [
    ("assert", Keyword::Assert),
    ("except", Keyword::Except),
    ("global", Keyword::Global),
    ("import", Keyword::Import),
    ("lambda", Keyword::Lambda),
    ("return", Keyword::Return),
];

const OF_SEVEN: [(&str, Keyword); 1] = [("finally", Keyword::Finally)];

const OF_EIGHT: [(&str, Keyword); 2] = [
    ("continue", Keyword::Continue),
    ("nonlocal", Keyword::Nonlocal),
];

// Whether two words are the same, as their first bytes tell most often.
fn are_same(spelling: &str, word: &str) -> bool
    ensures { result ≡ pointwise nat_eq spelling.now word.now }
{
    match (spelling.as_bytes(), word.as_bytes()) {
        ([first, ..], [other, ..]) if *first != *other => false,
        _ => spelling == word,
    }
}

// The keyword that the word spells in this table.
fn among(table: &[(&str, Keyword)], word: &str) -> Option<Keyword>
    ensures { option_map keyword_of result ≡ spelled (map entry_of table.now) word.now }
{
    for (spelling, keyword) in table {
        if are_same(spelling, word) {
            return Some(*keyword);
        }
    }
    None
}

/// The keyword with this spelling. Only those of its length are looked at.
pub fn keyword(word: &str) -> Option<Keyword>
    ensures { option_map keyword_of result ≡ spelled keywords word.now }
{
    match word.len() {
        2 => among(&OF_TWO, word),
        3 => among(&OF_THREE, word),
        4 => among(&OF_FOUR, word),
        5 => among(&OF_FIVE, word),
        6 => among(&OF_SIX, word),
        7 => among(&OF_SEVEN, word),
        8 => among(&OF_EIGHT, word),
        _ => None,
    }
}
