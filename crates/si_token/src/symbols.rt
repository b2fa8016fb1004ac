// The operators and delimiters, by their bytes.

ghost use Rattle.std.specs.Prelude.{◌≡◌, [], ◌∷◌};
ghost use Rattle.std.specs.Option.{option_map};
ghost use Rattle.si_semantics.specs.Words.{spelled, symbols};
ghost use Rattle.si_token.specs.inner.Reading.{symbol_length};
ghost use Rattle.si_token.specs.Views.{symbol_of};

use crate::token::Symbol;

#[tactic(auto, unfolding(si_semantics::specs::Words::symbols))]
fn of_one(a: u8) -> Option<Symbol>
    ensures { option_map symbol_of result ≡ spelled symbols (a ∷ []) }
{
    match a {
        b'+' => Some(Symbol::Plus),
        b'-' => Some(Symbol::Minus),
        b'*' => Some(Symbol::Star),
        b'%' => Some(Symbol::Percent),
        b'&' => Some(Symbol::Ampersand),
        b'|' => Some(Symbol::Bar),
        b'^' => Some(Symbol::Caret),
        b'~' => Some(Symbol::Tilde),
        b'<' => Some(Symbol::Less),
        b'>' => Some(Symbol::Greater),
        b'(' => Some(Symbol::LeftParenthesis),
        b')' => Some(Symbol::RightParenthesis),
        b'[' => Some(Symbol::LeftBracket),
        b']' => Some(Symbol::RightBracket),
        b'{' => Some(Symbol::LeftBrace),
        b'}' => Some(Symbol::RightBrace),
        b',' => Some(Symbol::Comma),
        b':' => Some(Symbol::Colon),
        b'.' => Some(Symbol::Dot),
        b';' => Some(Symbol::Semicolon),
        b'=' => Some(Symbol::Equal),
        _ => None,
    }
}

// A byte and `=`.
#[tactic(auto, unfolding(si_semantics::specs::Words::symbols))]
fn of_equal(a: u8) -> Option<Symbol>
    ensures { option_map symbol_of result ≡ spelled symbols (a ∷ 61 ∷ []) }
{
    match a {
        b'<' => Some(Symbol::LessEqual),
        b'>' => Some(Symbol::GreaterEqual),
        b'=' => Some(Symbol::EqualEqual),
        b'!' => Some(Symbol::NotEqual),
        b'+' => Some(Symbol::PlusEqual),
        b'-' => Some(Symbol::MinusEqual),
        b'*' => Some(Symbol::StarEqual),
        b'%' => Some(Symbol::PercentEqual),
        b'&' => Some(Symbol::AmpersandEqual),
        b'|' => Some(Symbol::BarEqual),
        b'^' => Some(Symbol::CaretEqual),
        _ => None,
    }
}

// A byte twice.
#[tactic(auto, unfolding(si_semantics::specs::Words::symbols))]
fn of_twice(a: u8) -> Option<Symbol>
    ensures { option_map symbol_of result ≡ spelled symbols (a ∷ a ∷ []) }
{
    match a {
        b'*' => Some(Symbol::DoubleStar),
        b'/' => Some(Symbol::DoubleSlash),
        b'<' => Some(Symbol::LeftShift),
        b'>' => Some(Symbol::RightShift),
        b'=' => Some(Symbol::EqualEqual),
        _ => None,
    }
}

// A byte twice and `=`.
#[tactic(auto, unfolding(si_semantics::specs::Words::symbols))]
fn of_twice_equal(a: u8) -> Option<Symbol>
    ensures { option_map symbol_of result ≡ spelled symbols (a ∷ a ∷ 61 ∷ []) }
{
    match a {
        b'*' => Some(Symbol::DoubleStarEqual),
        b'/' => Some(Symbol::DoubleSlashEqual),
        b'<' => Some(Symbol::LeftShiftEqual),
        b'>' => Some(Symbol::RightShiftEqual),
        _ => None,
    }
}

#[tactic(auto, unfolding(si_semantics::specs::Words::symbols))]
fn of_two(a: u8, b: u8) -> Option<Symbol>
    ensures { option_map symbol_of result ≡ spelled symbols (a ∷ b ∷ []) }
{
    if b == b'=' {
        of_equal(a)
    } else if a == b {
        of_twice(a)
    } else {
        None
    }
}

#[tactic(auto, unfolding(si_semantics::specs::Words::symbols))]
fn of_three(a: u8, b: u8, c: u8) -> Option<Symbol>
    ensures { option_map symbol_of result ≡ spelled symbols (a ∷ b ∷ c ∷ []) }
{
    if a == b && c == b'=' {
        of_twice_equal(a)
    } else {
        None
    }
}

/// The symbol with this spelling.
#[tactic(auto, unfolding(si_semantics::specs::Words::symbols))]
pub fn symbol(word: &[u8]) -> Option<Symbol>
    ensures { option_map symbol_of result ≡ spelled symbols word.now }
{
    match word {
        [a] => of_one(*a),
        [a, b] => of_two(*a, *b),
        [a, b, c] => of_three(*a, *b, *c),
        _ => None,
    }
}

/// The length of the longest symbol at the front.
pub fn symbol_length(bytes: &[u8]) -> Option<usize>
    ensures { result ≡ symbol_length bytes.now }
{
    match bytes {
        [a, b, c, ..] if of_three(*a, *b, *c).is_some() => Some(3),
        [a, b, ..] if of_two(*a, *b).is_some() => Some(2),
        [a, ..] if of_one(*a).is_some() => Some(1),
        _ => None,
    }
}
