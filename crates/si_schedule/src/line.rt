// Lines, and the numbers in them.

ghost use Rattle.std.specs.Prelude.{◌≡◌, ◌≢◌, ◌<◌, ◌^◌, ℕ, ◌++◌, ◌∷◌, IfSome, IfNone, MatchOption, IsTrue, ◌↔◌};
ghost use Rattle.std.specs.Fmt.{decimal};
ghost use Rattle.si_schedule.specs.BadLines.{IsLine};
ghost use Rattle.si_schedule.specs.inner.Reading.{IsCanonical};

// The first line, and what follows it; none where no line is ended.
pub(crate) fn next_line(text: &str) -> Option<(&str, &str)>
    ensures { MatchOption result (IsLine text.now) (λ x. (text.now ≡ x.0.now ++ 10 ∷ x.1.now) × IsLine x.0.now) }
{
    text.split_once('\n')
}

// Whether the line is this word.
pub(crate) fn is_word(line: &str, word: &str) -> bool
    ensures { IsTrue result ↔ (line.now ≡ word.now) }
{
    line == word
}

// The number that stands in the line after a word.
pub(crate) fn number_after(line: &str, word: &str) -> Option<u64>
    ensures some { IfSome result (λ n. line.now ≡ word.now ++ decimal n) }
    ensures small { IfSome result (λ n. n < 2 ^ 64) }
    ensures none { IfNone result ((n : ℕ) → n < 2 ^ 64 → line.now ≢ word.now ++ decimal n) }
{
    number(line.strip_prefix(word)?)
}

// The number that a text is, in decimal with no sign and no leading zeros.
pub(crate) fn number(text: &str) -> Option<u64>
    ensures some { IfSome result (λ n. text.now ≡ decimal n) }
    ensures small { IfSome result (λ n. n < 2 ^ 64) }
    ensures none { IfNone result ((n : ℕ) → n < 2 ^ 64 → text.now ≢ decimal n) }
{
    if !is_canonical(text.as_bytes()) {
        return None;
    }
    match text.parse::<u64>() {
        Ok(n) => Some(n),
        Err(_) => None,
    }
}

// It has no sign, and no leading zero.
fn is_canonical(bytes: &[u8]) -> bool
    ensures { IsTrue result ↔ IsCanonical bytes.now }
{
    match bytes {
        [] => false,
        [b'+', ..] => false,
        [b'0', ..] => bytes.len() == 1,
        _ => true,
    }
}
