// The values of integer literals.

ghost use Rattle.std.specs.Prelude.{◌≡◌, ◌+◌, ◌*◌, ◌<◌, ◌≤◌, SomeIff, false};
ghost use Rattle.std.specs.Char.{digit_value};
ghost use Rattle.si_semantics.specs.Literals.{value_of_int, in_range, after_prefix, digits_after};

/// The greatest value of an integer literal.
pub const MAX_INT: u64 = 9_223_372_036_854_775_807;

/// The value of an integer literal, where it has one: digits with `_` between them, decimal ones or after `0x`, `0o`
/// or `0b`, and at most 9223372036854775807.
pub fn int_value(literal: &[u8]) -> Option<i64>
    ensures { result ≡ value_of_int literal.now }
{
    match literal {
        [b'0', b'x' | b'X', digits @ ..] => prefixed_value(16, digits),
        [b'0', b'o' | b'O', digits @ ..] => prefixed_value(8, digits),
        [b'0', b'b' | b'B', digits @ ..] => prefixed_value(2, digits),
        [b'0', zeros @ ..] => digits_value(1, false, zeros),
        _ => digits_value(10, true, literal),
    }
}

// The value of the digits after a prefix, of which there is at least one.
fn prefixed_value(base: u64, digits: &[u8]) -> Option<i64>
    requires some { 0 < base }
    requires small { base ≤ 36 }
    ensures { result ≡ in_range (after_prefix base digits.now) }
{
    if digits.is_empty() {
        return None;
    }
    digits_value(base, false, digits)
}

// The value of digits. One `_` may stand before a digit, but before the first one only where none is due.
fn digits_value(base: u64, first_is_due: bool, digits: &[u8]) -> Option<i64>
    requires some { 0 < base }
    requires small { base ≤ 36 }
    ensures { result ≡ in_range (digits_after base first_is_due 0 digits.now) }
{
    let mut due = first_is_due;
    let mut value: u64 = 0;
    for c in digits {
        if *c == b'_' && !due {
            due = true;
        } else {
            value = with_digit(base, value, digit_in(base, *c)?)?;
            due = false;
        }
    }
    if due { None } else { Some(value as i64) }
}

// The value of a character as a digit of a base.
fn digit_in(base: u64, c: u8) -> Option<u64>
    requires { base ≤ 36 }
    ensures { SomeIff result (digit_value c < base) (digit_value c) }
{
    let digit = u64::from((c as char).to_digit(36)?);
    if digit < base { Some(digit) } else { None }
}

// The value with one digit more, where it is not past the greatest.
fn with_digit(base: u64, value: u64, digit: u64) -> Option<u64>
    ensures { SomeIff result (value * base + digit ≤ MAX_INT) (value * base + digit) }
{
    let next = value.checked_mul(base)?.checked_add(digit)?;
    if next <= MAX_INT { Some(next) } else { None }
}
