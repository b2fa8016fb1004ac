// Integers of 64 bits, and how they are read from texts: values as CPython 3.14 has them, within the range of 64 bits.

use si_plain::{
    Kind, add, bit_and, bit_or, bit_xor, floordiv, invert, modulo, mul, neg, power, read_int, shl,
    shr, sub,
};

const MIN: i64 = i64::MIN;

// Whether a call has given this.
fn gives(told: Result<i64, Kind>, wanted: i64) -> bool {
    match told {
        Ok(value) => value == wanted,
        Err(_) => false,
    }
}

// Whether a call has raised this.
fn raises(told: Result<i64, Kind>, wanted: Kind) -> bool {
    match told {
        Ok(_) => false,
        Err(kind) => kind == wanted,
    }
}

#[test]
fn floor_division(rt: HostRuntime) {
    for (a, b, quotient, rest) in [
        (7, 2, 3, 1),
        (-7, 2, -4, 1),
        (7, -2, -4, -1),
        (-7, -2, 3, -1),
    ] {
        assert!(rt; gives(floordiv(a, b), quotient), "{a} // {b}");
        assert!(rt; gives(modulo(a, b), rest), "{a} % {b}");
    }
}

#[test]
fn floor_division_past_the_ends(rt: HostRuntime) {
    assert!(rt; raises(floordiv(5, 0), Kind::ZeroDivisionError));
    assert!(rt; raises(modulo(5, 0), Kind::ZeroDivisionError));
    assert!(rt; raises(floordiv(MIN, -1), Kind::OverflowError));
    assert!(rt; gives(modulo(MIN, -1), 0));
}

#[test]
fn sums_and_products(rt: HostRuntime) {
    assert!(rt; raises(add(i64::MAX, 1), Kind::OverflowError));
    assert!(rt; raises(sub(MIN, 1), Kind::OverflowError));
    assert!(rt; raises(mul(3_037_000_500, 3_037_000_500), Kind::OverflowError));
    assert!(rt; gives(mul(MIN, 1), MIN));
    assert!(rt; raises(neg(MIN), Kind::OverflowError));
}

#[test]
fn powers(rt: HostRuntime) {
    for (a, b, want) in [
        (0, 0, 1),
        (2, 62, 4_611_686_018_427_387_904),
        (-2, 63, MIN),
        (3, 39, 4_052_555_153_018_976_267),
        (-3, 3, -27),
        (-1, 4_611_686_018_427_387_905, -1),
    ] {
        assert!(rt; gives(power(a, b), want), "{a} ** {b}");
    }
}

#[test]
fn powers_past_the_ends(rt: HostRuntime) {
    for (a, b) in [(2, 63), (-2, 64), (3, 40), (10, 19), (7, i64::MAX)] {
        assert!(rt; raises(power(a, b), Kind::OverflowError), "{a} ** {b}");
    }
    assert!(rt; raises(power(2, -1), Kind::TypeError));
}

#[test]
fn bits(rt: HostRuntime) {
    for (a, b, both, either, one) in [
        (12, 10, 8, 14, 6),
        (-1, 5, 5, -1, -6),
        (-4, 6, 4, -2, -6),
        (MIN, -1, MIN, -1, i64::MAX),
    ] {
        let right = bit_and(a, b) == both && bit_or(a, b) == either && bit_xor(a, b) == one;
        assert!(rt; right, "{a} and {b}");
    }
}

#[test]
fn all_bits_of_one(rt: HostRuntime) {
    for (a, want) in [(0, -1), (5, -6), (-1, 0), (MIN, i64::MAX)] {
        assert!(rt; invert(a) == want, "~{a}");
    }
}

#[test]
fn shifts_to_the_left(rt: HostRuntime) {
    for (a, b, want) in [
        (1, 62, 4_611_686_018_427_387_904),
        (-1, 63, MIN),
        (3, 61, 6_917_529_027_641_081_856),
        (0, 100, 0),
    ] {
        assert!(rt; gives(shl(a, b), want), "{a} << {b}");
    }
    assert!(rt; raises(shl(1, 63), Kind::OverflowError));
    assert!(rt; raises(shl(3, 62), Kind::OverflowError));
    assert!(rt; raises(shl(1, -1), Kind::ValueError));
}

#[test]
fn shifts_to_the_right(rt: HostRuntime) {
    for (a, b, want) in [(-1, 100, -1), (-7, 1, -4), (7, 1, 3), (MIN, 63, -1)] {
        assert!(rt; gives(shr(a, b), want), "{a} >> {b}");
    }
    assert!(rt; raises(shr(1, -1), Kind::ValueError));
}

#[test]
fn integers_of_texts(rt: HostRuntime) {
    for (text, want) in [
        ("  12_345\n", 12_345),
        ("-9223372036854775808", i64::MIN),
        ("\x0b7\x0c", 7),
        ("+007", 7),
        ("-0", 0),
    ] {
        assert!(rt; gives(read_int(text), want), "{text:?}");
    }
}

#[test]
fn texts_of_no_integer(rt: HostRuntime) {
    for text in [
        "",
        " ",
        "1__2",
        "_1",
        "1_",
        "+ 1",
        "12 3",
        "0x1",
        "--1",
        "+_1",
        "-",
        "99999999999999999999x",
    ] {
        assert!(rt; raises(read_int(text), Kind::ValueError), "{text:?}");
    }
}

#[test]
fn texts_of_larger_integers(rt: HostRuntime) {
    for text in [
        "9223372036854775808",
        "-9223372036854775809",
        "99999999999999999999",
    ] {
        assert!(rt; raises(read_int(text), Kind::OverflowError), "{text:?}");
    }
}
