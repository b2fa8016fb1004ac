// Texts and how they are written as literals, names, lines, kinds of exception, and limits.

use si_plain::{
    Kind, Limits, Names, NoMemory, Range, Text, line_ends, push_repr, repr_bytes, repr_str,
};
use std::alloc::Global;
use std::test::Fail;

const HALF: &str = "\u{1f600}\u{20ac}\u{e9}a";

const WHOLE: &str = "\u{1f600}\u{20ac}\u{e9}a\u{1f600}\u{20ac}\u{e9}a";

// The first of these texts, made of a character and a str.
fn half(alloc: Global) -> Result<Text, NoMemory> {
    let mut text = Text::new(alloc);
    text.push('\u{1f600}')?;
    text.push_str("\u{20ac}\u{e9}a")?;
    Ok(text)
}

// Appends a clone of a text to it.
fn double(text: &mut Text) -> Result<(), NoMemory> {
    let half = text.clone()?;
    text.append(&half)
}

// Whether a text is equal to the text of a str.
fn is_text(alloc: Global, text: &Text, wanted: &str) -> Result<bool, NoMemory> {
    let wanted = Text::from_str(alloc, wanted)?;
    Ok(*text == wanted)
}

// Whether it differs from that.
fn is_other(alloc: Global, text: &Text, other: &str) -> Result<bool, NoMemory> {
    let other = Text::from_str(alloc, other)?;
    Ok(*text != other)
}

// Whether a text is the second of these, and neither of its halves.
fn is_whole(alloc: Global, text: &Text) -> Result<bool, NoMemory> {
    let shown = text.len() == 8 && text.as_str() == WHOLE;
    Ok(shown && is_text(alloc, text, WHOLE)? && is_other(alloc, text, HALF)?)
}

#[test]
fn a_text_grows(rt: HostRuntime) -> Result<(), Fail> {
    assert!(rt; Text::new(rt.alloc()).is_empty());
    let mut text = half(rt.alloc())?;
    double(&mut text)?;
    assert!(rt; is_whole(rt.alloc(), &text)?);
    Ok(())
}

// Whether a str is written so as a literal.
fn is_written(alloc: Global, text: &str, wanted: &str) -> Result<bool, NoMemory> {
    let literal = repr_str(alloc, text)?;
    Ok(literal.as_str() == wanted)
}

#[test]
fn a_str_as_python_writes_it(rt: HostRuntime) -> Result<(), Fail> {
    for (text, want) in [
        ("", "''"),
        ("it's", "\"it's\""),
        ("say \"hi\"", "'say \"hi\"'"),
        ("it's \"so\"", "'it\\'s \"so\"'"),
        ("a\\b\n\r\t\0\x1f\x7f", "'a\\\\b\\n\\r\\t\\x00\\x1f\\x7f'"),
        (
            "\x08\u{e9}\u{20ac}\u{1f600}",
            "'\\x08\u{e9}\u{20ac}\u{1f600}'",
        ),
    ] {
        assert!(rt; is_written(rt.alloc(), text, want)?, "{text:?}");
    }
    Ok(())
}

#[test]
fn a_repr_after_a_text(rt: HostRuntime) -> Result<(), Fail> {
    let mut out = Text::from_str(rt.alloc(), "k=")?;
    push_repr(&mut out, "it's")?;
    assert!(rt; out.as_str() == "k=\"it's\"");
    Ok(())
}

// Whether bytes are written so as a literal.
fn are_written(alloc: Global, bytes: &[u8], wanted: &str) -> Result<bool, NoMemory> {
    let literal = repr_bytes(alloc, bytes)?;
    Ok(literal.as_str() == wanted)
}

#[test]
fn bytes_as_python_writes_them(rt: HostRuntime) -> Result<(), Fail> {
    let alloc = rt.alloc();
    assert!(rt; are_written(alloc, b"it's", "b\"it's\"")?);
    assert!(rt; are_written(alloc, b"a\"'\\", "b'a\"\\'\\\\'")?);
    let bytes = [0, 9, 10, 13, 31, 32, 126, 127, 128, 255];
    let want = "b'\\x00\\t\\n\\r\\x1f ~\\x7f\\x80\\xff'";
    assert!(rt; are_written(alloc, &bytes, want)?);
    Ok(())
}

// Gives two names their slots, of which one is given twice: whether these are 0 and 1.
fn are_given_slots(names: &mut Names) -> Result<bool, NoMemory> {
    let first = names.slot_of("a")? == 0;
    let second = names.slot_of("b")? == 1;
    Ok(first && second && names.slot_of("a")? == 0)
}

// Whether these two are known by their slots, and the second by its name.
fn are_known(names: &Names) -> bool {
    let known = names.len() == 2 && names.get(1) == Some("b") && names.get(2).is_none();
    known && names.position("b") == Some(1)
}

// Whether the first is known, and the second isn't.
fn is_first_alone(names: &Names) -> bool {
    names.position("a") == Some(0) && names.position("b").is_none()
}

#[test]
fn a_name_keeps_its_slot(rt: HostRuntime) -> Result<(), Fail> {
    let mut names = Names::new(rt.alloc());
    assert!(rt; names.position("a").is_none());
    assert!(rt; are_given_slots(&mut names)?);
    assert!(rt; are_known(&names));
    names.truncate(1);
    assert!(rt; is_first_alone(&names));
    Ok(())
}

#[test]
fn line_ends_before_each_place(rt: HostRuntime) {
    let text = b"a\r\nb\n\r\rc";
    for (count, ends) in [0, 0, 0, 1, 1, 2, 3, 4, 4, 4].into_iter().enumerate() {
        assert!(rt; line_ends(text, count) == ends, "{count}");
    }
}

#[test]
fn kinds_stand_under_one_another(rt: HostRuntime) {
    assert!(rt; Kind::IndexError.is_under(Kind::BaseException));
    assert!(rt; Kind::UnboundLocalError.is_under(Kind::NameError));
    assert!(rt; !Kind::NameError.is_under(Kind::NameError));
    assert!(rt; !Kind::KeyError.is_under(Kind::ArithmeticError));
    assert!(rt; Kind::QueueEmpty.parent() == Some(Kind::Exception));
}

#[test]
fn kinds_are_those_above_them(rt: HostRuntime) {
    assert!(rt; Kind::NameError.is_a(Kind::NameError));
    assert!(rt; Kind::UnboundLocalError.is_a(Kind::BaseException));
    assert!(rt; Kind::KeyError.is_a(Kind::LookupError));
    assert!(rt; !Kind::LookupError.is_a(Kind::KeyError));
    assert!(rt; !Kind::KeyError.is_a(Kind::ArithmeticError));
}

#[test]
fn a_kind_is_written_by_its_name(rt: HostRuntime) -> Result<(), Fail> {
    let kind = Kind::InterpreterNotFoundError;
    let written = format!(in rt.alloc(); "{kind}")?;
    assert!(rt; written.as_str() == "InterpreterNotFoundError");
    Ok(())
}

// Whether limits are refused.
fn are_refused(interpreters: u32, turns: u64) -> bool {
    Limits::new(interpreters, turns) == Err(Range::OutOfRange)
}

#[test]
fn limits_are_kept(rt: HostRuntime) {
    let standard = Limits::standard();
    assert!(rt; standard.interpreters() == 8 && standard.turns() == 1_000_000);
    assert!(rt; Limits::new(8, 1_000_000) == Ok(standard));
    assert!(rt; Limits::new(64, 1_099_511_627_776).is_ok());
    for (interpreters, turns) in [(0, 1), (65, 1), (1, 0), (1, 1_099_511_627_777)] {
        assert!(rt; are_refused(interpreters, turns), "{interpreters} {turns}");
    }
}
