// Values that are placed in an arena or made there, and the messages of causes.

ghost use Rattle.std.specs.Prelude.{IfSome, ◌<◌, length};
ghost use Rattle.si_arena.specs.Causes.{CauseLies};
ghost use Rattle.si_arena.specs.Memory.{Lies};

use crate::made;
use si_arena::{Arena, Cause, Characters, Contents, Fault, Object, Ref, Refusal, Short, View};
use si_plain::{Kind, NoMemory};
use std::test::Fail;

// The kind of the exception at an address.
fn kind_at(arena: &Arena, address: usize) -> Option<&'static str>
    requires { address < length arena.now.store }
{
    match arena.object(address) {
        Contents::Plain(object) => Some(object.kind().name()),
        _ => None,
    }
}

// One text after another, if there is room.
fn joined(arena: &mut Arena, left: Ref, right: Ref) -> Option<Ref>
    requires left { Lies arena.old left }
    requires right { Lies arena.old right }
    ensures { IfSome result (λ r. Lies arena.new r) }
{
    match arena.join(left, right) {
        Ok(whole) => Some(whole),
        Err(_) => None,
    }
}

#[test]
fn narrow_texts_are_joined(rt: HostRuntime) {
    let mut arena = Arena::new(rt.alloc());
    let Some(left) = made::text(&mut arena, "caf\u{e9} noir") else {
        panic!(rt; "no text")
    };
    let Some(whole) = joined(&mut arena, left, left) else {
        panic!(rt; "not joined")
    };
    assert!(rt; made::is_narrow(&arena, whole, b"caf\xe9 noircaf\xe9 noir"));
}

// Whether a text is repeated as these characters, of which one does not fit into one byte.
fn is_repeated(arena: &mut Arena, text: Ref, count: i64, wanted: &[char]) -> bool
    requires { Lies arena.old text }
{
    let Ok(whole) = arena.repeat(text, count) else {
        return false;
    };
    match arena.view(&whole) {
        View::Str(Characters::Wide(shown)) => shown == wanted,
        _ => false,
    }
}

#[test]
fn wide_texts_are_repeated(rt: HostRuntime) {
    let mut arena = Arena::new(rt.alloc());
    let Some(price) = made::text(&mut arena, "5\u{20ac}") else {
        panic!(rt; "no text")
    };
    let wanted = ['5', '\u{20ac}', '5', '\u{20ac}'];
    assert!(rt; is_repeated(&mut arena, price, 2, &wanted));
}

// Whether a text is refused as too long where it is repeated so often.
fn is_too_long(arena: &mut Arena, text: Ref, count: i64) -> bool
    requires { Lies arena.old text }
{
    match arena.repeat(text, count) {
        Err(Fault::Raises(cause)) => cause == Cause::TooLong,
        _ => false,
    }
}

#[test]
fn a_text_has_an_end(rt: HostRuntime) {
    let mut arena = Arena::new(rt.alloc());
    let Some(text) = made::text(&mut arena, "ab") else {
        panic!(rt; "no text")
    };
    assert!(rt; is_too_long(&mut arena, text, 524_289));
}

// Whether a value is a tuple of so many items, and has so many values in so many levels.
fn has_size(arena: &Arena, value: Ref, items: usize, values: u32, levels: u32) -> bool
    requires { Lies arena.now value }
{
    let size = arena.size(value);
    let right = match arena.view(&value) {
        View::Tuple(held) => held.len() == items,
        _ => false,
    };
    right && size.values == values && size.levels == levels
}

#[test]
fn a_tuple_holds_its_items(rt: HostRuntime) {
    let mut arena = Arena::new(rt.alloc());
    let Some(empty) = made::tuple(&mut arena, &[]) else {
        panic!(rt; "no empty tuple")
    };
    let Some(pair) = made::tuple(&mut arena, &[Ref::Int(7), empty]) else {
        panic!(rt; "no pair")
    };
    assert!(rt; has_size(&arena, pair, 2, 3, 2));
}

// Whether this is the message of a cause.
fn says(arena: &Arena, cause: Cause, wanted: &str) -> Result<bool, NoMemory>
    requires { CauseLies arena.now.names cause }
{
    let text = arena.message(cause)?;
    Ok(text.as_str() == wanted)
}

#[test]
fn an_exception_says_why(rt: HostRuntime) -> Result<(), Fail> {
    let mut arena = Arena::new(rt.alloc());
    let number = made::name(&mut arena, "total")?;
    assert!(rt;
        says(
            &arena,
            Cause::NotDefined(number),
            "name total is not defined"
        )?
    );
    let value = made::object(&mut arena, Object::Caused(Cause::NotBound(number)))?;
    let Ref::Object(address) = value else {
        panic!(rt; "no object")
    };
    assert!(rt; kind_at(&arena, address) == Some("UnboundLocalError"));
    Ok(())
}

#[test]
fn a_thread_is_started(rt: HostRuntime) -> Result<(), Fail> {
    let mut arena = Arena::new(rt.alloc());
    let _other = arena.make(Object::Bare(Kind::ValueError))?;
    let _thread = arena.make(Object::Thread {
        interpreter: 2,
        text: Ref::Short(Short::of(b'x')),
    })?;
    arena.start(1, 7);
    let started = match arena.object(1) {
        Contents::Plain(Object::Started(run)) => run == 7,
        _ => false,
    };
    assert!(rt; started);
    assert!(rt; kind_at(&arena, 0) == Some("ValueError"));
    Ok(())
}

#[test]
fn a_refusal_says_why(rt: HostRuntime) -> Result<(), Fail> {
    let mut arena = Arena::new(rt.alloc());
    let number = made::name(&mut arena, "pop")?;
    assert!(rt; says(&arena, Cause::NoAttribute(number), "no attribute pop")?);
    assert!(rt;
        says(
            &arena,
            Cause::Refused(Refusal::QueueIsFull),
            "queue is full"
        )?
    );
    Ok(())
}
