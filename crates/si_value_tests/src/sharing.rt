// Copies from end to end.

ghost use Rattle.std.specs.Prelude.{IfSome, ◌≤◌, length};
ghost use Rattle.si_arena.specs.Memory.{Lies};

use crate::made;
use si_arena::{Arena, BuiltIn, Contents, Object, Ref, Short, Steps};
use si_parcel::Parcel;
use si_plain::{Kind, ModuleName, Octets, Text};
use si_share::{ShareFault, copy_in, copy_out, is_shareable};
use std::alloc::{AllocError, Global};
use std::test::Fail;

fn str(alloc: Global, text: &str) -> Result<Parcel, AllocError> {
    Parcel::str(alloc, Text::from_str(alloc, text)?).or(Err(AllocError))
}

// A tuple of two items.
fn pair(alloc: Global, first: Parcel, second: Parcel) -> Result<Parcel, AllocError> {
    let mut items = Vec::new(alloc);
    items.push(first)?;
    items.push(second)?;
    Parcel::tuple(alloc, items).or(Err(AllocError))
}

fn octets(alloc: Global, bytes: &[u8]) -> Result<Parcel, AllocError> {
    Parcel::bytes(Octets::from_slice(alloc, bytes)?).or(Err(AllocError))
}

// `('a café for ..', (1, (b'\x00', None)))`
fn nested(alloc: Global) -> Result<Parcel, AllocError> {
    let bytes = octets(alloc, b"\x00")?;
    let inner = pair(alloc, bytes, Parcel::none())?;
    let second = pair(alloc, Parcel::int(1), inner)?;
    let first = str(alloc, LONG)?;
    pair(alloc, first, second)
}

// A tuple of the first numbers.
fn numbers(alloc: Global, count: i64) -> Result<Parcel, AllocError> {
    let mut items = Vec::new(alloc);
    for int in 0..count {
        items.push(Parcel::int(int))?;
    }
    Parcel::tuple(alloc, items).or(Err(AllocError))
}

// No item in so many tuples.
fn deep(alloc: Global, levels: u32) -> Result<Parcel, AllocError> {
    let mut parcel = numbers(alloc, 0)?;
    for _ in 1..levels {
        let mut items = Vec::new(alloc);
        items.push(parcel)?;
        parcel = Parcel::tuple(alloc, items).or(Err(AllocError))?;
    }
    Ok(parcel)
}

// An arena that holds a hundred exceptions.
fn filled(alloc: Global) -> Result<Arena, AllocError> {
    let mut arena = Arena::new(alloc);
    for _ in 0..100 {
        made::object(&mut arena, Object::Bare(Kind::ValueError))?;
    }
    Ok(arena)
}

// Whether the objects at the first addresses are exceptions that hold nothing, of the kind ValueError.
fn are_value_errors(arena: &Arena, count: usize) -> bool
    requires { count ≤ length arena.now.store }
{
    for address in 0..count {
        match arena.object(address) {
            Contents::Plain(Object::Bare(Kind::ValueError)) => {}
            _ => return false,
        }
    }
    true
}

// Whether an arena holds the hundred exceptions, and no object besides: one that is made comes after them.
fn holds_a_hundred(arena: &mut Arena) -> Result<bool, AllocError> {
    match made::object(arena, Object::Bare(Kind::TypeError))? {
        Ref::Object(100) => Ok(are_value_errors(arena, 100)),
        _ => Ok(false),
    }
}

// What a value is that is copied out of an arena.
fn out_of(alloc: Global, arena: &Arena, value: Ref) -> Result<Parcel, AllocError>
    requires { Lies arena.now value }
{
    copy_out(alloc, arena, value).or(Err(AllocError))
}

// A str that is copied out of an arena of its own.
fn sent(alloc: Global, text: &str) -> Result<Parcel, AllocError> {
    let mut arena = Arena::new(alloc);
    match made::text(&mut arena, text) {
        Some(value) => out_of(alloc, &arena, value),
        None => Err(AllocError),
    }
}

// Whether a parcel is the same that is copied into an arena and out of it.
fn goes_through(alloc: Global, arena: &mut Arena, parcel: &Parcel) -> Result<bool, AllocError> {
    let placed = copy_in(arena, parcel)?;
    let back = out_of(alloc, arena, placed)?;
    Ok(back == *parcel)
}

// Whether a value is not shareable, by both calls that say so.
fn is_kept(alloc: Global, arena: &Arena, value: Ref) -> bool
    requires { Lies arena.now value }
{
    let refused = matches!(copy_out(alloc, arena, value), Err(ShareFault::NotShareable));
    refused && !is_shareable(arena, value)
}

// Whether a str is copied from an arena of its own to another and out of that.
fn is_sent(alloc: Global, to: &mut Arena, text: &str) -> Result<bool, AllocError> {
    let parcel = sent(alloc, text)?;
    let wanted = str(alloc, text)?;
    Ok(parcel == wanted && goes_through(alloc, to, &parcel)?)
}

// Texts in the value itself, of ASCII alone, of characters below 256, and of others.
#[test]
fn texts_are_copied(rt: HostRuntime) -> Result<(), Fail> {
    let mut to = filled(rt.alloc())?;
    for text in [
        "caf\u{e9}",
        "more than eleven characters",
        "caf\u{e9} noir, caf\u{e9} au lait",
        "a caf\u{e9} for 5 \u{20ac}",
    ] {
        assert!(rt; is_sent(rt.alloc(), &mut to, text)?, "{text}");
    }
    assert!(rt; holds_a_hundred(&mut to)?);
    Ok(())
}

// Whether an integer is copied out of an arena as this parcel.
fn is_int(alloc: Global, arena: &Arena, int: i64, wanted: &Parcel) -> Result<bool, AllocError> {
    let parcel = out_of(alloc, arena, Ref::Int(int))?;
    Ok(parcel == *wanted)
}

// Whether a parcel is copied into an arena as this integer.
fn becomes(arena: &mut Arena, parcel: &Parcel, wanted: i64) -> bool {
    matches!(copy_in(arena, parcel), Ok(Ref::Int(int)) if int == wanted)
}

// Whether an integer is copied out of one arena, and into another.
fn is_copied(alloc: Global, from: &Arena, to: &mut Arena, int: i64) -> Result<bool, AllocError> {
    let parcel = Parcel::int(int);
    let is_int = is_int(alloc, from, int, &parcel)?;
    Ok(is_int && becomes(to, &parcel, int))
}

#[test]
fn numbers_are_copied(rt: HostRuntime) -> Result<(), Fail> {
    let from = Arena::new(rt.alloc());
    let mut to = filled(rt.alloc())?;
    for int in [i64::MIN, -1, 0, 1, i64::MAX] {
        assert!(rt; is_copied(rt.alloc(), &from, &mut to, int)?, "{int}");
    }
    Ok(())
}

// Whether the truth that is copied out of an arena is no integer, and is the truth that is copied into it.
fn is_truth(alloc: Global, arena: &mut Arena) -> Result<bool, AllocError> {
    let parcel = out_of(alloc, arena, Ref::Truth([], true))?;
    let placed = copy_in(arena, &parcel)?;
    Ok(parcel != Parcel::int(1) && matches!(placed, Ref::Truth(_, true)))
}

#[test]
fn truths_stay_truths(rt: HostRuntime) -> Result<(), Fail> {
    let mut arena = Arena::new(rt.alloc());
    assert!(rt; is_truth(rt.alloc(), &mut arena)?);
    assert!(rt; matches!(copy_in(&mut arena, &Parcel::none()), Ok(Ref::None)));
    Ok(())
}

fn range_is_kept(alloc: Global) -> Result<bool, AllocError> {
    let mut arena = Arena::new(alloc);
    let (start, stop, step) = (0, 3, 1);
    let range = arena.place_range(Steps { start, stop, step })?;
    Ok(is_kept(alloc, &arena, range))
}

fn function_is_kept(alloc: Global) -> Result<bool, AllocError> {
    let mut arena = Arena::new(alloc);
    let name = made::name(&mut arena, "f")?;
    Ok(is_kept(alloc, &arena, Ref::Function { number: 0, name }))
}

fn exception_is_kept(alloc: Global) -> Result<bool, AllocError> {
    let mut arena = Arena::new(alloc);
    let exception = made::object(&mut arena, Object::Bare(Kind::ValueError))?;
    Ok(is_kept(alloc, &arena, exception))
}

#[test]
fn ranges_functions_and_exceptions_are_not_shareable(rt: HostRuntime) -> Result<(), Fail> {
    assert!(rt; range_is_kept(rt.alloc())?);
    assert!(rt; function_is_kept(rt.alloc())?);
    assert!(rt; exception_is_kept(rt.alloc())?);
    Ok(())
}

#[test]
fn names_of_what_there_is_are_not_shareable(rt: HostRuntime) {
    let alloc = rt.alloc();
    let arena = Arena::new(alloc);
    assert!(rt; is_kept(alloc, &arena, Ref::BuiltIn([], BuiltIn::Print)));
    assert!(rt; is_kept(alloc, &arena, Ref::Kind([], Kind::ValueError)));
    assert!(rt; is_kept(alloc, &arena, Ref::Module([], ModuleName::Threading)));
    assert!(rt; is_kept(alloc, &arena, Ref::Interpreter(1)));
    assert!(rt; is_kept(alloc, &arena, Ref::Exec(1)));
}

fn list_is_kept(alloc: Global) -> Result<bool, AllocError> {
    let mut arena = Arena::new(alloc);
    let list = made::list(&mut arena, &[Ref::Int(1)])?;
    Ok(is_kept(alloc, &arena, list))
}

// Whether `(1, [2])` is not shareable.
fn tuple_with_a_list_is_kept(alloc: Global) -> Result<bool, AllocError> {
    let mut arena = Arena::new(alloc);
    let list = made::list(&mut arena, &[Ref::Int(2)])?;
    match made::tuple(&mut arena, &[Ref::Int(1), list]) {
        Some(tuple) => Ok(is_kept(alloc, &arena, tuple)),
        None => Err(AllocError),
    }
}

#[test]
fn lists_and_what_holds_them_are_not_shareable(rt: HostRuntime) -> Result<(), Fail> {
    assert!(rt; list_is_kept(rt.alloc())?);
    assert!(rt; tuple_with_a_list_is_kept(rt.alloc())?);
    Ok(())
}

// Whether bytes are found in an arena into which they are copied.
fn are_there(arena: &mut Arena, parcel: &Parcel, bytes: &[u8]) -> bool {
    match copy_in(arena, parcel) {
        Ok(placed) => arena.bytes(&placed) == bytes,
        Err(_) => false,
    }
}

#[test]
fn bytes_go_over(rt: HostRuntime) -> Result<(), Fail> {
    let mut arena = Arena::new(rt.alloc());
    for bytes in [b"\x00\xff".as_slice(), b"more than eleven".as_slice()] {
        let parcel = octets(rt.alloc(), bytes)?;
        assert!(rt; are_there(&mut arena, &parcel, bytes));
        assert!(rt; goes_through(rt.alloc(), &mut arena, &parcel)?);
    }
    Ok(())
}

// Whether a parcel, which is given up, is the same that is copied into an arena of its own and out of it.
fn comes_back(alloc: Global, parcel: Parcel) -> Result<bool, AllocError> {
    let mut arena = Arena::new(alloc);
    goes_through(alloc, &mut arena, &parcel)
}

// `('a', (1, None), b'\x00')`, placed in an arena.
fn placed_tuple(arena: &mut Arena) -> Option<Ref>
    ensures { IfSome result (λ r. Lies arena.new r) }
{
    let inner = made::tuple(arena, &[Ref::Int(1), Ref::None])?;
    let text = Ref::Short(Short::of(b'a'));
    let bytes = Ref::ShortBytes(Short::of(b'\x00'));
    made::tuple(arena, &[text, inner, bytes])
}

// The same, copied out of an arena of its own.
fn sent_tuple(alloc: Global) -> Result<Parcel, AllocError> {
    let mut arena = Arena::new(alloc);
    match placed_tuple(&mut arena) {
        Some(tuple) => out_of(alloc, &arena, tuple),
        None => Err(AllocError),
    }
}

// Whether a parcel is copied into an arena as a value that is written so.
fn arrives_as(
    alloc: Global,
    arena: &mut Arena,
    parcel: &Parcel,
    repr: &str,
) -> Result<bool, AllocError> {
    let value = copy_in(arena, parcel)?;
    Ok(made::is_repr(alloc, arena, value, repr))
}

#[test]
fn a_tuple_goes_over_to_a_hundred_objects(rt: HostRuntime) -> Result<(), Fail> {
    let parcel = sent_tuple(rt.alloc())?;
    let mut to = filled(rt.alloc())?;
    let repr = "('a', (1, None), b'\\x00')";
    assert!(rt; arrives_as(rt.alloc(), &mut to, &parcel, repr)?);
    assert!(rt; holds_a_hundred(&mut to)?);
    Ok(())
}

#[test]
fn the_largest_tuple_goes_over(rt: HostRuntime) -> Result<(), Fail> {
    let large = numbers(rt.alloc(), 65_535)?;
    assert!(rt; comes_back(rt.alloc(), large)?);
    Ok(())
}

#[test]
fn the_deepest_tuple_goes_over(rt: HostRuntime) -> Result<(), Fail> {
    let deep = deep(rt.alloc(), 200)?;
    assert!(rt; comes_back(rt.alloc(), deep)?);
    Ok(())
}

#[test]
fn queues_go_over(rt: HostRuntime) -> Result<(), Fail> {
    let alloc = rt.alloc();
    assert!(rt; comes_back(alloc, Parcel::queue(3, 10))?);
    let text = str(alloc, LONG)?;
    let tuple = pair(alloc, text, Parcel::queue(0, 1))?;
    assert!(rt; comes_back(alloc, tuple)?);
    Ok(())
}

// `cases/refuse_memory` refuses the tests below each of their allocations in turn: the same call made again gives what
// it would have given.

const LONG: &str = "a caf\u{e9} for five \u{20ac}, or for 4 \u{20ac}";

// Whether a first copy out of an arena is as wanted, where it is given memory.
fn is_right(first: Result<Parcel, ShareFault>, wanted: &Parcel) -> bool {
    match first {
        Ok(parcel) => parcel == *wanted,
        Err(fault) => fault == ShareFault::NoMemory,
    }
}

// Whether a value is copied out of an arena twice, the first time where it is given memory.
fn comes_out(alloc: Global, arena: &Arena, value: Ref, wanted: &Parcel) -> Result<bool, AllocError>
    requires { Lies arena.now value }
{
    if !is_right(copy_out(alloc, arena, value), wanted) {
        return Ok(false);
    }
    let again = out_of(alloc, arena, value)?;
    Ok(again == *wanted)
}

#[test]
fn refused_copy_out_of_an_arena(rt: HostRuntime) -> Result<(), Fail> {
    let wanted = str(rt.alloc(), LONG)?;
    let mut arena = Arena::new(rt.alloc());
    let Some(text) = made::text(&mut arena, LONG) else {
        return Err(AllocError)?;
    };
    assert!(rt; comes_out(rt.alloc(), &arena, text, &wanted)?);
    Ok(())
}

// Whether a parcel is copied into an arena, again whether or not the first copy is refused memory, and out of it.
fn goes_in(alloc: Global, parcel: &Parcel) -> Result<bool, AllocError> {
    let mut arena = Arena::new(alloc);
    let _first = copy_in(&mut arena, parcel);
    goes_through(alloc, &mut arena, parcel)
}

#[test]
fn refused_copy_into_an_arena(rt: HostRuntime) -> Result<(), Fail> {
    let parcel = str(rt.alloc(), LONG)?;
    assert!(rt; goes_in(rt.alloc(), &parcel)?);
    Ok(())
}

#[test]
fn refused_copy_of_a_tuple_into_an_arena(rt: HostRuntime) -> Result<(), Fail> {
    let parcel = nested(rt.alloc())?;
    assert!(rt; goes_in(rt.alloc(), &parcel)?);
    Ok(())
}

#[test]
fn refused_copy_of_a_tuple_out_of_an_arena(rt: HostRuntime) -> Result<(), Fail> {
    let parcel = nested(rt.alloc())?;
    let mut arena = Arena::new(rt.alloc());
    let copy = copy_in(&mut arena, &parcel)?;
    assert!(rt; comes_out(rt.alloc(), &arena, copy, &parcel)?);
    Ok(())
}
