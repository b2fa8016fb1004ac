// Parcels and actions from end to end: the texts are what CPython 3.14 prints, but for that of a queue.

use si_parcel::{Action, Answer, Binds, BoxedText, Ids, Job, Outcome, Parcel, Top, TupleFault};
use si_plain::{Kind, NoMemory, Octets, Text};
use std::alloc::{AllocError, Global};
use std::test::Fail;

fn str(alloc: Global, text: &str) -> Result<Parcel, NoMemory> {
    Parcel::str(alloc, Text::from_str(alloc, text)?).or(Err(AllocError))
}

fn bytes(alloc: Global, bytes: &[u8]) -> Result<Parcel, NoMemory> {
    Parcel::bytes(Octets::from_slice(alloc, bytes)?).or(Err(AllocError))
}

fn tuple(alloc: Global, items: Vec<Parcel>) -> Result<Parcel, NoMemory> {
    Parcel::tuple(alloc, items).or(Err(AllocError))
}

// `(1, None)`
fn pair(alloc: Global) -> Result<Parcel, NoMemory> {
    let mut items = Vec::with_capacity(alloc, 2)?;
    items.push(Parcel::int(1))?;
    items.push(Parcel::none())?;
    tuple(alloc, items)
}

// `('a', (1, None), b'\x00')`
pub(crate) fn nested(alloc: Global) -> Result<Parcel, NoMemory> {
    let mut items = Vec::with_capacity(alloc, 3)?;
    let letter = str(alloc, "a")?;
    items.push(letter)?;
    let pair = pair(alloc)?;
    items.push(pair)?;
    let zero = bytes(alloc, b"\x00")?;
    items.push(zero)?;
    tuple(alloc, items)
}

// One item in so many tuples.
fn deep(alloc: Global, levels: u32) -> Result<Parcel, NoMemory> {
    let mut parcel = Parcel::none();
    for _ in 0..levels {
        let mut items = Vec::with_capacity(alloc, 1)?;
        items.push(parcel)?;
        parcel = tuple(alloc, items)?;
    }
    Ok(parcel)
}

// A tuple of so many zeros.
fn zeros(alloc: Global, count: usize) -> Result<Parcel, NoMemory> {
    let mut items = Vec::with_capacity(alloc, count)?;
    for _ in 0..count {
        items.push(Parcel::int(0))?;
    }
    tuple(alloc, items)
}

// Whether a parcel is shown so.
pub(crate) fn shows(alloc: Global, parcel: &Parcel, wanted: &str) -> Result<bool, NoMemory> {
    let shown = parcel.show(alloc)?;
    Ok(shown.as_str() == wanted)
}

// Whether a parcel, which is given up, is shown so.
fn is_shown(alloc: Global, parcel: Parcel, wanted: &str) -> Result<bool, NoMemory> {
    shows(alloc, &parcel, wanted)
}

// Whether a parcel is shown in so many bytes.
fn shows_bytes(alloc: Global, parcel: &Parcel, count: usize) -> Result<bool, NoMemory> {
    let shown = parcel.show(alloc)?;
    Ok(shown.len() == count)
}

// Whether a clone of a parcel is the same.
pub(crate) fn is_cloned(alloc: Global, parcel: &Parcel) -> Result<bool, NoMemory> {
    let clone = parcel.clone_parcel(alloc)?;
    Ok(clone == *parcel)
}

// Whether two parcels, which are given up, differ.
fn differ(one: Parcel, other: Parcel) -> bool {
    one != other
}

// Whether a str differs from bytes.
fn is_no_bytes(alloc: Global, text: &str, octets: &[u8]) -> Result<bool, NoMemory> {
    let text = str(alloc, text)?;
    let octets = bytes(alloc, octets)?;
    Ok(text != octets)
}

// Whether a parcel differs from one item in so many tuples.
fn is_not_deep(alloc: Global, parcel: &Parcel, levels: u32) -> Result<bool, NoMemory> {
    let other = deep(alloc, levels)?;
    Ok(*parcel != other)
}

// Whether the tuple of one item is refused as too deep, or as too large.
fn is_refused(alloc: Global, parcel: Parcel, too_deep: bool) -> Result<bool, NoMemory> {
    let mut items = Vec::with_capacity(alloc, 1)?;
    items.push(parcel)?;
    Ok(match Parcel::tuple(alloc, items) {
        Err(TupleFault::TooDeep(_)) => too_deep,
        Err(TupleFault::TooLarge(_)) => !too_deep,
        _ => false,
    })
}

#[test]
fn a_nested_tuple(rt: HostRuntime) -> Result<(), Fail> {
    let parcel = nested(rt.alloc())?;
    assert!(rt; parcel.size() == 6);
    assert!(rt; parcel.levels() == 2);
    assert!(rt; matches!(parcel.top(), Top::Tuple([_, _, _])));
    assert!(rt; is_cloned(rt.alloc(), &parcel)?);
    assert!(rt; is_shown(rt.alloc(), parcel, "('a', (1, None), b'\\x00')")?);
    Ok(())
}

#[test]
fn atoms(rt: HostRuntime) -> Result<(), Fail> {
    let alloc = rt.alloc();
    assert!(rt; is_shown(alloc, Parcel::queue(3, 10), "Queue(3)")?);
    assert!(rt; is_shown(alloc, Parcel::truth(false), "False")?);
    assert!(rt; is_shown(alloc, Parcel::int(i64::MIN), "-9223372036854775808")?);
    assert!(rt; differ(Parcel::truth(true), Parcel::int(1)));
    assert!(rt; differ(Parcel::queue(3, 10), Parcel::queue(4, 10)));
    Ok(())
}

#[test]
fn texts_and_bytes(rt: HostRuntime) -> Result<(), Fail> {
    let alloc = rt.alloc();
    let text = str(alloc, "it's")?;
    assert!(rt; is_shown(alloc, text, "\"it's\"")?);
    let octets = bytes(alloc, b"a\xff")?;
    assert!(rt; is_shown(alloc, octets, "b'a\\xff'")?);
    assert!(rt; is_no_bytes(alloc, "it's", b"a\xff")?);
    assert!(rt; is_no_bytes(alloc, "it's", b"it's")?);
    Ok(())
}

#[test]
fn small_tuples(rt: HostRuntime) -> Result<(), Fail> {
    let alloc = rt.alloc();
    let one = deep(alloc, 1)?;
    assert!(rt; is_shown(alloc, one, "(None,)")?);
    let none = tuple(alloc, Vec::new(alloc))?;
    assert!(rt; is_shown(alloc, none, "()")?);
    Ok(())
}

#[test]
fn two_hundred_levels_and_no_more(rt: HostRuntime) -> Result<(), Fail> {
    let alloc = rt.alloc();
    let parcel = deep(alloc, 200)?;
    assert!(rt; parcel.levels() == 200);
    assert!(rt; shows_bytes(alloc, &parcel, 604)?);
    assert!(rt; is_cloned(alloc, &parcel)?);
    assert!(rt; is_not_deep(alloc, &parcel, 199)?);
    assert!(rt; is_refused(alloc, parcel, true)?);
    Ok(())
}

#[test]
fn as_many_values_as_allowed(rt: HostRuntime) -> Result<(), Fail> {
    let alloc = rt.alloc();
    let parcel = zeros(alloc, 65_535)?;
    assert!(rt; parcel.size() == 65_536);
    assert!(rt; shows_bytes(alloc, &parcel, 196_605)?);
    assert!(rt; is_cloned(alloc, &parcel)?);
    assert!(rt; is_refused(alloc, parcel, false)?);
    Ok(())
}

pub(crate) fn binds(alloc: Global) -> Result<Binds, NoMemory> {
    let mut pairs = Vec::with_capacity(alloc, 1)?;
    let name = Text::from_str(alloc, "x")?;
    let value = nested(alloc)?;
    pairs.push((name, value))?;
    Ok(Binds::new(alloc, pairs)?)
}

pub(crate) fn boxed(alloc: Global, text: &str) -> Result<BoxedText, NoMemory> {
    Ok(BoxedText::new(alloc, Text::from_str(alloc, text)?)?)
}

pub(crate) fn raised(alloc: Global) -> Result<Outcome, NoMemory> {
    let message = boxed(alloc, "a message that is too long to lie in its text")?;
    Ok(Outcome::Raised(Kind::ValueError, message))
}

// Each action once, by a number.
pub(crate) fn action(alloc: Global, at: u32) -> Result<Action, NoMemory> {
    Ok(match at {
        0 => Action::Create,
        1 => Action::CreateQueue(2),
        2 => Action::Put(0, nested(alloc)?),
        3 => Action::PutNow(0, nested(alloc)?),
        4 => Action::Get(0),
        5 => Action::GetNow(0),
        6 => Action::Size(0),
        7 => Action::Prepare(1, binds(alloc)?),
        8 => Action::Start(1, boxed(alloc, "pass")?),
        9 => Action::Await(1),
        10 => Action::IsRunning(1),
        11 => Action::Close(1),
        12 => Action::ListAll,
        13 => Action::Take,
        14 => Action::End(Outcome::Returned),
        _ => Action::End(raised(alloc)?),
    })
}

// Each answer once, by a number.
pub(crate) fn answer(alloc: Global, at: u32) -> Result<Answer, NoMemory> {
    Ok(match at {
        0 => Answer::Limit,
        1 => Answer::Created(1),
        2 => Answer::QueueMade(0),
        3 => Answer::Started(1),
        4 => Answer::Done,
        5 => Answer::Full,
        6 => Answer::Empty,
        7 => Answer::Item(nested(alloc)?),
        8 => Answer::Count(2),
        9 => Answer::NotFound,
        10 => Answer::Running,
        11 => Answer::Current,
        12 => Answer::Main,
        13 => Answer::Ended(Outcome::Returned),
        14 => Answer::Ended(raised(alloc)?),
        15 => Answer::Truth(true),
        16 => Answer::Ids(Ids::new(vec![in alloc; 0, 2]?)),
        17 => Answer::Given(Job::Bind(binds(alloc)?)),
        18 => Answer::Given(Job::Run(1, boxed(alloc, "pass")?)),
        _ => Answer::Given(Job::Closing),
    })
}

// Whether a clone of the second of two actions is equal to the first.
pub(crate) fn is_action(alloc: Global, asked: &Action, other: &Action) -> Result<bool, NoMemory> {
    let clone = other.clone_action(alloc)?;
    Ok(*asked == clone)
}

// Whether a clone of one of the actions above is equal to another where they are the same, and not else.
fn is_action_as(alloc: Global, at: u32, other: u32) -> Result<bool, NoMemory> {
    let first = action(alloc, at)?;
    let second = action(alloc, other)?;
    let same = is_action(alloc, &first, &second)?;
    Ok(same == (at == other))
}

#[test]
fn actions_are_cloned_and_compared(rt: HostRuntime) -> Result<(), Fail> {
    for i in 0..16 {
        for j in 0..16 {
            assert!(rt; is_action_as(rt.alloc(), i, j)?, "{i} {j}");
        }
    }
    Ok(())
}

// Whether a clone of the second of two answers is equal to the first.
pub(crate) fn is_answer(alloc: Global, given: &Answer, other: &Answer) -> Result<bool, NoMemory> {
    let clone = other.clone_answer(alloc)?;
    Ok(*given == clone)
}

// Whether a clone of one of the answers above is equal to another where they are the same, and not else.
fn is_answer_as(alloc: Global, at: u32, other: u32) -> Result<bool, NoMemory> {
    let first = answer(alloc, at)?;
    let second = answer(alloc, other)?;
    let same = is_answer(alloc, &first, &second)?;
    Ok(same == (at == other))
}

#[test]
fn answers_are_cloned_and_compared(rt: HostRuntime) -> Result<(), Fail> {
    for i in 0..20 {
        for j in 0..20 {
            assert!(rt; is_answer_as(rt.alloc(), i, j)?, "{i} {j}");
        }
    }
    Ok(())
}

// Whether one of the answers above fits one of the actions.
fn fits(alloc: Global, asked: u32, given: u32) -> Result<bool, NoMemory> {
    let asked = action(alloc, asked)?;
    let given = answer(alloc, given)?;
    Ok(given.fits(&asked))
}

// How many of the answers above fit an action.
fn fitting(alloc: Global, asked: u32) -> Result<u32, NoMemory> {
    let mut count: u32 = 0;
    for given in 0..20 {
        if fits(alloc, asked, given)? {
            count = count.saturating_add(1);
        }
    }
    Ok(count)
}

#[test]
fn answers_that_fit(rt: HostRuntime) -> Result<(), Fail> {
    // each action, and how many of the answers above fit
    for (at, want) in [
        (0, 2),
        (1, 2),
        (2, 1),
        (3, 2),
        (4, 1),
        (5, 2),
        (6, 1),
        (7, 3),
        (8, 3),
        (9, 2),
        (10, 2),
        (11, 5),
        (12, 1),
        (13, 3),
        (14, 1),
        (15, 1),
    ] {
        assert!(rt; fitting(rt.alloc(), at)? == want, "{at}");
    }
    Ok(())
}

#[test]
fn lists_are_given_back(rt: HostRuntime) -> Result<(), Fail> {
    let ids = Ids::new(vec![in rt.alloc(); 0, 2]?);
    assert!(rt; ids.as_slice() == [0u32, 2].as_slice());
    assert!(rt; ids.into_ids().len() == 2);
    let binds = binds(rt.alloc())?;
    assert!(rt; binds.as_slice().len() == 1);
    assert!(rt; binds.into_pairs().len() == 1);
    Ok(())
}
