// Whole histories, of calls of a hub.

use si_history::history;
use si_hub::Hub;
use si_parcel::{Action, Binds, BoxedText, Outcome, Parcel};
use si_plain::{Kind, Limits, NoMemory, Text};
use std::alloc::{AllocError, Global};
use std::test::Fail;

// A hub of an empty script with at most two interpreters.
fn hub(alloc: Global) -> Result<Hub, NoMemory> {
    match Limits::new(2, 1_000) {
        Ok(limits) => Hub::new(alloc, "", limits),
        Err(_) => Err(AllocError),
    }
}

// Whether an action is enabled and answered.
fn is_answered(hub: &mut Hub, by: u32, action: Action) -> bool {
    hub.act(by, action).is_ok()
}

fn text(alloc: Global, text: &str) -> Result<BoxedText, NoMemory> {
    Ok(BoxedText::new(alloc, Text::from_str(alloc, text)?)?)
}

// `'a'`
fn letter(alloc: Global) -> Result<Parcel, NoMemory> {
    Parcel::str(alloc, Text::from_str(alloc, "a")?).or(Err(AllocError))
}

// `(1, None)`
fn pair(alloc: Global) -> Result<Parcel, NoMemory> {
    let mut items = Vec::with_capacity(alloc, 2)?;
    items.push(Parcel::int(1))?;
    items.push(Parcel::none())?;
    Parcel::tuple(alloc, items).or(Err(AllocError))
}

// `x = 1`
fn x_is_one(alloc: Global) -> Result<Binds, NoMemory> {
    let mut pairs = Vec::with_capacity(alloc, 1)?;
    let x = Text::from_str(alloc, "x")?;
    pairs.push((x, Parcel::int(1)))?;
    Ok(Binds::new(alloc, pairs)?)
}

// What interpreter 0 asks of a queue.
fn asked_of_a_queue(alloc: Global, at: u32) -> Result<Action, NoMemory> {
    Ok(match at {
        0 => Action::Take,
        1 => Action::CreateQueue(2),
        2 => Action::Put(0, letter(alloc)?),
        3 => Action::Put(0, pair(alloc)?),
        4 => Action::PutNow(0, Parcel::int(3)),
        7 | 8 => Action::Get(0),
        10 => Action::End(Outcome::Returned),
        _ => Action::Size(0),
    })
}

const OF_A_QUEUE: &str = "1 0 take = run 0
2 0 queue 2 = queue 0
3 0 put 0 'a' = done
4 0 put 0 (1, None) = done
5 0 putnow 0 3 = full
6 0 size 0 = 2
7 0 size 0 = 2
8 0 get 0 = 'a'
9 0 get 0 = (1, None)
10 0 size 0 = 0
11 0 end returned = done
";

#[test]
fn a_queue(rt: HostRuntime) -> Result<(), Fail> {
    let alloc = rt.alloc();
    let mut hub = hub(alloc)?;
    for at in 0..11 {
        let action = asked_of_a_queue(alloc, at)?;
        assert!(rt; is_answered(&mut hub, 0, action), "at {at}");
    }
    let told = history(alloc, hub.journal())?;
    assert_eq!(rt; told.as_str(), OF_A_QUEUE);
    Ok(())
}

// What two interpreters ask.
fn asked_by_two(alloc: Global, at: u32) -> Result<(u32, Action), NoMemory> {
    Ok(match at {
        0 => (0, Action::Take),
        1 | 2 => (0, Action::Create),
        3 => (0, Action::CreateQueue(0)),
        4 => (0, Action::GetNow(0)),
        5 => (0, Action::Prepare(1, x_is_one(alloc)?)),
        6 => (0, Action::Start(1, text(alloc, "x")?)),
        7 | 14 => (0, Action::IsRunning(1)),
        8 | 17 => (0, Action::Close(1)),
        9 | 10 | 19 => (1, Action::Take),
        11 => (1, Action::Close(0)),
        12 => (1, Action::End(raised(alloc)?)),
        13 => (0, Action::Await(1)),
        15 => (0, Action::ListAll),
        16 => (0, Action::Close(0)),
        _ => (0, Action::Prepare(1, Binds::new(alloc, Vec::new(alloc))?)),
    })
}

fn raised(alloc: Global) -> Result<Outcome, NoMemory> {
    let message = text(alloc, "it's")?;
    Ok(Outcome::Raised(Kind::ValueError, message))
}

const BY_TWO: &str = "1 0 take = run 0
2 0 create = interpreter 1
3 0 create = limit
4 0 queue 0 = queue 0
5 0 getnow 0 = empty
6 0 prepare 1 'x' = done
7 0 start 1 = run 1
8 0 running 1 = True
9 0 close 1 = running
10 1 take = bind 'x'
11 1 take = run 1
12 1 close 0 = main
13 1 end raised ValueError \"it's\" = done
14 0 await 1 = raised ValueError \"it's\"
15 0 running 1 = False
16 0 list = 0 1
17 0 close 0 = current
18 0 close 1 = done
19 0 prepare 1 = notfound
20 1 take = closing
";

#[test]
fn two_interpreters(rt: HostRuntime) -> Result<(), Fail> {
    let alloc = rt.alloc();
    let mut hub = hub(alloc)?;
    for at in 0..20 {
        let (by, action) = asked_by_two(alloc, at)?;
        assert!(rt; is_answered(&mut hub, by, action), "at {at}");
    }
    let told = history(alloc, hub.journal())?;
    assert_eq!(rt; told.as_str(), BY_TWO);
    Ok(())
}
