// What the tests of the hub share, and the worked sequence of the definitions.

use si_hub::{Hub, Why};
use si_parcel::{Action, Answer, Binds, BoxedText, Job, Outcome, Parcel};
use si_plain::{Limits, NoMemory, Text};
use std::alloc::{AllocError, Global};
use std::test::Fail;

pub(crate) fn text(alloc: Global, text: &str) -> Result<Text, NoMemory> {
    Text::from_str(alloc, text)
}

pub(crate) fn boxed(alloc: Global, chars: &str) -> Result<BoxedText, NoMemory> {
    Ok(BoxedText::new(alloc, text(alloc, chars)?)?)
}

// `x = 1`
pub(crate) fn x_is_one(alloc: Global) -> Result<Binds, NoMemory> {
    let mut pairs = Vec::with_capacity(alloc, 1)?;
    let x = text(alloc, "x")?;
    pairs.push((x, Parcel::int(1)))?;
    Ok(Binds::new(alloc, pairs)?)
}

// A hub of an empty script with so many interpreters, which the limits allow.
pub(crate) fn hub(alloc: Global, interpreters: u32) -> Result<Hub, NoMemory> {
    match Limits::new(interpreters, 1_000) {
        Ok(limits) => Hub::new(alloc, "", limits),
        Err(_) => Err(AllocError),
    }
}

// What an action is answered. `None` where it is not enabled.
pub(crate) fn act(hub: &mut Hub, by: u32, action: Action) -> Result<Option<Answer>, NoMemory> {
    match hub.act(by, action) {
        Ok(answer) => Ok(Some(answer)),
        Err(refused) => match refused.why {
            Why::NotNow => Ok(None),
            Why::NoMemory => Err(AllocError),
        },
    }
}

pub(crate) fn same(told: &Option<Answer>, wanted: &Option<Answer>) -> bool {
    match told {
        None => wanted.is_none(),
        Some(told) => match wanted {
            None => false,
            Some(wanted) => *told == *wanted,
        },
    }
}

// What the interpreters of the worked sequence ask, and of which of them.
fn asked(alloc: Global, at: u32) -> Result<(u32, Action), NoMemory> {
    Ok(match at {
        0 => (0, Action::End(Outcome::Returned)),
        1 => (0, Action::Take),
        2 => (0, Action::Create),
        3 => (1, Action::Take),
        4 => (0, Action::Create),
        5 => (0, Action::Prepare(1, x_is_one(alloc)?)),
        6 => (0, Action::Start(1, boxed(alloc, "t")?)),
        7 => (0, Action::Close(1)),
        8 => (0, Action::IsRunning(1)),
        9 => (0, Action::Await(1)),
        10 => (1, Action::End(Outcome::Returned)),
        11 => (1, Action::Take),
        12 => (1, Action::End(Outcome::Returned)),
        13 => (1, Action::Take),
        14 => (1, Action::End(Outcome::Returned)),
        15 => (0, Action::Await(1)),
        16 => (0, Action::Close(1)),
        17 => (1, Action::Take),
        _ => (0, Action::Close(1)),
    })
}

// And what they are answered.
fn answered(alloc: Global, at: u32) -> Result<Option<Answer>, NoMemory> {
    Ok(match at {
        0 => None,
        1 => Some(Answer::Given(Job::Run(0, boxed(alloc, "")?))),
        2 => Some(Answer::Created(1)),
        3 => None,
        4 => Some(Answer::Limit),
        5 => Some(Answer::Done),
        6 => Some(Answer::Started(1)),
        7 => Some(Answer::Running),
        8 => Some(Answer::Truth(true)),
        9 | 10 => None,
        11 => Some(Answer::Given(Job::Bind(x_is_one(alloc)?))),
        12 => None,
        13 => Some(Answer::Given(Job::Run(1, boxed(alloc, "t")?))),
        14 => Some(Answer::Done),
        15 => Some(Answer::Ended(Outcome::Returned)),
        16 => Some(Answer::Done),
        17 => Some(Answer::Given(Job::Closing)),
        _ => Some(Answer::NotFound),
    })
}

// Whether an action is answered as its row says.
fn is_row(alloc: Global, hub: &mut Hub, at: u32) -> Result<bool, NoMemory> {
    let (by, action) = asked(alloc, at)?;
    let wanted = answered(alloc, at)?;
    let told = act(hub, by, action)?;
    Ok(same(&told, &wanted))
}

#[test]
fn fourteen_calls(rt: HostRuntime) -> Result<(), Fail> {
    let mut hub = hub(rt.alloc(), 2)?;
    for at in 0..19 {
        assert!(rt; is_row(rt.alloc(), &mut hub, at)?, "at {at}");
    }
    assert!(rt; hub.journal().len() == 14);
    hub.reserve(3)?;
    assert!(rt; hub.spare() >= 3);
    Ok(())
}
