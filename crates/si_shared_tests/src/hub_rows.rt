// Each action through its row: each answer that it may be given, and where it is not enabled.

use crate::hubs::{act, boxed, hub, same, x_is_one};
use si_hub::Hub;
use si_parcel::{Action, Answer, BoxedText, Ids, Job, Outcome, Parcel};
use si_plain::{Kind, NoMemory};
use std::alloc::{AllocError, Global};
use std::test::Fail;

// A hub whose interpreter 0 has taken its run.
fn running(alloc: Global, interpreters: u32) -> Result<Hub, NoMemory> {
    let mut hub = hub(alloc, interpreters)?;
    act(&mut hub, 0, Action::Take)?;
    Ok(hub)
}

// A text that takes memory: it is longer than the 15 bytes that a text has room for in itself.
fn long(alloc: Global) -> Result<BoxedText, NoMemory> {
    boxed(alloc, "more than fifteen bytes")
}

fn item(alloc: Global) -> Result<Parcel, NoMemory> {
    let text = long(alloc)?.into_text();
    match Parcel::str(alloc, text) {
        Ok(item) => Ok(item),
        Err(_) => Err(AllocError),
    }
}

// What interpreter 0 asks of a queue of one item.
fn queue_asked(alloc: Global, at: u32) -> Result<(u32, Action), NoMemory> {
    Ok(match at {
        0 => (0, Action::Size(0)),
        1 => (0, Action::CreateQueue(1)),
        2 => (0, Action::Get(0)),
        3 => (0, Action::GetNow(0)),
        4 => (0, Action::Put(0, item(alloc)?)),
        5 => (0, Action::Put(0, Parcel::none())),
        6 => (0, Action::PutNow(0, item(alloc)?)),
        7 => (0, Action::Size(0)),
        8 => (0, Action::Get(0)),
        9 => (0, Action::PutNow(0, item(alloc)?)),
        10 => (0, Action::GetNow(0)),
        _ => (0, Action::Put(1, Parcel::int(7))),
    })
}

fn queue_answered(alloc: Global, at: u32) -> Result<Option<Answer>, NoMemory> {
    Ok(match at {
        0 => None,
        1 => Some(Answer::QueueMade(0)),
        2 => None,
        3 => Some(Answer::Empty),
        4 => Some(Answer::Done),
        5 => None,
        6 => Some(Answer::Full),
        7 => Some(Answer::Count(1)),
        8 | 10 => Some(Answer::Item(item(alloc)?)),
        9 => Some(Answer::Done),
        _ => None,
    })
}

// What is asked of three interpreters, of which 2 is closed.
fn closing_asked(alloc: Global, at: u32) -> Result<(u32, Action), NoMemory> {
    Ok(match at {
        0 => (0, Action::Create),
        1 => (0, Action::Create),
        2 => (0, Action::Create),
        3 => (0, Action::IsRunning(2)),
        4 => (0, Action::Close(0)),
        5 => (0, Action::Close(2)),
        6 => (0, Action::Close(2)),
        7 => (0, Action::Prepare(2, x_is_one(alloc)?)),
        8 => (0, Action::Start(2, long(alloc)?)),
        9 => (0, Action::IsRunning(2)),
        10 => (0, Action::ListAll),
        11 => (2, Action::Take),
        12 => (2, Action::Take),
        _ => (0, Action::Close(3)),
    })
}

fn zero_and_one(alloc: Global) -> Result<Ids, NoMemory> {
    let mut ids = Vec::with_capacity(alloc, 2)?;
    ids.push(0)?;
    ids.push(1)?;
    Ok(Ids::new(ids))
}

fn closing_answered(alloc: Global, at: u32) -> Result<Option<Answer>, NoMemory> {
    Ok(match at {
        0 => Some(Answer::Created(1)),
        1 => Some(Answer::Created(2)),
        2 => Some(Answer::Limit),
        3 => Some(Answer::Truth(false)),
        4 => Some(Answer::Current),
        5 => Some(Answer::Done),
        6..10 => Some(Answer::NotFound),
        10 => Some(Answer::Ids(zero_and_one(alloc)?)),
        11 => Some(Answer::Given(Job::Closing)),
        _ => None,
    })
}

// What is asked of two interpreters, of which 1 is given names and a run.
fn run_asked(alloc: Global, at: u32) -> Result<(u32, Action), NoMemory> {
    Ok(match at {
        0 => (0, Action::Create),
        1 => (0, Action::Prepare(1, x_is_one(alloc)?)),
        2 => (0, Action::Start(1, long(alloc)?)),
        3 => (0, Action::Start(1, long(alloc)?)),
        4 => (0, Action::Prepare(1, x_is_one(alloc)?)),
        5 => (0, Action::Close(1)),
        6 => (1, Action::ListAll),
        7 => (1, Action::Take),
        8 => (1, Action::Take),
        9 => (1, Action::Close(0)),
        10 => (0, Action::IsRunning(1)),
        11 => (0, Action::Await(1)),
        12 => (1, Action::End(raised(alloc)?)),
        13 => (0, Action::Await(1)),
        _ => (0, Action::IsRunning(1)),
    })
}

fn raised(alloc: Global) -> Result<Outcome, NoMemory> {
    let message = long(alloc)?;
    Ok(Outcome::Raised(Kind::ValueError, message))
}

fn run_answered(alloc: Global, at: u32) -> Result<Option<Answer>, NoMemory> {
    Ok(match at {
        0 => Some(Answer::Created(1)),
        1 => Some(Answer::Done),
        2 => Some(Answer::Started(1)),
        3..6 => Some(Answer::Running),
        6 => None,
        7 => Some(Answer::Given(Job::Bind(x_is_one(alloc)?))),
        8 => Some(Answer::Given(Job::Run(1, long(alloc)?))),
        9 => Some(Answer::Main),
        10 => Some(Answer::Truth(true)),
        11 => None,
        12 => Some(Answer::Done),
        13 => Some(Answer::Ended(raised(alloc)?)),
        _ => Some(Answer::Truth(false)),
    })
}

// The rows that are gone through.
#[derive(Clone, Copy)]
pub(crate) enum Rows {
    OfQueues,
    OfClosing,
    OfRuns,
}

pub(crate) fn asked(alloc: Global, rows: Rows, at: u32) -> Result<(u32, Action), NoMemory> {
    match rows {
        Rows::OfQueues => queue_asked(alloc, at),
        Rows::OfClosing => closing_asked(alloc, at),
        Rows::OfRuns => run_asked(alloc, at),
    }
}

pub(crate) fn answered(alloc: Global, rows: Rows, at: u32) -> Result<Option<Answer>, NoMemory> {
    match rows {
        Rows::OfQueues => queue_answered(alloc, at),
        Rows::OfClosing => closing_answered(alloc, at),
        Rows::OfRuns => run_answered(alloc, at),
    }
}

// Whether an action is answered as its row says.
fn is_row(alloc: Global, hub: &mut Hub, rows: Rows, at: u32) -> Result<bool, NoMemory> {
    let (by, action) = asked(alloc, rows, at)?;
    let wanted = answered(alloc, rows, at)?;
    let told = act(hub, by, action)?;
    Ok(same(&told, &wanted))
}

#[test]
fn queues(rt: HostRuntime) -> Result<(), Fail> {
    let mut hub = running(rt.alloc(), 1)?;
    for at in 0..12 {
        assert!(rt;
            is_row(rt.alloc(), &mut hub, Rows::OfQueues, at)?,
            "at {at}"
        );
    }
    Ok(())
}

#[test]
fn closing(rt: HostRuntime) -> Result<(), Fail> {
    let mut hub = running(rt.alloc(), 3)?;
    for at in 0..14 {
        assert!(rt;
            is_row(rt.alloc(), &mut hub, Rows::OfClosing, at)?,
            "at {at}"
        );
    }
    Ok(())
}

#[test]
fn a_run(rt: HostRuntime) -> Result<(), Fail> {
    let mut hub = running(rt.alloc(), 2)?;
    for at in 0..15 {
        assert!(rt; is_row(rt.alloc(), &mut hub, Rows::OfRuns, at)?, "at {at}");
    }
    Ok(())
}

// Whether there may be no more queues.
fn is_at_its_limit(hub: &mut Hub) -> Result<bool, NoMemory> {
    let told = act(hub, 0, Action::CreateQueue(0))?;
    Ok(same(&told, &Some(Answer::Limit)))
}

#[test]
fn as_many_queues_as_allowed(rt: HostRuntime) -> Result<(), Fail> {
    let mut hub = running(rt.alloc(), 1)?;
    for _ in 0..1_024 {
        act(&mut hub, 0, Action::CreateQueue(0))?;
    }
    assert!(rt; is_at_its_limit(&mut hub)?);
    Ok(())
}
