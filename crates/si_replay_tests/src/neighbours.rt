// Neighbours in the journal of a hub.

use si_exchange::independent;
use si_hub::{Hub, Why};
use si_parcel::{Action, BoxedText, Parcel};
use si_plain::{Limits, NoMemory, Text};
use std::alloc::{AllocError, Global};
use std::test::Fail;

fn empty_text(alloc: Global) -> Result<BoxedText, NoMemory> {
    Ok(BoxedText::new(alloc, Text::from_str(alloc, "")?)?)
}

// What two interpreters with two queues ask.
fn asked(alloc: Global, at: u32) -> Result<(u32, Action), NoMemory> {
    Ok(match at {
        0 => (0, Action::Take),
        1 => (0, Action::Create),
        2 => (0, Action::CreateQueue(0)),
        3 => (0, Action::CreateQueue(0)),
        4 => (0, Action::Start(1, empty_text(alloc)?)),
        5 => (1, Action::Take),
        6 => (0, Action::Put(0, Parcel::int(1))),
        7 => (1, Action::Put(1, Parcel::int(2))),
        8 => (0, Action::Put(1, Parcel::int(3))),
        9 => (0, Action::Size(0)),
        10 => (1, Action::Size(0)),
        11 => (0, Action::PutNow(0, Parcel::int(4))),
        12 => (1, Action::Get(0)),
        13 => (0, Action::GetNow(0)),
        14 => (1, Action::GetNow(1)),
        15 => (0, Action::Create),
        16 => (1, Action::Size(1)),
        _ => (0, Action::ListAll),
    })
}

// Whether each call and the next are independent.
fn wanted(at: usize) -> bool {
    match at {
        // two puts and two gets, of two queues
        6 | 13 => true,
        // two sizes of one queue
        9 => true,
        // actions that are on no queue; one interpreter; two puts, a size and a put, a put and a get, two gets of one queue
        _ => false,
    }
}

fn act(hub: &mut Hub, by: u32, action: Action) -> Result<bool, NoMemory> {
    match hub.act(by, action) {
        Ok(_) => Ok(true),
        Err(refused) => match refused.why {
            Why::NotNow => Ok(false),
            Why::NoMemory => Err(AllocError),
        },
    }
}

fn hub(alloc: Global) -> Result<Hub, NoMemory> {
    match Limits::new(2, 1_000) {
        Ok(limits) => Hub::new(alloc, "", limits),
        Err(_) => Err(AllocError),
    }
}

// The first call that is not as wanted with the next, in this order or the other.
fn wrong_call(hub: &Hub) -> Option<usize> {
    for (at, pair) in hub.journal().windows(2).enumerate() {
        let wanted = wanted(at);
        let back = independent(&pair[1], &pair[0]);
        if independent(&pair[0], &pair[1]) != wanted || back != wanted {
            return Some(at);
        }
    }
    None
}

#[test]
fn neighbours(rt: HostRuntime) -> Result<(), Fail> {
    let alloc = rt.alloc();
    let mut hub = hub(alloc)?;
    for at in 0..18 {
        let (by, action) = asked(alloc, at)?;
        assert!(rt; act(&mut hub, by, action)?, "at {at}");
    }
    assert!(rt; hub.journal().len() == 18);
    assert_eq!(rt; wrong_call(&hub), None);
    Ok(())
}
