// Each action where memory is refused: the action comes back, nothing has changed, and once more it is answered. The
// allocations are refused by `cases/refuse_memory --test`, one at each run of the test; where none is, all is answered at
// once.

use crate::hub_rows::{self, Rows};
use crate::hubs::{self, same};
use si_hub::{Hub, NotActed, Why};
use si_parcel::{Action, Answer};
use si_plain::NoMemory;
use std::alloc::Global;
use std::test::Fail;

// An action once more, which came back for want of memory.
fn once_more(
    hub: &mut Hub,
    by: u32,
    refused: NotActed,
    copy: &Action,
) -> Result<Option<Answer>, Fail> {
    if refused.action != *copy {
        return Err("another action came back".into());
    }
    match hub.act(by, refused.action) {
        Ok(answer) => Ok(Some(answer)),
        Err(_) => Err("refused twice".into()),
    }
}

// What an action is answered, once more where memory was refused. `None` where it is not enabled.
fn act(hub: &mut Hub, by: u32, action: Action, copy: &Action) -> Result<Option<Answer>, Fail> {
    let calls = hub.journal().len();
    match hub.act(by, action) {
        Ok(answer) => Ok(Some(answer)),
        Err(refused) => {
            if hub.journal().len() != calls {
                return Err("another journal".into());
            }
            match refused.why {
                Why::NotNow => Ok(None),
                Why::NoMemory => once_more(hub, by, refused, copy),
            }
        }
    }
}

fn asked(alloc: Global, rows: Rows, at: u32) -> Result<(u32, Action), NoMemory> {
    match hub_rows::asked(alloc, rows, at) {
        Ok(asked) => Ok(asked),
        Err(_) => hub_rows::asked(alloc, rows, at),
    }
}

fn answered(alloc: Global, rows: Rows, at: u32) -> Result<Option<Answer>, NoMemory> {
    match hub_rows::answered(alloc, rows, at) {
        Ok(answer) => Ok(answer),
        Err(_) => hub_rows::answered(alloc, rows, at),
    }
}

fn copied(alloc: Global, action: &Action) -> Result<Action, NoMemory> {
    match action.clone_action(alloc) {
        Ok(copy) => Ok(copy),
        Err(_) => action.clone_action(alloc),
    }
}

fn hub(alloc: Global) -> Result<Hub, NoMemory> {
    match hubs::hub(alloc, 3) {
        Ok(hub) => Ok(hub),
        Err(_) => hubs::hub(alloc, 3),
    }
}

// A hub of three interpreters, of which 0 has taken its run.
fn running(alloc: Global) -> Result<Hub, Fail> {
    let mut hub = hub(alloc)?;
    act(&mut hub, 0, Action::Take, &Action::Take)?;
    Ok(hub)
}

// Whether an action is answered as its row says.
fn is_row(alloc: Global, hub: &mut Hub, rows: Rows, at: u32) -> Result<bool, Fail> {
    let (by, action) = asked(alloc, rows, at)?;
    let copy = copied(alloc, &action)?;
    let wanted = answered(alloc, rows, at)?;
    let told = act(hub, by, action, &copy)?;
    Ok(same(&told, &wanted))
}

// Whether so many actions are answered as their rows say.
fn go_through(alloc: Global, rows: Rows, count: u32) -> Result<bool, Fail> {
    let mut hub = running(alloc)?;
    for at in 0..count {
        if !is_row(alloc, &mut hub, rows, at)? {
            return Ok(false);
        }
    }
    Ok(true)
}

#[test]
fn refused_of_queues(rt: HostRuntime) -> Result<(), Fail> {
    assert!(rt; go_through(rt.alloc(), Rows::OfQueues, 12)?);
    Ok(())
}

#[test]
fn refused_of_closing(rt: HostRuntime) -> Result<(), Fail> {
    assert!(rt; go_through(rt.alloc(), Rows::OfClosing, 14)?);
    Ok(())
}

#[test]
fn refused_of_runs(rt: HostRuntime) -> Result<(), Fail> {
    assert!(rt; go_through(rt.alloc(), Rows::OfRuns, 15)?);
    Ok(())
}
