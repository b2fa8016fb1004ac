// Queues by themselves.

use si_parcel::Parcel;
use si_plain::NoMemory;
use si_queues::{NotPut, Queue, Queues, Refusal};
use std::alloc::Global;
use std::test::Fail;

// Puts an int into a queue: why it was refused, or none where it was not.
fn put(queues: &mut Queues, id: u32, int: i64) -> Option<Refusal> {
    if id as usize >= queues.count() {
        return None;
    }
    match queues.put(id, Parcel::int(int)) {
        Ok(()) => None,
        Err(NotPut { why, parcel: _ }) => Some(why),
    }
}

// Whether the oldest item of a queue, now taken, is this int.
fn gets(queues: &mut Queues, id: u32, int: i64) -> bool {
    if id as usize >= queues.count() {
        return false;
    }
    match queues.get(id) {
        None => false,
        Some(item) => item == Parcel::int(int),
    }
}

// Whether a queue holds this int at a place.
fn holds(queue: &Queue, at: usize, int: i64) -> bool {
    match queue.item(at) {
        None => false,
        Some(item) => *item == Parcel::int(int),
    }
}

// A queue without a limit, and one of two items that holds 1 and 2.
fn two_queues(alloc: Global) -> Result<Queues, Fail> {
    let mut queues = Queues::new(alloc);
    queues.make(0)?;
    queues.make(2)?;
    put(&mut queues, 1, 1);
    put(&mut queues, 1, 2);
    Ok(queues)
}

// Whether the next queue has this number, or there is none where that is none.
fn makes(queues: &mut Queues, maxsize: u64, wanted: Option<u32>) -> Result<bool, NoMemory> {
    Ok(queues.make(maxsize)? == wanted)
}

#[test]
fn numbers_count_up(rt: HostRuntime) -> Result<(), Fail> {
    let mut queues = Queues::new(rt.alloc());
    assert!(rt; makes(&mut queues, 0, Some(0))?);
    assert!(rt; makes(&mut queues, 2, Some(1))?);
    assert!(rt; queues.count() == 2);
    Ok(())
}

#[test]
fn first_in_first_out(rt: HostRuntime) -> Result<(), Fail> {
    let mut queues = two_queues(rt.alloc())?;
    assert!(rt; queues.len(1) == Some(2));
    assert!(rt; gets(&mut queues, 1, 1));
    assert!(rt; gets(&mut queues, 1, 2));
    assert!(rt; !gets(&mut queues, 1, 2));
    assert!(rt; queues.len(1) == Some(0));
    Ok(())
}

// Whether a queue is full, and holds 1 and 2 and no more.
fn is_full_of_two(queue: &Queue) -> bool {
    let full = queue.maxsize() == 2 && queue.is_full() && !queue.is_empty();
    full && holds(queue, 0, 1) && holds(queue, 1, 2)
}

#[test]
fn not_past_the_maxsize(rt: HostRuntime) -> Result<(), Fail> {
    let mut queues = two_queues(rt.alloc())?;
    assert!(rt; put(&mut queues, 1, 3) == Some(Refusal::Full));
    assert!(rt; put(&mut queues, 0, 3).is_none());
    match queues.queue(1) {
        Some(queue) => assert!(rt; is_full_of_two(queue)),
        None => assert!(rt; false),
    }
    Ok(())
}

#[test]
fn at_most_1024_queues(rt: HostRuntime) -> Result<(), Fail> {
    let mut queues = Queues::new(rt.alloc());
    for _ in 0..1_024 {
        queues.make(0)?;
    }
    assert!(rt; makes(&mut queues, 0, None)?);
    assert!(rt; queues.count() == 1_024);
    Ok(())
}
