// Workers, each in a thread of its own.

ghost use Rattle.std.specs.Prelude.{◌≡◌, IfOk, true, false};
ghost use Rattle.si_plain.specs.Characters.{characters_of};
ghost use Rattle.si_parcel.specs.Shared.{action_of};
ghost use Rattle.si_interp.specs.Meaning.{At};
ghost use Rattle.si_workers.specs.Gathers.{IsGathered};

use crate::acted::Acted;
use crate::book::Book;
use crate::fault::RunFault;
use crate::gathering::gather;
use crate::sleepers::Sleepers;
use crate::worked::Worked;
use si_hub::Hub;
use si_interp::{Interp, State};
use si_parcel::Action;
use si_plain::{Limits, NoMemory};
use si_reading::Reading;
use si_world::{Recording, stretch};
use std::alloc::Global;
use std::hint::spin_loop;
use std::sync::{Condvar, Mutex, MutexGuard, Wait};
use std::thread;
use std::thread::{JoinHandle, Threads};

/// What is told of the stretches that interpreters run by themselves, by their workers, and without a lock.
pub trait Gate {
    /// Interpreter i is about to run at least one line.
    fn before(&self, i: u32);

    /// It has run them.
    fn after(&self, i: u32);
}

// How often a worker looks at the book before it sleeps. All looks together take longer than to wake a thread, where nobody else
// wants the processor: else two workers that wait for each other would sleep in turns.
const LOOKS: u32 = 50;

// What lies under the lock: the book, and which workers sleep.
#[derive(Drop)]
struct Shared {
    book: Book,
    sleepers: Sleepers,
}

// What workers share, and what wakes those that sleep.
#[derive(Drop)]
struct Desk {
    shared: Mutex<Shared>,
    changed: Condvar,
}

// Runs the lines of an interpreter that has any, as far as its turns go.
fn run_lines<G: Gate>(gate: &G, interp: &mut Interp, i: u32, limits: Limits) {
    let turns = limits.turns();
    if interp.state() == State::Ready && interp.locals() < turns {
        gate.before(i);
        let _given = stretch(interp, turns, turns);
        gate.after(i);
    }
}

// Whether this is the action that the interpreter has handed out.
fn has_handed_out(interp: &Interp, action: &Action) -> bool
    ensures taken { result ≡ true → interp.now.taken ≡ true }
    ensures same { result ≡ true → interp.now.stand ≡ At (action_of action.now) }
{
    if !interp.is_taken() {
        return false;
    }
    match interp.pending() {
        None => false,
        Some(pending) => *pending == *action,
    }
}

// Gives an action back that waited in the book, if it is the one that the interpreter has handed out.
fn give_back(interp: &mut Interp, action: Action) -> bool {
    if !has_handed_out(interp, &action) {
        return false;
    }
    interp.give_back(action);
    true
}

// How often a worker tries to take the lock before it waits for it in the system: to sleep and to be woken takes longer than the lock
// is held, and whoever gives it up then has to wake in turn.
const TRIES: u32 = 200;

// How long it pauses after each try, so that whoever has the lock is not held up by it.
const PAUSES: u32 = 5;

fn pause() {
    for _ in 0..PAUSES {
        spin_loop();
    }
}

// Takes the lock.
fn enter<'b, R: Wait>(rt: &R, shared: &'b Mutex<Shared>) -> MutexGuard<'b, Shared> {
    for _ in 0..TRIES {
        match shared.try_lock() {
            Some(guard) => return guard,
            None => pause(),
        }
    }
    shared.lock(rt)
}

// Looks at the book some times, without the lock in between, until page i is woken or all is over.
fn look<'b, R: Wait>(rt: &R, guard: MutexGuard<'b, Shared>, i: u32) -> MutexGuard<'b, Shared> {
    let mut guard = guard;
    for _ in 0..LOOKS {
        if guard.book.is_woken(i) || guard.book.over() {
            return guard;
        }
        let lock = MutexGuard::unlock(guard);
        thread::yield_now();
        guard = enter(rt, lock);
    }
    guard
}

// Waits in page i until it is woken, or all is over. Whether its worker goes on. It looks before it sleeps, but for the first text,
// which may never come.
fn wait_in<'b, R: Wait>(
    rt: &R,
    desk: &'b Desk,
    guard: MutexGuard<'b, Shared>,
    interp: &mut Interp,
    i: u32,
) -> bool {
    let mut guard = if interp.log().is_empty() {
        guard
    } else {
        look(rt, guard, i)
    };
    for _ in rt.forever() {
        match guard.book.resume(i) {
            Some(action) => return give_back(interp, action),
            None => {}
        }
        if guard.book.over() {
            match guard.book.reclaim(i) {
                Some(action) => {
                    give_back(interp, action);
                }
                None => {}
            }
            return false;
        }
        guard.sleepers.add(i);
        guard = desk.changed.wait(rt, guard);
    }
    unreachable!()
}

// The worker of page i is done. Those that wait are told, where none is left that could wake them.
fn rest<R: Wait>(rt: &R, desk: &Desk, i: u32) {
    let mut guard = enter(rt, &desk.shared);
    if guard.book.is_busy(i) {
        guard.book.rest(i);
        if guard.book.over() {
            desk.changed.notify_all();
        }
    }
}

// Gives the lock up, and wakes those that sleep, where the page of one of them was woken.
fn leave(desk: &Desk, guard: MutexGuard<'_, Shared>) {
    let mut guard = guard;
    let shared = &mut *guard;
    let wakes = shared.sleepers.has_woken(&shared.book);
    if wakes {
        shared.sleepers.clear();
    }
    drop(guard);
    if wakes {
        desk.changed.notify_all();
    }
}

// Puts an action to the book. Whether the worker goes on.
fn share<R: Wait>(rt: &R, desk: &Desk, interp: &mut Interp, i: u32, action: Action) -> bool
    requires stands { interp.old.stand ≡ At (action_of action) }
    requires taken { interp.old.taken ≡ true }
{
    let mut guard = enter(rt, &desk.shared);
    if !guard.book.is_busy(i) {
        return false;
    }
    match guard.book.act(i, action) {
        Acted::Answered(answer) => {
            leave(desk, guard);
            interp.answer(answer);
            true
        }
        Acted::Refused(_) => {
            drop(guard);
            interp.starve();
            rest(rt, desk, i);
            false
        }
        Acted::Waits => {
            if guard.book.over() {
                desk.changed.notify_all();
            }
            wait_in(rt, desk, guard, interp, i)
        }
    }
}

// The work of one thread: the whole life of one interpreter.
fn work<G: Gate, R: Wait>(rt: &R, desk: &Desk, gate: &G, interp: Interp, limits: Limits) -> Worked {
    let mut interp = interp;
    let i = interp.id();
    for _ in rt.forever() {
        run_lines(gate, &mut interp, i, limits);
        match interp.take_action() {
            None => {
                rest(rt, desk, i);
                return Worked::of(interp);
            }
            Some(action) => {
                if !share(rt, desk, &mut interp, i, action) {
                    return Worked::of(interp);
                }
            }
        }
    }
    unreachable!()
}

// An interpreter for each number that the limits allow, the first of them with its script as it was read, if it was.
fn first_interps(
    alloc: Global,
    limits: Limits,
    prepared: Option<Reading>,
) -> Result<Vec<Interp>, NoMemory> {
    let mut prepared = prepared;
    let mut interps = Vec::new(alloc);
    for i in 0..limits.interpreters() {
        let mut interp = Interp::new(alloc, i)?;
        if let Some(reading) = prepared.take() {
            interp.prepare(reading);
        }
        interps.push(interp)?;
    }
    Ok(interps)
}

// One more, for which there is room.
fn keep<T: Drop>(all: &mut Vec<T>, one: T) {
    let _ = all.push(one);
}

// Starts a thread for each interpreter, and returns when all have ended. Where one can't be started, its page is put to rest, so
// that the others don't wait for it.
fn start_all<G: Gate + Sync, R: Threads + Wait + Sync>(
    rt: &R,
    desk: &Desk,
    gate: &G,
    interps: Vec<Interp>,
    limits: Limits,
    handles: Vec<JoinHandle<Worked>>,
) -> Vec<JoinHandle<Worked>> {
    thread::scope(thread::scope_env(), rt, move |scope| {
        let mut handles = handles;
        for interp in interps {
            let i = interp.id();
            match scope.spawn(move || work(rt, desk, gate, interp, limits)) {
                Ok(handle) => keep(&mut handles, handle),
                Err(_) => rest(rt, desk, i),
            }
        }
        handles
    })
}

// What the workers have left, each in a thread of its own.
fn work_all<G: Gate + Sync, R: Threads + Wait + Sync>(
    rt: &R,
    alloc: Global,
    desk: &Desk,
    gate: &G,
    interps: Vec<Interp>,
    limits: Limits,
) -> Result<Vec<Worked>, RunFault> {
    let count = interps.len();
    let handles = Vec::with_capacity(alloc, count)?;
    let mut worked = Vec::with_capacity(alloc, count)?;
    for handle in start_all(rt, desk, gate, interps, limits, handles) {
        keep(&mut worked, handle.join(rt));
    }
    if worked.len() < count {
        return Err(RunFault::NoThread);
    }
    Ok(worked)
}

/// Runs a script within these limits, each interpreter in a thread of its own: as many threads as the limits allow interpreters.
/// The gate is told of each stretch that an interpreter runs by itself. Where the script was read before, `prepared` has what it
/// was read as, and it is not read once more; nothing else comes of that.
///
/// # Errors
///
/// `NoMemory` where memory was refused, `NoThread` where a thread can't be started. `Broken` is not to come.
pub fn run<G: Gate + Sync, R: Threads + Wait + Sync>(
    rt: &R,
    alloc: Global,
    script: &str,
    prepared: Option<Reading>,
    limits: Limits,
    gate: &G,
) -> Result<Recording, RunFault>
    ensures { IfOk result (IsGathered (characters_of script.now) limits) }
{
    let hub = Hub::new(alloc, script, limits)?;
    let book = Book::new(alloc, hub)?;
    let sleepers = Sleepers::new(alloc, limits.interpreters())?;
    let shared = Mutex::new(Shared { book, sleepers });
    let interps = first_interps(alloc, limits, prepared)?;
    let changed = Condvar::new();
    let desk = Desk { shared, changed };
    let worked = work_all(rt, alloc, &desk, gate, interps, limits)?;
    let Desk { shared, changed: _ } = desk;
    let Shared { book, sleepers: _ } = shared.into_inner();
    gather(alloc, book, worked, script, limits)
}
