// Books without threads, and runs by threads.

use si_hub::Hub;
use si_parcel::{Action, Answer, BoxedText};
use si_plain::{Limits, Text};
use si_workers::{Acted, Book, Gate, RunFault, gather, run};
use si_world::{End, Recording};
use std::alloc::Global;
use std::sync::Wait;
use std::sync::atomic::{AtomicBool, Ordering};
use std::test::Fail;
use std::thread::Threads;

fn limits(interpreters: u32) -> Result<Limits, Fail> {
    Ok(Limits::new(interpreters, 1_000_000).map_err(|_| "the limits")?)
}

// The book of a script, for so many interpreters.
fn book(alloc: Global, script: &str, interpreters: u32) -> Result<Book, Fail> {
    Ok(Book::new(alloc, Hub::new(alloc, script, limits(interpreters)?)?)?)
}

// An action that is to be answered at once, if it may be made now.
fn answered(book: &mut Book, i: u32, action: Action) -> Result<Answer, Fail> {
    if !book.is_busy(i) {
        return Err("not busy")?;
    }
    match book.act(i, action) {
        Acted::Answered(answer) => Ok(answer),
        Acted::Waits => Err("it waits")?,
        Acted::Refused(_) => Err("refused")?,
    }
}

// One that is to wait.
fn waits(book: &mut Book, i: u32, action: Action) -> Result<(), Fail> {
    if !book.is_busy(i) {
        return Err("not busy")?;
    }
    match book.act(i, action) {
        Acted::Waits => Ok(()),
        _ => Err("it does not wait")?,
    }
}

// Whether interpreter 1 is not to be woken.
fn sleeps_on(book: &mut Book) -> bool {
    !book.has_woken() && book.resume(1).is_none()
}

// Whether interpreter 1 is to be woken, goes on from where it waited for a job, and is then woken no more.
fn is_woken(book: &mut Book) -> bool {
    book.has_woken() && book.resume(1) == Some(Action::Take) && book.is_busy(1) && !book.has_woken()
}

#[test]
fn woken_by_a_start(rt: HostRuntime) -> Result<(), Fail> {
    let alloc = rt.alloc();
    let mut book = book(alloc, "", 2)?;
    waits(&mut book, 1, Action::Take)?;
    answered(&mut book, 0, Action::Take)?;
    answered(&mut book, 0, Action::Create)?;
    assert!(rt; sleeps_on(&mut book));
    let text = BoxedText::new(alloc, Text::from_str(alloc, "print(1)")?)?;
    answered(&mut book, 0, Action::Start(1, text))?;
    assert!(rt; is_woken(&mut book));
    assert!(rt; book.into_hub().journal().len() == 3);
    Ok(())
}

// Whether all is over once interpreter 1 rests, and was not before.
fn is_over_where_one_rests(book: &mut Book) -> bool {
    let was_over = book.over() || book.reclaim(0).is_some();
    if book.is_busy(1) {
        book.rest(1);
    }
    !was_over && book.over()
}

// Whether each of the others takes back the action at which it waited, once.
fn is_reclaimed(book: &mut Book) -> bool {
    book.reclaim(1).is_none()
        && book.reclaim(0) == Some(Action::Get(0))
        && book.reclaim(2) == Some(Action::Take)
        && book.reclaim(2).is_none()
}

#[test]
fn over_where_all_wait(rt: HostRuntime) -> Result<(), Fail> {
    let alloc = rt.alloc();
    let mut book = book(alloc, "", 3)?;
    waits(&mut book, 2, Action::Take)?;
    answered(&mut book, 0, Action::Take)?;
    let made = answered(&mut book, 0, Action::CreateQueue(1))?;
    assert!(rt; made == Answer::QueueMade(0));
    waits(&mut book, 0, Action::Get(0))?;
    assert!(rt; is_over_where_one_rests(&mut book) && is_reclaimed(&mut book));
    Ok(())
}

#[test]
fn nothing_is_left(rt: HostRuntime) -> Result<(), Fail> {
    let alloc = rt.alloc();
    let book = book(alloc, "", 8)?;
    let gathered = gather(alloc, book, Vec::new(alloc), "", limits(8)?);
    assert!(rt; matches!(gathered, Err(RunFault::Broken(0))));
    Ok(())
}

// A gate that does nothing.
#[derive(Drop)]
struct Open;

impl Gate for Open {
    fn before(&self, _i: u32) {}

    fn after(&self, _i: u32) {}
}

// What a script leaves that is run by threads.
fn left<G: Gate + Sync, R: Threads + Wait + Sync>(
    rt: &R,
    alloc: Global,
    script: &str,
    gate: &G,
) -> Result<Recording, Fail> {
    match run(rt, alloc, script, None, limits(8)?, gate) {
        Ok(recording) => Ok(recording),
        Err(_) => Err("no recording")?,
    }
}

// Whether the interpreters are so many as these texts, and each has printed its own.
fn have_printed(recording: &Recording, texts: &[&str]) -> bool {
    for (report, text) in recording.reports().iter().zip(texts.iter()) {
        if report.printed().as_str() != *text {
            return false;
        }
    }
    recording.reports().len() == texts.len()
}

#[test]
fn waits_for_ever(rt: HostRuntime) -> Result<(), Fail> {
    let script = "from concurrent import interpreters\ninterpreters.create_queue().get()\n";
    let recording = left(&rt, rt.alloc(), script, &Open)?;
    assert!(rt; recording.end() == End::Stuck && have_printed(&recording, &[""]));
    Ok(())
}

const TWO_SENDERS: &str = "import threading
from concurrent import interpreters
q = interpreters.create_queue(1)
a = interpreters.create()
b = interpreters.create()
a.prepare_main(q=q, s='a')
b.prepare_main(q=q, s='b')
text = \"for k in range(2):\\n    q.put((s, k))\"
t = threading.Thread(target=a.exec, args=(text,))
u = threading.Thread(target=b.exec, args=(text,))
t.start()
u.start()
for k in range(4):
    print(q.get())
t.join()
u.join()
";

// The line of an item.
fn item(sender: u8) -> &'static str {
    match sender {
        0 => "('a', 0)\n",
        1 => "('a', 1)\n",
        2 => "('b', 0)\n",
        _ => "('b', 1)\n",
    }
}

// The six orders in which each sender's items come in its own order.
const ORDERS: [[u8; 4]; 6] = [
    [0, 1, 2, 3],
    [0, 2, 1, 3],
    [0, 2, 3, 1],
    [2, 0, 1, 3],
    [2, 0, 3, 1],
    [2, 3, 0, 1],
];

// Whether a text is the items of one of these orders.
fn is_in_order(text: &str) -> bool {
    for order in ORDERS {
        let mut rest = text;
        for sender in order {
            rest = rest.strip_prefix(item(sender)).unwrap_or("-");
        }
        if rest.is_empty() {
            return true;
        }
    }
    false
}

// Whether interpreter 0 has printed the items in one of these orders, and two others nothing.
fn are_sent(recording: &Recording) -> bool {
    match recording.reports() {
        [first, second, third] => {
            is_in_order(first.printed().as_str())
                && second.printed().is_empty()
                && third.printed().is_empty()
        }
        _ => false,
    }
}

#[test]
fn two_senders(rt: HostRuntime) -> Result<(), Fail> {
    let recording = left(&rt, rt.alloc(), TWO_SENDERS, &Open)?;
    assert!(rt; recording.end() == End::Finished && are_sent(&recording));
    Ok(())
}

const SQUARES: &str = "import threading
from concurrent import interpreters
i = interpreters.create()
q = interpreters.create_queue()
i.prepare_main(q=q, n=3)
t = threading.Thread(target=i.exec, args=(\"for k in range(n):\\n    q.put(k * k)\\nraise ValueError('done')\",))
t.start()
print(q.get(), q.get(), q.get())
t.join()
print(i.is_running())
try:
    t.start()
except RuntimeError as e:
    print(e)
";

#[test]
fn thread_sends_squares(rt: HostRuntime) -> Result<(), Fail> {
    let recording = left(&rt, rt.alloc(), SQUARES, &Open)?;
    let texts = ["0 1 4\nFalse\nthread already started\n", ""];
    assert!(rt; recording.end() == End::Finished && have_printed(&recording, &texts));
    Ok(())
}

// A gate at which interpreters 1 and 2 look out for each other, each in its first stretch.
#[derive(Drop)]
struct Meeting {
    one: Guest,
    two: Guest,
}

// One that is expected at a meeting: whether it has come, and whether it has seen the other.
#[derive(Drop)]
struct Guest {
    came: AtomicBool,
    saw: AtomicBool,
}

impl Guest {
    fn new() -> Guest {
        Guest {
            came: AtomicBool::new(false),
            saw: AtomicBool::new(false),
        }
    }

    // Comes, the first time that it is called, and looks out for the other.
    fn meet(&self, other: &Guest) {
        if self.came.swap(true, Ordering::SeqCst) {
            return;
        }
        for _ in 0..200_000_000u64 {
            if other.came.load(Ordering::SeqCst) {
                self.saw.store(true, Ordering::SeqCst);
                return;
            }
        }
    }
}

impl Gate for Meeting {
    fn before(&self, i: u32) {
        match i {
            1 => self.one.meet(&self.two),
            2 => self.two.meet(&self.one),
            _ => {}
        }
    }

    fn after(&self, _i: u32) {}
}

const TWO_AT_ONCE: &str = "import threading
from concurrent import interpreters
a = interpreters.create()
b = interpreters.create()
text = \"for k in range(100):\\n    x = k\"
t = threading.Thread(target=a.exec, args=(text,))
u = threading.Thread(target=b.exec, args=(text,))
t.start()
u.start()
t.join()
u.join()
";

// Whether each of the two has seen the other.
fn have_met(gate: &Meeting) -> bool {
    gate.one.saw.load(Ordering::SeqCst) && gate.two.saw.load(Ordering::SeqCst)
}

#[test]
fn two_at_once(rt: HostRuntime) -> Result<(), Fail> {
    let gate = Meeting {
        one: Guest::new(),
        two: Guest::new(),
    };
    let recording = left(&rt, rt.alloc(), TWO_AT_ONCE, &gate)?;
    assert!(rt; recording.end() == End::Finished && have_met(&gate));
    Ok(())
}
