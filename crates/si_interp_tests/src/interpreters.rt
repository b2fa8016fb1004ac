// One interpreter, with a test as its host.
//
// A proof costs what is alive at each way out, at a `?` and at an assertion, and an interpreter is much. So no test has one: it
// asserts what a function answers that has one, and all that may fail there is done by others, to which that lends it.

use si_interp::{Interp, NotShown, RunOrigin, State, Step};
use si_parcel::{Action, Answer, Atom, BoxedText, Job, Outcome, Parcel, Top};
use si_plain::{Kind, Text};
use std::alloc::{AllocError, Global};
use std::test::Fail;

// Gives an answer to the action at which it stands, if it fits.
fn give(interp: &mut Interp, answer: Answer) -> bool {
    match interp.take_action() {
        None => false,
        Some(action) => {
            if answer.fits(&action) {
                interp.answer(answer);
                true
            } else {
                interp.give_back(action);
                false
            }
        }
    }
}

// That a text is to be run.
fn to_run(alloc: Global, text: &str) -> Result<Answer, AllocError> {
    let text = BoxedText::new(alloc, Text::from_str(alloc, text)?)?;
    Ok(Answer::Given(Job::Run(0, text)))
}

// Runs lines, until none is left or there were a hundred.
fn go_on(interp: &mut Interp) -> Step {
    for _ in 0..100 {
        if interp.locals() >= 1000 {
            return Step::Local;
        }
        match interp.step() {
            Step::Local => {}
            step => return step,
        }
    }
    Step::Local
}

// Whether it stands at the end of a run that has returned.
fn has_returned(interp: &Interp) -> bool {
    matches!(interp.pending(), Some(Action::End(Outcome::Returned)))
}

// Whether it comes to the end of a run that returns, having printed this, with so many entries in its log.
fn returns(interp: &mut Interp, printed: &str, entries: usize) -> bool {
    let asks = go_on(interp) == Step::Asks;
    asks && has_returned(interp) && interp.printed() == printed && interp.log().len() == entries
}

// An interpreter that was given a text to run.
fn given(alloc: Global, text: &str) -> Result<Interp, AllocError> {
    let answer = to_run(alloc, text)?;
    let mut interp = Interp::new(alloc, 0)?;
    give(&mut interp, answer);
    Ok(interp)
}

// An interpreter in which two texts were run, the second where the first has returned.
fn given_two(alloc: Global, first: &str, second: &str) -> Result<Interp, AllocError> {
    let second = to_run(alloc, second)?;
    let mut interp = given(alloc, first)?;
    go_on(&mut interp);
    if has_returned(&interp) {
        give(&mut interp, Answer::Done);
        give(&mut interp, second);
    }
    Ok(interp)
}

fn sees_names(alloc: Global) -> Result<bool, AllocError> {
    let mut interp = given_two(alloc, "x = 6\nprint(x * 7)\n", "print(x + 1)\n")?;
    Ok(returns(&mut interp, "42\n7\n", 3))
}

#[test]
fn second_run_sees_the_names_of_the_first(rt: HostRuntime) -> Result<(), Fail> {
    assert!(rt; sees_names(rt.alloc())?);
    Ok(())
}

// Whether a global is shown so, or, where nothing is wanted, is bound to nothing.
fn is_shown(interp: &Interp, name: &str, wanted: &str) -> Result<bool, AllocError> {
    match interp.global(name) {
        Ok(Some(text)) => Ok(text.as_str() == wanted),
        Ok(None) => Ok(wanted.is_empty()),
        Err(NotShown::Raises(_)) => Ok(false),
        Err(NotShown::NoMemory) => Err(AllocError),
    }
}

// Two texts that one interpreter runs, the second after the first.
const FIRST: &str = "z = 1\nx = [z, 'a']\ndef f():\n    y = 2\n    return y\n";

const SECOND: &str =
    "x.append(x)\nw = (f(), b'b')\ntry:\n    raise ValueError('e')\nexcept ValueError as z:\n    pass\n";

fn shows_the_first(interp: &Interp) -> Result<bool, AllocError> {
    let x = is_shown(interp, "x", "[1, 'a']")?;
    let z = is_shown(interp, "z", "1")?;
    Ok(x && z && is_shown(interp, "w", "")?)
}

fn shows_the_second(interp: &Interp) -> Result<bool, AllocError> {
    let x = is_shown(interp, "x", "[1, 'a', [...]]")?;
    let w = is_shown(interp, "w", "(2, b'b')")?;
    Ok(x && w && is_shown(interp, "f", "<function f>")?)
}

// Locals, what `except` has unbound and built-ins are no globals; the name of the module is one.
fn shows_no_others(interp: &Interp) -> Result<bool, AllocError> {
    let y = is_shown(interp, "y", "")?;
    let z = is_shown(interp, "z", "")?;
    let print = is_shown(interp, "print", "")?;
    Ok(y && z && print && is_shown(interp, "__name__", "'__main__'")?)
}

// Whether the globals are shown after each text, and none is of one that stands still for good.
fn shows_all(interp: &mut Interp) -> Result<bool, AllocError> {
    let first = shows_the_first(interp)?;
    go_on(interp);
    let second = shows_the_second(interp)? && shows_no_others(interp)?;
    interp.starve();
    Ok(first && second && is_shown(interp, "x", "")?)
}

fn globals_show(alloc: Global) -> Result<bool, AllocError> {
    let mut interp = given_two(alloc, FIRST, SECOND)?;
    shows_all(&mut interp)
}

#[test]
fn globals_are_shown(rt: HostRuntime) -> Result<(), Fail> {
    assert!(rt; globals_show(rt.alloc())?);
    Ok(())
}

// What a host answers that has one queue, whose one item is held, and one other interpreter.
fn host_answer(
    alloc: Global,
    action: &Action,
    held: &mut Option<Parcel>,
) -> Result<Answer, AllocError> {
    match action {
        Action::CreateQueue(_) => Ok(Answer::QueueMade(0)),
        Action::Put(_, parcel) => {
            *held = Some(parcel.clone_parcel(alloc)?);
            Ok(Answer::Done)
        }
        Action::Get(_) => match held.take() {
            Some(parcel) => Ok(Answer::Item(parcel)),
            None => Ok(Answer::Empty),
        },
        Action::Create => Ok(Answer::Created(1)),
        Action::Start(_, _) => Ok(Answer::Started(4)),
        Action::Await(_) => Ok(Answer::Ended(Outcome::Returned)),
        _ => Ok(Answer::Done),
    }
}

// Runs lines up to an action, and answers it as the host does, so many times.
fn go_on_answered(alloc: Global, interp: &mut Interp, times: u32) -> Result<(), AllocError> {
    let mut held = None;
    for _ in 0..times {
        go_on(interp);
        let answer = match interp.pending() {
            Some(action) => host_answer(alloc, action, &mut held)?,
            None => return Ok(()),
        };
        give(interp, answer);
    }
    Ok(())
}

// Whether it comes to ask for a queue without a bound, and takes the answer that it is queue 3.
fn is_given_a_queue(interp: &mut Interp) -> bool {
    go_on(interp);
    matches!(interp.pending(), Some(Action::CreateQueue(0))) && give(interp, Answer::QueueMade(3))
}

fn is_five(parcel: &Parcel) -> bool {
    matches!(parcel.top(), Top::Atom(Atom::Int(5)))
}

// Whether it comes to put 5 into queue 3, and takes the answer that it is done.
fn puts_five(interp: &mut Interp) -> bool {
    go_on(interp);
    let puts = match interp.pending() {
        Some(Action::Put(3, parcel)) => is_five(parcel),
        _ => false,
    };
    puts && give(interp, Answer::Done)
}

// Whether it comes to ask for an item of queue 3, and takes this one.
fn gets_an_item(interp: &mut Interp, item: Answer) -> bool {
    go_on(interp);
    matches!(interp.pending(), Some(Action::Get(3))) && give(interp, item)
}

// The item `a`.
fn item_of_a(alloc: Global) -> Result<Answer, AllocError> {
    let parcel = Parcel::str(alloc, Text::from_str(alloc, "a")?).or(Err(AllocError))?;
    Ok(Answer::Item(parcel))
}

// Whether it goes as its host answers it, and ends with what it was given.
fn goes_as_answered(alloc: Global) -> Result<bool, AllocError> {
    let text =
        "from concurrent import interpreters\nq = interpreters.create_queue()\nq.put(5)\nprint(q.get())\n";
    let item = item_of_a(alloc)?;
    let mut interp = given(alloc, text)?;
    let asked = is_given_a_queue(&mut interp) && puts_five(&mut interp);
    Ok(asked && gets_an_item(&mut interp, item) && returns(&mut interp, "a\n", 4))
}

#[test]
fn answered_by_its_host(rt: HostRuntime) -> Result<(), Fail> {
    assert!(rt; goes_as_answered(rt.alloc())?);
    Ok(())
}

// Whether it is ready after six answers, and then returns.
fn goes_on(alloc: Global, interp: &mut Interp) -> Result<bool, AllocError> {
    go_on_answered(alloc, interp, 6)?;
    Ok(interp.state() == State::Ready && returns(interp, "42\n", 7))
}

fn is_answered(alloc: Global) -> Result<bool, AllocError> {
    let text =
        "from concurrent import interpreters\nq = interpreters.create_queue()\nq.put(35)\nx = q.get()\ni = interpreters.create()\ni.exec('pass')\nprint(x + 7)\n";
    let mut interp = given(alloc, text)?;
    goes_on(alloc, &mut interp)
}

#[test]
fn all_that_it_asks_is_answered(rt: HostRuntime) -> Result<(), Fail> {
    assert!(rt; is_answered(rt.alloc())?);
    Ok(())
}

// Whether it stands at the end of a run that an exception of this kind has left, which printed nothing.
fn has_raised(interp: &Interp, wanted: Kind) -> bool {
    match interp.pending() {
        Some(Action::End(Outcome::Raised(kind, _))) => *kind == wanted
            && interp.printed().is_empty(),
        _ => false,
    }
}

// Whether it comes to an action that it can't be granted, and no line is run until the run is left.
fn is_refused(interp: &mut Interp) -> bool {
    let asks = go_on(interp) == Step::Asks;
    let before = interp.locals();
    asks && give(interp, Answer::Limit) && interp.locals() == before
}

fn raises_what_is_answered(alloc: Global) -> Result<bool, AllocError> {
    let text = "from concurrent import interpreters\ninterpreters.create()\nprint(1)\n";
    let mut interp = given(alloc, text)?;
    Ok(is_refused(&mut interp) && has_raised(&interp, Kind::InterpreterError))
}

#[test]
fn run_left_by_the_exception_of_an_answer(rt: HostRuntime) -> Result<(), Fail> {
    assert!(rt; raises_what_is_answered(rt.alloc())?);
    Ok(())
}

// Whether it stands at the end of a run whose text was not read, and no line was run.
fn is_at_a_syntax_error(interp: &Interp) -> bool {
    match interp.pending() {
        Some(Action::End(Outcome::Raised(kind, message))) => {
            *kind == Kind::SyntaxError
                && message.as_text().as_str() == "invalid syntax"
                && interp.locals() == 0
        }
        _ => false,
    }
}

// Whether it is gone once its run is over and it is told to close.
fn closes(interp: &mut Interp) -> bool {
    give(interp, Answer::Done)
        && give(interp, Answer::Given(Job::Closing))
        && go_on(interp) == Step::Gone
}

fn is_left_at_once(alloc: Global) -> Result<bool, AllocError> {
    let mut interp = given(alloc, "x = = 6\n")?;
    Ok(is_at_a_syntax_error(&interp) && closes(&mut interp))
}

#[test]
fn text_that_is_not_read_is_left_at_once(rt: HostRuntime) -> Result<(), Fail> {
    assert!(rt; is_left_at_once(rt.alloc())?);
    Ok(())
}

// Whether it was given a text, and has a line to run.
fn is_ready(interp: &Interp) -> bool {
    interp.log().len() == 1 && interp.state() == State::Ready
}

// Whether it is once it is given its text, or given it again where it was refused memory.
fn is_ready_at_last(alloc: Global) -> Result<bool, AllocError> {
    let mut interp = given(alloc, "x = 'seven' * 7\n")?;
    if interp.state() == State::Starved {
        interp = given(alloc, "x = 'seven' * 7\n")?;
    }
    Ok(is_ready(&interp))
}

#[test]
fn refused_text(rt: HostRuntime) -> Result<(), Fail> {
    assert!(rt; is_ready_at_last(rt.alloc())?);
    Ok(())
}

// Whether it comes to put a value into a queue, or is refused memory, and has printed nothing.
fn puts_or_starves(alloc: Global, interp: &mut Interp) -> Result<bool, AllocError> {
    go_on_answered(alloc, interp, 1)?;
    go_on(interp);
    let is_at_put = matches!(interp.pending(), Some(Action::Put(_, _)));
    Ok((is_at_put || interp.state() == State::Starved) && interp.printed().is_empty())
}

fn asks_or_starves(alloc: Global) -> Result<bool, AllocError> {
    let text = "from concurrent import interpreters\ninterpreters.create_queue().put('seven')\n";
    let mut interp = given(alloc, text)?;
    puts_or_starves(alloc, &mut interp)
}

#[test]
fn refused_request(rt: HostRuntime) -> Result<(), Fail> {
    assert!(rt; asks_or_starves(rt.alloc())?);
    Ok(())
}

// Whether one is made as it should, or is where it was refused memory.
fn is_made_at_last(alloc: Global) -> Result<bool, AllocError> {
    let interp = match Interp::new(alloc, 3) {
        Ok(interp) => interp,
        Err(_) => Interp::new(alloc, 3)?,
    };
    Ok(interp.id() == 3 && !interp.is_taken())
}

#[test]
fn refused_interpreter(rt: HostRuntime) -> Result<(), Fail> {
    assert!(rt; is_made_at_last(rt.alloc())?);
    Ok(())
}

// Whether an origin is that of this run, and its statements are these, each by the number of its run and its own in that text.
fn is_from(origin: &RunOrigin, run: u32, wanted: &[(u32, u32)]) -> bool {
    let spots = origin.origin.spots();
    for (spot, (run, statement)) in spots.iter().zip(wanted.iter()) {
        if spot.text != *run || spot.statement != *statement {
            return false;
        }
    }
    origin.run == run && spots.len() == wanted.len() && origin.origin.left_out() == 0
}

// Whether an exception left one run of it alone, and came from there.
fn is_left_from(interp: &Interp, run: u32, wanted: &[(u32, u32)]) -> bool {
    match interp.origins() {
        [origin] => is_from(origin, run, wanted),
        _ => false,
    }
}

// An interpreter in which these texts were run.
fn given_all(alloc: Global, texts: &[&str]) -> Result<Interp, AllocError> {
    let mut interp = Interp::new(alloc, 0)?;
    for text in texts {
        let answer = to_run(alloc, text)?;
        give(&mut interp, answer);
        go_on(&mut interp);
        give(&mut interp, Answer::Done);
    }
    Ok(interp)
}

fn comes_from_an_earlier_run(alloc: Global) -> Result<bool, AllocError> {
    let unread = "x = = 6\n";
    let with_function = "def f(x):\n    if x:\n        pass\n    raise ValueError(x)\n";
    let raises = "y = 1\nf(y)\n";
    let interp = given_all(alloc, &[unread, with_function, raises, "z = 2\n"])?;
    Ok(is_left_from(&interp, 2, &[(1, 2), (2, 1)]))
}

#[test]
fn exception_of_a_function_of_an_earlier_run(rt: HostRuntime) -> Result<(), Fail> {
    assert!(rt; comes_from_an_earlier_run(rt.alloc())?);
    Ok(())
}

fn comes_from_an_answer(alloc: Global) -> Result<bool, AllocError> {
    let text = "from concurrent import interpreters\ninterpreters.create()\n";
    let mut interp = given(alloc, text)?;
    Ok(is_refused(&mut interp) && is_left_from(&interp, 0, &[(0, 1)]))
}

#[test]
fn exception_of_an_answer(rt: HostRuntime) -> Result<(), Fail> {
    assert!(rt; comes_from_an_answer(rt.alloc())?);
    Ok(())
}
