// A turn of one interpreter.

ghost use Rattle.std.specs.Prelude.{◌≡◌, ◌≢◌, ◌≤◌, ◌<◌, ℕ, ◌+◌, None, true, false, if◌then◌else◌};
ghost use Rattle.si_semantics.specs.Actions as shared;
ghost use Rattle.si_parcel.specs.Shared.{answer_of};
ghost use Rattle.si_hub.specs.HubCode.{Past};
ghost use Rattle.si_hub.specs.Hubs.{IsTold, can_act};
ghost use Rattle.si_interp.specs.Meaning.{Ready, At, Shows};
ghost use Rattle.si_interp.specs.View.{action_at};
ghost use Rattle.si_world.specs.Worlds.{created};
ghost use Rattle.si_world.specs.Marks.{Moves};
ghost use Rattle.si_world.specs.inner.Counting.{is_created};
ghost use Rattle.si_world.specs.inner.Stretches.{IsOneLine, Stretched};

use crate::mark::Mark;
use si_hub::{Hub, NotActed};
use si_interp::{Interp, State, Step};
use si_parcel::Answer;
use si_semantics::sharing::one_answer;

// Whether the answer is that an interpreter was created.
fn is_created(answer: &Answer) -> bool
    ensures { result ≡ is_created (answer_of answer.now) }
{
    matches!(answer, Answer::Created(_))
}

// Counts an interpreter more, where the answer is that one was created.
fn count(hub: &Hub, answer: &Answer, made: &mut u32)
    requires { created hub.now.past ≡ (if is_created (answer_of answer.now) then made.old + 1 else made.old) }
    ensures { made.new ≡ created hub.now.past }
{
    hub.facts();
    let _most = hub.limits().interpreters();
    if is_created(answer) {
        *made += 1;
    }
}

// Whether the action at which the interpreter stands is not enabled.
fn waits(hub: &Hub, interp: &Interp, i: u32) -> bool
    requires { action_at interp.now.stand ≢ None }
    ensures yes { result ≡ true → (a : shared.Action) × (interp.now.stand ≡ At a) × (can_act hub.now.past i a ≡ false) }
    ensures other { result ≡ false → (a : shared.Action) → interp.now.stand ≡ At a → can_act hub.now.past i a ≡ true }
{
    match interp.pending() {
        None => unreachable!(),
        Some(action) => !hub.enabled(i, action),
    }
}

// A turn of an interpreter that stands at an action. `made` is how many interpreters were created.
fn act_at(hub: &mut Hub, interp: &mut Interp, i: u32, made: &mut u32) -> Mark
    requires stands { action_at interp.old.stand ≢ None }
    requires taken { interp.old.taken ≡ false }
    requires made { made.old ≡ created hub.old.past }
    ensures moves { Moves hub.old.past i interp.old result hub.new.past interp.new }
    ensures made { made.new ≡ created hub.new.past }
{
    if waits(hub, interp, i) {
        return Mark::Waited;
    }
    match interp.take_action() {
        None => unreachable!(),
        Some(action) => match hub.act(i, action) {
            Ok(answer) => {
                hub.facts();
                one_answer();
                count(hub, &answer, made);
                interp.answer(answer);
                Mark::Acted
            }
            Err(NotActed { why: _, action: _ }) => {
                interp.starve();
                Mark::Starved
            }
        },
    }
}

// A turn of an interpreter that has a line to run.
fn step_at(interp: &mut Interp, turns: u64) -> Mark
    requires ready { interp.old.stand ≡ Ready }
    requires small { turns ≤ 1099511627776 }
    ensures { (p : Past) (i : ℕ) → p.limits.turns ≡ turns → Moves p i interp.old result p interp.new }
{
    if interp.locals() >= turns {
        return Mark::Spent;
    }
    match run_lines(interp, 1) {
        (_, true) => Mark::Starved,
        (_, false) => Mark::Local,
    }
}

// At most so many lines of an interpreter that has one to run, until it stands at an action or memory is refused to it: how
// many turns these were, and whether memory was refused in the last. The one place where the loop of `Interp::lines` is drawn in,
// and with it the step: this function is drawn into no other.
#[inline(never)]
fn run_lines(interp: &mut Interp, most: u64) -> (u64, bool)
    requires ready { interp.old.stand ≡ Ready }
    requires small { interp.old.locals + most ≤ 1099511627776 }
    ensures stretched { (turns : ℕ) → interp.old.locals + most ≤ turns → Stretched turns interp.old result.0 result.1 interp.new }
    ensures within { result.0 ≤ most }
    ensures one { most ≡ 1 → IsOneLine interp.old result.1 interp.new }
    ensures ends { result.1 ≡ false → result.0 < most → interp.new.stand ≡ Ready → ⊥ }
{
    let (given, last) = interp.lines(most);
    match last {
        Step::Starved => (given, true),
        _ => (given, false),
    }
}

/// At most `left` lines of an interpreter with these turns, as far as it has any to run: how many turns these were, and whether
/// memory was refused to it in the last of them.
pub fn stretch(interp: &mut Interp, turns: u64, left: u64) -> (u64, bool)
    requires small { turns ≤ 1099511627776 }
    ensures stretched { Stretched turns interp.old result.0 result.1 interp.new }
    ensures within { result.0 ≤ left }
    ensures shows { Shows interp.new }
    ensures all { turns ≤ left → result.1 ≡ false → interp.new.stand ≡ Ready → turns ≤ interp.new.locals }
{
    let locals = interp.locals();
    let ready = interp.state() == State::Ready;
    let given = if ready && locals < turns {
        run_lines(interp, left.min(turns - locals))
    } else {
        (0, false)
    };
    interp.facts();
    given
}

// A turn of an interpreter that was created.
pub(crate) fn move_one(hub: &mut Hub, interp: &mut Interp, i: u32, made: &mut u32) -> Mark
    requires taken { interp.old.taken ≡ false }
    requires made { made.old ≡ created hub.old.past }
    ensures moves { Moves hub.old.past i interp.old result hub.new.past interp.new }
    ensures made { made.new ≡ created hub.new.past }
    ensures shows { Shows interp.new }
    ensures told { IsTold hub.new.past }
    ensures few { created hub.new.past ≤ hub.new.past.limits.interpreters }
{
    let mark = match interp.state() {
        State::Ready => step_at(interp, hub.limits().turns()),
        State::AtAction => act_at(hub, interp, i, made),
        State::Gone => Mark::Nobody,
        State::Starved => Mark::Nobody,
    };
    interp.facts();
    hub.facts();
    mark
}
