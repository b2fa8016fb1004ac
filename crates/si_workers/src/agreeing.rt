// Whether a log has the journal's calls of an interpreter.

ghost use Rattle.std.specs.Prelude.{◌≡◌, ◌≢◌, ◌≤◌, ◌++◌, ◌∷◌, [], List, IfSome, IfNone, true, false, drop, length};
ghost use Rattle.si_semantics.specs.History.{Call};
ghost use Rattle.si_world.specs.Legal.{calls_of, exchange, exchanges};

use si_hub::Call;
use si_interp::Logged;

// Whether an entry is that of a call.
fn is_same(call: &Call, entry: &Logged) -> bool
    ensures yes { result ≡ true → exchange entry.now.action entry.now.answer ≡ exchange call.now.action call.now.answer }
    ensures no { result ≡ false → exchange entry.now.action entry.now.answer ≢ exchange call.now.action call.now.answer }
{
    entry.action == call.action && entry.answer == call.answer
}

// How many entries of the log have agreed after one call more, of any interpreter, where `next` have before it.
fn agree_on(call: &Call, i: u32, log: &[Logged], next: usize) -> Option<usize>
    requires { next ≤ length log.now }
    ensures within { IfSome result (λ n. n ≤ length log.now) }
    ensures agrees { IfSome result (λ n. (done : List Call) → exchanges log.now ≡ calls_of i done ++ exchanges (drop next log.now)
        → exchanges log.now ≡ calls_of i (done ++ call.now ∷ []) ++ exchanges (drop n log.now)) }
    ensures differs { IfNone result ((done : List Call) (more : List Call) → exchanges log.now ≡ calls_of i done ++ exchanges (drop next log.now)
        → calls_of i (done ++ call.now ∷ more) ≢ exchanges log.now) }
{
    if call.by != i {
        return Some(next);
    }
    if next >= log.len() {
        return None;
    }
    if !is_same(call, &log[next]) {
        return None;
    }
    Some(next + 1)
}

/// Whether the log has the journal's calls of interpreter i, each once and in their order, and no others.
pub(crate) fn agrees(journal: &[Call], i: u32, log: &[Logged]) -> bool
    ensures yes { result ≡ true → calls_of i journal.now ≡ exchanges log.now }
    ensures no { result ≡ false → calls_of i journal.now ≢ exchanges log.now }
{
    let mut next = 0;
    for call in journal {
        match agree_on(call, i, log, next) {
            None => return false,
            Some(n) => next = n,
        }
    }
    next == log.len()
}
