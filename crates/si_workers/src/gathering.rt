// What workers leave, put together.

ghost use Rattle.std.specs.Prelude.{◌≡◌, ◌≢◌, ◌<◌, ◌≤◌, ◌⊎◌, ℕ, ◌+◌, IfOk, IfErr, IfSome, IfNone, ◌∷◌, true, false, if◌then◌else◌};
ghost use Rattle.std.specs.List.Sorted.{IsPermutation};
ghost use Rattle.si_plain.specs.Characters.{characters_of};
ghost use Rattle.si_interp.specs.Meaning.{InterpView};
ghost use Rattle.si_world.specs.Legal.{calls_of, exchanges};
ghost use Rattle.si_world.specs.Worlds.{IsMember, created};
ghost use Rattle.si_world.specs.inner.Counting.{is_created};
ghost use Rattle.si_workers.specs.Gathers.{IsGathered, IsOfReports, IsReport, IsMissing, IsDoubled, IsUnfit, IsStrange, IsRunFault};
ghost use Rattle.si_workers.specs.inner.Members.{HasReport, AreReports, IsFit, AreFit};

use crate::agreeing::agrees;
use crate::book::Book;
use crate::fault::RunFault;
use crate::worked::Worked;
use si_hub::{Call, Hub};
use si_interp::Logged;
use si_parcel::Answer;
use si_plain::{Limits, NoMemory};
use si_world::{End, Recording, Report};
use std::alloc::Global;

// Whether the hub is of this script and of these limits.
fn is_of(hub: &Hub, script: &str, limits: Limits) -> bool
    ensures yes { result ≡ true → (hub.now.past.script ≡ characters_of script.now) × (hub.now.past.limits ≡ limits) }
    ensures no { result ≡ false → IsStrange hub.now.past (characters_of script.now) limits }
{
    hub.script() == script && hub.limits() == limits
}

// How many interpreters were created after a call, where so many were before it.
fn created_after(call: &Call, made: u32) -> u32
    requires { made ≤ 64 }
    ensures { result ≡ (if is_created call.now.answer then made + 1 else made) }
{
    match call.answer {
        Answer::Created(_) => made + 1,
        _ => made,
    }
}

// How many interpreters were created.
fn created(hub: &Hub) -> u32
    ensures { result ≡ created hub.now.past }
{
    hub.facts();
    let _most = hub.limits().interpreters();
    let journal = hub.journal();
    let mut made = 1;
    for call in journal {
        made = created_after(call, made);
    }
    made
}

// The first place of a report of interpreter i from this place on.
fn first_from(worked: &[Worked], i: u32, from: usize) -> Option<usize>
    ensures some { IfSome result (λ k. (from ≤ k) × ((v : InterpView) × IsReport worked.now i k v)) }
    ensures first { IfSome result (λ k. (j : ℕ) (v : InterpView) → from ≤ j → j < k → IsReport worked.now i j v → ⊥) }
    ensures none { IfNone result ((k : ℕ) (v : InterpView) → from ≤ k → IsReport worked.now i k v → ⊥) }
{
    for k in from..worked.len() {
        if worked[k].id() == i {
            return Some(k);
        }
    }
    None
}

// The place of interpreter i's report, if it has one and no other.
fn place_of(worked: &[Worked], i: u32) -> Option<usize>
    ensures some { IfSome result (λ k. (v : InterpView) × IsReport worked.now i k v) }
    ensures only { IfSome result (λ k. (j : ℕ) (v : InterpView) → IsReport worked.now i j v → j ≡ k) }
    ensures none { IfNone result (IsMissing worked.now i ⊎ IsDoubled worked.now i) }
{
    match first_from(worked, i, 0) {
        None => None,
        Some(place) => match first_from(worked, i, place + 1) {
            None => Some(place),
            Some(_) => None,
        },
    }
}

// Whether a log has the journal's calls of interpreter i, each once and in their order, where `made` interpreters were created: one
// that was not has made none, and the journal is not gone over for it.
fn has_calls(hub: &Hub, log: &[Logged], i: u32, made: u32) -> bool
    requires { made ≡ created hub.now.past }
    ensures yes { result ≡ true → calls_of i hub.now.past.journal ≡ exchanges log.now }
    ensures no { result ≡ false → calls_of i hub.now.past.journal ≢ exchanges log.now }
{
    hub.facts();
    if i >= made {
        return log.is_empty();
    }
    agrees(hub.journal(), i, log)
}

// Whether the report of interpreter i has the journal's calls of it, and no more lines than there are turns.
fn is_member(hub: &Hub, seen: &Worked, i: u32, made: u32) -> bool
    requires id { seen.now.id ≡ i }
    requires made { made ≡ created hub.now.past }
    ensures yes { result ≡ true → IsMember hub.now.past i seen.now }
    ensures no { result ≡ false → (calls_of i hub.now.past.journal ≢ exchanges seen.now.log) ⊎ (hub.now.past.limits.turns < seen.now.locals) }
{
    seen.facts();
    if seen.locals() > hub.limits().turns() {
        return false;
    }
    has_calls(hub, seen.log(), i, made)
}

// Whether interpreter i has one report, with the journal's calls of it, and no more lines than there are turns.
fn is_fit(hub: &Hub, worked: &[Worked], i: u32, made: u32) -> bool
    requires { made ≡ created hub.now.past }
    ensures yes { result ≡ true → IsFit hub.now.past worked.now i }
    ensures no { result ≡ false → IsUnfit hub.now.past worked.now i }
{
    match place_of(worked, i) {
        None => false,
        Some(place) => is_member(hub, &worked[place], i, made),
    }
}

// The first interpreter that the limits allow of which what is left doesn't fit the journal.
fn first_unfit(hub: &Hub, worked: &[Worked], made: u32) -> Option<u32>
    requires { made ≡ created hub.now.past }
    ensures some { IfSome result (λ i. (i < hub.now.past.limits.interpreters) × IsUnfit hub.now.past worked.now i) }
    ensures none { IfNone result (AreFit hub.now.past worked.now hub.now.past.limits.interpreters) }
{
    for i in 0..hub.limits().interpreters() {
        if !is_fit(hub, worked, i, made) {
            return Some(i);
        }
    }
    None
}

// A report of interpreter i, of those that are left.
fn take_report(alloc: Global, worked: &mut Vec<Worked>, i: u32) -> Result<Report, NoMemory>
    requires { HasReport worked.old.items i }
    ensures id { IfOk result (λ v. v.id ≡ i) }
    ensures others { IfOk result (λ v. IsPermutation worked.old.items (v ∷ worked.new.items)) }
{
    match first_from(worked.as_slice(), i, 0) {
        None => unreachable!(),
        Some(place) => worked.swap_remove(place).into_report(alloc),
    }
}

// The reports of the first so many interpreters, by their numbers. What is left of interpreters is let go of: their logs are
// taken over.
fn take_reports(alloc: Global, mut worked: Vec<Worked>, count: u32) -> Result<Vec<Report>, NoMemory>
    requires { (i : ℕ) → i < count → HasReport worked.items i }
    ensures { IfOk result (λ reports. AreReports worked.items count reports.items) }
{
    let mut reports = Vec::with_capacity(alloc, count as usize)?;
    for i in 0..count {
        reports.push(take_report(alloc, &mut worked, i)?)?;
    }
    Ok(reports)
}

// What is recorded of a hub of this script and limits, with the reports of all interpreters. All is tested before anything is
// taken over.
fn record(alloc: Global, hub: Hub, worked: Vec<Worked>) -> Result<Recording, RunFault>
    ensures gathered { IfOk result (IsGathered hub.past.script hub.past.limits) }
    ensures of { IfOk result (IsOfReports hub.past worked.items) }
    ensures fault { IfErr result (IsRunFault hub.past worked.items hub.past.script hub.past.limits) }
{
    let made = created(&hub);
    match first_unfit(&hub, worked.as_slice(), made) {
        Some(i) => Err(RunFault::Broken(i)),
        None => record_fit(alloc, hub, worked, made),
    }
}

// The same where what is left of each interpreter fits the journal.
fn record_fit(
    alloc: Global,
    hub: Hub,
    worked: Vec<Worked>,
    made: u32,
) -> Result<Recording, RunFault>
    requires fit { AreFit hub.past worked.items hub.past.limits.interpreters }
    requires made { made ≡ created hub.past }
    ensures gathered { IfOk result (IsGathered hub.past.script hub.past.limits) }
    ensures of { IfOk result (IsOfReports hub.past worked.items) }
    ensures fault { IfErr result (IsRunFault hub.past worked.items hub.past.script hub.past.limits) }
{
    hub.facts();
    let mut reports = take_reports(alloc, worked, hub.limits().interpreters())?;
    reports.truncate(made as usize);
    let recording = Recording::taking(alloc, hub, reports)?;
    match recording.end() {
        End::Open => Err(RunFault::Broken(0)),
        _ => Ok(recording),
    }
}

/// What is recorded of a run of this script within these limits, of what its workers have left: the book, and of each
/// interpreter that the limits allow what its worker has left of it, in any order. The journal and the logs are taken over, not
/// copied.
///
/// # Errors
///
/// `Broken` with 0 where the book's hub is of another script or of other limits, or some interpreter can be moved; with the number of
/// an interpreter of which nothing is left, or of which more than one report is, whose calls are not those of the journal, or
/// which has run more lines than there are turns. `NoMemory` where memory was refused.
pub fn gather(
    alloc: Global,
    book: Book,
    worked: Vec<Worked>,
    script: &str,
    limits: Limits,
) -> Result<Recording, RunFault>
    // A world of the script is recorded, all of which is as the meaning says, and in which no interpreter can be moved;
    ensures gathered { IfOk result (IsGathered (characters_of script.now) limits) }
    // its calls are those of the book, and its reports those of the workers.
    ensures of { IfOk result (IsOfReports book.past worked.items) }
    // When each fault comes.
    ensures fault { IfErr result (IsRunFault book.past worked.items (characters_of script.now) limits) }
{
    let hub = book.into_hub();
    if !is_of(&hub, script, limits) {
        return Err(RunFault::Broken(0));
    }
    record(alloc, hub, worked)
}
