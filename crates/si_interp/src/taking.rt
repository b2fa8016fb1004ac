// What an answer makes of an interpreter.

ghost use Rattle.std.specs.Prelude.{◌≡◌, ◌∷◌, [], true, None, Some, IfErr, IfOk, OnOk};
ghost use Rattle.si_methods.specs.Given as requests;
ghost use Rattle.si_plain.specs.declared.kind.Kind.TheVariants.{SyntaxError};
ghost use Rattle.si_semantics.specs.World as language;
ghost use Rattle.si_semantics.specs.World.{World};
ghost use Rattle.si_semantics.specs.Life.{not_read};
ghost use Rattle.si_semantics.specs.Actions.{Take, fits};
ghost use Rattle.si_scope.specs.Scripts.{script_of};
ghost use Rattle.si_slots.specs.Laws.{with_answer};
ghost use Rattle.si_slots.specs.Code.{compiled};
ghost use Rattle.si_slots.specs.Machine.{Course, next};
ghost use Rattle.si_slots.specs.Views.{table_of};
ghost use Rattle.si_steps.specs.Machines.{Waits, printed_of};
ghost use Rattle.si_parcel.specs.Shared.{action_of, answer_of, job_of, outcome_of};
ghost use Rattle.si_parse.specs.inner.Gives.{IsSyntax};
ghost use Rattle.si_reading.specs.Texts.{tree_of_text};
ghost use Rattle.si_reading.specs.inner.Trees.{tree_in};
ghost use Rattle.si_interp.specs.Life.{answer_in, job_in, values_of, is_ascii};
ghost use Rattle.si_interp.specs.inner.Keeps.{IsUnderWay, IsWaiting, IsAwaiting, StandsBy, KnowsSome, Leads, Led, with_values};

use crate::arriving::{Next, told};
use crate::interp::Logged;
use crate::origins::Origins;
use si_emit::compile;
use si_parcel::{Action, Answer, BoxedText, Job, Outcome, Parcel};
use si_parse::ParseFault;
use si_plain::{Kind, NoMemory, Text};
use si_reading::{Reading, read};
use si_scope::Scoped;
use si_steps::{Machine, Step as Line};
use std::alloc::{AllocError, Global};

/// Where the answer to an action leads, at which a machine stands that is at the moment of this number, log and lines; of these
/// the contract speaks alone. A text that was read before is in `prepared`, and is not read once more.
///
/// # Errors
///
/// `NoMemory` where memory was refused on the way.
pub fn answered(
    alloc: Global,
    machine: &mut Machine,
    id: u32,
    log: &[Logged],
    locals: u64,
    action: &Action,
    answer: &Answer,
    prepared: &mut Option<Reading>,
    origins: &mut Origins,
) -> Result<Next, NoMemory>
    ghost c: { Course }
    requires stands { StandsBy c (action_of action.now) machine.old }
    requires knows { KnowsSome c }
    requires fits { fits (answer_of answer.now) (action_of action.now) ≡ true }
    ensures leads { IfOk result (λ n. Leads (next compiled (with_answer (answer_in (answer_of answer.now)) c)) machine.new n) }
    ensures printed { printed_of machine.new ≡ printed_of machine.old }
{
    let _ = id;
    let _ = log;
    let _ = locals;
    match action {
        Action::Take => match answer {
            Answer::Given(job) => take(alloc, machine, job, prepared, origins),
            _ => unreachable!(),
        },
        Action::End(_) => Ok(Next::Takes),
        _ => replied(alloc, machine, answer, origins),
    }
}

// Where the answer to a request leads.
fn replied(
    alloc: Global,
    machine: &mut Machine,
    answer: &Answer,
    origins: &mut Origins,
) -> Result<Next, NoMemory>
    ghost c: { Course }
    requires { IsAwaiting c machine.old }
    ensures leads { IfOk result (λ n. Leads (next compiled (with_answer (requests.answer_in (answer_of answer.now)) c)) machine.new n) }
    ensures printed { printed_of machine.new ≡ printed_of machine.old }
{
    let came = machine.answer(answer);
    led(alloc, machine, answer, came, origins)
}

// Where this answer has led a machine; of the answer the contract speaks alone.
fn led(
    alloc: Global,
    machine: &mut Machine,
    answer: &Answer,
    came: Line,
    origins: &mut Origins,
) -> Result<Next, NoMemory>
    ghost c: { Course }
    requires { Led c machine.old came }
    ensures leads { IfOk result (λ n. Leads c machine.new n) }
    ensures printed { printed_of machine.new ≡ printed_of machine.old }
{
    let _ = answer;
    match came {
        Line::Local => Ok(Next::Runs),
        Line::Ended => Ok(Next::Ends(told(alloc, machine, origins)?)),
        Line::Wants => Ok(Next::Asks(machine.take_request())),
        Line::Starved => Err(AllocError),
    }
}

// Where a job leads that is taken.
fn take(
    alloc: Global,
    machine: &mut Machine,
    job: &Job,
    prepared: &mut Option<Reading>,
    origins: &mut Origins,
) -> Result<Next, NoMemory>
    ghost c: { Course }
    requires waits { IsWaiting c Take machine.old }
    requires knows { KnowsSome c }
    ensures leads { IfOk result (λ n. Leads (next compiled (with_answer (language.Taken (job_in (job_of job.now))) c)) machine.new n) }
    ensures printed { printed_of machine.new ≡ printed_of machine.old }
{
    match job {
        Job::Run(_, text) => run(alloc, machine, text.as_text(), prepared, origins),
        Job::Bind(binds) => {
            bind_all(machine, binds.as_slice())?;
            Ok(Next::Takes)
        }
        Job::Closing => Ok(Next::Gone),
    }
}

// The run of a text begins; that of one that isn't read ends at once.
fn run(
    alloc: Global,
    machine: &mut Machine,
    text: &Text,
    prepared: &mut Option<Reading>,
    origins: &mut Origins,
) -> Result<Next, NoMemory>
    ghost c: { Course }
    requires waits { IsWaiting c Take machine.old }
    requires knows { KnowsSome c }
    ensures leads { IfOk result (λ n. Leads (next compiled (with_answer (language.Taken (language.Run (tree_of_text text.now))) c)) machine.new n) }
    ensures printed { printed_of machine.new ≡ printed_of machine.old }
{
    origins.begin_run();
    match script_in(alloc, text.as_str(), prepared) {
        Ok(script) => {
            begin(machine, &script, origins)?;
            Ok(Next::Runs)
        }
        Err(ParseFault::Syntax(_)) => Ok(Next::Ends(unread(alloc)?)),
        Err(ParseFault::NoMemory) => Err(AllocError),
    }
}

// The script as which a text is read: where that was done before, and kept, it is not read once more.
fn script_in(
    alloc: Global,
    text: &str,
    prepared: &mut Option<Reading>,
) -> Result<Scoped, ParseFault>
    ensures tree { IfOk result (λ s. tree_in text.now ≡ Some (record { body = script_of s })) }
    ensures none { IfErr result (λ e. IsSyntax e → tree_in text.now ≡ None) }
{
    if let Some(reading) = prepared.take() {
        if let Some(script) = reading.script_of(text) {
            return Ok(script);
        }
    }
    read(alloc, text)
}

// The run of a script begins.
fn begin(machine: &mut Machine, script: &Scoped, origins: &mut Origins) -> Result<(), NoMemory>
    ghost c: { Course }
    requires waits { IsWaiting c Take machine.old }
    requires knows { KnowsSome c }
    ensures begun { OnOk result (IsUnderWay (next compiled (with_answer (language.Taken (language.Run (Some (record { body = script_of script.now })))) c)) machine.new) }
    ensures printed { printed_of machine.new ≡ printed_of machine.old }
{
    let mut table = machine.lend_table();
    let at = compile(script, &mut table)?;
    origins.add_text();
    machine.resume(table, at)
}

// The outcome of a run whose text isn't read.
fn unread(alloc: Global) -> Result<Outcome, NoMemory>
    ensures { IfOk result (λ o. outcome_of o ≡ not_read) }
{
    let message = BoxedText::new(alloc, Text::from_str(alloc, "invalid syntax")?)?;
    Ok(Outcome::Raised(Kind::SyntaxError, message))
}

// Binds names to the values of their parcels, in order.
fn bind_all(machine: &mut Machine, binds: &[(Text, Parcel)]) -> Result<(), NoMemory>
    ghost w: { World }
    requires { Waits w machine.old }
    ensures bound { OnOk result (Waits (with_values (values_of binds.now) w) machine.new) }
    ensures table { table_of machine.new.table ≡ table_of machine.old.table }
    ensures printed { printed_of machine.new ≡ printed_of machine.old }
{
    'binds: for (name, parcel) in binds {
        bind(machine, name, parcel)?;
    }
    Ok(())
}

// Binds a name to the value of its parcel, where it can be bound.
fn bind(machine: &mut Machine, name: &Text, parcel: &Parcel) -> Result<(), NoMemory>
    ensures bound { OnOk result ((w : World) → Waits w machine.old → Waits (with_values (values_of ((name.now, parcel.now) ∷ [])) w) machine.new) }
    ensures table { table_of machine.new.table ≡ table_of machine.old.table }
    ensures printed { printed_of machine.new ≡ printed_of machine.old }
{
    if is_ascii_text(name) {
        machine.bind(name.as_str(), parcel)
    } else {
        Ok(())
    }
}

// Whether each character is ASCII.
fn is_ascii_text(text: &Text) -> bool
    ensures { result ≡ is_ascii text.now }
{
    text.as_str().chars().all(|c| (c as u32) < 128)
}
