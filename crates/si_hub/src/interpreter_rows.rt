// What the actions on interpreters and runs change, and what they are answered.

ghost use Rattle.std.specs.Prelude.{◌≡◌, IfOk, OnErr, true};
ghost use Rattle.si_semantics.specs.Shared as shared;
ghost use Rattle.si_semantics.specs.Shared.{Replied, is_enabled};
ghost use Rattle.si_parcel.specs.Shared.{answer_of, outcome_of};

use crate::shared::Shared;
use si_parcel::{Answer, Binds, BoxedText, Outcome};
use si_plain::NoMemory;
use si_registry::Standing;

impl Shared {
    pub(crate) fn create(&mut self, most: u32) -> Result<Answer, NoMemory>
        ensures ok { IfOk result (λ r. shared.create most self.old ≡ Replied (answer_of r) self.new) }
        ensures err { OnErr result (self.new ≡ self.old) }
    {
        match self.registry.create(most)? {
            None => Ok(Answer::Limit),
            Some(id) => Ok(Answer::Created(id)),
        }
    }

    pub(crate) fn prepare(&mut self, id: u32, binds: Binds) -> Result<Answer, NoMemory>
        requires { is_enabled (shared.prepare id binds self.old) ≡ true }
        ensures ok { IfOk result (λ r. shared.prepare id binds self.old ≡ Replied (answer_of r) self.new) }
        ensures err { OnErr result (self.new ≡ self.old) }
    {
        match self.registry.interpreter(id) {
            None => unreachable!(),
            Some(interpreter) => match interpreter.standing() {
                Standing::Closed => Ok(Answer::NotFound),
                Standing::Running(_) => Ok(Answer::Running),
                Standing::Idle => {
                    self.registry.prepare(id, binds)?;
                    Ok(Answer::Done)
                }
            },
        }
    }

    pub(crate) fn start(&mut self, id: u32, text: BoxedText) -> Result<Answer, NoMemory>
        requires { is_enabled (shared.start id text self.old) ≡ true }
        ensures ok { IfOk result (λ r. shared.start id text self.old ≡ Replied (answer_of r) self.new) }
        ensures err { OnErr result (self.new ≡ self.old) }
    {
        match self.registry.interpreter(id) {
            None => unreachable!(),
            Some(interpreter) => match interpreter.standing() {
                Standing::Closed => Ok(Answer::NotFound),
                Standing::Running(_) => Ok(Answer::Running),
                Standing::Idle => {
                    let run = self.registry.start(id, text)?;
                    Ok(Answer::Started(run))
                }
            },
        }
    }

    // A copy of the outcome of a run.
    pub(crate) fn outcome(&self, run: u64) -> Result<Answer, NoMemory>
        requires { is_enabled (shared.await run self.now) ≡ true }
        ensures { IfOk result (λ r. shared.await run self.now ≡ Replied (answer_of r) self.now) }
    {
        match self.registry.run(run) {
            None => unreachable!(),
            Some(run) => match run.outcome() {
                None => unreachable!(),
                Some(outcome) => {
                    let outcome = outcome.clone_outcome()?;
                    Ok(Answer::Ended(outcome))
                }
            },
        }
    }

    pub(crate) fn is_running(&self, id: u32) -> Answer
        requires { is_enabled (shared.running id self.now) ≡ true }
        ensures { shared.running id self.now ≡ Replied (answer_of result) self.now }
    {
        match self.registry.interpreter(id) {
            None => unreachable!(),
            Some(interpreter) => match interpreter.standing() {
                Standing::Closed => Answer::NotFound,
                Standing::Running(_) => Answer::Truth(true),
                Standing::Idle => Answer::Truth(false),
            },
        }
    }

    pub(crate) fn close(&mut self, by: u32, id: u32) -> Result<Answer, NoMemory>
        requires { is_enabled (shared.close by id self.old) ≡ true }
        ensures ok { IfOk result (λ r. shared.close by id self.old ≡ Replied (answer_of r) self.new) }
        ensures err { OnErr result (self.new ≡ self.old) }
    {
        match self.registry.interpreter(id) {
            None => unreachable!(),
            Some(interpreter) => {
                if interpreter.is_closed() {
                    return Ok(Answer::NotFound);
                }
                if by == id {
                    return Ok(Answer::Current);
                }
                if id == 0 {
                    return Ok(Answer::Main);
                }
                if interpreter.is_running() {
                    return Ok(Answer::Running);
                }
                self.registry.close(id)?;
                Ok(Answer::Done)
            }
        }
    }

    pub(crate) fn list_all(&self) -> Result<Answer, NoMemory>
        ensures { IfOk result (λ r. shared.list_all self.now ≡ Replied (answer_of r) self.now) }
    {
        let ids = self.registry.open()?;
        Ok(Answer::Ids(ids))
    }

    pub(crate) fn take(&mut self, by: u32) -> Result<Answer, NoMemory>
        requires { is_enabled (shared.take by self.old) ≡ true }
        ensures ok { IfOk result (λ r. shared.take by self.old ≡ Replied (answer_of r) self.new) }
        ensures err { OnErr result (self.new ≡ self.old) }
    {
        match self.registry.interpreter(by) {
            None => unreachable!(),
            Some(_) => match self.registry.take(by) {
                None => unreachable!(),
                Some(job) => Ok(Answer::Given(job)),
            },
        }
    }

    pub(crate) fn end(&mut self, by: u32, outcome: Outcome) -> Result<Answer, NoMemory>
        requires { is_enabled (shared.end by (outcome_of outcome) self.old) ≡ true }
        ensures ok { IfOk result (λ r. shared.end by (outcome_of outcome) self.old ≡ Replied (answer_of r) self.new) }
        ensures err { OnErr result (self.new ≡ self.old) }
    {
        match self.registry.interpreter(by) {
            None => unreachable!(),
            Some(interpreter) => match interpreter.taken_run() {
                None => unreachable!(),
                Some(run) => {
                    self.registry.end(by, run, outcome);
                    Ok(Answer::Done)
                }
            },
        }
    }
}
