// What is seen of a world.

ghost use Rattle.std.specs.Prelude.{◌≡◌, ◌≤◌, ◌<◌, IfOk, MatchOption, None, Some, length, slice_get, take};
ghost use Rattle.si_plain.specs.Characters.{characters_of};
ghost use Rattle.si_world.specs.Worlds.{created, world};
ghost use Rattle.si_world.specs.Reports.{end_of, queue_items, recorded, IsRecorded};
ghost use Rattle.si_world.specs.inner.Copies.{AllFree};

use crate::ending::{End, end_of_reports};
use crate::report::Report;
use crate::world::World;
use si_hub::{Call, Hub};
use si_interp::Interp;
use si_parcel::Parcel;
use si_plain::limits::MAX_QUEUES;
use si_plain::{Limits, NoMemory, Text};
use si_queues::Queue;
use si_semantics::sharing::within_limits;
use std::alloc::Global;
use std::marker::Model;

/// What a queue holds, the oldest first.
#[derive(Drop)]
pub struct QueueItems {
    items: Vec<Parcel>,
}

impl Model for QueueItems {
    ghost use Rattle.std.specs.Prelude.{List};
    ghost use Rattle.std.specs.Coded.{coded_list};
    ghost use Rattle.si_semantics.specs.Parcels.{Tree};
    ghost use Rattle.si_parcel.specs.TreeCode.{tree_code};

    ghost Value = { List Tree };

    ghost coded = { coded_list tree_code };

    ghost view = { λ q. q.items.items };
}

impl QueueItems {
    // What a queue holds.
    #[tactic(auto, using(crate::proofs::Copying::take_get))]
    fn of(alloc: Global, queue: &Queue) -> Result<QueueItems, NoMemory>
        ensures { IfOk result (λ q. q ≡ queue.now.items) }
    {
        let mut items = Vec::with_capacity(alloc, queue.len())?;
        for at in 0..queue.len() {
            match queue.item(at) {
                None => unreachable!(),
                Some(item) => items.push(item.clone_parcel(alloc)?)?,
            }
        }
        Ok(QueueItems { items })
    }

    /// The parcels.
    pub fn as_slice(&self) -> &[Parcel]
        ensures { result.now ≡ self.now }
    {
        self.items.as_slice()
    }
}

/// What is seen of a world: the script, the limits and the calls that were made, in order; what each queue holds and a
/// report of each interpreter that was created, by their numbers; and how it ended. A contract sees the script, the limits,
/// the calls and the interpreters; the queues and the end are what these make of them.
#[derive(Drop)]
pub struct Recording {
    script: Text,
    limits: Limits,
    journal: Vec<Call>,
    queues: Vec<QueueItems>,
    reports: Vec<Report>,
    end: End,
}

impl Model for Recording {
    ghost use Rattle.std.specs.Prelude.{◌≡◌};
    ghost use Rattle.si_world.specs.Worlds.{WorldView};
    ghost use Rattle.si_world.specs.WorldCode.{world_code};
    ghost use Rattle.si_world.specs.Reports.{end_of, queue_items, IsRecorded};

    ghost Value = { WorldView };

    ghost coded = { world_code };

    ghost view = { λ r. record { past = record { script = r.script; limits = r.limits; journal = r.journal.items }; interps = r.reports.items } };

    ghost invariant = { λ r. (r.queues.items ≡ queue_items (record { script = r.script; limits = r.limits; journal = r.journal.items })) × (r.end ≡ end_of (record { script = r.script; limits = r.limits; journal = r.journal.items }) r.reports.items) × IsRecorded (record { past = record { script = r.script; limits = r.limits; journal = r.journal.items }; interps = r.reports.items }) };
}

// The same calls again.
fn copy_calls(alloc: Global, calls: &[Call]) -> Result<Vec<Call>, NoMemory>
    ensures { IfOk result (λ copy. copy.items ≡ calls.now) }
{
    let mut copy = Vec::with_capacity(alloc, calls.len())?;
    for call in calls {
        let by = call.by;
        let action = call.action.clone_action(alloc)?;
        let answer = call.answer.clone_answer(alloc)?;
        copy.push(Call { by, action, answer })?;
    }
    Ok(copy)
}

// What each queue of a hub holds.
#[tactic(auto, using(crate::proofs::Copying::items_more, crate::proofs::Copying::items_none, crate::proofs::Copying::items_all))]
fn copy_queues(alloc: Global, hub: &Hub) -> Result<Vec<QueueItems>, NoMemory>
    ensures { IfOk result (λ copy. copy.items ≡ queue_items hub.now.past) }
{
    let mut copy = Vec::new(alloc);
    for id in 0..MAX_QUEUES as u32 {
        match hub.queue(id) {
            None => return Ok(copy),
            Some(queue) => copy.push(QueueItems::of(alloc, queue)?)?,
        }
    }
    within_limits();
    Ok(copy)
}

// Reports of the first so many interpreters.
#[tactic(auto, using(crate::proofs::Copying::take_get, crate::proofs::Copying::free_view))]
fn copy_reports(alloc: Global, interps: &[Interp], count: u32) -> Result<Vec<Report>, NoMemory>
    requires within { count ≤ length interps.now }
    requires taken { AllFree interps.now }
    ensures { IfOk result (λ copy. copy.items ≡ take count interps.now) }
{
    let mut copy = Vec::with_capacity(alloc, count as usize)?;
    for i in 0..count {
        copy.push(Report::of(alloc, &interps[i as usize])?)?;
    }
    Ok(copy)
}

// The same of interpreters that are let go of: the logs are taken over.
fn take_reports(
    alloc: Global,
    mut interps: Vec<Interp>,
    count: u32,
) -> Result<Vec<Report>, NoMemory>
    requires { AllFree interps.items }
    ensures { IfOk result (λ reports. reports.items ≡ take count interps.items) }
{
    let mut reports = Vec::with_capacity(alloc, count as usize)?;
    interps.truncate(count as usize);
    for interp in interps {
        reports.push(Report::taking(alloc, interp)?)?;
    }
    Ok(reports)
}

impl World {
    /// What is seen of interpreter i, if it was created.
    ///
    /// # Errors
    ///
    /// `NoMemory` where memory was refused.
    pub fn report(&self, i: u32) -> Result<Option<Report>, NoMemory>
        ensures { IfOk result (λ o. MatchOption o (created self.now.past ≤ i) (λ r. (i < created self.now.past) × (slice_get self.now.interps i ≡ Some r))) }
    {
        if i >= self.made {
            return Ok(None);
        }
        let report = Report::of(self.alloc, &self.interps[i as usize])?;
        Ok(Some(report))
    }

    /// What is seen of the world, by copy.
    ///
    /// # Errors
    ///
    /// `NoMemory` where memory was refused.
    pub fn recording(&self) -> Result<Recording, NoMemory>
        ensures { IfOk result (λ r. r ≡ recorded self.now) }
    {
        let reports = copy_reports(self.alloc, self.interps.as_slice(), self.made)?;
        Recording::of(self.alloc, &self.hub, reports)
    }

    /// The same of a world that is let go of: its journal and the logs of its interpreters are taken over, not copied.
    ///
    /// # Errors
    ///
    /// `NoMemory` where memory was refused. The world is gone then.
    pub fn into_recording(self) -> Result<Recording, NoMemory>
        ensures { IfOk result (λ r. r ≡ recorded self) }
    {
        let reports = take_reports(self.alloc, self.interps, self.made)?;
        Recording::taking(self.alloc, self.hub, reports)
    }
}

impl Recording {
    /// What is seen of a hub, by copy, with the reports of all interpreters that were created in it, by their numbers.
    ///
    /// # Errors
    ///
    /// `NoMemory` where memory was refused.
    pub fn of(alloc: Global, hub: &Hub, reports: Vec<Report>) -> Result<Recording, NoMemory>
        requires { IsRecorded (world hub.now.past reports.items) }
        ensures { IfOk result (λ r. r ≡ world hub.now.past reports.items) }
    {
        let script = Text::from_str(alloc, hub.script())?;
        let limits = hub.limits();
        let journal = copy_calls(alloc, hub.journal())?;
        let queues = copy_queues(alloc, hub)?;
        let _most = limits.interpreters();
        let end = end_of_reports(hub, reports.as_slice());
        Ok(Recording {
            script,
            limits,
            journal,
            queues,
            reports,
            end,
        })
    }

    /// The same of a hub that is let go of: its journal is taken over, not copied.
    ///
    /// # Errors
    ///
    /// `NoMemory` where memory was refused. The hub is gone then.
    pub fn taking(alloc: Global, hub: Hub, reports: Vec<Report>) -> Result<Recording, NoMemory>
        requires { IsRecorded (world hub.past reports.items) }
        ensures { IfOk result (λ r. r ≡ world hub.past reports.items) }
    {
        let script = Text::from_str(alloc, hub.script())?;
        let limits = hub.limits();
        let queues = copy_queues(alloc, &hub)?;
        let _most = limits.interpreters();
        let end = end_of_reports(&hub, reports.as_slice());
        Ok(Recording {
            script,
            limits,
            journal: hub.into_journal(),
            queues,
            reports,
            end,
        })
    }

    /// It is recorded of a world. Costs nothing.
    pub fn facts(&self)
        ensures { IsRecorded self.now }
    {
        let _ = &self.journal;
    }

    /// The script of interpreter 0's first run.
    pub fn script(&self) -> &str
        ensures { characters_of result.now ≡ self.now.past.script }
    {
        self.script.as_str()
    }

    /// The limits of the run.
    pub fn limits(&self) -> Limits
        ensures { result ≡ self.now.past.limits }
    {
        self.limits
    }

    /// The calls that were made, in order.
    pub fn journal(&self) -> &[Call]
        ensures { result.now ≡ self.now.past.journal }
    {
        self.journal.as_slice()
    }

    /// What each queue holds, by its number.
    pub fn queues(&self) -> &[QueueItems]
        ensures { result.now ≡ queue_items self.now.past }
    {
        self.queues.as_slice()
    }

    /// The report of each interpreter that was created, by its number.
    pub fn reports(&self) -> &[Report]
        ensures { result.now ≡ self.now.interps }
    {
        self.reports.as_slice()
    }

    /// How it ended.
    pub fn end(&self) -> End
        ensures { result ≡ end_of self.now.past self.now.interps }
    {
        self.end
    }
}
