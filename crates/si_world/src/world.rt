// All interpreters of a script, and what they share.

ghost use Rattle.std.specs.Prelude.{◌≡◌, ◌≢◌, ◌≤◌, ◌<◌, ℕ, IfOk, MatchOption, None, Some, slice_get};
ghost use Rattle.si_plain.specs.Characters.{characters_of};
ghost use Rattle.si_hub.specs.Hubs.{state_of};
ghost use Rattle.si_world.specs.Legal.{Legal};
ghost use Rattle.si_world.specs.Worlds.{IsWorld, created, first_of, first_views, globals_at};
ghost use Rattle.si_world.specs.Marks.{Turned};
ghost use Rattle.si_world.specs.Core.{IsOfCore, NoneStarved};
ghost use Rattle.si_world.specs.inner.Firsts.{AllShow};

use crate::mark::Mark;
use crate::moving::move_one;
use si_hub::{Call, Hub};
use si_interp::Interp;
use si_plain::{Limits, NoMemory};
use si_queues::Queue;
use si_reading::Reading;
use std::alloc::Global;
use std::marker::Model;

/// All interpreters that the limits allow, and what they share. After any turns the calls of its journal are a legal
/// history of the script's meaning, and each interpreter shows its meaning under the answers that the journal gave it.
#[derive(Drop)]
pub struct World {
    pub(crate) alloc: Global,
    pub(crate) hub: Hub,
    pub(crate) interps: Vec<Interp>,
    // How many of them were created.
    pub(crate) made: u32,
}

impl Model for World {
    ghost use Rattle.std.specs.Prelude.{◌≡◌};
    ghost use Rattle.si_world.specs.Worlds.{WorldView, IsWorld, created};
    ghost use Rattle.si_world.specs.WorldCode.{world_code};

    ghost Value = { WorldView };

    ghost coded = { world_code };

    ghost view = { λ w. record { past = w.hub.past; interps = w.interps.items } };

    ghost invariant = { λ w. IsWorld (record { past = w.hub.past; interps = w.interps.items }) × (w.made ≡ created w.hub.past) };
}

// So many new interpreters.
fn first_interps(alloc: Global, count: u32) -> Result<Vec<Interp>, NoMemory>
    ensures views { IfOk result (λ v. v.items ≡ first_views 0 count) }
    ensures show { IfOk result (λ v. AllShow v.items) }
{
    let mut interps = Vec::new(alloc);
    for i in 0..count {
        let interp = Interp::new(alloc, i)?;
        interp.facts();
        interps.push(interp)?;
    }
    Ok(interps)
}

impl World {
    /// The world of a script before any turn: interpreter 0 was created, and its first run is that of the script.
    ///
    /// # Errors
    ///
    /// `NoMemory` where memory was refused.
    pub fn new(alloc: Global, script: &str, limits: Limits) -> Result<World, NoMemory>
        ensures { IfOk result (λ w. w ≡ first_of (characters_of script.now) limits) }
    {
        let hub = Hub::new(alloc, script, limits)?;
        let interps = first_interps(alloc, limits.interpreters())?;
        hub.facts();
        let made = 1;
        Ok(World {
            alloc,
            hub,
            interps,
            made,
        })
    }

    /// Has a text at hand with the script as which it is read: where it is this world's script, and no turn was taken yet, it is not
    /// read once more. Nothing else comes of it.
    pub fn prepare(&mut self, reading: Reading)
        ensures { self.new ≡ self.old }
    {
        if !self.interps.is_empty() {
            self.interps[0].prepare(reading);
        }
    }

    /// What holds of every world: its journal is a legal history, and each interpreter shows its meaning under the answers
    /// that the journal gave it; where memory was refused to none, each has printed, and stands, as the core says. Costs
    /// nothing.
    pub fn facts(&self)
        ensures world { IsWorld self.now }
        ensures legal { Legal self.now.past }
        ensures core { NoneStarved self.now → IsOfCore self.now }
    {
        let _ = &self.hub;
    }

    /// The interpreter of this number, if the limits allow it; one that was not created yet is as new.
    pub fn interp(&self, i: u32) -> Option<&Interp>
        ensures { MatchOption result (slice_get self.now.interps i ≡ None) (λ v. slice_get self.now.interps i ≡ Some v.now) }
    {
        self.interps.get(i as usize)
    }

    /// How many interpreters were created, closed ones counted: from 1 to as many as the limits allow.
    pub fn created(&self) -> u32
        ensures value { result ≡ created self.now.past }
        ensures least { 1 ≤ result }
        ensures most { result ≤ self.now.past.limits.interpreters }
        ensures few { result ≤ 64 }
    {
        let _most = self.hub.limits().interpreters();
        self.made
    }

    /// The calls that were made, in order.
    pub fn journal(&self) -> &[Call]
        ensures { result.now ≡ self.now.past.journal }
    {
        self.hub.journal()
    }

    /// The script of interpreter 0's first run.
    pub fn script(&self) -> &str
        ensures { characters_of result.now ≡ self.now.past.script }
    {
        self.hub.script()
    }

    /// The limits that it was made with.
    pub fn limits(&self) -> Limits
        ensures { result ≡ self.now.past.limits }
    {
        self.hub.limits()
    }

    /// The parcels of a queue, the oldest first, if the queue was made.
    pub fn queue(&self, id: u32) -> Option<&Queue>
        ensures { MatchOption result
            (slice_get (state_of self.now.past).queues id ≡ None)
            (λ q. slice_get (state_of self.now.past).queues id ≡ Some q.now) }
    {
        self.hub.queue(id)
    }

    /// A turn of interpreter i: one line of its machine, one shared action, or nothing. Every other interpreter is left as
    /// it was: what is reported of it, and what its globals denote (`Interp::global`).
    pub fn turn(&mut self, i: u32) -> Mark
        ensures turned { Turned self.old i result self.new }
        ensures isolation { (j : ℕ) → j ≢ i → slice_get self.new.interps j ≡ slice_get self.old.interps j }
        ensures globals { (j : ℕ) → j ≢ i → globals_at self.new j ≡ globals_at self.old j }
    {
        if i >= self.made {
            return Mark::Nobody;
        }
        let interp = &mut self.interps[i as usize];
        move_one(&mut self.hub, interp, i, &mut self.made)
    }
}
