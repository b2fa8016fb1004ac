// All queues, by their numbers.

ghost use Rattle.std.specs.Prelude.{◌≡◌, ◌↔◌, ◌<◌, ◌≤◌, ◌+◌, List, [], ◌∷◌, ◌++◌, length, IfOk, IfErr, OnOk, OnErr, IsErrAnd, MatchOption, Ok, Some, None, true, slice_get, slice_set};
ghost use Rattle.si_semantics.specs.Parcels.{Tree};
ghost use Rattle.si_queues.specs.declared.refused.Refusal.{Refusal};
ghost use Rattle.si_semantics.specs.Shared.{Queue, is_full, empty_queue, holding};
ghost use Rattle.si_queues.specs.Lengths.{len_of};

use crate::queue::Queue;
use crate::refused::NotPut;
use si_parcel::Parcel;
use si_plain::NoMemory;
use si_plain::limits::MAX_QUEUES;
use std::alloc::Global;
use std::marker::Model;

/// The queues that interpreters share, at most 1,024. A queue's number is how many there were when it was made: numbers
/// count up from 0, and none is given twice.
#[derive(Drop)]
pub struct Queues {
    alloc: Global,
    queues: Vec<Queue>,
}

impl Model for Queues {
    ghost use Rattle.std.specs.Prelude.{◌≤◌, List, length};
    ghost use Rattle.std.specs.Coded.{coded_list};
    ghost use Rattle.si_semantics.specs.Shared.{Queue};
    ghost use Rattle.si_queues.specs.QueueCode.{queue_code};

    ghost Value = { List Queue };

    ghost coded = { coded_list queue_code };

    ghost view = { λ q. q.queues.items };

    ghost invariant = { λ q. length q.queues.items ≤ 1024 };
}

impl Queues {
    /// No queue.
    pub fn new(alloc: Global) -> Queues
        ensures { result ≡ [] }
    {
        Queues {
            alloc,
            queues: Vec::new(alloc),
        }
    }

    /// How many queues there are.
    pub fn count(&self) -> usize
        ensures count { result ≡ length self.now }
        ensures few { result ≤ 1024 }
    {
        self.queues.len()
    }

    /// The queue of this number, if it was made.
    pub fn queue(&self, id: u32) -> Option<&Queue>
        ensures { MatchOption result (slice_get self.now id ≡ None) (λ q. slice_get self.now id ≡ Some q.now) }
    {
        self.queues.get(id as usize)
    }

    /// How many items the queue of this number holds, if it was made.
    pub fn len(&self, id: u32) -> Option<usize>
        ensures { result ≡ len_of (slice_get self.now id) }
    {
        match self.queues.get(id as usize) {
            None => None,
            Some(queue) => Some(queue.len()),
        }
    }

    /// Makes an empty queue, which may hold `maxsize` items, or any number if that is 0, and tells its number. `None`
    /// where there are 1,024 already; nothing has changed then.
    ///
    /// # Errors
    ///
    /// `NoMemory` where memory was refused; nothing has changed then.
    pub fn make(&mut self, maxsize: u64) -> Result<Option<u32>, NoMemory>
        ensures made { IfOk result (λ o. MatchOption o
            ((1024 ≤ length self.old) × (self.new ≡ self.old))
            (λ id. (id ≡ length self.old) × (length self.old < 1024) × (self.new ≡ self.old ++ empty_queue maxsize ∷ []))) }
        ensures err { OnErr result (self.new ≡ self.old) }
    {
        let id = self.queues.len();
        if id >= MAX_QUEUES {
            return Ok(None);
        }
        let queue = Queue::new(self.alloc, maxsize);
        self.queues.push(queue)?;
        Ok(Some(id as u32))
    }

    /// Puts a parcel at the end of a queue that was made. The parcel comes back where that is full, and only then or
    /// where memory was refused; nothing has changed then.
    pub fn put(&mut self, id: u32, parcel: Parcel) -> Result<(), NotPut>
        requires { id < length self.old }
        ensures ok { OnOk result ((q : Queue) → slice_get self.old id ≡ Some q → self.new ≡ slice_set self.old id (holding (q.items ++ parcel ∷ []) q)) }
        ensures full { (q : Queue) → slice_get self.old id ≡ Some q → IsErrAnd result (λ e. e.why ≡ Refusal.Full) ↔ (is_full q ≡ true) }
        ensures parcel { IfErr result (λ e. e.parcel ≡ parcel) }
        ensures err { OnErr result (self.new ≡ self.old) }
    {
        self.queues[id as usize].put(parcel)
    }

    /// Takes the oldest item of a queue that was made. `None` where it holds none; nothing has changed then. What it
    /// costs does not grow with the queue.
    pub fn get(&mut self, id: u32) -> Option<Parcel>
        requires { id < length self.old }
        ensures first { (q : Queue) (p : Tree) (rest : List Tree) → slice_get self.old id ≡ Some q → q.items ≡ p ∷ rest → (result ≡ Some p) × (self.new ≡ slice_set self.old id (holding rest q)) }
        ensures none { (q : Queue) → slice_get self.old id ≡ Some q → q.items ≡ [] → (result ≡ None) × (self.new ≡ self.old) }
    {
        if self.queues[id as usize].is_empty() {
            return None;
        }
        self.queues[id as usize].get()
    }
}
