// One queue.

ghost use Rattle.std.specs.Prelude.{◌≡◌, ◌↔◌, List, [], ◌∷◌, ◌++◌, length, IsTrue, IfErr, OnOk, OnErr, IsErrAnd, MatchOption, Some, None, true, slice_get};
ghost use Rattle.si_semantics.specs.Parcels.{Tree};
ghost use Rattle.si_semantics.specs.Shared.{is_full, empty_queue, holding};

use crate::refused::{NotPut, Refusal};
use si_parcel::Parcel;
use std::alloc::Global;
use std::collections::VecDeque;
use std::marker::Model;

/// A queue (PEP 734, "Queue Objects"): the items that were put in and not taken yet, the oldest first, and how many it
/// may hold, 0 for any number.
#[derive(Drop)]
pub struct Queue {
    maxsize: u64,
    items: VecDeque<Parcel>,
}

impl Model for Queue {
    ghost use Rattle.si_semantics.specs.Shared.{Queue};
    ghost use Rattle.si_queues.specs.QueueCode.{queue_code};

    ghost Value = { Queue };

    ghost coded = { queue_code };

    ghost view = { λ q. record { maxsize = q.maxsize; items = q.items.items } };
}

impl Queue {
    // An empty queue.
    pub(crate) fn new(alloc: Global, maxsize: u64) -> Queue
        ensures { result ≡ empty_queue maxsize }
    {
        Queue {
            maxsize,
            items: VecDeque::new(alloc),
        }
    }

    /// How many items it may hold, 0 for any number.
    pub fn maxsize(&self) -> u64
        ensures { result ≡ self.now.maxsize }
    {
        self.maxsize
    }

    /// How many items it holds.
    pub fn len(&self) -> usize
        ensures { result ≡ length self.now.items }
    {
        self.items.len()
    }

    /// Whether it holds none.
    pub fn is_empty(&self) -> bool
        ensures { IsTrue result ↔ (self.now.items ≡ []) }
    {
        self.items.is_empty()
    }

    /// Whether no more may be put in.
    pub fn is_full(&self) -> bool
        ensures { result ≡ is_full self.now }
    {
        0 < self.maxsize && self.maxsize <= self.items.len() as u64
    }

    /// The oldest item.
    pub fn first(&self) -> Option<&Parcel>
        ensures { MatchOption result (self.now.items ≡ []) (λ p. (rest : List Tree) × (self.now.items ≡ p.now ∷ rest)) }
    {
        match self.items.front() {
            None => None,
            Some(item) => Some(item),
        }
    }

    /// The item at a place, the oldest at 0.
    pub fn item(&self, at: usize) -> Option<&Parcel>
        ensures { MatchOption result (slice_get self.now.items at ≡ None) (λ p. slice_get self.now.items at ≡ Some p.now) }
    {
        self.items.get(at)
    }

    // A parcel more at the end.
    pub(crate) fn put(&mut self, parcel: Parcel) -> Result<(), NotPut>
        ensures ok { OnOk result (self.new ≡ holding (self.old.items ++ parcel ∷ []) self.old) }
        ensures full { IsErrAnd result (λ e. e.why ≡ Refusal.Full) ↔ (is_full self.old ≡ true) }
        ensures parcel { IfErr result (λ e. e.parcel ≡ parcel) }
        ensures err { OnErr result (self.new ≡ self.old) }
    {
        if self.is_full() {
            let why = Refusal::Full;
            return Err(NotPut { why, parcel });
        }
        match self.items.push_back(parcel) {
            Ok(()) => Ok(()),
            Err(refused) => Err(NotPut {
                why: Refusal::NoMemory,
                parcel: refused.value,
            }),
        }
    }

    // The oldest item, taken away.
    pub(crate) fn get(&mut self) -> Option<Parcel>
        ensures { MatchOption result
            ((self.old.items ≡ []) × (self.new ≡ self.old))
            (λ p. self.old ≡ holding (p ∷ self.new.items) self.new) }
    {
        self.items.pop_front()
    }
}
