// What the actions on queues change, and what they are answered.

ghost use Rattle.std.specs.Prelude.{◌≡◌, IfOk, OnOk, OnErr, Some, true};
ghost use Rattle.si_semantics.specs.Shared as shared;
ghost use Rattle.si_semantics.specs.Shared.{Replied, is_enabled};
ghost use Rattle.si_semantics.specs.Actions as answer;
ghost use Rattle.si_semantics.specs.History.{answer_in};
ghost use Rattle.si_parcel.specs.Shared.{answer_of};

use crate::shared::Shared;
use si_parcel::{Answer, Parcel};
use si_plain::NoMemory;
use std::alloc::AllocError;

impl Shared {
    pub(crate) fn create_queue(&mut self, maxsize: u64) -> Result<Answer, NoMemory>
        ensures ok { IfOk result (λ r. shared.create_queue maxsize self.old ≡ Replied (answer_of r) self.new) }
        ensures err { OnErr result (self.new ≡ self.old) }
    {
        match self.queues.make(maxsize)? {
            None => Ok(Answer::Limit),
            Some(id) => Ok(Answer::QueueMade(id)),
        }
    }

    pub(crate) fn put(&mut self, queue: u32, parcel: Parcel) -> Result<(), NoMemory>
        requires { is_enabled (shared.put queue parcel self.old) ≡ true }
        ensures ok { OnOk result (shared.put queue parcel self.old ≡ Replied answer.Done self.new) }
        ensures err { OnErr result (self.new ≡ self.old) }
    {
        match self.queues.queue(queue) {
            None => unreachable!(),
            Some(_) => match self.queues.put(queue, parcel) {
                Err(_) => Err(AllocError),
                Ok(()) => Ok(()),
            },
        }
    }

    // The same of a copy.
    pub(crate) fn put_copy(&mut self, queue: u32, parcel: &Parcel) -> Result<(), NoMemory>
        requires { is_enabled (shared.put queue parcel.now self.old) ≡ true }
        ensures ok { OnOk result (shared.put queue parcel.now self.old ≡ Replied answer.Done self.new) }
        ensures err { OnErr result (self.new ≡ self.old) }
    {
        let copy = parcel.clone_parcel(self.alloc)?;
        self.put(queue, copy)
    }

    pub(crate) fn put_now(&mut self, queue: u32, parcel: Parcel) -> Result<Answer, NoMemory>
        requires { is_enabled (shared.put_now queue parcel self.old) ≡ true }
        ensures ok { IfOk result (λ r. shared.put_now queue parcel self.old ≡ Replied (answer_of r) self.new) }
        ensures err { OnErr result (self.new ≡ self.old) }
    {
        match self.queues.queue(queue) {
            None => unreachable!(),
            Some(found) => {
                if found.is_full() {
                    return Ok(Answer::Full);
                }
                match self.queues.put(queue, parcel) {
                    Err(_) => Err(AllocError),
                    Ok(()) => Ok(Answer::Done),
                }
            }
        }
    }

    // A copy of the oldest item.
    pub(crate) fn first(&self, queue: u32) -> Result<Parcel, NoMemory>
        requires { is_enabled (shared.get queue self.now) ≡ true }
        ensures { IfOk result (λ p. answer_in (shared.get queue self.now) ≡ Some (answer.Item p)) }
    {
        match self.queues.queue(queue) {
            None => unreachable!(),
            Some(queue) => match queue.first() {
                None => unreachable!(),
                Some(item) => item.clone_parcel(self.alloc),
            },
        }
    }

    pub(crate) fn get(&mut self, queue: u32) -> Parcel
        requires { is_enabled (shared.get queue self.old) ≡ true }
        ensures { shared.get queue self.old ≡ Replied (answer.Item result) self.new }
    {
        match self.queues.queue(queue) {
            None => unreachable!(),
            Some(_) => match self.queues.get(queue) {
                None => unreachable!(),
                Some(item) => item,
            },
        }
    }

    pub(crate) fn get_now(&mut self, queue: u32) -> Result<Answer, NoMemory>
        requires { is_enabled (shared.get_now queue self.old) ≡ true }
        ensures ok { IfOk result (λ r. shared.get_now queue self.old ≡ Replied (answer_of r) self.new) }
        ensures err { OnErr result (self.new ≡ self.old) }
    {
        match self.queues.queue(queue) {
            None => unreachable!(),
            Some(_) => match self.queues.get(queue) {
                None => Ok(Answer::Empty),
                Some(item) => Ok(Answer::Item(item)),
            },
        }
    }

    pub(crate) fn size(&self, queue: u32) -> u64
        requires { is_enabled (shared.size queue self.now) ≡ true }
        ensures { shared.size queue self.now ≡ Replied (answer.Count result) self.now }
    {
        match self.queues.queue(queue) {
            None => unreachable!(),
            Some(queue) => queue.len() as u64,
        }
    }
}
