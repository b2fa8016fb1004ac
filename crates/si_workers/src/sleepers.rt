// Which workers sleep.

ghost use Rattle.std.specs.Prelude.{◌≡◌, ◌↔◌, ℕ, IfOk, IsTrue, Some, length, replicate, slice_get, slice_set, true, false};
ghost use Rattle.si_workers.specs.Sleeping.{IsToWake};

use crate::book::Book;
use si_plain::NoMemory;
use std::alloc::Global;
use std::marker::Model;

/// Of each worker, by its number, whether it has gone to sleep since all that slept were last woken.
#[derive(Drop)]
pub(crate) struct Sleepers {
    asleep: Vec<bool>,
}

impl Model for Sleepers {
    ghost use Rattle.std.specs.Prelude.{List, Bool};

    ghost Value = { List Bool };

    ghost view = { λ s. s.asleep.items };
}

impl Sleepers {
    /// None of so many sleeps.
    ///
    /// # Errors
    ///
    /// `NoMemory` where memory was refused.
    pub(crate) fn new(alloc: Global, count: u32) -> Result<Sleepers, NoMemory>
        ensures { IfOk result (λ s. s ≡ replicate count false) }
    {
        let mut asleep = Vec::new(alloc);
        for _k in 0..count {
            asleep.push(false)?;
        }
        Ok(Sleepers { asleep })
    }

    /// Worker i goes to sleep.
    pub(crate) fn add(&mut self, i: u32)
        ensures { self.new ≡ slice_set self.old i true }
    {
        if (i as usize) < self.asleep.len() {
            self.asleep[i as usize] = true;
        }
    }

    /// All are woken.
    pub(crate) fn clear(&mut self)
        ensures { self.new ≡ replicate (length self.old) false }
    {
        self.asleep.as_mut_slice().fill(false);
    }

    // Whether worker i sleeps.
    fn sleeps(&self, i: u32) -> bool
        ensures { IsTrue result ↔ (slice_get self.now i ≡ Some true) }
    {
        match self.asleep.get(i as usize) {
            None => false,
            Some(asleep) => *asleep,
        }
    }

    /// Whether some worker sleeps whose page was woken.
    pub(crate) fn has_woken(&self, book: &Book) -> bool
        ensures yes { result ≡ true → (i : ℕ) × IsToWake self.now book.now.pages i }
        ensures no { (i : ℕ) → IsToWake self.now book.now.pages i → result ≡ true }
    {
        for k in 0..book.count() {
            if self.sleeps(k) && book.is_woken(k) {
                return true;
            }
        }
        false
    }
}
