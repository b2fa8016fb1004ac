// The book that workers share.

ghost use Rattle.std.specs.Prelude.{◌≡◌, ◌≢◌, ◌↔◌, IfOk, IfSome, IfNone, IsTrue, Some, None, true, false, length, replicate, slice_get};
ghost use Rattle.std.specs.List.{list_any};
ghost use Rattle.si_semantics.specs.Actions as shared;
ghost use Rattle.si_parcel.specs.Shared.{action_of};
ghost use Rattle.si_workers.specs.Books.{Busy, Woken, Waiting, Rest, book, with_page, ActsInBook, IsBook, is_over, is_woken};
ghost use Rattle.si_workers.specs.inner.Books.{FitsActed};

use crate::acted::Acted;
use crate::page::{Doing, Page, rouse_all, set_page, swap_page};
use si_hub::{Hub, NotActed, Why};
use si_parcel::Action;
use si_plain::NoMemory;
use si_semantics::sharing::one_answer;
use std::alloc::Global;
use std::marker::Model;

/// The hub, and what the worker of each interpreter does.
#[derive(Drop)]
pub struct Book {
    hub: Hub,
    pages: Vec<Page>,
}

impl Model for Book {
    ghost use Rattle.si_workers.specs.Books.{BookView, IsBook, book};
    ghost use Rattle.si_workers.specs.BookCode.{book_code};

    ghost Value = { BookView };

    ghost coded = { book_code };

    ghost view = { λ b. book b.hub.past b.pages.items };

    ghost invariant = { λ b. IsBook (book b.hub.past b.pages.items) };
}

impl Book {
    /// A book of a hub, in which the page of each interpreter that the limits allow is busy.
    ///
    /// # Errors
    ///
    /// `NoMemory` where memory was refused.
    pub fn new(alloc: Global, hub: Hub) -> Result<Book, NoMemory>
        ensures { IfOk result (λ b. b ≡ book hub.past (replicate hub.past.limits.interpreters Busy)) }
    {
        let mut pages = Vec::new(alloc);
        for _k in 0..hub.limits().interpreters() {
            pages.push(Page::new(Doing::Busy))?;
        }
        hub.facts();
        Ok(Book { hub, pages })
    }

    /// What holds of every book: each call of its hub had the answer of the table, and no action with which a page waits is
    /// enabled. Costs nothing.
    pub fn facts(&self)
        ensures { IsBook self.now }
    {
        let _ = &self.hub;
    }

    /// The hub, when no worker is left.
    pub fn into_hub(self) -> Hub
        ensures { result.past ≡ self.past }
    {
        let Book { hub, pages: _ } = self;
        hub
    }

    /// How many pages there are.
    pub(crate) fn count(&self) -> u32
        ensures { result ≡ length self.now.pages }
    {
        self.hub.limits().interpreters()
    }

    /// Whether the worker of page i is at work.
    pub fn is_busy(&self, i: u32) -> bool
        ensures { IsTrue result ↔ (slice_get self.now.pages i ≡ Some Busy) }
    {
        match self.pages.get(i as usize) {
            None => false,
            Some(page) => page.is_busy(),
        }
    }

    // Whether the worker of page i is to go on.
    pub(crate) fn is_woken(&self, i: u32) -> bool
        ensures yes { IsTrue result → (a : shared.Action) × (slice_get self.now.pages i ≡ Some (Woken a)) }
        ensures no { (a : shared.Action) → slice_get self.now.pages i ≡ Some (Woken a) → IsTrue result }
    {
        match self.pages.get(i as usize) {
            None => false,
            Some(page) => page.is_woken(),
        }
    }

    // Whether the worker of page i waits with an action that is not enabled.
    fn is_waiting(&self, i: u32) -> bool
        ensures yes { IsTrue result → (a : shared.Action) × (slice_get self.now.pages i ≡ Some (Waiting a)) }
        ensures no { (a : shared.Action) → slice_get self.now.pages i ≡ Some (Waiting a) → IsTrue result }
    {
        match self.pages.get(i as usize) {
            None => false,
            Some(page) => page.is_waiting(),
        }
    }

    /// Does an action of interpreter i, whose page is busy, and wakes each page whose action is enabled by it; or has the page
    /// wait with the action, where it is not enabled; or hands it back, where memory was refused.
    pub fn act(&mut self, i: u32, action: Action) -> Acted
        requires { slice_get self.old.pages i ≡ Some Busy }
        ensures acts { ActsInBook self.old i (action_of action) result self.new }
        ensures fits { FitsActed result (action_of action) }
    {
        match self.hub.act(i, action) {
            Ok(answer) => {
                let count = self.hub.limits().interpreters();
                rouse_all(&self.hub, &mut self.pages, count);
                self.hub.facts();
                one_answer();
                Acted::Answered(answer)
            }
            Err(NotActed { why, action }) => match why {
                Why::NotNow => {
                    set_page(&mut self.pages, i, Page::new(Doing::Waiting(action)));
                    Acted::Waits
                }
                Why::NoMemory => Acted::Refused(action),
            },
        }
    }

    /// The action of a page that was woken; the page is busy then.
    pub fn resume(&mut self, i: u32) -> Option<Action>
        ensures some { IfSome result (λ a. (slice_get self.old.pages i ≡ Some (Woken (action_of a))) × (self.new ≡ with_page self.old i Busy)) }
        ensures none { IfNone result ((self.new ≡ self.old) × ((a : shared.Action) → slice_get self.old.pages i ≢ Some (Woken a))) }
    {
        if !self.is_woken(i) {
            return None;
        }
        swap_page(&mut self.pages, i, Page::new(Doing::Busy)).into_action()
    }

    /// The worker of page i, which was at work, is done.
    pub fn rest(&mut self, i: u32)
        requires { slice_get self.old.pages i ≡ Some Busy }
        ensures { self.new ≡ with_page self.old i Rest }
    {
        set_page(&mut self.pages, i, Page::new(Doing::Rest));
    }

    /// Whether no worker is at work, nor is to be.
    pub fn over(&self) -> bool
        ensures { result ≡ is_over self.now.pages }
    {
        self.pages.iter().all(|page| page.is_still())
    }

    /// Whether some worker is to go on.
    pub fn has_woken(&self) -> bool
        ensures { result ≡ list_any is_woken self.now.pages }
    {
        self.pages.iter().any(|page| page.is_woken())
    }

    /// The action with which a page waits, where all is over; the page rests then.
    pub fn reclaim(&mut self, i: u32) -> Option<Action>
        ensures some { IfSome result (λ a. (is_over self.old.pages ≡ true) × (slice_get self.old.pages i ≡ Some (Waiting (action_of a))) × (self.new ≡ with_page self.old i Rest)) }
        ensures none { IfNone result ((self.new ≡ self.old) × (is_over self.old.pages ≡ true → (a : shared.Action) → slice_get self.old.pages i ≢ Some (Waiting a))) }
    {
        if !self.over() {
            return None;
        }
        if !self.is_waiting(i) {
            return None;
        }
        swap_page(&mut self.pages, i, Page::new(Doing::Rest)).into_action()
    }
}
