// What the worker of one interpreter does.

ghost use Rattle.std.specs.Prelude.{◌≡◌, ◌<◌, IfSome, IfNone, None, Some, length, slice_get, slice_index_or, slice_set, true};
ghost use Rattle.si_semantics.specs.Actions as shared;
ghost use Rattle.si_parcel.specs.Shared.{action_of};
ghost use Rattle.si_workers.specs.Books as book;
ghost use Rattle.si_workers.specs.Books.{is_still, is_woken, roused, roused_from};
ghost use Rattle.si_workers.specs.inner.Pages.{is_busy, is_ready, kept, page_in};

use si_hub::Hub;
use si_parcel::Action;
use std::marker::Model;
use std::mem;

// What the worker of a page does.
#[derive(Drop)]
pub(crate) enum Doing {
    // It is at work.
    Busy,
    // It waits with an action that can be taken up.
    Woken(Action),
    // It waits with an action that is not enabled.
    Waiting(Action),
    // It is done.
    Rest,
}

// The page of an interpreter.
#[derive(Drop)]
pub(crate) struct Page {
    doing: Doing,
}

impl Model for Page {
    ghost use Rattle.si_workers.specs.Books.{Page};
    ghost use Rattle.si_workers.specs.BookCode.{page_code};

    ghost Value = { Page };

    ghost coded = { page_code };

    ghost use Rattle.si_workers.specs.inner.Pages.{page_in};

    ghost view = { λ s. page_in s.doing };
}

impl Page {
    pub(crate) fn new(doing: Doing) -> Page
        ensures { result ≡ page_in doing }
    {
        Page { doing }
    }

    pub(crate) fn is_busy(&self) -> bool
        ensures { result ≡ is_busy self.now }
    {
        matches!(self.doing, Doing::Busy)
    }

    pub(crate) fn is_woken(&self) -> bool
        ensures value { result ≡ is_woken self.now }
        ensures yes { result ≡ true → (a : shared.Action) × (self.now ≡ book.Woken a) }
        ensures no { (a : shared.Action) → self.now ≡ book.Woken a → result ≡ true }
    {
        matches!(self.doing, Doing::Woken(_))
    }

    pub(crate) fn is_waiting(&self) -> bool
        ensures yes { result ≡ true → (a : shared.Action) × (self.now ≡ book.Waiting a) }
        ensures no { (a : shared.Action) → self.now ≡ book.Waiting a → result ≡ true }
    {
        matches!(self.doing, Doing::Waiting(_))
    }

    // Whether its worker is not at work, nor is to be.
    pub(crate) fn is_still(&self) -> bool
        ensures { result ≡ is_still self.now }
    {
        matches!(self.doing, Doing::Waiting(_) | Doing::Rest)
    }

    // Whether it waits with an action that is enabled.
    fn is_ready(&self, hub: &Hub, i: u32) -> bool
        ensures { result ≡ is_ready hub.now.past i self.now }
    {
        match &self.doing {
            Doing::Waiting(action) => hub.enabled(i, action),
            _ => false,
        }
    }

    // The page, woken if it waits.
    fn woken(self) -> Page
        ensures { (a : _) → self ≡ book.Waiting a → result ≡ book.Woken a }
    {
        match self.doing {
            Doing::Waiting(action) => Page::new(Doing::Woken(action)),
            doing => Page::new(doing),
        }
    }

    // Wakes it, where it waits with an action that is enabled.
    fn rouse(&mut self, hub: &Hub, i: u32)
        ensures { self.new ≡ roused hub.now.past i self.old }
    {
        if self.is_ready(hub, i) {
            let page = mem::replace(self, Page::new(Doing::Rest));
            *self = page.woken();
        }
    }

    // The action that it keeps.
    pub(crate) fn into_action(self) -> Option<Action>
        ensures some { IfSome result (λ a. kept self ≡ Some (action_of a)) }
        ensures none { IfNone result (kept self ≡ None) }
    {
        match self.doing {
            Doing::Woken(action) => Some(action),
            Doing::Waiting(action) => Some(action),
            _ => None,
        }
    }
}

// Puts another page in the place of one.
pub(crate) fn set_page(pages: &mut Vec<Page>, i: u32, page: Page)
    requires { i < length pages.old.items }
    ensures { pages.new.items ≡ slice_set pages.old.items i page }
{
    pages[i as usize] = page;
}

// Puts another page in the place of one, which it hands out.
pub(crate) fn swap_page(pages: &mut Vec<Page>, i: u32, page: Page) -> Page
    requires { i < length pages.old.items }
    ensures old { result ≡ slice_index_or pages.old.items i result }
    ensures new { pages.new.items ≡ slice_set pages.old.items i page }
{
    mem::replace(&mut pages[i as usize], page)
}

// Wakes page k, where it waits with an action that is enabled.
fn rouse_one(hub: &Hub, pages: &mut Vec<Page>, k: u32)
    requires { k < length pages.old.items }
    ensures count { length pages.new.items ≡ length pages.old.items }
    ensures roused { (s : book.Page) → slice_get pages.old.items k ≡ Some s → pages.new.items ≡ slice_set pages.old.items k (roused hub.now.past k s) }
{
    pages[k as usize].rouse(hub, k);
}

// Wakes each page that waits with an action that is enabled. There are `count` pages.
pub(crate) fn rouse_all(hub: &Hub, pages: &mut Vec<Page>, count: u32)
    requires { count ≡ length pages.old.items }
    ensures { pages.new.items ≡ roused_from hub.now.past 0 pages.old.items }
{
    for k in 0..count {
        rouse_one(hub, pages, k);
    }
}
