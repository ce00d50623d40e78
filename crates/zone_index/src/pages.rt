//! The pages of a zone, and what is remembered of them.

ghost use Rattle.std.specs.Prelude.{◌≡◌, ◌-◌, ◌/◌, ◌≤◌, ◌<◌, length};
ghost use Rattle.zone_index.specs.declared.sums.Sums.{Sums};
ghost use Rattle.linked_zone.specs.Places.{EntryAt};
ghost use Rattle.zone_index.specs.Pages.{ArePages, Forgets, page, page_size, page_weights};
ghost use Rattle.zone_index.specs.Spans.{IsSum};
ghost use Rattle.zone_index.specs.Walk.{FirstOfPage};

use crate::sums::Sums;
use crate::weight::weigh;
use linked_zone::LinkedZone;
use std::alloc::{AllocError, Global};
use std::marker::Model;

/// The bytes of a page.
pub const PAGE_SIZE: u32 = 0x1000;

/// The page of an address of a zone.
pub fn page_of(base: u32, at: u32) -> usize
    requires { base ≤ at }
    ensures { result ≡ (at - base) / page_size }
{
    ((at - base) / PAGE_SIZE) as usize
}

/// What is remembered of each page. A contract sees a list: of each page its sums, or none. After `create` no call
/// takes memory of the host.
#[derive(Drop)]
pub struct Pages {
    sums: Vec<Option<Sums>>,
    /// From this page on nothing is remembered.
    end: usize,
}

impl Model for Pages {
    ghost use Rattle.std.specs.Prelude.{List, Option};
    ghost use Rattle.zone_index.specs.declared.sums.Sums.{Sums};

    ghost Value = { List (Option Sums) };

    ghost use Rattle.zone_index.specs.Pages.{NoneKnownFrom};

    ghost view = { λ p. p.sums.items };

    ghost invariant = { λ p. NoneKnownFrom p.end p.sums.items };
}

impl Pages {
    ghost use Rattle.std.specs.Prelude.{◌≡◌, ◌<◌, IfOk, Some, length, set, slice_get};
    ghost use Rattle.zone_index.specs.Pages.{Forgets, NoneKnownFrom};

    /// So many pages of which nothing is known.
    pub fn create(alloc: Global, count: usize) -> Result<Pages, AllocError>
        ensures places { IfOk result (λ pages. length pages ≡ count) }
        ensures unknown { IfOk result (NoneKnownFrom 0) }
    {
        Ok(Pages {
            sums: vec![in alloc; None; count]?,
            end: 0,
        })
    }

    /// What is remembered of a page.
    fn known(&self, page: usize) -> Option<Sums>
        requires { page < length self.now }
        ensures { slice_get self.now page ≡ Some result }
    {
        self.sums[page]
    }

    /// Remembers the sums of a page.
    fn remember(&mut self, page: usize, sums: Sums)
        requires { page < length self.old }
        ensures { self.new ≡ set self.old page (Some sums) }
    {
        self.sums[page] = Some(sums);
        self.end = self.end.max(page + 1);
    }

    /// Forgets what is remembered of the pages from one to another.
    pub fn forget(&mut self, first: usize, last: usize)
        requires { last < length self.old }
        ensures { Forgets self.old self.new first last }
    {
        if self.end <= first {
            return;
        }
        let last = last.min(self.end - 1);
        forget(&mut self.sums, first, last);
        if last + 1 == self.end {
            self.end = first;
        }
    }
}

/// Forgets what is remembered of the pages from one to another.
fn forget(pages: &mut [Option<Sums>], first: usize, last: usize)
    requires { last < length pages.old }
    ensures { Forgets pages.old pages.new first last }
{
    let mut page = first;
    while page <= last {
        pages[page] = None;
        page += 1;
    }
}

/// The sums of the page whose first block is at an address. They are remembered.
pub fn page_sums(zone: &LinkedZone, pages: &mut Pages, at: u32) -> Sums
    requires first { FirstOfPage zone.now at }
    requires pages { ArePages zone.now pages.old }
    ensures pages { ArePages zone.now pages.new }
    ensures sums { IsSum (page_weights zone.now (page zone.now.shape at)) result }
{
    let page = page_of(zone.spec().base(), at);
    if let Some(sums) = pages.known(page) {
        return sums;
    }
    let sums = measure(zone, at);
    pages.remember(page, sums);
    sums
}

/// The sums of the page whose first block is at an address, by a walk over its blocks.
fn measure(zone: &LinkedZone, first: u32) -> Sums
    requires { FirstOfPage zone.now first }
    ensures { IsSum (page_weights zone.now (page zone.now.shape first)) result }
{
    let spec = zone.spec();
    let base = spec.base();
    let start = base + (first - base) / PAGE_SIZE * PAGE_SIZE;
    let end = start.saturating_add(PAGE_SIZE).min(base + spec.size());
    let mut at = first;
    let mut sums = Sums::NONE;
    while at < end {
        let here = zone.entry_at(at);
        sums = sums.join(Sums::of(weigh(zone, here.size, here.kind)));
        at += here.size;
    }
    sums
}
