//! The first block that can be moved down.

ghost use Rattle.std.specs.Prelude.{IsTrue, MatchOption, false};
ghost use Rattle.zone_index.specs.Disorder.{FirstOutOfOrder, OrderedTo};
ghost use Rattle.zone_index.specs.Pages.{ArePages};
ghost use Rattle.zone_index.specs.Weights.{in_order, weights};

use crate::pages::{Pages, page_sums};
use crate::weight::weigh;
use crate::zone::IndexedZone;
use linked_zone::LinkedZone;
use mac_base::size::ZONE_HEADER;

impl IndexedZone {
    ghost use Rattle.std.specs.Prelude.{◌≡◌, IsTrue, MatchOption, false};
    ghost use Rattle.zone_index.specs.Disorder.{FirstOutOfOrder};
    ghost use Rattle.zone_index.specs.Weights.{in_order, weights};

    /// The address of the first block that can be moved down, if there is one: right before it is a free block, and
    /// it isn't fixed. Where no block but the last is free there is none, and no other block is read. Else of the
    /// pages below only those are gone through that changed since they were last looked at, and the one in which it is
    /// found.
    pub fn first_out_of_order(&mut self) -> Option<u32>
        ensures zone { self.new ≡ self.old }
        ensures first { MatchOption result (IsTrue (in_order false (weights self.old.heap.table self.old.heap.map))) (λ at. FirstOutOfOrder self.old at) }
    {
        if is_packed(&self.zone) {
            return None;
        }
        first_by_pages(&self.zone, &mut self.pages)
    }
}

/// Whether no block but the last is free: then none can be moved down.
fn is_packed(zone: &LinkedZone) -> bool
    ensures { IsTrue result → IsTrue (in_order false (weights zone.now.heap.table zone.now.heap.map)) }
{
    let first = zone.spec().base() + ZONE_HEADER;
    let Some(low) = zone.next_free(first) else {
        return true;
    };
    match zone.after(low) {
        Some(_) => false,
        None => true,
    }
}

/// The first block that is out of order, found by the sums of pages.
fn first_by_pages(zone: &LinkedZone, pages: &mut Pages) -> Option<u32>
    requires pages { ArePages zone.now pages.old }
    ensures pages { ArePages zone.now pages.new }
    ensures first { MatchOption result (IsTrue (in_order false (weights zone.now.heap.table zone.now.heap.map))) (λ at. FirstOutOfOrder zone.now at) }
{
    let spec = zone.spec();
    let end = spec.base() + spec.size();
    let mut at = spec.base() + ZONE_HEADER;
    let mut free = false;
    while at < end {
        let here = page_sums(zone, pages, at);
        let after = here.order.after(free);
        if !after.arranged {
            return first_from(zone, at, free);
        }
        free = after.free;
        at += here.bytes;
    }
    None
}

/// The first block that is out of order, where those below an address are in order and the last of them is free, or
/// not.
fn first_from(zone: &LinkedZone, from: u32, free: bool) -> Option<u32>
    requires { OrderedTo zone.now from free }
    ensures { MatchOption result (IsTrue (in_order false (weights zone.now.heap.table zone.now.heap.map))) (λ at. FirstOutOfOrder zone.now at) }
{
    let spec = zone.spec();
    let end = spec.base() + spec.size();
    let mut at = from;
    let mut past_free = free;
    while at < end {
        let here = zone.entry_at(at);
        let weight = weigh(zone, here.size, here.kind);
        if past_free && !weight.fixed {
            return Some(at);
        }
        past_free = weight.free > 0;
        at += here.size;
    }
    None
}
