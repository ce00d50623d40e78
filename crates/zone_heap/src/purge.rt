//! Purging: handles that may be purged become empty, in order of address, until it is enough.

ghost use Rattle.std.specs.Prelude.{◌≡◌, nat_le, IsTrue, IsFalse, []};
ghost use Rattle.std.specs.List.{slice_get};
ghost use Rattle.mac_base.specs.Heap.{all_purged};
ghost use Rattle.mac_base.specs.Purging.{purged, purged_for};
ghost use Rattle.mac_base.specs.Request.{fits, candidates, candidates_in};
ghost use Rattle.mac_base.specs.Sound.{Sound};
ghost use Rattle.mac_base.specs.ZoneMap.{largest_free};
ghost use Rattle.mac_base.specs.ZoneState.{with_heap};
ghost use Rattle.linked_zone.specs.Loans.{KeepsLoans};
ghost use Rattle.zone_heap.specs.Attempts.{CanAsk, SoundZone};
ghost use Rattle.zone_heap.specs.NextPurge.{before_purge, next_of_all, next_to};
ghost use Rattle.zone_heap.specs.Purge.{is_protected, BlocksAt, unprotected};

use crate::fitting::fits;
use crate::size::stays;
use crate::zone::{Zone, empty};
use crate::{gap_after, zone_end};
use mac_base::block::Kind;
use mac_base::handle::Handle;
use mac_base::request::Request;
use mac_base::size::ZONE_HEADER;
use zone_index::IndexedZone;

impl Zone {
    /// Purges for a request that doesn't fit: relocatable blocks that are unlocked, purgeable and not protected are
    /// purged, in order of address, until it does. No more are purged than that takes, and all where it never does; a
    /// purged block's handle is empty. Gives whether the request fits then (Inside Macintosh: Memory, "Freeing
    /// Memory").
    pub fn purge_for(&mut self, request: Request, protected: &[u32]) -> bool
        requires ready { CanAsk self.old request }
        requires protects { IsTrue (is_protected protected.now request) }
        requires no_room { IsFalse (fits self.old.shape self.old.heap.table request self.old.heap.map) }
        ensures sound { Sound self.old.shape self.old.heap }
        ensures zone { self.new ≡ with_heap (purged self.old.shape protected.now request self.old.heap) self.old }
        ensures fits { result ≡ fits self.new.shape self.new.heap.table request self.new.heap.map }
        ensures loans { KeepsLoans self.old self.new }
    {
        while !fits(&mut self.pointers, &request) {
            let Some(handle) = next_for(&self.pointers, &request, protected) else {
                return false;
            };
            empty(&mut self.pointers, handle);
        }
        true
    }

    /// Purges relocatable blocks that are unlocked and purgeable, in order of address, until `needed` bytes are free in
    /// one block, and no more than that takes. Gives whether so many are (Inside Macintosh: Memory, "PurgeMem").
    pub fn purge_to(&mut self, needed: u32) -> bool
        ensures sound { Sound self.old.shape self.old.heap }
        ensures zone { self.new ≡ with_heap (purged_for needed self.old.heap) self.old }
        ensures enough { result ≡ nat_le needed (largest_free self.new.heap.map) }
        ensures loans { KeepsLoans self.old self.new }
    {
        while self.pointers.largest_free() < needed {
            let Some(handle) = next_in_zone(&self.pointers, &[]) else {
                return false;
            };
            empty(&mut self.pointers, handle);
        }
        true
    }

    /// Purges all relocatable blocks that are unlocked and purgeable (Inside Macintosh: Memory, "MaxMem").
    pub fn purge_all(&mut self)
        ensures sound { Sound self.old.shape self.old.heap }
        ensures zone { self.new ≡ with_heap (all_purged self.old.heap) self.old }
        ensures loans { KeepsLoans self.old self.new }
    {
        while let Some(handle) = next_in_zone(&self.pointers, &[]) {
            empty(&mut self.pointers, handle);
        }
    }

    /// The handle that `purge_for` would purge first for a request: none where the request fits, or no handle may be
    /// purged for it. Where it doesn't fit the zone grows to its limit first, and nothing else changes (Inside
    /// Macintosh: Memory, "Freeing Memory").
    pub fn next_purge(&mut self, request: Request, protected: &[u32]) -> Option<Handle>
        requires ready { CanAsk self.old request }
        ensures zone { self.new ≡ with_heap (before_purge self.old.shape protected.now request self.old.heap).heap self.old }
        ensures next { result ≡ (before_purge self.old.shape protected.now request self.old.heap).next }
        ensures loans { KeepsLoans self.old self.new }
    {
        if fits(&mut self.pointers, &request) {
            return None;
        }
        self.extend();
        if fits(&mut self.pointers, &request) {
            return None;
        }
        next_for(&self.pointers, &request, protected)
    }

    /// The handle that `purge_to` would purge first: none where so many bytes are free in one block, or no handle may
    /// be purged (Inside Macintosh: Memory, "PurgeMem").
    pub fn next_purge_to(&mut self, needed: u32) -> Option<Handle>
        ensures zone { self.new ≡ self.old }
        ensures next { result ≡ next_to needed self.old.heap }
    {
        if needed <= self.pointers.largest_free() {
            return None;
        }
        next_in_zone(&self.pointers, &[])
    }

    /// The handle that `purge_all` would purge first, if any may be purged (Inside Macintosh: Memory, "MaxMem").
    pub fn next_purge_of_all(&self) -> Option<Handle>
        ensures { result ≡ next_of_all self.now.heap }
    {
        next_in_zone(&self.pointers, &[])
    }
}

/// The lowest handle that may be purged for a request, if there is one. Where the block of a number stays and is to
/// grow, it is one of those in the gap right after it.
fn next_for(zone: &IndexedZone, request: &Request, protected: &[u32]) -> Option<Handle>
    requires sound { SoundZone zone.now }
    requires ready { CanAsk zone.now request.now }
    ensures { result ≡ slice_get (candidates zone.now.heap.table protected.now request.now zone.now.heap.map) 0 }
{
    match *request {
        Request::Resize(block, _) if stays(zone.linked(), block) => {
            let gap = gap_after(zone, block);
            next_between(zone, gap.start, gap.end, protected)
        }
        _ => next_in_zone(zone, protected),
    }
}

/// The lowest handle of the zone that may be purged, if there is one.
fn next_in_zone(zone: &IndexedZone, protected: &[u32]) -> Option<Handle>
    ensures { result ≡ slice_get (candidates_in zone.now.heap.table protected.now zone.now.heap.map) 0 }
{
    let linked = zone.linked();
    let start = linked.spec().base() + ZONE_HEADER;
    next_between(zone, start, zone_end(linked), protected)
}

/// The lowest handle that may be purged and has its block between two addresses, if there is one. Of the other blocks
/// only those of protected handles are read.
fn next_between(zone: &IndexedZone, start: u32, end: u32, protected: &[u32]) -> Option<Handle>
    requires blocks { BlocksAt zone.now start end }
    ensures { (blocks : BlocksAt zone.now start end) → result ≡ slice_get (candidates_in zone.now.heap.table protected.now blocks.blocks) 0 }
{
    let linked = zone.linked();
    let _spec = linked.spec();
    let mut at = start;
    while let Some(next) = zone.next_purgeable(at) {
        if end <= next {
            return None;
        }
        let here = linked.entry_at(next);
        if let Some(handle) = unprotected(here.kind, protected) {
            return Some(handle);
        }
        at = next + here.size;
    }
    None
}

/// The handle whose block a block of this kind is, unless it is protected.
fn unprotected(kind: Kind, protected: &[u32]) -> Option<Handle>
    ensures { result ≡ unprotected protected.now kind }
{
    let Kind::Rel(handle) = kind else {
        return None;
    };
    if protected.contains(&handle.number()) {
        None
    } else {
        Some(handle)
    }
}
