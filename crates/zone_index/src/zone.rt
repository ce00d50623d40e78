//! The zone.

use crate::fixed::{gap_end, gap_start};
use crate::index::Index;
use crate::leaves::{LEAF_SIZE, LeafSums};
use crate::lengths::Lengths;
use crate::pages::{Pages, page_of, page_sums};
use crate::rooms::{freshen, most_room};
use crate::sums::{Sums, ZoneSums};
use linked_zone::LinkedZone;
use mac_base::error::HostFull;
use mac_base::handle::Handle;
use mac_base::size::ZONE_HEADER;
use mac_base::zone_spec::ZoneSpec;
use place_numbers::Bits;
use std::alloc::Global;
use std::marker::Model;
use sum_tree::{Span, StaleTree};

/// A zone with its index. Contracts see its shape, its handle table, its zone map and its free slots in the order in
/// which they are given. After `create` and `adopt` no call takes memory of the host.
pub struct IndexedZone {
    pub(crate) zone: LinkedZone,
    /// A mark at each fixed block: master blocks, nonrelocatable blocks and those of locked handles. There is room for
    /// one at each four bytes of the zone. One may be where no fixed block is.
    pub(crate) marks: Bits,
    /// The same of the blocks that may be purged.
    pub(crate) purgeable: Bits,
    /// The sums of the blocks that begin in each leaf.
    pub(crate) leaves: LeafSums,
    /// The sums of the blocks that begin in each page, where they are known.
    pub(crate) pages: Pages,
    /// How many bytes handles have, where that is known.
    pub(crate) lengths: Lengths,
}

impl Model for IndexedZone {
    ghost use Rattle.mac_base.specs.ZoneState.{ZoneState};

    ghost Value = { ZoneState };

    ghost use Rattle.zone_index.specs.Zone.{zone_of, IsIndexed};

    ghost view = { zone_of };

    ghost invariant = { IsIndexed };
}

impl Drop for IndexedZone {
    ghost use Rattle.std.specs.Prelude.{◌≡◌, []};

    /// A zone ends only when nothing of it is lent.
    fn drop(self)
        requires nothing_lent { self.heap.table.lent ≡ [] }
    {
        let IndexedZone {
            zone,
            marks,
            purgeable,
            leaves,
            pages,
            lengths,
        } = self;
        drop(zone);
        drop(marks);
        drop(purgeable);
        drop(leaves);
        drop(pages);
        drop(lengths);
    }
}

impl IndexedZone {
    ghost use Rattle.std.specs.Prelude.{◌≡◌, ◌+◌, ◌/◌, ◌^◌, ◌<◌, ◌≤◌, length, IfOk};
    ghost use Rattle.mac_base.specs.HandleTable.{bytes_of};
    ghost use Rattle.mac_base.specs.Reports.{largest_purge_space, largest_room, purge_space};
    ghost use Rattle.mac_base.specs.ZoneMap.{address_after, total_size};
    ghost use Rattle.mac_base.specs.ZoneSizes.{ArePossible};
    ghost use Rattle.mac_base.specs.ZoneState.{own_memory};
    ghost use Rattle.linked_zone.specs.Changes.{bare_zone};
    ghost use Rattle.linked_zone.specs.Fit.{Fits, HasSizes};
    ghost use Rattle.linked_zone.specs.Places.{EntryAt};
    ghost use Rattle.linked_zone.specs.Sizes.{sizes_of};
    ghost use Rattle.zone_index.specs.Marks.{place};
    ghost use Rattle.zone_index.specs.Pages.{page, page_size};
    ghost use Rattle.zone_index.specs.Leaves.{leaf, leaf_count};
    ghost use Rattle.zone_index.specs.Runs.{FrontAt, RestAt};

    /// A new zone: one free block, and no slot.
    pub fn create(alloc: Global, spec: ZoneSpec) -> Result<IndexedZone, HostFull>
        ensures { IfOk result (λ zone. zone ≡ bare_zone (own_memory zone.memory.region) spec) }
    {
        let index = Index::create(alloc, spec)?;
        let zone = LinkedZone::create(alloc, spec)?;
        Ok(index.beside(zone))
    }

    /// The zone without its index, to be read.
    pub fn linked(&self) -> &LinkedZone
        ensures { result.now ≡ self.now }
    {
        &self.zone
    }

    /// The address after the gap that has the blocks from an address on.
    pub fn gap_end(&self, start: u32) -> u32
        requires rest { RestAt self.now start }
        ensures { (rest : RestAt self.now start) → result ≡ start + total_size rest.blocks }
    {
        gap_end(&self.zone, &self.marks, start)
    }

    /// The address at which the gap begins that has the blocks before an address.
    pub fn gap_start(&self, end: u32) -> u32
        requires front { FrontAt self.now end }
        ensures { (front : FrontAt self.now end) → result + total_size front.blocks ≡ end }
    {
        gap_start(&self.zone, &self.marks, end)
    }

    /// What the zone has room for: the sums over its leaves and pages, of which only those are gone through that
    /// changed since they were last asked for.
    pub fn sums(&mut self) -> ZoneSums
        ensures zone { self.new ≡ self.old }
        ensures space { result.space ≡ purge_space self.old.heap.table self.old.heap.map }
        ensures room { result.room ≡ largest_room self.old.heap.table self.old.heap.map }
        ensures contiguous { result.contiguous ≡ largest_purge_space self.old.heap.table self.old.heap.map }
    {
        freshen(&self.zone, &mut self.leaves.rooms);
        zone_sums(&self.zone, &self.leaves.rooms, &mut self.pages)
    }

    /// How many bytes a handle has: none where it isn't live, or empty. The zone is asked where that isn't remembered.
    pub fn length_if_any(&self, handle: Handle) -> u32
        ensures { result ≡ length (bytes_of self.now.heap.table handle) }
    {
        match self.lengths.told(handle.number()) {
            Some(length) => length,
            None => self.asked_length(handle),
        }
    }

    /// How many bytes a handle has, asked of the zone. This is apart, so that the way of those that are remembered
    /// is short: a script may ask for thousands of them at each line.
    #[cold]
    #[inline(never)]
    fn asked_length(&self, handle: Handle) -> u32
        ensures { result ≡ length (bytes_of self.now.heap.table handle) }
    {
        self.zone.length_if_any(handle.number())
    }

    /// The place of a block's marks.
    pub(crate) fn place(&self, at: u32) -> usize
        requires { EntryAt self.now at }
        ensures value { result ≡ place self.now.shape at }
        ensures inside { result ≤ self.now.shape.limit / 4 }
        ensures fits { Fits self.now }
        ensures sizes { HasSizes self.now }
        ensures possible { ArePossible (sizes_of self.now) }
    {
        let spec = self.zone.spec();
        (at - spec.base()) as usize / 4
    }

    /// The page in which a block begins.
    pub(crate) fn page(&self, at: u32) -> usize
        requires { EntryAt self.now at }
        ensures value { result ≡ page self.now.shape at }
        ensures inside { result ≤ self.now.shape.limit / page_size }
        ensures reach { address_after self.now.shape self.now.heap.map < 2 ^ 32 }
        ensures fits { Fits self.now }
        ensures sizes { HasSizes self.now }
    {
        self.page_at(at)
    }

    /// The page of an address of the zone, or that at which it ends.
    pub(crate) fn page_at(&self, at: u32) -> usize
        requires low { self.now.shape.base ≤ at }
        requires high { at ≤ address_after self.now.shape self.now.heap.map }
        ensures value { result ≡ page self.now.shape at }
        ensures inside { result ≤ self.now.shape.limit / page_size }
        ensures reach { address_after self.now.shape self.now.heap.map < 2 ^ 32 }
        ensures fits { Fits self.now }
        ensures sizes { HasSizes self.now }
    {
        page_of(self.zone.spec().base(), at)
    }

    /// The leaf in which a block begins.
    pub(crate) fn leaf(&self, at: u32) -> usize
        requires { EntryAt self.now at }
        ensures value { result ≡ leaf self.now.shape at }
        ensures inside { result < leaf_count self.now }
    {
        self.leaf_at(at)
    }

    /// The leaf of an address of the zone, or that at which it ends.
    pub(crate) fn leaf_at(&self, at: u32) -> usize
        requires low { self.now.shape.base ≤ at }
        requires high { at ≤ address_after self.now.shape self.now.heap.map }
        ensures value { result ≡ leaf self.now.shape at }
        ensures inside { result < leaf_count self.now }
    {
        ((at - self.zone.spec().base()) / LEAF_SIZE) as usize
    }
}

ghost use Rattle.std.specs.Prelude.{◌≡◌};
ghost use Rattle.mac_base.specs.Reports.{largest_purge_space, largest_room, purge_space};
ghost use Rattle.zone_index.specs.Pages.{ArePages};
ghost use Rattle.zone_index.specs.Rooms.{AreFresh};
ghost use Rattle.zone_index.specs.Spans.{IsSum};
ghost use Rattle.zone_index.specs.Weights.{weights};

/// What a zone has room for, by the sums of its leaves and pages.
fn zone_sums(zone: &LinkedZone, rooms: &StaleTree<Span>, pages: &mut Pages) -> ZoneSums
    requires fresh { AreFresh zone.now rooms.now }
    requires pages { ArePages zone.now pages.old }
    ensures pages { ArePages zone.now pages.new }
    ensures space { result.space ≡ purge_space zone.now.heap.table zone.now.heap.map }
    ensures room { result.room ≡ largest_room zone.now.heap.table zone.now.heap.map }
    ensures contiguous { result.contiguous ≡ largest_purge_space zone.now.heap.table zone.now.heap.map }
{
    let all = all_pages(zone, pages);
    let _spec = zone.spec();
    ZoneSums {
        space: all.space,
        room: most_room(zone, rooms),
        contiguous: all.spaces.most(),
    }
}

/// The sums of all blocks, page by page.
fn all_pages(zone: &LinkedZone, pages: &mut Pages) -> Sums
    requires pages { ArePages zone.now pages.old }
    ensures pages { ArePages zone.now pages.new }
    ensures sums { IsSum (weights zone.now.heap.table zone.now.heap.map) result }
{
    let spec = zone.spec();
    let end = spec.base() + spec.size();
    let mut at = spec.base() + ZONE_HEADER;
    let mut all = Sums::NONE;
    while at < end {
        let here = page_sums(zone, pages, at);
        all = all.join(here);
        at += here.bytes;
    }
    all
}
