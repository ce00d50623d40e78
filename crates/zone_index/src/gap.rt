//! The lowest gap with room.

ghost use Rattle.std.specs.Prelude.{◌≡◌, ◌+◌, ◌<◌, ◌≤◌, IfSome, MatchOption, None, nat_le};
ghost use Rattle.mac_base.specs.Gap.{gaps, is_fixed, lowest_gap};
ghost use Rattle.mac_base.specs.ZoneMap.{free_bytes, total_size};
ghost use Rattle.linked_zone.specs.Places.{LowestAt};
ghost use Rattle.zone_index.specs.Runs.{RestAt};
ghost use Rattle.zone_index.specs.Gaps.{GapAt, IsLowestGap};
ghost use Rattle.zone_index.specs.Marks.{AreMarked};
ghost use Rattle.zone_index.specs.Rooms.{AreFresh};

use crate::fixed::{gap_end, gap_start};
use crate::rooms::{freshen, most_room, reached};
use crate::zone::IndexedZone;
use linked_zone::LinkedZone;
use mac_base::size::ZONE_HEADER;
use place_numbers::Bits;
use sum_tree::{Span, StaleTree};

impl IndexedZone {
    /// The address of the first free block of the lowest gap with at least `needed` free bytes, if there is one. Where
    /// the zone's lowest free block has so many, that is it. Else of the blocks only those are read whose leaves
    /// changed since they were last asked for, and those of the leaf with which the gap has so many bytes.
    pub fn lowest_gap(&mut self, needed: u32) -> Option<u32>
        requires some { 0 < needed }
        ensures zone { self.new ≡ self.old }
        ensures found { MatchOption result (lowest_gap needed (gaps self.old.heap.table self.old.heap.map) ≡ None) (λ at. IsLowestGap self.old needed at) }
    {
        if self.zone.free_bytes() < needed {
            return None;
        }
        if let Some(at) = large_first(&self.zone, needed) {
            return Some(at);
        }
        freshen(&self.zone, &mut self.leaves.rooms);
        lowest_by_sums(&self.zone, &self.marks, &self.leaves.rooms, needed)
    }

    /// Whether the gap that begins at an address has at least `needed` free bytes. Where no gap has, none of its blocks
    /// is looked at.
    pub fn has_room_at(&mut self, start: u32, needed: u32) -> bool
        requires gap { GapAt self.old start }
        ensures zone { self.new ≡ self.old }
        ensures room { (gap : GapAt self.old start) → result ≡ nat_le needed (free_bytes gap.rest.blocks) }
    {
        freshen(&self.zone, &mut self.leaves.rooms);
        has_room(&self.zone, &self.marks, &self.leaves.rooms, start, needed)
    }
}

/// The zone's lowest free block, if it alone has so many bytes: then it is the first one of the lowest gap with room.
pub(crate) fn large_first(zone: &LinkedZone, needed: u32) -> Option<u32>
    requires some { 0 < needed }
    ensures gap { IfSome result (λ at. IsLowestGap zone.now needed at) }
    ensures lowest { IfSome result (λ at. LowestAt zone.now needed at) }
{
    let at = zone.next_free(zone.spec().base() + ZONE_HEADER)?;
    if needed <= zone.free_size(at) {
        Some(at)
    } else {
        None
    }
}

/// The first free block of the lowest gap with room, found by sums.
fn lowest_by_sums(
    zone: &LinkedZone,
    marks: &Bits,
    rooms: &StaleTree<Span>,
    needed: u32,
) -> Option<u32>
    requires marked { AreMarked is_fixed zone.now marks.now }
    requires some { 0 < needed }
    requires fresh { AreFresh zone.now rooms.now }
    ensures { MatchOption result (lowest_gap needed (gaps zone.now.heap.table zone.now.heap.map) ≡ None) (λ at. IsLowestGap zone.now needed at) }
{
    let _spec = zone.spec();
    let at = reached(zone, rooms, needed)?;
    zone.next_free(gap_start(zone, marks, at))
}

/// Whether the gap that begins at an address has `needed` free bytes, by the sums or else by its blocks.
fn has_room(
    zone: &LinkedZone,
    marks: &Bits,
    rooms: &StaleTree<Span>,
    start: u32,
    needed: u32,
) -> bool
    requires marked { AreMarked is_fixed zone.now marks.now }
    requires gap { GapAt zone.now start }
    requires fresh { AreFresh zone.now rooms.now }
    ensures { (gap : GapAt zone.now start) → result ≡ nat_le needed (free_bytes gap.rest.blocks) }
{
    if most_room(zone, rooms) < needed {
        return false;
    }
    let end = gap_end(zone, marks, start);
    needed <= room_up_to(zone, start, end, needed)
}

/// The free bytes of a gap that lies between two addresses, or `needed` of them at least.
fn room_up_to(zone: &LinkedZone, start: u32, end: u32, needed: u32) -> u32
    requires rest { RestAt zone.now start }
    requires end { (rest : RestAt zone.now start) → end ≡ start + total_size rest.blocks }
    ensures most { (rest : RestAt zone.now start) → result ≤ free_bytes rest.blocks }
    ensures all { (rest : RestAt zone.now start) → result < needed → free_bytes rest.blocks ≤ result }
{
    let _spec = zone.spec();
    let mut from = start;
    let mut room = 0;
    while room < needed {
        let Some(at) = zone.next_free(from) else {
            return room;
        };
        if end <= at {
            return room;
        }
        let size = zone.free_size(at);
        room += size;
        from = at + size;
    }
    room
}
