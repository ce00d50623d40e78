//! Free blocks: the lowest that is large enough, and the largest, by the sums of the blocks that begin in each leaf of
//! a zone.

ghost use Rattle.std.specs.Prelude.{◌≡◌, ◌<◌, not, IfNone, IfSome, IsTrue};
ghost use Rattle.std.specs.List.{list_all};
ghost use Rattle.mac_base.specs.ZoneMap.{has_free, largest_free};
ghost use Rattle.linked_zone.specs.Places.{LowestAt};
ghost use Rattle.zone_index.specs.Free.{SmallBelow, largest_in, summing_largest};
ghost use Rattle.zone_index.specs.Leaves.{AllFresh, AreSums, leaf_count};

use crate::gap::large_first;
use crate::leaves::LEAF_SIZE;
use crate::zone::IndexedZone;
use linked_zone::LinkedZone;
use sum_tree::{HasBlock, Largest, Monoid, Source, StaleTree};

impl IndexedZone {
    /// The lowest free block of at least `needed` bytes, its header among them. Where the zone's lowest free block has
    /// so many, that is it. Else only the free blocks of those leaves are looked at that changed since they were last
    /// asked for, and those of the leaf that has it.
    pub fn lowest_free(&mut self, needed: u32) -> Option<u32>
        requires some { 0 < needed }
        ensures zone { self.new ≡ self.old }
        ensures lowest { IfSome result (λ at. LowestAt self.old needed at) }
        ensures none { IfNone result (IsTrue (list_all (λ e. not (has_free needed e)) self.old.heap.map)) }
    {
        if let Some(at) = large_first(&self.zone, needed) {
            return Some(at);
        }
        freshen(&self.zone, &mut self.leaves.largest);
        lowest_by_sums(&self.zone, &self.leaves.largest, needed)
    }

    /// The size of the largest free block, and 0 where none is free.
    pub fn largest_free(&mut self) -> u32
        ensures zone { self.new ≡ self.old }
        ensures largest { result ≡ largest_free self.old.heap.map }
    {
        freshen(&self.zone, &mut self.leaves.largest);
        largest_of_all(&self.zone, &self.leaves.largest)
    }
}

/// A zone, from whose free blocks the sums are made.
#[derive(Drop)]
struct FreeBlocks<'a> {
    zone: &'a LinkedZone,
}

impl Source<Largest> for FreeBlocks<'_> {
    ghost use Rattle.zone_index.specs.Free.{largest_in};
    ghost use Rattle.zone_index.specs.Leaves.{leaf_count};

    ghost leaves = { λ s. leaf_count s.zone.now };

    ghost value = { λ s. largest_in s.zone.now };

    fn measure(&self, leaf: usize) -> Largest {
        measure(self.zone, leaf)
    }
}

/// The largest free block that begins in a leaf, by a walk over the free ones.
fn measure(zone: &LinkedZone, leaf: usize) -> Largest
    requires { leaf < leaf_count zone.now }
    ensures { result ≡ largest_in zone.now leaf }
{
    let spec = zone.spec();
    let start = spec.base() + leaf as u32 * LEAF_SIZE;
    let mut largest = Largest::none();
    let Some(mut from) = zone.first_from(start) else {
        return largest;
    };
    while let Some(at) = zone.next_free(from) {
        if at - start >= LEAF_SIZE {
            return largest;
        }
        let bytes = zone.free_size(at);
        largest = largest.join(Largest { bytes });
        from = at + bytes;
    }
    largest
}

/// Makes the stale sums anew.
fn freshen(zone: &LinkedZone, largest: &mut StaleTree<Largest>)
    requires { AreSums summing_largest zone.now largest.old }
    ensures { AllFresh summing_largest zone.now largest.new }
{
    largest.freshen(&FreeBlocks { zone });
}

/// The lowest free block of so many bytes: the leaf in which it begins is found by sums.
fn lowest_by_sums(zone: &LinkedZone, largest: &StaleTree<Largest>, needed: u32) -> Option<u32>
    requires some { 0 < needed }
    requires fresh { AllFresh summing_largest zone.now largest.now }
    ensures lowest { IfSome result (λ at. LowestAt zone.now needed at) }
    ensures none { IfNone result (IsTrue (list_all (λ e. not (has_free needed e)) zone.now.heap.map)) }
{
    let spec = zone.spec();
    let base = spec.base();
    let test = HasBlock { bytes: needed };
    let stop = largest.sums().first(&test)?;
    lowest_from(zone, base + stop.at as u32 * LEAF_SIZE, needed)
}

/// The same by a walk over the free blocks from an address on, where none below has so many bytes.
fn lowest_from(zone: &LinkedZone, start: u32, needed: u32) -> Option<u32>
    requires { SmallBelow zone.now start needed }
    ensures lowest { IfSome result (λ at. LowestAt zone.now needed at) }
    ensures none { IfNone result (IsTrue (list_all (λ e. not (has_free needed e)) zone.now.heap.map)) }
{
    let spec = zone.spec();
    let _limit = spec.limit();
    let mut from = zone.first_from(start)?;
    while let Some(at) = zone.next_free(from) {
        let size = zone.free_size(at);
        if needed <= size {
            return Some(at);
        }
        from = at + size;
    }
    None
}

/// The size of the largest free block of all leaves.
fn largest_of_all(zone: &LinkedZone, largest: &StaleTree<Largest>) -> u32
    requires { AllFresh summing_largest zone.now largest.now }
    ensures { result ≡ largest_free zone.now.heap.map }
{
    let spec = zone.spec();
    let _limit = spec.limit();
    largest.sums().total().bytes
}
