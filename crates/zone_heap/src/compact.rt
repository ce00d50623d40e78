//! Blocks moved on a program's own demand, and the handle of a block by its address.

use crate::zone::Zone;
use crate::{raise, squeeze_all_down, squeeze_down};
use mac_base::block::Kind;
use mac_base::handle::Handle;
use zone_index::IndexedZone;

impl Zone {
    ghost use Rattle.std.specs.Prelude.{◌≡◌, IsTrue, IsFalse};
    ghost use Rattle.mac_base.specs.Compaction.{all_down, compacted, moved_high};
    ghost use Rattle.mac_base.specs.HandleTable.{is_full, is_locked};
    ghost use Rattle.mac_base.specs.Heap.{with_map};
    ghost use Rattle.mac_base.specs.ZoneMap.{handle_at, largest_free};
    ghost use Rattle.mac_base.specs.ZoneState.{with_heap};
    ghost use Rattle.linked_zone.specs.Loans.{KeepsLoans};

    /// The size of the largest free block, and 0 where none is free. It is what MaxMem and CompactMem report of a zone
    /// (Inside Macintosh: Memory, "Freeing Memory").
    pub fn largest_free(&mut self) -> u32
        ensures zone { self.new ≡ self.old }
        ensures largest { result ≡ largest_free self.old.heap.map }
    {
        self.pointers.largest_free()
    }

    /// CompactMem: where no free block has `needed` bytes, its header among them, the blocks of the lowest gap that has
    /// room are moved down, and those of all gaps where none has. Gives the size of the largest free block then (Inside
    /// Macintosh: Memory, "Freeing Memory").
    pub fn compact(&mut self, needed: u32) -> u32
        ensures zone { self.new ≡ with_heap (with_map (compacted self.old.heap.table needed self.old.heap.map) self.old.heap) self.old }
        ensures largest { result ≡ largest_free self.new.heap.map }
        ensures loans { KeepsLoans self.old self.new }
    {
        let largest = self.largest_free();
        if needed <= largest {
            return largest;
        }
        squeeze(&mut self.pointers, needed);
        self.largest_free()
    }

    /// Moves the blocks of all gaps down, which is how MaxMem compacts the zone (Inside Macintosh: Memory, "Freeing
    /// Memory").
    pub fn compact_all(&mut self)
        ensures zone { self.new ≡ with_heap (with_map (all_down self.old.heap.table self.old.heap.map) self.old.heap) self.old }
        ensures loans { KeepsLoans self.old self.new }
    {
        squeeze_all_down(&mut self.pointers);
    }

    /// MoveHHi: the block of an unlocked handle is moved to the high end of its gap, and the other blocks of the gap
    /// down (Inside Macintosh: Memory, "Managing Relocatable Blocks").
    pub fn move_high(&mut self, handle: Handle)
        requires full { IsTrue (is_full self.old.heap.table handle) }
        requires unlocked { IsFalse (is_locked self.old.heap.table handle) }
        ensures zone { self.new ≡ with_heap (with_map (moved_high self.old.heap.table handle self.old.heap.map) self.old.heap) self.old }
        ensures loans { KeepsLoans self.old self.new }
    {
        raise(&mut self.pointers, handle);
    }

    /// RecoverHandle: the handle whose block's contents begin at an address, if there is one (Inside Macintosh: Memory,
    /// "Managing Relocatable Blocks").
    pub fn recover(&self, address: u32) -> Option<Handle>
        ensures { result ≡ handle_at self.now.shape address self.now.heap.map }
    {
        let linked = self.pointers.linked();
        let head_size = linked.spec().heads().head_size();
        if address < head_size {
            return None;
        }
        let Some(block) = linked.entry(address - head_size) else {
            return None;
        };
        handle_of(block.entry.kind)
    }
}

ghost use Rattle.std.specs.Prelude.{◌≡◌, ◌<◌};
ghost use Rattle.mac_base.specs.ZoneMap.{handle_of};
ghost use Rattle.linked_zone.specs.Changes.{with_map as zone_with_map};
ghost use Rattle.linked_zone.specs.Loans.{KeepsLoans};
ghost use Rattle.zone_heap.specs.Gaps.{Settled};
ghost use Rattle.zone_heap.specs.Squeezed.{squeezed};

/// Moves the blocks of the lowest gap with at least `needed` free bytes down, or those of all gaps where none has so
/// many.
fn squeeze(pointers: &mut IndexedZone, needed: u32)
    requires some { 0 < needed }
    requires settled { Settled pointers.old }
    ensures zone { pointers.new ≡ zone_with_map (squeezed pointers.old.heap.table needed pointers.old.heap.map) pointers.old }
    ensures loans { KeepsLoans pointers.old pointers.new }
    ensures settled { Settled pointers.new }
{
    match pointers.lowest_gap(needed) {
        Some(at) => {
            squeeze_down(pointers, at);
        }
        None => squeeze_all_down(pointers),
    }
}

/// The handle whose block a block of this kind is.
fn handle_of(kind: Kind) -> Option<Handle>
    ensures { result ≡ handle_of kind }
{
    match kind {
        Kind::Rel(handle) => Some(handle),
        Kind::Free | Kind::Master | Kind::Ptr(_) => None,
    }
}
