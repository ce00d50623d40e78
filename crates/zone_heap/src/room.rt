//! The gap in which a block can grow.

ghost use Rattle.std.specs.Prelude.{◌≡◌, IsTrue, IsFalse};
ghost use Rattle.mac_base.specs.Gap.{gap_after, gaps, own_gap};
ghost use Rattle.mac_base.specs.HandleTable.{is_full, is_locked};
ghost use Rattle.mac_base.specs.Request.{stays};
ghost use Rattle.zone_heap.specs.Gaps.{Settled, IsGapOf};

use crate::gap::{FoundGap, zone_end};
use mac_base::handle::Handle;
use zone_index::IndexedZone;

/// The gap in which the block of an unlocked handle lies.
pub fn own_gap(zone: &IndexedZone, handle: Handle) -> FoundGap
    requires full { IsTrue (is_full zone.now.heap.table handle) }
    requires unlocked { IsFalse (is_locked zone.now.heap.table handle) }
    requires settled { Settled zone.now }
    ensures { IsGapOf zone.now (own_gap handle (gaps zone.now.heap.table zone.now.heap.map)) result }
{
    let at = zone.linked().block_of(handle);
    let start = zone.gap_start(at);
    let end = zone.gap_end(at);
    FoundGap { start, end }
}

/// The gap right after the block of a pointer or a locked handle.
pub fn gap_after(zone: &IndexedZone, block: u32) -> FoundGap
    requires stays { IsTrue (stays zone.now.heap.table block) }
    requires settled { Settled zone.now }
    ensures { IsGapOf zone.now (gap_after block (gaps zone.now.heap.table zone.now.heap.map)) result }
{
    let at = zone.linked().address_of(block);
    prove!(zone_end(zone.linked()) <= u32::MAX);
    let start = at + zone.linked().entry_at(at).size;
    let end = zone.gap_end(start);
    FoundGap { start, end }
}
