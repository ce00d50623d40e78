//! Arrangements of gaps.

ghost use Rattle.std.specs.Prelude.{◌≡◌, ◌++◌, IsTrue, IsFalse};
ghost use Rattle.mac_base.specs.Arrangement.{down, up, used_blocks};
ghost use Rattle.mac_base.specs.Compaction.{all_down, moved_high};
ghost use Rattle.mac_base.specs.HandleTable.{is_full, is_locked};
ghost use Rattle.mac_base.specs.ZoneMap.{address_after};
ghost use Rattle.linked_zone.specs.Changes.{with_map};
ghost use Rattle.linked_zone.specs.Fit.{HasSizes};
ghost use Rattle.linked_zone.specs.Loans.{KeepsLoans};
ghost use Rattle.zone_heap.specs.Gaps.{Settled, AroundAt, GapBetween, GapFrom, with_gap, opened_after};
ghost use Rattle.zone_heap.specs.Runs.{PackedAt, topped};

use crate::gap::zone_end;
use crate::run::{carry_up, press_down, press_up};
use mac_base::handle::Handle;
use mac_base::size::ZONE_HEADER;
use zone_index::IndexedZone;

/// How many gaps whose blocks can be moved down are looked for one by one, before all gaps are gone through.
const FEW_GAPS: u32 = 256;

/// Arranges a gap down, given the address of its first free block: its blocks are moved down, and its free bytes are
/// above them in one block. The bytes of each block are moved once. Gives the address at which the free bytes begin.
pub fn squeeze_down(zone: &mut IndexedZone, at: u32) -> u32
    requires gap { GapFrom zone.old at }
    requires settled { Settled zone.old }
    ensures zone { (from : GapFrom zone.old at) → zone.new ≡ with_gap zone.old from.gap (down from.gap.blocks) }
    ensures free { (from : GapFrom zone.old at) → result ≡ address_after zone.old.shape (from.gap.before ++ used_blocks from.gap.blocks) }
    ensures loans { KeepsLoans zone.old zone.new }
    ensures settled { Settled zone.new }
{
    let end = zone.gap_end(at);
    press_down(zone, at, end)
}

/// Arranges the gap that begins at an address and ends at another up: its blocks are moved up, and its free bytes are
/// below them in one block. The bytes of each block are moved once.
pub fn squeeze_up(zone: &mut IndexedZone, start: u32, end: u32)
    requires gap { GapBetween zone.old start end }
    requires settled { Settled zone.old }
    ensures zone { (gap : GapBetween zone.old start end) → zone.new ≡ with_gap zone.old gap.at.gap (up gap.at.gap.blocks) }
    ensures loans { KeepsLoans zone.old zone.new }
    ensures settled { Settled zone.new }
{
    press_up(zone, start, end);
}

/// Arranges the gap of an unlocked handle open at it: its block and those below are moved down, those above it up, and
/// the gap's free bytes are right after it in one block.
pub fn open_after(zone: &mut IndexedZone, handle: Handle)
    requires full { IsTrue (is_full zone.old.heap.table handle) }
    requires unlocked { IsFalse (is_locked zone.old.heap.table handle) }
    requires settled { Settled zone.old }
    ensures zone { zone.new ≡ with_map (opened_after zone.old.heap.table handle zone.old.heap.map) zone.old }
    ensures loans { KeepsLoans zone.old zone.new }
    ensures settled { Settled zone.new }
{
    let at = zone.linked().block_of(handle);
    let start = zone.gap_start(at);
    let end = zone.gap_end(at);
    let middle = at + zone.linked().entry_at(at).size;
    let free = press_down(zone, start, middle);
    press_up(zone, free, end);
}

/// Moves the block of an unlocked handle to the high end of its gap: the others are moved down, and the gap's free
/// bytes are below it in one block. No free byte is moved. The bytes of a block below the handle's are moved once at
/// most, those of one above it twice, and its own three times.
pub fn raise(zone: &mut IndexedZone, handle: Handle)
    requires full { IsTrue (is_full zone.old.heap.table handle) }
    requires unlocked { IsFalse (is_locked zone.old.heap.table handle) }
    requires settled { Settled zone.old }
    ensures zone { zone.new ≡ with_map (moved_high zone.old.heap.table handle zone.old.heap.map) zone.old }
    ensures loans { KeepsLoans zone.old zone.new }
    ensures settled { Settled zone.new }
{
    let at = zone.linked().block_of(handle);
    let start = zone.gap_start(at);
    let end = zone.gap_end(at);
    let size = zone.linked().entry_at(at).size;
    let below = press_down(zone, start, at + size);
    let free = press_down(zone, below, end);
    put_on_top(zone, below - size, free, end);
}

/// Moves a block up past the blocks after it, which end at `free`, and past the free bytes after those, which end at
/// `end`. The bytes of the blocks turn in one rotation, and then the block alone slides over the free bytes.
fn put_on_top(zone: &mut IndexedZone, at: u32, free: u32, end: u32)
    requires packed { PackedAt zone.old at free end }
    requires sizes { HasSizes zone.old }
    ensures { (packed : PackedAt zone.old at free end) → zone.new ≡ topped zone.old packed }
{
    let high = carry_up(zone, at, free);
    if free < end {
        zone.sink(high, free);
    }
}

/// Arranges all gaps down. Where few of them have blocks that can be moved down, only those are gone through.
pub fn squeeze_all_down(zone: &mut IndexedZone)
    requires { Settled zone.old }
    ensures zone { zone.new ≡ with_map (all_down zone.old.heap.table zone.old.heap.map) zone.old }
    ensures loans { KeepsLoans zone.old zone.new }
    ensures settled { Settled zone.new }
{
    'gaps: for _ in 0..FEW_GAPS {
        let Some(at) = zone.first_out_of_order() else {
            return;
        };
        squeeze_around(zone, at);
    }
    press_all_down(zone);
}

/// Arranges the gap around an address down.
fn squeeze_around(zone: &mut IndexedZone, at: u32)
    requires around { AroundAt zone.old at }
    requires settled { Settled zone.old }
    ensures zone { (around : AroundAt zone.old at) → zone.new ≡ with_map (around.before ++ (down (around.lower ++ around.upper) ++ around.after)) zone.old }
    ensures loans { KeepsLoans zone.old zone.new }
    ensures settled { Settled zone.new }
{
    let start = zone.gap_start(at);
    let end = zone.gap_end(at);
    press_down(zone, start, end);
}

/// Arranges all gaps down, one after another.
fn press_all_down(zone: &mut IndexedZone)
    requires { Settled zone.old }
    ensures zone { zone.new ≡ with_map (all_down zone.old.heap.table zone.old.heap.map) zone.old }
    ensures loans { KeepsLoans zone.old zone.new }
    ensures settled { Settled zone.new }
{
    let top = zone_end(zone.linked());
    let mut at = zone.linked().spec().base() + ZONE_HEADER;
    while at < top {
        let end = zone.gap_end(at);
        press_down(zone, at, end);
        at = end;
        if end < top {
            at += zone.linked().entry_at(end).size;
        }
    }
}
