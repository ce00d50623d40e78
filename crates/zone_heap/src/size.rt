//! Another size for a block: where it is, or where others make way for it.

ghost use Rattle.std.specs.Prelude.{◌≡◌, ◌+◌, ◌<◌, ◌≤◌, IsTrue, IsFalse, MatchResult, Some, None, if◌then◌else◌, is_some, nat_le};
ghost use Rattle.mac_base.specs.declared.request.Request.TheVariants.{Resize};
ghost use Rattle.mac_base.specs.HandleTable.{has_block, is_full, is_lent, is_locked};
ghost use Rattle.mac_base.specs.HeadKind.{need};
ghost use Rattle.mac_base.specs.Request.{gap_to_grow, room_of, size_of, stays};
ghost use Rattle.mac_base.specs.Serve.{resized_in_gap, resized_in_place};
ghost use Rattle.linked_zone.specs.Changes.{with_map};
ghost use Rattle.linked_zone.specs.Loans.{KeepsLoans};
ghost use Rattle.zone_heap.specs.Gaps.{IsGapOf};
ghost use Rattle.zone_heap.specs.Attempts.{CanAsk, IsRefused, IsServed, SoundZone, most_asked};
ghost use Rattle.zone_heap.specs.Placed.{resized_there};
ghost use Rattle.zone_heap.specs.Resized.{resized_away, way_made};
ghost use Rattle.zone_heap.specs.declared.shortage.Shortage.TheVariants.{NoRoom};

use crate::place::open_lowest;
use crate::shortage::Shortage;
use crate::zone::{cut, free_after, front, join, shrink};
use crate::{FoundGap, gap_after, open_after, own_gap, squeeze_up};
use linked_zone::LinkedZone;
use mac_base::handle::{Handle, Ptr};
use mac_base::size::need_for;
use mac_base::zone_spec::LARGEST_LIMIT;
use zone_index::IndexedZone;

/// Gives the block of a handle or a pointer `length` bytes: where it is; or else once the other blocks of the gap in
/// which it can grow have made way for it; or else, if it may move, in a new place. Bytes that were in it stay, as far
/// as they go, and those that are added are zero. Where it doesn't fit, nothing has changed.
pub(crate) fn resize_block(zone: &mut IndexedZone, block: u32, length: u32) -> Result<(), Shortage>
    requires ready { CanAsk zone.old (Resize block length) }
    requires sound { SoundZone zone.old }
    ensures attempt { MatchResult result (λ _. IsServed (Resize block length) zone.old block zone.new) (λ why. IsRefused (Resize block length) zone.old why zone.new) }
    ensures loans { KeepsLoans zone.old zone.new }
    ensures sound { SoundZone zone.new }
{
    if fits_there(zone.linked(), block, length) || make_way(zone, block, length) {
        resize_there(zone, block, length);
        return Ok(());
    }
    if stays(zone.linked(), block) {
        return Err(Shortage::NoRoom);
    }
    resize_elsewhere(zone, Handle::new(block), length)
}

/// Whether a block stays where it is: that of a pointer or of a locked handle.
pub(crate) fn stays(zone: &LinkedZone, block: u32) -> bool
    requires { IsTrue (has_block zone.now.heap.table block) }
    ensures { result ≡ stays zone.now.heap.table block }
{
    zone.is_pointer(Ptr::new(block)) || zone.flags(Handle::new(block)).lock
}

/// Whether a block can have `length` bytes where it is, with those of the free block right after it.
fn fits_there(zone: &LinkedZone, block: u32, length: u32) -> bool
    requires sound { SoundZone zone.now }
    requires block { IsTrue (has_block zone.now.heap.table block) }
    requires size { length ≤ most_asked }
    ensures { result ≡ is_some (resized_in_place zone.now.shape (need zone.now.shape.heads length) block zone.now.heap.map) }
{
    let spec = zone.spec();
    prove!(spec.base() + spec.limit() <= u32::MAX);
    let at = zone.address_of(block);
    need_for(spec.heads(), length) <= zone.entry_at(at).size + free_after(zone, at)
}

/// Gives a block `length` bytes where it is: its own, or with them those of the free block right after it. What is
/// over is free where it makes a block. Bytes that were in it stay, as far as they go, and those that are added are
/// zero.
fn resize_there(zone: &mut IndexedZone, block: u32, length: u32)
    requires sound { SoundZone zone.old }
    requires block { IsTrue (has_block zone.old.heap.table block) }
    requires here { IsFalse (is_lent zone.old.heap.table block) }
    requires size { length ≤ most_asked }
    requires fits { IsTrue (is_some (resized_in_place zone.old.shape (need zone.old.shape.heads length) block zone.old.heap.map)) }
    ensures heap { resized_there zone.old.shape block length zone.old.heap ≡ Some zone.new.heap }
    ensures shape { zone.new.shape ≡ zone.old.shape }
    ensures loans { KeepsLoans zone.old zone.new }
    ensures sound { SoundZone zone.new }
{
    let linked = zone.linked();
    let needed = need_for(linked.spec().heads(), length);
    let at = linked.address_of(block);
    let size = linked.entry_at(at).size;
    if needed <= size {
        shrink(zone, block, needed, length);
    } else {
        let spec = linked.spec();
        prove!(spec.limit() <= LARGEST_LIMIT);
        let whole = size + free_after(linked, at);
        let taken = front(linked, whole, needed);
        zone.grow(block, taken, length);
    }
}

/// The gap in which a block can grow without a new place.
pub(crate) fn gap_to_grow(zone: &IndexedZone, block: u32) -> FoundGap
    requires sound { SoundZone zone.now }
    requires block { IsTrue (has_block zone.now.heap.table block) }
    ensures { IsGapOf zone.now (gap_to_grow zone.now.heap.table block zone.now.heap.map) result }
{
    if stays(zone.linked(), block) {
        gap_after(zone, block)
    } else {
        own_gap(zone, Handle::new(block))
    }
}

/// Whether a block can be `needed` bytes long with the free bytes of the gap in which it can grow.
pub(crate) fn grows_to(zone: &mut IndexedZone, gap: FoundGap, block: u32, needed: u32) -> bool
    requires sound { SoundZone zone.old }
    requires block { IsTrue (has_block zone.old.heap.table block) }
    requires gap { IsGapOf zone.old (gap_to_grow zone.old.heap.table block zone.old.heap.map) gap }
    ensures zone { zone.new ≡ zone.old }
    ensures grows { result ≡ nat_le needed (size_of block zone.old.heap.map + room_of (gap_to_grow zone.old.heap.table block zone.old.heap.map)) }
{
    let linked = zone.linked();
    let size = linked.entry_at(linked.address_of(block)).size;
    if needed <= size {
        return true;
    }
    zone.has_room_at(gap.start, needed - size)
}

/// Lets the other blocks of its gap make way for a block, so that the free bytes of the gap are right after it,
/// where it can then have `length` bytes. Else nothing has changed.
fn make_way(zone: &mut IndexedZone, block: u32, length: u32) -> bool
    requires sound { SoundZone zone.old }
    requires block { IsTrue (has_block zone.old.heap.table block) }
    requires size { length ≤ most_asked }
    ensures fits { result ≡ is_some (resized_in_gap zone.old.shape zone.old.heap.table (need zone.old.shape.heads length) block zone.old.heap.map) }
    ensures zone { zone.new ≡ (if result then with_map (way_made zone.old.heap.table block zone.old.heap.map) zone.old else zone.old) }
    ensures loans { KeepsLoans zone.old zone.new }
    ensures sound { SoundZone zone.new }
{
    let gap = gap_to_grow(zone, block);
    let needed = need_for(zone.linked().spec().heads(), length);
    if !grows_to(zone, gap, block, needed) {
        return false;
    }
    if stays(zone.linked(), block) {
        squeeze_up(zone, gap.start, gap.end);
    } else {
        open_after(zone, Handle::new(block));
    }
    true
}

/// Gives an unlocked handle's block `length` bytes in a new place. The old block is free then, and joined to its free
/// neighbours. Where there is no place, nothing has changed.
fn resize_elsewhere(zone: &mut IndexedZone, handle: Handle, length: u32) -> Result<(), Shortage>
    requires sound { SoundZone zone.old }
    requires full { IsTrue (is_full zone.old.heap.table handle) }
    requires unlocked { IsFalse (is_locked zone.old.heap.table handle) }
    requires here { IsFalse (is_lent zone.old.heap.table handle) }
    requires size { length ≤ most_asked }
    ensures resized { MatchResult result
        (λ _. (resized_away zone.old.shape handle length zone.old.heap ≡ Some zone.new.heap) × (zone.new.shape ≡ zone.old.shape))
        (λ why. (why ≡ NoRoom) × (resized_away zone.old.shape handle length zone.old.heap ≡ None) × (zone.new ≡ zone.old)) }
    ensures loans { KeepsLoans zone.old zone.new }
    ensures sound { SoundZone zone.new }
{
    let needed = need_for(zone.linked().spec().heads(), length);
    let Some(at) = open_lowest(zone, needed) else {
        return Err(Shortage::NoRoom);
    };
    cut(zone, at, needed);
    let old = zone.linked().block_of(handle);
    zone.relocate(handle, at, length);
    join(zone, old);
    Ok(())
}
