//! New blocks, each where its definition places it.

ghost use Rattle.std.specs.Prelude.{◌≤◌, MatchResult, ◌<◌, MatchOption};
ghost use Rattle.mac_base.specs.declared.request.Request.TheVariants.{NewBlock, NewEmpty, NewPointer, NewMaster, Reserve};
ghost use Rattle.linked_zone.specs.Loans.{KeepsLoans};
ghost use Rattle.zone_heap.specs.Attempts.{Attempts, IsServed, IsRefused, SoundZone, most_asked};
ghost use Rattle.zone_heap.specs.Room.{IsCleared, IsOpened, LacksRoom};

use crate::shortage::Shortage;
use crate::zone::cut;
use crate::{squeeze_down, squeeze_up};
use mac_base::handle::{Handle, Ptr};
use mac_base::size::{MASTER_LENGTH, need_for};
use zone_index::IndexedZone;

/// A new handle with `length` bytes of zero: in the lowest free block that has room, or else in the lowest gap with
/// room, arranged down.
pub(crate) fn new_block(zone: &mut IndexedZone, length: u32) -> Result<Handle, Shortage>
    requires size { length ≤ most_asked }
    requires sound { SoundZone zone.old }
    ensures attempt { Attempts (NewBlock length) zone.old result zone.new }
    ensures loans { KeepsLoans zone.old zone.new }
    ensures sound { SoundZone zone.new }
{
    let linked = zone.linked();
    if !linked.has_slot() {
        return Err(Shortage::NoSlot);
    }
    let needed = need_for(linked.spec().heads(), length);
    let Some(at) = open_lowest(zone, needed) else {
        return Err(Shortage::NoRoom);
    };
    let Some(handle) = zone.take() else {
        unreachable!();
    };
    cut(zone, at, needed);
    zone.point(handle, at, length);
    Ok(handle)
}

/// A new empty handle. There is none exactly where no slot is free.
pub(crate) fn new_empty(zone: &mut IndexedZone) -> Result<Handle, Shortage>
    requires sound { SoundZone zone.old }
    ensures attempt { Attempts NewEmpty zone.old result zone.new }
    ensures loans { KeepsLoans zone.old zone.new }
    ensures sound { SoundZone zone.new }
{
    zone.take().ok_or(Shortage::NoSlot)
}

/// A new pointer to `length` bytes of zero, at the start of the lowest gap with room.
pub(crate) fn new_pointer(zone: &mut IndexedZone, length: u32) -> Result<Ptr, Shortage>
    requires size { length ≤ most_asked }
    requires sound { SoundZone zone.old }
    ensures attempt { Attempts (NewPointer length) zone.old result zone.new }
    ensures loans { KeepsLoans zone.old zone.new }
    ensures sound { SoundZone zone.new }
{
    let needed = need_for(zone.linked().spec().heads(), length);
    let Some(at) = clear_lowest(zone, needed) else {
        return Err(Shortage::NoRoom);
    };
    cut(zone, at, needed);
    Ok(zone.fix(at, length))
}

/// A new master block, at the start of the lowest gap with room. Gives the address of its first slot.
pub(crate) fn new_master(zone: &mut IndexedZone) -> Result<u32, Shortage>
    requires sound { SoundZone zone.old }
    ensures attempt { Attempts NewMaster zone.old result zone.new }
    ensures loans { KeepsLoans zone.old zone.new }
    ensures sound { SoundZone zone.new }
{
    let spec = zone.linked().spec();
    prove!(spec.base() + spec.limit() <= u32::MAX);
    let heads = spec.heads();
    let needed = need_for(heads, MASTER_LENGTH);
    let Some(at) = clear_lowest(zone, needed) else {
        return Err(Shortage::NoRoom);
    };
    cut(zone, at, needed);
    zone.build_master(at);
    Ok(at + heads.head_size())
}

/// Room for a pointer to `length` bytes, at the start of the lowest gap with room. It stays free.
pub(crate) fn reserve(zone: &mut IndexedZone, length: u32) -> Result<(), Shortage>
    requires size { length ≤ most_asked }
    requires sound { SoundZone zone.old }
    ensures attempt { MatchResult result (λ _. IsServed (Reserve length) zone.old 0 zone.new) (λ why. IsRefused (Reserve length) zone.old why zone.new) }
    ensures loans { KeepsLoans zone.old zone.new }
    ensures sound { SoundZone zone.new }
{
    let needed = need_for(zone.linked().spec().heads(), length);
    match clear_lowest(zone, needed) {
        Some(_) => Ok(()),
        None => Err(Shortage::NoRoom),
    }
}

/// The address of a free block of at least `needed` bytes for a relocatable block: the lowest, or where there is none
/// that of the lowest gap with room, arranged down.
pub(crate) fn open_lowest(zone: &mut IndexedZone, needed: u32) -> Option<u32>
    requires some { 0 < needed }
    requires sound { SoundZone zone.old }
    ensures room { MatchOption result (LacksRoom needed zone.old zone.new) (λ at. IsOpened zone.old needed at zone.new) }
    ensures loans { KeepsLoans zone.old zone.new }
    ensures sound { SoundZone zone.new }
{
    if let Some(at) = zone.lowest_free(needed) {
        return Some(at);
    }
    let at = zone.lowest_gap(needed)?;
    Some(squeeze_down(zone, at))
}

/// The start of the lowest gap with room for `needed` bytes. The gap begins with so many free bytes: it is arranged up
/// where it doesn't yet.
fn clear_lowest(zone: &mut IndexedZone, needed: u32) -> Option<u32>
    requires some { 0 < needed }
    requires sound { SoundZone zone.old }
    ensures room { MatchOption result (LacksRoom needed zone.old zone.new) (λ at. IsCleared zone.old needed at zone.new) }
    ensures loans { KeepsLoans zone.old zone.new }
    ensures sound { SoundZone zone.new }
{
    let at = zone.lowest_gap(needed)?;
    let start = zone.gap_start(at);
    if start < at || zone.linked().entry_at(at).size < needed {
        let end = zone.gap_end(at);
        squeeze_up(zone, start, end);
    }
    Some(start)
}
