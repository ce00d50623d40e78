//! A new block for a handle, in place of the one that it has.

ghost use Rattle.std.specs.Prelude.{◌≡◌, ◌<◌, IsFalse, IsTrue, MatchResult};
ghost use Rattle.mac_base.specs.Gap.{gaps, some_gap_has};
ghost use Rattle.mac_base.specs.HandleTable.{is_handle, is_locked};
ghost use Rattle.mac_base.specs.declared.request.Request.TheVariants.{Replace};
ghost use Rattle.mac_base.specs.ZoneMap.{released};
ghost use Rattle.linked_zone.specs.Loans.{KeepsLoans};
ghost use Rattle.zone_heap.specs.Attempts.{CanAsk, IsRefused, IsServed, SoundZone};

use crate::fitting::some_gap_has;
use crate::place::open_lowest;
use crate::shortage::Shortage;
use crate::size::{gap_to_grow, grows_to};
use crate::zone::{cut, empty};
use mac_base::handle::Handle;
use mac_base::size::need_for;
use zone_index::IndexedZone;

/// Gives a handle a new block of `length` bytes, all of them zero. The old block, if there is one, counts as free while
/// room is looked for. Where there is none, nothing has changed: so the old block is released only once room is sure.
pub(crate) fn replace(zone: &mut IndexedZone, handle: Handle, length: u32) -> Result<(), Shortage>
    requires ready { CanAsk zone.old (Replace handle length) }
    requires sound { SoundZone zone.old }
    ensures attempt { MatchResult result (λ _. IsServed (Replace handle length) zone.old handle zone.new) (λ why. IsRefused (Replace handle length) zone.old why zone.new) }
    ensures loans { KeepsLoans zone.old zone.new }
    ensures sound { SoundZone zone.new }
{
    let needed = need_for(zone.linked().spec().heads(), length);
    if !has_room(zone, needed, handle) {
        return Err(Shortage::NoRoom);
    }
    empty(zone, handle);
    let Some(at) = open_lowest(zone, needed) else {
        unreachable!();
    };
    cut(zone, at, needed);
    zone.point(handle, at, length);
    Ok(())
}

/// Whether some gap has room for `needed` bytes, where the block of an unlocked handle counts as free, if it has one.
pub(crate) fn has_room(zone: &mut IndexedZone, needed: u32, handle: Handle) -> bool
    requires some { 0 < needed }
    requires sound { SoundZone zone.old }
    requires live { IsTrue (is_handle zone.old.heap.table handle) }
    requires unlocked { IsFalse (is_locked zone.old.heap.table handle) }
    ensures zone { zone.new ≡ zone.old }
    ensures room { result ≡ some_gap_has needed (gaps zone.old.heap.table (released handle zone.old.heap.map)) }
{
    if some_gap_has(zone, needed) {
        return true;
    }
    let block = handle.number();
    if !zone.linked().has_block(block) {
        return false;
    }
    let gap = gap_to_grow(zone, block);
    grows_to(zone, gap, block, needed)
}
