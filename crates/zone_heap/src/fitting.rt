//! Whether a request fits.

ghost use Rattle.std.specs.Prelude.{◌≡◌, ◌<◌, IsTrue};
ghost use Rattle.mac_base.specs.Gap.{gaps, some_gap_has};
ghost use Rattle.mac_base.specs.HandleTable.{has_block};
ghost use Rattle.mac_base.specs.Request.{can_grow, fits};
ghost use Rattle.zone_heap.specs.Attempts.{CanAsk, SoundZone};

use crate::replace::has_room;
use crate::size::{gap_to_grow, grows_to, stays};
use mac_base::request::Request;
use mac_base::size::{MASTER_LENGTH, need_for};
use zone_index::IndexedZone;

/// Whether a request fits in the zone as it is, by moving blocks alone. The block of a handle that is to be replaced
/// counts as free.
pub(crate) fn fits(zone: &mut IndexedZone, request: &Request) -> bool
    requires sound { SoundZone zone.old }
    requires ready { CanAsk zone.old request.now }
    ensures zone { zone.new ≡ zone.old }
    ensures fits { result ≡ fits zone.old.shape zone.old.heap.table request.now zone.old.heap.map }
{
    let heads = zone.linked().spec().heads();
    match *request {
        Request::NewEmpty => true,
        Request::NewBlock(length) | Request::NewPointer(length) | Request::Reserve(length) => {
            some_gap_has(zone, need_for(heads, length))
        }
        Request::NewMaster => some_gap_has(zone, need_for(heads, MASTER_LENGTH)),
        Request::Resize(block, length) => can_grow(zone, block, need_for(heads, length)),
        Request::Replace(handle, length) => has_room(zone, need_for(heads, length), handle),
    }
}

/// Whether a block can be made `needed` bytes long: with the free bytes of the gap in which it can grow, or in a new
/// place.
fn can_grow(zone: &mut IndexedZone, block: u32, needed: u32) -> bool
    requires some { 0 < needed }
    requires sound { SoundZone zone.old }
    requires block { IsTrue (has_block zone.old.heap.table block) }
    ensures zone { zone.new ≡ zone.old }
    ensures grows { result ≡ can_grow zone.old.heap.table block needed zone.old.heap.map }
{
    let gap = gap_to_grow(zone, block);
    if grows_to(zone, gap, block, needed) {
        return true;
    }
    !stays(zone.linked(), block) && some_gap_has(zone, needed)
}

/// Whether some gap has room for `needed` bytes.
pub(crate) fn some_gap_has(zone: &mut IndexedZone, needed: u32) -> bool
    requires some { 0 < needed }
    ensures zone { zone.new ≡ zone.old }
    ensures room { result ≡ some_gap_has needed (gaps zone.old.heap.table zone.old.heap.map) }
{
    zone.lowest_gap(needed).is_some()
}
