//! Arrangements of runs: neighbouring blocks that may move.

ghost use Rattle.std.specs.Prelude.{◌≡◌, ◌+◌, ◌∷◌, IsTrue, MatchOption};
ghost use Rattle.mac_base.specs.Arrangement.{down, up, used_blocks};
ghost use Rattle.mac_base.specs.ZoneMap.{total_size};
ghost use Rattle.linked_zone.specs.Fit.{HasSizes};
ghost use Rattle.linked_zone.specs.Changes.{carried_up};
ghost use Rattle.linked_zone.specs.Places.{ParcelAt, none_free};
ghost use Rattle.zone_index.specs.Runs.{none_fixed};
ghost use Rattle.zone_heap.specs.Runs.{RunAt, UsedUpTo, UsedFrom, LastFree, arranged};

use linked_zone::LinkedZone;
use zone_index::IndexedZone;

/// Moves the blocks of a run down, so that its free bytes are above them in one block. Blocks in use that are
/// neighbours are moved together, and the bytes of each once. Gives the address at which the free bytes begin.
pub(crate) fn press_down(zone: &mut IndexedZone, start: u32, end: u32) -> u32
    requires run { RunAt zone.old start end }
    requires sizes { HasSizes zone.old }
    ensures zone { (run : RunAt zone.old start end) → zone.new ≡ arranged zone.old run (down run.blocks) }
    ensures free { (run : RunAt zone.old start end) → result ≡ start + total_size (used_blocks run.blocks) }
{
    let mut free = start;
    let mut next = start;
    while next < end {
        let after = used_end(zone.linked(), next, end);
        if next < after {
            if free < next {
                zone.carry(free, after);
            }
            free += after - next;
            next = after;
        } else {
            let size = zone.linked().entry_at(next).size;
            if free < next {
                zone.merge(free);
            }
            next += size;
        }
    }
    free
}

/// The address after the blocks in use with which a run begins. No header is read.
pub(crate) fn used_end(zone: &LinkedZone, start: u32, end: u32) -> u32
    requires { RunAt zone.now start end }
    ensures { (run : RunAt zone.now start end) → UsedUpTo run.blocks start result }
{
    match zone.next_free(start) {
        Some(at) => at.min(end),
        None => end,
    }
}

/// Moves the blocks of a run up, so that its free bytes are below them in one block. Blocks in use that are neighbours
/// are moved together, and the bytes of each once.
pub(crate) fn press_up(zone: &mut IndexedZone, start: u32, end: u32)
    requires run { RunAt zone.old start end }
    requires sizes { HasSizes zone.old }
    ensures { (run : RunAt zone.old start end) → zone.new ≡ arranged zone.old run (up run.blocks) }
{
    let Some(mut low) = last_free(zone.linked(), start, end) else {
        return;
    };
    while start < low {
        let bottom = used_start(zone.linked(), start, low);
        if bottom < low {
            zone.sink(bottom, low);
            low = bottom;
        } else {
            let Some(below) = zone.linked().before(low) else {
                unreachable!();
            };
            zone.merge(below);
            low = below;
        }
    }
}

/// The last free block of a run, if there is one. No header is read.
fn last_free(zone: &LinkedZone, start: u32, end: u32) -> Option<u32>
    requires run { RunAt zone.now start end }
    requires sizes { HasSizes zone.now }
    ensures { (run : RunAt zone.now start end) → MatchOption result (IsTrue (none_free run.blocks)) (λ at. LastFree run.blocks start at) }
{
    let at = zone.last_free(end)?;
    if start <= at { Some(at) } else { None }
}

/// The address of the blocks in use with which a run ends. The only header that is read is that of the free block below
/// them.
fn used_start(zone: &LinkedZone, start: u32, end: u32) -> u32
    requires run { RunAt zone.now start end }
    requires sizes { HasSizes zone.now }
    ensures { (run : RunAt zone.now start end) → UsedFrom run.blocks start result }
{
    match last_free(zone, start, end) {
        Some(at) => at + zone.entry_at(at).size,
        None => start,
    }
}

/// Moves a block up past the blocks between it and an address. Gives the address at which it is then. The
/// bytes turn in one rotation.
pub(crate) fn carry_up(zone: &mut IndexedZone, start: u32, end: u32) -> u32
    requires parcel { ParcelAt zone.old start end }
    requires loose { (parcel : ParcelAt zone.old start end) → IsTrue (none_fixed zone.old.heap.table (parcel.here ∷ parcel.blocks)) }
    requires sizes { HasSizes zone.old }
    ensures zone { (parcel : ParcelAt zone.old start end) → zone.new ≡ carried_up zone.old parcel }
    ensures address { (parcel : ParcelAt zone.old start end) → result + parcel.here.size ≡ end }
{
    let size = zone.linked().entry_at(start).size;
    zone.carry(start, end);
    end - size
}
