//! Changes of marks.

ghost use Rattle.std.specs.Prelude.{◌≡◌, ℕ, ◌+◌, ◌/◌, ◌≤◌, ◌<◌, length, set, slice_index, IsFalse, if◌then◌else◌};
ghost use Rattle.mac_base.specs.BlockReport.{block_flags};
ghost use Rattle.mac_base.specs.Gap.{is_fixed};
ghost use Rattle.mac_base.specs.HandleTable.{HandleTable};
ghost use Rattle.zone_index.specs.Marks.{AreMarked};
ghost use Rattle.zone_index.specs.Purging.{may_go};
ghost use Rattle.zone_index.specs.Turning.{IsCarried, IsSunk};

use crate::search::{BlockTest, Fixed, Going};
use linked_zone::LinkedZone;
use mac_base::block::{Flags, Kind};
use mac_base::size::ZONE_HEADER;
use place_numbers::Bits;

/// Marks a place if the block there passes a test: one of this kind, whose owner has these flags. Else no mark changes.
fn mark<T: BlockTest>(marks: &mut Bits, place: usize, kind: Kind, flags: Flags)
    requires { place < length marks.old }
    ensures { (t : HandleTable) → flags ≡ block_flags t kind
        → marks.new ≡ (if T.test t kind then set marks.old place 1 else marks.old) }
{
    if T::passes(kind, flags) {
        marks.set(place, true);
    }
}

/// Marks each fixed block of a zone, and each that may be purged. Each header is read once.
pub(crate) fn mark_blocks(zone: &LinkedZone, marks: &mut Bits, purgeable: &mut Bits)
    requires fixed { length marks.old ≡ zone.now.shape.limit / 4 + 1 }
    requires purgeable { length purgeable.old ≡ zone.now.shape.limit / 4 + 1 }
    ensures fixed { AreMarked is_fixed zone.now marks.new }
    ensures purgeable { AreMarked may_go zone.now purgeable.new }
{
    let spec = zone.spec();
    let base = spec.base();
    let end = base + spec.size();
    let mut at = base + ZONE_HEADER;
    while at < end {
        let (entry, flags) = zone.entry_and_flags(at);
        let place = (at - base) as usize / 4;
        mark::<Fixed>(marks, place, entry.kind, flags);
        mark::<Going>(purgeable, place, entry.kind, flags);
        at += entry.size;
    }
}

/// Whether there is a mark from one place on up to another.
fn any_marked(marks: &Bits, first: usize, end: usize) -> bool
    requires { end ≤ length marks.now }
    ensures { IsFalse result → (j : ℕ) → first ≤ j → j < end → slice_index marks.now j ≡ 0 }
{
    marks.first_between(first, end).is_some()
}

/// The mark at a place goes after those of `count` places that lie `step` places further on, which move down.
pub(crate) fn carry(marks: &mut Bits, first: usize, step: usize, count: usize)
    requires some { 0 < step }
    requires inside { first + step + count ≤ length marks.old }
    ensures { IsCarried marks.old marks.new first step count }
{
    let _len = marks.len();
    if any_marked(marks, first, first + step + count) {
        let mark = marks.get(first);
        marks.shift_down(first + step, first, count);
        marks.set(first + count, mark);
    }
}

/// The mark after `count` places goes before theirs, which move up by `step` places.
pub(crate) fn sink(marks: &mut Bits, first: usize, step: usize, count: usize)
    requires some { 0 < step }
    requires inside { first + step + count ≤ length marks.old }
    ensures { IsSunk marks.old marks.new first step count }
{
    let _len = marks.len();
    if any_marked(marks, first, first + step + count) {
        let mark = marks.get(first + count);
        marks.shift_up(first, first + step, count);
        marks.set(first, mark);
    }
}
