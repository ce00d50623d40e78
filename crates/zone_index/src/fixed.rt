//! Where gaps begin and end, found by marks of the fixed blocks.

ghost use Rattle.std.specs.Prelude.{◌≡◌, ◌+◌, IfNone, IfSome};
ghost use Rattle.mac_base.specs.Gap.{is_fixed};
ghost use Rattle.mac_base.specs.ZoneMap.{total_size};
ghost use Rattle.linked_zone.specs.Places.{SplitAt};
ghost use Rattle.zone_index.specs.Marks.{AreMarked};
ghost use Rattle.zone_index.specs.Runs.{FrontAt, RestAt};
ghost use Rattle.zone_index.specs.Search.{LastFixed, NoneBelow};

use crate::search::{Fixed, next_passing, passes_at};
use linked_zone::LinkedZone;
use mac_base::size::ZONE_HEADER;
use place_numbers::Bits;

/// The address of the last fixed block below an address, if there is one.
fn last_fixed(zone: &LinkedZone, marks: &Bits, end: u32) -> Option<u32>
    requires split { SplitAt zone.now end }
    requires marked { AreMarked is_fixed zone.now marks.now }
    ensures last { IfSome result (λ at. LastFixed zone.now end at) }
    ensures none { IfNone result (NoneBelow zone.now end) }
{
    let base = zone.spec().base();
    let mut place = (end - base) as usize / 4;
    while let Some(found) = marks.last_before(place) {
        let at = base + 4 * found as u32;
        if passes_at::<Fixed>(zone, at) {
            return Some(at);
        }
        place = found;
    }
    None
}

/// The address after the gap that has the blocks from an address on.
pub(crate) fn gap_end(zone: &LinkedZone, marks: &Bits, start: u32) -> u32
    requires rest { RestAt zone.now start }
    requires marked { AreMarked is_fixed zone.now marks.now }
    ensures { (rest : RestAt zone.now start) → result ≡ start + total_size rest.blocks }
{
    let spec = zone.spec();
    match next_passing::<Fixed>(zone, marks, start) {
        Some(at) => at,
        None => spec.base() + spec.size(),
    }
}

/// The address at which the gap begins that has the blocks before an address.
pub(crate) fn gap_start(zone: &LinkedZone, marks: &Bits, end: u32) -> u32
    requires front { FrontAt zone.now end }
    requires marked { AreMarked is_fixed zone.now marks.now }
    ensures { (front : FrontAt zone.now end) → result + total_size front.blocks ≡ end }
{
    let spec = zone.spec();
    match last_fixed(zone, marks, end) {
        Some(at) => at + zone.entry_at(at).size,
        None => spec.base() + ZONE_HEADER,
    }
}
