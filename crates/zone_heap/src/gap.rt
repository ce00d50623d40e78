//! A gap of a zone, and where the zone ends.

ghost use Rattle.std.specs.Prelude.{◌≡◌, ◌≤◌};
ghost use Rattle.mac_base.specs.ZoneMap.{address_after};

use linked_zone::LinkedZone;

/// A gap of a zone.
#[derive(Clone, Copy, Debug, PartialEq, Eq)]
pub struct FoundGap {
    /// The address at which the gap begins.
    pub start: u32,
    /// The address after it.
    pub end: u32,
}

/// The address after a zone's last block.
pub fn zone_end(zone: &LinkedZone) -> u32
    ensures address { result ≡ address_after zone.now.shape zone.now.heap.map }
    ensures reach { result ≤ 0xFFFF_FFFF }
{
    let spec = zone.spec();
    spec.base() + spec.size()
}
