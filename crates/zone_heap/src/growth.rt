//! Growth of the zone to its limit.

use crate::zone::{Zone, join};

impl Zone {
    ghost use Rattle.std.specs.Prelude.{◌≡◌, ◌+◌, ◌-◌};
    ghost use Rattle.mac_base.specs.HeadKind.{zone_header};
    ghost use Rattle.mac_base.specs.Heap.{grown};
    ghost use Rattle.mac_base.specs.ZoneMap.{total_size};
    ghost use Rattle.mac_base.specs.ZoneState.{with_heap};
    ghost use Rattle.linked_zone.specs.Loans.{KeepsLoans};

    /// How many bytes the zone may still grow by.
    pub fn growth_left(&self) -> u32
        ensures { result ≡ self.now.shape.limit - (zone_header + total_size self.now.heap.map) }
    {
        let spec = self.pointers.linked().spec();
        spec.limit() - spec.size()
    }

    /// Grows the zone to its limit: the bytes up to there are free, and joined to a free block right before them. Where
    /// the zone is as large as its limit nothing changes. It is what MaxApplZone does, and the first step of each
    /// request that finds no room (Inside Macintosh: Memory, "Setting Up the Application Heap").
    pub fn extend(&mut self)
        ensures zone { self.new ≡ with_heap (grown self.old.shape self.old.heap) self.old }
        ensures loans { KeepsLoans self.old self.new }
    {
        let spec = self.pointers.linked().spec();
        if spec.size() < spec.limit() {
            let end = spec.base() + spec.size();
            self.pointers.extend();
            join(&mut self.pointers, end);
        }
    }
}
