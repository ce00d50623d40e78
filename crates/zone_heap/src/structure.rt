//! A zone that wakes in bytes with the same structure, and falls asleep again.

use crate::zone::Zone;
use linked_zone::LinkedZone;
use raw_region::Region;

impl Zone {
    ghost use Rattle.std.specs.Prelude.{◌≡◌, [], IfNone, IfSome, None};
    ghost use Rattle.mac_base.specs.Sound.{Sound};
    ghost use Rattle.mac_base.specs.ZoneState.{woken_in};
    ghost use Rattle.linked_zone.specs.Sleeping.{FallsAsleep};
    ghost use Rattle.linked_zone.specs.Structure.{HasStructure, IsIn, SameFlags, shown};

    /// The zone without its index, to be read. What it shows is a sound heap.
    pub fn linked(&self) -> &LinkedZone
        ensures zone { result.now ≡ self.now }
        ensures sound { Sound self.now.shape self.now.heap }
    {
        self.pointers.linked()
    }

    /// Wakes the zone, which sleeps, in a region with the same structure and the same flags: it is in this region's
    /// bytes from then on. The region that it was in becomes the record of its structure.
    pub fn wake(&mut self, region: Region)
        requires nothing_lent { self.old.heap.table.lent ≡ [] }
        requires asleep { self.old.memory.kept ≡ None }
        requires whole { region.lent ≡ [] }
        requires same { HasStructure self.old region.bytes }
        requires flags { SameFlags self.old region.bytes }
        ensures { self.new ≡ record (shown self.old region.bytes) { memory = woken_in self.old.memory region.name } }
    {
        self.pointers.wake(region);
    }

    /// Puts the zone to sleep: it is in its record from then on. Returns the region that it was in, or None where it
    /// isn't awake, and nothing has changed. What the zone showed is a sound heap.
    pub fn sleep(&mut self) -> Option<Region>
        requires nothing_lent { self.old.heap.table.lent ≡ [] }
        ensures asleep { IfSome result (λ region. FallsAsleep self.old self.new) }
        ensures name { IfSome result (λ region. region.name ≡ self.old.memory.region) }
        ensures bytes { IfSome result (λ region. IsIn self.old region.bytes) }
        ensures lent { IfSome result (λ region. region.lent ≡ []) }
        ensures none { IfNone result ((self.old.memory.kept ≡ None) × (self.new ≡ self.old)) }
        ensures sound { Sound self.old.shape self.old.heap }
    {
        self.pointers.sleep()
    }
}
