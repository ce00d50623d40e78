//! A zone's structure compared with other bytes and written to them, and a zone that wakes in bytes with the same
//! structure and falls asleep again.

use crate::zone::LinkedZone;
use mac_base::block::Flags;
use mac_base::handle::Handle;
use raw_region::Region;
use zone_records::{Agreement, Part, Written};

impl LinkedZone {
    ghost use Rattle.std.specs.Prelude.{◌≡◌, [], length, is_some, IfSome, IfNone, None};
    ghost use Rattle.mac_base.specs.ZoneState.{woken_in};
    ghost use Rattle.linked_zone.specs.Faults.{IsFirstFault};
    ghost use Rattle.linked_zone.specs.Parts.{ContentsStay, OthersStay};
    ghost use Rattle.linked_zone.specs.Sleeping.{FallsAsleep};
    ghost use Rattle.linked_zone.specs.Structure.{Agrees, FirstChanged, HasStructure, IsIn, NoneChanged, SameFlags, shown};
    ghost use Rattle.linked_zone.specs.Written.{DifferIn};

    /// How bytes agree with the zone.
    pub fn agreement(&self, bytes: &[u8]) -> Agreement
        ensures { Agrees self.now bytes.now result }
    {
        self.records.agreement(bytes)
    }

    /// The first handle from a number on of which bytes say other flags in its master pointer, and these flags.
    pub fn changed_flags(&self, bytes: &[u8], from: u32) -> Option<(Handle, Flags)>
        requires { HasStructure self.now bytes.now }
        ensures first { IfSome result (λ found. FirstChanged self.now bytes.now from found.0 found.1) }
        ensures none { IfNone result (NoneChanged self.now bytes.now from) }
    {
        let (at, flags) = self.records.changed_slot(bytes, from)?;
        Some((Handle::new(at), flags))
    }

    /// How bytes agree with the zone, where they differ only in these ranges from bytes with the zone's structure and
    /// flags. No other byte is looked at.
    pub fn agreement_in(&self, bytes: &[u8], written: &[Written]) -> Agreement
        requires told { DifferIn self.now bytes.now written.now }
        ensures { Agrees self.now bytes.now result }
    {
        self.records.agreement_in(bytes, written)
    }

    /// Whether the zone is awake: in bytes of others, with a record of its structure kept elsewhere.
    pub fn is_awake(&self) -> bool
        ensures { result ≡ is_some self.now.memory.kept }
    {
        self.records.is_awake()
    }

    /// Wakes the zone, which sleeps, in a region with the same structure and the same flags: it is in this region's
    /// bytes from then on. The region that it was in becomes the record of its structure.
    pub fn wake(&mut self, region: Region)
        requires nothing_lent { self.old.heap.table.lent ≡ [] }
        requires asleep { self.old.memory.kept ≡ None }
        requires whole { region.lent ≡ [] }
        requires same { HasStructure self.old region.bytes }
        requires flags { SameFlags self.old region.bytes }
        ensures { self.new ≡ record (shown self.old region.bytes) { memory = woken_in self.old.memory region.name } }
    {
        self.records.wake(region);
    }

    /// Puts the zone to sleep: it is in its record from then on. Returns the region that it was in, or None where it
    /// isn't awake, and nothing has changed.
    pub fn sleep(&mut self) -> Option<Region>
        requires nothing_lent { self.old.heap.table.lent ≡ [] }
        ensures asleep { IfSome result (λ region. FallsAsleep self.old self.new) }
        ensures name { IfSome result (λ region. region.name ≡ self.old.memory.region) }
        ensures bytes { IfSome result (λ region. IsIn self.old region.bytes) }
        ensures lent { IfSome result (λ region. region.lent ≡ []) }
        ensures none { IfNone result ((self.old.memory.kept ≡ None) × (self.new ≡ self.old)) }
    {
        self.records.sleep()
    }

    /// Writes the zone's structure, its headers and master pointers, among as many other bytes as its limit. No other
    /// of these changes, so the contents of handles and pointers stay.
    pub fn write_structure(&self, bytes: &mut [u8])
        requires whole { length bytes.old ≡ self.now.shape.limit }
        ensures same { HasStructure self.now bytes.new }
        ensures flags { SameFlags self.now bytes.new }
        ensures others { OthersStay self.now bytes.old bytes.new }
        ensures contents { ContentsStay self.now bytes.old bytes.new }
    {
        self.records.write_structure(bytes);
    }

    /// The first of as many bytes as the zone's limit that isn't as its structure calls for, and the part of the
    /// structure that it is in. None where they have the structure.
    pub fn first_fault(&self, bytes: &[u8]) -> Option<(u32, Part)>
        requires nothing_lent { self.now.heap.table.lent ≡ [] }
        requires whole { length bytes.now ≡ self.now.shape.limit }
        ensures fault { IfSome result (λ found. IsFirstFault self.now bytes.now found.0 found.1) }
        ensures none { IfNone result (HasStructure self.now bytes.now) }
    {
        self.records.first_fault(bytes)
    }
}
