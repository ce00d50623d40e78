//! A zone's structure, its headers and master pointers, compared with other bytes and written to them; and a zone that
//! wakes in bytes with the same structure and falls asleep again.

ghost use Rattle.std.specs.Prelude.{◌≡◌, [], length, is_some, IfSome, IfNone, None};
ghost use Rattle.mac_base.specs.ZoneState.{woken_in};
ghost use Rattle.zone_records.specs.Faults.{IsFirstFault};
ghost use Rattle.zone_records.specs.Parts.{ContentsStay, OthersStay};
ghost use Rattle.zone_records.specs.Records.{NothingLent};
ghost use Rattle.zone_records.specs.Sleeping.{FallsAsleep};
ghost use Rattle.zone_records.specs.Written.{DifferIn};
ghost use Rattle.zone_records.specs.Structure.{Agrees, FirstChanged, HasStructure, IsIn, NoneChanged, SameFlags, shown};

use crate::faults::first_fault;
use crate::masters::{compare_all, first_changed};
use crate::ranges::compare_ranges;
use crate::records::Records;
use mac_base::block::Flags;
use raw_region::Region;

/// How bytes agree with a zone.
#[derive(Clone, Copy, Debug, PartialEq, Eq)]
pub enum Agreement {
    /// They haven't its structure: a header or a master pointer differs, in more than a handle's flags.
    Damaged,
    /// They have its structure, and say other flags of a handle in its master pointer.
    FlagsChanged,
    /// They have its structure, and say the same flags of each handle.
    Same,
}

/// Bytes of a zone that a host says were written: so many, from an offset from the zone's start on.
#[repr(C)]
#[derive(Clone, Copy, Debug, PartialEq, Eq)]
pub struct Written {
    pub from: u32,
    pub count: u32,
}

/// A part of a zone's structure.
#[derive(Clone, Copy, Debug, PartialEq, Eq)]
pub enum Part {
    /// The zone's header.
    ZoneHeader,
    /// The header of a block.
    BlockHeader,
    /// A master pointer.
    MasterPointer,
}

impl Agreement {
    ghost use Rattle.std.specs.Prelude.{◌≡◌};
    ghost use Rattle.zone_records.specs.Structure.{worse};

    /// The agreement of two parts together.
    pub(crate) fn with(self, other: Agreement) -> Agreement
        ensures { result ≡ worse self other }
    {
        match self {
            Agreement::Damaged => Agreement::Damaged,
            Agreement::FlagsChanged => match other {
                Agreement::Damaged => Agreement::Damaged,
                Agreement::FlagsChanged | Agreement::Same => Agreement::FlagsChanged,
            },
            Agreement::Same => other,
        }
    }
}

impl Records {
    /// How bytes agree with the zone.
    pub fn agreement(&self, bytes: &[u8]) -> Agreement
        ensures { Agrees self.now bytes.now result }
    {
        if !self.blocks.has_head(bytes) {
            return Agreement::Damaged;
        }
        compare_all(&self.blocks, bytes)
    }

    /// The first slot from an address on of whose handle bytes say other flags, and these flags.
    pub fn changed_slot(&self, bytes: &[u8], from: u32) -> Option<(u32, Flags)>
        requires { HasStructure self.now bytes.now }
        ensures first { IfSome result (λ found. FirstChanged self.now bytes.now from found.0 found.1) }
        ensures none { IfNone result (NoneChanged self.now bytes.now from) }
    {
        first_changed(&self.blocks, bytes, from)
    }

    /// How bytes agree with the zone, where they differ only in these ranges from bytes with the zone's structure and
    /// flags. No other byte is looked at.
    pub fn agreement_in(&self, bytes: &[u8], written: &[Written]) -> Agreement
        requires told { DifferIn self.now bytes.now written.now }
        ensures { Agrees self.now bytes.now result }
    {
        compare_ranges(&self.blocks, bytes, written)
    }

    /// Whether the zone is awake: in bytes of others, with a record of its structure kept elsewhere.
    pub fn is_awake(&self) -> bool
        ensures { result ≡ is_some self.now.memory.kept }
    {
        self.blocks.is_awake()
    }

    /// Wakes the zone, which sleeps, in a region with the same structure and the same flags: it is in this region's
    /// bytes from then on. The region that it was in becomes the record of its structure.
    pub fn wake(&mut self, region: Region)
        requires nothing_lent { NothingLent self.old }
        requires asleep { self.old.memory.kept ≡ None }
        requires whole { region.lent ≡ [] }
        requires same { HasStructure self.old region.bytes }
        requires flags { SameFlags self.old region.bytes }
        ensures { self.new ≡ record (shown self.old region.bytes) { memory = woken_in self.old.memory region.name } }
    {
        self.blocks.wake(region);
    }

    /// Puts the zone to sleep: it is in its record from then on. Returns the region that it was in, or None where it
    /// isn't awake, and nothing has changed.
    pub fn sleep(&mut self) -> Option<Region>
        requires nothing_lent { NothingLent self.old }
        ensures asleep { IfSome result (λ region. FallsAsleep self.old self.new) }
        ensures name { IfSome result (λ region. region.name ≡ self.old.memory.region) }
        ensures bytes { IfSome result (λ region. IsIn self.old region.bytes) }
        ensures lent { IfSome result (λ region. region.lent ≡ []) }
        ensures none { IfNone result ((self.old.memory.kept ≡ None) × (self.new ≡ self.old)) }
    {
        self.blocks.sleep()
    }

    /// Writes the zone's structure, its headers and master pointers, among as many other bytes as its limit. No other
    /// of these changes, so the contents of blocks stay.
    pub fn write_structure(&self, bytes: &mut [u8])
        requires whole { length bytes.old ≡ self.now.shape.limit }
        ensures same { HasStructure self.now bytes.new }
        ensures flags { SameFlags self.now bytes.new }
        ensures others { OthersStay self.now bytes.old bytes.new }
        ensures contents { ContentsStay self.now bytes.old bytes.new }
    {
        self.blocks.write_own_bytes(bytes);
    }

    /// The first of as many bytes as the zone's limit that isn't as its structure calls for, and the part of the
    /// structure that it is in. None where they have the structure.
    pub fn first_fault(&self, bytes: &[u8]) -> Option<(u32, Part)>
        requires nothing_lent { NothingLent self.now }
        requires whole { length bytes.now ≡ self.now.shape.limit }
        ensures fault { IfSome result (λ found. IsFirstFault self.now bytes.now found.0 found.1) }
        ensures none { IfNone result (HasStructure self.now bytes.now) }
    {
        first_fault(&self.blocks, bytes)
    }
}
