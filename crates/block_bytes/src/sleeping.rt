//! A zone that sleeps and wakes. It wakes in bytes of others with its structure, and the region that it was in becomes
//! the record of this structure. It falls asleep in its record, over which the own bytes are copied that changed since.

ghost use Rattle.std.specs.Prelude.{◌≡◌, [], IfNone, IfSome, None, is_some};
ghost use Rattle.mac_base.specs.HeadKind.{zone_header};
ghost use Rattle.mac_base.specs.ZoneState.{woken_in};
ghost use Rattle.block_bytes.specs.Layout.{NothingLent, image_of};
ghost use Rattle.block_bytes.specs.Record.{AreKnown};
ghost use Rattle.block_bytes.specs.Sleeping.{FallsAsleep};
ghost use Rattle.block_bytes.specs.Structure.{AreWritten, EachMaster, HasStructure, shown};

use crate::blocks::Blocks;
use crate::memory::Memory;
use crate::record::{Changed, Record, end};
use raw_region::Region;
use std::mem;

impl Blocks {
    /// Whether the zone is awake: in bytes of others, with a record of its structure kept elsewhere.
    pub fn is_awake(&self) -> bool
        ensures { result ≡ is_some self.now.memory.kept }
    {
        self.kept.is_some()
    }

    /// Wakes the zone, which sleeps, in a region with the same structure and the same contents of its master blocks: it
    /// is in this region's bytes from then on. The region that it was in becomes the record of its structure. So the
    /// zone falls asleep again by copies of what changes until then, without a look at each block.
    pub fn wake(&mut self, region: Region)
        requires nothing_lent { NothingLent self.old }
        requires asleep { self.old.memory.kept ≡ None }
        requires whole { region.lent ≡ [] }
        requires same { HasStructure self.old region.bytes }
        requires masters { EachMaster (AreWritten region.bytes) self.old.heads zone_header self.old.blocks }
        ensures { self.new ≡ record (shown self.old region.bytes) { memory = woken_in self.old.memory region.name } }
    {
        let _base = self.spec.base();
        let before = mem::replace(&mut self.memory, Memory::of(region));
        let record = Record {
            region: before.into_region(),
            changed: Changed::new(),
        };
        end(self.kept.replace(record));
    }

    /// Puts the zone to sleep: it is in its record from then on. Returns the region that it was in, or None where it
    /// isn't awake, and nothing has changed.
    pub fn sleep(&mut self) -> Option<Region>
        requires nothing_lent { NothingLent self.old }
        ensures asleep { IfSome result (λ region. FallsAsleep self.old self.new) }
        ensures name { IfSome result (λ region. region.name ≡ self.old.memory.region) }
        ensures bytes { IfSome result (λ region. region.bytes ≡ image_of self.old) }
        ensures lent { IfSome result (λ region. region.lent ≡ []) }
        ensures none { IfNone result ((self.old.memory.kept ≡ None) × (self.new ≡ self.old)) }
    {
        let _base = self.spec.base();
        let Record {
            mut region,
            changed,
        } = self.kept.take()?;
        let all = region.len();
        self.write_changed(&changed, region.bytes_mut(0, all));
        let before = mem::replace(&mut self.memory, Memory::of(region));
        Some(before.into_region())
    }

    /// Writes the zone's own bytes over those of its record, where they changed.
    fn write_changed(&self, changed: &Changed, bytes: &mut [u8])
        requires nothing_lent { NothingLent self.now }
        requires known { AreKnown self.now.heads self.now.blocks (image_of self.now) changed.now bytes.old }
        ensures same { HasStructure self.now bytes.new }
        ensures masters { EachMaster (AreWritten bytes.new) self.now.heads zone_header self.now.blocks }
    {
        if changed.all {
            self.write_own_bytes(bytes);
        } else {
            changed.copy(&self.memory, bytes);
            self.memory.write_zone_head(bytes);
        }
    }
}
