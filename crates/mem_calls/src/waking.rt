//! A zone that sleeps and wakes. While it sleeps it is in a region of its own, whose structure is right and whose
//! contents nobody reads. Awake it is in bytes with the same structure, whatever their contents, and that region is the
//! record of its structure.

use crate::manager::MemoryManager;
use linked_zone::{Agreement, Written};
use raw_region::Region;
use zone_heap::Zone;

impl MemoryManager {
    ghost use Rattle.std.specs.Prelude.{◌≡◌, [], IfOk, IfErr, IfSome, IfNone, Some, None};
    ghost use Rattle.mac_base.specs.Sound.{Sound};
    ghost use Rattle.mac_base.specs.ZoneState.{woken_in};
    ghost use Rattle.linked_zone.specs.Structure.{Agrees, DifferInContents, HasStructure, IsIn, shown};
    ghost use Rattle.linked_zone.specs.Written.{DifferIn};

    /// Wakes the zone, which sleeps, in a region whose bytes have its structure: it is in these bytes from then on,
    /// with the contents and flags that they have. If the bytes haven't the zone's structure, it returns the region
    /// again, and the zone sleeps on as it was.
    pub fn wake(&mut self, region: Region) -> Result<(), Region>
        requires nothing_lent { self.old.heap.table.lent ≡ [] }
        requires asleep { self.old.memory.kept ≡ None }
        requires whole { region.lent ≡ [] }
        ensures awake { IfOk result (λ u. (HasStructure self.old region.bytes) × (self.new ≡ record (shown self.old region.bytes) { memory = woken_in self.old.memory region.name })) }
        ensures damaged { IfErr result (λ given. (HasStructure self.old region.bytes → ⊥) × (given ≡ region) × (self.new ≡ self.old)) }
    {
        let linked = self.zone.linked();
        let agreement = linked.agreement(region.bytes(0, region.len()));
        self.wake_as(region, agreement)
    }

    /// Wakes the zone as `wake` does, where the region's bytes differ only in these ranges from bytes with the zone's
    /// structure and flags. Only the zone's header and the blocks that have one of these bytes are compared; where
    /// flags differ, more master blocks are read.
    pub fn wake_written(&mut self, region: Region, written: &[Written]) -> Result<(), Region>
        requires nothing_lent { self.old.heap.table.lent ≡ [] }
        requires asleep { self.old.memory.kept ≡ None }
        requires whole { region.lent ≡ [] }
        requires told { DifferIn self.old region.bytes written.now }
        ensures awake { IfOk result (λ u. (HasStructure self.old region.bytes) × (self.new ≡ record (shown self.old region.bytes) { memory = woken_in self.old.memory region.name })) }
        ensures damaged { IfErr result (λ given. (HasStructure self.old region.bytes → ⊥) × (given ≡ region) × (self.new ≡ self.old)) }
    {
        let linked = self.zone.linked();
        let agreement = linked.agreement_in(region.bytes(0, region.len()), written);
        self.wake_as(region, agreement)
    }

    /// Wakes the zone in a region whose bytes agree with it so.
    fn wake_as(&mut self, region: Region, agreement: Agreement) -> Result<(), Region>
        requires nothing_lent { self.old.heap.table.lent ≡ [] }
        requires asleep { self.old.memory.kept ≡ None }
        requires sound { Sound self.old.shape self.old.heap }
        requires whole { region.lent ≡ [] }
        requires agrees { Agrees self.old region.bytes agreement }
        ensures awake { IfOk result (λ u. (HasStructure self.old region.bytes) × (self.new ≡ record (shown self.old region.bytes) { memory = woken_in self.old.memory region.name })) }
        ensures damaged { IfErr result (λ given. (HasStructure self.old region.bytes → ⊥) × (given ≡ region) × (self.new ≡ self.old)) }
    {
        if !take_flags(&mut self.zone, region.bytes(0, region.len()), agreement) {
            return Err(region);
        }
        self.zone.wake(region);
        Ok(())
    }

    /// Puts the zone to sleep, and returns the region that it was in. Where its bytes stay as they are, the zone wakes
    /// in it as it was. None where the zone isn't awake, and nothing has changed.
    pub fn sleep(&mut self) -> Option<Region>
        requires nothing_lent { self.old.heap.table.lent ≡ [] }
        ensures kept { IfSome result (λ region. self.old.memory.kept ≡ Some self.new.memory.region) }
        ensures bytes { IfSome result (λ region. IsIn self.old region.bytes) }
        ensures name { IfSome result (λ region. region.name ≡ self.old.memory.region) }
        ensures lent { IfSome result (λ region. region.lent ≡ []) }
        ensures asleep { IfSome result (λ region. DifferInContents self.old self.new) }
        ensures own { IfSome result (λ region. self.new.memory.kept ≡ None) }
        ensures wakes { IfSome result (λ region. HasStructure self.new region.bytes) }
        ensures as_before { IfSome result (λ region. shown self.new region.bytes ≡ record self.old { memory = self.new.memory }) }
        ensures none { IfNone result ((self.old.memory.kept ≡ None) × (self.new ≡ self.old)) }
    {
        self.zone.sleep()
    }
}

ghost use Rattle.std.specs.Prelude.{◌≡◌, [], IsTrue, IsFalse};
ghost use Rattle.mac_base.specs.Sound.{Sound};
ghost use Rattle.linked_zone.specs.Structure.{Agrees, HasStructure};
ghost use Rattle.mem_calls.specs.Waking.{TakesFlags};

/// Sets the flags that bytes say which agree with the zone so, if these have its structure.
fn take_flags(zone: &mut Zone, bytes: &[u8], agreement: Agreement) -> bool
    requires nothing_lent { zone.old.heap.table.lent ≡ [] }
    requires sound { Sound zone.old.shape zone.old.heap }
    requires agrees { Agrees zone.old bytes.now agreement }
    ensures same { IsTrue result → (HasStructure zone.old bytes.now) × TakesFlags zone.old bytes.now zone.new }
    ensures damaged { IsFalse result → (HasStructure zone.old bytes.now → ⊥) × (zone.new ≡ zone.old) }
{
    match agreement {
        Agreement::Damaged => false,
        Agreement::FlagsChanged => {
            set_changed(zone, bytes);
            true
        }
        Agreement::Same => true,
    }
}

/// Sets the flags of each handle of which bytes say others. The search goes on at the handle whose flags were set
/// last: they are as the bytes say now.
fn set_changed(zone: &mut Zone, bytes: &[u8])
    requires same { HasStructure zone.old bytes.now }
    requires nothing_lent { zone.old.heap.table.lent ≡ [] }
    ensures { TakesFlags zone.old bytes.now zone.new }
{
    let mut from = zone.first_block();
    while let Some((handle, flags)) = zone.linked().changed_flags(bytes, from) {
        zone.set_flags(handle, flags);
        from = handle.number();
    }
}
