//! A session whose zone sleeps, and wakes in bytes of the host.

use crate::fields::put_aside;
use crate::host_err::HostErr;
use crate::session::Session;
use crate::{lending_again, nil_flags};
use held_calls::lending;
use linked_zone::{Agreement, LinkedZone, Written};
use mem_calls::{MOST_LOANS, MemoryManager};
use raw_region::Region;
use std::alloc::Global;

/// Why a zone sleeps on.
#[derive(Clone, Copy, Debug, PartialEq, Eq)]
pub enum WhyAsleep {
    /// The bytes haven't its structure.
    Damaged,
    /// They have, and a block that waits to be lent again is no pointer's in them and no locked handle's.
    Unlocked,
    /// They haven't, an empty handle's master pointer has flag bits, and the host has no memory to keep the bytes in
    /// while these are cleared.
    HostFull,
}

/// A region in which a zone didn't wake.
pub struct NotAwake {
    /// The region, as it was given.
    pub region: Region,
    /// Why.
    pub why: WhyAsleep,
}

impl Session {
    ghost use Rattle.std.specs.Prelude.{◌≡◌, ◌≤◌, ℕ, List, [], length, IfOk, IfErr, IfSome, IsTrue, MatchBool, OnErr, OnOk};
    ghost use Rattle.mac_base.specs.HeadKind.{zone_header};
    ghost use Rattle.std.specs.Result.{result_err};
    ghost use Rattle.linked_zone.specs.Structure.{HasStructure, SameFlags, shown};
    ghost use Rattle.linked_zone.specs.Written.{DifferIn};
    ghost use Rattle.held_zone.specs.Asleep.{AwakeTaking, CanBeLent, FallsAsleep, IsAsleep, IsAwakeIn, IsGivenBack, IsInRegion, IsSettled, RefusesTaken, SleepsOn, WakesAsBefore, all_back, all_lendable, awake_as, sleep_refusal};
    ghost use Rattle.held_zone.specs.Fields.{managed};
    ghost use Rattle.held_zone.specs.NilFlags.{IsCleared, NoNilFlags, Takes};

    /// How many bytes the zone may have, and its memory has.
    pub fn limit(&self) -> usize
        ensures value { result ≡ self.now.zone.shape.limit }
        ensures large { zone_header ≤ result }
        ensures small { result ≤ 0x4000_0000 }
    {
        self.memory.linked().spec().limit() as usize
    }

    /// Writes the structure of the zone into a region as long as its limit, and gives the region back. No other byte of
    /// it changes.
    pub fn settle(&self, mut region: Region) -> Region
        requires whole { region.lent ≡ [] }
        requires long { length region.bytes ≡ self.now.zone.shape.limit }
        ensures { IsSettled self.now region result }
    {
        let all = region.len();
        self.memory
            .linked()
            .write_structure(region.bytes_mut(0, all));
        region
    }

    /// Wakes the zone, which sleeps, in a region whose bytes have its structure, whatever the guest's fields of its
    /// header say, and lends the blocks again that wait for it. Flag bits in the master pointers of empty handles say
    /// nothing, and are cleared then. Where one of the blocks is no pointer's and no locked handle's in these bytes, or
    /// they haven't the structure, it sleeps on, and the region comes back.
    pub fn wake(&mut self, alloc: Global, region: Region) -> Result<(), NotAwake>
        requires asleep { IsAsleep self.old }
        requires whole { region.lent ≡ [] }
        ensures awake { IfOk result (λ u. IsAwakeIn self.old region self.new) }
        ensures asleep { IfErr result (λ no. SleepsOn no.why self.old (managed region.bytes) × (no.region ≡ region) × (self.new ≡ self.old)) }
    {
        self.wake_told(alloc, region, None)
    }

    /// Wakes the zone as `wake` does, where the region's bytes, the guest's fields aside, differ only in these ranges
    /// from bytes with the zone's structure and flags. Only the zone's header and the blocks that have one of these
    /// bytes are compared; where flags differ, more master blocks are read.
    pub fn wake_written(
        &mut self,
        alloc: Global,
        region: Region,
        written: &[Written],
    ) -> Result<(), NotAwake>
        requires asleep { IsAsleep self.old }
        requires whole { region.lent ≡ [] }
        requires told { DifferIn self.old.zone (managed region.bytes) written.now }
        ensures awake { IfOk result (λ u. IsAwakeIn self.old region self.new) }
        ensures asleep { IfErr result (λ no. SleepsOn no.why self.old (managed region.bytes) × (no.region ≡ region) × (self.new ≡ self.old)) }
    {
        self.wake_told(alloc, region, Some(written))
    }

    /// Wakes the zone in a region of a guest, of whose bytes the host may say which were written.
    fn wake_told(
        &mut self,
        alloc: Global,
        mut region: Region,
        written: Option<&[Written]>,
    ) -> Result<(), NotAwake>
        requires asleep { IsAsleep self.old }
        requires whole { region.lent ≡ [] }
        requires told { IfSome written (λ ranges. DifferIn self.old.zone (managed region.bytes) ranges.now) }
        ensures awake { IfOk result (λ u. IsAwakeIn self.old region self.new) }
        ensures asleep { IfErr result (λ no. SleepsOn no.why self.old (managed region.bytes) × (no.region ≡ region) × (self.new ≡ self.old)) }
    {
        let why = WhyAsleep::Damaged;
        if region.len() != self.limit() {
            return Err(NotAwake { region, why });
        }
        let fields = put_aside(&mut region);
        match self.wake_taking(alloc, region, written) {
            Ok(()) => {
                self.guest = fields;
                Ok(())
            }
            Err(NotAwake { mut region, why }) => {
                fields.write_in(&mut region);
                Err(NotAwake { region, why })
            }
        }
    }

    /// Wakes the zone in a region, the guest's fields aside, where empty handles' master pointers may have flag bits.
    fn wake_taking(
        &mut self,
        alloc: Global,
        region: Region,
        written: Option<&[Written]>,
    ) -> Result<(), NotAwake>
        requires asleep { IsAsleep self.old }
        requires whole { region.lent ≡ [] }
        requires long { length region.bytes ≡ self.old.zone.shape.limit }
        requires told { IfSome written (λ ranges. DifferIn self.old.zone region.bytes ranges.now) }
        ensures awake { IfOk result (λ u. (taken : List ℕ) × Takes self.old.zone region.bytes taken × AwakeTaking taken region self.old self.new) }
        ensures asleep { IfErr result (λ no. SleepsOn no.why self.old region.bytes × (no.region ≡ region) × (self.new ≡ self.old)) }
    {
        match self.wake_managed(region, written) {
            Ok(()) => Ok(()),
            Err(NotAwake { region, why }) => match why {
                WhyAsleep::Damaged => self.wake_cleared(alloc, region),
                WhyAsleep::Unlocked | WhyAsleep::HostFull => Err(NotAwake { region, why }),
            },
        }
    }

    /// Wakes the zone in a region that hasn't its structure, once flag bits in empty handles' master pointers are
    /// cleared, if there are any. Where it sleeps on they are there again.
    fn wake_cleared(&mut self, alloc: Global, mut region: Region) -> Result<(), NotAwake>
        requires asleep { IsAsleep self.old }
        requires whole { region.lent ≡ [] }
        requires long { length region.bytes ≡ self.old.zone.shape.limit }
        requires damaged { HasStructure self.old.zone region.bytes → ⊥ }
        ensures awake { IfOk result (λ u. (taken : List ℕ) × Takes self.old.zone region.bytes taken × AwakeTaking taken region self.old self.new) }
        ensures asleep { IfErr result (λ no. SleepsOn no.why self.old region.bytes × (no.region ≡ region) × (self.new ≡ self.old)) }
    {
        let why = WhyAsleep::Damaged;
        if !self.has_nil_flags(&region) {
            return Err(NotAwake { region, why });
        }
        let Ok(before) = Vec::from_slice(alloc, region.bytes(0, region.len())) else {
            let why = WhyAsleep::HostFull;
            return Err(NotAwake { region, why });
        };
        self.clear_in(&mut region);
        match self.wake_managed(region, None) {
            Ok(()) => Ok(()),
            Err(NotAwake { mut region, why }) => {
                write_all(&mut region, &before);
                Err(NotAwake { region, why })
            }
        }
    }

    /// Whether empty handles' master pointers in a region have flag bits.
    fn has_nil_flags(&self, region: &Region) -> bool
        requires whole { region.now.lent ≡ [] }
        requires long { length region.now.bytes ≡ self.now.zone.shape.limit }
        ensures { MatchBool result (NoNilFlags self.now.zone region.now.bytes → ⊥) (NoNilFlags self.now.zone region.now.bytes) }
    {
        nil_flags::has_any(self.memory.linked(), region.bytes(0, region.len()))
    }

    /// Clears these bits.
    fn clear_in(&self, region: &mut Region)
        requires whole { region.old.lent ≡ [] }
        requires long { length region.old.bytes ≡ self.now.zone.shape.limit }
        ensures cleared { IsCleared self.now.zone region.old.bytes region.new.bytes }
        ensures others { region.new ≡ record region.old { bytes = region.new.bytes } }
    {
        let all = region.len();
        nil_flags::clear(self.memory.linked(), region.bytes_mut(0, all));
    }

    /// Wakes the zone in a region as the Memory Manager has it, of whose bytes the host may say which were written.
    fn wake_managed(&mut self, region: Region, written: Option<&[Written]>) -> Result<(), NotAwake>
        requires asleep { IsAsleep self.old }
        requires whole { region.lent ≡ [] }
        requires told { IfSome written (λ ranges. DifferIn self.old.zone region.bytes ranges.now) }
        ensures awake { IfOk result (λ u. HasStructure self.old.zone region.bytes × IsTrue (all_lendable self.old region.bytes) × (self.new ≡ awake_as region self.old)) }
        ensures asleep { IfErr result (λ no. RefusesTaken no.why self.old region.bytes × (no.region ≡ region) × (self.new ≡ self.old)) }
    {
        let bytes = region.bytes(0, region.len());
        let same = match self.test_waiting(bytes, written) {
            Ok(same) => same,
            Err(why) => return Err(NotAwake { region, why }),
        };
        if let Err(region) = wake_in(&mut self.memory, region, written, same) {
            let why = WhyAsleep::Damaged;
            return Err(NotAwake { region, why });
        }
        lending_again::lend_all(&mut self.memory, &mut self.loans, self.waiting.as_slice());
        self.waiting.clear();
        Ok(())
    }

    /// Tests that the blocks that wait may be lent in the zone that bytes show, if any wait. Returns whether it is
    /// known that the bytes have the zone's structure and flags.
    fn test_waiting(&self, bytes: &[u8], written: Option<&[Written]>) -> Result<bool, WhyAsleep>
        requires asleep { IsAsleep self.now }
        requires told { IfSome written (λ ranges. DifferIn self.now.zone bytes.now ranges.now) }
        ensures same { IfOk result (λ same. IsTrue same → HasStructure self.now.zone bytes.now × SameFlags self.now.zone bytes.now) }
        ensures lendable { OnOk result (HasStructure self.now.zone bytes.now → CanBeLent (shown self.now.zone bytes.now) self.now.waiting) }
        ensures asleep { IfErr result (λ why. RefusesTaken why self.now bytes.now) }
    {
        let waiting = self.waiting.as_slice();
        if waiting.is_empty() {
            return Ok(false);
        }
        let agreement = agreement(self.memory.linked(), bytes, written);
        if agreement == Agreement::Damaged {
            return Err(WhyAsleep::Damaged);
        }
        if !lending_again::all_lendable(&self.memory, bytes, agreement, waiting) {
            return Err(WhyAsleep::Unlocked);
        }
        Ok(agreement == Agreement::Same)
    }

    /// Puts the zone to sleep, which is awake in bytes of the host, and gives these back. What is lent comes back
    /// first, and waits to be lent again. Where these bytes stay as they are, the zone wakes in them as it was: nothing
    /// refuses it, the same blocks are lent in the same order, and each has the bytes that C left in it. The guest's
    /// fields are as the guest left them. NotThere is the error where it isn't in bytes of the host.
    pub fn sleep(&mut self) -> Result<Region, HostErr>
        ensures given { IfOk result (λ region. IsGivenBack self.old region self.new) }
        ensures whole { IfOk result (λ region. region.lent ≡ []) }
        ensures long { IfOk result (λ region. length region.bytes ≡ self.old.zone.shape.limit) }
        ensures refusal { result_err result ≡ sleep_refusal self.old }
        ensures unchanged { OnErr result (self.new ≡ self.old) }
    {
        let mut region = self.sleep_managed()?;
        self.guest.write_in(&mut region);
        Ok(region)
    }

    /// Puts the zone to sleep, and gives the region back as the Memory Manager has it.
    fn sleep_managed(&mut self) -> Result<Region, HostErr>
        ensures region { IfOk result (λ region. IsInRegion (all_back self.old) region) }
        ensures asleep { IfOk result (λ region. FallsAsleep self.old region self.new) }
        ensures again { IfOk result (λ region. WakesAsBefore self.old region self.new) }
        ensures refusal { result_err result ≡ sleep_refusal self.old }
        ensures unchanged { OnErr result (self.new ≡ self.old) }
    {
        if !self.memory.linked().is_awake() {
            return Err(HostErr::NotThere);
        }
        // The count of loans says that each is a pointer's or a locked handle's.
        prove!(self.memory.lent_count() as usize <= MOST_LOANS);
        let blocks = self.loans.blocks();
        lending::take_all_back(&mut self.memory, &mut self.loans);
        let Some(region) = self.memory.sleep() else {
            // No type says that a zone that is awake has a region to give back.
            unreachable!();
        };
        self.waiting = blocks;
        Ok(region)
    }
}

ghost use Rattle.std.specs.Prelude.{◌≡◌, [], None, IfErr, IfOk, IfSome, IsTrue};
ghost use Rattle.mac_base.specs.ZoneState.{woken_in};
ghost use Rattle.linked_zone.specs.Structure.{Agrees, HasStructure, SameFlags, shown};
ghost use Rattle.linked_zone.specs.Written.{DifferIn};

/// How bytes agree with a zone, where the host may say which were written.
fn agreement(zone: &LinkedZone, bytes: &[u8], written: Option<&[Written]>) -> Agreement
    requires told { IfSome written (λ ranges. DifferIn zone.now bytes.now ranges.now) }
    ensures { Agrees zone.now bytes.now result }
{
    match written {
        Some(written) => zone.agreement_in(bytes, written),
        None => zone.agreement(bytes),
    }
}

/// Wakes a zone in a region, of whose bytes the host may say which were written. Where it is known that they have the
/// zone's structure and flags, nothing is compared again but the zone's header.
fn wake_in(
    memory: &mut MemoryManager,
    region: Region,
    written: Option<&[Written]>,
    same: bool,
) -> Result<(), Region>
    requires nothing_lent { memory.old.heap.table.lent ≡ [] }
    requires asleep { memory.old.memory.kept ≡ None }
    requires whole { region.lent ≡ [] }
    requires told { IfSome written (λ ranges. DifferIn memory.old region.bytes ranges.now) }
    requires same { IsTrue same → HasStructure memory.old region.bytes × SameFlags memory.old region.bytes }
    ensures awake { IfOk result (λ u. HasStructure memory.old region.bytes × (memory.new ≡ record (shown memory.old region.bytes) { memory = woken_in memory.old.memory region.name })) }
    ensures damaged { IfErr result (λ given. (HasStructure memory.old region.bytes → ⊥) × (given ≡ region) × (memory.new ≡ memory.old)) }
{
    if same {
        return memory.wake_written(region, &[]);
    }
    match written {
        Some(written) => memory.wake_written(region, written),
        None => memory.wake(region),
    }
}

ghost use Rattle.std.specs.Prelude.{length};

/// Writes other bytes over all of a region.
fn write_all(region: &mut Region, bytes: &[u8])
    requires whole { region.old.lent ≡ [] }
    requires long { length bytes.now ≡ length region.old.bytes }
    ensures { region.new ≡ record region.old { bytes = bytes.now } }
{
    let all = region.len();
    region.bytes_mut(0, all).copy_from_slice(bytes);
}
