//! A zone whose bytes are repaired. The flags that its guest set in master pointers stay where these are right.

ghost use Rattle.std.specs.Prelude.{◌≡◌, ◌+◌, ◌<◌, ◌≤◌, ℕ, [], false, length, IfSome, IsTrue};
ghost use Rattle.byteorder.specs.Endian.{big_number};
ghost use Rattle.mac_base.specs.FlagState.{flags_from};
ghost use Rattle.mac_base.specs.HandleTable.{flags_of, is_full, is_handle};
ghost use Rattle.mac_base.specs.Sound.{Sound};
ghost use Rattle.raw_region.specs.Bytes.{part};
ghost use Rattle.held_zone.specs.KeptFlags.{KeepsAt, KeepsFlags, right_flags};
ghost use Rattle.linked_zone.specs.Changes.{flagged};
ghost use Rattle.held_zone.specs.Checking.{Finds};

use crate::fields::put_aside;
use crate::nil_flags;
use crate::session::Session;
use byteorder::{BigEndian, ByteOrder};
use linked_zone::{LinkedZone, Part};
use mac_base::block::{Flags, HeadKind, Kind};
use mac_base::error::HostFull;
use mac_base::handle::Handle;
use mac_base::size::ZONE_HEADER;
use mem_calls::{MemoryManager, state_of};
use raw_region::Region;
use std::alloc::Global;

impl Session {
    ghost use Rattle.std.specs.Prelude.{◌≡◌, [], length};
    ghost use Rattle.held_zone.specs.Asleep.{IsAsleep};
    ghost use Rattle.held_zone.specs.Fields.{managed};
    ghost use Rattle.held_zone.specs.Repairing.{IsMended};

    /// Writes the structure of the zone, which sleeps, anew into a region as long as its limit, and gives the region
    /// back. The flags that master pointers say stay where their low three bytes are right: the zone has these flags
    /// then. A handle that waits to be lent again has the flags that it had. The guest's fields of the zone's header
    /// stay, and so do all other bytes.
    pub fn repair(&mut self, mut region: Region) -> Region
        requires asleep { IsAsleep self.old }
        requires whole { region.lent ≡ [] }
        requires long { length region.bytes ≡ self.old.zone.shape.limit }
        ensures mended { IsMended self.old region result self.new }
        ensures asleep { IsAsleep self.new }
    {
        let _limit = self.limit();
        let fields = put_aside(&mut region);
        let waiting = self.waiting.as_slice();
        keep_flags(&mut self.memory, region.bytes(0, region.len()), waiting);
        let mut region = self.settle(region);
        fields.write_in(&mut region);
        region
    }

    /// The first byte of a region as long as the zone's limit that isn't as the structure of the zone, which sleeps,
    /// calls for, and the part of the structure that it is in. The guest's fields of the header may be any, and flag
    /// bits in empty handles' master pointers say nothing. None where the region has the structure. It is given back as
    /// it was. The host may have no memory only where there are such bits.
    pub fn first_fault(
        &self,
        alloc: Global,
        region: &mut Region,
    ) -> Result<Option<(u32, Part)>, HostFull>
        requires asleep { IsAsleep self.now }
        requires whole { region.old.lent ≡ [] }
        requires long { length region.old.bytes ≡ self.now.zone.shape.limit }
        ensures checked { Finds self.now.zone (managed region.old.bytes) result }
        ensures same { region.new ≡ region.old }
    {
        let _limit = self.limit();
        let fields = put_aside(region);
        let zone = self.memory.linked();
        let found = first_fault(alloc, zone, region.bytes(0, region.len()));
        fields.write_in(region);
        found
    }
}

/// The first of bytes, as a zone takes them, that isn't as its structure calls for, if any is.
fn first_fault(
    alloc: Global,
    zone: &LinkedZone,
    bytes: &[u8],
) -> Result<Option<(u32, Part)>, HostFull>
    requires sound { Sound zone.now.shape zone.now.heap }
    requires nothing_lent { zone.now.heap.table.lent ≡ [] }
    requires long { length bytes.now ≡ zone.now.shape.limit }
    ensures { Finds zone.now bytes.now result }
{
    let Some(found) = zone.first_fault(bytes) else {
        return Ok(None);
    };
    if !nil_flags::has_any(zone, bytes) {
        return Ok(Some(found));
    }
    let mut taken = Vec::from_slice(alloc, bytes)?;
    nil_flags::clear(zone, &mut taken);
    Ok(zone.first_fault(&taken))
}

/// Sets the flags that bytes say in master pointers whose low three bytes are right, but for handles that wait to be
/// lent.
fn keep_flags(memory: &mut MemoryManager, bytes: &[u8], waiting: &[u32])
    requires nothing_lent { memory.old.heap.table.lent ≡ [] }
    requires long { length bytes.now ≡ memory.old.shape.limit }
    ensures { KeepsFlags memory.old bytes.now waiting.now memory.new }
{
    let spec = memory.linked().spec();
    let base = spec.base();
    let end = base + spec.size();
    let mut from = base + ZONE_HEADER;
    while from < end {
        match past_block(memory.linked(), from) {
            Some(next) => from = next,
            None => {
                keep_at(memory, bytes, waiting, from);
                from += 1;
            }
        }
    }
}

/// Where the block ends that has the byte at an address, unless it is a master block: no handle is as high as the
/// address and below this end.
pub(crate) fn past_block(zone: &LinkedZone, at: u32) -> Option<u32>
    requires sound { Sound zone.now.shape zone.now.heap }
    ensures further { IfSome result (λ next. at < next) }
    ensures none { IfSome result (λ next. (x : ℕ) → at ≤ x → x < next → is_handle zone.now.heap.table x ≡ false) }
{
    let _base = zone.spec().base();
    let block = zone.holder(at)?;
    match block.entry.kind {
        Kind::Master => None,
        Kind::Free | Kind::Ptr(_) | Kind::Rel(_) => Some(block.address + block.entry.size),
    }
}

/// Sets the flags of the handle of this number, if it has a block and doesn't wait to be lent.
fn keep_at(memory: &mut MemoryManager, bytes: &[u8], waiting: &[u32], number: u32)
    requires nothing_lent { memory.old.heap.table.lent ≡ [] }
    requires long { length bytes.now ≡ memory.old.shape.limit }
    ensures { KeepsAt memory.old bytes.now waiting.now number memory.new }
{
    if waiting.contains(&number) {
        return;
    }
    let zone = memory.linked();
    let handle = Handle::new(number);
    if !zone.is_live(handle) || !zone.is_full(handle) {
        return;
    }
    let flags = right_flags(zone, bytes, handle);
    set_flags(memory, handle, flags);
}

/// The flags of a handle that has a block: those that its master pointer says among bytes, where its low three bytes
/// are right, and else those that it has.
fn right_flags(zone: &LinkedZone, bytes: &[u8], handle: Handle) -> Flags
    requires sound { Sound zone.now.shape zone.now.heap }
    requires full { IsTrue (is_full zone.now.heap.table handle) }
    requires long { length bytes.now ≡ zone.now.shape.limit }
    ensures { result ≡ right_flags zone.now bytes.now handle (flags_of zone.now.heap.table handle) }
{
    let own = zone.flags(handle);
    let spec = zone.spec();
    let base = spec.base();
    match spec.heads() {
        HeadKind::Bits24 => {
            let contents = zone.block_of(handle) + HeadKind::Bits24.head_size();
            let at = (handle.number() - base) as usize;
            if word_at(bytes, at) % 0x100_0000 == contents {
                flags_from(bytes[at])
            } else {
                own
            }
        }
        HeadKind::Bits32 => own,
    }
}

/// The number that the 4 bytes from `at` on are.
fn word_at(bytes: &[u8], at: usize) -> u32
    requires { at + 4 ≤ length bytes.now }
    ensures { result ≡ big_number 4 (part bytes.now at 4) }
{
    BigEndian::read_u32(&bytes[at..at + 4])
}

/// The flags that the high byte of a master pointer says.
fn flags_from(high: u8) -> Flags
    ensures { result ≡ flags_from high }
{
    Flags {
        lock: high / 128 % 2 == 1,
        purge: high / 64 % 2 == 1,
        resource: high / 32 % 2 == 1,
    }
}

/// Sets the flags of a handle that has a block, where nothing is lent.
fn set_flags(memory: &mut MemoryManager, handle: Handle, flags: Flags)
    requires nothing_lent { memory.old.heap.table.lent ≡ [] }
    requires full { IsTrue (is_full memory.old.heap.table handle) }
    ensures { memory.new ≡ flagged handle flags memory.old }
{
    // The zone says that its heap is sound.
    let _linked = memory.linked();
    if memory.hset_state(handle, state_of(flags)).is_err() {
        // No type says that the handle has a block and isn't lent.
        unreachable!();
    }
}
