//! The blocks of a zone, one after the other.

ghost use Rattle.std.specs.Prelude.{◌≡◌, ◌+◌, ◌-◌, ◌≤◌, ◌<◌, ◌^◌, length, Ok, Err, IfOk, IfErr, IfNone, OnOk};
ghost use Rattle.mac_base.specs.HeadKind.{head_size};
ghost use Rattle.zone_look.specs.Blocks.{block_at, fixed_owner, flags_of, handle_owner, head_at, least_size, length_of, owner_at, owner_place, size_fault};
ghost use Rattle.zone_look.specs.Memory.{fault_at};
ghost use Rattle.zone_look.specs.Zone.{IsZone};

use crate::dump::Dump;
use crate::fault::{Fault, Problem};
use crate::head::{Head, Tag, flags_from, head_in};
use mac_base::block::{Block, Entry, Flags, HeadKind, Kind};
use mac_base::handle::{Handle, Ptr};
use mac_base::size::ZONE_HEADER;

/// A fault at a place of the memory.
pub(crate) fn fault_at(dump: &Dump, problem: Problem, at: u32, found: u32, wanted: u32) -> Fault
    requires { dump.now.base + at < 2 ^ 32 }
    ensures { result ≡ fault_at dump.now problem at found wanted }
{
    Fault {
        problem,
        place: dump.base() + at,
        found,
        wanted,
    }
}

/// The header at a place.
pub(crate) fn head_at(dump: &Dump, at: u32) -> Head
    requires { at + head_size dump.now.heads ≤ length dump.now.bytes }
    ensures head { result ≡ head_at dump.now at }
    ensures few { result.correction < 256 }
{
    head_in(dump.heads(), &dump.bytes()[at as usize..])
}

/// The least size of a block: its header and the bytes that are over.
fn least_size(dump: &Dump, head: Head) -> u32
    requires { head.correction < 256 }
    ensures { result ≡ least_size dump.now head }
{
    let slack = match head.tag {
        Tag::Free => 0,
        Tag::Fixed | Tag::Master | Tag::Relocatable | Tag::None => head.correction,
    };
    dump.heads().head_size() + slack
}

/// What is wrong with a block's size.
fn size_fault(dump: &Dump, end: u32, at: u32, head: Head) -> Option<Fault>
    requires zone { IsZone dump.now end }
    requires inside { at + head_size dump.now.heads ≤ end }
    requires few { head.correction < 256 }
    ensures fault { result ≡ size_fault dump.now end at head }
    ensures least { IfNone result (least_size dump.now head ≤ head.size) }
    ensures most { IfNone result (at + head.size ≤ end) }
{
    let least = least_size(dump, head);
    if head.size < least {
        return Some(fault_at(dump, Problem::Overlaps, at, head.size, least));
    }
    let most = end - at;
    if most < head.size {
        return Some(fault_at(dump, Problem::LeavesZone, at, head.size, most));
    }
    if head.size % 2 == 1 {
        return Some(fault_at(dump, Problem::OddSize, at, head.size, head.size - 1));
    }
    None
}

/// The place of the last word of a header.
fn owner_place(dump: &Dump, at: u32) -> u32
    requires { at + head_size dump.now.heads < 2 ^ 32 }
    ensures { result ≡ owner_place dump.now at }
{
    at + dump.heads().head_size() - 4
}

/// The owner of a nonrelocatable block, if the block says that it is in this zone.
fn fixed_owner(dump: &Dump, at: u32, head: Head, kind: Kind) -> Result<(Kind, Flags), Fault>
    requires { dump.now.base + (at + head_size dump.now.heads) < 2 ^ 32 }
    ensures { result ≡ fixed_owner dump.now at head kind }
{
    let zone = dump.address_in(head.word);
    if zone == dump.base() {
        return Ok((kind, Flags::NONE));
    }
    let place = owner_place(dump, at);
    Err(fault_at(dump, Problem::BadZone, place, zone, dump.base()))
}

/// A handle's flags, by its master pointer or a header's byte.
fn flags_of(heads: HeadKind, master: u32, flags: u32) -> Flags
    ensures { result ≡ flags_of heads master flags }
{
    match heads {
        HeadKind::Bits24 => flags_from(master / 0x100_0000),
        HeadKind::Bits32 => flags_from(flags),
    }
}

/// A relocatable block's handle and its flags, if its master pointer is in the zone and leads to the block.
fn handle_owner(dump: &Dump, end: u32, at: u32, head: Head) -> Result<(Kind, Flags), Fault>
    requires zone { IsZone dump.now end }
    requires inside { at + head_size dump.now.heads ≤ end }
    ensures { result ≡ handle_owner dump.now end at head }
{
    let place = owner_place(dump, at);
    let slot = head.word;
    if slot < ZONE_HEADER {
        return Err(fault_at(dump, Problem::BadHandle, place, slot, ZONE_HEADER));
    }
    if end - 4 < slot {
        return Err(fault_at(dump, Problem::BadHandle, place, slot, end - 4));
    }
    let master = dump.word_at(slot);
    let contents = dump.base() + (at + dump.heads().head_size());
    let address = dump.address_in(master);
    if address == contents {
        let handle = Handle::new(dump.base() + slot);
        return Ok((
            Kind::Rel(handle),
            flags_of(dump.heads(), master, head.flags),
        ));
    }
    Err(fault_at(dump, Problem::BadMaster, slot, address, contents))
}

/// The owner that a block says it has.
fn owner_at(dump: &Dump, end: u32, at: u32, head: Head) -> Result<(Kind, Flags), Fault>
    requires zone { IsZone dump.now end }
    requires inside { at + head_size dump.now.heads ≤ end }
    ensures { result ≡ owner_at dump.now end at head head.tag }
{
    match head.tag {
        Tag::Free => Ok((Kind::Free, Flags::NONE)),
        Tag::Fixed => {
            let contents = dump.base() + (at + dump.heads().head_size());
            fixed_owner(dump, at, head, Kind::Ptr(Ptr::new(contents)))
        }
        Tag::Master => fixed_owner(dump, at, head, Kind::Master),
        Tag::Relocatable => handle_owner(dump, end, at, head),
        Tag::None => Err(fault_at(dump, Problem::BadTag, at, 3, 2)),
    }
}

/// The bytes of a block's contents.
fn length_of(dump: &Dump, head: Head) -> u32
    requires { least_size dump.now head ≤ head.size }
    ensures { result ≡ length_of dump.now head head.tag }
{
    match head.tag {
        Tag::Free => 0,
        Tag::Fixed | Tag::Master | Tag::Relocatable | Tag::None => {
            head.size - dump.heads().head_size() - head.correction
        }
    }
}

/// The block at a place, or the first thing that is wrong with it.
pub(crate) fn block_at(dump: &Dump, end: u32, at: u32) -> Result<Block, Fault>
    requires zone { IsZone dump.now end }
    requires inside { at < end }
    ensures block { result ≡ block_at dump.now end at }
    ensures goes_on { IfOk result (λ block. at < at + block.entry.size) }
    ensures stays { IfOk result (λ block. at + block.entry.size ≤ end) }
{
    let least = dump.heads().head_size();
    if end - at < least {
        return Err(fault_at(dump, Problem::CutHeader, at, end - at, least));
    }
    let head = head_at(dump, at);
    if let Some(fault) = size_fault(dump, end, at, head) {
        return Err(fault);
    }
    let (kind, flags) = owner_at(dump, end, at, head)?;
    Ok(Block {
        address: dump.base() + at,
        entry: Entry {
            size: head.size,
            kind,
        },
        length: length_of(dump, head),
        flags,
    })
}
