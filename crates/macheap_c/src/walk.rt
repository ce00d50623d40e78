//! The walk over the blocks of a zone.

ghost use Rattle.std.specs.Prelude.{◌≡◌};
ghost use Rattle.macheap_c.specs.Walk.{BlockTold, FirstTold, kind_number, owner_number, shown_block};

use held_zone::host_err::HostErr;
use held_zone::zone::MhZone;
use mac_base::block::{Block, Entry, Kind};
use mac_base::error::{NO_ERR, OsErr};
use mem_calls::state_of;
use std::alloc::Global;

/// A block: its header's address, its physical size, its kind (0 free, 1 master, 2 nonrelocatable, 3 relocatable), the
/// pointer or handle whose block it is, and the bytes of contents and the flags that this one has.
#[repr(C)]
#[derive(Clone, Copy)]
pub struct MhBlock {
    pub address: u32,
    pub size: u32,
    pub kind: u32,
    pub owner: u32,
    pub length: u32,
    pub flags: u32,
}

/// The address of the zone's first block header.
#[unsafe(no_mangle)]
pub extern "C" fn mh_first_block(alloc: Global, zone: &mut MhZone, at: &mut u32) -> i16
    ensures { FirstTold zone.old.held.session result at.old at.new zone.new.held.session }
{
    let Some(session) = zone.take(alloc) else {
        return HostErr::NotThere.code();
    };
    *at = session.memory.first_block();
    zone.put(session);
    NO_ERR
}

/// The block whose header is at an address. memWZErr where none is.
#[unsafe(no_mangle)]
pub extern "C" fn mh_block(alloc: Global, zone: &mut MhZone, at: u32, block: &mut MhBlock) -> i16
    ensures { BlockTold zone.old.held.session at result block.old block.new zone.new.held.session }
{
    let Some(session) = zone.take(alloc) else {
        return HostErr::NotThere.code();
    };
    let found = session.memory.entry(at);
    zone.put(session);
    match found {
        Some(found) => {
            *block = shown_block(found);
            NO_ERR
        }
        None => OsErr::MemWzErr.code(),
    }
}

/// A block as C is shown it.
pub(crate) fn shown_block(block: Block) -> MhBlock
    ensures { result ≡ shown_block block }
{
    let Block {
        address,
        entry: Entry { size, kind },
        length,
        flags,
    } = block;
    let (kind, owner) = kind_and_owner(kind);
    MhBlock {
        address,
        size,
        kind,
        owner,
        length,
        flags: state_of(flags),
    }
}

/// The number of a kind of block, and the pointer or the handle whose block it is, or 0 where it is nobody's.
fn kind_and_owner(kind: Kind) -> (u32, u32)
    ensures { result ≡ (kind_number kind, owner_number kind) }
{
    match kind {
        Kind::Free => (0, 0),
        Kind::Master => (1, 0),
        Kind::Ptr(pointer) => (2, pointer.number()),
        Kind::Rel(handle) => (3, handle.number()),
    }
}
