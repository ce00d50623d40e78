//! A zone made of bytes that others wrote.

ghost use Rattle.std.specs.Prelude.{◌≡◌, ◌+◌, ◌*◌, ◌/◌, ◌^◌, ◌<◌, [], length, replicate, IfOk, IfErr, IfSome, IfNone, IsTrue, IsFalse};
ghost use Rattle.block_bytes.specs.Adopting.{BlocksUpTo, IsZoneIn, ZoneRead};
ghost use Rattle.block_bytes.specs.Layout.{Layout};
ghost use Rattle.block_bytes.specs.Starts.{first_marked};
ghost use Rattle.block_bytes.specs.declared.adopting.WhyNot.TheVariants.{NotZone};
ghost use Rattle.mac_base.specs.ZoneState.{own_memory};

use crate::blocks::Blocks;
use crate::memory::Memory;
use mac_base::size::ZONE_HEADER;
use mac_base::zone_spec::ZoneSpec;
use place_numbers::Numbers;
use raw_region::Region;
use std::alloc::Global;

/// Why no zone is made of bytes.
#[derive(Clone, Copy, Debug, PartialEq, Eq)]
pub enum WhyNot {
    /// The host has no memory for what is kept beside the zone.
    HostFull,
    /// They aren't the bytes of a zone of these sizes.
    NotZone,
}

/// A region of whose bytes no zone was made.
pub struct NotAdopted {
    /// The region, as it was given.
    pub region: Region,
    /// Why.
    pub why: WhyNot,
}

/// Reads the blocks of a zone of these sizes into an index of zeros, and returns how many bytes are free. None where
/// the bytes after the zone's header aren't those of possible blocks that end where the zone does.
fn read_blocks(memory: &Memory, spec: ZoneSpec, index: &mut Numbers) -> Option<u32>
    requires whole { length memory.now.bytes ≡ spec.limit }
    requires unlent { memory.now.lent ≡ [] }
    requires zeros { index.old ≡ replicate (spec.limit / 4) 0 }
    ensures some { IfSome result (λ free. BlocksUpTo spec memory.now.bytes index.new spec.size free) }
    ensures none { IfNone result ((l : Layout) → IsZoneIn spec memory.now.bytes l → ⊥) }
{
    let heads = spec.heads();
    let base = spec.base();
    let size = spec.size() as usize;
    let _limit = spec.limit();
    let mut free = 0;
    let mut at = ZONE_HEADER as usize;
    while at < size {
        let Some(header) = memory.possible_header(heads, base, at, size - at) else {
            return None;
        };
        index.set(at / 4, header.mark());
        free += header.free_bytes();
        at += header.size as usize;
    }
    Some(free)
}

/// The address of the lowest free block, by the index of a zone that begins at `base`, or 0.
fn lowest_free(index: &Numbers, base: u32) -> u32
    requires { base + 4 * length index.now < 2 ^ 32 }
    ensures { result ≡ first_marked base index.now }
{
    let _len = index.len();
    match index.first_most(0) {
        Some(place) => base + 4 * place as u32,
        None => 0,
    }
}

/// Whether a zone of these sizes is in the bytes. An index of zeros becomes that of the zone.
fn is_zone(memory: &Memory, spec: ZoneSpec, index: &mut Numbers) -> bool
    requires whole { length memory.now.bytes ≡ spec.limit }
    requires unlent { memory.now.lent ≡ [] }
    requires zeros { index.old ≡ replicate (spec.limit / 4) 0 }
    ensures yes { IsTrue result → ZoneRead spec memory.now index.new }
    ensures no { IsFalse result → (l : Layout) → IsZoneIn spec memory.now.bytes l → ⊥ }
{
    let Some(free) = read_blocks(memory, spec, index) else {
        return false;
    };
    let base = spec.base();
    let lowest = lowest_free(index, base);
    memory.is_zone_head(base + spec.size(), free, lowest)
}

impl Blocks {
    /// The zone of these sizes whose bytes a region has, whoever wrote them.
    pub fn adopt(alloc: Global, spec: ZoneSpec, region: Region) -> Result<Blocks, NotAdopted>
        requires whole { region.lent ≡ [] }
        ensures zone { IfOk result (λ zone. IsZoneIn spec region.bytes zone × (zone.memory ≡ own_memory region.name)) }
        ensures same { IfErr result (λ no. no.region ≡ region) }
        ensures none { IfErr result (λ no. no.why ≡ NotZone → (l : Layout) → IsZoneIn spec region.bytes l → ⊥) }
    {
        let why = WhyNot::NotZone;
        let limit = spec.limit() as usize;
        if region.len() != limit {
            return Err(NotAdopted { region, why });
        }
        let Ok(mut index) = Numbers::create(alloc, limit / 4) else {
            let why = WhyNot::HostFull;
            return Err(NotAdopted { region, why });
        };
        let memory = Memory::of(region);
        if is_zone(&memory, spec, &mut index) {
            return Ok(Blocks {
                spec,
                memory,
                index,
                loans: 0,
                kept: None,
            });
        }
        drop(index);
        let region = memory.into_region();
        Err(NotAdopted { region, why })
    }
}
