//! The list of a zone's blocks.

ghost use Rattle.std.specs.Prelude.{◌≡◌, IfOk, []};
ghost use Rattle.mac_base.specs.BlockReport.{reports_from};
ghost use Rattle.mac_base.specs.ZoneMap.{address_after};
ghost use Rattle.mac_base.specs.declared.memory_call.MemoryCall.TheVariants.{Showing};
ghost use Rattle.mac_base.specs.declared.memory_call.ShowingCall.TheVariants.{ZoneMap};
ghost use Rattle.held_calls.specs.Making.{MemorySteps};

use mac_base::block::{Block, Entry};
use mac_base::error::HostFull;
use mac_base::{BlockList, Outcome, Results};
use mem_calls::MemoryManager;
use std::alloc::Global;

/// ZoneMap: the blocks of the zone.
pub(crate) fn zone_map(memory: &MemoryManager, alloc: Global) -> Result<Outcome, HostFull>
    ensures { IfOk result (λ outcome. MemorySteps memory.now (Showing ZoneMap) [] outcome memory.now) }
{
    let blocks = BlockList::new(blocks(memory, alloc)?);
    Ok(Ok(Results::Blocks(blocks)))
}

/// The blocks of the zone, lowest first: each header comes after the block before it.
fn blocks(memory: &MemoryManager, alloc: Global) -> Result<Vec<Block>, HostFull>
    ensures { IfOk result (λ blocks.
        blocks.items ≡ reports_from memory.now.heap.table (address_after memory.now.shape []) memory.now.heap.map) }
{
    let mut blocks = Vec::new(alloc);
    let mut at = memory.first_block();
    while let Some(block) = memory.entry(at) {
        // Taken apart down to its kind: the prover must see each type that the list holds.
        let Block {
            address,
            entry: Entry { size, kind },
            length,
            flags,
        } = block;
        blocks.push(Block {
            address,
            entry: Entry { size, kind },
            length,
            flags,
        })?;
        at += size;
    }
    Ok(blocks)
}
