//! A Memory Manager over bytes that others wrote.

use crate::manager::MemoryManager;
use linked_zone::NotAdopted;
use mac_base::zone_spec::{LARGEST_LIMIT, ZoneSpec};
use raw_region::Region;
use std::alloc::Global;
use zone_heap::Zone;

impl MemoryManager {
    ghost use Rattle.std.specs.Prelude.{◌≡◌, [], IfOk, IfErr};
    ghost use Rattle.block_bytes.specs.declared.adopting.WhyNot.TheVariants.{NotZone};
    ghost use Rattle.linked_zone.specs.Adopting.{IsZoneIn};
    ghost use Rattle.mac_base.specs.ZoneState.{ZoneState, own_memory};

    /// The Memory Manager of the zone of these sizes whose bytes a region has, whoever wrote them: of a save state, or
    /// of another program's zone. There is one only where a sound zone of these sizes has these bytes. NotZone comes
    /// only where none has, and HostFull where the host has no memory for the index; the region then comes back as it
    /// was.
    pub fn adopt(alloc: Global, spec: ZoneSpec, region: Region) -> Result<MemoryManager, NotAdopted>
        requires whole { region.lent ≡ [] }
        ensures zone { IfOk result (λ zone. IsZoneIn spec region.bytes zone × (zone.memory ≡ own_memory region.name)) }
        ensures same { IfErr result (λ no. no.region ≡ region) }
        ensures none { IfErr result (λ no. no.why ≡ NotZone → (z : ZoneState) → IsZoneIn spec region.bytes z → ⊥) }
    {
        prove!(spec.limit() <= LARGEST_LIMIT);
        let zone = Zone::adopt(alloc, spec, region)?;
        Ok(MemoryManager { zone })
    }
}
