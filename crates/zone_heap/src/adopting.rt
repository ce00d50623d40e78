//! A zone made of bytes that others wrote.

use crate::zone::Zone;
use linked_zone::NotAdopted;
use mac_base::zone_spec::ZoneSpec;
use raw_region::Region;
use std::alloc::Global;
use zone_index::IndexedZone;

impl Zone {
    ghost use Rattle.std.specs.Prelude.{◌≡◌, [], IfOk, IfErr};
    ghost use Rattle.block_bytes.specs.declared.adopting.WhyNot.TheVariants.{NotZone};
    ghost use Rattle.linked_zone.specs.Adopting.{IsZoneIn};
    ghost use Rattle.mac_base.specs.ZoneState.{ZoneState, own_memory};

    /// The zone of these sizes whose bytes a region has, whoever wrote them.
    pub fn adopt(alloc: Global, spec: ZoneSpec, region: Region) -> Result<Zone, NotAdopted>
        requires whole { region.lent ≡ [] }
        ensures zone { IfOk result (λ zone. IsZoneIn spec region.bytes zone × (zone.memory ≡ own_memory region.name)) }
        ensures same { IfErr result (λ no. no.region ≡ region) }
        ensures none { IfErr result (λ no. no.why ≡ NotZone → (z : ZoneState) → IsZoneIn spec region.bytes z → ⊥) }
    {
        let pointers = IndexedZone::adopt(alloc, spec, region)?;
        Ok(Zone { pointers })
    }
}
