//! A zone made of bytes that others wrote.

use crate::zone::LinkedZone;
use mac_base::zone_spec::ZoneSpec;
use raw_region::Region;
use std::alloc::Global;
use zone_records::{NotAdopted, Records};

impl LinkedZone {
    ghost use Rattle.std.specs.Prelude.{◌≡◌, [], IfOk, IfErr};
    ghost use Rattle.block_bytes.specs.declared.adopting.WhyNot.TheVariants.{NotZone};
    ghost use Rattle.linked_zone.specs.Adopting.{IsZoneIn};
    ghost use Rattle.mac_base.specs.ZoneState.{ZoneState, own_memory};

    /// The zone of these sizes whose bytes a region has, whoever wrote them.
    pub fn adopt(alloc: Global, spec: ZoneSpec, region: Region) -> Result<LinkedZone, NotAdopted>
        requires whole { region.lent ≡ [] }
        ensures zone { IfOk result (λ zone. IsZoneIn spec region.bytes zone × (zone.memory ≡ own_memory region.name)) }
        ensures same { IfErr result (λ no. no.region ≡ region) }
        ensures none { IfErr result (λ no. no.why ≡ NotZone → (z : ZoneState) → IsZoneIn spec region.bytes z → ⊥) }
    {
        let _base = spec.base();
        let records = Records::adopt(alloc, spec, region)?;
        Ok(LinkedZone { records })
    }
}
