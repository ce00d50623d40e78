//! A session whose zone is made of bytes that others wrote.

ghost use Rattle.std.specs.Prelude.{◌≡◌, ◌+◌, ◌-◌, ◌^◌, ◌<◌, ◌≤◌, ◌++◌, [], length, replicate, IfOk, IfErr};
ghost use Rattle.block_bytes.specs.declared.adopting.WhyNot.TheVariants.{HostFull, NotZone};
ghost use Rattle.mac_base.specs.HeadKind.{zone_header};
ghost use Rattle.held_zone.specs.Fields.{managed};

use crate::fields::GuestFields;
use crate::purges::Purges;
use crate::session::Session;
use arrayvec::ArrayVec;
use held_calls::answers::AnswerQueue;
use held_calls::loans::Loans;
use linked_zone::{NotAdopted, WhyNot};
use mac_base::zone_spec::ZoneSpec;
use mem_calls::MemoryManager;
use raw_region::Region;
use std::alloc::Global;

/// A region of `len` bytes that begins with these, as the Memory Manager has them, and has zeros after them.
fn region_of(alloc: Global, len: usize, bytes: &[u8]) -> Result<Region, WhyNot>
    requires small { len < 2 ^ 63 }
    requires room { length bytes.now ≤ len }
    requires head { zone_header ≤ length bytes.now }
    ensures bytes { IfOk result (λ region. region.bytes ≡ managed bytes.now ++ replicate (len - length bytes.now) 0) }
    ensures whole { IfOk result (λ region. region.lent ≡ []) }
    ensures full { IfErr result (λ why. why ≡ HostFull) }
{
    let Ok(mut region) = Region::create(alloc, len) else {
        return Err(WhyNot::HostFull);
    };
    let front = region.bytes_mut(0, bytes.len());
    front.copy_from_slice(bytes);
    GuestFields::new().write(front);
    Ok(region)
}

/// Why no zone was made of a region, which ends.
fn why_not(no: NotAdopted) -> WhyNot
    requires { no.region.lent ≡ [] }
    ensures { result ≡ no.why }
{
    let NotAdopted { region, why } = no;
    drop(region);
    why
}

impl Session {
    ghost use Rattle.linked_zone.specs.Adopting.{IsZoneIn};
    ghost use Rattle.mac_base.specs.ZoneState.{ZoneState};
    ghost use Rattle.held_zone.specs.Asleep.{IsAsleep};
    ghost use Rattle.held_zone.specs.Attaching.{IsIdle, IsZoneOf};
    ghost use Rattle.held_zone.specs.Fields.{fields_in, managed};

    /// The zone of these sizes that is in bytes, whoever wrote them, with the guest's fields that they have: asleep, in
    /// memory of its own that has these bytes.
    pub fn attach(alloc: Global, spec: ZoneSpec, bytes: &[u8]) -> Result<Box<Session>, WhyNot>
        requires { length bytes.now ≡ spec.limit }
        ensures zone { IfOk result (λ session. IsZoneIn spec (managed bytes.now) session.value.zone) }
        ensures guest { IfOk result (λ session. session.value.guest ≡ fields_in bytes.now) }
        ensures idle { IfOk result (λ session. IsIdle session.value) }
        ensures asleep { IfOk result (λ session. IsAsleep session.value) }
        ensures none { IfErr result (λ why. why ≡ NotZone → (z : ZoneState) → IsZoneIn spec (managed bytes.now) z → ⊥) }
    {
        let region = region_of(alloc, spec.limit() as usize, bytes)?;
        Session::adopt(alloc, spec, region, GuestFields::read(bytes))
    }

    /// The zone of these sizes whose bytes, from its start to the end of its last block, these are, with the guest's
    /// fields that they have.
    pub fn restore(alloc: Global, spec: ZoneSpec, image: &[u8]) -> Result<Box<Session>, WhyNot>
        requires { length image.now ≡ spec.size }
        ensures zone { IfOk result (λ session. IsZoneOf spec (managed image.now) session.value.zone) }
        ensures guest { IfOk result (λ session. session.value.guest ≡ fields_in image.now) }
        ensures idle { IfOk result (λ session. IsIdle session.value) }
        ensures none { IfErr result (λ why. why ≡ NotZone → (z : ZoneState) → IsZoneOf spec (managed image.now) z → ⊥) }
    {
        let region = region_of(alloc, spec.limit() as usize, image)?;
        Session::adopt(alloc, spec, region, GuestFields::read(image))
    }

    /// The zone of these sizes that is in a region, of which nothing is lent, with these fields of a guest's.
    fn adopt(
        alloc: Global,
        spec: ZoneSpec,
        region: Region,
        guest: GuestFields,
    ) -> Result<Box<Session>, WhyNot>
        requires whole { region.lent ≡ [] }
        ensures zone { IfOk result (λ session. IsZoneIn spec region.bytes session.value.zone) }
        ensures guest { IfOk result (λ session. session.value.guest ≡ guest) }
        ensures idle { IfOk result (λ session. IsIdle session.value) }
        ensures asleep { IfOk result (λ session. IsAsleep session.value) }
        ensures none { IfErr result (λ why. why ≡ NotZone → (z : ZoneState) → IsZoneIn spec region.bytes z → ⊥) }
    {
        let Ok(answers) = AnswerQueue::with_room(alloc) else {
            return Err(WhyNot::HostFull);
        };
        let memory = match MemoryManager::adopt(alloc, spec, region) {
            Ok(memory) => memory,
            Err(no) => return Err(why_not(no)),
        };
        let session = Session {
            memory,
            loans: Loans::new(),
            answers,
            waiting: ArrayVec::new(),
            guest,
            purges: Purges::new(),
        };
        match Box::new(alloc, session) {
            Ok(session) => Ok(session),
            Err(_) => Err(WhyNot::HostFull),
        }
    }
}
