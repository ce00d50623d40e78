//! A zone made of bytes that others wrote, which are tested before it is one: each block by itself, then the blocks
//! with the slots, then the free slots.

ghost use Rattle.std.specs.Prelude.{◌≡◌, ◌↔◌, ◌<◌, ◌^◌, [], length, IfOk, IfErr, IsTrue};
ghost use Rattle.std.specs.List.{All};
ghost use Rattle.mac_base.specs.HeadKind.{master_length, slot_count};
ghost use Rattle.mac_base.specs.ZoneState.{own_memory};
ghost use Rattle.block_bytes.specs.Layout.{BlockAt, NothingLent, UnlentAt};
ghost use Rattle.block_bytes.specs.declared.adopting.WhyNot.TheVariants.{NotZone};
ghost use Rattle.zone_records.specs.Adopting.{IsUsed, IsZoneIn};
ghost use Rattle.zone_records.specs.Linking.{IsWhole};
ghost use Rattle.zone_records.specs.Reading.{AreSound};
ghost use Rattle.zone_records.specs.Records.{ZoneRecords};
ghost use Rattle.zone_records.specs.Word.{slot_in, slot_word, slots_in, words_of};

use crate::chained::is_chained;
use crate::linking::free_if_right;
use crate::records::Records;
use block_bytes::{Blocks, NotAdopted, Role, WhyNot};
use byteorder::{BigEndian, ByteOrder};
use mac_base::block::HeadKind;
use mac_base::size::{MASTER_LENGTH, SLOT_COUNT, ZONE_HEADER};
use mac_base::zone_spec::ZoneSpec;
use raw_region::Region;
use std::alloc::Global;

/// Whether a word is that of the slot that it says: in a zone of 24-bit blocks its high byte has no other bits than
/// those of flags, or than that of a free slot.
fn says_itself(heads: HeadKind, word: u32) -> bool
    ensures { IsTrue result ↔ slot_word heads (slot_in heads word) ≡ word }
{
    match heads {
        HeadKind::Bits24 => {
            let high = word / 0x100_0000;
            high == 1 || high % 32 == 0
        }
        HeadKind::Bits32 => true,
    }
}

/// Whether the contents of a master block are the words of slots.
fn are_words(heads: HeadKind, words: &[u8]) -> bool
    requires { length words.now ≡ master_length }
    ensures { IsTrue result ↔ words.now ≡ words_of heads (slots_in heads slot_count words.now) }
{
    for index in 0..SLOT_COUNT {
        let place = 4 * index as usize;
        if !says_itself(heads, BigEndian::read_u32(&words[place..])) {
            return false;
        }
    }
    true
}

/// Whether the block at an address, which is for this, has what it is for.
fn is_used(blocks: &Blocks, at: u32, role: Role) -> bool
    requires unlent { UnlentAt blocks.now at }
    requires role { (b : BlockAt blocks.now at) → role ≡ b.here.role }
    ensures { (b : BlockAt blocks.now at) → IsTrue result ↔ IsUsed blocks.now.heads blocks.now.base b.here }
{
    let spec = blocks.spec();
    match role {
        Role::Free | Role::Fixed => true,
        Role::Master => {
            let words = blocks.contents(at);
            words.len() == MASTER_LENGTH as usize && are_words(spec.heads(), words)
        }
        Role::Relocatable(offset, _) => offset <= u32::MAX - spec.base(),
    }
}

/// Whether all blocks of a zone have what they are for.
fn are_used(blocks: &Blocks) -> bool
    requires { NothingLent blocks.now }
    ensures { IsTrue result ↔ All (IsUsed blocks.now.heads blocks.now.base) blocks.now.blocks }
{
    let end = blocks.end();
    let mut at = blocks.spec().base() + ZONE_HEADER;
    while at < end {
        let header = blocks.entry_at(at);
        if !is_used(blocks, at, header.role) {
            return false;
        }
        at += header.size;
    }
    true
}

/// Whether possible blocks have what they are for, they and slots say each other, nothing can be joined or cut, and
/// free slots follow one another.
fn is_whole(blocks: &Blocks) -> bool
    requires unlent { NothingLent blocks.now }
    requires sound { All (IsUsed blocks.now.heads blocks.now.base) blocks.now.blocks → AreSound blocks.now }
    ensures whole { IsTrue result ↔ IsWhole blocks.now }
    ensures front { blocks.now.front < 2 ^ 32 }
{
    let _front = blocks.front();
    if !are_used(blocks) {
        return false;
    }
    match free_if_right(blocks) {
        Some(free) => is_chained(blocks, free),
        None => false,
    }
}

impl Records {
    /// The zone of these sizes whose bytes a region has, whoever wrote them: possible blocks that have what they are
    /// for, handles' blocks and slots that say each other, free slots that follow one another, and nothing that could
    /// be joined or cut. `NotZone` comes where the bytes aren't those of such a zone, and `HostFull` where the host has
    /// no memory for what is kept beside it. The region then comes back as it was.
    pub fn adopt(alloc: Global, spec: ZoneSpec, region: Region) -> Result<Records, NotAdopted>
        requires whole { region.lent ≡ [] }
        ensures zone { IfOk result (λ zone. IsZoneIn spec region.bytes zone × (zone.memory ≡ own_memory region.name)) }
        ensures same { IfErr result (λ no. no.region ≡ region) }
        ensures none { IfErr result (λ no. no.why ≡ NotZone → (z : ZoneRecords) → IsZoneIn spec region.bytes z → ⊥) }
    {
        let _base = spec.base();
        let blocks = Blocks::adopt(alloc, spec, region)?;
        if is_whole(&blocks) {
            return Ok(Records { blocks });
        }
        let region = blocks.into_region();
        let why = WhyNot::NotZone;
        Err(NotAdopted { region, why })
    }
}
