//! Master blocks compared with other bytes.

ghost use Rattle.std.specs.Prelude.{◌≡◌, ◌≢◌, ℕ, ◌+◌, ◌-◌, ◌<◌, ◌≤◌, ◌↔◌, length, IfNone, IfSome, IsTrue};
ghost use Rattle.mac_base.specs.declared.block.HeadKind.TheVariants.{Bits24};
ghost use Rattle.mac_base.specs.HeadKind.{head_size, master_length, slot_count, zone_header};
ghost use Rattle.raw_region.specs.Bytes.{part};
ghost use Rattle.block_bytes.specs.declared.header.Role.TheVariants.{Master};
ghost use Rattle.block_bytes.specs.Finding.{SplitAt};
ghost use Rattle.block_bytes.specs.Layout.{BlockAt, image_of};
ghost use Rattle.block_bytes.specs.Structure.{begun_before};
ghost use Rattle.zone_records.specs.Masters.{BlocksAgree, BlocksSame, FirstOther, IsSame, OtherFlags, SameWhere, SameWord, SlotsAgree, SlotsSame, WordAgrees};
ghost use Rattle.zone_records.specs.Reading.{AreSound, records_in};
ghost use Rattle.zone_records.specs.Structure.{FirstChanged, HasStructure, NoneChanged, Means};
ghost use Rattle.zone_records.specs.Word.{slot_in, slot_word, slots_in, words_of};

use crate::slot::{Slot, flags_from};
use crate::structure::Agreement;
use block_bytes::{Blocks, Compared};
use byteorder::{BigEndian, ByteOrder};
use mac_base::block::{Flags, HeadKind};
use mac_base::size::{SLOT_COUNT, ZONE_HEADER};

/// Whether a word that isn't that of a slot of 24-bit blocks agrees with it: the slot is full, and the words are equal
/// but for the three bits that say flags. A word of 0 says an empty slot.
fn differ_in_flags(ours: u32, theirs: u32) -> bool
    requires right { slot_word Bits24 (slot_in Bits24 ours) ≡ ours }
    requires other { ours ≢ theirs }
    ensures { IsTrue result ↔ WordAgrees Bits24 ours theirs }
{
    match Slot::read(HeadKind::Bits24, ours) {
        Slot::Full(_, contents) => theirs != 0 && theirs % 0x2000_0000 == contents,
        Slot::Free(_) | Slot::Empty => false,
    }
}

/// How another word agrees with that of a slot.
pub(crate) fn compare_words(heads: HeadKind, ours: u32, theirs: u32) -> Agreement
    requires { slot_word heads (slot_in heads ours) ≡ ours }
    ensures { Means result (WordAgrees heads ours theirs) (SameWord heads ours theirs) }
{
    if ours == theirs {
        return Agreement::Same;
    }
    match heads {
        HeadKind::Bits24 => {
            if differ_in_flags(ours, theirs) {
                Agreement::FlagsChanged
            } else {
                Agreement::Damaged
            }
        }
        HeadKind::Bits32 => Agreement::Damaged,
    }
}

/// How bytes at an offset agree with the contents of a master block.
fn compare_slots(heads: HeadKind, ours: &[u8], bytes: &[u8], start: usize) -> Agreement
    requires long { length ours.now ≡ master_length }
    requires inside { start + master_length ≤ length bytes.now }
    requires right { ours.now ≡ words_of heads (slots_in heads slot_count ours.now) }
    ensures { Means result (SlotsAgree heads bytes.now slot_count start ours.now) (SlotsSame heads bytes.now slot_count start ours.now) }
{
    let mut agreement = Agreement::Same;
    for index in 0..SLOT_COUNT {
        let place = 4 * index as usize;
        let here = BigEndian::read_u32(&ours[place..]);
        let there = BigEndian::read_u32(&bytes[start + place..]);
        agreement = agreement.with(compare_words(heads, here, there));
    }
    agreement
}

/// Whether bytes have others at an offset.
fn has_at(bytes: &[u8], start: usize, others: &[u8]) -> bool
    requires { start + length others.now ≤ length bytes.now }
    ensures { IsTrue result ↔ part bytes.now start (length others.now) ≡ others.now }
{
    &bytes[start..start + others.len()] == others
}

/// How bytes agree with the contents of the master block at an address, in their place. Mostly they are equal.
fn compare_master(blocks: &Blocks, bytes: &[u8], at: u32) -> Agreement
    requires sound { AreSound blocks.now }
    requires whole { length bytes.now ≡ length (image_of blocks.now) }
    requires block { BlockAt blocks.now at }
    requires master { (b : BlockAt blocks.now at) → b.here.role ≡ Master }
    ensures { (b : BlockAt blocks.now at) → let start = at - blocks.now.base + head_size blocks.now.heads in
        Means result (SlotsAgree blocks.now.heads bytes.now slot_count start b.here.contents) (SlotsSame blocks.now.heads bytes.now slot_count start b.here.contents) }
{
    let spec = blocks.spec();
    let ours = blocks.contents(at);
    let start = (at - spec.base() + spec.heads().head_size()) as usize;
    if has_at(bytes, start, ours) {
        return Agreement::Same;
    }
    compare_slots(spec.heads(), ours, bytes, start)
}

/// How as many bytes as a zone has agree with the headers of the blocks from an address on that begin before another,
/// and with the master blocks among these.
pub(crate) fn compare_blocks(blocks: &Blocks, bytes: &[u8], from: u32, end: u32) -> Agreement
    requires sound { AreSound blocks.now }
    requires whole { length bytes.now ≡ length (image_of blocks.now) }
    requires split { SplitAt blocks.now from }
    ensures { (s : SplitAt blocks.now from) → let l = blocks.now in let bs = begun_before l.heads from end s.after in
        Means result (BlocksAgree l bytes.now (from - l.base) bs) (BlocksSame l bytes.now (from - l.base) bs) }
{
    let mut agreement = Agreement::Same;
    let mut at = from;
    loop {
        match blocks.compare_until(bytes, at, end) {
            Compared::Differ => return Agreement::Damaged,
            Compared::AllAgree => return agreement,
            Compared::NextMaster(master) => {
                agreement = agreement.with(compare_master(blocks, bytes, master));
                at = master + blocks.entry_at(master).size;
            }
        }
    }
}

/// How as many bytes as a zone has agree with the headers of all its blocks and with its master blocks. Mostly they are
/// equal.
pub(crate) fn compare_all(blocks: &Blocks, bytes: &[u8]) -> Agreement
    requires sound { AreSound blocks.now }
    requires whole { length bytes.now ≡ length (image_of blocks.now) }
    ensures { Means result (BlocksAgree blocks.now bytes.now zone_header blocks.now.blocks) (BlocksSame blocks.now bytes.now zone_header blocks.now.blocks) }
{
    if blocks.has_own_bytes(bytes) {
        return Agreement::Same;
    }
    let first = blocks.spec().base() + ZONE_HEADER;
    compare_blocks(blocks, bytes, first, blocks.end())
}

/// The first slot of a master block, from one of them on, of which bytes say other flags.
fn changed_index(heads: HeadKind, ours: &[u8], bytes: &[u8], start: usize, from: u32) -> Option<u32>
    requires long { length ours.now ≡ master_length }
    requires inside { start + master_length ≤ length bytes.now }
    requires right { ours.now ≡ words_of heads (slots_in heads slot_count ours.now) }
    requires agree { SlotsAgree heads bytes.now slot_count start ours.now }
    ensures first { IfSome result (λ index. FirstOther heads bytes.now start ours.now from index) }
    ensures none { IfNone result ((k : ℕ) → k < slot_count → from ≤ k → IsSame heads bytes.now start ours.now k) }
{
    for index in from..SLOT_COUNT {
        let place = 4 * index as usize;
        if BigEndian::read_u32(&ours[place..]) != BigEndian::read_u32(&bytes[start + place..]) {
            return Some(index);
        }
    }
    None
}

/// The first slot of the master block at an address, from another address on, of which bytes say other flags, and these
/// flags.
fn changed_slot(blocks: &Blocks, bytes: &[u8], at: u32, from: u32) -> Option<(u32, Flags)>
    requires sound { AreSound blocks.now }
    requires whole { length bytes.now ≡ length (image_of blocks.now) }
    requires block { BlockAt blocks.now at }
    requires master { (b : BlockAt blocks.now at) → b.here.role ≡ Master }
    requires agree { (b : BlockAt blocks.now at) → SlotsAgree blocks.now.heads bytes.now slot_count (at - blocks.now.base + head_size blocks.now.heads) b.here.contents }
    ensures first { IfSome result (λ found. (b : BlockAt blocks.now at) → OtherFlags blocks.now bytes.now (at - blocks.now.base + head_size blocks.now.heads) b.here.contents from found.0 found.1) }
    ensures none { IfNone result ((b : BlockAt blocks.now at) → SameWhere (λ x. from ≤ x) blocks.now bytes.now (at - blocks.now.base + head_size blocks.now.heads) b.here.contents) }
{
    let spec = blocks.spec();
    let ours = blocks.contents(at);
    let first = at + spec.heads().head_size();
    let start = (first - spec.base()) as usize;
    let low = from.saturating_sub(first).div_ceil(4);
    let index = changed_index(spec.heads(), ours, bytes, start, low)?;
    let high = bytes[start + 4 * index as usize];
    Some((first + 4 * index, flags_from(u32::from(high))))
}

/// The first slot from an address on of which bytes with a zone's structure say other flags, and these flags.
pub(crate) fn first_changed(blocks: &Blocks, bytes: &[u8], from: u32) -> Option<(u32, Flags)>
    requires sound { AreSound blocks.now }
    requires same { HasStructure (records_in blocks.now) bytes.now }
    ensures first { IfSome result (λ found. FirstChanged (records_in blocks.now) bytes.now from found.0 found.1) }
    ensures none { IfNone result (NoneChanged (records_in blocks.now) bytes.now from) }
{
    let first = blocks.spec().base() + ZONE_HEADER;
    let mut at = blocks.holder(from.max(first))?;
    while let Compared::NextMaster(master) = blocks.compare_from(bytes, at) {
        if let Some(found) = changed_slot(blocks, bytes, master, from) {
            return Some(found);
        }
        at = master + blocks.entry_at(master).size;
    }
    None
}
