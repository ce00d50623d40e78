//! The first byte of a zone's structure that isn't right.

ghost use Rattle.std.specs.Prelude.{◌≡◌, ◌+◌, ◌<◌, ◌↔◌, length, slice_index, IfSome, IfNone, IsTrue};
ghost use Rattle.mac_base.specs.HeadKind.{slot_count, master_length, zone_header};
ghost use Rattle.block_bytes.specs.declared.header.Role.TheVariants.{Master};
ghost use Rattle.block_bytes.specs.Layout.{BlockAt, NothingLent, image_of, total_of, zone_bytes};
ghost use Rattle.zone_records.specs.Faults.{IsFirstFault, IsWrong, Keeps, KeepsOwn, MayBe, MayHave};
ghost use Rattle.zone_records.specs.Parts.{IsInPart};
ghost use Rattle.zone_records.specs.Reading.{AreSound, records_in};
ghost use Rattle.zone_records.specs.Structure.{HasStructure};
ghost use Rattle.zone_records.specs.Word.{slots_in, words_of};

use crate::masters::compare_words;
use crate::structure::{Agreement, Part};
use block_bytes::{Blocks, Role};
use byteorder::{BigEndian, ByteOrder};
use mac_base::block::HeadKind;
use mac_base::size::{MASTER_LENGTH, ZONE_HEADER};

/// Whether a master pointer among these agrees with the same one when its first byte is another. The offset is that of
/// a byte of it, and no other than the first may be another one.
fn agrees_with(heads: HeadKind, ours: &[u8], at: usize, byte: u8) -> bool
    requires long { length ours.now ≡ master_length }
    requires right { ours.now ≡ words_of heads (slots_in heads slot_count ours.now) }
    requires inside { at < master_length }
    ensures { IsTrue result ↔ MayBe heads ours.now at byte }
{
    if at % 4 != 0 {
        return false;
    }
    let word = BigEndian::read_u32(&ours[at..]);
    let other = 0x100_0000 * u32::from(byte) + word % 0x100_0000;
    !matches!(compare_words(heads, word, other), Agreement::Damaged)
}

/// Whether a byte may be at an offset after the header of the master block at an address.
fn may_have(blocks: &Blocks, start: u32, at: u32, byte: u8) -> bool
    requires sound { AreSound blocks.now }
    requires block { BlockAt blocks.now start }
    requires master { (b : BlockAt blocks.now start) → b.here.role ≡ Master }
    ensures { (b : BlockAt blocks.now start) → IsTrue result ↔ MayHave blocks.now.heads b.here.contents at byte }
{
    MASTER_LENGTH <= at
        || agrees_with(
            blocks.spec().heads(),
            blocks.contents(start),
            at as usize,
            byte,
        )
}

/// The part of a zone's structure in which a byte is wrong that isn't the zone's own. None where it may be another one:
/// outside of the structure, or in a master pointer whose flags it says.
fn fault_at(blocks: &Blocks, at: u32, byte: u8) -> Option<Part>
    requires sound { AreSound blocks.now }
    requires inside { at < zone_header + total_of blocks.now.heads blocks.now.blocks }
    requires other { slice_index (image_of blocks.now) at ≡ byte → ⊥ }
    ensures fault { IfSome result (λ part. IsInPart (records_in blocks.now) at part × IsWrong (records_in blocks.now) at byte) }
    ensures none { IfNone result (Keeps (records_in blocks.now) at byte) }
{
    if at < ZONE_HEADER {
        return Some(Part::ZoneHeader);
    }
    let spec = blocks.spec();
    let start = blocks.holder(spec.base() + at)?;
    let offset = spec.base() + at - start;
    let head = spec.heads().head_size();
    if offset < head {
        return Some(Part::BlockHeader);
    }
    let is_master = matches!(blocks.entry_at(start).role, Role::Master);
    if is_master && !may_have(blocks, start, offset - head, byte) {
        return Some(Part::MasterPointer);
    }
    None
}

/// The part of a zone's structure in which the byte at an offset is wrong, if it is. The zone's own bytes are given,
/// too.
fn wrong_at(blocks: &Blocks, own: &[u8], bytes: &[u8], at: usize) -> Option<Part>
    requires sound { AreSound blocks.now }
    requires own { own.now ≡ zone_bytes blocks.now }
    requires whole { length bytes.now ≡ length (image_of blocks.now) }
    requires inside { at < length own.now }
    ensures fault { IfSome result (λ part. IsInPart (records_in blocks.now) at part × IsWrong (records_in blocks.now) at (slice_index bytes.now at)) }
    ensures none { IfNone result (KeepsOwn (records_in blocks.now) at (slice_index own.now at) (slice_index bytes.now at)) }
{
    let byte = bytes[at];
    if own[at] == byte {
        return None;
    }
    fault_at(blocks, at as u32, byte)
}

/// The first byte that isn't as a zone's structure calls for, and the part of the structure that it is in.
pub(crate) fn first_fault(blocks: &Blocks, bytes: &[u8]) -> Option<(u32, Part)>
    requires sound { AreSound blocks.now }
    requires nothing_lent { NothingLent blocks.now }
    requires whole { length bytes.now ≡ length (image_of blocks.now) }
    ensures fault { IfSome result (λ found. IsFirstFault (records_in blocks.now) bytes.now found.0 found.1) }
    ensures none { IfNone result (HasStructure (records_in blocks.now) bytes.now) }
{
    let own = blocks.image();
    for at in 0..own.len() {
        if let Some(part) = wrong_at(blocks, own, bytes, at) {
            return Some((at as u32, part));
        }
    }
    None
}
