//! The memory of a zone.

ghost use Rattle.std.specs.Prelude.{◌≡◌, ◌+◌, ◌-◌, ◌≤◌, ◌<◌, ◌^◌, ◌++◌, ◌↔◌, [], ◌∷◌, length, replicate, take, drop, IfOk, IfSome, IfNone, IsTrue, IsFalse};
ghost use Rattle.std.specs.Borrow.{sem};
ghost use Rattle.byteorder.specs.Endian.{big_bytes, big_number};
ghost use Rattle.mac_base.specs.HeadKind.{address_end, head_size, zone_header};
ghost use Rattle.raw_region.specs.Bytes.{part, written};
ghost use Rattle.raw_region.specs.Span.{IsFree, IsListed, without};
ghost use Rattle.raw_region.specs.State.{State, with_bytes};
ghost use Rattle.block_bytes.specs.Adopting.{HasZoneHead, IsHeadAt};
ghost use Rattle.block_bytes.specs.Head.{head_bytes, header_in, most_over, owner_of};
ghost use Rattle.block_bytes.specs.ZoneHead.{zone_head, end_field, front_field, free_field, lowest_field};
ghost use Rattle.block_bytes.specs.Layout.{is_free};
ghost use Rattle.block_bytes.specs.Structure.{is_master};
ghost use Rattle.block_bytes.specs.WritingBack.{WritesBackPart};

use crate::header::{Header, Role, Step, flags_byte, is_same, step_in};
use byteorder::{BigEndian, ByteOrder};
use mac_base::block::HeadKind;
use mac_base::error::HostFull;
use mac_base::size::{SLOT_COUNT, ZONE_HEADER};
use raw_region::{Lent, Region};
use std::alloc::Global;
use std::marker::Model;

/// Where the zone's header has the address after the last block.
const END_FIELD: usize = 0;

/// Where it has the number of the free slots.
const FRONT_FIELD: usize = 8;

/// Where it has the sum of the sizes of the free blocks.
const FREE_FIELD: usize = 12;

/// Where it has how many master pointers a master block has.
const SLOTS_FIELD: usize = 20;

/// Where it has the address of the lowest free block.
const LOWEST_FIELD: usize = 48;

/// Writes other bytes over those at an offset.
pub(crate) fn write_at(bytes: &mut [u8], start: usize, others: &[u8])
    requires { start + length others.now ≤ length bytes.old }
    ensures { bytes.new ≡ written bytes.old start others.now }
{
    bytes[start..start + others.len()].copy_from_slice(others);
}

/// Whether bytes have others at an offset.
pub(crate) fn has_at(bytes: &[u8], start: usize, others: &[u8]) -> bool
    requires { start + length others.now ≤ length bytes.now }
    ensures { IsTrue result ↔ part bytes.now start (length others.now) ≡ others.now }
{
    &bytes[start..start + others.len()] == others
}

/// The bytes of a zone from its start to its limit. A contract sees what it sees of the region.
pub(crate) struct Memory {
    region: Region,
}

impl Model for Memory {
    ghost use Rattle.std.specs.Prelude.{◌≡◌};
    ghost use Rattle.raw_region.specs.State.{State};

    ghost Value = { State };

    ghost view = { λ m. m.region };
}

impl Drop for Memory {
    /// Memory ends only when nothing of it is lent.
    fn drop(self)
        requires nothing_lent { self.lent ≡ [] }
    {
        let Memory { region } = self;
        drop(region);
    }
}

/// The header of a zone: the address after its last block, the number of the free slots, how many bytes are free, and
/// the address of the lowest free block.
fn zone_head(end: u32, front: u32, free: u32, lowest: u32) -> [u8; ZONE_HEADER as usize]
    ensures { result ≡ zone_head end front free lowest }
{
    let mut head = [0; ZONE_HEADER as usize];
    BigEndian::write_u32(&mut head[END_FIELD..], end);
    BigEndian::write_u32(&mut head[FRONT_FIELD..], front);
    BigEndian::write_u32(&mut head[FREE_FIELD..], free);
    BigEndian::write_u16(&mut head[SLOTS_FIELD..], SLOT_COUNT as u16);
    BigEndian::write_u32(&mut head[LOWEST_FIELD..], lowest);
    head
}

#[tactic(auto, using(raw_region::proofs::Rules::upkeep))]
impl Memory {
    /// So many bytes of zero, of which none is lent.
    pub fn create(alloc: Global, length: usize) -> Result<Memory, HostFull>
        requires { length < 2 ^ 62 }
        ensures { IfOk result (λ memory. (memory.bytes ≡ replicate length 0) × (memory.lent ≡ [])) }
    {
        Ok(Memory {
            region: Region::create(alloc, length)?,
        })
    }

    /// A region's bytes.
    pub fn of(region: Region) -> Memory
        ensures { result ≡ region }
    {
        Memory { region }
    }

    /// The region whose bytes these are.
    pub fn into_region(self) -> Region
        ensures { result ≡ self }
    {
        let Memory { region } = self;
        region
    }

    /// How many bytes there are.
    pub fn len(&self) -> usize
        ensures { result ≡ length self.now.bytes }
    {
        self.region.len()
    }

    /// The `count` bytes from `at` on.
    pub fn bytes(&self, at: usize, count: usize) -> &[u8]
        requires inside { at + count ≤ length self.now.bytes }
        requires free { IsFree self.now.lent at count }
        ensures { result.now ≡ part self.now.bytes at count }
    {
        self.region.bytes(at, count)
    }

    /// The `count` bytes from `at` on, to be written.
    pub fn bytes_mut(&mut self, at: usize, count: usize) -> &mut [u8]
        requires inside { at + count ≤ length self.old.bytes }
        requires free { IsFree self.old.lent at count }
        ensures* writes_back { sem 𝓛 (WritesBackPart self.entry at count result) }
        ensures value { result.now ≡ part self.old.bytes at count }
    {
        self.region.bytes_mut(at, count)
    }

    /// Makes the `count` bytes from `at` on zero.
    pub fn clear(&mut self, at: usize, count: usize)
        requires inside { at + count ≤ length self.old.bytes }
        requires free { IsFree self.old.lent at count }
        ensures { self.new ≡ with_bytes self.old at (replicate count 0) }
    {
        self.region.fill(at, count, 0);
    }

    /// The number in the 4 bytes from `at` on.
    pub fn word(&self, at: usize) -> u32
        requires inside { at + 4 ≤ length self.now.bytes }
        requires free { IsFree self.now.lent at 4 }
        ensures { result ≡ big_number 4 (part self.now.bytes at 4) }
    {
        self.region.get32(at)
    }

    /// Writes a number as the 4 bytes from `at` on.
    pub fn set_word(&mut self, at: usize, word: u32)
        requires inside { at + 4 ≤ length self.old.bytes }
        requires free { IsFree self.old.lent at 4 }
        ensures { self.new ≡ with_bytes self.old at (big_bytes 4 word) }
    {
        self.region.put32(at, word);
    }

    /// Moves the `count` bytes from `from` on to the `count` bytes from `to` on.
    pub fn slide(&mut self, from: usize, to: usize, count: usize)
        requires from_inside { from + count ≤ length self.old.bytes }
        requires to_inside { to + count ≤ length self.old.bytes }
        requires from_free { IsFree self.old.lent from count }
        requires to_free { IsFree self.old.lent to count }
        ensures { self.new ≡ with_bytes self.old to (part self.old.bytes from count) }
    {
        self.region.slide(from, to, count);
    }

    /// The bytes from `at` up to `middle` and those from `middle` up to `end` change places.
    pub fn rotate(&mut self, at: usize, middle: usize, end: usize)
        requires order { (at ≤ middle) × (middle ≤ end) }
        requires inside { end ≤ length self.old.bytes }
        requires free { IsFree self.old.lent at (end - at) }
        ensures { self.new ≡ with_bytes self.old at (part self.old.bytes middle (end - middle) ++ part self.old.bytes at (middle - at)) }
    {
        self.region.rotate(at, middle, end);
    }

    /// The block with this header, which is at `at`, moves past the `count` bytes after it. Where it is free
    /// only those move, and its header, which names no zone, is written anew.
    pub fn carry(&mut self, heads: HeadKind, at: usize, count: usize, header: Header)
        requires inside { at + header.size + count ≤ length self.old.bytes }
        requires free { IsFree self.old.lent at (header.size + count) }
        requires size { (header.size < address_end heads) × (head_size heads ≤ header.size) }
        requires correction { header.correction ≤ most_over heads }
        ensures free { IsTrue (is_free header.role) → self.new ≡ with_bytes (with_bytes self.old at (part self.old.bytes (at + header.size) count)) (at + count) (head_bytes heads 0 header) }
        ensures used { IsFalse (is_free header.role) → self.new ≡ with_bytes self.old at (part self.old.bytes (at + header.size) count ++ part self.old.bytes at header.size) }
    {
        let _len = self.len();
        let middle = at + header.size as usize;
        if header.is_free() {
            self.slide(middle, at, count);
            self.set_header(heads, at + count, 0, header);
        } else {
            self.rotate(at, middle, middle + count);
        }
    }

    /// The block with this header moves before the `count` bytes before it, which begin at `at`. Where it is free only
    /// those move, and its header, which names no zone, is written anew.
    pub fn sink(&mut self, heads: HeadKind, at: usize, count: usize, header: Header)
        requires inside { at + count + header.size ≤ length self.old.bytes }
        requires free { IsFree self.old.lent at (count + header.size) }
        requires size { (header.size < address_end heads) × (head_size heads ≤ header.size) }
        requires correction { header.correction ≤ most_over heads }
        ensures free { IsTrue (is_free header.role) → self.new ≡ with_bytes (with_bytes self.old (at + header.size) (part self.old.bytes at count)) at (head_bytes heads 0 header) }
        ensures used { IsFalse (is_free header.role) → self.new ≡ with_bytes self.old at (part self.old.bytes (at + count) header.size ++ part self.old.bytes at count) }
    {
        let _len = self.len();
        let middle = at + count;
        if header.is_free() {
            self.slide(at, at + header.size as usize, count);
            self.set_header(heads, at, 0, header);
        } else {
            self.rotate(at, middle, middle + header.size as usize);
        }
    }

    /// Lends the `count` bytes from `at` on.
    pub fn lend(&mut self, at: usize, count: usize) -> Lent
        requires inside { at + count ≤ length self.old.bytes }
        requires free { IsFree self.old.lent at count }
        ensures memory { self.new ≡ record self.old { lent = (at, count) ∷ self.old.lent } }
        ensures loan { result ≡ record { name = self.old.name; at = at; bytes = part self.old.bytes at count } }
    {
        self.region.lend(at, count)
    }

    /// Takes back what was lent of this memory.
    pub fn give_back(&mut self, lent: Lent)
        requires ours { lent.name ≡ self.old.name }
        requires listed { IsListed self.old.lent (lent.at, length lent.bytes) }
        ensures { self.new ≡ record (with_bytes self.old lent.at lent.bytes) { lent = without (lent.at, length lent.bytes) self.old.lent } }
    {
        self.region.give_back(lent);
    }

    /// The block header that is at `at`.
    pub fn header(&self, heads: HeadKind, at: usize) -> Header
        requires inside { at + head_size heads ≤ length self.now.bytes }
        requires free { IsFree self.now.lent at (head_size heads) }
        ensures { result ≡ header_in heads (drop at self.now.bytes) }
    {
        let _len = self.len();
        let first = self.word(at);
        let tag = first / 0x100_0000;
        match heads {
            HeadKind::Bits24 => Header {
                size: first % 0x100_0000,
                role: Role::read(tag, 0, self.word(at + 4)),
                correction: tag % 16,
            },
            HeadKind::Bits32 => Header {
                size: self.word(at + 4),
                role: Role::read(tag, first / 0x1_0000 % 256, self.word(at + 8)),
                correction: first % 256,
            },
        }
    }

    /// The master pointer that the block header at `at` says, from the zone's start on, if it says one.
    pub fn owner(&self, heads: HeadKind, at: usize) -> Option<u32>
        requires inside { at + head_size heads ≤ length self.now.bytes }
        requires free { IsFree self.now.lent at (head_size heads) }
        ensures { result ≡ owner_of (header_in heads (drop at self.now.bytes)).role }
    {
        let _len = self.len();
        let tag = self.word(at) / 0x100_0000;
        if tag < 128 {
            return None;
        }
        match heads {
            HeadKind::Bits24 => Some(self.word(at + 4)),
            HeadKind::Bits32 => Some(self.word(at + 8)),
        }
    }

    /// The header of a possible block at `at`, where a zone that begins at `base` has so many bytes left.
    pub fn possible_header(
        &self,
        heads: HeadKind,
        base: u32,
        at: usize,
        left: usize,
    ) -> Option<Header>
        requires inside { at + left ≤ length self.now.bytes }
        requires small { left < address_end heads }
        requires unlent { self.now.lent ≡ [] }
        ensures some { IfSome result (λ h. IsHeadAt heads base self.now.bytes at left h) }
        ensures none { IfNone result ((h : Header) → IsHeadAt heads base self.now.bytes at left h → ⊥) }
    {
        let _len = self.len();
        if left < heads.smallest_block() as usize {
            return None;
        }
        let header = self.header(heads, at);
        if !header.fits(heads, left) {
            return None;
        }
        let bytes = self.bytes(at, heads.head_size() as usize);
        if header.has_bytes(heads, base, bytes) {
            Some(header)
        } else {
            None
        }
    }

    /// What a walk takes from the block header that is at `at`, where it is in the same place among other bytes.
    pub fn same_step(&self, heads: HeadKind, at: usize, bytes: &[u8]) -> Option<Step>
        requires inside { at + head_size heads ≤ length self.now.bytes }
        requires within { at + head_size heads ≤ length bytes.now }
        requires free { IsFree self.now.lent at (head_size heads) }
        ensures step { IfSome result (λ step. let h = header_in heads (drop at self.now.bytes) in (step.size ≡ h.size) × (step.is_master ≡ is_master h.role)) }
        ensures same { IfSome result (λ step. part self.now.bytes at (head_size heads) ≡ part bytes.now at (head_size heads)) }
        ensures none { IfNone result (part self.now.bytes at (head_size heads) ≡ part bytes.now at (head_size heads) → ⊥) }
    {
        let _len = self.len();
        let count = heads.head_size() as usize;
        let own = self.bytes(at, count);
        if !is_same(heads, own, &bytes[at..at + count]) {
            return None;
        }
        Some(step_in(heads, own))
    }

    /// Writes the block header that is at `at` in the same place among other bytes.
    pub fn write_header(&self, heads: HeadKind, at: usize, bytes: &mut [u8])
        requires inside { at + head_size heads ≤ length self.now.bytes }
        requires within { at + head_size heads ≤ length bytes.old }
        requires free { IsFree self.now.lent at (head_size heads) }
        ensures { bytes.new ≡ written bytes.old at (part self.now.bytes at (head_size heads)) }
    {
        match heads {
            HeadKind::Bits24 => write_at(bytes, at, self.bytes(at, 8)),
            HeadKind::Bits32 => write_at(bytes, at, self.bytes(at, 12)),
        }
    }

    /// Whether the zone's header is at the front of other bytes.
    pub fn has_zone_head(&self, bytes: &[u8]) -> bool
        requires inside { zone_header ≤ length self.now.bytes }
        requires within { zone_header ≤ length bytes.now }
        requires free { IsFree self.now.lent 0 zone_header }
        ensures { IsTrue result ↔ take zone_header bytes.now ≡ take zone_header self.now.bytes }
    {
        let count = ZONE_HEADER as usize;
        &bytes[..count] == self.bytes(0, count)
    }

    /// Whether the bytes begin with the header of a zone whose last block ends at an address, that has so many free
    /// bytes, and whose lowest free block is at an address.
    pub fn is_zone_head(&self, end: u32, free: u32, lowest: u32) -> bool
        requires inside { zone_header ≤ length self.now.bytes }
        requires unlent { self.now.lent ≡ [] }
        ensures { IsTrue result ↔ HasZoneHead self.now.bytes end free lowest }
    {
        self.has_zone_head(&zone_head(end, self.front(), free, lowest))
    }

    /// Writes the zone's header at the front of other bytes.
    pub fn write_zone_head(&self, bytes: &mut [u8])
        requires inside { zone_header ≤ length self.now.bytes }
        requires within { zone_header ≤ length bytes.old }
        requires free { IsFree self.now.lent 0 zone_header }
        ensures { bytes.new ≡ written bytes.old 0 (take zone_header self.now.bytes) }
    {
        let count = ZONE_HEADER as usize;
        bytes[..count].copy_from_slice(self.bytes(0, count));
    }

    /// Writes a block header at `at`, in a zone that begins at `base`.
    pub fn set_header(&mut self, heads: HeadKind, at: usize, base: u32, header: Header)
        requires inside { at + head_size heads ≤ length self.old.bytes }
        requires free { IsFree self.old.lent at (head_size heads) }
        requires size { header.size < address_end heads }
        requires correction { header.correction ≤ most_over heads }
        ensures { self.new ≡ with_bytes self.old at (head_bytes heads base header) }
    {
        let _len = self.len();
        let word = header.role.word(base);
        match heads {
            HeadKind::Bits24 => {
                let tag = header.role.tag(header.correction);
                self.set_word(at, tag * 0x100_0000 + header.size);
                self.set_word(at + 4, word);
            }
            HeadKind::Bits32 => {
                let tag = header.role.tag(0);
                let flags = flags_byte(header.role.flags());
                self.set_word(at, tag * 0x100_0000 + flags * 0x1_0000 + header.correction);
                self.set_word(at + 4, header.size);
                self.set_word(at + 8, word);
            }
        }
    }

    /// Writes the header of a zone into bytes of zero: the address after its last block, how many bytes are free, and
    /// the address of the lowest free block.
    pub fn set_zone_head(&mut self, end: u32, free: u32, lowest: u32)
        requires inside { zone_header ≤ length self.old.bytes }
        requires unlent { self.old.lent ≡ [] }
        requires zero { part self.old.bytes 0 zone_header ≡ replicate zone_header 0 }
        ensures { self.new ≡ with_bytes self.old 0 (zone_head end 0 free lowest) }
    {
        let _len = self.len();
        self.region.put32(END_FIELD, end);
        self.region.put32(FREE_FIELD, free);
        self.region.put16(SLOTS_FIELD, SLOT_COUNT as u16);
        self.region.put32(LOWEST_FIELD, lowest);
    }

    /// Writes in the zone's header the address after its last block.
    pub fn set_end(&mut self, end: u32)
        requires inside { end_field + 4 ≤ length self.old.bytes }
        requires free { IsFree self.old.lent end_field 4 }
        ensures { self.new ≡ with_bytes self.old end_field (big_bytes 4 end) }
    {
        self.set_word(END_FIELD, end);
    }

    /// The number in the zone's header of the free slots.
    pub fn front(&self) -> u32
        requires inside { front_field + 4 ≤ length self.now.bytes }
        requires free { IsFree self.now.lent front_field 4 }
        ensures { result ≡ big_number 4 (part self.now.bytes front_field 4) }
    {
        self.word(FRONT_FIELD)
    }

    /// Writes the number in the zone's header of the free slots.
    pub fn set_front(&mut self, front: u32)
        requires inside { front_field + 4 ≤ length self.old.bytes }
        requires free { IsFree self.old.lent front_field 4 }
        ensures { self.new ≡ with_bytes self.old front_field (big_bytes 4 front) }
    {
        self.set_word(FRONT_FIELD, front);
    }

    /// How many bytes are free, as the zone's header has it.
    pub fn free_bytes(&self) -> u32
        requires inside { free_field + 4 ≤ length self.now.bytes }
        requires free { IsFree self.now.lent free_field 4 }
        ensures { result ≡ big_number 4 (part self.now.bytes free_field 4) }
    {
        self.word(FREE_FIELD)
    }

    /// The address of the lowest free block, as the zone's header has it.
    pub fn lowest(&self) -> u32
        requires inside { lowest_field + 4 ≤ length self.now.bytes }
        requires free { IsFree self.now.lent lowest_field 4 }
        ensures { result ≡ big_number 4 (part self.now.bytes lowest_field 4) }
    {
        self.word(LOWEST_FIELD)
    }

    /// Writes in the zone's header how many bytes are free, and the address of the lowest free block.
    pub fn set_free(&mut self, free: u32, lowest: u32)
        requires inside { lowest_field + 4 ≤ length self.old.bytes }
        requires unlent { IsFree self.old.lent 0 zone_header }
        ensures { self.new ≡ with_bytes (with_bytes self.old free_field (big_bytes 4 free)) lowest_field (big_bytes 4 lowest) }
    {
        self.region.put32(FREE_FIELD, free);
        self.region.put32(LOWEST_FIELD, lowest);
    }
}
