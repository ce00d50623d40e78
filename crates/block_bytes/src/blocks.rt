//! The list of a zone's blocks.

ghost use Rattle.std.specs.Prelude.{◌≡◌, ℕ, ◌+◌, ◌-◌, ◌*◌, ◌<◌, ◌≤◌, ◌^◌, ◌++◌, ◌∷◌, [], length, IfOk, IfSome, IfNone, IsTrue};
ghost use Rattle.std.specs.Borrow.{sem};
ghost use Rattle.std.specs.List.{list_all};
ghost use Rattle.byteorder.specs.Endian.{big_bytes, big_number};
ghost use Rattle.mac_base.specs.HeadKind.{zone_header, head_size};
ghost use Rattle.raw_region.specs.Bytes.{part};
ghost use Rattle.raw_region.specs.Span.{IsFree};
ghost use Rattle.raw_region.specs.State.{with_bytes};
ghost use Rattle.block_bytes.specs.declared.header.Role.TheVariants.{Free};
ghost use Rattle.block_bytes.specs.Starts.{first_marked, NoneLower};
ghost use Rattle.block_bytes.specs.ZoneHead.{free_field, lowest_field, CanCount};

use crate::header::{FREE_MARK, Header, LENT_MARK, Role, USED_MARK};
use crate::memory::Memory;
use crate::record::{Record, end, note, note_if};
use mac_base::error::HostFull;
use mac_base::size::ZONE_HEADER;
use mac_base::zone_spec::ZoneSpec;
use place_numbers::Numbers;
use raw_region::{Lent, Region};
use std::alloc::Global;
use std::marker::Model;

/// The blocks of a zone in one run of bytes, from the zone's start to its limit. A contract sees the list of the
/// blocks, each with all bytes after its header, beside the bytes up to the limit and the number in the zone's header
/// for the free slots. All else in that header follows from the blocks: where they end, how many bytes are
/// free and where the lowest free block is. That an address is that of a block is up to the caller. After `create` no
/// call takes memory of the host.
pub struct Blocks {
    pub(crate) spec: ZoneSpec,
    pub(crate) memory: Memory,
    /// For each four bytes of the zone a number: where a block begins with them 3 if it is free, 2 if it is lent, and
    /// else 1; or 0.
    pub(crate) index: Numbers,
    /// How many blocks are lent.
    pub(crate) loans: u32,
    /// While the zone is awake, the record of its structure.
    pub(crate) kept: Option<Record>,
}

impl Model for Blocks {
    ghost use Rattle.block_bytes.specs.Layout.{Layout};

    ghost Value = { Layout };

    ghost use Rattle.block_bytes.specs.Reading.{layout_of, IsWhole};

    ghost view = { layout_of };

    ghost invariant = { IsWhole };
}

impl Drop for Blocks {
    ghost use Rattle.block_bytes.specs.Layout.{NothingLent};

    /// A zone ends only when nothing of it is lent.
    fn drop(self)
        requires nothing_lent { NothingLent self }
    {
        let Blocks {
            spec: _,
            memory,
            index,
            loans: _,
            kept,
        } = self;
        drop(memory);
        drop(index);
        end(kept);
    }
}

/// Where the search for the lowest free block begins, once the index has changed from a place on: there, or where the
/// lowest one was before, by the zone's header.
#[tactic(auto, using(raw_region::proofs::Rules::upkeep))]
fn search_start(memory: &Memory, base: u32, changed: usize) -> usize
    requires inside { zone_header ≤ length memory.now.bytes }
    requires unlent { IsFree memory.now.lent 0 zone_header }
    ensures changed { result ≤ changed }
    ensures before { base ≤ big_number 4 (part memory.now.bytes lowest_field 4) → base + 4 * result ≤ big_number 4 (part memory.now.bytes lowest_field 4) }
{
    let before = memory.lowest();
    if before < base {
        changed
    } else {
        changed.min((before - base) as usize / 4)
    }
}

/// Writes in the zone's header how many bytes are free, where `gained` came to them and `lost` went, and the address of
/// the lowest free block, by the index, which has changed from a place on.
#[tactic(auto, using(raw_region::proofs::Rules::upkeep))]
fn count_free(
    memory: &mut Memory,
    index: &Numbers,
    base: u32,
    changed: usize,
    gained: u32,
    lost: u32,
)
    requires count { CanCount memory.old index.now base gained lost }
    requires low { NoneLower base (big_number 4 (part memory.old.bytes lowest_field 4)) changed index.now }
    ensures { memory.new ≡ with_bytes (with_bytes memory.old free_field (big_bytes 4 (big_number 4 (part memory.old.bytes free_field 4) + gained - lost)))
        lowest_field (big_bytes 4 (first_marked base index.now)) }
{
    let _len = index.len();
    let from = search_start(memory, base, changed);
    let lowest = match index.first_most(from) {
        Some(place) => base + 4 * place as u32,
        None => 0,
    };
    let free = memory.free_bytes() + gained - lost;
    memory.set_free(free, lowest);
}

impl Blocks {
    ghost use Rattle.std.specs.Prelude.{◌≡◌, ℕ, ◌+◌, ◌-◌, ◌<◌, ◌≤◌, ◌^◌, ◌++◌, ◌∷◌, ◌↔◌, ◌&&◌, [], length, take, drop, is_some, IfOk, IfSome, IfNone, IsTrue};
    ghost use Rattle.std.specs.Borrow.{sem};
    ghost use Rattle.std.specs.List.{list_all};
    ghost use Rattle.byteorder.specs.Endian.{big_bytes, big_number};
    ghost use Rattle.mac_base.specs.HeadKind.{zone_header, head_size};
    ghost use Rattle.raw_region.specs.Bytes.{part};
    ghost use Rattle.block_bytes.specs.declared.header.Role.TheVariants.{Free};
    ghost use Rattle.block_bytes.specs.Layout.{Layout, BlockAt, UnlentAt, WordAt, CanBe, CanTurn, CanResize, CanSplit, ParcelAt, Carried, ParcelUpTo, Sunk, CanMerge, CanLend, IsLoanOf, NothingLent, in_role, front_of, rest_of, with_word, cleared, cleared_from, CanClear, body, raw_block, free_raw_block, size_of, header_of, is_possible, joint_body, zone_bytes, with_blocks, with_front, extended, address_after, free_total, lent_count, most_lent, loan_of, lent_block, given_back};
    ghost use Rattle.block_bytes.specs.Finding.{HoldsByte, LiesOutside, FreeAt, OwnedAt, SplitAt, FirstFree, LastFree, none_free, FirstFrom, NoneFrom};
    ghost use Rattle.block_bytes.specs.Copying.{CanCopy, copied_over};
    ghost use Rattle.block_bytes.specs.WritingBack.{WritesBackContents};
    ghost use Rattle.block_bytes.specs.NewLayout.{new_layout};
    ghost use Rattle.block_bytes.specs.Walk.{Walks};
    ghost use Rattle.block_bytes.specs.Structure.{is_master};

    /// A new zone: one free block, and all its bytes and those up to the limit are zero.
    pub fn create(alloc: Global, spec: ZoneSpec) -> Result<Blocks, HostFull>
        ensures { IfOk result (λ blocks. blocks ≡ new_layout blocks.memory.region spec) }
    {
        let heads = spec.heads();
        let mut memory = Memory::create(alloc, spec.limit() as usize)?;
        let mut index = Numbers::create(alloc, spec.limit() as usize / 4)?;
        let free = Header {
            size: spec.size() - ZONE_HEADER,
            role: Role::Free,
            correction: 0,
        };
        let first = spec.base() + ZONE_HEADER;
        memory.set_zone_head(spec.base() + spec.size(), free.size, first);
        memory.set_header(heads, ZONE_HEADER as usize, spec.base(), free);
        index.set(ZONE_HEADER as usize / 4, FREE_MARK);
        Ok(Blocks {
            spec,
            memory,
            index,
            loans: 0,
            kept: None,
        })
    }

    /// Where the zone lies, how large it is and how far it may grow. Its blocks are possible ones.
    pub fn spec(&self) -> ZoneSpec
        ensures heads { result.heads ≡ self.now.heads }
        ensures base { result.base ≡ self.now.base }
        ensures size { result.base + result.size ≡ address_after self.now self.now.blocks }
        ensures limit { result.base + result.limit ≡ address_after self.now self.now.blocks + length self.now.spare }
        ensures possible { IsTrue (list_all (is_possible self.now.heads) self.now.blocks) }
    {
        self.spec
    }

    /// The address after the last block.
    pub fn end(&self) -> u32
        ensures { result ≡ address_after self.now self.now.blocks }
    {
        self.spec.base() + self.spec.size()
    }

    /// The number in the zone's header for the free slots.
    pub fn front(&self) -> u32
        ensures { result ≡ self.now.front }
    {
        self.memory.front()
    }

    /// Writes the number in the zone's header for the free slots.
    pub fn set_front(&mut self, front: u32)
        ensures { self.new ≡ with_front front self.old }
    {
        let _base = self.spec.base();
        self.memory.set_front(front);
    }

    /// The sum of the sizes of the free blocks.
    pub fn free_bytes(&self) -> u32
        ensures { result ≡ free_total self.now.heads self.now.blocks }
    {
        let _base = self.spec.base();
        self.memory.free_bytes()
    }

    /// Whether the block at an address is lent.
    pub fn is_lent(&self, at: u32) -> bool
        requires { BlockAt self.now at }
        ensures { (b : BlockAt self.now at) → result ≡ b.here.lent }
    {
        self.index.get((at - self.spec.base()) as usize / 4) == LENT_MARK
    }

    /// How many blocks are lent.
    pub fn lent_count(&self) -> u32
        ensures value { result ≡ lent_count self.now.blocks }
        ensures few { result ≤ most_lent }
    {
        self.loans
    }

    /// Whether a block's header is at an address.
    pub fn is_block(&self, at: u32) -> bool
        ensures { IsTrue result ↔ BlockAt self.now at }
    {
        let base = self.spec.base();
        if at < base {
            return false;
        }
        let offset = at - base;
        offset < self.spec.size() && offset % 4 == 0 && self.index.get(offset as usize / 4) != 0
    }

    /// What the header of the block at an address says.
    pub fn entry_at(&self, at: u32) -> Header
        requires { BlockAt self.now at }
        ensures { (b : BlockAt self.now at) → result ≡ header_of self.now.heads b.here }
    {
        self.memory
            .header(self.spec.heads(), (at - self.spec.base()) as usize)
    }

    /// How many bytes from the zone's start the handle is whose block is at an address, if a handle's is. Of the
    /// header the tag and the last word are read.
    pub fn owner_at(&self, at: u32) -> Option<u32>
        ensures owner { IfSome result (λ offset. OwnedAt self.now at offset) }
        ensures none { IfNone result ((offset : ℕ) → OwnedAt self.now at offset → ⊥) }
    {
        if !self.is_block(at) {
            return None;
        }
        self.memory
            .owner(self.spec.heads(), (at - self.spec.base()) as usize)
    }

    /// The size of the free block at an address.
    pub fn free_size(&self, at: u32) -> u32
        requires { FreeAt self.now at }
        ensures { (f : FreeAt self.now at) → result ≡ size_of self.now.heads f.block.here }
    {
        self.entry_at(at).size
    }

    /// The address of the block after the one at an address, if there is one.
    pub fn walk(&self, at: u32) -> Option<u32>
        requires { BlockAt self.now at }
        ensures next { IfSome result (λ next. BlockAt self.now next × ((b : BlockAt self.now at) → next ≡ at + size_of self.now.heads b.here)) }
        ensures last { IfNone result ((b : BlockAt self.now at) → b.after ≡ []) }
    {
        let end = self.end();
        let next = at + self.entry_at(at).size;
        (next < end).then_some(next)
    }

    /// The address of the block that a byte of the zone is part of, its header's bytes among them. There is none where
    /// the byte lies before the first block or after the last. No header is read: the index has the last place up to
    /// the byte at which a block begins.
    pub fn holder(&self, at: u32) -> Option<u32>
        ensures holds { IfSome result (λ start. HoldsByte self.now at start) }
        ensures outside { IfNone result (LiesOutside self.now at) }
    {
        let first = self.spec.base() + ZONE_HEADER;
        if at < first || self.end() <= at {
            return None;
        }
        let offset = at - self.spec.base();
        let place = self.index.last_some(offset as usize / 4 + 1)?;
        Some(self.spec.base() + 4 * place as u32)
    }

    /// The first block that begins at an address or after it, if there is one. No header is read.
    pub fn first_from(&self, from: u32) -> Option<u32>
        ensures first { IfSome result (λ at. FirstFrom self.now from at) }
        ensures none { IfNone result (NoneFrom self.now from) }
    {
        let base = self.spec.base();
        let first = (from.saturating_sub(base) as usize).div_ceil(4);
        let place = self.index.first_some(first)?;
        Some(base + 4 * place as u32)
    }

    /// Makes the block at an address one for this, with so many bytes of contents. All bytes after its header stay.
    pub fn assign(&mut self, at: u32, role: Role, length: u32)
        requires { CanBe self.old at role length }
        ensures { (can : CanBe self.old at role length)
            → self.new ≡ with_blocks (can.block.before ++ raw_block role length (body can.block.here) ∷ can.block.after) self.old }
    {
        let old = self.entry_at(at);
        let heads = self.spec.heads();
        let base = self.spec.base();
        let header = Header {
            size: old.size,
            role,
            correction: old.size - heads.head_size() - length,
        };
        let offset = at - base;
        note(&mut self.kept, offset, header.own_size(heads));
        self.memory.set_header(heads, offset as usize, base, header);
        self.index.set(offset as usize / 4, header.mark());
        count_free(
            &mut self.memory,
            &self.index,
            base,
            offset as usize / 4,
            header.free_bytes(),
            old.free_bytes(),
        );
    }

    /// Makes the block at an address one for something else, as free as before. Its contents stay, and it may be lent:
    /// only its header is written.
    pub fn set_role(&mut self, at: u32, role: Role)
        requires { CanTurn self.old at role }
        ensures { (can : CanTurn self.old at role) → self.new ≡ with_blocks (can.block.before ++ in_role can.block.here role ∷ can.block.after) self.old }
    {
        let old = self.entry_at(at);
        let heads = self.spec.heads();
        let base = self.spec.base();
        let header = Header {
            size: old.size,
            role,
            correction: old.correction,
        };
        note(&mut self.kept, at - base, header.own_size(heads));
        self.memory
            .set_header(heads, (at - base) as usize, base, header);
    }

    /// Makes the block at an address free. All bytes after its header stay.
    pub fn set_free(&mut self, at: u32)
        requires { UnlentAt self.old at }
        ensures { (b : BlockAt self.old at) → self.new ≡ with_blocks (b.before ++ free_raw_block (body b.here) ∷ b.after) self.old }
    {
        let length = self.entry_at(at).size - self.spec.heads().head_size();
        self.assign(at, Role::Free, length);
    }

    /// Gives the block at an address so many bytes of contents, where its size allows it. All bytes after its header
    /// stay.
    pub fn resize(&mut self, at: u32, length: u32)
        requires { CanResize self.old at length }
        ensures { (can : CanResize self.old at length)
            → self.new ≡ with_blocks (can.block.before ++ raw_block can.block.here.role length (body can.block.here) ∷ can.block.after) self.old }
    {
        let role = self.entry_at(at).role;
        self.assign(at, role, length);
    }

    /// Cuts the block at an address: its first `size` bytes are a block for the same, with so many bytes of contents,
    /// and the others a free one. No byte of contents changes.
    pub fn split(&mut self, at: u32, size: u32, length: u32)
        requires { CanSplit self.old at size length }
        ensures { (can : CanSplit self.old at size length) → self.new ≡ with_blocks (can.block.before ++ front_of self.old can ∷ rest_of self.old can ∷ can.block.after) self.old }
    {
        let whole = self.entry_at(at);
        let heads = self.spec.heads();
        let base = self.spec.base();
        let front = Header {
            size,
            role: whole.role,
            correction: size - heads.head_size() - length,
        };
        let rest = Header {
            size: whole.size - size,
            role: Role::Free,
            correction: 0,
        };
        let offset = (at - base) as usize;
        let second = offset + size as usize;
        note(&mut self.kept, offset as u32, front.own_size(heads));
        note(&mut self.kept, second as u32, heads.head_size());
        self.memory.set_header(heads, offset, base, front);
        self.memory.set_header(heads, second, base, rest);
        self.index.set(offset / 4, front.mark());
        self.index.set(second / 4, FREE_MARK);
        count_free(
            &mut self.memory,
            &self.index,
            base,
            offset / 4,
            front.free_bytes() + rest.size,
            whole.free_bytes(),
        );
    }

    /// Makes the block at an address and the one after it one block, for what the first is for, with so many bytes of
    /// contents. No byte changes but those of the first header.
    pub fn merge(&mut self, at: u32, length: u32)
        requires { CanMerge self.old at length }
        ensures { (can : CanMerge self.old at length)
            → self.new ≡ with_blocks (can.pair.before ++ raw_block can.pair.here.role length (joint_body self.old can.pair.here can.pair.next) ∷ can.pair.after) self.old }
    {
        let heads = self.spec.heads();
        let base = self.spec.base();
        let first = self.entry_at(at);
        let next = at + first.size;
        let second = self.entry_at(next);
        let size = first.size + second.size;
        let header = Header {
            size,
            role: first.role,
            correction: size - heads.head_size() - length,
        };
        let offset = (at - base) as usize;
        note(&mut self.kept, offset as u32, header.own_size(heads));
        self.memory.set_header(heads, offset, base, header);
        self.index.set((next - base) as usize / 4, 0);
        self.index.set(offset / 4, header.mark());
        count_free(
            &mut self.memory,
            &self.index,
            base,
            offset / 4,
            header.free_bytes(),
            first.free_bytes() + second.free_bytes(),
        );
    }

    /// The block at an address changes places with those after it up to an address. The bytes of a free one aren't
    /// kept: the others slide over them. Else the bytes of all turn in one rotation.
    pub fn carry(&mut self, at: u32, end: u32)
        requires { ParcelAt self.old at end }
        ensures { (parcel : ParcelAt self.old at end) → Carried self.old parcel self.new }
    {
        let heads = self.spec.heads();
        let base = self.spec.base();
        let header = self.entry_at(at);
        let size = header.size as usize;
        let start = (at - base) as usize;
        let count = (end - at) as usize - size;
        note(&mut self.kept, at - base, end - at);
        self.memory.carry(heads, start, count, header);
        self.index
            .shift_down((start + size) / 4, start / 4, count / 4);
        self.index.set(start / 4 + count / 4, header.mark());
        count_free(&mut self.memory, &self.index, base, start / 4, 0, 0);
    }

    /// The block at an address changes places with those before it, which begin at `start`. The bytes of a free one
    /// aren't kept: the others slide over them. Else the bytes of all turn in one rotation.
    pub fn sink(&mut self, start: u32, at: u32)
        requires { ParcelUpTo self.old start at }
        ensures { (parcel : ParcelUpTo self.old start at) → Sunk self.old parcel self.new }
    {
        let heads = self.spec.heads();
        let base = self.spec.base();
        let header = self.entry_at(at);
        let size = header.size as usize;
        let first = (start - base) as usize;
        let count = (at - start) as usize;
        note(&mut self.kept, start - base, at - start + header.size);
        self.memory.sink(heads, first, count, header);
        self.index
            .shift_up(first / 4, (first + size) / 4, count / 4);
        self.index.set(first / 4, header.mark());
        count_free(&mut self.memory, &self.index, base, first / 4, 0, 0);
    }

    /// The address of the first free block from an address on, if there is one. No header is read.
    pub fn next_free(&self, from: u32) -> Option<u32>
        requires { SplitAt self.now from }
        ensures next { IfSome result (λ at. (split : SplitAt self.now from) → FirstFree self.now.heads split.after from at) }
        ensures none { IfNone result ((split : SplitAt self.now from) → IsTrue (none_free split.after)) }
    {
        let base = self.spec.base();
        let first = (from - base) as usize / 4;
        let place = self.index.first_most(first)?;
        Some(base + 4 * place as u32)
    }

    /// The address of the last free block before an address, if there is one. No header is read.
    pub fn last_free(&self, end: u32) -> Option<u32>
        requires { SplitAt self.now end }
        ensures last { IfSome result (λ at. (split : SplitAt self.now end) → LastFree self.now.heads split.before (address_after self.now []) at) }
        ensures none { IfNone result ((split : SplitAt self.now end) → IsTrue (none_free split.before)) }
    {
        let base = self.spec.base();
        let after = (end - base) as usize / 4;
        let place = self.index.last_most(after)?;
        Some(base + 4 * place as u32)
    }

    /// Grows the zone to its limit: the bytes up to there become one free block after the last. Its header is written,
    /// and the other bytes stay. Where the zone is as large as its limit nothing changes.
    pub fn extend(&mut self)
        ensures { self.new ≡ extended self.old }
    {
        let heads = self.spec.heads();
        let base = self.spec.base();
        let size = self.spec.size();
        let limit = self.spec.limit();
        if size == limit {
            return;
        }
        let free = Header {
            size: limit - size,
            role: Role::Free,
            correction: 0,
        };
        note(&mut self.kept, size, heads.head_size());
        self.memory.set_header(heads, size as usize, base, free);
        self.index.set(size as usize / 4, FREE_MARK);
        count_free(
            &mut self.memory,
            &self.index,
            base,
            size as usize / 4,
            free.size,
            0,
        );
        self.memory.set_end(base + limit);
        self.spec = self.spec.at_limit();
    }

    /// Lends the contents of the block at an address: who has the loan reads and writes them.
    pub fn lend(&mut self, at: u32) -> Lent
        requires { CanLend self.old at }
        ensures blocks { (can : CanLend self.old at) → self.new ≡ with_blocks (can.block.before ++ lent_block can.block.here ∷ can.block.after) self.old }
        ensures loan { (can : CanLend self.old at) → result ≡ loan_of self.old can.block }
    {
        let header = self.entry_at(at);
        let head_size = self.spec.heads().head_size();
        let offset = at - self.spec.base();
        let length = header.size - head_size - header.correction;
        self.index.set(offset as usize / 4, LENT_MARK);
        self.loans += 1;
        self.memory
            .lend((offset + head_size) as usize, length as usize)
    }

    /// Takes back the contents of the lent block at an address, as its holder left them.
    pub fn give_back(&mut self, at: u32, loan: Lent)
        requires { IsLoanOf self.old at loan }
        ensures { (is : IsLoanOf self.old at loan) → self.new ≡ with_blocks (is.block.before ++ given_back is.block.here loan.bytes ∷ is.block.after) self.old }
    {
        let offset = at - self.spec.base();
        self.memory.give_back(loan);
        self.index.set(offset as usize / 4, USED_MARK);
        self.loans -= 1;
    }

    /// The number in 4 bytes of a block's contents.
    pub fn word(&self, at: u32) -> u32
        requires { WordAt self.now at }
        ensures { (w : WordAt self.now at) → result ≡ big_number 4 (part w.here.contents w.offset 4) }
    {
        self.memory.word((at - self.spec.base()) as usize)
    }

    /// Writes a number as 4 bytes of a block's contents.
    pub fn set_word(&mut self, at: u32, number: u32)
        requires { WordAt self.old at }
        ensures { (w : WordAt self.old at) → self.new ≡ with_blocks (w.before ++ with_word w.here w.offset number ∷ w.after) self.old }
    {
        let base = self.spec.base();
        note(&mut self.kept, at - base, 4);
        self.memory.set_word((at - base) as usize, number);
    }

    /// The contents of the block at an address.
    pub fn contents(&self, at: u32) -> &[u8]
        requires { UnlentAt self.now at }
        ensures { (b : BlockAt self.now at) → result.now ≡ b.here.contents }
    {
        let header = self.entry_at(at);
        let head_size = self.spec.heads().head_size();
        let start = (at - self.spec.base() + head_size) as usize;
        let length = header.size - head_size - header.correction;
        self.memory.bytes(start, length as usize)
    }

    /// The contents of the block at an address, to be written.
    pub fn contents_mut(&mut self, at: u32) -> &mut [u8]
        requires block { UnlentAt self.old at }
        ensures* writes_back { sem 𝓛 (WritesBackContents self.entry at result) }
        ensures value { (b : BlockAt self.old at) → result.now ≡ b.here.contents }
    {
        let header = self.entry_at(at);
        let head_size = self.spec.heads().head_size();
        let start = (at - self.spec.base() + head_size) as usize;
        let length = header.size - head_size - header.correction;
        note_if(&mut self.kept, header.role.is_master());
        self.memory.bytes_mut(start, length as usize)
    }

    /// Makes the contents of the block at an address zero.
    pub fn clear(&mut self, at: u32)
        requires { UnlentAt self.old at }
        ensures { (b : BlockAt self.old at) → self.new ≡ with_blocks (b.before ++ cleared b.here ∷ b.after) self.old }
    {
        let header = self.entry_at(at);
        let head_size = self.spec.heads().head_size();
        let start = (at - self.spec.base() + head_size) as usize;
        let length = header.size - head_size - header.correction;
        note_if(&mut self.kept, header.role.is_master());
        self.memory.clear(start, length as usize);
    }

    /// Makes the contents of the block at an address zero from a place among them on.
    pub fn clear_from(&mut self, at: u32, from: u32)
        requires { CanClear self.old at from }
        ensures { (can : CanClear self.old at from)
            → self.new ≡ with_blocks (can.block.before ++ cleared_from can.block.here from ∷ can.block.after) self.old }
    {
        let header = self.entry_at(at);
        let head_size = self.spec.heads().head_size();
        let start = at - self.spec.base() + head_size + from;
        let length = header.size - head_size - header.correction - from;
        note_if(&mut self.kept, header.role.is_master());
        self.memory.clear(start as usize, length as usize);
    }

    /// Whether the zone is awake, and the block at an address a master block.
    fn has_own_contents(&self, at: u32) -> bool
        requires { BlockAt self.now at }
        ensures { (b : BlockAt self.now at) → result ≡ (is_some self.now.memory.kept && is_master b.here.role) }
    {
        self.kept.is_some() && self.entry_at(at).role.is_master()
    }

    /// Copies the `count` bytes of contents from `start` on of the block at `from` over those from `offset` on of the
    /// block at `to`. It may be the same block, whose bytes are then those before the call.
    pub fn copy(&mut self, from: u32, start: u32, to: u32, offset: u32, count: u32)
        requires { CanCopy self.old from start to offset count }
        ensures { (can : CanCopy self.old from start to offset count)
            → self.new ≡ with_blocks (can.target.before ++ copied_over can.target.here offset (take count (drop start can.source.here.contents)) ∷ can.target.after) self.old }
    {
        let own = self.has_own_contents(to);
        let base = self.spec.base();
        let head_size = self.spec.heads().head_size();
        let source = from - base + head_size + start;
        let target = to - base + head_size + offset;
        note_if(&mut self.kept, own);
        self.memory
            .slide(source as usize, target as usize, count as usize);
    }

    /// The bytes of the zone, from its start to the end of its last block. Its blocks are possible ones.
    pub fn image(&self) -> &[u8]
        requires nothing_lent { NothingLent self.now }
        ensures bytes { result.now ≡ zone_bytes self.now }
        ensures blocks { IsTrue (list_all (is_possible self.now.heads) self.now.blocks) }
        ensures walks { Walks self.now.heads result.now }
    {
        let size = self.end() - self.spec.base();
        self.memory.bytes(0, size as usize)
    }
}

impl Blocks {
    ghost use Rattle.block_bytes.specs.Layout.{NothingLent, image_of};

    /// The region that the zone is in. The zone ends.
    pub fn into_region(self) -> Region
        requires nothing_lent { NothingLent self }
        ensures bytes { result.bytes ≡ image_of self }
        ensures name { result.name ≡ self.memory.region }
        ensures whole { result.lent ≡ [] }
    {
        let Blocks {
            spec: _,
            memory,
            index,
            loans: _,
            kept,
        } = self;
        drop(index);
        end(kept);
        memory.into_region()
    }
}
