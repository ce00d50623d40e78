//! The blocks of a zone.

use crate::chain::write_chain;
use crate::lookup::{is_slot, slot};
use crate::slot::Slot;
use block_bytes::{Blocks, Role};
use mac_base::block::{Entry, Flags, Kind};
use mac_base::error::HostFull;
use mac_base::handle::{Handle, Ptr};
use mac_base::size::MASTER_LENGTH;
use mac_base::zone_spec::ZoneSpec;
use raw_region::{Lent, Region};
use std::alloc::Global;
use std::marker::Model;

/// The blocks of a zone with what is in them, and the slots of its master blocks. A contract sees the list. Free bytes
/// and those that are over have no value there. After `create` no call takes memory of the host.
pub struct Records {
    pub(crate) blocks: Blocks,
}

impl Model for Records {
    ghost use Rattle.zone_records.specs.Records.{ZoneRecords};

    ghost Value = { ZoneRecords };

    ghost use Rattle.zone_records.specs.Reading.{records_of, IsSound};

    ghost view = { records_of };

    ghost invariant = { IsSound };
}

impl Drop for Records {
    ghost use Rattle.zone_records.specs.Records.{NothingLent};

    /// A zone ends only when nothing of it is lent.
    fn drop(self)
        requires nothing_lent { NothingLent self }
    {
        let Records { blocks } = self;
        drop(blocks);
    }
}

impl Records {
    ghost use Rattle.std.specs.Prelude.{◌≡◌, ◌+◌, [], ◌==◌, ◌≤◌, ◌<◌, ◌%◌, ◌-◌, ◌↔◌, IfOk, IfSome, IfNone, IsTrue};
    ghost use Rattle.std.specs.Borrow.{sem};
    ghost use Rattle.mac_base.specs.HeadKind.{head_size, master_length, slot_count};
    ghost use Rattle.mac_base.specs.HandleTable.{zeros, no_flags};
    ghost use Rattle.mac_base.specs.ZoneMap.{block};
    ghost use Rattle.mac_base.specs.ZoneState.{own_memory};
    ghost use Rattle.zone_records.specs.Records.{ZoneRecords, Fixed, Master, Relocatable, sizes_of, kind_of, length_of, bytes_of, lent_count, address_after, NothingLent};
    ghost use Rattle.mac_base.specs.Loans.{most_loans};
    ghost use Rattle.zone_records.specs.Places.{RecordAt, FreeAt, HeldAt, HandleBlockAt, SlotAt, RoomFor, CanCut, FreePair, CanHold, CanGrow, ParcelAt, IsLoanOf, can_say, can_flag, ParcelUpTo, SplitAt, FirstFree, LastFree, none_free, free_total, FirstFrom, NoneFrom};
    ghost use Rattle.zone_records.specs.Changes.{new_records, with_front, extended, filled, chained, emptied, flagged, with_slot, cut_in_two, joined_pair, held_there, enlarged, carried, sunk, lent_out, loan_of, taken_back};
    ghost use Rattle.zone_records.specs.Fitting.{fitted, CanKeep};
    ghost use Rattle.zone_records.specs.Copying.{CanCopy, copied};
    ghost use Rattle.zone_records.specs.Image.{HasBytes};
    ghost use Rattle.zone_records.specs.WritingBack.{WritesBackContents};
    ghost use Rattle.block_bytes.specs.Walk.{Walks};

    /// A new zone: one free block, and no slot.
    pub fn create(alloc: Global, spec: ZoneSpec) -> Result<Records, HostFull>
        ensures { IfOk result (λ zone. zone ≡ new_records (own_memory zone.memory.region) spec) }
    {
        Ok(Records {
            blocks: Blocks::create(alloc, spec)?,
        })
    }

    /// Where the zone lies, how large it is now and how far it may grow.
    pub fn spec(&self) -> ZoneSpec
        ensures { result ≡ sizes_of self.now }
    {
        self.blocks.spec()
    }

    /// The free slot that the zone's header names first, or 0.
    pub fn front(&self) -> u32
        ensures { result ≡ self.now.front }
    {
        self.blocks.front()
    }

    /// Makes the zone's header name a free slot first.
    pub fn set_front(&mut self, slot: u32)
        ensures { self.new ≡ with_front slot self.old }
    {
        self.blocks.set_front(slot);
    }

    /// Whether a block's header is at an address.
    pub fn is_block(&self, at: u32) -> bool
        ensures { IsTrue result ↔ RecordAt self.now at }
    {
        self.blocks.is_block(at)
    }

    /// Whether the block at an address is lent.
    pub fn is_lent(&self, at: u32) -> bool
        requires { RecordAt self.now at }
        ensures { (r : RecordAt self.now at) → result ≡ r.here.lent }
    {
        self.blocks.is_lent(at)
    }

    /// How many blocks are lent.
    pub fn lent_count(&self) -> u32
        ensures value { result ≡ lent_count self.now.blocks }
        ensures few { result ≤ most_loans }
    {
        self.blocks.lent_count()
    }

    /// The size of the block at an address, and what it is for.
    pub fn entry_at(&self, at: u32) -> Entry
        requires { RecordAt self.now at }
        ensures { (r : RecordAt self.now at) → result ≡ block (kind_of (at + head_size self.now.shape.heads) r.here.content) r.here.size }
    {
        self.head_at(at).0
    }

    /// The size of the block at an address and what it is for, with the flags that its header says: only that of a
    /// handle's block says any, and none in a zone of 24-bit blocks.
    pub fn head_at(&self, at: u32) -> (Entry, Flags)
        requires { RecordAt self.now at }
        ensures entry { (r : RecordAt self.now at) → result.0 ≡ block (kind_of (at + head_size self.now.shape.heads) r.here.content) r.here.size }
        ensures flags { (b : HandleBlockAt self.now at) → result.1 ≡ b.flags }
    {
        let header = self.blocks.entry_at(at);
        let kind = match header.role {
            Role::Free => Kind::Free,
            Role::Fixed => Kind::Ptr(Ptr::new(at + self.head_size())),
            Role::Master => Kind::Master,
            Role::Relocatable(offset, _) => Kind::Rel(Handle::new(self.spec().base() + offset)),
        };
        let entry = Entry {
            size: header.size,
            kind,
        };
        (entry, header.role.flags())
    }

    /// How many bytes of contents the block at an address has; a free one has none.
    pub fn length_at(&self, at: u32) -> u32
        requires { RecordAt self.now at }
        ensures { (r : RecordAt self.now at) → result ≡ length_of r.here.content }
    {
        let header = self.blocks.entry_at(at);
        match header.role {
            Role::Free => 0,
            Role::Fixed | Role::Master | Role::Relocatable(_, _) => {
                header.size - self.head_size() - header.correction
            }
        }
    }

    /// The block after the one at an address, if there is one.
    pub fn after(&self, at: u32) -> Option<u32>
        requires { RecordAt self.now at }
        ensures next { IfSome result (λ next. RecordAt self.now next × ((r : RecordAt self.now at) → next ≡ at + r.here.size)) }
        ensures last { IfNone result ((r : RecordAt self.now at) → r.after ≡ []) }
    {
        self.blocks.walk(at)
    }

    /// The block before the one at an address, if there is one.
    pub fn before(&self, at: u32) -> Option<u32>
        requires { RecordAt self.now at }
        ensures last { IfSome result (λ last. RecordAt self.now last × ((r : RecordAt self.now last) → at ≡ last + r.here.size)) }
        ensures first { IfNone result ((r : RecordAt self.now at) → r.before ≡ []) }
    {
        self.blocks.holder(at - 1)
    }

    /// The first block that begins at an address or after it, if there is one. No header is read.
    pub fn first_from(&self, from: u32) -> Option<u32>
        ensures first { IfSome result (λ at. FirstFrom self.now from at) }
        ensures none { IfNone result (NoneFrom self.now from) }
    {
        self.blocks.first_from(from)
    }

    /// Whether an address is that of a slot.
    pub fn is_slot(&self, at: u32) -> bool
        ensures { IsTrue result ↔ SlotAt self.now at }
    {
        is_slot(&self.blocks, at)
    }

    /// What the slot at an address says.
    pub fn slot(&self, at: u32) -> Slot
        requires { SlotAt self.now at }
        ensures { (s : SlotAt self.now at) → result ≡ s.here }
    {
        slot(&self.blocks, at)
    }

    /// Makes the slot at an address say this.
    pub fn set_slot(&mut self, at: u32, slot: Slot)
        requires there { SlotAt self.old at }
        requires sayable { IsTrue (can_say self.old.shape.heads slot) }
        ensures { (s : SlotAt self.old at) → self.new ≡ with_slot slot self.old s }
    {
        let word = slot.word(self.spec().heads());
        self.blocks.set_word(at, word);
    }

    /// The flags that the header of a handle's block says: none in a zone of 24-bit blocks.
    pub fn header_flags(&self, at: u32) -> Flags
        requires { HandleBlockAt self.now at }
        ensures { (b : HandleBlockAt self.now at) → result ≡ b.flags }
    {
        self.head_at(at).1
    }

    /// Makes the header of a handle's block say these flags. The block may be lent.
    pub fn set_header_flags(&mut self, at: u32, flags: Flags)
        requires there { HandleBlockAt self.old at }
        requires sayable { IsTrue (can_flag self.old.shape.heads flags) }
        ensures { (b : HandleBlockAt self.old at) → self.new ≡ flagged flags self.old b }
    {
        let role = match self.blocks.entry_at(at).role {
            Role::Relocatable(offset, _) => Role::Relocatable(offset, flags),
            other => other,
        };
        self.blocks.set_role(at, role);
    }

    /// Makes a free block that of a handle, with `length` bytes of zero and no flags.
    pub fn place_handle(&mut self, at: u32, handle: Handle, length: u32)
        requires room { RoomFor self.old at length }
        requires above { self.old.shape.base ≤ handle }
        ensures { (r : RoomFor self.old at length) → self.new ≡ filled (Relocatable handle no_flags (zeros length)) self.old r.free }
    {
        let offset = handle.number() - self.spec().base();
        self.blocks
            .assign(at, Role::Relocatable(offset, Flags::NONE), length);
        self.blocks.clear(at);
    }

    /// Makes a free block a nonrelocatable one with `length` bytes of zero.
    pub fn place_pointer(&mut self, at: u32, length: u32)
        requires { RoomFor self.old at length }
        ensures { (r : RoomFor self.old at length) → self.new ≡ filled (Fixed (zeros length)) self.old r.free }
    {
        self.blocks.assign(at, Role::Fixed, length);
        self.blocks.clear(at);
    }

    /// Makes a free block a master block, whose 64 slots are free: each names the one after it as the next, and the
    /// last one `last`.
    pub fn place_master(&mut self, at: u32, last: u32)
        requires room { RoomFor self.old at master_length }
        requires sayable { IsTrue (can_say self.old.shape.heads (Slot.Free last)) }
        ensures { (r : RoomFor self.old at master_length) → self.new ≡ filled (Master (chained slot_count (at + head_size self.old.shape.heads) last)) self.old r.free }
    {
        let heads = self.spec().heads();
        let first = at + self.head_size();
        self.blocks.assign(at, Role::Fixed, MASTER_LENGTH);
        write_chain(self.blocks.contents_mut(at), heads, first, last);
        self.blocks.set_role(at, Role::Master);
    }

    /// Makes the block of a handle or a pointer free.
    pub fn set_free(&mut self, at: u32)
        requires { HeldAt self.old at }
        ensures { (h : HeldAt self.old at) → self.new ≡ emptied self.old h }
    {
        self.blocks.set_free(at);
    }

    /// Cuts a free block in two, the first of `size` bytes.
    pub fn split(&mut self, at: u32, size: u32)
        requires { CanCut self.old at size }
        ensures { (can : CanCut self.old at size) → self.new ≡ cut_in_two size self.old can.free }
    {
        let length = size - self.head_size();
        self.blocks.split(at, size, length);
    }

    /// Makes a free block and the free one after it one block.
    pub fn merge(&mut self, at: u32)
        requires { FreePair self.old at }
        ensures { (pair : FreePair self.old at) → self.new ≡ joined_pair self.old pair }
    {
        let first = self.blocks.entry_at(at).size;
        let second = self.blocks.entry_at(at + first).size;
        let length = first + second - self.head_size();
        self.blocks.merge(at, length);
    }

    /// Grows the zone to its limit: the bytes up to there are a free block after the last. Where the zone is as large
    /// as its limit nothing changes.
    pub fn extend(&mut self)
        ensures { self.new ≡ extended self.old }
    {
        let _size = self.blocks.spec().size();
        self.blocks.extend();
    }

    /// Gives the block of a handle or a pointer `length` bytes in its first `size` bytes; the others are free. Bytes
    /// that it had stay as far as they go, and those that are added are zero.
    pub fn hold(&mut self, at: u32, size: u32, length: u32)
        requires { CanHold self.old at size length }
        ensures { (can : CanHold self.old at size length) → self.new ≡ held_there self.old can }
    {
        let kept = self.length_at(at);
        self.fit(at, size, length, kept);
    }

    /// Gives the block of a handle or a pointer `length` bytes in the first `size` bytes of it and of the free one
    /// right after it; the others are free. Bytes that it had stay as far as they go, and those that are added are
    /// zero.
    pub fn grow(&mut self, at: u32, size: u32, length: u32)
        requires { CanGrow self.old at size length }
        ensures { (can : CanGrow self.old at size length) → self.new ≡ enlarged self.old can }
    {
        let kept = self.length_at(at);
        let first = self.blocks.entry_at(at).size;
        let second = self.blocks.entry_at(at + first).size;
        let whole = first + second - self.head_size();
        self.blocks.merge(at, whole);
        self.fit(at, size, length, kept);
    }

    /// The block at an address changes places with those after it up to an address, each with its bytes. A master
    /// pointer that names one of them stays as it is.
    pub fn carry(&mut self, at: u32, end: u32)
        requires { ParcelAt self.old at end }
        ensures { (parcel : ParcelAt self.old at end) → self.new ≡ carried self.old parcel }
    {
        self.blocks.carry(at, end);
    }

    /// The block at an address changes places with those before it, which begin at `start`, each with its bytes. A
    /// master pointer that names one of them stays as it is.
    pub fn sink(&mut self, start: u32, at: u32)
        requires { ParcelUpTo self.old start at }
        ensures { (parcel : ParcelUpTo self.old start at) → self.new ≡ sunk self.old parcel }
    {
        self.blocks.sink(start, at);
    }

    /// The address of the first free block from an address on, if there is one.
    pub fn next_free(&self, from: u32) -> Option<u32>
        requires { SplitAt self.now from }
        ensures next { IfSome result (λ at. (split : SplitAt self.now from) → FirstFree split.after from at) }
        ensures none { IfNone result ((split : SplitAt self.now from) → IsTrue (none_free split.after)) }
    {
        self.blocks.next_free(from)
    }

    /// The address of the last free block before an address, if there is one.
    pub fn last_free(&self, end: u32) -> Option<u32>
        requires { SplitAt self.now end }
        ensures last { IfSome result (λ at. (split : SplitAt self.now end) → LastFree split.before (address_after self.now.shape []) at) }
        ensures none { IfNone result ((split : SplitAt self.now end) → IsTrue (none_free split.before)) }
    {
        self.blocks.last_free(end)
    }

    /// The size of the free block at an address.
    pub fn free_size(&self, at: u32) -> u32
        requires { FreeAt self.now at }
        ensures { (f : FreeAt self.now at) → result ≡ f.size }
    {
        self.blocks.free_size(at)
    }

    /// The sum of the sizes of the free blocks.
    pub fn free_bytes(&self) -> u32
        ensures { result ≡ free_total self.now.blocks }
    {
        self.blocks.free_bytes()
    }

    /// Copies `count` bytes, from `start` on, of the block of a handle or a pointer over those from `offset` on of such
    /// a block. It may be the same block, whose bytes are then those before the call.
    pub fn copy(&mut self, from: u32, start: u32, to: u32, offset: u32, count: u32)
        requires { CanCopy self.old from start to offset count }
        ensures { (can : CanCopy self.old from start to offset count) → self.new ≡ copied self.old can }
    {
        self.blocks.copy(from, start, to, offset, count);
    }

    /// The bytes of the block of a handle or a pointer.
    pub fn contents(&self, at: u32) -> &[u8]
        requires { HeldAt self.now at }
        ensures { (h : HeldAt self.now at) → result.now ≡ bytes_of h.content }
    {
        self.blocks.contents(at)
    }

    /// The bytes of the block of a handle or a pointer, to be written.
    pub fn contents_mut(&mut self, at: u32) -> &mut [u8]
        requires held { HeldAt self.old at }
        ensures* writes_back { sem 𝓛 (WritesBackContents self.entry at result) }
        ensures value { (h : HeldAt self.old at) → result.now ≡ bytes_of h.content }
    {
        self.blocks.contents_mut(at)
    }

    /// Lends the bytes of the block of a handle or a pointer: who has the loan reads and writes them.
    pub fn lend(&mut self, at: u32) -> Lent
        requires held { HeldAt self.old at }
        requires few { lent_count self.old.blocks < most_loans }
        ensures zone { (h : HeldAt self.old at) → self.new ≡ lent_out self.old h }
        ensures loan { (h : HeldAt self.old at) → result ≡ loan_of self.old h }
    {
        self.blocks.lend(at)
    }

    /// Takes back the bytes of the lent block at an address, as its holder left them.
    pub fn give_back(&mut self, at: u32, loan: Lent)
        requires { IsLoanOf self.old at loan }
        ensures { (is : IsLoanOf self.old at loan) → self.new ≡ taken_back self.old is }
    {
        self.blocks.give_back(at, loan);
    }

    /// The bytes of the zone, from its start to the end of its last block.
    pub fn image(&self) -> &[u8]
        requires nothing_lent { NothingLent self.now }
        ensures bytes { HasBytes self.now result.now }
        ensures walks { Walks self.now.shape.heads result.now }
    {
        self.blocks.image()
    }

    /// The bytes of a block's header.
    fn head_size(&self) -> u32
        ensures { result ≡ head_size self.now.shape.heads }
    {
        self.blocks.spec().heads().head_size()
    }

    /// Gives a block that has bytes `length` of them in its first `size` bytes: the first `kept`, and zeros. The others
    /// are a free block, if there are any.
    fn fit(&mut self, at: u32, size: u32, length: u32, kept: u32)
        requires { CanKeep self.old at size length kept }
        ensures { (keep : CanKeep self.old at size length kept) → self.new ≡ fitted kept self.old keep.can }
    {
        if size < self.blocks.entry_at(at).size {
            self.blocks.split(at, size, length);
        } else {
            self.blocks.resize(at, length);
        }
        if kept < length {
            self.blocks.clear_from(at, kept);
        }
    }
}

impl Records {
    ghost use Rattle.std.specs.Prelude.{◌≡◌, []};
    ghost use Rattle.zone_records.specs.Records.{NothingLent};
    ghost use Rattle.zone_records.specs.Structure.{IsIn};

    /// The region that the zone is in. The zone ends.
    pub fn into_region(self) -> Region
        requires nothing_lent { NothingLent self }
        ensures bytes { IsIn self result.bytes }
        ensures name { result.name ≡ self.memory.region }
        ensures whole { result.lent ≡ [] }
    {
        let Records { blocks } = self;
        blocks.into_region()
    }
}
