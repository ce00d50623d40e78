//! The zone.

use crate::flags;
use mac_base::block::{Block, Entry, Flags, HeadKind, Kind};
use mac_base::error::HostFull;
use mac_base::handle::{Handle, Ptr};
use mac_base::zone_spec::{LOWEST_BASE, ZoneSpec};
use std::alloc::Global;
use std::marker::Model;
use zone_records::{Records, Slot};

/// A zone with its handles and pointers. Contracts see its shape, its handle table, its zone map and its free slots in
/// the order in which they are given. Free neighbours need not be joined. After `create` no call takes memory of the
/// host.
pub struct LinkedZone {
    pub(crate) records: Records,
}

impl Model for LinkedZone {
    ghost use Rattle.mac_base.specs.ZoneState.{ZoneState};

    ghost Value = { ZoneState };

    ghost use Rattle.linked_zone.specs.Reading.{state_of_field, StandsAsRead};

    ghost view = { state_of_field };

    ghost invariant = { StandsAsRead };
}

impl Drop for LinkedZone {
    ghost use Rattle.std.specs.Prelude.{◌≡◌, []};

    /// A zone ends only when nothing of it is lent.
    fn drop(self)
        requires nothing_lent { self.heap.table.lent ≡ [] }
    {
        let LinkedZone { records } = self;
        drop(records);
    }
}

impl LinkedZone {
    ghost use Rattle.std.specs.Prelude.{◌≡◌, ◌+◌, ◌≤◌, ◌<◌, IfOk, IfSome, IfNone, IsTrue, IsFalse, MatchOption, Some, None, ◌∷◌, [], not, drop, length, Contains, ◌↔◌};
    ghost use Rattle.std.specs.Borrow.{sem};
    ghost use Rattle.mac_base.specs.HandleTable.{EmptyHandle, has_block, is_handle, is_full, is_lent, is_pointer, live_at, bytes_of, flags_of};
    ghost use Rattle.mac_base.specs.HeadKind.{master_length, head_size};
    ghost use Rattle.mac_base.specs.Heap.{has_none};
    ghost use Rattle.mac_base.specs.Loans.{most_loans, LoansFit};
    ghost use Rattle.mac_base.specs.Suits.{slots, wanted_length};
    ghost use Rattle.mac_base.specs.BlockReport.{report_at};
    ghost use Rattle.mac_base.specs.ZoneMap.{address_after, free_bytes, contents_of};
    ghost use Rattle.mac_base.specs.ZoneState.{own_memory};
    ghost use Rattle.linked_zone.specs.Changes.{bare_zone, taken, given_back, pointed, without_block, fixed, unfixed, held_there, enlarged, cut_in_two, joined_pair, with_master, flagged};
    ghost use Rattle.linked_zone.specs.Fit.{Fits, HasSizes};
    ghost use Rattle.linked_zone.specs.WritingBack.{WritesBackBytes};
    ghost use Rattle.linked_zone.specs.Places.{EntryAt, FreeAt, BlockOf, NamedAt, RoomFor, CanCut, CanHold, CanGrow, FreePair, SplitAt, FirstFree, LastFree, none_free, FirstFrom, NoneFrom};
    ghost use Rattle.linked_zone.specs.Sizes.{sizes_of};
    ghost use Rattle.linked_zone.specs.Image.{IsImage};
    ghost use Rattle.block_bytes.specs.Walk.{Walks};

    /// A new zone: one free block, and no slot.
    pub fn create(alloc: Global, spec: ZoneSpec) -> Result<LinkedZone, HostFull>
        ensures { IfOk result (λ zone. zone ≡ bare_zone (own_memory zone.memory.region) spec) }
    {
        let starts_high_enough = spec.base() >= LOWEST_BASE;
        prove!(starts_high_enough);
        Ok(LinkedZone {
            records: Records::create(alloc, spec)?,
        })
    }

    /// Where the zone lies, how large it is now and how far it may grow. Handles, pointers, blocks, slots and loans fit
    /// each other, and all sizes are possible.
    pub fn spec(&self) -> ZoneSpec
        ensures sizes { result ≡ sizes_of self.now }
        ensures loans { LoansFit self.now.heap }
        ensures fits { Fits self.now }
        ensures possible { HasSizes self.now }
    {
        self.records.spec()
    }

    /// The bytes of the zone, from its start to the end of its last block.
    pub fn image(&self) -> &[u8]
        requires nothing_lent { self.now.heap.table.lent ≡ [] }
        ensures form { IsImage self.now result.now }
        ensures walks { Walks self.now.shape.heads result.now }
    {
        self.records.image()
    }

    /// Whether a slot is free.
    pub fn has_slot(&self) -> bool
        ensures { result ≡ not (has_none self.now.heap.free_slots) }
    {
        self.records.front() != 0
    }

    /// Whether a handle is live: the address of a slot that isn't free.
    pub fn is_live(&self, handle: Handle) -> bool
        ensures { result ≡ is_handle self.now.heap.table handle }
    {
        self.is_slot(handle) && !matches!(self.records.slot(handle.number()), Slot::Free(_))
    }

    /// Whether a pointer is live: a nonrelocatable block's contents begin there. One header is read.
    pub fn is_pointer(&self, pointer: Ptr) -> bool
        ensures { result ≡ is_pointer self.now.heap.table pointer }
    {
        let head_size = self.records.spec().heads().head_size();
        let number = pointer.number();
        number >= head_size
            && self.records.is_block(number - head_size)
            && matches!(self.records.entry_at(number - head_size).kind, Kind::Ptr(_))
    }

    /// Whether a number has a block: it is a handle that isn't empty, or a pointer.
    pub fn has_block(&self, block: u32) -> bool
        ensures { result ≡ has_block self.now.heap.table block }
    {
        self.is_pointer(Ptr::new(block))
            || (self.is_slot(Handle::new(block))
                && matches!(self.records.slot(block), Slot::Full(..)))
    }

    /// Whether a live handle has a block. Only its slot is read.
    pub fn is_full(&self, handle: Handle) -> bool
        requires { IsTrue (is_handle self.now.heap.table handle) }
        ensures { result ≡ is_full self.now.heap.table handle }
    {
        matches!(self.records.slot(handle.number()), Slot::Full(..))
    }

    /// Whether a handle or a pointer that has a block is lent.
    pub fn is_lent(&self, block: u32) -> bool
        requires { IsTrue (has_block self.now.heap.table block) }
        ensures { result ≡ is_lent self.now.heap.table block }
    {
        self.records.is_lent(self.address_of(block))
    }

    /// How many blocks are lent.
    pub fn lent_count(&self) -> u32
        ensures value { result ≡ length self.now.heap.table.lent }
        ensures few { result ≤ most_loans }
    {
        self.records.lent_count()
    }

    /// How many bytes a handle or a pointer has in its block, which may be lent.
    pub fn length(&self, block: u32) -> u32
        requires { IsTrue (has_block self.now.heap.table block) }
        ensures { result ≡ length (bytes_of self.now.heap.table block) }
    {
        self.records.length_at(self.address_of(block))
    }

    /// How many bytes a handle or a pointer has: none where it isn't live, or empty.
    pub fn length_if_any(&self, block: u32) -> u32
        ensures { result ≡ length (bytes_of self.now.heap.table block) }
    {
        if self.has_block(block) {
            self.length(block)
        } else {
            0
        }
    }

    /// The address of the block of a handle or a pointer that has one.
    pub fn address_of(&self, block: u32) -> u32
        requires { IsTrue (has_block self.now.heap.table block) }
        ensures { NamedAt self.now block result }
    {
        if self.is_pointer(Ptr::new(block)) {
            block - self.records.spec().heads().head_size()
        } else {
            self.block_of(Handle::new(block))
        }
    }

    /// The address of the block of a handle that has one.
    pub fn block_of(&self, handle: Handle) -> u32
        requires { IsTrue (is_full self.now.heap.table handle) }
        ensures { BlockOf self.now handle result }
    {
        let contents = match self.records.slot(handle.number()) {
            Slot::Full(_, contents) => contents,
            Slot::Free(_) | Slot::Empty => unreachable!(),
        };
        contents - self.records.spec().heads().head_size()
    }

    /// The flags of a handle; an empty one has none.
    pub fn flags(&self, handle: Handle) -> Flags
        requires { IsTrue (is_handle self.now.heap.table handle) }
        ensures { result ≡ flags_of self.now.heap.table handle }
    {
        match self.records.slot(handle.number()) {
            Slot::Full(said, contents) => {
                let head_size = self.records.spec().heads().head_size();
                flags::read(&self.records, said, contents - head_size)
            }
            Slot::Free(_) | Slot::Empty => Flags::NONE,
        }
    }

    /// The bytes of a handle or a pointer that has a block.
    pub fn contents(&self, block: u32) -> &[u8]
        requires block { IsTrue (has_block self.now.heap.table block) }
        requires here { IsFalse (is_lent self.now.heap.table block) }
        ensures { result.now ≡ bytes_of self.now.heap.table block }
    {
        self.records.contents(self.address_of(block))
    }

    /// The first block that begins at an address or after it, if there is one. No header is read.
    pub fn first_from(&self, from: u32) -> Option<u32>
        ensures first { IfSome result (λ at. FirstFrom self.now from at) }
        ensures none { IfNone result (NoneFrom self.now from) }
    {
        self.records.first_from(from)
    }

    /// The address of the first free block from an address on, if there is one.
    pub fn next_free(&self, from: u32) -> Option<u32>
        requires { SplitAt self.now from }
        ensures next { IfSome result (λ at. (split : SplitAt self.now from) → FirstFree split.after from at) }
        ensures none { IfNone result ((split : SplitAt self.now from) → IsTrue (none_free split.after)) }
    {
        self.records.next_free(from)
    }

    /// The address of the last free block before an address, if there is one.
    pub fn last_free(&self, end: u32) -> Option<u32>
        requires { SplitAt self.now end }
        ensures last { IfSome result (λ at. (split : SplitAt self.now end) → LastFree split.before (address_after self.now.shape []) at) }
        ensures none { IfNone result ((split : SplitAt self.now end) → IsTrue (none_free split.before)) }
    {
        self.records.last_free(end)
    }

    /// The size of the free block at an address.
    pub fn free_size(&self, at: u32) -> u32
        requires { FreeAt self.now at }
        ensures { (f : FreeAt self.now at) → result ≡ f.size }
    {
        self.records.free_size(at)
    }

    /// The sum of the sizes of the free blocks.
    pub fn free_bytes(&self) -> u32
        ensures { result ≡ free_bytes self.now.heap.map }
    {
        self.records.free_bytes()
    }

    /// The size of the block at an address, and what it is for.
    pub fn entry_at(&self, at: u32) -> Entry
        requires { EntryAt self.now at }
        ensures { (e : EntryAt self.now at) → result ≡ e.here }
    {
        self.records.entry_at(at)
    }

    /// The block after the one at an address, if there is one.
    pub fn after(&self, at: u32) -> Option<u32>
        requires { EntryAt self.now at }
        ensures next { IfSome result (λ next. (e : EntryAt self.now at) → next ≡ at + e.here.size) }
        ensures there { IfSome result (λ next. EntryAt self.now next) }
        ensures last { IfNone result ((e : EntryAt self.now at) → e.after ≡ []) }
    {
        self.records.after(at)
    }

    /// The block before the one at an address, if there is one.
    pub fn before(&self, at: u32) -> Option<u32>
        requires { EntryAt self.now at }
        ensures there { IfSome result (λ last. EntryAt self.now last) }
        ensures next { IfSome result (λ last. (e : EntryAt self.now last) → at ≡ last + e.here.size) }
        ensures first { IfNone result ((e : EntryAt self.now at) → e.before ≡ []) }
    {
        self.records.before(at)
    }

    /// The block whose header is at this address, if one is.
    pub fn entry(&self, at: u32) -> Option<Block>
        ensures { result ≡ report_at self.now.shape self.now.heap at }
    {
        if !self.records.is_block(at) {
            return None;
        }
        let head = self.entry_and_flags(at);
        Some(Block {
            address: at,
            entry: head.0,
            length: self.length_at(at),
            flags: head.1,
        })
    }

    /// How many bytes the owner of the block at an address has in it; a block without an owner has none.
    fn length_at(&self, at: u32) -> u32
        requires { EntryAt self.now at }
        ensures { (e : EntryAt self.now at) → result ≡ wanted_length self.now.heap.table e.here.kind }
    {
        self.records.length_at(at)
    }

    /// Whether a handle is the address of a slot.
    fn is_slot(&self, handle: Handle) -> bool
        ensures { IsTrue result ↔ Contains (slots self.now.shape self.now.heap.map) handle }
    {
        self.records.is_slot(handle.number())
    }
}
