//! The changes of a zone.

use crate::zone::LinkedZone;
use mac_base::block::{Flags, Kind};
use mac_base::handle::{Handle, Ptr};
use zone_records::{Records, Slot};

impl LinkedZone {
    ghost use Rattle.std.specs.Prelude.{◌≡◌, ◌+◌, IsTrue, IsFalse, MatchOption, Some, ◌∷◌, [], drop};
    ghost use Rattle.mac_base.specs.HandleTable.{EmptyHandle, is_full, is_lent, is_pointer, live_at};
    ghost use Rattle.mac_base.specs.HeadKind.{master_length, head_size};
    ghost use Rattle.linked_zone.specs.Changes.{extended, taken, given_back, pointed, without_block, fixed, unfixed, cut_in_two, joined_pair, with_master, carried_up, sunk};
    ghost use Rattle.linked_zone.specs.Places.{RoomFor, CanCut, FreePair, ParcelAt, ParcelUpTo};

    /// Makes the next slot to be given an empty handle. There is none exactly where no slot is free, and then nothing
    /// has changed.
    pub fn take(&mut self) -> Option<Handle>
        ensures { MatchOption result ((self.old.heap.free_slots ≡ []) × (self.new ≡ self.old))
            (λ handle. (self.old.heap.free_slots ≡ handle ∷ drop 1 self.old.heap.free_slots) × (self.new ≡ taken handle self.old)) }
    {
        let front = self.records.front();
        if front == 0 {
            return None;
        }
        let Slot::Free(next) = self.records.slot(front) else {
            unreachable!();
        };
        self.records.set_slot(front, Slot::Empty);
        self.records.set_front(next);
        Some(Handle::new(front))
    }

    /// Makes an empty handle's slot the next to be given.
    pub fn release(&mut self, handle: Handle)
        requires { live_at self.old.heap.table handle ≡ Some EmptyHandle }
        ensures { self.new ≡ given_back handle self.old }
    {
        let slot = handle.number();
        let next = self.records.front();
        self.records.set_slot(slot, Slot::Free(next));
        self.records.set_front(slot);
    }

    /// Grows the zone to its limit: the bytes up to there are a free block after the last. Where the zone is as large
    /// as its limit nothing changes.
    pub fn extend(&mut self)
        ensures { self.new ≡ extended self.old }
    {
        let _size = self.records.spec().size();
        self.records.extend();
    }

    /// Cuts a free block in two, the first of `size` bytes.
    pub fn split(&mut self, at: u32, size: u32)
        requires { CanCut self.old at size }
        ensures { (can : CanCut self.old at size) → self.new ≡ cut_in_two size self.old can.free }
    {
        self.records.split(at, size);
    }

    /// Makes a free block and the free one after it one block.
    pub fn merge(&mut self, at: u32)
        requires { FreePair self.old at }
        ensures { (pair : FreePair self.old at) → self.new ≡ joined_pair self.old pair }
    {
        self.records.merge(at);
    }

    /// The block at an address changes places with those after it up to an address, each of a handle or free. Every
    /// handle has the same bytes and flags. The bytes turn in one rotation, however many blocks there are.
    pub fn carry(&mut self, at: u32, end: u32)
        requires { ParcelAt self.old at end }
        ensures { (parcel : ParcelAt self.old at end) → self.new ≡ carried_up self.old parcel }
    {
        self.records.carry(at, end);
        follow_run(&mut self.records, at, end);
    }

    /// The block at an address changes places with those before it, which begin at `start`, each of a handle or free.
    /// Every handle has the same bytes and flags.
    pub fn sink(&mut self, start: u32, at: u32)
        requires { ParcelUpTo self.old start at }
        ensures { (parcel : ParcelUpTo self.old start at) → self.new ≡ sunk self.old parcel }
    {
        let end = at + self.records.entry_at(at).size;
        self.records.sink(start, at);
        follow_run(&mut self.records, start, end);
    }

    /// Gives an empty handle a free block, with `length` bytes of zero and no flags.
    pub fn point(&mut self, handle: Handle, at: u32, length: u32)
        requires empty { live_at self.old.heap.table handle ≡ Some EmptyHandle }
        requires room { RoomFor self.old at length }
        ensures { (r : RoomFor self.old at length) → self.new ≡ pointed handle length self.old r.free }
    {
        let contents = at + self.records.spec().heads().head_size();
        self.records.place_handle(at, handle, length);
        self.records
            .set_slot(handle.number(), Slot::Full(Flags::NONE, contents));
    }

    /// Makes a free block that of a new pointer, with `length` bytes of zero. The pointer is the address of the first.
    pub fn fix(&mut self, at: u32, length: u32) -> Ptr
        requires { RoomFor self.old at length }
        ensures pointer { result ≡ at + head_size self.old.shape.heads }
        ensures zone { (r : RoomFor self.old at length) → self.new ≡ fixed length self.old r.free }
    {
        let contents = at + self.records.spec().heads().head_size();
        self.records.place_pointer(at, length);
        Ptr::new(contents)
    }

    /// Makes a pointer's block free. The pointer isn't live any more.
    pub fn unfix(&mut self, pointer: Ptr)
        requires live { IsTrue (is_pointer self.old.heap.table pointer) }
        requires here { IsFalse (is_lent self.old.heap.table pointer) }
        ensures { self.new ≡ unfixed pointer self.old }
    {
        let at = self.address_of(pointer.number());
        self.records.set_free(at);
    }

    /// Empties a handle that has a block: the block is free, and the handle stays live.
    pub fn empty(&mut self, handle: Handle)
        requires full { IsTrue (is_full self.old.heap.table handle) }
        requires here { IsFalse (is_lent self.old.heap.table handle) }
        ensures { self.new ≡ without_block handle self.old }
    {
        let at = self.block_of(handle);
        self.records.set_free(at);
        self.records.set_slot(handle.number(), Slot::Empty);
    }

    /// Makes a free block a master block. Its slots are the next to be given, in order of address.
    pub fn build_master(&mut self, at: u32)
        requires { RoomFor self.old at master_length }
        ensures { (r : RoomFor self.old at master_length) → self.new ≡ with_master self.old r.free }
    {
        let first = at + self.records.spec().heads().head_size();
        let last = self.records.front();
        self.records.place_master(at, last);
        self.records.set_front(first);
    }
}

ghost use Rattle.std.specs.Prelude.{◌≡◌};
ghost use Rattle.linked_zone.specs.Following.{CanFollow, followed, Misplaced};
ghost use Rattle.linked_zone.specs.Owned.{records_of};

/// Makes the slot of a handle, if the block is one's, say where the block's contents begin now.
pub(crate) fn follow(records: &mut Records, kind: Kind, contents: u32)
    requires { CanFollow records.old kind contents }
    ensures { (can : CanFollow records.old kind contents) → records.new ≡ followed records.old kind contents can }
{
    let Kind::Rel(handle) = kind else {
        return;
    };
    let Slot::Full(flags, _) = records.slot(handle.number()) else {
        return;
    };
    records.set_slot(handle.number(), Slot::Full(flags, contents));
}

/// Makes the slots of the handles whose blocks lie from an address up to another say where these are.
fn follow_run(records: &mut Records, start: u32, end: u32)
    requires { Misplaced records.old start end }
    ensures { (run : Misplaced records.old start end) → records.new ≡ records_of run.zone }
{
    let head_size = records.spec().heads().head_size();
    let mut next = start;
    while next < end {
        let here = records.entry_at(next);
        follow(records, here.kind, next + head_size);
        next += here.size;
    }
}
