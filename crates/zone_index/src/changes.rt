//! The changes of a zone. Each keeps the index right: it turns the marks of the blocks that it changes, notes that the
//! sums of their leaves are stale, forgets those of their pages, and notes how many bytes a handle has then.

use crate::leaves::pass;
use crate::marking::{carry, sink};
use crate::purging::may_purge;
use crate::zone::IndexedZone;
use mac_base::block::Flags;
use mac_base::handle::{Handle, Ptr};
use raw_region::Lent;

impl IndexedZone {
    ghost use Rattle.std.specs.Prelude.{IfOk, IsFalse, IsTrue, MatchOption, Some, [], drop, length, ◌++◌, ◌+◌, ◌<◌, ◌∷◌, ◌≡◌};
    ghost use Rattle.mac_base.specs.HandleTable.{EmptyHandle, bytes_of, has_block, is_full, is_lent, is_locked, is_pointer, live_at};
    ghost use Rattle.mac_base.specs.HeadKind.{head_size, master_length};
    ghost use Rattle.linked_zone.specs.Changes.{bare_zone, carried_up, cut_in_two, enlarged, extended, fixed, flagged, given_back, held_there, joined_pair, pointed, relocated, sunk, taken, unfixed, with_master, without_block};
    ghost use Rattle.linked_zone.specs.Places.{CanCut, CanGrow, CanHold, FreePair, ParcelAt, ParcelUpTo, RoomFor};
    ghost use Rattle.std.specs.Borrow.{sem};
    ghost use Rattle.zone_index.specs.WritingBack.{WritesBackBytes};
    ghost use Rattle.linked_zone.specs.Copying.{CanCopy, copied};
    ghost use Rattle.mac_base.specs.Loans.{lent_out, most_loans, returned};
    ghost use Rattle.mac_base.specs.ZoneState.{with_heap};
    ghost use Rattle.linked_zone.specs.Loans.{IsLoanOf};
    ghost use Rattle.zone_index.specs.Runs.{none_fixed};

    /// Makes the next slot to be given an empty handle. There is none exactly where no slot is free, and then nothing
    /// has changed.
    pub fn take(&mut self) -> Option<Handle>
        ensures { MatchOption result ((self.old.heap.free_slots ≡ []) × (self.new ≡ self.old))
            (λ handle. (self.old.heap.free_slots ≡ handle ∷ drop 1 self.old.heap.free_slots) × (self.new ≡ taken handle self.old)) }
    {
        let _spec = self.zone.spec();
        let handle = self.zone.take()?;
        self.lengths.reach(handle.number());
        self.lengths.note(handle.number(), 0);
        Some(handle)
    }

    /// Makes an empty handle's slot the next to be given.
    pub fn release(&mut self, handle: Handle)
        requires { live_at self.old.heap.table handle ≡ Some EmptyHandle }
        ensures { self.new ≡ given_back handle self.old }
    {
        self.zone.release(handle);
    }

    /// Grows the zone to its limit: the bytes up to there are a free block after the last. Where the zone is as large
    /// as its limit nothing changes.
    pub fn extend(&mut self)
        ensures { self.new ≡ extended self.old }
    {
        let spec = self.zone.spec();
        let base = spec.base();
        let end = base + spec.size();
        let page = self.page_at(end);
        let leaf = self.leaf_at(end);
        self.pages.forget(page, page);
        self.leaves.touch(leaf);
        self.zone.extend();
    }

    /// Cuts a free block in two, the first of `size` bytes.
    pub fn split(&mut self, at: u32, size: u32)
        requires { CanCut self.old at size }
        ensures { (can : CanCut self.old at size) → self.new ≡ cut_in_two size self.old can.free }
    {
        let first = self.page(at);
        let after = at + size;
        let last = self.page_at(after);
        let low = self.leaf(at);
        let high = self.leaf_at(after);
        self.pages.forget(first, last);
        self.leaves.touch(low);
        self.leaves.touch(high);
        self.zone.split(at, size);
    }

    /// Makes a free block and the free one after it one block.
    pub fn merge(&mut self, at: u32)
        requires { FreePair self.old at }
        ensures { (pair : FreePair self.old at) → self.new ≡ joined_pair self.old pair }
    {
        let first = self.page(at);
        let after = at + self.zone.free_size(at);
        let last = self.page_at(after);
        let low = self.leaf(at);
        let high = self.leaf_at(after);
        self.pages.forget(first, last);
        self.leaves.touch(low);
        self.leaves.touch(high);
        self.zone.merge(at);
    }

    /// The block at an address changes places with those after it up to an address, each of a handle or free. Every
    /// handle has the same bytes and flags. The bytes turn in one rotation, however many blocks there are.
    pub fn carry(&mut self, at: u32, end: u32)
        requires parcel { ParcelAt self.old at end }
        requires loose { (parcel : ParcelAt self.old at end) → IsTrue (none_fixed self.old.heap.table (parcel.here ∷ parcel.blocks)) }
        ensures { (parcel : ParcelAt self.old at end) → self.new ≡ carried_up self.old parcel }
    {
        let first = self.place(at);
        let from = self.page(at);
        let to = self.page_at(end);
        let size = self.zone.entry_at(at).size;
        let others = end - at - size;
        let old = self.leaf(at);
        let new = self.leaf_at(at + others);
        self.pages.forget(from, to);
        pass(&self.zone, &mut self.leaves, at + size, end);
        self.leaves.touch(old);
        self.leaves.touch(new);
        carry(
            &mut self.purgeable,
            first,
            size as usize / 4,
            others as usize / 4,
        );
        self.zone.carry(at, end);
    }

    /// The block at an address changes places with those before it, which begin at `start`, each of a handle or free.
    /// Every handle has the same bytes and flags.
    pub fn sink(&mut self, start: u32, at: u32)
        requires parcel { ParcelUpTo self.old start at }
        requires loose { (parcel : ParcelUpTo self.old start at) → IsTrue (none_fixed self.old.heap.table (parcel.blocks ++ parcel.here ∷ [])) }
        ensures { (parcel : ParcelUpTo self.old start at) → self.new ≡ sunk self.old parcel }
    {
        let first = self.place(start);
        let size = self.zone.entry_at(at).size;
        let from = self.page(start);
        let to = self.page_at(at + size);
        let others = at - start;
        let old = self.leaf(at);
        let new = self.leaf(start);
        self.pages.forget(from, to);
        pass(&self.zone, &mut self.leaves, start, at);
        self.leaves.touch(old);
        self.leaves.touch(new);
        sink(
            &mut self.purgeable,
            first,
            size as usize / 4,
            others as usize / 4,
        );
        self.zone.sink(start, at);
    }

    /// Gives an empty handle a free block, with `length` bytes of zero and no flags.
    pub fn point(&mut self, handle: Handle, at: u32, length: u32)
        requires empty { live_at self.old.heap.table handle ≡ Some EmptyHandle }
        requires room { RoomFor self.old at length }
        ensures { (r : RoomFor self.old at length) → self.new ≡ pointed handle length self.old r.free }
    {
        let page = self.page(at);
        let leaf = self.leaf(at);
        self.pages.forget(page, page);
        self.leaves.touch(leaf);
        self.zone.point(handle, at, length);
        self.lengths.note(handle.number(), length);
    }

    /// Makes a free block that of a new pointer, with `length` bytes of zero. The pointer is the address of the first.
    pub fn fix(&mut self, at: u32, length: u32) -> Ptr
        requires { RoomFor self.old at length }
        ensures pointer { result ≡ at + head_size self.old.shape.heads }
        ensures zone { (r : RoomFor self.old at length) → self.new ≡ fixed length self.old r.free }
    {
        let place = self.place(at);
        let page = self.page(at);
        let leaf = self.leaf(at);
        self.pages.forget(page, page);
        self.leaves.touch(leaf);
        self.marks.set(place, true);
        let pointer = self.zone.fix(at, length);
        let _spec = self.zone.spec();
        self.lengths.note(pointer.number(), length);
        pointer
    }

    /// Makes a pointer's block free. The pointer isn't live any more.
    pub fn unfix(&mut self, pointer: Ptr)
        requires live { IsTrue (is_pointer self.old.heap.table pointer) }
        requires here { IsFalse (is_lent self.old.heap.table pointer) }
        ensures { self.new ≡ unfixed pointer self.old }
    {
        let at = self.zone.address_of(pointer.number());
        let place = self.place(at);
        let page = self.page(at);
        let leaf = self.leaf(at);
        self.pages.forget(page, page);
        self.leaves.touch(leaf);
        self.marks.set(place, false);
        self.zone.unfix(pointer);
        self.lengths.note(pointer.number(), 0);
    }

    /// Empties a handle that has a block: the block is free, and the handle stays live.
    pub fn empty(&mut self, handle: Handle)
        requires full { IsTrue (is_full self.old.heap.table handle) }
        requires here { IsFalse (is_lent self.old.heap.table handle) }
        ensures { self.new ≡ without_block handle self.old }
    {
        let at = self.zone.block_of(handle);
        let place = self.place(at);
        let page = self.page(at);
        let leaf = self.leaf(at);
        self.pages.forget(page, page);
        self.leaves.touch(leaf);
        self.marks.set(place, false);
        self.purgeable.set(place, false);
        self.zone.empty(handle);
        self.lengths.note(handle.number(), 0);
    }

    /// Makes a free block a master block. Its slots are the next to be given, in order of address.
    pub fn build_master(&mut self, at: u32)
        requires { RoomFor self.old at master_length }
        ensures { (r : RoomFor self.old at master_length) → self.new ≡ with_master self.old r.free }
    {
        let place = self.place(at);
        let page = self.page(at);
        let leaf = self.leaf(at);
        self.pages.forget(page, page);
        self.leaves.touch(leaf);
        self.marks.set(place, true);
        self.zone.build_master(at);
    }

    /// Sets the flags of a handle that has a block.
    pub fn set_flags(&mut self, handle: Handle, flags: Flags)
        requires { IsTrue (is_full self.old.heap.table handle) }
        ensures { self.new ≡ flagged handle flags self.old }
    {
        let at = self.zone.block_of(handle);
        let place = self.place(at);
        let page = self.page(at);
        let leaf = self.leaf(at);
        self.pages.forget(page, page);
        self.leaves.touch(leaf);
        self.marks.set(place, flags.lock);
        self.purgeable.set(place, may_purge(flags));
        self.zone.set_flags(handle, flags);
    }

    /// The block of a handle in a new place: the free block at an address is its block now, with `length` bytes: those
    /// that it had, as far as they go, and zeros after them; the old block is free. Flags stay.
    pub fn relocate(&mut self, handle: Handle, at: u32, length: u32)
        requires full { IsTrue (is_full self.old.heap.table handle) }
        requires unlocked { IsFalse (is_locked self.old.heap.table handle) }
        requires here { IsFalse (is_lent self.old.heap.table handle) }
        requires room { RoomFor self.old at length }
        ensures { (r : RoomFor self.old at length) → self.new ≡ relocated handle length self.old r.free }
    {
        let from = self.zone.block_of(handle);
        let old = self.place(from);
        let new = self.place(at);
        let from_page = self.page(from);
        let to_page = self.page(at);
        let from_leaf = self.leaf(from);
        let to_leaf = self.leaf(at);
        self.pages.forget(from_page, from_page);
        self.pages.forget(to_page, to_page);
        self.leaves.touch(from_leaf);
        self.leaves.touch(to_leaf);
        let mark = self.purgeable.get(old);
        self.purgeable.set(old, false);
        self.purgeable.set(new, mark);
        self.zone.relocate(handle, at, length);
        self.lengths.note(handle.number(), length);
    }

    /// Gives a handle or a pointer `length` bytes in the first `size` bytes of its block; the others are free. Bytes
    /// that it had stay as far as they go, and those that are added are zero.
    pub fn hold(&mut self, block: u32, size: u32, length: u32)
        requires room { CanHold self.old block size length }
        requires here { IsFalse (is_lent self.old.heap.table block) }
        ensures { (can : CanHold self.old block size length) → self.new ≡ held_there self.old can }
    {
        let _spec = self.zone.spec();
        let at = self.zone.address_of(block);
        let first = self.page(at);
        let end = at + size;
        let last = self.page_at(end);
        let low = self.leaf(at);
        let high = self.leaf_at(end);
        self.pages.forget(first, last);
        self.leaves.touch(low);
        self.leaves.touch(high);
        self.zone.hold(block, size, length);
        self.lengths.note(block, length);
    }

    /// Gives a handle or a pointer `length` bytes in the first `size` bytes of its block and the free one right after
    /// it; the others are free. Bytes that it had stay as far as they go, and those that are added are zero.
    pub fn grow(&mut self, block: u32, size: u32, length: u32)
        requires room { CanGrow self.old block size length }
        requires here { IsFalse (is_lent self.old.heap.table block) }
        ensures { (can : CanGrow self.old block size length) → self.new ≡ enlarged self.old can }
    {
        let _spec = self.zone.spec();
        let at = self.zone.address_of(block);
        let first = self.page(at);
        let end = at + size;
        let last = self.page_at(end);
        let after = at + self.zone.entry_at(at).size;
        let low = self.leaf(at);
        let middle = self.leaf_at(after);
        let high = self.leaf_at(end);
        self.pages.forget(first, last);
        self.leaves.touch(low);
        self.leaves.touch(middle);
        self.leaves.touch(high);
        self.zone.grow(block, size, length);
        self.lengths.note(block, length);
    }

    /// The bytes of a handle or a pointer that has a block, to be written.
    pub fn contents_mut(&mut self, block: u32) -> &mut [u8]
        requires block { IsTrue (has_block self.old.heap.table block) }
        requires here { IsFalse (is_lent self.old.heap.table block) }
        ensures* writes_back { sem 𝓛 (WritesBackBytes self.entry block result) }
        ensures value { result.now ≡ bytes_of self.old.heap.table block }
    {
        self.zone.contents_mut(block)
    }

    /// Copies `count` bytes of a handle or a pointer, from `start` on, over those from `offset` on of another. It may
    /// be the same, whose bytes are then those before the call.
    pub fn copy(&mut self, from: u32, start: u32, to: u32, offset: u32, count: u32)
        requires { CanCopy self.old from start to offset count }
        ensures { self.new ≡ copied from start to offset count self.old }
    {
        self.zone.copy(from, start, to, offset, count);
    }

    /// Lends the bytes of a handle or a pointer: who has the loan reads and writes them, until it comes back.
    pub fn lend(&mut self, block: u32) -> Lent
        requires block { IsTrue (has_block self.old.heap.table block) }
        requires here { IsFalse (is_lent self.old.heap.table block) }
        requires few { length self.old.heap.table.lent < most_loans }
        ensures zone { self.new ≡ with_heap (lent_out block self.old.heap) self.old }
        ensures loan { IsLoanOf self.new block result }
        ensures bytes { result.bytes ≡ bytes_of self.old.heap.table block }
    {
        self.zone.lend(block)
    }

    /// Takes back the bytes of a handle or a pointer that is lent, as the holder of the loan left them.
    pub fn give_back(&mut self, block: u32, loan: Lent)
        requires { IsLoanOf self.old block loan }
        ensures { self.new ≡ with_heap (returned block loan.bytes self.old.heap) self.old }
    {
        self.zone.give_back(block, loan);
    }
}
