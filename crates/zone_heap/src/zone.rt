//! The zone.

use linked_zone::LinkedZone;
use mac_base::block::{Flags, Status};
use mac_base::error::HostFull;
use mac_base::handle::{Handle, Ptr};
use mac_base::size::{MASTER_LENGTH, ZONE_HEADER, need_for};
use mac_base::zone_spec::ZoneSpec;
use raw_region::Lent;
use std::alloc::Global;
use std::marker::Model;
use zone_index::IndexedZone;

/// A heap zone in raw bytes. Contracts see its shape and its heap: the handle table, the zone map and the free slots.
/// All host memory is taken by `create`.
pub struct Zone {
    pub(crate) pointers: IndexedZone,
}

impl Model for Zone {
    ghost use Rattle.mac_base.specs.ZoneState.{ZoneState};

    ghost Value = { ZoneState };

    ghost use Rattle.zone_heap.specs.Attempts.{SoundZone};

    ghost view = { λ z. z.pointers };

    ghost invariant = { λ z. SoundZone z.pointers };
}

impl Drop for Zone {
    ghost use Rattle.std.specs.Prelude.{◌≡◌, []};

    /// A zone ends only when nothing of it is lent.
    fn drop(self)
        requires nothing_lent { self.heap.table.lent ≡ [] }
    {
        let Zone { pointers } = self;
        drop(pointers);
    }
}

impl Zone {
    ghost use Rattle.std.specs.Prelude.{length, not, ◌||◌, ◌≡◌, ◌+◌, ◌≤◌, IfOk, IsTrue, IsFalse, MatchResult, Some, None, []};
    ghost use Rattle.mac_base.specs.ZoneMap.{address_after, contents_of};
    ghost use Rattle.std.specs.Borrow.{sem};
    ghost use Rattle.mac_base.specs.BlockStatus.{status_of};
    ghost use Rattle.mac_base.specs.HandleTable.{is_full, is_handle, is_lent, is_pointer, bytes_of, flags_of, with_flags};
    ghost use Rattle.mac_base.specs.Loans.{LoansAreFixed, LoansFit, lent_out, may_be_lent, returned};
    ghost use Rattle.mac_base.specs.ZoneState.{own_memory, with_heap};
    ghost use Rattle.linked_zone.specs.Loans.{IsLoanOf, KeepsLoans, KeepsOtherLoans};
    ghost use Rattle.mac_base.specs.Heap.{new_heap, with_table};
    ghost use Rattle.mac_base.specs.Sound.{Sound};
    ghost use Rattle.mac_base.specs.declared.releasing.ReleasingCall.TheVariants.{DisposesHandle, DisposesPtr, Empties};
    ghost use Rattle.mac_base.specs.Releasing.{heap_released};
    ghost use Rattle.mac_base.specs.ZoneSizes.{shape_of};
    ghost use Rattle.zone_heap.specs.Placed.{resized_there};
    ghost use Rattle.zone_heap.specs.WritingBack.{WritesBackBytes};

    /// A new zone: a master block with 64 free slots, and one free block.
    pub fn create(alloc: Global, spec: ZoneSpec) -> Result<Zone, HostFull>
        ensures { IfOk result (λ zone. zone ≡ record { memory = own_memory zone.memory.region; shape = shape_of spec; heap = new_heap (shape_of spec) spec.size }) }
    {
        let mut pointers = IndexedZone::create(alloc, spec)?;
        let first = spec.base() + ZONE_HEADER;
        pointers.split(first, need_for(spec.heads(), MASTER_LENGTH));
        pointers.build_master(first);
        Ok(Zone { pointers })
    }

    /// How many blocks are lent: 8 at most, each of them a pointer's or a locked handle's.
    pub fn lent_count(&self) -> u32
        ensures value { result ≡ length self.now.heap.table.lent }
        ensures loans { LoansFit self.now.heap }
        ensures fixed { LoansAreFixed self.now.heap }
    {
        let linked = self.pointers.linked();
        let _spec = linked.spec();
        linked.lent_count()
    }

    /// Lends the bytes of a pointer or a locked handle: who has the loan reads and writes them, until it comes back.
    /// Till then the block keeps its address, and the zone reads and writes none of its bytes.
    pub fn lend(&mut self, block: u32) -> Lent
        requires full { status_of self.old.heap.table block ≡ Status.Full }
        requires fixed { IsTrue (may_be_lent self.old.heap.table block) }
        ensures zone { self.new ≡ with_heap (lent_out block self.old.heap) self.old }
        ensures loan { IsLoanOf self.new block result }
        ensures bytes { result.bytes ≡ bytes_of self.old.heap.table block }
        ensures loans { KeepsLoans self.old self.new }
    {
        self.pointers.lend(block)
    }

    /// Takes back the bytes of a handle or a pointer that is lent, as the holder of the loan left them.
    pub fn give_back(&mut self, block: u32, loan: Lent)
        requires { IsLoanOf self.old block loan }
        ensures zone { self.new ≡ with_heap (returned block loan.bytes self.old.heap) self.old }
        ensures loans { KeepsOtherLoans block self.old self.new }
    {
        self.pointers.give_back(block, loan);
    }

    /// Disposes of a live handle: its block, if it has one, is free and joined to its free neighbours, and its slot is
    /// the next to be given.
    pub fn release(&mut self, handle: Handle)
        requires live { IsTrue (is_handle self.old.heap.table handle) }
        requires here { IsFalse (is_lent self.old.heap.table handle) }
        ensures heap { self.new.heap ≡ heap_released (DisposesHandle handle) self.old.heap }
        ensures shape { self.new.shape ≡ self.old.shape }
        ensures loans { KeepsLoans self.old self.new }
    {
        self.empty(handle);
        self.pointers.release(handle);
    }

    /// Disposes of a live pointer: its block is free and joined to its free neighbours.
    pub fn release_pointer(&mut self, pointer: Ptr)
        requires live { IsTrue (is_pointer self.old.heap.table pointer) }
        requires here { IsFalse (is_lent self.old.heap.table pointer) }
        ensures heap { self.new.heap ≡ heap_released (DisposesPtr pointer) self.old.heap }
        ensures shape { self.new.shape ≡ self.old.shape }
        ensures loans { KeepsLoans self.old self.new }
    {
        let at = self.pointers.linked().address_of(pointer.number());
        self.pointers.unfix(pointer);
        join(&mut self.pointers, at);
    }

    /// Empties a live handle: its block is free and joined to its free neighbours, and its slot stays its own. A handle
    /// that is empty stays so.
    pub fn empty(&mut self, handle: Handle)
        requires live { IsTrue (is_handle self.old.heap.table handle) }
        requires here { IsFalse (is_lent self.old.heap.table handle) }
        ensures heap { self.new.heap ≡ heap_released (Empties handle) self.old.heap }
        ensures shape { self.new.shape ≡ self.old.shape }
        ensures loans { KeepsLoans self.old self.new }
    {
        empty(&mut self.pointers, handle);
    }

    /// Sets the flags of a handle that has a block. One that is lent stays locked.
    pub fn set_flags(&mut self, handle: Handle, flags: Flags)
        requires full { IsTrue (is_full self.old.heap.table handle) }
        requires fixed { IsTrue (flags.lock || not (is_lent self.old.heap.table handle)) }
        ensures heap { self.new.heap ≡ with_table (with_flags handle flags self.old.heap.table) self.old.heap }
        ensures shape { self.new.shape ≡ self.old.shape }
        ensures memory { self.new.memory ≡ self.old.memory }
        ensures loans { KeepsLoans self.old self.new }
    {
        self.pointers.set_flags(handle, flags);
    }

    /// Where the contents of the block of a handle begin.
    pub fn contents_address(&self, handle: Handle) -> u32
        requires { IsTrue (is_full self.now.heap.table handle) }
        ensures { result ≡ contents_of self.now.shape handle self.now.heap.map }
    {
        let linked = self.pointers.linked();
        let spec = linked.spec();
        let at = linked.block_of(handle);
        prove!(at < spec.base() + spec.limit());
        at + spec.heads().head_size()
    }

    /// How many bytes a handle has: none where it isn't live, or empty.
    pub fn length_if_any(&self, handle: Handle) -> u32
        ensures { result ≡ length (bytes_of self.now.heap.table handle) }
    {
        self.pointers.length_if_any(handle)
    }

    /// The bytes of a handle or a pointer that has a block, to be written.
    pub fn contents_mut(&mut self, block: u32) -> &mut [u8]
        requires full { status_of self.old.heap.table block ≡ Status.Full }
        ensures* writes_back { sem 𝓛 (WritesBackBytes self.entry block result) }
        ensures value { result.now ≡ bytes_of self.old.heap.table block }
    {
        self.pointers.contents_mut(block)
    }

    /// The address of the zone's first block header. What the zone shows is a sound heap, and its addresses have 32
    /// bits.
    pub fn first_block(&self) -> u32
        ensures address { result ≡ address_after self.now.shape [] }
        ensures sound { Sound self.now.shape self.now.heap }
        ensures reach { self.now.shape.base + self.now.shape.limit ≤ 0xFFFF_FFFF }
    {
        self.pointers.linked().spec().base() + ZONE_HEADER
    }
}

ghost use Rattle.std.specs.Prelude.{◌≡◌, ◌-◌, ◌≤◌, IsTrue, IsFalse, Some, if◌then◌else◌, nat_lt};
ghost use Rattle.mac_base.specs.HandleTable.{has_block, is_handle, is_lent};
ghost use Rattle.mac_base.specs.HeadKind.{need, smallest_block};
ghost use Rattle.mac_base.specs.Heap.{with_emptied};
ghost use Rattle.mac_base.specs.Request.{size_of};
ghost use Rattle.mac_base.specs.Serve.{free_in_front};
ghost use Rattle.mac_base.specs.Sound.{Sound};
ghost use Rattle.mac_base.specs.ZoneState.{with_heap};
ghost use Rattle.linked_zone.specs.Loans.{KeepsLoans};
ghost use Rattle.linked_zone.specs.Places.{EntryAt};
ghost use Rattle.zone_heap.specs.Attempts.{SoundZone};
ghost use Rattle.zone_heap.specs.Placed.{resized_there};
ghost use Rattle.zone_heap.specs.Joins.{CanTake, NewlyFree, with_front, all_joined};

/// Cuts a free block to its first `size` bytes, unless fewer bytes than a block has would be left.
pub(crate) fn cut(pointers: &mut IndexedZone, at: u32, size: u32)
    requires { CanTake pointers.old at size }
    ensures { (take : CanTake pointers.old at size) → pointers.new ≡ with_front pointers.old take }
{
    let linked = pointers.linked();
    let heads = linked.spec().heads();
    let whole = linked.entry_at(at).size;
    if whole - size >= heads.smallest_block() {
        pointers.split(at, size);
    }
}

/// Joins a free block to its free neighbours, where no two other free blocks are neighbours.
pub(crate) fn join(pointers: &mut IndexedZone, at: u32)
    requires { NewlyFree pointers.old at }
    ensures { pointers.new ≡ all_joined pointers.old }
{
    let linked = pointers.linked();
    if let Some(next) = linked.after(at) {
        if linked.entry_at(next).kind.is_free() {
            pointers.merge(at);
        }
    }
    let joined = pointers.linked();
    if let Some(last) = joined.before(at) {
        if joined.entry_at(last).kind.is_free() {
            pointers.merge(last);
        }
    }
}

/// Empties a live handle: its block, if it has one, is free and joined to its free neighbours, and its slot stays its
/// own.
pub(crate) fn empty(pointers: &mut IndexedZone, handle: Handle)
    requires sound { SoundZone pointers.old }
    requires live { IsTrue (is_handle pointers.old.heap.table handle) }
    requires here { IsFalse (is_lent pointers.old.heap.table handle) }
    ensures zone { pointers.new ≡ with_heap (with_emptied pointers.old.heap handle) pointers.old }
    ensures loans { KeepsLoans pointers.old pointers.new }
    ensures sound { SoundZone pointers.new }
{
    let linked = pointers.linked();
    if linked.is_full(handle) {
        let at = linked.block_of(handle);
        pointers.empty(handle);
        join(pointers, at);
    }
}

/// The size of the free block right after the one at an address, and 0 where none is there.
pub(crate) fn free_after(pointers: &LinkedZone, at: u32) -> u32
    requires sound { Sound pointers.now.shape pointers.now.heap }
    requires there { EntryAt pointers.now at }
    ensures { (e : EntryAt pointers.now at) → result ≡ free_in_front e.after }
{
    if let Some(next) = pointers.after(at) {
        let entry = pointers.entry_at(next);
        if entry.kind.is_free() {
            return entry.size;
        }
    }
    0
}

/// How many of `whole` bytes a block takes that needs `needed` of them: so many, unless fewer bytes than a block has
/// would be left.
pub(crate) fn front(pointers: &LinkedZone, whole: u32, needed: u32) -> u32
    requires { needed ≤ whole }
    ensures { result ≡ (if nat_lt (whole - needed) (smallest_block pointers.now.shape.heads) then whole else needed) }
{
    if whole - needed < pointers.spec().heads().smallest_block() {
        whole
    } else {
        needed
    }
}

/// Gives the owner of a block `length` bytes, which need `needed` bytes of the block. What is over is free where it
/// makes a block, and joined to the free block after it.
pub(crate) fn shrink(pointers: &mut IndexedZone, block: u32, needed: u32, length: u32)
    requires sound { Sound pointers.old.shape pointers.old.heap }
    requires block { IsTrue (has_block pointers.old.heap.table block) }
    requires here { IsFalse (is_lent pointers.old.heap.table block) }
    requires needed { needed ≡ need pointers.old.shape.heads length }
    requires fits { needed ≤ size_of block pointers.old.heap.map }
    ensures heap { resized_there pointers.old.shape block length pointers.old.heap ≡ Some pointers.new.heap }
    ensures shape { pointers.new.shape ≡ pointers.old.shape }
    ensures memory { pointers.new.memory ≡ pointers.old.memory }
{
    let linked = pointers.linked();
    let spec = linked.spec();
    prove!(spec.base() + spec.limit() <= u32::MAX);
    let at = linked.address_of(block);
    let whole = linked.entry_at(at).size;
    let taken = front(linked, whole, needed);
    pointers.hold(block, taken, length);
    if taken < whole {
        join(pointers, at + taken);
    }
}
