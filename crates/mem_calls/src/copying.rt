//! The calls that copy bytes from one block to another.

ghost use Rattle.std.specs.Prelude.{◌≡◌, ℕ, ◌+◌, ◌≤◌, [], ◌∷◌, ◌++◌, length, take, Result};
ghost use Rattle.mac_base.specs.BlockStatus.{status_of};
ghost use Rattle.mac_base.specs.HandleTable.{bytes_of};
ghost use Rattle.mac_base.specs.Sound.{Sound};
ghost use Rattle.mac_base.specs.declared.block.Status.{Status};
ghost use Rattle.mac_base.specs.declared.request.Request.TheVariants.{NewBlock, Resize};
ghost use Rattle.mem_calls.specs.Requesting.{IsCopyRun, done};
ghost use Rattle.linked_zone.specs.Loans.{KeepsLoans};
ghost use Rattle.mac_base.specs.declared.memory_call.MemoryCall.TheVariants.{Filling, OnBlock};
ghost use Rattle.mac_base.specs.declared.memory_call.FillingCall.TheVariants.{HandToHand, PtrToHand, PtrToXHand, PtrAndHand, HandAndHand};
ghost use Rattle.mac_base.specs.declared.memory_call.BlockCall.TheVariants.{BlockMove};
ghost use Rattle.mac_base.specs.MemoryStep.{MemoryStep};
ghost use Rattle.mac_base.specs.ExactStep.{IsExactStep};
ghost use Rattle.mac_base.specs.Outcomes.{handle_outcome, done_outcome};

use crate::manager::MemoryManager;
use crate::operands::{
    MOST_LOANS, test_full_here, test_pointer_for, test_pointer_here, test_within,
};
use crate::request::request;
use mac_base::GrowZone;
use mac_base::error::OsErr;
use mac_base::handle::{Handle, Ptr};
use mac_base::request::Request;
use zone_heap::Zone;

/// Makes a new handle whose block has the first `count` bytes of another block, which isn't purged for it.
fn copy_to_new<G: GrowZone>(
    zone: &mut Zone,
    from: u32,
    count: u32,
    procedure: &mut G,
) -> Result<Handle, OsErr>
    requires limit { zone.old.shape.limit ≤ 0x4000_0000 }
    requires full { status_of zone.old.heap.table from ≡ Status.Full }
    requires within { count ≤ length (bytes_of zone.old.heap.table from) }
    requires unasked { G.asks procedure.old ≡ [] }
    ensures run { IsCopyRun zone.old.shape (from ∷ []) (NewBlock count) (take count (bytes_of zone.old.heap.table from)) (G.asks procedure.new) zone.old.heap result zone.new.heap }
    ensures source { G.source procedure.new ≡ G.source procedure.old }
    ensures sound { Sound zone.old.shape zone.old.heap }
    ensures shape { zone.new.shape ≡ zone.old.shape }
    ensures loans { KeepsLoans zone.old zone.new }
{
    // The count of loans says that each is a pointer's or a locked handle's.
    prove!(zone.lent_count() as usize <= MOST_LOANS);
    // The address of the first block says that the heap is sound.
    prove!(zone.first_block() > 0);
    let new = request(zone, &Request::NewBlock(count), &[from], procedure)?;
    zone.copy(from, 0, new, 0, count);
    Ok(Handle::new(new))
}

/// Gives a block the first `count` bytes of another after `offset` of its own, and no more. It may be the other;
/// neither is purged for it.
fn copy_after<G: GrowZone>(
    zone: &mut Zone,
    from: u32,
    count: u32,
    to: u32,
    offset: u32,
    procedure: &mut G,
) -> Result<(), OsErr>
    requires limit { zone.old.shape.limit ≤ 0x4000_0000 }
    requires full { status_of zone.old.heap.table from ≡ Status.Full }
    requires within { count ≤ length (bytes_of zone.old.heap.table from) }
    requires target { status_of zone.old.heap.table to ≡ Status.Full }
    requires after { offset ≤ length (bytes_of zone.old.heap.table to) }
    requires unasked { G.asks procedure.old ≡ [] }
    ensures run { (given : Result ℕ OsErr) × (result ≡ done given) × IsCopyRun zone.old.shape (from ∷ to ∷ []) (Resize to (offset + count)) (take offset (bytes_of zone.old.heap.table to) ++ take count (bytes_of zone.old.heap.table from)) (G.asks procedure.new) zone.old.heap given zone.new.heap }
    ensures source { G.source procedure.new ≡ G.source procedure.old }
    ensures sound { Sound zone.old.shape zone.old.heap }
    ensures shape { zone.new.shape ≡ zone.old.shape }
    ensures loans { KeepsLoans zone.old zone.new }
{
    // The count of loans says that each is a pointer's or a locked handle's.
    prove!(zone.lent_count() as usize <= MOST_LOANS);
    // The address of the first block says that the heap is sound.
    prove!(zone.first_block() > 0);
    let resize = Request::Resize(to, offset + count);
    request(zone, &resize, &[from, to], procedure)?;
    zone.copy(from, 0, to, offset, count);
    Ok(())
}

impl MemoryManager {
    /// HandToHand: a new handle, without flags, whose block has the bytes of this one's. It is placed, and the zone
    /// grows, purges (but not this handle) and asks, as for NewHandle. nilHandleErr where the handle is 0 or empty,
    /// memWZErr where it isn't live, memLockedErr where it is lent; memFullErr where there is no room or no master
    /// pointer (Inside Macintosh: Memory, Manipulating Blocks of Memory).
    pub fn hand_to_hand<G: GrowZone>(
        &mut self,
        handle: Handle,
        procedure: &mut G,
    ) -> Result<Handle, OsErr>
        requires { G.asks procedure.old ≡ [] }
        ensures exact { IsExactStep self.old.shape self.old.heap (Filling (HandToHand handle)) (G.asks procedure.new) (handle_outcome result) self.new.heap }
        ensures step { MemoryStep self.old.shape self.old.heap (Filling (HandToHand handle)) (G.asks procedure.new) (handle_outcome result) self.new.heap }
        ensures source { G.source procedure.new ≡ G.source procedure.old }
        ensures shape { self.new.shape ≡ self.old.shape }
        ensures loans { KeepsLoans self.old self.new }
    {
        test_full_here(&self.zone, handle)?;
        let block = handle.number();
        let count = self.zone.linked().length(block);
        copy_to_new(&mut self.zone, block, count, procedure)
    }

    /// PtrToHand: a new handle whose block has the first `count` bytes of the pointer's. It is placed, and the zone
    /// grows, purges and asks, as for NewHandle. memWZErr where the pointer isn't live, memLockedErr where it is lent,
    /// paramErr where it has fewer bytes; memFullErr where there is no room or no master pointer (Inside Macintosh:
    /// Memory, Manipulating Blocks of Memory).
    pub fn ptr_to_hand<G: GrowZone>(
        &mut self,
        pointer: Ptr,
        count: u32,
        procedure: &mut G,
    ) -> Result<Handle, OsErr>
        requires { G.asks procedure.old ≡ [] }
        ensures exact { IsExactStep self.old.shape self.old.heap (Filling (PtrToHand pointer count)) (G.asks procedure.new) (handle_outcome result) self.new.heap }
        ensures step { MemoryStep self.old.shape self.old.heap (Filling (PtrToHand pointer count)) (G.asks procedure.new) (handle_outcome result) self.new.heap }
        ensures source { G.source procedure.new ≡ G.source procedure.old }
        ensures shape { self.new.shape ≡ self.old.shape }
        ensures loans { KeepsLoans self.old self.new }
    {
        test_pointer_here(&self.zone, pointer)?;
        let block = pointer.number();
        test_within(&self.zone, block, 0, count)?;
        copy_to_new(&mut self.zone, block, count, procedure)
    }

    /// PtrToXHand: gives the handle the first `count` bytes of the pointer's block in place of its own. Its block grows
    /// or shrinks as under SetHandleSize, and keeps its flags; neither operand is purged. memWZErr where the pointer or
    /// the handle isn't live, memLockedErr where one of them is lent, nilHandleErr where the handle is 0 or empty,
    /// paramErr where the pointer has fewer bytes; memFullErr where there is no room (Inside Macintosh: Memory,
    /// Manipulating Blocks of Memory).
    pub fn ptr_to_xhand<G: GrowZone>(
        &mut self,
        pointer: Ptr,
        handle: Handle,
        count: u32,
        procedure: &mut G,
    ) -> Result<(), OsErr>
        requires { G.asks procedure.old ≡ [] }
        ensures exact { IsExactStep self.old.shape self.old.heap (Filling (PtrToXHand pointer handle count)) (G.asks procedure.new) (done_outcome result) self.new.heap }
        ensures step { MemoryStep self.old.shape self.old.heap (Filling (PtrToXHand pointer handle count)) (G.asks procedure.new) (done_outcome result) self.new.heap }
        ensures source { G.source procedure.new ≡ G.source procedure.old }
        ensures shape { self.new.shape ≡ self.old.shape }
        ensures loans { KeepsLoans self.old self.new }
    {
        test_pointer_for(&self.zone, pointer, handle, count)?;
        let from = pointer.number();
        let to = handle.number();
        copy_after(&mut self.zone, from, count, to, 0, procedure)
    }

    /// PtrAndHand: appends the first `count` bytes of the pointer's block to those of the handle's. The codes are those
    /// of PtrToXHand; memFullErr where the result is too long, too (Inside Macintosh: Memory, Manipulating Blocks of
    /// Memory).
    pub fn ptr_and_hand<G: GrowZone>(
        &mut self,
        pointer: Ptr,
        handle: Handle,
        count: u32,
        procedure: &mut G,
    ) -> Result<(), OsErr>
        requires { G.asks procedure.old ≡ [] }
        ensures exact { IsExactStep self.old.shape self.old.heap (Filling (PtrAndHand pointer handle count)) (G.asks procedure.new) (done_outcome result) self.new.heap }
        ensures step { MemoryStep self.old.shape self.old.heap (Filling (PtrAndHand pointer handle count)) (G.asks procedure.new) (done_outcome result) self.new.heap }
        ensures source { G.source procedure.new ≡ G.source procedure.old }
        ensures shape { self.new.shape ≡ self.old.shape }
        ensures loans { KeepsLoans self.old self.new }
    {
        test_pointer_for(&self.zone, pointer, handle, count)?;
        let from = pointer.number();
        let to = handle.number();
        let length = self.zone.linked().length(to);
        copy_after(&mut self.zone, from, count, to, length, procedure)
    }

    /// HandAndHand: appends the bytes of the first handle's block to those of the second's. It may be one handle: then
    /// its bytes are there twice. Neither is purged. For each of them in turn nilHandleErr where it is 0 or empty,
    /// memWZErr where it isn't live, memLockedErr where it is lent; memFullErr where there is no room, or the result is
    /// too long (Inside Macintosh: Memory, Manipulating Blocks of Memory).
    pub fn hand_and_hand<G: GrowZone>(
        &mut self,
        one: Handle,
        other: Handle,
        procedure: &mut G,
    ) -> Result<(), OsErr>
        requires { G.asks procedure.old ≡ [] }
        ensures exact { IsExactStep self.old.shape self.old.heap (Filling (HandAndHand one other)) (G.asks procedure.new) (done_outcome result) self.new.heap }
        ensures step { MemoryStep self.old.shape self.old.heap (Filling (HandAndHand one other)) (G.asks procedure.new) (done_outcome result) self.new.heap }
        ensures source { G.source procedure.new ≡ G.source procedure.old }
        ensures shape { self.new.shape ≡ self.old.shape }
        ensures loans { KeepsLoans self.old self.new }
    {
        test_full_here(&self.zone, one)?;
        test_full_here(&self.zone, other)?;
        let from = one.number();
        let to = other.number();
        let count = self.zone.linked().length(from);
        let length = self.zone.linked().length(to);
        copy_after(&mut self.zone, from, count, to, length, procedure)
    }

    /// BlockMove: `count` bytes of a block, from `start` on, over those from `offset` on of another. It may be the
    /// same, whose bytes move as if they were copied aside first. For each of the blocks in turn nilHandleErr where it
    /// is 0 or an empty handle, memWZErr where it is no live handle or pointer, memLockedErr where it is lent; then
    /// paramErr where one of them has fewer bytes (Inside Macintosh: Memory, Manipulating Blocks of Memory).
    pub fn block_move(
        &mut self,
        from: u32,
        start: u32,
        to: u32,
        offset: u32,
        count: u32,
    ) -> Result<(), OsErr>
        ensures exact { IsExactStep self.old.shape self.old.heap (OnBlock (BlockMove from start to offset count)) [] (done_outcome result) self.new.heap }
        ensures step { MemoryStep self.old.shape self.old.heap (OnBlock (BlockMove from start to offset count)) [] (done_outcome result) self.new.heap }
        ensures shape { self.new.shape ≡ self.old.shape }
        ensures loans { KeepsLoans self.old self.new }
    {
        // The address of the first block says that the heap is sound.
        prove!(self.zone.first_block() > 0);
        self.test_block_here(from)?;
        self.test_block_here(to)?;
        test_within(&self.zone, from, start, count)?;
        test_within(&self.zone, to, offset, count)?;
        self.zone.copy(from, start, to, offset, count);
        Ok(())
    }
}
