//! The calls that bring bytes from outside the zone into a block: as PtrToHand, PtrToXHand and PtrAndHand do from a
//! pointer.

ghost use Rattle.std.specs.Prelude.{◌≡◌, ℕ, ◌+◌, ◌≤◌, [], ◌∷◌, ◌++◌, length, take, OnOk, Result};
ghost use Rattle.mac_base.specs.BlockStatus.{status_of};
ghost use Rattle.mac_base.specs.HandleTable.{bytes_of, with_bytes};
ghost use Rattle.mac_base.specs.Heap.{with_table};
ghost use Rattle.mac_base.specs.Sound.{Sound};
ghost use Rattle.mac_base.specs.ZoneState.{with_heap};
ghost use Rattle.mac_base.specs.declared.block.Status.{Status};
ghost use Rattle.mac_base.specs.declared.request.Request.TheVariants.{NewBlock, Resize};
ghost use Rattle.mem_calls.specs.Requesting.{IsCopyRun, done};
ghost use Rattle.mem_calls.specs.Testing.{Tests, TestsSize};
ghost use Rattle.linked_zone.specs.Loans.{KeepsLoans};
ghost use Rattle.mac_base.specs.declared.memory_call.MemoryCall.TheVariants.{Filling};
ghost use Rattle.mac_base.specs.declared.memory_call.FillingCall.TheVariants.{NewHandleOf, SetHandleTo, Append};
ghost use Rattle.mac_base.specs.MemoryStep.{MemoryStep};
ghost use Rattle.mac_base.specs.ExactStep.{IsExactStep};
ghost use Rattle.mac_base.specs.Outcomes.{handle_outcome, done_outcome};
ghost use Rattle.mac_base.specs.Tests.{IsHandle, NotEmpty, NotLent, IsSize};

use crate::manager::MemoryManager;
use crate::operands::{MOST_LOANS, test_full_here};
use crate::request::request;
use mac_base::GrowZone;
use mac_base::error::OsErr;
use mac_base::handle::Handle;
use mac_base::request::Request;
use mac_base::size::MAX_SIZE;
use zone_heap::Zone;

/// Tests how many bytes a call brings: paramErr where they are over 8,388,608.
pub(crate) fn test_count(bytes: &[u8]) -> Result<(), OsErr>
    ensures size { TestsSize (length bytes.now) result }
    ensures few { OnOk result (length bytes.now ≤ 0x80_0000) }
{
    if bytes.len() > MAX_SIZE as usize {
        return Err(OsErr::ParamErr);
    }
    Ok(())
}

/// Tests the operands of a call that brings bytes for a handle's block: nilHandleErr where the handle is 0 or empty,
/// memWZErr where it isn't live, memLockedErr where it is lent, paramErr where the bytes are over 8,388,608.
pub(crate) fn test_handle_for(zone: &Zone, handle: Handle, bytes: &[u8]) -> Result<(), OsErr>
    ensures tests { Tests zone.now (IsHandle handle ∷ NotEmpty handle ∷ NotLent handle ∷ IsSize (length bytes.now) ∷ []) result }
    ensures few { OnOk result (length bytes.now ≤ 0x80_0000) }
{
    test_full_here(zone, handle)?;
    test_count(bytes)
}

/// Writes bytes over all that a block has after the first `offset`.
fn write_after(zone: &mut Zone, block: u32, offset: u32, bytes: &[u8])
    requires full { status_of zone.old.heap.table block ≡ Status.Full }
    requires long { length (bytes_of zone.old.heap.table block) ≡ offset + length bytes.now }
    ensures zone { zone.new ≡ with_heap (with_table (with_bytes block (take offset (bytes_of zone.old.heap.table block) ++ bytes.now) zone.old.heap.table) zone.old.heap) zone.old }
    ensures loans { KeepsLoans zone.old zone.new }
{
    let start = offset as usize;
    let contents = zone.contents_mut(block);
    contents[start..start + bytes.len()].copy_from_slice(bytes);
}

/// Makes a new handle whose block has these bytes.
fn bring_new<G: GrowZone>(zone: &mut Zone, bytes: &[u8], procedure: &mut G) -> Result<Handle, OsErr>
    requires few { length bytes.now ≤ 0x80_0000 }
    requires unasked { G.asks procedure.old ≡ [] }
    ensures run { IsCopyRun zone.old.shape [] (NewBlock (length bytes.now)) bytes.now (G.asks procedure.new) zone.old.heap result zone.new.heap }
    ensures source { G.source procedure.new ≡ G.source procedure.old }
    ensures sound { Sound zone.old.shape zone.old.heap }
    ensures shape { zone.new.shape ≡ zone.old.shape }
    ensures loans { KeepsLoans zone.old zone.new }
{
    // The count of loans says that each is a pointer's or a locked handle's.
    prove!(zone.lent_count() as usize <= MOST_LOANS);
    // The address of the first block says that the heap is sound.
    prove!(zone.first_block() > 0);
    let count = bytes.len() as u32;
    let new = request(zone, &Request::NewBlock(count), &[], procedure)?;
    write_after(zone, new, 0, bytes);
    Ok(Handle::new(new))
}

/// Gives a block these bytes after the first `offset` of its own, and no more. It isn't purged for it.
fn bring_after<G: GrowZone>(
    zone: &mut Zone,
    to: u32,
    offset: u32,
    bytes: &[u8],
    procedure: &mut G,
) -> Result<(), OsErr>
    requires limit { zone.old.shape.limit ≤ 0x4000_0000 }
    requires few { length bytes.now ≤ 0x80_0000 }
    requires target { status_of zone.old.heap.table to ≡ Status.Full }
    requires after { offset ≤ length (bytes_of zone.old.heap.table to) }
    requires unasked { G.asks procedure.old ≡ [] }
    ensures run { (given : Result ℕ OsErr) × (result ≡ done given) × IsCopyRun zone.old.shape (to ∷ []) (Resize to (offset + length bytes.now)) (take offset (bytes_of zone.old.heap.table to) ++ bytes.now) (G.asks procedure.new) zone.old.heap given zone.new.heap }
    ensures source { G.source procedure.new ≡ G.source procedure.old }
    ensures sound { Sound zone.old.shape zone.old.heap }
    ensures shape { zone.new.shape ≡ zone.old.shape }
    ensures loans { KeepsLoans zone.old zone.new }
{
    // The count of loans says that each is a pointer's or a locked handle's.
    prove!(zone.lent_count() as usize <= MOST_LOANS);
    // The address of the first block says that the heap is sound.
    prove!(zone.first_block() > 0);
    let count = bytes.len() as u32;
    let resize = Request::Resize(to, offset + count);
    request(zone, &resize, &[to], procedure)?;
    write_after(zone, to, offset, bytes);
    Ok(())
}

impl MemoryManager {
    /// PtrToHand of bytes from outside the zone: a new handle, without flags, whose block has them. It is placed, and
    /// the zone grows, purges and asks, as for NewHandle. paramErr where they are over 8,388,608; memFullErr where
    /// there is no room or no master pointer (Inside Macintosh: Memory, Manipulating Blocks of Memory).
    pub fn new_handle_of<G: GrowZone>(
        &mut self,
        bytes: &[u8],
        procedure: &mut G,
    ) -> Result<Handle, OsErr>
        requires { G.asks procedure.old ≡ [] }
        ensures exact { IsExactStep self.old.shape self.old.heap (Filling (NewHandleOf bytes.now)) (G.asks procedure.new) (handle_outcome result) self.new.heap }
        ensures step { MemoryStep self.old.shape self.old.heap (Filling (NewHandleOf bytes.now)) (G.asks procedure.new) (handle_outcome result) self.new.heap }
        ensures source { G.source procedure.new ≡ G.source procedure.old }
        ensures shape { self.new.shape ≡ self.old.shape }
        ensures loans { KeepsLoans self.old self.new }
    {
        test_count(bytes)?;
        bring_new(&mut self.zone, bytes, procedure)
    }

    /// PtrToXHand of bytes from outside the zone: gives the handle these in place of its own. Its block grows or
    /// shrinks as under SetHandleSize, and keeps its flags; it isn't purged. nilHandleErr where the handle is 0 or
    /// empty, memWZErr where it isn't live, memLockedErr where it is lent, paramErr where the bytes are over 8,388,608;
    /// memFullErr where there is no room (Inside Macintosh: Memory, Manipulating Blocks of Memory).
    pub fn set_handle_to<G: GrowZone>(
        &mut self,
        handle: Handle,
        bytes: &[u8],
        procedure: &mut G,
    ) -> Result<(), OsErr>
        requires { G.asks procedure.old ≡ [] }
        ensures exact { IsExactStep self.old.shape self.old.heap (Filling (SetHandleTo handle bytes.now)) (G.asks procedure.new) (done_outcome result) self.new.heap }
        ensures step { MemoryStep self.old.shape self.old.heap (Filling (SetHandleTo handle bytes.now)) (G.asks procedure.new) (done_outcome result) self.new.heap }
        ensures source { G.source procedure.new ≡ G.source procedure.old }
        ensures shape { self.new.shape ≡ self.old.shape }
        ensures loans { KeepsLoans self.old self.new }
    {
        test_handle_for(&self.zone, handle, bytes)?;
        let block = handle.number();
        bring_after(&mut self.zone, block, 0, bytes, procedure)
    }

    /// PtrAndHand of bytes from outside the zone: appends these to those of the handle's block. The codes are those of
    /// `set_handle_to`; memFullErr where there is no room, too (Inside Macintosh: Memory, Manipulating Blocks of
    /// Memory).
    pub fn append<G: GrowZone>(
        &mut self,
        handle: Handle,
        bytes: &[u8],
        procedure: &mut G,
    ) -> Result<(), OsErr>
        requires { G.asks procedure.old ≡ [] }
        ensures exact { IsExactStep self.old.shape self.old.heap (Filling (Append handle bytes.now)) (G.asks procedure.new) (done_outcome result) self.new.heap }
        ensures step { MemoryStep self.old.shape self.old.heap (Filling (Append handle bytes.now)) (G.asks procedure.new) (done_outcome result) self.new.heap }
        ensures source { G.source procedure.new ≡ G.source procedure.old }
        ensures shape { self.new.shape ≡ self.old.shape }
        ensures loans { KeepsLoans self.old self.new }
    {
        test_handle_for(&self.zone, handle, bytes)?;
        let block = handle.number();
        let length = self.zone.linked().length(block);
        bring_after(&mut self.zone, block, length, bytes, procedure)
    }
}
