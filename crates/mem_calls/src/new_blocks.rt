//! The calls that give and release blocks.

ghost use Rattle.std.specs.Prelude.{◌≡◌, []};
ghost use Rattle.linked_zone.specs.Loans.{KeepsLoans};
ghost use Rattle.mac_base.specs.declared.memory_call.MemoryCall.TheVariants.{OnBlock, Requesting};
ghost use Rattle.mac_base.specs.declared.memory_call.RequestingCall.TheVariants.{NewHandle, NewEmptyHandle, NewPtr};
ghost use Rattle.mac_base.specs.declared.memory_call.BlockCall.TheVariants.{DisposeHandle, DisposePtr, EmptyHandle};
ghost use Rattle.mac_base.specs.MemoryStep.{MemoryStep};
ghost use Rattle.mac_base.specs.ExactStep.{IsExactStep};
ghost use Rattle.mac_base.specs.Outcomes.{handle_outcome, pointer_outcome, done_outcome};

use crate::manager::MemoryManager;
use crate::operands::test_size;
use crate::releasing::release;
use crate::request::request;
use mac_base::GrowZone;
use mac_base::error::OsErr;
use mac_base::handle::{Handle, Ptr};
use mac_base::releasing::ReleasingCall;
use mac_base::request::Request;

impl MemoryManager {
    /// NewHandle: a new relocatable block of `size` zero bytes without flags. It takes the lowest free block that has
    /// room, or the room of the lowest gap whose blocks have moved down. Where none has room, the zone grows to its
    /// limit, as few handles are purged as serve, and then the grow-zone procedure is asked, 16 times at most. Where no
    /// slot is free, a new master block comes first. paramErr where `size` is over 8,388,608; memFullErr where there is
    /// no room (Inside Macintosh: Memory, Allocating and Releasing Relocatable Blocks of Memory, and How Heap Space Is
    /// Allocated).
    pub fn new_handle<G: GrowZone>(&mut self, size: u32, procedure: &mut G) -> Result<Handle, OsErr>
        requires { G.asks procedure.old ≡ [] }
        ensures exact { IsExactStep self.old.shape self.old.heap (Requesting (NewHandle size)) (G.asks procedure.new) (handle_outcome result) self.new.heap }
        ensures step { MemoryStep self.old.shape self.old.heap (Requesting (NewHandle size)) (G.asks procedure.new) (handle_outcome result) self.new.heap }
        ensures source { G.source procedure.new ≡ G.source procedure.old }
        ensures shape { self.new.shape ≡ self.old.shape }
        ensures loans { KeepsLoans self.old self.new }
    {
        test_size(size)?;
        request(&mut self.zone, &Request::NewBlock(size), &[], procedure).map(Handle::new)
    }

    /// NewEmptyHandle: a new handle without a block. Where no slot is free, a new master block comes first, for which
    /// the zone may move, grow and purge, and ask the grow-zone procedure, as for NewHandle. memFullErr where there is
    /// no room for it (Inside Macintosh: Memory, Allocating and Releasing Relocatable Blocks of Memory).
    pub fn new_empty_handle<G: GrowZone>(&mut self, procedure: &mut G) -> Result<Handle, OsErr>
        requires { G.asks procedure.old ≡ [] }
        ensures exact { IsExactStep self.old.shape self.old.heap (Requesting NewEmptyHandle) (G.asks procedure.new) (handle_outcome result) self.new.heap }
        ensures step { MemoryStep self.old.shape self.old.heap (Requesting NewEmptyHandle) (G.asks procedure.new) (handle_outcome result) self.new.heap }
        ensures source { G.source procedure.new ≡ G.source procedure.old }
        ensures shape { self.new.shape ≡ self.old.shape }
        ensures loans { KeepsLoans self.old self.new }
    {
        request(&mut self.zone, &Request::NewEmpty, &[], procedure).map(Handle::new)
    }

    /// NewPtr: a new nonrelocatable block of `size` zero bytes, at the start of the lowest gap with room: the
    /// relocatable blocks there move up. Where none has room, the zone grows and purges, and asks the grow-zone
    /// procedure, as for NewHandle. paramErr where `size` is over 8,388,608; memFullErr where there is no room (Inside
    /// Macintosh: Memory, Allocating and Releasing Nonrelocatable Blocks of Memory, and How Heap Space Is Allocated).
    pub fn new_ptr<G: GrowZone>(&mut self, size: u32, procedure: &mut G) -> Result<Ptr, OsErr>
        requires { G.asks procedure.old ≡ [] }
        ensures exact { IsExactStep self.old.shape self.old.heap (Requesting (NewPtr size)) (G.asks procedure.new) (pointer_outcome result) self.new.heap }
        ensures step { MemoryStep self.old.shape self.old.heap (Requesting (NewPtr size)) (G.asks procedure.new) (pointer_outcome result) self.new.heap }
        ensures source { G.source procedure.new ≡ G.source procedure.old }
        ensures shape { self.new.shape ≡ self.old.shape }
        ensures loans { KeepsLoans self.old self.new }
    {
        test_size(size)?;
        request(&mut self.zone, &Request::NewPointer(size), &[], procedure).map(Ptr::new)
    }

    /// DisposeHandle: the handle's block, if it has one, is free, and its slot is the next to be given. nilHandleErr
    /// where the handle is 0, memWZErr where it isn't live, memLockedErr where it is lent (Inside Macintosh: Memory,
    /// Allocating and Releasing Relocatable Blocks of Memory).
    pub fn dispose_handle(&mut self, handle: Handle) -> Result<(), OsErr>
        ensures exact { IsExactStep self.old.shape self.old.heap (OnBlock (DisposeHandle handle)) [] (done_outcome result) self.new.heap }
        ensures step { MemoryStep self.old.shape self.old.heap (OnBlock (DisposeHandle handle)) [] (done_outcome result) self.new.heap }
        ensures shape { self.new.shape ≡ self.old.shape }
        ensures loans { KeepsLoans self.old self.new }
    {
        release(&mut self.zone, ReleasingCall::DisposesHandle(handle))
    }

    /// DisposePtr: the pointer's block is free. memWZErr where the pointer isn't live, memLockedErr where it is lent
    /// (Inside Macintosh: Memory, Allocating and Releasing Nonrelocatable Blocks of Memory).
    pub fn dispose_ptr(&mut self, pointer: Ptr) -> Result<(), OsErr>
        ensures exact { IsExactStep self.old.shape self.old.heap (OnBlock (DisposePtr pointer)) [] (done_outcome result) self.new.heap }
        ensures step { MemoryStep self.old.shape self.old.heap (OnBlock (DisposePtr pointer)) [] (done_outcome result) self.new.heap }
        ensures shape { self.new.shape ≡ self.old.shape }
        ensures loans { KeepsLoans self.old self.new }
    {
        release(&mut self.zone, ReleasingCall::DisposesPtr(pointer))
    }

    /// EmptyHandle: the handle's block is free, and the handle stays live; an empty handle stays as it is. nilHandleErr
    /// where the handle is 0, memWZErr where it isn't live, memLockedErr where it is lent, memPurErr where it is locked
    /// (Inside Macintosh: Memory, Managing Relocatable Blocks).
    pub fn empty_handle(&mut self, handle: Handle) -> Result<(), OsErr>
        ensures exact { IsExactStep self.old.shape self.old.heap (OnBlock (EmptyHandle handle)) [] (done_outcome result) self.new.heap }
        ensures step { MemoryStep self.old.shape self.old.heap (OnBlock (EmptyHandle handle)) [] (done_outcome result) self.new.heap }
        ensures shape { self.new.shape ≡ self.old.shape }
        ensures loans { KeepsLoans self.old self.new }
    {
        release(&mut self.zone, ReleasingCall::Empties(handle))
    }
}
