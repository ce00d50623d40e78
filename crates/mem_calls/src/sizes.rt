//! The calls that give blocks their sizes.

ghost use Rattle.std.specs.Prelude.{◌≡◌, []};
ghost use Rattle.linked_zone.specs.Loans.{KeepsLoans};
ghost use Rattle.mac_base.specs.declared.memory_call.MemoryCall.TheVariants.{OnBlock, Requesting};
ghost use Rattle.mac_base.specs.declared.memory_call.RequestingCall.TheVariants.{SetHandleSize, SetPtrSize, ReallocateHandle};
ghost use Rattle.mac_base.specs.declared.memory_call.BlockCall.TheVariants.{GetHandleSize, GetPtrSize};
ghost use Rattle.mac_base.specs.MemoryStep.{MemoryStep};
ghost use Rattle.mac_base.specs.ExactStep.{IsExactStep};
ghost use Rattle.mac_base.specs.Outcomes.{number_outcome, done_outcome};

use crate::manager::MemoryManager;
use crate::operands::{
    test_full, test_handle_here, test_new_size, test_pointer, test_size, test_unlocked,
};
use crate::request::request;
use mac_base::GrowZone;
use mac_base::error::OsErr;
use mac_base::handle::{Handle, Ptr};
use mac_base::request::Request;

impl MemoryManager {
    /// SetHandleSize: gives the handle's block `size` bytes; bytes that are added are zero. It stays where it is where
    /// it can; else the blocks of its gap make way, or it gets a new place, unless it is locked. Where there is no
    /// room, the zone grows and purges, but not this handle, and asks the grow-zone procedure, as for NewHandle.
    /// nilHandleErr where the handle is 0 or empty, memWZErr where it isn't live, memLockedErr where it is lent,
    /// paramErr where `size` is over 8,388,608, memFullErr where there is no room (Inside Macintosh: Memory, Changing
    /// the Sizes of Relocatable and Nonrelocatable Blocks).
    pub fn set_handle_size<G: GrowZone>(
        &mut self,
        handle: Handle,
        size: u32,
        procedure: &mut G,
    ) -> Result<(), OsErr>
        requires { G.asks procedure.old ≡ [] }
        ensures exact { IsExactStep self.old.shape self.old.heap (Requesting (SetHandleSize handle size)) (G.asks procedure.new) (done_outcome result) self.new.heap }
        ensures step { MemoryStep self.old.shape self.old.heap (Requesting (SetHandleSize handle size)) (G.asks procedure.new) (done_outcome result) self.new.heap }
        ensures source { G.source procedure.new ≡ G.source procedure.old }
        ensures shape { self.new.shape ≡ self.old.shape }
        ensures loans { KeepsLoans self.old self.new }
    {
        test_full(&self.zone, handle)?;
        let block = handle.number();
        test_new_size(&self.zone, block, size)?;
        request(
            &mut self.zone,
            &Request::Resize(block, size),
            &[block],
            procedure,
        )
        .map(|_| ())
    }

    /// GetHandleSize: the bytes of the handle's block. nilHandleErr where the handle is 0 or empty, memWZErr where it
    /// isn't live (Inside Macintosh: Memory, Changing the Sizes of Relocatable and Nonrelocatable Blocks).
    pub fn get_handle_size(&self, handle: Handle) -> Result<u32, OsErr>
        ensures exact { IsExactStep self.now.shape self.now.heap (OnBlock (GetHandleSize handle)) [] (number_outcome result) self.now.heap }
        ensures step { MemoryStep self.now.shape self.now.heap (OnBlock (GetHandleSize handle)) [] (number_outcome result) self.now.heap }
    {
        test_full(&self.zone, handle)?;
        Ok(self.zone.linked().length(handle.number()))
    }

    /// SetPtrSize: gives the pointer's block `size` bytes where it is; bytes that are added are zero. The relocatable
    /// blocks of the gap right after it make way; where there is no room, the zone grows and purges there, and asks
    /// the grow-zone procedure, as for NewHandle. memWZErr where the pointer isn't live, memLockedErr where it is lent,
    /// paramErr where `size` is over 8,388,608, memFullErr where there is no room (Inside Macintosh: Memory, Changing
    /// the Sizes of Relocatable and Nonrelocatable Blocks).
    pub fn set_ptr_size<G: GrowZone>(
        &mut self,
        pointer: Ptr,
        size: u32,
        procedure: &mut G,
    ) -> Result<(), OsErr>
        requires { G.asks procedure.old ≡ [] }
        ensures exact { IsExactStep self.old.shape self.old.heap (Requesting (SetPtrSize pointer size)) (G.asks procedure.new) (done_outcome result) self.new.heap }
        ensures step { MemoryStep self.old.shape self.old.heap (Requesting (SetPtrSize pointer size)) (G.asks procedure.new) (done_outcome result) self.new.heap }
        ensures source { G.source procedure.new ≡ G.source procedure.old }
        ensures shape { self.new.shape ≡ self.old.shape }
        ensures loans { KeepsLoans self.old self.new }
    {
        test_pointer(&self.zone, pointer)?;
        let block = pointer.number();
        test_new_size(&self.zone, block, size)?;
        request(
            &mut self.zone,
            &Request::Resize(block, size),
            &[block],
            procedure,
        )
        .map(|_| ())
    }

    /// GetPtrSize: the bytes of the pointer's block. memWZErr where the pointer isn't live (Inside Macintosh: Memory,
    /// Changing the Sizes of Relocatable and Nonrelocatable Blocks).
    pub fn get_ptr_size(&self, pointer: Ptr) -> Result<u32, OsErr>
        ensures exact { IsExactStep self.now.shape self.now.heap (OnBlock (GetPtrSize pointer)) [] (number_outcome result) self.now.heap }
        ensures step { MemoryStep self.now.shape self.now.heap (OnBlock (GetPtrSize pointer)) [] (number_outcome result) self.now.heap }
    {
        test_pointer(&self.zone, pointer)?;
        Ok(self.zone.linked().length(pointer.number()))
    }

    /// ReallocateHandle: a new block of `size` zero bytes for the handle, without flags, in place of the one that it
    /// has, which counts as free for it. The handle may be empty. Where there is no room, the zone grows and purges,
    /// and asks the grow-zone procedure, as for NewHandle; a refused one keeps block, bytes and flags. nilHandleErr
    /// where the handle is 0, memWZErr where it isn't live, memLockedErr where it is lent, memPurErr where it is
    /// locked, paramErr where `size` is over 8,388,608, memFullErr where there is no room (Inside Macintosh: Memory,
    /// Managing Relocatable Blocks).
    pub fn reallocate_handle<G: GrowZone>(
        &mut self,
        handle: Handle,
        size: u32,
        procedure: &mut G,
    ) -> Result<(), OsErr>
        requires { G.asks procedure.old ≡ [] }
        ensures exact { IsExactStep self.old.shape self.old.heap (Requesting (ReallocateHandle handle size)) (G.asks procedure.new) (done_outcome result) self.new.heap }
        ensures step { MemoryStep self.old.shape self.old.heap (Requesting (ReallocateHandle handle size)) (G.asks procedure.new) (done_outcome result) self.new.heap }
        ensures source { G.source procedure.new ≡ G.source procedure.old }
        ensures shape { self.new.shape ≡ self.old.shape }
        ensures loans { KeepsLoans self.old self.new }
    {
        test_handle_here(&self.zone, handle)?;
        test_unlocked(&self.zone, handle)?;
        test_size(size)?;
        request(
            &mut self.zone,
            &Request::Replace(handle, size),
            &[handle.number()],
            procedure,
        )
        .map(|_| ())
    }
}
