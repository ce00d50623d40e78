//! The calls about where relocatable blocks are.

ghost use Rattle.std.specs.Prelude.{◌≡◌, []};
ghost use Rattle.linked_zone.specs.Loans.{KeepsLoans};
ghost use Rattle.mac_base.specs.declared.memory_call.MemoryCall.TheVariants.{OnBlock};
ghost use Rattle.mac_base.specs.declared.memory_call.BlockCall.TheVariants.{Deref, MoveHHi, HLockHi, RecoverHandle};
ghost use Rattle.mac_base.specs.MemoryStep.{MemoryStep};
ghost use Rattle.mac_base.specs.ExactStep.{IsExactStep};
ghost use Rattle.mac_base.specs.Outcomes.{handle_outcome, address_outcome, done_outcome};

use crate::manager::MemoryManager;
use crate::operands::{test_full, test_movable};
use mac_base::error::OsErr;
use mac_base::handle::Handle;

impl MemoryManager {
    /// Deref: where the block's contents begin, which is what the handle's master pointer says beside its flags.
    /// nilHandleErr where the handle is 0 or empty, memWZErr where it isn't live (Inside Macintosh: Memory, Relocatable
    /// Blocks).
    pub fn deref(&self, handle: Handle) -> Result<u32, OsErr>
        ensures exact { IsExactStep self.now.shape self.now.heap (OnBlock (Deref handle)) [] (address_outcome result) self.now.heap }
        ensures step { MemoryStep self.now.shape self.now.heap (OnBlock (Deref handle)) [] (address_outcome result) self.now.heap }
    {
        test_full(&self.zone, handle)?;
        Ok(self.zone.contents_address(handle))
    }

    /// MoveHHi: the handle's block moves to the high end of its gap. nilHandleErr where the handle is 0 or empty,
    /// memWZErr where it isn't live, memLockedErr where it is locked (Inside Macintosh: Memory, Managing Relocatable
    /// Blocks).
    pub fn move_hhi(&mut self, handle: Handle) -> Result<(), OsErr>
        ensures exact { IsExactStep self.old.shape self.old.heap (OnBlock (MoveHHi handle)) [] (done_outcome result) self.new.heap }
        ensures step { MemoryStep self.old.shape self.old.heap (OnBlock (MoveHHi handle)) [] (done_outcome result) self.new.heap }
        ensures shape { self.new.shape ≡ self.old.shape }
        ensures loans { KeepsLoans self.old self.new }
    {
        // The address of the first block says that the heap is sound.
        prove!(self.zone.first_block() > 0);
        test_movable(&self.zone, handle)?;
        self.zone.move_high(handle);
        Ok(())
    }

    /// HLockHi: MoveHHi, and then HLock; refused as MoveHHi is (Inside Macintosh: Memory, Setting the Properties of
    /// Relocatable Blocks).
    pub fn hlock_hi(&mut self, handle: Handle) -> Result<(), OsErr>
        ensures exact { IsExactStep self.old.shape self.old.heap (OnBlock (HLockHi handle)) [] (done_outcome result) self.new.heap }
        ensures step { MemoryStep self.old.shape self.old.heap (OnBlock (HLockHi handle)) [] (done_outcome result) self.new.heap }
        ensures shape { self.new.shape ≡ self.old.shape }
        ensures loans { KeepsLoans self.old self.new }
    {
        // The address of the first block says that the heap is sound.
        prove!(self.zone.first_block() > 0);
        let mut flags = test_movable(&self.zone, handle)?;
        self.zone.move_high(handle);
        flags.lock = true;
        self.zone.set_flags(handle, flags);
        Ok(())
    }

    /// RecoverHandle: the handle whose block's contents begin at an address. memBCErr where no handle's do (Inside
    /// Macintosh: Memory, Managing Relocatable Blocks).
    pub fn recover_handle(&self, address: u32) -> Result<Handle, OsErr>
        ensures exact { IsExactStep self.now.shape self.now.heap (OnBlock (RecoverHandle address)) [] (handle_outcome result) self.now.heap }
        ensures step { MemoryStep self.now.shape self.now.heap (OnBlock (RecoverHandle address)) [] (handle_outcome result) self.now.heap }
    {
        self.zone.recover(address).ok_or(OsErr::MemBcErr)
    }
}
