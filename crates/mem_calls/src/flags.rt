//! The calls that set the properties of relocatable blocks.

ghost use Rattle.std.specs.Prelude.{◌≡◌, []};
ghost use Rattle.linked_zone.specs.Loans.{KeepsLoans};
ghost use Rattle.mac_base.specs.declared.memory_call.MemoryCall.TheVariants.{OnBlock};
ghost use Rattle.mac_base.specs.declared.memory_call.BlockCall.TheVariants.{HLock, HUnlock, HPurge, HNoPurge, HSetRBit, HClrRBit, HGetState, HSetState};
ghost use Rattle.mac_base.specs.MemoryStep.{MemoryStep};
ghost use Rattle.mac_base.specs.ExactStep.{IsExactStep};
ghost use Rattle.mac_base.specs.Outcomes.{number_outcome, done_outcome};

use crate::manager::MemoryManager;
use crate::operands::{handle_flags, is_lent, test_full, test_here};
use crate::state::{flags_from, state_of};
use mac_base::error::OsErr;
use mac_base::handle::Handle;

impl MemoryManager {
    /// HLock: the block stays where it is while it is locked. nilHandleErr where the handle is 0 or empty, memWZErr
    /// where it isn't live (Inside Macintosh: Memory, Setting the Properties of Relocatable Blocks).
    pub fn hlock(&mut self, handle: Handle) -> Result<(), OsErr>
        ensures exact { IsExactStep self.old.shape self.old.heap (OnBlock (HLock handle)) [] (done_outcome result) self.new.heap }
        ensures step { MemoryStep self.old.shape self.old.heap (OnBlock (HLock handle)) [] (done_outcome result) self.new.heap }
        ensures shape { self.new.shape ≡ self.old.shape }
        ensures loans { KeepsLoans self.old self.new }
    {
        let mut flags = handle_flags(&self.zone, handle)?;
        flags.lock = true;
        self.zone.set_flags(handle, flags);
        Ok(())
    }

    /// HUnlock: the block may be moved again. nilHandleErr where the handle is 0 or empty, memWZErr where it isn't
    /// live, memLockedErr where it is lent (Inside Macintosh: Memory, Setting the Properties of Relocatable Blocks).
    pub fn hunlock(&mut self, handle: Handle) -> Result<(), OsErr>
        ensures exact { IsExactStep self.old.shape self.old.heap (OnBlock (HUnlock handle)) [] (done_outcome result) self.new.heap }
        ensures step { MemoryStep self.old.shape self.old.heap (OnBlock (HUnlock handle)) [] (done_outcome result) self.new.heap }
        ensures shape { self.new.shape ≡ self.old.shape }
        ensures loans { KeepsLoans self.old self.new }
    {
        let mut flags = handle_flags(&self.zone, handle)?;
        test_here(&self.zone, handle.number())?;
        flags.lock = false;
        self.zone.set_flags(handle, flags);
        Ok(())
    }

    /// HPurge: the block may be purged where it isn't locked. nilHandleErr where the handle is 0 or empty, memWZErr
    /// where it isn't live (Inside Macintosh: Memory, Setting the Properties of Relocatable Blocks).
    pub fn hpurge(&mut self, handle: Handle) -> Result<(), OsErr>
        ensures exact { IsExactStep self.old.shape self.old.heap (OnBlock (HPurge handle)) [] (done_outcome result) self.new.heap }
        ensures step { MemoryStep self.old.shape self.old.heap (OnBlock (HPurge handle)) [] (done_outcome result) self.new.heap }
        ensures shape { self.new.shape ≡ self.old.shape }
        ensures loans { KeepsLoans self.old self.new }
    {
        let mut flags = handle_flags(&self.zone, handle)?;
        flags.purge = true;
        self.zone.set_flags(handle, flags);
        Ok(())
    }

    /// HNoPurge: the block may not be purged. nilHandleErr where the handle is 0 or empty, memWZErr where it isn't live
    /// (Inside Macintosh: Memory, Setting the Properties of Relocatable Blocks).
    pub fn hno_purge(&mut self, handle: Handle) -> Result<(), OsErr>
        ensures exact { IsExactStep self.old.shape self.old.heap (OnBlock (HNoPurge handle)) [] (done_outcome result) self.new.heap }
        ensures step { MemoryStep self.old.shape self.old.heap (OnBlock (HNoPurge handle)) [] (done_outcome result) self.new.heap }
        ensures shape { self.new.shape ≡ self.old.shape }
        ensures loans { KeepsLoans self.old self.new }
    {
        let mut flags = handle_flags(&self.zone, handle)?;
        flags.purge = false;
        self.zone.set_flags(handle, flags);
        Ok(())
    }

    /// HSetRBit: the block has the contents of a resource. nilHandleErr where the handle is 0 or empty, memWZErr where
    /// it isn't live (Inside Macintosh: Memory, Setting the Properties of Relocatable Blocks).
    pub fn hset_rbit(&mut self, handle: Handle) -> Result<(), OsErr>
        ensures exact { IsExactStep self.old.shape self.old.heap (OnBlock (HSetRBit handle)) [] (done_outcome result) self.new.heap }
        ensures step { MemoryStep self.old.shape self.old.heap (OnBlock (HSetRBit handle)) [] (done_outcome result) self.new.heap }
        ensures shape { self.new.shape ≡ self.old.shape }
        ensures loans { KeepsLoans self.old self.new }
    {
        let mut flags = handle_flags(&self.zone, handle)?;
        flags.resource = true;
        self.zone.set_flags(handle, flags);
        Ok(())
    }

    /// HClrRBit: the block has the contents of no resource. nilHandleErr where the handle is 0 or empty, memWZErr where
    /// it isn't live (Inside Macintosh: Memory, Setting the Properties of Relocatable Blocks).
    pub fn hclr_rbit(&mut self, handle: Handle) -> Result<(), OsErr>
        ensures exact { IsExactStep self.old.shape self.old.heap (OnBlock (HClrRBit handle)) [] (done_outcome result) self.new.heap }
        ensures step { MemoryStep self.old.shape self.old.heap (OnBlock (HClrRBit handle)) [] (done_outcome result) self.new.heap }
        ensures shape { self.new.shape ≡ self.old.shape }
        ensures loans { KeepsLoans self.old self.new }
    {
        let mut flags = handle_flags(&self.zone, handle)?;
        flags.resource = false;
        self.zone.set_flags(handle, flags);
        Ok(())
    }

    /// HGetState: the flags of the handle as a number: lock 128, purgeable 64, resource 32, added. nilHandleErr where
    /// the handle is 0 or empty, memWZErr where it isn't live (Inside Macintosh: Memory, Setting the Properties of
    /// Relocatable Blocks).
    pub fn hget_state(&self, handle: Handle) -> Result<u32, OsErr>
        ensures exact { IsExactStep self.now.shape self.now.heap (OnBlock (HGetState handle)) [] (number_outcome result) self.now.heap }
        ensures step { MemoryStep self.now.shape self.now.heap (OnBlock (HGetState handle)) [] (number_outcome result) self.now.heap }
    {
        let flags = handle_flags(&self.zone, handle)?;
        Ok(state_of(flags))
    }

    /// HSetState: sets the three flags as HGetState gives them; other bits say nothing. nilHandleErr where the handle
    /// is 0 or empty, memWZErr where it isn't live, paramErr where `state` is over 255, memLockedErr where it is lent
    /// and `state` lacks the lock (Inside Macintosh: Memory, Setting the Properties of Relocatable Blocks).
    pub fn hset_state(&mut self, handle: Handle, state: u32) -> Result<(), OsErr>
        ensures exact { IsExactStep self.old.shape self.old.heap (OnBlock (HSetState handle state)) [] (done_outcome result) self.new.heap }
        ensures step { MemoryStep self.old.shape self.old.heap (OnBlock (HSetState handle state)) [] (done_outcome result) self.new.heap }
        ensures shape { self.new.shape ≡ self.old.shape }
        ensures loans { KeepsLoans self.old self.new }
    {
        test_full(&self.zone, handle)?;
        if state > 255 {
            return Err(OsErr::ParamErr);
        }
        let flags = flags_from(state);
        if !flags.lock && is_lent(&self.zone, handle.number()) {
            return Err(OsErr::MemLockedErr);
        }
        self.zone.set_flags(handle, flags);
        Ok(())
    }
}
