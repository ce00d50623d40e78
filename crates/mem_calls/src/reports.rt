//! The calls that report how much room there is.

ghost use Rattle.std.specs.Prelude.{◌≡◌, []};
ghost use Rattle.mac_base.specs.declared.memory_call.MemoryCall.TheVariants.{OnZone};
ghost use Rattle.mac_base.specs.declared.memory_call.ZoneCall.TheVariants as zone_call;
ghost use Rattle.mac_base.specs.MemoryStep.{MemoryStep};
ghost use Rattle.mac_base.specs.ExactStep.{IsExactStep};
ghost use Rattle.std.specs.Prelude.{Ok};
ghost use Rattle.mac_base.specs.declared.reply.Results.TheVariants.{Number, TwoNumbers};

use crate::manager::MemoryManager;
use mac_base::purge_space::PurgeSpace;

impl MemoryManager {
    /// FreeMem: the free bytes (Inside Macintosh: Memory, Assessing Memory Conditions).
    pub fn free_mem(&self) -> u32
        ensures exact { IsExactStep self.now.shape self.now.heap (OnZone zone_call.FreeMem) [] (Ok (Number result)) self.now.heap }
        ensures step { MemoryStep self.now.shape self.now.heap (OnZone zone_call.FreeMem) [] (Ok (Number result)) self.now.heap }
    {
        self.zone.linked().free_bytes()
    }

    /// MaxBlock: the most free bytes that moving blocks would bring together (Inside Macintosh: Memory, Assessing
    /// Memory Conditions).
    ///
    /// It is counted once, until the zone changes.
    pub fn max_block(&mut self) -> u32
        ensures exact { IsExactStep self.old.shape self.old.heap (OnZone zone_call.MaxBlock) [] (Ok (Number result)) self.new.heap }
        ensures step { MemoryStep self.old.shape self.old.heap (OnZone zone_call.MaxBlock) [] (Ok (Number result)) self.new.heap }
        ensures same { self.new ≡ self.old }
    {
        self.zone.largest_room()
    }

    /// PurgeSpace: the bytes that would be free if all blocks that may be purged were, in all and in one block (Inside
    /// Macintosh: Memory, Assessing Memory Conditions).
    ///
    /// It is counted once, until the zone changes.
    pub fn purge_space(&mut self) -> PurgeSpace
        ensures exact { IsExactStep self.old.shape self.old.heap (OnZone zone_call.PurgeSpace) [] (Ok (TwoNumbers result.total result.contiguous)) self.new.heap }
        ensures step { MemoryStep self.old.shape self.old.heap (OnZone zone_call.PurgeSpace) [] (Ok (TwoNumbers result.total result.contiguous)) self.new.heap }
        ensures same { self.new ≡ self.old }
    {
        self.zone.purge_space()
    }
}
