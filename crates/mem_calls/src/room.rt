//! The calls that make room in the zone.

ghost use Rattle.std.specs.Prelude.{◌≡◌, []};
ghost use Rattle.linked_zone.specs.Loans.{KeepsLoans};
ghost use Rattle.mac_base.specs.declared.memory_call.MemoryCall.TheVariants.{OnZone, Requesting};
ghost use Rattle.mac_base.specs.declared.memory_call.RequestingCall.TheVariants.{ReserveMem, MoreMasters};
ghost use Rattle.mac_base.specs.declared.memory_call.ZoneCall.TheVariants.{CompactMem, PurgeMem, MaxMem, MaxApplZone};
ghost use Rattle.mac_base.specs.MemoryStep.{MemoryStep};
ghost use Rattle.mac_base.specs.ExactStep.{IsExactStep};
ghost use Rattle.std.specs.Prelude.{Ok};
ghost use Rattle.mac_base.specs.declared.reply.Results.TheVariants.{Nothing, TwoNumbers};
ghost use Rattle.mac_base.specs.Outcomes.{number_outcome, done_outcome};

use crate::manager::MemoryManager;
use crate::operands::test_size;
use crate::request::request;
use mac_base::GrowZone;
use mac_base::error::OsErr;
use mac_base::request::Request;

impl MemoryManager {
    /// ReserveMem: makes room for a nonrelocatable block of `size` bytes as low as can be, as NewPtr would, and takes
    /// nothing: the blocks of the lowest gap with room move up. Where none has room, the zone grows and purges, and
    /// asks the grow-zone procedure, as for NewHandle. paramErr where `size` is over 8,388,608; memFullErr where there
    /// is no room (Inside Macintosh: Memory, Freeing Memory).
    pub fn reserve_mem<G: GrowZone>(&mut self, size: u32, procedure: &mut G) -> Result<(), OsErr>
        requires { G.asks procedure.old ≡ [] }
        ensures exact { IsExactStep self.old.shape self.old.heap (Requesting (ReserveMem size)) (G.asks procedure.new) (done_outcome result) self.new.heap }
        ensures step { MemoryStep self.old.shape self.old.heap (Requesting (ReserveMem size)) (G.asks procedure.new) (done_outcome result) self.new.heap }
        ensures source { G.source procedure.new ≡ G.source procedure.old }
        ensures shape { self.new.shape ≡ self.old.shape }
        ensures loans { KeepsLoans self.old self.new }
    {
        test_size(size)?;
        request(&mut self.zone, &Request::Reserve(size), &[], procedure).map(|_| ())
    }

    /// MoreMasters: a new master block, placed as NewPtr places a block, whose 64 slots are the next to be given.
    /// memFullErr where there is no room for it (Inside Macintosh: Memory, Setting Up the Application Heap).
    pub fn more_masters<G: GrowZone>(&mut self, procedure: &mut G) -> Result<(), OsErr>
        requires { G.asks procedure.old ≡ [] }
        ensures exact { IsExactStep self.old.shape self.old.heap (Requesting MoreMasters) (G.asks procedure.new) (done_outcome result) self.new.heap }
        ensures step { MemoryStep self.old.shape self.old.heap (Requesting MoreMasters) (G.asks procedure.new) (done_outcome result) self.new.heap }
        ensures source { G.source procedure.new ≡ G.source procedure.old }
        ensures shape { self.new.shape ≡ self.old.shape }
        ensures loans { KeepsLoans self.old self.new }
    {
        request(&mut self.zone, &Request::NewMaster, &[], procedure).map(|_| ())
    }

    /// CompactMem: compacts the zone for `size` bytes, and gives the size of the largest free block then. Nothing moves
    /// where a free block has so many; else the lowest gap with room is arranged down, or all are. paramErr where
    /// `size` is over 8,388,608 (Inside Macintosh: Memory, Freeing Memory).
    pub fn compact_mem(&mut self, size: u32) -> Result<u32, OsErr>
        ensures exact { IsExactStep self.old.shape self.old.heap (OnZone (CompactMem size)) [] (number_outcome result) self.new.heap }
        ensures step { MemoryStep self.old.shape self.old.heap (OnZone (CompactMem size)) [] (number_outcome result) self.new.heap }
        ensures shape { self.new.shape ≡ self.old.shape }
        ensures loans { KeepsLoans self.old self.new }
    {
        // The address of the first block says that the heap is sound.
        prove!(self.zone.first_block() > 0);
        test_size(size)?;
        Ok(self.zone.compact(size))
    }

    /// PurgeMem: purges handles in order of address until a free block has `size` bytes. paramErr where `size` is over
    /// 8,388,608; memFullErr where all that may be purged are, and no free block has them (Inside Macintosh: Memory,
    /// Freeing Memory).
    pub fn purge_mem(&mut self, size: u32) -> Result<(), OsErr>
        ensures exact { IsExactStep self.old.shape self.old.heap (OnZone (PurgeMem size)) [] (done_outcome result) self.new.heap }
        ensures step { MemoryStep self.old.shape self.old.heap (OnZone (PurgeMem size)) [] (done_outcome result) self.new.heap }
        ensures shape { self.new.shape ≡ self.old.shape }
        ensures loans { KeepsLoans self.old self.new }
    {
        // The address of the first block says that the heap is sound.
        prove!(self.zone.first_block() > 0);
        test_size(size)?;
        if !self.zone.purge_to(size) {
            return Err(OsErr::MemFullErr);
        }
        Ok(())
    }

    /// MaxMem: purges all handles that may be purged, and arranges all gaps down. Gives the size of the largest free
    /// block then, and the bytes by which the zone may still grow (Inside Macintosh: Memory, Freeing Memory).
    pub fn max_mem(&mut self) -> (u32, u32)
        ensures exact { IsExactStep self.old.shape self.old.heap (OnZone MaxMem) [] (Ok (TwoNumbers result.0 result.1)) self.new.heap }
        ensures step { MemoryStep self.old.shape self.old.heap (OnZone MaxMem) [] (Ok (TwoNumbers result.0 result.1)) self.new.heap }
        ensures shape { self.new.shape ≡ self.old.shape }
        ensures loans { KeepsLoans self.old self.new }
    {
        // The address of the first block says that the heap is sound.
        prove!(self.zone.first_block() > 0);
        self.zone.purge_all();
        self.zone.compact_all();
        (self.zone.largest_free(), self.zone.growth_left())
    }

    /// MaxApplZone: grows the zone to its limit (Inside Macintosh: Memory, Setting Up the Application Heap).
    pub fn max_appl_zone(&mut self)
        ensures exact { IsExactStep self.old.shape self.old.heap (OnZone MaxApplZone) [] (Ok Nothing) self.new.heap }
        ensures step { MemoryStep self.old.shape self.old.heap (OnZone MaxApplZone) [] (Ok Nothing) self.new.heap }
        ensures shape { self.new.shape ≡ self.old.shape }
        ensures loans { KeepsLoans self.old self.new }
    {
        self.zone.extend();
    }
}
