//! Blocks that are lent.

use crate::zone::LinkedZone;
use raw_region::Lent;

impl LinkedZone {
    ghost use Rattle.std.specs.Prelude.{◌≡◌, ◌<◌, length, IsTrue, IsFalse};
    ghost use Rattle.mac_base.specs.HandleTable.{has_block, is_lent, bytes_of};
    ghost use Rattle.mac_base.specs.Loans.{most_loans, lent_out, returned};
    ghost use Rattle.mac_base.specs.ZoneState.{with_heap};
    ghost use Rattle.linked_zone.specs.Loans.{IsLoanOf};

    /// Lends the bytes of a handle or a pointer: who has the loan reads and writes them, until it comes back.
    pub fn lend(&mut self, block: u32) -> Lent
        requires block { IsTrue (has_block self.old.heap.table block) }
        requires here { IsFalse (is_lent self.old.heap.table block) }
        requires few { length self.old.heap.table.lent < most_loans }
        ensures zone { self.new ≡ with_heap (lent_out block self.old.heap) self.old }
        ensures loan { IsLoanOf self.new block result }
        ensures bytes { result.bytes ≡ bytes_of self.old.heap.table block }
    {
        let at = self.address_of(block);
        self.records.lend(at)
    }

    /// Takes back the bytes of a handle or a pointer that is lent, as the holder of the loan left them.
    pub fn give_back(&mut self, block: u32, loan: Lent)
        requires { IsLoanOf self.old block loan }
        ensures { self.new ≡ with_heap (returned block loan.bytes self.old.heap) self.old }
    {
        let at = self.address_of(block);
        self.records.give_back(at, loan);
    }
}
