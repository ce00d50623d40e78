//! Loans of blocks.

ghost use Rattle.std.specs.Prelude.{◌≡◌, ◌||◌, IfOk, OnErr, OnOk, IsTrue, length};
ghost use Rattle.std.specs.Result.{result_err};
ghost use Rattle.mac_base.specs.BlockStatus.{status_of};
ghost use Rattle.mac_base.specs.HandleTable.{bytes_of, has_block, is_locked, is_pointer};
ghost use Rattle.mac_base.specs.Loans.{LoansAreFixed, LoansFit, lent_out, may_be_lent, returned};
ghost use Rattle.mac_base.specs.ZoneState.{with_heap};
ghost use Rattle.linked_zone.specs.Loans.{IsLoanOf, KeepsLoans, KeepsOtherLoans};
ghost use Rattle.mac_base.specs.declared.loan_call.LoanCall.TheVariants as loan_call;
ghost use Rattle.mac_base.specs.LoanStep.{loan_refusal};

use crate::manager::MemoryManager;
use crate::operands::MOST_LOANS;
use mac_base::block::Status;
use mac_base::error::OsErr;
use mac_base::handle::{Handle, Ptr};
use raw_region::Lent;

impl MemoryManager {
    /// Lends the bytes of a nonrelocatable block or of that of a locked handle: who has the loan reads and writes them.
    /// Until they come back the block keeps its address, the zone reads and writes none of its bytes, and each call
    /// that would read, write, free, resize or unlock it is refused with memLockedErr. nilHandleErr where the number is
    /// 0 or an empty handle, memWZErr where it isn't live, memLockedErr where it is lent, paramErr where it is an
    /// unlocked handle or where eight blocks are lent.
    pub fn lend(&mut self, block: u32) -> Result<Lent, OsErr>
        ensures refusal { result_err result ≡ loan_refusal self.old.shape self.old.heap (loan_call.Lend block) }
        ensures unchanged { OnErr result (self.new ≡ self.old) }
        ensures zone { OnOk result (self.new ≡ with_heap (lent_out block self.old.heap) self.old) }
        ensures loan { IfOk result (λ loan. IsLoanOf self.new block loan) }
        ensures bytes { IfOk result (λ loan. loan.bytes ≡ bytes_of self.old.heap.table block) }
        ensures loans { KeepsLoans self.old self.new }
    {
        self.test_loan(block)?;
        Ok(self.zone.lend(block))
    }

    /// Takes back the bytes of a block that is lent, as the holder of the loan left them. The block is where it
    /// was.
    pub fn give_back(&mut self, block: u32, loan: Lent)
        requires { IsLoanOf self.old block loan }
        ensures zone { self.new ≡ with_heap (returned block loan.bytes self.old.heap) self.old }
        ensures loans { KeepsOtherLoans block self.old self.new }
    {
        self.zone.give_back(block, loan);
    }

    /// How many blocks are lent: 8 at most, each of them a pointer's or a locked handle's.
    pub fn lent_count(&self) -> u32
        ensures value { result ≡ length self.now.heap.table.lent }
        ensures loans { LoansFit self.now.heap }
        ensures fixed { LoansAreFixed self.now.heap }
    {
        self.zone.lent_count()
    }

    /// Tests that a number may be lent: a pointer or a locked handle, while there is a loan left. nilHandleErr where it
    /// is 0 or an empty handle, memWZErr where it isn't live, memLockedErr where it is lent, paramErr where it is an
    /// unlocked handle or where eight blocks are lent.
    fn test_loan(&self, block: u32) -> Result<(), OsErr>
        ensures refusal { result_err result ≡ loan_refusal self.now.shape self.now.heap (loan_call.Lend block) }
        ensures full { OnOk result (status_of self.now.heap.table block ≡ Status.Full) }
        ensures fixed { OnOk result (IsTrue (may_be_lent self.now.heap.table block)) }
    {
        self.test_block_here(block)?;
        if !self.is_fixed(block) || self.zone.lent_count() as usize >= MOST_LOANS {
            return Err(OsErr::ParamErr);
        }
        Ok(())
    }

    /// Whether a number that has a block is a pointer or a locked handle.
    fn is_fixed(&self, block: u32) -> bool
        requires { IsTrue (has_block self.now.heap.table block) }
        ensures { result ≡ (is_pointer self.now.heap.table block || is_locked self.now.heap.table block) }
    {
        self.zone.linked().is_pointer(Ptr::new(block))
            || self.zone.linked().flags(Handle::new(block)).lock
    }
}
