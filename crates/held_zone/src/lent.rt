//! Bytes out of a loan.

ghost use Rattle.std.specs.Prelude.{◌≡◌, length, OnErr};
ghost use Rattle.held_calls.specs.Holding.{Holds, loans_of};
ghost use Rattle.mac_base.specs.declared.loan_call.LoanCall.TheVariants as loan_call;
ghost use Rattle.mac_base.specs.LoanStep.{LoanStep};
ghost use Rattle.held_zone.specs.Told.{shown_outcome};

use held_calls::lending;
use held_calls::loans::Loans;
use mac_base::error::OsErr;
use mem_calls::MemoryManager;

/// Copies bytes of a loan.
pub(crate) fn peek(
    memory: &MemoryManager,
    loans: &Loans,
    block: u32,
    offset: u32,
    bytes: &mut [u8],
) -> Result<(), OsErr>
    requires { Holds memory.now loans.now }
    ensures step { LoanStep memory.now.shape (loans_of loans.now) memory.now.heap (loan_call.LentPeek block offset (length bytes.old)) (shown_outcome result bytes.new) (loans_of loans.now) memory.now.heap }
    ensures kept { OnErr result (bytes.new ≡ bytes.old) }
{
    let count = bytes.len();
    let lent = lending::lent_bytes(memory, loans, block, offset, count)?;
    let start = offset as usize;
    bytes.copy_from_slice(&lent[start..start + count]);
    Ok(())
}
