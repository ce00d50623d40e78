//! The calls on blocks that are lent, each with what it gives.

ghost use Rattle.std.specs.Prelude.{◌≡◌, None, IfOk, OnErr, IsTrue};
ghost use Rattle.held_calls.specs.Holding.{Holds, LoanSteps};
ghost use Rattle.mac_base.specs.declared.loan_call.LoanCall.TheVariants as call;
ghost use Rattle.mac_base.specs.LoanStep.{loan_refusal};
ghost use Rattle.toolbox.specs.Steps.{shows};

use held_calls::lending;
use held_calls::loans::Loans;
use mac_base::bytes::Bytes;
use mac_base::error::HostFull;
use mac_base::{LoanCall, Outcome, Results};
use mem_calls::MemoryManager;
use std::alloc::Global;

/// Makes a call on a block that is lent or is to be lent.
pub(crate) fn make(
    memory: &mut MemoryManager,
    loans: &mut Loans,
    alloc: Global,
    loan_call: &LoanCall<'_>,
) -> Result<Outcome, HostFull>
    requires { Holds memory.old loans.old }
    ensures step { IfOk result (λ outcome. LoanSteps memory.old loans.old loan_call.now outcome memory.new loans.new) }
    ensures holds { Holds memory.new loans.new }
    ensures unchanged { OnErr result (memory.new ≡ memory.old) }
    ensures loans_unchanged { OnErr result (loans.new ≡ loans.old) }
    ensures full { OnErr result (IsTrue (shows loan_call.now)) }
    ensures late { OnErr result (loan_refusal memory.old.shape memory.old.heap loan_call.now ≡ None) }
{
    match *loan_call {
        LoanCall::Lend(block) => Ok(lending::lend(memory, loans, block)),
        LoanCall::LentPeek {
            block,
            offset,
            count,
        } => lent_peek(memory, loans, alloc, block, offset, count),
        LoanCall::LentPoke {
            block,
            offset,
            ref bytes,
        } => Ok(lending::lent_poke(memory, loans, block, offset, bytes.as_slice())),
        LoanCall::Return(block) => Ok(lending::take_back(memory, loans, block)),
    }
}

/// LentPeek: a copy of some bytes of a lent block.
fn lent_peek(
    memory: &MemoryManager,
    loans: &Loans,
    alloc: Global,
    block: u32,
    offset: u32,
    count: u32,
) -> Result<Outcome, HostFull>
    requires { Holds memory.now loans.now }
    ensures step { IfOk result (λ outcome. LoanSteps memory.now loans.now (call.LentPeek block offset count) outcome memory.now loans.now) }
    ensures late { OnErr result (loan_refusal memory.now.shape memory.now.heap (call.LentPeek block offset count) ≡ None) }
{
    let count = count as usize;
    let lent = match lending::lent_bytes(memory, loans, block, offset, count) {
        Ok(lent) => lent,
        Err(code) => return Ok(Err(code)),
    };
    let start = offset as usize;
    let part = &lent[start..start + count];
    let bytes = Bytes::new(Vec::from_slice(alloc, part)?);
    Ok(Ok(Results::Bytes(bytes)))
}
