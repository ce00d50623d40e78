//! The calls on blocks that are lent, over the Memory Manager and the loans that a program has.

ghost use Rattle.std.specs.Prelude.{◌≡◌, ◌+◌, ◌≤◌, ◌∷◌, [], length, IfOk};
ghost use Rattle.std.specs.Result.{result_err};
ghost use Rattle.mac_base.specs.ZoneState.{with_heap};
ghost use Rattle.mac_base.specs.declared.loan_call.LoanCall.TheVariants as call;
ghost use Rattle.mac_base.specs.LoanStep.{all_returned, held_bytes, loan_refusal};
ghost use Rattle.mac_base.specs.Tests.{IsBlock, first_refusal};
ghost use Rattle.held_calls.specs.Holding.{Holds, IsWindow, LoanSteps, loans_of};

use crate::loans::{Held, Loans};
use crate::window::Window;
use mac_base::block::Status;
use mac_base::error::OsErr;
use mac_base::{Outcome, Results};
use mem_calls::{MemoryManager, has_part};

/// Lend: lends a nonrelocatable block or that of a locked handle.
pub fn lend(memory: &mut MemoryManager, loans: &mut Loans, block: u32) -> Outcome
    requires { Holds memory.old loans.old }
    ensures step { LoanSteps memory.old loans.old (call.Lend block) result memory.new loans.new }
    ensures memory { memory.new.memory ≡ memory.old.memory }
    ensures holds { Holds memory.new loans.new }
{
    let loan = memory.lend(block)?;
    loans.add(Held { block, loan });
    Ok(Results::Nothing)
}

/// LentPoke: writes bytes over those of a lent block.
pub fn lent_poke(
    memory: &MemoryManager,
    loans: &mut Loans,
    block: u32,
    offset: u32,
    bytes: &[u8],
) -> Outcome
    requires { Holds memory.now loans.old }
    ensures step { LoanSteps memory.now loans.old (call.LentPoke block offset bytes.now) result memory.now loans.new }
    ensures holds { Holds memory.now loans.new }
{
    lent_bytes(memory, loans, block, offset, bytes.len())?;
    loans.write(block, offset as usize, bytes);
    Ok(Results::Nothing)
}

/// Return: gives a lent block back.
pub fn take_back(memory: &mut MemoryManager, loans: &mut Loans, block: u32) -> Outcome
    requires { Holds memory.old loans.old }
    ensures step { LoanSteps memory.old loans.old (call.Return block) result memory.new loans.new }
    ensures memory { memory.new.memory ≡ memory.old.memory }
    ensures holds { Holds memory.new loans.new }
{
    test_live(memory, block)?;
    let loan = loans.take_out(block).ok_or(OsErr::ParamErr)?;
    memory.give_back(block, loan);
    Ok(Results::Nothing)
}

/// The bytes of a lent block, for a call on `count` of them from an offset on. It is refused in this order:
/// nilHandleErr where the number is 0, memWZErr where no handle or pointer of that number is live, and paramErr where
/// it isn't lent or has too few bytes.
pub fn lent_bytes<'a>(
    memory: &MemoryManager,
    loans: &'a Loans,
    block: u32,
    offset: u32,
    count: usize,
) -> Result<&'a [u8], OsErr>
    requires { Holds memory.now loans.now }
    ensures refusal { result_err result ≡ loan_refusal memory.now.shape memory.now.heap (call.LentPeek block offset count) }
    ensures bytes { IfOk result (λ lent. lent.now ≡ held_bytes block (loans_of loans.now)) }
    ensures within { IfOk result (λ lent. offset + count ≤ length lent.now) }
{
    test_live(memory, block)?;
    let lent = loans.bytes(block).ok_or(OsErr::ParamErr)?;
    if has_part(lent.len(), offset as usize, count) {
        Ok(lent)
    } else {
        Err(OsErr::ParamErr)
    }
}

/// The window on a lent block's bytes. It is refused as Return is.
pub fn window(memory: &MemoryManager, loans: &Loans, block: u32) -> Result<Window, OsErr>
    requires { Holds memory.now loans.now }
    ensures refusal { result_err result ≡ loan_refusal memory.now.shape memory.now.heap (call.Return block) }
    ensures window { IfOk result (λ window. IsWindow memory.now (loans_of loans.now) block window) }
{
    test_live(memory, block)?;
    loans.window(block).ok_or(OsErr::ParamErr)
}

/// Tests that a number is that of a handle or a pointer: nilHandleErr where it is 0, memWZErr where it isn't live.
fn test_live(memory: &MemoryManager, block: u32) -> Result<(), OsErr>
    ensures { result_err result ≡ first_refusal memory.now.shape memory.now.heap (IsBlock block ∷ []) }
{
    if block == 0 {
        return Err(OsErr::NilHandleErr);
    }
    match memory.status(block) {
        Status::NotLive => Err(OsErr::MemWzErr),
        Status::Empty | Status::Lent | Status::Full => Ok(()),
    }
}

/// Takes back all that is lent, first to last.
pub fn take_all_back(memory: &mut MemoryManager, loans: &mut Loans)
    requires { Holds memory.old loans.old }
    ensures zone { memory.new ≡ with_heap (all_returned (loans_of loans.old) memory.old.heap) memory.old }
    ensures loans { loans.new ≡ [] }
    ensures nothing_lent { memory.new.heap.table.lent ≡ [] }
{
    while let Some(Held { block, loan }) = loans.take_first() {
        memory.give_back(block, loan);
    }
}

/// Gives back the loans that are left, first to last, and hands out the memory, of which nothing is lent then.
pub fn finish(memory: MemoryManager, loans: Loans) -> MemoryManager
    requires { Holds memory loans }
    ensures heap { result.heap ≡ all_returned (loans_of loans) memory.heap }
    ensures shape { result.shape ≡ memory.shape }
    ensures nothing_lent { result.heap.table.lent ≡ [] }
{
    let mut memory = memory;
    let mut loans = loans;
    take_all_back(&mut memory, &mut loans);
    memory
}
