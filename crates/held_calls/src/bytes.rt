//! The calls that show bytes of a block, or are given bytes for it.

ghost use Rattle.std.specs.Prelude.{◌≡◌, ◌+◌, ◌≤◌, length, None, Ok, Err, IfOk, IfErr, OnOk, OnErr, []};
ghost use Rattle.std.specs.Result.{result_err};
ghost use Rattle.mac_base.specs.BlockStatus.{status_of};
ghost use Rattle.mac_base.specs.declared.block.Status.{Status};
ghost use Rattle.mac_base.specs.HandleTable.{bytes_of};
ghost use Rattle.linked_zone.specs.Loans.{KeepsLoans};
ghost use Rattle.mac_base.specs.declared.memory_call.MemoryCall.TheVariants.{OnBlock, Showing};
ghost use Rattle.mac_base.specs.declared.memory_call.BlockCall.TheVariants.{Poke};
ghost use Rattle.mac_base.specs.declared.memory_call.ShowingCall.TheVariants.{Peek};
ghost use Rattle.mac_base.specs.declared.reply.Results.TheVariants as results;
ghost use Rattle.mac_base.specs.Tests.{refusal};
ghost use Rattle.held_calls.specs.Making.{MemorySteps};

use mac_base::bytes::Bytes;
use mac_base::error::{HostFull, OsErr};
use mac_base::{Outcome, Results};
use mem_calls::{MemoryManager, has_part};
use std::alloc::Global;

/// Peek: `count` bytes of a block, from an offset on. It is refused in this order: nilHandleErr where its number is 0,
/// memWZErr where no handle or pointer of that number is live, nilHandleErr where it is empty, memLockedErr where it is
/// lent, and paramErr where it has too few bytes.
pub fn peek(memory: &MemoryManager, block: u32, offset: u32, count: usize) -> Result<&[u8], OsErr>
    ensures step { IfOk result (λ bytes. MemorySteps memory.now (Showing (Peek block offset count)) [] (Ok (results.Bytes bytes.now)) memory.now) }
    ensures refused { IfErr result (λ code. MemorySteps memory.now (Showing (Peek block offset count)) [] (Err code) memory.now) }
    ensures refusal { result_err result ≡ refusal memory.now.shape memory.now.heap (Showing (Peek block offset count)) }
    ensures count { IfOk result (λ bytes. length bytes.now ≡ count) }
{
    test_part(memory, block, offset, count)?;
    let start = offset as usize;
    Ok(&memory.contents(block)[start..start + count])
}

/// Peek, with a copy of the bytes.
pub(crate) fn peek_copy(
    memory: &MemoryManager,
    alloc: Global,
    block: u32,
    offset: u32,
    count: u32,
) -> Result<Outcome, HostFull>
    ensures step { IfOk result (λ outcome. MemorySteps memory.now (Showing (Peek block offset count)) [] outcome memory.now) }
    ensures late { OnErr result (refusal memory.now.shape memory.now.heap (Showing (Peek block offset count)) ≡ None) }
{
    match peek(memory, block, offset, count as usize) {
        Ok(bytes) => {
            let bytes = Bytes::new(Vec::from_slice(alloc, bytes)?);
            Ok(Ok(Results::Bytes(bytes)))
        }
        Err(code) => Ok(Err(code)),
    }
}

/// Poke: writes bytes over those of a block, from an offset on. It is refused as Peek is.
pub(crate) fn poke(memory: &mut MemoryManager, block: u32, offset: u32, bytes: &[u8]) -> Outcome
    ensures step { MemorySteps memory.old (OnBlock (Poke block offset bytes.now)) [] result memory.new }
    ensures loans { KeepsLoans memory.old memory.new }
{
    test_part(memory, block, offset, bytes.len())?;
    let start = offset as usize;
    let contents = memory.contents_mut(block);
    contents[start..start + bytes.len()].copy_from_slice(bytes);
    Ok(Results::Nothing)
}

/// Tests a block for a call on `count` of its bytes from an offset on.
fn test_part(memory: &MemoryManager, block: u32, offset: u32, count: usize) -> Result<(), OsErr>
    ensures refusal { result_err result ≡ refusal memory.now.shape memory.now.heap (Showing (Peek block offset count)) }
    ensures full { OnOk result (status_of memory.now.heap.table block ≡ Status.Full) }
    ensures within { OnOk result (offset + count ≤ length (bytes_of memory.now.heap.table block)) }
{
    memory.test_block_here(block)?;
    if has_part(memory.contents(block).len(), offset as usize, count) {
        Ok(())
    } else {
        Err(OsErr::ParamErr)
    }
}
