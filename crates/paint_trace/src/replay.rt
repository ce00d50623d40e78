//! A trace, replayed on the Memory Manager.

ghost use Rattle.std.specs.Prelude.{◌≡◌, ◌<◌, [], slice_index};
ghost use Rattle.mac_base.specs.MemoryStep.{MemoryStep};
ghost use Rattle.paint_trace.specs.Trace.{KeepsLocked, KeepsOthers, asks_of, call_of, outcome_of};

use crate::procedure::Procedure;
use crate::trace::{Action, BLOCK_COUNT, NoStep, Step, is_comment, step_of};
use mac_base::error::OsErr;
use mac_base::handle::Handle;
use mem_calls::MemoryManager;
use thiserror::Error;

/// How a trace went.
#[derive(Clone, Copy)]
pub(crate) struct Replayed {
    /// The steps that were made, refused or not.
    pub(crate) made: usize,
    /// Those that were refused.
    pub(crate) refused: usize,
}

/// A line of a trace that is no step.
#[derive(Clone, Copy, Debug, Error)]
#[error("line {line} of the trace is no step: {why}")]
pub(crate) struct BadLine {
    line: usize,
    why: NoStep,
}

/// Makes a step, on the handle that its block has so far. The handle of a new block is kept for the steps to come.
fn make(
    memory: &mut MemoryManager,
    procedure: &mut Procedure,
    handles: &mut [Handle; BLOCK_COUNT],
    step: Step,
) -> Result<(), OsErr>
    requires { step.block < BLOCK_COUNT }
    ensures step { MemoryStep memory.old.shape memory.old.heap (call_of (slice_index handles.old step.block) step.action)
        (asks_of procedure.new) (outcome_of (slice_index handles.new step.block) step.action result) memory.new.heap }
    ensures others { KeepsOthers handles.old memory.old.heap.table handles.new memory.new.heap.table }
    ensures lent { memory.new.heap.table.lent ≡ memory.old.heap.table.lent }
{
    *procedure = Procedure::without_cushion();
    let handle = handles[step.block];
    match step.action {
        Action::NewHandle(size) => {
            handles[step.block] = memory.new_handle(size, procedure)?;
            Ok(())
        }
        Action::SetHandleSize(size) => memory.set_handle_size(handle, size, procedure),
        Action::HLock => memory.hlock(handle),
        Action::HUnlock => memory.hunlock(handle),
        Action::HPurge => memory.hpurge(handle),
        Action::DisposeHandle => memory.dispose_handle(handle),
    }
}

/// Makes all steps of a trace, up to the first line that is none. What was locked before keeps its bytes: the trace has
/// no handle of it, and what is locked isn't purged for another's sake.
pub(crate) fn replay(memory: &mut MemoryManager, trace: &str) -> Result<Replayed, BadLine>
    requires nothing_lent { memory.old.heap.table.lent ≡ [] }
    ensures nothing_lent { memory.new.heap.table.lent ≡ [] }
    ensures locked { KeepsLocked memory.old.heap.table memory.new.heap.table }
{
    // The address of the first block says that the heap is sound.
    prove!(memory.first_block() > 0);
    let mut procedure = Procedure::without_cushion();
    let mut handles = [Handle::new(0); BLOCK_COUNT];
    let mut replayed = Replayed {
        made: 0,
        refused: 0,
    };
    for (index, line) in trace.lines().enumerate() {
        if is_comment(line) {
            continue;
        }
        let step = step_of(line).map_err(|why| BadLine {
            line: index + 1,
            why,
        })?;
        if make(memory, &mut procedure, &mut handles, step).is_err() {
            replayed.refused += 1;
        }
        replayed.made += 1;
    }
    Ok(replayed)
}
