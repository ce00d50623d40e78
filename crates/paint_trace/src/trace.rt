//! A trace: what a program asked of its heap, one step a line.

ghost use Rattle.std.specs.Prelude.{◌<◌, IfOk};

use std::str::SplitWhitespace;
use thiserror::Error;

/// How many blocks a trace may name.
pub(crate) const BLOCK_COUNT: usize = 32;

/// What a step asks for its block. Sizes are bytes.
#[derive(Clone, Copy)]
pub(crate) enum Action {
    NewHandle(u32),
    SetHandleSize(u32),
    HLock,
    HUnlock,
    HPurge,
    DisposeHandle,
}

/// A step of a trace. Its block goes by the number that the trace gives it.
#[derive(Clone, Copy)]
pub(crate) struct Step {
    pub(crate) block: usize,
    pub(crate) action: Action,
}

/// Why a line is no step.
#[derive(Clone, Copy, Debug, Error)]
pub(crate) enum NoStep {
    #[error("no call of a trace has this name")]
    Call,
    #[error("the number of a block is missing, or is too large")]
    Block,
    #[error("the number of bytes is missing")]
    Size,
    #[error("there is a word too many")]
    MoreWords,
}

/// Whether a line of a trace names no step: it is blank, or a comment that begins with `#`.
pub(crate) fn is_comment(line: &str) -> bool {
    let line = line.trim();
    line.is_empty() || line.starts_with('#')
}

/// The step that a line names: a call's name, the number of a block, and bytes where the call takes them.
pub(crate) fn step_of(line: &str) -> Result<Step, NoStep>
    ensures block { IfOk result (λ step. step.block < BLOCK_COUNT) }
{
    let mut words = line.split_whitespace();
    let name = words.next().ok_or(NoStep::Call)?;
    let block = next_block(&mut words)?;
    let action = match name {
        "NewHandle" => Action::NewHandle(next_size(&mut words)?),
        "SetHandleSize" => Action::SetHandleSize(next_size(&mut words)?),
        "HLock" => Action::HLock,
        "HUnlock" => Action::HUnlock,
        "HPurge" => Action::HPurge,
        "DisposeHandle" => Action::DisposeHandle,
        _ => return Err(NoStep::Call),
    };
    match words.next() {
        None => Ok(Step { block, action }),
        Some(_) => Err(NoStep::MoreWords),
    }
}

/// The block that a step names.
fn next_block(words: &mut SplitWhitespace<'_>) -> Result<usize, NoStep>
    ensures { IfOk result (λ block. block < BLOCK_COUNT) }
{
    let word = words.next().ok_or(NoStep::Block)?;
    let block = word.parse::<usize>().map_err(|_| NoStep::Block)?;
    if block < BLOCK_COUNT {
        Ok(block)
    } else {
        Err(NoStep::Block)
    }
}

/// The bytes that a step asks for, after its block.
fn next_size(words: &mut SplitWhitespace<'_>) -> Result<u32, NoStep> {
    let word = words.next().ok_or(NoStep::Size)?;
    word.parse::<u32>().map_err(|_| NoStep::Size)
}
