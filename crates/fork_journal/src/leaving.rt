//! What a crash leaves of one side, by choices.

ghost use Rattle.std.specs.Prelude.{◌≡◌, ◌+◌, ◌≤◌, true, length, IfOk, OnOk};
ghost use Rattle.fork_disk.specs.Disk.{Torn, CutShort};
ghost use Rattle.fork_journal.specs.Leaving.{is_on, read_then, range_by, write_by, cut_by, call_by, left_by, IsLeft, AreLeft};

use crate::mem_pair::{Call, overwritten};
use crate::pair::Side;
use std::alloc::{AllocError, Global};

/// What is there after a crash, in the range of a write or past a cut.
#[derive(Clone, Copy, PartialEq, Eq)]
pub enum Fate {
    /// What was there before the call, and zeros where nothing was.
    Lost,
    /// What the call put there; past a cut, what was there before it.
    Kept,
    /// The value $FF.
    Filled,
}

/// What a crash leaves of one call that no sync followed.
#[derive(Clone, Copy)]
pub struct Choice {
    /// The bytes of its range.
    pub fate: Fate,
    /// Its length is the one after the call, and else the one before it.
    pub has_new_length: bool,
}

impl Choice {
    /// The call was done whole.
    pub const WHOLE: Choice = Choice {
        fate: Fate::Kept,
        has_new_length: true,
    };
}

/// One side as reads give it, and as a crash leaves it.
#[derive(Drop)]
struct Replayed {
    read: Vec<u8>,
    left: Vec<u8>,
}

/// Whether a call was one of this side.
fn is_call_on(side: Side, call: &Call) -> bool
    ensures { result ≡ is_on side call.now }
{
    match (side, call) {
        (
            Side::Fork,
            Call::Write(Side::Fork, ..) | Call::Cut(Side::Fork, _) | Call::Sync(Side::Fork),
        ) => true,
        (
            Side::Journal,
            Call::Write(Side::Journal, ..)
            | Call::Cut(Side::Journal, _)
            | Call::Sync(Side::Journal),
        ) => true,
        _ => false,
    }
}

/// The bytes in the range of a write that begins within the old bytes.
fn range_left(
    alloc: Global,
    old: &[u8],
    at: usize,
    bytes: &[u8],
    fate: Fate,
) -> Result<Vec<u8>, AllocError>
    requires { at ≤ length old.now }
    ensures { IfOk result (λ left. left.items ≡ range_by fate at bytes.now old.now) }
{
    match fate {
        Fate::Kept => bytes.to_vec(alloc),
        Fate::Filled => Ok(vec![in alloc; 0xFF; bytes.len()]?),
        Fate::Lost => {
            let count = bytes.len().min(old.len() - at);
            let mut left = old[at..at + count].to_vec(alloc)?;
            left.resize(bytes.len(), 0)?;
            Ok(left)
        }
    }
}

/// What is left of a write. Where the bytes before it are lost, so is the write.
fn write_left(
    alloc: Global,
    old: &[u8],
    at: usize,
    bytes: &[u8],
    choice: Choice,
) -> Result<Vec<u8>, AllocError>
    ensures torn { IfOk result (λ left. Torn at (length bytes.now) old.now left.items) }
    ensures left { IfOk result (λ left. left.items ≡ write_by choice at bytes.now old.now) }
{
    if at > old.len() {
        return old.to_vec(alloc);
    }
    let range = range_left(alloc, old, at, bytes, choice.fate)?;
    let mut left = overwritten(alloc, old, at, &range)?;
    if !choice.has_new_length {
        left.truncate(old.len());
    }
    Ok(left)
}

/// What is left of a cut.
fn cut_left(alloc: Global, old: &[u8], len: usize, choice: Choice) -> Result<Vec<u8>, AllocError>
    ensures short { IfOk result (λ left. CutShort len old.now left.items) }
    ensures left { IfOk result (λ left. left.items ≡ cut_by choice len old.now) }
{
    let mut left = old.to_vec(alloc)?;
    if choice.has_new_length {
        left.truncate(len);
    } else if choice.fate == Fate::Filled {
        left.truncate(len);
        left.resize(old.len(), 0xFF)?;
    }
    Ok(left)
}

/// One call more of a side.
fn follow(alloc: Global, now: &mut Replayed, call: &Call, choice: Choice) -> Result<(), AllocError>
    ensures read { OnOk result (now.new.read.items ≡ read_then call.now now.old.read.items) }
    ensures left { OnOk result (IsLeft call.now now.old.read.items now.old.left.items now.new.left.items) }
    ensures by_choice { OnOk result (now.new.left.items ≡ call_by call.now choice now.old.read.items now.old.left.items) }
{
    match call {
        Call::Write(_, at, bytes) => {
            now.left = write_left(alloc, &now.left, *at as usize, bytes, choice)?;
            if *at as usize <= now.read.len() {
                now.read = overwritten(alloc, &now.read, *at as usize, bytes)?;
            }
        }
        Call::Cut(_, len) => {
            now.left = cut_left(alloc, &now.left, *len as usize, choice)?;
            now.read.truncate(*len as usize);
        }
        Call::Sync(_) => now.left = now.read.clone()?,
    }
    Ok(())
}

/// What is left of a side that had these bytes at first, by a choice for each call. A call without one was done whole.
pub(crate) fn side_left(
    alloc: Global,
    side: Side,
    first: &[u8],
    calls: &[Call],
    choices: &[Choice],
) -> Result<Vec<u8>, AllocError>
    ensures possible { IfOk result (λ left. AreLeft side calls.now first.now first.now left.items) }
    ensures left { IfOk result (λ left. left.items ≡ left_by side calls.now choices.now first.now first.now) }
{
    let mut now = Replayed {
        read: first.to_vec(alloc)?,
        left: first.to_vec(alloc)?,
    };
    for (index, call) in calls.iter().enumerate() {
        if is_call_on(side, call) {
            let choice = choices.get(index).copied().unwrap_or(Choice::WHOLE);
            follow(alloc, &mut now, call, choice)?;
        }
    }
    Ok(now.left)
}
