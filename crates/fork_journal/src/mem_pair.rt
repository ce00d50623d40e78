//! A fork and its journal in memory, with a record of what was done to them.

ghost use Rattle.std.specs.Prelude.{◌≡◌, ◌≤◌, ⊤, [], ◌∷◌, ◌++◌, ◌+◌, length, take, IfOk, OnOk, OnErr};
ghost use Rattle.fork_disk.specs.Disk.{put_at, Rose};
ghost use Rattle.fork_journal.specs.Crash.{Found};
ghost use Rattle.fork_journal.specs.Record.{after_calls, found};
ghost use Rattle.fork_journal.specs.Outcome.{read_outcome};

use crate::pair::{PairDisk, Side};
use fork_disk::disk::DiskFault;
use std::alloc::{AllocError, Global};

/// A call that changed a pair, or made a side of it stable.
#[derive(Drop)]
pub enum Call {
    /// These bytes were written to a side, from this offset on.
    Write(Side, u64, Vec<u8>),
    /// A side was cut to this length.
    Cut(Side, u64),
    /// A side was synced.
    Sync(Side),
}

/// A pair in memory. It is honest, and fails only where the host refuses it memory, for a growth or for its record;
/// then nothing has changed.
#[derive(Drop)]
pub struct MemPair {
    alloc: Global,
    first_fork: Vec<u8>,
    first_journal: Vec<u8>,
    calls: Vec<Call>,
    fork: Vec<u8>,
    journal: Vec<u8>,
    failures: u64,
    ghost fork_is: { fork.items ≡ (after_calls calls.items (found first_fork.items first_journal.items)).contents.fork },
    ghost journal_is: { journal.items ≡ (after_calls calls.items (found first_fork.items first_journal.items)).contents.journal },
}

impl MemPair {
    /// A pair that a start finds with these bytes.
    pub fn new(alloc: Global, fork: Vec<u8>, journal: Vec<u8>) -> Result<MemPair, AllocError>
        ensures fork { IfOk result (λ pair. pair.fork.items ≡ fork.items) }
        ensures journal { IfOk result (λ pair. pair.journal.items ≡ journal.items) }
        ensures start { IfOk result (λ pair. (after_calls pair.calls.items (found pair.first_fork.items pair.first_journal.items)).history
            ≡ Found (record { fork = pair.fork.items; journal = pair.journal.items }) ∷ []) }
    {
        Ok(MemPair {
            alloc,
            first_fork: fork.clone()?,
            first_journal: journal.clone()?,
            calls: Vec::new(alloc),
            fork,
            journal,
            failures: 0,
        })
    }

    /// The fork's bytes, first to last.
    pub fn fork(&self) -> &[u8]
        ensures { result.now ≡ self.now.fork.items }
    {
        &self.fork
    }

    /// The journal's bytes, first to last.
    pub fn journal(&self) -> &[u8]
        ensures { result.now ≡ self.now.journal.items }
    {
        &self.journal
    }

    /// The calls since the start, first to last.
    pub fn calls(&self) -> &[Call]
        ensures { result.now ≡ self.now.calls.items }
    {
        &self.calls
    }

    /// The fork's bytes at the start.
    pub(crate) fn first_fork(&self) -> &[u8]
        ensures { result.now ≡ self.now.first_fork.items }
    {
        &self.first_fork
    }

    /// The journal's bytes at the start.
    pub(crate) fn first_journal(&self) -> &[u8]
        ensures { result.now ≡ self.now.first_journal.items }
    {
        &self.first_journal
    }

    /// Counts a failure.
    fn fail(&mut self) -> DiskFault
        ensures rose { Rose self.old.failures self.new.failures }
        ensures fork { self.new.fork.items ≡ self.old.fork.items }
        ensures journal { self.new.journal.items ≡ self.old.journal.items }
        ensures calls { self.new.calls.items ≡ self.old.calls.items }
        ensures first_fork { self.new.first_fork.items ≡ self.old.first_fork.items }
        ensures first_journal { self.new.first_journal.items ≡ self.old.first_journal.items }
    {
        self.failures = self.failures.saturating_add(1);
        DiskFault
    }
}

/// Adds a call to the record.
fn remember(calls: &mut Vec<Call>, call: Call) -> Result<(), AllocError>
    ensures ok { OnOk result (calls.new.items ≡ calls.old.items ++ call ∷ []) }
    ensures err { OnErr result (calls.new.items ≡ calls.old.items) }
{
    calls.push(call)?;
    Ok(())
}

/// What is there once these bytes are put at an offset, over what was there and past the end.
pub(crate) fn overwritten(
    alloc: Global,
    old: &[u8],
    at: usize,
    bytes: &[u8],
) -> Result<Vec<u8>, AllocError>
    requires { at ≤ length old.now }
    ensures { IfOk result (λ next. next.items ≡ put_at at bytes.now old.now) }
{
    let mut next = old[..at].to_vec(alloc)?;
    next.extend_from_slice(bytes)?;
    if bytes.len() < old.len() - at {
        next.extend_from_slice(&old[at + bytes.len()..])?;
    }
    Ok(next)
}

/// Writes one side, and keeps a record of it.
fn write_side(
    alloc: Global,
    calls: &mut Vec<Call>,
    old: &mut Vec<u8>,
    side: Side,
    at: u64,
    bytes: &[u8],
) -> Result<(), AllocError>
    requires { at ≤ length old.old.items }
    ensures written { OnOk result (old.new.items ≡ put_at at bytes.now old.old.items) }
    ensures recorded { OnOk result ((copy : _) × (copy.items ≡ bytes.now) × (calls.new.items ≡ calls.old.items ++ Call.Write side at copy ∷ [])) }
    ensures unwritten { OnErr result (old.new.items ≡ old.old.items) }
    ensures unrecorded { OnErr result (calls.new.items ≡ calls.old.items) }
{
    let next = overwritten(alloc, old, at as usize, bytes)?;
    let copy = bytes.to_vec(alloc)?;
    remember(calls, Call::Write(side, at, copy))?;
    *old = next;
    Ok(())
}

impl PairDisk for MemPair {
    ghost contents = { λ m. record { fork = m.fork.items; journal = m.journal.items } };

    ghost history = { λ m. (after_calls m.calls.items (found m.first_fork.items m.first_journal.items)).history };

    ghost is_honest = { λ _. ⊤ };

    ghost failures = { λ m. m.failures };

    ghost reads_is_outcome = { λ m honest. read_outcome m.first_fork.items m.first_journal.items m.fork.items m.journal.items m.calls.items m.fork_is m.journal_is };

    fn len(&mut self, side: Side) -> Result<u64, DiskFault> {
        match side {
            Side::Fork => Ok(self.fork.len() as u64),
            Side::Journal => Ok(self.journal.len() as u64),
        }
    }

    fn read_at(&mut self, side: Side, at: u64, buffer: &mut [u8]) -> Result<(), DiskFault> {
        let start = at as usize;
        match side {
            Side::Fork => buffer.copy_from_slice(&self.fork[start..start + buffer.len()]),
            Side::Journal => buffer.copy_from_slice(&self.journal[start..start + buffer.len()]),
        }
        Ok(())
    }

    /// Writes over what is there, and past the end. Where the host has no memory for it, nothing has changed.
    fn write_at(&mut self, side: Side, at: u64, bytes: &[u8]) -> Result<(), DiskFault> {
        match side {
            Side::Fork => match write_side(
                self.alloc,
                &mut self.calls,
                &mut self.fork,
                side,
                at,
                bytes,
            ) {
                Ok(()) => Ok(()),
                Err(AllocError) => Err(self.fail()),
            },
            Side::Journal => match write_side(
                self.alloc,
                &mut self.calls,
                &mut self.journal,
                side,
                at,
                bytes,
            ) {
                Ok(()) => Ok(()),
                Err(AllocError) => Err(self.fail()),
            },
        }
    }

    fn cut(&mut self, side: Side, len: u64) -> Result<(), DiskFault> {
        let Ok(()) = remember(&mut self.calls, Call::Cut(side, len)) else {
            return Err(self.fail());
        };
        match side {
            Side::Fork => self.fork.truncate(len as usize),
            Side::Journal => self.journal.truncate(len as usize),
        }
        Ok(())
    }

    fn sync(&mut self, side: Side) -> Result<(), DiskFault> {
        let Ok(()) = remember(&mut self.calls, Call::Sync(side)) else {
            return Err(self.fail());
        };
        Ok(())
    }
}
