//! A pair that stops, as a machine does when its power goes.

ghost use Rattle.std.specs.Prelude.{◌≡◌, ◌+◌, ◌-◌, ◌≤◌, ◌↔◌, [], ◌∷◌, length, IfOk, IsErr};
ghost use Rattle.fork_disk.specs.Disk.{Counts};
ghost use Rattle.fork_journal.specs.Crash.{Found, MayLeave, side_of};
ghost use Rattle.fork_journal.specs.declared.pair.Side.TheVariants.{Fork, Journal};
ghost use Rattle.fork_journal.specs.Leaving.{left_by};
ghost use Rattle.fork_journal.specs.Record.{after_calls, found};
ghost use Rattle.fork_journal.specs.OnPair.{MeasuresSide, ReadsSide, WritesSide, CutsSide, SyncsSide};
ghost use Rattle.fork_journal.specs.Stopping.{stopping_contents, stopping_history, FailsStopped, IsStoppingHonest};
ghost use Rattle.fork_journal.specs.Outcome.{read_outcome};

use crate::leaving::{Choice, side_left};
use crate::mem_pair::MemPair;
use crate::pair::{PairDisk, Side};
use fork_disk::disk::DiskFault;
use std::alloc::{AllocError, Global};

/// A pair in memory that stops after its n-th write, cut or sync. Each call from then on fails, is counted and changes
/// nothing. `outcome` then returns what a crash at that moment leaves, as a test picks it.
#[derive(Drop)]
pub struct CrashPair {
    pair: MemPair,
    calls_left: u64,
    refusals: u64,
}

impl CrashPair {
    /// A pair that stops after so many writes, cuts and syncs.
    pub fn new(pair: MemPair, calls: u64) -> CrashPair
        ensures pair { result.pair ≡ pair }
        ensures calls_left { result.calls_left ≡ calls }
    {
        CrashPair {
            pair,
            calls_left: calls,
            refusals: 0,
        }
    }

    /// The pair inside.
    pub fn pair(&self) -> &MemPair
        ensures { result.now ≡ self.now.pair }
    {
        &self.pair
    }

    /// What a start finds after a crash now, by a choice for each call of the record, from the first on. A call without
    /// one was done whole, and of a call that a sync of its side follows the choice says nothing.
    pub fn outcome(&self, alloc: Global, choices: &[Choice]) -> Result<MemPair, AllocError>
        ensures left { IfOk result (λ left. MayLeave (after_calls self.now.pair.calls.items (found self.now.pair.first_fork.items self.now.pair.first_journal.items)).history
            (record { fork = left.fork.items; journal = left.journal.items })) }
        ensures fork { IfOk result (λ left. left.fork.items
            ≡ left_by Fork self.now.pair.calls.items choices.now self.now.pair.first_fork.items self.now.pair.first_fork.items) }
        ensures journal { IfOk result (λ left. left.journal.items
            ≡ left_by Journal self.now.pair.calls.items choices.now self.now.pair.first_journal.items self.now.pair.first_journal.items) }
        ensures start { IfOk result (λ left. (after_calls left.calls.items (found left.first_fork.items left.first_journal.items)).history
            ≡ Found (record { fork = left.fork.items; journal = left.journal.items }) ∷ []) }
    {
        let fork = side_left(
            alloc,
            Side::Fork,
            self.pair.first_fork(),
            self.pair.calls(),
            choices,
        )?;
        let journal = side_left(
            alloc,
            Side::Journal,
            self.pair.first_journal(),
            self.pair.calls(),
            choices,
        )?;
        MemPair::new(alloc, fork, journal)
    }

    /// Fails a read where the pair has stopped.
    fn look(&mut self) -> Result<(), DiskFault>
        ensures pair { self.new.pair ≡ self.old.pair }
        ensures calls_left { self.new.calls_left ≡ self.old.calls_left }
        ensures stopped { IsErr result ↔ (self.old.calls_left ≡ 0) }
        ensures cause { Counts self.old.refusals self.new.refusals result }
    {
        if self.calls_left == 0 {
            self.refusals = self.refusals.saturating_add(1);
            return Err(DiskFault);
        }
        Ok(())
    }

    /// Fails a write, a cut or a sync where the pair has stopped, and counts it down else.
    fn go(&mut self) -> Result<(), DiskFault>
        ensures pair { self.new.pair ≡ self.old.pair }
        ensures counted { self.new.calls_left ≡ self.old.calls_left - 1 }
        ensures stopped { IsErr result ↔ (self.old.calls_left ≡ 0) }
        ensures cause { Counts self.old.refusals self.new.refusals result }
    {
        self.look()?;
        self.calls_left -= 1;
        Ok(())
    }
}

impl PairDisk for CrashPair {
    ghost contents = { stopping_contents };

    ghost history = { stopping_history };

    ghost is_honest = { IsStoppingHonest };

    ghost failures = { λ c. c.pair.failures + c.refusals };

    ghost reads_is_outcome = { λ c honest. read_outcome c.pair.first_fork.items c.pair.first_journal.items c.pair.fork.items c.pair.journal.items c.pair.calls.items c.pair.fork_is c.pair.journal_is };

    fn len(&mut self, side: Side) -> Result<u64, DiskFault>
        ensures measures { MeasuresSide stopping_contents stopping_history IsStoppingHonest self.old self.new side result }
        ensures cause { Counts (self.old.pair.failures + self.old.refusals) (self.new.pair.failures + self.new.refusals) result }
        ensures stopped { FailsStopped self.old self.new result }
        ensures left { self.new.calls_left ≡ self.old.calls_left }
    {
        self.look()?;
        self.pair.len(side)
    }

    fn read_at(&mut self, side: Side, at: u64, buffer: &mut [u8]) -> Result<(), DiskFault>
        requires { at + length buffer.old ≤ length (side_of side (stopping_contents self.old)) }
        ensures reads { ReadsSide stopping_contents stopping_history IsStoppingHonest self.old self.new side at buffer.old buffer.new result }
        ensures cause { Counts (self.old.pair.failures + self.old.refusals) (self.new.pair.failures + self.new.refusals) result }
        ensures stopped { FailsStopped self.old self.new result }
        ensures left { self.new.calls_left ≡ self.old.calls_left }
    {
        self.look()?;
        self.pair.read_at(side, at, buffer)
    }

    fn write_at(&mut self, side: Side, at: u64, bytes: &[u8]) -> Result<(), DiskFault>
        requires { at ≤ length (side_of side (stopping_contents self.old)) }
        ensures writes { WritesSide stopping_contents stopping_history IsStoppingHonest self.old self.new side at bytes.now result }
        ensures cause { Counts (self.old.pair.failures + self.old.refusals) (self.new.pair.failures + self.new.refusals) result }
        ensures stopped { FailsStopped self.old self.new result }
        ensures left { self.new.calls_left ≡ self.old.calls_left - 1 }
    {
        self.go()?;
        self.pair.write_at(side, at, bytes)
    }

    fn cut(&mut self, side: Side, len: u64) -> Result<(), DiskFault>
        requires { len ≤ length (side_of side (stopping_contents self.old)) }
        ensures cuts { CutsSide stopping_contents stopping_history IsStoppingHonest self.old self.new side len result }
        ensures cause { Counts (self.old.pair.failures + self.old.refusals) (self.new.pair.failures + self.new.refusals) result }
        ensures stopped { FailsStopped self.old self.new result }
        ensures left { self.new.calls_left ≡ self.old.calls_left - 1 }
    {
        self.go()?;
        self.pair.cut(side, len)
    }

    fn sync(&mut self, side: Side) -> Result<(), DiskFault>
        ensures syncs { SyncsSide stopping_contents stopping_history IsStoppingHonest self.old self.new side result }
        ensures cause { Counts (self.old.pair.failures + self.old.refusals) (self.new.pair.failures + self.new.refusals) result }
        ensures stopped { FailsStopped self.old self.new result }
        ensures left { self.new.calls_left ≡ self.old.calls_left - 1 }
    {
        self.go()?;
        self.pair.sync(side)
    }
}
