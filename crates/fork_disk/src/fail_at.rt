//! A disk that fails once.

ghost use Rattle.std.specs.Prelude.{◌≡◌, ◌+◌, ◌≤◌, ◌↔◌, length, IsErr};
ghost use Rattle.fork_disk.specs.Disk.{Counts};
ghost use Rattle.fork_disk.specs.Calls.{next_call};
ghost use Rattle.fork_disk.specs.OnDisk.{MeasuresDisk, ReadsDisk, WritesDisk, CutsDisk, SyncsDisk};

use crate::disk::{DiskFault, ForkDisk};
use crate::failures::Failures;

/// A disk whose n-th call fails, to try what is built on it. That call is counted as a failure and changes nothing; all
/// others are the calls of the disk inside.
#[derive(Debug, Drop)]
pub struct FailAt<D> {
    disk: D,
    turn: u64,
    calls: u64,
    failures: Failures,
}

impl<D: ForkDisk> FailAt<D> {
    /// A disk whose call of this number fails, where the first is 1. With 0 none does.
    pub fn new(disk: D, turn: u64) -> FailAt<D>
        ensures disk { result.disk ≡ disk }
        ensures turn { result.turn ≡ turn }
        ensures calls { result.calls ≡ 0 }
    {
        FailAt {
            disk,
            turn,
            calls: 0,
            failures: Failures::new(),
        }
    }

    /// How many calls were made, the one that failed among them.
    pub fn calls(&self) -> u64
        ensures { result ≡ self.now.calls }
    {
        self.calls
    }

    /// The disk inside.
    pub fn disk(&self) -> &D
        ensures { result.now ≡ self.now.disk }
    {
        &self.disk
    }

    /// Counts a call, and fails it if its turn has come.
    fn admit(&mut self) -> Result<(), DiskFault>
        ensures counted { self.new.calls ≡ next_call self.old.calls }
        ensures turn { IsErr result ↔ (self.new.calls ≡ self.old.turn) }
        ensures disk { self.new.disk ≡ self.old.disk }
        ensures same_turn { self.new.turn ≡ self.old.turn }
        ensures cause { Counts self.old.failures self.new.failures result }
    {
        self.calls = self.calls.saturating_add(1);
        if self.calls == self.turn {
            return Err(self.failures.count());
        }
        Ok(())
    }
}

impl<D: ForkDisk> ForkDisk for FailAt<D> {
    ghost seen = { λ s. D.seen s.disk };

    ghost is_honest = { λ s. D.is_honest s.disk };

    ghost is_stable = { λ s. D.is_stable s.disk };

    ghost failures = { λ s. D.failures s.disk + s.failures };

    fn len(&mut self) -> Result<u64, DiskFault>
        ensures measures { D.is_honest self.new.disk → MeasuresDisk D.seen D.is_honest D.is_stable self.old.disk self.new.disk result }
        ensures cause { Counts (D.failures self.old.disk + self.old.failures) (D.failures self.new.disk + self.new.failures) result }
        ensures calls { self.new.calls ≡ next_call self.old.calls }
        ensures turn { next_call self.old.calls ≡ self.old.turn → IsErr result × (self.new.disk ≡ self.old.disk) }
        ensures others { ¬ (next_call self.old.calls ≡ self.old.turn) → self.new.failures ≡ self.old.failures }
        ensures same_turn { self.new.turn ≡ self.old.turn }
    {
        self.admit()?;
        self.disk.len()
    }

    fn read_at(&mut self, at: u64, buffer: &mut [u8]) -> Result<(), DiskFault>
        requires { D.is_honest self.old.disk → at + length buffer.old ≤ length (D.seen self.old.disk) }
        ensures reads { D.is_honest self.new.disk → ReadsDisk D.seen D.is_honest D.is_stable self.old.disk self.new.disk at buffer.old buffer.new result }
        ensures cause { Counts (D.failures self.old.disk + self.old.failures) (D.failures self.new.disk + self.new.failures) result }
        ensures calls { self.new.calls ≡ next_call self.old.calls }
        ensures turn { next_call self.old.calls ≡ self.old.turn → IsErr result × (self.new.disk ≡ self.old.disk) }
        ensures others { ¬ (next_call self.old.calls ≡ self.old.turn) → self.new.failures ≡ self.old.failures }
        ensures same_turn { self.new.turn ≡ self.old.turn }
    {
        self.admit()?;
        self.disk.read_at(at, buffer)
    }

    fn write_at(&mut self, at: u64, bytes: &[u8]) -> Result<(), DiskFault>
        requires { D.is_honest self.old.disk → at ≤ length (D.seen self.old.disk) }
        ensures writes { D.is_honest self.new.disk → WritesDisk D.seen D.is_honest D.is_stable self.old.disk self.new.disk at bytes.now result }
        ensures cause { Counts (D.failures self.old.disk + self.old.failures) (D.failures self.new.disk + self.new.failures) result }
        ensures calls { self.new.calls ≡ next_call self.old.calls }
        ensures turn { next_call self.old.calls ≡ self.old.turn → IsErr result × (self.new.disk ≡ self.old.disk) }
        ensures others { ¬ (next_call self.old.calls ≡ self.old.turn) → self.new.failures ≡ self.old.failures }
        ensures same_turn { self.new.turn ≡ self.old.turn }
    {
        self.admit()?;
        self.disk.write_at(at, bytes)
    }

    fn cut(&mut self, len: u64) -> Result<(), DiskFault>
        requires { D.is_honest self.old.disk → len ≤ length (D.seen self.old.disk) }
        ensures cuts { D.is_honest self.new.disk → CutsDisk D.seen D.is_honest D.is_stable self.old.disk self.new.disk len result }
        ensures cause { Counts (D.failures self.old.disk + self.old.failures) (D.failures self.new.disk + self.new.failures) result }
        ensures calls { self.new.calls ≡ next_call self.old.calls }
        ensures turn { next_call self.old.calls ≡ self.old.turn → IsErr result × (self.new.disk ≡ self.old.disk) }
        ensures others { ¬ (next_call self.old.calls ≡ self.old.turn) → self.new.failures ≡ self.old.failures }
        ensures same_turn { self.new.turn ≡ self.old.turn }
    {
        self.admit()?;
        self.disk.cut(len)
    }

    fn sync(&mut self) -> Result<(), DiskFault>
        ensures syncs { D.is_honest self.new.disk → SyncsDisk D.seen D.is_honest D.is_stable self.old.disk self.new.disk result }
        ensures cause { Counts (D.failures self.old.disk + self.old.failures) (D.failures self.new.disk + self.new.failures) result }
        ensures calls { self.new.calls ≡ next_call self.old.calls }
        ensures turn { next_call self.old.calls ≡ self.old.turn → IsErr result × (self.new.disk ≡ self.old.disk) }
        ensures others { ¬ (next_call self.old.calls ≡ self.old.turn) → self.new.failures ≡ self.old.failures }
        ensures same_turn { self.new.turn ≡ self.old.turn }
    {
        self.admit()?;
        self.disk.sync()
    }
}
