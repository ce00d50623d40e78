//! Where the fork of a resource file is kept.

ghost use Rattle.std.specs.Prelude.{◌≡◌, ◌<◌, ◌^◌, ⊤, List, [], ℕ, length};
ghost use Rattle.fork_disk.specs.Crash.{Finds};
ghost use Rattle.fork_disk.specs.Disk.{Counts};
ghost use Rattle.fork_disk.specs.Faults.{CountsDevice};
ghost use Rattle.fork_disk.specs.Fork.{IsPartly};
ghost use Rattle.fork_disk.specs.OnStore.{CanRead, RecoversFork, MeasuresFork, ReadsFork, ReplacesFork};

use crate::disk::{DiskFault, ForkDisk};
use crate::faults::RecoverFault;
use crate::update::replace;
use thiserror::Error;

/// When the device failed, so that a fork wasn't replaced.
#[derive(Clone, Copy, Debug, PartialEq, Eq, Error)]
pub enum ReplaceFault {
    /// Before the first write: the old fork is there.
    #[error("the device failed before anything was written")]
    BeforeFirstWrite,
    /// In the first write or later: the store says what may be there.
    #[error("the device failed while the fork was written")]
    Later,
}

/// A fork that is read, and replaced as a whole. What is promised of bytes holds where the device is honest after the
/// call, and so was before it.
pub trait ForkStore {
    /// The bytes of the fork, where the device is honest.
    ghost fork: { Self → List ℕ };

    /// The fork can be read and replaced: no replacement has failed since it was made whole.
    ghost is_ready: { Self → Type 0 };

    /// A crash would leave this fork.
    ghost is_stable: { Self → Type 0 };

    /// The device returns what was written, and nobody else writes it.
    ghost is_honest: { Self → Type 0 };

    /// How often the device has failed.
    ghost failures: { Self → ℕ };

    /// What a replacement may leave that failed after its first write: by the new fork and the old one.
    ghost may_leave: { List ℕ → List ℕ → List ℕ → Type 0 };

    /// The store has a journal: what is said of crashes binds it.
    ghost has_journal: { Type 0 };

    /// What may happen to the device, of which a crash may undo some.
    ghost Event: { Type 0 };

    /// What happened to the device since a start, the last event first.
    ghost history: { Self → List Event };

    /// The forks that a start may find where a crash came after such a history, once the store was made ready.
    ghost may_find: { List Event → List ℕ → Type 0 };

    /// How many bytes of a fork a recovery copies by way of the host's memory.
    ghost copied: { Self → ℕ };

    /// Where a store is ready, a start finds the fork that is read.
    ghost ready_finds: { (store : Self) → has_journal → is_honest store → is_ready store → Finds may_find (λ found. found ≡ fork store) (history store) };

    /// Makes the fork ready: a store with a journal finishes, or drops, what a crash or a failed replacement left. The
    /// fork is the same. Whenever a crash comes, a start finds a fork that it might have found before. The host's
    /// memory is asked for only where a fork is copied.
    fn recover(&mut self) -> Result<(), RecoverFault>
        ensures recovers { is_honest self.new → RecoversFork fork is_ready is_stable is_honest history self.old self.new may_find copied result }
        ensures cause { CountsDevice (failures self.old) (failures self.new) result };

    /// How many bytes the fork has.
    fn len(&mut self) -> Result<u64, DiskFault>
        requires { is_honest self.old → is_ready self.old }
        ensures measures { is_honest self.new → MeasuresFork fork is_ready is_stable is_honest history self.old self.new result }
        ensures cause { Counts (failures self.old) (failures self.new) result };

    /// Fills the buffer with the fork's bytes at an offset. After a fault the buffer holds any bytes.
    fn read_at(&mut self, at: u64, buffer: &mut [u8]) -> Result<(), DiskFault>
        requires { is_honest self.old → CanRead fork is_ready self.old at (length buffer.old) }
        ensures reads { is_honest self.new → ReadsFork fork is_ready is_stable is_honest history self.old self.new at buffer.old buffer.new result }
        ensures cause { Counts (failures self.old) (failures self.new) result };

    /// Puts another fork, whose length four bytes hold, in the place of the one that is there. Where it succeeds, a
    /// crash leaves the new one. Whenever a crash comes, a start finds a fork that it might have found before, or the
    /// new one.
    fn replace(&mut self, new: &[u8]) -> Result<(), ReplaceFault>
        requires ready { is_honest self.old → is_ready self.old }
        requires short { length new.now < 2 ^ 32 }
        ensures replaces { is_honest self.new → ReplacesFork fork is_ready is_stable is_honest history self.old self.new may_leave may_find
            ReplaceFault.BeforeFirstWrite ReplaceFault.Later new.now result }
        ensures cause { Counts (failures self.old) (failures self.new) result };

    /// A crash leaves something: a start may find the fork that is there now.
    ghost crash_leaves: { (store : Self) → has_journal → is_honest store → may_find (history store) (fork store) };

    /// Where a crash would leave a store's fork, a start finds no other.
    ghost stable_finds: { (store : Self) → has_journal → is_honest store → is_stable store → Finds may_find (λ found. found ≡ fork store) (history store) };
}

/// A fork on a disk of its own.
#[derive(Debug, Drop)]
pub struct PlainStore<D> {
    pub disk: D,
}

impl<D: ForkDisk> ForkStore for PlainStore<D> {
    ghost fork = { λ store. D.seen store.disk };

    ghost is_ready = { λ _. ⊤ };

    ghost is_stable = { λ store. D.is_stable store.disk };

    ghost is_honest = { λ store. D.is_honest store.disk };

    ghost failures = { λ store. D.failures store.disk };

    ghost may_leave = { IsPartly };

    ghost has_journal = { ⊥ };

    ghost Event = { ⊤ };

    ghost history = { λ _. [] };

    ghost may_find = { λ _ _. ⊤ };

    ghost copied = { λ _. 0 };

    ghost crash_leaves = { λ _ journalled. absurd journalled };

    ghost stable_finds = { λ _ journalled. absurd journalled };

    ghost ready_finds = { λ _ journalled. absurd journalled };

    fn recover(&mut self) -> Result<(), RecoverFault> {
        Ok(())
    }

    fn len(&mut self) -> Result<u64, DiskFault> {
        self.disk.len()
    }

    fn read_at(&mut self, at: u64, buffer: &mut [u8]) -> Result<(), DiskFault> {
        self.disk.read_at(at, buffer)
    }

    fn replace(&mut self, new: &[u8]) -> Result<(), ReplaceFault> {
        match replace(&mut self.disk, new) {
            Ok(()) => Ok(()),
            Err(DiskFault) => Err(ReplaceFault::Later),
        }
    }
}
