//! How often a disk has failed.

ghost use Rattle.std.specs.Prelude.{◌≡◌, ◌≤◌, ℕ};
ghost use Rattle.fork_disk.specs.Disk.{Rose};

use crate::disk::DiskFault;
use std::marker::Model;

/// A count that stays at its last value. A contract sees the number.
#[derive(Clone, Copy, Debug)]
pub(crate) struct Failures(u64);

impl Model for Failures {
    ghost Value = { ℕ };

    ghost view = { λ f. f.0 };

    ghost inverse = { λ n. record { 0 = n } };
}

impl Failures {
    /// None so far.
    pub(crate) fn new() -> Failures
        ensures { result ≡ 0 }
    {
        Failures(0)
    }

    /// Counts one more, and returns it.
    pub(crate) fn count(&mut self) -> DiskFault
        ensures { Rose self.old self.new }
    {
        self.0 = self.0.saturating_add(1);
        DiskFault
    }
}
