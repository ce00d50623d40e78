//! The fork of a resource file that has a journal.

ghost use Rattle.std.specs.Prelude.{◌≡◌, ◌<◌, ◌^◌, ⊤, length};
ghost use Rattle.std.proofs.Common.{refl, ◌∙◌, ap};
ghost use Rattle.fork_journal.specs.Crash.{Event, History, Leaves, MayLeave};
ghost use Rattle.fork_journal.specs.Recovery.{copied_length, settled_fork, IsReady, IsStable, IsEither, MayFind};
ghost use Rattle.fork_journal.specs.Updates.{pair_fork, CanRecover, IsPairReady};

use crate::pair::{PairDisk, Side};
use crate::{recovery, update};
use fork_disk::disk::DiskFault;
use fork_disk::faults::RecoverFault;
use fork_disk::store::{ForkStore, ReplaceFault};
use std::alloc::Global;

/// A fork that is replaced by way of its journal, so that whenever a crash comes, the old fork or the new one is there
/// once the pair is recovered. Its failures are those of the pair.
#[derive(Drop)]
pub struct Journal<P: PairDisk> {
    alloc: Global,
    pair: P,
    ghost recoverable: { CanRecover P.PairDisk pair },
}

impl<P: PairDisk> Journal<P> {
    /// The store of a pair as a start finds it, whatever a crash left: nothing of what it reads waits for a sync. It has
    /// to be recovered before it is read.
    pub fn new(alloc: Global, pair: P) -> Journal<P>
        requires { P.is_honest pair → Leaves (λ c. c ≡ P.contents pair) (P.history pair) }
        ensures pair { result.pair ≡ pair }
        ensures failures { P.failures result.pair ≡ P.failures pair }
        ensures stable { P.is_honest pair → IsStable (P.contents pair) (P.history pair) }
        // Its fork is one that a start may find after each history of which a crash left this pair.
        ensures found { (history : History) → MayLeave history (P.contents pair) → MayFind history (settled_fork (P.contents result.pair)) }
    {
        Journal { alloc, pair }
    }

    /// The pair inside.
    pub fn pair(&self) -> &P
        ensures { result.now ≡ self.now.pair }
    {
        &self.pair
    }
}

impl<P: PairDisk> ForkStore for Journal<P> {
    ghost fork = { λ store. settled_fork (P.contents store.pair) };

    ghost is_ready = { λ store. IsReady (P.contents store.pair) (P.history store.pair) };

    ghost is_stable = { λ store. IsStable (P.contents store.pair) (P.history store.pair) };

    ghost is_honest = { λ store. P.is_honest store.pair };

    ghost failures = { λ store. P.failures store.pair };

    ghost may_leave = { IsEither };

    ghost has_journal = { ⊤ };

    ghost Event = { Event };

    ghost history = { λ store. P.history store.pair };

    ghost may_find = { MayFind };

    ghost copied = { λ store. copied_length (P.contents store.pair) };

    ghost crash_leaves = { λ store journal honest. (P.contents store.pair, P.reads_is_outcome store.pair honest, refl) };

    ghost stable_finds = { λ store journal honest stable found may. may.2 ∙ stable may.0 may.1 };

    ghost ready_finds = { λ store journal honest ready found may. may.2 ∙ ap settled_fork (ready.settled may.0 may.1) };

    /// Makes the fork ready. Where the host has no memory for the journal's fork, only the journal was synced.
    fn recover(&mut self) -> Result<(), RecoverFault> {
        recovery::recover(self.alloc, &mut self.pair)
    }

    fn len(&mut self) -> Result<u64, DiskFault> {
        self.pair.len(Side::Fork)
    }

    fn read_at(&mut self, at: u64, buffer: &mut [u8]) -> Result<(), DiskFault> {
        self.pair.read_at(Side::Fork, at, buffer)
    }

    /// Puts another fork in the place of the one that is there. Where it succeeds, a crash leaves the new one.
    fn replace(&mut self, new: &[u8]) -> Result<(), ReplaceFault> {
        update::replace(&mut self.pair, new)
    }
}
