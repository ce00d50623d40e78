//! A fork and its journal are made whole again after a crash or a fault.

ghost use Rattle.std.specs.Prelude.{◌≡◌, drop};
ghost use Rattle.fork_disk.specs.Disk.{Counts};
ghost use Rattle.fork_disk.specs.Faults.{CountsDevice};
ghost use Rattle.fork_journal.specs.Recovery.{settled_fork};
ghost use Rattle.fork_journal.specs.Updates.{CanRecover, IsStaged, Puts, RecoversPair};

use crate::pair::{PairDisk, Side};
use crate::reading::usable_fork;
use crate::steps::{put_gate, put_rest};
use fork_disk::disk::DiskFault;
use fork_disk::faults::RecoverFault;
use std::alloc::Global;

/// Writes the fork that is after the open gate, and shuts the gate. Whenever a crash comes, the pair recovers this
/// fork.
pub(crate) fn finish<P: PairDisk>(pair: &mut P, fork: &[u8]) -> Result<(), DiskFault>
    requires { P.is_honest pair.old → IsStaged P.PairDisk pair.old fork.now }
    ensures puts { P.is_honest pair.new → Puts P.PairDisk pair.old pair.new (λ c. settled_fork c ≡ fork.now) fork.now
        (drop 1 (P.contents pair.old).journal) result }
    ensures cause { Counts (P.failures pair.old) (P.failures pair.new) result }
{
    put_rest(pair, Side::Fork, 0, fork)?;
    put_gate(pair, 0)?;
    Ok(())
}

/// Makes what a crash or a fault left whole again: it syncs the journal, and where that is usable, it writes its fork
/// and shuts the gate. It may stop anywhere and be run again.
pub fn recover<P: PairDisk>(alloc: Global, pair: &mut P) -> Result<(), RecoverFault>
    requires { CanRecover P.PairDisk pair.old }
    ensures recovers { P.is_honest pair.new → RecoversPair P.PairDisk pair.old pair.new result }
    ensures cause { CountsDevice (P.failures pair.old) (P.failures pair.new) result }
{
    pair.sync(Side::Journal)?;
    let Some(fork) = usable_fork(alloc, pair)? else {
        return Ok(());
    };
    finish(pair, &fork)?;
    Ok(())
}
