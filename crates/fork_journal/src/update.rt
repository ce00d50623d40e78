//! A fork is put in the place of another by way of the journal.

ghost use Rattle.std.specs.Prelude.{◌<◌, ◌^◌, length};
ghost use Rattle.fork_disk.specs.Disk.{Counts};
ghost use Rattle.fork_journal.specs.Form.{text_of};
ghost use Rattle.fork_journal.specs.Recovery.{IsBeforeOrAfter};
ghost use Rattle.fork_journal.specs.Updates.{CanReplace, HasShut, Shuts, Stages, Puts, ReplacesPair};

use crate::pair::PairDisk;
use crate::reading::is_shutting_due;
use crate::recovery::finish;
use crate::steps::{put_gate, put_text};
use fork_disk::disk::DiskFault;
use fork_disk::store::ReplaceFault;

/// Shuts the gate where it is open or not there yet. Where it fails before its first write, nothing has changed.
fn shut<P: PairDisk>(pair: &mut P) -> Result<(), ReplaceFault>
    requires { CanReplace P.PairDisk pair.old }
    ensures shuts { P.is_honest pair.new → Shuts P.PairDisk pair.old pair.new result }
    ensures cause { Counts (P.failures pair.old) (P.failures pair.new) result }
{
    match is_shutting_due(pair) {
        Ok(true) => {}
        Ok(false) => return Ok(()),
        Err(DiskFault) => return Err(ReplaceFault::BeforeFirstWrite),
    }
    match put_gate(pair, 0) {
        Ok(()) => Ok(()),
        Err(DiskFault) => Err(ReplaceFault::Later),
    }
}

/// Writes the text of a fork after the shut gate, and opens the gate.
fn stage<P: PairDisk>(pair: &mut P, fork: &[u8]) -> Result<(), DiskFault>
    requires shut { HasShut P.PairDisk pair.old }
    requires short { length fork.now < 2 ^ 32 }
    ensures stages { P.is_honest pair.new → Stages P.PairDisk pair.old pair.new fork.now result }
    ensures cause { Counts (P.failures pair.old) (P.failures pair.new) result }
{
    put_text(pair, fork)?;
    put_gate(pair, 1)?;
    Ok(())
}

/// Writes the text of a fork after the shut gate, and then the fork.
fn put_both<P: PairDisk>(pair: &mut P, fork: &[u8]) -> Result<(), DiskFault>
    requires shut { HasShut P.PairDisk pair.old }
    requires short { length fork.now < 2 ^ 32 }
    ensures puts { P.is_honest pair.new → Puts P.PairDisk pair.old pair.new (IsBeforeOrAfter (P.contents pair.old).fork fork.now) fork.now
        (text_of fork.now) result }
    ensures cause { Counts (P.failures pair.old) (P.failures pair.new) result }
{
    stage(pair, fork)?;
    finish(pair, fork)?;
    Ok(())
}

/// Puts another fork in the place of the one that is there. Reads come before the first write.
pub fn replace<P: PairDisk>(pair: &mut P, fork: &[u8]) -> Result<(), ReplaceFault>
    requires ready { CanReplace P.PairDisk pair.old }
    requires short { length fork.now < 2 ^ 32 }
    ensures replaces { P.is_honest pair.new → ReplacesPair P.PairDisk pair.old pair.new fork.now result }
    ensures cause { Counts (P.failures pair.old) (P.failures pair.new) result }
{
    shut(pair)?;
    match put_both(pair, fork) {
        Ok(()) => Ok(()),
        Err(DiskFault) => Err(ReplaceFault::Later),
    }
}
