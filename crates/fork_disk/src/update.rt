//! A fork that is put in the place of another.

ghost use Rattle.std.specs.Prelude.{◌+◌, ◌<◌, ◌≤◌, ◌^◌, ◌∷◌, [], length, All};
ghost use Rattle.fork_disk.specs.Disk.{Counts};
ghost use Rattle.fork_disk.specs.OnDisk.{ReplacesDisk};
ghost use Rattle.fork_disk.specs.Stores.{CanGather, Gathers, Updates};

use crate::disk::{DiskFault, ForkDisk};
use crate::store::{ForkStore, ReplaceFault};

/// Bytes that a new fork keeps of the old one.
#[derive(Clone, Copy, Debug, PartialEq, Eq)]
pub struct Kept {
    /// Where they are in the old fork.
    pub from: u64,
    /// Where they are in the new one.
    pub to: usize,
    /// How many they are.
    pub length: usize,
}

/// Reads one range of bytes that a new fork keeps to its place in it, if it isn't empty.
fn read_kept<S: ForkStore>(store: &mut S, fork: &mut [u8], range: Kept) -> Result<(), DiskFault>
    requires inside { range.to + range.length ≤ length fork.old }
    requires there { S.is_honest store.old → CanGather S.ForkStore store.old (range ∷ []) }
    ensures gathers { S.is_honest store.new → Gathers S.ForkStore store.old store.new (range ∷ []) fork.old fork.new result }
    ensures cause { Counts (S.failures store.old) (S.failures store.new) result }
{
    if range.length == 0 {
        return Ok(());
    }
    store.read_at(range.from, &mut fork[range.to..range.to + range.length])
}

/// Reads the bytes that a new fork keeps to their places in it: one read for each range, and none for an empty one.
/// After a fault the new fork holds any bytes. The old fork stays as it is in any case.
pub fn gather<S: ForkStore>(store: &mut S, fork: &mut [u8], kept: &[Kept]) -> Result<(), DiskFault>
    requires inside { All (λ k. k.to + k.length ≤ length fork.old) kept.now }
    requires there { S.is_honest store.old → CanGather S.ForkStore store.old kept.now }
    ensures gathers { S.is_honest store.new → Gathers S.ForkStore store.old store.new kept.now fork.old fork.new result }
    ensures cause { Counts (S.failures store.old) (S.failures store.new) result }
{
    for range in kept {
        read_kept(store, fork, *range)?;
    }
    Ok(())
}

/// Puts a new fork in the place of the old one, of which it keeps some bytes. All of these are read before the first
/// write, so a fault of a read leaves the old fork.
pub fn update<S: ForkStore>(
    store: &mut S,
    fork: &mut [u8],
    kept: &[Kept],
) -> Result<(), ReplaceFault>
    requires short { length fork.old < 2 ^ 32 }
    requires inside { All (λ k. k.to + k.length ≤ length fork.old) kept.now }
    requires there { S.is_honest store.old → CanGather S.ForkStore store.old kept.now }
    ensures updates { S.is_honest store.new
        → Updates S.ForkStore store.old store.new ReplaceFault.BeforeFirstWrite ReplaceFault.Later kept.now fork.old fork.new result }
    ensures cause { Counts (S.failures store.old) (S.failures store.new) result }
{
    match gather(store, fork, kept) {
        Ok(()) => store.replace(fork),
        Err(DiskFault) => Err(ReplaceFault::BeforeFirstWrite),
    }
}

/// Puts a fork in the place of what a disk has: it is written from the start, the disk is cut to its length, and
/// synced. After a fault it may be there in part.
pub fn replace<D: ForkDisk>(disk: &mut D, fork: &[u8]) -> Result<(), DiskFault>
    ensures replaces { D.is_honest disk.new → ReplacesDisk D.seen D.is_honest D.is_stable disk.old disk.new fork.now result }
    ensures cause { Counts (D.failures disk.old) (D.failures disk.new) result }
{
    disk.write_at(0, fork)?;
    disk.cut(fork.len() as u64)?;
    disk.sync()?;
    Ok(())
}
