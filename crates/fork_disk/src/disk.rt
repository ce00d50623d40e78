//! A disk as the Resource Manager sees it.

ghost use Rattle.std.specs.Prelude.{◌+◌, ◌≤◌, List, ℕ, length};
ghost use Rattle.fork_disk.specs.Disk.{Counts};
ghost use Rattle.fork_disk.specs.OnDisk.{MeasuresDisk, ReadsDisk, WritesDisk, CutsDisk, SyncsDisk};

use thiserror::Error;

/// The device failed.
#[derive(Clone, Copy, Debug, PartialEq, Eq, Error)]
#[error("the device failed")]
pub struct DiskFault;

/// A disk with the bytes of one fork. Each call may fail, and what it leaves then is said beside it.
///
/// What is promised of bytes holds of an *honest* disk: one that returns what was written, and that nobody else writes.
/// A disk that is honest after a call was so before it, and what is promised of a call rests on the disk that it
/// leaves. Of an honest disk a caller asks only for bytes that are there: a range that ends past the end is a mistake
/// of the caller, and no failure of the device. A disk that can't know how long it is, as a file, answers such a read
/// by a fault.
pub trait ForkDisk {
    /// The bytes that reads give, where the disk is honest.
    ghost seen: { Self → List ℕ };

    /// The disk returns what was written, and nobody else writes it.
    ghost is_honest: { Self → Type 0 };

    /// A crash would leave the bytes that reads give: nothing waits for a sync.
    ghost is_stable: { Self → Type 0 };

    /// How often the disk has failed.
    ghost failures: { Self → ℕ };

    /// How many bytes there are.
    fn len(&mut self) -> Result<u64, DiskFault>
        ensures measures { is_honest self.new → MeasuresDisk seen is_honest is_stable self.old self.new result }
        ensures cause { Counts (failures self.old) (failures self.new) result };

    /// Fills the buffer with the bytes at an offset. After a fault the buffer holds any bytes.
    fn read_at(&mut self, at: u64, buffer: &mut [u8]) -> Result<(), DiskFault>
        requires { is_honest self.old → at + length buffer.old ≤ length (seen self.old) }
        ensures reads { is_honest self.new → ReadsDisk seen is_honest is_stable self.old self.new at buffer.old buffer.new result }
        ensures cause { Counts (failures self.old) (failures self.new) result };

    /// Writes over what is there, and past the end. A write that failed may have been done in part.
    fn write_at(&mut self, at: u64, bytes: &[u8]) -> Result<(), DiskFault>
        requires { is_honest self.old → at ≤ length (seen self.old) }
        ensures writes { is_honest self.new → WritesDisk seen is_honest is_stable self.old self.new at bytes.now result }
        ensures cause { Counts (failures self.old) (failures self.new) result };

    /// Cuts the bytes to a length that is not above theirs. A cut that failed may have been done in part.
    fn cut(&mut self, len: u64) -> Result<(), DiskFault>
        requires { is_honest self.old → len ≤ length (seen self.old) }
        ensures cuts { is_honest self.new → CutsDisk seen is_honest is_stable self.old self.new len result }
        ensures cause { Counts (failures self.old) (failures self.new) result };

    /// Makes what was written stable, so that a crash leaves it. A sync that failed makes nothing stable. The bytes are
    /// the same either way.
    fn sync(&mut self) -> Result<(), DiskFault>
        ensures syncs { is_honest self.new → SyncsDisk seen is_honest is_stable self.old self.new result }
        ensures cause { Counts (failures self.old) (failures self.new) result };
}
