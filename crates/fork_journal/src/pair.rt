//! A fork and its journal, as one device with one clock.

ghost use Rattle.std.specs.Prelude.{◌+◌, ◌≤◌, ℕ, length};
ghost use Rattle.fork_disk.specs.Disk.{Counts};
ghost use Rattle.fork_journal.specs.Crash.{Contents, History, side_of, MayLeave};
ghost use Rattle.fork_journal.specs.OnPair.{MeasuresSide, ReadsSide, WritesSide, CutsSide, SyncsSide};

use fork_disk::disk::DiskFault;

/// One of the two.
#[derive(Clone, Copy)]
pub enum Side {
    /// The resource fork.
    Fork,
    /// Its journal.
    Journal,
}

/// The disks of a fork and of its journal, as one device: each call names a side, there is one count of failures, and a
/// crash stops both at the same moment.
///
/// What is promised of bytes holds of an *honest* pair: one that returns what was written, and that nobody else writes.
/// A pair that is honest after a call was so before it, and what is promised of a call rests on the pair that it
/// leaves.
pub trait PairDisk {
    /// The bytes that reads give.
    ghost contents: { Self → Contents };

    /// What happened since a start, of which a crash may undo some.
    ghost history: { Self → History };

    /// The device returns what was written, and nobody else writes it.
    ghost is_honest: { Self → Type 0 };

    /// How often the device has failed.
    ghost failures: { Self → ℕ };

    /// How many bytes a side has.
    fn len(&mut self, side: Side) -> Result<u64, DiskFault>
        ensures measures { is_honest self.new → MeasuresSide contents history is_honest self.old self.new side result }
        ensures cause { Counts (failures self.old) (failures self.new) result };

    /// Fills the buffer with the bytes at an offset. After a fault the buffer holds any bytes.
    fn read_at(&mut self, side: Side, at: u64, buffer: &mut [u8]) -> Result<(), DiskFault>
        requires { is_honest self.old → at + length buffer.old ≤ length (side_of side (contents self.old)) }
        ensures reads { is_honest self.new → ReadsSide contents history is_honest self.old self.new side at buffer.old buffer.new result }
        ensures cause { Counts (failures self.old) (failures self.new) result };

    /// Writes over what is there, and past the end. A write that failed may have been done in part, and so may, for a
    /// crash, each that no sync follows.
    fn write_at(&mut self, side: Side, at: u64, bytes: &[u8]) -> Result<(), DiskFault>
        requires { is_honest self.old → at ≤ length (side_of side (contents self.old)) }
        ensures writes { is_honest self.new → WritesSide contents history is_honest self.old self.new side at bytes.now result }
        ensures cause { Counts (failures self.old) (failures self.new) result };

    /// Cuts a side to a length that is not above its own. A cut that failed may have been done in part, and so may, for
    /// a crash, each that no sync follows.
    fn cut(&mut self, side: Side, len: u64) -> Result<(), DiskFault>
        requires { is_honest self.old → len ≤ length (side_of side (contents self.old)) }
        ensures cuts { is_honest self.new → CutsSide contents history is_honest self.old self.new side len result }
        ensures cause { Counts (failures self.old) (failures self.new) result };

    /// Makes a side stable, so that a crash leaves what it reads. A sync that failed makes nothing stable, and may have
    /// dropped what waited for it: after one, each sync of that side fails. The bytes are the same either way.
    fn sync(&mut self, side: Side) -> Result<(), DiskFault>
        ensures syncs { is_honest self.new → SyncsSide contents history is_honest self.old self.new side result }
        ensures cause { Counts (failures self.old) (failures self.new) result };

    /// A crash may leave the pair as it reads.
    ghost reads_is_outcome: { (pair : Self) → is_honest pair → MayLeave (history pair) (contents pair) };
}
