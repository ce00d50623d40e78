//! Disks that nobody writes while an image is read.

ghost use Rattle.std.specs.Prelude.{◌≡◌, ◌+◌, ◌≤◌, List, [], ℕ, length, refl, IsErr};
ghost use Rattle.fork_disk.specs.Disk.{Torn, CutShort, Counts, Rose};
ghost use Rattle.fork_disk.specs.Files.{IsHonestIn, IsStableIn, seen_in};
ghost use Rattle.fork_disk.specs.OnDisk.{MeasuresDisk, ReadsDisk, SyncsDisk};
ghost use Rattle.fork_disk.specs.Record.{failed_calls};

use fork_disk::disk::{DiskFault, ForkDisk};
use fork_disk::{FileDisk, HostFile, World};

/// A disk that isn't written: all disks of its type have the same bytes, where they are honest.
pub trait StillDisk: ForkDisk + Drop {
    /// The bytes that reads give are always the same.
    ghost still: { (one other : Self) → Self.seen one ≡ Self.seen other };
}

/// The disk of a file that is only read: a write or a cut fails, counted, and makes no call of the system.
#[derive(Drop)]
pub struct StillFile<W: World> {
    file: FileDisk<W>,
    refused: u64,
    ghost first: { file.number ≡ 0 },
    ghost still: { IsHonestIn W.World file → seen_in W.World file ≡ W.held 0 [] },
}

impl<W: World> StillFile<W> {
    /// The disk of a file, of which nothing was asked so far.
    pub fn new(file: HostFile) -> StillFile<W>
        ensures file { result.file.file ≡ file }
        ensures start { result.file.log.events ≡ [] }
    {
        StillFile {
            file: FileDisk::new(file, 0),
            refused: 0,
        }
    }

    /// The file as a disk, with the calls that were made of it.
    pub fn into_file(self) -> FileDisk<W>
        ensures { result ≡ self.file }
    {
        let StillFile { file, refused: _ } = self;
        file
    }

    /// Counts a call that isn't made, and returns its fault.
    fn refuse(&mut self) -> DiskFault
        ensures counted { Rose self.old.refused self.new.refused }
        ensures same { self.new.file ≡ self.old.file }
    {
        self.refused = self.refused.saturating_add(1);
        DiskFault
    }
}

impl<W: World> ForkDisk for StillFile<W> {
    ghost seen = { λ _. W.held 0 [] };

    ghost is_honest = { λ s. IsHonestIn W.World s.file };

    ghost is_stable = { λ s. IsStableIn W.World s.file };

    ghost failures = { λ s. failed_calls s.file.log.events + s.refused };

    fn len(&mut self) -> Result<u64, DiskFault> {
        self.file.len()
    }

    fn read_at(&mut self, at: u64, buffer: &mut [u8]) -> Result<(), DiskFault> {
        self.file.read_at(at, buffer)
    }

    /// Fails, and changes nothing.
    fn write_at(&mut self, _at: u64, _bytes: &[u8]) -> Result<(), DiskFault>
        ensures fails { IsErr result }
        ensures same { self.new.file ≡ self.old.file }
        ensures torn { Torn _at (length _bytes.now) (W.held 0 []) (W.held 0 []) }
        ensures cause { Counts (failed_calls self.old.file.log.events + self.old.refused) (failed_calls self.new.file.log.events + self.new.refused) result }
    {
        Err(self.refuse())
    }

    /// Fails, and changes nothing.
    fn cut(&mut self, _len: u64) -> Result<(), DiskFault>
        ensures fails { IsErr result }
        ensures same { self.new.file ≡ self.old.file }
        ensures torn { CutShort _len (W.held 0 []) (W.held 0 []) }
        ensures cause { Counts (failed_calls self.old.file.log.events + self.old.refused) (failed_calls self.new.file.log.events + self.new.refused) result }
    {
        Err(self.refuse())
    }

    fn sync(&mut self) -> Result<(), DiskFault> {
        self.file.sync()
    }
}

impl<W: World> StillDisk for StillFile<W> {
    ghost still = { λ _ _. refl };
}
