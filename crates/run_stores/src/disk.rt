//! The disks of a run.

use fork_disk::disk::{DiskFault, ForkDisk};
use fork_disk::{FileDisk, MemDisk, World};

/// A disk in memory, or a file.
#[derive(Drop)]
pub enum Disk<W: World> {
    /// A disk in memory, which is gone when the program ends.
    Memory(MemDisk),
    /// A file.
    File(FileDisk<W>),
}

impl<W: World> ForkDisk for Disk<W> {
    ghost use Rattle.run_stores.specs.Disks.{fails, honest, seen, stable};

    ghost seen = { seen W.World };

    ghost is_honest = { honest W.World };

    ghost is_stable = { stable W.World };

    ghost failures = { fails };

    fn len(&mut self) -> Result<u64, DiskFault> {
        match self {
            Disk::Memory(disk) => disk.len(),
            Disk::File(disk) => disk.len(),
        }
    }

    fn read_at(&mut self, at: u64, buffer: &mut [u8]) -> Result<(), DiskFault> {
        match self {
            Disk::Memory(disk) => disk.read_at(at, buffer),
            Disk::File(disk) => disk.read_at(at, buffer),
        }
    }

    fn write_at(&mut self, at: u64, bytes: &[u8]) -> Result<(), DiskFault> {
        match self {
            Disk::Memory(disk) => disk.write_at(at, bytes),
            Disk::File(disk) => disk.write_at(at, bytes),
        }
    }

    fn cut(&mut self, len: u64) -> Result<(), DiskFault> {
        match self {
            Disk::Memory(disk) => disk.cut(len),
            Disk::File(disk) => disk.cut(len),
        }
    }

    fn sync(&mut self) -> Result<(), DiskFault> {
        match self {
            Disk::Memory(disk) => disk.sync(),
            Disk::File(disk) => disk.sync(),
        }
    }
}
