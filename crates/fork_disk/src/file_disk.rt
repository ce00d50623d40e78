//! A disk that is a file.

ghost use Rattle.std.specs.Prelude.{◌≡◌, ◌+◌, ◌≤◌, [], ◌∷◌, length};
ghost use Rattle.fork_disk.specs.Disk.{Counts};
ghost use Rattle.fork_disk.specs.Files.{IsHonestIn, IsStableIn, seen_in};
ghost use Rattle.fork_disk.specs.OnDisk.{CutsDisk, MeasuresDisk, ReadsDisk, SyncsDisk, WritesDisk};
ghost use Rattle.fork_disk.specs.Record.{cut_event, failed_calls, len_event, read_event, sync_event, write_event};

use crate::disk::{DiskFault, ForkDisk};
use crate::host_file::HostFile;
use crate::record::FileCalls;
use crate::world::World;
use std::marker::PhantomData;

/// A disk that is a file. Each call makes one call of the system, which is noted with its answer, in a record that only
/// clauses read. The disk is honest where these answers are those of the file in its world, so that nobody else wrote
/// it. It has failed as often as calls in the record have; a read that ends past the end is one of these.
#[derive(Drop)]
pub struct FileDisk<W: World> {
    file: HostFile,
    /// Which file of the world it is. Only clauses read it.
    number: u64,
    log: FileCalls,
    world: PhantomData<W>,
}

impl<W: World> FileDisk<W> {
    /// The disk of a file, of which nothing was asked so far. No other disk of this world may have its number.
    pub fn new(file: HostFile, number: u64) -> FileDisk<W>
        ensures file { result.file ≡ file }
        ensures number { result.number ≡ number }
        ensures start { result.log.events ≡ [] }
    {
        FileDisk {
            file,
            number,
            log: FileCalls::new(),
            world: PhantomData,
        }
    }
}

impl<W: World> ForkDisk for FileDisk<W> {
    ghost seen = { seen_in W.World };

    ghost is_honest = { IsHonestIn W.World };

    ghost is_stable = { IsStableIn W.World };

    ghost failures = { λ disk. failed_calls disk.log.events };

    fn len(&mut self) -> Result<u64, DiskFault>
        ensures measures { IsHonestIn W.World self.new → MeasuresDisk (seen_in W.World) (IsHonestIn W.World) (IsStableIn W.World) self.old self.new result }
        ensures cause { Counts (failed_calls self.old.log.events) (failed_calls self.new.log.events) result }
        ensures noted { self.new.log.events ≡ len_event self.old.file.which result ∷ self.old.log.events }
        ensures number { self.new.number ≡ self.old.number }
        ensures file { self.new.file ≡ self.old.file }
    {
        self.file.len(&mut self.log)
    }

    fn read_at(&mut self, at: u64, buffer: &mut [u8]) -> Result<(), DiskFault>
        requires { IsHonestIn W.World self.old → at + length buffer.old ≤ length (seen_in W.World self.old) }
        ensures reads { IsHonestIn W.World self.new → ReadsDisk (seen_in W.World) (IsHonestIn W.World) (IsStableIn W.World) self.old self.new at buffer.old buffer.new result }
        ensures cause { Counts (failed_calls self.old.log.events) (failed_calls self.new.log.events) result }
        ensures noted { self.new.log.events ≡ read_event self.old.file.which at buffer.new result ∷ self.old.log.events }
        ensures number { self.new.number ≡ self.old.number }
        ensures file { self.new.file ≡ self.old.file }
    {
        self.file.read_at(at, buffer, &mut self.log)
    }

    fn write_at(&mut self, at: u64, bytes: &[u8]) -> Result<(), DiskFault>
        requires { IsHonestIn W.World self.old → at ≤ length (seen_in W.World self.old) }
        ensures writes { IsHonestIn W.World self.new → WritesDisk (seen_in W.World) (IsHonestIn W.World) (IsStableIn W.World) self.old self.new at bytes.now result }
        ensures cause { Counts (failed_calls self.old.log.events) (failed_calls self.new.log.events) result }
        ensures noted { self.new.log.events ≡ write_event self.old.file.which at bytes.now result ∷ self.old.log.events }
        ensures number { self.new.number ≡ self.old.number }
        ensures file { self.new.file ≡ self.old.file }
    {
        self.file.write_at(at, bytes, &mut self.log)
    }

    fn cut(&mut self, len: u64) -> Result<(), DiskFault>
        requires { IsHonestIn W.World self.old → len ≤ length (seen_in W.World self.old) }
        ensures cuts { IsHonestIn W.World self.new → CutsDisk (seen_in W.World) (IsHonestIn W.World) (IsStableIn W.World) self.old self.new len result }
        ensures cause { Counts (failed_calls self.old.log.events) (failed_calls self.new.log.events) result }
        ensures noted { self.new.log.events ≡ cut_event self.old.file.which len result ∷ self.old.log.events }
        ensures number { self.new.number ≡ self.old.number }
        ensures file { self.new.file ≡ self.old.file }
    {
        self.file.cut(len, &mut self.log)
    }

    fn sync(&mut self) -> Result<(), DiskFault>
        ensures syncs { IsHonestIn W.World self.new → SyncsDisk (seen_in W.World) (IsHonestIn W.World) (IsStableIn W.World) self.old self.new result }
        ensures cause { Counts (failed_calls self.old.log.events) (failed_calls self.new.log.events) result }
        ensures noted { self.new.log.events ≡ sync_event self.old.file.which result ∷ self.old.log.events }
        ensures number { self.new.number ≡ self.old.number }
        ensures file { self.new.file ≡ self.old.file }
    {
        self.file.sync(&mut self.log)
    }
}
