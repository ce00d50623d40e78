//! A disk that is ranges of another.

ghost use Rattle.std.specs.Prelude.{◌≡◌, ◌+◌, ◌<◌, ◌^◌, ◌≤◌, ℕ, List, length, IsErr, IsOk, OnOk};
ghost use Rattle.std.specs.List.{AllByRecursion};
ghost use Rattle.fork_disk.specs.Disk.{bytes_at, Torn, CutShort, Counts, Rose};
ghost use Rattle.fork_disk.specs.OnDisk.{KeepsDisk};
ghost use Rattle.disk_ranges.specs.Ranges.{bytes_of, total, IsInDisk, IsShort};

use crate::read::{Range, read_ranges};
use fork_disk::disk::{DiskFault, ForkDisk};
use std::marker::Model;

/// Bytes of a disk that lie in ranges of it, one after another. They are only read: a write or a cut fails, counted, and
/// changes nothing.
#[derive(Drop)]
pub struct RangesDisk<D: ForkDisk> {
    disk: D,
    ranges: Vec<Range>,
    size: u64,
    refused: u64,
}

impl<D: ForkDisk> Model for RangesDisk<D> {
    ghost use Rattle.fork_disk.specs.Disk.{bytes_at, Torn, CutShort, Counts};
    ghost use Rattle.disk_ranges.specs.Ranges.{RangesOn, LieOnDisk};

    ghost Value = { RangesOn D };

    ghost view = { λ r. record { disk = r.disk; ranges = r.ranges.items; refused = r.refused } };

    ghost invariant = { λ r. LieOnDisk D.seen D.is_honest r.disk r.ranges.items r.size };
}

/// How many bytes ranges have.
fn total_length(ranges: &[Range]) -> u64
    requires { total ranges.now < 2 ^ 64 }
    ensures { result ≡ total ranges.now }
{
    let mut sum: u64 = 0;
    for range in ranges {
        sum += range.length;
    }
    sum
}

impl<D: ForkDisk> RangesDisk<D> {
    /// These ranges of a disk. An honest disk has their bytes.
    pub fn new(disk: D, ranges: Vec<Range>) -> RangesDisk<D>
        requires short { AllByRecursion IsShort ranges.items }
        requires few { total ranges.items < 2 ^ 64 }
        requires inside { D.is_honest disk → AllByRecursion (IsInDisk (length (D.seen disk))) ranges.items }
        ensures { result ≡ record { disk = disk; ranges = ranges.items; refused = 0 } }
    {
        let size = total_length(&ranges);
        RangesDisk {
            disk,
            ranges,
            size,
            refused: 0,
        }
    }

    /// The disk that the ranges are of.
    pub fn disk(&self) -> &D
        ensures { result.now ≡ self.now.disk }
    {
        &self.disk
    }

    /// Hands out the disk that the ranges are of.
    pub fn into_disk(self) -> D
        ensures { result ≡ self.disk }
    {
        let RangesDisk {
            disk,
            ranges: _,
            size: _,
            refused: _,
        } = self;
        disk
    }

    /// Counts a call that isn't made, and returns its fault.
    fn refuse(&mut self) -> DiskFault
        ensures counted { Rose self.old.refused self.new.refused }
        ensures same_disk { self.new.disk ≡ self.old.disk }
        ensures same_ranges { self.new.ranges ≡ self.old.ranges }
    {
        self.refused = self.refused.saturating_add(1);
        DiskFault
    }
}

impl<D: ForkDisk> ForkDisk for RangesDisk<D> {
    ghost seen = { λ s. bytes_of s.ranges (D.seen s.disk) };

    ghost is_honest = { λ s. D.is_honest s.disk };

    ghost is_stable = { λ s. D.is_stable s.disk };

    ghost failures = { λ s. D.failures s.disk + s.refused };

    /// The device isn't asked.
    fn len(&mut self) -> Result<u64, DiskFault>
        ensures succeeds { IsOk result }
        ensures value { D.is_honest self.old.disk → result ≡ Ok (length (bytes_of self.old.ranges (D.seen self.old.disk))) }
        ensures same { self.new ≡ self.old }
    {
        Ok(self.size)
    }

    fn read_at(&mut self, at: u64, buffer: &mut [u8]) -> Result<(), DiskFault>
        requires { D.is_honest self.old.disk → at + length buffer.old ≤ length (bytes_of self.old.ranges (D.seen self.old.disk)) }
        ensures read { D.is_honest self.new.disk → OnOk result (buffer.new ≡ bytes_at (length buffer.old) at (bytes_of self.old.ranges (D.seen self.old.disk))) }
        ensures keeps { D.is_honest self.new.disk → KeepsDisk D.seen D.is_honest D.is_stable self.old.disk self.new.disk }
        ensures same_ranges { self.new.ranges ≡ self.old.ranges }
        ensures cause { Counts (D.failures self.old.disk + self.old.refused) (D.failures self.new.disk + self.new.refused) result }
    {
        read_ranges(&mut self.disk, &self.ranges, at, buffer)?;
        Ok(())
    }

    /// Fails, and changes nothing.
    fn write_at(&mut self, _at: u64, _bytes: &[u8]) -> Result<(), DiskFault>
        ensures fails { IsErr result }
        ensures same_disk { self.new.disk ≡ self.old.disk }
        ensures same_ranges { self.new.ranges ≡ self.old.ranges }
        ensures torn { Torn _at (length _bytes.now) (bytes_of self.old.ranges (D.seen self.old.disk)) (bytes_of self.new.ranges (D.seen self.new.disk)) }
        ensures cause { Counts (D.failures self.old.disk + self.old.refused) (D.failures self.new.disk + self.new.refused) result }
    {
        Err(self.refuse())
    }

    /// Fails, and changes nothing.
    fn cut(&mut self, _len: u64) -> Result<(), DiskFault>
        ensures fails { IsErr result }
        ensures same_disk { self.new.disk ≡ self.old.disk }
        ensures same_ranges { self.new.ranges ≡ self.old.ranges }
        ensures torn { CutShort _len (bytes_of self.old.ranges (D.seen self.old.disk)) (bytes_of self.new.ranges (D.seen self.new.disk)) }
        ensures cause { Counts (D.failures self.old.disk + self.old.refused) (D.failures self.new.disk + self.new.refused) result }
    {
        Err(self.refuse())
    }

    fn sync(&mut self) -> Result<(), DiskFault> {
        self.disk.sync()
    }
}
