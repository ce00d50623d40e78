//! The bytes of a file that a disk has, or a part of it.

ghost use Rattle.std.specs.Prelude.{◌≡◌, ◌+◌, ◌≤◌, ℕ, List, [], ◌∷◌, length, IfOk, OnOk};
ghost use Rattle.fork_disk.specs.Disk.{bytes_at, Counts};
ghost use Rattle.hfs_tree.specs.Reads.{Learns, HasBytes};
ghost use Rattle.disk_image.specs.Known.{number_at, number_before};
ghost use Rattle.disk_image.specs.Devices.{IsView, bytes_in, whole_of};

use byteorder::{BigEndian, ByteOrder};
use disk_ranges::read::{Range, read_ranges};
use disk_ranges::within;
use fork_disk::disk::{DiskFault, ForkDisk};
use std::alloc::{AllocError, Global};

/// Ranges of a file: how many bytes the file has, and how many the ranges have.
#[derive(Drop)]
pub struct View {
    pub file: u64,
    pub ranges: Vec<Range>,
    pub size: u64,
}

impl View {
    /// Fills a buffer with the bytes at a place.
    fn read<D: ForkDisk>(&self, disk: &mut D, at: u64, buffer: &mut [u8]) -> Result<(), DiskFault>
        requires sound { IsView self.now }
        requires inside { at + length buffer.old ≤ self.now.size }
        requires size { HasBytes D.ForkDisk disk.old (λ file. self.now.file ≡ length file) }
        ensures reads { D.is_honest disk.new → Learns D.ForkDisk disk.old disk.new
            (λ file. OnOk result (buffer.new ≡ bytes_at (length buffer.old) at (bytes_in self.now file))) }
        ensures cause { Counts (D.failures disk.old) (D.failures disk.new) result }
    {
        read_ranges(disk, &self.ranges, at, buffer)?;
        Ok(())
    }

    /// The number of so many bytes at a place, the highest byte first; 0 where the bytes end before it does.
    pub fn number<D: ForkDisk>(&self, disk: &mut D, count: usize, at: u64) -> Result<u64, DiskFault>
        requires sound { IsView self.now }
        requires some { 1 ≤ count }
        requires few { count ≤ 8 }
        requires size { HasBytes D.ForkDisk disk.old (λ file. self.now.file ≡ length file) }
        ensures reads { D.is_honest disk.new → Learns D.ForkDisk disk.old disk.new
            (λ file. IfOk result (λ number. number ≡ number_at count at (bytes_in self.now file))) }
        ensures cause { Counts (D.failures disk.old) (D.failures disk.new) result }
    {
        if at > self.size || count as u64 > self.size - at {
            return Ok(0);
        }
        let mut bytes = [0; 8];
        self.read(disk, at, &mut bytes[..count])?;
        Ok(BigEndian::read_uint(&bytes, count))
    }

    /// The same at a place that is given from the end.
    #[tactic(auto, unfolding(crate::specs::Known::number_before), using(crate::proofs::Views::view_length))]
    pub fn number_before<D: ForkDisk>(
        &self,
        disk: &mut D,
        count: usize,
        back: u64,
    ) -> Result<u64, DiskFault>
        requires sound { IsView self.now }
        requires some { 1 ≤ count }
        requires few { count ≤ 8 }
        requires size { HasBytes D.ForkDisk disk.old (λ file. self.now.file ≡ length file) }
        ensures reads { D.is_honest disk.new → Learns D.ForkDisk disk.old disk.new
            (λ file. IfOk result (λ number. number ≡ number_before count back (bytes_in self.now file))) }
        ensures cause { Counts (D.failures disk.old) (D.failures disk.new) result }
    {
        if back > self.size {
            return Ok(0);
        }
        self.number(disk, count, self.size - back)
    }

    /// The 512 bytes at a place.
    pub(crate) fn block<D: ForkDisk>(&self, disk: &mut D, at: u64) -> Result<[u8; 512], DiskFault>
        requires sound { IsView self.now }
        requires inside { at + 512 ≤ self.now.size }
        requires size { HasBytes D.ForkDisk disk.old (λ file. self.now.file ≡ length file) }
        ensures reads { D.is_honest disk.new → Learns D.ForkDisk disk.old disk.new
            (λ file. IfOk result (λ block. block ≡ bytes_at 512 at (bytes_in self.now file))) }
        ensures cause { Counts (D.failures disk.old) (D.failures disk.new) result }
    {
        let mut block = [0; 512];
        self.read(disk, at, &mut block)?;
        Ok(block)
    }

    /// All bytes of a file of so many.
    pub(crate) fn whole(alloc: Global, size: u64) -> Result<View, AllocError>
        ensures sound { IfOk result IsView }
        ensures file { IfOk result (λ view. view.file ≡ size) }
        ensures size { IfOk result (λ view. view.size ≡ size) }
        ensures ranges { IfOk result (λ view. view.ranges.items ≡ whole_of size) }
    {
        let range = Range {
            at: 0,
            length: size,
        };
        Ok(View {
            file: size,
            ranges: vec![in alloc; range]?,
            size,
        })
    }

    /// So many bytes at a place, as far as there are.
    pub(crate) fn part(&self, alloc: Global, at: u64, count: u64) -> Result<View, AllocError>
        requires { IsView self.now }
        ensures sound { IfOk result IsView }
        ensures file { IfOk result (λ part. part.file ≡ self.now.file) }
        ensures bytes { IfOk result (λ part. (file : List ℕ) → self.now.file ≡ length file →
            bytes_in part file ≡ bytes_at count at (bytes_in self.now file)) }
    {
        let start = at.min(self.size);
        let size = count.min(self.size - start);
        let range = Range {
            at: start,
            length: size,
        };
        Ok(View {
            file: self.file,
            ranges: within(alloc, &self.ranges, &[range])?,
            size,
        })
    }
}
