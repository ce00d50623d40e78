//! The bytes of forks.

ghost use Rattle.std.specs.Prelude.{◌≡◌, ◌≤◌, ℕ, length, IfOk};
ghost use Rattle.std.specs.List.{AllByRecursion};
ghost use Rattle.disk_ranges.specs.Ranges.{IsInDisk, IsShort, bytes_of};
ghost use Rattle.fork_disk.specs.Disk.{bytes_at};
ghost use Rattle.disk_image.specs.Devices.{bytes_in};
ghost use Rattle.hfs_tree.specs.Reads.{CountsReads, HasBytes, Learns};
ghost use Rattle.image_files.specs.Forks.{CountsFile, Gives, IsPlaced, fork_of, hfs_said, mfs_said};
ghost use Rattle.image_files.specs.Sizes.{size_of};

use crate::files::Files;
use crate::place::ForkRanges;
use crate::refusal::FileRefusal;
use crate::volume::VolumeFiles;
use disk_ranges::read::{Range, read_ranges};
use disk_ranges::within;
use fork_disk::disk::ForkDisk;
use hfs_tree::fault::ReadFault;
use hfs_volume::entry::{Entry, Which};
use hfs_volume::ranges_of_fork;
use hfs_volume::volume::Volume;
use mfs_volume::directory::MfsFile;
use mfs_volume::ranges_of_file;
use mfs_volume::volume::MfsVolume;
use std::alloc::Global;

/// Where the bytes of a fork of a thing are in an HFS volume.
#[tactic(auto, using(crate::proofs::ForksRead::hfs_ranges, crate::proofs::ForksRead::hfs_fault))]
fn ranges_in_hfs(
    alloc: Global,
    volume: &Volume,
    entry: &Entry,
    which: Which,
) -> Result<ForkRanges, FileRefusal>
    ensures ranges { IsPlaced volume.now.size (hfs_said volume.now entry.now which) result }
    ensures cause { (count : ℕ) → CountsFile count count result }
{
    match ranges_of_fork(alloc, volume, entry, which)? {
        Ok(ranges) => Ok(ForkRanges {
            ranges,
            size: entry.fork_size(which),
        }),
        Err(fault) => Err(FileRefusal::Fork(which, fault)),
    }
}

/// Where the bytes of a fork of a file are in an MFS volume.
#[tactic(auto, using(crate::proofs::ForksRead::mfs_ranges, crate::proofs::ForksRead::mfs_fault))]
fn ranges_in_mfs(
    alloc: Global,
    volume: &MfsVolume,
    file: &MfsFile,
    which: Which,
) -> Result<ForkRanges, FileRefusal>
    ensures ranges { IsPlaced volume.now.size (mfs_said volume.now file.now which) result }
    ensures cause { (count : ℕ) → CountsFile count count result }
{
    match ranges_of_file(alloc, volume, file, which)? {
        Ok(ranges) => Ok(ForkRanges {
            ranges,
            size: file.fork_size(which),
        }),
        Err(fault) => Err(FileRefusal::Chain(which, fault)),
    }
}

/// Where in a volume the bytes of a fork of one of its things are.
fn ranges_in(
    alloc: Global,
    files: &Files,
    thing: usize,
    which: Which,
) -> Result<ForkRanges, FileRefusal>
    ensures ranges { IsPlaced (size_of files.now) (λ bytes. fork_of bytes files.now thing which) result }
    ensures cause { (count : ℕ) → CountsFile count count result }
{
    match files {
        Files::Hfs(volume, things) => match things.get(thing) {
            Some(thing) => ranges_in_hfs(alloc, volume, thing, which),
            None => Err(FileRefusal::NoFile),
        },
        Files::Mfs(volume) => match volume.files.get(thing) {
            Some(file) => ranges_in_mfs(alloc, volume, file, which),
            None => Err(FileRefusal::NoFile),
        },
    }
}

/// Reads all bytes of ranges of a disk, of which there are so many.
fn read_all<D: ForkDisk>(
    alloc: Global,
    disk: &mut D,
    ranges: &[Range],
    size: u32,
) -> Result<Vec<u8>, ReadFault>
    requires short { AllByRecursion IsShort ranges.now }
    requires inside { HasBytes D.ForkDisk disk.old (λ file. AllByRecursion (IsInDisk (length file)) ranges.now) }
    requires size { HasBytes D.ForkDisk disk.old (λ file. size ≤ length (bytes_of ranges.now file)) }
    ensures reads { D.is_honest disk.new → Learns D.ForkDisk disk.old disk.new (λ file. IfOk result (λ bytes. bytes.items ≡ bytes_at size 0 (bytes_of ranges.now file))) }
    ensures cause { CountsReads (D.failures disk.old) (D.failures disk.new) result }
{
    let mut bytes = vec![in alloc; 0; size as usize]?;
    read_ranges(disk, ranges, 0, &mut bytes)?;
    Ok(bytes)
}

/// The bytes of a fork of a thing. Only these are read.
pub(crate) fn fork_of<D: ForkDisk>(
    alloc: Global,
    disk: &mut D,
    volume: &VolumeFiles,
    thing: usize,
    which: Which,
) -> Result<Vec<u8>, FileRefusal>
    requires { HasBytes D.ForkDisk disk.old (λ file. volume.now.view.file ≡ length file) }
    ensures reads { D.is_honest disk.new → Learns D.ForkDisk disk.old disk.new
        (λ file. Gives (fork_of (bytes_in volume.now.view file) volume.now.files thing which) result) }
    ensures cause { CountsFile (D.failures disk.old) (D.failures disk.new) result }
{
    let inner = ranges_in(alloc, &volume.files, thing, which)?;
    let ranges = within(alloc, &volume.view.ranges, &inner.ranges)?;
    Ok(read_all(alloc, disk, &ranges, inner.size)?)
}
