//! A volume of an image as a disk, and a fork of a volume's file as one.

ghost use Rattle.std.specs.Prelude.{◌≡◌, length, Some, IfOk, MatchResult};
ghost use Rattle.std.specs.List.{AllByRecursion};
ghost use Rattle.disk_ranges.specs.Ranges.{bytes_of, IsInDisk, IsShort};
ghost use Rattle.hfs_tree.specs.Reads.{HasBytes};
ghost use Rattle.hfs_volume.specs.Forks.{fork_fault};
ghost use Rattle.hfs_volume.specs.Opening.{read_of};
ghost use Rattle.disk_image.specs.Devices.{IsView};
ghost use Rattle.disk_image.specs.Forks.{IsFork};

use crate::place::Found;
use disk_ranges::read::Range;
use disk_ranges::{RangesDisk, within};
use fork_disk::disk::ForkDisk;
use hfs_volume::entry::{Entry, Which};
use hfs_volume::fault::ForkFault;
use hfs_volume::ranges_of_fork;
use hfs_volume::volume::Volume;
use std::alloc::{AllocError, Global};

/// A volume that `read_image` found as a disk.
pub fn open_volume<D: ForkDisk>(disk: D, found: Found) -> RangesDisk<D>
    requires sound { IsView found.view }
    requires size { HasBytes D.ForkDisk disk (λ file. found.view.file ≡ length file) }
    ensures { result ≡ record { disk = disk; ranges = found.view.ranges.items; refused = 0 } }
{
    RangesDisk::new(disk, found.view.ranges)
}

/// A fork of a file as a disk, on the disk that is its volume; or the first condition that doesn't hold of it. The only
/// error is that the host has no memory.
pub fn open_fork<D: ForkDisk + Drop>(
    alloc: Global,
    disk: D,
    volume: &Volume,
    file: &Entry,
    which: Which,
) -> Result<Result<RangesDisk<D>, ForkFault>, AllocError>
    requires { HasBytes D.ForkDisk disk (λ bytes. volume.now.size ≡ length bytes) }
    ensures { IfOk result (λ found. MatchResult found
        (λ fork. IsFork D.ForkDisk disk (D.seen disk) (read_of volume.now) file.now which fork)
        (λ fault. fork_fault (read_of volume.now) file.now which ≡ Some fault)) }
{
    match ranges_of_fork(alloc, volume, file, which)? {
        Ok(ranges) => Ok(Ok(RangesDisk::new(disk, ranges))),
        Err(fault) => Ok(Err(fault)),
    }
}

/// The same on a disk of which the volume has these ranges.
pub fn open_fork_within<D: ForkDisk + Drop>(
    alloc: Global,
    disk: D,
    place: &[Range],
    volume: &Volume,
    file: &Entry,
    which: Which,
) -> Result<Result<RangesDisk<D>, ForkFault>, AllocError>
    requires short { AllByRecursion IsShort place.now }
    requires inside { HasBytes D.ForkDisk disk (λ bytes. AllByRecursion (IsInDisk (length bytes)) place.now) }
    requires size { HasBytes D.ForkDisk disk (λ bytes. volume.now.size ≡ length (bytes_of place.now bytes)) }
    ensures { IfOk result (λ found. MatchResult found
        (λ fork. IsFork D.ForkDisk disk (bytes_of place.now (D.seen disk)) (read_of volume.now) file.now which fork)
        (λ fault. fork_fault (read_of volume.now) file.now which ≡ Some fault)) }
{
    let inner = match ranges_of_fork(alloc, volume, file, which)? {
        Ok(inner) => inner,
        Err(fault) => return Ok(Err(fault)),
    };
    let ranges = within(alloc, place, &inner)?;
    Ok(Ok(RangesDisk::new(disk, ranges)))
}
