//! Where in a file the bytes of a disk are.

ghost use Rattle.std.specs.Prelude.{◌≡◌, ◌*◌, ◌/◌, ◌≤◌, ◌<◌, ◌^◌, length, Ok, Err, IfOk, MatchResult};
ghost use Rattle.hfs_tree.specs.Reads.{Learns, HasBytes, CountsReads};
ghost use Rattle.disk_image.specs.Devices.{IsView, bytes_in, whole_of, sectors, sectors_of, data_of, device_of};
ghost use Rattle.disk_image.specs.Known.{number_at};

use crate::fault::ImageFault;
use crate::known::Known;
use crate::view::View;
use disk_ranges::read::Range;
use fork_disk::disk::ForkDisk;
use hfs_tree::fault::ReadFault;
use std::alloc::{AllocError, Global};

/// How many bytes a sector of a raw CD has.
const SECTOR: u64 = 2352;

/// How many of these are a disk's.
const USED: u64 = 2048;

/// The bytes of a disk in a raw CD's sectors, from so many on in each.
fn sector_ranges(alloc: Global, count: u64, head: u64) -> Result<Vec<Range>, AllocError>
    requires low { 2352 * count < 2 ^ 64 }
    requires inside { head ≤ 304 }
    ensures { IfOk result (λ ranges. ranges.items ≡ sectors head 0 count) }
{
    let mut ranges = Vec::new(alloc);
    for sector in 0..count {
        ranges.push(Range {
            at: SECTOR * sector + head,
            length: USED,
        })?;
    }
    Ok(ranges)
}

/// The same as a view of the file.
fn sector_view(alloc: Global, file: u64, head: u64) -> Result<View, AllocError>
    requires { head ≤ 304 }
    ensures sound { IfOk result IsView }
    ensures file { IfOk result (λ view. view.file ≡ file) }
    ensures ranges { IfOk result (λ view. view.ranges.items ≡ sectors head 0 (file / 2352)) }
{
    let count = file / SECTOR;
    Ok(View {
        file,
        ranges: sector_ranges(alloc, count, head)?,
        size: USED * count,
    })
}

/// The data of a DiskCopy image.
fn data_view(alloc: Global, file: u64, count: u64) -> Result<View, AllocError>
    ensures sound { IfOk result IsView }
    ensures file { IfOk result (λ view. view.file ≡ file) }
    ensures ranges { IfOk result (λ view. view.ranges.items ≡ data_of file count) }
{
    let size = count.min(file.saturating_sub(84));
    let range = Range {
        at: file.min(84),
        length: size,
    };
    Ok(View {
        file,
        ranges: vec![in alloc; range]?,
        size,
    })
}

/// The disk in a raw CD, by the mode of its first sector.
#[tactic(auto, unfolding(crate::specs::Devices::sectors_of))]
fn sector_device<D: ForkDisk>(
    alloc: Global,
    disk: &mut D,
    view: &View,
) -> Result<Result<View, ImageFault>, ReadFault>
    requires sound { IsView view.now }
    requires size { HasBytes D.ForkDisk disk.old (λ file. view.now.file ≡ length file) }
    ensures reads { D.is_honest disk.new → Learns D.ForkDisk disk.old disk.new
        (λ file. IfOk result (λ found. MatchResult found
        (λ device. sectors_of view.now.file (number_at 1 15 (bytes_in view.now file)) ≡ Ok device.ranges.items)
        (λ fault. sectors_of view.now.file (number_at 1 15 (bytes_in view.now file)) ≡ Err fault))) }
    ensures sound { IfOk result (λ found. IfOk found IsView) }
    ensures file { IfOk result (λ found. IfOk found (λ device. device.file ≡ view.now.file)) }
    ensures cause { CountsReads (D.failures disk.old) (D.failures disk.new) result }
{
    let mode = view.number(disk, 1, 15)?;
    match mode {
        1 => Ok(Ok(sector_view(alloc, view.file, 16)?)),
        2 => Ok(Ok(sector_view(alloc, view.file, 24)?)),
        _ => Ok(Err(ImageFault::Sector(mode))),
    }
}

/// The disk in a file that is known as something. The view is all of the file.
pub(crate) fn find_device<D: ForkDisk>(
    alloc: Global,
    disk: &mut D,
    view: &View,
    known: Known,
) -> Result<Result<View, ImageFault>, ReadFault>
    requires sound { IsView view.now }
    requires size { HasBytes D.ForkDisk disk.old (λ file. view.now.file ≡ length file) }
    requires whole { view.now.ranges.items ≡ whole_of view.now.file }
    ensures reads { D.is_honest disk.new → Learns D.ForkDisk disk.old disk.new
        (λ file. IfOk result (λ found. MatchResult found
        (λ device. device_of file known ≡ Ok device.ranges.items)
        (λ fault. device_of file known ≡ Err fault))) }
    ensures sound { IfOk result (λ found. IfOk found IsView) }
    ensures file { IfOk result (λ found. IfOk found (λ device. device.file ≡ view.now.file)) }
    ensures cause { CountsReads (D.failures disk.old) (D.failures disk.new) result }
{
    match known {
        Known::DiskCopy => {
            let data = view.number(disk, 4, 64)?;
            Ok(Ok(data_view(alloc, view.file, data)?))
        }
        Known::RawCd => sector_device(alloc, disk, view),
        Known::Udif
        | Known::Encrypted
        | Known::Sparse
        | Known::Map
        | Known::Volume(_)
        | Known::OldMap
        | Known::Iso
        | Known::Other => Ok(Ok(View::whole(alloc, view.file)?)),
    }
}
