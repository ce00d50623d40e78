//! The volumes of a disk.

ghost use Rattle.std.specs.Prelude.{◌≡◌, ◌≤◌, ℕ, List, length, filter, map, IfOk, OnOk};
ghost use Rattle.std.specs.List.{AllByRecursion};
ghost use Rattle.fork_disk.specs.Disk.{Counts};
ghost use Rattle.hfs_tree.specs.Reads.{Learns, HasBytes, CountsReads};
ghost use Rattle.disk_image.specs.Devices.{IsView, bytes_in};
ghost use Rattle.disk_image.specs.Maps.{is_volume};
ghost use Rattle.disk_image.specs.Images.{format_of, found_of, volume_in, volume_of, found_in, placed_in, IsThere, IsPlaced};

use crate::fault::ImageFault;
use crate::known::{Format, format_at, format_of_copy};
use crate::part::Part;
use crate::view::View;
use fork_disk::disk::{DiskFault, ForkDisk};
use hfs_tree::fault::ReadFault;
use std::alloc::{AllocError, Global};

/// A volume: its format, which is HFS or MFS, and where in the file its bytes are.
#[derive(Drop)]
pub struct Found {
    pub format: Format,
    pub view: View,
}

/// A volume, or why it isn't read: the number of its partition, or 0 where it is all of a disk; and where on the disk
/// it begins.
#[derive(Drop)]
pub struct Placed {
    pub part: u16,
    pub start: u64,
    pub found: Result<Found, ImageFault>,
}

/// What a partition's bytes are known as.
#[tactic(auto, unfolding(crate::specs::Images::format_of))]
fn format_of<D: ForkDisk>(disk: &mut D, view: &View) -> Result<Option<Format>, DiskFault>
    requires sound { IsView view.now }
    requires size { HasBytes D.ForkDisk disk.old (λ file. view.now.file ≡ length file) }
    ensures reads { D.is_honest disk.new → Learns D.ForkDisk disk.old disk.new
        (λ file. IfOk result (λ format. format ≡ format_of (bytes_in view.now file))) }
    ensures cause { Counts (D.failures disk.old) (D.failures disk.new) result }
{
    match format_at(disk, view, 1024)? {
        Some(format) => Ok(Some(format)),
        None => format_of_copy(disk, view),
    }
}

/// A view as a volume, if it is known as one.
fn volume_in(part: u16, view: View, format: Option<Format>) -> Result<Found, ImageFault>
    requires { IsView view }
    ensures found { (file : List ℕ) → found_in file result ≡ volume_in part (bytes_in view file) format }
    ensures there { IsThere view.file result }
{
    match format {
        Some(Format::Hfs) => Ok(Found {
            format: Format::Hfs,
            view,
        }),
        Some(Format::Mfs) => Ok(Found {
            format: Format::Mfs,
            view,
        }),
        Some(Format::HfsPlus) | None => Err(ImageFault::Part(part, format)),
    }
}

/// The volume of a partition.
#[tactic(auto, unfolding(crate::specs::Images::found_of))]
fn find_volume<D: ForkDisk>(
    alloc: Global,
    disk: &mut D,
    view: &View,
    part: &Part,
) -> Result<Result<Found, ImageFault>, ReadFault>
    requires sound { IsView view.now }
    requires size { HasBytes D.ForkDisk disk.old (λ file. view.now.file ≡ length file) }
    ensures reads { D.is_honest disk.new → Learns D.ForkDisk disk.old disk.new
        (λ file. IfOk result (λ found. found_in file found ≡ found_of (bytes_in view.now file) part.now)) }
    ensures there { IfOk result (IsThere view.now.file) }
    ensures cause { CountsReads (D.failures disk.old) (D.failures disk.new) result }
{
    if part.start >= view.size {
        return Ok(Err(ImageFault::Start(part.number, part.start)));
    }
    let volume = view.part(alloc, part.start, part.count)?;
    let format = format_of(disk, &volume)?;
    Ok(volume_in(part.number, volume, format))
}

/// Those partitions that are volumes.
pub(crate) fn volume_parts(alloc: Global, parts: &[Part]) -> Result<Vec<Part>, AllocError>
    ensures { IfOk result (λ volumes. volumes.items ≡ filter is_volume parts.now) }
{
    parts
        .iter()
        .copied()
        .filter(|part| part.is_volume())
        .collect(alloc)
}

/// The volumes of partitions.
pub(crate) fn place_volumes<D: ForkDisk>(
    alloc: Global,
    disk: &mut D,
    view: &View,
    parts: &[Part],
) -> Result<Vec<Placed>, ReadFault>
    requires sound { IsView view.now }
    requires size { HasBytes D.ForkDisk disk.old (λ file. view.now.file ≡ length file) }
    ensures reads { D.is_honest disk.new → Learns D.ForkDisk disk.old disk.new
        (λ file. IfOk result
        (λ volumes. map (placed_in file) volumes.items ≡ map (volume_of (bytes_in view.now file)) parts.now)) }
    ensures there { IfOk result (λ volumes. AllByRecursion (IsPlaced view.now.file) volumes.items) }
    ensures cause { CountsReads (D.failures disk.old) (D.failures disk.new) result }
{
    let mut volumes = Vec::new(alloc);
    for part in parts {
        let found = find_volume(alloc, disk, view, part)?;
        volumes.push(Placed {
            part: part.number,
            start: part.start,
            found,
        })?;
    }
    Ok(volumes)
}
