//! A disk image is read.

ghost use Rattle.std.specs.Prelude.{◌≡◌, ◌≤◌, ℕ, List, length, Ok, Err, IfNone, IfOk, IfSome, MatchResult};
ghost use Rattle.std.specs.List.{AllByRecursion};
ghost use Rattle.hfs_tree.specs.Reads.{Learns, HasBytes, CountsReads};
ghost use Rattle.disk_image.specs.Devices.{IsView, bytes_in};
ghost use Rattle.disk_image.specs.Images.{contents_in, contents_of, of_format, by_map, partitions_of, whole_volume, IsThere, IsPlaced, IsVolumeAt};
ghost use Rattle.disk_image.specs.Maps.{map_of};
ghost use Rattle.disk_image.specs.Opening.{image_in, IsImage, OpensAs, CountsOpening};

use crate::device::find_device;
use crate::fault::{ImageFault, OpenFault};
use crate::known::{Format, Known, format_at, known_as};
use crate::map::read_partitions;
use crate::old_map::read_old_map;
use crate::part::Part;
use crate::place::{Found, Placed, place_volumes, volume_parts};
use crate::view::View;
use fork_disk::disk::ForkDisk;
use hfs_tree::fault::ReadFault;
use std::alloc::{AllocError, Global};

/// What a disk has: its partitions, of which there are none where it is a volume, and its volumes.
#[derive(Drop)]
pub struct Contents {
    pub parts: Vec<Part>,
    pub volumes: Vec<Placed>,
}

/// A disk image: how many bytes the file has, what it is known as, and what the disk has that it holds.
#[derive(Drop)]
pub struct Image {
    pub size: u64,
    pub known: Known,
    pub contents: Contents,
}

impl Image {
    /// Hands out a volume, or why it isn't read, by its index.
    pub fn into_volume(self, index: usize) -> Option<Result<Found, ImageFault>>
        requires { AllByRecursion (IsPlaced self.size) self.contents.volumes.items }
        ensures there { IfSome result (IsThere self.size) }
        ensures value { IfSome result (λ found. IsVolumeAt index self.contents.volumes.items found) }
        ensures none { IfNone result (length self.contents.volumes.items ≤ index) }
    {
        let Image {
            size: _,
            known: _,
            contents,
        } = self;
        let Contents {
            parts: _,
            mut volumes,
        } = contents;
        if index >= volumes.len() {
            return None;
        }
        let placed = volumes.swap_remove(index);
        Some(placed.found)
    }
}

/// What partitions have.
#[tactic(auto, unfolding(crate::specs::Images::partitions_of))]
fn read_volumes<D: ForkDisk>(
    alloc: Global,
    disk: &mut D,
    view: &View,
    parts: Vec<Part>,
) -> Result<Result<Contents, ImageFault>, ReadFault>
    requires sound { IsView view.now }
    requires size { HasBytes D.ForkDisk disk.old (λ file. view.now.file ≡ length file) }
    ensures reads { D.is_honest disk.new → Learns D.ForkDisk disk.old disk.new
        (λ file. IfOk result (λ found. MatchResult found
        (λ contents. partitions_of (bytes_in view.now file) parts.items ≡ Ok (contents_in file contents))
        (λ fault. partitions_of (bytes_in view.now file) parts.items ≡ Err fault))) }
    ensures there { IfOk result
        (λ found. IfOk found (λ contents. AllByRecursion (IsPlaced view.now.file) contents.volumes.items)) }
    ensures cause { CountsReads (D.failures disk.old) (D.failures disk.new) result }
{
    let chosen = volume_parts(alloc, &parts)?;
    if chosen.is_empty() {
        return Ok(Err(ImageFault::NoVolume(parts.len() as u64)));
    }
    let volumes = place_volumes(alloc, disk, view, &chosen)?;
    Ok(Ok(Contents { parts, volumes }))
}

/// What a disk has that is a volume.
fn whole_volume(alloc: Global, view: View, format: Format) -> Result<Contents, AllocError>
    requires { IsView view }
    ensures contents { IfOk result
        (λ contents. (file : List ℕ) → contents_in file contents ≡ whole_volume (bytes_in view file) format) }
    ensures there { IfOk result (λ contents. AllByRecursion (IsPlaced view.file) contents.volumes.items) }
{
    let placed = Placed {
        part: 0,
        start: 0,
        found: Ok(Found { format, view }),
    };
    let mut volumes = Vec::new(alloc);
    volumes.push(placed)?;
    Ok(Contents {
        parts: Vec::new(alloc),
        volumes,
    })
}

/// The same, if it is of HFS or MFS.
fn volume_or_fault(
    alloc: Global,
    view: View,
    format: Format,
) -> Result<Result<Contents, ImageFault>, AllocError>
    requires { IsView view }
    ensures contents { IfOk result (λ found. (file : List ℕ) → MatchResult found
        (λ contents. of_format (bytes_in view file) format ≡ Ok (contents_in file contents))
        (λ fault. of_format (bytes_in view file) format ≡ Err fault)) }
    ensures there { IfOk result
        (λ found. IfOk found (λ contents. AllByRecursion (IsPlaced view.file) contents.volumes.items)) }
{
    match format {
        Format::Hfs | Format::Mfs => Ok(Ok(whole_volume(alloc, view, format)?)),
        Format::HfsPlus => Ok(Err(ImageFault::Refused(Known::Volume(format)))),
    }
}

/// What a disk with a map has.
fn read_mapped<D: ForkDisk>(
    alloc: Global,
    disk: &mut D,
    view: View,
) -> Result<Result<Contents, ImageFault>, ReadFault>
    requires sound { IsView view }
    requires size { HasBytes D.ForkDisk disk.old (λ file. view.file ≡ length file) }
    ensures reads { D.is_honest disk.new → Learns D.ForkDisk disk.old disk.new
        (λ file. IfOk result (λ found. MatchResult found
        (λ contents. by_map (bytes_in view file) (map_of (bytes_in view file)) ≡ Ok (contents_in file contents))
        (λ fault. by_map (bytes_in view file) (map_of (bytes_in view file)) ≡ Err fault))) }
    ensures there { IfOk result
        (λ found. IfOk found (λ contents. AllByRecursion (IsPlaced view.file) contents.volumes.items)) }
    ensures cause { CountsReads (D.failures disk.old) (D.failures disk.new) result }
{
    let fault = match read_partitions(alloc, disk, &view)? {
        Ok(parts) => return read_volumes(alloc, disk, &view, parts),
        Err(fault) => fault,
    };
    match format_at(disk, &view, 1024)? {
        Some(Format::Hfs) => Ok(Ok(whole_volume(alloc, view, Format::Hfs)?)),
        Some(_) | None => Ok(Err(fault)),
    }
}

/// What a disk has that is known as something.
fn read_contents<D: ForkDisk>(
    alloc: Global,
    disk: &mut D,
    view: View,
    known: Known,
) -> Result<Result<Contents, ImageFault>, ReadFault>
    requires sound { IsView view }
    requires size { HasBytes D.ForkDisk disk.old (λ file. view.file ≡ length file) }
    ensures reads { D.is_honest disk.new → Learns D.ForkDisk disk.old disk.new
        (λ file. IfOk result (λ found. MatchResult found
        (λ contents. contents_of (bytes_in view file) known ≡ Ok (contents_in file contents))
        (λ fault. contents_of (bytes_in view file) known ≡ Err fault))) }
    ensures there { IfOk result
        (λ found. IfOk found (λ contents. AllByRecursion (IsPlaced view.file) contents.volumes.items)) }
    ensures cause { CountsReads (D.failures disk.old) (D.failures disk.new) result }
{
    match known {
        Known::Map => read_mapped(alloc, disk, view),
        Known::OldMap => {
            let parts = read_old_map(alloc, disk, &view)?;
            read_volumes(alloc, disk, &view, parts)
        }
        Known::Volume(format) => Ok(volume_or_fault(alloc, view, format)?),
        Known::Udif
        | Known::Encrypted
        | Known::Sparse
        | Known::RawCd
        | Known::DiskCopy
        | Known::Iso
        | Known::Other => Ok(Err(ImageFault::Refused(known))),
    }
}

/// What a file of so many bytes has, or the first condition that doesn't hold.
fn read_file<D: ForkDisk>(
    alloc: Global,
    disk: &mut D,
    size: u64,
) -> Result<Result<Image, ImageFault>, ReadFault>
    requires { HasBytes D.ForkDisk disk.old (λ file. size ≡ length file) }
    ensures reads { D.is_honest disk.new → Learns D.ForkDisk disk.old disk.new
        (λ file. IfOk result (λ found. MatchResult found (IsImage file) (λ fault. image_in file ≡ Err fault))) }
    ensures there { IfOk result
        (λ found. IfOk found (λ image. AllByRecursion (IsPlaced image.size) image.contents.volumes.items)) }
    ensures cause { CountsReads (D.failures disk.old) (D.failures disk.new) result }
{
    let whole = View::whole(alloc, size)?;
    let known = known_as(disk, &whole)?;
    let view = match find_device(alloc, disk, &whole, known)? {
        Ok(view) => view,
        Err(fault) => return Ok(Err(fault)),
    };
    let inner = known_as(disk, &view)?;
    match read_contents(alloc, disk, view, inner)? {
        Ok(contents) => Ok(Ok(Image {
            size,
            known,
            contents,
        })),
        Err(fault) => Ok(Err(fault)),
    }
}

/// What a file has that is a disk image. Some numbers of eight bytes are read, and the entries of a partition map. A
/// fault of the bytes is the first condition that doesn't hold; one of a partition is that partition's alone.
pub fn read_image<D: ForkDisk>(alloc: Global, disk: &mut D) -> Result<Image, OpenFault>
    ensures reads { D.is_honest disk.new → Learns D.ForkDisk disk.old disk.new (OpensAs result) }
    ensures there { IfOk result (λ image. AllByRecursion (IsPlaced image.size) image.contents.volumes.items) }
    ensures cause { CountsOpening (D.failures disk.old) (D.failures disk.new) result }
{
    let size = disk.len()?;
    match read_file(alloc, disk, size)? {
        Ok(image) => Ok(image),
        Err(fault) => Err(OpenFault::Image(fault)),
    }
}
