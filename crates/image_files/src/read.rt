//! An image is read.

ghost use Rattle.std.specs.Prelude.{◌≡◌, ◌<◌, ◌^◌, ◌++◌, ◌∷◌, [], ℕ, List, Ok, length, map, IfOk, OnOk};
ghost use Rattle.std.specs.List.{AllByRecursion};
ghost use Rattle.disk_ranges.specs.Ranges.{IsInDisk, IsShort, bytes_of, total};
ghost use Rattle.hfs_tree.specs.Reads.{Learns, HasBytes};
ghost use Rattle.hfs_volume.specs.Opening as hfs_opening;
ghost use Rattle.mfs_volume.specs.Volume as mfs_opening;
ghost use Rattle.disk_image.specs.Devices.{IsView};
ghost use Rattle.disk_image.specs.Known.{known_as};
ghost use Rattle.disk_image.specs.Images.{IsPlaced, found_in, placed_in};
ghost use Rattle.disk_image.specs.declared.known.Format.TheVariants as format;
ghost use Rattle.image_files.specs.Contents.{ReadsAs, contents_in, files_of, placed_now, placed_of, placed_read, result_read, volume_of, volume_read};
ghost use Rattle.image_files.specs.Placing.{IsFoundIn, IsPlacedIn, IsSoundAt};
ghost use Rattle.image_files.specs.Sizes.{size_of};

use crate::contents::Contents;
use crate::files::{Files, VolumeRefusal};
use crate::still::StillDisk;
use crate::volume::{PlacedVolume, VolumeFiles};
use disk_image::fault::{ImageFault, OpenFault};
use disk_image::image::{Contents as ImageContents, Image};
use disk_image::known::{Format, Known};
use disk_image::part::Part;
use disk_image::place::{Found, Placed};
use disk_image::read_image;
use disk_ranges::RangesDisk;
use disk_ranges::read::Range;
use hfs_tree::fault::ReadFault;
use hfs_volume::fault::OpenFault as HfsFault;
use hfs_volume::read_volume;
use hfs_volume::volume::Volume;
use mfs_volume::fault::NotMfs;
use mfs_volume::read_mfs;
use mfs_volume::volume::MfsVolume;
use std::alloc::{AllocError, Global};
use volume_names::list_things;

/// What a reading as an HFS volume gives, which has so many bytes.
fn hfs_files(
    alloc: Global,
    size: u64,
    read: Result<Volume, HfsFault>,
) -> Result<Result<Files, VolumeRefusal>, ReadFault>
    ensures files { (volume : List ℕ) → size ≡ length volume → hfs_opening.OpensAs read volume →
        IfOk result (λ found. result_read found ≡ files_of format.Hfs volume) }
    ensures size { IfOk result (λ found. IfOk found (λ files. size_of files ≡ size)) }
{
    match read {
        Ok(volume) => {
            let things = list_things(alloc, &volume.entries)?;
            Ok(Ok(Files::Hfs(Volume { size, ..volume }, things)))
        }
        Err(HfsFault::Volume(fault)) => Ok(Err(VolumeRefusal::Hfs(fault))),
        Err(HfsFault::Read(fault)) => Err(fault),
    }
}

/// What a reading as an MFS volume gives, which has so many bytes.
fn mfs_files(
    size: u64,
    read: Result<MfsVolume, NotMfs>,
) -> Result<Result<Files, VolumeRefusal>, ReadFault>
    ensures files { (volume : List ℕ) → size ≡ length volume → mfs_opening.OpensAs read volume →
        IfOk result (λ found. result_read found ≡ files_of format.Mfs volume) }
    ensures size { IfOk result (λ found. IfOk found (λ files. size_of files ≡ size)) }
{
    match read {
        Ok(volume) => Ok(Ok(Files::Mfs(MfsVolume { size, ..volume }))),
        Err(NotMfs::Volume(fault)) => Ok(Err(VolumeRefusal::Mfs(fault))),
        Err(NotMfs::Read(fault)) => Err(fault),
    }
}

/// Reads an HFS volume, of which a disk has these ranges.
fn read_hfs<D: StillDisk>(
    alloc: Global,
    disk: D,
    ranges: Vec<Range>,
    size: u64,
) -> (D, Result<Result<Files, VolumeRefusal>, ReadFault>)
    requires short { AllByRecursion IsShort ranges.items }
    requires few { total ranges.items < 2 ^ 64 }
    requires inside { HasBytes D.ForkDisk disk (λ file. AllByRecursion (IsInDisk (length file)) ranges.items) }
    requires size { size ≡ total ranges.items }
    ensures reads { D.is_honest result.0 → Learns D.ForkDisk disk result.0
        (λ file. IfOk result.1 (λ found. result_read found ≡ files_of format.Hfs (bytes_of ranges.items file))) }
    ensures size { IfOk result.1 (λ found. IfOk found (λ files. size_of files ≡ size)) }
{
    let mut part = RangesDisk::new(disk, ranges);
    let read = read_volume(alloc, &mut part);
    let files = hfs_files(alloc, size, read);
    (part.into_disk(), files)
}

/// Reads an MFS volume, of which a disk has these ranges.
fn read_mfs_files<D: StillDisk>(
    alloc: Global,
    disk: D,
    ranges: Vec<Range>,
    size: u64,
) -> (D, Result<Result<Files, VolumeRefusal>, ReadFault>)
    requires short { AllByRecursion IsShort ranges.items }
    requires few { total ranges.items < 2 ^ 64 }
    requires inside { HasBytes D.ForkDisk disk (λ file. AllByRecursion (IsInDisk (length file)) ranges.items) }
    requires size { size ≡ total ranges.items }
    ensures reads { D.is_honest result.0 → Learns D.ForkDisk disk result.0
        (λ file. IfOk result.1 (λ found. result_read found ≡ files_of format.Mfs (bytes_of ranges.items file))) }
    ensures size { IfOk result.1 (λ found. IfOk found (λ files. size_of files ≡ size)) }
{
    let mut part = RangesDisk::new(disk, ranges);
    let read = read_mfs(alloc, &mut part);
    let files = mfs_files(size, read);
    (part.into_disk(), files)
}

/// Reads a volume of a format, of which a disk has these ranges.
fn read_files<D: StillDisk>(
    alloc: Global,
    disk: D,
    ranges: Vec<Range>,
    size: u64,
    format: Format,
) -> (D, Result<Result<Files, VolumeRefusal>, ReadFault>)
    requires short { AllByRecursion IsShort ranges.items }
    requires few { total ranges.items < 2 ^ 64 }
    requires inside { HasBytes D.ForkDisk disk (λ file. AllByRecursion (IsInDisk (length file)) ranges.items) }
    requires size { size ≡ total ranges.items }
    ensures reads { D.is_honest result.0 → Learns D.ForkDisk disk result.0
        (λ file. IfOk result.1 (λ found. result_read found ≡ files_of format (bytes_of ranges.items file))) }
    ensures size { IfOk result.1 (λ found. IfOk found (λ files. size_of files ≡ size)) }
{
    match format {
        Format::Hfs => read_hfs(alloc, disk, ranges, size),
        Format::Mfs => read_mfs_files(alloc, disk, ranges, size),
        Format::HfsPlus => {
            let refused = ImageFault::Refused(Known::Volume(format));
            (disk, Ok(Err(VolumeRefusal::Partition(refused))))
        }
    }
}

/// Reads the volume that was found.
fn read_found<D: StillDisk>(
    alloc: Global,
    disk: D,
    found: Found,
) -> (D, Result<Result<VolumeFiles, VolumeRefusal>, ReadFault>)
    requires sound { IsView found.view }
    requires there { HasBytes D.ForkDisk disk (λ file. found.view.file ≡ length file) }
    ensures reads { D.is_honest result.0 → Learns D.ForkDisk disk result.0
        (λ file. IfOk result.1 (λ volume. volume_read file volume ≡ volume_of (found_in file (Ok found)))) }
    ensures there { IfOk result.1 (IsFoundIn found.view.file) }
{
    let Found { format, view } = found;
    let ranges = match Vec::from_slice(alloc, &view.ranges) {
        Ok(ranges) => ranges,
        Err(_) => return (disk, Err(ReadFault::Host)),
    };
    match read_files(alloc, disk, ranges, view.size, format) {
        (disk, Ok(Ok(files))) => (disk, Ok(Ok(VolumeFiles { view, files }))),
        (disk, Ok(Err(refusal))) => (disk, Ok(Err(refusal))),
        (disk, Err(fault)) => (disk, Err(fault)),
    }
}

/// Reads a volume, if it was found.
fn read_placed<D: StillDisk>(
    alloc: Global,
    disk: D,
    placed: Placed,
) -> (D, Result<PlacedVolume, ReadFault>)
    requires sound { IsSoundAt placed }
    requires there { HasBytes D.ForkDisk disk (λ file. IsPlaced (length file) placed) }
    ensures reads { D.is_honest result.0 → Learns D.ForkDisk disk result.0
        (λ file. IfOk result.1 (λ volume. placed_read file volume ≡ placed_of (placed_in file placed))) }
    ensures there { (size : ℕ) → IsPlaced size placed → IfOk result.1 (IsPlacedIn size) }
{
    let Placed { part, start, found } = placed;
    let found = match found {
        Ok(found) => found,
        Err(fault) => {
            let found = Err(VolumeRefusal::Partition(fault));
            return (disk, Ok(PlacedVolume { part, start, found }));
        }
    };
    match read_found(alloc, disk, found) {
        (disk, Ok(found)) => (disk, Ok(PlacedVolume { part, start, found })),
        (disk, Err(fault)) => (disk, Err(fault)),
    }
}

/// Adds a volume.
fn push_volume(volumes: &mut Vec<PlacedVolume>, volume: PlacedVolume) -> Result<(), AllocError>
    ensures { OnOk result (volumes.new.items ≡ volumes.old.items ++ volume ∷ []) }
{
    volumes.push(volume)?;
    Ok(())
}

/// Reads volumes, one after another.
fn read_volumes<D: StillDisk>(
    alloc: Global,
    disk: D,
    placed: Vec<Placed>,
) -> (D, Result<Vec<PlacedVolume>, ReadFault>)
    requires sound { AllByRecursion IsSoundAt placed.items }
    requires there { HasBytes D.ForkDisk disk (λ file. AllByRecursion (IsPlaced (length file)) placed.items) }
    ensures reads { D.is_honest result.0 → Learns D.ForkDisk disk result.0
        (λ file. IfOk result.1 (λ volumes. map (placed_read file) volumes.items ≡ map (placed_now file) placed.items)) }
    ensures there { (size : ℕ) → AllByRecursion (IsPlaced size) placed.items → IfOk result.1 (λ volumes. AllByRecursion (IsPlacedIn size) volumes.items) }
{
    let mut disk = disk;
    let mut placed = placed;
    let mut volumes = Vec::new(alloc);
    while !placed.is_empty() {
        let (next, read) = read_placed(alloc, disk, placed.remove(0));
        disk = next;
        let volume = match read {
            Ok(volume) => volume,
            Err(fault) => return (disk, Err(fault)),
        };
        if push_volume(&mut volumes, volume).is_err() {
            return (disk, Err(ReadFault::Host));
        }
    }
    (disk, Ok(volumes))
}

/// What an image has of which these volumes were read.
fn contents_with(
    size: u64,
    known: Known,
    parts: Vec<Part>,
    volumes: Result<Vec<PlacedVolume>, ReadFault>,
) -> Result<Contents, OpenFault>
    requires { IfOk volumes (λ read. AllByRecursion (IsPlacedIn size) read.items) }
    ensures { (file : List ℕ) → size ≡ length file → known ≡ known_as file →
        IfOk volumes (λ read. contents_in file ≡ Ok (record { parts = parts.items; volumes = map (placed_read file) read.items })) → ReadsAs result file }
{
    match volumes {
        Ok(volumes) => Ok(Contents {
            size,
            known,
            parts,
            volumes,
        }),
        Err(fault) => Err(OpenFault::Read(fault)),
    }
}

/// What an image has. Read are some numbers of eight bytes, the entries of a partition map, and of each volume the block
/// of its information and its catalog, or its directory. A fault of a volume is that volume's alone; the error is a
/// fault of the image, of the device, or that the host has no memory.
pub fn read_contents<D: StillDisk>(alloc: Global, disk: D) -> (D, Result<Contents, OpenFault>)
    ensures reads { D.is_honest result.0 → Learns D.ForkDisk disk result.0 (ReadsAs result.1) }
{
    let mut disk = disk;
    let image = match read_image(alloc, &mut disk) {
        Ok(image) => image,
        Err(fault) => return (disk, Err(fault)),
    };
    let Image {
        size,
        known,
        contents,
    } = image;
    let ImageContents { parts, volumes } = contents;
    let (after, read) = read_volumes(alloc, disk, volumes);
    (after, contents_with(size, known, parts, read))
}
