//! What a file is known as.

ghost use Rattle.std.specs.Prelude.{◌≡◌, ◌+◌, ◌<◌, ◌^◌, length, IfOk};
ghost use Rattle.fork_disk.specs.Disk.{Counts};
ghost use Rattle.hfs_tree.specs.Reads.{Learns, HasBytes};
ghost use Rattle.disk_image.specs.Devices.{IsView, bytes_in};
ghost use Rattle.disk_image.specs.Known.{is_udif, is_encrypted, is_sparse, is_raw_cd, is_sized, is_disk_copy, has_map, has_old_map, is_iso, is_hfs, format_at, hfs_or_mfs, format_of_copy, image_of, disk_of, known_as};

use crate::view::View;
use fork_disk::disk::{DiskFault, ForkDisk};

/// The format of a volume.
#[derive(Clone, Copy, Debug, PartialEq, Eq)]
pub enum Format {
    Hfs,
    Mfs,
    /// HFS Plus, or HFSX.
    HfsPlus,
}

/// What a file is known as.
#[derive(Clone, Copy, Debug, PartialEq, Eq)]
pub enum Known {
    /// An image of Mac OS X, as .dmg files are.
    Udif,
    /// An encrypted image of Mac OS X.
    Encrypted,
    /// A sparse image of Mac OS X.
    Sparse,
    /// A CD with all bytes of its sectors.
    RawCd,
    /// An image of DiskCopy 4.2.
    DiskCopy,
    /// A disk with a partition map.
    Map,
    /// A volume.
    Volume(Format),
    /// A disk with a partition map of the Macintosh Plus.
    OldMap,
    /// An ISO 9660 disc without a volume of a Macintosh.
    Iso,
    /// No disk image.
    Other,
}

/// Whether the last block begins as that of a UDIF image.
#[tactic(auto, unfolding(crate::specs::Known::is_udif))]
fn is_udif<D: ForkDisk>(disk: &mut D, view: &View) -> Result<bool, DiskFault>
    requires sound { IsView view.now }
    requires size { HasBytes D.ForkDisk disk.old (λ file. view.now.file ≡ length file) }
    ensures reads { D.is_honest disk.new → Learns D.ForkDisk disk.old disk.new
        (λ file. IfOk result (λ found. found ≡ is_udif (bytes_in view.now file))) }
    ensures cause { Counts (D.failures disk.old) (D.failures disk.new) result }
{
    Ok(view.number_before(disk, 4, 512)? == 0x6B6F_6C79)
}

/// Whether it begins or ends as an encrypted image.
#[tactic(auto, unfolding(crate::specs::Known::is_encrypted))]
fn is_encrypted<D: ForkDisk>(disk: &mut D, view: &View) -> Result<bool, DiskFault>
    requires sound { IsView view.now }
    requires size { HasBytes D.ForkDisk disk.old (λ file. view.now.file ≡ length file) }
    ensures reads { D.is_honest disk.new → Learns D.ForkDisk disk.old disk.new
        (λ file. IfOk result (λ found. found ≡ is_encrypted (bytes_in view.now file))) }
    ensures cause { Counts (D.failures disk.old) (D.failures disk.new) result }
{
    Ok(
        view.number(disk, 8, 0)? == 0x656E_6372_6364_7361
            || view.number_before(disk, 8, 8)? == 0x6364_7361_656E_6372,
    )
}

/// Whether it begins as a sparse image.
#[tactic(auto, unfolding(crate::specs::Known::is_sparse))]
fn is_sparse<D: ForkDisk>(disk: &mut D, view: &View) -> Result<bool, DiskFault>
    requires sound { IsView view.now }
    requires size { HasBytes D.ForkDisk disk.old (λ file. view.now.file ≡ length file) }
    ensures reads { D.is_honest disk.new → Learns D.ForkDisk disk.old disk.new
        (λ file. IfOk result (λ found. found ≡ is_sparse (bytes_in view.now file))) }
    ensures cause { Counts (D.failures disk.old) (D.failures disk.new) result }
{
    Ok(view.number(disk, 4, 0)? == 0x7370_7273)
}

/// Whether it begins as the sector of a CD.
#[tactic(auto, unfolding(crate::specs::Known::is_raw_cd))]
fn is_raw_cd<D: ForkDisk>(disk: &mut D, view: &View) -> Result<bool, DiskFault>
    requires sound { IsView view.now }
    requires size { HasBytes D.ForkDisk disk.old (λ file. view.now.file ≡ length file) }
    ensures reads { D.is_honest disk.new → Learns D.ForkDisk disk.old disk.new
        (λ file. IfOk result (λ found. found ≡ is_raw_cd (bytes_in view.now file))) }
    ensures cause { Counts (D.failures disk.old) (D.failures disk.new) result }
{
    Ok(view.number(disk, 8, 0)? == 0x00FF_FFFF_FFFF_FFFF && view.number(disk, 4, 8)? == 0xFFFF_FF00)
}

/// Whether a disk can have so many bytes of data and of tags.
#[tactic(auto, unfolding(crate::specs::Known::is_sized))]
fn is_sized(size: u64, tags: u64) -> bool
    ensures { result ≡ is_sized size tags }
{
    size > 0 && size % 512 == 0 && (tags == 0 || tags == size / 512 * 12)
}

/// Whether it has a header of DiskCopy 4.2.
#[tactic(auto, unfolding(crate::specs::Known::is_disk_copy))]
fn is_disk_copy<D: ForkDisk>(disk: &mut D, view: &View) -> Result<bool, DiskFault>
    requires sound { IsView view.now }
    requires size { HasBytes D.ForkDisk disk.old (λ file. view.now.file ≡ length file) }
    ensures reads { D.is_honest disk.new → Learns D.ForkDisk disk.old disk.new
        (λ file. IfOk result (λ found. found ≡ is_disk_copy (bytes_in view.now file))) }
    ensures cause { Counts (D.failures disk.old) (D.failures disk.new) result }
{
    let name = view.number(disk, 1, 0)?;
    let mark = view.number(disk, 2, 82)?;
    let data = view.number(disk, 4, 64)?;
    let tags = view.number(disk, 4, 68)?;
    Ok(1 <= name && name <= 63 && mark == 0x0100 && is_sized(data, tags))
}

/// Whether it has a driver map, or a partition map.
#[tactic(auto, unfolding(crate::specs::Known::has_map))]
fn has_map<D: ForkDisk>(disk: &mut D, view: &View) -> Result<bool, DiskFault>
    requires sound { IsView view.now }
    requires size { HasBytes D.ForkDisk disk.old (λ file. view.now.file ≡ length file) }
    ensures reads { D.is_honest disk.new → Learns D.ForkDisk disk.old disk.new
        (λ file. IfOk result (λ found. found ≡ has_map (bytes_in view.now file))) }
    ensures cause { Counts (D.failures disk.old) (D.failures disk.new) result }
{
    Ok(view.number(disk, 2, 0)? == 0x4552 || view.number(disk, 2, 512)? == 0x504D)
}

/// Whether it has the partition map of a Macintosh Plus.
#[tactic(auto, unfolding(crate::specs::Known::has_old_map))]
fn has_old_map<D: ForkDisk>(disk: &mut D, view: &View) -> Result<bool, DiskFault>
    requires sound { IsView view.now }
    requires size { HasBytes D.ForkDisk disk.old (λ file. view.now.file ≡ length file) }
    ensures reads { D.is_honest disk.new → Learns D.ForkDisk disk.old disk.new
        (λ file. IfOk result (λ found. found ≡ has_old_map (bytes_in view.now file))) }
    ensures cause { Counts (D.failures disk.old) (D.failures disk.new) result }
{
    Ok(view.number(disk, 2, 512)? == 0x5453)
}

/// Whether it is an ISO 9660 disc.
#[tactic(auto, unfolding(crate::specs::Known::is_iso))]
fn is_iso<D: ForkDisk>(disk: &mut D, view: &View) -> Result<bool, DiskFault>
    requires sound { IsView view.now }
    requires size { HasBytes D.ForkDisk disk.old (λ file. view.now.file ≡ length file) }
    ensures reads { D.is_honest disk.new → Learns D.ForkDisk disk.old disk.new
        (λ file. IfOk result (λ found. found ≡ is_iso (bytes_in view.now file))) }
    ensures cause { Counts (D.failures disk.old) (D.failures disk.new) result }
{
    Ok(view.number(disk, 6, 32768)? == 0x0143_4430_3031)
}

/// Whether these are the signature of an HFS volume, and the length of its name.
fn is_hfs(signature: u64, name: u64) -> bool
    ensures { result ≡ is_hfs signature name }
{
    signature == 0x4244 && 1 <= name && name <= 27
}

/// The format of the volume whose block of information is at a place.
#[tactic(auto, unfolding(crate::specs::Known::format_at))]
pub(crate) fn format_at<D: ForkDisk>(
    disk: &mut D,
    view: &View,
    at: u64,
) -> Result<Option<Format>, DiskFault>
    requires sound { IsView view.now }
    requires size { HasBytes D.ForkDisk disk.old (λ file. view.now.file ≡ length file) }
    requires low { at + 36 < 2 ^ 64 }
    ensures reads { D.is_honest disk.new → Learns D.ForkDisk disk.old disk.new
        (λ file. IfOk result (λ found. found ≡ format_at at (bytes_in view.now file))) }
    ensures cause { Counts (D.failures disk.old) (D.failures disk.new) result }
{
    let signature = view.number(disk, 2, at)?;
    let name = view.number(disk, 1, at + 36)?;
    let version = view.number(disk, 4, at)?;
    if is_hfs(signature, name) {
        Ok(Some(Format::Hfs))
    } else if signature == 0xD2D7 {
        Ok(Some(Format::Mfs))
    } else if version == 0x482B_0004 || version == 0x4858_0005 {
        Ok(Some(Format::HfsPlus))
    } else {
        Ok(None)
    }
}

/// The format of a volume that has a copy of its block of information.
fn hfs_or_mfs(format: Option<Format>) -> Option<Format>
    ensures { result ≡ hfs_or_mfs format }
{
    match format {
        Some(Format::Hfs) => Some(Format::Hfs),
        Some(Format::Mfs) => Some(Format::Mfs),
        Some(Format::HfsPlus) | None => None,
    }
}

/// The format of the volume that has a copy of that block.
pub(crate) fn format_of_copy<D: ForkDisk>(
    disk: &mut D,
    view: &View,
) -> Result<Option<Format>, DiskFault>
    requires sound { IsView view.now }
    requires size { HasBytes D.ForkDisk disk.old (λ file. view.now.file ≡ length file) }
    ensures reads { D.is_honest disk.new → Learns D.ForkDisk disk.old disk.new
        (λ file. IfOk result (λ found. found ≡ format_of_copy (bytes_in view.now file))) }
    ensures cause { Counts (D.failures disk.old) (D.failures disk.new) result }
{
    if view.size < 1536 {
        return Ok(None);
    }
    let format = format_at(disk, view, (view.size / 512 - 2) * 512)?;
    Ok(hfs_or_mfs(format))
}

/// What it is known as that isn't a disk's own blocks.
#[tactic(auto, unfolding(crate::specs::Known::image_of))]
fn image_of<D: ForkDisk>(disk: &mut D, view: &View) -> Result<Option<Known>, DiskFault>
    requires sound { IsView view.now }
    requires size { HasBytes D.ForkDisk disk.old (λ file. view.now.file ≡ length file) }
    ensures reads { D.is_honest disk.new → Learns D.ForkDisk disk.old disk.new
        (λ file. IfOk result (λ found. found ≡ image_of (bytes_in view.now file))) }
    ensures cause { Counts (D.failures disk.old) (D.failures disk.new) result }
{
    if is_udif(disk, view)? {
        return Ok(Some(Known::Udif));
    }
    if is_encrypted(disk, view)? {
        return Ok(Some(Known::Encrypted));
    }
    if is_sparse(disk, view)? {
        return Ok(Some(Known::Sparse));
    }
    if is_raw_cd(disk, view)? {
        return Ok(Some(Known::RawCd));
    }
    if is_disk_copy(disk, view)? {
        return Ok(Some(Known::DiskCopy));
    }
    Ok(None)
}

/// What a disk's own blocks are known as.
#[tactic(auto, unfolding(crate::specs::Known::disk_of))]
fn disk_of<D: ForkDisk>(disk: &mut D, view: &View) -> Result<Known, DiskFault>
    requires sound { IsView view.now }
    requires size { HasBytes D.ForkDisk disk.old (λ file. view.now.file ≡ length file) }
    ensures reads { D.is_honest disk.new → Learns D.ForkDisk disk.old disk.new
        (λ file. IfOk result (λ found. found ≡ disk_of (bytes_in view.now file))) }
    ensures cause { Counts (D.failures disk.old) (D.failures disk.new) result }
{
    if has_map(disk, view)? {
        return Ok(Known::Map);
    }
    if let Some(format) = format_at(disk, view, 1024)? {
        return Ok(Known::Volume(format));
    }
    if has_old_map(disk, view)? {
        return Ok(Known::OldMap);
    }
    if let Some(format) = format_of_copy(disk, view)? {
        return Ok(Known::Volume(format));
    }
    if is_iso(disk, view)? {
        return Ok(Known::Iso);
    }
    Ok(Known::Other)
}

/// What the bytes are known as: the first that fits. Some forty numbers are read, of eight bytes at most.
#[tactic(auto, unfolding(crate::specs::Known::known_as))]
pub fn known_as<D: ForkDisk>(disk: &mut D, view: &View) -> Result<Known, DiskFault>
    requires sound { IsView view.now }
    requires size { HasBytes D.ForkDisk disk.old (λ file. view.now.file ≡ length file) }
    ensures reads { D.is_honest disk.new → Learns D.ForkDisk disk.old disk.new
        (λ file. IfOk result (λ found. found ≡ known_as (bytes_in view.now file))) }
    ensures cause { Counts (D.failures disk.old) (D.failures disk.new) result }
{
    match image_of(disk, view)? {
        Some(known) => Ok(known),
        None => disk_of(disk, view),
    }
}
