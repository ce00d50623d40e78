//! Archives and disk images, which aren't read here: each is known by its bytes, and other software opens it.

ghost use Rattle.std.specs.Prelude.{◌≡◌};
ghost use Rattle.mac_files.specs.Archives.{archive_of, has_at, has_boot_blocks, is_compact_pro, is_disk_copy};

use crate::number::read_four;
use std::fmt;

/// What holds files and isn't read here.
#[derive(Clone, Copy, Debug, PartialEq, Eq)]
pub enum Archive {
    /// StuffIt, of any version up to 5, and StuffIt X.
    StuffIt,
    CompactPro,
    Zip,
    Gzip,
    /// An image of a disk, written by DiskCopy 4.2.
    DiskCopy,
    /// An image of an HFS volume.
    Hfs,
    /// An image of an HFS+ volume.
    HfsPlus,
}

impl Archive {
    /// What it is called.
    pub fn name(self) -> &'static str {
        match self {
            Archive::StuffIt => "StuffIt archive",
            Archive::CompactPro => "Compact Pro archive",
            Archive::Zip => "zip archive",
            Archive::Gzip => "gzip file",
            Archive::DiskCopy => "DiskCopy 4.2 image",
            Archive::Hfs => "HFS volume",
            Archive::HfsPlus => "HFS+ volume",
        }
    }

    /// The command that opens it.
    pub fn command(self) -> &'static str {
        match self {
            Archive::StuffIt | Archive::CompactPro => "unar -k hidden FILE",
            Archive::Zip => "unzip FILE",
            Archive::Gzip => "gunzip -k FILE",
            Archive::DiskCopy => "tail -c +85 FILE >VOLUME; hmount VOLUME",
            Archive::Hfs => "hmount FILE; hcopy -m :NAME .",
            Archive::HfsPlus => "7z x FILE",
        }
    }
}

impl fmt::Display for Archive {
    fn fmt<W: fmt::Write>(&self, f: &mut fmt::Formatter<W>) -> fmt::Result {
        write!(f, "a {}, which `{}` opens", self.name(), self.command())
    }
}

/// Whether the file has these bytes at a place.
fn has_at(file: &[u8], at: usize, bytes: &[u8]) -> bool
    ensures { result ≡ has_at at bytes.now file.now }
{
    at <= file.len() && file[at..].starts_with(bytes)
}

/// Whether the file begins as a volume does: with boot blocks, or with zeros.
fn has_boot_blocks(file: &[u8]) -> bool
    ensures { result ≡ has_boot_blocks file.now }
{
    has_at(file, 0, b"LK") || has_at(file, 0, b"\x00\x00")
}

/// Whether the file begins as Compact Pro: a first volume, and a directory within the file.
fn is_compact_pro(file: &[u8]) -> bool
    ensures { result ≡ is_compact_pro file.now }
{
    file.len() >= 8
        && file[0] == 1
        && file[1] == 1
        && 8 <= read_four(file, 4)
        && (read_four(file, 4) as usize) < file.len()
}

/// Whether the file has the header of a DiskCopy 4.2 image: a name of 1 to 63 bytes, and $0100 at 82.
fn is_disk_copy(file: &[u8]) -> bool
    ensures { result ≡ is_disk_copy file.now }
{
    file.len() >= 84 && 1 <= file[0] && file[0] <= 63 && file[82] == 1 && file[83] == 0
}

/// The archive that the bytes of a file are known as, or None.
pub fn archive_of(file: &[u8]) -> Option<Archive>
    ensures { result ≡ archive_of file.now }
{
    if has_at(file, 0, b"StuffIt") || has_at(file, 10, b"rLau") {
        Some(Archive::StuffIt)
    } else if has_at(file, 0, b"PK\x03\x04") {
        Some(Archive::Zip)
    } else if has_at(file, 0, b"\x1F\x8B") {
        Some(Archive::Gzip)
    } else if has_boot_blocks(file) && has_at(file, 1024, b"BD") {
        Some(Archive::Hfs)
    } else if has_boot_blocks(file) && (has_at(file, 1024, b"H+") || has_at(file, 1024, b"HX")) {
        Some(Archive::HfsPlus)
    } else if is_disk_copy(file) {
        Some(Archive::DiskCopy)
    } else if is_compact_pro(file) {
        Some(Archive::CompactPro)
    } else {
        None
    }
}
