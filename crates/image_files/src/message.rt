//! Why an image, a volume or a file isn't read, as text.

use crate::files::VolumeRefusal;
use crate::refusal::FileRefusal;
use disk_image::fault::{ImageFault, OpenFault};
use disk_image::known::{Format, Known};
use hfs_tree::fault::{Condition, TreeFault};
use hfs_volume::entry::Which;
use hfs_volume::fault::{ForkFault, VolumeFault};
use mfs_volume::fault::{ChainFault, MfsFault};
use std::fmt;

/// The format of a volume, as text.
#[derive(Clone, Copy)]
pub struct FormatText(pub Format);

impl fmt::Display for FormatText {
    fn fmt<W: fmt::Write>(&self, f: &mut fmt::Formatter<W>) -> fmt::Result {
        match self.0 {
            Format::Hfs => write!(f, "HFS"),
            Format::Mfs => write!(f, "MFS"),
            Format::HfsPlus => write!(f, "HFS Plus"),
        }
    }
}

/// What a file is known as, as text.
#[derive(Clone, Copy)]
pub struct KnownText(pub Known);

impl fmt::Display for KnownText {
    fn fmt<W: fmt::Write>(&self, f: &mut fmt::Formatter<W>) -> fmt::Result {
        match self.0 {
            Known::Udif => write!(f, "a disk image of Mac OS X (UDIF)"),
            Known::Encrypted => write!(f, "an encrypted disk image of Mac OS X"),
            Known::Sparse => write!(f, "a sparse disk image of Mac OS X"),
            Known::RawCd => write!(f, "a CD in raw sectors of 2352 bytes"),
            Known::DiskCopy => write!(f, "a DiskCopy 4.2 image"),
            Known::Map => write!(f, "a disk with a partition map"),
            Known::Volume(format) => {
                let format = FormatText(format);
                write!(f, "a volume of {format}")
            }
            Known::OldMap => write!(f, "a disk with a partition map of the Macintosh Plus"),
            Known::Iso => write!(f, "an ISO 9660 disc without a volume of a Macintosh"),
            Known::Other => write!(f, "no disk image that is known"),
        }
    }
}

/// The program that unpacks what isn't read.
fn program_for(known: Known) -> &'static str {
    match known {
        Known::Udif => "; 7z x or dmg2img unpacks it",
        Known::Volume(Format::HfsPlus) | Known::Iso => "; 7z x unpacks it",
        Known::RawCd => "; bchunk unpacks it",
        Known::Encrypted
        | Known::Sparse
        | Known::DiskCopy
        | Known::Map
        | Known::Volume(_)
        | Known::OldMap
        | Known::Other => "",
    }
}

/// A fault of an image, as text.
#[derive(Clone, Copy)]
struct FaultText(ImageFault);

impl fmt::Display for FaultText {
    fn fmt<W: fmt::Write>(&self, f: &mut fmt::Formatter<W>) -> fmt::Result {
        match self.0 {
            ImageFault::Refused(known) => {
                let program = program_for(known);
                let known = KnownText(known);
                write!(f, "it is {known}{program}")
            }
            ImageFault::Sector(mode) => {
                write!(
                    f,
                    "its first sector has mode {mode}, without bytes of a disk; bchunk unpacks it"
                )
            }
            ImageFault::Entries(count, at) => {
                write!(
                    f,
                    "its partition map has {count} entries, at ${at:06X} of the disk"
                )
            }
            ImageFault::Mark(number, at) => {
                write!(
                    f,
                    "entry {number} of its partition map has no mark, at ${at:06X} of the disk"
                )
            }
            ImageFault::NoVolume(count) => {
                write!(
                    f,
                    "none of its {count} partitions is a volume of HFS or MFS"
                )
            }
            ImageFault::Start(number, at) => {
                write!(
                    f,
                    "partition {number} begins at ${at:06X}, where the disk has ended"
                )
            }
            ImageFault::Part(number, Some(format)) => {
                let format = FormatText(format);
                write!(
                    f,
                    "partition {number} is a volume of {format}; 7z x unpacks it"
                )
            }
            ImageFault::Part(number, None) => {
                write!(
                    f,
                    "partition {number} isn't known as a volume of HFS or MFS"
                )
            }
        }
    }
}

/// Why an image isn't read, as text: the first condition that doesn't hold, its place in the disk, and a program that
/// unpacks what isn't read.
#[derive(Clone, Copy)]
pub struct ImageText(pub OpenFault);

impl fmt::Display for ImageText {
    fn fmt<W: fmt::Write>(&self, f: &mut fmt::Formatter<W>) -> fmt::Result {
        match self.0 {
            OpenFault::Image(fault) => {
                let fault = FaultText(fault);
                write!(f, "{fault}")
            }
            OpenFault::Read(fault) => write!(f, "{fault}"),
        }
    }
}

/// A fault of a catalog, as text.
#[derive(Clone, Copy)]
struct TreeText(TreeFault);

impl fmt::Display for TreeText {
    fn fmt<W: fmt::Write>(&self, f: &mut fmt::Formatter<W>) -> fmt::Result {
        let TreeFault {
            condition,
            node,
            row,
            place,
        } = self.0;
        match condition {
            Condition::Outside => write!(f, "node {node} lies outside the volume")?,
            Condition::Header => write!(f, "node {node} is no header with nodes of 512 bytes")?,
            Condition::Again => write!(f, "node {node} is in the chain already")?,
            Condition::NoLeaf => write!(f, "node {node} is no leaf")?,
            Condition::Crowded => write!(f, "node {node} has too many records")?,
            Condition::Offset => write!(f, "record {row} of node {node} begins at a wrong place")?,
            Condition::Key => write!(f, "record {row} of node {node} has a wrong key")?,
            Condition::Body => write!(
                f,
                "record {row} of node {node} is too short or of no known type"
            )?,
        }
        write!(f, ", at ${place:06X} of the volume")
    }
}

/// Why a volume isn't read, as text: the first condition that doesn't hold, and its place in the volume.
#[derive(Clone, Copy)]
pub struct VolumeText(pub VolumeRefusal);

impl fmt::Display for VolumeText {
    fn fmt<W: fmt::Write>(&self, f: &mut fmt::Formatter<W>) -> fmt::Result {
        match self.0 {
            VolumeRefusal::Partition(fault) => {
                let fault = FaultText(fault);
                write!(f, "{fault}")
            }
            VolumeRefusal::Hfs(fault) => {
                let fault = HfsText(fault);
                write!(f, "{fault}")
            }
            VolumeRefusal::Mfs(fault) => {
                let fault = MfsText(fault);
                write!(f, "{fault}")
            }
        }
    }
}

/// A fault of an HFS volume, as text.
#[derive(Clone, Copy)]
struct HfsText(VolumeFault);

impl fmt::Display for HfsText {
    fn fmt<W: fmt::Write>(&self, f: &mut fmt::Formatter<W>) -> fmt::Result {
        match self.0 {
            VolumeFault::Room(size) => {
                write!(
                    f,
                    "the volume has {size} bytes, and its master directory block ends at 1536"
                )
            }
            VolumeFault::Signature(at) => {
                write!(
                    f,
                    "there is no master directory block, at ${at:06X} of the volume"
                )
            }
            VolumeFault::Wrapper(at) => {
                write!(
                    f,
                    "it wraps an HFS Plus volume, at ${at:06X} of the volume; 7z x unpacks it"
                )
            }
            VolumeFault::BlockSize(at) => {
                write!(
                    f,
                    "the size of its allocation blocks is no multiple of 512, at ${at:06X} of the volume"
                )
            }
            VolumeFault::Catalog(fault) => {
                let fault = TreeText(fault);
                write!(f, "its catalog is damaged: {fault}")
            }
        }
    }
}

/// A fault of an MFS volume, as text.
#[derive(Clone, Copy)]
struct MfsText(MfsFault);

impl fmt::Display for MfsText {
    fn fmt<W: fmt::Write>(&self, f: &mut fmt::Formatter<W>) -> fmt::Result {
        match self.0 {
            MfsFault::Room(size) => {
                write!(
                    f,
                    "the volume has {size} bytes, and its information ends at 1536"
                )
            }
            MfsFault::Signature(at) => {
                write!(
                    f,
                    "there is no volume information, at ${at:06X} of the volume"
                )
            }
            MfsFault::BlockSize(at) => {
                write!(
                    f,
                    "the size of its allocation blocks is no multiple of 512, at ${at:06X} of the volume"
                )
            }
            MfsFault::Map(at) => {
                write!(
                    f,
                    "the map of its allocation blocks has no room, at ${at:06X} of the volume"
                )
            }
            MfsFault::Directory(at) => {
                write!(
                    f,
                    "its directory ends after the volume, at ${at:06X} of the volume"
                )
            }
            MfsFault::Entry(at) => {
                write!(
                    f,
                    "an entry of its directory has no name or ends outside its block, at ${at:06X} of the volume"
                )
            }
        }
    }
}

/// A fork of a file, as text.
#[derive(Clone, Copy)]
struct WhichText(Which);

impl fmt::Display for WhichText {
    fn fmt<W: fmt::Write>(&self, f: &mut fmt::Formatter<W>) -> fmt::Result {
        match self.0 {
            Which::Data => write!(f, "its data fork"),
            Which::Resource => write!(f, "its resource fork"),
        }
    }
}

/// Why a file isn't read, as text, with the place of its record in the volume.
#[derive(Clone, Copy)]
pub struct FileText(pub FileRefusal);

impl fmt::Display for FileText {
    fn fmt<W: fmt::Write>(&self, f: &mut fmt::Formatter<W>) -> fmt::Result {
        match self.0 {
            FileRefusal::NoFile => write!(f, "it is no file"),
            FileRefusal::Fork(which, fault) => {
                let which = WhichText(which);
                match fault {
                    ForkFault::Cover(at) => {
                        write!(
                            f,
                            "{which} has more bytes than its extents, by the record at ${at:06X} of the volume"
                        )
                    }
                    ForkFault::Blocks(at) => {
                        write!(
                            f,
                            "{which} has blocks that the volume hasn't, by the record at ${at:06X} of the volume"
                        )
                    }
                    ForkFault::There(at) => {
                        write!(
                            f,
                            "the image ends before {which} does, by the record at ${at:06X} of the volume"
                        )
                    }
                }
            }
            FileRefusal::Chain(which, fault) => {
                let which = WhichText(which);
                match fault {
                    ChainFault::Chain(at) => {
                        write!(
                            f,
                            "the blocks of {which} end before it does, by the entry at ${at:06X} of the volume"
                        )
                    }
                    ChainFault::There(at) => {
                        write!(
                            f,
                            "the image ends before {which} does, by the entry at ${at:06X} of the volume"
                        )
                    }
                }
            }
            FileRefusal::TooLong(length, limit) => {
                write!(
                    f,
                    "its forks have {length} bytes, more than the limit of {limit}; --limit SIZE reads more"
                )
            }
            FileRefusal::Unwritten(refusal) => write!(f, "{refusal}"),
            FileRefusal::Device => write!(f, "the device failed"),
            FileRefusal::HostFull => write!(f, "the host has no memory"),
        }
    }
}
