//! Why an image isn't read.

ghost use Rattle.std.specs.Prelude.{◌≡◌};
ghost use Rattle.disk_image.specs.declared.fault.OpenFault.TheVariants.{Image, Read};
ghost use Rattle.hfs_tree.specs.declared.fault.ReadFault.TheVariants.{Device, Host};

use crate::known::{Format, Known};
use fork_disk::disk::DiskFault;
use hfs_tree::fault::ReadFault;
use std::alloc::{AllocError, AllocFailed};

/// The first condition that doesn't hold of an image, or of one of its partitions. Places are in the disk that the
/// image has.
#[derive(Clone, Copy, Debug, PartialEq, Eq)]
pub enum ImageFault {
    /// It is known as something that has no volume that can be read.
    Refused(Known),
    /// The first sector of a raw CD, at 15 in the file, has a mode without bytes of a disk: this.
    Sector(u64),
    /// The partition map has so many entries, by the number at a place: none, more than 1,024, or more than there is
    /// room for.
    Entries(u64, u64),
    /// An entry of the partition map, of this number, doesn't begin with `PM`, at a place.
    Mark(u64, u64),
    /// None of so many partitions is a volume.
    NoVolume(u64),
    /// A partition, of this number, begins at a place where the disk has ended.
    Start(u16, u64),
    /// A partition, of this number, isn't known as a volume of HFS or MFS, but perhaps as another.
    Part(u16, Option<Format>),
}

/// Why there is no image.
#[derive(Clone, Copy, Debug, PartialEq, Eq)]
pub enum OpenFault {
    /// The bytes are none.
    Image(ImageFault),
    /// The device failed, or the host has no memory.
    Read(ReadFault),
}

impl From<ImageFault> for OpenFault {
    ghost from_gives = { λ why fault. fault ≡ Image why };

    fn from(why: ImageFault) -> OpenFault {
        OpenFault::Image(why)
    }
}

impl From<ReadFault> for OpenFault {
    ghost from_gives = { λ why fault. fault ≡ Read why };

    fn from(why: ReadFault) -> OpenFault {
        OpenFault::Read(why)
    }
}

impl From<DiskFault> for OpenFault {
    ghost from_gives = { λ _ fault. fault ≡ Read Device };

    fn from(_: DiskFault) -> OpenFault {
        OpenFault::Read(ReadFault::Device)
    }
}

impl From<AllocError> for OpenFault {
    ghost from_gives = { λ _ fault. fault ≡ Read Host };

    fn from(_: AllocError) -> OpenFault {
        OpenFault::Read(ReadFault::Host)
    }
}

impl<T: Drop> From<AllocFailed<T>> for OpenFault {
    ghost from_gives = { λ _ fault. fault ≡ Read Host };

    fn from(_: AllocFailed<T>) -> OpenFault {
        OpenFault::Read(ReadFault::Host)
    }
}
