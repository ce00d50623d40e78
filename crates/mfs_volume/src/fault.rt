//! Why an MFS volume isn't read.

ghost use Rattle.std.specs.Prelude.{◌≡◌};
ghost use Rattle.mfs_volume.specs.declared.fault.NotMfs.TheVariants.{Volume, Read};
ghost use Rattle.hfs_tree.specs.declared.fault.ReadFault.TheVariants.{Device};

use fork_disk::disk::DiskFault;
use hfs_tree::fault::ReadFault;

/// The first condition that doesn't hold of a volume, with a place in it.
#[derive(Clone, Copy, Debug, PartialEq, Eq)]
pub enum MfsFault {
    /// It has fewer than 1,536 bytes, where the block of its information ends: so many.
    Room(u64),
    /// The volume information at a place doesn't begin with $D2D7, and neither does its copy.
    Signature(u64),
    /// The size of its allocation blocks, at a place, is 0 or no multiple of 512.
    BlockSize(u64),
    /// The map of its allocation blocks, of which a place gives the number, ends after the volume, or after the place
    /// where the directory begins.
    Map(u64),
    /// The directory, which is given at a place, ends after the volume.
    Directory(u64),
    /// The entry at a place has no name, or ends outside its block.
    Entry(u64),
}

/// Why there is no volume.
#[derive(Clone, Copy, Debug, PartialEq, Eq)]
pub enum NotMfs {
    /// The bytes are none.
    Volume(MfsFault),
    /// The device failed, or the host has no memory.
    Read(ReadFault),
}

/// The first condition that doesn't hold of a fork. Its file's entry is at the place in the volume.
#[derive(Clone, Copy, Debug, PartialEq, Eq)]
pub enum ChainFault {
    /// Its blocks end before its bytes do: the next one isn't the volume's, or is one of those before it, or blocks have
    /// no bytes.
    Chain(u64),
    /// The volume ends before its bytes do.
    There(u64),
}

impl From<MfsFault> for NotMfs {
    ghost from_gives = { λ why fault. fault ≡ Volume why };

    fn from(why: MfsFault) -> NotMfs {
        NotMfs::Volume(why)
    }
}

impl From<ReadFault> for NotMfs {
    ghost from_gives = { λ why fault. fault ≡ Read why };

    fn from(why: ReadFault) -> NotMfs {
        NotMfs::Read(why)
    }
}

impl From<DiskFault> for NotMfs {
    ghost from_gives = { λ _ fault. fault ≡ Read Device };

    fn from(_: DiskFault) -> NotMfs {
        NotMfs::Read(ReadFault::Device)
    }
}
