//! Why a volume isn't read.

ghost use Rattle.std.specs.Prelude.{◌≡◌};
ghost use Rattle.hfs_volume.specs.declared.fault.OpenFault.TheVariants.{Volume, Read};
ghost use Rattle.hfs_tree.specs.declared.fault.ReadFault.TheVariants.{Device};

use fork_disk::disk::DiskFault;
use hfs_tree::fault::{ReadFault, TreeFault};

/// The first condition that doesn't hold of a volume, with a place in it.
#[derive(Clone, Copy, Debug, PartialEq, Eq)]
pub enum VolumeFault {
    /// It has fewer than 1,536 bytes, where its master directory block ends: so many.
    Room(u64),
    /// The master directory block at a place doesn't begin with $4244.
    Signature(u64),
    /// It wraps a volume of another format, which is named at a place.
    Wrapper(u64),
    /// The size of its allocation blocks, at a place, is 0 or no multiple of 512.
    BlockSize(u64),
    /// The catalog has a fault.
    Catalog(TreeFault),
}

/// Why there is no volume.
#[derive(Clone, Copy, Debug, PartialEq, Eq)]
pub enum OpenFault {
    /// The bytes are none.
    Volume(VolumeFault),
    /// The device failed, or the host has no memory.
    Read(ReadFault),
}

/// The first condition that doesn't hold of a fork. Its file's record has its data at the place in the volume.
#[derive(Clone, Copy, Debug, PartialEq, Eq)]
pub enum ForkFault {
    /// Its extents have fewer bytes than it has.
    Cover(u64),
    /// An extent has blocks that the volume hasn't.
    Blocks(u64),
    /// The volume ends before its bytes do.
    There(u64),
}

impl From<VolumeFault> for OpenFault {
    ghost from_gives = { λ why fault. fault ≡ Volume why };

    fn from(why: VolumeFault) -> OpenFault {
        OpenFault::Volume(why)
    }
}

impl From<ReadFault> for OpenFault {
    ghost from_gives = { λ why fault. fault ≡ Read why };

    fn from(why: ReadFault) -> OpenFault {
        OpenFault::Read(why)
    }
}

impl From<DiskFault> for OpenFault {
    ghost from_gives = { λ _ fault. fault ≡ Read Device };

    fn from(_: DiskFault) -> OpenFault {
        OpenFault::Read(ReadFault::Device)
    }
}
