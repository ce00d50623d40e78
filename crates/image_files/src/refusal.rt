//! Why a file isn't read.

use hfs_tree::fault::ReadFault;
use hfs_volume::entry::Which;
use hfs_volume::fault::ForkFault;
use mac_write::refusal::Refusal;
use mfs_volume::fault::ChainFault;
use std::alloc::{AllocError, AllocFailed};

/// Why a file isn't read.
#[derive(Clone, Copy, Debug, PartialEq, Eq)]
pub enum FileRefusal {
    /// There is no file at this place.
    NoFile,
    /// A fork of a file in an HFS volume has a fault.
    Fork(Which, ForkFault),
    /// A fork of a file in an MFS volume has a fault.
    Chain(Which, ChainFault),
    /// The forks that are asked for have more bytes than the limit: so many, and the limit.
    TooLong(u64, u64),
    /// No container can hold what the file is: why MacBinary can't.
    Unwritten(Refusal),
    /// The device failed.
    Device,
    /// The host has no memory.
    HostFull,
}

impl From<ReadFault> for FileRefusal {
    ghost use Rattle.std.specs.Prelude.{◌≡◌};
    ghost use Rattle.image_files.specs.Refusals.{of_read};

    ghost from_gives = { λ fault refusal. refusal ≡ of_read fault };

    fn from(fault: ReadFault) -> FileRefusal {
        match fault {
            ReadFault::Device => FileRefusal::Device,
            ReadFault::Host => FileRefusal::HostFull,
        }
    }
}

impl From<AllocError> for FileRefusal {
    ghost use Rattle.std.specs.Prelude.{◌≡◌};
    ghost use Rattle.image_files.specs.declared.refusal.FileRefusal.TheVariants.{HostFull};

    ghost from_gives = { λ _ refusal. refusal ≡ HostFull };

    fn from(_: AllocError) -> FileRefusal {
        FileRefusal::HostFull
    }
}

impl<T: Drop> From<AllocFailed<T>> for FileRefusal {
    ghost use Rattle.std.specs.Prelude.{◌≡◌};
    ghost use Rattle.image_files.specs.declared.refusal.FileRefusal.TheVariants.{HostFull};

    ghost from_gives = { λ _ refusal. refusal ≡ HostFull };

    fn from(_: AllocFailed<T>) -> FileRefusal {
        FileRefusal::HostFull
    }
}
