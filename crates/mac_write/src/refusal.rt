//! Why a container isn't written.

ghost use Rattle.std.specs.Prelude.{◌≡◌};
ghost use Rattle.mac_write.specs.declared.refusal.Refusal.TheVariants.{Damaged, HostFull};

use mac_files::fault::{ContainerFault, Entry};
use std::alloc::{AllocError, AllocFailed};
use thiserror::Error;

/// Why a container isn't written.
#[derive(Clone, Copy, Debug, PartialEq, Eq, Error)]
pub enum Refusal {
    /// The file is damaged: the first fault.
    #[error("{0}")]
    Damaged(ContainerFault),
    /// An entry of AppleSingle or AppleDouble has bytes in the header or in the list, or shares some with the resource
    /// fork: the first in the list.
    #[error("entry {id}, listed at offset {at}, shares bytes with the list or the resource fork", id = .0.id, at = .0.at)]
    Overlap(Entry),
    /// The list of AppleSingle or AppleDouble has 65,535 entries, and none of a resource fork.
    #[error("the list of entries is full, and none of them is a resource fork")]
    ListFull,
    /// So many bytes are more than the container's numbers can count: of the fork in MacBinary, of the whole file in
    /// AppleSingle and AppleDouble.
    #[error("{length} bytes are too many: the container counts {most} at most")]
    TooLong { length: usize, most: usize },
    /// MacBinary needs a name.
    #[error("the container needs a name")]
    NoName,
    /// So many characters are more than a name of MacBinary has: 63.
    #[error("a name of {0} characters is too long: the container holds 63")]
    NameTooLong(usize),
    /// A name with a character 0, or with $16 as its first, could be taken for another container.
    #[error("the name has a control character that the container can't hold")]
    NameCharacter,
    /// The container's numbers can't count this date, in seconds from the beginning of 1904.
    #[error("a date {0} seconds after the beginning of 1904 is outside what the container counts")]
    DateOutside(u64),
    /// So many bytes are more than a comment of MacBinary has: 65,535.
    #[error("a comment of {0} bytes is too long: the container holds 65535")]
    CommentTooLong(usize),
    /// The host has no memory for the file.
    #[error("the host has no memory")]
    HostFull,
}

impl From<AllocError> for Refusal {
    ghost from_gives = { λ _ refusal. refusal ≡ HostFull };

    fn from(_: AllocError) -> Refusal {
        Refusal::HostFull
    }
}

impl From<ContainerFault> for Refusal {
    ghost from_gives = { λ fault refusal. refusal ≡ Damaged fault };

    fn from(fault: ContainerFault) -> Refusal {
        Refusal::Damaged(fault)
    }
}

impl<T: Drop> From<AllocFailed<T>> for Refusal {
    ghost from_gives = { λ _ refusal. refusal ≡ HostFull };

    fn from(_: AllocFailed<T>) -> Refusal {
        Refusal::HostFull
    }
}
