//! Why a tree isn't read.

ghost use Rattle.std.specs.Prelude.{◌≡◌};
ghost use Rattle.hfs_tree.specs.declared.fault.ReadFault.TheVariants.{Device, Host};

use fork_disk::disk::DiskFault;
use std::alloc::{AllocError, AllocFailed};
use thiserror::Error;

/// What is wrong with a tree.
#[derive(Clone, Copy, Debug, PartialEq, Eq)]
pub enum Condition {
    /// The node lies outside the tree's extents, the volume's blocks or its bytes.
    Outside,
    /// The first node is no header, or nodes don't have 512 bytes.
    Header,
    /// The leaf is in the chain already.
    Again,
    /// The node is no leaf.
    NoLeaf,
    /// The node has more records than there is room for.
    Crowded,
    /// The record begins at or before the one before it, or ends after the room for records.
    Offset,
    /// The record is too short for its key, or the key has a wrong length.
    Key,
    /// The record has another type than there are, or fewer bytes than its type has.
    Body,
}

/// The first fault of a tree: which node and which of its records it is of, and its place in the volume.
#[derive(Clone, Copy, Debug, PartialEq, Eq)]
pub struct TreeFault {
    pub condition: Condition,
    pub node: u32,
    pub row: u16,
    pub place: u64,
}

/// Why the bytes of a tree aren't read.
#[derive(Clone, Copy, Debug, PartialEq, Eq, Error)]
pub enum ReadFault {
    /// The device failed. It has counted that.
    #[error("the device failed")]
    Device,
    /// The host has no memory for the leaves.
    #[error("no memory for the catalog")]
    Host,
}

impl From<DiskFault> for ReadFault {
    ghost from_gives = { λ _ e. e ≡ Device };

    fn from(_: DiskFault) -> Self {
        ReadFault::Device
    }
}

impl From<AllocError> for ReadFault {
    ghost from_gives = { λ _ e. e ≡ Host };

    fn from(_: AllocError) -> Self {
        ReadFault::Host
    }
}

impl<T: Drop> From<AllocFailed<T>> for ReadFault {
    ghost from_gives = { λ _ e. e ≡ Host };

    fn from(_: AllocFailed<T>) -> Self {
        ReadFault::Host
    }
}
