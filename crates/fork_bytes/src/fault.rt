//! Why a fork isn't read or written.

use thiserror::Error;

/// What must hold of the bytes of a fork, in the order in which it is looked at. `Limits` say how many are too many.
#[derive(Clone, Copy, Debug, PartialEq, Eq, Error)]
pub enum Condition {
    /// There are not too many bytes, the data and the map lie within them, and the map has 28 bytes at least.
    #[error("the data or the map lies outside the fork, or the fork is too long")]
    Parts,
    /// The type list lies within the map, and no type is in it twice.
    #[error("the type list ends outside the map, or a type is in it twice")]
    Types,
    /// Each reference lies within the map.
    #[error("a list of references ends outside the map")]
    References,
    /// There are not too many references: for a map of this length, where `Limits` say so.
    #[error("there are too many resources")]
    RowCount,
    /// Each name lies within the map.
    #[error("a name ends outside the map")]
    Names,
    /// The bytes of each resource lie within the data.
    #[error("the bytes of a resource end outside the data")]
    Places,
    /// The bytes of all resources, each with its four bytes of length, are not too many.
    #[error("the resources have too many bytes together")]
    ByteCount,
}

/// Why bytes aren't read as a fork.
#[derive(Clone, Copy, Debug, PartialEq, Eq, Error)]
pub enum ForkFault {
    /// The bytes end within the header: there are fewer than 16.
    #[error("the fork ends within its header")]
    EndOfFile,
    /// The bytes are no fork: the first condition that doesn't hold.
    #[error("the fork is damaged: {0}")]
    BadMap(Condition),
    /// The host has no memory for the table.
    #[error("the host has no memory")]
    HostFull,
}

/// Why a table isn't written.
#[derive(Clone, Copy, Debug, Error)]
pub enum WriteFault {
    /// The table has no fork, or its fork is larger than `Limits` say.
    #[error("the table is too big for a fork")]
    TooBig,
    /// The host has no memory for the fork.
    #[error("the host has no memory")]
    HostFull,
}
