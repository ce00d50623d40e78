//! Why the opcodes of a picture aren't read.

use std::alloc::AllocError;
use thiserror::Error;

/// What isn't so of the bytes of a picture. Places and numbers are of bytes.
#[derive(Clone, Copy, Debug, PartialEq, Eq, Error)]
pub enum Fault {
    /// It has more than 16,777,216 bytes.
    #[error("it has more than 16,777,216 bytes")]
    TooLarge,
    /// It has fewer bytes than so many.
    #[error("it has fewer than {0} bytes")]
    Short(u64),
    /// What is at this place isn't the opcode of version 1 or 2.
    #[error("the opcode at {0} isn't that of version 1 or 2")]
    Version(u64),
    /// It has more than 1,048,576 opcodes.
    #[error("it has more than 1,048,576 opcodes")]
    TooMany,
    /// The word at this place, the size of a region or a polygon, is less than 10.
    #[error("the word at {0}, the size of a region or a polygon, is less than 10")]
    Size(u64),
    /// The word at this place, the type of a pattern, is neither 1 nor 2.
    #[error("the word at {0}, the type of a pattern, is neither 1 nor 2")]
    Pattern(u64),
    /// The word at this place is no number of bits that a dot has there.
    #[error("the word at {0} is no number of bits that a dot has there")]
    Depth(u64),
    /// The word at this place is fewer bytes than a row needs.
    #[error("the word at {0} is fewer bytes than a row needs")]
    RowBytes(u64),
    /// The word at this place is no way to pack dots of so many bits.
    #[error("the word at {0} is no way to pack dots of so many bits")]
    Packing(u64),
    /// The word at this place isn't 3 or 4 parts of a dot.
    #[error("the word at {0} isn't 3 or 4 parts of a dot")]
    Parts(u64),
}

/// Why there is no list of opcodes.
#[derive(Clone, Copy, Debug, PartialEq, Eq, Error)]
pub enum NotRead {
    /// The bytes aren't such a resource.
    #[error("{0}")]
    Fault(Fault),
    /// The host has no memory.
    #[error("the host has no memory")]
    HostFull,
}

impl From<Fault> for NotRead {
    ghost use Rattle.std.specs.Prelude.{◌≡◌};
    ghost use Rattle.pict_bytes.specs.declared.fault.NotRead.TheVariants as unread;

    ghost from_gives = { λ fault why. why ≡ unread.Fault fault };

    fn from(fault: Fault) -> NotRead {
        NotRead::Fault(fault)
    }
}

impl From<AllocError> for NotRead {
    ghost use Rattle.std.specs.Prelude.{◌≡◌};
    ghost use Rattle.pict_bytes.specs.declared.fault.NotRead.TheVariants.{HostFull};

    ghost from_gives = { λ _ why. why ≡ HostFull };

    fn from(_: AllocError) -> NotRead {
        NotRead::HostFull
    }
}
