//! Why a resource isn't drawn.

use std::alloc::AllocError;
use thiserror::Error;

/// What isn't so of the bytes of a resource. Places and numbers are of bytes.
#[derive(Clone, Copy, Debug, PartialEq, Eq, Error)]
pub enum Fault {
    /// It doesn't have just so many bytes.
    #[error("it hasn't just {0} bytes")]
    Length(u32),
    /// It doesn't have a multiple of so many bytes.
    #[error("its bytes aren't a multiple of {0}")]
    Multiple(u32),
    /// It has fewer bytes than so many.
    #[error("it has fewer than {0} bytes")]
    Short(u64),
    /// The resource with the mask doesn't have just so many bytes.
    #[error("the resource with its mask hasn't just {0} bytes")]
    MaskLength(u32),
    /// The word at this place, its type, is none that is drawn.
    #[error("the word at {0}, its type, is none that is drawn")]
    Type(u64),
    /// The word at this place isn't 1, 2, 4 or 8 bits for a pixel.
    #[error("the word at {0} isn't 1, 2, 4 or 8 bits for a pixel")]
    Depth(u64),
    /// The word at this place is fewer bytes than a row needs.
    #[error("the word at {0} is fewer bytes than a row needs")]
    RowBytes(u64),
    /// The rectangle at this place isn't 16 pixels wide and high.
    #[error("the rectangle at {0} isn't 16 pixels wide and high")]
    Bounds(u64),
    /// The bit map at this place, of the mask, is smaller than the picture.
    #[error("the bit map at {0}, of the mask, is smaller than the picture")]
    Mask(u64),
    /// It has no pixel.
    #[error("it has no pixel")]
    Empty,
    /// It has more than 16,777,216 bytes or pixels.
    #[error("it has more than 16,777,216 bytes or pixels")]
    TooLarge,
}

/// Why there is no picture.
#[derive(Clone, Copy, Debug, PartialEq, Eq, Error)]
pub enum NotDrawn {
    /// The bytes aren't such a resource.
    #[error("{0}")]
    Fault(Fault),
    /// The host has no memory.
    #[error("the host has no memory")]
    HostFull,
}

impl From<Fault> for NotDrawn {
    ghost use Rattle.std.specs.Prelude.{◌≡◌};
    ghost use Rattle.fork_pictures.specs.declared.fault.NotDrawn.TheVariants as unmade;

    ghost from_gives = { λ fault why. why ≡ unmade.Fault fault };

    fn from(fault: Fault) -> NotDrawn {
        NotDrawn::Fault(fault)
    }
}

impl From<AllocError> for NotDrawn {
    ghost use Rattle.std.specs.Prelude.{◌≡◌};
    ghost use Rattle.fork_pictures.specs.declared.fault.NotDrawn.TheVariants.{HostFull};

    ghost from_gives = { λ _ why. why ≡ HostFull };

    fn from(_: AllocError) -> NotDrawn {
        NotDrawn::HostFull
    }
}
