//! Why a picture isn't drawn.

use crate::undrawn::Undrawn;
use pict_bytes::fault::Fault as Unread;
use std::alloc::AllocError;
use thiserror::Error;

/// What isn't so of a picture.
#[derive(Clone, Copy, Debug, PartialEq, Eq, Error)]
pub enum Fault {
    /// Its bytes are no list of opcodes.
    #[error("{0}")]
    Opcodes(Unread),
    /// Its frame has no dot.
    #[error("it has no dot")]
    Empty,
    /// Its frame has more than 16,777,216 dots.
    #[error("it has more than 16,777,216 dots")]
    TooLarge,
    /// What it draws would take too long.
    #[error("what it draws, one over the other, would take too long")]
    TooMuch,
    /// It draws something, and nothing of it is drawn.
    #[error("it has {0}, and no bit map or pixel map that is drawn")]
    Nothing(Undrawn),
}

/// Why there is no picture.
#[derive(Clone, Copy, Debug, PartialEq, Eq, Error)]
pub enum NotDrawn {
    /// The bytes aren't such a resource.
    #[error("{0}")]
    Fault(Fault),
    /// The host has no memory.
    #[error("the host has no memory")]
    HostFull,
}

impl From<Fault> for NotDrawn {
    ghost use Rattle.std.specs.Prelude.{◌≡◌};
    ghost use Rattle.fork_drawings.specs.declared.fault.NotDrawn.TheVariants as undrawn;

    ghost from_gives = { λ fault why. why ≡ undrawn.Fault fault };

    fn from(fault: Fault) -> NotDrawn {
        NotDrawn::Fault(fault)
    }
}

impl From<AllocError> for NotDrawn {
    ghost use Rattle.std.specs.Prelude.{◌≡◌};
    ghost use Rattle.fork_drawings.specs.declared.fault.NotDrawn.TheVariants.{HostFull};

    ghost from_gives = { λ _ why. why ≡ HostFull };

    fn from(_: AllocError) -> NotDrawn {
        NotDrawn::HostFull
    }
}
