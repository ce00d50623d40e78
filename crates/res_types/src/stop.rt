//! Why a value isn't read or written.

ghost use Rattle.std.specs.Prelude.{◌≡◌};
ghost use Rattle.res_types.specs.declared.stop.Stop.TheVariants.{HostFull};

use std::alloc::{AllocError, AllocFailed};
use thiserror::Error;

/// Why a value isn't read or written.
#[derive(Clone, Copy, Debug, Error)]
pub enum Stop {
    /// The host has no memory.
    #[error("the host has no memory")]
    HostFull,
    /// Where so many bits or parts are left, they are none of the type.
    #[error("this isn't of the type where {0} are left")]
    Unfit(usize),
}

impl From<AllocError> for Stop {
    ghost from_gives = { λ _ e. e ≡ HostFull };

    fn from(_: AllocError) -> Stop {
        Stop::HostFull
    }
}

impl<T: Drop> From<AllocFailed<T>> for Stop {
    ghost from_gives = { λ _ e. e ≡ HostFull };

    fn from(_: AllocFailed<T>) -> Stop {
        Stop::HostFull
    }
}
