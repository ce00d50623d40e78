//! Why resource files aren't saved.

ghost use Rattle.std.specs.Prelude.{◌≡◌};
ghost use Rattle.row_image.specs.declared.fault.SaveFault.TheVariants as faults;

use mac_base::error;
use thiserror::Error;

/// Why resource files aren't saved, or aren't made of bytes.
#[derive(Clone, Copy, Debug, PartialEq, Eq, Error)]
pub enum SaveFault {
    /// The host has no memory.
    #[error("the host has no memory")]
    HostFull,
    /// The files can't be saved over the zone, or the bytes are those of none that can.
    #[error("these are no files that can be saved over the zone")]
    NotSound,
}

impl From<error::HostFull> for SaveFault {
    ghost from_gives = { λ _ fault. fault ≡ faults.HostFull };

    fn from(_: error::HostFull) -> SaveFault {
        SaveFault::HostFull
    }
}
