//! Why a fork isn't opened.

ghost use Rattle.std.specs.Prelude.{◌≡◌};
ghost use Rattle.fork_rows.specs.declared.fault.OpenFault.TheVariants.{Fork, Device};
ghost use Rattle.fork_rows.specs.Opening.{unrecovered};

use fork_bytes::fault::ForkFault;
use fork_disk::disk::DiskFault;
use fork_disk::faults::RecoverFault;
use thiserror::Error;

/// Why the resources of a fork aren't read from its disk.
#[derive(Clone, Copy, Debug, PartialEq, Eq, Error)]
pub enum OpenFault {
    /// The bytes are no fork, or the host has no memory for the table.
    #[error("{0}")]
    Fork(ForkFault),
    /// The device failed.
    #[error("the device failed")]
    Device,
}

impl From<DiskFault> for OpenFault {
    ghost from_gives = { λ _ fault. fault ≡ Device };

    fn from(_: DiskFault) -> OpenFault {
        OpenFault::Device
    }
}

impl From<ForkFault> for OpenFault {
    ghost from_gives = { λ why fault. fault ≡ Fork why };

    fn from(why: ForkFault) -> OpenFault {
        OpenFault::Fork(why)
    }
}

impl From<RecoverFault> for OpenFault {
    ghost from_gives = { λ why fault. fault ≡ unrecovered why };

    fn from(why: RecoverFault) -> OpenFault {
        match why {
            RecoverFault::Device => OpenFault::Device,
            RecoverFault::Host => OpenFault::Fork(ForkFault::HostFull),
        }
    }
}
