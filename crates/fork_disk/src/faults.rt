//! What stops a recovery.

ghost use Rattle.std.specs.Prelude.{◌≡◌};
ghost use Rattle.fork_disk.specs.declared.faults.RecoverFault.TheVariants.{Device, Host};

use crate::disk::DiskFault;
use std::alloc::{AllocError, AllocFailed};
use thiserror::Error;

/// Why a pair wasn't recovered.
#[derive(Clone, Copy, Debug, PartialEq, Eq, Error)]
pub enum RecoverFault {
    /// The device failed. It has counted that.
    #[error("the device failed while the fork was recovered")]
    Device,
    /// The host refused memory for the journal's fork. Nothing was written.
    #[error("no memory for the fork of the journal")]
    Host,
}

impl From<DiskFault> for RecoverFault {
    ghost from_gives = { λ _ e. e ≡ Device };

    fn from(_: DiskFault) -> Self {
        RecoverFault::Device
    }
}

impl From<AllocError> for RecoverFault {
    ghost from_gives = { λ _ e. e ≡ Host };

    fn from(_: AllocError) -> Self {
        RecoverFault::Host
    }
}

impl<T: Drop> From<AllocFailed<T>> for RecoverFault {
    ghost from_gives = { λ _ e. e ≡ Host };

    fn from(_: AllocFailed<T>) -> Self {
        RecoverFault::Host
    }
}
