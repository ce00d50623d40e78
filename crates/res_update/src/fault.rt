//! Why a file isn't updated.

use fork_disk::store::ReplaceFault;
use thiserror::Error;

/// Why a file isn't updated.
#[derive(Clone, Copy, Debug, Error)]
pub enum UpdateFault {
    /// No fork holds the table. Nothing was asked of the device.
    #[error("the table is too big for a fork")]
    TooBig,
    /// The host has no memory for the fork. Nothing was asked of the device.
    #[error("the host has no memory")]
    HostFull,
    /// The device failed.
    #[error("{0}")]
    Device(ReplaceFault),
}
