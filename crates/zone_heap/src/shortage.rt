//! Why an attempt in a zone is refused.

use thiserror::Error;

/// Why the zone refuses an attempt. Nothing has changed then.
#[derive(Clone, Copy, Debug, PartialEq, Eq, Error)]
pub enum Shortage {
    /// A new handle was asked for, and no slot is free.
    #[error("no slot is free")]
    NoSlot,
    /// The request doesn't fit: no gap that it may use has room for it.
    #[error("no gap has room")]
    NoRoom,
}
