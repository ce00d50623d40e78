//! Why a table isn't changed.

use crate::row::ResourceId;
use mac_base::error::HostFull;
use thiserror::Error;

/// Why a table isn't changed.
#[derive(Clone, Copy, Debug, Error)]
pub enum Refusal {
    /// No resource has this type and id.
    #[error("there is no such resource")]
    Missing(ResourceId),
    /// A resource has the type and the id already.
    #[error("there is such a resource already")]
    Taken,
    /// All ids of a type are taken.
    #[error("no id is free")]
    NoFreeId,
    /// The host has no memory for the table.
    #[error("the host has no memory")]
    HostFull,
}

impl From<HostFull> for Refusal {
    ghost use Rattle.std.specs.Prelude.{◌≡◌};
    ghost use Rattle.fork_change.specs.declared.refusal.Refusal.TheVariants as why;

    ghost from_gives = { λ _ fault. fault ≡ why.HostFull };

    fn from(_: HostFull) -> Refusal {
        Refusal::HostFull
    }
}
