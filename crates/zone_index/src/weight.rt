//! What a block weighs in the sums of a zone.

ghost use Rattle.std.specs.Prelude.{◌≡◌};
ghost use Rattle.mac_base.specs.ZoneMap.{block};
ghost use Rattle.linked_zone.specs.Places.{HasOwner};
ghost use Rattle.zone_index.specs.Weights.{weigh};

use linked_zone::LinkedZone;
use mac_base::block::Kind;

/// What a block weighs.
#[derive(Clone, Copy)]
pub struct Weight {
    /// Its bytes, header and all.
    pub bytes: u32,
    /// Its bytes where it is free, and else 0.
    pub free: u32,
    /// Its bytes where it is free, or that of a handle that may be purged, and else 0.
    pub space: u32,
    /// Whether it stays where it is.
    pub fixed: bool,
}

/// What a block of so many bytes and of this kind weighs. Flags are read once.
pub fn weigh(zone: &LinkedZone, bytes: u32, kind: Kind) -> Weight
    requires { HasOwner zone.now kind }
    ensures { result ≡ weigh zone.now.heap.table (block kind bytes) }
{
    let handle = match kind {
        Kind::Rel(handle) => handle,
        Kind::Free => {
            return Weight {
                bytes,
                free: bytes,
                space: bytes,
                fixed: false,
            };
        }
        Kind::Master | Kind::Ptr(_) => {
            return Weight {
                bytes,
                free: 0,
                space: 0,
                fixed: true,
            };
        }
    };
    let flags = zone.flags(handle);
    let goes = flags.purge && !flags.lock;
    Weight {
        bytes,
        free: 0,
        space: if goes { bytes } else { 0 },
        fixed: flags.lock,
    }
}
