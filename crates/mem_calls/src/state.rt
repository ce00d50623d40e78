//! The flags of a handle as the number that HGetState gives.

ghost use Rattle.std.specs.Prelude.{◌≡◌, ◌≤◌};
ghost use Rattle.mac_base.specs.FlagState.{flags_from, state_of};

use mac_base::block::Flags;

/// The block is locked.
const LOCK: u32 = 128;

/// The block may be purged.
const PURGE: u32 = 64;

/// The block has the contents of a resource.
const RESOURCE: u32 = 32;

/// The flags as a number: lock 128, purgeable 64, resource 32, added. HSetState sets them by it again.
pub fn state_of(flags: Flags) -> u32
    ensures state { result ≡ state_of flags }
    ensures flags { flags_from result ≡ flags }
    ensures possible { result ≤ 255 }
{
    let lock = if flags.lock { LOCK } else { 0 };
    let purge = if flags.purge { PURGE } else { 0 };
    let resource = if flags.resource { RESOURCE } else { 0 };
    lock + purge + resource
}

/// The flags that a number sets: lock 128, purgeable 64, resource 32. Its other bits say nothing.
pub(crate) fn flags_from(state: u32) -> Flags
    ensures { result ≡ flags_from state }
{
    Flags {
        lock: state & LOCK != 0,
        purge: state & PURGE != 0,
        resource: state & RESOURCE != 0,
    }
}
