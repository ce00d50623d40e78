//! The search for blocks that may be purged.

ghost use Rattle.std.specs.Prelude.{◌≡◌};
ghost use Rattle.zone_index.specs.Purging.{may_purge};

use crate::search::{Going, next_passing};
use crate::zone::IndexedZone;
use mac_base::block::Flags;

/// Whether a handle with a block may be purged under these flags.
pub(crate) fn may_purge(flags: Flags) -> bool
    ensures { result ≡ may_purge flags }
{
    flags.purge && !flags.lock
}

impl IndexedZone {
    ghost use Rattle.std.specs.Prelude.{IfNone, IfSome, IsTrue};
    ghost use Rattle.linked_zone.specs.Places.{SplitAt};
    ghost use Rattle.zone_index.specs.Purging.{FirstPurgeable, none_purgeable};

    /// The address of the first block from an address on that may be purged, if there is one: that of a handle that is
    /// purgeable and not locked. Besides such blocks at most those are read that were so once.
    pub fn next_purgeable(&self, from: u32) -> Option<u32>
        requires { SplitAt self.now from }
        ensures next { IfSome result (λ at. (split : SplitAt self.now from) → FirstPurgeable self.now.heap.table split.after from at) }
        ensures none { IfNone result ((split : SplitAt self.now from) → IsTrue (none_purgeable self.now.heap.table split.after)) }
    {
        let _spec = self.zone.spec();
        next_passing::<Going>(&self.zone, &self.purgeable, from)
    }
}
