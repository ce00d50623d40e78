//! The search for the next block that passes a test, by the marks of those that do.

ghost use Rattle.std.specs.Prelude.{IfNone, IfSome};
ghost use Rattle.linked_zone.specs.Places.{SplitAt};
ghost use Rattle.zone_index.specs.Marks.{AreMarked};
ghost use Rattle.zone_index.specs.Search.{NextPassing, NonePassing};

use crate::purging::may_purge;
use linked_zone::LinkedZone;
use mac_base::block::{Flags, Kind};
use place_numbers::Bits;

/// A test of blocks, for which marks are kept.
pub(crate) trait BlockTest {
    ghost use Rattle.std.specs.Prelude.{◌≡◌, Bool};
    ghost use Rattle.mac_base.specs.BlockReport.{block_flags};
    ghost use Rattle.mac_base.specs.declared.block.Kind.{Kind};
    ghost use Rattle.mac_base.specs.HandleTable.{HandleTable};

    /// Which blocks pass.
    ghost test: { HandleTable → Kind → Bool };

    /// Whether a block of this kind passes, whose owner has these flags.
    fn passes(kind: Kind, flags: Flags) -> bool
        ensures { (t : HandleTable) → flags ≡ block_flags t kind → result ≡ test t kind };
}

/// A block that may not move: a master block, a nonrelocatable one or that of a locked handle.
pub(crate) struct Fixed;

/// A block that may be purged: that of a handle that is purgeable and not locked.
pub(crate) struct Going;

impl BlockTest for Fixed {
    ghost use Rattle.mac_base.specs.Gap.{is_fixed};

    ghost test = { is_fixed };

    fn passes(kind: Kind, flags: Flags) -> bool {
        match kind {
            Kind::Free => false,
            Kind::Master | Kind::Ptr(_) => true,
            Kind::Rel(_) => flags.lock,
        }
    }
}

impl BlockTest for Going {
    ghost use Rattle.zone_index.specs.Purging.{may_go};

    ghost test = { may_go };

    fn passes(_kind: Kind, flags: Flags) -> bool {
        may_purge(flags)
    }
}

ghost use Rattle.std.specs.Prelude.{◌↔◌, IsTrue};
ghost use Rattle.zone_index.specs.Marks.{PassesAt};

/// Whether the header of a block that passes is at this address. One header is read.
pub(crate) fn passes_at<T: BlockTest>(zone: &LinkedZone, at: u32) -> bool
    ensures { IsTrue result ↔ PassesAt T.test zone.now at }
{
    let _spec = zone.spec();
    match zone.entry(at) {
        Some(block) => T::passes(block.entry.kind, block.flags),
        None => false,
    }
}

/// The address of the first block from an address on that passes, if there is one. Besides such blocks at most those
/// are read that passed once.
pub(crate) fn next_passing<T: BlockTest>(zone: &LinkedZone, marks: &Bits, from: u32) -> Option<u32>
    requires split { SplitAt zone.now from }
    requires marked { AreMarked T.test zone.now marks.now }
    ensures next { IfSome result (λ at. NextPassing T.test zone.now from at) }
    ensures none { IfNone result (NonePassing T.test zone.now from) }
{
    let base = zone.spec().base();
    let mut place = (from - base) as usize / 4;
    while let Some(found) = marks.first_from(place) {
        let at = base + 4 * found as u32;
        if passes_at::<T>(zone, at) {
            return Some(at);
        }
        place = found + 1;
    }
    None
}
