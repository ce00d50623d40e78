//! What is kept of each leaf of a zone. A change of the zone makes the sums of a few leaves stale, and a question makes
//! them anew.

ghost use Rattle.std.specs.Prelude.{IsTrue};
ghost use Rattle.linked_zone.specs.Places.{SplitAt};
ghost use Rattle.zone_index.specs.Leaves.{IsUsed};
ghost use Rattle.zone_index.specs.LeafSums.{LeavesPassed, SameSums};

use linked_zone::LinkedZone;
use std::alloc::{AllocError, Global};
use sum_tree::{Largest, Span, StaleTree};

/// The bytes of a leaf.
pub const LEAF_SIZE: u32 = 0x100;

/// The sums of the blocks that begin in each leaf.
#[derive(Drop)]
pub(crate) struct LeafSums {
    /// What gaps have of their free bytes.
    pub(crate) rooms: StaleTree<Span>,
    /// The size of the largest free one.
    pub(crate) largest: StaleTree<Largest>,
}

impl LeafSums {
    ghost use Rattle.std.specs.Prelude.{◌^◌, ◌<◌, IfOk};
    ghost use Rattle.zone_index.specs.LeafSums.{AllStale, HasLeaf, IsNew, LeafTouched, SameSums};

    /// Those of so many leaves, all stale. The only error is that the host has no memory.
    pub(crate) fn create(alloc: Global, count: usize) -> Result<LeafSums, AllocError>
        requires { count < 2 ^ 40 }
        ensures { IfOk result (λ leaves. IsNew leaves count) }
    {
        Ok(LeafSums {
            rooms: StaleTree::create(alloc, count)?,
            largest: StaleTree::create(alloc, count)?,
        })
    }

    /// Notes that those of a leaf are stale.
    pub(crate) fn touch(&mut self, leaf: usize)
        requires { HasLeaf self.old leaf }
        ensures { LeafTouched self.old self.new leaf }
    {
        self.rooms.touch(leaf);
        self.largest.touch(leaf);
    }

    /// Notes that those of all leaves are stale.
    fn touch_all(&mut self)
        ensures sums { SameSums self.old self.new }
        ensures all { AllStale self.old self.new }
    {
        self.rooms.touch_all();
        self.largest.touch_all();
    }
}

/// Whether none of the blocks between two addresses is free.
fn is_used(zone: &LinkedZone, low: u32, high: u32) -> bool
    requires { SplitAt zone.now low }
    ensures { IsTrue result → (split : SplitAt zone.now low) → IsUsed split high }
{
    match zone.next_free(low) {
        Some(at) => high <= at,
        None => true,
    }
}

/// A block is to pass the others between two addresses. Where one of them is free all sums are stale.
pub(crate) fn pass(zone: &LinkedZone, leaves: &mut LeafSums, low: u32, high: u32)
    requires { SplitAt zone.now low }
    ensures sums { SameSums leaves.old leaves.new }
    ensures passed { (split : SplitAt zone.now low) → LeavesPassed leaves.old leaves.new split high }
{
    if !is_used(zone, low, high) {
        leaves.touch_all();
    }
}
