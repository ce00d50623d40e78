//! The sums of neighbouring blocks.

use crate::order::Order;
use crate::weight::Weight;
use sum_tree::{Monoid, Span};

/// The sums of a zone's blocks.
#[derive(Clone, Copy, Debug, PartialEq, Eq)]
pub struct ZoneSums {
    /// The bytes of the blocks that are free or may be purged.
    pub space: u32,
    /// The most free bytes that one gap has.
    pub room: u32,
    /// The most bytes that one gap has of blocks that are free or may be purged.
    pub contiguous: u32,
}

/// The sums of neighbouring blocks.
#[derive(Clone, Copy)]
pub struct Sums {
    /// All their bytes.
    pub bytes: u32,
    /// Those of the blocks that are free or may be purged.
    pub space: u32,
    /// What gaps have of bytes that are free or may be purged.
    pub spaces: Span,
    /// Whether blocks can be moved down.
    pub order: Order,
}

impl Sums {
    ghost use Rattle.std.specs.Prelude.{◌≡◌, ◌+◌, ◌^◌, ◌<◌};
    ghost use Rattle.zone_index.specs.Spans.{both, one, IsWithin};

    /// Those of no block.
    pub const NONE: Sums = Sums {
        bytes: 0,
        space: 0,
        spaces: Span::Whole(0),
        order: Order::NONE,
    };

    /// Those of one block.
    pub fn of(weight: Weight) -> Sums
        ensures { result ≡ one weight }
    {
        let spaces = if weight.fixed {
            Span::FIXED
        } else {
            Span::Whole(weight.space)
        };
        Sums {
            bytes: weight.bytes,
            space: weight.space,
            spaces,
            order: Order::of(weight),
        }
    }

    /// Those of these blocks and of others after them.
    pub fn join(self, next: Sums) -> Sums
        requires here { IsWithin self }
        requires there { IsWithin next }
        requires few { self.bytes + next.bytes < 2 ^ 32 }
        ensures { result ≡ both self next }
    {
        Sums {
            bytes: self.bytes + next.bytes,
            space: self.space + next.space,
            spaces: self.spaces.join(next.spaces),
            order: self.order.join(next.order),
        }
    }
}
