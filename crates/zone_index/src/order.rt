//! Whether blocks can be moved down.

ghost use Rattle.std.specs.Prelude.{◌≡◌};
ghost use Rattle.zone_index.specs.Spans.{after_of, order_of, ordered, passed_on};

use crate::weight::Weight;

/// What is found after neighbouring blocks.
#[derive(Clone, Copy)]
pub struct Passed {
    /// Whether none of them can be moved down: right after each free one is a fixed one, or none.
    pub arranged: bool,
    /// Whether the last of them is free.
    pub free: bool,
}

/// What is found after neighbouring blocks, by what is before them.
#[derive(Clone, Copy)]
pub struct Order {
    /// Where that is a free block.
    pub after_free: Passed,
    /// Where it is another, or none.
    pub after_other: Passed,
}

impl Passed {
    /// What is found after these and other blocks.
    fn on(self, next: Order) -> Passed
        ensures { result ≡ passed_on self next }
    {
        let after = next.after(self.free);
        Passed {
            arranged: self.arranged && after.arranged,
            free: after.free,
        }
    }
}

impl Order {
    /// No block.
    pub const NONE: Order = Order {
        after_free: Passed {
            arranged: true,
            free: true,
        },
        after_other: Passed {
            arranged: true,
            free: false,
        },
    };

    /// One block.
    pub fn of(weight: Weight) -> Order
        ensures { result ≡ order_of weight }
    {
        let free = weight.free > 0;
        Order {
            after_free: Passed {
                arranged: weight.fixed,
                free,
            },
            after_other: Passed {
                arranged: true,
                free,
            },
        }
    }

    /// What is found after, where a free block is before, or none.
    pub fn after(self, free: bool) -> Passed
        ensures { result ≡ after_of self free }
    {
        if free {
            self.after_free
        } else {
            self.after_other
        }
    }

    /// These blocks and those after them.
    pub fn join(self, next: Order) -> Order
        ensures { result ≡ ordered self next }
    {
        Order {
            after_free: self.after_free.on(next),
            after_other: self.after_other.on(next),
        }
    }
}
