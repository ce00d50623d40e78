//! The largest of some blocks.

ghost use Rattle.std.specs.Prelude.{nat_le};

use crate::{Monoid, Test};

/// The size of the largest of some blocks, and 0 where there is none.
#[derive(Clone, Copy, PartialEq, Eq)]
pub struct Largest {
    pub bytes: u32,
}

impl Monoid for Largest {
    ghost use Rattle.std.specs.Prelude.{⊤};
    ghost use Rattle.sum_tree.specs.Largest.{no_block, larger, largest_laws};

    ghost empty = { no_block };

    ghost op = { larger };

    ghost fits = { λ largest. ⊤ };

    ghost laws = { largest_laws };

    fn none() -> Largest {
        Largest { bytes: 0 }
    }

    fn join(self, next: Largest) -> Largest {
        Largest {
            bytes: self.bytes.max(next.bytes),
        }
    }

    fn is_same(self, other: Largest) -> bool {
        self == other
    }
}

/// Whether some block has so many bytes.
#[derive(Drop)]
pub struct HasBlock {
    pub bytes: u32,
}

impl Test<Largest> for HasBlock {
    ghost passes = { λ test largest. nat_le test.bytes largest.bytes };

    fn holds(&self, largest: Largest) -> bool {
        self.bytes <= largest.bytes
    }
}
