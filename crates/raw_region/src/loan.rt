//! A range that a region lent.

ghost use Rattle.std.specs.Prelude.{◌≡◌};

use crate::cells::Cells;
use std::marker::Model;

mod bytes;

/// A range of a region that is out of it. It owns its bytes, and it can't be dropped: `Region::give_back` takes it, at
/// the region that lent it. A contract sees the region's name, the offset at which the range lies there, and the bytes.
pub struct Lent {
    pub(crate) cells: Cells,
    pub(crate) at: usize,
}

impl Model for Lent {
    ghost use Rattle.std.specs.Prelude.{◌≡◌, []};
    ghost use Rattle.raw_region.specs.State.{Loan};

    ghost Value = { Loan };

    ghost view = { λ l. record { name = l.cells.home; at = l.cells.from; bytes = l.cells.bytes } };

    ghost invariant = { λ l. (l.cells.lent ≡ []) × (l.at ≡ l.cells.from) };
}
