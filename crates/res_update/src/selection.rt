//! Which resources an update writes anew.

ghost use Rattle.std.specs.Prelude.{◌≡◌};
ghost use Rattle.res_update.specs.Drafts.{is_selected};

use fork_bytes::place::Place;
use res_table::row::Row;

/// The rows whose bytes an update takes from their handles. All others keep theirs.
#[derive(Clone, Copy)]
pub enum Selection {
    /// All that are changed (UpdateResFile, CloseResFile).
    AllChanged,
    /// The one at an index (WriteResource).
    RowAt(usize),
}

impl Selection {
    /// Whether the update takes the bytes of the row at an index from its handle.
    pub(crate) fn takes(self, index: usize, row: &Row<Place>) -> bool
        ensures { result ≡ is_selected self index row.now }
    {
        match self {
            Selection::AllChanged => row.is_changed(),
            Selection::RowAt(selected) => index == selected,
        }
    }
}
