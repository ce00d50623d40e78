//! Rows of one type that are together, and the names of rows.

ghost use Rattle.std.specs.Prelude.{◌≡◌, ◌<◌, ◌≤◌, ◌-◌, ◌∷◌, length, drop, slice_get, IfSome, IsTrue, ◌↔◌};
ghost use Rattle.fork_bytes.specs.Written.{types_of, NamesFit};
ghost use Rattle.res_table.specs.Saved.{bare};

use crate::row::Row;
use mac_base::name::Name;

/// The largest offset of a name: one more says that there is none.
pub(crate) const MAX_NAME_OFFSET: usize = 65534;

/// The largest offset of a list in the map.
pub(crate) const MAX_OFFSET: usize = 65535;

/// Where the rows end that have the type of the row at `start` and are together with it.
pub(crate) fn run_end<D>(rows: &[Row<D>], start: usize) -> usize
    requires { start < length rows.now }
    ensures some { start < result }
    ensures within { result ≤ length rows.now }
    ensures run { IfSome (slice_get (bare rows.now) start) (λ row.
        types_of (drop start (bare rows.now)) ≡ record { kind = row.kind; count = result - start } ∷ types_of (drop result (bare rows.now))) }
{
    let kind = rows[start].kind();
    let mut end = start + 1;
    while end < rows.len() && rows[end].is_of_type(kind) {
        end += 1;
    }
    end
}

/// Whether two bytes hold the offset of each name.
pub(crate) fn names_fit<D>(rows: &[Row<D>]) -> bool
    ensures { IsTrue result ↔ NamesFit 0 (bare rows.now) }
{
    let mut next = 0;
    for row in rows {
        if let Some(name) = &row.resource.name {
            if next > MAX_NAME_OFFSET {
                return false;
            }
            next += 1 + name.as_slice().len();
        }
    }
    true
}
