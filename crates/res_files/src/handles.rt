//! The handles of the rows of a file.

ghost use Rattle.std.specs.Prelude.{◌≡◌, ◌+◌, ◌≤◌, ◌++◌, ◌∷◌, ◌&&◌, List, length, drop, All, IfSome, IfNone, Some, None};
ghost use Rattle.res_table.specs.declared.row.Row.{Row};
ghost use Rattle.fork_bytes.specs.declared.place.Place.{Place};
ghost use Rattle.std.specs.List.{list_any};
ghost use Rattle.res_files.specs.Handles.{is_among};
ghost use Rattle.res_table.specs.Rows.{is_changed};

use fork_bytes::place::Place;
use mac_base::handle::Handle;
use res_table::rows::Rows;

/// The first row with a handle from an index on, and the handle.
pub(crate) fn next_handle(rows: &Rows<Place>, from: usize) -> Option<(usize, Handle)>
    ensures some { IfSome result (λ found. (before : List (Row Place)) × (r : Row Place) × (after : List (Row Place))
        × (drop from rows.now ≡ before ++ r ∷ after) × All (λ other. other.handle ≡ None) before
        × (r.handle ≡ Some found.1) × (found.0 ≡ from + length before)) }
    ensures none { IfNone result (All (λ r. r.handle ≡ None) (drop from rows.now)) }
{
    let mut at = from;
    while at < rows.len() {
        if let Some(handle) = rows.row(at).handle {
            return Some((at, handle));
        }
        at += 1;
    }
    None
}

/// Whether there is a row that has one of these handles.
pub(crate) fn has_row_among(rows: &Rows<Place>, handles: &[u32]) -> bool
    ensures { result ≡ list_any (is_among handles.now) rows.now }
{
    for handle in handles {
        if rows.row_of_handle(Handle::new(*handle)).is_some() {
            return true;
        }
    }
    false
}

/// Whether there is a changed row that has one of these handles.
pub(crate) fn has_changed_row_among(rows: &Rows<Place>, handles: &[u32]) -> bool
    ensures { result ≡ list_any (λ r. is_changed r && is_among handles.now r) rows.now }
{
    for handle in handles {
        if rows.has_changed(Handle::new(*handle)) {
            return true;
        }
    }
    false
}
