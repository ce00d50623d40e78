//! Whether a fork holds what an update writes. No memory of the host is needed to know it.

ghost use Rattle.std.specs.Prelude.{◌≡◌, ◌+◌, ◌<◌, ◌≤◌, length, map, slice_get, Some, IfSome, IfNone};
ghost use Rattle.std.specs.List.{AllByRecursion};
ghost use Rattle.fork_bytes.specs.Fork.{max_fork, max_rows};
ghost use Rattle.fork_bytes.specs.Written.{data_text, names_text};
ghost use Rattle.res_table.specs.Rows.{changed_handle};
ghost use Rattle.res_update.specs.Drafts.{row_bytes, rows_with, draft_bytes, draft_table, fits_as_fork, HasKind};

use crate::contents::Contents;
use crate::draft::known;
use crate::selection::Selection;
use fork_bytes::layout::MAX_FORK;
use fork_bytes::place::Place;
use mac_base::handle::Handle;
use res_table::chain::ResourceTable;
use res_table::row::Row;
use res_table::rows::Rows;

/// How many bytes a row has in the new fork: those of its handle where the update takes them, and else as many as it
/// had.
fn row_length<C: Contents>(row: &Row<Place>, selected: bool, contents: &C) -> u32
    ensures { result ≡ length (row_bytes (C.table contents.now) selected row.now) }
{
    if !selected {
        return row.resource.datum.length;
    }
    match row.handle {
        Some(handle) => contents.length(handle),
        None => 0,
    }
}

/// How many bytes the row at an index has in the new fork, where this is its handle if it is changed. Such a row isn't
/// looked at by an update of all that are changed.
fn length_at<C: Contents>(
    rows: &Rows<Place>,
    index: usize,
    changed: Option<Handle>,
    selection: Selection,
    contents: &C,
) -> u32
    requires { slice_get (map changed_handle rows.now) index ≡ Some changed }
    ensures { IfSome (slice_get rows.now index) (λ row. result ≡ length (draft_bytes (C.table contents.now) selection index row)) }
{
    match (selection, changed) {
        (Selection::AllChanged, Some(handle)) => contents.length(handle),
        _ => {
            let row = rows.row(index);
            row_length(row, selection.takes(index, row), contents)
        }
    }
}

/// How many bytes the data and the name list have together, or None where that is more than a fork has. That each type
/// has four bytes comes with it. (A script may ask this of thousands of rows at each line, so none of them is compared
/// with the limit.)
fn text_length<C: Contents>(rows: &Rows<Place>, selection: Selection, contents: &C) -> Option<usize>
    requires { length rows.now ≤ max_rows }
    ensures some { IfSome result (λ n. n ≡ length (data_text (rows_with (draft_bytes (C.table contents.now) selection) 0 rows.now))
        + length (names_text (rows_with (draft_bytes (C.table contents.now) selection) 0 rows.now))) }
    ensures small { IfSome result (λ n. n ≤ max_fork) }
    ensures four { IfSome result (λ _. AllByRecursion HasKind rows.now) }
    ensures none { IfNone result (max_fork < length (data_text (rows_with (draft_bytes (C.table contents.now) selection) 0 rows.now))
        + length (names_text (rows_with (draft_bytes (C.table contents.now) selection) 0 rows.now))) }
{
    let mut total = rows.names_size();
    if total > MAX_FORK {
        return None;
    }
    for (index, changed) in rows.changed_handles().iter().enumerate() {
        let bytes = length_at(rows, index, *changed, selection, contents);
        total += 4 + bytes as usize;
    }
    if total > MAX_FORK { None } else { Some(total) }
}

/// Whether a fork holds what the update writes.
pub(crate) fn fits<C: Contents>(
    table: &ResourceTable<Place>,
    selection: Selection,
    contents: &C,
) -> bool
    ensures { result ≡ fits_as_fork (draft_table (C.table contents.now) selection table.now) }
{
    let rows = &table.rows;
    if !rows.fits() {
        return false;
    }
    known(table.extra);
    let lists = 30 + 8 * rows.count_types() + 12 * rows.len();
    match text_length(rows, selection, contents) {
        Some(text) => 16 + table.extra.len() + lists + text <= MAX_FORK,
        None => false,
    }
}
