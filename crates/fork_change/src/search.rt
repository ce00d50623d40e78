//! Where a resource is among others.

ghost use Rattle.std.specs.Prelude.{◌≡◌, ◌<◌, ◌≤◌, IfSome, length, option_copied};
ghost use Rattle.std.specs.List.{find, insert, position};
ghost use Rattle.fork_bytes.specs.Rows.{Row};
ghost use Rattle.fork_change.specs.Rows.{added, is_at, is_there};

use crate::row::ResourceId;
use fork_bytes::table::Row;
use mac_base::resource::ResType;

/// Whether a row has this type and id.
pub(crate) fn is_at(row: &Row, what: &ResourceId) -> bool
    ensures { result ≡ is_at what.now row.now }
{
    row.kind == what.kind && row.id == what.id
}

/// Whether some row has this type and id.
pub fn is_there(rows: &[Row], what: &ResourceId) -> bool
    ensures { result ≡ is_there what.now rows.now }
{
    rows.iter().any(|row| is_at(row, what))
}

/// The first row with this type and id.
pub fn find_row<'r, 'a>(rows: &'r [Row<'a>], what: &ResourceId) -> Option<&'r Row<'a>>
    ensures { option_copied result ≡ find (is_at what.now) rows.now }
{
    rows.iter().find(|row| is_at(row, what))
}

/// The place of the first row with this type and id.
pub(crate) fn find_at(rows: &[Row], what: &ResourceId) -> Option<usize>
    ensures place { result ≡ position (is_at what.now) rows.now }
    ensures within { IfSome result (λ at. at < length rows.now) }
{
    rows.iter().position(|row| is_at(row, what))
}

/// Where one more row of a type goes: after the last of its type, or at the end where there is none of it.
pub(crate) fn end_of_type(rows: &[Row], kind: ResType) -> usize
    ensures within { result ≤ length rows.now }
    ensures added { (new : Row) → new.kind ≡ kind → insert rows.now result new ≡ added new rows.now }
{
    let mut end = rows.len();
    while end > 0 {
        if rows[end - 1].kind == kind {
            return end;
        }
        end -= 1;
    }
    rows.len()
}
