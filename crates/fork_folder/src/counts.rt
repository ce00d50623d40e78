//! How many rows there are of each type and id.

ghost use Rattle.std.specs.Prelude.{◌≡◌, ◌+◌, ◌<◌, ◌^◌, IfOk, OnOk, if◌then◌else◌};
ghost use Rattle.fork_bytes.specs.Rows.{Row};
ghost use Rattle.fork_folder.specs.Counts.{count_of};
ghost use Rattle.fork_folder.specs.Unpacked.{is_same};

use fork_bytes::table::Row;
use std::alloc::AllocError;
use std::collections::BTreeMap;

/// The count of each type and id, where there are rows of it.
pub(crate) type Counts = BTreeMap<([u8; 4], i16), usize>;

/// The type and the id of a row.
fn key_of(row: &Row) -> ([u8; 4], i16)
    ensures { result ≡ (row.now.kind, row.now.id) }
{
    (row.kind.bytes(), row.id)
}

/// How many rows so far have the type and the id of a row.
fn count_of(counts: &Counts, row: &Row) -> usize
    ensures { result ≡ count_of counts.now row.now }
{
    counts.get(&key_of(row)).copied().unwrap_or(0)
}

/// How many rows so far have the type and the id of a row, which is one of them from then on.
pub(crate) fn count_row(counts: &mut Counts, row: &Row) -> Result<usize, AllocError>
    requires few { count_of counts.old row.now < 2 ^ 63 }
    ensures before { IfOk result (λ n. n ≡ count_of counts.old row.now) }
    ensures counted { OnOk result ((other : Row)
        → count_of counts.new other ≡ count_of counts.old other + (if is_same other row.now then 1 else 0)) }
{
    let n = count_of(counts, row);
    counts.insert(key_of(row), n + 1)?;
    Ok(n)
}
