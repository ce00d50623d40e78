//! Where the rows of each type and id are.

ghost use Rattle.std.specs.Prelude.{◌≡◌, ◌+◌, ◌<◌, ◌^◌, ◌∷◌, ◌++◌, [], if◌then◌else◌, IfOk, List, OnOk, option_copied};
ghost use Rattle.fork_bytes.specs.Rows.{Row};
ghost use Rattle.fork_change.specs.Differences.{count_at};
ghost use Rattle.fork_change.specs.Index.{IsIndexOf, count_of, found_at};
ghost use Rattle.fork_change.specs.Rows.{id_of, is_at};
ghost use Rattle.fork_change.specs.declared.row.ResourceId.{ResourceId};

use crate::putting::id_of;
use crate::row::ResourceId;
use fork_bytes::table::Row;
use mac_base::error::HostFull;
use std::alloc::Global;
use std::collections::BTreeMap;

/// A type and an id.
pub(crate) type Key = ([u8; 4], i16);

/// How many rows there are of each type and id.
pub(crate) type Counts = BTreeMap<Key, usize>;

/// The n-th row of each type and id, from 0 on.
pub(crate) type Index<'r, 'a> = BTreeMap<(Key, usize), &'r Row<'a>>;

/// The key of a type and id.
pub(crate) fn key_of(what: &ResourceId) -> Key
    ensures { result ≡ (what.now.kind, what.now.id) }
{
    (what.kind.bytes(), what.id)
}

/// How many rows were counted of a type and id.
fn count_of(counts: &Counts, what: &ResourceId) -> usize
    ensures { result ≡ count_of counts.now what.now }
{
    counts.get(&key_of(what)).copied().unwrap_or(0)
}

/// Counts one more row. The result is which one it is of those with its type and id, from 0 on.
pub(crate) fn count_row(counts: &mut Counts, row: &Row) -> Result<usize, HostFull>
    requires few { count_of counts.old (id_of row.now) < 2 ^ 63 }
    ensures nth { IfOk result (λ n. n ≡ count_of counts.old (id_of row.now)) }
    ensures counted { OnOk result ((what : ResourceId)
        → count_of counts.new what ≡ count_of counts.old what + (if is_at what row.now then 1 else 0)) }
{
    let what = id_of(row);
    let n = count_of(counts, &what);
    counts.insert(key_of(&what), n + 1)?;
    Ok(n)
}

/// Adds one more row, the n-th of its type and id, from 0 on.
fn add_nth<'r, 'a>(index: &mut Index<'r, 'a>, n: usize, row: &'r Row<'a>) -> Result<(), HostFull>
    ensures { OnOk result ((rows : List Row) → n ≡ count_at (id_of row.now) rows → IsIndexOf index.old rows
        → IsIndexOf index.new (rows ++ row.now ∷ [])) }
{
    index.insert((key_of(&id_of(row)), n), row)?;
    Ok(())
}

/// The index of rows.
#[tactic(auto, using(crate::proofs::Indexed::counted))]
pub(crate) fn index_of<'r, 'a>(
    alloc: Global,
    rows: &'r [Row<'a>],
) -> Result<Index<'r, 'a>, HostFull>
    ensures { IfOk result (λ index. IsIndexOf index rows.now) }
{
    let mut index = Index::new(alloc);
    let mut counts = Counts::new(alloc);
    for at in 0..rows.len() {
        let row = &rows[at];
        let n = count_row(&mut counts, row)?;
        add_nth(&mut index, n, row)?;
    }
    Ok(index)
}

/// The n-th row of a type and id.
pub(crate) fn nth_at<'r, 'a>(
    index: &Index<'r, 'a>,
    what: &ResourceId,
    nth: usize,
) -> Option<&'r Row<'a>>
    ensures { option_copied result ≡ found_at index.now what.now nth }
{
    index.get(&(key_of(what), nth)).copied()
}
