//! How many rows there are of each type.

ghost use Rattle.std.specs.Prelude.{◌≡◌, ◌+◌, ◌-◌, ◌<◌, ◌^◌, List, ℕ, bytes_eq, count_by, if◌then◌else◌, IfOk, OnOk};
ghost use Rattle.fork_list.specs.Counts.{CountsTypes, count_of};

use mac_base::resource::{ResType, Resource};
use std::alloc::{AllocError, Global};
use std::collections::BTreeMap;

/// The count of each type of which there are rows.
pub(crate) type Counts = BTreeMap<[u8; 4], usize>;

/// How many rows so far have a type.
pub(crate) fn count_of(counts: &Counts, kind: ResType) -> usize
    ensures { result ≡ count_of counts.now kind }
{
    counts.get(&kind.bytes()).copied().unwrap_or(0)
}

/// Counts one more row of a type.
fn count_row(counts: &mut Counts, kind: ResType) -> Result<(), AllocError>
    requires few { count_of counts.old kind < 2 ^ 64 - 1 }
    ensures { OnOk result ((other : List ℕ)
        → count_of counts.new other ≡ count_of counts.old other + (if bytes_eq kind other then 1 else 0)) }
{
    let n = count_of(counts, kind);
    counts.insert(kind.bytes(), n + 1)?;
    Ok(())
}

/// How many of these rows there are of each type.
pub(crate) fn counts_of<D>(alloc: Global, rows: &[Resource<D>]) -> Result<Counts, AllocError>
    ensures { IfOk result (λ counts. CountsTypes counts rows.now) }
{
    let mut counts = Counts::new(alloc);
    for row in rows {
        count_row(&mut counts, row.kind)?;
    }
    Ok(counts)
}
