//! Which types of a fork clash: they differ, but not for a file system that has no regard to case.

ghost use Rattle.std.specs.Prelude.{◌≡◌, ℕ, List, ◌+◌, ◌<◌, ◌^◌, IfOk, OnOk, if◌then◌else◌, bytes_eq, string_bytes};
ghost use Rattle.std.specs.List.{list_any};
ghost use Rattle.fork_bytes.specs.Rows.{Row};
ghost use Rattle.fork_folder.specs.Counts.{CountTypes, kind_count};
ghost use Rattle.fork_folder.specs.Names.{clash, folded, folder_among, small_of};
ghost use Rattle.fork_folder.specs.Unpacked.{types_of};

use crate::folder::{MarkedName, PlainName};
use fork_bytes::table::Row;
use mac_base::resource::ResType;
use std::alloc::{AllocError, Global};
use std::collections::BTreeMap;

/// The count of each type, where there are rows of it.
type KindCounts = BTreeMap<[u8; 4], usize>;

/// A letter without regard to its case.
fn small_of(byte: u8) -> u8
    ensures { result ≡ small_of byte }
{
    if b'A' <= byte && byte <= b'Z' {
        byte + 32
    } else {
        byte
    }
}

/// A type without regard to case.
fn folded(kind: [u8; 4]) -> [u8; 4]
    ensures { result ≡ folded kind }
{
    let [first, second, third, fourth] = kind;
    [
        small_of(first),
        small_of(second),
        small_of(third),
        small_of(fourth),
    ]
}

/// How many there are of a type so far.
fn count_of(counts: &KindCounts, kind: [u8; 4]) -> usize
    ensures { result ≡ kind_count counts.now kind }
{
    counts.get(&kind).copied().unwrap_or(0)
}

/// Counts one more of a type.
fn count_kind(counts: &mut KindCounts, kind: [u8; 4]) -> Result<(), AllocError>
    requires few { kind_count counts.old kind < 2 ^ 63 }
    ensures counted { OnOk result ((other : List ℕ)
        → kind_count counts.new other ≡ kind_count counts.old other + (if bytes_eq kind other then 1 else 0)) }
{
    let n = count_of(counts, kind);
    counts.insert(kind, n + 1)?;
    Ok(())
}

/// How many rows a fork has of each type, and of each type without regard to case.
#[derive(Drop)]
pub(crate) struct Types {
    exact: KindCounts,
    folded: KindCounts,
}

impl Types {
    /// Those of these rows.
    pub(crate) fn of_rows(alloc: Global, rows: &[Row]) -> Result<Types, AllocError>
        ensures { IfOk result (λ types. CountTypes types rows.now) }
    {
        let mut exact = KindCounts::new(alloc);
        let mut small = KindCounts::new(alloc);
        for row in rows {
            let kind = row.kind.bytes();
            count_kind(&mut exact, kind)?;
            count_kind(&mut small, folded(kind))?;
        }
        Ok(Types {
            exact,
            folded: small,
        })
    }

    /// Whether another type of the fork clashes with this one.
    fn clashes(&self, kind: ResType) -> bool
        ensures { (rows : List Row) → CountTypes self.now rows → result ≡ list_any (clash kind) (types_of rows) }
    {
        let kind = kind.bytes();
        count_of(&self.exact, kind) != count_of(&self.folded, folded(kind))
    }

    /// The folder of a type.
    pub(crate) fn folder(&self, alloc: Global, kind: ResType) -> Result<String, AllocError>
        ensures { IfOk result (λ name. (rows : List Row) → CountTypes self.now rows → string_bytes name ≡ folder_among (types_of rows) kind) }
    {
        if self.clashes(kind) {
            let name = MarkedName(kind);
            format!(in alloc; "{name}")
        } else {
            let name = PlainName(kind);
            format!(in alloc; "{name}")
        }
    }
}
