//! Resources put together by their types.

ghost use Rattle.std.specs.Prelude.{◌≡◌, ◌++◌, [], map, bytes_eq, IfOk, OnOk};
ghost use Rattle.std.specs.List.{list_any};
ghost use Rattle.fork_answer.specs.Salvaged.{each_once, found_of_type, found_grouped, kind_of};

use fork_salvage::FoundRow;
use mac_base::resource::ResType;
use std::alloc::{AllocError, Global};

/// Whether a type is one of these.
fn is_one_of(kinds: &[ResType], kind: ResType) -> bool
    ensures { result ≡ list_any (λ one. bytes_eq one kind) kinds.now }
{
    kinds.iter().any(|one| *one == kind)
}

/// The types of resources, each once, in the order in which they are first found.
fn kinds_of(alloc: Global, rows: &[FoundRow]) -> Result<Vec<ResType>, AllocError>
    ensures { IfOk result (λ kinds. kinds.items ≡ each_once [] (map kind_of rows.now)) }
{
    let mut kinds = Vec::new(alloc);
    for row in rows {
        if !is_one_of(kinds.as_slice(), row.kind) {
            kinds.push(row.kind)?;
        }
    }
    Ok(kinds)
}

/// Adds the resources of a type, in their order.
fn push_type(
    grouped: &mut Vec<FoundRow>,
    rows: &[FoundRow],
    kind: ResType,
) -> Result<(), AllocError>
    ensures { OnOk result (grouped.new.items ≡ grouped.old.items ++ found_of_type rows.now kind) }
{
    for row in rows {
        if row.kind == kind {
            grouped.push(*row)?;
        }
    }
    Ok(())
}

/// The resources with those of each type together, in the order of the first of each. Within a type they keep their
/// order.
pub(crate) fn grouped(alloc: Global, rows: &[FoundRow]) -> Result<Vec<FoundRow>, AllocError>
    ensures { IfOk result (λ all. all.items ≡ found_grouped rows.now) }
{
    let mut all = Vec::new(alloc);
    for kind in &kinds_of(alloc, rows)? {
        push_type(&mut all, rows, *kind)?;
    }
    Ok(all)
}
