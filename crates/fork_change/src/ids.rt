//! The types and ids of rows.

ghost use Rattle.std.specs.Prelude.{◌≡◌, ◌||◌, IfOk, OnOk};
ghost use Rattle.fork_change.specs.Index.{HasIds, has_id};
ghost use Rattle.fork_change.specs.Rows.{is_at};
ghost use Rattle.fork_change.specs.declared.row.ResourceId.{ResourceId};

use crate::index::{Key, key_of};
use crate::putting::id_of;
use crate::row::ResourceId;
use fork_bytes::table::Row;
use mac_base::error::HostFull;
use std::alloc::Global;
use std::collections::BTreeSet;

/// The types and ids of rows.
pub(crate) type Ids = BTreeSet<Key>;

/// Whether a type and id are there.
pub(crate) fn has_id(ids: &Ids, what: &ResourceId) -> bool
    ensures { result ≡ has_id ids.now what.now }
{
    ids.contains(&key_of(what))
}

/// Adds those of a row.
pub(crate) fn add_id(ids: &mut Ids, row: &Row) -> Result<(), HostFull>
    ensures { OnOk result ((what : ResourceId) → has_id ids.new what ≡ (is_at what row.now || has_id ids.old what)) }
{
    ids.insert(key_of(&id_of(row)))?;
    Ok(())
}

/// Those of these rows.
#[tactic(auto, using(crate::proofs::Known::known_more))]
pub(crate) fn ids_of(alloc: Global, rows: &[Row]) -> Result<Ids, HostFull>
    ensures { IfOk result (λ ids. HasIds ids rows.now) }
{
    let mut ids = Ids::new(alloc);
    for at in 0..rows.len() {
        add_id(&mut ids, &rows[at])?;
    }
    Ok(ids)
}
