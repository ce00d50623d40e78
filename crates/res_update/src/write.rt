//! A table is written over the fork of which it was read.

ghost use Rattle.std.specs.Prelude.{◌≡◌, ◌≤◌, ◌↔◌, length, map, All, IsFalse, IfOk, IsErrOf};
ghost use Rattle.fork_bytes.specs.Fork.{max_rows};
ghost use Rattle.fork_bytes.specs.Laws.{AreBytes, IsGrouped, IsTable};
ghost use Rattle.fork_bytes.specs.Written.{written, Fits};
ghost use Rattle.res_update.specs.Changes.{saved_table};
ghost use Rattle.res_update.specs.Updates.{fits_fork};
ghost use Rattle.res_update.specs.Drafts.{draft_table, IsDraft};
ghost use Rattle.res_update.specs.Placed.{table_on, bytes_on, AreNear, Holds, IsNear};
ghost use Rattle.res_update.specs.Selected.{updated, reads_lent, CountsUpdate};
ghost use Rattle.res_update.specs.Writing.{Writes};

use crate::contents::Contents;
use crate::draft::{draft_rows, known};
use crate::fault::UpdateFault;
use crate::ranges::{kept_ranges, new_places};
use crate::selection::Selection;
use crate::sizes::fits;
use fork_bytes::place::Place;
use fork_bytes::{fork_laws, write_rows};
use fork_disk::store::ForkStore;
use fork_disk::update::{Kept, update};
use mac_base::error::HostFull;
use res_table::chain::ResourceTable;
use std::alloc::Global;

/// What an update needs of the host's memory: the new fork without the bytes that it keeps of the old one, where these
/// are, and where the bytes of each row are in the new fork.
#[derive(Drop)]
struct Draft {
    fork: Vec<u8>,
    kept: Vec<Kept>,
    places: Vec<Place>,
}

/// What bytes are by their type. It computes nothing.
fn known_bytes(bytes: &[u8])
    ensures { AreBytes bytes.now }
{
    let _bytes = bytes;
}

/// Makes the draft of an update. What its table is comes with it.
fn make_draft<C: Contents>(
    alloc: Global,
    table: &ResourceTable<Place>,
    selection: Selection,
    handles: &C,
) -> Result<Draft, HostFull>
    requires { IsFalse (reads_lent (C.table handles.now) selection table.now.rows) }
    ensures draft { IfOk result (λ draft. IsDraft (C.table handles.now) selection table.now draft.fork.items draft.places.items draft.kept.items) }
    ensures fits { IfOk result (λ _. Fits (draft_table (C.table handles.now) selection table.now)) }
    ensures table { IfOk result (λ _. IsGrouped (draft_table (C.table handles.now) selection table.now).rows
        → IsTable (draft_table (C.table handles.now) selection table.now)) }
{
    known(table.extra);
    let rows = draft_rows(alloc, &table.rows, selection, handles)?;
    let Ok(fork) = write_rows(alloc, &rows, &table.extra, table.map_attributes) else {
        return Err(HostFull);
    };
    fork_laws();
    known_bytes(&fork);
    let places = new_places(alloc, &rows)?;
    let kept = kept_ranges(alloc, &table.rows, selection, &places)?;
    Ok(Draft { fork, kept, places })
}

/// Writes the fork of a table in which the selected rows have the bytes of their handles and all others those at their
/// places in the old fork, and returns where the bytes of each row are then. All that the new fork keeps is read before
/// the first write. TooBig comes exactly where no fork holds the table, and HostFull where the host has no memory for
/// it; the device is not asked then. Where the rows of each type are together, the new fork stands for the table: it is
/// read as it.
pub fn write_table<S: ForkStore, C: Contents>(
    alloc: Global,
    store: &mut S,
    table: &ResourceTable<Place>,
    selection: Selection,
    contents: &C,
) -> Result<Vec<Place>, UpdateFault>
    requires held { Holds S.fork S.is_ready S.is_honest table.now.rows store.old }
    requires near { AreNear table.now.rows }
    requires few { length table.now.rows ≤ max_rows }
    requires unlent { IsFalse (reads_lent (C.table contents.now) selection table.now.rows) }
    ensures writes { S.is_honest store.new
        → Writes S.ForkStore store.old store.new (updated (C.table contents.now) selection (table_on (S.fork store.old) table.now)) result }
    // Whatever the store did, these are the places in the fork that was to be written.
    ensures places { IfOk result (λ places.
        map (bytes_on (written (saved_table (updated (C.table contents.now) selection (table_on (S.fork store.old) table.now))))) places.items
        ≡ map (λ r. r.resource.datum) (updated (C.table contents.now) selection (table_on (S.fork store.old) table.now)).rows) }
    ensures near { IfOk result (λ places. All IsNear places.items) }
    ensures each { IfOk result (λ places. length places.items ≡ length table.now.rows) }
    ensures too_big { IsErrOf result UpdateFault.TooBig
        ↔ IsFalse (fits_fork (updated (C.table contents.now) selection (table_on (S.fork store.old) table.now))) }
    ensures untouched { IsErrOf result UpdateFault.TooBig → store.new ≡ store.old }
    ensures unasked { IsErrOf result UpdateFault.HostFull → store.new ≡ store.old }
    ensures cause { CountsUpdate (S.failures store.old) (S.failures store.new) result }
{
    if !fits(table, selection, contents) {
        return Err(UpdateFault::TooBig);
    }
    let Ok(mut draft) = make_draft(alloc, table, selection, contents) else {
        return Err(UpdateFault::HostFull);
    };
    fork_laws();
    match update(store, &mut draft.fork, &draft.kept) {
        Ok(()) => Ok(draft.places),
        Err(fault) => Err(UpdateFault::Device(fault)),
    }
}
