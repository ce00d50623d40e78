//! The draft of a fork: zeros are where bytes are kept that only the disk has.

ghost use Rattle.std.specs.Prelude.{◌≡◌, length, true, IfOk, IsFalse};
ghost use Rattle.res_table.specs.Rows.{contents};
ghost use Rattle.res_table.specs.Saved.{saved_row};
ghost use Rattle.res_update.specs.Tests.{is_lent_row};
ghost use Rattle.res_update.specs.Drafts.{row_bytes, rows_with, draft_bytes};
ghost use Rattle.res_update.specs.Selected.{reads_lent};

use crate::contents::Contents;
use crate::selection::Selection;
use fork_bytes::datum::Datum;
use fork_bytes::place::Place;
use mac_base::error::HostFull;
use mac_base::name::Name;
use mac_base::resource::Resource;
use res_table::attributes::unmarked;
use res_table::row::Row;
use res_table::rows::Rows;
use std::alloc::Global;
use std::marker::Model;

/// Where the bytes of a row in the draft come from.
#[derive(Clone, Copy)]
enum Part<'a> {
    /// From its handle.
    Held(&'a [u8]),
    /// They are so many zeros.
    Zeros(u32),
}

/// The bytes of a row in the draft, which take no memory of their own: they are made where they are written. A contract
/// sees the list.
#[derive(Drop)]
pub(crate) struct DraftBytes<'a> {
    part: Part<'a>,
}

impl<'a> Model for DraftBytes<'a> {
    ghost use Rattle.std.specs.Prelude.{List, ℕ};
    ghost use Rattle.res_update.specs.Drafts.{part_bytes};

    ghost Value = { List ℕ };

    ghost view = { λ bytes. part_bytes bytes.part };
}

impl<'a> Datum for DraftBytes<'a> {
    ghost text = { λ bytes. bytes };

    fn count(&self) -> usize {
        match self.part {
            Part::Held(bytes) => bytes.len(),
            Part::Zeros(count) => count.count(),
        }
    }

    fn append(&self, fork: &mut Vec<u8>) -> Result<(), HostFull> {
        match self.part {
            Part::Held(bytes) => fork.extend_from_slice(bytes)?,
            Part::Zeros(count) => count.append(fork)?,
        }
        Ok(())
    }
}

/// A row of the draft.
pub(crate) type DraftRow<'a> = Resource<DraftBytes<'a>>;

/// The bytes of a row's handle: none where it has no handle.
fn handle_bytes<'a, C: Contents>(handles: &'a C, row: &Row<Place>) -> &'a [u8]
    requires { IsFalse (is_lent_row (C.table handles.now) row.now) }
    ensures { result.now ≡ contents (C.table handles.now) row.now }
{
    match row.handle {
        Some(handle) => handles.bytes(handle),
        None => &[],
    }
}

/// The bytes of a row in the draft: those of its handle where it is selected, and else zeros.
fn row_bytes<'a, C: Contents>(row: &Row<Place>, selected: bool, handles: &'a C) -> DraftBytes<'a>
    requires { selected ≡ true → IsFalse (is_lent_row (C.table handles.now) row.now) }
    ensures { result ≡ row_bytes (C.table handles.now) selected row.now }
{
    let part = if selected {
        Part::Held(handle_bytes(handles, row))
    } else {
        Part::Zeros(row.resource.datum.length)
    };
    DraftBytes { part }
}

/// The same name once more, if there is one. It shares the bytes.
fn shared(name: &Option<Name>) -> Result<Option<Name>, HostFull>
    ensures { IfOk result (λ copy. copy ≡ name.now) }
{
    match name {
        Some(name) => Ok(Some(name.clone()?)),
        None => Ok(None),
    }
}

/// A row as it is saved, with these bytes.
fn saved_row<'a>(row: &Row<Place>, bytes: DraftBytes<'a>) -> Result<DraftRow<'a>, HostFull>
    ensures { IfOk result (λ saved. saved ≡ saved_row (λ _. bytes.entry) row.now) }
{
    let resource = &row.resource;
    let name = shared(&resource.name)?;
    Ok(Resource {
        kind: resource.kind,
        id: resource.id,
        name,
        attributes: unmarked(resource.attributes),
        datum: bytes,
    })
}

/// The rows of the table that the update writes, but with zeros for the bytes that stay as they are on the disk.
pub(crate) fn draft_rows<'a, C: Contents>(
    alloc: Global,
    rows: &Rows<Place>,
    selection: Selection,
    handles: &'a C,
) -> Result<Vec<DraftRow<'a>>, HostFull>
    requires { IsFalse (reads_lent (C.table handles.now) selection rows.now) }
    ensures { IfOk result (λ draft. draft.items ≡ rows_with (draft_bytes (C.table handles.now) selection) 0 rows.now) }
{
    let mut draft = Vec::new(alloc);
    for index in 0..rows.len() {
        let row = rows.row(index);
        let bytes = row_bytes(row, selection.takes(index, row), handles);
        let saved = saved_row(row, bytes)?;
        draft.push(saved)?;
    }
    Ok(draft)
}

/// What extra bytes are by their type: 240. It computes nothing.
pub(crate) fn known(extra: [u8; 240])
    ensures { length extra ≡ 240 }
{
    let _bytes = extra;
}
