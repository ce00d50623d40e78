//! A resource is put into a table.

ghost use Rattle.std.specs.Prelude.{◌≡◌, ◌⊎◌, ◌∷◌, [], false, true, Err, IfErr, IfOk, OnOk};
ghost use Rattle.fork_change.specs.Rows.{added, first_to, id_of, is_at, is_there, put, removed, with_rows};
ghost use Rattle.fork_change.specs.declared.refusal.Refusal.TheVariants as why;

use crate::refusal::Refusal;
use crate::row::ResourceId;
use crate::search::{end_of_type, find_at, is_there};
use fork_bytes::table::{Row, Rows, Table};
use mac_base::error::HostFull;

/// The type and the id of a row.
pub(crate) fn id_of(row: &Row) -> ResourceId
    ensures { result ≡ id_of row.now }
{
    ResourceId {
        kind: row.kind,
        id: row.id,
    }
}

/// Adds a row as the last of its type. Without host memory nothing is changed.
pub(crate) fn add_row<'a>(rows: &mut Vec<Row<'a>>, row: Row<'a>) -> Result<(), HostFull>
    ensures { OnOk result (rows.new.items ≡ added row.entry rows.old.items) }
{
    let end = end_of_type(rows, row.kind);
    rows.insert(end, row)?;
    Ok(())
}

/// Puts a row in the place of the first of a type and id.
pub(crate) fn replace_row<'a>(rows: &mut Vec<Row<'a>>, what: &ResourceId, row: Row<'a>)
    ensures { rows.new.items ≡ first_to (is_at what.now) (row.entry ∷ []) rows.old.items }
{
    if let Some(at) = find_at(rows, what) {
        rows[at] = row;
    }
}

/// Removes the first row of a type and id.
pub(crate) fn remove_row(rows: &mut Vec<Row>, what: &ResourceId)
    ensures { rows.new.items ≡ removed what.now rows.old.items }
{
    if let Some(at) = find_at(rows, what) {
        rows.remove(at);
    }
}

/// Puts a row in the place of the first with its type and id, or adds it.
pub(crate) fn put_row<'a>(rows: &mut Vec<Row<'a>>, row: Row<'a>) -> Result<(), HostFull>
    ensures { OnOk result (rows.new.items ≡ put row.entry rows.old.items) }
{
    let what = id_of(&row);
    if is_there(rows, &what) {
        replace_row(rows, &what, row);
        Ok(())
    } else {
        add_row(rows, row)
    }
}

/// The table with this resource in the place of the first with its type and id. Where there is none it is the last of
/// its type, and a new type comes last. The only error is that the host has no memory.
pub fn put<'a>(table: Table<'a>, row: Row<'a>) -> Result<Table<'a>, HostFull>
    ensures { IfOk result (λ new. new ≡ with_rows table.entry (put row.entry table.entry.rows)) }
{
    let Table {
        rows,
        extra,
        map_attributes,
    } = table;
    let mut rows = rows.into_vec();
    put_row(&mut rows, row)?;
    Ok(Table {
        rows: Rows::new(rows),
        extra,
        map_attributes,
    })
}

/// The table with one more resource, as `put` adds it. It is Taken exactly where one with its type and id is there
/// already.
pub fn put_new<'a>(table: Table<'a>, row: Row<'a>) -> Result<Table<'a>, Refusal>
    ensures put { IfOk result (λ new. new ≡ with_rows table.entry (put row.entry table.entry.rows)) }
    ensures new { OnOk result (is_there (id_of row.entry) table.entry.rows ≡ false) }
    ensures taken { IfErr result (λ fault. fault ≡ why.Taken → is_there (id_of row.entry) table.entry.rows ≡ true) }
    ensures found { is_there (id_of row.entry) table.entry.rows ≡ true → result ≡ Err why.Taken }
    ensures fault { IfErr result (λ fault. (fault ≡ why.Taken) ⊎ (fault ≡ why.HostFull)) }
{
    if is_there(table.rows.as_slice(), &id_of(&row)) {
        return Err(Refusal::Taken);
    }
    Ok(put(table, row)?)
}
