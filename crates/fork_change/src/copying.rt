//! Resources are copied from one table into another.

ghost use Rattle.std.specs.Prelude.{◌≡◌, ◌≢◌, ◌⊎◌, None, Some, IfErr, IfOk, OnOk};
ghost use Rattle.std.specs.List.{filter};
ghost use Rattle.fork_change.specs.Copies.{copied, copied_one, free_id, is_chosen, is_meant, renumbered};
ghost use Rattle.fork_change.specs.Index.{HasIds};
ghost use Rattle.fork_change.specs.Rows.{added, with_rows};
ghost use Rattle.fork_change.specs.declared.copying.Collision.TheVariants.{Refuse, Renumber};
ghost use Rattle.fork_change.specs.declared.row.ResourceId.{ResourceId};
ghost use Rattle.fork_change.specs.declared.refusal.Refusal.TheVariants as why;

use crate::ids::{Ids, add_id, has_id, ids_of};
use crate::putting::{add_row, id_of, replace_row};
use crate::refusal::Refusal;
use crate::row::{ResourceId, same_name};
use crate::search::is_at;
use fork_bytes::table::{Contents, Row, Rows, Table};
use mac_base::error::HostFull;
use mac_base::resource::{ResType, Resource};
use std::alloc::Global;

/// The least id of a program's own resources: those below are the system's.
const FIRST_OWN_ID: usize = 128;

/// The greatest id is so many after it.
const MOST_OWN_IDS: usize = 32639;

/// Which resources are copied: all, those of a type, or those of a type and id.
#[derive(Drop)]
pub enum Choice {
    All,
    Kind(ResType),
    One(ResourceId),
}

/// What is done where there is a resource of the same type and id.
#[derive(Clone, Copy)]
pub enum Collision {
    /// Nothing at all is copied.
    Refuse,
    /// It is replaced, its name and attributes too.
    Replace,
    /// It stays, and the other isn't copied.
    Skip,
    /// It stays, and the other gets the least id from 128 on that no resource of its type has.
    Renumber,
}

/// Whether a choice means a row.
pub(crate) fn is_meant(choice: &Choice, row: &Row) -> bool
    ensures { result ≡ is_meant choice.now row.now }
{
    match choice {
        Choice::All => true,
        Choice::Kind(kind) => row.kind == *kind,
        Choice::One(what) => is_at(row, what),
    }
}

/// Whether one of these choices does.
pub(crate) fn is_chosen(choices: &[Choice], row: &Row) -> bool
    ensures { result ≡ is_chosen choices.now row.now }
{
    choices.iter().any(|choice| is_meant(choice, row))
}

/// The same row once more. Its bytes stay where they are.
fn same_row<'a>(row: &Row<'a>) -> Result<Row<'a>, HostFull>
    ensures { IfOk result (λ copy. copy ≡ row.now) }
{
    Ok(Resource {
        kind: row.kind,
        id: row.id,
        name: same_name(&row.name)?,
        attributes: row.attributes,
        datum: Contents::new(row.datum.as_slice()),
    })
}

/// The same table once more. The bytes of its resources stay where they are. The only error is that the host has no
/// memory.
pub fn same_table<'a>(alloc: Global, table: &Table<'a>) -> Result<Table<'a>, HostFull>
    ensures { IfOk result (λ copy. copy ≡ table.now) }
{
    let mut rows = Vec::new(alloc);
    for row in table.rows.as_slice() {
        rows.push(same_row(row)?)?;
    }
    Ok(Table {
        rows: Rows::new(rows),
        extra: table.extra,
        map_attributes: table.map_attributes,
    })
}

/// The least id from 128 on that no row of a type has.
fn free_id(rows: &[Row], ids: &Ids, kind: ResType) -> Option<i16>
    requires { HasIds ids.now rows.now }
    ensures { result ≡ free_id kind rows.now }
{
    for n in 0..rows.len() + 1 {
        if n > MOST_OWN_IDS {
            return None;
        }
        let id = (FIRST_OWN_ID + n) as i16;
        if !has_id(ids, &ResourceId { kind, id }) {
            return Some(id);
        }
    }
    None
}

/// Adds a row as the last of its type, and its type and id to those that are there.
fn add_known<'a>(rows: &mut Vec<Row<'a>>, ids: &mut Ids, row: Row<'a>) -> Result<(), HostFull>
    requires { HasIds ids.old rows.old.items }
    ensures rows { OnOk result (rows.new.items ≡ added row.entry rows.old.items) }
    ensures ids { OnOk result (HasIds ids.new rows.new.items) }
{
    add_id(ids, &row)?;
    add_row(rows, row)?;
    Ok(())
}

/// Adds a row with an id that is free.
fn add_renumbered<'a>(rows: &mut Vec<Row<'a>>, ids: &mut Ids, row: Row<'a>) -> Result<(), Refusal>
    requires { HasIds ids.old rows.old.items }
    ensures ids { OnOk result (HasIds ids.new rows.new.items) }
    ensures copied { OnOk result (renumbered row.entry rows.old.items (free_id row.entry.kind rows.old.items) ≡ Some rows.new.items) }
    ensures refused { IfErr result (λ fault. fault ≡ why.NoFreeId → free_id row.entry.kind rows.old.items ≡ None) }
    ensures fault { IfErr result (λ fault. (fault ≡ why.NoFreeId) ⊎ (fault ≡ why.HostFull)) }
{
    let Some(id) = free_id(rows, ids, row.kind) else {
        return Err(Refusal::NoFreeId);
    };
    let Resource {
        kind,
        name,
        attributes,
        datum,
        ..
    } = row;
    add_known(
        rows,
        ids,
        Resource {
            kind,
            id,
            name,
            attributes,
            datum,
        },
    )?;
    Ok(())
}

/// Copies a row to others, which have these types and ids.
fn copy_row<'a>(
    rows: &mut Vec<Row<'a>>,
    ids: &mut Ids,
    row: &Row<'a>,
    how: Collision,
) -> Result<(), Refusal>
    requires { HasIds ids.old rows.old.items }
    ensures ids { OnOk result (HasIds ids.new rows.new.items) }
    ensures copied { OnOk result (copied_one how row.now rows.old.items ≡ Some rows.new.items) }
    ensures refused { IfErr result (λ fault. fault ≡ why.Taken → copied_one how row.now rows.old.items ≡ None) }
    ensures none_free { IfErr result (λ fault. fault ≡ why.NoFreeId → copied_one how row.now rows.old.items ≡ None) }
    ensures collision { IfErr result (λ fault. fault ≡ why.Taken → how ≡ Refuse) }
    ensures renumbering { IfErr result (λ fault. fault ≡ why.NoFreeId → how ≡ Renumber) }
    ensures known { IfErr result (λ fault. (what : ResourceId) → fault ≢ why.Missing what) }
{
    let what = id_of(row);
    if !has_id(ids, &what) {
        add_known(rows, ids, same_row(row)?)?;
        return Ok(());
    }
    match how {
        Collision::Refuse => Err(Refusal::Taken),
        Collision::Replace => {
            replace_row(rows, &what, same_row(row)?);
            Ok(())
        }
        Collision::Skip => Ok(()),
        Collision::Renumber => add_renumbered(rows, ids, same_row(row)?),
    }
}

/// Copies the chosen rows to others, one after the other.
fn copy_rows<'a>(
    rows: &mut Vec<Row<'a>>,
    from: &[Row<'a>],
    choices: &[Choice],
    how: Collision,
) -> Result<(), Refusal>
    ensures copied { OnOk result (copied how (filter (is_chosen choices.now) from.now) rows.old.items ≡ Some rows.new.items) }
    ensures refused { IfErr result (λ fault. fault ≡ why.Taken → copied how (filter (is_chosen choices.now) from.now) rows.old.items ≡ None) }
    ensures none_free { IfErr result (λ fault. fault ≡ why.NoFreeId → copied how (filter (is_chosen choices.now) from.now) rows.old.items ≡ None) }
    ensures collision { IfErr result (λ fault. fault ≡ why.Taken → how ≡ Refuse) }
    ensures renumbering { IfErr result (λ fault. fault ≡ why.NoFreeId → how ≡ Renumber) }
    ensures known { IfErr result (λ fault. (what : ResourceId) → fault ≢ why.Missing what) }
{
    let mut ids = ids_of(*rows.allocator(), rows)?;
    for row in from {
        if is_chosen(choices, row) {
            copy_row(rows, &mut ids, row, how)?;
        }
    }
    Ok(())
}

/// The table with the chosen rows of another, each in its place or as the last of its type. It is Taken exactly where a
/// collision is refused, and NoFreeId where no id of a type is free.
pub fn copy<'a>(
    to: Table<'a>,
    from: &[Row<'a>],
    choices: &[Choice],
    how: Collision,
) -> Result<Table<'a>, Refusal>
    ensures copied { IfOk result (λ new. copied how (filter (is_chosen choices.now) from.now) to.entry.rows ≡ Some new.rows) }
    ensures rest { IfOk result (λ new. new ≡ with_rows to.entry new.rows) }
    ensures refused { IfErr result (λ fault. fault ≡ why.Taken → copied how (filter (is_chosen choices.now) from.now) to.entry.rows ≡ None) }
    ensures none_free { IfErr result (λ fault. fault ≡ why.NoFreeId → copied how (filter (is_chosen choices.now) from.now) to.entry.rows ≡ None) }
    ensures collision { IfErr result (λ fault. fault ≡ why.Taken → how ≡ Refuse) }
    ensures renumbering { IfErr result (λ fault. fault ≡ why.NoFreeId → how ≡ Renumber) }
    ensures known { IfErr result (λ fault. (what : ResourceId) → fault ≢ why.Missing what) }
{
    let Table {
        rows,
        extra,
        map_attributes,
    } = to;
    let mut rows = rows.into_vec();
    copy_rows(&mut rows, from, choices, how)?;
    Ok(Table {
        rows: Rows::new(rows),
        extra,
        map_attributes,
    })
}
