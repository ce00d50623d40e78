//! The changes of a table that the commands make.

ghost use Rattle.std.specs.List.{filter, find};
ghost use Rattle.fork_change.specs.Copies.{copied, is_chosen};
ghost use Rattle.fork_change.specs.Rows.{is_at};
ghost use Rattle.fork_edit.specs.Edits.{Becomes, copied_to, edited, put_in, removed_from, set_in};

use fork_bytes::table::{Contents, Row, Table};
use fork_change::row::{Change, ResourceId};
use fork_change::{Choice, Collision, Refusal, copy, put, put_new, remove, row_to_put, set};
pub use fork_change::{second_of, unmet};

/// A change of a table.
#[derive(Drop)]
pub enum Edit<'a> {
    /// A resource gets these bytes, or it is added.
    Put {
        change: Change,
        bytes: &'a [u8],
        /// Whether one that is there is refused.
        is_new: bool,
    },
    /// These resources are removed.
    Remove(&'a [ResourceId]),
    /// A resource gets another type, id, name or attributes.
    Set {
        what: ResourceId,
        change: Change,
    },
    /// Resources of another table are added.
    Copy {
        chosen: &'a [Choice],
        on_collision: Collision,
    },
}

/// The table with a resource that has these bytes.
fn put_in<'a>(
    table: Table<'a>,
    change: Change,
    bytes: &'a [u8],
    is_new: bool,
) -> Result<Table<'a>, Refusal>
    ensures { Becomes table.entry (put_in change bytes.now is_new table.entry.rows) result }
{
    let row = row_to_put(table.rows.as_slice(), change, Contents::new(bytes))?;
    if is_new {
        put_new(table, row)
    } else {
        Ok(put(table, row)?)
    }
}

/// The table without these resources. It is Missing where one of them isn't there.
fn remove_all<'a>(table: Table<'a>, whats: &[ResourceId]) -> Result<Table<'a>, Refusal>
    ensures { Becomes table.entry (removed_from whats.now table.entry.rows) result }
{
    let mut table = table;
    for what in whats {
        table = remove(table, what)?;
    }
    Ok(table)
}

/// The table in which a resource is another one.
fn set_in<'a>(table: Table<'a>, what: &ResourceId, change: Change) -> Result<Table<'a>, Refusal>
    ensures { Becomes table.entry (set_in what.now change (find (is_at what.now) table.entry.rows) table.entry.rows) result }
{
    set(table, what, change)
}

/// The table to which the chosen ones of these rows are copied.
fn copy_in<'a>(
    table: Table<'a>,
    from: &[Row<'a>],
    chosen: &[Choice],
    how: Collision,
) -> Result<Table<'a>, Refusal>
    ensures { Becomes table.entry (copied_to how (copied how (filter (is_chosen chosen.now) from.now) table.entry.rows)) result }
{
    copy(table, from, chosen, how)
}

/// The table after a change, to which resources are copied from these: exactly that of the definitions, or refused as
/// they say. It is Missing where a resource that is named isn't there, and Taken where one is there that must not be.
pub fn edited<'a>(table: Table<'a>, from: &[Row<'a>], edit: Edit<'a>) -> Result<Table<'a>, Refusal>
    ensures { Becomes table.entry (edited edit.entry from.now table.entry.rows) result }
{
    match edit {
        Edit::Put {
            change,
            bytes,
            is_new,
        } => put_in(table, change, bytes, is_new),
        Edit::Remove(whats) => remove_all(table, whats),
        Edit::Set { what, change } => set_in(table, &what, change),
        Edit::Copy {
            chosen,
            on_collision,
        } => copy_in(table, from, chosen, on_collision),
    }
}
