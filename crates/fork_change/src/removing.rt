//! A resource is removed from a table.

ghost use Rattle.std.specs.Prelude.{◌≡◌, false, true, IfErr, IfOk, OnOk};
ghost use Rattle.fork_change.specs.Rows.{is_there, removed, with_rows};
ghost use Rattle.fork_change.specs.declared.refusal.Refusal.TheVariants as why;

use crate::putting::remove_row;
use crate::refusal::Refusal;
use crate::row::ResourceId;
use crate::search::is_there;
use fork_bytes::table::{Rows, Table};

/// The table without the first resource of a type and id. The only error is Missing, exactly where there is none.
pub fn remove<'a>(table: Table<'a>, what: &ResourceId) -> Result<Table<'a>, Refusal>
    ensures removed { IfOk result (λ new. new ≡ with_rows table.entry (removed what.now table.entry.rows)) }
    ensures there { OnOk result (is_there what.now table.entry.rows ≡ true) }
    ensures missing { IfErr result (λ fault. (fault ≡ why.Missing what.now) × (is_there what.now table.entry.rows ≡ false)) }
{
    if !is_there(table.rows.as_slice(), what) {
        return Err(Refusal::Missing(*what));
    }
    let Table {
        rows,
        extra,
        map_attributes,
    } = table;
    let mut rows = rows.into_vec();
    remove_row(&mut rows, what);
    Ok(Table {
        rows: Rows::new(rows),
        extra,
        map_attributes,
    })
}
