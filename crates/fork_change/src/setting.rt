//! A resource of a table is changed but for its bytes.

ghost use Rattle.std.specs.Prelude.{◌≡◌, ◌⊎◌, false, true, IfErr, IfOk, IfSome, Err, OnOk};
ghost use Rattle.std.specs.List.{find};
ghost use Rattle.fork_change.specs.Rows.{changed_to, is_at, is_refused, is_there, row_as, with_rows};
ghost use Rattle.fork_change.specs.declared.refusal.Refusal.TheVariants as why;

use crate::putting::{add_row, remove_row, replace_row};
use crate::refusal::Refusal;
use crate::row::{Change, ResourceId, row_as};
use crate::search::{find_row, is_there};
use fork_bytes::table::{Row, Rows, Table};
use mac_base::error::HostFull;

/// Whether a row can't become one of this type and id: it has others, and there is one with these already.
fn is_refused(rows: &[Row], what: &ResourceId, to: &ResourceId) -> bool
    ensures { result ≡ is_refused what.now to.now rows.now }
{
    let stays = to.kind == what.kind && to.id == what.id;
    !stays && is_there(rows, to)
}

/// Changes the first row of a type and id to another.
fn set_row<'a>(rows: &mut Vec<Row<'a>>, what: &ResourceId, new: Row<'a>) -> Result<(), HostFull>
    ensures { OnOk result (rows.new.items ≡ changed_to what.now new.entry rows.old.items) }
{
    if new.kind == what.kind {
        replace_row(rows, what, new);
        Ok(())
    } else {
        remove_row(rows, what);
        add_row(rows, new)
    }
}

/// The table in which the first resource of a type and id has this type and id, and what its name and attributes
/// become. It keeps its place, or, where its type is another, is the last of that. It is Missing exactly where there is
/// no such resource, and Taken exactly where another has the new type and id.
pub fn set<'a>(table: Table<'a>, what: &ResourceId, change: Change) -> Result<Table<'a>, Refusal>
    ensures changed { IfOk result (λ new. IfSome (find (is_at what.now) table.entry.rows)
        (λ old. new ≡ with_rows table.entry (changed_to what.now (row_as change old) table.entry.rows))) }
    ensures there { OnOk result (is_there what.now table.entry.rows ≡ true) }
    ensures free { OnOk result (is_refused what.now change.to table.entry.rows ≡ false) }
    ensures missing { is_there what.now table.entry.rows ≡ false → result ≡ Err (why.Missing what.now) }
    ensures taken { is_there what.now table.entry.rows ≡ true → is_refused what.now change.to table.entry.rows ≡ true → result ≡ Err why.Taken }
    ensures gone { IfErr result (λ fault. fault ≡ why.Missing what.now → is_there what.now table.entry.rows ≡ false) }
    ensures refused { IfErr result (λ fault. fault ≡ why.Taken → is_refused what.now change.to table.entry.rows ≡ true) }
    ensures fault { IfErr result (λ fault. (fault ≡ why.Missing what.now) ⊎ ((fault ≡ why.Taken) ⊎ (fault ≡ why.HostFull))) }
{
    let Some(old) = find_row(table.rows.as_slice(), what) else {
        return Err(Refusal::Missing(*what));
    };
    if is_refused(table.rows.as_slice(), what, &change.to) {
        return Err(Refusal::Taken);
    }
    let new = row_as(change, old)?;
    let Table {
        rows,
        extra,
        map_attributes,
    } = table;
    let mut rows = rows.into_vec();
    set_row(&mut rows, what, new)?;
    Ok(Table {
        rows: Rows::new(rows),
        extra,
        map_attributes,
    })
}
