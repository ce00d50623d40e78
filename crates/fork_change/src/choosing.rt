//! Choices that mean no row, or two of one type and id; and rows that others lack.

ghost use Rattle.std.specs.Prelude.{◌≡◌, [], IfOk, option_copied};
ghost use Rattle.std.specs.List.{filter, find, list_any};
ghost use Rattle.fork_change.specs.Copies.{is_chosen, is_meant, is_unmet, lacking, second_of};

use crate::copying::{Choice, is_chosen, is_meant};
use crate::ids::{Ids, add_id, has_id, ids_of};
use crate::putting::id_of;
use fork_bytes::table::Row;
use mac_base::error::HostFull;
use std::alloc::Global;

/// Whether one of these rows is meant.
fn is_any_meant(choice: &Choice, rows: &[Row]) -> bool
    ensures { result ≡ list_any (is_meant choice.now) rows.now }
{
    rows.iter().any(|row| is_meant(choice, row))
}

/// Whether a choice, but that of all, means no row.
fn is_unmet(choice: &Choice, rows: &[Row]) -> bool
    ensures { result ≡ is_unmet rows.now choice.now }
{
    match choice {
        Choice::All => false,
        Choice::Kind(_) | Choice::One(_) => !is_any_meant(choice, rows),
    }
}

/// The first choice, but that of all, that means no row.
pub fn unmet<'c>(choices: &'c [Choice], rows: &[Row]) -> Option<&'c Choice>
    ensures { option_copied result ≡ find (is_unmet rows.now) choices.now }
{
    choices.iter().find(|choice| is_unmet(choice, rows))
}

/// The first row that is meant and has the type and the id of another one before it. The only error is that the host
/// has no memory.
pub fn second_of<'r, 'a>(
    alloc: Global,
    choices: &[Choice],
    rows: &'r [Row<'a>],
) -> Result<Option<&'r Row<'a>>, HostFull>
    ensures { IfOk result (λ row. option_copied row ≡ second_of [] (filter (is_chosen choices.now) rows.now)) }
{
    let mut seen = Ids::new(alloc);
    for row in rows {
        if is_chosen(choices, row) {
            if has_id(&seen, &id_of(row)) {
                return Ok(Some(row));
            }
            add_id(&mut seen, row)?;
        }
    }
    Ok(None)
}

/// How many of these rows have a type and an id that none of the others has. The only error is that the host has no
/// memory.
pub fn lacking(alloc: Global, others: &[Row], rows: &[Row]) -> Result<usize, HostFull>
    ensures { IfOk result (λ count. count ≡ lacking others.now rows.now) }
{
    let known = ids_of(alloc, others)?;
    let mut count = 0;
    for row in rows {
        if !has_id(&known, &id_of(row)) {
            count += 1;
        }
    }
    Ok(count)
}
