//! What differs between two tables, as text.

use fork_bytes::table::Row;
use fork_change::{Difference, Differences, first_difference};
use fork_list::letters::Letters;
use fork_list::{Attributes, KindText, NamePart, Quoted};
use mac_base::error::HostFull;
use std::alloc::{AllocError, Global};

/// The name of a row, if it has one.
fn name_of<'r>(row: &'r Row<'_>) -> Option<&'r [u8]> {
    match &row.name {
        Some(name) => Some(name.as_slice()),
        None => None,
    }
}

/// Adds the line of a row that only one table has.
fn push_row(text: &mut String, sign: char, row: &Row) -> Result<(), AllocError> {
    let kind = KindText::new(Letters::Roman, row.kind);
    let id = row.id;
    let name = NamePart::new(Letters::Roman, name_of(row));
    writeln!(text, "{sign} {kind} {id}{name}")
}

/// Adds a name between quotes, or that there is none.
fn push_name(text: &mut String, row: &Row) -> Result<(), AllocError> {
    match name_of(row) {
        Some(name) => {
            let name = Quoted::double(Letters::Roman, name);
            write!(text, "{name}")
        }
        None => text.push_str("none"),
    }
}

/// Adds how the bytes of a row differ, if they do.
fn push_bytes(text: &mut String, a: &Row, b: &Row) -> Result<(), AllocError> {
    let old = a.datum.as_slice();
    let new = b.datum.as_slice();
    let Some(at) = first_difference(old, new) else {
        return Ok(());
    };
    let old_length = old.len();
    let new_length = new.len();
    write!(
        text,
        "; data {old_length} -> {new_length} bytes, from byte {at} on"
    )
}

/// Adds the line of a row that differs, if it does.
fn push_changed(alloc: Global, text: &mut String, a: &Row, b: &Row) -> Result<(), AllocError> {
    let mut parts = String::new(alloc);
    push_bytes(&mut parts, a, b)?;
    if name_of(a) != name_of(b) {
        parts.push_str("; name ")?;
        push_name(&mut parts, a)?;
        parts.push_str(" -> ")?;
        push_name(&mut parts, b)?;
    }
    if a.attributes != b.attributes {
        let old = Attributes::new(a.attributes);
        let new = Attributes::new(b.attributes);
        write!(parts, "; attributes {old} -> {new}")?;
    }
    if let Some(parts) = parts.as_str().strip_prefix("; ") {
        let kind = KindText::new(Letters::Roman, b.kind);
        let id = b.id;
        writeln!(text, "~ {kind} {id}: {parts}")?;
    }
    Ok(())
}

/// Adds the line of what differs of a row.
fn push_difference(
    alloc: Global,
    text: &mut String,
    difference: &Difference,
) -> Result<(), AllocError> {
    match (difference.old, difference.new) {
        (Some(old), Some(new)) => push_changed(alloc, text, old, new),
        (Some(old), None) => push_row(text, '-', old),
        (None, Some(new)) => push_row(text, '+', new),
        (None, None) => Ok(()),
    }
}

/// What differs between two tables, a line for each resource and for each other field.
pub fn text_of(alloc: Global, differences: &Differences) -> Result<String, HostFull> {
    let mut text = String::new(alloc);
    for difference in &differences.rows {
        push_difference(alloc, &mut text, difference)?;
    }
    if differences.is_reordered {
        text.push_str("~ order\n")?;
    }
    if let Some((old, new)) = differences.map_attributes {
        writeln!(text, "~ map attributes {old} -> {new}")?;
    }
    if let Some(at) = differences.extra {
        writeln!(text, "~ system and application bytes, from byte {at} on")?;
    }
    Ok(text)
}
