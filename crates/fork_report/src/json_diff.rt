//! What differs between the resources of two files, as a line of JSON.

use crate::json_object::{Object, place_value};
use crate::json_row::row_value;
use crate::json_text::text_value;
use fork_bytes::table::Row;
use fork_change::{Difference, Differences, first_difference};
use serde_json::Value;
use std::alloc::{AllocError, Global};

/// A resource without its bytes; null where a table has none.
fn side_value(alloc: Global, row: Option<&Row>) -> Result<Value, AllocError> {
    match row {
        Some(row) => row_value(alloc, row),
        None => Ok(Value::Null),
    }
}

/// The first byte that differs of two resources that both tables have.
fn first_byte(difference: &Difference) -> Option<usize> {
    let old = difference.old?;
    let new = difference.new?;
    first_difference(old.datum.as_slice(), new.datum.as_slice())
}

/// What differs of the n-th resources of a type and id.
fn row_difference(alloc: Global, difference: &Difference) -> Result<Value, AllocError> {
    Object::new(alloc)
        .with("nth", Ok(Value::from(difference.nth)))
        .with("old", side_value(alloc, difference.old))
        .with("new", side_value(alloc, difference.new))
        .with("firstByte", Ok(place_value(first_byte(difference))))
        .value()
}

/// What differs of each of these resources.
fn rows_difference(alloc: Global, differences: &[Difference]) -> Result<Value, AllocError> {
    let mut values = Vec::new(alloc);
    for difference in differences {
        serde_json::push(&mut values, row_difference(alloc, difference)?)?;
    }
    Ok(Value::Array(values))
}

/// The attributes of both maps; null where they are the same.
fn attributes_pair(alloc: Global, pair: Option<(u16, u16)>) -> Result<Value, AllocError> {
    let Some((old, new)) = pair else {
        return Ok(Value::Null);
    };
    let mut values = Vec::new(alloc);
    serde_json::push(&mut values, Value::from(old))?;
    serde_json::push(&mut values, Value::from(new))?;
    Ok(Value::Array(values))
}

/// The line of what differs between the resources of two files of these names. Its lists are empty, and its other
/// members false or null, where nothing does.
pub fn difference_line(
    alloc: Global,
    first: &str,
    second: &str,
    differences: &Differences,
) -> Result<String, AllocError> {
    Object::new(alloc)
        .with("old", text_value(alloc, first))
        .with("new", text_value(alloc, second))
        .with(
            "differences",
            rows_difference(alloc, differences.rows.as_slice()),
        )
        .with("reordered", Ok(Value::from(differences.is_reordered)))
        .with(
            "mapAttributes",
            attributes_pair(alloc, differences.map_attributes),
        )
        .with("extraByte", Ok(place_value(differences.extra)))
        .line()
}
