//! Resources as JSON.

ghost use Rattle.serde_json.specs.Data.{Members};
ghost use Rattle.fork_report.specs.Json.{Makes, with_unpacked};

use crate::digest::digest_text;
use crate::json_object::Object;
use crate::json_text::{kind_value, roman_value, text_value};
use base64::engine::general_purpose::STANDARD;
use fork_bytes::table::Row;
use fork_list::{Attributes, HasSize, is_chosen};
use mac_base::name::Name;
use mac_base::resource::{ResAttrs, ResType, Resource};
use serde_json::Value;
use std::alloc::{AllocError, Global};

/// Whether the bytes of resources are shown.
#[derive(Clone, Copy)]
pub enum Bytes {
    /// They are left out.
    Hidden,
    /// As a text in base64.
    Base64,
}

/// Whether digests are shown.
#[derive(Clone, Copy, Debug, PartialEq, Eq)]
pub enum Digests {
    /// They are left out.
    Hidden,
    /// SHA-256, in hexadecimal digits.
    Sha256,
}

/// The words for the attributes that are set.
fn attributes_value(alloc: Global, attributes: ResAttrs) -> Result<Value, AllocError> {
    let attributes = Attributes::new(attributes);
    let text = format!(in alloc; "{attributes}")?;
    let mut words = Vec::new(alloc);
    if text.as_str() != "-" {
        for word in text.as_str().split(',') {
            serde_json::push(&mut words, text_value(alloc, word)?)?;
        }
    }
    Ok(Value::Array(words))
}

/// The name of a resource; null where it has none.
fn name_value(alloc: Global, name: &Option<Name>) -> Result<Value, AllocError> {
    match name {
        Some(name) => roman_value(alloc, name.as_slice()),
        None => Ok(Value::Null),
    }
}

/// With what is said of a compressed resource: that it is, and its length unpacked.
fn with_unpacked(object: Object, unpacked: Option<usize>) -> Object
    ensures { (members : Members) → Makes object members → Makes result (with_unpacked unpacked members) }
{
    match unpacked {
        Some(length) => object
            .with("compressed", Ok(Value::Bool(true)))
            .with("unpacked", Ok(Value::from(length))),
        None => object,
    }
}

/// A resource, but for its bytes.
fn row_object<D: HasSize>(alloc: Global, row: &Resource<D>) -> Object {
    let object = Object::new(alloc)
        .with("type", kind_value(alloc, row.kind))
        .with("id", Ok(Value::from(row.id)))
        .with("size", Ok(Value::from(row.datum.size())))
        .with("attributes", attributes_value(alloc, row.attributes))
        .with("name", name_value(alloc, &row.name));
    with_unpacked(object, row.datum.unpacked(row.attributes))
}

/// A resource without its bytes.
pub(crate) fn row_value<D: HasSize>(alloc: Global, row: &Resource<D>) -> Result<Value, AllocError> {
    row_object(alloc, row).value()
}

/// Bytes as a text in base64.
fn base64_value(alloc: Global, bytes: &[u8]) -> Result<Value, AllocError> {
    Ok(Value::String(STANDARD.encode(alloc, bytes)?))
}

/// The object of something with the digest of its bytes, where digests are shown.
pub(crate) fn with_digest(
    alloc: Global,
    object: Object,
    name: &str,
    digests: Digests,
    bytes: &[u8],
) -> Object {
    match digests {
        Digests::Hidden => object,
        Digests::Sha256 => object.with(name, digest_value(alloc, bytes)),
    }
}

/// The digest of bytes.
fn digest_value(alloc: Global, bytes: &[u8]) -> Result<Value, AllocError> {
    Ok(Value::String(digest_text(alloc, bytes)?))
}

/// A resource with its bytes or their digest.
fn full_row_value(
    alloc: Global,
    row: &Row,
    shown: Bytes,
    digests: Digests,
) -> Result<Value, AllocError> {
    let bytes = row.datum.as_slice();
    let object = with_digest(alloc, row_object(alloc, row), "sha256", digests, bytes);
    match shown {
        Bytes::Hidden => object.value(),
        Bytes::Base64 => object.with("data", base64_value(alloc, bytes)).value(),
    }
}

/// A list of resources without their bytes, those of these types or all where none are named, in the order of the rows.
pub(crate) fn rows_value<D: HasSize>(
    alloc: Global,
    kinds: &[ResType],
    rows: &[Resource<D>],
) -> Result<Value, AllocError> {
    let mut values = Vec::new(alloc);
    for row in rows {
        if is_chosen(kinds, row.kind) {
            serde_json::push(&mut values, row_value(alloc, row)?)?;
        }
    }
    Ok(Value::Array(values))
}

/// The same with their bytes or the digests of these.
pub(crate) fn full_rows_value(
    alloc: Global,
    kinds: &[ResType],
    (shown, digests): (Bytes, Digests),
    rows: &[Row],
) -> Result<Value, AllocError> {
    let mut values = Vec::new(alloc);
    for row in rows {
        if is_chosen(kinds, row.kind) {
            serde_json::push(&mut values, full_row_value(alloc, row, shown, digests)?)?;
        }
    }
    Ok(Value::Array(values))
}
