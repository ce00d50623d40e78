//! A resource as C is shown it.

ghost use Rattle.std.specs.Prelude.{◌≡◌, ◌≤◌, length};
ghost use Rattle.fork_c.specs.Told.{Shows, data_in, name_in, name_of, shown_in, shown_row, shown_type};

use crate::told::copied;
use bitflags::Flags;
use fork_bytes::table::Row;
use mac_base::error::OsErr;
use mac_base::resource::ResType;

/// A resource type: four bytes, in C an array of four.
#[repr(C)]
#[derive(Clone, Copy)]
pub struct MfType {
    pub first: u8,
    pub second: u8,
    pub third: u8,
    pub fourth: u8,
}

/// A resource: what it is called, how it is treated, and how many bytes its name, if it has one, and its data have.
#[repr(C)]
#[derive(Clone, Copy)]
pub struct MfRow {
    pub kind: MfType,
    pub id: i16,
    pub attributes: u8,
    pub has_name: bool,
    pub name_length: usize,
    pub data_length: usize,
}

/// The resource at a place, from 0 on, as C is shown it.
pub(crate) fn shown_at(rows: &[Row], index: usize) -> Result<MfRow, OsErr>
    ensures { result ≡ shown_in index rows.now }
{
    if index < rows.len() {
        Ok(shown_row(&rows[index]))
    } else {
        Err(OsErr::ResNotFound)
    }
}

/// A resource as C is shown it.
pub(crate) fn shown_row(row: &Row) -> MfRow
    ensures { result ≡ shown_row row.now }
{
    MfRow {
        kind: shown_type(row.kind),
        id: row.id,
        attributes: row.attributes.bits(),
        has_name: row.name.is_some(),
        name_length: name_of(row).len(),
        data_length: row.datum.as_slice().len(),
    }
}

/// A type as its four bytes.
fn shown_type(kind: ResType) -> MfType
    ensures { result ≡ shown_type kind }
{
    let [first, second, third, fourth] = kind.bytes();
    MfType {
        first,
        second,
        third,
        fourth,
    }
}

/// Copies the name of the resource at a place.
pub(crate) fn name_at(rows: &[Row], index: usize, bytes: &mut [u8]) -> i16
    ensures { Shows (name_in index (length bytes.old) rows.now) result bytes.old bytes.new }
{
    if index < rows.len() {
        copied(name_of(&rows[index]), bytes)
    } else {
        OsErr::ResNotFound.code()
    }
}

/// Copies the data of the resource at a place.
pub(crate) fn data_at(rows: &[Row], index: usize, bytes: &mut [u8]) -> i16
    ensures { Shows (data_in index (length bytes.old) rows.now) result bytes.old bytes.new }
{
    if index < rows.len() {
        copied(rows[index].datum.as_slice(), bytes)
    } else {
        OsErr::ResNotFound.code()
    }
}

/// The bytes of a resource's name: none where it has no name.
pub(crate) fn name_of<'r>(row: &'r Row) -> &'r [u8]
    ensures bytes { result.now ≡ name_of row.now }
    ensures short { length (name_of row.now) ≤ 255 }
{
    match &row.name {
        Some(name) => name.as_slice(),
        None => &[],
    }
}
