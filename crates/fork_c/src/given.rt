//! The table of a fork that C gives: rows as C is shown them, the bytes of their names one after the other, and those
//! of their data.

ghost use Rattle.std.specs.Prelude.{◌≡◌, ◌≤◌, length, IfOk, bytes_eq};
ghost use Rattle.std.specs.List.{list_any};
ghost use Rattle.fork_bytes.specs.Rows.{Row};
ghost use Rattle.fork_c.specs.Given.{are_grouped, has_parts, may_precede, row_given, rows_given, table_given, type_given};
ghost use Rattle.fork_c.specs.Told.{extra_of};

use crate::rows::{MfRow, MfType};
use bitflags::Flags;
use fork_bytes::table::{Contents, Row, Rows, Table};
use mac_base::error::HostFull;
use mac_base::name::{MAX_NAME, Name};
use mac_base::resource::{ResAttrs, ResType, Resource};
use std::alloc::Global;

/// What a fork has beside its resources: 112 bytes for the system and 128 for the application, and the attributes of
/// the map.
#[repr(C)]
#[derive(Clone, Copy)]
pub struct MfExtra {
    pub bytes: [u8; 240],
    pub map_attributes: u16,
}

/// What a table has beside its rows.
pub(crate) fn extra_of(table: &Table) -> MfExtra
    ensures { result ≡ extra_of table.now }
{
    MfExtra {
        bytes: table.extra,
        map_attributes: table.map_attributes,
    }
}

/// The table that C gives, or None where it gives none: a name or a datum isn't there, bytes are left over, or rows of
/// one type are apart.
pub(crate) fn table_given<'a>(
    alloc: Global,
    rows: &[MfRow],
    names: &[u8],
    contents: &'a [u8],
    extra: &MfExtra,
) -> Result<Option<Table<'a>>, HostFull>
    ensures { IfOk result (λ table. table ≡ table_given extra.now (rows_given rows.now names.now contents.now)) }
{
    let Some(rows) = rows_given(alloc, rows, names, contents)? else {
        return Ok(None);
    };
    if !are_grouped(rows.as_slice()) {
        return Ok(None);
    }
    Ok(Some(Table {
        rows,
        extra: extra.bytes,
        map_attributes: extra.map_attributes,
    }))
}

/// The rows that C gives, or None where a name or a datum isn't there, or bytes are left over.
fn rows_given<'a>(
    alloc: Global,
    rows: &[MfRow],
    names: &[u8],
    contents: &'a [u8],
) -> Result<Option<Rows<'a>>, HostFull>
    ensures { IfOk result (λ given. given ≡ rows_given rows.now names.now contents.now) }
{
    let mut given = Vec::new(alloc);
    let mut names_left = names;
    let mut data_left = contents;
    for row in rows {
        if !has_parts(row, names_left, data_left) {
            return Ok(None);
        }
        let (name, other_names) = names_left.split_at(row.name_length);
        let (datum, other_data) = data_left.split_at(row.data_length);
        given.push(row_given(alloc, row, name, datum)?)?;
        names_left = other_names;
        data_left = other_data;
    }
    if !names_left.is_empty() {
        return Ok(None);
    }
    if !data_left.is_empty() {
        return Ok(None);
    }
    Ok(Some(Rows::new(given)))
}

/// Whether the bytes of a row's name and of its data begin these. A name has 255 bytes at most, and none where the row
/// has no name.
fn has_parts(row: &MfRow, names: &[u8], contents: &[u8]) -> bool
    ensures { result ≡ has_parts row.now names.now contents.now }
{
    let most = if row.has_name { MAX_NAME } else { 0 };
    row.name_length <= most && row.name_length <= names.len() && row.data_length <= contents.len()
}

/// The row with this name and these data.
fn row_given<'a>(
    alloc: Global,
    row: &MfRow,
    name: &[u8],
    datum: &'a [u8],
) -> Result<Row<'a>, HostFull>
    requires { length name.now ≤ 255 }
    ensures { IfOk result (λ given. given ≡ row_given row.now name.now datum.now) }
{
    let name = Name::new(alloc, name)?;
    Ok(Resource {
        kind: type_given(row.kind),
        id: row.id,
        name: if row.has_name { name } else { None },
        attributes: ResAttrs::from_bits_retain(row.attributes),
        datum: Contents::new(datum),
    })
}

/// The type of four bytes.
fn type_given(kind: MfType) -> ResType
    ensures { result ≡ type_given kind }
{
    ResType::new([kind.first, kind.second, kind.third, kind.fourth])
}

/// Whether rows of one type are together.
fn are_grouped(rows: &[Row]) -> bool
    ensures { result ≡ are_grouped rows.now }
{
    for at in 0..rows.len() {
        if !may_precede(rows[at].kind, &rows[at + 1..]) {
            return false;
        }
    }
    true
}

/// Whether a row of this type may be before these: the first of them has the type, or none has.
fn may_precede(kind: ResType, rows: &[Row]) -> bool
    ensures { result ≡ may_precede kind rows.now }
{
    if rows.is_empty() {
        return true;
    }
    rows[0].kind == kind || !is_among(kind, rows)
}

/// Whether one of the rows is of this type.
fn is_among(kind: ResType, rows: &[Row]) -> bool
    ensures { result ≡ list_any (λ (row : Row). bytes_eq row.kind kind) rows.now }
{
    rows.iter().any(|row| row.kind == kind)
}
