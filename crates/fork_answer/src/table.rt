//! The table of what can be read of a damaged fork.

ghost use Rattle.std.specs.Prelude.{◌≡◌, ◌+◌, ◌≤◌, ◌<◌, length, map, nat_le, IfErr, IfOk};
ghost use Rattle.fork_bytes.specs.Fork.{extra_of, format_limits};
ghost use Rattle.fork_bytes.specs.Laws.{IsGrouped};
ghost use Rattle.fork_salvage.specs.Laws.{name_shown, row_of};
ghost use Rattle.fork_answer.specs.Salvaged.{byte_count, readable, salvaged_table, table_with, IsTooMuch};

use crate::group::grouped;
use fork_bytes::fault::WriteFault;
use fork_bytes::layout::Limits;
use fork_bytes::table::{Contents, Row, Rows, Table};
use fork_bytes::{HEADER_LENGTH, extra_bytes};
use fork_salvage::{FoundName, FoundRow, Item, Salvage, find_attributes};
use mac_base::error::HostFull;
use mac_base::name::Name;
use mac_base::resource::Resource;
use std::alloc::Global;

/// The most resources of a fork, and the most bytes of all of these with their lengths.
const MAX_ROWS: usize = Limits::FORMAT.rows as usize;

const MAX_BYTES: usize = Limits::FORMAT.bytes as usize;

/// The resources that can be read, in the order of the map. The fault is TooBig exactly where they are more than
/// 4,194,304.
fn readable(alloc: Global, fork: &[u8]) -> Result<Vec<FoundRow>, WriteFault>
    ensures rows { IfOk result (λ rows. rows.items ≡ readable fork.now) }
    ensures few { IfOk result (λ rows. length rows.items ≤ format_limits.rows) }
    ensures too_many { IfErr result (λ fault. fault ≡ WriteFault.TooBig → format_limits.rows < length (readable fork.now)) }
{
    let mut rows = Vec::new(alloc);
    let mut salvage = Salvage::new(fork);
    while let Some(item) = salvage.next() {
        if let Item::Row(row) = item {
            if rows.len() == MAX_ROWS {
                return Err(WriteFault::TooBig);
            }
            if rows.push(row).is_err() {
                return Err(WriteFault::HostFull);
            }
        }
    }
    Ok(rows)
}

/// Whether resources have at most 268,435,456 bytes together, those of their lengths among them.
fn has_few_bytes(rows: &[FoundRow]) -> bool
    requires { length rows.now ≤ format_limits.rows }
    ensures few { result ≡ nat_le (byte_count rows.now) format_limits.bytes }
{
    let mut total = 0;
    for row in rows {
        if row.bytes.length > MAX_BYTES {
            return false;
        }
        total += 4 + row.bytes.length;
    }
    total <= MAX_BYTES
}

/// A copy of the name of a resource, if it has one.
fn copy_name(alloc: Global, fork: &[u8], name: FoundName) -> Result<Option<Name>, HostFull>
    ensures { IfOk result (λ copy. copy ≡ name_shown fork.now name) }
{
    let Some(bytes) = name.of(fork) else {
        return Ok(None);
    };
    Ok(Name::new(alloc, bytes)?)
}

/// A resource, with its bytes where they are in the fork.
fn row_of<'a>(alloc: Global, fork: &'a [u8], row: &FoundRow) -> Result<Row<'a>, HostFull>
    ensures { IfOk result (λ found. found ≡ row_of fork.now row.now) }
{
    let name = copy_name(alloc, fork, row.name)?;
    Ok(Resource {
        kind: row.kind,
        id: row.id,
        name,
        attributes: row.attributes,
        datum: Contents::new(row.bytes.of(fork)),
    })
}

/// Resources, with their bytes where they are in the fork.
fn rows_of<'a>(alloc: Global, fork: &'a [u8], rows: &[FoundRow]) -> Result<Vec<Row<'a>>, HostFull>
    ensures { IfOk result (λ found. found.items ≡ map (row_of fork.now) rows.now) }
{
    let mut found = Vec::new(alloc);
    for row in rows {
        found.push(row_of(alloc, fork, row)?)?;
    }
    Ok(found)
}

/// The extra bytes of a fork; those that are missing are zero.
fn extra_of(fork: &[u8]) -> [u8; 240]
    ensures { result ≡ extra_of fork.now }
{
    if fork.len() < HEADER_LENGTH {
        return extra_bytes(&[]);
    }
    extra_bytes(&fork[HEADER_LENGTH..])
}

/// The table of resources of a fork.
fn table_of<'a>(alloc: Global, fork: &'a [u8], rows: &[FoundRow]) -> Result<Table<'a>, HostFull>
    ensures { IfOk result (λ table. table ≡ table_with fork.now rows.now) }
{
    let rows = grouped(alloc, rows)?;
    Ok(Table {
        rows: Rows::new(rows_of(alloc, fork, rows.as_slice())?),
        extra: extra_of(fork),
        map_attributes: find_attributes(fork),
    })
}

/// The table of all resources that can be read of a fork: those of each type together, in the order of the first of
/// each, and within a type in their own order. The extra bytes and the map's attributes are as they can be read, and
/// else zero. The fault is TooBig where more than 4,194,304 resources can be read, or they have more than 268,435,456
/// bytes with their lengths.
pub fn salvaged_table<'a>(alloc: Global, fork: &'a [u8]) -> Result<Table<'a>, WriteFault>
    ensures table { IfOk result (λ table. table ≡ salvaged_table fork.now) }
    ensures grouped { IfOk result (λ table. IsGrouped table.rows) }
    ensures few { IfOk result (λ _. ¬ IsTooMuch fork.now) }
    ensures too_big { IfErr result (λ fault. fault ≡ WriteFault.TooBig → IsTooMuch fork.now) }
{
    let rows = readable(alloc, fork)?;
    if !has_few_bytes(rows.as_slice()) {
        return Err(WriteFault::TooBig);
    }
    match table_of(alloc, fork, rows.as_slice()) {
        Ok(table) => Ok(table),
        Err(HostFull) => Err(WriteFault::HostFull),
    }
}
