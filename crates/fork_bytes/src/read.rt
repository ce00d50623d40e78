//! A fork is read whole.

ghost use Rattle.std.specs.Prelude.{◌≡◌, ◌<◌, ◌≤◌, ◌+◌, ◌^◌, ◌↔◌, length, map, sum_by, IfOk, IfErr, OnOk, OnErr, IsErrOf};
ghost use Rattle.fork_bytes.specs.Rows.{Row};
ghost use Rattle.fork_bytes.specs.Fork.{bytes_at, header_of, data_of, row_with, table_of, HasPartsWithin, HasData, IsForkWithin, StandsFor, StandsForWithin, Refuses, RefusesWithin};
ghost use Rattle.fork_bytes.specs.declared.layout.Limits.{Limits};
ghost use Rattle.fork_bytes.specs.Reading.{row_at, HasDatum, IsWithin, FaultsAt};

use crate::data::{length_place, place_row};
use crate::fault::{Condition, ForkFault};
use crate::grow::push;
use crate::header::{HEADER_LENGTH, check_parts, extra_bytes, read_header};
use crate::layout::{Header, Limits, MapRow};
use crate::map::{read_attributes, read_map};
use crate::number::read_four;
use crate::place::PlacedRow;
use crate::table::{Contents, Row, Rows, Table};
use mac_base::resource::Resource;
use std::alloc::Global;

/// The row with the bytes at its place.
fn row_at<'a>(fork: &'a [u8], row: PlacedRow) -> Row<'a>
    requires { IsWithin fork.now row }
    ensures { result ≡ row_at fork.now row }
{
    let Resource {
        kind,
        id,
        name,
        attributes,
        datum,
    } = row;
    let start = datum.offset as usize;
    Resource {
        kind,
        id,
        name,
        attributes,
        datum: Contents::new(&fork[start..start + datum.length as usize]),
    }
}

/// The row with its bytes.
fn find_row<'a>(fork: &'a [u8], header: Header, row: MapRow) -> Result<Row<'a>, ForkFault>
    requires header { header ≡ header_of fork.now }
    requires whole { header.data_offset + header.data_length ≤ length fork.now }
    requires small { length fork.now < 2 ^ 32 }
    ensures row { IfOk result (λ found. found ≡ row_with (data_of fork.now) row) }
    ensures has { IfOk result (λ _. HasDatum (data_of fork.now) row) }
    ensures fails { OnErr result (¬ HasDatum (data_of fork.now) row) }
    ensures fault { IfErr result (λ fault. fault ≡ ForkFault.BadMap Condition.Places) }
{
    let at = length_place(header, &row)? as usize;
    let placed = place_row(header, row, read_four(fork, at))?;
    Ok(row_at(fork, placed))
}

/// The rows with their bytes.
fn find_rows<'a>(
    alloc: Global,
    fork: &'a [u8],
    header: Header,
    rows: Vec<MapRow>,
) -> Result<Vec<Row<'a>>, ForkFault>
    requires header { header ≡ header_of fork.now }
    requires whole { header.data_offset + header.data_length ≤ length fork.now }
    requires small { length fork.now < 2 ^ 32 }
    ensures rows { IfOk result (λ found. found.items ≡ map (row_with (data_of fork.now)) rows.items) }
    ensures has { IfOk result (λ _. HasData (data_of fork.now) rows.items) }
    ensures refuses { IfErr result (FaultsAt Condition.Places (¬ HasData (data_of fork.now) rows.items)) }
{
    let Ok(mut found) = Vec::with_capacity(alloc, rows.len()) else {
        return Err(ForkFault::HostFull);
    };
    for row in rows {
        push(&mut found, find_row(fork, header, row)?)?;
    }
    Ok(found)
}

/// Checks that rows have at most so many bytes together. The fault is BadMap(ByteCount), exactly where they have more.
fn check_data(rows: &[Row], most: usize) -> Result<(), ForkFault>
    ensures few { OnOk result (sum_by (λ (row : Row). 4 + length row.datum) rows.now ≤ most) }
    ensures fails { OnErr result (¬ (sum_by (λ (row : Row). 4 + length row.datum) rows.now ≤ most)) }
    ensures fault { IfErr result (λ fault. fault ≡ ForkFault.BadMap Condition.ByteCount) }
{
    let mut left = most;
    for row in rows {
        let count = 4 + row.datum.as_slice().len();
        if count > left {
            return Err(ForkFault::BadMap(Condition::ByteCount));
        }
        left -= count;
    }
    Ok(())
}

/// The rows of a fork.
fn read_rows<'a>(
    alloc: Global,
    fork: &'a [u8],
    header: Header,
    limits: Limits,
) -> Result<Vec<Row<'a>>, ForkFault>
    requires header { header ≡ header_of fork.now }
    requires whole { 16 ≤ length fork.now }
    requires parts { HasPartsWithin limits (length fork.now) header }
    ensures rows { IfOk result (λ rows. rows.items ≡ (table_of fork.now).rows) }
    ensures fork { IfOk result (λ _. IsForkWithin limits fork.now) }
    ensures refuses { IfErr result (RefusesWithin limits fork.now) }
{
    let rows = read_map(alloc, map_bytes(fork, header), limits)?;
    let rows = find_rows(alloc, fork, header, rows)?;
    check_data(&rows, limits.most_bytes(header.data_length as usize))?;
    Ok(rows)
}

/// The bytes of the map.
fn map_bytes(fork: &[u8], header: Header) -> &[u8]
    requires { header.map_offset + header.map_length ≤ length fork.now }
    ensures { result.now ≡ bytes_at header.map_length header.map_offset fork.now }
{
    let start = header.map_offset as usize;
    &fork[start..start + header.map_length as usize]
}

/// The table of a fork with these rows, which is a fork within some limits.
fn table_of<'a>(fork: &'a [u8], header: Header, rows: Vec<Row<'a>>) -> Table<'a>
    requires header { header ≡ header_of fork.now }
    requires fork { (limits : Limits) × IsForkWithin limits fork.now }
    requires rows { rows.items ≡ (table_of fork.now).rows }
    ensures { result ≡ table_of fork.now }
{
    Table {
        rows: Rows::new(rows),
        extra: extra_bytes(&fork[HEADER_LENGTH..]),
        map_attributes: read_attributes(map_bytes(fork, header)),
    }
}

/// The table that the bytes of a fork stand for, within these limits. Its rows have their bytes where they are in the
/// fork, and no copies of them. The fault is EndOfFile exactly where there are fewer than 16 bytes, and else BadMap of
/// the first condition that doesn't hold, or HostFull.
pub fn read_fork_within<'a>(
    alloc: Global,
    fork: &'a [u8],
    limits: Limits,
) -> Result<Table<'a>, ForkFault>
    ensures table { IfOk result (λ table. StandsForWithin limits fork.now table) }
    ensures end { IsErrOf result ForkFault.EndOfFile ↔ (length fork.now < 16) }
    ensures refuses { IfErr result (RefusesWithin limits fork.now) }
{
    let header = read_header(fork)?;
    check_parts(header, fork.len(), limits)?;
    let rows = read_rows(alloc, fork, header, limits)?;
    Ok(table_of(fork, header, rows))
}

/// The table that the bytes of a fork stand for, within macheap's limits. The fault is EndOfFile exactly where there
/// are fewer than 16 bytes, and else BadMap of the first condition that doesn't hold, or HostFull.
pub fn read_fork<'a>(alloc: Global, fork: &'a [u8]) -> Result<Table<'a>, ForkFault>
    ensures table { IfOk result (λ table. StandsFor fork.now table) }
    ensures end { IsErrOf result ForkFault.EndOfFile ↔ (length fork.now < 16) }
    ensures refuses { IfErr result (Refuses fork.now) }
{
    read_fork_within(alloc, fork, Limits::MACHEAP)
}
