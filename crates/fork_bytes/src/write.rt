//! A table as the bytes of a fork.

ghost use Rattle.std.specs.Prelude.{◌≡◌, ◌<◌, ◌≤◌, ◌+◌, ◌*◌, ◌++◌, ◌∷◌, [], ◌^◌, ◌↔◌, length, drop, OnOk, IfOk, IsErrOf, IfSome, IfNone};
ghost use Rattle.std.specs.Int.{w16, cast_unsigned};
ghost use Rattle.byteorder.specs.Endian.{big_bytes};
ghost use Rattle.fork_bytes.specs.Fork.{max_fork, macheap_limits, format_limits, StandsFor, StandsForWithin};
ghost use Rattle.fork_bytes.specs.Laws.{IsGrouped};
ghost use Rattle.fork_bytes.specs.Written.{types_of, count_bytes, entries_text, first_references, references_text, data_text, names_text, name_text, name_offset, written, header_text, header_for, map_header_text, front_text, types_text, map_text, names_offset, plain_rows, plain_table, NamesFit, Fits, FitsWithin, IsSmallWithin, IsTooBig, IsTooBigWithin};

use crate::datum::Datum;
use crate::fault::WriteFault;
use crate::layout::{Header, Limits};
use crate::sizes::{header_of_rows, run_end, type_count};
use crate::table::Table;
use bitflags::Flags;
use byteorder::{BigEndian, ByteOrder};
use mac_base::error::HostFull;
use mac_base::name::Name;
use mac_base::resource::{ResType, Resource};
use std::alloc::Global;

/// Adds a number of two bytes.
fn push_two(fork: &mut Vec<u8>, number: u16) -> Result<(), HostFull>
    ensures { OnOk result (fork.new.items ≡ fork.old.items ++ big_bytes 2 number) }
{
    let mut bytes = [0; 2];
    BigEndian::write_u16(&mut bytes, number);
    fork.extend_from_slice(&bytes)?;
    Ok(())
}

/// Adds the lowest three bytes of a number.
fn push_three(fork: &mut Vec<u8>, number: u32) -> Result<(), HostFull>
    ensures { OnOk result (fork.new.items ≡ fork.old.items ++ big_bytes 3 number) }
{
    let mut bytes = [0; 4];
    BigEndian::write_u32(&mut bytes, number);
    fork.extend_from_slice(&bytes[1..])?;
    Ok(())
}

/// Adds a number of four bytes.
fn push_four(fork: &mut Vec<u8>, number: u32) -> Result<(), HostFull>
    ensures { OnOk result (fork.new.items ≡ fork.old.items ++ big_bytes 4 number) }
{
    let mut bytes = [0; 4];
    BigEndian::write_u32(&mut bytes, number);
    fork.extend_from_slice(&bytes)?;
    Ok(())
}

/// Adds a header.
fn push_header(fork: &mut Vec<u8>, header: Header) -> Result<(), HostFull>
    ensures { OnOk result (fork.new.items ≡ fork.old.items ++ header_text header) }
{
    push_four(fork, header.data_offset)?;
    push_four(fork, header.map_offset)?;
    push_four(fork, header.data_length)?;
    push_four(fork, header.map_length)?;
    Ok(())
}

/// Adds the data: of each row the length of its bytes, and the bytes.
fn push_data<D: Datum>(fork: &mut Vec<u8>, rows: &[Resource<D>]) -> Result<(), HostFull>
    requires { length (data_text (plain_rows D.text rows.now)) < 2 ^ 32 }
    ensures { OnOk result (fork.new.items ≡ fork.old.items ++ data_text (plain_rows D.text rows.now)) }
{
    for row in rows {
        push_four(fork, row.datum.count() as u32)?;
        row.datum.append(fork)?;
    }
    Ok(())
}

/// Adds a name, if there is one: its length and its bytes.
fn push_name(fork: &mut Vec<u8>, name: &Option<Name>) -> Result<(), HostFull>
    ensures { OnOk result (fork.new.items ≡ fork.old.items ++ name_text name.now) }
{
    if let Some(name) = name {
        let bytes = name.as_slice();
        fork.push(bytes.len() as u8)?;
        fork.extend_from_slice(bytes)?;
    }
    Ok(())
}

/// Adds the name list.
fn push_names<D>(fork: &mut Vec<u8>, rows: &[Resource<D>]) -> Result<(), HostFull>
    ensures { OnOk result (fork.new.items ≡ fork.old.items ++ names_text rows.now) }
{
    for row in rows {
        push_name(fork, &row.name)?;
    }
    Ok(())
}

/// Adds the reference of a row, whose name and datum are at these offsets.
fn push_reference<D>(
    fork: &mut Vec<u8>,
    row: &Resource<D>,
    name: u16,
    datum: u32,
) -> Result<(), HostFull>
    ensures { OnOk result (fork.new.items ≡ fork.old.items
        ++ (big_bytes 2 (cast_unsigned w16 row.now.id) ++ (big_bytes 2 name ++ (row.now.attributes.0 ∷ (big_bytes 3 datum ++ big_bytes 4 0))))) }
{
    push_two(fork, row.id.cast_unsigned())?;
    push_two(fork, name)?;
    fork.push(row.attributes.bits())?;
    push_three(fork, datum)?;
    push_four(fork, 0)?;
    Ok(())
}

/// The offset of a name where the next one is at this offset: $FFFF says that there is none.
fn name_offset(next: usize, name: &Option<Name>) -> u16
    requires { IfSome name.now (λ _. next ≤ 65534) }
    ensures { result ≡ name_offset next name.now }
{
    match name {
        Some(_) => next as u16,
        None => 0xFFFF,
    }
}

/// How many bytes a name has in the name list, if there is one.
fn name_length(name: &Option<Name>) -> usize
    ensures length { result ≡ length (name_text name.now) }
    ensures few { result ≤ 256 }
{
    match name {
        Some(name) => 1 + name.as_slice().len(),
        None => 0,
    }
}

/// Adds the references of rows, whose bytes and names follow each other.
fn push_references<D: Datum>(fork: &mut Vec<u8>, rows: &[Resource<D>]) -> Result<(), HostFull>
    requires names { NamesFit 0 rows.now }
    requires small { length (data_text (plain_rows D.text rows.now)) < 2 ^ 32 }
    ensures { OnOk result (fork.new.items ≡ fork.old.items ++ references_text 0 0 (plain_rows D.text rows.now)) }
{
    let mut name = 0;
    let mut datum = 0;
    for row in rows {
        push_reference(fork, row, name_offset(name, &row.name), datum)?;
        name += name_length(&row.name);
        datum += 4 + row.datum.count() as u32;
    }
    Ok(())
}

/// Adds an entry of the type list: a type, how many rows it has, less one, and where its references are.
fn push_entry(fork: &mut Vec<u8>, kind: ResType, less_one: u16, at: u16) -> Result<(), HostFull>
    ensures { OnOk result (fork.new.items
        ≡ fork.old.items ++ (kind ++ (big_bytes 2 less_one ++ big_bytes 2 at))) }
{
    fork.extend_from_slice(&kind.bytes())?;
    push_two(fork, less_one)?;
    push_two(fork, at)?;
    Ok(())
}

/// Adds the entries of the type list, where the references of the first type are at this offset.
fn push_entries<D>(fork: &mut Vec<u8>, rows: &[Resource<D>], first: usize) -> Result<(), HostFull>
    requires low { first + 12 * length rows.now ≤ 65535 }
    ensures { OnOk result (fork.new.items ≡ fork.old.items ++ entries_text first (types_of rows.now)) }
{
    let mut at = 0;
    while at < rows.len() {
        let end = run_end(rows, at);
        push_entry(
            fork,
            rows[at].kind,
            (end - at - 1) as u16,
            (first + 12 * at) as u16,
        )?;
        at = end;
    }
    Ok(())
}

/// Adds the first 28 bytes of a map.
fn push_map_header(
    fork: &mut Vec<u8>,
    header: Header,
    attributes: u16,
    names: u16,
) -> Result<(), HostFull>
    ensures { OnOk result (fork.new.items ≡ fork.old.items ++ map_header_text header attributes names) }
{
    push_header(fork, header)?;
    push_four(fork, 0)?;
    push_two(fork, 0)?;
    push_two(fork, attributes)?;
    push_two(fork, 28)?;
    push_two(fork, names)?;
    Ok(())
}

/// Adds the type list, which has so many types.
fn push_types<D>(fork: &mut Vec<u8>, rows: &[Resource<D>], types: usize) -> Result<(), HostFull>
    requires types { types ≡ length (types_of rows.now) }
    requires low { names_offset rows.now ≤ 65535 }
    ensures { OnOk result (fork.new.items ≡ fork.old.items ++ types_text rows.now) }
{
    push_two(fork, ((types + 65535) % 65536) as u16)?;
    push_entries(fork, rows, 2 + 8 * types)?;
    Ok(())
}

/// Adds a map.
fn push_map<D: Datum>(
    fork: &mut Vec<u8>,
    rows: &[Resource<D>],
    map_attributes: u16,
    header: Header,
) -> Result<(), HostFull>
    requires header { header ≡ header_for (plain_rows D.text rows.now) }
    requires low { names_offset rows.now ≤ 65535 }
    requires names { NamesFit 0 rows.now }
    requires small { length (data_text (plain_rows D.text rows.now)) < 2 ^ 32 }
    ensures { OnOk result (fork.new.items ≡ fork.old.items ++ map_text (plain_table D.text rows.now [] map_attributes)) }
{
    let types = type_count(rows);
    let names = 30 + 8 * types + 12 * rows.len();
    push_map_header(fork, header, map_attributes, names as u16)?;
    push_types(fork, rows, types)?;
    push_references(fork, rows)?;
    push_names(fork, rows)?;
    Ok(())
}

/// Adds the parts of a fork.
fn push_fork<D: Datum>(
    fork: &mut Vec<u8>,
    rows: &[Resource<D>],
    extra: &[u8; 240],
    map_attributes: u16,
    header: Header,
) -> Result<(), HostFull>
    requires header { header ≡ header_for (plain_rows D.text rows.now) }
    requires low { names_offset rows.now ≤ 65535 }
    requires names { NamesFit 0 rows.now }
    requires small { length (data_text (plain_rows D.text rows.now)) < 2 ^ 32 }
    ensures { OnOk result (fork.new.items ≡ fork.old.items ++ written (plain_table D.text rows.now extra.now map_attributes)) }
{
    push_header(fork, header)?;
    fork.extend_from_slice(extra)?;
    push_data(fork, rows)?;
    push_map(fork, rows, map_attributes, header)?;
    Ok(())
}

/// The bytes of the fork of rows, extra bytes and the attributes of a map: those that `write_fork_within` writes for
/// the table of them, whatever stands for the bytes of the rows. No memory is needed but for the fork itself.
pub fn write_rows_within<D: Datum>(
    alloc: Global,
    limits: Limits,
    rows: &[Resource<D>],
    extra: &[u8; 240],
    map_attributes: u16,
) -> Result<Vec<u8>, WriteFault>
    requires { limits.bytes ≤ format_limits.bytes }
    ensures written { IfOk result (λ fork. fork.items ≡ written (plain_table D.text rows.now extra.now map_attributes)) }
    ensures small { IfOk result (λ _. IsSmallWithin limits (plain_table D.text rows.now extra.now map_attributes)) }
    ensures fits { IfOk result (λ _. FitsWithin limits (plain_table D.text rows.now extra.now map_attributes)) }
    ensures stands { IfOk result (λ fork. IsGrouped (plain_rows D.text rows.now)
        → StandsForWithin limits fork.items (plain_table D.text rows.now extra.now map_attributes)) }
    ensures too_big { IsErrOf result WriteFault.TooBig ↔ IsTooBigWithin limits (plain_table D.text rows.now extra.now map_attributes) }
{
    let Some(header) = header_of_rows(rows, limits) else {
        return Err(WriteFault::TooBig);
    };
    let size = header.map_offset + header.map_length;
    let Ok(mut fork) = Vec::with_capacity(alloc, size as usize) else {
        return Err(WriteFault::HostFull);
    };
    match push_fork(&mut fork, rows, extra, map_attributes, header) {
        Ok(()) => Ok(fork),
        Err(HostFull) => Err(WriteFault::HostFull),
    }
}

/// The bytes of the fork of rows, extra bytes and the attributes of a map: those that `write_fork` writes for the table
/// of them, whatever stands for the bytes of the rows. No memory is needed but for the fork itself.
pub fn write_rows<D: Datum>(
    alloc: Global,
    rows: &[Resource<D>],
    extra: &[u8; 240],
    map_attributes: u16,
) -> Result<Vec<u8>, WriteFault>
    ensures written { IfOk result (λ fork. fork.items ≡ written (plain_table D.text rows.now extra.now map_attributes)) }
    ensures small { IfOk result (λ _. length (written (plain_table D.text rows.now extra.now map_attributes)) ≤ max_fork) }
    ensures fits { IfOk result (λ _. Fits (plain_table D.text rows.now extra.now map_attributes)) }
    ensures stands { IfOk result (λ fork. IsGrouped (plain_rows D.text rows.now) → StandsFor fork.items (plain_table D.text rows.now extra.now map_attributes)) }
    ensures too_big { IsErrOf result WriteFault.TooBig ↔ IsTooBig (plain_table D.text rows.now extra.now map_attributes) }
{
    write_rows_within(alloc, Limits::MACHEAP, rows, extra, map_attributes)
}

/// The bytes of the fork of a table: the header, the extra bytes, the data of the rows without gaps, and the map, whose
/// lists follow each other in the order of the rows (Inside Macintosh: More Macintosh Toolbox, chapter 1, "Resource
/// File Format"). Where the rows of each type are together, the bytes stand for the table: they are read as it. The
/// fault is TooBig exactly where the fork would have more bytes than the limits allow, or the table has more rows, or
/// its rows more bytes with four of length for each, or an offset in the map is too large for its two bytes, or the
/// place of a datum in the data for its three.
pub fn write_fork_within(
    alloc: Global,
    limits: Limits,
    table: &Table,
) -> Result<Vec<u8>, WriteFault>
    requires { limits.bytes ≤ format_limits.bytes }
    ensures written { IfOk result (λ fork. fork.items ≡ written table.now) }
    ensures small { IfOk result (λ _. IsSmallWithin limits table.now) }
    ensures fits { IfOk result (λ _. FitsWithin limits table.now) }
    ensures stands { IfOk result (λ fork. IsGrouped table.now.rows → StandsForWithin limits fork.items table.now) }
    ensures too_big { IsErrOf result WriteFault.TooBig ↔ IsTooBigWithin limits table.now }
{
    write_rows_within(
        alloc,
        limits,
        table.rows.as_slice(),
        &table.extra,
        table.map_attributes,
    )
}

/// The bytes of the fork of a table, as `write_fork_within` gives them, within macheap's limits. The fault is TooBig
/// exactly where the fork would have more than 4,194,304 bytes, or the table has more than 8,192 rows, or an offset in
/// the map is too large for its two bytes.
pub fn write_fork(alloc: Global, table: &Table) -> Result<Vec<u8>, WriteFault>
    ensures written { IfOk result (λ fork. fork.items ≡ written table.now) }
    ensures small { IfOk result (λ _. length (written table.now) ≤ max_fork) }
    ensures fits { IfOk result (λ _. Fits table.now) }
    ensures stands { IfOk result (λ fork. IsGrouped table.now.rows → StandsFor fork.items table.now) }
    ensures too_big { IsErrOf result WriteFault.TooBig ↔ IsTooBig table.now }
{
    write_fork_within(alloc, Limits::MACHEAP, table)
}
