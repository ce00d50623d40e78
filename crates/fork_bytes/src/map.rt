//! The map of a fork.

ghost use Rattle.std.specs.Prelude.{◌≡◌, ◌<◌, ◌≤◌, ◌+◌, ◌*◌, ◌++◌, length, take, IfOk, IfErr, OnOk};
ghost use Rattle.std.specs.Arc.{arc_slice_items};
ghost use Rattle.std.specs.List.{AllByRecursion};
ghost use Rattle.fork_bytes.specs.Fork.{attributes_of, map_row, map_rows, references_in, Reference, HasReferences, HasNames};
ghost use Rattle.fork_bytes.specs.Reading.{FaultsAt, HasName, IsMapWithin, IsTypeList, RefusesMapWithin, entry_of, names_end, rows_in};

use crate::fault::{Condition, ForkFault};
use crate::grow::push;
use crate::layout::{Limits, MapRow, REFERENCE_LENGTH};
use crate::name::{read_name, share_names};
use crate::number::{read_signed, read_three, read_two};
use crate::types::{TypeEntry, TypeList, check_references, entry, read_types};
use bitflags::Flags;
use mac_base::resource::{ResAttrs, ResType};
use std::alloc::Global;
use std::sync::ArcSlice;

/// The attributes of a map.
pub fn read_attributes(map: &[u8]) -> u16
    requires { 28 ≤ length map.now }
    ensures { result ≡ attributes_of map.now }
{
    read_two(map, 22)
}

/// The row of the reference at a place of the map. The fault is BadMap(Names) where its name ends outside the map.
fn read_row(map: &[u8], names: &ArcSlice<u8>, kind: ResType, at: usize) -> Result<MapRow, ForkFault>
    requires map { 28 ≤ length map.now }
    requires names { arc_slice_items names.now ≡ take names_end map.now }
    requires within { at + 12 ≤ length map.now }
    ensures row { IfOk result (λ row. row ≡ map_row map.now (record { kind = kind; place = at })) }
    ensures has { IfOk result (λ _. HasName map.now (record { kind = kind; place = at })) }
    ensures refuses { IfErr result (FaultsAt Condition.Names (¬ HasName map.now (record { kind = kind; place = at }))) }
{
    let name = read_name(map, names, at)?;
    Ok(MapRow {
        kind,
        id: read_signed(map, at),
        name,
        attributes: ResAttrs::from_bits_retain(map[at + 4]),
        datum: read_three(map, at + 5),
    })
}

/// Adds the rows of a type. The fault is BadMap(Names) where one of their names ends outside the map.
fn push_rows(
    map: &[u8],
    names: &ArcSlice<u8>,
    entry: TypeEntry,
    rows: &mut Vec<MapRow>,
) -> Result<(), ForkFault>
    requires map { 28 ≤ length map.now }
    requires shared { arc_slice_items names.now ≡ take names_end map.now }
    requires few { entry.count < 65536 }
    requires inside { 0 < entry.count → entry.start + 12 * entry.count ≤ length map.now }
    ensures rows { OnOk result (rows.new.items ≡ rows.old.items ++ rows_in map.now (entry_of entry)) }
    ensures names { OnOk result (AllByRecursion (HasName map.now) (references_in (entry_of entry))) }
    ensures refuses { IfErr result (FaultsAt Condition.Names (¬ AllByRecursion (HasName map.now) (references_in (entry_of entry)))) }
{
    for i in 0..entry.count {
        let row = read_row(map, names, entry.kind, entry.start + REFERENCE_LENGTH * i)?;
        push(rows, row)?;
    }
    Ok(())
}

/// The rows of all types; there is room for so many at first. The fault is BadMap(Names) where a name ends outside the
/// map.
fn read_rows(
    alloc: Global,
    map: &[u8],
    list: TypeList,
    count: usize,
) -> Result<Vec<MapRow>, ForkFault>
    requires list { IsTypeList map.now list }
    requires small { list.offset < 65536 }
    requires references { HasReferences map.now }
    ensures rows { IfOk result (λ rows. rows.items ≡ map_rows map.now) }
    ensures names { IfOk result (λ _. HasNames map.now) }
    ensures refuses { IfErr result (FaultsAt Condition.Names (¬ HasNames map.now)) }
{
    let Ok(names) = share_names(alloc, map) else {
        return Err(ForkFault::HostFull);
    };
    let Ok(mut rows) = Vec::with_capacity(alloc, count) else {
        return Err(ForkFault::HostFull);
    };
    for i in 0..list.count {
        push_rows(map, &names, entry(map, list, i), &mut rows)?;
    }
    Ok(rows)
}

/// The rows of a map of 28 bytes at least, in the order of its types and of their references. The fault is BadMap of
/// the first condition of Types, References, RowCount and Names that doesn't hold.
pub fn read_map(alloc: Global, map: &[u8], limits: Limits) -> Result<Vec<MapRow>, ForkFault>
    requires { 28 ≤ length map.now }
    ensures rows { IfOk result (λ rows. rows.items ≡ map_rows map.now) }
    ensures holds { IfOk result (λ _. IsMapWithin limits map.now) }
    ensures refuses { IfErr result (RefusesMapWithin limits map.now) }
{
    let list = read_types(alloc, map)?;
    let count = check_references(map, list, limits)?;
    read_rows(alloc, map, list, count)
}
