//! What differs between two tables.

ghost use Rattle.std.specs.Prelude.{◌≡◌, ◌≢◌, ◌++◌, ◌↔◌, [], false, map, slice_get, take, IfNone, IfOk, IfSome, IsTrue, OnOk, option_copied};
ghost use Rattle.fork_change.specs.Differences.{IsEmpty, added_in, against, attributes_diff, changed_in, diff, is_same, only_new, same_name, shown};

use crate::index::{Counts, count_row, index_of, nth_at};
use crate::putting::id_of;
use crate::row::ResourceId;
use crate::search::is_at;
use bitflags::Flags;
use fork_bytes::table::{Row, Table};
use mac_base::error::HostFull;
use mac_base::name::Name;
use std::alloc::Global;

/// What differs of the n-th rows, from 0 on, of a type and id: that of the first table and that of the second, if there
/// are such.
#[derive(Clone, Copy)]
pub struct Difference<'r, 'a> {
    pub nth: usize,
    pub old: Option<&'r Row<'a>>,
    pub new: Option<&'r Row<'a>>,
}

/// What differs between two tables.
#[derive(Drop)]
pub struct Differences<'r, 'a> {
    /// The rows that differ: those of the first table in its order, and then those that only the second has, in its
    /// own.
    pub rows: Vec<Difference<'r, 'a>>,
    /// Whether no row differs, and they come in another order.
    pub is_reordered: bool,
    /// The attributes of both maps, where they aren't the same.
    pub map_attributes: Option<(u16, u16)>,
    /// The first of the 240 extra bytes that differs, from 0 on.
    pub extra: Option<usize>,
}

impl Differences<'_, '_> {
    /// Whether nothing differs.
    pub fn is_empty(&self) -> bool
        ensures { IsTrue result ↔ IsEmpty self.now }
    {
        self.rows.is_empty()
            && !self.is_reordered
            && self.map_attributes.is_none()
            && self.extra.is_none()
    }
}

/// Whether two names are the same, or there are none.
fn same_name(name: &Option<Name>, other: &Option<Name>) -> bool
    ensures { result ≡ same_name name.now other.now }
{
    match (name, other) {
        (None, None) => true,
        (Some(name), Some(other)) => name.as_slice() == other.as_slice(),
        _ => false,
    }
}

/// Whether two rows of one type and id have the same name, attributes and bytes.
fn is_same(row: &Row, other: &Row) -> bool
    ensures { result ≡ is_same row.now other.now }
{
    same_name(&row.name, &other.name)
        && row.attributes.bits() == other.attributes.bits()
        && row.datum.as_slice() == other.datum.as_slice()
}

/// Whether two rows are the same.
#[tactic(auto, using(crate::proofs::Same::row_from, crate::proofs::Same::at_from, crate::proofs::Same::same_from))]
fn is_row(row: &Row, other: &Row) -> bool
    ensures { IsTrue result ↔ (row.now ≡ other.now) }
{
    is_at(other, &id_of(row)) && is_same(row, other)
}

/// Whether two lists of rows are the same.
fn are_same(rows: &[Row], others: &[Row]) -> bool
    ensures { IsTrue result ↔ (rows.now ≡ others.now) }
{
    if rows.len() != others.len() {
        return false;
    }
    for at in 0..rows.len() {
        if !is_row(&rows[at], &others[at]) {
            return false;
        }
    }
    true
}

/// Whether two tables are the same.
pub fn is_same_table(table: &Table, other: &Table) -> bool
    ensures { IsTrue result ↔ (table.now ≡ other.now) }
{
    are_same(table.rows.as_slice(), other.rows.as_slice())
        && table.extra == other.extra
        && table.map_attributes == other.map_attributes
}

/// The first place at which bytes differ from others, or at which one of them ends. None exactly where they are the
/// same.
pub fn first_difference(bytes: &[u8], other: &[u8]) -> Option<usize>
    ensures before { IfSome result (λ at. take at bytes.now ≡ take at other.now) }
    ensures differs { IfSome result (λ at. slice_get bytes.now at ≢ slice_get other.now at) }
    ensures same { IfNone result (bytes.now ≡ other.now) }
{
    let most = bytes.len().min(other.len());
    for at in 0..most {
        if bytes[at] != other[at] {
            return Some(at);
        }
    }
    if bytes.len() == other.len() {
        None
    } else {
        Some(most)
    }
}

/// Adds what differs of a row of the first table, the n-th of its type and id, where the second has this one.
#[tactic(auto, using(std::proofs::lemmas::List::map_push))]
fn push_against<'r, 'a>(
    found: &mut Vec<Difference<'r, 'a>>,
    nth: usize,
    row: &'r Row<'a>,
    new: Option<&'r Row<'a>>,
) -> Result<(), HostFull>
    ensures { OnOk result (map shown found.new.items ≡ map shown found.old.items ++ against nth row.now (option_copied new.entry)) }
{
    match new {
        Some(other) if is_same(row, other) => {}
        _ => found.push(Difference {
            nth,
            old: Some(row),
            new,
        })?,
    }
    Ok(())
}

/// Adds what differs of the rows of the first table.
fn push_changed<'r, 'a>(
    alloc: Global,
    found: &mut Vec<Difference<'r, 'a>>,
    first: &'r [Row<'a>],
    second: &'r [Row<'a>],
) -> Result<(), HostFull>
    ensures { OnOk result (map shown found.new.items ≡ map shown found.old.items ++ changed_in second.now [] first.now) }
{
    let others = index_of(alloc, second)?;
    let mut counts = Counts::new(alloc);
    for at in 0..first.len() {
        let row = &first[at];
        let nth = count_row(&mut counts, row)?;
        push_against(found, nth, row, nth_at(&others, &id_of(row), nth))?;
    }
    Ok(())
}

/// Adds a row of the second table, the n-th of its type and id, unless the first has one.
#[tactic(auto, using(std::proofs::lemmas::List::map_push))]
fn push_only_new<'r, 'a>(
    found: &mut Vec<Difference<'r, 'a>>,
    nth: usize,
    row: &'r Row<'a>,
    old: Option<&'r Row<'a>>,
) -> Result<(), HostFull>
    ensures { OnOk result (map shown found.new.items ≡ map shown found.old.items ++ only_new nth row.now (option_copied old.entry)) }
{
    if old.is_none() {
        found.push(Difference {
            nth,
            old: None,
            new: Some(row),
        })?;
    }
    Ok(())
}

/// Adds the rows of the second table that the first hasn't.
fn push_added<'r, 'a>(
    alloc: Global,
    found: &mut Vec<Difference<'r, 'a>>,
    first: &'r [Row<'a>],
    second: &'r [Row<'a>],
) -> Result<(), HostFull>
    ensures { OnOk result (map shown found.new.items ≡ map shown found.old.items ++ added_in first.now [] second.now) }
{
    let others = index_of(alloc, first)?;
    let mut counts = Counts::new(alloc);
    for at in 0..second.len() {
        let row = &second[at];
        let nth = count_row(&mut counts, row)?;
        push_only_new(found, nth, row, nth_at(&others, &id_of(row), nth))?;
    }
    Ok(())
}

/// What differs between the rows of two tables.
fn diff<'r, 'a>(
    alloc: Global,
    first: &'r [Row<'a>],
    second: &'r [Row<'a>],
) -> Result<Vec<Difference<'r, 'a>>, HostFull>
    ensures { IfOk result (λ found. map shown found.items ≡ diff first.now second.now) }
{
    let mut found = Vec::new(alloc);
    push_changed(alloc, &mut found, first, second)?;
    push_added(alloc, &mut found, first, second)?;
    Ok(found)
}

/// Whether no row differs, and they come in another order.
fn is_reordered(found: &[Difference], first: &[Row], second: &[Row]) -> bool
    ensures order { IsTrue result ↔ ((found.now ≡ []) × (first.now ≢ second.now)) }
    ensures kept { result ≡ false → found.now ≡ [] → first.now ≡ second.now }
{
    found.is_empty() && !are_same(first, second)
}

/// The attributes of two maps, where they aren't the same.
fn attributes_of(first: &Table, second: &Table) -> Option<(u16, u16)>
    ensures { result ≡ attributes_diff first.now.map_attributes second.now.map_attributes }
{
    if first.map_attributes == second.map_attributes {
        None
    } else {
        Some((first.map_attributes, second.map_attributes))
    }
}

/// What differs between two tables: nothing exactly where they are the same. The n-th row of a type and id is compared
/// with the n-th. The only error is that the host has no memory.
pub fn compare<'r, 'a>(
    alloc: Global,
    first: &'r Table<'a>,
    second: &'r Table<'a>,
) -> Result<Differences<'r, 'a>, HostFull>
    ensures rows { IfOk result (λ found. map shown found.rows.items ≡ diff first.now.rows second.now.rows) }
    ensures order { IfOk result (λ found. IsTrue found.is_reordered
        ↔ ((diff first.now.rows second.now.rows ≡ []) × (first.now.rows ≢ second.now.rows))) }
    ensures attributes { IfOk result (λ found. found.map_attributes
        ≡ attributes_diff first.now.map_attributes second.now.map_attributes) }
    ensures before { IfOk result (λ found. IfSome found.extra (λ at. take at first.now.extra ≡ take at second.now.extra)) }
    ensures differs { IfOk result (λ found. IfSome found.extra (λ at. slice_get first.now.extra at ≢ slice_get second.now.extra at)) }
    ensures same { IfOk result (λ found. IfNone found.extra (first.now.extra ≡ second.now.extra)) }
    ensures none { IfOk result (λ found. IsEmpty found ↔ (first.now ≡ second.now)) }
{
    let old = first.rows.as_slice();
    let new = second.rows.as_slice();
    let rows = diff(alloc, old, new)?;
    let is_reordered = is_reordered(&rows, old, new);
    Ok(Differences {
        rows,
        is_reordered,
        map_attributes: attributes_of(first, second),
        extra: first_difference(&first.extra, &second.extra),
    })
}
