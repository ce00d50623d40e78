//! What is odd about a fork that can be read: data that overlap, and bytes that no resource has.

ghost use Rattle.std.specs.Prelude.{◌≡◌, ◌++◌, [], Some, IfOk, OnOk};
ghost use Rattle.fork_answer.specs.Warnings.{AreExtents, AreWarnings, extent, extent_in, extent_of, extents_of, furthest, further, name_extent, odd_after, oddity, place_in, pool_text, warning_text};
ghost use Rattle.std.specs.Option.{option_to_list};

use crate::line::Place;
use fork_bytes::layout::Limits;
use fork_salvage::{FoundName, FoundRow, Item, Salvage};
use std::alloc::{AllocError, Global};
use std::fmt;

/// How many resources of a fork are looked at. A fork that is read has no more.
const MOST_ROWS: usize = Limits::FORMAT.rows as usize;

/// What resources have bytes in.
#[derive(Clone, Copy, Debug, PartialEq, Eq)]
pub enum Pool {
    Data,
    Names,
}

/// What is odd about a fork.
#[derive(Clone, Copy, Debug, PartialEq, Eq)]
pub enum Warning {
    /// The bytes of a resource begin at a place within those of another one. The references of both are given.
    Overlap {
        pool: Pool,
        place: usize,
        first: usize,
        second: usize,
    },
    /// So many bytes, from a place on, are between those of resources and belong to none.
    OfNone {
        pool: Pool,
        place: usize,
        count: usize,
    },
}

impl Pool {
    /// What it is called.
    fn name(self) -> &'static str
        ensures { result.now ≡ pool_text self }
    {
        match self {
            Pool::Data => "data",
            Pool::Names => "names",
        }
    }
}

impl Warning {
    /// The place in the fork.
    pub fn place(&self) -> usize
        ensures { result ≡ place_in self.now }
    {
        match self {
            Warning::Overlap { place, .. } | Warning::OfNone { place, .. } => *place,
        }
    }
}

impl fmt::Display for Warning {
    ghost output = { λ w. Some (warning_text w) };

    fn fmt<W: fmt::Write>(&self, f: &mut fmt::Formatter<W>) -> fmt::Result {
        match *self {
            Warning::Overlap {
                pool,
                place,
                first,
                second,
            } => {
                let pool = pool.name();
                let place = Place(place);
                let first = Place(first);
                let second = Place(second);
                write!(
                    f,
                    "the {pool} of two resources overlap\n  at {place}, reached from the references at {first} and {second}"
                )
            }
            Warning::OfNone { pool, place, count } => {
                let pool = pool.name();
                let place = Place(place);
                write!(
                    f,
                    "{count} bytes among the {pool} belong to no resource\n  at {place}"
                )
            }
        }
    }
}

/// Bytes that a resource has: where they begin and end, and where its reference is.
type Extent = (usize, usize, usize);

/// The bytes of a name with its length, if there is one within the map.
fn name_extent(name: FoundName, reference: usize) -> Option<Extent>
    ensures { option_to_list result ≡ name_extent name reference }
{
    match name {
        FoundName::Named(name) => Some((
            name.start.saturating_sub(1),
            name.start.saturating_add(name.length as usize),
            reference,
        )),
        FoundName::Unnamed | FoundName::Outside(_) => None,
    }
}

/// The bytes of a resource with their length, or those of its name with theirs, if it has one.
fn extent_of(pool: Pool, row: &FoundRow) -> Option<Extent>
    ensures { option_to_list result ≡ extent_of pool row.now }
{
    match pool {
        Pool::Data => Some((
            row.bytes.start.saturating_sub(4),
            row.bytes.start.saturating_add(row.bytes.length),
            row.reference,
        )),
        Pool::Names => name_extent(row.name, row.reference),
    }
}

/// The bytes of an item, if it is a resource that has some.
fn extent_in(pool: Pool, item: &Item) -> Option<Extent>
    ensures { option_to_list result ≡ extent_in pool item.now }
{
    match item {
        Item::Row(row) => extent_of(pool, row),
        Item::Lost(_) | Item::More | Item::Run(_) => None,
    }
}

/// Adds an element, if there is one.
fn push_any<T: Copy>(list: &mut Vec<T>, element: Option<T>) -> Result<(), AllocError>
    ensures { OnOk result (list.new.items ≡ list.old.items ++ option_to_list element) }
{
    match element {
        Some(element) => Ok(list.push(element)?),
        None => Ok(()),
    }
}

/// The bytes that resources have, in the order of the map.
fn found_extents(alloc: Global, pool: Pool, fork: &[u8]) -> Result<Vec<Extent>, AllocError>
    ensures { IfOk result (λ extents. extents.items ≡ extents_of pool fork.now) }
{
    let mut extents = Vec::new(alloc);
    let mut salvage = Salvage::new(fork);
    for _turn in 0..MOST_ROWS {
        let Some(item) = salvage.next() else {
            return Ok(extents);
        };
        push_any(&mut extents, extent_in(pool, &item))?;
    }
    Ok(extents)
}

/// The bytes that resources have, in the order of their places.
fn extents(alloc: Global, pool: Pool, fork: &[u8]) -> Result<Vec<Extent>, AllocError>
    ensures { IfOk result (λ extents. AreExtents pool fork.now extents.items) }
{
    let mut extents = found_extents(alloc, pool, fork)?;
    extents.sort()?;
    Ok(extents)
}

/// Of bytes and some more those that end last; the first of those that end at one place.
fn further(before: Option<Extent>, next: Extent) -> Option<Extent>
    ensures { result ≡ further before next }
{
    match before {
        Some(before) if before.1 >= next.1 => Some(before),
        _ => Some(next),
    }
}

/// What is odd about bytes that come after others. The first of these end where all of them do.
fn oddity(pool: Pool, before: Option<Extent>, next: Extent) -> Option<Warning>
    ensures { option_to_list result ≡ oddity pool before next }
{
    let (_, last, first) = before?;
    let (start, _, second) = next;
    if start < last {
        return Some(Warning::Overlap {
            pool,
            place: start,
            first,
            second,
        });
    }
    if last < start {
        return Some(Warning::OfNone {
            pool,
            place: last,
            count: start - last,
        });
    }
    None
}

/// Adds what is odd about bytes: each is looked at beside the one that reaches furthest of those before it.
fn push_odd(warnings: &mut Vec<Warning>, pool: Pool, extents: &[Extent]) -> Result<(), AllocError>
    ensures { OnOk result (warnings.new.items ≡ warnings.old.items ++ odd_after pool [] extents.now) }
{
    let mut furthest = None;
    for next in extents {
        push_any(warnings, oddity(pool, furthest, *next))?;
        furthest = further(furthest, *next);
    }
    Ok(())
}

/// What is odd about a fork that can be read: data or names of two resources that overlap, and bytes between them that
/// belong to none. Of a fork that is damaged it is what can be read that is looked at.
pub fn warnings(alloc: Global, fork: &[u8]) -> Result<Vec<Warning>, AllocError>
    ensures { IfOk result (λ warnings. AreWarnings fork.now warnings.items) }
{
    let mut warnings = Vec::new(alloc);
    push_odd(
        &mut warnings,
        Pool::Data,
        &extents(alloc, Pool::Data, fork)?,
    )?;
    push_odd(
        &mut warnings,
        Pool::Names,
        &extents(alloc, Pool::Names, fork)?,
    )?;
    Ok(warnings)
}
