//! Regions.

ghost use Rattle.std.specs.Prelude.{◌≡◌, ◌<◌, ◌^◌, ◌++◌, IfOk, OnOk};
ghost use Rattle.pict_bytes.specs.Maps.{rect_at};
ghost use Rattle.fork_drawings.specs.Regions.{IsRegion, added, count_at, count_turned, is_end, points_at, row_after};

use crate::bytes::{coordinate, two_at};
use pict_bytes::bits::Rect;
use std::alloc::{AllocError, Global};

/// The word that ends a row of points, and all rows: $7FFF as a coordinate.
const LAST: u16 = 65535;

/// A point of a region: all dots are turned over that are neither above it nor left of it.
#[derive(Clone, Copy, Debug, PartialEq, Eq)]
pub struct Point {
    pub y: u16,
    pub x: u16,
}

/// A region: a rectangle, or the dots of it that its points turn over an odd number of times.
#[derive(Drop)]
pub struct Region {
    pub bounds: Rect,
    pub is_rectangle: bool,
    pub points: Vec<Point>,
}

/// The rectangle at a place.
fn rect_at(bytes: &[u8], at: usize) -> Rect
    requires { at < 2 ^ 40 }
    ensures { result ≡ rect_at bytes.now at }
{
    Rect {
        top: coordinate(bytes, at),
        left: coordinate(bytes, at + 2),
        bottom: coordinate(bytes, at + 4),
        right: coordinate(bytes, at + 6),
    }
}

/// How many words of points the region at a place has.
pub(crate) fn count_at(bytes: &[u8], at: usize) -> u16
    requires { at < 2 ^ 40 }
    ensures { result ≡ count_at bytes.now at }
{
    two_at(bytes, at).saturating_sub(10) / 2
}

/// Whether a word ends all rows: the greatest number, where a row would be.
fn is_end(row: Option<u16>, word: u16) -> bool
    ensures { result ≡ is_end row word }
{
    row.is_none() && word == LAST
}

/// The row that the words after a word are in, if they are in one.
fn row_after(row: Option<u16>, word: u16) -> Option<u16>
    ensures { result ≡ row_after row word }
{
    match row {
        None => Some(word),
        Some(_) if word == LAST => None,
        Some(y) => Some(y),
    }
}

/// Adds the point that a word is, if it is one.
fn add(points: &mut Vec<Point>, row: Option<u16>, word: u16) -> Result<(), AllocError>
    ensures { OnOk result (points.new.items ≡ points.old.items ++ added row word) }
{
    match row {
        Some(y) if word != LAST => points.push(Point { y, x: word })?,
        _ => {}
    }
    Ok(())
}

/// The points of the region at a place.
fn points_at(alloc: Global, bytes: &[u8], at: usize) -> Result<Vec<Point>, AllocError>
    requires { at < 2 ^ 40 }
    ensures { IfOk result (λ points. points.items ≡ points_at bytes.now at) }
{
    let mut points = Vec::new(alloc);
    let mut row = None;
    for place in 0..count_at(bytes, at) {
        let word = coordinate(bytes, at + 10 + 2 * place as usize);
        if is_end(row, word) {
            return Ok(points);
        }
        add(&mut points, row, word)?;
        row = row_after(row, word);
    }
    Ok(points)
}

/// How many points turn a dot over.
fn count_turned(points: &[Point], x: u32, y: u32) -> usize
    ensures { result ≡ count_turned x y points.now }
{
    points
        .iter()
        .filter(|point| point.y as u32 <= y && point.x as u32 <= x)
        .count()
}

/// The region at a place.
pub(crate) fn region_at(alloc: Global, bytes: &[u8], at: usize) -> Result<Region, AllocError>
    requires { at < 2 ^ 39 }
    ensures { IfOk result (λ region. IsRegion region bytes.now at) }
{
    Ok(Region {
        bounds: rect_at(bytes, at + 2),
        is_rectangle: two_at(bytes, at) <= 10,
        points: points_at(alloc, bytes, at)?,
    })
}

impl Region {
    ghost use Rattle.fork_drawings.specs.Regions.{has};

    /// Whether a dot is in the region.
    pub(crate) fn has(&self, x: u32, y: u32) -> bool
        ensures { result ≡ has self.now.bounds self.now.is_rectangle self.now.points.items x y }
    {
        let bounds = self.bounds;
        if x < bounds.left as u32 || bounds.right as u32 <= x {
            return false;
        }
        if y < bounds.top as u32 || bounds.bottom as u32 <= y {
            return false;
        }
        self.is_rectangle || count_turned(&self.points, x, y) % 2 == 1
    }
}
