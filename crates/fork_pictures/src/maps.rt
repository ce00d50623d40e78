//! The pictures of resources that have a pixel map.

ghost use Rattle.std.specs.Prelude.{◌≡◌, ◌≤◌, ◌<◌, ◌+◌, ◌*◌, ◌^◌, length};
ghost use Rattle.fork_pictures.specs.Maps.{bits_long, colour_cursor, colour_icon, colour_pattern, coloured, count_at, cursor_map, depth_from, mapped, pattern_map, pixel_map, pointed, table_at, table_end};

use crate::bytes::{extent, long_at, word_at};
use crate::colours::{Colours, Table};
use crate::drawing::{Drawing, Mask, Values, flat};
use crate::fault::Fault;
use crate::rows::{Depth, Rows};

/// What a pixel map says.
#[derive(Clone, Copy)]
struct PixelMap {
    width: u16,
    height: u16,
    /// How many bytes a row has.
    row: u16,
    depth: Depth,
}

/// How many bits a pixel has, where they are drawn.
fn depth_from(bits: u16) -> Option<Depth>
    ensures { result ≡ depth_from bits }
{
    match bits {
        1 => Some(Depth::One),
        2 => Some(Depth::Two),
        4 => Some(Depth::Four),
        8 => Some(Depth::Eight),
        _ => None,
    }
}

/// The pixel map at a place.
#[tactic(auto, using(crate::proofs::Places::row_place))]
fn pixel_map(bytes: &[u8], at: usize) -> Result<PixelMap, Fault>
    requires { at < 2 ^ 40 }
    ensures { result ≡ pixel_map bytes.now at }
{
    if bytes.len() < at + 50 {
        return Err(Fault::Short(at as u64 + 50));
    }
    let Some(depth) = depth_from(word_at(bytes, at + 32)) else {
        return Err(Fault::Depth(at as u64 + 32));
    };
    let row = word_at(bytes, at + 4) % 16384;
    let width = extent(bytes, at + 8, at + 12);
    if row as u64 * (depth.each() as u64) < width as u64 {
        return Err(Fault::RowBytes(at as u64 + 4));
    }
    Ok(PixelMap {
        width,
        height: extent(bytes, at + 6, at + 10),
        row,
        depth,
    })
}

/// How many entries the table of colours at a place has.
pub(crate) fn count_at(bytes: &[u8], at: usize) -> u16
    requires { at < 2 ^ 40 }
    ensures { result ≡ count_at bytes.now at }
{
    word_at(bytes, at + 6).wrapping_add(1)
}

/// Where the table of colours at a place ends.
pub(crate) fn table_end(bytes: &[u8], at: usize) -> usize
    requires { at < 2 ^ 40 }
    ensures is { result ≡ table_end bytes.now at }
    ensures low { result < at + 524304 }
{
    at + 8 + 8 * count_at(bytes, at) as usize
}

/// The colours of the table at a place.
fn table_at(bytes: &[u8], at: usize) -> Result<Colours, Fault>
    requires small { length bytes.now ≤ 16777216 }
    requires low { at < 2 ^ 40 }
    ensures { result ≡ table_at bytes.now at }
{
    let end = table_end(bytes, at);
    if bytes.len() < end {
        return Err(Fault::Short(end as u64));
    }
    let is_in_order = word_at(bytes, at + 4) >= 32768;
    let table = Table {
        start: at as u32 + if is_in_order { 10 } else { 8 },
        step: 8,
        count: count_at(bytes, at) as u32,
    };
    if is_in_order {
        Ok(Colours::InOrder(table))
    } else {
        Ok(Colours::ByValue(table))
    }
}

/// The picture of a pixel map whose rows are at a place.
#[tactic(auto, using(crate::proofs::Places::row_place))]
fn mapped(
    bytes: &[u8],
    map: PixelMap,
    start: usize,
    colours: Colours,
    mask: Mask,
) -> Result<Drawing, Fault>
    requires small { length bytes.now ≤ 16777216 }
    requires low { start < 2 ^ 41 }
    ensures { result ≡ mapped bytes.now map start colours mask }
{
    let end = start + map.row as usize * map.height as usize;
    if bytes.len() < end {
        return Err(Fault::Short(end as u64));
    }
    let rows = Rows {
        start: start as u32,
        width: map.row,
        depth: map.depth,
    };
    Ok(Drawing {
        width: map.width as u32,
        height: map.height as u32,
        values: Values::Rows(rows),
        colours,
        mask,
    })
}

/// The picture of a pixel map whose table of colours is at one place, and whose rows are at another.
fn coloured(
    bytes: &[u8],
    map: PixelMap,
    table: usize,
    start: usize,
    mask: Mask,
) -> Result<Drawing, Fault>
    requires small { length bytes.now ≤ 16777216 }
    requires low { table < 2 ^ 40 }
    requires start_low { start < 2 ^ 41 }
    ensures { result ≡ coloured bytes.now map table start mask }
{
    let colours = table_at(bytes, table)?;
    mapped(bytes, map, start, colours, mask)
}

/// How many bytes the bits have that a bit map at a place describes.
#[tactic(auto, using(crate::proofs::Places::row_place))]
fn bits_long(bytes: &[u8], at: usize) -> usize
    requires { at < 2 ^ 40 }
    ensures is { result ≡ bits_long bytes.now at }
    ensures low { result < 2 ^ 32 }
{
    word_at(bytes, at + 4) as usize * extent(bytes, at + 6, at + 10) as usize
}

/// Rows of bits, as a mask.
fn mask_at(start: u32, width: u16) -> Mask
    ensures { result ≡ Mask.Own (record { start = start; width = width; depth = Depth.One }) }
{
    Mask::Own(Rows {
        start,
        width,
        depth: Depth::One,
    })
}

/// A colour icon.
pub(crate) fn colour_icon(bytes: &[u8]) -> Result<Drawing, Fault>
    requires { length bytes.now ≤ 16777216 }
    ensures { result ≡ colour_icon bytes.now }
{
    if bytes.len() < 82 {
        return Err(Fault::Short(82));
    }
    let map = pixel_map(bytes, 0)?;
    let row = word_at(bytes, 54);
    if 8 * (row as u32) < map.width as u32 || extent(bytes, 56, 60) < map.height {
        return Err(Fault::Mask(50));
    }
    let table = 82 + bits_long(bytes, 50) + bits_long(bytes, 64);
    let start = table_end(bytes, table);
    coloured(bytes, map, table, start, mask_at(82, row))
}

/// The picture of a pixel map with the rows and the colours that a cursor's or a pattern's long words say.
fn pointed(bytes: &[u8], map: PixelMap, mask: Mask) -> Result<Drawing, Fault>
    requires { length bytes.now ≤ 16777216 }
    ensures { result ≡ pointed bytes.now map mask }
{
    let table = long_at(bytes, long_at(bytes, 2) as usize + 42);
    let start = long_at(bytes, 6);
    coloured(bytes, map, table as usize, start as usize, mask)
}

/// The picture of a cursor's pixel map.
fn cursor_map(bytes: &[u8], mask: Mask) -> Result<Drawing, Fault>
    requires { length bytes.now ≤ 16777216 }
    ensures { result ≡ cursor_map bytes.now mask }
{
    let at = long_at(bytes, 2) as usize;
    let map = pixel_map(bytes, at)?;
    if map.width != 16 || map.height != 16 {
        return Err(Fault::Bounds(at as u64 + 6));
    }
    pointed(bytes, map, mask)
}

/// The picture of a pattern's pixel map.
fn pattern_map(bytes: &[u8]) -> Result<Drawing, Fault>
    requires { length bytes.now ≤ 16777216 }
    ensures { result ≡ pattern_map bytes.now }
{
    let map = pixel_map(bytes, long_at(bytes, 2) as usize)?;
    pointed(bytes, map, Mask::All)
}

/// A cursor in colour, or in black and white.
pub(crate) fn colour_cursor(bytes: &[u8]) -> Result<Drawing, Fault>
    requires { length bytes.now ≤ 16777216 }
    ensures { result ≡ colour_cursor bytes.now }
{
    let mask = mask_at(52, 2);
    if bytes.len() < 96 {
        return Err(Fault::Short(96));
    }
    match word_at(bytes, 0) {
        0x8000 => Ok(flat(20, 2, 16, mask)),
        0x8001 => cursor_map(bytes, mask),
        _ => Err(Fault::Type(0)),
    }
}

/// A pattern in colour, or in black and white.
pub(crate) fn colour_pattern(bytes: &[u8]) -> Result<Drawing, Fault>
    requires { length bytes.now ≤ 16777216 }
    ensures { result ≡ colour_pattern bytes.now }
{
    if bytes.len() < 28 {
        return Err(Fault::Short(28));
    }
    match word_at(bytes, 0) {
        0 => Ok(flat(20, 1, 8, Mask::All)),
        1 => pattern_map(bytes),
        _ => Err(Fault::Type(0)),
    }
}
