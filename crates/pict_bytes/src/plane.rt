//! Where the rows of a picture are, how they are kept, and where they end.

ghost use Rattle.std.specs.Prelude.{◌≡◌, ◌≤◌, ◌<◌, ◌+◌, ◌^◌, IfOk, false, length};
ghost use Rattle.byteorder.specs.Endian.{big_from};
ghost use Rattle.pict_bytes.specs.Planes.{IsInside, counter, data_end, direct_packing, direct_plane, flat_plane, is_wide, mapped_plane, packed, packing_of, parted, plane_at, row_end, rows_end, table_end};

use crate::bits::{Depth, Map, bit_map, pixel_map};
use crate::fault::Fault;
use crate::reading::{two_at, within};
use crate::shape::Storage;

/// What colours dots have.
#[derive(Clone, Copy, Debug, PartialEq, Eq)]
pub enum Colours {
    /// 0 is white, 1 black.
    BlackAndWhite,
    /// Those of the table at this place.
    Table(usize),
    /// A dot is a colour.
    Direct,
}

/// A map with its colours, and where what follows them begins.
#[derive(Clone, Copy, Debug, PartialEq, Eq)]
pub struct Plane {
    pub map: Map,
    pub colours: Colours,
    pub end: usize,
}

/// How rows are kept.
#[derive(Clone, Copy, Debug, PartialEq, Eq)]
pub enum Packing {
    /// As they are.
    None,
    /// Dots of 32 bits, without the first byte of each.
    NoPadding,
    /// Packed by PackBits, byte by byte.
    Bytes,
    /// Packed by PackBits, word by word.
    Words,
    /// Packed by PackBits: the first part of all dots, then the second, and so on.
    Parts,
}

/// Where the table of colours at a place ends.
fn table_end(bytes: &[u8], at: usize) -> Result<usize, Fault>
    requires { at < 2 ^ 40 }
    ensures is { result ≡ table_end bytes.now at }
    ensures inside { IfOk result (λ end. end ≤ length bytes.now) }
{
    within(bytes, at + 8)?;
    let count = two_at(bytes, at + 6).wrapping_add(1);
    within(bytes, at + 8 + 8 * count as usize)
}

/// A bit map.
fn flat_plane(bytes: &[u8], at: usize) -> Result<Plane, Fault>
    requires { at < 2 ^ 39 }
    ensures is { result ≡ flat_plane bytes.now at }
    ensures inside { IfOk result (λ plane. plane.end ≤ length bytes.now) }
    ensures colours { IfOk result (λ plane. IsInside plane.colours bytes.now) }
{
    let map = bit_map(bytes, at)?;
    Ok(Plane {
        map,
        colours: Colours::BlackAndWhite,
        end: at + 10,
    })
}

/// A pixel map with its table of colours.
pub(crate) fn mapped_plane(bytes: &[u8], at: usize) -> Result<Plane, Fault>
    requires { at < 2 ^ 39 }
    ensures is { result ≡ mapped_plane bytes.now at }
    ensures inside { IfOk result (λ plane. plane.end ≤ length bytes.now) }
    ensures colours { IfOk result (λ plane. IsInside plane.colours bytes.now) }
{
    let map = pixel_map(bytes, at)?;
    if map.depth.is_direct() {
        return Err(Fault::Depth(at as u64 + 28));
    }
    let end = table_end(bytes, at + 46)?;
    Ok(Plane {
        map,
        colours: Colours::Table(at + 46),
        end,
    })
}

/// A pixel map whose dots are colours, after four bytes that mean nothing.
fn direct_plane(bytes: &[u8], at: usize) -> Result<Plane, Fault>
    requires { at < 2 ^ 39 }
    ensures is { result ≡ direct_plane bytes.now at }
    ensures inside { IfOk result (λ plane. plane.end ≤ length bytes.now) }
    ensures colours { IfOk result (λ plane. IsInside plane.colours bytes.now) }
{
    let map = pixel_map(bytes, at + 4)?;
    if !map.depth.is_direct() {
        return Err(Fault::Depth(at as u64 + 32));
    }
    Ok(Plane {
        map,
        colours: Colours::Direct,
        end: at + 50,
    })
}

/// The map at a place, with its colours.
pub(crate) fn plane_at(storage: Storage, bytes: &[u8], at: usize) -> Result<Plane, Fault>
    requires { at < 2 ^ 39 }
    ensures is { result ≡ plane_at storage bytes.now at }
    ensures inside { IfOk result (λ plane. plane.end ≤ length bytes.now) }
    ensures colours { IfOk result (λ plane. IsInside plane.colours bytes.now) }
{
    if storage == Storage::Direct {
        return direct_plane(bytes, at);
    }
    within(bytes, at + 2)?;
    if two_at(bytes, at) >= 32768 {
        mapped_plane(bytes, at)
    } else {
        flat_plane(bytes, at)
    }
}

/// How packed rows of places in a table are kept.
pub(crate) fn packed(map: Map) -> Packing
    ensures { result ≡ packed map }
{
    if map.row < 8 {
        Packing::None
    } else {
        Packing::Bytes
    }
}

/// The packing part by part, of a map at a place.
fn parted(map: Map, at: usize) -> Result<Packing, Fault>
    requires { at < 2 ^ 41 }
    ensures { result ≡ parted map at }
{
    if map.parts == 3 || map.parts == 4 {
        Ok(Packing::Parts)
    } else {
        Err(Fault::Parts(at as u64 + 30))
    }
}

/// How rows of colours are kept, of a map at a place.
fn direct_packing(map: Map, at: usize) -> Result<Packing, Fault>
    requires { at < 2 ^ 41 }
    ensures { result ≡ direct_packing map at }
{
    match (map.depth, map.packing) {
        (_, 1) => Ok(Packing::None),
        (Depth::Sixteen, 0 | 3) => Ok(Packing::Words),
        (Depth::ThirtyTwo, 2) => Ok(Packing::NoPadding),
        (Depth::ThirtyTwo, 0 | 4) => parted(map, at),
        _ => Err(Fault::Packing(at as u64 + 12)),
    }
}

/// How the rows of an opcode are kept, whose operands are at a place.
pub(crate) fn packing_of(storage: Storage, map: Map, at: usize) -> Result<Packing, Fault>
    requires { at < 2 ^ 40 }
    ensures { result ≡ packing_of storage map at }
{
    match storage {
        Storage::Plain => Ok(Packing::None),
        Storage::Packed => Ok(packed(map)),
        Storage::Direct if map.row < 8 => Ok(Packing::None),
        Storage::Direct => direct_packing(map, at + 4),
    }
}

/// Whether two bytes count those of a packed row, and not one.
pub fn is_wide(map: Map) -> bool
    ensures { result ≡ is_wide map }
{
    map.row > 250
}

/// How many bytes the packed row has whose count is at a place.
fn count_at(bytes: &[u8], at: usize, is_wide: bool) -> u16
    requires { at + counter is_wide ≤ length bytes.now }
    ensures { result ≡ big_from at (counter is_wide) bytes.now }
{
    if is_wide {
        two_at(bytes, at)
    } else {
        bytes[at] as u16
    }
}

/// Where the packed row at a place ends.
pub fn row_end(bytes: &[u8], at: usize, is_wide: bool) -> Result<usize, Fault>
    requires { at < 2 ^ 40 }
    ensures is { result ≡ row_end bytes.now at is_wide }
    ensures inside { IfOk result (λ end. end ≤ length bytes.now) }
{
    let start = within(bytes, at + if is_wide { 2 } else { 1 })?;
    within(bytes, start + count_at(bytes, at, is_wide) as usize)
}

/// Where so many packed rows from a place on end.
#[tactic(auto, using(crate::proofs::Steps::next_row, crate::proofs::Steps::wrong_row))]
fn rows_end(bytes: &[u8], start: usize, is_wide: bool, count: u16) -> Result<usize, Fault>
    requires small { length bytes.now ≤ 16777216 }
    requires low { start ≤ length bytes.now }
    ensures is { result ≡ rows_end bytes.now start is_wide count }
    ensures inside { IfOk result (λ end. end ≤ length bytes.now) }
{
    let mut at = start;
    for _row in 0..count {
        at = row_end(bytes, at, is_wide)?;
    }
    Ok(at)
}

/// Where the rows end that begin at a place.
pub(crate) fn data_end(packing: Packing, map: Map, bytes: &[u8], at: usize) -> Result<usize, Fault>
    requires small { length bytes.now ≤ 16777216 }
    requires low { at ≤ length bytes.now }
    ensures is { result ≡ data_end packing map bytes.now at }
    ensures inside { IfOk result (λ end. end ≤ length bytes.now) }
{
    let count = map.bounds.height();
    match packing {
        Packing::None => within(bytes, at + (map.row as u32 * count as u32) as usize),
        Packing::NoPadding => within(
            bytes,
            at + (3 * (map.row as u32 / 4) * count as u32) as usize,
        ),
        _ => rows_end(bytes, at, is_wide(map), count),
    }
}
