//! The operands of opcodes.

ghost use Rattle.std.specs.Prelude.{◌≡◌, ◌≤◌, ◌<◌, ◌+◌, ◌^◌, IfOk, length};
ghost use Rattle.pict_bytes.specs.Planes.{IsInside};
ghost use Rattle.pict_bytes.specs.Operands.{IsMaskInside, bits_at, counted_end, end_of, full_pattern_end, long_end, mask_end, mask_place, pattern_end, sized_end, text_end};

use crate::bits::{Map, Rect, rect_at};
use crate::fault::Fault;
use crate::plane::{Colours, Packing, data_end, mapped_plane, packed, packing_of, plane_at};
use crate::reading::{four_at, two_at, within};
use crate::shape::{Shape, Storage};

/// A picture within a picture. Places are in the bytes of the resource.
#[derive(Clone, Copy, Debug, PartialEq, Eq)]
pub struct Bits {
    pub map: Map,
    pub colours: Colours,
    /// What of the map is drawn, in its own coordinates.
    pub source: Rect,
    /// Where it is drawn.
    pub target: Rect,
    /// How it is drawn: 0 is srcCopy.
    pub mode: u16,
    /// Where the region is outside of which nothing is drawn.
    pub mask: Option<usize>,
    pub packing: Packing,
    /// Where the rows begin.
    pub start: usize,
    /// Where the operands end.
    pub end: usize,
}

/// Where the text at a place ends, before which are so many bytes.
fn text_end(bytes: &[u8], at: usize, before: u16) -> Result<usize, Fault>
    requires { at < 2 ^ 39 }
    ensures is { result ≡ text_end bytes.now at before }
    ensures inside { IfOk result (λ end. end ≤ length bytes.now) }
{
    let start = within(bytes, at + before as usize + 1)?;
    within(bytes, start + bytes[at + before as usize] as usize)
}

/// Where the counted bytes at a place end, before whose count are so many bytes.
fn counted_end(bytes: &[u8], at: usize, before: u16) -> Result<usize, Fault>
    requires { at < 2 ^ 39 }
    ensures is { result ≡ counted_end bytes.now at before }
    ensures inside { IfOk result (λ end. end ≤ length bytes.now) }
{
    let start = within(bytes, at + before as usize + 2)?;
    within(bytes, start + two_at(bytes, at + before as usize) as usize)
}

/// Where the bytes end that four bytes at a place count.
fn long_end(bytes: &[u8], at: usize) -> Result<usize, Fault>
    requires { at < 2 ^ 39 }
    ensures is { result ≡ long_end bytes.now at }
    ensures inside { IfOk result (λ end. end ≤ length bytes.now) }
{
    let start = within(bytes, at + 4)?;
    within(bytes, start + four_at(bytes, at) as usize)
}

/// Where the region or the polygon at a place ends.
fn sized_end(bytes: &[u8], at: usize) -> Result<usize, Fault>
    requires { at < 2 ^ 39 }
    ensures is { result ≡ sized_end bytes.now at }
    ensures inside { IfOk result (λ end. (at + 10 ≤ end) × (end ≤ length bytes.now)) }
{
    within(bytes, at + 2)?;
    let size = two_at(bytes, at);
    if size < 10 {
        return Err(Fault::Size(at as u64));
    }
    within(bytes, at + size as usize)
}

/// Where the pattern at a place ends that has a pixel map.
fn full_pattern_end(bytes: &[u8], at: usize) -> Result<usize, Fault>
    requires small { length bytes.now ≤ 16777216 }
    requires low { at < 2 ^ 38 }
    ensures is { result ≡ full_pattern_end bytes.now at }
    ensures inside { IfOk result (λ end. end ≤ length bytes.now) }
{
    let plane = mapped_plane(bytes, at + 10)?;
    data_end(packed(plane.map), plane.map, bytes, plane.end)
}

/// Where the pattern at a place ends.
fn pattern_end(bytes: &[u8], at: usize) -> Result<usize, Fault>
    requires small { length bytes.now ≤ 16777216 }
    requires low { at < 2 ^ 38 }
    ensures is { result ≡ pattern_end bytes.now at }
    ensures inside { IfOk result (λ end. end ≤ length bytes.now) }
{
    within(bytes, at + 2)?;
    match two_at(bytes, at) {
        1 => full_pattern_end(bytes, at),
        2 => within(bytes, at + 16),
        _ => Err(Fault::Pattern(at as u64)),
    }
}

/// Where the region at a place ends, if there is one.
fn mask_end(is_masked: bool, bytes: &[u8], at: usize) -> Result<usize, Fault>
    requires low { at ≤ length bytes.now }
    requires small { length bytes.now ≤ 16777216 }
    ensures is { result ≡ mask_end is_masked bytes.now at }
    ensures inside { IfOk result (λ end. end ≤ length bytes.now) }
{
    if is_masked {
        sized_end(bytes, at)
    } else {
        Ok(at)
    }
}

/// The place of a region, if there is one.
fn mask_place(is_masked: bool, bytes: &[u8], at: usize) -> Option<usize>
    requires { at ≤ length bytes.now }
    ensures is { result ≡ mask_place is_masked at }
    ensures inside { IsMaskInside result bytes.now }
{
    if is_masked { Some(at) } else { None }
}

/// The picture within a picture at a place.
pub fn bits_at(storage: Storage, is_masked: bool, bytes: &[u8], at: usize) -> Result<Bits, Fault>
    requires small { length bytes.now ≤ 16777216 }
    requires low { at < 2 ^ 38 }
    ensures is { result ≡ bits_at storage is_masked bytes.now at }
    ensures inside { IfOk result (λ bits. (bits.start ≤ length bytes.now) × (bits.end ≤ length bytes.now)) }
    ensures colours { IfOk result (λ bits. IsInside bits.colours bytes.now) }
    ensures mask { IfOk result (λ bits. IsMaskInside bits.mask bytes.now) }
{
    let plane = plane_at(storage, bytes, at)?;
    let packing = packing_of(storage, plane.map, at)?;
    let frames = within(bytes, plane.end + 18)?;
    let start = mask_end(is_masked, bytes, frames)?;
    let end = data_end(packing, plane.map, bytes, start)?;
    Ok(Bits {
        map: plane.map,
        colours: plane.colours,
        source: rect_at(bytes, plane.end),
        target: rect_at(bytes, plane.end + 8),
        mode: two_at(bytes, plane.end + 16),
        mask: mask_place(is_masked, bytes, frames),
        packing,
        start,
        end,
    })
}

/// Where operands of a shape end that begin at a place.
pub(crate) fn end_of(shape: Shape, bytes: &[u8], at: usize) -> Result<usize, Fault>
    requires small { length bytes.now ≤ 16777216 }
    requires low { at ≤ length bytes.now }
    ensures is { result ≡ end_of shape bytes.now at }
    ensures inside { IfOk result (λ end. end ≤ length bytes.now) }
{
    match shape {
        Shape::Fixed(count) => within(bytes, at + count as usize),
        Shape::Text(before) => text_end(bytes, at, before),
        Shape::Counted(before) => counted_end(bytes, at, before),
        Shape::Long => long_end(bytes, at),
        Shape::Sized => sized_end(bytes, at),
        Shape::Pattern => pattern_end(bytes, at),
        Shape::Bits { storage, is_masked } => Ok(bits_at(storage, is_masked, bytes, at)?.end),
    }
}
