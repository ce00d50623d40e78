//! A picture within a picture, with all that its dots need.

ghost use Rattle.std.specs.Prelude.{◌≡◌, ◌≤◌, ◌<◌, ◌+◌, ◌-◌, IfOk, length};
ghost use Rattle.fork_drawings.specs.Brushes.{IsBelow, IsBrush, IsMask, brushed, has_in};
ghost use Rattle.fork_drawings.specs.Painting.{IsPainted, dot_of, full_dot};
ghost use Rattle.fork_drawings.specs.Palettes.{IsLow};

use crate::dots::{dot_15, levels, parts_at, value_in};
use crate::palette::{BLACK, palette};
use crate::region::{Region, region_at};
use crate::span::columns;
use fork_pictures::pixel::{Colour, Pixel};
use pict_bytes::bits::Depth;
use pict_bytes::operands::Bits;
use pict_bytes::plane::Packing;
use std::alloc::{AllocError, Global};

/// A picture within a picture, the colours of its values, and the regions outside of which it isn't drawn.
#[derive(Drop)]
pub struct Brush {
    pub bits: Bits,
    pub palette: Vec<Colour>,
    pub clip: Option<Region>,
    pub mask: Option<Region>,
}

/// The colour of the dot of 32 bits in a column of a row.
fn full_dot(bits: &Bits, row: &[u8], x: usize) -> Colour
    requires { x < 65536 }
    ensures { result ≡ full_dot bits.now.packing bits.now row.now x }
{
    let width = bits.map.bounds.width() as usize;
    match bits.packing {
        Packing::Parts => {
            let before = bits.map.parts.saturating_sub(3) as usize;
            parts_at(row, before * width + x, width)
        }
        Packing::NoPadding => parts_at(row, 3 * x, 1),
        _ => parts_at(row, 4 * x + 1, 1),
    }
}

/// The colour of the dot in a column of a row.
fn dot_of(bits: &Bits, palette: &[Colour], row: &[u8], x: usize) -> Colour
    requires { x < 65536 }
    ensures { result ≡ dot_of bits.now.map.depth bits.now palette.now row.now x }
{
    match bits.map.depth {
        Depth::Sixteen => dot_15(row, x),
        Depth::ThirtyTwo => full_dot(bits, row, x),
        depth => palette
            .get(value_in(depth, row, x) as usize)
            .copied()
            .unwrap_or(BLACK),
    }
}

/// The region at a place, if there is one.
fn mask_at(alloc: Global, bytes: &[u8], place: Option<usize>) -> Result<Option<Region>, AllocError>
    requires { IsBelow place }
    ensures { IfOk result (λ region. IsMask region bytes.now place) }
{
    match place {
        Some(at) => Ok(Some(region_at(alloc, bytes, at)?)),
        None => Ok(None),
    }
}

/// Whether a dot is in a region, if there is one.
fn has_in(region: &Option<Region>, x: u32, y: u32) -> bool
    ensures { result ≡ has_in region.now x y }
{
    match region {
        Some(region) => region.has(x, y),
        None => true,
    }
}

/// What is needed to draw a picture within a picture.
pub(crate) fn brush_of(
    alloc: Global,
    bytes: &[u8],
    clip: Option<usize>,
    bits: Bits,
) -> Result<Brush, AllocError>
    requires low { IsBelow clip }
    requires mask_low { IsBelow bits.mask }
    requires colours { IsLow bits.colours }
    ensures { IfOk result (λ brush. IsBrush brush bytes.now clip bits) }
{
    Ok(Brush {
        bits,
        palette: palette(alloc, bits.colours, bytes, levels(bits.map.depth))?,
        clip: mask_at(alloc, bytes, clip)?,
        mask: mask_at(alloc, bytes, bits.mask)?,
    })
}

impl Brush {
    /// A dot at coordinates, where a row of the picture is drawn over it.
    fn brushed(&self, row: &[u8], x: u32, y: u32, pixel: Pixel) -> Pixel
        ensures { result ≡ brushed self.now row.now x y pixel }
    {
        let Some(column) = columns(&self.bits).origin(x) else {
            return pixel;
        };
        if !has_in(&self.clip, x, y) || !has_in(&self.mask, x, y) {
            return pixel;
        }
        Pixel {
            colour: dot_of(&self.bits, &self.palette, row, column),
            is_seen: true,
        }
    }

    /// Draws a row of the picture over so many dots from a place on, at coordinates.
    pub(crate) fn paint_row(
        &self,
        pixels: &mut [Pixel],
        start: usize,
        width: u16,
        left: u16,
        y: u32,
        row: &[u8],
    )
        requires { start + width ≤ length pixels.old }
        ensures { IsPainted pixels.old pixels.new start (start + width) (λ place pixel. brushed self.now row.now (left + (place - start)) y pixel) }
    {
        for x in 0..width {
            let place = start + x as usize;
            pixels[place] = self.brushed(row, left as u32 + x as u32, y, pixels[place]);
        }
    }
}
