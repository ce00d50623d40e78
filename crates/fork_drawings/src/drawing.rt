//! The dots of a picture.

ghost use Rattle.std.specs.Prelude.{◌≡◌, ◌≤◌, ◌<◌, ◌+◌, ◌-◌, ◌*◌, ◌/◌, ◌%◌, ◌^◌, IfOk, IfSome, OnOk, length, map, replicate};
ghost use Rattle.std.specs.Fn.{iterate};
ghost use Rattle.std.specs.List.{All, range_with_len};
ghost use Rattle.fork_pictures.specs.Image.{pixels_of};
ghost use Rattle.pict_bytes.specs.Maps.{height, width};
ghost use Rattle.pict_bytes.specs.Operands.{IsMaskInside};
ghost use Rattle.pict_bytes.specs.Planes.{IsInside};
ghost use Rattle.pict_bytes.specs.Shapes.{shape_of};
ghost use Rattle.fork_drawings.specs.Brushes.{IsBelow, brushed_by};
ghost use Rattle.fork_drawings.specs.Lines.{next_place};
ghost use Rattle.fork_drawings.specs.Painting.{IsPainted, bits_in, blank, clip_after, dot, drawn_once, is_copy, painted};
ghost use Rattle.fork_drawings.specs.Spans.{first_row, last_row};

use crate::brush::{Brush, brush_of};
use crate::lines::{line_at, places_of};
use crate::palette::WHITE;
use crate::span::rows;
use fork_pictures::pixel::Pixel;
use pict_bytes::bits::Rect;
use pict_bytes::operands::Bits;
use pict_bytes::sequence::Opcode;
use pict_bytes::shape::Shape;
use pict_bytes::{bits_at, shape_of};
use std::alloc::{AllocError, Global};

/// The opcode that sets the clip.
const CLIP: u16 = 1;

/// A dot that nothing draws.
const BLANK: Pixel = Pixel {
    colour: WHITE,
    is_seen: true,
};

/// The first row of a frame in which something is drawn that has these bounds.
pub(crate) fn first_row(frame: Rect, target: Rect) -> u16
    ensures { result ≡ first_row frame target }
{
    target.top.saturating_sub(frame.top).min(frame.height())
}

/// The row after the last.
pub(crate) fn last_row(frame: Rect, target: Rect) -> u16
    ensures { result ≡ last_row frame target }
{
    let last = target.bottom.saturating_sub(frame.top).min(frame.height());
    last.max(first_row(frame, target))
}

impl Brush {
    /// Draws in a row of a frame what of the picture comes there.
    fn paint_line(
        &self,
        alloc: Global,
        pixels: &mut [Pixel],
        bytes: &[u8],
        frame: Rect,
        places: &[usize],
        y: u16,
    ) -> Result<(), AllocError>
        requires row { y < height frame }
        requires size { length pixels.old ≡ width frame * height frame }
        requires places { places.now ≡ map (λ row. iterate (next_place self.now.bits bytes.now) row self.now.bits.start) (range_with_len 0 (height self.now.bits.map.bounds)) }
        requires low { All (λ place. place < 2 ^ 40) places.now }
        ensures { OnOk result (IsPainted pixels.old pixels.new (width frame * y) (width frame * y + width frame) (λ place pixel. brushed_by self.now bytes.now (frame.left + (place - width frame * y)) (frame.top + y) pixel)) }
    {
        let down = frame.top as u32 + y as u32;
        let Some(row) = rows(&self.bits).origin(down) else {
            return Ok(());
        };
        let line = line_at(alloc, &self.bits, bytes, places[row])?;
        let width = frame.width();
        self.paint_row(
            pixels,
            width as usize * y as usize,
            width,
            frame.left,
            down,
            &line,
        );
        Ok(())
    }

    /// Draws the picture in a frame.
    fn paint(
        &self,
        alloc: Global,
        pixels: &mut [Pixel],
        bytes: &[u8],
        frame: Rect,
    ) -> Result<(), AllocError>
        requires small { length bytes.now ≤ 16777216 }
        requires start { self.now.bits.start ≤ 16777216 }
        requires size { length pixels.old ≡ width frame * height frame }
        ensures { OnOk result (IsPainted pixels.old pixels.new 0 (width frame * height frame) (λ place pixel. brushed_by self.now bytes.now (frame.left + place % width frame) (frame.top + place / width frame) pixel)) }
    {
        let places = places_of(alloc, &self.bits, bytes, self.bits.map.bounds.height())?;
        for y in first_row(frame, self.bits.target)..last_row(frame, self.bits.target) {
            self.paint_line(alloc, pixels, bytes, frame, &places, y)?;
        }
        Ok(())
    }
}

/// Draws a picture within a picture.
#[tactic(auto, using(crate::proofs::Placed::mask_below, crate::proofs::Placed::colours_low))]
fn draw_bits(
    alloc: Global,
    pixels: &mut [Pixel],
    bytes: &[u8],
    frame: Rect,
    clip: Option<usize>,
    bits: Bits,
) -> Result<(), AllocError>
    requires small { length bytes.now ≤ 16777216 }
    requires start { bits.start ≤ length bytes.now }
    requires clip { IsBelow clip }
    requires mask { IsMaskInside bits.mask bytes.now }
    requires colours { IsInside bits.colours bytes.now }
    requires size { length pixels.old ≡ width frame * height frame }
    ensures { OnOk result (IsPainted pixels.old pixels.new 0 (width frame * height frame) (λ place pixel. painted bytes.now clip bits (frame.left + place % width frame) (frame.top + place / width frame) pixel)) }
{
    let brush = brush_of(alloc, bytes, clip, bits)?;
    brush.paint(alloc, pixels, bytes, frame)
}

/// Whether a mode copies the dots of a map: srcCopy, or ditherCopy, which is the same where all colours can be shown.
fn is_copy(mode: u16) -> bool
    ensures { result ≡ is_copy mode }
{
    mode == 0 || mode == 64
}

/// The picture within a picture that an opcode draws, if it draws one: a map whose mode copies.
pub(crate) fn bits_of(bytes: &[u8], opcode: Opcode) -> Option<Bits>
    requires { length bytes.now ≤ 16777216 }
    ensures is { result ≡ bits_in (shape_of opcode.code) bytes.now opcode.start }
    ensures inside { IfSome result (λ bits. bits.start ≤ length bytes.now) }
    ensures mask { IfSome result (λ bits. IsMaskInside bits.mask bytes.now) }
    ensures colours { IfSome result (λ bits. IsInside bits.colours bytes.now) }
{
    match shape_of(opcode.code) {
        Shape::Bits { storage, is_masked } => {
            match bits_at(storage, is_masked, bytes, opcode.start as usize) {
                Ok(bits) if is_copy(bits.mode) => Some(bits),
                _ => None,
            }
        }
        _ => None,
    }
}

/// Draws what an opcode draws.
fn draw_opcode(
    alloc: Global,
    pixels: &mut [Pixel],
    bytes: &[u8],
    frame: Rect,
    clip: Option<usize>,
    opcode: Opcode,
) -> Result<(), AllocError>
    requires small { length bytes.now ≤ 16777216 }
    requires clip { IsBelow clip }
    requires size { length pixels.old ≡ width frame * height frame }
    ensures { OnOk result (IsPainted pixels.old pixels.new 0 (width frame * height frame) (λ place pixel. drawn_once bytes.now clip opcode (frame.left + place % width frame) (frame.top + place / width frame) pixel)) }
{
    match bits_of(bytes, opcode) {
        Some(bits) => draw_bits(alloc, pixels, bytes, frame, clip, bits),
        None => Ok(()),
    }
}

/// The clip after an opcode.
pub(crate) fn clip_after(clip: Option<usize>, opcode: Opcode) -> Option<usize>
    requires { IsBelow clip }
    ensures is { result ≡ clip_after clip opcode }
    ensures below { IsBelow result }
{
    if opcode.code == CLIP {
        Some(opcode.start as usize)
    } else {
        clip
    }
}

/// So many dots that nothing has drawn.
fn blanks(alloc: Global, count: usize) -> Result<Vec<Pixel>, AllocError>
    ensures { IfOk result (λ pixels. pixels.items ≡ replicate count blank) }
{
    let mut pixels = Vec::new(alloc);
    for _dot in 0..count {
        pixels.push(BLANK)?;
    }
    Ok(pixels)
}

/// The dots of a frame after opcodes, row after row from the top.
pub(crate) fn dots_of(
    alloc: Global,
    bytes: &[u8],
    frame: Rect,
    opcodes: &[Opcode],
) -> Result<Vec<Pixel>, AllocError>
    requires small { length bytes.now ≤ 16777216 }
    requires dots { width frame * height frame ≤ 16777216 }
    ensures { IfOk result (λ pixels. pixels.items ≡ pixels_of (width frame) (height frame) (dot bytes.now frame opcodes.now)) }
{
    let count = frame.width() as usize * frame.height() as usize;
    let mut pixels = blanks(alloc, count)?;
    let mut clip = None;
    for opcode in opcodes {
        draw_opcode(alloc, &mut pixels, bytes, frame, clip, *opcode)?;
        clip = clip_after(clip, *opcode);
    }
    Ok(pixels)
}
