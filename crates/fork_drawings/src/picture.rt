//! A picture in QuickDraw's language, drawn.

ghost use Rattle.std.specs.Prelude.{◌≡◌, ◌≤◌, ◌^◌, length};
ghost use Rattle.pict_bytes.specs.Shapes.{shape_of};
ghost use Rattle.fork_drawings.specs.Brushes.{IsBelow};
ghost use Rattle.fork_drawings.specs.Painting.{bits_in};
ghost use Rattle.fork_drawings.specs.Pictures.{Draws, bits_work, drawn_work, framed, is_too_much, mask_work, picture_of};

use crate::drawing::{bits_of, clip_after, dots_of, first_row, last_row};
use crate::fault::{Fault, NotDrawn};
use crate::lacking::lacking;
use crate::region::count_at;
use crate::undrawn::Undrawn;
use fork_pictures::picture::Picture;
use pict_bytes::bits::Rect;
use pict_bytes::fault::NotRead;
use pict_bytes::operands::Bits;
use pict_bytes::sequence::Opcode;
use pict_bytes::{head_of, opcodes_of};
use std::alloc::Global;

/// The most dots of a picture.
const MOST: u64 = 16_777_216;

/// The most work that a picture may need.
const MOST_WORK: u64 = 268_435_456;

/// A picture that is drawn. Each pixel of it is seen.
#[derive(Drop)]
pub struct Drawing {
    pub picture: Picture,
    /// What of it isn't drawn, if something isn't.
    pub undrawn: Option<Undrawn>,
}

/// How many words the points of a region have, if there is one.
fn mask_work(bytes: &[u8], region: Option<usize>) -> u16
    requires { IsBelow region }
    ensures { result ≡ mask_work bytes.now region }
{
    match region {
        Some(at) => count_at(bytes, at),
        None => 0,
    }
}

/// How much work a picture within a picture needs.
fn bits_work(bytes: &[u8], frame: Rect, clip: Option<usize>, bits: &Bits) -> u64
    requires clip { IsBelow clip }
    requires mask { IsBelow bits.now.mask }
    ensures is { result ≡ bits_work bytes.now frame clip bits.now }
    ensures low { result ≤ 2 ^ 50 }
{
    let rows = last_row(frame, bits.target) - first_row(frame, bits.target);
    let points = mask_work(bytes, clip) as u64 + mask_work(bytes, bits.mask) as u64;
    let row = frame.width() as u64 * (1 + points) + bits.map.row as u64;
    rows as u64 * row + bits.map.bounds.height() as u64
}

/// How much work an opcode needs.
fn opcode_work(bytes: &[u8], frame: Rect, clip: Option<usize>, opcode: Opcode) -> u64
    requires small { length bytes.now ≤ 16777216 }
    requires clip { IsBelow clip }
    ensures is { result ≡ drawn_work bytes.now frame clip (bits_in (shape_of opcode.code) bytes.now opcode.start) }
    ensures low { result ≤ 2 ^ 50 }
{
    match bits_of(bytes, opcode) {
        Some(bits) => bits_work(bytes, frame, clip, &bits),
        None => 0,
    }
}

/// Whether opcodes need too much work.
fn is_too_much(bytes: &[u8], frame: Rect, opcodes: &[Opcode]) -> bool
    requires { length bytes.now ≤ 16777216 }
    ensures { result ≡ is_too_much bytes.now frame opcodes.now }
{
    let mut work = 0;
    let mut clip = None;
    for opcode in opcodes {
        work += opcode_work(bytes, frame, clip, *opcode);
        if work > MOST_WORK {
            return true;
        }
        clip = clip_after(clip, *opcode);
    }
    false
}

/// The picture of opcodes in a frame.
fn framed(alloc: Global, bytes: &[u8], frame: Rect, opcodes: &[Opcode]) -> Result<Drawing, NotDrawn>
    requires { length bytes.now ≤ 16777216 }
    ensures { Draws result (framed bytes.now frame opcodes.now) }
{
    let width = frame.width() as u32;
    let height = frame.height() as u32;
    if width == 0 || height == 0 {
        return Err(NotDrawn::Fault(Fault::Empty));
    }
    if width as u64 * height as u64 > MOST {
        return Err(NotDrawn::Fault(Fault::TooLarge));
    }
    if is_too_much(bytes, frame, opcodes) {
        return Err(NotDrawn::Fault(Fault::TooMuch));
    }
    let undrawn = lacking(bytes, opcodes)?;
    let dots = dots_of(alloc, bytes, frame, opcodes)?;
    Ok(Drawing {
        picture: Picture::new(width, height, dots),
        undrawn,
    })
}

/// What the bit maps and pixel maps of a 'PICT' resource draw whose mode is srcCopy or ditherCopy, at most 16,777,216
/// dots. A dot is that of the last of them that covers it within the clip and its mask, else white. Nothing else is drawn:
/// lines, shapes, texts and maps in other modes are counted. A fault says that the bytes are no list of opcodes, that
/// there is no dot or too many, that drawing would take too long, or that something should be drawn, and none of it is.
pub fn picture_of(alloc: Global, bytes: &[u8]) -> Result<Drawing, NotDrawn>
    ensures { Draws result (picture_of bytes.now) }
{
    let head = match head_of(bytes) {
        Ok(head) => head,
        Err(fault) => return Err(NotDrawn::Fault(Fault::Opcodes(fault))),
    };
    match opcodes_of(alloc, bytes) {
        Ok(opcodes) => framed(alloc, bytes, head.frame, &opcodes),
        Err(NotRead::Fault(fault)) => Err(NotDrawn::Fault(Fault::Opcodes(fault))),
        Err(NotRead::HostFull) => Err(NotDrawn::HostFull),
    }
}
