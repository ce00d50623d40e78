//! The operands of an opcode that draws a picture: where its rows are, their colours, and where they go.

ghost use Rattle.std.specs.Prelude.{◌≡◌, ◌≤◌, ◌<◌, ◌+◌, ◌*◌, ◌^◌, IfOk, length};
ghost use Rattle.pict_bytes.specs.Maps.{bit_map, bits, coordinate, depth_from, enough, height, is_direct, pixel_map, rect_at, width};

use crate::fault::Fault;
use crate::reading::{two_at, within};

/// A rectangle. Each coordinate is 32768 more than in the book: it is how far it is above the least.
#[derive(Clone, Copy, Debug, PartialEq, Eq)]
pub struct Rect {
    pub top: u16,
    pub left: u16,
    pub bottom: u16,
    pub right: u16,
}

impl Rect {
    /// How many dots a row has: none where the right side isn't right of the left one.
    pub fn width(self) -> u16
        ensures { result ≡ width self }
    {
        self.right.saturating_sub(self.left)
    }

    /// How many rows there are: none where the bottom isn't below the top.
    pub fn height(self) -> u16
        ensures { result ≡ height self }
    {
        self.bottom.saturating_sub(self.top)
    }
}

/// How many bits a dot has.
#[derive(Clone, Copy, Debug, PartialEq, Eq)]
pub enum Depth {
    One,
    Two,
    Four,
    Eight,
    Sixteen,
    ThirtyTwo,
}

impl Depth {
    /// How many bits a dot has.
    pub fn bits(self) -> u8
        ensures is { result ≡ bits self }
        ensures few { result ≤ 32 }
    {
        match self {
            Depth::One => 1,
            Depth::Two => 2,
            Depth::Four => 4,
            Depth::Eight => 8,
            Depth::Sixteen => 16,
            Depth::ThirtyTwo => 32,
        }
    }

    /// Whether a dot is a colour, and no place in a table.
    pub fn is_direct(self) -> bool
        ensures { result ≡ is_direct self }
    {
        match self {
            Depth::Sixteen | Depth::ThirtyTwo => true,
            _ => false,
        }
    }

    /// The depth of so many bits.
    fn from_bits(bits: u16) -> Option<Depth>
        ensures { result ≡ depth_from bits }
    {
        match bits {
            1 => Some(Depth::One),
            2 => Some(Depth::Two),
            4 => Some(Depth::Four),
            8 => Some(Depth::Eight),
            16 => Some(Depth::Sixteen),
            32 => Some(Depth::ThirtyTwo),
            _ => None,
        }
    }
}

/// What a bit map or a pixel map says.
#[derive(Clone, Copy, Debug, PartialEq, Eq)]
pub struct Map {
    /// How many bytes a row has where it isn't packed.
    pub row: u16,
    pub bounds: Rect,
    pub depth: Depth,
    /// The number of its packing.
    pub packing: u16,
    /// How many parts a dot has.
    pub parts: u16,
}

/// How far a signed number of two bytes at a place is above the least.
fn coordinate(bytes: &[u8], at: usize) -> u16
    requires { at + 2 ≤ length bytes.now }
    ensures { result ≡ coordinate bytes.now at }
{
    two_at(bytes, at).wrapping_add(32768)
}

/// The rectangle of 8 bytes at a place.
pub fn rect_at(bytes: &[u8], at: usize) -> Rect
    requires { at + 8 ≤ length bytes.now }
    ensures { result ≡ rect_at bytes.now at }
{
    Rect {
        top: coordinate(bytes, at),
        left: coordinate(bytes, at + 2),
        bottom: coordinate(bytes, at + 4),
        right: coordinate(bytes, at + 6),
    }
}

/// A map at a place, if its rows have enough bytes.
fn enough(at: usize, map: Map) -> Result<Map, Fault>
    ensures { result ≡ enough at map }
{
    if 8 * (map.row as u32) < map.depth.bits() as u32 * map.bounds.width() as u32 {
        Err(Fault::RowBytes(at as u64))
    } else {
        Ok(map)
    }
}

/// The bit map of 10 bytes at a place.
pub(crate) fn bit_map(bytes: &[u8], at: usize) -> Result<Map, Fault>
    requires { at < 2 ^ 40 }
    ensures is { result ≡ bit_map bytes.now at }
    ensures inside { IfOk result (λ map. at + 10 ≤ length bytes.now) }
{
    within(bytes, at + 10)?;
    let map = Map {
        row: two_at(bytes, at) % 16384,
        bounds: rect_at(bytes, at + 2),
        depth: Depth::One,
        packing: 0,
        parts: 1,
    };
    enough(at, map)
}

/// The pixel map of 46 bytes at a place.
pub(crate) fn pixel_map(bytes: &[u8], at: usize) -> Result<Map, Fault>
    requires { at < 2 ^ 40 }
    ensures is { result ≡ pixel_map bytes.now at }
    ensures inside { IfOk result (λ map. at + 46 ≤ length bytes.now) }
{
    within(bytes, at + 46)?;
    let Some(depth) = Depth::from_bits(two_at(bytes, at + 28)) else {
        return Err(Fault::Depth(at as u64 + 28));
    };
    let map = Map {
        row: two_at(bytes, at) % 16384,
        bounds: rect_at(bytes, at + 2),
        depth,
        packing: two_at(bytes, at + 12),
        parts: two_at(bytes, at + 30),
    };
    enough(at, map)
}
