//! The colours of the dots of a row.

ghost use Rattle.std.specs.Prelude.{◌≡◌, ◌<◌, ◌^◌, slice_index};
ghost use Rattle.fork_drawings.specs.Dots.{colour_15, dot_15, levels, parts_at, spread, value_in};

use crate::bytes::{byte_at, two_at};
use fork_pictures::pixel::Colour;
use pict_bytes::bits::Depth;

/// A part of five bits, as one of eight: its highest bits follow it.
fn spread(part: u16) -> u8
    requires { part < 32 }
    ensures { result ≡ spread part }
{
    (part * 8 + part / 4) as u8
}

/// The colour of a word of three parts of five bits.
fn colour_15(word: u16) -> Colour
    ensures { result ≡ colour_15 word }
{
    Colour {
        red: spread(word / 1024 % 32),
        green: spread(word / 32 % 32),
        blue: spread(word % 32),
    }
}

/// The colour of the dot of 16 bits in a column of a row.
pub(crate) fn dot_15(row: &[u8], x: usize) -> Colour
    requires { x < 2 ^ 40 }
    ensures { result ≡ dot_15 row.now x }
{
    colour_15(two_at(row, 2 * x))
}

/// The colour whose parts are at these places.
pub(crate) fn parts_at(row: &[u8], red: usize, step: usize) -> Colour
    requires low { red < 2 ^ 40 }
    requires near { step < 2 ^ 40 }
    ensures { result ≡ parts_at row.now red step }
{
    Colour {
        red: byte_at(row, red),
        green: byte_at(row, red + step),
        blue: byte_at(row, red + 2 * step),
    }
}

/// How many values a dot can have that isn't a colour.
pub(crate) fn levels(depth: Depth) -> u16
    ensures { result ≡ levels depth }
{
    match depth {
        Depth::One => 2,
        Depth::Two => 4,
        Depth::Four => 16,
        _ => 256,
    }
}

/// The value of the dot in a column of a row. The highest bits of a byte are the leftmost.
pub(crate) fn value_in(depth: Depth, row: &[u8], x: usize) -> u8
    ensures is { result ≡ value_in depth row.now x }
    ensures low { result < levels depth }
{
    match depth {
        Depth::One => (byte_at(row, x / 8) >> (7 - x % 8)) % 2,
        Depth::Two => (byte_at(row, x / 4) >> (6 - 2 * (x % 4))) % 4,
        Depth::Four => (byte_at(row, x / 2) >> (4 - 4 * (x % 2))) % 16,
        _ => byte_at(row, x),
    }
}
