//! The colours of the values of pixels.

ghost use Rattle.std.specs.Prelude.{◌≡◌, ◌<◌, ◌+◌, ◌*◌, ◌^◌, IfOk, map};
ghost use Rattle.std.specs.List.{range_with_len};
ghost use Rattle.fork_pictures.specs.Colours.{colour_16, colour_256, colour_at, colour_of, level, shade, valued};

use crate::bytes::{byte_at, word_at};
use crate::pixel::Colour;
use std::alloc::{AllocError, Global};

/// The entries of a table of colours.
#[derive(Clone, Copy)]
pub struct Table {
    /// Where the first entry is.
    pub start: u32,
    /// How many bytes an entry has.
    pub step: u16,
    /// How many entries there are.
    pub count: u32,
}

/// What colours the values of pixels have.
#[derive(Clone, Copy)]
pub enum Colours {
    /// 0 is white, all else black.
    BlackAndWhite,
    /// The standard colours of four bits.
    Standard16,
    /// The standard colours of eight bits.
    Standard256,
    /// Those of a table's entries, in their order.
    InOrder(Table),
    /// Those of the entries of a table that have the values: the colour comes two bytes after the value.
    ByValue(Table),
}

pub(crate) const WHITE: Colour = Colour {
    red: 255,
    green: 255,
    blue: 255,
};

pub(crate) const BLACK: Colour = Colour {
    red: 0,
    green: 0,
    blue: 0,
};

/// The standard colours of four bits.
const SIXTEEN: [Colour; 16] = [
    WHITE,
    Colour {
        red: 252,
        green: 243,
        blue: 5,
    },
    Colour {
        red: 255,
        green: 100,
        blue: 2,
    },
    Colour {
        red: 221,
        green: 8,
        blue: 6,
    },
    Colour {
        red: 242,
        green: 8,
        blue: 132,
    },
    Colour {
        red: 70,
        green: 0,
        blue: 165,
    },
    Colour {
        red: 0,
        green: 0,
        blue: 212,
    },
    Colour {
        red: 2,
        green: 171,
        blue: 234,
    },
    Colour {
        red: 31,
        green: 183,
        blue: 20,
    },
    Colour {
        red: 0,
        green: 100,
        blue: 17,
    },
    Colour {
        red: 86,
        green: 44,
        blue: 5,
    },
    Colour {
        red: 144,
        green: 113,
        blue: 58,
    },
    Colour {
        red: 192,
        green: 192,
        blue: 192,
    },
    Colour {
        red: 128,
        green: 128,
        blue: 128,
    },
    Colour {
        red: 64,
        green: 64,
        blue: 64,
    },
    BLACK,
];

/// The colour of these parts.
fn colour(red: u8, green: u8, blue: u8) -> Colour
    ensures { result ≡ record { red = red; green = green; blue = blue } }
{
    Colour { red, green, blue }
}

/// The grey of this part.
fn grey(part: u8) -> Colour
    ensures { result ≡ record { red = part; green = part; blue = part } }
{
    colour(part, part, part)
}

/// The standard colour of a value of four bits.
fn colour_16(value: u32) -> Colour
    ensures { result ≡ colour_16 value }
{
    SIXTEEN.get(value as usize).copied().unwrap_or(BLACK)
}

/// One of the six levels of the cube.
fn level(number: u32) -> u8
    requires { number < 6 }
    ensures { result ≡ level number }
{
    (255 - 51 * number) as u8
}

/// One of the ten shades of a ramp.
fn shade(number: u32) -> u8
    requires { number < 10 }
    ensures { result ≡ shade number }
{
    (17 * (14 - number - number / 2)) as u8
}

/// The standard colour of a value of eight bits.
fn colour_256(value: u32) -> Colour
    ensures { result ≡ colour_256 value }
{
    match value {
        0..=214 => colour(level(value / 36), level(value / 6 % 6), level(value % 6)),
        215..=224 => colour(shade(value - 215), 0, 0),
        225..=234 => colour(0, shade(value - 225), 0),
        235..=244 => colour(0, 0, shade(value - 235)),
        245..=254 => grey(shade(value - 245)),
        _ => BLACK,
    }
}

/// The colour at a place: of each part of 16 bits the higher byte counts.
fn colour_at(bytes: &[u8], at: usize) -> Colour
    requires { at < 2 ^ 60 }
    ensures { result ≡ colour_at bytes.now at }
{
    colour(
        byte_at(bytes, at),
        byte_at(bytes, at + 2),
        byte_at(bytes, at + 4),
    )
}

impl Table {
    /// Where an entry is.
    #[tactic(auto, using(crate::proofs::Places::row_place))]
    fn place(self, entry: u32) -> usize
        ensures is { result ≡ self.start + self.step * entry }
        ensures low { result < 2 ^ 50 }
    {
        self.start as usize + self.step as usize * entry as usize
    }

    /// The colour of the last entry that has this value, or black.
    fn valued(self, bytes: &[u8], value: u32) -> Colour
        ensures { result ≡ valued self bytes.now value self.count }
    {
        let mut colour = BLACK;
        for entry in 0..self.count {
            let at = self.place(entry);
            if word_at(bytes, at) as u32 == value {
                colour = colour_at(bytes, at + 2);
            }
        }
        colour
    }
}

impl Colours {
    /// The colour of a value.
    fn colour_of(self, bytes: &[u8], value: u32) -> Colour
        ensures { result ≡ colour_of self bytes.now value }
    {
        match self {
            Colours::BlackAndWhite if value == 0 => WHITE,
            Colours::BlackAndWhite => BLACK,
            Colours::Standard16 => colour_16(value),
            Colours::Standard256 => colour_256(value),
            Colours::InOrder(table) if value < table.count => colour_at(bytes, table.place(value)),
            Colours::InOrder(_) => BLACK,
            Colours::ByValue(table) => table.valued(bytes, value),
        }
    }

    /// The colours of so many values, from 0.
    pub(crate) fn first(
        self,
        alloc: Global,
        bytes: &[u8],
        count: u32,
    ) -> Result<Vec<Colour>, AllocError>
        ensures { IfOk result (λ colours. colours.items ≡ map (colour_of self bytes.now) (range_with_len 0 count)) }
    {
        let mut colours = Vec::new(alloc);
        for value in 0..count {
            colours.push(self.colour_of(bytes, value))?;
        }
        Ok(colours)
    }
}
