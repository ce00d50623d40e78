//! The colours of the values of dots.

ghost use Rattle.std.specs.Prelude.{◌≡◌, ◌<◌, ◌^◌, IfOk, map};
ghost use Rattle.std.specs.List.{range_with_len};
ghost use Rattle.fork_drawings.specs.Palettes.{IsLow, colour_of, entry_colour, entry_count, in_order, valued};

use crate::bytes::two_at;
use crate::dots::parts_at;
use fork_pictures::pixel::Colour;
use pict_bytes::plane::Colours;
use std::alloc::{AllocError, Global};

/// The colour of no light.
pub(crate) const BLACK: Colour = Colour {
    red: 0,
    green: 0,
    blue: 0,
};

/// The colour of all light.
pub(crate) const WHITE: Colour = Colour {
    red: 255,
    green: 255,
    blue: 255,
};

/// How many entries the table at a place has.
fn entry_count(bytes: &[u8], table: usize) -> u16
    requires { table < 2 ^ 40 }
    ensures { result ≡ entry_count bytes.now table }
{
    two_at(bytes, table + 6).wrapping_add(1)
}

/// The colour of an entry of the table at a place: of each part of 16 bits the higher byte counts.
fn entry_colour(bytes: &[u8], table: usize, entry: u16) -> Colour
    requires { table < 2 ^ 39 }
    ensures { result ≡ entry_colour bytes.now table entry }
{
    parts_at(bytes, table + 10 + 8 * entry as usize, 2)
}

/// The colour of the last entry that has a value, or black.
fn valued(bytes: &[u8], table: usize, value: u16, count: u16) -> Colour
    requires { table < 2 ^ 39 }
    ensures { result ≡ valued bytes.now table value count }
{
    let mut colour = BLACK;
    for entry in 0..count {
        if two_at(bytes, table + 8 + 8 * entry as usize) == value {
            colour = entry_colour(bytes, table, entry);
        }
    }
    colour
}

/// The colour of a value in the table at a place, whose entries are in the order of their values.
fn in_order(bytes: &[u8], table: usize, value: u16) -> Colour
    requires { table < 2 ^ 39 }
    ensures { result ≡ in_order bytes.now table value }
{
    if value < entry_count(bytes, table) {
        entry_colour(bytes, table, value)
    } else {
        BLACK
    }
}

/// The colour of a value.
fn colour_of(colours: Colours, bytes: &[u8], value: u16) -> Colour
    requires { IsLow colours }
    ensures { result ≡ colour_of colours bytes.now value }
{
    match colours {
        Colours::Table(table) if two_at(bytes, table + 4) >= 32768 => in_order(bytes, table, value),
        Colours::Table(table) => valued(bytes, table, value, entry_count(bytes, table)),
        _ if value == 0 => WHITE,
        _ => BLACK,
    }
}

/// The colours of so many values, from 0.
pub(crate) fn palette(
    alloc: Global,
    colours: Colours,
    bytes: &[u8],
    count: u16,
) -> Result<Vec<Colour>, AllocError>
    requires { IsLow colours }
    ensures { IfOk result (λ all. all.items ≡ map (colour_of colours bytes.now) (range_with_len 0 count)) }
{
    let mut all = Vec::new(alloc);
    for value in 0..count {
        all.push(colour_of(colours, bytes, value))?;
    }
    Ok(all)
}
