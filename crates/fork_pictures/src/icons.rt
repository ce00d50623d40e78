//! Where the pictures are in the resources whose layout is fixed.

ghost use Rattle.std.specs.Prelude.{◌≡◌, ◌≤◌, ◌*◌, ◌^◌, ◌<◌, length, option_copied};
ghost use Rattle.fork_pictures.specs.Kinds.{height_of, width_of};
ghost use Rattle.fork_pictures.specs.Drawings.{drawn};
ghost use Rattle.fork_pictures.specs.Layouts.{at_least, colours_of, depth_of, drawing_of, exactly, in_colour, mask_of, masked, picture_of, row_of, swatches};
ghost use Rattle.fork_pictures.specs.Draws.{Draws};

use crate::bytes::word_at;
use crate::colours::{Colours, Table};
use crate::drawing::{Drawing, Mask, Values, flat};
use crate::fault::{Fault, NotDrawn};
use crate::kind::{IconColours, IconSize, Kind};
use crate::maps::{colour_cursor, colour_icon, colour_pattern, count_at, table_end};
use crate::picture::{MOST, Picture};
use crate::rows::{Depth, Rows};
use std::alloc::Global;

impl IconSize {
    /// How many pixels it is wide.
    fn width(self) -> u16
        ensures { result ≡ width_of self }
    {
        match self {
            IconSize::Large => 32,
            IconSize::Small | IconSize::Mini => 16,
        }
    }

    /// How many pixels it is high.
    fn height(self) -> u16
        ensures { result ≡ height_of self }
    {
        match self {
            IconSize::Large => 32,
            IconSize::Small => 16,
            IconSize::Mini => 12,
        }
    }
}

impl IconColours {
    /// How many bits a pixel has.
    fn depth(self) -> Depth
        ensures { result ≡ depth_of self }
    {
        match self {
            IconColours::Sixteen => Depth::Four,
            IconColours::All => Depth::Eight,
        }
    }

    /// The colours of the pixels.
    fn colours(self) -> Colours
        ensures { result ≡ colours_of self }
    {
        match self {
            IconColours::Sixteen => Colours::Standard16,
            IconColours::All => Colours::Standard256,
        }
    }

    /// How many bytes a row has.
    fn row(self, size: IconSize) -> u16
        ensures { result ≡ row_of size self }
    {
        match self {
            IconColours::Sixteen => size.width() / 2,
            IconColours::All => size.width(),
        }
    }
}

/// Rows in black and white, and as many for the mask after them.
fn masked(width: u16, height: u16) -> Drawing
    requires { width * height < 2 ^ 32 }
    ensures { result ≡ masked width height }
{
    let rows = Rows {
        start: width as u32 * height as u32,
        width,
        depth: Depth::One,
    };
    flat(0, width, height as u32, Mask::Own(rows))
}

/// The colours of a table, 16 in a row.
fn swatches(table: Table) -> Drawing
    requires { table.count ≤ 65535 }
    ensures { result ≡ swatches table.start table.step table.count }
{
    Drawing {
        width: table.count.min(16),
        height: (table.count + 15) / 16,
        values: Values::Places,
        colours: Colours::InOrder(table),
        mask: Mask::First(table.count),
    }
}

/// The drawing, if there are just so many bytes.
fn exactly(count: u32, bytes: &[u8], drawing: Drawing) -> Result<Drawing, Fault>
    ensures { result ≡ exactly count bytes.now drawing }
{
    if bytes.len() == count as usize {
        Ok(drawing)
    } else {
        Err(Fault::Length(count))
    }
}

/// The drawing, if there are so many bytes.
fn at_least(count: usize, bytes: &[u8], drawing: Drawing) -> Result<Drawing, Fault>
    ensures { result ≡ at_least count bytes.now drawing }
{
    if count <= bytes.len() {
        Ok(drawing)
    } else {
        Err(Fault::Short(count as u64))
    }
}

/// The mask of an icon in colour: the second half of the resource that has it.
fn mask_of(size: IconSize, other: Option<&[u8]>) -> Result<Mask, Fault>
    ensures { result ≡ mask_of size (option_copied other.entry) }
{
    let Some(other) = other else {
        return Ok(Mask::All);
    };
    let width = size.width() / 8;
    let half = width as u32 * size.height() as u32;
    if other.len() != 2 * half as usize {
        return Err(Fault::MaskLength(2 * half));
    }
    Ok(Mask::Other(Rows {
        start: half,
        width,
        depth: Depth::One,
    }))
}

/// An icon in colour, and its mask.
fn in_colour(
    size: IconSize,
    colours: IconColours,
    bytes: &[u8],
    other: Option<&[u8]>,
) -> Result<Drawing, Fault>
    ensures { result ≡ drawing_of (Kind.InColour size colours) bytes.now (option_copied other.entry) }
{
    let rows = Rows {
        start: 0,
        width: colours.row(size),
        depth: colours.depth(),
    };
    let count = rows.width as u32 * size.height() as u32;
    if bytes.len() != count as usize {
        return Err(Fault::Length(count));
    }
    let mask = mask_of(size, other)?;
    Ok(Drawing {
        width: size.width() as u32,
        height: size.height() as u32,
        values: Values::Rows(rows),
        colours: colours.colours(),
        mask,
    })
}

/// An icon and its mask.
fn icon_with_mask(size: IconSize, bytes: &[u8]) -> Result<Drawing, Fault>
    ensures { result ≡ drawing_of (Kind.Masked size) bytes.now None }
{
    let width = size.width() / 8;
    let count = 2 * (width as u32 * size.height() as u32);
    exactly(count, bytes, masked(width, size.height()))
}

/// Small icons, each below the one before.
fn small_icons(bytes: &[u8]) -> Result<Drawing, Fault>
    requires { length bytes.now ≤ 16777216 }
    ensures { result ≡ drawing_of Kind.SmallIcons bytes.now None }
{
    let length = bytes.len();
    if length % 32 != 0 {
        return Err(Fault::Multiple(32));
    }
    Ok(flat(0, 2, (length / 2) as u32, Mask::All))
}

/// Patterns, each below the one before, after their number.
fn patterns(bytes: &[u8]) -> Result<Drawing, Fault>
    ensures { result ≡ drawing_of Kind.Patterns bytes.now None }
{
    let height = 8 * word_at(bytes, 0) as u32;
    exactly(2 + height, bytes, flat(2, 1, height, Mask::All))
}

/// The entries of a table of colours, after the number of the last.
fn colour_table(bytes: &[u8]) -> Result<Drawing, Fault>
    ensures { result ≡ drawing_of Kind.ColourTable bytes.now None }
{
    let table = Table {
        start: 10,
        step: 8,
        count: count_at(bytes, 0) as u32,
    };
    at_least(table_end(bytes, 0), bytes, swatches(table))
}

/// The entries of a palette, after their number.
fn palette(bytes: &[u8]) -> Result<Drawing, Fault>
    ensures { result ≡ drawing_of Kind.Palette bytes.now None }
{
    let count = word_at(bytes, 0) as u32;
    let table = Table {
        start: 16,
        step: 16,
        count,
    };
    at_least(16 + 16 * count as usize, bytes, swatches(table))
}

/// How the bytes of a resource are a picture. The other resource has the mask of an icon in colour.
fn drawing_of(kind: Kind, bytes: &[u8], other: Option<&[u8]>) -> Result<Drawing, Fault>
    requires { length bytes.now ≤ 16777216 }
    ensures { result ≡ drawing_of kind bytes.now (option_copied other.entry) }
{
    match kind {
        Kind::Icon => exactly(128, bytes, flat(0, 4, 32, Mask::All)),
        Kind::Masked(size) => icon_with_mask(size, bytes),
        Kind::InColour(size, colours) => in_colour(size, colours, bytes, other),
        Kind::SmallIcons => small_icons(bytes),
        Kind::Cursor => exactly(68, bytes, masked(2, 16)),
        Kind::Pattern => exactly(8, bytes, flat(0, 1, 8, Mask::All)),
        Kind::Patterns => patterns(bytes),
        Kind::ColourIcon => colour_icon(bytes),
        Kind::ColourCursor => colour_cursor(bytes),
        Kind::ColourPattern => colour_pattern(bytes),
        Kind::ColourTable => colour_table(bytes),
        Kind::Palette => palette(bytes),
    }
}

/// The picture that the bytes of a resource are. The other resource is the one with the mask of an icon in colour: the
/// 'ICN#', 'ics#' or 'icm#' of the same id. Without it all pixels are seen, and other kinds don't look at it.
pub fn picture_of(
    alloc: Global,
    kind: Kind,
    bytes: &[u8],
    other: Option<&[u8]>,
) -> Result<Picture, NotDrawn>
    ensures { Draws result (picture_of kind bytes.now (option_copied other.entry)) }
{
    if bytes.len() as u64 > MOST {
        return Err(NotDrawn::Fault(Fault::TooLarge));
    }
    let drawing = drawing_of(kind, bytes, other)?;
    drawing.picture(alloc, bytes, other.unwrap_or(&[]))
}
