//! How the bytes of a resource are a picture.

ghost use Rattle.std.specs.Prelude.{◌≡◌, ◌<◌, ◌≤◌, ◌*◌, ◌/◌, ◌%◌, IfOk, map};
ghost use Rattle.std.specs.List.{range_with_len};
ghost use Rattle.fork_pictures.specs.Colours.{colour_of};
ghost use Rattle.fork_pictures.specs.Drawings.{drawn, flat, is_seen, levels_of, pixel_of, value_of};
ghost use Rattle.fork_pictures.specs.Draws.{Draws};
ghost use Rattle.fork_pictures.specs.Image.{pixels_of};

use crate::colours::Colours;
use crate::fault::{Fault, NotDrawn};
use crate::picture::{MOST, Picture};
use crate::pixel::{Colour, Pixel};
use crate::rows::{Depth, Rows};
use std::alloc::{AllocError, Global};

/// Where the values of pixels are.
#[derive(Clone, Copy)]
pub enum Values {
    /// In rows of the resource.
    Rows(Rows),
    /// The value of a pixel is its place, row after row.
    Places,
}

/// Which pixels are seen.
#[derive(Clone, Copy)]
pub enum Mask {
    All,
    /// Those whose bits in these rows of the resource are 1.
    Own(Rows),
    /// Those whose bits in these rows of another resource are 1.
    Other(Rows),
    /// So many, row after row.
    First(u32),
}

/// How the bytes of a resource are a picture.
#[derive(Clone, Copy)]
pub struct Drawing {
    pub width: u32,
    pub height: u32,
    pub values: Values,
    pub colours: Colours,
    pub mask: Mask,
}

/// Rows in black and white.
pub(crate) fn flat(start: u32, width: u16, height: u32, mask: Mask) -> Drawing
    ensures { result ≡ flat start width height mask }
{
    let rows = Rows {
        start,
        width,
        depth: Depth::One,
    };
    Drawing {
        width: 8 * width as u32,
        height,
        values: Values::Rows(rows),
        colours: Colours::BlackAndWhite,
        mask,
    }
}

impl Drawing {
    /// How many values pixels can have.
    fn levels(&self) -> u32
        requires { self.now.width * self.now.height ≤ 16777216 }
        ensures { result ≡ levels_of self.now }
    {
        match self.values {
            Values::Rows(rows) => rows.depth.levels(),
            Values::Places => self.width * self.height,
        }
    }

    /// The value of the pixel at a place, row after row.
    fn value(&self, bytes: &[u8], place: u32) -> u32
        requires some { 0 < self.now.width }
        requires within { place < self.now.width * self.now.height }
        ensures is { result ≡ value_of self.now bytes.now (place % self.now.width) (place / self.now.width) }
        ensures below { result < levels_of self.now }
    {
        match self.values {
            Values::Rows(rows) => {
                rows.value_at(bytes, place % self.width, place / self.width) as u32
            }
            Values::Places => place,
        }
    }

    /// Whether the pixel at a place is seen.
    fn is_seen(&self, bytes: &[u8], other: &[u8], place: u32) -> bool
        requires { 0 < self.now.width }
        ensures { result ≡ is_seen self.now bytes.now other.now (place % self.now.width) (place / self.now.width) }
    {
        let x = place % self.width;
        let y = place / self.width;
        match self.mask {
            Mask::All => true,
            Mask::Own(rows) => rows.value_at(bytes, x, y) == 1,
            Mask::Other(rows) => rows.value_at(other, x, y) == 1,
            Mask::First(count) => place < count,
        }
    }

    /// The pixel at a place.
    fn pixel(&self, colours: &[Colour], bytes: &[u8], other: &[u8], place: u32) -> Pixel
        requires some { 0 < self.now.width }
        requires within { place < self.now.width * self.now.height }
        requires colours { colours.now ≡ map (colour_of self.now.colours bytes.now) (range_with_len 0 (levels_of self.now)) }
        ensures { result ≡ pixel_of self.now bytes.now other.now (place % self.now.width) (place / self.now.width) }
    {
        let value = self.value(bytes, place);
        Pixel {
            colour: colours[value as usize],
            is_seen: self.is_seen(bytes, other, place),
        }
    }

    /// The pixels of all rows.
    fn pixels(&self, alloc: Global, bytes: &[u8], other: &[u8]) -> Result<Vec<Pixel>, AllocError>
        requires some { 0 < self.now.width }
        requires small { self.now.width * self.now.height ≤ 16777216 }
        ensures { IfOk result (λ pixels. pixels.items ≡ pixels_of self.now.width self.now.height (pixel_of self.now bytes.now other.now)) }
    {
        let colours = self.colours.first(alloc, bytes, self.levels())?;
        let mut pixels = Vec::new(alloc);
        for place in 0..self.width * self.height {
            pixels.push(self.pixel(&colours, bytes, other, place))?;
        }
        Ok(pixels)
    }

    /// The picture: a fault says that it has no pixel, or too many.
    pub(crate) fn picture(
        &self,
        alloc: Global,
        bytes: &[u8],
        other: &[u8],
    ) -> Result<Picture, NotDrawn>
        ensures { Draws result (drawn self.now bytes.now other.now) }
    {
        if self.width == 0 || self.height == 0 {
            return Err(NotDrawn::Fault(Fault::Empty));
        }
        if self.width as u64 * self.height as u64 > MOST {
            return Err(NotDrawn::Fault(Fault::TooLarge));
        }
        let pixels = self.pixels(alloc, bytes, other)?;
        Ok(Picture::new(self.width, self.height, pixels))
    }
}
