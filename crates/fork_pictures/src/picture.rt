//! A picture.

ghost use Rattle.std.specs.Prelude.{◌≡◌, ◌≤◌, ◌<◌, ◌*◌, IfOk, length};
ghost use Rattle.fork_pictures.specs.Image.{IsImage, enlarged};

use crate::fault::{Fault, NotDrawn};
use crate::pixel::Pixel;
use std::alloc::{AllocError, Global};
use std::marker::Model;

/// The most pixels of a picture, and the most bytes of a resource that is drawn.
pub(crate) const MOST: u64 = 16_777_216;

/// A picture: rows of pixels, from the top. A contract sees the width, the height and all pixels.
#[derive(Drop)]
pub struct Picture {
    width: u32,
    height: u32,
    pixels: Vec<Pixel>,
}

impl Model for Picture {
    ghost use Rattle.fork_pictures.specs.Image.{Image, IsImage};

    ghost Value = { Image };

    ghost view = { λ p. record { width = p.width; height = p.height; pixels = p.pixels.items } };

    ghost invariant = { λ p. IsImage (record { width = p.width; height = p.height; pixels = p.pixels.items }) };
}

impl Picture {
    ghost use Rattle.fork_pictures.specs.Draws.{Draws};
    ghost use Rattle.fork_pictures.specs.Image.{scaled};

    /// The picture with these pixels, row after row. They are at least 1 and at most 16,777,216.
    pub fn new(width: u32, height: u32, pixels: Vec<Pixel>) -> Picture
        requires { IsImage (record { width = width; height = height; pixels = pixels.items }) }
        ensures { result ≡ record { width = width; height = height; pixels = pixels.items } }
    {
        Picture {
            width,
            height,
            pixels,
        }
    }

    /// How many pixels a row has.
    pub fn width(&self) -> u32
        ensures is { result ≡ self.now.width }
        ensures some { 1 ≤ result }
    {
        self.width
    }

    /// How many rows there are.
    pub fn height(&self) -> u32
        ensures is { result ≡ self.now.height }
        ensures some { 1 ≤ result }
    {
        self.height
    }

    /// The pixels of all rows, from the left and the top. They are at most 16,777,216.
    pub fn pixels(&self) -> &[Pixel]
        ensures is { result.now ≡ self.now.pixels }
        ensures whole { length result.now ≡ self.now.width * self.now.height }
        ensures small { length result.now ≤ 16777216 }
    {
        &self.pixels
    }

    /// The picture with each pixel so many pixels wide and high. A fault says that it would have too many pixels.
    pub fn scaled(&self, alloc: Global, times: u16) -> Result<Picture, NotDrawn>
        requires { 0 < times }
        ensures { Draws result (scaled times self.now) }
    {
        let pixels = self.pixels();
        if times as u64 * times as u64 * pixels.len() as u64 > MOST {
            return Err(NotDrawn::Fault(Fault::TooLarge));
        }
        let pixels = repeated(alloc, pixels, self.width, self.height, times as u32)?;
        Ok(Picture::new(
            times as u32 * self.width,
            times as u32 * self.height,
            pixels,
        ))
    }
}

/// The pixels of a picture with each so many pixels wide and high.
fn repeated(
    alloc: Global,
    pixels: &[Pixel],
    width: u32,
    height: u32,
    times: u32,
) -> Result<Vec<Pixel>, AllocError>
    requires some { 0 < times }
    requires is { IsImage (record { width = width; height = height; pixels = pixels.now }) }
    requires small { times * times * (width * height) ≤ 16777216 }
    ensures { IfOk result (λ all. all.items ≡ (enlarged times (record { width = width; height = height; pixels = pixels.now })).pixels) }
{
    let mut all = Vec::new(alloc);
    let wide = times * width;
    for place in 0..wide * (times * height) {
        let x = place % wide / times;
        let y = place / wide / times;
        all.push(pixels[(width * y + x) as usize])?;
    }
    Ok(all)
}
