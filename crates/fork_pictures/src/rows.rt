//! Rows of pixels in bytes.

ghost use Rattle.std.specs.Prelude.{◌≡◌, ◌<◌};
ghost use Rattle.fork_pictures.specs.Rows.{each, levels, part, value_at};

use crate::bytes::byte_at;

/// How many bits a pixel has.
#[derive(Clone, Copy)]
pub enum Depth {
    One,
    Two,
    Four,
    Eight,
}

impl Depth {
    /// How many values a pixel can have.
    pub(crate) fn levels(self) -> u32
        ensures { result ≡ levels self }
    {
        match self {
            Depth::One => 2,
            Depth::Two => 4,
            Depth::Four => 16,
            Depth::Eight => 256,
        }
    }

    /// How many pixels are in a byte.
    pub(crate) fn each(self) -> u32
        ensures is { result ≡ each self }
        ensures some { 0 < result }
    {
        match self {
            Depth::One => 8,
            Depth::Two => 4,
            Depth::Four => 2,
            Depth::Eight => 1,
        }
    }

    /// The pixel at a place in a byte, of which the highest bits are the leftmost.
    fn part(self, byte: u8, place: u32) -> u8
        requires { place < each self }
        ensures { result ≡ part self byte place }
    {
        match self {
            Depth::One => (byte >> (7 - place)) % 2,
            Depth::Two => (byte >> (6 - 2 * place)) % 4,
            Depth::Four => (byte >> (4 - 4 * place)) % 16,
            Depth::Eight => byte,
        }
    }
}

/// Where rows of pixels are in bytes. Each row begins at a byte.
#[derive(Clone, Copy)]
pub struct Rows {
    /// Where the first row begins.
    pub start: u32,
    /// How many bytes a row has.
    pub width: u16,
    pub depth: Depth,
}

impl Rows {
    /// The value of a pixel: 0 where the bytes have ended.
    #[tactic(auto, using(crate::proofs::Places::row_place))]
    pub(crate) fn value_at(self, bytes: &[u8], x: u32, y: u32) -> u8
        ensures { result ≡ value_at self bytes.now x y }
    {
        let each = self.depth.each();
        let row = self.width as usize * y as usize;
        let byte = byte_at(bytes, self.start as usize + row + (x / each) as usize);
        self.depth.part(byte, x % each)
    }
}
