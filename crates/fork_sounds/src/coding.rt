//! How samples are in bytes.

ghost use Rattle.std.specs.Prelude.{◌≡◌, ◌≤◌, ◌<◌, ◌+◌, ◌*◌, ◌^◌, slice_index};
ghost use Rattle.fork_sounds.specs.Codings.{depth_in, depth_of, laid_at, unit_long, width};

use crate::bytes::{byte_at, word_at};

/// How many bits a sample has.
#[derive(Clone, Copy, Debug, PartialEq, Eq)]
pub enum Depth {
    Eight,
    Sixteen,
}

impl Depth {
    /// How many bytes a sample has in a file of its own.
    pub(crate) fn width(self) -> u16
        ensures is { result ≡ width self }
        ensures some { 1 ≤ result }
        ensures few { result ≤ 2 }
    {
        match self {
            Depth::Eight => 1,
            Depth::Sixteen => 2,
        }
    }

    /// How many bits a sample has.
    pub fn bits(self) -> u16
        ensures { result ≡ 8 * width self }
    {
        8 * self.width()
    }
}

/// The number of two bytes at a place, the lowest first.
fn little_word(bytes: &[u8], at: usize) -> u16
    requires { at < 2 ^ 60 }
    ensures { result ≡ slice_index bytes.now at + 256 * slice_index bytes.now (at + 1) }
{
    byte_at(bytes, at) as u16 + 256 * byte_at(bytes, at + 1) as u16
}

/// Where samples are in bytes that have them one after the other.
#[derive(Clone, Copy, Debug, PartialEq, Eq)]
pub enum Layout {
    /// A byte, of which 128 is silence.
    Offset,
    /// A byte in two's complement.
    SignedByte,
    /// Two bytes in two's complement, the highest first.
    BigWord,
    /// Two bytes in two's complement, the lowest first.
    LittleWord,
}

impl Layout {
    /// How many bits a sample has.
    pub(crate) fn depth(self) -> Depth
        ensures { result ≡ depth_in self }
    {
        match self {
            Layout::Offset | Layout::SignedByte => Depth::Eight,
            Layout::BigWord | Layout::LittleWord => Depth::Sixteen,
        }
    }

    /// A sample by its place, where the first is at a start: how far it is above the lowest level.
    pub(crate) fn sample_at(self, bytes: &[u8], start: usize, place: usize) -> u16
        requires start_low { start < 2 ^ 40 }
        requires low { place < 2 ^ 40 }
        ensures { result ≡ laid_at self bytes.now start place }
    {
        match self {
            Layout::Offset => byte_at(bytes, start + place) as u16,
            Layout::SignedByte => byte_at(bytes, start + place).wrapping_add(128) as u16,
            Layout::BigWord => word_at(bytes, start + 2 * place).wrapping_add(32768),
            Layout::LittleWord => little_word(bytes, start + 2 * place).wrapping_add(32768),
        }
    }
}

/// How samples are in bytes.
#[derive(Clone, Copy, Debug, PartialEq, Eq)]
pub enum Coding {
    /// One after the other, those of a frame together.
    Samples(Layout),
    /// In packets of 34 bytes, each 64 samples of a channel: 'ima4'.
    Packets,
}

impl Coding {
    /// How many bits a sample has.
    pub(crate) fn depth(self) -> Depth
        ensures { result ≡ depth_of self }
    {
        match self {
            Coding::Samples(layout) => layout.depth(),
            Coding::Packets => Depth::Sixteen,
        }
    }

    /// How many bytes a unit has: a sample, or a packet.
    pub(crate) fn unit_long(self) -> u16
        ensures is { result ≡ unit_long self }
        ensures some { 1 ≤ result }
        ensures few { result ≤ 34 }
    {
        match self {
            Coding::Samples(layout) => layout.depth().width(),
            Coding::Packets => 34,
        }
    }
}
