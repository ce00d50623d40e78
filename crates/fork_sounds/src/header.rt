//! Sound headers: where the samples of a resource are.

ghost use Rattle.std.specs.Prelude.{◌≡◌, ◌≤◌, ◌<◌, ◌+◌, ◌^◌, IfOk};
ghost use Rattle.fork_sounds.specs.Bytes.{long_at};
ghost use Rattle.fork_sounds.specs.Headers.{IsSource, channels_at, compressed, compressed_header, extended_header, given, header_of, long_source, named, native, of_bits, short_header, source_at, whole};

use crate::bytes::{byte_at, four_at, long_at, word_at};
use crate::coding::{Coding, Layout};
use crate::fault::{Compression, Fault, Format};

/// Where the samples of a resource are, and what they are.
#[derive(Clone, Copy)]
pub struct Source {
    /// How many samples a frame has, at least one.
    pub channels: u16,
    /// How many frames a second has, times 65,536.
    pub rate: u32,
    pub coding: Coding,
    /// Where the first sample is.
    pub start: usize,
    /// How many samples, or packets of them, a channel has.
    pub units: u32,
}

/// Samples of so many bits, of which one layout has 8, another 16.
fn of_bits(bits: u16, eight: Option<Layout>, sixteen: Option<Layout>) -> Option<Layout>
    ensures { result ≡ of_bits bits eight sixteen }
{
    match bits {
        8 => eight,
        16 => sixteen,
        _ => None,
    }
}

/// Samples as the Sound Manager has them.
fn native(bits: u16) -> Option<Layout>
    ensures { result ≡ native bits }
{
    of_bits(bits, Some(Layout::Offset), Some(Layout::BigWord))
}

/// Samples in a layout, or that the word at a place isn't its number of bits.
fn given(at: usize, layout: Option<Layout>) -> Result<Coding, Fault>
    ensures { result ≡ given at layout }
{
    match layout {
        Some(layout) => Ok(Coding::Samples(layout)),
        None => Err(Fault::Bits(at as u64)),
    }
}

/// The coding that a format's name and a number of bits say, of the header at a place.
fn named(name: [u8; 4], bits: u16, at: usize) -> Result<Coding, Fault>
    requires { at < 2 ^ 40 }
    ensures { result ≡ named name bits at }
{
    let byte = Some(Layout::SignedByte);
    match &name {
        b"NONE" => given(at + 62, native(bits)),
        b"raw " => given(at + 62, of_bits(bits, Some(Layout::Offset), None)),
        b"twos" => given(at + 62, of_bits(bits, byte, Some(Layout::BigWord))),
        b"sowt" => given(at + 62, of_bits(bits, byte, Some(Layout::LittleWord))),
        b"ima4" => Ok(Coding::Packets),
        _ => Err(Fault::Unknown(at as u64 + 40, Format(name))),
    }
}

/// The coding of a compressed header at a place.
fn compressed(bytes: &[u8], at: usize) -> Result<Coding, Fault>
    requires { at < 2 ^ 40 }
    ensures { result ≡ compressed bytes.now at }
{
    let bits = word_at(bytes, at + 62);
    match word_at(bytes, at + 56) {
        0 => given(at + 62, native(bits)),
        65535 => named(four_at(bytes, at + 40), bits, at),
        number => Err(Fault::Compressed(at as u64 + 56, Compression(number))),
    }
}

impl Source {
    /// Where the samples are, if there are some, and the resource has them all.
    fn whole(self, bytes: &[u8], place: usize) -> Result<Source, Fault>
        requires low { self.start < 2 ^ 40 }
        requires rate { 32768 ≤ self.rate }
        requires some { 1 ≤ self.channels }
        requires few { self.channels ≤ 32767 }
        ensures is { result ≡ whole bytes.now place self }
        ensures right { IfOk result (λ source. IsSource bytes.now source) }
    {
        if self.units == 0 {
            return Err(Fault::Empty(place as u64));
        }
        let all = self.channels as u64 * self.units as u64;
        let end = self.start as u64 + self.coding.unit_long() as u64 * all;
        if (bytes.len() as u64) < end {
            return Err(Fault::Short(end));
        }
        Ok(self)
    }
}

/// A header of 22 bytes.
fn short_header(bytes: &[u8], at: usize) -> Result<Source, Fault>
    requires low { at < 2 ^ 32 }
    requires rate { 32768 ≤ long_at bytes.now (at + 8) }
    ensures is { result ≡ short_header bytes.now at }
    ensures right { IfOk result (λ source. IsSource bytes.now source) }
{
    let source = Source {
        channels: 1,
        rate: long_at(bytes, at + 8),
        coding: Coding::Samples(Layout::Offset),
        start: at + 22,
        units: long_at(bytes, at + 4),
    };
    source.whole(bytes, at + 4)
}

/// How many channels a header of 64 bytes has, extended or compressed.
fn channels_at(bytes: &[u8], at: usize) -> Result<u16, Fault>
    requires { at < 2 ^ 32 }
    ensures is { result ≡ channels_at bytes.now at }
    ensures few { IfOk result (λ channels. (1 ≤ channels) × (channels ≤ 32767)) }
{
    if bytes.len() < at + 64 {
        return Err(Fault::Short(at as u64 + 64));
    }
    let channels = long_at(bytes, at + 4);
    if channels == 0 || channels > 32767 {
        return Err(Fault::Channels(at as u64 + 4));
    }
    Ok(channels as u16)
}

/// Where the samples of a header of 64 bytes are.
fn long_source(bytes: &[u8], at: usize, channels: u16, coding: Coding) -> Result<Source, Fault>
    requires low { at < 2 ^ 32 }
    requires rate { 32768 ≤ long_at bytes.now (at + 8) }
    requires some { 1 ≤ channels }
    requires few { channels ≤ 32767 }
    ensures is { result ≡ long_source bytes.now at channels coding }
    ensures right { IfOk result (λ source. IsSource bytes.now source) }
{
    let source = Source {
        channels,
        rate: long_at(bytes, at + 8),
        coding,
        start: at + 64,
        units: long_at(bytes, at + 22),
    };
    source.whole(bytes, at + 22)
}

/// An extended header.
fn extended_header(bytes: &[u8], at: usize) -> Result<Source, Fault>
    requires low { at < 2 ^ 32 }
    requires rate { 32768 ≤ long_at bytes.now (at + 8) }
    ensures is { result ≡ extended_header bytes.now at }
    ensures right { IfOk result (λ source. IsSource bytes.now source) }
{
    let channels = channels_at(bytes, at)?;
    let coding = given(at + 48, native(word_at(bytes, at + 48)))?;
    long_source(bytes, at, channels, coding)
}

/// A compressed header.
fn compressed_header(bytes: &[u8], at: usize) -> Result<Source, Fault>
    requires low { at < 2 ^ 32 }
    requires rate { 32768 ≤ long_at bytes.now (at + 8) }
    ensures is { result ≡ compressed_header bytes.now at }
    ensures right { IfOk result (λ source. IsSource bytes.now source) }
{
    let channels = channels_at(bytes, at)?;
    let coding = compressed(bytes, at)?;
    long_source(bytes, at, channels, coding)
}

/// A header by the number of its kind.
fn header_of(bytes: &[u8], at: usize, kind: u8) -> Result<Source, Fault>
    requires low { at < 2 ^ 32 }
    requires rate { 32768 ≤ long_at bytes.now (at + 8) }
    ensures is { result ≡ header_of bytes.now at kind }
    ensures right { IfOk result (λ source. IsSource bytes.now source) }
{
    match kind {
        0 => short_header(bytes, at),
        255 => extended_header(bytes, at),
        254 => compressed_header(bytes, at),
        _ => Err(Fault::Encoding(at as u64 + 20)),
    }
}

/// Where the samples are of the header at a place.
pub(crate) fn source_at(bytes: &[u8], at: u32) -> Result<Source, Fault>
    ensures is { result ≡ source_at bytes.now at }
    ensures right { IfOk result (λ source. IsSource bytes.now source) }
{
    let at = at as usize;
    if bytes.len() < at + 22 {
        return Err(Fault::Short(at as u64 + 22));
    }
    if long_at(bytes, at) > 0 {
        return Err(Fault::Elsewhere(at as u64));
    }
    if long_at(bytes, at + 8) < 32768 {
        return Err(Fault::Rate(at as u64 + 8));
    }
    header_of(bytes, at, byte_at(bytes, at + 20))
}
