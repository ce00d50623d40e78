//! The samples of a source.

ghost use Rattle.std.specs.Prelude.{◌≡◌, ◌≤◌, ◌<◌, ◌+◌, ◌*◌, ◌/◌, ◌%◌, ◌++◌, ◌^◌, IfOk, OnOk, length, map};
ghost use Rattle.std.specs.List.{range_with_len};
ghost use Rattle.fork_sounds.specs.Codings.{laid_at, packed_at, sample_at, samples_in, unit_long};
ghost use Rattle.fork_sounds.specs.declared.coding.Coding.TheVariants.{Packets};
ghost use Rattle.fork_sounds.specs.Packets.{packet_sample, wrong_head};
ghost use Rattle.fork_sounds.specs.Sounds.{samples_of, wrong_in};
ghost use Rattle.fork_sounds.specs.Headers.{IsSource};

use crate::bytes::word_at;
use crate::coding::{Coding, Layout};
use crate::header::Source;
use crate::ima::{code_at, head};
use std::alloc::{AllocError, Global};

/// The head of the first of so many packets that has an index of more than 88.
fn wrong_head(bytes: &[u8], start: usize, count: usize) -> Option<usize>
    requires { start + 34 * count < 2 ^ 40 }
    ensures { result ≡ wrong_head bytes.now start count }
{
    for packet in 0..count {
        let at = start + 34 * packet;
        if word_at(bytes, at) % 128 > 88 {
            return Some(at);
        }
    }
    None
}

/// Adds the samples of a packet.
fn push_packet(samples: &mut Vec<u16>, bytes: &[u8], at: usize) -> Result<(), AllocError>
    requires { at < 2 ^ 40 }
    ensures { OnOk result (samples.new.items ≡ samples.old.items ++ map (packet_sample bytes.now at) (range_with_len 0 64)) }
{
    let mut state = head(bytes, at);
    for place in 0..64 {
        state = state.next(code_at(bytes, at, place));
        samples.push(state.level)?;
    }
    Ok(())
}

/// The samples of so many packets, one packet after the other.
fn unpacked(alloc: Global, bytes: &[u8], start: usize, count: usize) -> Result<Vec<u16>, AllocError>
    requires { start + 34 * count < 2 ^ 40 }
    ensures { IfOk result (λ samples. samples.items ≡ map (λ place. packed_at bytes.now start (place / 64) (place % 64)) (range_with_len 0 (64 * count))) }
{
    let mut samples = Vec::with_capacity(alloc, 64 * count)?;
    for packet in 0..count {
        push_packet(&mut samples, bytes, start + 34 * packet)?;
    }
    Ok(samples)
}

/// Where a sample is among those of all packets, by its place among the frames of so many channels.
#[tactic(auto, using(crate::proofs::Steps::packet_low))]
fn origin(channels: usize, place: usize) -> usize
    requires some { 1 ≤ channels }
    requires low { place < 2 ^ 40 }
    ensures { result ≡ 64 * (channels * (place / channels / 64) + place % channels) + place / channels % 64 }
{
    let frame = place / channels;
    let packet = channels * (frame / 64) + place % channels;
    64 * packet + frame % 64
}

/// The samples of packets, frame after frame, of so many channels, each with so many packets.
fn decoded(
    alloc: Global,
    bytes: &[u8],
    start: usize,
    channels: usize,
    units: usize,
) -> Result<Vec<u16>, AllocError>
    requires some { 1 ≤ channels }
    requires low { start + 34 * (channels * units) < 2 ^ 38 }
    ensures { IfOk result (λ samples. samples.items ≡ map (sample_at Packets bytes.now start channels) (range_with_len 0 (64 * (channels * units)))) }
{
    let count = channels * units;
    let unpacked = unpacked(alloc, bytes, start, count)?;
    let packets = unpacked.as_slice();
    let mut samples = Vec::with_capacity(alloc, 64 * count)?;
    for place in 0..64 * count {
        samples.push(packets[origin(channels, place)])?;
    }
    Ok(samples)
}

/// So many samples in a layout.
fn laid(
    alloc: Global,
    bytes: &[u8],
    layout: Layout,
    start: usize,
    count: usize,
) -> Result<Vec<u16>, AllocError>
    requires low { start < 2 ^ 40 }
    requires few { count < 2 ^ 40 }
    ensures { IfOk result (λ samples. samples.items ≡ map (laid_at layout bytes.now start) (range_with_len 0 count)) }
{
    let mut samples = Vec::with_capacity(alloc, count)?;
    for place in 0..count {
        samples.push(layout.sample_at(bytes, start, place))?;
    }
    Ok(samples)
}

/// The samples of a coding, of so many channels, each with so many units.
fn samples_in(
    alloc: Global,
    bytes: &[u8],
    coding: Coding,
    start: usize,
    channels: usize,
    units: usize,
) -> Result<Vec<u16>, AllocError>
    requires some { 1 ≤ channels }
    requires low { start + unit_long coding * (channels * units) ≤ 16777216 }
    ensures { IfOk result (λ samples. samples.items ≡ samples_in coding bytes.now start channels (channels * units)) }
{
    match coding {
        Coding::Samples(layout) => laid(alloc, bytes, layout, start, channels * units),
        Coding::Packets => decoded(alloc, bytes, start, channels, units),
    }
}

impl Source {
    /// Its samples, frame after frame.
    pub(crate) fn samples(&self, alloc: Global, bytes: &[u8]) -> Result<Vec<u16>, AllocError>
        requires is { IsSource bytes.now self.now }
        requires small { length bytes.now ≤ 16777216 }
        ensures { IfOk result (λ samples. samples.items ≡ samples_of self.now bytes.now) }
    {
        samples_in(
            alloc,
            bytes,
            self.coding,
            self.start,
            self.channels as usize,
            self.units as usize,
        )
    }

    /// The head of its first packet that has an index of more than 88.
    pub(crate) fn wrong_head(&self, bytes: &[u8]) -> Option<usize>
        requires is { IsSource bytes.now self.now }
        requires small { length bytes.now ≤ 16777216 }
        ensures { result ≡ wrong_in self.now.coding self.now bytes.now }
    {
        match self.coding {
            Coding::Samples(_) => None,
            Coding::Packets => wrong_head(
                bytes,
                self.start,
                self.channels as usize * self.units as usize,
            ),
        }
    }
}
