//! The opcodes of a picture, in their order.

ghost use Rattle.std.specs.Prelude.{◌≡◌, ◌≤◌, ◌<◌, ◌+◌, ◌∷◌, ◌++◌, [], IfOk, OnOk, length};
ghost use Rattle.byteorder.specs.Endian.{big_from};
ghost use Rattle.pict_bytes.specs.Sequence.{Answers, code_long, head_of, next, opcode_at, opcodes_from, opcodes_of, start_of, version_of};

use crate::bits::{Rect, rect_at};
use crate::fault::{Fault, NotRead};
use crate::operands::end_of;
use crate::reading::{four_at, two_at, within};
use crate::shape::shape_of;
use std::alloc::{AllocError, Global};

/// The most bytes of a resource that is read.
const MOST: usize = 16_777_216;

/// The most opcodes of a picture.
const MOST_OPCODES: u32 = 1_048_576;

/// The opcode that ends a picture.
const END: u16 = 0xFF;

/// The version of a picture's opcodes.
#[derive(Clone, Copy, Debug, PartialEq, Eq)]
pub enum Version {
    /// Opcodes of one byte.
    One,
    /// Opcodes of two bytes, at even places.
    Two,
}

/// What a picture begins with.
#[derive(Clone, Copy, Debug, PartialEq, Eq)]
pub struct Head {
    pub frame: Rect,
    pub version: Version,
}

/// An opcode, and where its operands are in the bytes of the resource.
#[derive(Clone, Copy, Debug, PartialEq, Eq)]
pub struct Opcode {
    /// Where it is itself.
    pub at: u32,
    pub code: u16,
    /// Where its operands begin.
    pub start: u32,
    /// Where they end.
    pub end: u32,
}

impl Version {
    /// How many bytes an opcode has.
    fn code_long(self) -> usize
        ensures { result ≡ code_long self }
    {
        match self {
            Version::One => 1,
            Version::Two => 2,
        }
    }

    /// Where the first opcode is, after that of the version.
    fn start_of(self) -> usize
        ensures { result ≡ start_of self }
    {
        match self {
            Version::One => 12,
            Version::Two => 14,
        }
    }

    /// Where the next opcode is, after operands that end at a place.
    fn next(self, end: usize) -> usize
        requires { end ≤ 16777216 }
        ensures { result ≡ next self end }
    {
        match self {
            Version::One => end,
            Version::Two => end + end % 2,
        }
    }

    /// The opcode at a place.
    fn code_at(self, bytes: &[u8], at: usize) -> u16
        requires { at + code_long self ≤ length bytes.now }
        ensures { result ≡ big_from at (code_long self) bytes.now }
    {
        match self {
            Version::One => bytes[at] as u16,
            Version::Two => two_at(bytes, at),
        }
    }
}

/// The version that a picture of at least 12 bytes has.
fn version_of(bytes: &[u8]) -> Result<Version, Fault>
    requires { 12 ≤ length bytes.now }
    ensures { result ≡ version_of bytes.now }
{
    if two_at(bytes, 10) == 0x1101 {
        return Ok(Version::One);
    }
    within(bytes, 14)?;
    if four_at(bytes, 10) == 0x0011_02FF {
        Ok(Version::Two)
    } else {
        Err(Fault::Version(10))
    }
}

/// The frame and the version of a picture.
pub fn head_of(bytes: &[u8]) -> Result<Head, Fault>
    ensures is { result ≡ head_of bytes.now }
    ensures inside { IfOk result (λ head. (start_of head.version ≤ length bytes.now) × (length bytes.now ≤ 16777216)) }
{
    if bytes.len() > MOST {
        return Err(Fault::TooLarge);
    }
    within(bytes, 12)?;
    let version = version_of(bytes)?;
    Ok(Head {
        frame: rect_at(bytes, 2),
        version,
    })
}

/// The opcode at a place, with its operands.
fn opcode_at(version: Version, bytes: &[u8], at: usize) -> Result<Opcode, Fault>
    requires small { length bytes.now ≤ 16777216 }
    requires low { at ≤ 16777217 }
    ensures is { result ≡ opcode_at version bytes.now at }
    ensures inside { IfOk result (λ opcode. opcode.end ≤ length bytes.now) }
{
    let start = within(bytes, at + version.code_long())?;
    let code = version.code_at(bytes, at);
    let end = end_of(shape_of(code), bytes, start)?;
    Ok(Opcode {
        at: at as u32,
        code,
        start: start as u32,
        end: end as u32,
    })
}

/// Adds an opcode.
fn add(opcodes: &mut Vec<Opcode>, opcode: Opcode) -> Result<(), AllocError>
    ensures { OnOk result (opcodes.new.items ≡ opcodes.old.items ++ opcode ∷ []) }
{
    opcodes.push(opcode)?;
    Ok(())
}

/// The opcodes from a place on, up to the one that ends the picture.
fn opcodes_from(
    alloc: Global,
    version: Version,
    bytes: &[u8],
    start: usize,
) -> Result<Vec<Opcode>, NotRead>
    requires small { length bytes.now ≤ 16777216 }
    requires low { start ≤ length bytes.now }
    ensures { Answers (λ opcodes. opcodes.items) result (opcodes_from version bytes.now 1048576 start) }
{
    let mut opcodes = Vec::new(alloc);
    let mut at = start;
    for _opcode in 0..MOST_OPCODES {
        let opcode = opcode_at(version, bytes, at)?;
        add(&mut opcodes, opcode)?;
        if opcode.code == END {
            return Ok(opcodes);
        }
        at = version.next(opcode.end as usize);
    }
    Err(NotRead::Fault(Fault::TooMany))
}

/// The opcodes of a picture, the last of which ends it; or the first that isn't one.
pub fn opcodes_of(alloc: Global, bytes: &[u8]) -> Result<Vec<Opcode>, NotRead>
    ensures { Answers (λ opcodes. opcodes.items) result (opcodes_of bytes.now) }
{
    let head = head_of(bytes)?;
    opcodes_from(alloc, head.version, bytes, head.version.start_of())
}
