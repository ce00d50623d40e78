//! The memory that is looked at.

ghost use Rattle.std.specs.Prelude.{◌≡◌, ◌+◌, ◌≤◌, ◌<◌, ◌^◌, length, IfOk, IfErr};

use crate::fault::{Fault, Problem};
use byteorder::{BigEndian, ByteOrder};
use mac_base::block::HeadKind;
use mac_base::size::ZONE_HEADER;
use std::marker::Model;

/// Memory from a zone's start on: the address of its first byte, how the zone's blocks are headed, and its bytes, as many
/// as there are. A contract sees them as a record.
#[derive(Drop)]
pub struct Dump<'a> {
    heads: HeadKind,
    base: u32,
    bytes: &'a [u8],
}

impl<'a> Model for Dump<'a> {
    ghost use Rattle.zone_look.specs.Memory.{Memory};

    ghost Value = { Memory };

    ghost view = { λ d. record { heads = d.heads; base = d.base; bytes = d.bytes.now } };
}

impl<'a> Dump<'a> {
    ghost use Rattle.zone_look.specs.Memory.{address_in, word_at, end_of, header_fault};

    /// Memory that begins at this address.
    pub fn new(heads: HeadKind, base: u32, bytes: &'a [u8]) -> Dump<'a>
        ensures { result ≡ record { heads = heads; base = base; bytes = bytes.now } }
    {
        Dump { heads, base, bytes }
    }

    /// How the blocks are headed.
    pub(crate) fn heads(&self) -> HeadKind
        ensures { result ≡ self.now.heads }
    {
        self.heads
    }

    /// The zone's address.
    pub(crate) fn base(&self) -> u32
        ensures { result ≡ self.now.base }
    {
        self.base
    }

    /// The bytes.
    pub(crate) fn bytes(&self) -> &'a [u8]
        ensures { result.now ≡ self.now.bytes }
    {
        self.bytes
    }

    /// The four bytes at a place.
    pub(crate) fn word_at(&self, at: u32) -> u32
        requires { at + 4 ≤ length self.now.bytes }
        ensures { result ≡ word_at self.now at }
    {
        BigEndian::read_u32(&self.bytes[at as usize..])
    }

    /// The address that a word says.
    pub(crate) fn address_in(&self, word: u32) -> u32
        ensures { result ≡ address_in self.now.heads word }
    {
        match self.heads {
            HeadKind::Bits24 => word % 0x100_0000,
            HeadKind::Bits32 => word,
        }
    }

    /// How many bytes the zone has up to its last block's end, or why its header says no such number.
    pub(crate) fn end(&self) -> Result<u32, Fault>
        ensures end { IfOk result (λ end. (end ≡ end_of self.now) × (header_fault self.now ≡ None)) }
        ensures inside { IfOk result (λ end. (52 ≤ end) × (end ≤ length self.now.bytes) × (self.now.base + end < 2 ^ 32)) }
        ensures fault { IfErr result (λ fault. header_fault self.now ≡ Some fault) }
    {
        if self.bytes.len() < ZONE_HEADER as usize {
            return Err(self.limit_fault(Problem::ShortZone, self.bytes.len() as u32, ZONE_HEADER));
        }
        let limit = self.address_in(self.word_at(0));
        let Some(first) = self.base.checked_add(ZONE_HEADER) else {
            return Err(self.limit_fault(Problem::LowLimit, limit, u32::MAX));
        };
        if limit < first {
            return Err(self.limit_fault(Problem::LowLimit, limit, first));
        }
        let end = limit - self.base;
        if self.bytes.len() < end as usize {
            let most = self.base + self.bytes.len() as u32;
            return Err(self.limit_fault(Problem::HighLimit, limit, most));
        }
        Ok(end)
    }

    /// A fault of the zone's first field, bkLim.
    fn limit_fault(&self, problem: Problem, found: u32, wanted: u32) -> Fault
        ensures { result ≡ record { problem = problem; place = self.now.base; found = found; wanted = wanted } }
    {
        Fault {
            problem,
            place: self.base,
            found,
            wanted,
        }
    }
}
