//! Reads and writes.

ghost use Rattle.std.specs.Prelude.{◌≡◌, ◌+◌, ◌≤◌, length, replicate};
ghost use Rattle.std.specs.Borrow.{sem};
ghost use Rattle.byteorder.specs.Endian.{big_bytes, big_number};
ghost use Rattle.raw_region.specs.Bytes.{part, written};
ghost use Rattle.raw_region.specs.Runs.{DifferIn};
ghost use Rattle.raw_region.specs.Span.{IsFree};
ghost use Rattle.raw_region.specs.WritingBack.{WritesBackBytes};

use super::Region;
use crate::runs::{Run, Runs};
use byteorder::{BigEndian, ByteOrder};

impl Region {
    /// The runs of bytes that may differ from those that the region had at first. No others do.
    pub fn noted(&self) -> Runs
        ensures { DifferIn result self.now.name.1 self.now.bytes }
    {
        self.noted
    }

    /// How many bytes the region has, lent ones among them.
    pub fn len(&self) -> usize
        ensures { result ≡ length self.now.bytes }
    {
        self.cells.len()
    }

    /// The `n` bytes from `at` on. They are inside the region, and none is lent.
    #[tactic(auto, using(crate::proofs::Rules::lengths))]
    pub fn bytes(&self, at: usize, n: usize) -> &[u8]
        requires inside { at + n ≤ length self.now.bytes }
        requires free { IsFree self.now.lent at n }
        ensures value { result.now ≡ part self.now.bytes at n }
        ensures len { length result.now ≡ n }
    {
        self.cells.bytes(at, n)
    }

    /// The `n` bytes from `at` on, to be written. They are inside the region, and none is lent.
    #[tactic(auto, using(crate::proofs::Rules::lengths))]
    pub fn bytes_mut(&mut self, at: usize, n: usize) -> &mut [u8]
        requires inside { at + n ≤ length self.old.bytes }
        requires free { IsFree self.old.lent at n }
        ensures* writes_back { sem 𝓛 (WritesBackBytes self.entry at n result) }
        ensures value { result.now ≡ part self.old.bytes at n }
        ensures len { length result.now ≡ n }
    {
        self.noted.add(Run {
            start: at,
            end: at + n,
        });
        self.cells.bytes_mut(at, n)
    }

    /// Writes a number as the 2 bytes from `at` on, the high byte first. They are inside the region, and none is lent.
    #[tactic(auto, using(crate::proofs::Rules::upkeep))]
    pub fn put16(&mut self, at: usize, x: u16)
        requires inside { at + 2 ≤ length self.old.bytes }
        requires free { IsFree self.old.lent at 2 }
        ensures bytes { self.new.bytes ≡ written self.old.bytes at (big_bytes 2 x) }
        ensures len { length self.new.bytes ≡ length self.old.bytes }
        ensures name { self.new.name ≡ self.old.name }
        ensures lent { self.new.lent ≡ self.old.lent }
    {
        BigEndian::write_u16(self.bytes_mut(at, 2), x);
    }

    /// The number whose 4 bytes lie from `at` on, the high byte first. They are inside the region, and none is lent.
    pub fn get32(&self, at: usize) -> u32
        requires inside { at + 4 ≤ length self.now.bytes }
        requires free { IsFree self.now.lent at 4 }
        ensures { result ≡ big_number 4 (part self.now.bytes at 4) }
    {
        BigEndian::read_u32(self.bytes(at, 4))
    }

    /// Writes a number as the 4 bytes from `at` on, the high byte first. They are inside the region, and none is lent.
    #[tactic(auto, using(crate::proofs::Rules::upkeep))]
    pub fn put32(&mut self, at: usize, x: u32)
        requires inside { at + 4 ≤ length self.old.bytes }
        requires free { IsFree self.old.lent at 4 }
        ensures bytes { self.new.bytes ≡ written self.old.bytes at (big_bytes 4 x) }
        ensures len { length self.new.bytes ≡ length self.old.bytes }
        ensures name { self.new.name ≡ self.old.name }
        ensures lent { self.new.lent ≡ self.old.lent }
    {
        BigEndian::write_u32(self.bytes_mut(at, 4), x);
    }

    /// Writes `byte` to each of the `n` bytes from `at` on. They are inside the region, and none is lent.
    #[tactic(auto, using(crate::proofs::Rules::upkeep))]
    pub fn fill(&mut self, at: usize, n: usize, byte: u8)
        requires inside { at + n ≤ length self.old.bytes }
        requires free { IsFree self.old.lent at n }
        ensures bytes { self.new.bytes ≡ written self.old.bytes at (replicate n byte) }
        ensures len { length self.new.bytes ≡ length self.old.bytes }
        ensures name { self.new.name ≡ self.old.name }
        ensures lent { self.new.lent ≡ self.old.lent }
    {
        self.bytes_mut(at, n).fill(byte);
    }
}
