//! The record of a zone that is awake: other bytes with the zone's structure, and where its own bytes changed since it
//! woke.

ghost use Rattle.std.specs.Prelude.{◌≡◌, [], IfSome, if◌then◌else◌};
ghost use Rattle.block_bytes.specs.Record.{Notes, all_noted};

use crate::memory::{Memory, write_at};
use raw_region::Region;

/// How many ranges are noted at most. Where there are more, all bytes are taken to have changed.
const MOST_RANGES: usize = 32;

/// How many bytes a range has at most. Where there are more, all bytes are taken to have changed, since a walk over the
/// blocks takes less time than to copy as many.
const MOST_BYTES: u32 = 0x4000;

/// A range of bytes.
#[derive(Clone, Copy)]
pub(crate) struct Range {
    pub start: u32,
    pub count: u32,
}

/// Which bytes of a zone changed since it woke: those in the ranges that are noted, or maybe any.
#[derive(Drop)]
pub(crate) struct Changed {
    /// Whether any byte may have changed.
    pub all: bool,

    /// How many ranges are noted: the first ones.
    len: usize,
    ranges: [Range; MOST_RANGES],
}

/// The record of a zone: the region that it was in before it woke, whose bytes have the zone's structure but for what
/// changed since.
pub(crate) struct Record {
    pub region: Region,
    pub changed: Changed,
}

impl Range {
    ghost use Rattle.std.specs.Prelude.{◌+◌, ◌≤◌, IsTrue};

    /// Whether so many bytes from a place on are in the range.
    fn has(self, start: u32, count: u32) -> bool
        ensures { IsTrue result → (self.start ≤ start) × (start + count ≤ self.start + self.count) }
    {
        self.start <= start
            && start - self.start <= self.count
            && count <= self.count - (start - self.start)
    }
}

impl Changed {
    ghost use Rattle.std.specs.Prelude.{◌≡◌, ℕ, ◌+◌, ◌<◌, ◌≤◌, [], length, slice_index, IsTrue};
    ghost use Rattle.block_bytes.specs.Record.{Adds, AreWithin, IsIn, IsUnchanged, noted_ranges};

    /// No byte changed.
    pub fn new() -> Changed
        ensures { IsUnchanged result }
    {
        let none = Range { start: 0, count: 0 };
        Changed {
            all: false,
            len: 0,
            ranges: [none; MOST_RANGES],
        }
    }

    /// Whether one of the ranges has so many bytes from a place on.
    fn has(&self, start: u32, count: u32) -> bool
        ensures { IsTrue result → (i : ℕ) → start ≤ i → i < start + count → IsIn (noted_ranges self.now) i }
    {
        for i in 0..self.len.min(MOST_RANGES) {
            if self.ranges[i].has(start, count) {
                return true;
            }
        }
        false
    }

    /// Notes that so many bytes from a place on changed.
    pub fn add(&mut self, start: u32, count: u32)
        ensures { Adds self.old self.new start count }
    {
        if self.all {
            return;
        }
        if self.has(start, count) {
            return;
        }
        if self.len < MOST_RANGES && count <= MOST_BYTES {
            self.ranges[self.len] = Range { start, count };
            self.len += 1;
        } else {
            self.all = true;
        }
    }

    /// Copies the ranges that are noted from the memory of a zone to their places among as many other bytes.
    pub fn copy(&self, memory: &Memory, bytes: &mut [u8])
        requires within { AreWithin (noted_ranges self.now) (length memory.now.bytes) }
        requires long { length bytes.old ≡ length memory.now.bytes }
        requires unlent { memory.now.lent ≡ [] }
        ensures copied { (i : ℕ) → IsIn (noted_ranges self.now) i → slice_index bytes.new i ≡ slice_index memory.now.bytes i }
        ensures same { (i : ℕ) → slice_index bytes.old i ≡ slice_index memory.now.bytes i → slice_index bytes.new i ≡ slice_index memory.now.bytes i }
    {
        for i in 0..self.len.min(MOST_RANGES) {
            let range = self.ranges[i];
            let start = range.start as usize;
            write_at(bytes, start, memory.bytes(start, range.count as usize));
        }
    }
}

/// Notes that so many bytes from a place on changed, where there is a record.
pub(crate) fn note(kept: &mut Option<Record>, start: u32, count: u32)
    ensures { Notes kept.old kept.new start count }
{
    if let Some(record) = kept {
        record.changed.add(start, count);
    }
}

/// Notes that any byte may have changed, where this is so and there is a record.
pub(crate) fn note_if(kept: &mut Option<Record>, own: bool)
    ensures { kept.new ≡ (if own then all_noted kept.old else kept.old) }
{
    if !own {
        return;
    }
    if let Some(record) = kept {
        record.changed.all = true;
    }
}

/// Ends a record, if there is one.
pub(crate) fn end(kept: Option<Record>)
    requires { IfSome kept (λ r. r.region.lent ≡ []) }
{
    if let Some(Record { region, changed: _ }) = kept {
        drop(region);
    }
}
