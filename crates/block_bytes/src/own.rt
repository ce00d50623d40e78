//! The blocks' own bytes, their headers and the contents of the master blocks, compared with other bytes. The place of
//! a header is known once the one before it is read, so a single walk waits for each. Four walks, each over about a
//! quarter of the blocks' bytes, take turns, and the processor reads four headers at once.

ghost use Rattle.std.specs.Prelude.{◌≡◌, ◌+◌, ◌<◌, ◌≤◌, ◌↔◌, length, IfNone, IfSome, IsTrue};
ghost use Rattle.mac_base.specs.HeadKind.{head_size, zone_header};
ghost use Rattle.block_bytes.specs.Finding.{SplitAt};
ghost use Rattle.block_bytes.specs.FourWalks.{AreDone, AreInside, AreSplit, HaveMoved, HavePassed};
ghost use Rattle.block_bytes.specs.Layout.{BlockAt, address_after, image_of, total_of};
ghost use Rattle.block_bytes.specs.Structure.{AreWritten, HasOwn, OwnBetween, is_master};

use crate::blocks::Blocks;
use crate::memory::has_at;
use mac_base::block::HeadKind;
use mac_base::size::ZONE_HEADER;

/// Where each of four walks is, or ends, as offsets from the zone's start.
#[derive(Clone, Copy)]
struct Places {
    first: usize,
    second: usize,
    third: usize,
    fourth: usize,
}

impl Places {
    ghost use Rattle.std.specs.Prelude.{◌↔◌, IsTrue};
    ghost use Rattle.block_bytes.specs.FourWalks.{AreDone};

    /// Whether each walk is at its end.
    #[inline(always)]
    fn are_done(self, ends: Places) -> bool
        ensures { IsTrue result ↔ AreDone self ends }
    {
        ends.first <= self.first
            && ends.second <= self.second
            && ends.third <= self.third
            && ends.fourth <= self.fourth
    }
}

impl Blocks {
    /// Whether the contents of the master block at an offset are in their place among as many bytes as the zone has.
    #[inline(never)]
    fn has_contents(&self, at: usize, bytes: &[u8]) -> bool
        requires whole { length bytes.now ≡ length (image_of self.now) }
        requires block { BlockAt self.now (self.now.base + at) }
        requires master { (b : BlockAt self.now (self.now.base + at)) → IsTrue (is_master b.here.role) }
        ensures { (b : BlockAt self.now (self.now.base + at)) → (IsTrue result ↔ AreWritten bytes.now (at + head_size self.now.heads) b.here.contents) }
    {
        let base = self.spec.base();
        let own = self.contents(base + at as u32);
        let start = at + self.spec.heads().head_size() as usize;
        has_at(bytes, start, own)
    }

    /// The offset after the block at an offset, if the block's own bytes are in their place among as many bytes as the
    /// zone has. Where a walk is at its end already, it stays there.
    #[inline(always)]
    fn pass(&self, heads: HeadKind, at: usize, end: usize, bytes: &[u8]) -> Option<usize>
        requires whole { length bytes.now ≡ length (image_of self.now) }
        requires heads { heads ≡ self.now.heads }
        requires split { SplitAt self.now (self.now.base + at) }
        requires inside { end ≤ zone_header + total_of self.now.heads self.now.blocks }
        ensures own { IfSome result (λ next. OwnBetween self.now bytes.now at next) }
        ensures more { IfSome result (λ next. at < end → at < next) }
        ensures none { IfNone result (HasOwn self.now bytes.now zone_header self.now.blocks → ⊥) }
    {
        if end <= at {
            return Some(at);
        }
        let _base = self.spec.base();
        let step = self.memory.same_step(heads, at, bytes)?;
        if step.is_master && !self.has_contents(at, bytes) {
            return None;
        }
        Some(at + step.size as usize)
    }

    /// Passes the next block of each walk that isn't at its end.
    #[inline(always)]
    fn pass_four(&self, heads: HeadKind, at: Places, ends: Places, bytes: &[u8]) -> Option<Places>
        requires whole { length bytes.now ≡ length (image_of self.now) }
        requires heads { heads ≡ self.now.heads }
        requires split { AreSplit self.now at }
        requires inside { AreInside self.now ends }
        ensures passed { IfSome result (λ next. HavePassed self.now bytes.now at next) }
        ensures moved { IfSome result (λ next. HaveMoved at ends next) }
        ensures none { IfNone result (HasOwn self.now bytes.now zone_header self.now.blocks → ⊥) }
    {
        let first = self.pass(heads, at.first, ends.first, bytes)?;
        let second = self.pass(heads, at.second, ends.second, bytes)?;
        let third = self.pass(heads, at.third, ends.third, bytes)?;
        let fourth = self.pass(heads, at.fourth, ends.fourth, bytes)?;
        Some(Places {
            first,
            second,
            third,
            fourth,
        })
    }

    /// The offset of the block that has the byte at an offset; of the first block where none has it.
    fn block_start(&self, offset: u32) -> usize
        requires { self.now.base + offset ≤ address_after self.now self.now.blocks }
        ensures { SplitAt self.now (self.now.base + result) }
    {
        let base = self.spec.base();
        match self.holder(base + offset) {
            Some(start) => (start - base) as usize,
            None => ZONE_HEADER as usize,
        }
    }

    /// Where four walks begin that each have about a quarter of the zone before its last block, which is mostly a large
    /// free one.
    fn quarters(&self) -> Places
        ensures first { result.first ≡ zone_header }
        ensures split { AreSplit self.now result }
    {
        let size = self.spec.size();
        let last = self.block_start(size - 1).min(size as usize);
        let quarter = last as u32 / 4;
        Places {
            first: ZONE_HEADER as usize,
            second: self.block_start(quarter),
            third: self.block_start(2 * quarter),
            fourth: self.block_start(3 * quarter),
        }
    }

    /// Whether the own bytes of all blocks, their headers and the contents of the master blocks, are in their places
    /// among as many bytes as the zone has.
    pub fn has_own_bytes(&self, bytes: &[u8]) -> bool
        requires whole { length bytes.now ≡ length (image_of self.now) }
        ensures { IsTrue result ↔ HasOwn self.now bytes.now zone_header self.now.blocks }
    {
        let heads = self.spec.heads();
        let starts = self.quarters();
        let ends = Places {
            first: starts.second,
            second: starts.third,
            third: starts.fourth,
            fourth: self.spec.size() as usize,
        };
        let mut at = starts;
        while !at.are_done(ends) {
            let Some(next) = self.pass_four(heads, at, ends, bytes) else {
                return false;
            };
            at = next;
        }
        true
    }
}
