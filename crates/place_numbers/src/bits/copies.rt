//! Copies of many marks at once, those of a word in one step.

ghost use Rattle.std.specs.Prelude.{◌≡◌, ℕ, ◌+◌, ◌-◌, ◌≤◌, ◌<◌, length, slice_index};
ghost use Rattle.std.specs.Int.{bit_at};
ghost use Rattle.place_numbers.specs.Shifted.{copied, shifted_down};

use super::Bits;
use crate::level::{GROUP, Marks};

/// So many places are gone through word by word as fast as the next mark is searched.
const NEAR: usize = 512;

impl Bits {
    /// The marks of 64 places, from one on, the lowest bit that of the first. After the last place there are none.
    pub(super) fn read(&self, place: usize) -> u64
        ensures { (i : ℕ) → i < 64 → bit_at result i ≡ slice_index self.now (place + i) }
    {
        self.levels.read(place)
    }

    /// The place up to which none from `from` on has a mark, as far as it is looked for: where few places are left,
    /// they are gone through as fast.
    pub(super) fn pass(&self, from: usize, end: usize) -> usize
        requires order { from ≤ end }
        requires inside { end ≤ length self.now }
        ensures order { from ≤ result }
        ensures most { result ≤ end }
        ensures none { (j : ℕ) → from ≤ j → j < result → slice_index self.now j < 1 }
    {
        if end - from <= NEAR {
            return from;
        }
        match self.first_from(from) {
            Some(at) => end.min(at),
            None => end,
        }
    }

    /// Takes away the marks from one place up to another.
    pub(super) fn clear(&mut self, from: usize, end: usize)
        requires order { from ≤ end }
        requires inside { end ≤ length self.old }
        ensures { self.new ≡ shifted_down end from 0 self.old }
    {
        let _len = self.len();
        let mut place = from;
        while place < end {
            let piece = (end - place).min(64 - place % 64);
            self.levels.put(place, piece, 0);
            place = self.pass(place + piece, end);
        }
    }

    /// Copies the first of `count` marks from `from` on down to `to`: those of one group of these places, or the places
    /// without a mark with which they begin. Gives how many.
    fn copy_first(&mut self, from: usize, to: usize, count: usize) -> usize
        requires some { 0 < count }
        requires order { to ≤ from }
        requires inside { from + count ≤ length self.old }
        ensures some { 0 < result }
        ensures most { result ≤ count }
        ensures copied { self.new ≡ copied from to result self.old }
    {
        let _len = self.len();
        let marks = self.read(from);
        if marks != 0 || count <= NEAR {
            let piece = count.min(GROUP - to % GROUP);
            self.levels.copy_down(from, to, piece);
            return piece;
        }
        let free = match self.first_from(from) {
            Some(at) => count.min(at - from),
            None => count,
        };
        self.clear(to, to + free);
        free
    }

    /// Copies the last of `count` marks from `from` on up to those from `to` on: those of one group of these places, or
    /// the places without a mark with which they end. Gives how many.
    fn copy_last(&mut self, from: usize, to: usize, count: usize) -> usize
        requires some { 0 < count }
        requires order { from ≤ to }
        requires inside { to + count ≤ length self.old }
        ensures some { 0 < result }
        ensures most { result ≤ count }
        ensures copied { self.new ≡ copied (from + (count - result)) (to + (count - result)) result self.old }
    {
        let _len = self.len();
        let marks = self.read(from + (count - count.min(64)));
        if marks != 0 || count <= NEAR {
            let piece = count.min((to + count - 1) % GROUP + 1);
            let rest = count - piece;
            self.levels.copy_up(from + rest, to + rest, piece);
            return piece;
        }
        let free = match self.last_before(from + count) {
            Some(at) => count.min(from + count - (at + 1)),
            None => count,
        };
        self.clear(to + (count - free), to + count);
        free
    }

    /// Copies so many marks from `from` on down to those from `to` on, the low ones first.
    pub(super) fn copy_down(&mut self, from: usize, to: usize, count: usize)
        requires order { to ≤ from }
        requires inside { from + count ≤ length self.old }
        ensures { self.new ≡ copied from to count self.old }
    {
        let _len = self.len();
        let mut done = 0;
        while done < count {
            done += self.copy_first(from + done, to + done, count - done);
        }
    }

    /// Copies so many marks from `from` on up to those from `to` on, the high ones first.
    pub(super) fn copy_up(&mut self, from: usize, to: usize, count: usize)
        requires order { from ≤ to }
        requires inside { to + count ≤ length self.old }
        ensures { self.new ≡ copied from to count self.old }
    {
        let _len = self.len();
        let mut left = count;
        while 0 < left {
            left -= self.copy_last(from, to, left);
        }
    }
}
