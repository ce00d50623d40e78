//! Moves of many bytes.

ghost use Rattle.std.specs.Prelude.{◌≡◌, ◌+◌, ◌-◌, ◌≤◌, ◌⊎◌, ◌++◌, length};
ghost use Rattle.raw_region.specs.Bytes.{part, written};
ghost use Rattle.raw_region.specs.Span.{IsFree};

use super::Region;
use crate::runs::Run;

/// The bytes up to which a slide whose ranges overlap moves them all at once.
const SHORT: usize = 512;

#[tactic(auto, using(crate::proofs::Rules::upkeep))]
impl Region {
    /// The bytes from `at` up to `mid` and those from `mid` up to `end` change places. They are inside the region, and
    /// none is lent.
    pub fn rotate(&mut self, at: usize, mid: usize, end: usize)
        requires order { (at ≤ mid) × (mid ≤ end) }
        requires inside { end ≤ length self.old.bytes }
        requires free { IsFree self.old.lent at (end - at) }
        ensures bytes { self.new.bytes
            ≡ written self.old.bytes at (part self.old.bytes mid (end - mid) ++ part self.old.bytes at (mid - at)) }
        ensures len { length self.new.bytes ≡ length self.old.bytes }
        ensures name { self.new.name ≡ self.old.name }
        ensures lent { self.new.lent ≡ self.old.lent }
    {
        self.bytes_mut(at, end - at).rotate_left(mid - at);
    }

    /// Copies the `n` bytes from `from` on to the `n` bytes from `to` on. Both ranges are inside the region, none of
    /// their bytes is lent, and they have no byte in common. Bytes between them may be lent.
    pub fn copy_between(&mut self, from: usize, to: usize, n: usize)
        requires from_inside { from + n ≤ length self.old.bytes }
        requires to_inside { to + n ≤ length self.old.bytes }
        requires from_free { IsFree self.old.lent from n }
        requires to_free { IsFree self.old.lent to n }
        requires apart { (from + n ≤ to) ⊎ (to + n ≤ from) }
        ensures bytes { self.new.bytes ≡ written self.old.bytes to (part self.old.bytes from n) }
        ensures len { length self.new.bytes ≡ length self.old.bytes }
        ensures name { self.new.name ≡ self.old.name }
        ensures lent { self.new.lent ≡ self.old.lent }
    {
        let source = self.cells.take_out(from, n);
        self.noted.add(Run {
            start: to,
            end: to + n,
        });
        self.cells
            .bytes_mut(to, n)
            .copy_from_slice(source.bytes(0, n));
        self.cells.put_in(source);
    }

    /// Moves the `n` bytes from `from` on to the `n` bytes from `to` on, also where the two ranges overlap. Both are
    /// inside the region, and none of their bytes is lent. Bytes of the first range outside the second stay.
    pub fn slide(&mut self, from: usize, to: usize, n: usize)
        requires from_inside { from + n ≤ length self.old.bytes }
        requires to_inside { to + n ≤ length self.old.bytes }
        requires from_free { IsFree self.old.lent from n }
        requires to_free { IsFree self.old.lent to n }
        ensures bytes { self.new.bytes ≡ written self.old.bytes to (part self.old.bytes from n) }
        ensures len { length self.new.bytes ≡ length self.old.bytes }
        ensures name { self.new.name ≡ self.old.name }
        ensures lent { self.new.lent ≡ self.old.lent }
    {
        let _len = self.len();
        if from < to {
            let far = to - from;
            if n <= far {
                self.copy_between(from, to, n);
            } else if n <= SHORT {
                self.bytes_mut(from, far + n).copy_within(0..n, far);
            } else {
                self.slide_up(from, to, n);
            }
        } else {
            let far = from - to;
            if n <= far {
                self.copy_between(from, to, n);
            } else if n <= SHORT {
                self.bytes_mut(to, far + n).copy_within(far..far + n, 0);
            } else {
                self.slide_down(from, to, n);
            }
        }
    }
}
