//! Bytes that leave and come back.

ghost use Rattle.std.specs.Prelude.{◌≡◌, ◌+◌, ◌≤◌, [], ◌∷◌, length};
ghost use Rattle.raw_region.specs.Bytes.{part, written};
ghost use Rattle.raw_region.specs.Memory.{cells_len};
ghost use Rattle.raw_region.specs.Span.{IsFree, IsListed, without};

use super::Cells;

impl Cells {
    /// Takes the `n` bytes from `at` on out.
    pub(crate) fn take_out(&mut self, at: usize, n: usize) -> Cells
        requires inside { at + n ≤ length self.old.bytes }
        requires free { IsFree self.old.lent at n }
        ensures lent { self.new.lent ≡ (at, n) ∷ self.old.lent }
        ensures kept { (self.new.bytes ≡ self.old.bytes) × (self.new.home ≡ self.old.home)
            × (self.new.from ≡ self.old.from) }
        ensures part { (result.bytes ≡ part self.old.bytes at n) × (result.lent ≡ [])
            × (result.home ≡ self.old.home) × (result.from ≡ self.old.from + at) }
    {
        Cells {
            at: unsafe { self.at.add(at) },
            len: n,
        }
    }

    /// Puts bytes back that were taken out. They lie where they lay, so nothing is left to do when it runs.
    pub(crate) fn put_in(&mut self, part: Cells)
        requires same { (part.home ≡ self.old.home) × (self.old.from ≡ 0) × (part.lent ≡ []) }
        requires listed { IsListed self.old.lent (part.from, length part.bytes) }
        ensures lent { self.new.lent ≡ without (part.from, length part.bytes) self.old.lent }
        ensures kept { (self.new.bytes ≡ written self.old.bytes part.from part.bytes)
            × (self.new.home ≡ self.old.home) × (self.new.from ≡ self.old.from)
            × (cells_len self.new ≡ cells_len self.old) }
    {
        let Cells { at: _, len: _ } = part;
    }
}
