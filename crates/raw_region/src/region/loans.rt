//! Ranges that are lent.

ghost use Rattle.std.specs.Prelude.{◌≡◌, ℕ, ◌+◌, ◌≤◌, ◌∷◌, length, if◌then◌else◌, None};
ghost use Rattle.raw_region.specs.Bytes.{part, written};
ghost use Rattle.raw_region.specs.Span.{IsFree, IsListed, without, covers};
ghost use Rattle.raw_region.specs.State.{byte_at, loan_at};

use super::Region;
use crate::loan::Lent;
use crate::runs::Run;

impl Region {
    /// Lends the `n` bytes from `at` on: they leave the region, and who has the loan reads and writes them. The range
    /// is inside the region, and no byte of it is lent.
    #[tactic(auto, using(crate::proofs::Rules::lengths))]
    pub fn lend(&mut self, at: usize, n: usize) -> Lent
        requires inside { at + n ≤ length self.old.bytes }
        requires free { IsFree self.old.lent at n }
        ensures name { self.new.name ≡ self.old.name }
        ensures bytes { self.new.bytes ≡ self.old.bytes }
        ensures lent { self.new.lent ≡ (at, n) ∷ self.old.lent }
        ensures loan_name { result.name ≡ self.old.name }
        ensures loan_offset { result.at ≡ at }
        ensures loan_bytes { result.bytes ≡ part self.old.bytes at n }
        ensures loan_len { length result.bytes ≡ n }

        // Byte by byte: what the region no longer has is just what the loan has.
        ensures left { (k : ℕ) → byte_at self.new k ≡ (if covers (at, n) k then None else byte_at self.old k) }
        ensures moved { (k : ℕ) → loan_at result k ≡ (if covers (at, n) k then byte_at self.old k else None) }
    {
        Lent {
            cells: self.cells.take_out(at, n),
            at,
        }
    }

    /// Takes back a range that this region lent. Its bytes are then those that its holder left.
    pub fn give_back(&mut self, lent: Lent)
        requires ours { lent.name ≡ self.old.name }
        requires listed { IsListed self.old.lent (lent.at, length lent.bytes) }
        ensures name { self.new.name ≡ self.old.name }
        ensures bytes { self.new.bytes ≡ written self.old.bytes lent.at lent.bytes }
        ensures lent { self.new.lent ≡ without (lent.at, length lent.bytes) self.old.lent }

        // Byte by byte: the loan's bytes are the region's again.
        ensures moved { (k : ℕ) → byte_at self.new k
            ≡ (if covers (lent.at, length lent.bytes) k then loan_at lent k else byte_at self.old k) }
    {
        let Lent { cells, at } = lent;
        let _len = self.cells.len();
        let end = at + cells.len();
        self.noted.add(Run { start: at, end });
        self.cells.put_in(cells);
    }
}
