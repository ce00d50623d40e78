//! Moves of many bytes piece by piece.

ghost use Rattle.std.specs.Prelude.{◌≡◌, ◌+◌, ◌≤◌, length};
ghost use Rattle.raw_region.specs.Bytes.{part, written};
ghost use Rattle.raw_region.specs.Span.{IsFree};

use super::Region;

/// The bytes of a piece.
const PIECE: usize = 4096;

#[tactic(auto, using(crate::proofs::Rules::upkeep))]
impl Region {
    /// Moves the `n` bytes from `from` on to the `n` bytes from `to` on, by way of a room that has space for them.
    fn carry(&mut self, room: &mut [u8], from: usize, to: usize, n: usize)
        requires from_inside { from + n ≤ length self.old.bytes }
        requires to_inside { to + n ≤ length self.old.bytes }
        requires from_free { IsFree self.old.lent from n }
        requires to_free { IsFree self.old.lent to n }
        requires space { n ≤ length room.old }
        ensures bytes { self.new.bytes ≡ written self.old.bytes to (part self.old.bytes from n) }
        ensures len { length self.new.bytes ≡ length self.old.bytes }
        ensures name { self.new.name ≡ self.old.name }
        ensures lent { self.new.lent ≡ self.old.lent }
        ensures room { length room.new ≡ length room.old }
    {
        room[..n].copy_from_slice(self.bytes(from, n));
        self.bytes_mut(to, n).copy_from_slice(&room[..n]);
    }

    /// Moves the `n` bytes from `from` on down to those from `to` on, the low ones first.
    pub(crate) fn slide_down(&mut self, from: usize, to: usize, n: usize)
        requires inside { from + n ≤ length self.old.bytes }
        requires down { to ≤ from }
        requires from_free { IsFree self.old.lent from n }
        requires to_free { IsFree self.old.lent to n }
        ensures bytes { self.new.bytes ≡ written self.old.bytes to (part self.old.bytes from n) }
        ensures len { length self.new.bytes ≡ length self.old.bytes }
        ensures name { self.new.name ≡ self.old.name }
        ensures lent { self.new.lent ≡ self.old.lent }
    {
        let _len = self.len();
        let mut room = [0u8; PIECE];
        let mut done = 0;
        while done < n {
            let piece = if n - done < PIECE { n - done } else { PIECE };
            self.carry(&mut room, from + done, to + done, piece);
            done += piece;
        }
    }

    /// Moves the `n` bytes from `from` on up to those from `to` on, the high ones first.
    pub(crate) fn slide_up(&mut self, from: usize, to: usize, n: usize)
        requires inside { to + n ≤ length self.old.bytes }
        requires up { from ≤ to }
        requires from_free { IsFree self.old.lent from n }
        requires to_free { IsFree self.old.lent to n }
        ensures bytes { self.new.bytes ≡ written self.old.bytes to (part self.old.bytes from n) }
        ensures len { length self.new.bytes ≡ length self.old.bytes }
        ensures name { self.new.name ≡ self.old.name }
        ensures lent { self.new.lent ≡ self.old.lent }
    {
        let _len = self.len();
        let mut room = [0u8; PIECE];
        let mut left = n;
        while left > 0 {
            let piece = if left < PIECE { left } else { PIECE };
            left -= piece;
            self.carry(&mut room, from + left, to + left, piece);
        }
    }
}
