//! Writing replies.

ghost use Rattle.std.specs.Prelude.{◌≡◌, ℕ, List, MatchBool};
ghost use Rattle.script_run.specs.Counting.{RoseByOne, Took};
ghost use Rattle.script_run.specs.Run.{IsProperFront};

use crate::counted::Counted;
use std::io::Write;

/// Writes a text, and says whether the writer took all of it. Else the writer failed, and took a proper front of it.
pub fn write_whole<W: Write>(writer: &mut Counted<W>, text: &[u8]) -> bool
    ensures written { (written : List ℕ) × Took W.contents writer.old written writer.new
        × MatchBool result (written ≡ text.now) (IsProperFront written text.now) }
    ensures failures { MatchBool result (writer.new.failures ≡ writer.old.failures) (RoseByOne writer.old.failures writer.new.failures) }
{
    let mut rest = text;
    while !rest.is_empty() {
        match writer.write(rest) {
            Ok(count) if count > 0 => rest = &rest[count..],
            Ok(_) | Err(_) => return false,
        }
    }
    true
}
