//! The steps of an update, each with at most three calls of its own that change the device. Whenever a crash comes in a
//! step, it leaves what it might have left before, but for the part that the step writes.

ghost use Rattle.std.specs.Prelude.{◌+◌, ◌<◌, ◌^◌, ◌∷◌, ◌++◌, length, take, drop};
ghost use Rattle.fork_disk.specs.Disk.{Counts};
ghost use Rattle.fork_journal.specs.Crash.{side_of};
ghost use Rattle.fork_journal.specs.Form.{text_of, IsSameFront, IsSameText};
ghost use Rattle.fork_journal.specs.Pairs.{HasBytes, PutsSide};

use crate::pair::{PairDisk, Side};
use byteorder::{BigEndian, ByteOrder};
use fork_disk::disk::DiskFault;

/// Writes the gate, byte 0 of the journal, and makes sure of it.
pub(crate) fn put_gate<P: PairDisk>(pair: &mut P, gate: u8) -> Result<(), DiskFault>
    ensures puts { P.is_honest pair.new
        → PutsSide P.PairDisk pair.old pair.new Side.Journal IsSameText (gate ∷ drop 1 (P.contents pair.old).journal) result }
    ensures cause { Counts (P.failures pair.old) (P.failures pair.new) result }
{
    pair.write_at(Side::Journal, 0, &[gate])?;
    pair.sync(Side::Journal)?; // before anything else is written
    Ok(())
}

/// Writes bytes at an offset of a side, cuts it to their end, and makes sure of it.
pub(crate) fn put_rest<P: PairDisk>(
    pair: &mut P,
    side: Side,
    at: u64,
    bytes: &[u8],
) -> Result<(), DiskFault>
    requires fits { at + length bytes.now < 2 ^ 64 }
    requires there { HasBytes P.PairDisk side at pair.old }
    ensures puts { P.is_honest pair.new → PutsSide P.PairDisk pair.old pair.new side (IsSameFront at)
        (take at (side_of side (P.contents pair.old)) ++ bytes.now) result }
    ensures cause { Counts (P.failures pair.old) (P.failures pair.new) result }
{
    pair.write_at(side, at, bytes)?;
    pair.cut(side, at + bytes.len() as u64)?;
    pair.sync(side)?; // before the gate is opened or shut
    Ok(())
}

/// Writes the text of a fork after the gate, its length and its bytes, and makes sure of it.
pub(crate) fn put_text<P: PairDisk>(pair: &mut P, fork: &[u8]) -> Result<(), DiskFault>
    requires gate { HasBytes P.PairDisk Side.Journal 1 pair.old }
    requires short { length fork.now < 2 ^ 32 }
    ensures puts { P.is_honest pair.new → PutsSide P.PairDisk pair.old pair.new Side.Journal (IsSameFront 1)
        (take 1 (P.contents pair.old).journal ++ text_of fork.now) result }
    ensures cause { Counts (P.failures pair.old) (P.failures pair.new) result }
{
    let mut length = [0; 4];
    BigEndian::write_u32(&mut length, fork.len() as u32);
    pair.write_at(Side::Journal, 1, &length)?;
    put_rest(pair, Side::Journal, 5, fork)
}
