//! What a journal says.

ghost use Rattle.std.specs.Prelude.{◌≡◌, ◌+◌, ◌<◌, ◌≤◌, ◌^◌, length, drop, IfOk, IsErrOf};
ghost use Rattle.byteorder.specs.Endian.{big_number};
ghost use Rattle.fork_disk.specs.Disk.{bytes_at, Counts};
ghost use Rattle.fork_disk.specs.Faults.{CountsDevice};
ghost use Rattle.fork_journal.specs.Form.{must_shut};
ghost use Rattle.fork_journal.specs.Pairs.{Answers, FindsUsable, HasBytes};

use crate::pair::{PairDisk, Side};
use byteorder::{BigEndian, ByteOrder};
use fork_disk::disk::DiskFault;
use fork_disk::faults::RecoverFault;
use std::alloc::Global;

/// Whether the gate has to be shut before a text is written.
pub(crate) fn is_shutting_due<P: PairDisk>(pair: &mut P) -> Result<bool, DiskFault>
    ensures answers { P.is_honest pair.new
        → Answers P.PairDisk pair.old pair.new (IfOk result (λ is. is ≡ must_shut (P.contents pair.old).journal)) }
    ensures cause { Counts (P.failures pair.old) (P.failures pair.new) result }
{
    if pair.len(Side::Journal)? == 0 {
        return Ok(true);
    }
    let mut gate = [0];
    pair.read_at(Side::Journal, 0, &mut gate)?;
    Ok(gate[0] == 1)
}

/// How many bytes a fork has, as the first five bytes of a journal say.
fn told_length(head: &[u8; 5]) -> u64
    ensures value { result ≡ big_number 4 (drop 1 head.now) }
    ensures small { result < 2 ^ 32 }
{
    BigEndian::read_u32(&head[1..]) as u64
}

/// So many bytes of the journal. Memory is asked for only where there are some.
fn read_journal<P: PairDisk>(
    alloc: Global,
    pair: &mut P,
    at: u64,
    len: u64,
) -> Result<Vec<u8>, RecoverFault>
    requires { HasBytes P.PairDisk Side.Journal (at + len) pair.old }
    ensures answers { P.is_honest pair.new
        → Answers P.PairDisk pair.old pair.new (IfOk result (λ bytes. bytes.items ≡ bytes_at len at (P.contents pair.old).journal)) }
    ensures cause { CountsDevice (P.failures pair.old) (P.failures pair.new) result }
    ensures memory { IsErrOf result RecoverFault.Host → 1 ≤ len }
{
    if len == 0 {
        return Ok(Vec::new(alloc));
    }
    let mut bytes = vec![in alloc; 0; len as usize]?;
    pair.read_at(Side::Journal, at, &mut bytes)?;
    Ok(bytes)
}

/// The fork of a usable journal.
pub(crate) fn usable_fork<P: PairDisk>(
    alloc: Global,
    pair: &mut P,
) -> Result<Option<Vec<u8>>, RecoverFault>
    ensures finds { P.is_honest pair.new → FindsUsable P.PairDisk pair.old pair.new result }
    ensures cause { CountsDevice (P.failures pair.old) (P.failures pair.new) result }
{
    let len = pair.len(Side::Journal)?;
    if len < 5 {
        return Ok(None);
    }
    let mut head = [0; 5];
    pair.read_at(Side::Journal, 0, &mut head)?;
    let told = told_length(&head);
    if head[0] != 1 {
        return Ok(None);
    }
    if len < 5 + told {
        return Ok(None);
    }
    let fork = read_journal(alloc, pair, 5, told)?;
    Ok(Some(fork))
}
