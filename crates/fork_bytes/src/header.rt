//! What is before the data and the map.

ghost use Rattle.std.specs.Prelude.{◌≡◌, ◌<◌, ◌≤◌, ◌++◌, ◌↔◌, length, take, replicate, IfOk, IfErr, OnOk, OnErr, true};
ghost use Rattle.fork_bytes.specs.Fork.{header_of, HasPartsWithin};

use crate::fault::{Condition, ForkFault};
use crate::layout::{Header, Limits};
use crate::number::read_four;

/// How many bytes the header has.
pub const HEADER_LENGTH: usize = 16;

/// The fewest bytes that a map has.
const MAP_HEADER_LENGTH: u32 = 28;

/// How many bytes are after the header for the system and for the application.
const EXTRA_LENGTH: usize = 240;

/// The header of a fork, which is in its first 16 bytes. The fault is EndOfFile exactly where there are fewer.
pub fn read_header(fork: &[u8]) -> Result<Header, ForkFault>
    ensures header { IfOk result (λ header. header ≡ header_of fork.now) }
    ensures whole { OnOk result (16 ≤ length fork.now) }
    ensures end { OnErr result (length fork.now < 16) }
    ensures fault { IfErr result (λ fault. fault ≡ ForkFault.EndOfFile) }
{
    if fork.len() < HEADER_LENGTH {
        return Err(ForkFault::EndOfFile);
    }
    Ok(Header {
        data_offset: read_four(fork, 0),
        map_offset: read_four(fork, 4),
        data_length: read_four(fork, 8),
        map_length: read_four(fork, 12),
    })
}

/// Whether the parts lie within a fork of so many bytes.
fn has_parts(header: Header, fork_length: usize, limits: Limits) -> bool
    ensures { result ≡ true ↔ HasPartsWithin limits fork_length header }
{
    let data_end = header.data_offset as usize + header.data_length as usize;
    let map_end = header.map_offset as usize + header.map_length as usize;
    fork_length <= limits.fork as usize
        && data_end <= fork_length
        && map_end <= fork_length
        && header.map_length >= MAP_HEADER_LENGTH
}

/// Checks that the parts lie within a fork of so many bytes. The fault is BadMap(Parts) exactly where they don't.
pub fn check_parts(header: Header, fork_length: usize, limits: Limits) -> Result<(), ForkFault>
    ensures parts { OnOk result (HasPartsWithin limits fork_length header) }
    ensures fails { OnErr result (¬ HasPartsWithin limits fork_length header) }
    ensures fault { IfErr result (λ fault. fault ≡ ForkFault.BadMap Condition.Parts) }
{
    if has_parts(header, fork_length, limits) {
        Ok(())
    } else {
        Err(ForkFault::BadMap(Condition::Parts))
    }
}

/// The 240 extra bytes of a fork, of which these are after its header: those that are missing are zero.
pub fn extra_bytes(after: &[u8]) -> [u8; 240]
    ensures { result ≡ take 240 (after.now ++ replicate 240 0) }
{
    let mut extra = [0; EXTRA_LENGTH];
    let count = after.len().min(EXTRA_LENGTH);
    extra[..count].copy_from_slice(&after[..count]);
    extra
}
