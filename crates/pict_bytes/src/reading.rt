//! Numbers at places of bytes, the highest byte first.

ghost use Rattle.std.specs.Prelude.{◌≡◌, ◌≤◌, ◌+◌, IfOk, length, slice_index};
ghost use Rattle.byteorder.specs.Endian.{big_from};
ghost use Rattle.pict_bytes.specs.Reading.{within};

use crate::fault::Fault;
use byteorder::{BigEndian, ByteOrder};

/// A place, if the bytes reach it.
pub(crate) fn within(bytes: &[u8], end: usize) -> Result<usize, Fault>
    ensures is { result ≡ within bytes.now end }
    ensures inside { IfOk result (λ place. (place ≡ end) × (place ≤ length bytes.now)) }
{
    if bytes.len() < end {
        Err(Fault::Short(end as u64))
    } else {
        Ok(end)
    }
}

/// The number of two bytes at a place.
pub(crate) fn two_at(bytes: &[u8], at: usize) -> u16
    requires { at + 2 ≤ length bytes.now }
    ensures { result ≡ big_from at 2 bytes.now }
{
    BigEndian::read_u16(&bytes[at..])
}

/// The number of four bytes at a place.
pub(crate) fn four_at(bytes: &[u8], at: usize) -> u32
    requires { at + 4 ≤ length bytes.now }
    ensures { result ≡ big_from at 4 bytes.now }
{
    BigEndian::read_u32(&bytes[at..])
}
