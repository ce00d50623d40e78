//! Numbers at places of bytes, the highest byte first.

ghost use Rattle.std.specs.Prelude.{◌≡◌, ◌≤◌, ◌+◌, length};
ghost use Rattle.byteorder.specs.Endian.{big_from};

use byteorder::{BigEndian, ByteOrder};

/// The number of two bytes at a place.
pub fn read_two(bytes: &[u8], at: usize) -> u16
    requires { at + 2 ≤ length bytes.now }
    ensures { result ≡ big_from at 2 bytes.now }
{
    BigEndian::read_u16(&bytes[at..])
}

/// The number of four bytes at a place.
pub fn read_four(bytes: &[u8], at: usize) -> u32
    requires { at + 4 ≤ length bytes.now }
    ensures { result ≡ big_from at 4 bytes.now }
{
    BigEndian::read_u32(&bytes[at..])
}
