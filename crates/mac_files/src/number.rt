//! Numbers at places of a file, the highest byte first.

ghost use Rattle.std.specs.Prelude.{◌≡◌, ◌≤◌, ◌+◌, length, take, drop};
ghost use Rattle.byteorder.specs.Endian.{big_from};

use byteorder::{BigEndian, ByteOrder};

/// The number of two bytes at a place.
pub fn read_two(file: &[u8], at: usize) -> u16
    requires { at + 2 ≤ length file.now }
    ensures { result ≡ big_from at 2 file.now }
{
    BigEndian::read_u16(&file[at..])
}

/// The number of four bytes at a place.
pub fn read_four(file: &[u8], at: usize) -> u32
    requires { at + 4 ≤ length file.now }
    ensures { result ≡ big_from at 4 file.now }
{
    BigEndian::read_u32(&file[at..])
}

/// The four bytes at a place.
pub fn four_bytes(file: &[u8], at: usize) -> [u8; 4]
    requires { at + 4 ≤ length file.now }
    ensures { result ≡ take 4 (drop at file.now) }
{
    let mut four = [0; 4];
    four.copy_from_slice(&file[at..at + 4]);
    four
}
