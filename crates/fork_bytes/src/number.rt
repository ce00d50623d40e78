//! Numbers at places of a fork or a map, the highest byte first.

ghost use Rattle.std.specs.Prelude.{◌≡◌, ◌≤◌, ◌+◌, length};
ghost use Rattle.std.specs.Int.{w16, cast_signed};
ghost use Rattle.fork_bytes.specs.Fork.{number_at};

use byteorder::{BigEndian, ByteOrder};

/// The number of two bytes at a place.
pub(crate) fn read_two(bytes: &[u8], at: usize) -> u16
    requires { at + 2 ≤ length bytes.now }
    ensures { result ≡ number_at 2 at bytes.now }
{
    BigEndian::read_u16(&bytes[at..])
}

/// The number of two bytes at a place, which has a sign.
pub(crate) fn read_signed(bytes: &[u8], at: usize) -> i16
    requires { at + 2 ≤ length bytes.now }
    ensures { result ≡ cast_signed w16 (number_at 2 at bytes.now) }
{
    BigEndian::read_i16(&bytes[at..])
}

/// The number of three bytes at a place.
pub(crate) fn read_three(bytes: &[u8], at: usize) -> u32
    requires { at + 3 ≤ length bytes.now }
    ensures { result ≡ number_at 3 at bytes.now }
{
    BigEndian::read_u24(&bytes[at..])
}

/// The number of four bytes at a place.
pub(crate) fn read_four(bytes: &[u8], at: usize) -> u32
    requires { at + 4 ≤ length bytes.now }
    ensures { result ≡ number_at 4 at bytes.now }
{
    BigEndian::read_u32(&bytes[at..])
}
