//! Numbers in bytes, which are 0 where the bytes have ended.

ghost use Rattle.std.specs.Prelude.{◌≡◌, ◌<◌, ◌^◌, slice_index};
ghost use Rattle.byteorder.specs.Endian.{big_from};
ghost use Rattle.pict_bytes.specs.Maps.{coordinate};

/// The byte at a place.
pub(crate) fn byte_at(bytes: &[u8], at: usize) -> u8
    ensures { result ≡ slice_index bytes.now at }
{
    bytes.get(at).copied().unwrap_or(0)
}

/// The number of two bytes at a place, the highest first.
pub(crate) fn two_at(bytes: &[u8], at: usize) -> u16
    requires { at < 2 ^ 60 }
    ensures { result ≡ big_from at 2 bytes.now }
{
    256 * byte_at(bytes, at) as u16 + byte_at(bytes, at + 1) as u16
}

/// How far a signed number of two bytes at a place is above the least.
pub(crate) fn coordinate(bytes: &[u8], at: usize) -> u16
    requires { at < 2 ^ 60 }
    ensures { result ≡ coordinate bytes.now at }
{
    two_at(bytes, at).wrapping_add(32768)
}
