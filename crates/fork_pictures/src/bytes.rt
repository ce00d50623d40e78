//! Numbers in bytes.

ghost use Rattle.std.specs.Prelude.{◌≡◌, ◌<◌, ◌^◌, slice_index};
ghost use Rattle.fork_pictures.specs.Bytes.{coordinate, extent, long_at, word_at};

/// The byte at a place, or 0 where the bytes have ended.
pub(crate) fn byte_at(bytes: &[u8], at: usize) -> u8
    ensures { result ≡ slice_index bytes.now at }
{
    bytes.get(at).copied().unwrap_or(0)
}

/// The number of two bytes at a place, the highest first.
pub(crate) fn word_at(bytes: &[u8], at: usize) -> u16
    requires { at < 2 ^ 60 }
    ensures { result ≡ word_at bytes.now at }
{
    256 * byte_at(bytes, at) as u16 + byte_at(bytes, at + 1) as u16
}

/// The number of four bytes at a place.
pub(crate) fn long_at(bytes: &[u8], at: usize) -> u32
    requires { at < 2 ^ 50 }
    ensures { result ≡ long_at bytes.now at }
{
    65536 * word_at(bytes, at) as u32 + word_at(bytes, at + 2) as u32
}

/// How far a signed coordinate at a place is above the least.
fn coordinate(bytes: &[u8], at: usize) -> u16
    requires { at < 2 ^ 50 }
    ensures { result ≡ coordinate bytes.now at }
{
    word_at(bytes, at).wrapping_add(32768)
}

/// How far the coordinate at one place is below that at another, or 0 where it is not below.
pub(crate) fn extent(bytes: &[u8], low: usize, high: usize) -> u16
    requires low { low < 2 ^ 50 }
    requires high { high < 2 ^ 50 }
    ensures { result ≡ extent bytes.now low high }
{
    coordinate(bytes, high).saturating_sub(coordinate(bytes, low))
}
