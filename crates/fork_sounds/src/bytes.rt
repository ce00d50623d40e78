//! Numbers in bytes.

ghost use Rattle.std.specs.Prelude.{◌≡◌, ◌<◌, ◌^◌, slice_index};
ghost use Rattle.fork_sounds.specs.Bytes.{four_at, long_at, word_at};

/// The byte at a place, or 0 where the bytes have ended.
pub(crate) fn byte_at(bytes: &[u8], at: usize) -> u8
    ensures { result ≡ slice_index bytes.now at }
{
    bytes.get(at).copied().unwrap_or(0)
}

/// The number of two bytes at a place, the highest first.
pub(crate) fn word_at(bytes: &[u8], at: usize) -> u16
    requires { at < 2 ^ 60 }
    ensures { result ≡ word_at bytes.now at }
{
    256 * byte_at(bytes, at) as u16 + byte_at(bytes, at + 1) as u16
}

/// The number of four bytes at a place.
pub(crate) fn long_at(bytes: &[u8], at: usize) -> u32
    requires { at < 2 ^ 50 }
    ensures { result ≡ long_at bytes.now at }
{
    65536 * word_at(bytes, at) as u32 + word_at(bytes, at + 2) as u32
}

/// The four bytes at a place.
pub(crate) fn four_at(bytes: &[u8], at: usize) -> [u8; 4]
    requires { at < 2 ^ 60 }
    ensures { result ≡ four_at bytes.now at }
{
    [
        byte_at(bytes, at),
        byte_at(bytes, at + 1),
        byte_at(bytes, at + 2),
        byte_at(bytes, at + 3),
    ]
}
