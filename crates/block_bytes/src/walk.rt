//! Whether bytes are those of a zone.

ghost use Rattle.std.specs.Prelude.{◌≡◌, ◌+◌, ◌≤◌, ◌↔◌, length, IsTrue};
ghost use Rattle.mac_base.specs.HeadKind.{head_size};
ghost use Rattle.block_bytes.specs.Walk.{size_at, Walks};

use byteorder::{BigEndian, ByteOrder};
use mac_base::block::HeadKind;
use mac_base::size::ZONE_HEADER;

/// Whether bytes are those of a zone: the sizes in the block headers, walked from after the zone's header, are
/// multiples of four and no smaller than the smallest block, and the last block ends where the bytes do.
pub fn check(heads: HeadKind, image: &[u8]) -> bool
    ensures { IsTrue result ↔ Walks heads image.now }
{
    let smallest = heads.smallest_block() as usize;
    let end = image.len();
    let mut at = ZONE_HEADER as usize;
    if end < at {
        return false;
    }
    while at < end {
        if end - at < smallest {
            return false;
        }
        let size = size_at(heads, image, at);
        if size % 4 != 0 || size < smallest || end - at < size {
            return false;
        }
        at += size;
    }
    true
}

/// The size that the block header at an offset says.
fn size_at(heads: HeadKind, image: &[u8], at: usize) -> usize
    requires { at + head_size heads ≤ length image.now }
    ensures { result ≡ size_at heads image.now at }
{
    match heads {
        HeadKind::Bits24 => (BigEndian::read_u32(&image[at..at + 4]) % 0x100_0000) as usize,
        HeadKind::Bits32 => BigEndian::read_u32(&image[at + 4..at + 8]) as usize,
    }
}
