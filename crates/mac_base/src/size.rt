//! How many bytes of a zone a block takes.

ghost use Rattle.std.specs.Prelude.{◌≡◌, ◌<◌, ◌^◌};
ghost use Rattle.mac_base.specs.declared.block.HeadKind.TheVariants.{Bits24};
ghost use Rattle.mac_base.specs.HeadKind.{need};

use crate::block::HeadKind;

/// The largest size, offset or count that a call takes, in bytes (Inside Macintosh: Memory, maxSize).
pub const MAX_SIZE: u32 = 0x80_0000;

/// The bytes of a zone's header. Blocks begin after it.
pub const ZONE_HEADER: u32 = 52;

/// The master pointers of a master block.
pub const SLOT_COUNT: u32 = 64;

/// The bytes of a master block's contents.
pub const MASTER_LENGTH: u32 = 256;

/// The physical size of a 24-bit block with `length` bytes of contents: `need_for` with `Bits24`.
pub fn need(length: u32) -> u32
    requires { need Bits24 length < 2 ^ 32 }
    ensures { result ≡ need Bits24 length }
{
    need_for(HeadKind::Bits24, length)
}

/// The physical size of a block with `length` bytes of contents: these and the header, rounded up to a multiple of
/// four, and no less than the smallest block.
pub fn need_for(heads: HeadKind, length: u32) -> u32
    requires { need heads length < 2 ^ 32 }
    ensures { result ≡ need heads length }
{
    let rounded = (length + heads.head_size() + 3) / 4 * 4;
    rounded.max(heads.smallest_block())
}
