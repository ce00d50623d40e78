//! A block's header.

ghost use Rattle.std.specs.Prelude.{◌≡◌, ◌<◌, ◌≤◌, ◌^◌, length};
ghost use Rattle.mac_base.specs.FlagState.{flags_from};
ghost use Rattle.mac_base.specs.HeadKind.{head_size};
ghost use Rattle.zone_look.specs.Head.{head_in, tag_in};

use byteorder::{BigEndian, ByteOrder};
use mac_base::block::{Flags, HeadKind};

/// What a tag says.
#[derive(Clone, Copy, Debug, PartialEq, Eq)]
pub(crate) enum Tag {
    Free,
    Fixed,
    Master,
    Relocatable,
    None,
}

impl Tag {
    ghost use Rattle.std.specs.Prelude.{◌≡◌};
    ghost use Rattle.zone_look.specs.Head.{is_free};

    /// Whether it is a free block's.
    pub(crate) fn is_free(self) -> bool
        ensures { result ≡ is_free self }
    {
        match self {
            Tag::Free => true,
            Tag::Fixed | Tag::Master | Tag::Relocatable | Tag::None => false,
        }
    }
}

/// A block's header: what it is, the byte with flags, the size correction, the physical size, and the last word.
#[derive(Clone, Copy, Debug, PartialEq, Eq)]
pub(crate) struct Head {
    pub(crate) tag: Tag,
    pub(crate) flags: u32,
    pub(crate) correction: u32,
    pub(crate) size: u32,
    pub(crate) word: u32,
}

/// What a tag says.
fn tag_in(byte: u32) -> Tag
    ensures { result ≡ tag_in byte }
{
    if byte < 64 {
        Tag::Free
    } else if byte < 128 {
        if byte / 16 % 2 == 1 {
            Tag::Master
        } else {
            Tag::Fixed
        }
    } else if byte < 192 {
        Tag::Relocatable
    } else {
        Tag::None
    }
}

/// The header at the front of these bytes.
pub(crate) fn head_in(heads: HeadKind, bytes: &[u8]) -> Head
    requires { head_size heads ≤ length bytes.now }
    ensures head { result ≡ head_in heads bytes.now }
    ensures few { result.correction < 256 }
{
    let first = BigEndian::read_u32(bytes);
    let tag = tag_in(first / 0x100_0000);
    match heads {
        HeadKind::Bits24 => Head {
            tag,
            flags: 0,
            correction: first / 0x100_0000 % 16,
            size: first % 0x100_0000,
            word: BigEndian::read_u32(&bytes[4..]),
        },
        HeadKind::Bits32 => Head {
            tag,
            flags: first / 0x1_0000 % 256,
            correction: first % 256,
            size: BigEndian::read_u32(&bytes[4..]),
            word: BigEndian::read_u32(&bytes[8..]),
        },
    }
}

/// The flags that a byte says.
pub(crate) fn flags_from(byte: u32) -> Flags
    ensures { result ≡ flags_from byte }
{
    Flags {
        lock: byte / 128 % 2 == 1,
        purge: byte / 64 % 2 == 1,
        resource: byte / 32 % 2 == 1,
    }
}
