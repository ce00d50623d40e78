//! The header of a block.

ghost use Rattle.std.specs.Prelude.{◌≡◌, ℕ, ◌≤◌, ◌↔◌, IsTrue, length};
ghost use Rattle.byteorder.specs.Endian.{big_bytes};
ghost use Rattle.mac_base.specs.HeadKind.{head_size};
ghost use Rattle.block_bytes.specs.Head.{flags_byte, flags_in, header_in, role_in};
ghost use Rattle.block_bytes.specs.Structure.{is_master};

use byteorder::{BigEndian, ByteOrder};
use mac_base::block::{Flags, HeadKind};

/// What the index has at the place of a block that is used, and not lent.
pub(crate) const USED_MARK: u8 = 1;

/// What it has at that of a lent one.
pub(crate) const LENT_MARK: u8 = 2;

/// What it has at that of a free one.
pub(crate) const FREE_MARK: u8 = 3;

/// What a block's header says it is for.
#[derive(Clone, Copy, Debug, PartialEq, Eq)]
pub enum Role {
    /// The block is free.
    Free,
    /// A nonrelocatable block.
    Fixed,
    /// A master block, which doesn't move either.
    Master,
    /// A relocatable block, whose master pointer is so many bytes from the zone's start, and the flags that the
    /// header says: none in a zone of 24-bit blocks.
    Relocatable(u32, Flags),
}

impl Role {
    ghost use Rattle.std.specs.Prelude.{◌≡◌, ◌<◌, ◌≤◌, ◌^◌};
    ghost use Rattle.block_bytes.specs.Head.{tag_of, flags_of, word_of, role_in};
    ghost use Rattle.block_bytes.specs.Structure.{is_master};

    /// Whether the block is a master block.
    pub(crate) fn is_master(self) -> bool
        ensures { result ≡ is_master self }
    {
        match self {
            Role::Master => true,
            Role::Free | Role::Fixed | Role::Relocatable(_, _) => false,
        }
    }

    /// The header's tag, with this in its low bits.
    pub(crate) fn tag(self, low: u32) -> u32
        requires { low ≤ 15 }
        ensures { result ≡ tag_of self low }
    {
        match self {
            Role::Free => low,
            Role::Fixed => 64 + low,
            Role::Master => 80 + low,
            Role::Relocatable(_, _) => 128 + low,
        }
    }

    /// The flags that the header says.
    pub fn flags(self) -> Flags
        ensures { result ≡ flags_of self }
    {
        match self {
            Role::Free | Role::Fixed | Role::Master => Flags::NONE,
            Role::Relocatable(_, flags) => flags,
        }
    }

    /// The header's last word, in a zone that begins at `base`.
    pub(crate) fn word(self, base: u32) -> u32
        ensures { result ≡ word_of base self }
    {
        match self {
            Role::Free => 0,
            Role::Fixed | Role::Master => base,
            Role::Relocatable(slot, _) => slot,
        }
    }

    /// What a tag, a byte of flags and a header's last word say.
    pub(crate) fn read(tag: u32, flags: u32, word: u32) -> Role
        ensures { result ≡ role_in tag flags word }
    {
        if tag < 64 {
            Role::Free
        } else if tag < 128 {
            if tag / 16 % 2 == 1 {
                Role::Master
            } else {
                Role::Fixed
            }
        } else {
            Role::Relocatable(word, flags_in(flags))
        }
    }
}

/// Flags as a byte of a header.
pub(crate) fn flags_byte(flags: Flags) -> u32
    ensures { result ≡ flags_byte flags }
{
    let lock = if flags.lock { 128 } else { 0 };
    let purge = if flags.purge { 64 } else { 0 };
    let resource = if flags.resource { 32 } else { 0 };
    lock + purge + resource
}

/// The flags that a byte of a header says.
fn flags_in(byte: u32) -> Flags
    ensures { result ≡ flags_in byte }
{
    Flags {
        lock: byte >= 128,
        purge: byte / 64 % 2 == 1,
        resource: byte / 32 % 2 == 1,
    }
}

/// Whether four bytes are the same as four others.
fn are_four_same(first: &[u8], second: &[u8]) -> bool
    requires first { length first.now ≡ 4 }
    requires second { length second.now ≡ 4 }
    ensures { IsTrue result ↔ first.now ≡ second.now }
{
    BigEndian::read_u32(first) == BigEndian::read_u32(second)
}

/// Whether eight bytes are the same as eight others.
fn are_eight_same(first: &[u8], second: &[u8]) -> bool
    requires first { length first.now ≡ 8 }
    requires second { length second.now ≡ 8 }
    ensures { IsTrue result ↔ first.now ≡ second.now }
{
    BigEndian::read_u64(first) == BigEndian::read_u64(second)
}

/// Whether four bytes are those of a number.
fn are_bytes_of(bytes: &[u8], number: u32) -> bool
    requires { length bytes.now ≡ 4 }
    ensures { IsTrue result ↔ bytes.now ≡ big_bytes 4 number }
{
    let mut four = [0; 4];
    BigEndian::write_u32(&mut four, number);
    are_four_same(bytes, &four)
}

/// Whether two block headers are the same bytes.
pub(crate) fn is_same(heads: HeadKind, first: &[u8], second: &[u8]) -> bool
    requires first { length first.now ≡ head_size heads }
    requires second { length second.now ≡ head_size heads }
    ensures { IsTrue result ↔ first.now ≡ second.now }
{
    match heads {
        HeadKind::Bits24 => are_eight_same(first, second),
        HeadKind::Bits32 => {
            are_eight_same(&first[..8], &second[..8]) && are_four_same(&first[8..], &second[8..])
        }
    }
}

/// What a walk over the blocks takes from a header: the block's size, and whether it is a master block.
#[derive(Clone, Copy, Debug, PartialEq, Eq)]
pub(crate) struct Step {
    pub(crate) size: u32,
    pub(crate) is_master: bool,
}

/// Whether a header's tag is a master block's.
fn is_master_tag(tag: u32) -> bool
    ensures { (flags word : ℕ) → result ≡ is_master (role_in tag flags word) }
{
    64 <= tag && tag < 128 && tag / 16 % 2 == 1
}

/// What a walk takes from a header.
pub(crate) fn step_in(heads: HeadKind, bytes: &[u8]) -> Step
    requires { length bytes.now ≡ head_size heads }
    ensures size { result.size ≡ (header_in heads bytes.now).size }
    ensures is_master { result.is_master ≡ is_master (header_in heads bytes.now).role }
{
    let first = BigEndian::read_u32(bytes);
    let size = match heads {
        HeadKind::Bits24 => first % 0x100_0000,
        HeadKind::Bits32 => BigEndian::read_u32(&bytes[4..]),
    };
    Step {
        size,
        is_master: is_master_tag(first / 0x100_0000),
    }
}

/// A block's header: the block's physical size in bytes, its header included; what the block is for; and the size
/// correction, which is how many bytes at its end are over.
#[derive(Clone, Copy, Debug, PartialEq, Eq)]
pub struct Header {
    pub size: u32,
    pub role: Role,
    pub correction: u32,
}

impl Header {
    ghost use Rattle.std.specs.Prelude.{◌≡◌, ◌<◌, ◌≤◌, ◌↔◌, length, IsTrue};
    ghost use Rattle.mac_base.specs.HeadKind.{address_end, head_size};
    ghost use Rattle.block_bytes.specs.Adopting.{Fits};
    ghost use Rattle.block_bytes.specs.Head.{head_bytes, most_over};
    ghost use Rattle.block_bytes.specs.Layout.{is_free};
    ghost use Rattle.block_bytes.specs.Record.{own_most};
    ghost use Rattle.block_bytes.specs.Starts.{free_mark, mark_in, free_in};

    /// Whether the block is free.
    pub(crate) fn is_free(self) -> bool
        ensures { result ≡ is_free self.role }
    {
        match self.role {
            Role::Free => true,
            Role::Fixed | Role::Master | Role::Relocatable(_, _) => false,
        }
    }

    /// What the index has at the block's place, unless it is lent.
    pub(crate) fn mark(self) -> u8
        ensures value { result ≡ mark_in self }
        ensures most { result ≤ free_mark }
    {
        match self.role {
            Role::Free => FREE_MARK,
            Role::Fixed | Role::Master | Role::Relocatable(_, _) => USED_MARK,
        }
    }

    /// How many bytes are free by the block: all of it, or none.
    pub(crate) fn free_bytes(self) -> u32
        ensures { result ≡ free_in self }
    {
        match self.role {
            Role::Free => self.size,
            Role::Fixed | Role::Master | Role::Relocatable(_, _) => 0,
        }
    }

    /// How many bytes from the block's front on those are among that are the zone's own: the header, and of a master
    /// block the contents too.
    pub(crate) fn own_size(self, heads: HeadKind) -> u32
        ensures { result ≡ own_most heads self }
    {
        if self.role.is_master() {
            self.size
        } else {
            heads.head_size()
        }
    }

    /// Whether a block can have this header where so many bytes are left.
    pub(crate) fn fits(self, heads: HeadKind, left: usize) -> bool
        ensures { IsTrue result ↔ Fits heads left self }
    {
        self.size % 4 == 0
            && heads.smallest_block() <= self.size
            && self.size as usize <= left
            && self.correction <= self.size - heads.head_size()
            && (self.correction == 0 || !self.is_free())
    }

    /// Whether these bytes are those of the header, in a zone that begins at `base`.
    pub(crate) fn has_bytes(self, heads: HeadKind, base: u32, bytes: &[u8]) -> bool
        requires size { self.size < address_end heads }
        requires correction { self.correction ≤ most_over heads }
        requires long { length bytes.now ≡ head_size heads }
        ensures { IsTrue result ↔ bytes.now ≡ head_bytes heads base self }
    {
        let word = self.role.word(base);
        match heads {
            HeadKind::Bits24 => {
                let tag = self.role.tag(self.correction);
                are_bytes_of(&bytes[..4], tag * 0x100_0000 + self.size)
                    && are_bytes_of(&bytes[4..], word)
            }
            HeadKind::Bits32 => {
                let tag = self.role.tag(0);
                let flags = flags_byte(self.role.flags());
                let first = tag * 0x100_0000 + flags * 0x1_0000 + self.correction;
                are_bytes_of(&bytes[..4], first)
                    && are_bytes_of(&bytes[4..8], self.size)
                    && are_bytes_of(&bytes[8..], word)
            }
        }
    }
}
