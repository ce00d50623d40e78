//! What a walk over the blocks of a zone finds.

use crate::handle::{Handle, Ptr};

/// How the blocks of a zone are headed.
#[derive(Clone, Copy, Debug, PartialEq, Eq)]
pub enum HeadKind {
    /// 24-bit blocks: 8 bytes of header, 12 bytes at least.
    Bits24,
    /// 32-bit blocks: 12 bytes of header, 16 bytes at least.
    Bits32,
}

impl HeadKind {
    ghost use Rattle.std.specs.Prelude.{◌≡◌};
    ghost use Rattle.mac_base.specs.HeadKind.{address_end, head_size, smallest_block};

    /// The bytes of a block's header.
    pub fn head_size(self) -> u32
        ensures { result ≡ head_size self }
    {
        match self {
            HeadKind::Bits24 => 8,
            HeadKind::Bits32 => 12,
        }
    }

    /// The physical size of the smallest block, in bytes.
    pub fn smallest_block(self) -> u32
        ensures { result ≡ smallest_block self }
    {
        match self {
            HeadKind::Bits24 => 12,
            HeadKind::Bits32 => 16,
        }
    }

    /// The address beyond which no zone of such blocks ends.
    pub fn address_end(self) -> u32
        ensures { result ≡ address_end self }
    {
        match self {
            HeadKind::Bits24 => 0x100_0000,
            HeadKind::Bits32 => u32::MAX,
        }
    }
}

/// What a block is for.
#[derive(Clone, Copy, Debug, PartialEq, Eq)]
pub enum Kind {
    /// The block is free.
    Free,
    /// A master block: 64 master pointers, which no call names.
    Master,
    /// A nonrelocatable block: the one whose contents begin at this pointer.
    Ptr(Ptr),
    /// A relocatable block: the one of this handle.
    Rel(Handle),
}

impl Kind {
    ghost use Rattle.std.specs.Prelude.{◌≡◌};
    ghost use Rattle.mac_base.specs.ZoneMap.{is_free, is_named};

    /// Whether a block is free.
    pub fn is_free(self) -> bool
        ensures { result ≡ is_free self }
    {
        match self {
            Kind::Free => true,
            Kind::Master | Kind::Ptr(_) | Kind::Rel(_) => false,
        }
    }

    /// Whether this number, of a handle or a pointer, names the block.
    pub fn is_named(self, number: u32) -> bool
        ensures { result ≡ is_named number self }
    {
        match self {
            Kind::Free | Kind::Master => false,
            Kind::Ptr(pointer) => pointer.number() == number,
            Kind::Rel(handle) => handle.number() == number,
        }
    }
}

/// A block of the zone: its physical size in bytes, header included, and what it is for.
#[derive(Clone, Copy, Debug, PartialEq, Eq)]
pub struct Entry {
    pub size: u32,
    pub kind: Kind,
}

impl Entry {
    ghost use Rattle.std.specs.Prelude.{◌≡◌};
    ghost use Rattle.mac_base.specs.ZoneMap.{has_free};

    /// Whether the block is free and has at least so many bytes.
    pub fn has_free(self, needed: u32) -> bool
        ensures { result ≡ has_free needed self }
    {
        self.kind.is_free() && needed <= self.size
    }
}

/// The flags of a handle, which are in its master pointer.
#[derive(Clone, Copy, Debug, PartialEq, Eq)]
pub struct Flags {
    pub lock: bool,
    pub purge: bool,
    pub resource: bool,
}

impl Flags {
    /// No flag is set, as for a new handle and for an empty one.
    pub const NONE: Flags = Flags {
        lock: false,
        purge: false,
        resource: false,
    };
}

/// A block as a walk over the zone reports it: its header's address, its size and kind, and the bytes of contents and
/// the flags that its owner has. A block without an owner has no contents and no flags.
#[derive(Clone, Copy, Debug, PartialEq, Eq)]
pub struct Block {
    pub address: u32,
    pub entry: Entry,
    pub length: u32,
    pub flags: Flags,
}

/// What a number is to a call that reads or writes the bytes of a block.
#[derive(Clone, Copy, Debug, PartialEq, Eq)]
pub enum Status {
    /// No live handle or pointer has this number.
    NotLive,
    /// The number is a live handle that is empty.
    Empty,
    /// The block is lent.
    Lent,
    /// The number has a block, and it isn't lent.
    Full,
}
