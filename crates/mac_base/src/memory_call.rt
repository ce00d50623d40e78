//! The calls of the Memory Manager.

use crate::handle::{Handle, Ptr};
use std::marker::Model;

/// Bytes that a call is given. A contract sees the list.
#[derive(Drop)]
pub struct Span<'a> {
    bytes: &'a [u8],
}

impl<'a> Model for Span<'a> {
    ghost use Rattle.std.specs.Prelude.{List, ℕ};

    ghost Value = { List ℕ };

    ghost view = { λ s. s.bytes.now };
}

impl<'a> Span<'a> {
    ghost use Rattle.std.specs.Prelude.{◌≡◌};

    /// These bytes.
    pub fn new(bytes: &'a [u8]) -> Span<'a>
        ensures { result ≡ bytes.now }
    {
        Span { bytes }
    }

    /// The bytes, first to last.
    pub fn as_slice(&self) -> &'a [u8]
        ensures { result.now ≡ self.now }
    {
        self.bytes
    }
}

/// A call of the Memory Manager with its operands, by what it may need. Sizes, offsets and counts are bytes. A block that
/// a call only reads or writes is given by its number, which is that of a handle or a pointer (Inside Macintosh:
/// Memory).
#[derive(Drop)]
pub enum MemoryCall<'a> {
    /// It requests a block, or another size or place for one, and may ask the grow-zone procedure.
    Requesting(RequestingCall),
    /// It does so for bytes, and fills the block with them.
    Filling(FillingCall<'a>),
    /// It is on a block, and requests none.
    OnBlock(BlockCall<'a>),
    /// It is on the zone as a whole, and requests no block.
    OnZone(ZoneCall),
    /// It gives a copy of what the zone has.
    Showing(ShowingCall),
}

/// The calls that request a block without bytes of its own, or another size or place for one.
#[derive(Drop)]
pub enum RequestingCall {
    /// A new relocatable block of so many zero bytes (Allocating and Releasing Relocatable Blocks of Memory).
    NewHandle(u32),
    /// A new nonrelocatable block of so many zero bytes (Allocating and Releasing Nonrelocatable Blocks of Memory).
    NewPtr(u32),
    /// Makes room for a block of so many bytes as low as can be (Freeing Memory).
    ReserveMem(u32),
    /// A new handle without a block (Allocating and Releasing Relocatable Blocks of Memory).
    NewEmptyHandle,
    /// A new master block (Setting Up the Application Heap).
    MoreMasters,
    /// Gives a handle's block a size (Changing the Sizes of Relocatable and Nonrelocatable Blocks).
    SetHandleSize(Handle, u32),
    /// Gives a pointer's block a size (Changing the Sizes of Relocatable and Nonrelocatable Blocks).
    SetPtrSize(Ptr, u32),
    /// Gives a handle a new block of a size, in place of the one that it has (Managing Relocatable Blocks).
    ReallocateHandle(Handle, u32),
}

/// The calls that request a block for bytes, or another size for one, and fill it with them.
#[derive(Drop)]
pub enum FillingCall<'a> {
    /// A new handle whose block has the bytes of this one's (Manipulating Blocks of Memory).
    HandToHand(Handle),
    /// A new handle whose block has so many bytes of a pointer's (Manipulating Blocks of Memory).
    PtrToHand(Ptr, u32),
    /// Adds the bytes of the first handle's block to those of the second's (Manipulating Blocks of Memory).
    HandAndHand(Handle, Handle),
    /// Gives a handle so many bytes of a pointer's block, in place of its own (Manipulating Blocks of Memory).
    PtrToXHand(Ptr, Handle, u32),
    /// Adds so many bytes of a pointer's block to those of a handle's (Manipulating Blocks of Memory).
    PtrAndHand(Ptr, Handle, u32),
    /// A new handle whose block has these bytes, which come from outside the zone: a PtrToHand of them (Manipulating
    /// Blocks of Memory).
    NewHandleOf(Span<'a>),
    /// Gives a handle these bytes, which come from outside the zone, in place of its own: a PtrToXHand of them
    /// (Manipulating Blocks of Memory).
    SetHandleTo(Handle, Span<'a>),
    /// Adds these bytes, which come from outside the zone, to those of a handle's block: a PtrAndHand of them
    /// (Manipulating Blocks of Memory).
    Append(Handle, Span<'a>),
}

/// The calls on blocks and handles that request none.
#[derive(Drop)]
pub enum BlockCall<'a> {
    /// Disposes of a handle and its block (Allocating and Releasing Relocatable Blocks of Memory).
    DisposeHandle(Handle),
    /// Frees a handle's block, and keeps the handle (Managing Relocatable Blocks).
    EmptyHandle(Handle),
    /// The size of a handle's block (Changing the Sizes of Relocatable and Nonrelocatable Blocks).
    GetHandleSize(Handle),
    /// Locks a handle's block (Setting the Properties of Relocatable Blocks).
    HLock(Handle),
    /// Unlocks a handle's block (Setting the Properties of Relocatable Blocks).
    HUnlock(Handle),
    /// Says that a handle's block may be purged (Setting the Properties of Relocatable Blocks).
    HPurge(Handle),
    /// Says that a handle's block may not be purged (Setting the Properties of Relocatable Blocks).
    HNoPurge(Handle),
    /// Says that a handle's block is a resource (Setting the Properties of Relocatable Blocks).
    HSetRBit(Handle),
    /// Says that a handle's block is no resource (Setting the Properties of Relocatable Blocks).
    HClrRBit(Handle),
    /// The flags of a handle's block as a number (Setting the Properties of Relocatable Blocks).
    HGetState(Handle),
    /// Moves a handle's block up as far as it goes (Managing Relocatable Blocks).
    MoveHHi(Handle),
    /// Moves a handle's block up as far as it goes, and locks it (Managing Relocatable Blocks).
    HLockHi(Handle),
    /// The address at which the contents of a handle's block begin (Relocatable Blocks).
    Deref(Handle),
    /// Disposes of a pointer's block (Allocating and Releasing Nonrelocatable Blocks of Memory).
    DisposePtr(Ptr),
    /// The size of a pointer's block (Changing the Sizes of Relocatable and Nonrelocatable Blocks).
    GetPtrSize(Ptr),
    /// The handle of the block whose contents begin at an address (Managing Relocatable Blocks).
    RecoverHandle(u32),
    /// Gives a handle's block the flags of a number (Setting the Properties of Relocatable Blocks).
    HSetState(Handle, u32),
    /// Writes bytes into a block, from an offset on.
    Poke {
        block: u32,
        offset: u32,
        bytes: Span<'a>,
    },
    /// Moves bytes of one block, from an offset on, over those of another (Manipulating Blocks of Memory).
    BlockMove {
        from: u32,
        start: u32,
        to: u32,
        offset: u32,
        count: u32,
    },
}

/// The calls on the zone as a whole that request no block.
#[derive(Drop)]
pub enum ZoneCall {
    /// Compacts the zone for a block of so many bytes (Freeing Memory).
    CompactMem(u32),
    /// Purges blocks until so many bytes are free in one block (Freeing Memory).
    PurgeMem(u32),
    /// Purges and compacts all of the zone (Freeing Memory).
    MaxMem,
    /// The bytes that purging would free, in all and in one block (Assessing Memory Conditions).
    PurgeSpace,
    /// The bytes that compacting would free in one block (Assessing Memory Conditions).
    MaxBlock,
    /// The free bytes (Assessing Memory Conditions).
    FreeMem,
    /// Grows the zone to its limit (Setting Up the Application Heap).
    MaxApplZone,
}

/// The calls that give a copy of what the zone has, for which the host needs memory.
#[derive(Drop)]
pub enum ShowingCall {
    /// Shows all blocks of the zone, lowest first.
    ZoneMap,
    /// Shows bytes of a block, from an offset on.
    Peek { block: u32, offset: u32, count: u32 },
}
