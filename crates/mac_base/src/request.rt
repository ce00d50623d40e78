//! What a call asks of the zone.

use crate::handle::Handle;

/// A request for room in the zone. Sizes are bytes of contents. A block that gets another size is given by its number,
/// which is that of a handle or a pointer (Inside Macintosh: Memory, chapter 1, "How Heap Space Is Allocated").
#[derive(Clone, Copy)]
pub enum Request {
    /// A new handle with a block of so many bytes.
    NewBlock(u32),
    /// A new handle without a block.
    NewEmpty,
    /// A new pointer to so many bytes.
    NewPointer(u32),
    /// A master block.
    NewMaster,
    /// Room for a pointer to so many bytes, which stays free.
    Reserve(u32),
    /// So many bytes for a block.
    Resize(u32, u32),
    /// A new block of so many bytes for a handle in place of its old one, if it has one.
    Replace(Handle, u32),
}
