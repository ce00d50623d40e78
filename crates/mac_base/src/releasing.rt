//! The calls that release a block.

use crate::handle::{Handle, Ptr};

/// A call that releases the block of a handle or a pointer. An answer of the grow-zone procedure has such calls.
#[derive(Clone, Copy)]
pub enum ReleasingCall {
    /// DisposeHandle: the handle is gone, and its block, if it has one, is free.
    DisposesHandle(Handle),
    /// DisposePtr: the pointer is gone, and its block is free.
    DisposesPtr(Ptr),
    /// EmptyHandle: the handle stays, and its block, if it has one, is free.
    Empties(Handle),
}
