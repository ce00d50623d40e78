//! The calls that lend blocks.

use crate::memory_call::Span;

/// A call on a block that is lent or is to be lent, which is given by its number. Who has the loan of a block has its
/// bytes: the zone reads and writes none of them until they come back. Offsets and counts are bytes. The Macintosh has
/// no such calls: a loan is what a program does that works on the bytes of a locked block itself (Inside Macintosh:
/// Memory, Relocatable Blocks).
#[derive(Drop)]
pub enum LoanCall<'a> {
    /// Lends a nonrelocatable block or that of a locked handle.
    Lend(u32),
    /// Shows bytes of a lent block, from an offset on.
    LentPeek {
        block: u32,
        offset: u32,
        count: u32,
    },
    /// Writes bytes into a lent block, from an offset on.
    LentPoke {
        block: u32,
        offset: u32,
        bytes: Span<'a>,
    },
    /// Gives a lent block back.
    Return(u32),
}
