//! The room that purging would make.

/// What would be free in a zone if all blocks that may be purged were, in bytes of whole blocks (Inside Macintosh:
/// Memory, chapter 2, "Assessing Memory Conditions").
#[derive(Clone, Copy, Debug, PartialEq, Eq)]
pub struct PurgeSpace {
    /// The free bytes together with those of all blocks that may be purged.
    pub total: u32,
    /// The most of both that one gap has.
    pub contiguous: u32,
}
