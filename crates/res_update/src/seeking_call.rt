//! The calls that seek a resource otherwise than by its id.

use mac_base::Span;
use mac_base::resource::ResType;

/// A call that seeks a resource otherwise than by its id, and gets it as GetResource does. Scripts have none of these.
/// Letters of a name that differ only in case are the same, and those that differ in their diacritical marks aren't
/// (Inside Macintosh: More Macintosh Toolbox, chapter 1, "Getting and Reading Resources").
#[derive(Drop)]
pub enum SeekingCall<'a> {
    /// The first resource of a type with a name: from the current file on.
    GetNamedResource { kind: ResType, name: Span<'a> },
    /// The same, in the current file alone.
    Get1NamedResource { kind: ResType, name: Span<'a> },
    /// The resource of a type with this index, from 1 on, in all open files, whichever is the current one: those of the
    /// file that was opened last come first.
    GetIndResource { kind: ResType, index: u32 },
}
