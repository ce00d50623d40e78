//! The calls that change a resource's bytes in its file alone.

use mac_base::Span;
use mac_base::handle::Handle;

/// A call that changes the bytes that a resource has in its file, and writes the file at once. Those that it has in
/// memory, and its attributes, stay. Scripts have none of these (Inside Macintosh: More Macintosh Toolbox, chapter 1,
/// "Reading and Writing Partial Resources").
#[derive(Drop)]
pub enum PatchingCall<'a> {
    /// The resource with a handle has this many bytes in its file: the first of those that it had, and then zeros.
    SetResourceSize(Handle, u32),
    /// The resource with a handle has these bytes in its file, from an offset on. Where they go past its end it gets
    /// longer.
    WritePartialResource {
        handle: Handle,
        offset: u32,
        bytes: Span<'a>,
    },
}
