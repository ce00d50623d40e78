//! Ends of calls on some of a resource's bytes.

use mac_base::error::OsErr;

/// How a call ends that reads or writes some of the bytes that a resource has in its file, or sets how many it has
/// there. Scripts have no such calls (Inside Macintosh: More Macintosh Toolbox, chapter 1, "Reading and Writing Partial
/// Resources").
#[derive(Clone, Copy, Debug, PartialEq, Eq)]
pub enum PartialEnd {
    /// It was done, and no warning is given (noErr).
    Done,
    /// resourceInMemory: it was done, and the resource is in memory, where it may have other bytes.
    InMemory,
    /// inputOutOfBounds: the resource doesn't have all these bytes in its file; or where some are to be written, it
    /// ends there before the first of them.
    OutOfBounds,
    /// The call is refused by another code: resFNotFound, resNotFound, dskFulErr, or ioErr.
    Refused(OsErr),
}
