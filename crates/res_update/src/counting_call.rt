//! The calls that say what all open files have together.

use mac_base::resource::ResType;

/// A call that says what all open files have together, whichever is the current one. Scripts have none of these: their
/// calls of these names look in the current file alone (Inside Macintosh: More Macintosh Toolbox, chapter 1, "Counting
/// and Listing Resource Types" and "Getting a Unique Resource ID").
#[derive(Clone, Copy, Debug)]
pub enum CountingCall {
    /// How many types they have: one that several files have counts once.
    CountTypes,
    /// The type with this index, from 1 on.
    GetIndType(u32),
    /// How many resources of a type they have.
    CountResources(ResType),
    /// The least id from 128 on that no resource of a type has in any of them.
    UniqueId(ResType),
}
