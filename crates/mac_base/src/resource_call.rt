//! The calls of the Resource Manager.

use crate::handle::Handle;
use crate::memory_call::Span;
use crate::resource::ResType;

/// A call of the Resource Manager with its operands. Ids are as they were given, in range or not. A file goes by its
/// number, and where it may be left out, the current one is meant then (Inside Macintosh: More Macintosh Toolbox,
/// chapter 1).
#[derive(Drop)]
pub enum ResourceCall<'a> {
    /// A call that gets or loads a resource.
    Getting(GettingCall),
    /// A call that returns what the open files say.
    Looking(LookingCall),
    /// A call that changes what the open files say, or how later calls go.
    Changing(ChangingCall),
    /// A call that writes a file, or a row of one.
    Writing(WritingCall),
    /// Opens the file of a number, and makes it the current one (Opening and Closing Resource Forks).
    OpenResFile(u32),
    /// Makes a handle's block a new resource of the current file (Adding and Removing).
    AddResource {
        handle: Handle,
        kind: ResType,
        id: i64,
        name: Option<Span<'a>>,
    },
    /// The id, the type and the name of a resource (Getting and Setting Resource Information).
    GetResInfo(Handle),
}

/// A call that gets or loads a resource.
#[derive(Clone, Copy)]
pub enum GettingCall {
    /// The handle of a resource, loaded: from the current file on (Getting and Reading Resources).
    GetResource { kind: ResType, id: i64 },
    /// The same, in the current file alone.
    Get1Resource { kind: ResType, id: i64 },
    /// The handle of the resource of a type with this index, from 1 on, in the current file (Counting and Listing
    /// Resource Types and IDs).
    GetIndResource { kind: ResType, index: u32 },
    /// Loads the resource of a handle again, where it has no block.
    LoadResource(Handle),
}

/// A call that returns what the open files say.
#[derive(Clone, Copy)]
pub enum LookingCall {
    /// The attributes of a resource (Getting and Setting Resource Information).
    GetResAttrs(Handle),
    /// How many bytes a resource has on the disk.
    SizeResource(Handle),
    /// The file of a resource.
    HomeResFile(Handle),
    /// An id that no resource of a type has in the current file.
    UniqueID(ResType),
    /// How many types the current file has.
    CountTypes,
    /// How many resources of a type the current file has.
    CountResources(ResType),
    /// The type of the current file with this index, from 1 on.
    GetIndType(u32),
    /// The number of the current file, or 0 (Getting and Setting the Current Resource File).
    CurResFile,
}

/// A call that changes what the open files say, or how later calls go.
#[derive(Clone, Copy)]
pub enum ChangingCall {
    /// Disposes of a resource's handle, unless it was changed (Disposing of Resources).
    ReleaseResource(Handle),
    /// Makes a handle an ordinary one: the resource forgets it.
    DetachResource(Handle),
    /// Takes a resource out of its file; its handle stays (Adding and Removing).
    RemoveResource(Handle),
    /// Marks a resource as changed: the next update writes it (Modifying Resources).
    ChangedResource(Handle),
    /// Sets the attributes of a resource; whether it was changed stays (Getting and Setting Resource Information).
    SetResAttrs { handle: Handle, attributes: u32 },
    /// Whether the calls that get a resource load it, too: any number but 0.
    SetResLoad(u32),
    /// Makes an open file the current one (Getting and Setting the Current Resource File).
    UseResFile(u32),
}

/// A call that writes a file, or a row of one.
#[derive(Clone, Copy)]
pub enum WritingCall {
    /// Writes a changed resource (Writing to Resource Forks).
    WriteResource(Handle),
    /// Writes all changed resources of a file.
    UpdateResFile(Option<u32>),
    /// Updates a file and closes it: the handles of its resources are disposed of (Opening and Closing Resource Forks).
    CloseResFile(Option<u32>),
}
