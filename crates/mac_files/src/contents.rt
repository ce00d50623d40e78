//! What a container says of a file.

use crate::part::Part;

/// What the Finder knows of a file.
#[derive(Clone, Copy, Debug, PartialEq, Eq)]
pub struct FinderInfo {
    /// The file's type, mostly four letters.
    pub kind: [u8; 4],
    /// The program that made the file.
    pub creator: [u8; 4],
    /// The Finder flags.
    pub flags: u16,
}

/// When a file was made and last changed, in seconds as the container counts them: MacBinary from the beginning of
/// 1904, AppleSingle and AppleDouble with a sign from the beginning of 2000.
#[derive(Clone, Copy, Debug, PartialEq, Eq)]
pub struct Dates {
    pub created: u32,
    pub modified: u32,
}

/// What a container says of a file. What it doesn't say is None.
#[derive(Clone, Copy, Debug, PartialEq, Eq)]
pub struct Contents {
    /// Where in the container the bytes of the resource fork are. A fork of no bytes is None.
    pub resource_fork: Option<Part>,
    /// Where in the container the bytes of the data fork are. A fork of no bytes is None.
    pub data_fork: Option<Part>,
    /// Where in the container the name of the file is.
    pub name: Option<Part>,
    /// Where in the container the comment of the Finder's Get Info is.
    pub comment: Option<Part>,
    pub finder: Option<FinderInfo>,
    pub dates: Option<Dates>,
}
