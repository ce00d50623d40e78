//! Why a container isn't read.

use crate::part::Part;
use std::fmt;
use thiserror::Error;

/// Which fork of a file.
#[derive(Clone, Copy, Debug, PartialEq, Eq)]
pub enum Fork {
    Data,
    Resource,
}

impl Fork {
    /// Where in MacBinary's header the length of the fork is.
    fn length_place(self) -> usize {
        match self {
            Fork::Data => 83,
            Fork::Resource => 87,
        }
    }
}

impl fmt::Display for Fork {
    fn fmt<W: fmt::Write>(&self, f: &mut fmt::Formatter<W>) -> fmt::Result {
        f.write_str(match self {
            Fork::Data => "data fork",
            Fork::Resource => "resource fork",
        })
    }
}

/// An entry of AppleSingle or AppleDouble: where in the list it is, its id, and where its bytes are.
#[derive(Clone, Copy, Debug, PartialEq, Eq)]
pub struct Entry {
    pub at: usize,
    pub id: u32,
    pub part: Part,
}

/// Why a container isn't read: the first of these conditions that is met. `length` is how many bytes the file has.
#[derive(Clone, Copy, Debug, PartialEq, Eq, Error)]
pub enum ContainerFault {
    /// The file has fewer bytes than the header: 26 of AppleSingle and AppleDouble, 128 of MacBinary.
    #[error("the file ends within the container's header: it has {length} of {needed} bytes")]
    EndsInHeader {
        needed: usize,
        length: usize,
    },
    /// AppleSingle or AppleDouble is of another version than 1 and 2.
    #[error("the version at offset 4 is ${0:08X}, and only $00010000 and $00020000 are known")]
    UnknownVersion(u32),
    /// The list of entries ends outside the file.
    #[error("the {count} entries that offset 24 calls for end outside the file, which has {length} bytes")]
    EntriesOutside {
        count: u16,
        length: usize,
    },
    /// An entry has bytes outside the file: the first in the list.
    #[error("entry {id}, listed at offset {at}, has {count} bytes from offset {offset} on, and the file has {length}", id = entry.id, at = entry.at, count = entry.part.length, offset = entry.part.offset)]
    EntryOutside {
        entry: Entry,
        length: usize,
    },
    /// The checksum in the header of MacBinary II or III isn't that of the 124 bytes before it.
    #[error("the checksum at offset 124 is ${stored:04X}, and that of the header is ${computed:04X}")]
    ChecksumDiffers {
        stored: u16,
        computed: u16,
    },
    /// A fork in MacBinary has bytes outside the file. The data fork comes first.
    #[error("the {fork}, whose length is at offset {at}, has {count} bytes from offset {offset} on, and the file has {length}", at = fork.length_place(), count = part.length, offset = part.offset)]
    ForkOutside {
        fork: Fork,
        part: Part,
        length: usize,
    },
}
