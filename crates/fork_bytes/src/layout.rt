//! The parts of a resource fork.

ghost use Rattle.std.specs.Prelude.{◌≡◌, ◌≤◌};
ghost use Rattle.fork_bytes.specs.Fork.{most_bytes, most_rows};

use mac_base::resource::{ResType, Resource};

/// The most bytes of a fork that macheap reads or writes: those of all its parts, and those of all its resources.
pub const MAX_FORK: usize = 0x40_0000;

/// The most resources of a fork that macheap reads or writes.
pub const MAX_ROWS: usize = 8192;

/// The most bytes of all resources of a fork that is read or written, each with its four bytes of length.
pub const MAX_BYTES: u32 = 0x1000_0000;

/// How many bytes of the map a reference has.
pub(crate) const REFERENCE_LENGTH: usize = 12;

/// What is asked of the lists of references of a map, which can have bytes in common.
#[derive(Clone, Copy)]
pub enum Lists {
    /// Nothing: a short map can list its references over and over.
    MayOverlap,
    /// They have together no more references than the map has room for: one for each 12 of its bytes.
    HaveRoom,
}

/// How much is read or written of a fork. A fork with more is refused.
#[derive(Clone, Copy)]
pub struct Limits {
    /// The most bytes of the whole fork.
    pub fork: u32,
    /// The most resources, however long the map is.
    pub rows: u32,
    /// Whether they are limited by the length of the map too.
    pub lists: Lists,
    /// The most bytes of all resources together, each with its four bytes of length.
    pub bytes: u32,
}

impl Limits {
    /// What macheap reads: `MAX_FORK` bytes, of the fork and of its resources, and `MAX_ROWS` resources.
    pub const MACHEAP: Limits = Limits {
        fork: MAX_FORK as u32,
        rows: MAX_ROWS as u32,
        lists: Lists::MayOverlap,
        bytes: MAX_FORK as u32,
    };

    /// What the format can say. The places in a header have four bytes, and those of resources in the data have three.
    /// Each resource has four bytes of length, and so many begin there at most that have no bytes in common. Each has 12
    /// bytes of the map too. How many bytes they have together is a bound of this project's own.
    pub const FORMAT: Limits = Limits {
        fork: 0xFFFF_FFFF,
        rows: 0x40_0000,
        lists: Lists::HaveRoom,
        bytes: MAX_BYTES,
    };

    /// The most resources of a fork with a map of so many bytes.
    pub fn most_rows(&self, map_length: usize) -> usize
        ensures { result ≡ most_rows self.now map_length }
    {
        let rows = self.rows as usize;
        match self.lists {
            Lists::MayOverlap => rows,
            Lists::HaveRoom => rows.min(map_length / REFERENCE_LENGTH),
        }
    }

    /// The most bytes of all resources of a fork with so many bytes of data, those of their lengths among them.
    pub fn most_bytes(&self, data_length: usize) -> usize
        ensures most { result ≡ most_bytes self.now data_length }
        ensures limit { result ≤ self.now.bytes }
    {
        let bytes = self.bytes as usize;
        match self.lists {
            Lists::MayOverlap => bytes,
            Lists::HaveRoom => bytes.min(MAX_FORK.max(data_length)),
        }
    }
}

/// The header of a fork: where its data and its map are, and how many bytes each has.
#[derive(Clone, Copy)]
pub struct Header {
    pub data_offset: u32,
    pub map_offset: u32,
    pub data_length: u32,
    pub map_length: u32,
}

/// A resource as the map lists it. The datum is where the four bytes of length are, from the start of the data; the
/// resource's bytes follow them.
pub type MapRow = Resource<u32>;

/// An entry of the type list: a type, and how many resources of it are together.
#[derive(Clone, Copy)]
pub struct TypeCount {
    pub kind: ResType,
    pub count: usize,
}
