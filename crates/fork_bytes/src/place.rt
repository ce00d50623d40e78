//! Where the bytes of a resource are.

use mac_base::resource::Resource;

/// Where in a fork the bytes of a resource are, and how many there are. Their four bytes of length are before them.
#[derive(Clone, Copy, Debug, PartialEq, Eq)]
pub struct Place {
    pub offset: u32,
    pub length: u32,
}

/// A resource whose bytes are at a place of the fork.
pub type PlacedRow = Resource<Place>;
