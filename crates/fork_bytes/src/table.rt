//! The resources of a fork.

ghost use Rattle.std.specs.Prelude.{◌≡◌};

use mac_base::resource::Resource;
use std::marker::Model;

/// The bytes of a resource where they are: in a fork that was read, or in what a fork is to be written of. A contract
/// sees the list.
#[derive(Drop)]
pub struct Contents<'a> {
    bytes: &'a [u8],
}

impl<'a> Model for Contents<'a> {
    ghost use Rattle.std.specs.Prelude.{List, ℕ};

    ghost Value = { List ℕ };

    ghost view = { λ c. c.bytes.now };
}

impl<'a> Contents<'a> {
    /// These bytes.
    pub fn new(bytes: &'a [u8]) -> Contents<'a>
        ensures { result ≡ bytes.now }
    {
        Contents { bytes }
    }

    /// The bytes, first to last.
    pub fn as_slice(&self) -> &'a [u8]
        ensures { result.now ≡ self.now }
    {
        self.bytes
    }
}

/// A resource with its bytes.
pub type Row<'a> = Resource<Contents<'a>>;

/// The resources of a fork, in the order of its map. A contract sees the list.
#[derive(Drop)]
pub struct Rows<'a> {
    rows: Vec<Row<'a>>,
}

impl<'a> Model for Rows<'a> {
    ghost use Rattle.std.specs.Prelude.{List};
    ghost use Rattle.fork_bytes.specs.Rows.{Row};

    ghost Value = { List Row };

    ghost view = { λ r. r.rows.items };
}

impl<'a> Rows<'a> {
    /// The rows of a vector.
    pub fn new(rows: Vec<Row<'a>>) -> Rows<'a>
        ensures { result ≡ rows.entry.items }
    {
        Rows { rows }
    }

    /// The rows, first to last.
    pub fn as_slice(&self) -> &[Row<'a>]
        ensures { result.now ≡ self.now }
    {
        &self.rows
    }

    /// The vector of the rows.
    pub fn into_vec(self) -> Vec<Row<'a>>
        ensures { result.items ≡ self.entry }
    {
        self.rows
    }
}

/// What a resource fork holds (Inside Macintosh: More Macintosh Toolbox, chapter 1).
#[derive(Drop)]
pub struct Table<'a> {
    /// The resources. Those of one type are together.
    pub rows: Rows<'a>,
    /// The 112 bytes for the system and the 128 for the application.
    pub extra: [u8; 240],
    /// The attributes of the map.
    pub map_attributes: u16,
}
