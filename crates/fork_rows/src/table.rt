//! The resources of a fork that stays on its disk.

ghost use Rattle.std.specs.Prelude.{◌≡◌};

use fork_bytes::place::PlacedRow;
use std::marker::Model;

/// Resources with the places of their bytes, in the order of the map. A contract sees the list.
#[derive(Drop)]
pub struct PlacedRows {
    rows: Vec<PlacedRow>,
}

impl Model for PlacedRows {
    ghost use Rattle.std.specs.Prelude.{List};
    ghost use Rattle.fork_bytes.specs.Reading.{PlacedRow};

    ghost Value = { List PlacedRow };

    ghost view = { λ r. r.rows.items };
}

impl PlacedRows {
    /// The rows of a vector.
    pub fn new(rows: Vec<PlacedRow>) -> PlacedRows
        ensures { result ≡ rows.items }
    {
        PlacedRows { rows }
    }

    /// The rows, first to last.
    pub fn as_slice(&self) -> &[PlacedRow]
        ensures { result.now ≡ self.now }
    {
        &self.rows
    }

    /// The rows as a vector.
    pub fn into_vec(self) -> Vec<PlacedRow>
        ensures { result.items ≡ self }
    {
        self.rows
    }
}

/// What a resource fork holds, but for the bytes of its resources: of these it says where they are in the fork.
#[derive(Drop)]
pub struct PlacedTable {
    /// The resources, in the order of the map.
    pub rows: PlacedRows,
    /// The 112 bytes for the system and the 128 for the application.
    pub extra: [u8; 240],
    /// The attributes of the map.
    pub map_attributes: u16,
}
