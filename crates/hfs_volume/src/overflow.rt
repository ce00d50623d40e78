//! Records of the extents tree.

ghost use Rattle.std.specs.Prelude.{◌≡◌, ◌<◌, length};
ghost use Rattle.hfs_volume.specs.Overflow.{has_extents, overflow_at};

use hfs_tree::extent::Extent;
use hfs_tree::fault::{Condition, TreeFault};
use hfs_tree::leaf::Leaf;
use hfs_tree::number::{read_four, read_two};
use hfs_tree::rows::TreeRow;

/// A record of the extents tree: of which file and fork it is, after how many blocks of that fork its extents come, and
/// the three extents.
#[derive(Clone, Copy)]
pub struct Overflow {
    pub id: u32,
    pub fork: u8,
    pub after: u16,
    pub extents: [u8; 12],
}

/// Whether a record has a key of the extents tree, and three extents.
fn has_extents(bytes: &[u8]) -> bool
    requires { 0 < length bytes.now }
    ensures { result ≡ has_extents bytes.now }
{
    bytes[0] == 7 && 20 <= bytes.len()
}

impl TreeRow for Overflow {
    ghost row_of = { overflow_at };

    fn read(leaf: &Leaf, row: usize) -> Result<Overflow, TreeFault> {
        let bytes = leaf.row(row);
        if !has_extents(bytes) {
            return Err(leaf.row_fault(Condition::Key, row));
        }
        let mut extents = [0; 12];
        extents.copy_from_slice(&bytes[8..20]);
        Ok(Overflow {
            id: read_four(bytes, 2),
            fork: bytes[1],
            after: read_two(bytes, 6),
            extents,
        })
    }
}
