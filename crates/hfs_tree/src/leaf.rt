//! Leaves of a tree.

ghost use Rattle.std.specs.Prelude.{◌≡◌, ◌-◌, ◌≤◌, ◌<◌, ◌^◌, length, MatchResult, None, Some};
ghost use Rattle.std.specs.List.{slice_range};
ghost use Rattle.hfs_tree.specs.Leaves.{count_of, offset_of, is_good, fault_in, leaf_fault, row_at, row_place, row_fault, link_in, IsLeaf};

use crate::fault::{Condition, TreeFault};
use crate::number::{read_four, read_two};
use crate::walk::Link;

/// How many bytes a node has.
pub const NODE_LENGTH: usize = 512;

/// A node's first record.
const FIRST_OFFSET: usize = 14;

/// The most records that a node has room for.
const MOST_ROWS: usize = 248;

/// A leaf: its number in its tree, where it is in the volume, and its bytes.
#[derive(Clone, Copy)]
pub struct Leaf {
    pub number: u32,
    pub place: u64,
    pub bytes: [u8; 512],
}

/// The bytes from a place up to another.
fn part_of(bytes: &[u8], start: usize, end: usize) -> &[u8]
    requires order { start ≤ end }
    requires inside { end ≤ length bytes.now }
    ensures value { result.now ≡ slice_range bytes.now start end }
    ensures long { length result.now ≡ end - start }
{
    &bytes[start..end]
}

impl Leaf {
    /// The link to the leaf after it.
    pub(crate) fn link(&self) -> Link
        ensures { result ≡ link_in self.now }
    {
        Link {
            node: read_four(&self.bytes, 0),
            place: self.place,
        }
    }

    /// How many records it says that it has.
    pub fn row_count(&self) -> usize
        ensures value { result ≡ count_of self.now.bytes }
        ensures small { result < 2 ^ 16 }
    {
        read_two(&self.bytes, 10) as usize
    }

    /// Where a record begins, or for the one after the last the free room.
    fn offset(&self, row: usize) -> usize
        requires { row < 256 }
        ensures value { result ≡ offset_of self.now.bytes row }
        ensures small { result < 2 ^ 16 }
    {
        read_two(&self.bytes, NODE_LENGTH - 2 - 2 * row) as usize
    }

    /// Whether a record begins after the one before it, the first at 14, and all of them before the offsets.
    fn is_good(&self, row: usize) -> bool
        requires { row < 256 }
        ensures { result ≡ is_good self.now.bytes row }
    {
        let offset = self.offset(row);
        let follows = if row == 0 {
            offset == FIRST_OFFSET
        } else {
            self.offset(row - 1) < offset
        };
        follows && offset + 2 * self.row_count() <= NODE_LENGTH - 2
    }

    /// A fault of it, at a place of its bytes.
    fn fault(&self, condition: Condition, row: usize, at: usize) -> TreeFault
        requires row { row < 256 }
        requires at { at < 512 }
        requires low { self.now.place < 2 ^ 48 }
        ensures { result ≡ fault_in self.now condition row at }
    {
        TreeFault {
            condition,
            node: self.number,
            row: row as u16,
            place: self.place + at as u64,
        }
    }

    /// What is wrong with it, the first thing if there are more.
    pub(crate) fn check(&self) -> Result<(), TreeFault>
        requires { self.now.place < 2 ^ 48 }
        ensures { MatchResult result (λ _. leaf_fault self.now ≡ None) (λ fault. leaf_fault self.now ≡ Some fault) }
    {
        let count = self.row_count();
        if self.bytes[8] != 0xFF {
            return Err(self.fault(Condition::NoLeaf, 0, 8));
        }
        if count > MOST_ROWS {
            return Err(self.fault(Condition::Crowded, 0, 10));
        }
        for row in 0..count + 1 {
            if !self.is_good(row) {
                return Err(self.fault(Condition::Offset, row, NODE_LENGTH - 2 - 2 * row));
            }
        }
        Ok(())
    }

    /// The bytes of a record: its key and its data.
    pub fn row(&self, row: usize) -> &[u8]
        requires sound { IsLeaf self.now }
        requires there { row < count_of self.now.bytes }
        ensures value { result.now ≡ row_at self.now.bytes row }
        ensures some { 0 < length result.now }
    {
        let start = self.offset(row);
        let end = self.offset(row + 1);
        part_of(&self.bytes, start, end)
    }

    /// Where in the volume a record is.
    pub fn row_place(&self, row: usize) -> u64
        requires sound { IsLeaf self.now }
        requires there { row < count_of self.now.bytes }
        ensures { result ≡ row_place self.now row }
    {
        self.place + self.offset(row) as u64
    }

    /// A fault of a record.
    pub fn row_fault(&self, condition: Condition, row: usize) -> TreeFault
        requires sound { IsLeaf self.now }
        requires there { row < count_of self.now.bytes }
        ensures { result ≡ row_fault self.now condition row }
    {
        let at = self.offset(row);
        self.fault(condition, row, at)
    }
}
