//! How many bytes a handle or a pointer has where its block is, and what is written to them.

use crate::zone::LinkedZone;

impl LinkedZone {
    ghost use Rattle.std.specs.Prelude.{◌≡◌, IsTrue, IsFalse};
    ghost use Rattle.std.specs.Borrow.{sem};
    ghost use Rattle.mac_base.specs.HandleTable.{has_block, is_lent, bytes_of};
    ghost use Rattle.linked_zone.specs.Changes.{held_there, enlarged};
    ghost use Rattle.linked_zone.specs.WritingBack.{WritesBackBytes};
    ghost use Rattle.linked_zone.specs.Places.{CanHold, CanGrow};

    /// Gives a handle or a pointer `length` bytes in the first `size` bytes of its block; the others are free. Bytes
    /// that it had stay as far as they go, and those that are added are zero.
    pub fn hold(&mut self, block: u32, size: u32, length: u32)
        requires room { CanHold self.old block size length }
        requires here { IsFalse (is_lent self.old.heap.table block) }
        ensures { (can : CanHold self.old block size length) → self.new ≡ held_there self.old can }
    {
        let at = self.address_of(block);
        self.records.hold(at, size, length);
    }

    /// Gives a handle or a pointer `length` bytes in the first `size` bytes of its block and the free one right after
    /// it; the others are free. Bytes that it had stay as far as they go, and those that are added are zero.
    pub fn grow(&mut self, block: u32, size: u32, length: u32)
        requires room { CanGrow self.old block size length }
        requires here { IsFalse (is_lent self.old.heap.table block) }
        ensures { (can : CanGrow self.old block size length) → self.new ≡ enlarged self.old can }
    {
        let at = self.address_of(block);
        self.records.grow(at, size, length);
    }

    /// The bytes of a handle or a pointer that has a block, to be written.
    pub fn contents_mut(&mut self, block: u32) -> &mut [u8]
        requires block { IsTrue (has_block self.old.heap.table block) }
        requires here { IsFalse (is_lent self.old.heap.table block) }
        ensures* writes_back { sem 𝓛 (WritesBackBytes self.entry block result) }
        ensures value { result.now ≡ bytes_of self.old.heap.table block }
    {
        let at = self.address_of(block);
        self.records.contents_mut(at)
    }
}
