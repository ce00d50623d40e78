//! Bytes copied from one block to another.

use crate::zone::Zone;

impl Zone {
    ghost use Rattle.std.specs.Prelude.{length, ◌≡◌, ◌+◌, ◌≤◌};
    ghost use Rattle.mac_base.specs.declared.block.Status.{Status};
    ghost use Rattle.mac_base.specs.BlockStatus.{status_of};
    ghost use Rattle.mac_base.specs.HandleTable.{bytes_of};
    ghost use Rattle.linked_zone.specs.Copying.{copied};
    ghost use Rattle.linked_zone.specs.Loans.{KeepsLoans};

    /// Copies `count` bytes of a handle or a pointer, from `start` on, over those from `offset` on of another. It may
    /// be the same, whose bytes are then those before the call (Inside Macintosh: Memory, "Manipulating Blocks of
    /// Memory").
    pub fn copy(&mut self, from: u32, start: u32, to: u32, offset: u32, count: u32)
        requires source { status_of self.old.heap.table from ≡ Status.Full }
        requires target { status_of self.old.heap.table to ≡ Status.Full }
        requires within_source { start + count ≤ length (bytes_of self.old.heap.table from) }
        requires within_target { offset + count ≤ length (bytes_of self.old.heap.table to) }
        ensures zone { self.new ≡ copied from start to offset count self.old }
        ensures loans { KeepsLoans self.old self.new }
    {
        self.pointers.copy(from, start, to, offset, count);
    }
}
