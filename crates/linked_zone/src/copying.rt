//! Bytes copied from one block to another.

use crate::zone::LinkedZone;

impl LinkedZone {
    ghost use Rattle.std.specs.Prelude.{◌≡◌};
    ghost use Rattle.linked_zone.specs.Copying.{CanCopy, copied};

    /// Copies `count` bytes of a handle or a pointer, from `start` on, over those from `offset` on of another. It may
    /// be the same, whose bytes are then those before the call.
    pub fn copy(&mut self, from: u32, start: u32, to: u32, offset: u32, count: u32)
        requires { CanCopy self.old from start to offset count }
        ensures { self.new ≡ copied from start to offset count self.old }
    {
        let source = self.address_of(from);
        let target = self.address_of(to);
        self.records.copy(source, start, target, offset, count);
    }
}
