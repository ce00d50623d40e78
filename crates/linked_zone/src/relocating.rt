//! A handle's block in another place.

use crate::changes::follow;
use crate::zone::LinkedZone;
use mac_base::block::Kind;
use mac_base::handle::Handle;

impl LinkedZone {
    ghost use Rattle.std.specs.Prelude.{◌≡◌, IsTrue, IsFalse};
    ghost use Rattle.mac_base.specs.HandleTable.{is_full, is_lent};
    ghost use Rattle.linked_zone.specs.Changes.{relocated};
    ghost use Rattle.linked_zone.specs.Places.{RoomFor};

    /// The block of a handle in a new place: the free block at an address is its block now, with `length` bytes: those
    /// that it had, as far as they go, and zeros after them; the old block is free. Flags stay.
    pub fn relocate(&mut self, handle: Handle, at: u32, length: u32)
        requires full { IsTrue (is_full self.old.heap.table handle) }
        requires here { IsFalse (is_lent self.old.heap.table handle) }
        requires room { RoomFor self.old at length }
        ensures { (r : RoomFor self.old at length) → self.new ≡ relocated handle length self.old r.free }
    {
        let from = self.block_of(handle);
        let contents = at + self.records.spec().heads().head_size();
        let flags = self.records.header_flags(from);
        let kept = self.records.length_at(from).min(length);
        self.records.place_handle(at, handle, length);
        self.records.set_header_flags(at, flags);
        self.records.copy(from, 0, at, 0, kept);
        self.records.set_free(from);
        follow(&mut self.records, Kind::Rel(handle), contents);
    }
}
