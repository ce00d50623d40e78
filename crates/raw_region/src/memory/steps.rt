//! From the allocator to cells, and back.

ghost use Rattle.std.specs.Prelude.{◌≡◌, ℕ, ◌+◌, ◌^◌, ◌<◌, ◌≤◌, [], length, replicate, IfSome};
ghost use Rattle.raw_region.specs.Memory.{room_at, room_len, cells_at, cells_len};

use super::{Lease, Room};
use crate::cells::Cells;
use std::alloc::{Allocator, Global};
use std::marker::PhantomData;

impl Room {
    /// Room for `len` bytes, none of them written, and the right to give it back. `None`: the allocator has no memory.
    pub(crate) fn new<A: Allocator>(alloc: &A, len: usize) -> Option<(Room, Lease<A>)>
        requires { len < 2 ^ 63 }
        ensures { IfSome result (λ m. (room_len m.0 ≡ len) × (m.0.done ≡ 0) × (m.1.alloc ≡ alloc.now)
            × (m.1.at ≡ room_at m.0) × (m.1.len ≡ len)) }
    {
        match alloc.allocate(len, 1) {
            Ok(at) => {
                let marker = PhantomData;
                Some((Room { at, len }, Lease { marker }))
            }
            Err(_) => None,
        }
    }

    /// Writes a zero as byte `i`, the first that isn't written yet.
    pub(crate) fn put(&mut self, i: usize)
        requires { (self.old.done ≡ i) × (i < room_len self.old) }
        ensures { (self.new.done ≡ i + 1) × (room_len self.new ≡ room_len self.old)
            × (room_at self.new ≡ room_at self.old) }
    {
        unsafe { *self.at.add(i) = 0 };
    }

    /// The bytes, once all are written.
    pub(crate) fn filled(self) -> Cells
        requires { self.done ≡ room_len self }
        ensures { (result.bytes ≡ replicate (room_len self) 0) × (result.lent ≡ []) × (result.from ≡ 0)
            × (cells_at result ≡ room_at self) × (result.home.1 ≡ result.bytes) }
    {
        let Room { at, len } = self;
        Cells { at, len }
    }
}

impl Cells {
    /// Gives the bytes back to the allocator that they are of.
    pub(crate) fn free<A: Allocator>(self, lease: Lease<A>, alloc: &A)
        requires { (lease.alloc ≡ alloc.now) × (lease.at ≡ cells_at self) × (lease.len ≡ cells_len self)
            × (self.lent ≡ []) }
    {
        let Cells { at, len } = self;
        let Lease { marker: _ } = lease;
        unsafe { alloc.deallocate(at, len, 1) }
    }
}
