//! Memory of an allocator, as it is had and given back.

ghost use Rattle.std.specs.Prelude.{◌≡◌, ℕ, ◌+◌, ◌^◌, ◌<◌, ◌≤◌, [], length, replicate, IfSome};
ghost use denote.RawPtr.{Ptr};
ghost use Rattle.raw_region.specs.Ownership.{zeroed, bytes_type};

use std::alloc::{Allocator, Global};
use std::marker::{Model, PhantomData};

mod steps;

/// Room for `len` bytes, of which the first `done` are written, with zero.
pub(crate) struct Room {
    at: *mut u8,
    len: usize,
    pub ghost done: { ℕ },
    ghost some: { done ≤ len },
    ghost small: { len < 2 ^ 63 },
}

impl Model for Room {
    ghost also_owns = { λ r. zeroed r.at r.len r.done };
}

/// The right to give `len` bytes from `at` on back to the allocator that they are of. It takes no memory. Where it is
/// dropped, the bytes stay with whoever has them.
#[derive(Drop)]
pub(crate) struct Lease<A: Allocator> {
    marker: PhantomData<A>,
    pub ghost alloc: { A },
    pub ghost at: { Ptr },
    pub ghost len: { ℕ },
}

impl<A: Allocator> Model for Lease<A> {
    ghost also_owns = { λ l. A.dealloc_token l.alloc (bytes_type l.len) l.at };
}

/// The allocator that bytes are of, and the right to give them back to it.
#[derive(Drop)]
pub(crate) struct Source {
    pub(crate) lease: Lease<Global>,
    pub(crate) alloc: Global,
}
