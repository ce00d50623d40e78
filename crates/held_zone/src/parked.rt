//! A box as its pointer.

ghost use Rattle.std.specs.Prelude.{◌≡◌};
ghost use Rattle.std_alloc.specs.Box.Ownership.{box_owns};

use std::alloc::Allocator;
use std::marker::Model;

/// A box taken apart: its pointer, which owns what the box did, and its allocator.
pub struct Parked<T, A: Allocator> {
    pub at: *mut T,
    pub alloc: A,
    pub ghost value: { T },
}

impl<T, A: Allocator> Model for Parked<T, A> {
    ghost also_owns = { λ p. box_owns (A.dealloc_token p.alloc) T.row p.at p.value };
}

impl<T: Drop, A: Allocator> Parked<T, A> {
    /// Takes a box apart.
    pub fn of(boxed: Box<T, A>) -> Parked<T, A>
        ensures { result.value ≡ boxed.value }
    {
        let (at, alloc) = Box::into_raw_with_allocator(boxed);
        Parked { at, alloc }
    }

    /// Makes the box again.
    pub fn into_box(self) -> Box<T, A>
        ensures { result.value ≡ self.value }
    {
        let Parked { at, alloc } = self;
        unsafe { Box::from_raw(alloc, at) }
    }
}
