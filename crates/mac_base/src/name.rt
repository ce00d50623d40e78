//! The name of a resource.

ghost use Rattle.std.specs.Prelude.{◌≡◌, ◌≤◌, ◌<◌, ◌+◌, List, ℕ, length, take, drop, IfSome, IfNone, IfOk};
ghost use Rattle.std.specs.Arc.{arc_slice_items};

use std::alloc::{AllocError, Global};
use std::marker::Model;
use std::sync::ArcSlice;

/// The most bytes that a name has.
pub const MAX_NAME: usize = 255;

/// The name of a resource: at most 255 bytes. It is a part of bytes that it may share with other names, as those of the
/// map of a fork. A contract sees the list.
#[derive(Drop)]
pub struct Name {
    shared: ArcSlice<u8>,
    start: u32,
    count: u8,
}

impl Model for Name {
    ghost Value = { List ℕ };

    ghost view = { λ n. take n.count (drop n.start (arc_slice_items n.shared)) };

    ghost invariant = { λ n. n.start + n.count ≤ length (arc_slice_items n.shared) };
}

impl Name {
    /// The name of a copy of these bytes, or None where they are more than 255. The only error is that the host has no
    /// memory.
    pub fn new(alloc: Global, bytes: &[u8]) -> Result<Option<Name>, AllocError>
        ensures name { IfOk result (λ found. IfSome found (λ name. name ≡ bytes.now)) }
        ensures long { IfOk result (λ found. IfNone found (255 < length bytes.now)) }
    {
        let Ok(count) = u8::try_from(bytes.len()) else {
            return Ok(None);
        };
        Ok(Some(Name {
            shared: ArcSlice::from_slice(alloc, bytes)?,
            start: 0,
            count,
        }))
    }

    /// The name that is a part of these bytes, which it shares: so many, from a place on. The only error is that no
    /// count says how many names share them.
    pub fn part(shared: &ArcSlice<u8>, start: u32, count: u8) -> Result<Name, AllocError>
        requires { start + count ≤ length (arc_slice_items shared.now) }
        ensures { IfOk result (λ name. name ≡ take count (drop start (arc_slice_items shared.now))) }
    {
        Ok(Name {
            shared: shared.clone()?,
            start,
            count,
        })
    }

    /// The bytes, first to last: at most 255.
    pub fn as_slice(&self) -> &[u8]
        ensures bytes { result.now ≡ self.now }
        ensures short { length self.now ≤ 255 }
    {
        let start = self.start as usize;
        &self.shared[start..start + self.count as usize]
    }
}

impl Clone for Name {
    ghost is_clone = { λ name copy. copy ≡ name };

    /// The same name once more, which shares the bytes. The only error is that no count says how many names share
    /// them.
    fn clone(&self) -> Result<Name, AllocError> {
        Name::part(&self.shared, self.start, self.count)
    }
}
