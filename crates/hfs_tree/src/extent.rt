//! Runs of allocation blocks.

ghost use Rattle.std.specs.Prelude.{◌≡◌, ◌+◌, ◌≤◌, ◌<◌, ◌^◌, length, IfOk, IfSome};
ghost use Rattle.hfs_tree.specs.Extents.{extent_at, extents_at, place_in};

use crate::number::read_two;
use std::alloc::{AllocError, Global};

/// So many allocation blocks from one on.
#[derive(Clone, Copy, Debug, PartialEq, Eq)]
pub struct Extent {
    pub start: u16,
    pub count: u16,
}

/// Where the allocation blocks of a volume are.
#[derive(Clone, Copy, Debug, PartialEq, Eq)]
pub struct Layout {
    /// Where in the volume the first begins, in bytes.
    pub offset: u32,
    /// How many bytes each has.
    pub size: u32,
    /// How many there are.
    pub count: u16,
}

/// The extent at a place: its first block, and how many it has.
fn read_extent(bytes: &[u8], at: usize) -> Extent
    requires { at + 4 ≤ length bytes.now }
    ensures { result ≡ extent_at at bytes.now }
{
    Extent {
        start: read_two(bytes, at),
        count: read_two(bytes, at + 2),
    }
}

/// The extents at a place, of which there are three, or fewer if one has no blocks. The only error is that the host has
/// no memory.
pub fn read_extents(alloc: Global, bytes: &[u8], at: usize) -> Result<Vec<Extent>, AllocError>
    requires { at + 12 ≤ length bytes.now }
    ensures extents { IfOk result (λ extents. extents.items ≡ extents_at at bytes.now) }
    ensures few { IfOk result (λ extents. length extents.items ≤ 3) }
{
    let extents = [
        read_extent(bytes, at),
        read_extent(bytes, at + 4),
        read_extent(bytes, at + 8),
    ];
    extents
        .iter()
        .copied()
        .take_while(|extent| extent.count > 0)
        .collect(alloc)
}

/// Where in the volume a byte of these extents is, if its block is one of the volume's.
pub fn find_byte(layout: Layout, extents: &[Extent], at: u64) -> Option<u64>
    ensures place { result ≡ place_in layout extents.now at }
    ensures low { IfSome result (λ place. place < 2 ^ 48) }
{
    let size = layout.size as u64;
    let mut rest = at;
    for extent in extents {
        let length = extent.count as u64 * size;
        if rest < length {
            let block = extent.start as u64 + rest / size;
            if block >= layout.count as u64 {
                return None;
            }
            return Some(layout.offset as u64 + (block * size + rest % size));
        }
        rest -= length;
    }
    None
}
