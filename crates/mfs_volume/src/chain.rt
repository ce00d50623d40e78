//! The blocks of forks, one after another.

ghost use Rattle.std.specs.Prelude.{◌≡◌, IfOk, option_map, true, []};
ghost use Rattle.std.specs.List.{list_any};
ghost use Rattle.mfs_volume.specs.Chain.{has_block, next_of, is_extent_of, extents_from, items_of};

use hfs_tree::extent::Extent;
use hfs_tree::number::read_two;
use std::alloc::{AllocError, Global};

/// Whether a map has an allocation block.
fn has_block(map: &[u8], block: u16) -> bool
    ensures { result ≡ has_block map.now block }
{
    2 <= block && (block as usize - 2) * 3 / 2 + 2 <= map.len()
}

/// What a map says of an allocation block: which comes after it in its fork.
fn next_of(map: &[u8], block: u16) -> u16
    requires { has_block map.now block ≡ true }
    ensures { result ≡ next_of map.now block }
{
    let pair = read_two(map, (block as usize - 2) * 3 / 2);
    if block % 2 == 0 {
        pair / 16
    } else {
        pair % 4096
    }
}

/// Whether one of these extents is of an allocation block.
fn has_extent(extents: &[Extent], start: u16) -> bool
    ensures { result ≡ list_any (is_extent_of start) extents.now }
{
    extents.iter().any(|extent| extent.start == start)
}

/// The extents of a fork that needs so many allocation blocks, from one on; none where a block isn't in the map, or is
/// there already. The only error is that the host has no memory.
pub(crate) fn extents_from(
    alloc: Global,
    map: &[u8],
    first: u16,
    needed: u64,
) -> Result<Option<Vec<Extent>>, AllocError>
    ensures { IfOk result (λ found. option_map items_of found ≡ extents_from map.now needed [] first) }
{
    let mut extents = Vec::new(alloc);
    let mut block = first;
    for step in 0..needed {
        if !has_block(map, block) || has_extent(&extents, block - 2) {
            return Ok(None);
        }
        extents.push(Extent {
            start: block - 2,
            count: 1,
        })?;
        block = next_of(map, block);
    }
    Ok(Some(extents))
}
