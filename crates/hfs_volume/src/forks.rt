//! The extents of forks.

ghost use Rattle.std.specs.Prelude.{◌≡◌, ◌<◌, ◌≤◌, ◌^◌, length, find, IfOk, option_copied};
ghost use Rattle.hfs_volume.specs.Overflow.{fork_extents, next_extents, comes_after, block_count};

use crate::overflow::Overflow;
use hfs_tree::extent::{Extent, read_extents};
use std::alloc::{AllocError, Global};

/// The record of the extents of a fork that come after so many blocks, if there is one.
fn find_record(rows: &[Overflow], id: u32, fork: u8, blocks: u64) -> Option<&Overflow>
    ensures { option_copied result ≡ find (comes_after id fork blocks) rows.now }
{
    rows.iter().find(|row| row.id == id && row.fork == fork && row.after as u64 == blocks)
}

/// The extents of a fork that come after so many blocks.
fn extents_after(
    alloc: Global,
    rows: &[Overflow],
    id: u32,
    fork: u8,
    blocks: u64,
) -> Result<Vec<Extent>, AllocError>
    ensures extents { IfOk result (λ extents. extents.items ≡ next_extents (find (comes_after id fork blocks) rows.now)) }
    ensures few { IfOk result (λ extents. length extents.items ≤ 3) }
{
    match find_record(rows, id, fork, blocks) {
        Some(row) => read_extents(alloc, &row.extents, 0),
        None => Ok(Vec::new(alloc)),
    }
}

/// How many blocks extents have.
pub(crate) fn count_blocks(extents: &[Extent]) -> u64
    requires { length extents.now < 2 ^ 40 }
    ensures { result ≡ block_count extents.now }
{
    extents.iter().map(|extent| extent.count as u64).sum()
}

/// The extents of a fork that needs so many blocks: the first ones, and those of the extents tree.
pub(crate) fn extents_of(
    alloc: Global,
    rows: &[Overflow],
    id: u32,
    fork: u8,
    needed: u64,
    first: Vec<Extent>,
) -> Result<Vec<Extent>, AllocError>
    requires needed { needed < 2 ^ 33 }
    requires few { length first.items ≤ 3 }
    ensures extents { IfOk result (λ extents. extents.items ≡ fork_extents needed rows.now id fork needed first.items) }
    ensures few { IfOk result (λ extents. length extents.items < 2 ^ 40) }
{
    let mut extents = first;
    for step in 0..needed {
        let blocks = count_blocks(&extents);
        if needed <= blocks {
            return Ok(extents);
        }
        let more = extents_after(alloc, rows, id, fork, blocks)?;
        if more.is_empty() {
            return Ok(extents);
        }
        extents.extend_from_slice(&more)?;
    }
    Ok(extents)
}
