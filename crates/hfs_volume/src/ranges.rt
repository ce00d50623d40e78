//! Where in a volume the bytes of a fork are.

ghost use Rattle.std.specs.Prelude.{◌≡◌, IfOk, MatchResult, Some};
ghost use Rattle.std.specs.List.{list_all};
ghost use Rattle.hfs_volume.specs.Forks.{cut_to, is_in_volume, ranges_in, is_there, fork_fault, HasFork};
ghost use Rattle.hfs_volume.specs.Opening.{read_of};

use crate::entry::{Entry, Which};
use crate::fault::ForkFault;
use crate::forks::{count_blocks, extents_of};
use crate::volume::{Volume, blocks_for};
use disk_ranges::read::Range;
use hfs_tree::extent::{Extent, Layout};
use std::alloc::{AllocError, Global};

/// Extents cut to so many blocks.
fn cut_to(alloc: Global, extents: &[Extent], blocks: u64) -> Result<Vec<Extent>, AllocError>
    ensures { IfOk result (λ cut. cut.items ≡ cut_to blocks extents.now) }
{
    let mut cut = Vec::new(alloc);
    let mut left = blocks;
    for extent in extents {
        if left == 0 {
            return Ok(cut);
        }
        let count = left.min(extent.count as u64) as u16;
        cut.push(Extent {
            start: extent.start,
            count,
        })?;
        left -= count as u64;
    }
    Ok(cut)
}

/// Whether an extent has blocks of the volume alone.
fn is_in_volume(layout: Layout, extent: &Extent) -> bool
    ensures { result ≡ is_in_volume layout extent.now }
{
    extent.start as u32 + extent.count as u32 <= layout.count as u32
}

/// Whether all extents have blocks of the volume alone.
fn are_in_volume(layout: Layout, extents: &[Extent]) -> bool
    ensures { result ≡ list_all (is_in_volume layout) extents.now }
{
    extents.iter().all(|extent| is_in_volume(layout, extent))
}

/// Where the bytes of extents are, of which so many count. The only error is that the host has no memory.
pub fn ranges_in(
    alloc: Global,
    layout: Layout,
    extents: &[Extent],
    size: u32,
) -> Result<Vec<Range>, AllocError>
    ensures { IfOk result (λ ranges. ranges.items ≡ ranges_in layout size extents.now) }
{
    let mut ranges = Vec::new(alloc);
    let mut left = size as u64;
    for extent in extents {
        if left == 0 {
            return Ok(ranges);
        }
        let length = left.min(extent.count as u64 * layout.size as u64);
        ranges.push(Range {
            at: layout.offset as u64 + extent.start as u64 * layout.size as u64,
            length,
        })?;
        left -= length;
    }
    Ok(ranges)
}

/// Whether a range ends within so many bytes.
fn is_there(range: &Range, size: u64) -> bool
    ensures { result ≡ is_there size range.now }
{
    range.length <= size && range.at <= size - range.length
}

/// Whether all ranges end within so many bytes.
pub fn are_there(ranges: &[Range], size: u64) -> bool
    ensures { result ≡ list_all (is_there size) ranges.now }
{
    ranges.iter().all(|range| is_there(range, size))
}

/// Where in a volume the bytes of a file's fork are, so that a disk of these ranges of the volume is the fork; or the
/// first condition that doesn't hold of it. The only error is that the host has no memory.
pub fn ranges_of_fork(
    alloc: Global,
    volume: &Volume,
    file: &Entry,
    which: Which,
) -> Result<Result<Vec<Range>, ForkFault>, AllocError>
    ensures { IfOk result (λ found. MatchResult found
        (λ ranges. HasFork (read_of volume.now) file.now which ranges.items)
        (λ fault. fork_fault (read_of volume.now) file.now which ≡ Some fault)) }
{
    let layout = volume.mdb.layout();
    let size = file.fork_size(which);
    let needed = blocks_for(layout, size);
    let first = file.first_extents(alloc, which)?;
    let extents = extents_of(
        alloc,
        &volume.overflow,
        file.id(),
        which.key(),
        needed,
        first,
    )?;
    if count_blocks(&extents).saturating_mul(layout.size as u64) < size as u64 {
        return Ok(Err(ForkFault::Cover(file.place)));
    }
    let cut = cut_to(alloc, &extents, needed)?;
    if !are_in_volume(layout, &cut) {
        return Ok(Err(ForkFault::Blocks(file.place)));
    }
    let ranges = ranges_in(alloc, layout, &extents, size)?;
    if !are_there(&ranges, volume.size) {
        return Ok(Err(ForkFault::There(file.place)));
    }
    Ok(Ok(ranges))
}
