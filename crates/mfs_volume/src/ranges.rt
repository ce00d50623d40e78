//! Where in a volume the bytes of a fork are.

ghost use Rattle.std.specs.Prelude.{◌≡◌, IfOk, MatchResult, Some};
ghost use Rattle.mfs_volume.specs.Volume.{fork_fault, HasFork, read_of};

use crate::chain::extents_from;
use crate::directory::MfsFile;
use crate::fault::ChainFault;
use crate::volume::MfsVolume;
use disk_ranges::read::Range;
use hfs_volume::entry::Which;
use hfs_volume::ranges::{are_there, ranges_in};
use hfs_volume::volume::blocks_for;
use std::alloc::{AllocError, Global};

/// Where in a volume the bytes of a file's fork are, so that a disk of these ranges of the volume is the fork; or the
/// first condition that doesn't hold of it. The only error is that the host has no memory.
pub fn ranges_of_file(
    alloc: Global,
    volume: &MfsVolume,
    file: &MfsFile,
    which: Which,
) -> Result<Result<Vec<Range>, ChainFault>, AllocError>
    ensures { IfOk result (λ found. MatchResult found
        (λ ranges. HasFork (read_of volume.now) file.now which ranges.items)
        (λ fault. fork_fault (read_of volume.now) file.now which ≡ Some fault)) }
{
    let layout = volume.info.layout();
    let size = file.fork_size(which);
    let needed = blocks_for(layout, size);
    let first = file.first_block(which);
    let Some(extents) = extents_from(alloc, &volume.map, first, needed)? else {
        return Ok(Err(ChainFault::Chain(file.place)));
    };
    if needed.saturating_mul(layout.size as u64) < size as u64 {
        return Ok(Err(ChainFault::Chain(file.place)));
    }
    let ranges = ranges_in(alloc, layout, &extents, size)?;
    if are_there(&ranges, volume.size) {
        Ok(Ok(ranges))
    } else {
        Ok(Err(ChainFault::There(file.place)))
    }
}
