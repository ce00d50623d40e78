//! The partitions of a disk.

ghost use Rattle.std.specs.Prelude.{◌≡◌, ◌≤◌, ◌<◌, ◌^◌, ◌+◌, ◌*◌, List, length, Ok, Err, find, IfOk, IfSome, MatchResult};
ghost use Rattle.std.specs.List.{list_any, AllByRecursion};
ghost use Rattle.fork_disk.specs.Disk.{Counts};
ghost use Rattle.hfs_tree.specs.Reads.{Learns, HasBytes, CountsReads};
ghost use Rattle.disk_image.specs.Devices.{IsView, bytes_in};
ghost use Rattle.disk_image.specs.Maps.{part_in, parts_from, has_room, map_in, is_marked, has_signature, leads, grids_of, grid_of, map_of, IsWide};

use crate::fault::ImageFault;
use crate::known::format_at;
use crate::part::Part;
use crate::view::View;
use fork_disk::disk::{DiskFault, ForkDisk};
use hfs_tree::fault::ReadFault;
use hfs_tree::number::{read_four, read_two};
use std::alloc::Global;

/// What the entries of a partition map begin with: `PM`.
const MARK: u16 = 0x504D;

/// The most entries that a map has.
const MOST_ENTRIES: u64 = 1024;

/// How many bytes a map has from entry to entry, and how many the blocks have that its entries count.
#[derive(Clone, Copy, Debug, PartialEq, Eq)]
pub struct Grid {
    pub step: u16,
    pub unit: u16,
}

/// What an entry of a map says.
fn part_in(grid: Grid, number: u16, entry: &[u8; 512]) -> Part
    ensures { result ≡ part_in grid number entry.now }
{
    let skipped = read_four(entry, 80);
    let mut name = [0; 32];
    name.copy_from_slice(&entry[16..48]);
    let mut kind = [0; 32];
    kind.copy_from_slice(&entry[48..80]);
    Part {
        number,
        name,
        kind,
        start: (read_four(entry, 8) as u64 + skipped as u64) * grid.unit as u64,
        count: read_four(entry, 12).saturating_sub(skipped) as u64 * grid.unit as u64,
    }
}

/// Reads so many entries of a map.
fn read_parts<D: ForkDisk>(
    alloc: Global,
    disk: &mut D,
    view: &View,
    grid: Grid,
    count: u64,
) -> Result<Result<Vec<Part>, ImageFault>, ReadFault>
    requires sound { IsView view.now }
    requires size { HasBytes D.ForkDisk disk.old (λ file. view.now.file ≡ length file) }
    requires few { count ≤ 1024 }
    requires room { grid.step * (count + 1) ≤ view.now.size }
    requires wide { 512 ≤ grid.step }
    ensures reads { D.is_honest disk.new → Learns D.ForkDisk disk.old disk.new
        (λ file. IfOk result (λ found. MatchResult found
        (λ parts. parts_from (bytes_in view.now file) grid 1 count ≡ Ok parts.items)
        (λ fault. parts_from (bytes_in view.now file) grid 1 count ≡ Err fault))) }
    ensures cause { CountsReads (D.failures disk.old) (D.failures disk.new) result }
{
    let mut parts = Vec::new(alloc);
    for index in 0..count {
        let number = index + 1;
        let place = grid.step as u64 * number;
        let entry = view.block(disk, place)?;
        if read_two(&entry, 0) != MARK {
            return Ok(Err(ImageFault::Mark(number, place)));
        }
        parts.push(part_in(grid, number as u16, &entry))?;
    }
    Ok(Ok(parts))
}

/// Whether there is room for so many entries.
#[tactic(auto, unfolding(crate::specs::Maps::has_room))]
fn has_room(size: u64, grid: Grid, count: u64) -> bool
    ensures { result ≡ has_room size grid count }
{
    1 <= count && count <= MOST_ENTRIES && grid.step as u64 * (count + 1) <= size
}

/// Whether a map has a first entry.
fn is_marked<D: ForkDisk>(disk: &mut D, view: &View, grid: Grid) -> Result<bool, DiskFault>
    requires sound { IsView view.now }
    requires size { HasBytes D.ForkDisk disk.old (λ file. view.now.file ≡ length file) }
    ensures reads { D.is_honest disk.new → Learns D.ForkDisk disk.old disk.new
        (λ file. IfOk result (λ is. is ≡ is_marked (bytes_in view.now file) grid)) }
    ensures cause { Counts (D.failures disk.old) (D.failures disk.new) result }
{
    Ok(view.number(disk, 2, grid.step as u64)? == MARK as u64)
}

/// Reads a map of partitions, or says which condition doesn't hold of it.
fn read_map<D: ForkDisk>(
    alloc: Global,
    disk: &mut D,
    view: &View,
    grid: Grid,
) -> Result<Result<Vec<Part>, ImageFault>, ReadFault>
    requires sound { IsView view.now }
    requires size { HasBytes D.ForkDisk disk.old (λ file. view.now.file ≡ length file) }
    requires wide { 512 ≤ grid.step }
    ensures reads { D.is_honest disk.new → Learns D.ForkDisk disk.old disk.new
        (λ file. IfOk result (λ found. MatchResult found
        (λ parts. map_in (bytes_in view.now file) grid ≡ Ok parts.items)
        (λ fault. map_in (bytes_in view.now file) grid ≡ Err fault))) }
    ensures cause { CountsReads (D.failures disk.old) (D.failures disk.new) result }
{
    let step = grid.step as u64;
    let marked = is_marked(disk, view, grid)?;
    if !marked {
        return Ok(Err(ImageFault::Mark(1, step)));
    }
    let count = view.number(disk, 4, step + 4)?;
    if !has_room(view.size, grid, count) {
        return Ok(Err(ImageFault::Entries(count, step + 4)));
    }
    read_parts(alloc, disk, view, grid, count)
}

/// Whether a partition is a volume that has its first block.
#[tactic(auto, unfolding(crate::specs::Maps::has_signature))]
fn has_signature<D: ForkDisk>(
    alloc: Global,
    disk: &mut D,
    view: &View,
    part: &Part,
) -> Result<bool, ReadFault>
    requires sound { IsView view.now }
    requires size { HasBytes D.ForkDisk disk.old (λ file. view.now.file ≡ length file) }
    ensures reads { D.is_honest disk.new → Learns D.ForkDisk disk.old disk.new
        (λ file. IfOk result (λ has. has ≡ has_signature (bytes_in view.now file) part.now)) }
    ensures cause { CountsReads (D.failures disk.old) (D.failures disk.new) result }
{
    if !part.is_volume() {
        return Ok(false);
    }
    let volume = view.part(alloc, part.start, part.count)?;
    Ok(format_at(disk, &volume, 1024)?.is_some())
}

/// Whether one of these partitions is such a volume.
fn have_signatures<D: ForkDisk>(
    alloc: Global,
    disk: &mut D,
    view: &View,
    parts: &[Part],
) -> Result<bool, ReadFault>
    requires sound { IsView view.now }
    requires size { HasBytes D.ForkDisk disk.old (λ file. view.now.file ≡ length file) }
    ensures reads { D.is_honest disk.new → Learns D.ForkDisk disk.old disk.new
        (λ file. IfOk result (λ have. have ≡ list_any (has_signature (bytes_in view.now file)) parts.now)) }
    ensures cause { CountsReads (D.failures disk.old) (D.failures disk.new) result }
{
    for part in parts {
        if has_signature(alloc, disk, view, part)? {
            return Ok(true);
        }
    }
    Ok(false)
}

/// Whether a map leads to such a volume.
#[tactic(auto, unfolding(crate::specs::Maps::leads))]
fn leads<D: ForkDisk>(
    alloc: Global,
    disk: &mut D,
    view: &View,
    grid: Grid,
) -> Result<bool, ReadFault>
    requires sound { IsView view.now }
    requires size { HasBytes D.ForkDisk disk.old (λ file. view.now.file ≡ length file) }
    requires wide { 512 ≤ grid.step }
    ensures reads { D.is_honest disk.new → Learns D.ForkDisk disk.old disk.new
        (λ file. IfOk result (λ is. is ≡ leads (bytes_in view.now file) grid)) }
    ensures cause { CountsReads (D.failures disk.old) (D.failures disk.new) result }
{
    match read_map(alloc, disk, view, grid)? {
        Ok(parts) => have_signatures(alloc, disk, view, &parts),
        Err(_) => Ok(false),
    }
}

/// The grids that a map may have, where the driver map says so many bytes a block.
fn grids_of(size: u64) -> [Grid; 3]
    ensures { result ≡ grids_of size }
{
    let plain = 512;
    let unit = if 512 < size && size < 65536 && size % 512 == 0 {
        size as u16
    } else {
        plain
    };
    [
        Grid {
            step: plain,
            unit: plain,
        },
        Grid { step: unit, unit },
        Grid { step: plain, unit },
    ]
}

/// The first that leads to a volume.
fn find_leading<D: ForkDisk>(
    alloc: Global,
    disk: &mut D,
    view: &View,
    grids: &[Grid],
) -> Result<Option<Grid>, ReadFault>
    requires sound { IsView view.now }
    requires size { HasBytes D.ForkDisk disk.old (λ file. view.now.file ≡ length file) }
    requires wide { AllByRecursion IsWide grids.now }
    ensures reads { D.is_honest disk.new → Learns D.ForkDisk disk.old disk.new
        (λ file. IfOk result (λ found. found ≡ find (leads (bytes_in view.now file)) grids.now)) }
    ensures wide { IfOk result (λ found. IfSome found IsWide) }
    ensures cause { CountsReads (D.failures disk.old) (D.failures disk.new) result }
{
    for grid in grids {
        if leads(alloc, disk, view, *grid)? {
            return Ok(Some(*grid));
        }
    }
    Ok(None)
}

/// The first that has an entry.
fn find_marked<D: ForkDisk>(
    disk: &mut D,
    view: &View,
    grids: &[Grid],
) -> Result<Option<Grid>, DiskFault>
    requires sound { IsView view.now }
    requires size { HasBytes D.ForkDisk disk.old (λ file. view.now.file ≡ length file) }
    requires wide { AllByRecursion IsWide grids.now }
    ensures reads { D.is_honest disk.new → Learns D.ForkDisk disk.old disk.new
        (λ file. IfOk result (λ found. found ≡ find (is_marked (bytes_in view.now file)) grids.now)) }
    ensures wide { IfOk result (λ found. IfSome found IsWide) }
    ensures cause { Counts (D.failures disk.old) (D.failures disk.new) result }
{
    for grid in grids {
        if is_marked(disk, view, *grid)? {
            return Ok(Some(*grid));
        }
    }
    Ok(None)
}

/// The grid of a disk's map.
fn find_grid<D: ForkDisk>(alloc: Global, disk: &mut D, view: &View) -> Result<Grid, ReadFault>
    requires sound { IsView view.now }
    requires size { HasBytes D.ForkDisk disk.old (λ file. view.now.file ≡ length file) }
    ensures reads { D.is_honest disk.new → Learns D.ForkDisk disk.old disk.new
        (λ file. IfOk result (λ grid. grid ≡ grid_of (bytes_in view.now file))) }
    ensures wide { IfOk result IsWide }
    ensures cause { CountsReads (D.failures disk.old) (D.failures disk.new) result }
{
    let size = view.number(disk, 2, 2)?;
    let grids = grids_of(size);
    if let Some(grid) = find_leading(alloc, disk, view, &grids)? {
        return Ok(grid);
    }
    if let Some(grid) = find_marked(disk, view, &grids)? {
        return Ok(grid);
    }
    Ok(Grid {
        step: 512,
        unit: 512,
    })
}

/// The partitions of a disk, or the first condition that doesn't hold of its map. Up to 1,024 entries of 512 bytes are
/// read, four times at most.
#[tactic(auto, unfolding(crate::specs::Maps::map_of))]
pub(crate) fn read_partitions<D: ForkDisk>(
    alloc: Global,
    disk: &mut D,
    view: &View,
) -> Result<Result<Vec<Part>, ImageFault>, ReadFault>
    requires sound { IsView view.now }
    requires size { HasBytes D.ForkDisk disk.old (λ file. view.now.file ≡ length file) }
    ensures reads { D.is_honest disk.new → Learns D.ForkDisk disk.old disk.new
        (λ file. IfOk result (λ found. MatchResult found
        (λ parts. map_of (bytes_in view.now file) ≡ Ok parts.items)
        (λ fault. map_of (bytes_in view.now file) ≡ Err fault))) }
    ensures cause { CountsReads (D.failures disk.old) (D.failures disk.new) result }
{
    let grid = find_grid(alloc, disk, view)?;
    read_map(alloc, disk, view, grid)
}
