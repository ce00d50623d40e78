//! A volume is read.

ghost use Rattle.std.specs.Prelude.{◌≡◌, ◌+◌, ◌≤◌, ◌<◌, ◌^◌, length, IfOk};
ghost use Rattle.hfs_tree.specs.Reads.{Learns, HasBytes, CountsReads};
ghost use Rattle.hfs_tree.specs.Rows.{read_as};
ghost use Rattle.hfs_volume.specs.Volume.{overflow_of, catalog_of, blocks_for};
ghost use Rattle.hfs_volume.specs.Opening.{OpensAs, CountsOpening};

use crate::entry::Entry;
use crate::fault::{OpenFault, VolumeFault};
use crate::forks::extents_of;
use crate::mdb::{Mdb, find_mdb};
use crate::overflow::Overflow;
use fork_disk::disk::ForkDisk;
use hfs_tree::extent::{Layout, read_extents};
use hfs_tree::fault::ReadFault;
use hfs_tree::number::read_four;
use hfs_tree::rows::{Rows, read_rows};
use hfs_tree::{TreeFile, read_tree};
use std::alloc::Global;

/// The id of the catalog.
const CATALOG: u32 = 4;

/// What a volume has: how many bytes, its master directory block, the records of its extents tree up to the first fault,
/// and those of its catalog, in the order of its leaves.
#[derive(Drop)]
pub struct Volume {
    pub size: u64,
    pub mdb: Mdb,
    pub overflow: Vec<Overflow>,
    pub entries: Vec<Entry>,
}

/// How many blocks so many bytes need; none where blocks have no bytes.
pub fn blocks_for(layout: Layout, size: u32) -> u64
    ensures value { result ≡ blocks_for layout size }
    ensures small { result < 2 ^ 33 }
{
    if layout.size == 0 {
        return 0;
    }
    (size as u64 + layout.size as u64 - 1) / layout.size as u64
}

/// Reads the extents tree.
fn read_overflow<D: ForkDisk>(
    alloc: Global,
    disk: &mut D,
    size: u64,
    mdb: &Mdb,
) -> Result<Vec<Overflow>, ReadFault>
    requires size { HasBytes D.ForkDisk disk.old (λ volume. size ≡ length volume) }
    requires inside { mdb.now.place + 512 ≤ size }
    ensures reads { D.is_honest disk.new → Learns D.ForkDisk disk.old disk.new (λ volume. IfOk result (λ rows. rows.items ≡ overflow_of volume mdb.now)) }
    ensures cause { CountsReads (D.failures disk.old) (D.failures disk.new) result }
{
    let file = TreeFile {
        volume: size,
        layout: mdb.layout(),
        extents: read_extents(alloc, &mdb.bytes, 134)?,
    };
    let chain = read_tree(alloc, disk, &file, mdb.place + 134)?;
    let read: Rows<Overflow> = read_rows(alloc, &chain)?;
    Ok(read.rows)
}

/// Reads the catalog.
fn read_catalog<D: ForkDisk>(
    alloc: Global,
    disk: &mut D,
    size: u64,
    mdb: &Mdb,
    overflow: &[Overflow],
) -> Result<Rows<Entry>, ReadFault>
    requires size { HasBytes D.ForkDisk disk.old (λ volume. size ≡ length volume) }
    requires rows { HasBytes D.ForkDisk disk.old (λ volume. overflow.now ≡ overflow_of volume mdb.now) }
    requires inside { mdb.now.place + 512 ≤ size }
    ensures reads { D.is_honest disk.new → Learns D.ForkDisk disk.old disk.new (λ volume. IfOk result (λ rows. read_as rows ≡ catalog_of volume mdb.now)) }
    ensures cause { CountsReads (D.failures disk.old) (D.failures disk.new) result }
{
    let layout = mdb.layout();
    let needed = blocks_for(layout, read_four(&mdb.bytes, 146));
    let first = read_extents(alloc, &mdb.bytes, 150)?;
    let file = TreeFile {
        volume: size,
        layout,
        extents: extents_of(alloc, overflow, CATALOG, 0, needed, first)?,
    };
    let chain = read_tree(alloc, disk, &file, mdb.place + 150)?;
    Ok(read_rows(alloc, &chain)?)
}

/// What a volume has. Its master directory block is read, the first node of each tree, and their leaves, one after
/// another. A fault of the bytes is the first condition that doesn't hold, with a place in the volume; a fault of the
/// extents tree is none.
pub fn read_volume<D: ForkDisk>(alloc: Global, disk: &mut D) -> Result<Volume, OpenFault>
    ensures reads { D.is_honest disk.new → Learns D.ForkDisk disk.old disk.new (OpensAs result) }
    ensures cause { CountsOpening (D.failures disk.old) (D.failures disk.new) result }
{
    let size = disk.len()?;
    let mdb = find_mdb(alloc, disk, size)??;
    let overflow = read_overflow(alloc, disk, size, &mdb)?;
    let catalog = read_catalog(alloc, disk, size, &mdb, &overflow)?;
    match catalog.fault {
        Some(fault) => Err(OpenFault::Volume(VolumeFault::Catalog(fault))),
        None => Ok(Volume {
            size,
            mdb,
            overflow,
            entries: catalog.rows,
        }),
    }
}
