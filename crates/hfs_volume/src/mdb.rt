//! The master directory block.

ghost use Rattle.std.specs.Prelude.{◌≡◌, ◌+◌, ◌≤◌, ◌<◌, ◌^◌, length, IfOk};
ghost use Rattle.hfs_tree.specs.Reads.{Learns, HasBytes, CountsReads};
ghost use Rattle.hfs_volume.specs.Volume.{layout_of, volume_name, mdb_fault, mdb_at, mdb_of, copy_place, wants_copy};

use crate::fault::VolumeFault;
use crate::name::Name;
use fork_disk::disk::ForkDisk;
use hfs_tree::extent::{Layout, read_extents};
use hfs_tree::fault::ReadFault;
use hfs_tree::number::{read_four, read_two};
use hfs_tree::{TreeFile, read_block, read_header};
use std::alloc::Global;

/// What the signature of a volume is, and that of one that it may wrap.
const HFS: u16 = 0x4244;

const HFS_PLUS: u16 = 0x482B;

/// The master directory block: where in the volume it is, and its bytes.
#[derive(Clone, Copy)]
pub struct Mdb {
    pub place: u64,
    pub bytes: [u8; 512],
}

impl Mdb {
    /// Where the volume's allocation blocks are.
    pub fn layout(&self) -> Layout
        ensures { result ≡ layout_of self.now }
    {
        Layout {
            offset: read_two(&self.bytes, 28) as u32 * 512,
            size: read_four(&self.bytes, 20),
            count: read_two(&self.bytes, 18),
        }
    }

    /// The name of the volume.
    pub fn volume_name(&self) -> Name
        ensures { result ≡ volume_name self.now }
    {
        Name::from_bytes(&self.bytes[37..37 + (self.bytes[36] as usize).min(27)])
    }

    /// What is wrong with it as such.
    fn fault(&self) -> Option<VolumeFault>
        requires { self.now.place + 512 < 2 ^ 64 }
        ensures { result ≡ mdb_fault self.now }
    {
        let size = read_four(&self.bytes, 20);
        if read_two(&self.bytes, 0) != HFS {
            Some(VolumeFault::Signature(self.place))
        } else if read_two(&self.bytes, 124) == HFS_PLUS {
            Some(VolumeFault::Wrapper(self.place + 124))
        } else if size == 0 || size % 512 != 0 {
            Some(VolumeFault::BlockSize(self.place + 20))
        } else {
            None
        }
    }
}

/// Reads the master directory block at a place, and the header of the catalog that it names.
fn read_mdb<D: ForkDisk>(
    alloc: Global,
    disk: &mut D,
    size: u64,
    place: u64,
) -> Result<Result<Mdb, VolumeFault>, ReadFault>
    requires size { HasBytes D.ForkDisk disk.old (λ volume. size ≡ length volume) }
    requires inside { place + 512 ≤ size }
    ensures reads { D.is_honest disk.new → Learns D.ForkDisk disk.old disk.new (λ volume. IfOk result (λ found. found ≡ mdb_at volume place)) }
    ensures inside { IfOk result (λ found. IfOk found (λ mdb. mdb.place ≡ place)) }
    ensures cause { CountsReads (D.failures disk.old) (D.failures disk.new) result }
{
    let mdb = Mdb {
        place,
        bytes: read_block(disk, place)?,
    };
    if let Some(fault) = mdb.fault() {
        return Ok(Err(fault));
    }
    let file = TreeFile {
        volume: size,
        layout: mdb.layout(),
        extents: read_extents(alloc, &mdb.bytes, 150)?,
    };
    match read_header(disk, &file, place + 150)? {
        Ok(_) => Ok(Ok(mdb)),
        Err(fault) => Ok(Err(VolumeFault::Catalog(fault))),
    }
}

/// Whether the copy of a master directory block with this fault is looked for.
fn wants_copy(fault: &VolumeFault) -> bool
    ensures { result ≡ wants_copy fault.now }
{
    match fault {
        VolumeFault::Room(_) | VolumeFault::Wrapper(_) => false,
        VolumeFault::Signature(_) | VolumeFault::BlockSize(_) | VolumeFault::Catalog(_) => true,
    }
}

/// Finds the master directory block of a volume of so many bytes.
pub(crate) fn find_mdb<D: ForkDisk>(
    alloc: Global,
    disk: &mut D,
    size: u64,
) -> Result<Result<Mdb, VolumeFault>, ReadFault>
    requires { HasBytes D.ForkDisk disk.old (λ volume. size ≡ length volume) }
    ensures reads { D.is_honest disk.new → Learns D.ForkDisk disk.old disk.new (λ volume. IfOk result (λ found. found ≡ mdb_of volume)) }
    ensures inside { IfOk result (λ found. IfOk found (λ mdb. mdb.place + 512 ≤ size)) }
    ensures cause { CountsReads (D.failures disk.old) (D.failures disk.new) result }
{
    if size < 1536 {
        return Ok(Err(VolumeFault::Room(size)));
    }
    let fault = match read_mdb(alloc, disk, size, 1024)? {
        Ok(mdb) => return Ok(Ok(mdb)),
        Err(fault) => fault,
    };
    let copy = (size / 512 - 2) * 512;
    if !wants_copy(&fault) || copy <= 1024 {
        return Ok(Err(fault));
    }
    match read_mdb(alloc, disk, size, copy)? {
        Ok(mdb) => Ok(Ok(mdb)),
        Err(_) => Ok(Err(fault)),
    }
}
