//! The volume information.

ghost use Rattle.std.specs.Prelude.{◌≡◌, ◌+◌, ◌≤◌, ◌<◌, ◌^◌, length, IfOk};
ghost use Rattle.fork_disk.specs.Disk.{Counts};
ghost use Rattle.hfs_tree.specs.Reads.{Learns, HasBytes};
ghost use Rattle.mfs_volume.specs.Info.{layout_of, volume_name, is_mfs, map_size, directory_place, directory_size, info_fault, info_of};

use crate::fault::MfsFault;
use fork_disk::disk::{DiskFault, ForkDisk};
use hfs_tree::extent::Layout;
use hfs_tree::number::{read_four, read_two};
use hfs_tree::read_block;
use hfs_volume::name::Name;

/// What the information of a volume begins with.
const MFS: u16 = 0xD2D7;

/// The volume information: where in the volume it is, and the block that begins with it.
#[derive(Clone, Copy)]
pub struct Info {
    pub place: u64,
    pub bytes: [u8; 512],
}

impl Info {
    /// Where the volume's allocation blocks are, of which the first is block 2.
    pub fn layout(&self) -> Layout
        ensures { result ≡ layout_of self.now }
    {
        Layout {
            offset: read_two(&self.bytes, 28) as u32 * 512,
            size: read_four(&self.bytes, 20),
            count: read_two(&self.bytes, 18),
        }
    }

    /// The name of the volume.
    pub fn volume_name(&self) -> Name
        ensures { result ≡ volume_name self.now }
    {
        Name::from_bytes(&self.bytes[37..37 + (self.bytes[36] as usize).min(27)])
    }

    /// Whether it begins as the information of a volume does.
    fn is_mfs(&self) -> bool
        ensures { result ≡ is_mfs self.now }
    {
        read_two(&self.bytes, 0) == MFS
    }

    /// How many bytes the map of the allocation blocks has: 12 bits for each block.
    pub(crate) fn map_size(&self) -> u64
        ensures value { result ≡ map_size self.now }
        ensures small { result < 2 ^ 17 }
    {
        (3 * read_two(&self.bytes, 18) as u64 + 1) / 2
    }

    /// Where in the volume the directory begins.
    pub(crate) fn directory_place(&self) -> u64
        ensures value { result ≡ directory_place self.now }
        ensures small { result < 2 ^ 25 }
    {
        read_two(&self.bytes, 14) as u64 * 512
    }

    /// How many blocks of 512 bytes the directory has.
    pub(crate) fn directory_size(&self) -> u64
        ensures value { result ≡ directory_size self.now }
        ensures small { result < 2 ^ 16 }
    {
        read_two(&self.bytes, 16) as u64
    }

    /// What is wrong with it in a volume of so many bytes.
    pub(crate) fn fault(&self, size: u64) -> Option<MfsFault>
        requires { self.now.place + 512 ≤ size }
        ensures { result ≡ info_fault size self.now }
    {
        let block = read_four(&self.bytes, 20);
        let directory = self.directory_place();
        let map_end = 64 + self.map_size();
        if block == 0 || block % 512 != 0 {
            Some(MfsFault::BlockSize(self.place + 20))
        } else if size - self.place < map_end || self.place == 1024 && directory < 1024 + map_end {
            Some(MfsFault::Map(self.place + 18))
        } else if size < directory + self.directory_size() * 512 {
            Some(MfsFault::Directory(self.place + 14))
        } else {
            None
        }
    }
}

/// Finds the information of a volume of so many bytes, or its copy where that alone begins as one does.
pub(crate) fn find_info<D: ForkDisk>(
    disk: &mut D,
    size: u64,
) -> Result<Result<Info, MfsFault>, DiskFault>
    requires { HasBytes D.ForkDisk disk.old (λ volume. size ≡ length volume) }
    ensures reads { D.is_honest disk.new → Learns D.ForkDisk disk.old disk.new (λ volume. IfOk result (λ found. found ≡ info_of volume)) }
    ensures inside { IfOk result (λ found. IfOk found (λ info. info.place + 512 ≤ size)) }
    ensures cause { Counts (D.failures disk.old) (D.failures disk.new) result }
{
    if size < 1536 {
        return Ok(Err(MfsFault::Room(size)));
    }
    let first = Info {
        place: 1024,
        bytes: read_block(disk, 1024)?,
    };
    if first.is_mfs() {
        return Ok(Ok(first));
    }
    let place = (size / 512 - 2) * 512;
    if place <= 1024 {
        return Ok(Err(MfsFault::Signature(1024)));
    }
    let copy = Info {
        place,
        bytes: read_block(disk, place)?,
    };
    if copy.is_mfs() {
        Ok(Ok(copy))
    } else {
        Ok(Err(MfsFault::Signature(1024)))
    }
}
