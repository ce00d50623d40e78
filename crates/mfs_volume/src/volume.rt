//! A volume is read.

ghost use Rattle.std.specs.Prelude.{◌≡◌, ◌+◌, ◌*◌, ◌≤◌, length, IfOk};
ghost use Rattle.fork_disk.specs.Disk.{bytes_at};
ghost use Rattle.hfs_tree.specs.Reads.{Learns, HasBytes, CountsReads};
ghost use Rattle.mfs_volume.specs.Directory.{read_as};
ghost use Rattle.mfs_volume.specs.Info.{directory_place, directory_size};
ghost use Rattle.mfs_volume.specs.Volume.{OpensAs, CountsOpening, entries_of};

use crate::directory::{Directory, MfsFile, read_directory};
use crate::fault::NotMfs;
use crate::info::{Info, find_info};
use fork_disk::disk::ForkDisk;
use hfs_tree::fault::ReadFault;
use std::alloc::Global;

/// What a volume has: how many bytes, its information, the map of its allocation blocks, and the entries of its files,
/// in the order of the directory.
#[derive(Drop)]
pub struct MfsVolume {
    pub size: u64,
    pub info: Info,
    pub map: Vec<u8>,
    pub files: Vec<MfsFile>,
}

/// Reads so many bytes at a place.
fn read_bytes<D: ForkDisk>(
    alloc: Global,
    disk: &mut D,
    place: u64,
    count: u64,
) -> Result<Vec<u8>, ReadFault>
    requires inside { HasBytes D.ForkDisk disk.old (λ volume. place + count ≤ length volume) }
    ensures reads { D.is_honest disk.new → Learns D.ForkDisk disk.old disk.new (λ volume. IfOk result (λ bytes. bytes.items ≡ bytes_at count place volume)) }
    ensures size { IfOk result (λ bytes. length bytes.items ≡ count) }
    ensures cause { CountsReads (D.failures disk.old) (D.failures disk.new) result }
{
    let mut bytes = vec![in alloc; 0; count as usize]?;
    disk.read_at(place, &mut bytes)?;
    Ok(bytes)
}

/// Reads the directory.
fn read_files<D: ForkDisk>(alloc: Global, disk: &mut D, info: &Info) -> Result<Directory, ReadFault>
    requires inside { HasBytes D.ForkDisk disk.old (λ volume. directory_place info.now + directory_size info.now * 512 ≤ length volume) }
    ensures reads { D.is_honest disk.new → Learns D.ForkDisk disk.old disk.new (λ volume. IfOk result (λ found. read_as found ≡ entries_of volume info.now)) }
    ensures cause { CountsReads (D.failures disk.old) (D.failures disk.new) result }
{
    let (place, count) = (info.directory_place(), info.directory_size());
    let bytes = read_bytes(alloc, disk, place, count * 512)?;
    Ok(read_directory(alloc, place, &bytes, count as usize)?)
}

/// What a volume has. Its information is read, the map after it, and the directory. A fault of the bytes is the first
/// condition that doesn't hold, with a place in the volume.
pub fn read_mfs<D: ForkDisk>(alloc: Global, disk: &mut D) -> Result<MfsVolume, NotMfs>
    ensures reads { D.is_honest disk.new → Learns D.ForkDisk disk.old disk.new (OpensAs result) }
    ensures cause { CountsOpening (D.failures disk.old) (D.failures disk.new) result }
{
    let size = disk.len()?;
    let info = find_info(disk, size)??;
    if let Some(fault) = info.fault(size) {
        return Err(NotMfs::Volume(fault));
    }
    let map = read_bytes(alloc, disk, info.place + 64, info.map_size())?;
    let directory = read_files(alloc, disk, &info)?;
    match directory.fault {
        Some(fault) => Err(NotMfs::Volume(fault)),
        None => Ok(MfsVolume {
            size,
            info,
            map,
            files: directory.files,
        }),
    }
}
