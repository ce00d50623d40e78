//! The partition map of a Macintosh Plus.

ghost use Rattle.std.specs.Prelude.{◌≡◌, ◌≤◌, length, IfOk};
ghost use Rattle.hfs_tree.specs.Reads.{Learns, HasBytes, CountsReads};
ghost use Rattle.disk_image.specs.Devices.{IsView, bytes_in};
ghost use Rattle.disk_image.specs.Maps.{old_part, is_blank, old_parts_from, old_parts};

use crate::part::Part;
use crate::view::View;
use fork_disk::disk::ForkDisk;
use hfs_tree::fault::ReadFault;
use hfs_tree::number::read_four;
use std::alloc::{AllocError, Global};

/// How many entries a block has room for.
const MOST_ENTRIES: usize = 42;

/// What an entry says.
fn old_part(number: u16, entry: &[u8]) -> Part
    requires { length entry.now ≡ 12 }
    ensures { result ≡ old_part number entry.now }
{
    let mut kind = [0; 32];
    kind[..4].copy_from_slice(&entry[8..12]);
    Part {
        number,
        name: [0; 32],
        kind,
        start: read_four(entry, 0) as u64 * 512,
        count: read_four(entry, 4) as u64 * 512,
    }
}

/// Whether an entry has zeros alone.
fn is_blank(entry: &[u8]) -> bool
    ensures { result ≡ is_blank entry.now }
{
    entry.iter().all(|byte| *byte == 0)
}

/// The entries of a block.
fn parts_in(alloc: Global, block: &[u8; 512]) -> Result<Vec<Part>, AllocError>
    ensures { IfOk result (λ parts. parts.items ≡ old_parts_from block.now 0 42) }
{
    let mut parts = Vec::new(alloc);
    for index in 0..MOST_ENTRIES {
        let at = 2 + 12 * index;
        let entry = &block[at..at + 12];
        if is_blank(entry) {
            return Ok(parts);
        }
        parts.push(old_part(index as u16 + 1, entry))?;
    }
    Ok(parts)
}

/// The partitions of a disk with such a map.
pub(crate) fn read_old_map<D: ForkDisk>(
    alloc: Global,
    disk: &mut D,
    view: &View,
) -> Result<Vec<Part>, ReadFault>
    requires sound { IsView view.now }
    requires size { HasBytes D.ForkDisk disk.old (λ file. view.now.file ≡ length file) }
    ensures reads { D.is_honest disk.new → Learns D.ForkDisk disk.old disk.new
        (λ file. IfOk result (λ parts. parts.items ≡ old_parts (bytes_in view.now file))) }
    ensures cause { CountsReads (D.failures disk.old) (D.failures disk.new) result }
{
    if view.size < 1024 {
        return Ok(Vec::new(alloc));
    }
    let block = view.block(disk, 512)?;
    Ok(parts_in(alloc, &block)?)
}
