//! What a volume says of a folder or a file.

ghost use Rattle.std.specs.Prelude.{◌≡◌, ◌+◌, ◌≤◌, length};
ghost use Rattle.fork_disk.specs.Disk.{bytes_at};
ghost use Rattle.image_files.specs.Items.{entry_info, file_info, fork_size};

use hfs_tree::number::{read_four, read_two};
use hfs_volume::entry::{Entry, Which};
use mac_files::contents::FinderInfo;
use mfs_volume::directory::MfsFile;

/// What a volume says of a file. Dates are in seconds from the beginning of 1904; 0 is not known.
#[derive(Clone, Copy, Debug, PartialEq, Eq)]
pub struct FileInfo {
    pub finder: FinderInfo,
    pub is_locked: bool,
    pub id: u32,
    pub created: u32,
    pub changed: u32,
    /// How many bytes the data fork has.
    pub data_size: u32,
    /// How many bytes the resource fork has.
    pub resource_size: u32,
}

/// What a volume says of a folder: the Finder's flags, its id, how many things are in it, and its dates.
#[derive(Clone, Copy, Debug, PartialEq, Eq)]
pub struct FolderInfo {
    pub flags: u16,
    pub id: u32,
    pub things: u16,
    pub created: u32,
    pub changed: u32,
}

/// What a volume says of a folder or a file.
#[derive(Clone, Copy, Debug, PartialEq, Eq)]
pub enum Info {
    Folder(FolderInfo),
    File(FileInfo),
}

impl FileInfo {
    /// How many bytes a fork has.
    pub fn fork_size(&self, which: Which) -> u32
        ensures { result ≡ fork_size self.now which }
    {
        match which {
            Which::Data => self.data_size,
            Which::Resource => self.resource_size,
        }
    }
}

/// Four bytes at a place.
fn four_at(bytes: &[u8], at: usize) -> [u8; 4]
    requires { at + 4 ≤ length bytes.now }
    ensures { result ≡ bytes_at 4 at bytes.now }
{
    let mut four = [0; 4];
    four.copy_from_slice(&bytes[at..at + 4]);
    four
}

/// What the record of a folder or a file of an HFS volume says.
pub fn entry_info(entry: &Entry) -> Info
    ensures { result ≡ entry_info entry.now }
{
    let body = &entry.body;
    if entry.is_folder() {
        return Info::Folder(FolderInfo {
            flags: read_two(body, 30),
            id: entry.id(),
            things: read_two(body, 4),
            created: read_four(body, 10),
            changed: read_four(body, 14),
        });
    }
    Info::File(FileInfo {
        finder: FinderInfo {
            kind: four_at(body, 4),
            creator: four_at(body, 8),
            flags: read_two(body, 12),
        },
        is_locked: body[2] % 2 == 1,
        id: entry.id(),
        created: read_four(body, 44),
        changed: read_four(body, 48),
        data_size: entry.fork_size(Which::Data),
        resource_size: entry.fork_size(Which::Resource),
    })
}

/// What the entry of a file of an MFS volume says.
pub fn file_info(file: &MfsFile) -> FileInfo
    ensures { result ≡ file_info file.now }
{
    let front = &file.front;
    FileInfo {
        finder: FinderInfo {
            kind: four_at(front, 2),
            creator: four_at(front, 6),
            flags: read_two(front, 10),
        },
        is_locked: front[0] % 2 == 1,
        id: file.number(),
        created: read_four(front, 42),
        changed: read_four(front, 46),
        data_size: file.fork_size(Which::Data),
        resource_size: file.fork_size(Which::Resource),
    }
}
