//! The directory: an entry for each file.

ghost use Rattle.std.specs.Prelude.{◌≡◌, ◌+◌, ◌*◌, ◌≤◌, ◌<◌, ◌^◌, length, take, IfOk, IfSome, Some};
ghost use Rattle.mfs_volume.specs.Directory.{Entries, name_bytes, padded_name, first_block, size_of, number_of, end_of, entry_at, entries_from, entries_in, entries_before, ended, read_as};

use crate::fault::MfsFault;
use hfs_tree::number::{read_four, read_two};
use hfs_volume::entry::Which;
use std::alloc::{AllocError, Global};

/// The most entries that begin in a block, and one more.
const MOST: usize = 10;

/// The entry of a file: where in the volume it is, its bytes up to the name, the last of which is the length of that, and
/// the name, in MacRoman, with zeros after it.
#[derive(Clone, Copy)]
pub struct MfsFile {
    pub place: u64,
    pub front: [u8; 51],
    pub name: [u8; 255],
}

/// The entries of a directory up to its first fault, which is `None` where it has none.
#[derive(Drop)]
pub struct Directory {
    pub files: Vec<MfsFile>,
    pub fault: Option<MfsFault>,
}

impl MfsFile {
    /// The bytes of its name.
    pub fn name_bytes(&self) -> &[u8]
        ensures { result.now ≡ name_bytes self.now }
    {
        &self.name[..(self.front[50] as usize).min(255)]
    }

    /// The number of the file.
    pub fn number(&self) -> u32
        ensures { result ≡ number_of self.now }
    {
        read_four(&self.front, 18)
    }

    /// How many bytes a fork has.
    pub fn fork_size(&self, which: Which) -> u32
        ensures { result ≡ size_of self.now which }
    {
        match which {
            Which::Data => read_four(&self.front, 24),
            Which::Resource => read_four(&self.front, 34),
        }
    }

    /// The first allocation block of a fork.
    pub fn first_block(&self, which: Which) -> u16
        ensures { result ≡ first_block self.now which }
    {
        match which {
            Which::Data => read_two(&self.front, 22),
            Which::Resource => read_two(&self.front, 32),
        }
    }
}

/// Where in its block an entry ends that begins at a place, if it has a name and ends there.
fn end_of(block: &[u8; 512], at: usize) -> Option<usize>
    requires { at < 512 }
    ensures value { result ≡ end_of block.now at }
    ensures room { IfSome result (λ end. (at + 52 ≤ end) × (end ≤ 512)) }
{
    if at > 460 || block[at + 50] == 0 {
        return None;
    }
    let end = at + 51 + block[at + 50] as usize;
    if end <= 512 { Some(end) } else { None }
}

/// A name, and zeros after it.
fn padded_name(name: &[u8]) -> [u8; 255]
    requires { length name.now ≤ 255 }
    ensures { result ≡ padded_name name.now }
{
    let mut padded = [0; 255];
    padded[..name.len()].copy_from_slice(name);
    padded
}

/// The entry from a place of a block at a place of the volume to its end.
fn entry_at(place: u64, block: &[u8; 512], at: usize, end: usize) -> MfsFile
    requires there { end_of block.now at ≡ Some end }
    requires room { (at + 52 ≤ end) × (end ≤ 512) × (place + 512 < 2 ^ 64) }
    ensures { result ≡ entry_at place block.now at }
{
    let mut front = [0; 51];
    front.copy_from_slice(&block[at..at + 51]);
    MfsFile {
        place: place + at as u64,
        front,
        name: padded_name(&block[at + 51..end]),
    }
}

/// Adds the entries of a block at a place of the volume up to the first fault, which is handed out.
fn push_entries(
    files: &mut Vec<MfsFile>,
    place: u64,
    block: &[u8; 512],
) -> Result<Option<MfsFault>, AllocError>
    requires { place + 512 < 2 ^ 64 }
    ensures { IfOk result (λ fault. (rest : Entries) →
        entries_before files.old.items (entries_from place block.now MOST 0 rest) ≡ entries_before files.new.items (ended fault rest)) }
{
    let mut at = 0;
    for step in 0..MOST {
        if at >= 512 || block[at] < 0x80 {
            return Ok(None);
        }
        let Some(end) = end_of(block, at) else {
            return Ok(Some(MfsFault::Entry(place + at as u64)));
        };
        files.push(entry_at(place, block, at, end))?;
        at = (end + 1) / 2 * 2;
    }
    Ok(None)
}

/// Reads a directory of whole blocks, which is at a place of the volume. The only error is that the host has no memory.
pub(crate) fn read_directory(
    alloc: Global,
    place: u64,
    bytes: &[u8],
    count: usize,
) -> Result<Directory, AllocError>
    requires whole { length bytes.now ≡ count * 512 }
    requires low { place + count * 512 < 2 ^ 63 }
    ensures { IfOk result (λ found. read_as found ≡ entries_in place bytes.now count 0) }
{
    let mut files = Vec::new(alloc);
    for index in 0..count {
        let mut block = [0; 512];
        block.copy_from_slice(&bytes[index * 512..index * 512 + 512]);
        if let Some(fault) = push_entries(&mut files, place + index as u64 * 512, &block)? {
            return Ok(Directory {
                files,
                fault: Some(fault),
            });
        }
    }
    Ok(Directory { files, fault: None })
}
