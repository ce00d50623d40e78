//! Records of the catalog.

ghost use Rattle.std.specs.Prelude.{◌≡◌, ◌<◌, ◌≤◌, length, take, IfOk};
ghost use Rattle.hfs_volume.specs.Entries.{body_place, has_key, has_body, padded_body, entry_at, is_folder, is_file, id_of, key_of, size_of, first_extents_of};

use crate::name::Name;
use hfs_tree::extent::{Extent, read_extents};
use hfs_tree::fault::{Condition, TreeFault};
use hfs_tree::leaf::Leaf;
use hfs_tree::number::read_four;
use hfs_tree::rows::TreeRow;
use std::alloc::{AllocError, Global};

/// Which of its two forks.
#[derive(Clone, Copy, Debug, PartialEq, Eq)]
pub enum Which {
    Data,
    Resource,
}

impl Which {
    /// Which fork it is in the keys of the extents tree.
    pub(crate) fn key(self) -> u8
        ensures { result ≡ key_of self }
    {
        match self {
            Which::Data => 0,
            Which::Resource => 0xFF,
        }
    }
}

/// A record of the catalog: where in the volume its data are, the folder that it is in, its name, and the data, with
/// zeros after them. Their first byte is 1 for a folder, 2 for a file, 3 and 4 for threads of these.
#[derive(Clone, Copy)]
pub struct Entry {
    pub place: u64,
    pub parent: u32,
    pub name: Name,
    pub body: [u8; 102],
}

/// Where the data of a record begin: after the key, at an even place.
fn body_place(bytes: &[u8]) -> usize
    requires { 0 < length bytes.now }
    ensures value { result ≡ body_place bytes.now }
    ensures small { result < 258 }
{
    (bytes[0] as usize + 2) / 2 * 2
}

/// Whether a record has a key and two bytes of data at least.
fn has_key(bytes: &[u8]) -> bool
    requires { 0 < length bytes.now }
    ensures { result ≡ has_key bytes.now }
{
    let size = bytes[0] as usize;
    6 <= size && size <= 37 && body_place(bytes) + 2 <= bytes.len() && 6 + bytes[6] as usize <= size
}

/// Whether these are the data of a folder, a file or a thread.
fn has_body(body: &[u8]) -> bool
    requires { 0 < length body.now }
    ensures { result ≡ has_body body.now }
{
    match body[0] {
        1 => 70 <= body.len(),
        2 => 102 <= body.len(),
        3 | 4 => 15 <= body.len() && body[14] <= 31 && 15 + body[14] as usize <= body.len(),
        _ => false,
    }
}

/// The first bytes, so many at most.
fn first_bytes(bytes: &[u8], count: usize) -> &[u8]
    ensures value { result.now ≡ take count bytes.now }
    ensures few { length result.now ≤ count }
{
    &bytes[..count.min(bytes.len())]
}

/// Bytes, and zeros where they are fewer than 102.
fn body_array(bytes: &[u8]) -> [u8; 102]
    requires { length bytes.now ≤ 102 }
    ensures { result ≡ padded_body bytes.now }
{
    let mut body = [0; 102];
    body[..bytes.len()].copy_from_slice(bytes);
    body
}

impl TreeRow for Entry {
    ghost row_of = { entry_at };

    fn read(leaf: &Leaf, row: usize) -> Result<Entry, TreeFault> {
        let bytes = leaf.row(row);
        if !has_key(bytes) {
            return Err(leaf.row_fault(Condition::Key, row));
        }
        let place = body_place(bytes);
        let body = &bytes[place..];
        if !has_body(body) {
            return Err(leaf.row_fault(Condition::Body, row));
        }
        Ok(Entry {
            place: leaf.row_place(row) + place as u64,
            parent: read_four(bytes, 2),
            name: Name::from_bytes(&bytes[7..7 + bytes[6] as usize]),
            body: body_array(first_bytes(body, 102)),
        })
    }
}

impl Entry {
    /// Whether it is a folder.
    pub fn is_folder(&self) -> bool
        ensures { result ≡ is_folder self.now }
    {
        self.body[0] == 1
    }

    /// Whether it is a file.
    pub fn is_file(&self) -> bool
        ensures { result ≡ is_file self.now }
    {
        self.body[0] == 2
    }

    /// The id of a folder or a file.
    pub fn id(&self) -> u32
        ensures { result ≡ id_of self.now }
    {
        read_four(&self.body, if self.is_folder() { 6 } else { 20 })
    }

    /// How many bytes a file's fork has.
    pub fn fork_size(&self, which: Which) -> u32
        ensures { result ≡ size_of self.now which }
    {
        match which {
            Which::Data => read_four(&self.body, 26),
            Which::Resource => read_four(&self.body, 36),
        }
    }

    /// The extents of a fork that a file's record has.
    pub(crate) fn first_extents(
        &self,
        alloc: Global,
        which: Which,
    ) -> Result<Vec<Extent>, AllocError>
        ensures { IfOk result (λ extents. extents.items ≡ first_extents_of self.now which) }
    {
        match which {
            Which::Data => read_extents(alloc, &self.body, 74),
            Which::Resource => read_extents(alloc, &self.body, 86),
        }
    }
}
