//! The leaves of a tree are read, one after another.

ghost use Rattle.std.specs.Prelude.{◌≡◌, ◌+◌, ◌≤◌, ◌<◌, ◌^◌, length, IfOk, IfSome, None, []};
ghost use Rattle.std.specs.List.{AllByRecursion};
ghost use Rattle.fork_disk.specs.Disk.{bytes_at, Counts};
ghost use Rattle.hfs_tree.specs.Leaves.{node_place, fault_of, leaf_at, IsLeaf, first_link_of, leaves_in, leaves_from, leaves_of, blocks_in};
ghost use Rattle.hfs_tree.specs.Reads.{Learns, HasBytes, CountsReads};

use crate::extent::{Extent, Layout, find_byte};
use crate::fault::{Condition, ReadFault, TreeFault};
use crate::leaf::Leaf;
use crate::number::{read_four, read_two};
use fork_disk::disk::{DiskFault, ForkDisk};
use place_numbers::Bits;
use std::alloc::Global;

/// The most blocks of 512 bytes that an HFS volume can have.
const MOST_BLOCKS: u64 = 0x80_0000_0000;

/// Where a tree is in a volume.
#[derive(Drop)]
pub struct TreeFile {
    /// How many bytes the volume has.
    pub volume: u64,
    pub layout: Layout,
    pub extents: Vec<Extent>,
}

/// The number of a node, and where in the volume it is given.
#[derive(Clone, Copy, Debug, PartialEq, Eq)]
pub struct Link {
    pub node: u32,
    pub place: u64,
}

/// The leaves of a tree, and why there aren't more: `None` where the last leads to no other.
#[derive(Drop)]
pub struct Chain {
    pub leaves: Vec<Leaf>,
    pub fault: Option<TreeFault>,
}

impl TreeFile {
    /// Where in the volume a node is, if it is there.
    fn find_node(&self, node: u32) -> Option<u64>
        ensures place { result ≡ node_place self.now.volume self.now.layout self.now.extents.items node }
        ensures inside { IfSome result (λ place. place + 512 ≤ self.now.volume) }
        ensures low { IfSome result (λ place. place < 2 ^ 48) }
    {
        let place = find_byte(self.layout, &self.extents, node as u64 * 512)?;
        if place + 512 <= self.volume {
            Some(place)
        } else {
            None
        }
    }
}

impl Link {
    /// What is wrong with the node that it leads to.
    fn fault(&self, condition: Condition) -> TreeFault
        ensures { result ≡ fault_of self.now condition }
    {
        TreeFault {
            condition,
            node: self.node,
            row: 0,
            place: self.place,
        }
    }
}

/// Reads the 512 bytes at a place.
pub fn read_block<D: ForkDisk>(disk: &mut D, place: u64) -> Result<[u8; 512], DiskFault>
    requires { HasBytes D.ForkDisk disk.old (λ volume. place + 512 ≤ length volume) }
    ensures reads { D.is_honest disk.new → Learns D.ForkDisk disk.old disk.new (λ volume. IfOk result (λ block. block ≡ bytes_at 512 place volume)) }
    ensures cause { Counts (D.failures disk.old) (D.failures disk.new) result }
{
    let mut block = [0; 512];
    disk.read_at(place, &mut block)?;
    Ok(block)
}

/// Reads the leaf that a link leads to, and says what is wrong with it.
fn read_leaf<D: ForkDisk>(
    disk: &mut D,
    file: &TreeFile,
    link: Link,
) -> Result<Result<Leaf, TreeFault>, DiskFault>
    requires { HasBytes D.ForkDisk disk.old (λ volume. file.now.volume ≡ length volume) }
    ensures reads { D.is_honest disk.new → Learns D.ForkDisk disk.old disk.new
        (λ volume. IfOk result (λ found. found ≡ leaf_at volume file.now.layout file.now.extents.items link)) }
    ensures inside { IfOk result (λ found. IfOk found (λ leaf. leaf.place + 512 ≤ file.now.volume)) }
    ensures good { IfOk result (λ found. IfOk found IsLeaf) }
    ensures cause { Counts (D.failures disk.old) (D.failures disk.new) result }
{
    let Some(place) = file.find_node(link.node) else {
        return Ok(Err(link.fault(Condition::Outside)));
    };
    let leaf = Leaf {
        number: link.node,
        place,
        bytes: read_block(disk, place)?,
    };
    match leaf.check() {
        Ok(()) => Ok(Ok(leaf)),
        Err(fault) => Ok(Err(fault)),
    }
}

/// Reads the leaves from a link on.
fn read_leaves<D: ForkDisk>(
    alloc: Global,
    disk: &mut D,
    file: &TreeFile,
    first: Link,
) -> Result<Chain, ReadFault>
    requires { HasBytes D.ForkDisk disk.old (λ volume. file.now.volume ≡ length volume) }
    ensures reads { D.is_honest disk.new → Learns D.ForkDisk disk.old disk.new
        (λ volume. IfOk result (λ chain. leaves_in chain ≡ leaves_from volume file.now.layout file.now.extents.items (blocks_in (length volume)) [] first)) }
    ensures sound { IfOk result (λ chain. AllByRecursion IsLeaf chain.leaves.items) }
    ensures cause { CountsReads (D.failures disk.old) (D.failures disk.new) result }
{
    let blocks = (file.volume / 512).min(MOST_BLOCKS) as usize;
    let mut seen = Bits::create(alloc, blocks)?;
    let mut leaves = Vec::new(alloc);
    let mut link = first;
    for step in 0..blocks {
        if link.node == 0 {
            return Ok(Chain {
                leaves,
                fault: None,
            });
        }
        let leaf = match read_leaf(disk, file, link)? {
            Ok(leaf) => leaf,
            Err(fault) => {
                return Ok(Chain {
                    leaves,
                    fault: Some(fault),
                });
            }
        };
        let block = (leaf.place / 512) as usize;
        if seen.get(block) {
            return Ok(Chain {
                leaves,
                fault: Some(link.fault(Condition::Again)),
            });
        }
        seen.set(block, true);
        link = leaf.link();
        leaves.push(leaf)?;
    }
    if link.node == 0 {
        return Ok(Chain {
            leaves,
            fault: None,
        });
    }
    Ok(Chain {
        leaves,
        fault: Some(link.fault(Condition::Again)),
    })
}

/// Reads the header of a tree, whose extents are given at a place of the volume. It leads to the first leaf.
pub fn read_header<D: ForkDisk>(
    disk: &mut D,
    file: &TreeFile,
    place: u64,
) -> Result<Result<Link, TreeFault>, DiskFault>
    requires { HasBytes D.ForkDisk disk.old (λ volume. file.now.volume ≡ length volume) }
    ensures reads { D.is_honest disk.new → Learns D.ForkDisk disk.old disk.new
        (λ volume. IfOk result (λ found. found ≡ first_link_of volume file.now.layout file.now.extents.items place)) }
    ensures cause { Counts (D.failures disk.old) (D.failures disk.new) result }
{
    let Some(at) = file.find_node(0) else {
        let link = Link { node: 0, place };
        return Ok(Err(link.fault(Condition::Outside)));
    };
    let header = read_block(disk, at)?;
    if header[8] == 1 && read_two(&header, 32) == 512 {
        Ok(Ok(Link {
            node: read_four(&header, 24),
            place: at + 24,
        }))
    } else {
        let link = Link {
            node: 0,
            place: at + 8,
        };
        Ok(Err(link.fault(Condition::Header)))
    }
}

/// The leaves of a tree, whose extents are given at a place of the volume: those that its first node leads to, one after
/// another. Only these and the first node are read. A fault of the tree ends them.
pub fn read_tree<D: ForkDisk>(
    alloc: Global,
    disk: &mut D,
    file: &TreeFile,
    place: u64,
) -> Result<Chain, ReadFault>
    requires { HasBytes D.ForkDisk disk.old (λ volume. file.now.volume ≡ length volume) }
    ensures reads { D.is_honest disk.new → Learns D.ForkDisk disk.old disk.new
        (λ volume. IfOk result (λ chain. leaves_in chain ≡ leaves_of volume file.now.layout file.now.extents.items place)) }
    ensures sound { IfOk result (λ chain. AllByRecursion IsLeaf chain.leaves.items) }
    ensures cause { CountsReads (D.failures disk.old) (D.failures disk.new) result }
{
    match read_header(disk, file, place)? {
        Ok(first) => read_leaves(alloc, disk, file, first),
        Err(fault) => Ok(Chain {
            leaves: Vec::new(alloc),
            fault: Some(fault),
        }),
    }
}
