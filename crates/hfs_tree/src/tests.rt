//! A tree of three nodes in two extents of a volume of eight blocks.

use crate::extent::{Extent, Layout, find_byte, read_extents};
use crate::fault::{Condition, ReadFault, TreeFault};
use crate::walk::{Chain, TreeFile, read_tree};
use fork_disk::MemDisk;
use std::alloc::{AllocError, Global};
use std::process::Abort;
use std::test::Fail;

const LAYOUT: Layout = Layout {
    offset: 1024,
    size: 512,
    count: 6,
};

/// Where the tree's extents are given.
const GIVEN: u64 = 1174;

/// The volume: node 0 is at 1536, node 1 at 2048, node 2 at 3072. The header leads to node 2, and that to node 1.
fn volume(alloc: Global) -> Result<Vec<u8>, AllocError> {
    let mut bytes = vec![in alloc; 0; 4096]?;
    let places: [(usize, u8); 12] = [
        (1544, 1),
        (1563, 2),
        (1568, 2),
        (3075, 1),
        (3080, 0xFF),
        (3083, 1),
        (3086, 7),
        (3087, 8),
        (3583, 14),
        (3581, 16),
        (2056, 0xFF),
        (2559, 14),
    ];
    for (at, byte) in places {
        if at < bytes.len() {
            bytes[at] = byte;
        }
    }
    Ok(bytes)
}

/// The tree's leaves, where a byte of the volume is another.
fn read_with(alloc: Global, at: usize, byte: u8) -> Result<Chain, ReadFault> {
    let mut bytes = volume(alloc)?;
    if at < bytes.len() {
        bytes[at] = byte;
    }
    let file = TreeFile {
        volume: bytes.len() as u64,
        layout: LAYOUT,
        extents: vec![in alloc;
            Extent { start: 1, count: 2 },
            Extent { start: 4, count: 1 },
        ]?,
    };
    read_tree(alloc, &mut MemDisk::from_bytes(bytes), &file, GIVEN)
}

/// A chain has so many leaves, and ends with this fault.
fn ends_with(
    rt: &impl Abort,
    chain: &Chain,
    leaves: usize,
    condition: Condition,
    node: u32,
    place: u64,
) {
    assert_eq!(rt; chain.leaves.len(), leaves);
    let fault = TreeFault {
        condition,
        node,
        row: 0,
        place,
    };
    assert_eq!(rt; chain.fault, Some(fault));
}

#[test]
fn reads_leaves_in_order(rt: HostRuntime) -> Result<(), Fail> {
    let chain = read_with(rt.alloc(), 0, 0)?;
    assert!(rt; chain.fault.is_none());
    assert_eq!(rt; chain.leaves.len(), 2);
    assert_eq!(rt; chain.leaves[0].number, 2);
    assert_eq!(rt; chain.leaves[0].place, 3072);
    assert_eq!(rt; chain.leaves[0].row_count(), 1);
    assert_eq!(rt; chain.leaves[1].number, 1);
    assert_eq!(rt; chain.leaves[1].row_count(), 0);
    Ok(())
}

#[test]
fn says_what_ends_a_chain(rt: HostRuntime) -> Result<(), Fail> {
    ends_with(
        &rt,
        &read_with(rt.alloc(), 1544, 0xFF)?,
        0,
        Condition::Header,
        0,
        1544,
    );
    ends_with(
        &rt,
        &read_with(rt.alloc(), 1563, 3)?,
        0,
        Condition::Outside,
        3,
        1560,
    );
    ends_with(
        &rt,
        &read_with(rt.alloc(), 3075, 3)?,
        1,
        Condition::Outside,
        3,
        3072,
    );
    Ok(())
}

#[test]
fn says_which_leaf_ends_a_chain(rt: HostRuntime) -> Result<(), Fail> {
    ends_with(
        &rt,
        &read_with(rt.alloc(), 2051, 2)?,
        2,
        Condition::Again,
        2,
        2048,
    );
    ends_with(
        &rt,
        &read_with(rt.alloc(), 2056, 0)?,
        1,
        Condition::NoLeaf,
        1,
        2056,
    );
    ends_with(
        &rt,
        &read_with(rt.alloc(), 3082, 1)?,
        0,
        Condition::Crowded,
        2,
        3082,
    );
    ends_with(
        &rt,
        &read_with(rt.alloc(), 3583, 15)?,
        0,
        Condition::Offset,
        2,
        3582,
    );
    Ok(())
}

#[test]
fn finds_bytes_in_extents(rt: HostRuntime) -> Result<(), Fail> {
    let given = *b"\x00\x01\x00\x02\x00\x05\x00\x03\x00\x00\x00\x00";
    let extents = read_extents(rt.alloc(), &given, 0)?;
    assert_eq!(rt; extents.len(), 2);
    assert_eq!(rt; find_byte(LAYOUT, &extents, 1023), Some(2559));
    assert_eq!(rt; find_byte(LAYOUT, &extents, 1024), Some(3584));
    assert_eq!(rt; find_byte(LAYOUT, &extents, 1536), None);
    assert_eq!(rt; find_byte(LAYOUT, &extents, 2560), None);
    Ok(())
}
