//! A volume of 14 blocks by hand: boot blocks, master directory block, bitmap, eight allocation blocks, the copy, and one
//! that isn't used.

ghost use Rattle.std.specs.Prelude.{◌<◌};

use crate::entry::Which;
use crate::fault::{ForkFault, OpenFault, VolumeFault};
use crate::name::Name;
use crate::ranges::ranges_of_fork;
use crate::volume::{Volume, read_volume};
use disk_ranges::read::Range;
use fork_disk::MemDisk;
use hfs_tree::fault::{Condition, TreeFault};
use std::alloc::{AllocError, Global};
use std::process::Abort;
use std::test::Fail;

const MDB: usize = 1024;

const COPY: usize = 6144;

const CATALOG: usize = 2048;

const LEAF: usize = 2560;

const FILE: usize = LEAF + 164;

const EXTENTS: usize = 3072;

const OVERFLOW: usize = 4096;

/// Puts bytes at a place.
fn put(bytes: &mut Vec<u8>, at: usize, new: &[u8]) {
    for (i, byte) in new.iter().enumerate() {
        if i < bytes.len() && at < bytes.len() - i {
            bytes[at + i] = *byte;
        }
    }
}

/// A master directory block, the same in its copy: twelve allocation blocks of 512 bytes from block 4 on, of which the
/// last aren't there; the extents file has blocks 2 and 4, the catalog blocks 0 and 1.
fn put_mdb(bytes: &mut Vec<u8>, at: usize)
    requires { at < 65536 }
{
    put(bytes, at, b"BD");
    put(bytes, at + 18, b"\x00\x0C\x00\x00\x02\x00");
    put(bytes, at + 28, b"\x00\x04");
    put(bytes, at + 36, b"\x04Disk");
    put(
        bytes,
        at + 130,
        b"\x00\x00\x04\x00\x00\x02\x00\x01\x00\x04\x00\x01",
    );
    put(bytes, at + 146, b"\x00\x00\x04\x00\x00\x00\x00\x02");
}

/// The volume "Disk" with a file "Read me", id 16, whose data fork has five bytes in block 3; the
/// extents tree says that block 6 comes after it.
fn volume(alloc: Global) -> Result<Vec<u8>, AllocError> {
    let mut bytes = vec![in alloc; 0; 7168]?;
    put_mdb(&mut bytes, MDB);
    put_mdb(&mut bytes, COPY);
    put(&mut bytes, CATALOG + 8, b"\x01");
    put(&mut bytes, CATALOG + 24, b"\x00\x00\x00\x01");
    put(&mut bytes, CATALOG + 32, b"\x02\x00");
    put(&mut bytes, EXTENTS + 8, b"\x01");
    put(&mut bytes, EXTENTS + 24, b"\x00\x00\x00\x01");
    put(&mut bytes, EXTENTS + 32, b"\x02\x00");
    put(&mut bytes, OVERFLOW + 8, b"\xFF\x01\x00\x01");
    put(
        &mut bytes,
        OVERFLOW + 14,
        b"\x07\x00\x00\x00\x00\x10\x00\x01\x00\x06\x00\x01",
    );
    put(&mut bytes, OVERFLOW + 508, b"\x00\x22\x00\x0E");
    put(&mut bytes, LEAF + 8, b"\xFF\x01\x00\x03");
    put(
        &mut bytes,
        LEAF + 14,
        b"\x0A\x00\x00\x00\x00\x01\x04Disk\x00\x01",
    );
    put(&mut bytes, LEAF + 26 + 6, b"\x00\x00\x00\x02");
    put(
        &mut bytes,
        LEAF + 96,
        b"\x06\x00\x00\x00\x00\x02\x00\x00\x03",
    );
    put(&mut bytes, LEAF + 104 + 10, b"\x00\x00\x00\x01\x04Disk");
    put(
        &mut bytes,
        LEAF + 150,
        b"\x0D\x00\x00\x00\x00\x02\x07Read me\x02",
    );
    put(&mut bytes, FILE + 20, b"\x00\x00\x00\x10");
    put(&mut bytes, FILE + 26, b"\x00\x00\x00\x05\x00\x00\x02\x00");
    put(&mut bytes, FILE + 74, b"\x00\x03\x00\x01");
    put(&mut bytes, LEAF + 504, b"\x01\x0A\x00\x96\x00\x60\x00\x0E");
    put(&mut bytes, 3584, b"hello");
    Ok(bytes)
}

/// The volume, where some bytes are others.
fn read_with(alloc: Global, at: usize, new: &[u8]) -> Result<Volume, OpenFault> {
    let Ok(mut bytes) = volume(alloc) else {
        return Err(OpenFault::Volume(VolumeFault::Room(0)));
    };
    put(&mut bytes, at, new);
    read_volume(alloc, &mut MemDisk::from_bytes(bytes))
}

/// The volume with other bytes is refused for this.
fn refuses(rt: &impl Abort, read: Result<Volume, OpenFault>, fault: VolumeFault) {
    let found = match read {
        Ok(_) => None,
        Err(fault) => Some(fault),
    };
    assert_eq!(rt; found, Some(OpenFault::Volume(fault)));
}

/// A fault of the catalog's leaf.
fn in_leaf(condition: Condition, row: u16, at: usize) -> VolumeFault
    requires { at < 512 }
{
    VolumeFault::Catalog(TreeFault {
        condition,
        node: 1,
        row,
        place: (LEAF + at) as u64,
    })
}

#[test]
fn reads_a_volume(rt: HostRuntime) -> Result<(), Fail> {
    let volume = read_with(rt.alloc(), 0, b"")?;
    assert_eq!(rt; volume.size, 7168);
    assert_eq!(rt; volume.entries.len(), 3);
    assert!(rt; volume.entries[0].is_folder());
    assert_eq!(rt; volume.entries[0].id(), 2);
    let file = volume.entries[2];
    assert!(rt; file.is_file());
    assert_eq!(rt; file.parent, 2);
    assert_eq!(rt; file.name, Name::from_bytes(b"Read me"));
    assert_eq!(rt; file.id(), 16);
    assert_eq!(rt; file.fork_size(Which::Data), 5);
    assert_eq!(rt; file.fork_size(Which::Resource), 0);
    assert_eq!(rt; file.place, 2724);
    Ok(())
}

#[test]
fn takes_the_copy_where_it_must(rt: HostRuntime) -> Result<(), Fail> {
    let volume = read_with(rt.alloc(), MDB, b"xx")?;
    assert_eq!(rt; volume.mdb.place, 6144);
    let volume = read_with(rt.alloc(), COPY, b"xx")?;
    assert_eq!(rt; volume.mdb.place, 1024);
    Ok(())
}

#[test]
fn names_the_first_fault(rt: HostRuntime) -> Result<(), Fail> {
    refuses(
        &rt,
        read_with(rt.alloc(), MDB + 124, b"H+"),
        VolumeFault::Wrapper(1148),
    );
    refuses(
        &rt,
        read_with(rt.alloc(), LEAF + 8, b"\x00"),
        in_leaf(Condition::NoLeaf, 0, 8),
    );
    refuses(
        &rt,
        read_with(rt.alloc(), LEAF + 150, b"\x05"),
        in_leaf(Condition::Key, 2, 150),
    );
    refuses(
        &rt,
        read_with(rt.alloc(), LEAF + 104, b"\x09"),
        in_leaf(Condition::Body, 1, 96),
    );
    Ok(())
}

#[test]
fn refuses_short_bytes(rt: HostRuntime) -> Result<(), Fail> {
    let bytes = vec![in rt.alloc(); 0; 1200]?;
    refuses(
        &rt,
        read_volume(rt.alloc(), &mut MemDisk::from_bytes(bytes)),
        VolumeFault::Room(1200),
    );
    Ok(())
}

/// What becomes of the data fork of the volume's file where some bytes are others.
fn fork_with(alloc: Global, at: usize, new: &[u8]) -> Option<Result<Vec<Range>, ForkFault>> {
    let volume = read_with(alloc, at, new).ok()?;
    let file = volume.entries.last()?;
    ranges_of_fork(alloc, &volume, file, Which::Data).ok()
}

/// Its ranges are these.
fn has_ranges(rt: &impl Abort, found: Option<Result<Vec<Range>, ForkFault>>, ranges: &[Range]) {
    match found {
        Some(Ok(found)) => assert_eq!(rt; found.as_slice(), ranges),
        _ => assert!(rt; false),
    }
}

/// It is refused for this.
fn lacks_ranges(rt: &impl Abort, found: Option<Result<Vec<Range>, ForkFault>>, fault: ForkFault) {
    match found {
        Some(Err(found)) => assert_eq!(rt; found, fault),
        _ => assert!(rt; false),
    }
}

#[test]
fn finds_forks(rt: HostRuntime) {
    let alloc = rt.alloc();
    let first = Range {
        at: 3584,
        length: 5,
    };
    let other = Range {
        at: 5120,
        length: 5,
    };
    let both = [
        Range {
            at: 3584,
            length: 512,
        },
        Range {
            at: 5120,
            length: 1,
        },
    ];
    has_ranges(&rt, fork_with(alloc, 0, b""), &[first]);
    has_ranges(
        &rt,
        fork_with(alloc, FILE + 74, b"\x00\x06\x00\x01\x00\x03\x00\x01"),
        &[other],
    );
    has_ranges(&rt, fork_with(alloc, FILE + 26, b"\x00\x00\x00\x00"), &[]);
    has_ranges(&rt, fork_with(alloc, FILE + 26, b"\x00\x00\x02\x01"), &both);
    let place = FILE as u64;
    lacks_ranges(
        &rt,
        fork_with(alloc, FILE + 26, b"\x00\x00\x04\x01"),
        ForkFault::Cover(place),
    );
    lacks_ranges(
        &rt,
        fork_with(alloc, FILE + 74, b"\x00\x0C\x00\x01"),
        ForkFault::Blocks(place),
    );
    lacks_ranges(
        &rt,
        fork_with(alloc, FILE + 74, b"\x00\x0A\x00\x01"),
        ForkFault::There(place),
    );
}
