//! A volume of ten blocks by hand: boot blocks, information and map, a directory of one block, four allocation blocks, the
//! copy of the information, and a block that isn't used.

ghost use Rattle.std.specs.Prelude.{◌<◌};

use crate::fault::{ChainFault, MfsFault, NotMfs};
use crate::ranges::ranges_of_file;
use crate::volume::{MfsVolume, read_mfs};
use disk_ranges::read::Range;
use fork_disk::MemDisk;
use hfs_volume::entry::Which;
use std::alloc::{AllocError, Global};
use std::process::Abort;
use std::test::Fail;

const INFO: usize = 1024;

const MAP: usize = INFO + 64;

const FILE: usize = 1536;

const NEXT: usize = FILE + 58;

/// Where an entry would begin after one whose name has 255 bytes.
const AFTER: usize = FILE + 306;

const COPY: usize = 4096;

/// Puts bytes at a place.
fn put(bytes: &mut Vec<u8>, at: usize, new: &[u8]) {
    for (i, byte) in new.iter().enumerate() {
        if i < bytes.len() && at < bytes.len() - i {
            bytes[at + i] = *byte;
        }
    }
}

/// The information of a volume with two files, a directory of one block from block 3 on, and four allocation blocks of
/// 512 bytes from block 4 on; and the map: block 4 comes after block 2, block 3 is the last of its fork, block 5 is free.
fn put_info(bytes: &mut Vec<u8>, at: usize)
    requires { at < 65536 }
{
    put(bytes, at, b"\xD2\xD7");
    put(
        bytes,
        at + 12,
        b"\x00\x02\x00\x03\x00\x01\x00\x04\x00\x00\x02\x00",
    );
    put(bytes, at + 28, b"\x00\x04");
    put(bytes, at + 36, b"\x04Disk");
    put(bytes, at + 64, b"\x00\x40\x01\x00\x10\x00");
}

/// The volume "Disk" with the files "Read me", which has 600 bytes and a resource fork of five, and "x", which is empty.
fn volume(alloc: Global) -> Result<Vec<u8>, AllocError> {
    let mut bytes = vec![in alloc; 0; 5120]?;
    put_info(&mut bytes, INFO);
    put_info(&mut bytes, COPY);
    put(&mut bytes, FILE, b"\x80");
    put(
        &mut bytes,
        FILE + 18,
        b"\x00\x00\x00\x07\x00\x02\x00\x00\x02\x58",
    );
    put(&mut bytes, FILE + 32, b"\x00\x03\x00\x00\x00\x05");
    put(&mut bytes, FILE + 50, b"\x07Read me");
    put(&mut bytes, NEXT, b"\x81");
    put(&mut bytes, NEXT + 50, b"\x01x");
    // what comes after the entries doesn't count
    put(&mut bytes, AFTER, b"\x80");
    put(&mut bytes, AFTER + 50, b"\xFF");
    Ok(bytes)
}

/// The volume, where some bytes are others.
fn read_with(alloc: Global, at: usize, new: &[u8]) -> Result<MfsVolume, NotMfs> {
    let Ok(mut bytes) = volume(alloc) else {
        return Err(NotMfs::Volume(MfsFault::Room(0)));
    };
    put(&mut bytes, at, new);
    read_mfs(alloc, &mut MemDisk::from_bytes(bytes))
}

/// The volume with other bytes is refused for this.
fn refuses(rt: &impl Abort, read: Result<MfsVolume, NotMfs>, fault: MfsFault) {
    let found = match read {
        Ok(_) => None,
        Err(fault) => Some(fault),
    };
    assert_eq!(rt; found, Some(NotMfs::Volume(fault)));
}

#[test]
fn reads_a_volume(rt: HostRuntime) -> Result<(), Fail> {
    let volume = read_with(rt.alloc(), 0, b"")?;
    assert_eq!(rt; volume.size, 5120);
    assert_eq!(rt; volume.info.volume_name().as_bytes(), b"Disk".as_slice());
    assert_eq!(rt; volume.files.len(), 2);
    let file = volume.files[0];
    assert_eq!(rt; file.place, 1536);
    assert_eq!(rt; file.name_bytes(), b"Read me".as_slice());
    assert_eq!(rt; file.number(), 7);
    assert_eq!(rt; file.fork_size(Which::Data), 600);
    assert_eq!(rt; file.fork_size(Which::Resource), 5);
    assert_eq!(rt; volume.files[1].name_bytes(), b"x".as_slice());
    assert_eq!(rt; volume.files[1].place, 1594);
    Ok(())
}

#[test]
fn takes_the_copy_where_it_must(rt: HostRuntime) -> Result<(), Fail> {
    let volume = read_with(rt.alloc(), INFO, b"xx")?;
    assert_eq!(rt; volume.info.place, 4096);
    let volume = read_with(rt.alloc(), COPY, b"xx")?;
    assert_eq!(rt; volume.info.place, 1024);
    Ok(())
}

#[test]
fn names_the_first_fault(rt: HostRuntime) {
    refuses(
        &rt,
        read_with(rt.alloc(), INFO + 20, b"\x00\x00\x00\x64"),
        MfsFault::BlockSize(1044),
    );
    refuses(
        &rt,
        read_with(rt.alloc(), INFO + 20, b"\x00\x00\x00\x00"),
        MfsFault::BlockSize(1044),
    );
    refuses(
        &rt,
        read_with(rt.alloc(), INFO + 18, b"\x01\x2B"),
        MfsFault::Map(1042),
    );
    refuses(
        &rt,
        read_with(rt.alloc(), INFO + 16, b"\x00\x08"),
        MfsFault::Directory(1038),
    );
    refuses(
        &rt,
        read_with(rt.alloc(), FILE + 50, b"\x00"),
        MfsFault::Entry(1536),
    );
    refuses(
        &rt,
        read_with(rt.alloc(), NEXT + 50, b"\x00"),
        MfsFault::Entry(1594),
    );
    refuses(
        &rt,
        read_with(rt.alloc(), FILE + 50, b"\xFF"),
        MfsFault::Entry(1842),
    );
}

#[test]
fn refuses_bytes_that_are_no_volume(rt: HostRuntime) -> Result<(), Fail> {
    for size in [0, 1535, 1536, 5120] {
        let bytes = vec![in rt.alloc(); 0; size]?;
        let fault = if size < 1536 {
            MfsFault::Room(size as u64)
        } else {
            MfsFault::Signature(1024)
        };
        refuses(
            &rt,
            read_mfs(rt.alloc(), &mut MemDisk::from_bytes(bytes)),
            fault,
        );
    }
    Ok(())
}

/// Where the data fork of the first file is, if some bytes are others.
fn fork_with(alloc: Global, at: usize, new: &[u8]) -> Option<Result<Vec<Range>, ChainFault>> {
    let volume = read_with(alloc, at, new).ok()?;
    let file = volume.files.first()?;
    ranges_of_file(alloc, &volume, file, Which::Data).ok()
}

/// Its ranges are these.
fn has_ranges(rt: &impl Abort, found: Option<Result<Vec<Range>, ChainFault>>, ranges: &[Range]) {
    match found {
        Some(Ok(found)) => assert_eq!(rt; found.as_slice(), ranges),
        _ => assert!(rt; false),
    }
}

/// It is refused for this.
fn lacks_ranges(rt: &impl Abort, found: Option<Result<Vec<Range>, ChainFault>>, fault: ChainFault) {
    match found {
        Some(Err(found)) => assert_eq!(rt; found, fault),
        _ => assert!(rt; false),
    }
}

#[test]
fn finds_forks(rt: HostRuntime) {
    let alloc = rt.alloc();
    let two = Range {
        at: 2048,
        length: 512,
    };
    let four = Range {
        at: 3072,
        length: 88,
    };
    has_ranges(&rt, fork_with(alloc, 0, b""), &[two, four]);
    has_ranges(
        &rt,
        fork_with(alloc, FILE + 24, b"\x00\x00\x02\x00"),
        &[two],
    );
    has_ranges(
        &rt,
        fork_with(alloc, FILE + 22, b"\x00\x00\x00\x00\x00\x00"),
        &[],
    );
    let place = FILE as u64;
    // the chain ends, leads back, leaves the map; the blocks lie after the volume's end
    lacks_ranges(
        &rt,
        fork_with(alloc, MAP, b"\x00\x10"),
        ChainFault::Chain(place),
    );
    lacks_ranges(
        &rt,
        fork_with(alloc, MAP, b"\x00\x20"),
        ChainFault::Chain(place),
    );
    lacks_ranges(
        &rt,
        fork_with(alloc, MAP, b"\x00\x60"),
        ChainFault::Chain(place),
    );
    lacks_ranges(
        &rt,
        fork_with(alloc, INFO + 28, b"\x00\x09"),
        ChainFault::There(place),
    );
}
