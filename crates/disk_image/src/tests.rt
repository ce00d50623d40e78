//! Images whose bytes are laid out by hand.

use crate::fault::{ImageFault, OpenFault};
use crate::image::{Image, read_image};
use crate::known::{Format, Known};
use crate::open::{open_fork, open_volume};
use disk_ranges::are_within;
use disk_ranges::read::Range;
use fork_disk::MemDisk;
use fork_disk::disk::ForkDisk;
use hfs_volume::entry::Which;
use hfs_volume::read_volume;
use std::alloc::{AllocError, Global};
use std::process::Abort;
use std::test::Fail;

/// Bytes that are put at a place.
type Piece<'a> = (usize, &'a [u8]);

/// So many zeros, with these bytes put over them.
fn bytes_with(alloc: Global, size: usize, pieces: &[Piece<'_>]) -> Result<Vec<u8>, AllocError> {
    let mut bytes = vec![in alloc; 0; size]?;
    for (at, piece) in pieces {
        put(&mut bytes, *at, piece);
    }
    Ok(bytes)
}

/// Puts bytes at a place.
fn put(bytes: &mut Vec<u8>, at: usize, piece: &[u8]) {
    for (i, byte) in piece.iter().enumerate() {
        if i < bytes.len() && at < bytes.len() - i {
            bytes[at + i] = *byte;
        }
    }
}

/// What such a file is read as.
fn read_with(alloc: Global, size: usize, pieces: &[Piece<'_>]) -> Result<Image, OpenFault> {
    let bytes = bytes_with(alloc, size, pieces)?;
    read_image(alloc, &mut MemDisk::from_bytes(bytes))
}

/// Such a file is refused for this.
fn refuses(rt: &impl Abort, alloc: Global, size: usize, pieces: &[Piece<'_>], fault: ImageFault) {
    let found = match read_with(alloc, size, pieces) {
        Ok(_) => None,
        Err(fault) => Some(fault),
    };
    assert_eq!(rt; found, Some(OpenFault::Image(fault)));
}

/// Such a file is known as this, and has volumes in these ranges, or faults in their place.
fn reads(
    rt: &impl Abort,
    alloc: Global,
    size: usize,
    pieces: &[Piece<'_>],
    known: Known,
    volumes: &[(u16, Result<(Format, Range), ImageFault>)],
) {
    let Ok(image) = read_with(alloc, size, pieces) else {
        assert!(rt; false);
        return;
    };
    assert_eq!(rt; image.known, known);
    assert_eq!(rt; image.contents.volumes.len(), volumes.len());
    for (i, placed) in image.contents.volumes.iter().enumerate() {
        if i < volumes.len() {
            let (part, volume) = volumes[i];
            assert_eq!(rt; placed.part, part);
            match (&placed.found, volume) {
                (Ok(found), Ok((format, range))) => {
                    assert_eq!(rt; found.format, format);
                    assert_eq!(rt; found.view.ranges.as_slice(), [range].as_slice());
                }
                (Err(found), Err(fault)) => assert_eq!(rt; *found, fault),
                _ => assert!(rt; false),
            }
        }
    }
}

/// A volume's first block.
const HFS: Piece<'static> = (1024, b"BD");

const NAME: Piece<'static> = (1060, b"\x04Disk");

const MFS: Piece<'static> = (1024, b"\xD2\xD7");

#[test]
fn refuses_other_images(rt: HostRuntime) {
    let alloc = rt.alloc();
    refuses(&rt, alloc, 0, &[], ImageFault::Refused(Known::Other));
    refuses(
        &rt,
        alloc,
        512,
        &[(0, b"koly")],
        ImageFault::Refused(Known::Udif),
    );
    refuses(
        &rt,
        alloc,
        8,
        &[(0, b"encrcdsa")],
        ImageFault::Refused(Known::Encrypted),
    );
    refuses(
        &rt,
        alloc,
        2000,
        &[(0, b"sprs")],
        ImageFault::Refused(Known::Sparse),
    );
    refuses(
        &rt,
        alloc,
        40000,
        &[(32768, b"\x01CD001")],
        ImageFault::Refused(Known::Iso),
    );
    refuses(
        &rt,
        alloc,
        2048,
        &[(1024, b"H+\x00\x04")],
        ImageFault::Refused(Known::Volume(Format::HfsPlus)),
    );
}

#[test]
fn refuses_a_raw_disc_of_another_mode(rt: HostRuntime) {
    refuses(
        &rt,
        rt.alloc(),
        2400,
        &[
            (0, b"\x00\xFF\xFF\xFF\xFF\xFF\xFF\xFF\xFF\xFF\xFF\x00"),
            (15, b"\x03"),
        ],
        ImageFault::Sector(3),
    );
}

#[test]
fn finds_volumes(rt: HostRuntime) {
    let alloc = rt.alloc();
    let whole = Range {
        at: 0,
        length: 4096,
    };
    let hfs = (0, Ok((Format::Hfs, whole)));
    let mfs = (0, Ok((Format::Mfs, whole)));
    reads(
        &rt,
        alloc,
        4096,
        &[HFS, NAME],
        Known::Volume(Format::Hfs),
        &[hfs],
    );
    reads(&rt, alloc, 4096, &[MFS], Known::Volume(Format::Mfs), &[mfs]);
    reads(
        &rt,
        alloc,
        4096,
        &[(3072, b"BD"), (3108, b"\x1B")],
        Known::Volume(Format::Hfs),
        &[hfs],
    );
}

#[test]
fn finds_the_volume_of_a_disk_copy(rt: HostRuntime) {
    let data = Range {
        at: 84,
        length: 2048,
    };
    reads(
        &rt,
        rt.alloc(),
        3000,
        &[
            (0, b"\x01x"),
            (64, b"\x00\x00\x08\x00"),
            (82, b"\x01\x00"),
            (1108, b"BD"),
            (1144, b"\x01x"),
        ],
        Known::DiskCopy,
        &[(0, Ok((Format::Hfs, data)))],
    );
}

/// Entries of a partition map: three, of which the second is a volume of eight blocks from block 6 on, and the third
/// has another type.
const ENTRIES: [Piece<'static>; 6] = [
    (
        512,
        b"PM\x00\x00\x00\x00\x00\x03\x00\x00\x00\x01\x00\x00\x00\x3FApple",
    ),
    (560, b"Apple_partition_map"),
    (
        1024,
        b"PM\x00\x00\x00\x00\x00\x03\x00\x00\x00\x06\x00\x00\x00\x08MacOS",
    ),
    (1072, b"Apple_HFS"),
    (
        1536,
        b"PM\x00\x00\x00\x00\x00\x03\x00\x00\x00\x0E\x00\x00\x00\x02Extra",
    ),
    (1584, b"Apple_Free"),
];

/// The same, with other bytes.
fn map_with(alloc: Global, pieces: &[Piece<'static>]) -> Result<Vec<Piece<'static>>, AllocError> {
    let mut all = ENTRIES.to_vec(alloc)?;
    all.extend_from_slice(pieces)?;
    Ok(all)
}

#[test]
fn finds_partitions(rt: HostRuntime) -> Result<(), Fail> {
    let alloc = rt.alloc();
    let volume = Range {
        at: 3072,
        length: 4096,
    };
    let cut = Range {
        at: 3072,
        length: 1928,
    };
    let good = map_with(alloc, &[(4096, b"BD"), (4132, b"\x01x")])?;
    reads(
        &rt,
        alloc,
        8192,
        &good,
        Known::Map,
        &[(2, Ok((Format::Hfs, volume)))],
    );
    reads(
        &rt,
        alloc,
        5000,
        &good,
        Known::Map,
        &[(2, Ok((Format::Hfs, cut)))],
    );
    Ok(())
}

#[test]
fn names_faults_of_partitions(rt: HostRuntime) -> Result<(), Fail> {
    let alloc = rt.alloc();
    reads(
        &rt,
        alloc,
        8192,
        &map_with(alloc, &[(1584, b"apple_mfs\x00")])?,
        Known::Map,
        &[
            (2, Err(ImageFault::Part(2, None))),
            (3, Err(ImageFault::Part(3, None))),
        ],
    );
    reads(
        &rt,
        alloc,
        8192,
        &map_with(alloc, &[(1034, b"\x00\x40")])?,
        Known::Map,
        &[(2, Err(ImageFault::Start(2, 0x8000)))],
    );
    Ok(())
}

#[test]
fn names_the_fault_of_a_map(rt: HostRuntime) -> Result<(), Fail> {
    let alloc = rt.alloc();
    refuses(
        &rt,
        alloc,
        8192,
        &map_with(alloc, &[(519, b"\x00")])?,
        ImageFault::Entries(0, 516),
    );
    refuses(&rt, alloc, 2047, &ENTRIES, ImageFault::Entries(3, 516));
    refuses(
        &rt,
        alloc,
        8192,
        &map_with(alloc, &[(1536, b"\x00\x00")])?,
        ImageFault::Mark(3, 1536),
    );
    refuses(&rt, alloc, 8192, &[(0, b"ER")], ImageFault::Mark(1, 512));
    refuses(
        &rt,
        alloc,
        8192,
        &map_with(alloc, &[(1072, b"Apple_Boot\x00")])?,
        ImageFault::NoVolume(3),
    );
    Ok(())
}

#[test]
fn finds_partitions_of_other_maps(rt: HostRuntime) {
    let alloc = rt.alloc();
    let volume = Range {
        at: 8192,
        length: 4096,
    };
    reads(
        &rt,
        alloc,
        16384,
        &[
            (0, b"ER\x08\x00"),
            (
                2048,
                b"PM\x00\x00\x00\x00\x00\x01\x00\x00\x00\x04\x00\x00\x00\x02",
            ),
            (2096, b"Apple_HFS"),
            (9216, b"BD"),
            (9252, b"\x01x"),
        ],
        Known::Map,
        &[(1, Ok((Format::Hfs, volume)))],
    );
    reads(
        &rt,
        alloc,
        16384,
        &[
            (512, b"TS\x00\x00\x00\x10\x00\x00\x00\x08TFS1"),
            (9216, b"\xD2\xD7"),
        ],
        Known::OldMap,
        &[(1, Ok((Format::Mfs, volume)))],
    );
}

/// A volume of 14 blocks, which a partition has: its catalog has a file, whose data fork has five bytes in block 3.
const VOLUME: [Piece<'static>; 14] = [
    (1024, b"BD"),
    (1042, b"\x00\x0C\x00\x00\x02\x00"),
    (1052, b"\x00\x04"),
    (1060, b"\x04Disk"),
    (1170, b"\x00\x00\x04\x00\x00\x00\x00\x02"),
    (2056, b"\x01"),
    (2072, b"\x00\x00\x00\x01"),
    (2080, b"\x02\x00"),
    (2568, b"\xFF\x01\x00\x01"),
    (2574, b"\x0D\x00\x00\x00\x00\x02\x07Read me\x02"),
    (2614, b"\x00\x00\x00\x05"),
    (2662, b"\x00\x03\x00\x01"),
    (3068, b"\x00\x82\x00\x0E"),
    (3584, b"hello"),
];

/// The first five bytes of the data fork of the first file of the first volume of an image.
fn first_bytes(alloc: Global, bytes: Vec<u8>) -> Option<[u8; 5]> {
    let mut disk = MemDisk::from_bytes(bytes);
    let Ok(image) = read_image(alloc, &mut disk) else {
        return None;
    };
    let Some(Ok(found)) = image.into_volume(0) else {
        return None;
    };
    let mut volume_disk = open_volume(disk, found);
    let Ok(volume) = read_volume(alloc, &mut volume_disk) else {
        return None;
    };
    let file = volume.entries.first()?;
    let Ok(Ok(mut fork)) = open_fork(alloc, volume_disk, &volume, file, Which::Data) else {
        return None;
    };
    let mut buffer = [0; 5];
    if matches!(fork.len(), Ok(5)) && fork.read_at(0, &mut buffer).is_ok() {
        Some(buffer)
    } else {
        None
    }
}

#[test]
fn opens_a_fork_in_a_partition(rt: HostRuntime) -> Result<(), Fail> {
    let mut bytes = bytes_with(rt.alloc(), 10240, &ENTRIES)?;
    for (at, piece) in &VOLUME {
        put(&mut bytes, 3072 + *at, piece);
    }
    put(&mut bytes, 1039, b"\x0E");
    assert_eq!(rt; first_bytes(rt.alloc(), bytes), Some(*b"hello"));
    Ok(())
}
