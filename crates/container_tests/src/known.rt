//! What a file is known as.

use mac_files::archive::Archive;
use mac_files::bin_hex::is_bin_hex;
use mac_files::container::Container;
use mac_files::kind::FileKind;
use mac_files::{container_of, is_raw, kind_of};
use std::alloc::{AllocError, Global};

/// The beginning of a file: these bytes at a place, and zeros.
fn beginning(alloc: Global, bytes: &[u8], at: usize) -> Result<Vec<u8>, AllocError> {
    let mut file = vec![in alloc; 0; at]?;
    file.extend_from_slice(bytes)?;
    file.resize(2048, 0)?;
    Ok(file)
}

#[test]
fn knows_a_fork_by_its_header(rt: HostRuntime) -> Result<(), AllocError> {
    let cases: [(&[u8], Option<Container>); 6] = [
        // as the Resource Manager writes it
        (
            b"\x00\x00\x01\x00\x00\x00\x01\x10\x00\x00\x00\x10\x00\x00\x00\x1C",
            Some(Container::Raw),
        ),
        // with its data after its map, at an offset that is the magic of AppleSingle
        (
            b"\x00\x05\x16\x00\x00\x02\x00\x00\x00\x00\x00\x10\x00\x00\x00\x1C",
            Some(Container::Raw),
        ),
        // with its data at an offset with which MacBinary may begin
        (
            b"\x00\x01\x00\x00\x00\x00\x01\x00\x00\x00\x00\x10\x00\x00\x00\x1C",
            Some(Container::Raw),
        ),
        // a map too short
        (
            b"\x00\x00\x01\x00\x00\x00\x01\x10\x00\x00\x00\x10\x00\x00\x00\x1B",
            None,
        ),
        // an offset too far away
        (
            b"\x00\x00\x01\x00\x01\x00\x01\x10\x00\x00\x00\x10\x00\x00\x00\x1C",
            None,
        ),
        (b"(This file must be converted with BinHex 4.0)\r\r:", None),
    ];
    for (bytes, wanted) in cases {
        assert_eq!(rt; container_of(&beginning(rt.alloc(), bytes, 0)?), wanted);
    }
    Ok(())
}

#[test]
fn knows_a_fork_past_16_mb_by_its_front_and_its_length(rt: HostRuntime) -> Result<(), AllocError> {
    let comment = b"\n(This file must be converted with BinHex 4.0)";
    let header = b"\x00\x00\x01\x00\x01\x00\x01\x10\x00\x00\x00\x10\x00\x00\x00\x1C";
    let file = beginning(rt.alloc(), header, 0)?;
    assert!(rt; is_raw(0x0100_012C, &file));
    assert!(rt; !is_raw(0x0100_012B, &file));
    let mut fork = beginning(
        rt.alloc(),
        b"\x00\x00\x00\x10\x00\x00\x00\x80\x01\x00\x00\x00\x00\x00\x00\x1C",
        0,
    )?;
    fork.extend_from_slice(comment)?;
    assert!(rt; is_bin_hex(&fork));
    fork[8] = 0;
    assert!(rt; !is_bin_hex(&fork));
    Ok(())
}

#[test]
fn knows_archives(rt: HostRuntime) -> Result<(), AllocError> {
    let cases: [(&[u8], usize, Option<Archive>); 10] = [
        (
            b"SIT!\x00\x01\x00\x00\x0C\xE5rLau",
            0,
            Some(Archive::StuffIt),
        ),
        (b"StuffIt (c)1997-", 0, Some(Archive::StuffIt)),
        (
            b"\x01\x01\x00\x00\x00\x00\x00\x08",
            0,
            Some(Archive::CompactPro),
        ),
        (
            b"\x04Disk\x00\x00\x00\x00\x00\x00\x00\x00\x00\x00\x00\x00\x00\x00\x00\
                \x00\x00\x00\x00\x00\x00\x00\x00\x00\x00\x00\x00\x00\x00\x00\x00\x00\x00\x00\x00\x00\x00\x00\x00\x00\x00\x00\x00\x00\x00\x00\x00\
                \x00\x00\x00\x00\x00\x00\x00\x00\x00\x00\x00\x00\x00\x00\x00\x00\x00\x00\x00\x00\x00\x00\x00\x00\x00\x00\x00\x00\x00\x00\x01\x00",
            0,
            Some(Archive::DiskCopy),
        ),
        (b"PK\x03\x04", 0, Some(Archive::Zip)),
        (b"\x1F\x8B\x08", 0, Some(Archive::Gzip)),
        (b"BD", 1024, Some(Archive::Hfs)),
        (b"H+", 1024, Some(Archive::HfsPlus)),
        (b"HX", 1024, Some(Archive::HfsPlus)),
        (b"ABC", 0, None),
    ];
    for (bytes, at, wanted) in cases {
        let file = beginning(rt.alloc(), bytes, at)?;
        assert_eq!(rt;
            kind_of(&file),
            wanted.map_or(FileKind::Unknown, FileKind::Archive)
        );
    }
    Ok(())
}
