//! MacBinary.

use mac_files::container::{Container, Version};
use mac_files::contents::{Contents, Dates, FinderInfo};
use mac_files::fault::{ContainerFault, Fork};
use mac_files::part::Part;
use mac_files::{container_of, read_contents};
use std::alloc::{AllocError, Global};

/// A header of version I: a file `Name` with 3 bytes of data and 5 of resources.
const HEADER: &[u8] = b"\
    \x00\x04Name\x00\x00\x00\x00\x00\x00\x00\x00\x00\x00\
    \x00\x00\x00\x00\x00\x00\x00\x00\x00\x00\x00\x00\x00\x00\x00\x00\
    \x00\x00\x00\x00\x00\x00\x00\x00\x00\x00\x00\x00\x00\x00\x00\x00\
    \x00\x00\x00\x00\x00\x00\x00\x00\x00\x00\x00\x00\x00\x00\x00\x00\
    \x00TEXTttxt\x01\x00\x00\x00\x00\x00\x00\
    \x00\x00\x00\x00\x00\x00\x03\x00\x00\x00\x05\x00\x00\x00\x01\x00\
    \x00\x00\x02\x00\x00\x00\x00\x00\x00\x00\x00\x00\x00\x00\x00\x00\
    \x00\x00\x00\x00\x00\x00\x00\x00\x00\x00\x00\x00\x00\x00\x00\x00";

/// The header of a version. Those of II and III say that a second header of one byte comes next, and have a checksum,
/// which Python's `binascii.crc_hqx` gives.
fn header_of(alloc: Global, version: Version) -> Result<Vec<u8>, AllocError> {
    let mut header = HEADER.to_vec(alloc)?;
    let (signature, end) = match version {
        Version::I => return Ok(header),
        Version::II => ([0; 4], [0, 1, 0x81, 0x81, 0x8E, 0x03]),
        Version::III => (*b"mBIN", [0, 1, 0x82, 0x81, 0xD0, 0x0B]),
    };
    header.truncate(101);
    header.push(0x20)?;
    header.extend_from_slice(&signature)?;
    header.resize(120, 0)?;
    header.extend_from_slice(&end)?;
    header.resize(128, 0)?;
    Ok(header)
}

/// A file with the header of this version, its data fork at 256 and its resource fork at 384. To that of version I they
/// are at 128 and 256.
fn file_with(alloc: Global, version: Version) -> Result<Vec<u8>, AllocError> {
    let mut file = header_of(alloc, version)?;
    file.resize(256, 0)?;
    file.extend_from_slice(b"abc")?;
    file.resize(384, 0)?;
    file.extend_from_slice(b"FORK!")?;
    Ok(file)
}

/// What the header says, with forks at these places.
fn told(data: usize, resource: usize, flags: u16) -> Contents {
    Contents {
        resource_fork: Some(Part {
            offset: resource,
            length: 5,
        }),
        data_fork: Some(Part {
            offset: data,
            length: 3,
        }),
        name: Some(Part {
            offset: 2,
            length: 4,
        }),
        comment: None,
        finder: Some(FinderInfo {
            kind: *b"TEXT",
            creator: *b"ttxt",
            flags,
        }),
        dates: Some(Dates {
            created: 1,
            modified: 2,
        }),
    }
}

#[test]
fn reads_each_version(rt: HostRuntime) -> Result<(), AllocError> {
    let cases = [
        (Version::I, told(128, 256, 0x0100)),
        (Version::II, told(256, 384, 0x0120)),
        (Version::III, told(256, 384, 0x0120)),
    ];
    for (version, wanted) in cases {
        let container = Container::MacBinary(version);
        let file = file_with(rt.alloc(), version)?;
        assert_eq!(rt; container_of(&file), Some(container));
        assert_eq!(rt; read_contents(container, &file), Ok(wanted));
    }
    Ok(())
}

/// What the first bytes of the file of version II say, so many.
fn told_of_two(length: usize) -> Result<Contents, ContainerFault> {
    let (fork, offset, count) = match length {
        0..128 => {
            return Err(ContainerFault::EndsInHeader {
                needed: 128,
                length,
            });
        }
        128..259 => (Fork::Data, 256, 3),
        259..389 => (Fork::Resource, 384, 5),
        _ => return Ok(told(256, 384, 0x0120)),
    };
    let part = Part {
        offset,
        length: count,
    };
    Err(ContainerFault::ForkOutside { fork, part, length })
}

#[test]
fn reads_each_front(rt: HostRuntime) -> Result<(), AllocError> {
    let container = Container::MacBinary(Version::II);
    let mut front = file_with(rt.alloc(), Version::II)?;
    for length in (0..390).rev() {
        front.truncate(length);
        let wanted = if length < 128 { None } else { Some(container) };
        assert_eq!(rt; container_of(&front), wanted, "{length} bytes");
        assert_eq!(rt;
            read_contents(container, &front),
            told_of_two(length),
            "{length} bytes"
        );
    }
    Ok(())
}

/// What is made of the file of version II where the byte at a place of its header is another.
fn seen(at: usize, file: &[u8]) -> bool {
    let container = container_of(file);
    let version = Container::MacBinary(Version::II);
    match at {
        0 | 1 | 74 | 82 | 123 => container.is_none(),
        126 | 127 => container == Some(version) && read_contents(version, file).is_ok(),
        _ => {
            container == Some(version)
                && matches!(
                    read_contents(version, file),
                    Err(ContainerFault::ChecksumDiffers { .. })
                )
        }
    }
}

#[test]
fn sees_each_changed_byte(rt: HostRuntime) -> Result<(), AllocError> {
    for at in 0..128 {
        let mut file = file_with(rt.alloc(), Version::II)?;
        if let Some(byte) = file.get_mut(at) {
            *byte ^= 0x55;
        }
        assert!(rt; seen(at, &file), "byte {at}");
    }
    Ok(())
}
