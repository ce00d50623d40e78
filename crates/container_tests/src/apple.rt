//! AppleSingle and AppleDouble.

use mac_files::container::Container;
use mac_files::contents::{Contents, Dates, FinderInfo};
use mac_files::fault::{ContainerFault, Entry};
use mac_files::part::Part;
use mac_files::{OldFile, container_of, read_contents};

/// AppleSingle of version 1. Its entries are listed in the order 2, 3, 1, 9, 8, and lie in the order 3, 9, 2, 1, 8,
/// with a byte of no entry before the resource fork.
const SINGLE: &[u8] = b"\x00\x05\x16\x00\x00\x01\x00\x00Macintosh       \x00\x05\
    \x00\x00\x00\x02\x00\x00\x00\x65\x00\x00\x00\x03\
    \x00\x00\x00\x03\x00\x00\x00\x56\x00\x00\x00\x04\
    \x00\x00\x00\x01\x00\x00\x00\x68\x00\x00\x00\x02\
    \x00\x00\x00\x09\x00\x00\x00\x5A\x00\x00\x00\x0A\
    \x00\x00\x00\x08\x00\x00\x00\x6A\x00\x00\x00\x08\
    NameTEXTttxt\x01\x20?FRKDA\x00\x00\x00\x01\xFF\xFF\xFF\xFF";

/// AppleDouble of version 2: an entry of no bytes that lies nowhere, what the Finder knows, and a fork.
const DOUBLE: &[u8] =
    b"\x00\x05\x16\x07\x00\x02\x00\x00\x00\x00\x00\x00\x00\x00\x00\x00\x00\x00\x00\x00\x00\x00\x00\x00\x00\x03\
    \x00\x00\x00\x04\xFF\xFF\xFF\xFF\x00\x00\x00\x00\
    \x00\x00\x00\x09\x00\x00\x00\x3E\x00\x00\x00\x09\
    \x00\x00\x00\x02\x00\x00\x00\x47\x00\x00\x00\x03\
    TEXTttxt\x01FRK";

/// A part of a file.
fn part(offset: usize, length: usize) -> Part {
    Part { offset, length }
}

/// What an entry of SINGLE lies outside of.
fn outside(at: usize, id: u32, part: Part, length: usize) -> ContainerFault {
    let entry = Entry { at, id, part };
    ContainerFault::EntryOutside { entry, length }
}

/// What the first bytes of SINGLE say, so many.
fn told_of_single(length: usize) -> Result<Contents, ContainerFault> {
    match length {
        0..26 => Err(ContainerFault::EndsInHeader { needed: 26, length }),
        26..86 => Err(ContainerFault::EntriesOutside { count: 5, length }),
        86..104 => Err(outside(26, 2, part(101, 3), length)),
        104..106 => Err(outside(50, 1, part(104, 2), length)),
        106..114 => Err(outside(74, 8, part(106, 8), length)),
        _ => Ok(Contents {
            resource_fork: Some(part(101, 3)),
            data_fork: Some(part(104, 2)),
            name: Some(part(86, 4)),
            comment: None,
            finder: Some(FinderInfo {
                kind: *b"TEXT",
                creator: *b"ttxt",
                flags: 0x0120,
            }),
            dates: Some(Dates {
                created: 1,
                modified: 0xFFFF_FFFF,
            }),
        }),
    }
}

#[test]
fn reads_each_front_of_a_single(rt: HostRuntime) {
    assert_eq!(rt; SINGLE.len(), 114);
    for length in 0..115 {
        let front = &SINGLE[..length];
        let known = container_of(front);
        let wanted = if length < 4 {
            None
        } else {
            Some(Container::AppleSingle)
        };
        assert_eq!(rt; known, wanted, "{length} bytes");
        assert_eq!(rt;
            read_contents(Container::AppleSingle, front),
            told_of_single(length),
            "{length} bytes"
        );
    }
    let opened = OldFile::open(rt.alloc(), SINGLE).ok();
    assert_eq!(rt;
        opened.as_ref().map(|file| file.fork()),
        Some(b"FRK".as_slice())
    );
}

#[test]
fn reads_a_double(rt: HostRuntime) {
    let wanted = Contents {
        resource_fork: Some(part(71, 3)),
        data_fork: None,
        name: None,
        comment: None,
        finder: None,
        dates: None,
    };
    assert_eq!(rt; container_of(DOUBLE), Some(Container::AppleDouble));
    assert_eq!(rt; read_contents(Container::AppleDouble, DOUBLE), Ok(wanted));
    let opened = OldFile::open(rt.alloc(), DOUBLE).ok();
    assert_eq!(rt;
        opened.as_ref().map(|file| file.fork()),
        Some(b"FRK".as_slice())
    );
}
