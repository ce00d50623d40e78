//! Files with another resource fork, and files that are written in another container.

use mac_files::OldFile;
use mac_files::container::{Container, Version};
use mac_files::contents::FinderInfo;
use mac_files::kind::FileKind;
use mac_write::mac_file::MacFile;
use mac_write::refusal::Refusal;
use mac_write::{Target, parts_of, with_fork, write_file};
use std::alloc::{AllocError, Global};

/// AppleSingle of version 1, listed in the order 2, 3, 1: the name, a byte of no entry, the resource fork, a byte of no
/// entry, and the data fork.
const SINGLE: &[u8] = b"\x00\x05\x16\x00\x00\x01\x00\x00Macintosh       \x00\x03\
    \x00\x00\x00\x02\x00\x00\x00\x43\x00\x00\x00\x03\
    \x00\x00\x00\x03\x00\x00\x00\x3E\x00\x00\x00\x04\
    \x00\x00\x00\x01\x00\x00\x00\x47\x00\x00\x00\x02\
    Name?FRK!DA";

/// The same with a fork of five bytes: what follows it moves by two.
const SINGLE_LONGER: &[u8] = b"\x00\x05\x16\x00\x00\x01\x00\x00Macintosh       \x00\x03\
    \x00\x00\x00\x02\x00\x00\x00\x43\x00\x00\x00\x05\
    \x00\x00\x00\x03\x00\x00\x00\x3E\x00\x00\x00\x04\
    \x00\x00\x00\x01\x00\x00\x00\x49\x00\x00\x00\x02\
    Name?FORKS!DA";

/// AppleDouble of version 2 with nothing but a name.
const DOUBLE: &[u8] =
    b"\x00\x05\x16\x07\x00\x02\x00\x00\x00\x00\x00\x00\x00\x00\x00\x00\x00\x00\x00\x00\x00\x00\x00\x00\x00\x01\
    \x00\x00\x00\x03\x00\x00\x00\x26\x00\x00\x00\x04\
    Name";

/// The same with a fork, whose entry comes after the list, so that the name moves by 12.
const DOUBLE_WITH_FORK: &[u8] =
    b"\x00\x05\x16\x07\x00\x02\x00\x00\x00\x00\x00\x00\x00\x00\x00\x00\x00\x00\x00\x00\x00\x00\x00\x00\x00\x02\
    \x00\x00\x00\x03\x00\x00\x00\x32\x00\x00\x00\x04\
    \x00\x00\x00\x02\x00\x00\x00\x36\x00\x00\x00\x03\
    NameFRK";

/// A file of a name, a type, a creator, a flag and two forks, made at the end of 1999 and changed at the beginning of
/// 2000.
const FILE: MacFile = MacFile {
    name: b"Name",
    finder: FinderInfo {
        kind: *b"TEXT",
        creator: *b"ttxt",
        flags: 0x0120,
    },
    created: 3_029_529_599,
    modified: 3_029_529_600,
    comment: b"hi",
    data_fork: b"abc",
    resource_fork: b"FORK!",
};

/// FILE as AppleDouble: what the Finder knows and the fork come first.
const FILE_DOUBLE: &[u8] =
    b"\x00\x05\x16\x07\x00\x02\x00\x00\x00\x00\x00\x00\x00\x00\x00\x00\x00\x00\x00\x00\x00\x00\x00\x00\x00\x05\
    \x00\x00\x00\x09\x00\x00\x00\x56\x00\x00\x00\x20\
    \x00\x00\x00\x02\x00\x00\x00\x76\x00\x00\x00\x05\
    \x00\x00\x00\x03\x00\x00\x00\x7B\x00\x00\x00\x04\
    \x00\x00\x00\x04\x00\x00\x00\x7F\x00\x00\x00\x02\
    \x00\x00\x00\x08\x00\x00\x00\x81\x00\x00\x00\x10\
    TEXTttxt\x01\x20\x00\x00\x00\x00\x00\x00\
    \x00\x00\x00\x00\x00\x00\x00\x00\x00\x00\x00\x00\x00\x00\x00\x00\
    FORK!Namehi\
    \xFF\xFF\xFF\xFF\x00\x00\x00\x00\x80\x00\x00\x00\x80\x00\x00\x00";

/// FILE without a name, a comment and dates as AppleDouble: their entries aren't there.
const BARE_DOUBLE: &[u8] =
    b"\x00\x05\x16\x07\x00\x02\x00\x00\x00\x00\x00\x00\x00\x00\x00\x00\x00\x00\x00\x00\x00\x00\x00\x00\x00\x02\
    \x00\x00\x00\x09\x00\x00\x00\x32\x00\x00\x00\x20\
    \x00\x00\x00\x02\x00\x00\x00\x52\x00\x00\x00\x05\
    TEXTttxt\x01\x20\x00\x00\x00\x00\x00\x00\
    \x00\x00\x00\x00\x00\x00\x00\x00\x00\x00\x00\x00\x00\x00\x00\x00\
    FORK!";

#[test]
fn changes_apple_forks(rt: HostRuntime) -> Result<(), Refusal> {
    let longer = with_fork(rt.alloc(), Container::AppleSingle, SINGLE, b"FORKS")?;
    assert_eq!(rt; longer.as_slice(), SINGLE_LONGER);
    let added = with_fork(rt.alloc(), Container::AppleDouble, DOUBLE, b"FRK")?;
    assert_eq!(rt; added.as_slice(), DOUBLE_WITH_FORK);
    Ok(())
}

#[test]
fn writes_a_double(rt: HostRuntime) -> Result<(), Refusal> {
    let double = write_file(rt.alloc(), Target::AppleDouble, &FILE)?;
    assert_eq!(rt; double.as_slice(), FILE_DOUBLE);
    let bare = MacFile {
        name: b"",
        created: 0,
        modified: 0,
        comment: b"",
        ..FILE
    };
    let double = write_file(rt.alloc(), Target::AppleDouble, &bare)?;
    assert_eq!(rt; double.as_slice(), BARE_DOUBLE);
    Ok(())
}

/// The first 128 bytes of FILE as MacBinary III. Python's `binascii.crc_hqx` gives the checksum.
const HEADER: &[u8] = b"\
    \x00\x04Name\x00\x00\x00\x00\x00\x00\x00\x00\x00\x00\
    \x00\x00\x00\x00\x00\x00\x00\x00\x00\x00\x00\x00\x00\x00\x00\x00\
    \x00\x00\x00\x00\x00\x00\x00\x00\x00\x00\x00\x00\x00\x00\x00\x00\
    \x00\x00\x00\x00\x00\x00\x00\x00\x00\x00\x00\x00\x00\x00\x00\x00\
    \x00TEXTttxt\x01\x00\x00\x00\x00\x00\x00\
    \x00\x00\x00\x00\x00\x00\x03\x00\x00\x00\x05\xB4\x92\xF3\xFF\xB4\
    \x92\xF4\x00\x00\x02\x20mBIN\x00\x00\x00\x00\x00\x00\
    \x00\x00\x00\x00\x00\x00\x00\x00\x00\x00\x82\x81\x96\xB5\x00\x00";

/// The same with a resource fork of seven bytes.
fn longer_header(alloc: Global) -> Result<Vec<u8>, AllocError> {
    let mut header = HEADER[..90].to_vec(alloc)?;
    header.push(7)?;
    header.extend_from_slice(&HEADER[91..124])?;
    header.extend_from_slice(b"\xBE\xDE\x00\x00")?;
    Ok(header)
}

#[test]
fn writes_mac_binary(rt: HostRuntime) -> Result<(), Refusal> {
    let container = Container::MacBinary(Version::III);
    let file = write_file(rt.alloc(), Target::MacBinary, &FILE)?;
    assert_eq!(rt; file.len(), 512);
    assert!(rt; file.starts_with(HEADER));
    let longer = with_fork(rt.alloc(), container, &file, b"FORKING")?;
    assert_eq!(rt; longer.len(), 512);
    assert!(rt; longer.starts_with(&longer_header(rt.alloc())?));
    let Ok(opened) = OldFile::open(rt.alloc(), &longer) else {
        return Err(Refusal::HostFull);
    };
    assert_eq!(rt; opened.kind(), FileKind::Container(container));
    let told = parts_of(&opened);
    assert_eq!(rt; told.data_fork, b"abc".as_slice());
    assert_eq!(rt; told.resource_fork, b"FORKING".as_slice());
    assert_eq!(rt; told.comment, b"hi".as_slice());
    Ok(())
}
