//! Files that are read.

use crate::bin_hex::texts::{FILLED, HCOPY, MACUTILS, MAIL, SPACED};
use mac_files::bin_hex::read_bin_hex;
use mac_files::kind::FileKind;
use mac_files::kind_of;
use std::process::Abort;
use std::test::Fail;

/// The resource fork of the first four texts: nine zeros and a $90, and the bytes of the examples of RFC 1741.
const RESOURCES: &[u8] =
    b"\0\0\0\0\0\0\0\0\0\x90\x11\x22\x22\x22\x22\x22\x22\x33\x11\x22\x90\x33\x44";

/// Their data fork before and after 300 letters.
const BEFORE: &[u8] = b"abc\x90\x90\x90\x90\x90";

const AFTER: &[u8] = b"\x90\0\x90";

/// The data fork of the first four texts.
fn data(rt: HostRuntime) -> Result<Vec<u8>, Fail> {
    let mut bytes = BEFORE.to_vec(rt.alloc())?;
    for _ in 0..300 {
        bytes.push(b'z')?;
    }
    bytes.extend_from_slice(AFTER)?;
    Ok(bytes)
}

/// Each program's text has the file that it was made of.
#[test]
fn programs(rt: HostRuntime) -> Result<(), Fail> {
    let data = data(rt)?;
    for (text, flags) in [
        (MACUTILS, 0x0100),
        (HCOPY, 0),
        (MAIL, 0x0100),
        (SPACED, 0x0100),
    ] {
        assert_eq!(rt; kind_of(text), FileKind::BinHex);
        let file = read_bin_hex(rt.alloc(), text)?;
        assert_eq!(rt; file.name(), b"Test".as_slice());
        assert_eq!(rt; file.kind, *b"TEXT");
        assert_eq!(rt; file.creator, *b"ttxt");
        assert_eq!(rt; file.flags, flags);
        assert_eq!(rt; file.data_fork(), data.as_slice());
        assert_eq!(rt; file.resource_fork(), RESOURCES);
    }
    Ok(())
}

/// Bytes after the last CRC are passed over, and a fork may be empty.
#[test]
fn filled(rt: HostRuntime) -> Result<(), Fail> {
    let file = read_bin_hex(rt.alloc(), FILLED)?;
    assert_eq!(rt; file.name(), b"Empty".as_slice());
    assert_eq!(rt; file.data_fork(), b"".as_slice());
    assert_eq!(rt; file.resource_fork(), b"abc".as_slice());
    Ok(())
}
