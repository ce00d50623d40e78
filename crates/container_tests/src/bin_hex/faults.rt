//! Texts that are refused, each for its fault.

use crate::bin_hex::texts::{CLOSING, COLON, MACUTILS};
use mac_files::bin_hex::fault::{BinHexFault, Section};
use mac_files::bin_hex::read_bin_hex;
use std::alloc::Global;
use std::test::Fail;

/// Why a text is refused.
fn fault(alloc: Global, text: &[u8]) -> Option<BinHexFault> {
    read_bin_hex(alloc, text).err()
}

/// Short texts, written by hand.
#[test]
fn short_texts(rt: HostRuntime) {
    let header = Section::Header;
    let texts: [(&[u8], BinHexFault); 9] = [
        (b"", BinHexFault::NoText),
        (b"a:b\n:", BinHexFault::NotClosed { at: 5 }),
        (b"a:b", BinHexFault::NoText),
        (b":!!7:", BinHexFault::NotADigit { at: 3, found: b'7' }),
        (b":N!:", BinHexFault::NoCount { at: 2 }),
        (b":N!8:", BinHexFault::NothingToRepeat { at: 2 }),
        (
            b":N!!:",
            BinHexFault::TooShort {
                section: header,
                at: 4,
            },
        ),
        (
            b"::",
            BinHexFault::TooShort {
                section: header,
                at: 1,
            },
        ),
        (b":\r\n!", BinHexFault::NotClosed { at: 4 }),
    ];
    for (text, expected) in texts {
        assert_eq!(rt; fault(rt.alloc(), text), Some(expected));
    }
}

/// A text that is cut after its colon has no closing colon there. A colon there closes a section too early.
#[test]
fn cut(rt: HostRuntime) -> Result<(), Fail> {
    for at in COLON + 1..=CLOSING {
        let text = &MACUTILS[..at];
        assert_eq!(rt;
            fault(rt.alloc(), text),
            Some(BinHexFault::NotClosed { at })
        );
    }
    for (at, section) in [
        (60, Section::Header),
        (110, Section::Data),
        (140, Section::Resource),
    ] {
        let mut text = MACUTILS.to_vec(rt.alloc())?;
        text[at] = b':';
        assert_eq!(rt;
            fault(rt.alloc(), &text),
            Some(BinHexFault::TooShort { section, at })
        );
    }
    Ok(())
}

/// Each character after the colon is reported where it is no digit.
#[test]
fn changed(rt: HostRuntime) -> Result<(), Fail> {
    let mut text = MACUTILS.to_vec(rt.alloc())?;
    for at in COLON + 1..=CLOSING {
        let kept = text[at];
        text[at] = b'7';
        let expected = BinHexFault::NotADigit { at, found: b'7' };
        assert_eq!(rt; fault(rt.alloc(), &text), Some(expected));
        text[at] = kept;
    }
    Ok(())
}

/// A changed digit in each section. The CRCs that should be there are those that Python's crc_hqx gives.
#[test]
fn crcs(rt: HostRuntime) -> Result<(), Fail> {
    for (place, section, at, stored, computed) in [
        (60, Section::Header, 90, 0xD0D6, 0x75A0),
        (90, Section::Header, 90, 0xD0D5, 0xD0D6),
        (91, Section::Data, 126, 0x1D41, 0x4980),
        (140, Section::Resource, 150, 0x69E4, 0xA461),
    ] {
        let mut text = MACUTILS.to_vec(rt.alloc())?;
        text[place] = b'A';
        let expected = BinHexFault::WrongCrc {
            section,
            at,
            stored,
            computed,
        };
        assert_eq!(rt; fault(rt.alloc(), &text), Some(expected));
        // A character that is no digit after the CRC is not the first fault.
        text[CLOSING] = b'7';
        assert_eq!(rt; fault(rt.alloc(), &text), Some(expected));
    }
    Ok(())
}
