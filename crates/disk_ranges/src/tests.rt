//! Ranges of a disk in memory.

use crate::disk::RangesDisk;
use crate::fit::are_within;
use crate::nested::within;
use crate::read::Range;
use fork_disk::MemDisk;
use fork_disk::disk::ForkDisk;
use std::test::Fail;

/// The second part of the disk first, and a range without bytes between.
const RANGES: [Range; 3] = [
    Range { at: 6, length: 4 },
    Range { at: 2, length: 0 },
    Range { at: 1, length: 3 },
];

#[test]
fn reads_and_never_writes(rt: HostRuntime) -> Result<(), Fail> {
    let bytes = b"0123456789ab".to_vec(rt.alloc())?;
    let ranges = RANGES.to_vec(rt.alloc())?;
    let fit = are_within(&ranges, bytes.len() as u64);
    assert!(rt; fit);
    if fit {
        let mut disk = RangesDisk::new(MemDisk::from_bytes(bytes), ranges);
        assert!(rt; matches!(disk.len(), Ok(7)));
        let mut buffer = [0; 7];
        assert!(rt; disk.read_at(0, &mut buffer).is_ok());
        assert_eq!(rt; buffer, *b"6789123");
        let mut part = [0; 3];
        assert!(rt; disk.read_at(3, &mut part).is_ok());
        assert_eq!(rt; part, *b"912");
        assert!(rt; disk.write_at(0, b"x").is_err());
        assert!(rt; disk.cut(0).is_err());
        assert!(rt; disk.sync().is_ok());
        assert!(rt; matches!(disk.len(), Ok(7)));
        let whole = disk.into_disk();
        assert_eq!(rt; whole.bytes().len(), 12);
    }
    Ok(())
}

#[test]
fn refuses_ranges_outside(rt: HostRuntime) {
    assert!(rt; !are_within(&RANGES, 9));
    assert!(rt; are_within(&RANGES, 10));
    let far = [Range {
        at: 0xFFFF_FFFF_FFFF_FFFF,
        length: 1,
    }];
    assert!(rt; !are_within(&far, 0xFFFF_FFFF_FFFF_FFFF));
}

#[test]
fn finds_ranges_of_ranges(rt: HostRuntime) -> Result<(), Fail> {
    let inner = [Range { at: 5, length: 2 }, Range { at: 2, length: 4 }];
    let ranges = within(rt.alloc(), &RANGES, &inner)?;
    let fit = are_within(&ranges, 12);
    assert!(rt; fit);
    if fit {
        let bytes = b"0123456789ab".to_vec(rt.alloc())?;
        let mut disk = RangesDisk::new(MemDisk::from_bytes(bytes), ranges);
        assert!(rt; matches!(disk.len(), Ok(6)));
        let mut buffer = [0; 6];
        assert!(rt; disk.read_at(0, &mut buffer).is_ok());
        assert_eq!(rt; buffer, *b"238912");
    }
    Ok(())
}
