//! Whether ranges lie within a disk.

ghost use Rattle.std.specs.Prelude.{◌≡◌, ◌+◌, ◌<◌, ◌^◌, ◌≤◌, IsTrue};
ghost use Rattle.disk_ranges.specs.Ranges.{AreWithin};

use crate::read::Range;

/// Whether ranges lie within a disk of so many bytes, so that `RangesDisk::new` takes them.
pub fn are_within(ranges: &[Range], size: u64) -> bool
    ensures { IsTrue result → AreWithin size ranges.now }
{
    let mut sum: u64 = 0;
    for range in ranges {
        if range.at > size || range.length > size - range.at || range.length > u64::MAX - sum {
            return false;
        }
        sum += range.length;
    }
    true
}
