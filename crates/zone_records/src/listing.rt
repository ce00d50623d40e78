//! The ranges of a zone's bytes that were written, as a host gets them.

ghost use Rattle.std.specs.Prelude.{◌≡◌, ℕ, ◌+◌, ◌≤◌, ◌<◌, length, take};
ghost use Rattle.raw_region.specs.Runs.{AreWithin, IsIn as IsNoted, noted};
ghost use Rattle.zone_records.specs.Written.{IsIn};

use crate::structure::Written;
use raw_region::{Run, Runs};

/// The bytes of a run.
fn range_of(run: Run) -> Written
    requires order { run.start ≤ run.end }
    requires small { run.end ≤ 0xFFFF_FFFF }
    ensures { (result.from ≡ run.start) × (result.from + result.count ≡ run.end) }
{
    Written {
        from: run.start as u32,
        count: (run.end - run.start) as u32,
    }
}

/// Writes ranges over the first of some others, the lowest first, so that each byte of the runs is in one of them: the
/// runs' own, or one that has all bytes where there are more. Returns how many they are.
pub fn list_runs(runs: &Runs, all: u32, ranges: &mut [Written]) -> usize
    requires within { AreWithin (noted runs.now) all }
    requires room { 0 < length ranges.old }
    ensures few { result ≤ length ranges.new }
    ensures long { length ranges.new ≡ length ranges.old }
    ensures listed { (i : ℕ) → IsNoted (noted runs.now) i → IsIn (take result ranges.new) i }
{
    let mut from = 0;
    let mut count = 0;
    while let Some(run) = runs.next(from) {
        if count == ranges.len() {
            ranges[0] = Written {
                from: 0,
                count: all,
            };
            return 1;
        }
        ranges[count] = range_of(run);
        count += 1;
        from = run.end;
    }
    count
}
