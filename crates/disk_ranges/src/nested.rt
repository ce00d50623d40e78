//! Ranges of ranges of a disk.

ghost use Rattle.std.specs.Prelude.{◌≡◌, ◌≤◌, [], ◌∷◌, ◌++◌, IfOk};
ghost use Rattle.std.specs.List.{AllByRecursion};
ghost use Rattle.disk_ranges.specs.Ranges.{IsShort, HasRanges};

use crate::read::Range;
use std::alloc::{AllocError, Global};

/// Where on a disk the bytes are that a range of the bytes of these ranges has: what each of them has of it.
fn parts_of(alloc: Global, outer: &[Range], inner: Range) -> Result<Vec<Range>, AllocError>
    requires { AllByRecursion IsShort outer.now }
    ensures { IfOk result (λ parts. HasRanges outer.now (inner ∷ []) parts.items) }
{
    let mut parts = Vec::new(alloc);
    let mut skipped = inner.at;
    let mut left = inner.length;
    for range in outer {
        if skipped >= range.length {
            skipped -= range.length;
        } else {
            let length = left.min(range.length - skipped);
            parts.push(Range {
                at: range.at + skipped,
                length,
            })?;
            left -= length;
            skipped = 0;
        }
    }
    Ok(parts)
}

/// Where on a disk the bytes are of ranges of what ranges of it have, so that a view of a view is a view of the disk. The
/// only error is that the host has no memory.
pub fn within(alloc: Global, outer: &[Range], inner: &[Range]) -> Result<Vec<Range>, AllocError>
    requires { AllByRecursion IsShort outer.now }
    ensures { IfOk result (λ ranges. HasRanges outer.now inner.now ranges.items) }
{
    let mut ranges = Vec::new(alloc);
    for range in inner {
        let parts = parts_of(alloc, outer, *range)?;
        ranges.extend_from_slice(&parts)?;
    }
    Ok(ranges)
}
