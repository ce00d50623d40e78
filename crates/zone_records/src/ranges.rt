//! Ranges of bytes that were written, compared with what they touch of a zone.

ghost use Rattle.std.specs.Prelude.{◌≡◌, length};
ghost use Rattle.std.specs.List.{AllByRecursion};
ghost use Rattle.block_bytes.specs.Layout.{image_of};
ghost use Rattle.zone_records.specs.Reading.{AreSound};
ghost use Rattle.zone_records.specs.Structure.{Means};
ghost use Rattle.zone_records.specs.Written.{RangeAgrees, RangeSame};

use crate::masters::compare_blocks;
use crate::structure::{Agreement, Written};
use block_bytes::Blocks;
use mac_base::size::ZONE_HEADER;

/// How as many bytes as a zone has agree with what a range of them touches: the zone's header, and the blocks from the
/// one that has the range's first byte up to the last that begins before its end. An empty range touches nothing.
fn compare_range(blocks: &Blocks, bytes: &[u8], range: Written) -> Agreement
    requires sound { AreSound blocks.now }
    requires whole { length bytes.now ≡ length (image_of blocks.now) }
    ensures { Means result (RangeAgrees blocks.now bytes.now range) (RangeSame blocks.now bytes.now range) }
{
    if range.count == 0 {
        return Agreement::Same;
    }
    if range.from < ZONE_HEADER && !blocks.has_head(bytes) {
        return Agreement::Damaged;
    }
    let base = blocks.spec().base();
    let first = base.saturating_add(range.from.max(ZONE_HEADER));
    let end = base.saturating_add(range.from).saturating_add(range.count);
    match blocks.holder(first) {
        Some(start) => compare_blocks(blocks, bytes, start, end),
        None => Agreement::Same,
    }
}

/// How as many bytes as a zone has agree with what ranges of them touch.
pub(crate) fn compare_ranges(blocks: &Blocks, bytes: &[u8], ranges: &[Written]) -> Agreement
    requires sound { AreSound blocks.now }
    requires whole { length bytes.now ≡ length (image_of blocks.now) }
    ensures { Means result (AllByRecursion (RangeAgrees blocks.now bytes.now) ranges.now) (AllByRecursion (RangeSame blocks.now bytes.now) ranges.now) }
{
    let mut agreement = Agreement::Same;
    for range in ranges {
        agreement = agreement.with(compare_range(blocks, bytes, *range));
    }
    agreement
}
