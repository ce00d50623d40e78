//! Where the bytes of a fork are.

ghost use Rattle.std.specs.Prelude.{◌≡◌};
ghost use Rattle.disk_ranges.specs.Ranges.{total};

use disk_ranges::read::Range;

/// Where in a volume the bytes of a fork are, and how many it has.
#[derive(Drop)]
pub(crate) struct ForkRanges {
    pub(crate) ranges: Vec<Range>,
    pub(crate) size: u32,
    ghost whole: { total ranges.items ≡ size },
}
