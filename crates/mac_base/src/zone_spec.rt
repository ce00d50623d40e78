//! The sizes that a zone may have.

use crate::block::HeadKind;
use std::error::Error;
use std::fmt;
use std::marker::Model;

/// The least size of any zone, in bytes: a master block has room in it.
pub const LEAST_SIZE: u32 = 512;

/// The least size of a usual zone, in bytes.
pub const USUAL_SIZE: u32 = 1024;

/// The largest limit of a zone that isn't large, in bytes.
pub const USUAL_LIMIT: u32 = 0x10_0000;

/// The largest limit of any zone, in bytes: twice as many are still a number of 32 bits.
pub const LARGEST_LIMIT: u32 = 0x4000_0000;

/// The least growth of a zone that may grow, in bytes.
pub const LEAST_GROWTH: u32 = 16;

/// The lowest address at which a zone may begin.
pub const LOWEST_BASE: u32 = 0x1000;

/// The highest end of a zone that isn't large.
pub const USUAL_END: u32 = 0x100_0000;

/// Why there is no zone of these sizes.
#[derive(Clone, Copy, Debug, PartialEq, Eq)]
pub enum BadSpec {
    /// The base is no multiple of 4.
    UnevenBase(u32),
    /// The size is no multiple of 4.
    UnevenSize(u32),
    /// The limit is no multiple of 4.
    UnevenLimit(u32),
    /// The size is below the least.
    SmallSize { size: u32, least: u32 },
    /// The limit is above the largest.
    LargeLimit { limit: u32, most: u32 },
    /// The size is above the limit.
    SizeOverLimit { size: u32, limit: u32 },
    /// The zone may grow, but by less than the least growth.
    SmallGrowth(u32),
    /// The base is too low.
    LowBase(u32),
    /// The zone may reach past the highest end.
    HighEnd { base: u32, limit: u32, end: u32 },
}

impl fmt::Display for BadSpec {
    fn fmt<W: fmt::Write>(&self, f: &mut fmt::Formatter<W>) -> fmt::Result {
        match *self {
            BadSpec::UnevenBase(base) => write!(
                f,
                "a zone begins at a multiple of 4, and {base} is none"
            ),
            BadSpec::UnevenSize(size) => write!(
                f,
                "a zone's size is a multiple of 4 bytes, and {size} is none"
            ),
            BadSpec::UnevenLimit(limit) => write!(
                f,
                "a zone's limit is a multiple of 4 bytes, and {limit} is none"
            ),
            BadSpec::SmallSize { size, least } => write!(
                f,
                "a zone has {least} bytes at least, and {size} are too few"
            ),
            BadSpec::LargeLimit { limit, most } => write!(
                f,
                "a zone's limit is {most} bytes at most, and {limit} are too many"
            ),
            BadSpec::SizeOverLimit { limit, .. } => write!(
                f,
                "a zone's limit is its size at least, and {limit} is below it"
            ),
            BadSpec::SmallGrowth(growth) => write!(
                f,
                "a zone that may grow may grow by 16 bytes at least, and {growth} are too few"
            ),
            BadSpec::LowBase(base) => write!(
                f,
                "a zone begins at 4096 or above, and {base} is too low"
            ),
            BadSpec::HighEnd { base, limit, end } => {
                let reached = u64::from(base) + u64::from(limit);
                write!(
                    f,
                    "a zone that has grown ends at {end} or below, and {reached} is above"
                )
            }
        }
    }
}

impl Error for BadSpec {}

/// A zone's place and sizes, in bytes, which meet all conditions. A contract sees them as a record.
#[derive(Clone, Copy, Debug, PartialEq, Eq)]
pub struct ZoneSpec {
    heads: HeadKind,
    base: u32,
    size: u32,
    limit: u32,
}

impl Model for ZoneSpec {
    ghost use Rattle.mac_base.specs.ZoneSizes.{ZoneSizes, ArePossible};

    ghost Value = { ZoneSizes };

    ghost view = { λ z. record { heads = z.heads; base = z.base; size = z.size; limit = z.limit } };

    ghost invariant = { λ z. ArePossible (record { heads = z.heads; base = z.base; size = z.size; limit = z.limit }) };

    ghost inverse = { λ z. record { heads = z.heads; base = z.base; size = z.size; limit = z.limit } };
}

impl ZoneSpec {
    ghost use Rattle.std.specs.Prelude.{◌≡◌, ◌+◌, ◌≤◌, ◌↔◌, IsOk, IfOk};
    ghost use Rattle.std.specs.Result.{result_err};
    ghost use Rattle.mac_base.specs.declared.block.HeadKind.TheVariants.{Bits24};
    ghost use Rattle.mac_base.specs.ZoneSizes.{ZoneSizes, ArePossible, AreUsual, AreWithin, first_fault, first_large_fault};

    /// A zone of 24-bit blocks that begins at `base`, has `size` bytes and may grow to `limit` bytes: `with_kind` with
    /// `Bits24`.
    pub fn new(base: u32, size: u32, limit: u32) -> Result<ZoneSpec, BadSpec>
        ensures possible { IsOk result ↔ AreUsual (record { heads = Bits24; base = base; size = size; limit = limit }) }
        ensures spec { IfOk result (λ spec. spec ≡ record { heads = Bits24; base = base; size = size; limit = limit }) }
        ensures fault { result_err result ≡ first_fault base size limit }
    {
        ZoneSpec::with_kind(base, size, limit, HeadKind::Bits24)
    }

    /// A zone that begins at `base`, has `size` bytes, may grow to `limit` bytes, and has blocks of this kind. The
    /// sizes are refused where a condition doesn't hold, by the first one in the order of `BadSpec`.
    #[tactic(auto, using(crate::proofs::Reach::usual_possible))]
    pub fn with_kind(base: u32, size: u32, limit: u32, heads: HeadKind) -> Result<ZoneSpec, BadSpec>
        ensures possible { IsOk result ↔ AreUsual (record { heads = heads; base = base; size = size; limit = limit }) }
        ensures spec { IfOk result (λ spec. spec ≡ record { heads = heads; base = base; size = size; limit = limit }) }
        ensures fault { result_err result ≡ first_fault base size limit }
    {
        match first_fault(base, size, limit, Bounds::usual()) {
            Some(fault) => Err(fault),
            None => Ok(ZoneSpec {
                heads,
                base,
                size,
                limit,
            }),
        }
    }

    /// As `with_kind`, and the zone may be large: its limit is 1 GB at most, and it ends where its blocks can still say
    /// their sizes and addresses, at $1000000 or, with blocks of the 32-bit kind, below 2^32.
    pub fn large(base: u32, size: u32, limit: u32, heads: HeadKind) -> Result<ZoneSpec, BadSpec>
        ensures possible { IsOk result ↔ ArePossible (record { heads = heads; base = base; size = size; limit = limit }) }
        ensures spec { IfOk result (λ spec. spec ≡ record { heads = heads; base = base; size = size; limit = limit }) }
        ensures fault { result_err result ≡ first_large_fault heads base size limit }
    {
        match first_fault(base, size, limit, Bounds::of(heads)) {
            Some(fault) => Err(fault),
            None => Ok(ZoneSpec {
                heads,
                base,
                size,
                limit,
            }),
        }
    }

    /// How the zone's blocks are headed.
    pub fn heads(self) -> HeadKind
        ensures { result ≡ self.heads }
    {
        self.heads
    }

    /// The address at which the zone begins.
    #[tactic(auto, using(crate::proofs::Reach::reach))]
    pub fn base(self) -> u32
        ensures value { result ≡ self.base }
        ensures possible { ArePossible self }
        ensures reach { self.base + self.limit ≤ 0xFFFF_FFFF }
    {
        self.base
    }

    /// The bytes that the zone has at first, its header included.
    pub fn size(self) -> u32
        ensures value { result ≡ self.size }
        ensures possible { ArePossible self }
    {
        self.size
    }

    /// The bytes that the zone may have, its header included.
    #[tactic(auto, using(crate::proofs::Reach::reach))]
    pub fn limit(self) -> u32
        ensures value { result ≡ self.limit }
        ensures possible { ArePossible self }
        ensures reach { self.base + self.limit ≤ 0xFFFF_FFFF }
    {
        self.limit
    }

    /// The zone grown to its limit.
    pub fn at_limit(self) -> ZoneSpec
        ensures { result ≡ record { heads = self.heads; base = self.base; size = self.limit; limit = self.limit } }
    {
        ZoneSpec {
            size: self.limit,
            ..self
        }
    }
}

ghost use Rattle.std.specs.Prelude.{◌≡◌, ◌↔◌, None};
ghost use Rattle.mac_base.specs.HeadKind.{address_end};
ghost use Rattle.mac_base.specs.ZoneSizes.{AreWithin, conditions, first_failing};

/// The least size of a zone, its largest limit, and its highest end.
struct Bounds {
    least: u32,
    most: u32,
    end: u32,
}

impl Bounds {
    /// Those of a usual zone.
    fn usual() -> Bounds
        ensures { result ≡ record { least = 1024; most = 0x10_0000; end = 0x100_0000 } }
    {
        Bounds {
            least: USUAL_SIZE,
            most: USUAL_LIMIT,
            end: USUAL_END,
        }
    }

    /// Those of any zone with blocks of this kind.
    fn of(heads: HeadKind) -> Bounds
        ensures { result ≡ record { least = 512; most = 0x4000_0000; end = address_end heads } }
    {
        Bounds {
            least: LEAST_SIZE,
            most: LARGEST_LIMIT,
            end: heads.address_end(),
        }
    }
}

/// The first condition that these sizes don't meet, for a zone within these bounds.
fn first_fault(base: u32, size: u32, limit: u32, bounds: Bounds) -> Option<BadSpec>
    ensures none { result ≡ None ↔ AreWithin bounds.least bounds.most bounds.end base size limit }
    ensures fault { result ≡ first_failing (conditions bounds.least bounds.most bounds.end base size limit) }
{
    let Bounds { least, most, end } = bounds;
    let fault = if base % 4 != 0 {
        BadSpec::UnevenBase(base)
    } else if size % 4 != 0 {
        BadSpec::UnevenSize(size)
    } else if limit % 4 != 0 {
        BadSpec::UnevenLimit(limit)
    } else if size < least {
        BadSpec::SmallSize { size, least }
    } else if limit > most {
        BadSpec::LargeLimit { limit, most }
    } else if size > limit {
        BadSpec::SizeOverLimit { size, limit }
    } else if size != limit && limit - size < LEAST_GROWTH {
        BadSpec::SmallGrowth(limit - size)
    } else if base < LOWEST_BASE {
        BadSpec::LowBase(base)
    } else if limit > end || base > end - limit {
        BadSpec::HighEnd { base, limit, end }
    } else {
        return None;
    };
    Some(fault)
}
