//! What can be wrong with a zone.

/// A kind of fault.
#[derive(Clone, Copy, Debug, PartialEq, Eq)]
pub enum Problem {
    /// There are fewer bytes than a zone's header has.
    ShortZone = 1,
    /// bkLim is before the place of the first block.
    LowLimit = 2,
    /// bkLim is after the last byte.
    HighLimit = 3,
    /// What is left of the zone is less than a block's header.
    CutHeader = 4,
    /// A block overlaps the next: its size is less than its header and its size correction.
    Overlaps = 5,
    /// A block leaves the zone.
    LeavesZone = 6,
    /// A block's size is odd.
    OddSize = 7,
    /// A block's tag is none of free, nonrelocatable and relocatable.
    BadTag = 8,
    /// A nonrelocatable block says that it is in another zone.
    BadZone = 9,
    /// A relocatable block's master pointer is outside the zone.
    BadHandle = 10,
    /// A relocatable block's master pointer leads elsewhere.
    BadMaster = 11,
    /// A free master pointer is outside the zone.
    BadFree = 12,
    /// The list of free master pointers has no end.
    EndlessFree = 13,
}

impl Problem {
    ghost use Rattle.std.specs.Prelude.{◌≡◌};
    ghost use Rattle.zone_look.specs.Memory.{problem_number};

    /// Its number.
    pub fn number(self) -> u32
        ensures { result ≡ problem_number self }
    {
        self as u32
    }
}

/// A fault: of which kind, the address of what is wrong, the number there, and the one that would be right or is the
/// nearest that would.
#[derive(Clone, Copy, Debug, PartialEq, Eq)]
pub struct Fault {
    pub problem: Problem,
    pub place: u32,
    pub found: u32,
    pub wanted: u32,
}
