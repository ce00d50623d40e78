//! Places in a fork.

ghost use Rattle.std.specs.Prelude.{◌≡◌, ◌≤◌, ◌<◌, ◌+◌, ◌^◌, length, IfSome, IfNone};
ghost use Rattle.fork_salvage.specs.Salvage.{name_part, part};
ghost use Rattle.fork_salvage.specs.Fault.{IsGap};
ghost use Rattle.fork_salvage.specs.Faults.{gap_of};

/// Bytes of a fork: where they begin, and how many there are.
#[derive(Clone, Copy, Debug, PartialEq, Eq)]
pub struct Span {
    pub start: usize,
    pub length: usize,
}

impl Span {
    /// The bytes themselves, as far as they lie within the fork.
    pub fn of<'a>(&self, fork: &'a [u8]) -> &'a [u8]
        ensures { result.now ≡ part fork.now self.now }
    {
        let start = self.start.min(fork.len());
        let count = self.length.min(fork.len() - start);
        &fork[start..start + count]
    }
}

/// The bytes of a name: where they begin in a fork, and how many there are.
#[derive(Clone, Copy, Debug, PartialEq, Eq)]
pub struct NameSpan {
    pub start: usize,
    pub length: u8,
}

impl NameSpan {
    /// The bytes themselves, as far as they lie within the fork.
    pub fn of<'a>(&self, fork: &'a [u8]) -> &'a [u8]
        ensures bytes { result.now ≡ name_part fork.now self.now }
        ensures short { length result.now ≤ 255 }
    {
        let span = Span {
            start: self.start,
            length: self.length as usize,
        };
        span.of(fork)
    }
}

/// Bytes that a fork hasn't: where they should begin, how many there should be, and how many are left there.
#[derive(Clone, Copy, Debug, PartialEq, Eq)]
pub struct Gap {
    pub place: usize,
    pub wanted: usize,
    pub left: usize,
}

impl Gap {
    /// What is missing of so many bytes at a place of a part.
    pub(crate) fn of(part: Span, at: usize, wanted: usize) -> Option<Gap>
        requires place { part.start + at < 2 ^ 64 }
        requires end { at + wanted < 2 ^ 64 }
        ensures gap { result ≡ gap_of part at wanted }
        ensures some { IfSome result (IsGap part.start part.length at wanted) }
        ensures none { IfNone result (at + wanted ≤ part.length) }
    {
        if part.length < at + wanted {
            Some(Gap {
                place: part.start + at,
                wanted,
                left: part.length.saturating_sub(at),
            })
        } else {
            None
        }
    }
}

/// Where the map and the data of a fork are.
#[derive(Clone, Copy)]
pub(crate) struct Parts {
    pub(crate) map: Span,
    pub(crate) data: Span,
}
