//! What gaps have of a sort of bytes: the gaps are parted by blocks that don't move.

ghost use Rattle.std.specs.Prelude.{◌≡◌, nat_le};
ghost use Rattle.sum_tree.specs.Span.{most_in};

use crate::{Monoid, Test};

/// What neighbouring blocks have of a sort of bytes.
#[derive(Clone, Copy, PartialEq, Eq)]
pub enum Span {
    /// None is fixed: so many.
    Whole(u32),
    /// Some are fixed.
    Parted(Parts),
}

/// What blocks, some of them fixed, have of a sort of bytes.
#[derive(Clone, Copy, PartialEq, Eq)]
pub struct Parts {
    /// Those before the first fixed one.
    pub first: u32,
    /// The most that there are between two fixed ones.
    pub most: u32,
    /// Those after the last fixed one.
    pub last: u32,
}

impl Monoid for Span {
    ghost use Rattle.sum_tree.specs.Span.{no_span, joined, SpanFits, span_laws};

    ghost empty = { no_span };

    ghost op = { joined };

    ghost fits = { SpanFits };

    ghost laws = { span_laws };

    fn none() -> Span {
        Span::Whole(0)
    }

    fn join(self, next: Span) -> Span {
        match (self, next) {
            (Span::Whole(here), Span::Whole(there)) => Span::Whole(here + there),
            (Span::Whole(here), Span::Parted(parts)) => Span::Parted(Parts {
                first: here + parts.first,
                ..parts
            }),
            (Span::Parted(parts), Span::Whole(there)) => Span::Parted(Parts {
                last: parts.last + there,
                ..parts
            }),
            (Span::Parted(here), Span::Parted(there)) => {
                let between = here.last + there.first;
                Span::Parted(Parts {
                    first: here.first,
                    most: here.most.max(between.max(there.most)),
                    last: there.last,
                })
            }
        }
    }

    fn is_same(self, other: Span) -> bool {
        self == other
    }
}

impl Span {
    /// One fixed block.
    pub const FIXED: Span = Span::Parted(Parts {
        first: 0,
        most: 0,
        last: 0,
    });

    /// The most that one gap has of them.
    pub fn most(self) -> u32
        ensures { result ≡ most_in self }
    {
        match self {
            Span::Whole(here) => here,
            Span::Parted(parts) => parts.first.max(parts.most.max(parts.last)),
        }
    }
}

/// Whether some gap has so many bytes.
#[derive(Drop)]
pub struct HasRoom {
    pub bytes: u32,
}

impl Test<Span> for HasRoom {
    ghost passes = { λ test sum. nat_le test.bytes (most_in sum) };

    fn holds(&self, sum: Span) -> bool {
        self.bytes <= sum.most()
    }
}
