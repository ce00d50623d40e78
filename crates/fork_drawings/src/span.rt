//! Which column of a map is drawn in a column of a picture, and which row in a row.

ghost use Rattle.std.specs.Prelude.{◌≡◌, ◌<◌, ◌≤◌, ◌-◌, IfSome};
ghost use Rattle.fork_drawings.specs.Spans.{columns, origin, rows, stretched};

use pict_bytes::bits::Rect;
use pict_bytes::operands::Bits;

/// From a coordinate on, up to another.
#[derive(Clone, Copy, Debug, PartialEq, Eq)]
pub struct Span {
    pub low: u16,
    pub high: u16,
}

/// What is drawn, in the coordinates of its map; where, in those of the picture; and what the map has.
#[derive(Clone, Copy, Debug, PartialEq, Eq)]
pub struct Course {
    pub source: Span,
    pub target: Span,
    pub bounds: Span,
}

/// The columns of a rectangle.
fn across(rect: Rect) -> Span
    ensures { result ≡ record { low = rect.left; high = rect.right } }
{
    Span {
        low: rect.left,
        high: rect.right,
    }
}

/// The rows of a rectangle.
fn down(rect: Rect) -> Span
    ensures { result ≡ record { low = rect.top; high = rect.bottom } }
{
    Span {
        low: rect.top,
        high: rect.bottom,
    }
}

/// The columns of a picture within a picture.
pub(crate) fn columns(bits: &Bits) -> Course
    ensures { result ≡ columns bits.now }
{
    Course {
        source: across(bits.source),
        target: across(bits.target),
        bounds: across(bits.map.bounds),
    }
}

/// Its rows.
pub(crate) fn rows(bits: &Bits) -> Course
    ensures { result ≡ rows bits.now }
{
    Course {
        source: down(bits.source),
        target: down(bits.target),
        bounds: down(bits.map.bounds),
    }
}

impl Course {
    /// The coordinate in the map of what is drawn at a coordinate of the target.
    fn stretched(self, at: u32) -> u64
        requires low { self.target.low ≤ at }
        requires high { at < self.target.high }
        ensures { result ≡ stretched self at }
    {
        let wide = self.source.high.saturating_sub(self.source.low) as u64;
        let step = at as u64 - self.target.low as u64;
        let all = self.target.high as u64 - self.target.low as u64;
        self.source.low as u64 + step * wide / all
    }

    /// The place in the map, from its first, of what is drawn at a coordinate; none outside of the target, and where the
    /// map has nothing.
    pub(crate) fn origin(self, at: u32) -> Option<usize>
        ensures is { result ≡ origin self at }
        ensures within { IfSome result (λ place. place < self.bounds.high - self.bounds.low) }
    {
        if at < self.target.low as u32 || self.target.high as u32 <= at {
            return None;
        }
        let place = self.stretched(at);
        if place < self.bounds.low as u64 || self.bounds.high as u64 <= place {
            return None;
        }
        Some((place - self.bounds.low as u64) as usize)
    }
}
