//! Slices of the bytes.

ghost use Rattle.std.specs.Prelude.{◌≡◌, ◌+◌, ◌≤◌, length};
ghost use Rattle.std.specs.Borrow.{sem};
ghost use denote.RawPtr.{◌+ₚ◌};
ghost use Rattle.raw_region.specs.Bytes.{part};
ghost use Rattle.raw_region.specs.Span.{IsFree};
ghost use Rattle.raw_region.specs.CellsWritingBack.{WritesBackPart};

use super::Cells;
use std::slice;

impl Cells {
    /// How many bytes there are.
    pub(crate) fn len(&self) -> usize
        ensures { result ≡ length self.now.bytes }
    {
        self.len
    }

    /// Where the first of them is in the memory of the host.
    pub(crate) fn start(&self) -> *mut u8
        ensures { result ≡ self.now.home.0 +ₚ self.now.from }
    {
        self.at
    }

    /// The `n` bytes from `at` on.
    pub(crate) fn bytes(&self, at: usize, n: usize) -> &[u8]
        requires inside { at + n ≤ length self.now.bytes }
        requires free { IsFree self.now.lent at n }
        ensures { result.now ≡ part self.now.bytes at n }
    {
        unsafe { slice::from_raw_parts(self.at.add(at), n) }
    }

    /// The `n` bytes from `at` on, to be written.
    pub(crate) fn bytes_mut(&mut self, at: usize, n: usize) -> &mut [u8]
        requires inside { at + n ≤ length self.old.bytes }
        requires free { IsFree self.old.lent at n }
        ensures* writes_back { sem 𝓛 (WritesBackPart self.entry at n result) }
        ensures value { result.now ≡ part self.old.bytes at n }
    {
        unsafe { slice::from_raw_parts_mut(self.at.add(at), n) }
    }
}
