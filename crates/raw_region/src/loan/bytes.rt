//! The bytes of a loan.

ghost use Rattle.std.specs.Prelude.{◌≡◌, length};
ghost use Rattle.std.specs.Borrow.{sem};
ghost use denote.RawPtr.{◌+ₚ◌};
ghost use Rattle.raw_region.specs.WritingBack.{WritesBackLoan};

use super::Lent;

impl Lent {
    /// How many bytes were lent.
    pub fn len(&self) -> usize
        ensures { result ≡ length self.now.bytes }
    {
        self.cells.len()
    }

    /// Where the first of its bytes is in the memory of the host: as far after the region's first byte as the
    /// range begins in the region. Whoever writes there by the pointer holds no slice of the loan meanwhile.
    pub fn start(&self) -> *mut u8
        ensures { result ≡ self.now.name.0 +ₚ self.now.at }
    {
        self.cells.start()
    }

    /// The bytes.
    pub fn bytes(&self) -> &[u8]
        ensures { result.now ≡ self.now.bytes }
    {
        let n = self.cells.len();
        self.cells.bytes(0, n)
    }

    /// The bytes, to be written. What is written is in the region once the range is given back.
    pub fn bytes_mut(&mut self) -> &mut [u8]
        ensures* writes_back { sem 𝓛 (WritesBackLoan self.entry result) }
        ensures value { result.now ≡ self.old.bytes }
    {
        let n = self.cells.len();
        self.cells.bytes_mut(0, n)
    }
}
