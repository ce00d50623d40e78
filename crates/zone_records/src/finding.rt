//! The block that has a byte.

use crate::records::Records;

impl Records {
    ghost use Rattle.std.specs.Prelude.{IfSome, IfNone};
    ghost use Rattle.zone_records.specs.Parts.{HoldsByte, LiesOutside};

    /// The address of the block that has the byte at an address, in its header or after it. No header is read. There is
    /// none where the byte lies before the first block or after the last.
    pub fn holder(&self, at: u32) -> Option<u32>
        ensures holds { IfSome result (λ start. HoldsByte self.now at start) }
        ensures outside { IfNone result (LiesOutside self.now at) }
    {
        self.blocks.holder(at)
    }
}
