//! The block that has a byte.

use crate::zone::LinkedZone;
use mac_base::block::Block;

impl LinkedZone {
    ghost use Rattle.std.specs.Prelude.{IfSome, IfNone};
    ghost use Rattle.linked_zone.specs.Parts.{IsHolder, LiesOutside};

    /// The block that has the byte at an address, in its header or after it. There is none where the byte lies before
    /// the first block or after the last.
    pub fn holder(&self, at: u32) -> Option<Block>
        ensures holds { IfSome result (λ block. IsHolder self.now at block) }
        ensures outside { IfNone result (LiesOutside self.now at) }
    {
        let start = self.records.holder(at)?;
        self.entry(start)
    }
}
