//! The zone of the Memory Manager, to be read.

use crate::manager::MemoryManager;
use linked_zone::LinkedZone;

impl MemoryManager {
    ghost use Rattle.std.specs.Prelude.{◌≡◌};
    ghost use Rattle.mac_base.specs.Sound.{Sound};

    /// The zone, to be read. What it shows is a sound heap.
    pub fn linked(&self) -> &LinkedZone
        ensures zone { result.now ≡ self.now }
        ensures sound { Sound self.now.shape self.now.heap }
    {
        self.zone.linked()
    }
}
