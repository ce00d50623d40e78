//! How much room a zone has.

use crate::zone::Zone;
use mac_base::purge_space::PurgeSpace;

impl Zone {
    ghost use Rattle.std.specs.Prelude.{◌≡◌};
    ghost use Rattle.mac_base.specs.Reports.{largest_room, purge_space, largest_purge_space};

    /// MaxBlock: the most free bytes that moving blocks would bring together, in one gap (Inside Macintosh: Memory,
    /// "Assessing Memory Conditions").
    ///
    /// The sums of the zone's pages are remembered: only those of pages that have changed are made again.
    pub fn largest_room(&mut self) -> u32
        ensures room { result ≡ largest_room self.old.heap.table self.old.heap.map }
        ensures zone { self.new ≡ self.old }
    {
        self.pointers.sums().room
    }

    /// PurgeSpace: the bytes that would be free if all blocks that may be purged were (Inside Macintosh: Memory,
    /// "Assessing Memory Conditions").
    ///
    /// The sums of the zone's pages are remembered: only those of pages that have changed are made again.
    pub fn purge_space(&mut self) -> PurgeSpace
        ensures total { result.total ≡ purge_space self.old.heap.table self.old.heap.map }
        ensures contiguous { result.contiguous ≡ largest_purge_space self.old.heap.table self.old.heap.map }
        ensures zone { self.new ≡ self.old }
    {
        let sums = self.pointers.sums();
        PurgeSpace {
            total: sums.space,
            contiguous: sums.contiguous,
        }
    }
}
