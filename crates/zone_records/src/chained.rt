//! Whether the free slots of a zone that others wrote follow one another.

ghost use Rattle.std.specs.Prelude.{◌≡◌, ℕ, ◌↔◌, Contains, length, IfNone, IfSome, IsTrue};
ghost use Rattle.zone_records.specs.declared.slot.Slot.TheVariants as slot;
ghost use Rattle.zone_records.specs.Adopting.{AreChained};
ghost use Rattle.zone_records.specs.Linking.{free_of};
ghost use Rattle.zone_records.specs.Reading.{AreSound, records_in};
ghost use Rattle.zone_records.specs.Slots.{slots_of_zone};

use crate::lookup::find_slot;
use crate::slot::Slot;
use block_bytes::Blocks;

/// What the free slot at an address says is the next, if a free slot is there.
fn next_free(blocks: &Blocks, at: u32) -> Option<u32>
    requires { AreSound blocks.now }
    ensures next { IfSome result (λ next. Contains (slots_of_zone (records_in blocks.now)) (at, slot.Free next)) }
    ensures none { IfNone result ((next : ℕ) → Contains (slots_of_zone (records_in blocks.now)) (at, slot.Free next) → ⊥) }
{
    match find_slot(blocks, at)? {
        Slot::Free(next) => Some(next),
        Slot::Empty | Slot::Full(_, _) => None,
    }
}

/// Whether the free slots of a zone, so many, follow one another, each once, from the first to the last. A walk of as
/// many steps shows it: none of them comes twice, since the walk would then have no end.
pub(crate) fn is_chained(blocks: &Blocks, count: u32) -> bool
    requires sound { AreSound blocks.now }
    requires count { count ≡ length (free_of (slots_of_zone (records_in blocks.now))) }
    ensures { IsTrue result ↔ AreChained (records_in blocks.now) }
{
    let mut at = blocks.front();
    for _step in 0..count {
        match next_free(blocks, at) {
            Some(next) => at = next,
            None => return false,
        }
    }
    at == 0
}
