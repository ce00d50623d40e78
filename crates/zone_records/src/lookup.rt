//! Slots found by their addresses among a zone's blocks.

ghost use Rattle.std.specs.Prelude.{◌≡◌, ◌↔◌, Contains, IfNone, IfSome, IsTrue};
ghost use Rattle.zone_records.specs.Places.{SlotAt};
ghost use Rattle.zone_records.specs.Reading.{AreSound, records_in};
ghost use Rattle.zone_records.specs.Slots.{slots_of_zone};

use crate::slot::Slot;
use block_bytes::{Blocks, Role};
use mac_base::size::MASTER_LENGTH;

/// Whether an address is that of a slot.
pub(crate) fn is_slot(blocks: &Blocks, at: u32) -> bool
    requires { AreSound blocks.now }
    ensures { IsTrue result ↔ SlotAt (records_in blocks.now) at }
{
    let Some(start) = blocks.holder(at) else {
        return false;
    };
    let first = start + blocks.spec().heads().head_size();
    blocks.entry_at(start).role == Role::Master
        && first <= at
        && at - first < MASTER_LENGTH
        && (at - first) % 4 == 0
}

/// What the slot at an address says.
pub(crate) fn slot(blocks: &Blocks, at: u32) -> Slot
    requires sound { AreSound blocks.now }
    requires there { SlotAt (records_in blocks.now) at }
    ensures { (s : SlotAt (records_in blocks.now) at) → result ≡ s.here }
{
    Slot::read(blocks.spec().heads(), blocks.word(at))
}

/// What the slot at an address says, if one is there.
pub(crate) fn find_slot(blocks: &Blocks, at: u32) -> Option<Slot>
    requires { AreSound blocks.now }
    ensures there { IfSome result (λ s. Contains (slots_of_zone (records_in blocks.now)) (at, s)) }
    ensures none { IfNone result ((s : Slot) → Contains (slots_of_zone (records_in blocks.now)) (at, s) → ⊥) }
{
    if !is_slot(blocks, at) {
        return None;
    }
    Some(slot(blocks, at))
}
