//! The slots of a new master block.

ghost use Rattle.std.specs.Prelude.{◌≡◌, ◌+◌, ◌≤◌, ◌%◌, length, IsTrue};
ghost use Rattle.mac_base.specs.HeadKind.{address_end, slot_count, master_length};
ghost use Rattle.zone_records.specs.Places.{can_say};
ghost use Rattle.zone_records.specs.Changes.{chained};
ghost use Rattle.zone_records.specs.Word.{words_of};

use crate::slot::Slot;
use byteorder::{BigEndian, ByteOrder};
use mac_base::block::HeadKind;
use mac_base::size::SLOT_COUNT;

/// Writes the master pointers of 64 free slots, the first at an address: each names the one after it as the next, and
/// the last one `last`.
pub(crate) fn write_chain(words: &mut [u8], heads: HeadKind, first: u32, last: u32)
    requires long { length words.old ≡ master_length }
    requires low { first + master_length ≤ address_end heads }
    requires even { first % 4 ≡ 0 }
    requires sayable { IsTrue (can_say heads (Slot.Free last)) }
    ensures { words.new ≡ words_of heads (chained slot_count first last) }
{
    let mut next = last;
    for index in 0..SLOT_COUNT {
        let place = 4 * (SLOT_COUNT - 1 - index);
        let word = Slot::Free(next).word(heads);
        BigEndian::write_u32(&mut words[place as usize..], word);
        next = first + place;
    }
}
