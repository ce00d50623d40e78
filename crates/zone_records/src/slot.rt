//! What a master pointer says, and the word that says it.

use mac_base::block::{Flags, HeadKind};

/// What a slot says.
#[derive(Clone, Copy, Debug, PartialEq, Eq)]
pub enum Slot {
    /// The slot is free, and the next free one is at this address. It is 0 for the last.
    Free(u32),
    /// The slot is a live handle without a block.
    Empty,
    /// The slot is a live handle whose block's contents begin at this address. In a zone of 24-bit blocks it says the
    /// handle's flags too, and in one of 32-bit blocks none.
    Full(Flags, u32),
}

impl Slot {
    ghost use Rattle.std.specs.Prelude.{◌≡◌, IsTrue};
    ghost use Rattle.zone_records.specs.Places.{can_say};
    ghost use Rattle.zone_records.specs.Word.{slot_word, slot_in};

    /// The master pointer that says so.
    pub(crate) fn word(self, heads: HeadKind) -> u32
        requires { IsTrue (can_say heads self) }
        ensures { result ≡ slot_word heads self }
    {
        match heads {
            HeadKind::Bits24 => match self {
                Slot::Free(next) => 0x100_0000 + next,
                Slot::Empty => 0,
                Slot::Full(flags, contents) => 0x100_0000 * state_of(flags) + contents,
            },
            HeadKind::Bits32 => match self {
                Slot::Free(next) => next + 1,
                Slot::Empty => 0,
                Slot::Full(_, contents) => contents,
            },
        }
    }

    /// What a master pointer says.
    pub(crate) fn read(heads: HeadKind, word: u32) -> Slot
        ensures { result ≡ slot_in heads word }
    {
        if word == 0 {
            return Slot::Empty;
        }
        match heads {
            HeadKind::Bits24 => {
                let high = word / 0x100_0000;
                let low = word % 0x100_0000;
                if high % 2 == 1 {
                    Slot::Free(low)
                } else {
                    Slot::Full(flags_from(high), low)
                }
            }
            HeadKind::Bits32 => {
                if word % 2 == 1 {
                    Slot::Free(word - 1)
                } else {
                    Slot::Full(Flags::NONE, word)
                }
            }
        }
    }
}

ghost use Rattle.std.specs.Prelude.{◌≡◌};
ghost use Rattle.mac_base.specs.FlagState.{state_of, flags_from};

/// The high byte of the master pointer of a handle with these flags: lock 128, purge 64, resource 32.
fn state_of(flags: Flags) -> u32
    ensures { result ≡ state_of flags }
{
    let lock = if flags.lock { 128 } else { 0 };
    let purge = if flags.purge { 64 } else { 0 };
    let resource = if flags.resource { 32 } else { 0 };
    lock + purge + resource
}

/// The flags that a high byte says.
pub(crate) fn flags_from(high: u32) -> Flags
    ensures { result ≡ flags_from high }
{
    Flags {
        lock: high / 128 % 2 == 1,
        purge: high / 64 % 2 == 1,
        resource: high / 32 % 2 == 1,
    }
}
