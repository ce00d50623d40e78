//! Where a handle's flags are: in its slot in a zone of 24-bit blocks, and in its block's header in one of 32-bit
//! blocks.

ghost use Rattle.std.specs.Prelude.{◌≡◌};
ghost use Rattle.zone_records.specs.Places.{HandleBlockAt};
ghost use Rattle.linked_zone.specs.Flags.{flags_there};

use crate::zone::LinkedZone;
use mac_base::block::{Entry, Flags, HeadKind, Kind};
use mac_base::handle::Handle;
use zone_records::{Records, Slot};

/// The flags of the handle whose slot says these, and whose block's header is at an address.
pub fn read(records: &Records, slot: Flags, at: u32) -> Flags
    requires { HandleBlockAt records.now at }
    ensures { (b : HandleBlockAt records.now at) → result ≡ flags_there records.now.shape.heads slot b.flags }
{
    match records.spec().heads() {
        HeadKind::Bits24 => slot,
        HeadKind::Bits32 => records.header_flags(at),
    }
}

impl LinkedZone {
    ghost use Rattle.std.specs.Prelude.{◌≡◌, ℕ, IsTrue};
    ghost use Rattle.mac_base.specs.BlockReport.{block_flags};
    ghost use Rattle.mac_base.specs.declared.block.Kind.TheVariants.{Rel};
    ghost use Rattle.mac_base.specs.HandleTable.{flags_of, is_full};
    ghost use Rattle.linked_zone.specs.Changes.{flagged};
    ghost use Rattle.linked_zone.specs.Owned.{header_flags};
    ghost use Rattle.linked_zone.specs.Places.{EntryAt, HasOwner};

    /// The size of the block at an address and what it is for, with the flags of its owner: only a handle has any. The
    /// header is read once, and in a zone of 24-bit blocks a handle's slot.
    pub fn entry_and_flags(&self, at: u32) -> (Entry, Flags)
        requires { EntryAt self.now at }
        ensures entry { (e : EntryAt self.now at) → result.0 ≡ e.here }
        ensures flags { result.1 ≡ block_flags self.now.heap.table result.0.kind }
    {
        let head = self.records.head_at(at);
        (head.0, self.flags_of(head.0.kind, head.1))
    }

    /// The flags of the owner of a block of this kind, whose header says these.
    fn flags_of(&self, kind: Kind, header: Flags) -> Flags
        requires owner { HasOwner self.now kind }
        requires header { (h : ℕ) → kind ≡ Rel h → header ≡ header_flags self.now.shape.heads (flags_of self.now.heap.table h) }
        ensures { result ≡ block_flags self.now.heap.table kind }
    {
        match kind {
            Kind::Rel(handle) => match self.records.spec().heads() {
                HeadKind::Bits24 => self.flags(handle),
                HeadKind::Bits32 => header,
            },
            Kind::Free | Kind::Master | Kind::Ptr(_) => Flags::NONE,
        }
    }

    /// Sets the flags of a handle that has a block.
    pub fn set_flags(&mut self, handle: Handle, flags: Flags)
        requires { IsTrue (is_full self.old.heap.table handle) }
        ensures { self.new ≡ flagged handle flags self.old }
    {
        let at = self.block_of(handle);
        let heads = self.records.spec().heads();
        match heads {
            HeadKind::Bits24 => {
                let contents = at + heads.head_size();
                self.records
                    .set_slot(handle.number(), Slot::Full(flags, contents));
            }
            HeadKind::Bits32 => self.records.set_header_flags(at, flags),
        }
    }
}
