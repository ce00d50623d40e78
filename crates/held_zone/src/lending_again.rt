//! Loans of a zone that wakes: what was lent is lent again.

ghost use Rattle.std.specs.Prelude.{◌≡◌, [], IsTrue};
ghost use Rattle.std.specs.List.{list_all};
ghost use Rattle.linked_zone.specs.Structure.{Agrees, HasStructure, shown};
ghost use Rattle.mac_base.specs.HandleTable.{is_handle, is_locked};
ghost use Rattle.mac_base.specs.ZoneState.{with_heap};
ghost use Rattle.held_calls.specs.Holding.{Holds, loans_of};
ghost use Rattle.held_zone.specs.Asleep.{CanBeLent, is_lendable, new_loans, with_these_lent};

use held_calls::lending;
use held_calls::loans::Loans;
use linked_zone::Agreement;
use mac_base::block::Status;
use mac_base::handle::{Handle, Ptr};
use mem_calls::MemoryManager;

/// Lends blocks that may be lent, where nothing is lent.
pub(crate) fn lend_all(memory: &mut MemoryManager, loans: &mut Loans, blocks: &[u32])
    requires holds { Holds memory.old loans.old }
    requires none { loans.old ≡ [] }
    requires can { CanBeLent memory.old blocks.now }
    ensures zone { memory.new ≡ with_heap (with_these_lent blocks.now memory.old.heap) memory.old }
    ensures loans { loans_of loans.new ≡ new_loans memory.old.heap.table blocks.now }
    ensures holds { Holds memory.new loans.new }
{
    for block in blocks {
        if lending::lend(memory, loans, *block).is_err() {
            // No type says that these blocks may all be lent.
            unreachable!();
        }
    }
}

/// Whether blocks may each be lent in the zone that bytes show. The bytes have the structure of the zone, and agree
/// with it so.
pub(crate) fn all_lendable(
    memory: &MemoryManager,
    bytes: &[u8],
    agreement: Agreement,
    blocks: &[u32],
) -> bool
    requires nothing_lent { memory.now.heap.table.lent ≡ [] }
    requires agrees { Agrees memory.now bytes.now agreement }
    requires structure { HasStructure memory.now bytes.now }
    ensures { result ≡ list_all (is_lendable (shown memory.now bytes.now)) blocks.now }
{
    for block in blocks {
        if !is_lendable(memory, bytes, agreement, *block) {
            return false;
        }
    }
    true
}

/// Whether a block may be lent in the zone that bytes show.
fn is_lendable(memory: &MemoryManager, bytes: &[u8], agreement: Agreement, block: u32) -> bool
    requires nothing_lent { memory.now.heap.table.lent ≡ [] }
    requires agrees { Agrees memory.now bytes.now agreement }
    requires structure { HasStructure memory.now bytes.now }
    ensures { result ≡ is_lendable (shown memory.now bytes.now) block }
{
    if block == 0 {
        return false;
    }
    match memory.status(block) {
        Status::NotLive | Status::Empty | Status::Lent => false,
        Status::Full => {
            memory.linked().is_pointer(Ptr::new(block))
                || is_locked(memory, bytes, agreement, block)
        }
    }
}

/// Whether a handle is locked in the zone that bytes show.
fn is_locked(memory: &MemoryManager, bytes: &[u8], agreement: Agreement, handle: u32) -> bool
    requires live { IsTrue (is_handle memory.now.heap.table handle) }
    requires agrees { Agrees memory.now bytes.now agreement }
    requires structure { HasStructure memory.now bytes.now }
    ensures { result ≡ is_locked (shown memory.now bytes.now).heap.table handle }
{
    let zone = memory.linked();
    if agreement == Agreement::FlagsChanged
        && let Some((changed, flags)) = zone.changed_flags(bytes, handle)
        && changed.number() == handle
    {
        return flags.lock;
    }
    zone.flags(Handle::new(handle)).lock
}
