//! The tests of calls' operands.

ghost use Rattle.std.specs.Prelude.{◌≡◌, ◌+◌, ◌∷◌, [], ◌||◌, nat_le, not, IfOk, OnOk, IsTrue};
ghost use Rattle.mac_base.specs.HandleTable.{flags_of, has_block, is_handle, is_lent, is_locked};
ghost use Rattle.mac_base.specs.Tests.{IsHandle, IsPointer, NotEmpty, NotLent, NotLocked, IsSize, IsWithin};
ghost use Rattle.mac_base.specs.declared.error.OsErr.TheVariants.{MemLockedErr, MemPurErr};
ghost use Rattle.mem_calls.specs.Testing.{Tests, TestsSize};

use mac_base::block::Flags;
use mac_base::error::OsErr;
use mac_base::handle::{Handle, Ptr};
use mac_base::size::MAX_SIZE;
use zone_heap::Zone;

/// The most blocks that may be lent at a time.
pub const MOST_LOANS: usize = 8;

/// Tests that a handle is live: nilHandleErr where it is 0, memWZErr where it is another number that isn't live.
pub(crate) fn test_handle(zone: &Zone, handle: Handle) -> Result<(), OsErr>
    ensures { Tests zone.now (IsHandle handle ∷ []) result }
{
    if handle.number() == 0 {
        return Err(OsErr::NilHandleErr);
    }
    if !zone.linked().is_live(handle) {
        return Err(OsErr::MemWzErr);
    }
    Ok(())
}

/// Tests that a handle is live and has a block: nilHandleErr where it is 0 or empty, memWZErr where it is another
/// number that isn't live.
pub(crate) fn test_full(zone: &Zone, handle: Handle) -> Result<(), OsErr>
    ensures { Tests zone.now (IsHandle handle ∷ NotEmpty handle ∷ []) result }
{
    test_handle(zone, handle)?;
    if !zone.linked().is_full(handle) {
        return Err(OsErr::NilHandleErr);
    }
    Ok(())
}

/// Tests that a pointer is live: memWZErr where it isn't.
pub(crate) fn test_pointer(zone: &Zone, pointer: Ptr) -> Result<(), OsErr>
    ensures { Tests zone.now (IsPointer pointer ∷ []) result }
{
    if !zone.linked().is_pointer(pointer) {
        return Err(OsErr::MemWzErr);
    }
    Ok(())
}

/// The flags of a handle that is live and has a block; one that is lent is locked. nilHandleErr where it is 0 or empty,
/// memWZErr where it is another number that isn't live.
pub(crate) fn handle_flags(zone: &Zone, handle: Handle) -> Result<Flags, OsErr>
    ensures refusal { Tests zone.now (IsHandle handle ∷ NotEmpty handle ∷ []) result }
    ensures value { IfOk result (λ flags. flags ≡ flags_of zone.now.heap.table handle) }
    ensures fixed { OnOk result (IsTrue (is_locked zone.now.heap.table handle || not (is_lent zone.now.heap.table handle))) }
{
    test_full(zone, handle)?;
    // The zone's count of loans says that each is a pointer's or a locked handle's.
    prove!(zone.lent_count() as usize <= MOST_LOANS);
    Ok(zone.linked().flags(handle))
}

/// Whether a number is lent. Only a pointer or a locked handle is, so what has no block isn't.
pub(crate) fn is_lent(zone: &Zone, block: u32) -> bool
    ensures { result ≡ is_lent zone.now.heap.table block }
{
    // The zone's count of loans says so.
    let loans = zone.lent_count();
    prove!(loans as usize <= MOST_LOANS);
    loans > 0 && zone.linked().has_block(block) && zone.linked().is_lent(block)
}

/// Tests that a number isn't lent: memLockedErr where it is.
pub(crate) fn test_here(zone: &Zone, block: u32) -> Result<(), OsErr>
    ensures { Tests zone.now (NotLent block ∷ []) result }
{
    if is_lent(zone, block) {
        return Err(OsErr::MemLockedErr);
    }
    Ok(())
}

/// Tests that a handle is live and not lent: nilHandleErr where it is 0, memWZErr where it is another number that isn't
/// live, memLockedErr where it is lent.
pub(crate) fn test_handle_here(zone: &Zone, handle: Handle) -> Result<(), OsErr>
    ensures { Tests zone.now (IsHandle handle ∷ NotLent handle ∷ []) result }
{
    test_handle(zone, handle)?;
    test_here(zone, handle.number())
}

/// Tests that a live handle isn't locked: memPurErr where it is.
pub(crate) fn test_unlocked(zone: &Zone, handle: Handle) -> Result<(), OsErr>
    requires { IsTrue (is_handle zone.now.heap.table handle) }
    ensures { Tests zone.now (NotLocked MemPurErr handle ∷ []) result }
{
    if zone.linked().flags(handle).lock {
        return Err(OsErr::MemPurErr);
    }
    Ok(())
}

/// The flags of a handle whose block may move: nilHandleErr where it is 0 or empty, memWZErr where it is another number
/// that isn't live, memLockedErr where it is locked.
pub(crate) fn test_movable(zone: &Zone, handle: Handle) -> Result<Flags, OsErr>
    ensures refusal { Tests zone.now (IsHandle handle ∷ NotEmpty handle ∷ NotLocked MemLockedErr handle ∷ []) result }
    ensures value { IfOk result (λ flags. flags ≡ flags_of zone.now.heap.table handle) }
{
    let flags = handle_flags(zone, handle)?;
    if flags.lock {
        return Err(OsErr::MemLockedErr);
    }
    Ok(flags)
}

/// Tests that a block may get a size: memLockedErr where it is lent, paramErr where `size` is over 8,388,608.
pub(crate) fn test_new_size(zone: &Zone, block: u32, size: u32) -> Result<(), OsErr>
    ensures { Tests zone.now (NotLent block ∷ IsSize size ∷ []) result }
{
    test_here(zone, block)?;
    test_size(size)
}

/// Tests a size: paramErr where it is over 8,388,608.
pub(crate) fn test_size(size: u32) -> Result<(), OsErr>
    ensures { TestsSize size result }
{
    if size > MAX_SIZE {
        return Err(OsErr::ParamErr);
    }
    Ok(())
}

/// Tests that a handle is live, has a block and isn't lent: nilHandleErr where it is 0 or empty, memWZErr where it is
/// another number that isn't live, memLockedErr where it is lent.
pub(crate) fn test_full_here(zone: &Zone, handle: Handle) -> Result<(), OsErr>
    ensures { Tests zone.now (IsHandle handle ∷ NotEmpty handle ∷ NotLent handle ∷ []) result }
{
    test_full(zone, handle)?;
    test_here(zone, handle.number())
}

/// Tests that a pointer is live and not lent: memWZErr where it isn't live, memLockedErr where it is lent.
pub(crate) fn test_pointer_here(zone: &Zone, pointer: Ptr) -> Result<(), OsErr>
    ensures { Tests zone.now (IsPointer pointer ∷ NotLent pointer ∷ []) result }
{
    test_pointer(zone, pointer)?;
    test_here(zone, pointer.number())
}

/// Tests that `count` bytes from `start` on are within a block: paramErr where it has fewer.
pub(crate) fn test_within(zone: &Zone, block: u32, start: u32, count: u32) -> Result<(), OsErr>
    requires { IsTrue (has_block zone.now.heap.table block) }
    ensures { Tests zone.now (IsWithin block start count ∷ []) result }
{
    let length = zone.linked().length(block) as usize;
    if !has_part(length, start as usize, count as usize) {
        return Err(OsErr::ParamErr);
    }
    Ok(())
}

/// Whether there are so many of some bytes from an offset on.
pub fn has_part(length: usize, offset: usize, count: usize) -> bool
    ensures { result ≡ nat_le (offset + count) length }
{
    offset <= length && count <= length - offset
}

/// Tests the operands of a call that takes the first `count` bytes of a pointer's block for a handle's: memWZErr where
/// the pointer or the handle isn't live, memLockedErr where one of them is lent, nilHandleErr where the handle is 0 or
/// empty, paramErr where the pointer has fewer bytes.
pub(crate) fn test_pointer_for(
    zone: &Zone,
    pointer: Ptr,
    handle: Handle,
    count: u32,
) -> Result<(), OsErr>
    ensures { Tests zone.now (IsPointer pointer ∷ NotLent pointer ∷ IsHandle handle ∷ NotEmpty handle ∷ NotLent handle ∷ IsWithin pointer 0 count ∷ []) result }
{
    test_pointer_here(zone, pointer)?;
    test_full_here(zone, handle)?;
    test_within(zone, pointer.number(), 0, count)
}
