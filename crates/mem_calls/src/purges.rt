//! The handle that a call would purge first.

ghost use Rattle.std.specs.Prelude.{◌≡◌, ◌≤◌, ◌∷◌, [], None};
ghost use Rattle.linked_zone.specs.Loans.{KeepsLoans};
ghost use Rattle.mac_base.specs.declared.memory_call.MemoryCall.TheVariants.{Filling, OnZone, Requesting};
ghost use Rattle.mac_base.specs.Loans.{LoansAreFixed};
ghost use Rattle.mac_base.specs.Sound.{Sound};
ghost use Rattle.mac_base.specs.Tests.{IsHandle, IsPointer, IsSize, IsWithin, NotEmpty, NotLent, NotLocked, refusal};
ghost use Rattle.mac_base.specs.declared.error.OsErr.TheVariants.{MemPurErr};
ghost use Rattle.mac_base.specs.ZoneState.{ZoneState, with_heap};
ghost use Rattle.mac_base.specs.declared.request.Request.TheVariants.{NewBlock, Resize};
ghost use Rattle.zone_heap.specs.Attempts.{CanAsk, lacks_slot};
ghost use Rattle.mem_calls.specs.Asking.{IsAskedBy, guarded_by};
ghost use Rattle.mem_calls.specs.Purges.{before_call, before_request};
ghost use Rattle.mem_calls.specs.Testing.{Answers, Tests};

use crate::bringing::{test_count, test_handle_for};
use crate::manager::MemoryManager;
use crate::operands::{
    MOST_LOANS, test_full, test_full_here, test_handle_here, test_new_size, test_pointer,
    test_pointer_for, test_pointer_here, test_size, test_unlocked, test_within,
};
use crate::request::lacks_slot;
use mac_base::error::OsErr;
use mac_base::handle::{Handle, Ptr};
use mac_base::request::Request;
use mac_base::{FillingCall, MemoryCall, RequestingCall, ZoneCall};
use zone_heap::Zone;

/// The blocks that a running call protects: its operands.
#[derive(Clone, Copy)]
pub(crate) enum Guarded {
    Nothing,
    One(u32),
    Two(u32, u32),
}

/// What a call asks for: its request, and the blocks that it protects.
#[derive(Clone, Copy)]
pub(crate) struct Asking {
    request: Request,
    guarded: Guarded,
}

impl MemoryManager {
    /// The handle that a call would purge first: none where it is refused, or would purge none. Up to there the call is
    /// made: the zone grows to its limit where the call's request doesn't fit, and a master block is made where it
    /// lacks a slot. Nothing else changes (Inside Macintosh: Memory, Freeing Memory, and Purge-Warning Procedures).
    pub fn next_purge(&mut self, call: &MemoryCall<'_>) -> Option<Handle>
        ensures zone { self.new ≡ with_heap (before_call self.old.shape self.old.heap call.now).heap self.old }
        ensures next { result ≡ (before_call self.old.shape self.old.heap call.now).next }
        ensures sound { Sound self.old.shape self.old.heap }
        ensures fixed { LoansAreFixed self.old.heap }
        ensures loans { KeepsLoans self.old self.new }
    {
        // The address of the first block says that the heap is sound.
        prove!(self.zone.first_block() > 0);
        // The count of loans says that each is a pointer's or a locked handle's.
        prove!(self.zone.lent_count() as usize <= MOST_LOANS);
        match call {
            MemoryCall::Requesting(call) => next_requesting(&mut self.zone, call),
            MemoryCall::Filling(call) => next_filling(&mut self.zone, call),
            MemoryCall::OnZone(call) => next_on_zone(&mut self.zone, call),
            MemoryCall::OnBlock(_) | MemoryCall::Showing(_) => None,
        }
    }
}

/// The handle that such a call would purge first.
fn next_requesting(zone: &mut Zone, call: &RequestingCall) -> Option<Handle>
    requires sound { Sound zone.old.shape zone.old.heap }
    ensures zone { zone.new ≡ with_heap (before_call zone.old.shape zone.old.heap (Requesting call.now)).heap zone.old }
    ensures next { result ≡ (before_call zone.old.shape zone.old.heap (Requesting call.now)).next }
    ensures loans { KeepsLoans zone.old zone.new }
{
    test_requesting(zone, call).ok()?;
    next_asked(zone, &asked_requesting(call))
}

/// The handle that such a call would purge first.
fn next_filling(zone: &mut Zone, call: &FillingCall<'_>) -> Option<Handle>
    requires sound { Sound zone.old.shape zone.old.heap }
    requires limit { zone.old.shape.limit ≤ 0x4000_0000 }
    ensures zone { zone.new ≡ with_heap (before_call zone.old.shape zone.old.heap (Filling call.now)).heap zone.old }
    ensures next { result ≡ (before_call zone.old.shape zone.old.heap (Filling call.now)).next }
    ensures loans { KeepsLoans zone.old zone.new }
{
    test_filling(zone, call).ok()?;
    next_asked(zone, &asked_filling(zone, call))
}

/// The handle that such a call would purge first.
fn next_on_zone(zone: &mut Zone, call: &ZoneCall) -> Option<Handle>
    ensures zone { zone.new ≡ with_heap (before_call zone.old.shape zone.old.heap (OnZone call.now)).heap zone.old }
    ensures next { result ≡ (before_call zone.old.shape zone.old.heap (OnZone call.now)).next }
    ensures loans { KeepsLoans zone.old zone.new }
{
    match *call {
        ZoneCall::PurgeMem(size) => {
            test_size(size).ok()?;
            zone.next_purge_to(size)
        }
        ZoneCall::MaxMem => zone.next_purge_of_all(),
        ZoneCall::CompactMem(_)
        | ZoneCall::PurgeSpace
        | ZoneCall::MaxBlock
        | ZoneCall::FreeMem
        | ZoneCall::MaxApplZone => None,
    }
}

/// The handle that what a call asks for would purge first.
fn next_asked(zone: &mut Zone, asking: &Asking) -> Option<Handle>
    requires ready { CanAsk zone.old asking.now.request }
    ensures zone { zone.new ≡ with_heap (before_request zone.old.shape (guarded_by asking.now.guarded) asking.now.request zone.old.heap (lacks_slot asking.now.request zone.old.heap)).heap zone.old }
    ensures next { result ≡ (before_request zone.old.shape (guarded_by asking.now.guarded) asking.now.request zone.old.heap (lacks_slot asking.now.request zone.old.heap)).next }
    ensures loans { KeepsLoans zone.old zone.new }
{
    let request = asking.request;
    match asking.guarded {
        Guarded::Nothing => next_for(zone, &request, &[]),
        Guarded::One(block) => next_for(zone, &request, &[block]),
        Guarded::Two(one, other) => next_for(zone, &request, &[one, other]),
    }
}

/// The handle that a call's request would purge first, after one for a master block where it is for a new handle and no
/// slot is free.
fn next_for(zone: &mut Zone, request: &Request, protected: &[u32]) -> Option<Handle>
    requires ready { CanAsk zone.old request.now }
    ensures zone { zone.new ≡ with_heap (before_request zone.old.shape protected.now request.now zone.old.heap (lacks_slot request.now zone.old.heap)).heap zone.old }
    ensures next { result ≡ (before_request zone.old.shape protected.now request.now zone.old.heap (lacks_slot request.now zone.old.heap)).next }
    ensures loans { KeepsLoans zone.old zone.new }
{
    if lacks_slot(zone, request) {
        let first = zone.next_purge(Request::NewMaster, protected);
        if first.is_some() || zone.attempt(Request::NewMaster).is_err() {
            return first;
        }
    }
    zone.next_purge(*request, protected)
}

/// Tests the operands of a call.
fn test_requesting(zone: &Zone, call: &RequestingCall) -> Result<(), OsErr>
    ensures { Answers (refusal zone.now.shape zone.now.heap (Requesting call.now)) result }
{
    match *call {
        RequestingCall::NewHandle(size)
        | RequestingCall::NewPtr(size)
        | RequestingCall::ReserveMem(size) => test_size(size),
        RequestingCall::NewEmptyHandle | RequestingCall::MoreMasters => Ok(()),
        RequestingCall::SetHandleSize(handle, size) => test_handle_size(zone, handle, size),
        RequestingCall::SetPtrSize(pointer, size) => test_pointer_size(zone, pointer, size),
        RequestingCall::ReallocateHandle(handle, size) => test_replaced(zone, handle, size),
    }
}

/// Tests the operands of SetHandleSize.
fn test_handle_size(zone: &Zone, handle: Handle, size: u32) -> Result<(), OsErr>
    ensures { Tests zone.now (IsHandle handle ∷ NotEmpty handle ∷ NotLent handle ∷ IsSize size ∷ []) result }
{
    test_full(zone, handle)?;
    test_new_size(zone, handle.number(), size)
}

/// Tests the operands of SetPtrSize.
fn test_pointer_size(zone: &Zone, pointer: Ptr, size: u32) -> Result<(), OsErr>
    ensures { Tests zone.now (IsPointer pointer ∷ NotLent pointer ∷ IsSize size ∷ []) result }
{
    test_pointer(zone, pointer)?;
    test_new_size(zone, pointer.number(), size)
}

/// Tests the operands of ReallocateHandle.
fn test_replaced(zone: &Zone, handle: Handle, size: u32) -> Result<(), OsErr>
    ensures { Tests zone.now (IsHandle handle ∷ NotLent handle ∷ NotLocked MemPurErr handle ∷ IsSize size ∷ []) result }
{
    test_handle_here(zone, handle)?;
    test_unlocked(zone, handle)?;
    test_size(size)
}

/// Tests the operands of a call.
fn test_filling(zone: &Zone, call: &FillingCall<'_>) -> Result<(), OsErr>
    ensures { Answers (refusal zone.now.shape zone.now.heap (Filling call.now)) result }
{
    match *call {
        FillingCall::HandToHand(handle) => test_full_here(zone, handle),
        FillingCall::PtrToHand(pointer, count) => test_part(zone, pointer, count),
        FillingCall::PtrToXHand(pointer, handle, count)
        | FillingCall::PtrAndHand(pointer, handle, count) => {
            test_pointer_for(zone, pointer, handle, count)
        }
        FillingCall::HandAndHand(one, other) => test_both(zone, one, other),
        FillingCall::NewHandleOf(ref bytes) => test_count(bytes.as_slice()),
        FillingCall::SetHandleTo(handle, ref bytes) | FillingCall::Append(handle, ref bytes) => {
            test_handle_for(zone, handle, bytes.as_slice())
        }
    }
}

/// Tests the operands of PtrToHand.
fn test_part(zone: &Zone, pointer: Ptr, count: u32) -> Result<(), OsErr>
    ensures { Tests zone.now (IsPointer pointer ∷ NotLent pointer ∷ IsWithin pointer 0 count ∷ []) result }
{
    test_pointer_here(zone, pointer)?;
    test_within(zone, pointer.number(), 0, count)
}

/// Tests the operands of HandAndHand.
fn test_both(zone: &Zone, one: Handle, other: Handle) -> Result<(), OsErr>
    ensures { Tests zone.now (IsHandle one ∷ NotEmpty one ∷ NotLent one ∷ IsHandle other ∷ NotEmpty other ∷ NotLent other ∷ []) result }
{
    test_full_here(zone, one)?;
    test_full_here(zone, other)
}

/// What a call asks for.
fn asked_requesting(call: &RequestingCall) -> Asking
    ensures { (zone : ZoneState) → IsAskedBy zone (Requesting call.now) result }
{
    let nothing = Guarded::Nothing;
    match *call {
        RequestingCall::NewHandle(size) => Asking::new(Request::NewBlock(size), nothing),
        RequestingCall::NewEmptyHandle => Asking::new(Request::NewEmpty, nothing),
        RequestingCall::NewPtr(size) => Asking::new(Request::NewPointer(size), nothing),
        RequestingCall::ReserveMem(size) => Asking::new(Request::Reserve(size), nothing),
        RequestingCall::MoreMasters => Asking::new(Request::NewMaster, nothing),
        RequestingCall::SetHandleSize(handle, size) => resized(handle.number(), size),
        RequestingCall::SetPtrSize(pointer, size) => resized(pointer.number(), size),
        RequestingCall::ReallocateHandle(handle, size) => Asking::new(
            Request::Replace(handle, size),
            Guarded::One(handle.number()),
        ),
    }
}

/// What a call asks for that isn't refused.
fn asked_filling(zone: &Zone, call: &FillingCall<'_>) -> Asking
    requires sound { Sound zone.now.shape zone.now.heap }
    requires limit { zone.now.shape.limit ≤ 0x4000_0000 }
    requires passes { refusal zone.now.shape zone.now.heap (Filling call.now) ≡ None }
    ensures { IsAskedBy zone.now (Filling call.now) result }
{
    match *call {
        FillingCall::HandToHand(handle) => {
            let length = zone.length_if_any(handle);
            new_for(length, handle.number())
        }
        FillingCall::PtrToHand(pointer, count) => new_for(count, pointer.number()),
        FillingCall::PtrToXHand(pointer, handle, count) => {
            resized_from(handle.number(), count, pointer.number())
        }
        FillingCall::PtrAndHand(pointer, handle, count) => {
            let length = zone.length_if_any(handle);
            resized_from(handle.number(), length + count, pointer.number())
        }
        FillingCall::HandAndHand(one, other) => {
            let count = zone.length_if_any(one);
            let length = zone.length_if_any(other);
            resized_from(other.number(), length + count, one.number())
        }
        FillingCall::NewHandleOf(ref bytes) => {
            let count = bytes.as_slice().len() as u32;
            Asking::new(Request::NewBlock(count), Guarded::Nothing)
        }
        FillingCall::SetHandleTo(handle, ref bytes) => {
            let count = bytes.as_slice().len() as u32;
            resized(handle.number(), count)
        }
        FillingCall::Append(handle, ref bytes) => {
            let count = bytes.as_slice().len() as u32;
            let length = zone.length_if_any(handle);
            resized(handle.number(), length + count)
        }
    }
}

impl Asking {
    /// This request, with these blocks protected.
    fn new(request: Request, guarded: Guarded) -> Asking
        ensures request { result.request ≡ request }
        ensures guarded { result.guarded ≡ guarded }
    {
        Asking { request, guarded }
    }
}

/// So many bytes for a block, which is protected.
fn resized(block: u32, size: u32) -> Asking
    ensures request { result.request ≡ Resize block size }
    ensures guarded { guarded_by result.guarded ≡ block ∷ [] }
{
    Asking::new(Request::Resize(block, size), Guarded::One(block))
}

/// So many bytes for a block that is protected, and so is that from which they come.
fn resized_from(block: u32, size: u32, from: u32) -> Asking
    ensures request { result.request ≡ Resize block size }
    ensures guarded { guarded_by result.guarded ≡ from ∷ block ∷ [] }
{
    Asking::new(Request::Resize(block, size), Guarded::Two(from, block))
}

/// A new handle for so many bytes of a block, which is protected.
fn new_for(size: u32, from: u32) -> Asking
    ensures request { result.request ≡ NewBlock size }
    ensures guarded { guarded_by result.guarded ≡ from ∷ [] }
{
    Asking::new(Request::NewBlock(size), Guarded::One(from))
}
