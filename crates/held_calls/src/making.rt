//! The calls of the Memory Manager, each with what it gives.

ghost use Rattle.std.specs.Prelude.{◌≡◌, not, None, Ok, IfOk, IfSome, IfNone, OnErr, IsTrue, is_some, []};
ghost use Rattle.linked_zone.specs.Loans.{KeepsLoans};
ghost use Rattle.mac_base.specs.declared.reply.Results.TheVariants.{TwoNumbers};
ghost use Rattle.mac_base.specs.Outcomes.{handle_outcome, pointer_outcome, address_outcome, number_outcome, done_outcome};
ghost use Rattle.mac_base.specs.Tests.{refusal};
ghost use Rattle.mac_base.specs.declared.memory_call.MemoryCall.TheVariants.{Requesting, Filling, OnBlock, OnZone, Showing};
ghost use Rattle.held_calls.specs.Making.{MemorySteps, copies};

use crate::blocks::zone_map;
use crate::bytes::{peek_copy, poke};
use mac_base::error::{HostFull, OsErr};
use mac_base::handle::{Handle, Ptr};
use mac_base::purge_space::PurgeSpace;
use mac_base::{
    BlockCall, FillingCall, GrowZone, MemoryCall, Outcome, RequestingCall, Results, ShowingCall,
    ZoneCall,
};
use mem_calls::MemoryManager;
use std::alloc::Global;

/// Makes a call; one that finds no room asks the grow-zone procedure. What is lent stays so, and where it is.
/// `HostFull` comes only from a call that gives a copy of what the zone has, and only where it isn't refused: nothing
/// has changed then, and nothing was asked.
pub fn make<G: GrowZone>(
    memory: &mut MemoryManager,
    alloc: Global,
    call: &MemoryCall<'_>,
    procedure: &mut G,
) -> Result<Outcome, HostFull>
    requires { G.asks procedure.old ≡ [] }
    ensures step { IfOk result (λ outcome. MemorySteps memory.old call.now (G.asks procedure.new) outcome memory.new) }
    ensures source { G.source procedure.new ≡ G.source procedure.old }
    ensures loans { KeepsLoans memory.old memory.new }
    ensures unchanged { OnErr result (memory.new ≡ memory.old) }
    ensures unasked { OnErr result (G.asks procedure.new ≡ []) }
    ensures full { OnErr result (IsTrue (copies call.now)) }
    ensures late { OnErr result (refusal memory.old.shape memory.old.heap call.now ≡ None) }
{
    match call {
        MemoryCall::Requesting(call) => Ok(request(memory, call, procedure)),
        MemoryCall::Filling(call) => Ok(fill(memory, call, procedure)),
        MemoryCall::OnBlock(call) => Ok(on_block(memory, call)),
        MemoryCall::OnZone(call) => Ok(on_zone(memory, call)),
        MemoryCall::Showing(call) => show(memory, alloc, call),
    }
}

/// Makes a call as `make` does. For one that gives a copy of what the zone has it returns none, and does nothing.
pub fn make_plain<G: GrowZone>(
    memory: &mut MemoryManager,
    call: &MemoryCall<'_>,
    procedure: &mut G,
) -> Option<Outcome>
    requires { G.asks procedure.old ≡ [] }
    ensures step { IfSome result (λ outcome. MemorySteps memory.old call.now (G.asks procedure.new) outcome memory.new) }
    ensures source { G.source procedure.new ≡ G.source procedure.old }
    ensures loans { KeepsLoans memory.old memory.new }
    ensures plain { is_some result ≡ not (copies call.now) }
    ensures unchanged { IfNone result (memory.new ≡ memory.old) }
    ensures unasked { IfNone result (G.asks procedure.new ≡ []) }
{
    match call {
        MemoryCall::Requesting(call) => Some(request(memory, call, procedure)),
        MemoryCall::Filling(call) => Some(fill(memory, call, procedure)),
        MemoryCall::OnBlock(call) => Some(on_block(memory, call)),
        MemoryCall::OnZone(call) => Some(on_zone(memory, call)),
        MemoryCall::Showing(_) => None,
    }
}

/// Makes a call that requests a block, or another size or place for one.
fn request<G: GrowZone>(
    memory: &mut MemoryManager,
    call: &RequestingCall,
    procedure: &mut G,
) -> Outcome
    requires { G.asks procedure.old ≡ [] }
    ensures step { MemorySteps memory.old (Requesting call.now) (G.asks procedure.new) result memory.new }
    ensures source { G.source procedure.new ≡ G.source procedure.old }
    ensures loans { KeepsLoans memory.old memory.new }
{
    match *call {
        RequestingCall::NewHandle(size) => handle(memory.new_handle(size, procedure)),
        RequestingCall::NewEmptyHandle => handle(memory.new_empty_handle(procedure)),
        RequestingCall::NewPtr(size) => pointer(memory.new_ptr(size, procedure)),
        RequestingCall::SetHandleSize(handle, size) => {
            done(memory.set_handle_size(handle, size, procedure))
        }
        RequestingCall::SetPtrSize(pointer, size) => {
            done(memory.set_ptr_size(pointer, size, procedure))
        }
        RequestingCall::ReserveMem(size) => done(memory.reserve_mem(size, procedure)),
        RequestingCall::MoreMasters => done(memory.more_masters(procedure)),
        RequestingCall::ReallocateHandle(handle, size) => {
            done(memory.reallocate_handle(handle, size, procedure))
        }
    }
}

/// Makes a call that requests a block for bytes, or another size for one, and fills it with them.
fn fill<G: GrowZone>(
    memory: &mut MemoryManager,
    call: &FillingCall<'_>,
    procedure: &mut G,
) -> Outcome
    requires { G.asks procedure.old ≡ [] }
    ensures step { MemorySteps memory.old (Filling call.now) (G.asks procedure.new) result memory.new }
    ensures source { G.source procedure.new ≡ G.source procedure.old }
    ensures loans { KeepsLoans memory.old memory.new }
{
    match *call {
        FillingCall::HandToHand(source) => handle(memory.hand_to_hand(source, procedure)),
        FillingCall::PtrToHand(pointer, count) => {
            handle(memory.ptr_to_hand(pointer, count, procedure))
        }
        FillingCall::PtrToXHand(pointer, handle, count) => {
            done(memory.ptr_to_xhand(pointer, handle, count, procedure))
        }
        FillingCall::PtrAndHand(pointer, handle, count) => {
            done(memory.ptr_and_hand(pointer, handle, count, procedure))
        }
        FillingCall::HandAndHand(one, other) => done(memory.hand_and_hand(one, other, procedure)),
        FillingCall::NewHandleOf(ref bytes) => {
            handle(memory.new_handle_of(bytes.as_slice(), procedure))
        }
        FillingCall::SetHandleTo(handle, ref bytes) => {
            done(memory.set_handle_to(handle, bytes.as_slice(), procedure))
        }
        FillingCall::Append(handle, ref bytes) => {
            done(memory.append(handle, bytes.as_slice(), procedure))
        }
    }
}

/// Makes a call on a block that requests none.
fn on_block(memory: &mut MemoryManager, call: &BlockCall<'_>) -> Outcome
    ensures step { MemorySteps memory.old (OnBlock call.now) [] result memory.new }
    ensures loans { KeepsLoans memory.old memory.new }
{
    match *call {
        BlockCall::DisposeHandle(handle) => done(memory.dispose_handle(handle)),
        BlockCall::DisposePtr(pointer) => done(memory.dispose_ptr(pointer)),
        BlockCall::EmptyHandle(handle) => done(memory.empty_handle(handle)),
        BlockCall::GetHandleSize(handle) => number(memory.get_handle_size(handle)),
        BlockCall::GetPtrSize(pointer) => number(memory.get_ptr_size(pointer)),
        BlockCall::HLock(handle) => done(memory.hlock(handle)),
        BlockCall::HUnlock(handle) => done(memory.hunlock(handle)),
        BlockCall::HPurge(handle) => done(memory.hpurge(handle)),
        BlockCall::HNoPurge(handle) => done(memory.hno_purge(handle)),
        BlockCall::HSetRBit(handle) => done(memory.hset_rbit(handle)),
        BlockCall::HClrRBit(handle) => done(memory.hclr_rbit(handle)),
        BlockCall::HGetState(handle) => number(memory.hget_state(handle)),
        BlockCall::HSetState(handle, state) => done(memory.hset_state(handle, state)),
        BlockCall::MoveHHi(handle) => done(memory.move_hhi(handle)),
        BlockCall::HLockHi(handle) => done(memory.hlock_hi(handle)),
        BlockCall::RecoverHandle(address) => handle(memory.recover_handle(address)),
        BlockCall::Deref(handle) => address(memory.deref(handle)),
        BlockCall::BlockMove {
            from,
            start,
            to,
            offset,
            count,
        } => done(memory.block_move(from, start, to, offset, count)),
        BlockCall::Poke {
            block,
            offset,
            ref bytes,
        } => poke(memory, block, offset, bytes.as_slice()),
    }
}

/// Makes a call on the zone as a whole.
fn on_zone(memory: &mut MemoryManager, call: &ZoneCall) -> Outcome
    ensures step { MemorySteps memory.old (OnZone call.now) [] result memory.new }
    ensures loans { KeepsLoans memory.old memory.new }
{
    match *call {
        ZoneCall::CompactMem(size) => number(memory.compact_mem(size)),
        ZoneCall::PurgeMem(size) => done(memory.purge_mem(size)),
        ZoneCall::MaxMem => two_numbers(memory.max_mem()),
        ZoneCall::PurgeSpace => two_sizes(memory.purge_space()),
        ZoneCall::MaxBlock => number(Ok(memory.max_block())),
        ZoneCall::FreeMem => number(Ok(memory.free_mem())),
        ZoneCall::MaxApplZone => {
            memory.max_appl_zone();
            Ok(Results::Nothing)
        }
    }
}

/// A copy of what the zone has: of bytes of a block, or of the list of its blocks.
fn show(memory: &MemoryManager, alloc: Global, call: &ShowingCall) -> Result<Outcome, HostFull>
    ensures step { IfOk result (λ outcome. MemorySteps memory.now (Showing call.now) [] outcome memory.now) }
    ensures late { OnErr result (refusal memory.now.shape memory.now.heap (Showing call.now) ≡ None) }
{
    match *call {
        ShowingCall::Peek {
            block,
            offset,
            count,
        } => peek_copy(memory, alloc, block, offset, count),
        ShowingCall::ZoneMap => zone_map(memory, alloc),
    }
}

/// The outcome of a call that gives a handle.
fn handle(given: Result<Handle, OsErr>) -> Outcome
    ensures { result ≡ handle_outcome given }
{
    given.map(Results::Handle)
}

/// The outcome of a call that gives a pointer.
fn pointer(given: Result<Ptr, OsErr>) -> Outcome
    ensures { result ≡ pointer_outcome given }
{
    given.map(Results::Pointer)
}

/// The outcome of a call that gives an address.
fn address(given: Result<u32, OsErr>) -> Outcome
    ensures { result ≡ address_outcome given }
{
    given.map(Results::Address)
}

/// The outcome of a call that gives a number.
fn number(given: Result<u32, OsErr>) -> Outcome
    ensures { result ≡ number_outcome given }
{
    given.map(Results::Number)
}

/// The outcome of a call that gives two numbers.
fn two_numbers(given: (u32, u32)) -> Outcome
    ensures { result ≡ Ok (TwoNumbers given.0 given.1) }
{
    Ok(Results::TwoNumbers(given.0, given.1))
}

/// The outcome of PurgeSpace.
fn two_sizes(given: PurgeSpace) -> Outcome
    ensures { result ≡ Ok (TwoNumbers given.total given.contiguous) }
{
    two_numbers((given.total, given.contiguous))
}

/// The outcome of a call that has no result.
fn done(given: Result<(), OsErr>) -> Outcome
    ensures { result ≡ done_outcome given }
{
    given.map(|_| Results::Nothing)
}
