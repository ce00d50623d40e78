//! The calls that show C no bytes: each is made of its operands, and what it answers is written for C.

ghost use Rattle.std.specs.Prelude.{◌≡◌};
ghost use Rattle.mac_base.specs.declared.loan_call.LoanCall.TheVariants as loan_call;
ghost use Rattle.mac_base.specs.declared.memory_call.MemoryCall.TheVariants.{Filling, OnBlock, OnZone, Requesting};
ghost use Rattle.mac_base.specs.declared.memory_call.RequestingCall.TheVariants.{NewHandle, NewEmptyHandle, NewPtr, SetHandleSize, SetPtrSize, ReallocateHandle, ReserveMem, MoreMasters};
ghost use Rattle.mac_base.specs.declared.memory_call.FillingCall.TheVariants.{HandToHand, PtrToHand, PtrToXHand, PtrAndHand, HandAndHand};
ghost use Rattle.mac_base.specs.declared.memory_call.BlockCall.TheVariants.{DisposeHandle, DisposePtr, EmptyHandle, GetHandleSize, GetPtrSize, HLock, HUnlock, HPurge, HNoPurge, HSetRBit, HClrRBit, HGetState, HSetState, Deref, MoveHHi, HLockHi, RecoverHandle, BlockMove, Poke};
ghost use Rattle.mac_base.specs.declared.memory_call.ZoneCall.TheVariants.{CompactMem, PurgeMem, MaxMem, PurgeSpace, MaxBlock, FreeMem, MaxApplZone};
ghost use Rattle.held_zone.specs.Told.{LoanTold, Told, ToldNumber, ToldNumbers};

use held_zone::zone::MhZone;
use mac_base::handle::{Handle, Ptr};
use mac_base::{BlockCall, FillingCall, LoanCall, MemoryCall, RequestingCall, Span, ZoneCall};
use std::alloc::Global;

/// NewHandle: a new relocatable block of `size` zero bytes.
#[unsafe(no_mangle)]
pub extern "C" fn mh_new_handle(
    alloc: Global,
    zone: &mut MhZone,
    size: u32,
    handle: &mut u32,
) -> i16
    ensures { ToldNumber zone.old.held.session (Requesting (NewHandle size)) result handle.old handle.new zone.new.held.session }
{
    zone.number(
        alloc,
        &MemoryCall::Requesting(RequestingCall::NewHandle(size)),
        handle,
    )
}

/// NewEmptyHandle: a new handle without a block.
#[unsafe(no_mangle)]
pub extern "C" fn mh_new_empty_handle(alloc: Global, zone: &mut MhZone, handle: &mut u32) -> i16
    ensures { ToldNumber zone.old.held.session (Requesting NewEmptyHandle) result handle.old handle.new zone.new.held.session }
{
    zone.number(
        alloc,
        &MemoryCall::Requesting(RequestingCall::NewEmptyHandle),
        handle,
    )
}

/// NewPtr: a new nonrelocatable block of `size` zero bytes.
#[unsafe(no_mangle)]
pub extern "C" fn mh_new_ptr(alloc: Global, zone: &mut MhZone, size: u32, pointer: &mut u32) -> i16
    ensures { ToldNumber zone.old.held.session (Requesting (NewPtr size)) result pointer.old pointer.new zone.new.held.session }
{
    zone.number(
        alloc,
        &MemoryCall::Requesting(RequestingCall::NewPtr(size)),
        pointer,
    )
}

/// DisposeHandle: the handle is gone, and its block is free.
#[unsafe(no_mangle)]
pub extern "C" fn mh_dispose_handle(alloc: Global, zone: &mut MhZone, handle: u32) -> i16
    ensures { Told zone.old.held.session (OnBlock (DisposeHandle handle)) result zone.new.held.session }
{
    zone.code(
        alloc,
        &MemoryCall::OnBlock(BlockCall::DisposeHandle(Handle::new(handle))),
    )
}

/// DisposePtr: the pointer's block is free.
#[unsafe(no_mangle)]
pub extern "C" fn mh_dispose_ptr(alloc: Global, zone: &mut MhZone, pointer: u32) -> i16
    ensures { Told zone.old.held.session (OnBlock (DisposePtr pointer)) result zone.new.held.session }
{
    zone.code(
        alloc,
        &MemoryCall::OnBlock(BlockCall::DisposePtr(Ptr::new(pointer))),
    )
}

/// EmptyHandle: the handle's block is free, and the handle stays.
#[unsafe(no_mangle)]
pub extern "C" fn mh_empty_handle(alloc: Global, zone: &mut MhZone, handle: u32) -> i16
    ensures { Told zone.old.held.session (OnBlock (EmptyHandle handle)) result zone.new.held.session }
{
    zone.code(
        alloc,
        &MemoryCall::OnBlock(BlockCall::EmptyHandle(Handle::new(handle))),
    )
}

/// SetHandleSize: gives the handle's block `size` bytes.
#[unsafe(no_mangle)]
pub extern "C" fn mh_set_handle_size(
    alloc: Global,
    zone: &mut MhZone,
    handle: u32,
    size: u32,
) -> i16
    ensures { Told zone.old.held.session (Requesting (SetHandleSize handle size)) result zone.new.held.session }
{
    zone.code(
        alloc,
        &MemoryCall::Requesting(RequestingCall::SetHandleSize(Handle::new(handle), size)),
    )
}

/// GetHandleSize: the bytes of the handle's block.
#[unsafe(no_mangle)]
pub extern "C" fn mh_get_handle_size(
    alloc: Global,
    zone: &mut MhZone,
    handle: u32,
    number: &mut u32,
) -> i16
    ensures { ToldNumber zone.old.held.session (OnBlock (GetHandleSize handle)) result number.old number.new zone.new.held.session }
{
    zone.number(
        alloc,
        &MemoryCall::OnBlock(BlockCall::GetHandleSize(Handle::new(handle))),
        number,
    )
}

/// SetPtrSize: gives the pointer's block `size` bytes where it is.
#[unsafe(no_mangle)]
pub extern "C" fn mh_set_ptr_size(alloc: Global, zone: &mut MhZone, pointer: u32, size: u32) -> i16
    ensures { Told zone.old.held.session (Requesting (SetPtrSize pointer size)) result zone.new.held.session }
{
    zone.code(
        alloc,
        &MemoryCall::Requesting(RequestingCall::SetPtrSize(Ptr::new(pointer), size)),
    )
}

/// GetPtrSize: the bytes of the pointer's block.
#[unsafe(no_mangle)]
pub extern "C" fn mh_get_ptr_size(
    alloc: Global,
    zone: &mut MhZone,
    pointer: u32,
    number: &mut u32,
) -> i16
    ensures { ToldNumber zone.old.held.session (OnBlock (GetPtrSize pointer)) result number.old number.new zone.new.held.session }
{
    zone.number(
        alloc,
        &MemoryCall::OnBlock(BlockCall::GetPtrSize(Ptr::new(pointer))),
        number,
    )
}

/// ReallocateHandle: a new block of `size` zero bytes for the handle.
#[unsafe(no_mangle)]
pub extern "C" fn mh_reallocate_handle(
    alloc: Global,
    zone: &mut MhZone,
    handle: u32,
    size: u32,
) -> i16
    ensures { Told zone.old.held.session (Requesting (ReallocateHandle handle size)) result zone.new.held.session }
{
    zone.code(
        alloc,
        &MemoryCall::Requesting(RequestingCall::ReallocateHandle(Handle::new(handle), size)),
    )
}

/// HLock: locks the handle's block.
#[unsafe(no_mangle)]
pub extern "C" fn mh_hlock(alloc: Global, zone: &mut MhZone, handle: u32) -> i16
    ensures { Told zone.old.held.session (OnBlock (HLock handle)) result zone.new.held.session }
{
    zone.code(
        alloc,
        &MemoryCall::OnBlock(BlockCall::HLock(Handle::new(handle))),
    )
}

/// HUnlock: unlocks the handle's block.
#[unsafe(no_mangle)]
pub extern "C" fn mh_hunlock(alloc: Global, zone: &mut MhZone, handle: u32) -> i16
    ensures { Told zone.old.held.session (OnBlock (HUnlock handle)) result zone.new.held.session }
{
    zone.code(
        alloc,
        &MemoryCall::OnBlock(BlockCall::HUnlock(Handle::new(handle))),
    )
}

/// HPurge: the handle's block may be purged.
#[unsafe(no_mangle)]
pub extern "C" fn mh_hpurge(alloc: Global, zone: &mut MhZone, handle: u32) -> i16
    ensures { Told zone.old.held.session (OnBlock (HPurge handle)) result zone.new.held.session }
{
    zone.code(
        alloc,
        &MemoryCall::OnBlock(BlockCall::HPurge(Handle::new(handle))),
    )
}

/// HNoPurge: the handle's block may not be purged.
#[unsafe(no_mangle)]
pub extern "C" fn mh_hno_purge(alloc: Global, zone: &mut MhZone, handle: u32) -> i16
    ensures { Told zone.old.held.session (OnBlock (HNoPurge handle)) result zone.new.held.session }
{
    zone.code(
        alloc,
        &MemoryCall::OnBlock(BlockCall::HNoPurge(Handle::new(handle))),
    )
}

/// HSetRBit: the handle's block is a resource.
#[unsafe(no_mangle)]
pub extern "C" fn mh_hset_rbit(alloc: Global, zone: &mut MhZone, handle: u32) -> i16
    ensures { Told zone.old.held.session (OnBlock (HSetRBit handle)) result zone.new.held.session }
{
    zone.code(
        alloc,
        &MemoryCall::OnBlock(BlockCall::HSetRBit(Handle::new(handle))),
    )
}

/// HClrRBit: the handle's block is no resource.
#[unsafe(no_mangle)]
pub extern "C" fn mh_hclr_rbit(alloc: Global, zone: &mut MhZone, handle: u32) -> i16
    ensures { Told zone.old.held.session (OnBlock (HClrRBit handle)) result zone.new.held.session }
{
    zone.code(
        alloc,
        &MemoryCall::OnBlock(BlockCall::HClrRBit(Handle::new(handle))),
    )
}

/// HGetState: the flags of the handle as a number.
#[unsafe(no_mangle)]
pub extern "C" fn mh_hget_state(
    alloc: Global,
    zone: &mut MhZone,
    handle: u32,
    number: &mut u32,
) -> i16
    ensures { ToldNumber zone.old.held.session (OnBlock (HGetState handle)) result number.old number.new zone.new.held.session }
{
    zone.number(
        alloc,
        &MemoryCall::OnBlock(BlockCall::HGetState(Handle::new(handle))),
        number,
    )
}

/// HSetState: gives the handle the flags of a number.
#[unsafe(no_mangle)]
pub extern "C" fn mh_hset_state(alloc: Global, zone: &mut MhZone, handle: u32, state: u32) -> i16
    ensures { Told zone.old.held.session (OnBlock (HSetState handle state)) result zone.new.held.session }
{
    zone.code(
        alloc,
        &MemoryCall::OnBlock(BlockCall::HSetState(Handle::new(handle), state)),
    )
}

/// The address at which the contents of the handle's block begin.
#[unsafe(no_mangle)]
pub extern "C" fn mh_deref(alloc: Global, zone: &mut MhZone, handle: u32, address: &mut u32) -> i16
    ensures { ToldNumber zone.old.held.session (OnBlock (Deref handle)) result address.old address.new zone.new.held.session }
{
    zone.number(
        alloc,
        &MemoryCall::OnBlock(BlockCall::Deref(Handle::new(handle))),
        address,
    )
}

/// MoveHHi: the handle's block moves up as far as it goes.
#[unsafe(no_mangle)]
pub extern "C" fn mh_move_hhi(alloc: Global, zone: &mut MhZone, handle: u32) -> i16
    ensures { Told zone.old.held.session (OnBlock (MoveHHi handle)) result zone.new.held.session }
{
    zone.code(
        alloc,
        &MemoryCall::OnBlock(BlockCall::MoveHHi(Handle::new(handle))),
    )
}

/// HLockHi: MoveHHi, and then HLock.
#[unsafe(no_mangle)]
pub extern "C" fn mh_hlock_hi(alloc: Global, zone: &mut MhZone, handle: u32) -> i16
    ensures { Told zone.old.held.session (OnBlock (HLockHi handle)) result zone.new.held.session }
{
    zone.code(
        alloc,
        &MemoryCall::OnBlock(BlockCall::HLockHi(Handle::new(handle))),
    )
}

/// RecoverHandle: the handle whose block's contents begin at an address.
#[unsafe(no_mangle)]
pub extern "C" fn mh_recover_handle(
    alloc: Global,
    zone: &mut MhZone,
    address: u32,
    handle: &mut u32,
) -> i16
    ensures { ToldNumber zone.old.held.session (OnBlock (RecoverHandle address)) result handle.old handle.new zone.new.held.session }
{
    zone.number(
        alloc,
        &MemoryCall::OnBlock(BlockCall::RecoverHandle(address)),
        handle,
    )
}

/// HandToHand: a new handle whose block has the bytes of this one's.
#[unsafe(no_mangle)]
pub extern "C" fn mh_hand_to_hand(
    alloc: Global,
    zone: &mut MhZone,
    handle: u32,
    new_handle: &mut u32,
) -> i16
    ensures { ToldNumber zone.old.held.session (Filling (HandToHand handle)) result new_handle.old new_handle.new zone.new.held.session }
{
    zone.number(
        alloc,
        &MemoryCall::Filling(FillingCall::HandToHand(Handle::new(handle))),
        new_handle,
    )
}

/// PtrToHand: a new handle whose block has the first `count` bytes of the pointer's.
#[unsafe(no_mangle)]
pub extern "C" fn mh_ptr_to_hand(
    alloc: Global,
    zone: &mut MhZone,
    pointer: u32,
    count: u32,
    handle: &mut u32,
) -> i16
    ensures { ToldNumber zone.old.held.session (Filling (PtrToHand pointer count)) result handle.old handle.new zone.new.held.session }
{
    zone.number(
        alloc,
        &MemoryCall::Filling(FillingCall::PtrToHand(Ptr::new(pointer), count)),
        handle,
    )
}

/// PtrToXHand: gives the handle the first `count` bytes of the pointer's block.
#[unsafe(no_mangle)]
pub extern "C" fn mh_ptr_to_xhand(
    alloc: Global,
    zone: &mut MhZone,
    pointer: u32,
    handle: u32,
    count: u32,
) -> i16
    ensures { Told zone.old.held.session (Filling (PtrToXHand pointer handle count)) result zone.new.held.session }
{
    zone.code(
        alloc,
        &MemoryCall::Filling(FillingCall::PtrToXHand(
            Ptr::new(pointer),
            Handle::new(handle),
            count,
        )),
    )
}

/// PtrAndHand: appends the first `count` bytes of the pointer's block to the handle's.
#[unsafe(no_mangle)]
pub extern "C" fn mh_ptr_and_hand(
    alloc: Global,
    zone: &mut MhZone,
    pointer: u32,
    handle: u32,
    count: u32,
) -> i16
    ensures { Told zone.old.held.session (Filling (PtrAndHand pointer handle count)) result zone.new.held.session }
{
    zone.code(
        alloc,
        &MemoryCall::Filling(FillingCall::PtrAndHand(
            Ptr::new(pointer),
            Handle::new(handle),
            count,
        )),
    )
}

/// HandAndHand: appends the bytes of the first handle's block to the second's.
#[unsafe(no_mangle)]
pub extern "C" fn mh_hand_and_hand(alloc: Global, zone: &mut MhZone, one: u32, other: u32) -> i16
    ensures { Told zone.old.held.session (Filling (HandAndHand one other)) result zone.new.held.session }
{
    zone.code(
        alloc,
        &MemoryCall::Filling(FillingCall::HandAndHand(Handle::new(one), Handle::new(other))),
    )
}

/// BlockMove: `count` bytes of a block over those of another, or of its own.
#[unsafe(no_mangle)]
pub extern "C" fn mh_block_move(
    alloc: Global,
    zone: &mut MhZone,
    from: u32,
    start: u32,
    to: u32,
    offset: u32,
    count: u32,
) -> i16
    ensures { Told zone.old.held.session (OnBlock (BlockMove from start to offset count)) result zone.new.held.session }
{
    zone.code(
        alloc,
        &MemoryCall::OnBlock(BlockCall::BlockMove {
            from,
            start,
            to,
            offset,
            count,
        }),
    )
}

/// ReserveMem: makes room for a block of `size` bytes as low as can be.
#[unsafe(no_mangle)]
pub extern "C" fn mh_reserve_mem(alloc: Global, zone: &mut MhZone, size: u32) -> i16
    ensures { Told zone.old.held.session (Requesting (ReserveMem size)) result zone.new.held.session }
{
    zone.code(
        alloc,
        &MemoryCall::Requesting(RequestingCall::ReserveMem(size)),
    )
}

/// MoreMasters: a new master block.
#[unsafe(no_mangle)]
pub extern "C" fn mh_more_masters(alloc: Global, zone: &mut MhZone) -> i16
    ensures { Told zone.old.held.session (Requesting MoreMasters) result zone.new.held.session }
{
    zone.code(alloc, &MemoryCall::Requesting(RequestingCall::MoreMasters))
}

/// CompactMem: compacts the zone for `size` bytes. Gives the largest free block.
#[unsafe(no_mangle)]
pub extern "C" fn mh_compact_mem(
    alloc: Global,
    zone: &mut MhZone,
    size: u32,
    number: &mut u32,
) -> i16
    ensures { ToldNumber zone.old.held.session (OnZone (CompactMem size)) result number.old number.new zone.new.held.session }
{
    zone.number(
        alloc,
        &MemoryCall::OnZone(ZoneCall::CompactMem(size)),
        number,
    )
}

/// PurgeMem: purges blocks until `size` bytes are free in one block.
#[unsafe(no_mangle)]
pub extern "C" fn mh_purge_mem(alloc: Global, zone: &mut MhZone, size: u32) -> i16
    ensures { Told zone.old.held.session (OnZone (PurgeMem size)) result zone.new.held.session }
{
    zone.code(alloc, &MemoryCall::OnZone(ZoneCall::PurgeMem(size)))
}

/// MaxMem: purges and compacts all of the zone. Gives its largest free block, and the bytes by which it may still grow.
#[unsafe(no_mangle)]
pub extern "C" fn mh_max_mem(
    alloc: Global,
    zone: &mut MhZone,
    largest: &mut u32,
    growth: &mut u32,
) -> i16
    ensures { ToldNumbers zone.old.held.session (OnZone MaxMem) result (largest.old, growth.old) (largest.new, growth.new) zone.new.held.session }
{
    zone.numbers(
        alloc,
        &MemoryCall::OnZone(ZoneCall::MaxMem),
        largest,
        growth,
    )
}

/// PurgeSpace: the bytes that purging would free, in all and in one block.
#[unsafe(no_mangle)]
pub extern "C" fn mh_purge_space(
    alloc: Global,
    zone: &mut MhZone,
    total: &mut u32,
    contiguous: &mut u32,
) -> i16
    ensures { ToldNumbers zone.old.held.session (OnZone PurgeSpace) result (total.old, contiguous.old) (total.new, contiguous.new) zone.new.held.session }
{
    zone.numbers(
        alloc,
        &MemoryCall::OnZone(ZoneCall::PurgeSpace),
        total,
        contiguous,
    )
}

/// MaxBlock: the most free bytes that moving blocks would bring together.
#[unsafe(no_mangle)]
pub extern "C" fn mh_max_block(alloc: Global, zone: &mut MhZone, number: &mut u32) -> i16
    ensures { ToldNumber zone.old.held.session (OnZone MaxBlock) result number.old number.new zone.new.held.session }
{
    zone.number(alloc, &MemoryCall::OnZone(ZoneCall::MaxBlock), number)
}

/// FreeMem: the free bytes.
#[unsafe(no_mangle)]
pub extern "C" fn mh_free_mem(alloc: Global, zone: &mut MhZone, number: &mut u32) -> i16
    ensures { ToldNumber zone.old.held.session (OnZone FreeMem) result number.old number.new zone.new.held.session }
{
    zone.number(alloc, &MemoryCall::OnZone(ZoneCall::FreeMem), number)
}

/// MaxApplZone: grows the zone to its limit.
#[unsafe(no_mangle)]
pub extern "C" fn mh_max_appl_zone(alloc: Global, zone: &mut MhZone) -> i16
    ensures { Told zone.old.held.session (OnZone MaxApplZone) result zone.new.held.session }
{
    zone.code(alloc, &MemoryCall::OnZone(ZoneCall::MaxApplZone))
}

/// Copies bytes of C over those of a block, from an offset on.
#[unsafe(no_mangle)]
pub extern "C" fn mh_poke(
    alloc: Global,
    zone: &mut MhZone,
    block: u32,
    offset: u32,
    bytes: &[u8],
) -> i16
    ensures { Told zone.old.held.session (OnBlock (Poke block offset bytes.now)) result zone.new.held.session }
{
    let bytes = Span::new(bytes);
    zone.code(
        alloc,
        &MemoryCall::OnBlock(BlockCall::Poke {
            block,
            offset,
            bytes,
        }),
    )
}

/// Lend: C has the bytes of a pointer's or a locked handle's block, until it gives them back. The block stays where it
/// is, and calls that would read, write, free, resize or unlock it are refused.
#[unsafe(no_mangle)]
pub extern "C" fn mh_lend(alloc: Global, zone: &mut MhZone, block: u32) -> i16
    ensures { LoanTold zone.old.held.session (loan_call.Lend block) result zone.new.held.session }
{
    zone.loan(alloc, &LoanCall::Lend(block))
}

/// Return: gives a block's bytes back.
#[unsafe(no_mangle)]
pub extern "C" fn mh_return(alloc: Global, zone: &mut MhZone, block: u32) -> i16
    ensures { LoanTold zone.old.held.session (loan_call.Return block) result zone.new.held.session }
{
    zone.loan(alloc, &LoanCall::Return(block))
}

/// Copies bytes over those that C has of a lent block, from an offset on.
#[unsafe(no_mangle)]
pub extern "C" fn mh_lent_poke(
    alloc: Global,
    zone: &mut MhZone,
    block: u32,
    offset: u32,
    bytes: &[u8],
) -> i16
    ensures { LoanTold zone.old.held.session (loan_call.LentPoke block offset bytes.now) result zone.new.held.session }
{
    let bytes = Span::new(bytes);
    zone.loan(
        alloc,
        &LoanCall::LentPoke {
            block,
            offset,
            bytes,
        },
    )
}
