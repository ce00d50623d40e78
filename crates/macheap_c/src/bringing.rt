//! The calls that bring bytes of C into a block: they copy from outside the zone.

ghost use Rattle.std.specs.Prelude.{◌≡◌};
ghost use Rattle.mac_base.specs.declared.memory_call.MemoryCall.TheVariants.{Filling};
ghost use Rattle.mac_base.specs.declared.memory_call.FillingCall.TheVariants.{NewHandleOf, SetHandleTo, Append};
ghost use Rattle.held_zone.specs.Told.{Told, ToldNumber};

use held_zone::zone::MhZone;
use mac_base::handle::Handle;
use mac_base::{FillingCall, MemoryCall, Span};
use std::alloc::Global;

/// PtrToHand from outside the zone: a new handle whose block has these bytes.
#[unsafe(no_mangle)]
pub extern "C" fn mh_new_handle_of(
    alloc: Global,
    zone: &mut MhZone,
    bytes: &[u8],
    handle: &mut u32,
) -> i16
    ensures { ToldNumber zone.old.held.session (Filling (NewHandleOf bytes.now)) result handle.old handle.new zone.new.held.session }
{
    zone.number(
        alloc,
        &MemoryCall::Filling(FillingCall::NewHandleOf(Span::new(bytes))),
        handle,
    )
}

/// PtrToXHand from outside the zone: gives the handle these bytes in place of its own.
#[unsafe(no_mangle)]
pub extern "C" fn mh_set_handle_to(
    alloc: Global,
    zone: &mut MhZone,
    handle: u32,
    bytes: &[u8],
) -> i16
    ensures { Told zone.old.held.session (Filling (SetHandleTo handle bytes.now)) result zone.new.held.session }
{
    zone.code(
        alloc,
        &MemoryCall::Filling(FillingCall::SetHandleTo(Handle::new(handle), Span::new(bytes))),
    )
}

/// PtrAndHand from outside the zone: appends these bytes to those of the handle's block.
#[unsafe(no_mangle)]
pub extern "C" fn mh_append(alloc: Global, zone: &mut MhZone, handle: u32, bytes: &[u8]) -> i16
    ensures { Told zone.old.held.session (Filling (Append handle bytes.now)) result zone.new.held.session }
{
    zone.code(
        alloc,
        &MemoryCall::Filling(FillingCall::Append(Handle::new(handle), Span::new(bytes))),
    )
}
