//! The calls that release a block.

ghost use Rattle.std.specs.Prelude.{◌≡◌};
ghost use Rattle.linked_zone.specs.Loans.{KeepsLoans};
ghost use Rattle.mac_base.specs.Releasing.{operand_of};
ghost use Rattle.mem_calls.specs.Releasing.{EndsRelease};

use crate::operands::{test_handle_here, test_here, test_pointer, test_unlocked};
use mac_base::error::OsErr;
use mac_base::releasing::ReleasingCall;
use zone_heap::Zone;

/// The number of the handle or the pointer whose block a call releases.
pub(crate) fn operand_of(call: &ReleasingCall) -> u32
    ensures { result ≡ operand_of call.now }
{
    match call {
        ReleasingCall::DisposesHandle(handle) | ReleasingCall::Empties(handle) => handle.number(),
        ReleasingCall::DisposesPtr(pointer) => pointer.number(),
    }
}

/// Carries out a call that releases a block, unless its operand fails the call's tests.
pub(crate) fn release(zone: &mut Zone, call: ReleasingCall) -> Result<(), OsErr>
    ensures end { EndsRelease call zone.old result zone.new }
    ensures loans { KeepsLoans zone.old zone.new }
{
    match call {
        ReleasingCall::DisposesHandle(handle) => {
            test_handle_here(zone, handle)?;
            zone.release(handle);
        }
        ReleasingCall::DisposesPtr(pointer) => {
            test_pointer(zone, pointer)?;
            test_here(zone, pointer.number())?;
            zone.release_pointer(pointer);
        }
        ReleasingCall::Empties(handle) => {
            test_handle_here(zone, handle)?;
            test_unlocked(zone, handle)?;
            zone.empty(handle);
        }
    }
    Ok(())
}
