//! The calls that show C bytes: copies, or a window.

ghost use Rattle.std.specs.Prelude.{◌≡◌, length};
ghost use Rattle.mac_base.specs.declared.loan_call.LoanCall.TheVariants as loan_call;
ghost use Rattle.mac_base.specs.declared.memory_call.MemoryCall.TheVariants.{Showing};
ghost use Rattle.mac_base.specs.declared.memory_call.ShowingCall.TheVariants.{Peek};
ghost use Rattle.held_zone.specs.Told.{LoanToldBytes, ToldBytes, WindowTold};

use held_zone::host_err::HostErr;
use held_zone::told;
use held_zone::zone::{MhZone, Window};
use mac_base::error::NO_ERR;
use std::alloc::Global;

/// Copies `bytes.len()` bytes of a block, from an offset on, to C.
#[unsafe(no_mangle)]
pub extern "C" fn mh_peek(
    alloc: Global,
    zone: &mut MhZone,
    block: u32,
    offset: u32,
    bytes: &mut [u8],
) -> i16
    ensures { ToldBytes zone.old.held.session (Showing (Peek block offset (length bytes.old))) result bytes.old bytes.new zone.new.held.session }
{
    let Some(mut session) = zone.take(alloc) else {
        return HostErr::NotThere.code();
    };
    let done = session.peek(block, offset, bytes);
    zone.put(session);
    told::done(done)
}

/// Copies bytes that C has of a lent block, from an offset on.
#[unsafe(no_mangle)]
pub extern "C" fn mh_lent_peek(
    alloc: Global,
    zone: &mut MhZone,
    block: u32,
    offset: u32,
    bytes: &mut [u8],
) -> i16
    ensures { LoanToldBytes zone.old.held.session (loan_call.LentPeek block offset (length bytes.old)) result bytes.old bytes.new zone.new.held.session }
{
    let Some(mut session) = zone.take(alloc) else {
        return HostErr::NotThere.code();
    };
    let done = session.lent_peek(block, offset, bytes);
    zone.put(session);
    told::done(done)
}

/// The window on a lent block's bytes: C may read and write them there, until it gives them back.
#[unsafe(no_mangle)]
pub extern "C" fn mh_window(
    alloc: Global,
    zone: &mut MhZone,
    block: u32,
    window: &mut Window,
) -> i16
    ensures { WindowTold zone.old.held.session block result window.old window.new zone.new.held.session }
{
    let Some(mut session) = zone.take(alloc) else {
        return HostErr::NotThere.code();
    };
    let found = session.window(block);
    zone.put(session);
    match found {
        Ok(found) => {
            *window = found;
            NO_ERR
        }
        Err(code) => code.code(),
    }
}
