//! The handles that calls purge: C reads them after a call, or has the call held before it.

ghost use Rattle.std.specs.Prelude.{◌≡◌, length, take};
ghost use Rattle.mac_base.specs.ZoneState.{written};
ghost use Rattle.macheap_c.specs.Growing.{IsShown};
ghost use Rattle.macheap_c.specs.Purges.{HoldTold, PurgedTold, turn_of};

use held_zone::host_err::HostErr;
use held_zone::zone::MhZone;
use mac_base::error::NO_ERR;
use std::alloc::Global;

/// Holds calls that would purge from now on; or no more, where `on` is 0.
#[unsafe(no_mangle)]
pub extern "C" fn mh_hold_purges(alloc: Global, zone: &mut MhZone, on: u32) -> i16
    ensures { HoldTold on zone.old.held.session result zone.new.held.session }
{
    let Some(mut session) = zone.take(alloc) else {
        return HostErr::NotThere.code();
    };
    session.purges.hold(on != 0);
    zone.put(session);
    NO_ERR
}

/// The handle that the last call would purge first, where it was held for that. NoneSuch where it wasn't.
#[unsafe(no_mangle)]
pub extern "C" fn mh_would_purge(alloc: Global, zone: &mut MhZone, handle: &mut u32) -> i16
    ensures { IsShown turn_of zone.old.held.session result handle.old handle.new zone.new.held.session }
{
    let Some(session) = zone.take(alloc) else {
        return HostErr::NotThere.code();
    };
    let turn = session.purges.turn();
    zone.put(session);
    match turn {
        Some(next) => {
            *handle = next.number();
            NO_ERR
        }
        None => HostErr::NoneSuch.code(),
    }
}

/// The handles that the last call purged, in order: as many of the first as there is room for, 1,024 at most. How many
/// they were in all.
#[unsafe(no_mangle)]
pub extern "C" fn mh_purged(
    alloc: Global,
    zone: &mut MhZone,
    handles: &mut [u32],
    count: &mut u32,
) -> i16
    ensures { PurgedTold zone.old.held.session result (handles.old, count.old) (handles.new, count.new) zone.new.held.session }
{
    let Some(session) = zone.take(alloc) else {
        return HostErr::NotThere.code();
    };
    write_front(session.purges.first(), handles);
    *count = session.purges.count();
    zone.put(session);
    NO_ERR
}

/// Writes numbers over others, from the first on: as many as there is room for.
fn write_front(numbers: &[u32], places: &mut [u32])
    ensures { places.new ≡ written 0 (take (length places.old) numbers.now) places.old }
{
    let count = numbers.len().min(places.len());
    places[..count].copy_from_slice(&numbers[..count]);
}
