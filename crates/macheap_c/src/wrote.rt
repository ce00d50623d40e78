//! Which bytes of the host's were written while a zone was awake in them.

ghost use Rattle.std.specs.Prelude.{length};
ghost use Rattle.held_zone.specs.Asleep.{region_of};
ghost use Rattle.macheap_c.specs.Wrote.{IsPutToSleepWith, Learns};

use crate::guest::put_to_sleep;
use held_zone::asleep::MhAsleep;
use held_zone::host_err::HostErr;
use held_zone::memory::MhMemory;
use held_zone::zone::MhZone;
use linked_zone::Written;
use mac_base::error::NO_ERR;
use std::alloc::Global;
use zone_records::list_runs;

/// Puts the zone that is awake to sleep as `mh_sleep` does, and lists ranges of the bytes, the lowest first, outside
/// which none differs from what it was when the zone woke; one that has all bytes where there are more than C has room
/// for. BadNumber where it has room for none.
#[unsafe(no_mangle)]
pub extern "C" fn mh_sleep_wrote(
    alloc: Global,
    zone: &mut MhZone,
    asleep: &mut MhAsleep,
    memory: &mut MhMemory,
    ranges: &mut [Written],
    count: &mut usize,
) -> i16
    ensures asleep { IsPutToSleepWith (length ranges.old) zone.old.held.session asleep.old.zone.held.session (region_of memory.old.host) result zone.new.held.session asleep.new.zone.held.session (region_of memory.new.host) }
    ensures wrote { Learns zone.old.held.session zone.new.held.session (region_of memory.new.host) (count.old, ranges.old) (count.new, ranges.new) }
{
    if ranges.is_empty() {
        return HostErr::BadNumber.code();
    }
    match put_to_sleep(alloc, zone, asleep, memory) {
        Ok(wrote) => {
            *count = list_runs(&wrote.runs, wrote.len, ranges);
            NO_ERR
        }
        Err(code) => code.code(),
    }
}
