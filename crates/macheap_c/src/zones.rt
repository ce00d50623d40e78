//! Several zones for one set of files.

ghost use Rattle.std.specs.Prelude.{◌≡◌};
ghost use Rattle.held_files.specs.Told.{FirstLoadedTold, ForkTold};
ghost use Rattle.macheap_c.specs.Zones.{SystemTold, address_given, other_zone};

use held_files::held::MrFiles;
use held_zone::host_err::HostErr;
use held_zone::zone::MhZone;
use mac_base::error::NO_ERR;
use std::alloc::Global;

/// An address that C gives: none where it is 0.
fn address_given(address: u32) -> Option<u32>
    ensures { result ≡ address_given address }
{
    if address == 0 { None } else { Some(address) }
}

/// Resources with resSysHeap are loaded into the zone that has this address from now on; or as all others are, where it
/// is 0.
#[unsafe(no_mangle)]
pub extern "C" fn mr_set_system_zone(alloc: Global, files: &mut MrFiles, address: u32) -> i16
    ensures { SystemTold address files.old.held.files result files.new.held.files }
{
    let Some(mut begun) = files.take(alloc) else {
        return HostErr::NotThere.code();
    };
    begun.set_system(address_given(address));
    files.put(begun);
    NO_ERR
}

/// The first handle that a resource has in a zone, in the order of the files' numbers and of their resources. NoneSuch
/// where there is none.
#[unsafe(no_mangle)]
pub extern "C" fn mr_first_loaded(
    alloc: Global,
    files: &mut MrFiles,
    zone: &mut MhZone,
    handle: &mut u32,
) -> i16
    ensures { FirstLoadedTold zone.old.held.session files.old.held.files result handle.old handle.new zone.new.held.session files.new.held.files }
{
    files.first_loaded(alloc, zone, handle)
}

/// An address in the zone over which the last call has to be made that was given another. NoneSuch where there was none.
#[unsafe(no_mangle)]
pub extern "C" fn mr_other_zone(alloc: Global, files: &mut MrFiles, address: &mut u32) -> i16
    ensures { ForkTold other_zone files.old.held.files result address.old address.new files.new.held.files }
{
    let Some(begun) = files.take(alloc) else {
        return HostErr::NotThere.code();
    };
    let known = begun.needed();
    files.put(begun);
    match known {
        Some(needed) => {
            *address = needed;
            NO_ERR
        }
        None => HostErr::NoneSuch.code(),
    }
}
