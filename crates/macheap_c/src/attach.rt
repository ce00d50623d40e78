//! Zones that are made of bytes which others wrote: of a guest's memory, or of a save state.

ghost use Rattle.std.specs.Prelude.{◌≡◌, None, Some};
ghost use Rattle.held_zone.specs.Asleep.{region_of};
ghost use Rattle.macheap_c.specs.Attach.{IsAttached, IsMadeOf, code_of_why};
ghost use Rattle.macheap_c.specs.Life.{large_sizes_of};

use crate::guest::DAMAGED;
use crate::life::large_spec_of;
use held_zone::asleep::MhAsleep;
use held_zone::host_err::HostErr;
use held_zone::memory::MhMemory;
use held_zone::session::Session;
use held_zone::zone::MhZone;
use linked_zone::WhyNot;
use mac_base::error::{NO_ERR, OsErr};
use mac_base::zone_spec::ZoneSpec;
use std::alloc::Global;

/// Why no zone is made: memFullErr where the host has no memory, memSCErr where the bytes are those of no zone.
fn code_of_why(why: WhyNot) -> i16
    ensures { result ≡ code_of_why why }
{
    match why {
        WhyNot::HostFull => OsErr::MemFullErr.code(),
        WhyNot::NotZone => DAMAGED,
    }
}

/// Makes a zone that sleeps of the bytes as they are, whoever wrote them, as many as its limit. They aren't changed.
#[unsafe(no_mangle)]
pub extern "C" fn mh_attach(
    alloc: Global,
    asleep: &mut MhAsleep,
    memory: &mut MhMemory,
    base: u32,
    size: u32,
    limit: u32,
    mode: u32,
) -> i16
    ensures { IsAttached asleep.old.zone.held.session (large_sizes_of mode base size limit) (region_of memory.old.host) result asleep.new.zone.held.session (region_of memory.new.host) }
{
    if asleep.is_live() {
        return HostErr::InUse.code();
    }
    match large_spec_of(mode, base, size, limit) {
        Some(spec) => attach(alloc, asleep, memory, spec),
        None => HostErr::BadNumber.code(),
    }
}

/// Makes a zone of these sizes that sleeps of the bytes, where none sleeps.
fn attach(alloc: Global, asleep: &mut MhAsleep, memory: &mut MhMemory, spec: ZoneSpec) -> i16
    requires none { asleep.old.zone.held.session ≡ None }
    ensures { IsAttached None (Some spec) (region_of memory.old.host) result asleep.new.zone.held.session (region_of memory.new.host) }
{
    let Some(region) = memory.take() else {
        return HostErr::NotThere.code();
    };
    let len = region.len();
    if len != spec.limit() as usize {
        memory.put(region);
        return HostErr::BadNumber.code();
    }
    let attached = Session::attach(alloc, spec, region.bytes(0, len));
    memory.put(region);
    match attached {
        Ok(session) => {
            asleep.put(session);
            NO_ERR
        }
        Err(why) => code_of_why(why),
    }
}

/// Makes a zone, in memory of the library's own, of the bytes that `mh_image` copied, whoever wrote them.
#[unsafe(no_mangle)]
pub extern "C" fn mh_make_zone_of(
    alloc: Global,
    zone: &mut MhZone,
    base: u32,
    size: u32,
    limit: u32,
    mode: u32,
    image: &[u8],
) -> i16
    ensures { IsMadeOf zone.old.held.session (large_sizes_of mode base size limit) image.now result zone.new.held.session }
{
    if zone.is_live() {
        return HostErr::InUse.code();
    }
    match large_spec_of(mode, base, size, limit) {
        Some(spec) => restore(alloc, zone, spec, image),
        None => HostErr::BadNumber.code(),
    }
}

/// Makes a zone of these sizes of its bytes, where there is none.
fn restore(alloc: Global, zone: &mut MhZone, spec: ZoneSpec, image: &[u8]) -> i16
    requires none { zone.old.held.session ≡ None }
    ensures { IsMadeOf None (Some spec) image.now result zone.new.held.session }
{
    if image.len() != spec.size() as usize {
        return HostErr::BadNumber.code();
    }
    match Session::restore(alloc, spec, image) {
        Ok(session) => {
            zone.put(session);
            NO_ERR
        }
        Err(why) => code_of_why(why),
    }
}
