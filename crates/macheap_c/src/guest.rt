//! A zone that sleeps, and wakes in bytes of the host that a guest may write meanwhile.

ghost use Rattle.std.specs.Prelude.{◌≡◌, [], None, Some, IfErr, IfOk, IfSome, OnErr, OnOk};
ghost use Rattle.raw_region.specs.Runs.{AreWithin, noted};
ghost use Rattle.macheap_c.specs.Wrote.{WroteIn, code_after};
ghost use Rattle.linked_zone.specs.Written.{DifferIn};
ghost use Rattle.held_zone.specs.Asleep.{IsAsleep, IsAwakeIn, SleepsOn, region_of};
ghost use Rattle.held_zone.specs.Fields.{managed};
ghost use Rattle.macheap_c.specs.Guest.{IsMadeAt, IsPutToSleep, IsTold, IsWoken, code_asleep};
ghost use Rattle.macheap_c.specs.Life.{Ends, large_sizes_of};
ghost use Rattle.macheap_c.specs.Refusals.{reply_code};

use crate::life::large_spec_of;
use crate::refusal::{Refusal, reply};
use held_zone::asleep::MhAsleep;
use held_zone::host_err::HostErr;
use held_zone::memory::MhMemory;
use held_zone::session::Session;
use held_zone::waking::{NotAwake, WhyAsleep};
use held_zone::zone::MhZone;
use linked_zone::Written;
use mac_base::error::{NO_ERR, OsErr};
use mac_base::zone_spec::ZoneSpec;
use raw_region::{Region, Runs};
use std::alloc::Global;

/// The bytes haven't the zone's structure: memSCErr.
pub(crate) const DAMAGED: i16 = -116;

/// Where the bytes of a zone may differ from those that it woke in, and how many it has.
#[derive(Clone, Copy)]
pub(crate) struct Wrote {
    pub runs: Runs,
    pub len: u32,
}

/// Makes a zone that sleeps, as `mh_make_zone_large` does one that is awake, and writes its structure into bytes, as
/// many as its limit. No other of these changes.
#[unsafe(no_mangle)]
pub extern "C" fn mh_make_zone_at(
    alloc: Global,
    asleep: &mut MhAsleep,
    memory: &mut MhMemory,
    base: u32,
    size: u32,
    limit: u32,
    mode: u32,
) -> i16
    ensures { IsMadeAt asleep.old.zone.held.session (large_sizes_of mode base size limit) (region_of memory.old.host) result asleep.new.zone.held.session (region_of memory.new.host) }
{
    let spec = large_spec_of(mode, base, size, limit);
    reply(make_at(alloc, asleep, memory, spec))
}

/// Makes a zone of these sizes that sleeps. InUse where one does, BadNumber where no zone has these sizes.
fn make_at(
    alloc: Global,
    asleep: &mut MhAsleep,
    memory: &mut MhMemory,
    spec: Option<ZoneSpec>,
) -> Result<(), Refusal>
    ensures { IsMadeAt asleep.old.zone.held.session spec (region_of memory.old.host) (reply_code result) asleep.new.zone.held.session (region_of memory.new.host) }
{
    if asleep.is_live() {
        return Err(Refusal::Host(HostErr::InUse));
    }
    let spec = spec.ok_or(HostErr::BadNumber)?;
    make(alloc, asleep, memory, spec)
}

/// Makes a zone of these sizes that sleeps. NotThere where there are no bytes, BadNumber where they aren't as many as its
/// limit, memFullErr where the host has no memory.
fn make(
    alloc: Global,
    asleep: &mut MhAsleep,
    memory: &mut MhMemory,
    spec: ZoneSpec,
) -> Result<(), Refusal>
    requires none { asleep.old.zone.held.session ≡ None }
    ensures { IsMadeAt None (Some spec) (region_of memory.old.host) (reply_code result) asleep.new.zone.held.session (region_of memory.new.host) }
{
    let Some(region) = memory.take() else {
        return Err(Refusal::Host(HostErr::NotThere));
    };
    if region.len() != spec.limit() as usize {
        memory.put(region);
        return Err(Refusal::Host(HostErr::BadNumber));
    }
    match Session::create(alloc, spec) {
        Ok(session) => {
            memory.put_written(session.settle(region));
            asleep.put(session);
            Ok(())
        }
        Err(_) => {
            memory.put(region);
            Err(Refusal::Toolbox(OsErr::MemFullErr))
        }
    }
}

/// Wakes the zone that sleeps in bytes that have its structure: it has the contents and flags that they have, what is
/// lent is lent again, and the bytes are gone. Flag bits in the master pointers of empty handles are cleared. Else the
/// zone sleeps on, and no byte has changed; memLockedErr where they have the structure, and a handle that is lent isn't
/// locked any more; memFullErr where there are such bits, and the host has no memory to keep the bytes in meanwhile.
#[unsafe(no_mangle)]
pub extern "C" fn mh_wake(
    alloc: Global,
    zone: &mut MhZone,
    asleep: &mut MhAsleep,
    memory: &mut MhMemory,
) -> i16
    ensures { IsWoken zone.old.held.session asleep.old.zone.held.session (region_of memory.old.host) result zone.new.held.session asleep.new.zone.held.session (region_of memory.new.host) }
{
    wake_asleep(alloc, zone, asleep, memory, None)
}

/// Wakes the zone that sleeps as `mh_wake` does, and compares only the zone's header and the blocks that have a byte of
/// those that the host says were written. WHO CALLS IT PROMISES THAT SINCE THE ZONE FELL ASLEEP, OR WAS MADE, ATTACHED
/// OR REPAIRED IN ITS SLEEP, NO BYTE WAS WRITTEN BUT IN THESE RANGES. WHERE ONE WAS WRITTEN ELSEWHERE THE LIBRARY'S
/// BEHAVIOUR IS UNDEFINED. No ranges at all say that nothing was written.
#[unsafe(no_mangle)]
pub extern "C" fn mh_wake_written(
    alloc: Global,
    zone: &mut MhZone,
    asleep: &mut MhAsleep,
    memory: &mut MhMemory,
    written: &[Written],
) -> i16
    requires told { IsTold asleep.old.zone.held.session (region_of memory.old.host) written.now }
    ensures { IsWoken zone.old.held.session asleep.old.zone.held.session (region_of memory.old.host) result zone.new.held.session asleep.new.zone.held.session (region_of memory.new.host) }
{
    wake_asleep(alloc, zone, asleep, memory, Some(written))
}

/// Wakes the zone that sleeps. InUse where one is awake, NotThere where none sleeps.
fn wake_asleep(
    alloc: Global,
    zone: &mut MhZone,
    asleep: &mut MhAsleep,
    memory: &mut MhMemory,
    written: Option<&[Written]>,
) -> i16
    requires told { IfSome written (λ ranges. IsTold asleep.old.zone.held.session (region_of memory.old.host) ranges.now) }
    ensures { IsWoken zone.old.held.session asleep.old.zone.held.session (region_of memory.old.host) result zone.new.held.session asleep.new.zone.held.session (region_of memory.new.host) }
{
    if zone.is_live() {
        return HostErr::InUse.code();
    }
    let Some(session) = asleep.take(alloc) else {
        return HostErr::NotThere.code();
    };
    wake(alloc, session, zone, asleep, memory, written)
}

/// Wakes a zone that was asleep. NotThere where there are no bytes, BadNumber where they aren't as many as its limit.
fn wake(
    alloc: Global,
    session: Box<Session>,
    zone: &mut MhZone,
    asleep: &mut MhAsleep,
    memory: &mut MhMemory,
    written: Option<&[Written]>,
) -> i16
    requires none { zone.old.held.session ≡ None }
    requires out { asleep.old.zone.held.session ≡ None }
    requires asleep { IsAsleep session.value }
    requires told { IfSome written (λ ranges. IsTold (Some session.value) (region_of memory.old.host) ranges.now) }
    ensures { IsWoken None (Some session.value) (region_of memory.old.host) result zone.new.held.session asleep.new.zone.held.session (region_of memory.new.host) }
{
    let mut session = session;
    let Some(region) = memory.take() else {
        asleep.put(session);
        return HostErr::NotThere.code();
    };
    if region.len() != session.limit() {
        asleep.put(session);
        memory.put(region);
        return HostErr::BadNumber.code();
    }
    match wake_in(alloc, &mut session, region, written) {
        Ok(()) => {
            zone.put(session);
            NO_ERR
        }
        Err(NotAwake { region, why }) => {
            asleep.put(session);
            memory.put(region);
            code_of_sleep(why)
        }
    }
}

/// The code of why a zone sleeps on: memSCErr; memLockedErr where a block that is lent isn't locked any more; memFullErr
/// where the host has no memory.
fn code_of_sleep(why: WhyAsleep) -> i16
    ensures { result ≡ code_asleep why }
{
    match why {
        WhyAsleep::Damaged => DAMAGED,
        WhyAsleep::Unlocked => OsErr::MemLockedErr.code(),
        WhyAsleep::HostFull => OsErr::MemFullErr.code(),
    }
}

/// Wakes the zone of a session in a region, of whose bytes the host may say which were written.
fn wake_in(
    alloc: Global,
    session: &mut Session,
    region: Region,
    written: Option<&[Written]>,
) -> Result<(), NotAwake>
    requires asleep { IsAsleep session.old }
    requires whole { region.lent ≡ [] }
    requires told { IfSome written (λ ranges. DifferIn session.old.zone (managed region.bytes) ranges.now) }
    ensures awake { IfOk result (λ u. IsAwakeIn session.old region session.new) }
    ensures asleep { IfErr result (λ no. SleepsOn no.why session.old (managed region.bytes) × (no.region ≡ region) × (session.new ≡ session.old)) }
{
    match written {
        Some(written) => session.wake_written(alloc, region, written),
        None => session.wake(alloc, region),
    }
}

/// Puts the zone that is awake to sleep, and gives the bytes back in which it was. What is lent stays so.
#[unsafe(no_mangle)]
pub extern "C" fn mh_sleep(
    alloc: Global,
    zone: &mut MhZone,
    asleep: &mut MhAsleep,
    memory: &mut MhMemory,
) -> i16
    ensures { IsPutToSleep zone.old.held.session asleep.old.zone.held.session (region_of memory.old.host) result zone.new.held.session asleep.new.zone.held.session (region_of memory.new.host) }
{
    match put_to_sleep(alloc, zone, asleep, memory) {
        Ok(_) => NO_ERR,
        Err(code) => code.code(),
    }
}

/// Puts the zone that is awake to sleep, and gives the bytes back in which it was. Returns where they may differ from
/// those that it woke in. InUse where another zone sleeps there, or there are bytes already; NotThere where no zone is
/// awake, or it isn't in bytes of the host.
pub(crate) fn put_to_sleep(
    alloc: Global,
    zone: &mut MhZone,
    asleep: &mut MhAsleep,
    memory: &mut MhMemory,
) -> Result<Wrote, HostErr>
    ensures asleep { IsPutToSleep zone.old.held.session asleep.old.zone.held.session (region_of memory.old.host) (code_after result) zone.new.held.session asleep.new.zone.held.session (region_of memory.new.host) }
    ensures wrote { IfOk result (λ wrote. WroteIn zone.old.held.session (region_of memory.new.host) wrote.runs) }
    ensures within { IfOk result (λ wrote. AreWithin (noted wrote.runs) wrote.len) }
    ensures gone { OnOk result (zone.new.held.session ≡ None) }
    ensures unchanged { OnErr result (zone.new.held.session ≡ zone.old.held.session) }
{
    if asleep.is_live() {
        return Err(HostErr::InUse);
    }
    if let Some(region) = memory.take() {
        memory.put(region);
        return Err(HostErr::InUse);
    }
    let Some(mut session) = zone.take(alloc) else {
        return Err(HostErr::NotThere);
    };
    let len = session.limit() as u32;
    match session.sleep() {
        Ok(region) => {
            let runs = region.noted();
            asleep.put(session);
            memory.put_written(region);
            Ok(Wrote { runs, len })
        }
        Err(code) => {
            zone.put(session);
            Err(code)
        }
    }
}

/// Ends a zone that sleeps, and gives its memory back to the host.
#[unsafe(no_mangle)]
pub extern "C" fn mh_end_asleep(alloc: Global, asleep: &mut MhAsleep) -> i16
    ensures { Ends asleep.old.zone.held.session result asleep.new.zone.held.session }
{
    match asleep.take(alloc) {
        Some(session) => {
            drop(session);
            NO_ERR
        }
        None => HostErr::NotThere.code(),
    }
}
