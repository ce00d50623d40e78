//! What helps when a guest has damaged its zone.

ghost use Rattle.std.specs.Prelude.{◌≡◌};
ghost use Rattle.held_zone.specs.Asleep.{IsAsleep, region_of};
ghost use Rattle.macheap_c.specs.Diagnose.{ChecksIn, HolderTold, IsChecked, IsRepaired, RepairsIn, ShowsFault, part_number};
ghost use Rattle.macheap_c.specs.Wrote.{code_after};

use crate::guest::DAMAGED;
use crate::walk::{MhBlock, shown_block};
use held_zone::asleep::MhAsleep;
use held_zone::host_err::HostErr;
use held_zone::memory::MhMemory;
use held_zone::session::Session;
use held_zone::zone::MhZone;
use linked_zone::Part;
use mac_base::error::{HostFull, NO_ERR, OsErr};
use std::alloc::Global;

/// Writes the structure of the zone that sleeps into its bytes again: they have it then, and no other byte has changed.
/// The flags of a handle are those that its master pointer says where its low three bytes are right, and else those that
/// it had when the zone fell asleep. The guest's fields of the zone's header stay. NotThere where no zone sleeps, and
/// where there are no bytes; BadNumber where these aren't as many as its limit.
#[unsafe(no_mangle)]
pub extern "C" fn mh_repair(alloc: Global, asleep: &mut MhAsleep, memory: &mut MhMemory) -> i16
    ensures { IsRepaired asleep.old.zone.held.session (region_of memory.old.host) result asleep.new.zone.held.session (region_of memory.new.host) }
{
    let Some(mut session) = asleep.take(alloc) else {
        return HostErr::NotThere.code();
    };
    let repaired = repair(&mut session, memory);
    asleep.put(session);
    match repaired {
        Ok(()) => NO_ERR,
        Err(refusal) => refusal.code(),
    }
}

/// Writes the structure of a zone into bytes.
fn repair(session: &mut Session, memory: &mut MhMemory) -> Result<(), HostErr>
    requires asleep { IsAsleep session.old }
    ensures repaired { RepairsIn session.old (region_of memory.old.host) (code_after result) session.new (region_of memory.new.host) }
    ensures asleep { IsAsleep session.new }
{
    let region = memory.take().ok_or(HostErr::NotThere)?;
    if region.len() != session.limit() {
        memory.put(region);
        return Err(HostErr::BadNumber);
    }
    memory.put_written(session.repair(region));
    Ok(())
}

/// The first byte that isn't as the structure of a zone calls for: its offset from the zone's start, and the part of
/// the structure that it is in (1 the zone's header, 2 a block's, 3 a master pointer).
#[repr(C)]
#[derive(Clone, Copy)]
pub struct MhFault {
    pub offset: u32,
    pub part: u32,
}

/// Looks for the first byte that isn't as the structure of the zone that sleeps calls for. No byte changes. NotThere
/// where no zone sleeps, and where there are no bytes; BadNumber where these aren't as many as its limit. Flag bits in the master pointers of empty
/// handles say nothing; memFullErr where there are any, and the host has no memory for a copy without them.
#[unsafe(no_mangle)]
pub extern "C" fn mh_check(
    alloc: Global,
    asleep: &mut MhAsleep,
    memory: &mut MhMemory,
    fault: &mut MhFault,
) -> i16
    ensures { IsChecked asleep.old.zone.held.session (region_of memory.old.host) result fault.old fault.new asleep.new.zone.held.session (region_of memory.new.host) }
{
    let Some(session) = asleep.take(alloc) else {
        return HostErr::NotThere.code();
    };
    let code = check(alloc, &session, memory, fault);
    asleep.put(session);
    code
}

/// Looks for the first byte that isn't as the structure of a zone that sleeps calls for.
fn check(alloc: Global, session: &Session, memory: &mut MhMemory, fault: &mut MhFault) -> i16
    requires asleep { IsAsleep session.now }
    ensures { ChecksIn session.now (region_of memory.old.host) result fault.old fault.new (region_of memory.new.host) }
{
    let Some(mut region) = memory.take() else {
        return HostErr::NotThere.code();
    };
    if region.len() != session.limit() {
        memory.put(region);
        return HostErr::BadNumber.code();
    }
    let found = session.first_fault(alloc, &mut region);
    memory.put(region);
    show_fault(found, fault)
}

/// Shows the first byte that is wrong, if one is found.
fn show_fault(found: Result<Option<(u32, Part)>, HostFull>, fault: &mut MhFault) -> i16
    ensures { ShowsFault found result fault.old fault.new }
{
    match found {
        Ok(None) => NO_ERR,
        Ok(Some((offset, part))) => {
            *fault = MhFault {
                offset,
                part: number_of(part),
            };
            DAMAGED
        }
        Err(_) => OsErr::MemFullErr.code(),
    }
}

/// The number of a part of a zone's structure.
fn number_of(part: Part) -> u32
    ensures { result ≡ part_number part }
{
    match part {
        Part::ZoneHeader => 1,
        Part::BlockHeader => 2,
        Part::MasterPointer => 3,
    }
}

/// The block that has the byte at an address, in its header or after it. memWZErr where none does.
#[unsafe(no_mangle)]
pub extern "C" fn mh_holder(alloc: Global, zone: &mut MhZone, at: u32, block: &mut MhBlock) -> i16
    ensures { HolderTold zone.old.held.session at result block.old block.new zone.new.held.session }
{
    let Some(session) = zone.take(alloc) else {
        return HostErr::NotThere.code();
    };
    let found = session.memory.linked().holder(at);
    zone.put(session);
    match found {
        Some(found) => {
            *block = shown_block(found);
            NO_ERR
        }
        None => OsErr::MemWzErr.code(),
    }
}
