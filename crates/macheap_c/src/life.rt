//! How a zone begins and ends.

ghost use Rattle.std.specs.Prelude.{◌≡◌};
ghost use Rattle.macheap_c.specs.Life.{Ends, IsMade, heads_of, large_sizes_of, own_sizes_of, sizes_of, whole};
ghost use Rattle.macheap_c.specs.Refusals.{reply_code};

use crate::refusal::{Refusal, reply};
use held_zone::host_err::HostErr;
use held_zone::session::Session;
use held_zone::zone::MhZone;
use mac_base::block::HeadKind;
use mac_base::error::{NO_ERR, OsErr};
use mac_base::zone_spec::{USUAL_END, USUAL_LIMIT, ZoneSpec};
use std::alloc::Global;

/// Makes a zone that begins at `base`, has `size` bytes, may grow to `limit` bytes, and has the blocks of a mode, 24 or
/// 32. Any even size does: where it is no multiple of 4, the last two bytes aren't used.
#[unsafe(no_mangle)]
pub extern "C" fn mh_make_zone(
    alloc: Global,
    zone: &mut MhZone,
    base: u32,
    size: u32,
    limit: u32,
    mode: u32,
) -> i16
    ensures { IsMade zone.old.held.session (sizes_of mode base size limit) result zone.new.held.session }
{
    reply(make(alloc, zone, spec_of(mode, base, size, limit)))
}

/// As `mh_make_zone`, and the zone may be large: up to 1 GB with the blocks of mode 32, and up to the end of the 24-bit
/// addresses with those of mode 24.
#[unsafe(no_mangle)]
pub extern "C" fn mh_make_zone_large(
    alloc: Global,
    zone: &mut MhZone,
    base: u32,
    size: u32,
    limit: u32,
    mode: u32,
) -> i16
    ensures { IsMade zone.old.held.session (own_sizes_of mode base size limit) result zone.new.held.session }
{
    reply(make(alloc, zone, own_spec_of(mode, base, size, limit)))
}

/// Makes a zone of these sizes. InUse where there is one, BadNumber where no zone has these sizes, memFullErr where the
/// host has no memory.
fn make(alloc: Global, zone: &mut MhZone, spec: Option<ZoneSpec>) -> Result<(), Refusal>
    ensures { IsMade zone.old.held.session spec (reply_code result) zone.new.held.session }
{
    if zone.is_live() {
        return Err(Refusal::Host(HostErr::InUse));
    }
    let spec = spec.ok_or(HostErr::BadNumber)?;
    let session = Session::create(alloc, spec).map_err(|_| OsErr::MemFullErr)?;
    zone.put(session);
    Ok(())
}

/// The sizes that are asked for, where a zone in memory of its own may have them that isn't large.
fn spec_of(mode: u32, base: u32, size: u32, limit: u32) -> Option<ZoneSpec>
    ensures { result ≡ sizes_of mode base size limit }
{
    if limit <= USUAL_LIMIT && base <= USUAL_END - limit {
        own_spec_of(mode, base, size, limit)
    } else {
        None
    }
}

/// The sizes that are asked for, where a zone in memory of its own may have them.
fn own_spec_of(mode: u32, base: u32, size: u32, limit: u32) -> Option<ZoneSpec>
    ensures { result ≡ own_sizes_of mode base size limit }
{
    large_spec_of(mode, base, whole(size), whole(limit))
}

/// An even number of bytes without the two over a multiple of 4.
fn whole(bytes: u32) -> u32
    ensures { result ≡ whole bytes }
{
    if bytes % 4 == 2 { bytes - 2 } else { bytes }
}

/// The sizes that are asked for, where a zone may have them: it may be large.
pub(crate) fn large_spec_of(mode: u32, base: u32, size: u32, limit: u32) -> Option<ZoneSpec>
    ensures { result ≡ large_sizes_of mode base size limit }
{
    ZoneSpec::large(base, size, limit, heads_of(mode)?).ok()
}

/// How blocks are headed in this mode, if there is such a mode.
pub(crate) fn heads_of(mode: u32) -> Option<HeadKind>
    ensures { result ≡ heads_of mode }
{
    match mode {
        24 => Some(HeadKind::Bits24),
        32 => Some(HeadKind::Bits32),
        _ => None,
    }
}

/// Ends a zone, and gives its memory back to the host.
#[unsafe(no_mangle)]
pub extern "C" fn mh_end_zone(alloc: Global, zone: &mut MhZone) -> i16
    ensures { Ends zone.old.held.session result zone.new.held.session }
{
    match zone.take(alloc) {
        Some(session) => {
            drop(session);
            NO_ERR
        }
        None => HostErr::NotThere.code(),
    }
}
