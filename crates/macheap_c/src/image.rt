//! The bytes of a zone.

ghost use Rattle.std.specs.Prelude.{length, Some};
ghost use Rattle.mac_base.specs.Outcomes.{done_outcome};
ghost use Rattle.held_zone.specs.Told.{code_told};
ghost use Rattle.macheap_c.specs.Image.{ImageShown, ImageTold, size_of, sized};
ghost use Rattle.macheap_c.specs.Refusals.{reply_code};

use crate::refusal::{Refusal, reply};
use held_zone::host_err::HostErr;
use held_zone::session::Session;
use held_zone::told;
use held_zone::zone::MhZone;
use mac_base::error::OsErr;
use std::alloc::Global;

/// How many bytes the zone has, from its start to the end of its last block. memLockedErr where a block is lent.
#[unsafe(no_mangle)]
pub extern "C" fn mh_image_size(alloc: Global, zone: &mut MhZone, size: &mut usize) -> i16
    ensures { ImageTold size_of zone.old.held.session result size.old size.new zone.new.held.session }
{
    let Some(session) = zone.take(alloc) else {
        return HostErr::NotThere.code();
    };
    let measured = measure_image(&session, size);
    zone.put(session);
    told::done(measured)
}

/// How many bytes a zone has. memLockedErr where a block is lent.
fn measure_image(session: &Session, size: &mut usize) -> Result<(), OsErr>
    ensures { ImageShown size_of session.now (code_told (Some (done_outcome result))) size.old size.new }
{
    let image = session.memory.image()?;
    *size = image.len();
    Ok(())
}

/// Copies these bytes: the zone's header, with the guest's fields, and its blocks with their headers, master pointers
/// and contents. BadNumber where C has room for more bytes or fewer, memLockedErr where a block is lent.
#[unsafe(no_mangle)]
pub extern "C" fn mh_image(alloc: Global, zone: &mut MhZone, bytes: &mut [u8]) -> i16
    ensures { ImageTold (sized (length bytes.old)) zone.old.held.session result bytes.old bytes.new zone.new.held.session }
{
    let Some(session) = zone.take(alloc) else {
        return HostErr::NotThere.code();
    };
    let copied = copy_image(&session, bytes);
    zone.put(session);
    reply(copied)
}

/// Copies the bytes of a zone, with the guest's fields, over just as many others. BadNumber where there are more or
/// fewer, memLockedErr where a block is lent.
fn copy_image(session: &Session, bytes: &mut [u8]) -> Result<(), Refusal>
    ensures { ImageShown (sized (length bytes.old)) session.now (reply_code result) bytes.old bytes.new }
{
    let image = session.memory.image()?;
    if image.len() != bytes.len() {
        return Err(Refusal::Host(HostErr::BadNumber));
    }
    bytes.copy_from_slice(image);
    session.guest.write(bytes);
    Ok(())
}
