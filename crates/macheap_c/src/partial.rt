//! Some of the bytes that a resource has in its fork.

ghost use Rattle.std.specs.Prelude.{◌≡◌};
ghost use Rattle.macheap_c.specs.Partial.{PartTold, PatchTold, part_code};
ghost use Rattle.res_update.specs.declared.patching_call.PatchingCall.TheVariants.{SetResourceSize, WritePartialResource};

use held_files::elsewhere::OverZone;
use held_files::held::MrFiles;
use held_zone::host_err::HostErr;
use held_zone::zone::MhZone;
use mac_base::Span;
use mac_base::error::NO_ERR;
use mac_base::handle::Handle;
use res_update::{PartialEnd, PatchingCall};
use std::alloc::Global;

/// resourceInMemory: the bytes were read or written, and the resource is in memory, where it may have others.
const RESOURCE_IN_MEMORY: i16 = -188;

/// inputOutOfBounds: the resource doesn't have all these bytes in its fork, or it ends there before the first that is
/// to be written.
const INPUT_OUT_OF_BOUNDS: i16 = -190;

/// The code of the end of a call, if it was made.
fn part_code(end: OverZone<PartialEnd>) -> i16
    ensures { result ≡ part_code end }
{
    match end {
        OverZone::Other => HostErr::OtherZone.code(),
        OverZone::This(None) => HostErr::NotThere.code(),
        OverZone::This(Some(PartialEnd::Done)) => NO_ERR,
        OverZone::This(Some(PartialEnd::InMemory)) => RESOURCE_IN_MEMORY,
        OverZone::This(Some(PartialEnd::OutOfBounds)) => INPUT_OUT_OF_BOUNDS,
        OverZone::This(Some(PartialEnd::Refused(code))) => code.code(),
    }
}

/// ReadPartialResource: copies `bytes.len()` bytes that a resource has in its fork, from an offset on, to C, whether or
/// not it is in memory. resourceInMemory says that they were copied and that it is.
#[unsafe(no_mangle)]
pub extern "C" fn mr_read_partial_resource(
    alloc: Global,
    files: &mut MrFiles,
    zone: &mut MhZone,
    handle: u32,
    offset: u32,
    bytes: &mut [u8],
) -> i16
    ensures { PartTold zone.old.held.session files.old.held.files handle offset result bytes.old bytes.new zone.new.held.session files.new.held.files }
{
    part_code(files.read_partial(alloc, zone, Handle::new(handle), offset, bytes))
}

/// SetResourceSize: how many bytes a resource has in its fork, which is written at once: the first of those that it
/// had, and then zeros.
#[unsafe(no_mangle)]
pub extern "C" fn mr_set_resource_size(
    alloc: Global,
    files: &mut MrFiles,
    zone: &mut MhZone,
    handle: u32,
    size: u32,
) -> i16
    ensures { PatchTold zone.old.held.session files.old.held.files (SetResourceSize handle size) result zone.new.held.session files.new.held.files }
{
    let call = PatchingCall::SetResourceSize(Handle::new(handle), size);
    part_code(files.patch(alloc, zone, &call))
}

/// WritePartialResource: writes these bytes over those that a resource has in its fork, from an offset on, at once,
/// whether or not it is in memory. resourceInMemory says that they were written and that it is.
#[unsafe(no_mangle)]
pub extern "C" fn mr_write_partial_resource(
    alloc: Global,
    files: &mut MrFiles,
    zone: &mut MhZone,
    handle: u32,
    offset: u32,
    bytes: &[u8],
) -> i16
    ensures { PatchTold zone.old.held.session files.old.held.files (WritePartialResource handle offset bytes.now) result zone.new.held.session files.new.held.files }
{
    let call = PatchingCall::WritePartialResource {
        handle: Handle::new(handle),
        offset,
        bytes: Span::new(bytes),
    };
    part_code(files.patch(alloc, zone, &call))
}
