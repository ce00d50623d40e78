//! Resources by their names.

ghost use Rattle.std.specs.Int.{to_be_bytes, w32};
ghost use Rattle.res_update.specs.declared.seeking_call.SeekingCall.TheVariants as seeking;
ghost use Rattle.held_files.specs.Told.{SoughtTold};

use crate::resources::kind_of;
use held_files::held::MrFiles;
use held_zone::zone::MhZone;
use mac_base::Span;
use res_update::SeekingCall;
use std::alloc::Global;

/// GetNamedResource: the handle of the first resource of a type with a name, loaded, from the current file on.
#[unsafe(no_mangle)]
pub extern "C" fn mr_get_named_resource(
    alloc: Global,
    files: &mut MrFiles,
    zone: &mut MhZone,
    kind: u32,
    name: &[u8],
    handle: &mut u32,
) -> i16
    ensures { SoughtTold zone.old.held.session files.old.held.files (seeking.GetNamedResource (to_be_bytes w32 kind) name.now) result handle.old handle.new zone.new.held.session files.new.held.files }
{
    let call = SeekingCall::GetNamedResource {
        kind: kind_of(kind),
        name: Span::new(name),
    };
    files.seek(alloc, zone, &call, handle)
}

/// Get1NamedResource: the same, in the current file alone.
#[unsafe(no_mangle)]
pub extern "C" fn mr_get1_named_resource(
    alloc: Global,
    files: &mut MrFiles,
    zone: &mut MhZone,
    kind: u32,
    name: &[u8],
    handle: &mut u32,
) -> i16
    ensures { SoughtTold zone.old.held.session files.old.held.files (seeking.Get1NamedResource (to_be_bytes w32 kind) name.now) result handle.old handle.new zone.new.held.session files.new.held.files }
{
    let call = SeekingCall::Get1NamedResource {
        kind: kind_of(kind),
        name: Span::new(name),
    };
    files.seek(alloc, zone, &call, handle)
}
