//! What all open resource files have together.

ghost use Rattle.std.specs.Int.{to_be_bytes, w32};
ghost use Rattle.held_files.specs.Counting.{CountedTold, CountedToldKind};
ghost use Rattle.held_files.specs.Told.{SoughtTold};
ghost use Rattle.res_update.specs.declared.counting_call.CountingCall.TheVariants as counting;
ghost use Rattle.res_update.specs.declared.seeking_call.SeekingCall.TheVariants as seeking;

use crate::resources::kind_of;
use held_files::held::MrFiles;
use held_zone::zone::MhZone;
use res_update::{CountingCall, SeekingCall};
use std::alloc::Global;

/// CountTypes: how many types all open files have. One that several have counts once.
#[unsafe(no_mangle)]
pub extern "C" fn mr_count_types(
    alloc: Global,
    files: &mut MrFiles,
    zone: &mut MhZone,
    number: &mut u32,
) -> i16
    ensures { CountedTold zone.old.held.session files.old.held.files counting.CountTypes result number.old number.new zone.new.held.session files.new.held.files }
{
    files.count(alloc, zone, CountingCall::CountTypes, number)
}

/// GetIndType: the type with this index, from 1 on, of all that open files have.
#[unsafe(no_mangle)]
pub extern "C" fn mr_get_ind_type(
    alloc: Global,
    files: &mut MrFiles,
    zone: &mut MhZone,
    index: u32,
    kind: &mut u32,
) -> i16
    ensures { CountedToldKind zone.old.held.session files.old.held.files (counting.GetIndType index) result kind.old kind.new zone.new.held.session files.new.held.files }
{
    files.count_kind(alloc, zone, CountingCall::GetIndType(index), kind)
}

/// CountResources: how many resources of a type all open files have.
#[unsafe(no_mangle)]
pub extern "C" fn mr_count_resources(
    alloc: Global,
    files: &mut MrFiles,
    zone: &mut MhZone,
    kind: u32,
    number: &mut u32,
) -> i16
    ensures { CountedTold zone.old.held.session files.old.held.files (counting.CountResources (to_be_bytes w32 kind)) result number.old number.new zone.new.held.session files.new.held.files }
{
    let call = CountingCall::CountResources(kind_of(kind));
    files.count(alloc, zone, call, number)
}

/// GetIndResource: the handle of the resource of a type with this index, from 1 on, loaded, in all open files. Those of
/// the file that was opened last come first.
#[unsafe(no_mangle)]
pub extern "C" fn mr_get_ind_resource(
    alloc: Global,
    files: &mut MrFiles,
    zone: &mut MhZone,
    kind: u32,
    index: u32,
    handle: &mut u32,
) -> i16
    ensures { SoughtTold zone.old.held.session files.old.held.files (seeking.GetIndResource (to_be_bytes w32 kind) index) result handle.old handle.new zone.new.held.session files.new.held.files }
{
    let call = SeekingCall::GetIndResource {
        kind: kind_of(kind),
        index,
    };
    files.seek(alloc, zone, &call, handle)
}

/// UniqueID: the least id from 128 on that no resource of a type has in any open file. addResFailed where none is left.
#[unsafe(no_mangle)]
pub extern "C" fn mr_unique_id(
    alloc: Global,
    files: &mut MrFiles,
    zone: &mut MhZone,
    kind: u32,
    number: &mut u32,
) -> i16
    ensures { CountedTold zone.old.held.session files.old.held.files (counting.UniqueId (to_be_bytes w32 kind)) result number.old number.new zone.new.held.session files.new.held.files }
{
    let call = CountingCall::UniqueId(kind_of(kind));
    files.count(alloc, zone, call, number)
}
