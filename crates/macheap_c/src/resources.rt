//! The Resource Manager over a zone and files whose forks are in memory.

ghost use Rattle.std.specs.Prelude.{◌≡◌, Some};
ghost use Rattle.std.specs.Int.{to_be_bytes, w32};
ghost use Rattle.mac_base.specs.declared.resource_call.ChangingCall.TheVariants as changing;
ghost use Rattle.mac_base.specs.declared.resource_call.GettingCall.TheVariants as getting;
ghost use Rattle.mac_base.specs.declared.resource_call.LookingCall.TheVariants as looking;
ghost use Rattle.mac_base.specs.declared.resource_call.ResourceCall.TheVariants.{AddResource, Changing, Getting, Looking, Writing};
ghost use Rattle.mac_base.specs.declared.resource_call.WritingCall.TheVariants as writing;
ghost use Rattle.held_files.specs.Told.{InfoTold, ResourceTold, ResourceToldKind, ResourceToldNumber, name_given};

use held_files::held::MrFiles;
use held_files::told::MrInfo;
use held_zone::zone::MhZone;
use mac_base::handle::Handle;
use mac_base::resource::ResType;
use mac_base::{ChangingCall, GettingCall, LookingCall, ResourceCall, Span, WritingCall};
use std::alloc::Global;

/// The resource type that a number is: its four bytes, the highest first.
pub(crate) fn kind_of(kind: u32) -> ResType
    ensures { result ≡ to_be_bytes w32 kind }
{
    ResType::new(kind.to_be_bytes())
}

/// GetResource: the handle of a resource, loaded, from the current file on.
#[unsafe(no_mangle)]
pub extern "C" fn mr_get_resource(
    alloc: Global,
    files: &mut MrFiles,
    zone: &mut MhZone,
    kind: u32,
    id: i16,
    handle: &mut u32,
) -> i16
    ensures { ResourceToldNumber zone.old.held.session files.old.held.files (Getting (getting.GetResource (to_be_bytes w32 kind) id)) result handle.old handle.new zone.new.held.session files.new.held.files }
{
    let call = ResourceCall::Getting(GettingCall::GetResource {
        kind: kind_of(kind),
        id: i64::from(id),
    });
    files.number(alloc, zone, &call, handle)
}

/// Get1Resource: the same, in the current file alone.
#[unsafe(no_mangle)]
pub extern "C" fn mr_get1_resource(
    alloc: Global,
    files: &mut MrFiles,
    zone: &mut MhZone,
    kind: u32,
    id: i16,
    handle: &mut u32,
) -> i16
    ensures { ResourceToldNumber zone.old.held.session files.old.held.files (Getting (getting.Get1Resource (to_be_bytes w32 kind) id)) result handle.old handle.new zone.new.held.session files.new.held.files }
{
    let call = ResourceCall::Getting(GettingCall::Get1Resource {
        kind: kind_of(kind),
        id: i64::from(id),
    });
    files.number(alloc, zone, &call, handle)
}

/// Get1IndResource: the handle of the resource of a type with this index, from 1 on, in the current file.
#[unsafe(no_mangle)]
pub extern "C" fn mr_get1_ind_resource(
    alloc: Global,
    files: &mut MrFiles,
    zone: &mut MhZone,
    kind: u32,
    index: u32,
    handle: &mut u32,
) -> i16
    ensures { ResourceToldNumber zone.old.held.session files.old.held.files (Getting (getting.GetIndResource (to_be_bytes w32 kind) index)) result handle.old handle.new zone.new.held.session files.new.held.files }
{
    let call = ResourceCall::Getting(GettingCall::GetIndResource {
        kind: kind_of(kind),
        index,
    });
    files.number(alloc, zone, &call, handle)
}

/// LoadResource: loads the resource of a handle again, where it has no block.
#[unsafe(no_mangle)]
pub extern "C" fn mr_load_resource(
    alloc: Global,
    files: &mut MrFiles,
    zone: &mut MhZone,
    handle: u32,
) -> i16
    ensures { ResourceTold zone.old.held.session files.old.held.files (Getting (getting.LoadResource handle)) result zone.new.held.session files.new.held.files }
{
    let call = ResourceCall::Getting(GettingCall::LoadResource(Handle::new(handle)));
    files.code(alloc, zone, &call)
}

/// GetResAttrs: the attributes of a resource.
#[unsafe(no_mangle)]
pub extern "C" fn mr_get_res_attrs(
    alloc: Global,
    files: &mut MrFiles,
    zone: &mut MhZone,
    handle: u32,
    number: &mut u32,
) -> i16
    ensures { ResourceToldNumber zone.old.held.session files.old.held.files (Looking (looking.GetResAttrs handle)) result number.old number.new zone.new.held.session files.new.held.files }
{
    let call = ResourceCall::Looking(LookingCall::GetResAttrs(Handle::new(handle)));
    files.number(alloc, zone, &call, number)
}

/// SizeResource: how many bytes a resource has in its fork.
#[unsafe(no_mangle)]
pub extern "C" fn mr_size_resource(
    alloc: Global,
    files: &mut MrFiles,
    zone: &mut MhZone,
    handle: u32,
    number: &mut u32,
) -> i16
    ensures { ResourceToldNumber zone.old.held.session files.old.held.files (Looking (looking.SizeResource handle)) result number.old number.new zone.new.held.session files.new.held.files }
{
    let call = ResourceCall::Looking(LookingCall::SizeResource(Handle::new(handle)));
    files.number(alloc, zone, &call, number)
}

/// HomeResFile: the file of a resource.
#[unsafe(no_mangle)]
pub extern "C" fn mr_home_res_file(
    alloc: Global,
    files: &mut MrFiles,
    zone: &mut MhZone,
    handle: u32,
    number: &mut u32,
) -> i16
    ensures { ResourceToldNumber zone.old.held.session files.old.held.files (Looking (looking.HomeResFile handle)) result number.old number.new zone.new.held.session files.new.held.files }
{
    let call = ResourceCall::Looking(LookingCall::HomeResFile(Handle::new(handle)));
    files.number(alloc, zone, &call, number)
}

/// Unique1ID: an id that no resource of a type has in the current file.
#[unsafe(no_mangle)]
pub extern "C" fn mr_unique1_id(
    alloc: Global,
    files: &mut MrFiles,
    zone: &mut MhZone,
    kind: u32,
    number: &mut u32,
) -> i16
    ensures { ResourceToldNumber zone.old.held.session files.old.held.files (Looking (looking.UniqueID (to_be_bytes w32 kind))) result number.old number.new zone.new.held.session files.new.held.files }
{
    let call = ResourceCall::Looking(LookingCall::UniqueID(kind_of(kind)));
    files.number(alloc, zone, &call, number)
}

/// Count1Types: how many types the current file has.
#[unsafe(no_mangle)]
pub extern "C" fn mr_count1_types(
    alloc: Global,
    files: &mut MrFiles,
    zone: &mut MhZone,
    number: &mut u32,
) -> i16
    ensures { ResourceToldNumber zone.old.held.session files.old.held.files (Looking looking.CountTypes) result number.old number.new zone.new.held.session files.new.held.files }
{
    let call = ResourceCall::Looking(LookingCall::CountTypes);
    files.number(alloc, zone, &call, number)
}

/// Count1Resources: how many resources of a type the current file has.
#[unsafe(no_mangle)]
pub extern "C" fn mr_count1_resources(
    alloc: Global,
    files: &mut MrFiles,
    zone: &mut MhZone,
    kind: u32,
    number: &mut u32,
) -> i16
    ensures { ResourceToldNumber zone.old.held.session files.old.held.files (Looking (looking.CountResources (to_be_bytes w32 kind))) result number.old number.new zone.new.held.session files.new.held.files }
{
    let call = ResourceCall::Looking(LookingCall::CountResources(kind_of(kind)));
    files.number(alloc, zone, &call, number)
}

/// CurResFile: the number of the current file, or 0.
#[unsafe(no_mangle)]
pub extern "C" fn mr_cur_res_file(
    alloc: Global,
    files: &mut MrFiles,
    zone: &mut MhZone,
    number: &mut u32,
) -> i16
    ensures { ResourceToldNumber zone.old.held.session files.old.held.files (Looking looking.CurResFile) result number.old number.new zone.new.held.session files.new.held.files }
{
    let call = ResourceCall::Looking(LookingCall::CurResFile);
    files.number(alloc, zone, &call, number)
}

/// ReleaseResource: disposes of a resource's handle, unless it was changed.
#[unsafe(no_mangle)]
pub extern "C" fn mr_release_resource(
    alloc: Global,
    files: &mut MrFiles,
    zone: &mut MhZone,
    handle: u32,
) -> i16
    ensures { ResourceTold zone.old.held.session files.old.held.files (Changing (changing.ReleaseResource handle)) result zone.new.held.session files.new.held.files }
{
    let call = ResourceCall::Changing(ChangingCall::ReleaseResource(Handle::new(handle)));
    files.code(alloc, zone, &call)
}

/// DetachResource: makes a handle an ordinary one, which its resource forgets.
#[unsafe(no_mangle)]
pub extern "C" fn mr_detach_resource(
    alloc: Global,
    files: &mut MrFiles,
    zone: &mut MhZone,
    handle: u32,
) -> i16
    ensures { ResourceTold zone.old.held.session files.old.held.files (Changing (changing.DetachResource handle)) result zone.new.held.session files.new.held.files }
{
    let call = ResourceCall::Changing(ChangingCall::DetachResource(Handle::new(handle)));
    files.code(alloc, zone, &call)
}

/// RmveResource: takes a resource out of its file; its handle stays.
#[unsafe(no_mangle)]
pub extern "C" fn mr_rmve_resource(
    alloc: Global,
    files: &mut MrFiles,
    zone: &mut MhZone,
    handle: u32,
) -> i16
    ensures { ResourceTold zone.old.held.session files.old.held.files (Changing (changing.RemoveResource handle)) result zone.new.held.session files.new.held.files }
{
    let call = ResourceCall::Changing(ChangingCall::RemoveResource(Handle::new(handle)));
    files.code(alloc, zone, &call)
}

/// ChangedResource: marks a resource as changed, so that the next update writes it.
#[unsafe(no_mangle)]
pub extern "C" fn mr_changed_resource(
    alloc: Global,
    files: &mut MrFiles,
    zone: &mut MhZone,
    handle: u32,
) -> i16
    ensures { ResourceTold zone.old.held.session files.old.held.files (Changing (changing.ChangedResource handle)) result zone.new.held.session files.new.held.files }
{
    let call = ResourceCall::Changing(ChangingCall::ChangedResource(Handle::new(handle)));
    files.code(alloc, zone, &call)
}

/// SetResAttrs: sets the attributes of a resource; whether it was changed stays.
#[unsafe(no_mangle)]
pub extern "C" fn mr_set_res_attrs(
    alloc: Global,
    files: &mut MrFiles,
    zone: &mut MhZone,
    handle: u32,
    attributes: u32,
) -> i16
    ensures { ResourceTold zone.old.held.session files.old.held.files (Changing (changing.SetResAttrs handle attributes)) result zone.new.held.session files.new.held.files }
{
    let call = ResourceCall::Changing(ChangingCall::SetResAttrs {
        handle: Handle::new(handle),
        attributes,
    });
    files.code(alloc, zone, &call)
}

/// SetResLoad: whether the calls that get a resource load it, too: any number but 0.
#[unsafe(no_mangle)]
pub extern "C" fn mr_set_res_load(
    alloc: Global,
    files: &mut MrFiles,
    zone: &mut MhZone,
    load: u32,
) -> i16
    ensures { ResourceTold zone.old.held.session files.old.held.files (Changing (changing.SetResLoad load)) result zone.new.held.session files.new.held.files }
{
    let call = ResourceCall::Changing(ChangingCall::SetResLoad(load));
    files.code(alloc, zone, &call)
}

/// UseResFile: makes an open file the current one.
#[unsafe(no_mangle)]
pub extern "C" fn mr_use_res_file(
    alloc: Global,
    files: &mut MrFiles,
    zone: &mut MhZone,
    file: u32,
) -> i16
    ensures { ResourceTold zone.old.held.session files.old.held.files (Changing (changing.UseResFile file)) result zone.new.held.session files.new.held.files }
{
    let call = ResourceCall::Changing(ChangingCall::UseResFile(file));
    files.code(alloc, zone, &call)
}

/// WriteResource: writes a changed resource to its fork.
#[unsafe(no_mangle)]
pub extern "C" fn mr_write_resource(
    alloc: Global,
    files: &mut MrFiles,
    zone: &mut MhZone,
    handle: u32,
) -> i16
    ensures { ResourceTold zone.old.held.session files.old.held.files (Writing (writing.WriteResource handle)) result zone.new.held.session files.new.held.files }
{
    let call = ResourceCall::Writing(WritingCall::WriteResource(Handle::new(handle)));
    files.code(alloc, zone, &call)
}

/// UpdateResFile: writes all changed resources of a file to its fork.
#[unsafe(no_mangle)]
pub extern "C" fn mr_update_res_file(
    alloc: Global,
    files: &mut MrFiles,
    zone: &mut MhZone,
    file: u32,
) -> i16
    ensures { ResourceTold zone.old.held.session files.old.held.files (Writing (writing.UpdateResFile (Some file))) result zone.new.held.session files.new.held.files }
{
    let call = ResourceCall::Writing(WritingCall::UpdateResFile(Some(file)));
    files.code(alloc, zone, &call)
}

/// CloseResFile: updates a file and closes it; the handles of its resources are disposed of.
#[unsafe(no_mangle)]
pub extern "C" fn mr_close_res_file(
    alloc: Global,
    files: &mut MrFiles,
    zone: &mut MhZone,
    file: u32,
) -> i16
    ensures { ResourceTold zone.old.held.session files.old.held.files (Writing (writing.CloseResFile (Some file))) result zone.new.held.session files.new.held.files }
{
    let call = ResourceCall::Writing(WritingCall::CloseResFile(Some(file)));
    files.code(alloc, zone, &call)
}

/// The name of so many bytes: none where there are none.
fn name_of(name: &[u8]) -> Option<Span<'_>>
    ensures { result ≡ name_given name.now }
{
    if name.is_empty() {
        None
    } else {
        Some(Span::new(name))
    }
}

/// AddResource: makes a handle's block a new resource of the current file, without a name where that has no bytes.
#[unsafe(no_mangle)]
pub extern "C" fn mr_add_resource(
    alloc: Global,
    files: &mut MrFiles,
    zone: &mut MhZone,
    handle: u32,
    kind: u32,
    id: i16,
    name: &[u8],
) -> i16
    ensures { ResourceTold zone.old.held.session files.old.held.files (AddResource handle (to_be_bytes w32 kind) id (name_given name.now)) result zone.new.held.session files.new.held.files }
{
    let call = ResourceCall::AddResource {
        handle: Handle::new(handle),
        kind: kind_of(kind),
        id: i64::from(id),
        name: name_of(name),
    };
    files.code(alloc, zone, &call)
}

/// Get1IndType: the type of the current file with this index, from 1 on.
#[unsafe(no_mangle)]
pub extern "C" fn mr_get1_ind_type(
    alloc: Global,
    files: &mut MrFiles,
    zone: &mut MhZone,
    index: u32,
    kind: &mut u32,
) -> i16
    ensures { ResourceToldKind zone.old.held.session files.old.held.files (Looking (looking.GetIndType index)) result kind.old kind.new zone.new.held.session files.new.held.files }
{
    let call = ResourceCall::Looking(LookingCall::GetIndType(index));
    files.kind(alloc, zone, &call, kind)
}

/// GetResInfo: the type, the id and the name of a resource. BadNumber where there is no room for 255 bytes of a name.
#[unsafe(no_mangle)]
pub extern "C" fn mr_get_res_info(
    alloc: Global,
    files: &mut MrFiles,
    zone: &mut MhZone,
    handle: u32,
    info: &mut MrInfo,
    name: &mut [u8],
) -> i16
    ensures { InfoTold zone.old.held.session files.old.held.files handle result (info.old, name.old) (info.new, name.new) zone.new.held.session files.new.held.files }
{
    files.info(alloc, zone, Handle::new(handle), info, name)
}
