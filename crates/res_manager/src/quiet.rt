//! The calls that need neither room in the zone nor a disk.

ghost use Rattle.std.specs.Prelude.{◌≡◌, length, nat_le, option_copied, IfOk, OnErr, Some, IsTrue};
ghost use Rattle.std.specs.Option.{option_map_or};
ghost use Rattle.linked_zone.specs.Loans.{KeepsLoans};
ghost use Rattle.mac_base.specs.ZoneState.{ZoneState};
ghost use Rattle.mac_base.specs.declared.resource_call.ResourceCall.TheVariants.{Looking, Changing, AddResource, GetResInfo};
ghost use Rattle.mac_base.specs.declared.resource_call.ChangingCall.TheVariants.{ReleaseResource, DetachResource, RemoveResource, ChangedResource, SetResAttrs};
ghost use Rattle.res_update.specs.Attributes.{marked, replaced_attributes};
ghost use Rattle.res_update.specs.Files.{ResState};
ghost use Rattle.res_update.specs.Quiet.{quiet_results};
ghost use Rattle.res_manager.specs.Steps.{state_of};
ghost use Rattle.res_manager.specs.Tests.{Passes, Tests, early_tests};
ghost use Rattle.res_manager.specs.Ends.{EndsTested};

use crate::rows::{attributes_at, test_found};
use crate::tests::{is_lent, require, test_adding, test_file, test_open, test_row};
use bitflags::Flags;
use fork_disk::store::ForkStore;
use mac_base::error::{HostFull, OsErr};
use mac_base::handle::Handle;
use mac_base::name::Name;
use mac_base::resource::{ResAttrs, ResType};
use mac_base::{ChangingCall, LookingCall, Outcome, ResourceInfo, Results};
use mem_calls::MemoryManager;
use res_files::ResourceFiles;
use res_table::attributes::unmarked;
use std::alloc::Global;

/// Makes a call that returns what the open files say.
pub(crate) fn look<S: ForkStore>(files: &ResourceFiles<S>, call: LookingCall) -> Outcome
    ensures passed { (state : ResState) → state.files ≡ files.now.files → Tests state (early_tests (Looking call)) result }
    ensures value { (state : ResState) → state.files ≡ files.now.files → IfOk result (λ results. results ≡ quiet_results state (Looking call)) }
{
    match call {
        LookingCall::GetResAttrs(handle) => {
            let row = test_found(files, handle)?;
            Ok(Results::Number(row.resource.attributes.bits() as u32))
        }
        LookingCall::SizeResource(handle) => {
            let row = test_found(files, handle)?;
            Ok(Results::Number(row.resource.datum.length))
        }
        LookingCall::HomeResFile(handle) => {
            let place = test_row(files, handle, OsErr::ResNotFound)?;
            Ok(Results::Number(place.file as u32))
        }
        LookingCall::UniqueID(kind) => {
            test_file(files)?;
            Ok(Results::Number(files.unique_id(kind)))
        }
        LookingCall::CountResources(kind) => {
            test_file(files)?;
            Ok(Results::Number(files.count_of_type(kind)))
        }
        LookingCall::CountTypes => {
            test_file(files)?;
            Ok(Results::Number(files.count_types()))
        }
        LookingCall::GetIndType(index) => {
            test_file(files)?;
            let kind = files.type_of_ith(index).ok_or(OsErr::ResNotFound)?;
            Ok(Results::Kind(kind))
        }
        LookingCall::CurResFile => match files.current() {
            Some(number) => Ok(Results::Number(number as u32)),
            None => Ok(Results::Number(0)),
        },
    }
}

/// GetResInfo: the id, the type and the name of a handle's resource. The name shares its bytes with the file's.
pub(crate) fn info<S: ForkStore>(
    files: &ResourceFiles<S>,
    handle: Handle,
) -> Result<Outcome, HostFull>
    ensures passed { IfOk result (λ outcome. (state : ResState) → state.files ≡ files.now.files → Tests state (early_tests (GetResInfo handle)) outcome) }
    ensures value { IfOk result (λ outcome. (state : ResState) → state.files ≡ files.now.files → IfOk outcome (λ results. results ≡ quiet_results state (GetResInfo handle))) }
    ensures late { OnErr result ((state : ResState) → state.files ≡ files.now.files → Passes state (early_tests (GetResInfo handle))) }
{
    let row = match test_found(files, handle) {
        Ok(row) => row,
        Err(code) => return Ok(Err(code)),
    };
    let name = match &row.resource.name {
        Some(name) => Some(name.clone()?),
        None => None,
    };
    Ok(Ok(Results::Info(ResourceInfo {
        id: row.resource.id,
        kind: row.resource.kind,
        name,
    })))
}

/// A copy of the name of a resource that has one, of at most 255 bytes, in host memory.
pub(crate) fn copy_if_named(alloc: Global, name: Option<&[u8]>) -> Result<Option<Name>, HostFull>
    requires { IsTrue (nat_le (option_map_or length (option_copied name) 0) 255) }
    ensures { IfOk result (λ copy. copy ≡ option_copied name.entry) }
{
    match name {
        Some(name) => Ok(Name::new(alloc, name)?),
        None => Ok(None),
    }
}

/// Makes a call that changes what the open files say, or how later calls go.
pub(crate) fn change<S: ForkStore>(
    files: &mut ResourceFiles<S>,
    memory: &mut MemoryManager,
    call: ChangingCall,
) -> Result<(), OsErr>
    ensures quiet { EndsTested S.fork memory.old files.old (Changing call) result memory.new files.new }
    ensures loans { KeepsLoans memory.old memory.new }
    ensures shape { memory.new.shape ≡ memory.old.shape }
    ensures stores { files.new.stores ≡ files.old.stores }
{
    match call {
        ChangingCall::ReleaseResource(handle) => release(files, memory, handle),
        ChangingCall::DetachResource(handle) => detach(files, memory, handle),
        ChangingCall::RemoveResource(handle) => remove(files, memory, handle),
        ChangingCall::ChangedResource(handle) => mark(files, handle),
        ChangingCall::SetResAttrs { handle, attributes } => {
            set_attributes(files, handle, attributes)
        }
        ChangingCall::SetResLoad(number) => {
            files.set_loads(number != 0);
            Ok(())
        }
        ChangingCall::UseResFile(number) => {
            test_file(files)?;
            let number = test_open(files, Some(number))?;
            files.use_file(number);
            Ok(())
        }
    }
}

/// ReleaseResource: disposes of the handle, unless its resource is changed.
fn release<S: ForkStore>(
    files: &mut ResourceFiles<S>,
    memory: &mut MemoryManager,
    handle: Handle,
) -> Result<(), OsErr>
    ensures quiet { EndsTested S.fork memory.old files.old (Changing (ReleaseResource handle)) result memory.new files.new }
    ensures loans { KeepsLoans memory.old memory.new }
    ensures shape { memory.new.shape ≡ memory.old.shape }
    ensures stores { files.new.stores ≡ files.old.stores }
{
    let place = test_row(files, handle, OsErr::ResNotFound)?;
    if attributes_at(files, place).contains(ResAttrs::CHANGED) {
        return Ok(());
    }
    require(!is_lent(memory, handle), OsErr::MemLockedErr)?;
    let _ = memory.dispose_handle(handle);
    files.forget(handle);
    Ok(())
}

/// DetachResource: the handle is an ordinary one.
fn detach<S: ForkStore>(
    files: &mut ResourceFiles<S>,
    memory: &mut MemoryManager,
    handle: Handle,
) -> Result<(), OsErr>
    ensures quiet { EndsTested S.fork memory.old files.old (Changing (DetachResource handle)) result memory.new files.new }
    ensures loans { KeepsLoans memory.old memory.new }
    ensures shape { memory.new.shape ≡ memory.old.shape }
    ensures stores { files.new.stores ≡ files.old.stores }
{
    let place = test_row(files, handle, OsErr::ResNotFound)?;
    let attributes = attributes_at(files, place);
    require(!attributes.contains(ResAttrs::CHANGED), OsErr::ResAttrErr)?;
    let _ = memory.hclr_rbit(handle);
    files.forget(handle);
    Ok(())
}

/// RemoveResource: the file no longer has the resource, and the handle is an ordinary one.
fn remove<S: ForkStore>(
    files: &mut ResourceFiles<S>,
    memory: &mut MemoryManager,
    handle: Handle,
) -> Result<(), OsErr>
    ensures quiet { EndsTested S.fork memory.old files.old (Changing (RemoveResource handle)) result memory.new files.new }
    ensures loans { KeepsLoans memory.old memory.new }
    ensures shape { memory.new.shape ≡ memory.old.shape }
    ensures stores { files.new.stores ≡ files.old.stores }
{
    let place = test_row(files, handle, OsErr::RmvResFailed)?;
    let attributes = attributes_at(files, place);
    require(
        !attributes.contains(ResAttrs::PROTECTED),
        OsErr::RmvResFailed,
    )?;
    let _ = memory.hclr_rbit(handle);
    files.remove(place);
    Ok(())
}

/// ChangedResource: the next update writes the resource.
fn mark<S: ForkStore>(files: &mut ResourceFiles<S>, handle: Handle) -> Result<(), OsErr>
    ensures quiet { (zone : ZoneState) → EndsTested S.fork zone files.old (Changing (ChangedResource handle)) result zone files.new }
    ensures stores { files.new.stores ≡ files.old.stores }
{
    let place = test_row(files, handle, OsErr::ResNotFound)?;
    let attributes = attributes_at(files, place);
    require(!attributes.contains(ResAttrs::PROTECTED), OsErr::ResAttrErr)?;
    files.set_attributes(place, marked(attributes));
    Ok(())
}

/// SetResAttrs: the resource has other attributes, but whether it is changed stays.
fn set_attributes<S: ForkStore>(
    files: &mut ResourceFiles<S>,
    handle: Handle,
    attributes: u32,
) -> Result<(), OsErr>
    ensures quiet { (zone : ZoneState) → EndsTested S.fork zone files.old (Changing (SetResAttrs handle attributes)) result zone files.new }
    ensures stores { files.new.stores ≡ files.old.stores }
{
    let place = test_row(files, handle, OsErr::ResNotFound)?;
    require(attributes <= 255, OsErr::ParamErr)?;
    let attributes = replaced_attributes(attributes as u8, attributes_at(files, place));
    files.set_attributes(place, attributes);
    Ok(())
}

/// The attributes with resChanged.
fn marked(attributes: ResAttrs) -> ResAttrs
    ensures { result ≡ marked attributes }
{
    let mut attributes = attributes;
    attributes.insert(ResAttrs::CHANGED);
    attributes
}

/// The attributes that SetResAttrs sets over old ones: resChanged stays as it was.
fn replaced_attributes(new: u8, old: ResAttrs) -> ResAttrs
    ensures { result ≡ replaced_attributes new old }
{
    let new = ResAttrs::from_bits_retain(new);
    if old.contains(ResAttrs::CHANGED) {
        marked(new)
    } else {
        unmarked(new)
    }
}

/// AddResource: the handle's block is a new resource of the current file, to be written by its next update. The name is
/// copied into host memory; without it nothing is changed.
pub(crate) fn add<S: ForkStore>(
    files: &mut ResourceFiles<S>,
    memory: &mut MemoryManager,
    alloc: Global,
    handle: Handle,
    kind: ResType,
    id: i64,
    name: Option<&[u8]>,
) -> Result<Result<(), OsErr>, HostFull>
    ensures quiet { IfOk result (λ done. EndsTested S.fork memory.old files.old (AddResource handle kind id (option_copied name.entry)) done memory.new files.new) }
    ensures late { OnErr result (Passes (state_of S.fork memory.old files.old) (early_tests (AddResource handle kind id (option_copied name.entry)))) }
    ensures unchanged { OnErr result (memory.new ≡ memory.old) }
    ensures same { OnErr result (files.new ≡ files.old) }
    ensures loans { KeepsLoans memory.old memory.new }
    ensures shape { memory.new.shape ≡ memory.old.shape }
    ensures stores { files.new.stores ≡ files.old.stores }
{
    let (number, id) = match test_adding(files, memory, handle, kind, id, name) {
        Ok(found) => found,
        Err(code) => return Ok(Err(code)),
    };
    let name = copy_if_named(alloc, name)?;
    files.add(number, handle, kind, id, name)?;
    let _ = memory.hset_rbit(handle);
    Ok(Ok(()))
}
