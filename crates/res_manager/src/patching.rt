//! The calls that change a resource's bytes in its file alone.

ghost use Rattle.std.specs.Prelude.{◌≡◌, ◌≤◌, List, ℕ, length, IfOk, IsOk, IsTrue, OnErr, OnOk, MatchResult};
ghost use Rattle.fork_bytes.specs.Fork.{max_fork};
ghost use Rattle.mac_base.specs.HandleTable.{is_full, zeros};
ghost use Rattle.mac_base.specs.ZoneState.{ZoneState};
ghost use Rattle.mac_base.specs.declared.resource_call.ResourceCall.TheVariants.{Writing};
ghost use Rattle.mac_base.specs.declared.resource_call.WritingCall.TheVariants.{UpdateResFile};
ghost use Rattle.res_update.specs.Answered.{AnswersFor, IsAnswered};
ghost use Rattle.res_update.specs.Partial.{data_at};
ghost use Rattle.res_update.specs.Patching.{begins_within, end_by, end_of_patch, handle_patched, patch_asked, patch_update, patched_bytes};
ghost use Rattle.res_update.specs.Updates.{Update};
ghost use Rattle.res_files.specs.FilesOn.{FailedAt, HonestAt, NoneFailed};
ghost use Rattle.res_files.specs.Stores.{KeepsStores};
ghost use Rattle.res_manager.specs.Crash.{SavesFork};
ghost use Rattle.res_manager.specs.Ends.{WritesFile};
ghost use Rattle.res_manager.specs.Patching.{HasHandle, LeavesPatch, MakesOf, PatchesAt, PatchesOn, ends_within, put_over, update_with};
ghost use Rattle.res_manager.specs.Steps.{state_of};

use crate::contents::After;
use crate::partial::{end_of_part, length_at};
use crate::rows::attributes_at;
use crate::tests::{is_full, test_row};
use crate::updating::code_of;
use fork_bytes::layout::MAX_FORK;
use fork_disk::disk::DiskFault;
use fork_disk::store::ForkStore;
use mac_base::error::{HostFull, OsErr};
use mac_base::handle::Handle;
use mac_base::{Outcome, Results};
use mem_calls::MemoryManager;
use res_files::ResourceFiles;
use res_table::chain::RowPlace;
use res_update::selection::Selection;
use res_update::{PartialEnd, PatchingCall};
use std::alloc::Global;

/// Makes a call that changes the bytes that a resource has in its file, which is written at once. Those that it has in
/// memory, its attributes, and the zone stay. resFNotFound where no file is open, resNotFound where no resource has the
/// handle, inputOutOfBounds where bytes are to be written from past its end on, and dskFulErr where no fork can hold
/// the file then: so far nothing has changed. ioErr where the device failed: after the first write the file is closed.
/// HostFull comes only where none of the first three does, and before the first write; then nothing has changed.
pub fn patch<S: ForkStore>(
    files: &mut ResourceFiles<S>,
    memory: &MemoryManager,
    alloc: Global,
    call: &PatchingCall<'_>,
) -> Result<PartialEnd, HostFull>
    ensures patches { IfOk result (λ end. PatchesOn S.ForkStore memory.now files.old call.now end files.new) }
    ensures leaves { LeavesPatch S.ForkStore memory.now files.old call.now result files.new }
    ensures refused { OnErr (patch_asked call.now files.old.files) (files.new ≡ files.old) }
    ensures count { length files.new.stores ≡ length files.old.stores }
    ensures late { OnErr result (IsOk (patch_asked call.now files.old.files)) }
    ensures same { OnErr result (IsAnswered (HonestAt S.is_honest files.new.stores) (state_of S.fork memory.now files.old) (state_of S.fork memory.now files.new)) }
    ensures works { OnErr result (NoneFailed S.failures files.old.stores files.new.stores) }
{
    let place = match find_patched(files, call) {
        Ok(place) => place,
        Err(end) => return Ok(end),
    };
    let outcome = patch_at(files, alloc, place, call)?;
    Ok(end_by(memory, call, outcome))
}

/// The end of a call whose update had this outcome.
fn end_by(memory: &MemoryManager, call: &PatchingCall<'_>, outcome: Outcome) -> PartialEnd
    ensures { result ≡ end_by (end_of_patch call.now (is_full memory.now.heap.table (handle_patched call.now))) outcome }
{
    if let Err(code) = outcome {
        return PartialEnd::Refused(code);
    }
    match *call {
        PatchingCall::SetResourceSize(..) => PartialEnd::Done,
        PatchingCall::WritePartialResource { handle, .. } => end_of_part(is_full(memory, handle)),
    }
}

/// The handle of the resource.
fn handle_patched(call: &PatchingCall<'_>) -> Handle
    ensures { result ≡ handle_patched call.now }
{
    match *call {
        PatchingCall::SetResourceSize(handle, _)
        | PatchingCall::WritePartialResource { handle, .. } => handle,
    }
}

/// The place of the resource, or how the call ends before any work.
fn find_patched<S: ForkStore>(
    files: &ResourceFiles<S>,
    call: &PatchingCall<'_>,
) -> Result<RowPlace, PartialEnd>
    ensures found { result ≡ patch_asked call.now files.now.files }
    ensures there { IfOk result (λ place. HasHandle place (handle_patched call.now) files.now.files) }
    ensures within { IfOk result (λ place. IsTrue (begins_within call.now (data_at place files.now.files))) }
{
    let handle = handle_patched(call);
    let place = test_row(files, handle, OsErr::ResNotFound).map_err(PartialEnd::Refused)?;
    if !begins_within(call, length_at(files, place)) {
        return Err(PartialEnd::OutOfBounds);
    }
    Ok(place)
}

/// Whether the bytes that are written begin among so many, or right after them.
fn begins_within(call: &PatchingCall<'_>, size: usize) -> bool
    ensures { (own : List ℕ) → size ≡ length own → result ≡ begins_within call.now own }
{
    match *call {
        PatchingCall::SetResourceSize(..) => true,
        PatchingCall::WritePartialResource { offset, .. } => offset as usize <= size,
    }
}

/// How many bytes the resource has in its file then, where it has so many.
fn size_patched(call: &PatchingCall<'_>, size: usize) -> usize
    ensures { (own : List ℕ) → size ≡ length own → IsTrue (begins_within call.now own) → result ≡ length (patched_bytes call.now own) }
{
    match *call {
        PatchingCall::SetResourceSize(_, new) => new as usize,
        PatchingCall::WritePartialResource {
            offset,
            ref bytes,
            ..
        } => size.max(offset as usize + bytes.as_slice().len()),
    }
}

/// Changes the bytes of the resource at a place in its file.
fn patch_at<S: ForkStore>(
    files: &mut ResourceFiles<S>,
    alloc: Global,
    place: RowPlace,
    call: &PatchingCall<'_>,
) -> Result<Outcome, HostFull>
    requires there { HasHandle place (handle_patched call.now) files.old.files }
    requires within { IsTrue (begins_within call.now (data_at place files.old.files)) }
    ensures patches { IfOk result (λ outcome. (zone : ZoneState) → PatchesAt S.ForkStore zone files.old place call.now outcome files.new) }
    ensures saves { (zone : ZoneState) → SavesFork S.ForkStore place.file (patch_update call.now files.old.files place) files.old.stores zone files.new result }
    ensures count { length files.new.stores ≡ length files.old.stores }
    ensures keeps { OnErr result (KeepsStores S.ForkStore files.old.stores files.new.stores) }
    ensures same { OnErr result ((zone : ZoneState) → IsAnswered (HonestAt S.is_honest files.new.stores) (state_of S.fork zone files.old) (state_of S.fork zone files.new)) }
    ensures works { OnErr result (NoneFailed S.failures files.old.stores files.new.stores) }
{
    let own = length_at(files, place);
    let size = size_patched(call, own);
    if size > MAX_FORK {
        return Ok(Err(OsErr::DskFulErr));
    }
    let mut bytes = vec![in alloc; 0; size]?;
    match read_patched(files, place, call, own, &mut bytes) {
        Ok(()) => write_bytes(files, place, handle_patched(call), &bytes),
        Err(_) => Ok(Err(OsErr::IoErr)),
    }
}

/// Reads the bytes that the resource at a place has in its file, and makes of them those that it has then. As many
/// zeros are there before it.
fn read_patched<S: ForkStore>(
    files: &mut ResourceFiles<S>,
    place: RowPlace,
    call: &PatchingCall<'_>,
    size: usize,
    bytes: &mut [u8],
) -> Result<(), DiskFault>
    requires size { size ≡ length (data_at place files.old.files) }
    requires within { IsTrue (begins_within call.now (data_at place files.old.files)) }
    requires zeros { bytes.old ≡ zeros (length (patched_bytes call.now (data_at place files.old.files))) }
    ensures made { OnOk result (MakesOf (HonestAt S.is_honest files.new.stores place.file) call.now (data_at place files.old.files) bytes.new) }
    ensures keeps { KeepsStores S.ForkStore files.old.stores files.new.stores }
    ensures files { AnswersFor (HonestAt S.is_honest files.new.stores) files.old.files files.new.files }
    ensures loads { files.new.loads ≡ files.old.loads }
    ensures count { length files.new.stores ≡ length files.old.stores }
    ensures cause { MatchResult result (λ _. NoneFailed S.failures files.old.stores files.new.stores)
        (λ _. FailedAt S.failures place.file files.old.stores files.new.stores) }
{
    let kept = size.min(bytes.len());
    files.read_part(place, 0, &mut bytes[..kept])?;
    put_over(call, bytes);
    Ok(())
}

/// Puts the bytes that a call writes over others.
fn put_over(call: &PatchingCall<'_>, bytes: &mut [u8])
    requires { IsTrue (ends_within call.now bytes.old) }
    ensures { bytes.new ≡ put_over call.now bytes.old }
{
    if let PatchingCall::WritePartialResource {
        offset,
        bytes: ref put,
        ..
    } = *call
    {
        let put = put.as_slice();
        let offset = offset as usize;
        bytes[offset..offset + put.len()].copy_from_slice(put);
    }
}

/// Gives the row at a place these bytes in its file, and nothing else of it changes.
fn write_bytes<S: ForkStore>(
    files: &mut ResourceFiles<S>,
    place: RowPlace,
    handle: Handle,
    bytes: &[u8],
) -> Result<Outcome, HostFull>
    requires there { HasHandle place handle files.old.files }
    requires small { length bytes.now ≤ max_fork }
    ensures writes { IfOk result (λ outcome. (zone : ZoneState) (u : Update) → update_with bytes.now place files.old.files ≡ Some u
        → WritesFile S.ForkStore zone files.old (Writing (UpdateResFile None)) u outcome zone files.new) }
    ensures saves { (zone : ZoneState) → SavesFork S.ForkStore place.file (update_with bytes.now place files.old.files) files.old.stores zone files.new result }
    ensures count { length files.new.stores ≡ length files.old.stores }
    ensures same { OnErr result (files.new ≡ files.old) }
{
    let attributes = attributes_at(files, place);
    let contents = After::alone(handle, bytes);
    match files.update(place.file, Selection::RowAt(place.index), &contents) {
        Ok(()) => {
            files.set_attributes(place, attributes);
            Ok(Ok(Results::Nothing))
        }
        Err(fault) => Ok(Err(code_of(fault)?)),
    }
}
