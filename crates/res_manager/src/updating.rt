//! The calls that write files.

ghost use Rattle.std.specs.Prelude.{◌≡◌, [], IfOk, OnErr, IsTrue, IsFalse, Some, None, length};
ghost use Rattle.linked_zone.specs.Loans.{KeepsLoans};
ghost use Rattle.mac_base.specs.declared.resource_call.ResourceCall.TheVariants.{Writing};
ghost use Rattle.mac_base.specs.declared.resource_call.WritingCall.TheVariants.{WriteResource, UpdateResFile, CloseResFile};
ghost use Rattle.res_update.specs.Changes.{rows_of};
ghost use Rattle.res_update.specs.Tests.{resource_refusal};
ghost use Rattle.res_update.specs.Updates.{Update, disposed, fits_fork, handles_of, update_of};
ghost use Rattle.res_manager.specs.Crash.{LeavesForks, SavesFork};
ghost use Rattle.res_manager.specs.Ends.{WritesFile};
ghost use Rattle.res_manager.specs.Faults.{code_of};
ghost use Rattle.res_manager.specs.Steps.{ResourceSteps, state_of, takes_memory};
ghost use Rattle.res_manager.specs.Tests.{AreLent};
ghost use Rattle.res_table.specs.OpenFiles.{is_open};
ghost use Rattle.res_update.specs.Selected.{updated, reads_lent};

use crate::contents::After;
use crate::tests::{test_changed, test_closing, test_written};
use fork_disk::store::ForkStore;
use mac_base::error::{HostFull, OsErr};
use mac_base::handle::Handle;
use mac_base::{Outcome, Results, WritingCall};
use mem_calls::MemoryManager;
use res_files::ResourceFiles;
use res_update::fault::UpdateFault;
use res_update::selection::Selection;

/// Makes a call that writes a file, or a row of one.
pub(crate) fn update<S: ForkStore>(
    files: &mut ResourceFiles<S>,
    memory: &mut MemoryManager,
    lent: &[u32],
    call: WritingCall,
) -> Result<Outcome, HostFull>
    requires lent { AreLent memory.old.heap.table lent.now }
    ensures step { IfOk result (λ outcome. ResourceSteps S.ForkStore memory.old files.old (Writing call) [] outcome memory.new files.new) }
    ensures leaves { LeavesForks S.ForkStore memory.old files.old (Writing call) result memory.new files.new }
    ensures loans { KeepsLoans memory.old memory.new }
    ensures lent { memory.new.heap.table.lent ≡ memory.old.heap.table.lent }
    ensures shape { memory.new.shape ≡ memory.old.shape }
    ensures count { length files.new.stores ≡ length files.old.stores }
    ensures unchanged { OnErr result (memory.new ≡ memory.old) }
    ensures same { OnErr result (files.new ≡ files.old) }
    ensures late { OnErr result (resource_refusal (state_of S.fork memory.old files.old) (Writing call) ≡ None) }
    ensures full { OnErr result (IsTrue (takes_memory (state_of S.fork memory.old files.old) (Writing call))) }
{
    match call {
        WritingCall::WriteResource(handle) => write_resource(files, memory, handle),
        WritingCall::UpdateResFile(named) => match test_changed(files, memory, lent, named) {
            Ok(number) => write_file(files, memory, number, Selection::AllChanged),
            Err(code) => Ok(Err(code)),
        },
        WritingCall::CloseResFile(named) => match test_closing(files, memory, lent, named) {
            Ok(number) => close(files, memory, number),
            Err(code) => Ok(Err(code)),
        },
    }
}

/// WriteResource: writes the row of a handle, if it is changed.
fn write_resource<S: ForkStore>(
    files: &mut ResourceFiles<S>,
    memory: &MemoryManager,
    handle: Handle,
) -> Result<Outcome, HostFull>
    ensures step { IfOk result (λ outcome. ResourceSteps S.ForkStore memory.now files.old (Writing (WriteResource handle)) [] outcome memory.now files.new) }
    ensures leaves { LeavesForks S.ForkStore memory.now files.old (Writing (WriteResource handle)) result memory.now files.new }
    ensures count { length files.new.stores ≡ length files.old.stores }
    ensures same { OnErr result (files.new ≡ files.old) }
    ensures late { OnErr result (resource_refusal (state_of S.fork memory.now files.old) (Writing (WriteResource handle)) ≡ None) }
    ensures full { OnErr result (IsTrue (takes_memory (state_of S.fork memory.now files.old) (Writing (WriteResource handle)))) }
{
    match test_written(files, memory, handle) {
        Ok(Some(place)) => { write_file(files, memory, place.file, Selection::RowAt(place.index)) }
        Ok(None) => Ok(Ok(Results::Nothing)),
        Err(code) => Ok(Err(code)),
    }
}

/// Closes a file once it is written: the handles of its rows are disposed of, in their order.
fn close<S: ForkStore>(
    files: &mut ResourceFiles<S>,
    memory: &mut MemoryManager,
    number: u8,
) -> Result<Outcome, HostFull>
    requires open { IsTrue (is_open number files.old.files) }
    requires unlent { IsFalse (reads_lent memory.old.heap.table Selection.AllChanged (rows_of number files.old.files)) }
    ensures written { IfOk result (λ outcome. (u : Update)
        → update_of number (updated memory.old.heap.table Selection.AllChanged) files.old.files ≡ Some u
        → WritesFile S.ForkStore memory.old files.old (Writing (CloseResFile None)) u outcome memory.new files.new) }
    ensures saves { SavesFork S.ForkStore number (update_of number (updated memory.old.heap.table Selection.AllChanged) files.old.files) files.old.stores memory.new files.new result }
    ensures loans { KeepsLoans memory.old memory.new }
    ensures lent { memory.new.heap.table.lent ≡ memory.old.heap.table.lent }
    ensures shape { memory.new.shape ≡ memory.old.shape }
    ensures count { length files.new.stores ≡ length files.old.stores }
    ensures unchanged { OnErr result (memory.new ≡ memory.old) }
    ensures same { OnErr result (files.new ≡ files.old) }
    ensures fits { OnErr result ((u : Update)
        → update_of number (updated memory.old.heap.table Selection.AllChanged) files.old.files ≡ Some u → IsTrue (fits_fork u.table)) }
{
    let outcome = write_file(files, memory, number, Selection::AllChanged)?;
    if outcome.is_err() {
        return Ok(outcome);
    }
    dispose_all(files, memory, number);
    files.close(number);
    Ok(outcome)
}

/// Writes a file anew. The selected rows have the bytes of their handles then, and are no longer changed. After a fault
/// after the first write the file is closed.
fn write_file<S: ForkStore>(
    files: &mut ResourceFiles<S>,
    memory: &MemoryManager,
    number: u8,
    selection: Selection,
) -> Result<Outcome, HostFull>
    requires open { IsTrue (is_open number files.old.files) }
    requires unlent { IsFalse (reads_lent memory.now.heap.table selection (rows_of number files.old.files)) }
    ensures written { IfOk result (λ outcome. (u : Update)
        → update_of number (updated memory.now.heap.table selection) files.old.files ≡ Some u
        → WritesFile S.ForkStore memory.now files.old (Writing (UpdateResFile None)) u outcome memory.now files.new) }
    ensures saves { SavesFork S.ForkStore number (update_of number (updated memory.now.heap.table selection) files.old.files) files.old.stores memory.now files.new result }
    ensures count { length files.new.stores ≡ length files.old.stores }
    ensures same { OnErr result (files.new ≡ files.old) }
    ensures fits { OnErr result ((u : Update)
        → update_of number (updated memory.now.heap.table selection) files.old.files ≡ Some u → IsTrue (fits_fork u.table)) }
{
    let contents = After::zone(memory);
    match files.update(number, selection, &contents) {
        Ok(()) => Ok(Ok(Results::Nothing)),
        Err(fault) => Ok(Err(code_of(fault)?)),
    }
}

/// The code of a fault in an update, unless the host has no memory.
pub(crate) fn code_of(fault: UpdateFault) -> Result<OsErr, HostFull>
    ensures { result ≡ code_of fault }
{
    match fault {
        UpdateFault::TooBig => Ok(OsErr::DskFulErr),
        UpdateFault::HostFull => Err(HostFull),
        UpdateFault::Device(_) => Ok(OsErr::IoErr),
    }
}

/// Disposes of the handles of a file's rows, in their order.
fn dispose_all<S: ForkStore>(files: &ResourceFiles<S>, memory: &mut MemoryManager, number: u8)
    ensures heap { memory.new.heap ≡ disposed memory.old.shape (handles_of (rows_of number files.now.files)) memory.old.heap }
    ensures shape { memory.new.shape ≡ memory.old.shape }
    ensures loans { KeepsLoans memory.old memory.new }
{
    let mut from = 0;
    while let Some(found) = files.next_handle(number, from) {
        let (index, handle) = found;
        let _ = memory.dispose_handle(handle);
        from = index + 1;
    }
}
