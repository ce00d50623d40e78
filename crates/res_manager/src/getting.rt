//! The calls that get or load a resource.

ghost use Rattle.std.specs.Prelude.{◌≡◌, [], Some, IsSome, IfOk, length};
ghost use Rattle.linked_zone.specs.Loans.{KeepsLoans};
ghost use Rattle.mac_base.specs.declared.resource_call.ResourceCall.TheVariants.{Getting};
ghost use Rattle.res_update.specs.Files.{ResState};
ghost use Rattle.res_update.specs.Loads.{loaded_results, loads_bytes, row_wanted};
ghost use Rattle.res_files.specs.Stores.{KeepsStores};
ghost use Rattle.res_manager.specs.Steps.{ResourceSteps};
ghost use Rattle.res_manager.specs.Tests.{Tests, early_tests};
ghost use Rattle.res_table.specs.OpenFiles.{row_at};

use crate::load::get_row;
use crate::tests::{test_file, test_id, test_row};
use fork_disk::store::ForkStore;
use mac_base::error::OsErr;
use mac_base::handle::Handle;
use mac_base::{GettingCall, GrowZone, Outcome, Results};
use mem_calls::MemoryManager;
use res_files::ResourceFiles;
use res_table::chain::RowPlace;

/// Makes a call that gets or loads a resource.
pub(crate) fn get<S: ForkStore, G: GrowZone>(
    files: &mut ResourceFiles<S>,
    memory: &mut MemoryManager,
    call: GettingCall,
    procedure: &mut G,
) -> Outcome
    requires unasked { G.asks procedure.old ≡ [] }
    ensures step { ResourceSteps S.ForkStore memory.old files.old (Getting call) (G.asks procedure.new) result memory.new files.new }
    ensures keeps { KeepsStores S.ForkStore files.old.stores files.new.stores }
    ensures source { G.source procedure.new ≡ G.source procedure.old }
    ensures loans { KeepsLoans memory.old memory.new }
    ensures lent { memory.new.heap.table.lent ≡ memory.old.heap.table.lent }
    ensures shape { memory.new.shape ≡ memory.old.shape }
    ensures count { length files.new.stores ≡ length files.old.stores }
{
    let place = test_wanted(files, &call)?;
    let loads = loads_bytes(files, &call);
    let handle = get_row(files, memory, place, loads, procedure)?;
    Ok(given(&call, handle))
}

/// The place of the row that a call gets or loads, or the call's refusal.
fn test_wanted<S: ForkStore>(
    files: &ResourceFiles<S>,
    call: &GettingCall,
) -> Result<RowPlace, OsErr>
    ensures passed { (state : ResState) → state.files ≡ files.now.files → Tests state (early_tests (Getting call.now)) result }
    ensures value { (state : ResState) → state.files ≡ files.now.files → IfOk result (λ place. row_wanted state (Getting call.now) ≡ Some place) }
    ensures there { IfOk result (λ place. IsSome (row_at place files.now.files)) }
{
    match *call {
        GettingCall::GetResource { kind, id } => {
            test_file(files)?;
            files.find(kind, test_id(id)?).ok_or(OsErr::ResNotFound)
        }
        GettingCall::Get1Resource { kind, id } => {
            test_file(files)?;
            files
                .find_here(kind, test_id(id)?)
                .ok_or(OsErr::ResNotFound)
        }
        GettingCall::GetIndResource { kind, index } => {
            test_file(files)?;
            files.find_ith(kind, index).ok_or(OsErr::ResNotFound)
        }
        GettingCall::LoadResource(handle) => test_row(files, handle, OsErr::ResNotFound),
    }
}

/// Whether a call that gets a resource loads its bytes: LoadResource always does.
fn loads_bytes<S: ForkStore>(files: &ResourceFiles<S>, call: &GettingCall) -> bool
    ensures { (state : ResState) → state.loads ≡ files.now.loads → result ≡ loads_bytes state (Getting call.now) }
{
    files.loads() || matches!(*call, GettingCall::LoadResource(_))
}

/// What a call gives that got or loaded the row with a handle.
fn given(call: &GettingCall, handle: Handle) -> Results
    ensures { result ≡ loaded_results (Getting call.now) handle }
{
    match *call {
        GettingCall::LoadResource(_) => Results::Nothing,
        GettingCall::GetResource { .. }
        | GettingCall::Get1Resource { .. }
        | GettingCall::GetIndResource { .. } => Results::Handle(handle),
    }
}
