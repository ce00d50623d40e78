//! The calls that seek a resource otherwise than by its id.

ghost use Rattle.std.specs.Prelude.{◌≡◌, [], IfOk, IfSome, IsSome, length};
ghost use Rattle.linked_zone.specs.Loans.{KeepsLoans};
ghost use Rattle.res_update.specs.Sought.{place_sought, sought};
ghost use Rattle.res_files.specs.Stores.{KeepsStores};
ghost use Rattle.res_manager.specs.Steps.{SoughtSteps};
ghost use Rattle.res_table.specs.OpenFiles.{row_at};

use crate::load::get_row;
use crate::tests::test_file;
use fork_disk::store::ForkStore;
use mac_base::error::OsErr;
use mac_base::{GrowZone, Outcome, Results};
use mem_calls::MemoryManager;
use res_files::ResourceFiles;
use res_table::chain::RowPlace;
use res_update::SeekingCall;

/// Makes a call that seeks a resource otherwise than by its id: where there is one, it is loaded as GetResource loads,
/// in which the grow-zone procedure may be asked for room. resFNotFound where no file is open, and resNotFound where
/// none has such a resource.
pub fn seek<S: ForkStore, G: GrowZone>(
    files: &mut ResourceFiles<S>,
    memory: &mut MemoryManager,
    call: &SeekingCall<'_>,
    procedure: &mut G,
) -> Outcome
    requires unasked { G.asks procedure.old ≡ [] }
    ensures step { SoughtSteps S.ForkStore memory.old files.old call.now (G.asks procedure.new) result memory.new files.new }
    ensures keeps { KeepsStores S.ForkStore files.old.stores files.new.stores }
    ensures source { G.source procedure.new ≡ G.source procedure.old }
    ensures loans { KeepsLoans memory.old memory.new }
    ensures lent { memory.new.heap.table.lent ≡ memory.old.heap.table.lent }
    ensures shape { memory.new.shape ≡ memory.old.shape }
    ensures count { length files.new.stores ≡ length files.old.stores }
{
    let place = find_sought(files, call)?;
    let loads = files.loads();
    get_row(files, memory, place, loads, procedure).map(Results::Handle)
}

/// Where the resource is that a call seeks, or why the call is refused.
fn find_sought<S: ForkStore>(
    files: &ResourceFiles<S>,
    call: &SeekingCall<'_>,
) -> Result<RowPlace, OsErr>
    ensures found { result ≡ sought call.now files.now.files }
    ensures there { IfOk result (λ place. IsSome (row_at place files.now.files)) }
{
    test_file(files)?;
    find_place(files, call).ok_or(OsErr::ResNotFound)
}

/// Where the resource is that a call seeks, if there is one.
pub fn find_place<S: ForkStore>(
    files: &ResourceFiles<S>,
    call: &SeekingCall<'_>,
) -> Option<RowPlace>
    ensures value { result ≡ place_sought call.now files.now.files }
    ensures there { IfSome result (λ place. IsSome (row_at place files.now.files)) }
{
    match *call {
        SeekingCall::GetNamedResource { kind, ref name } => {
            files.find_named(kind, name.as_slice())
        }
        SeekingCall::Get1NamedResource { kind, ref name } => {
            files.find_named_here(kind, name.as_slice())
        }
        SeekingCall::GetIndResource { kind, index } => files.find_ith_in_all(kind, index),
    }
}
