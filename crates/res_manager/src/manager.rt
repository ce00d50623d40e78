//! One call of the Resource Manager.

ghost use Rattle.std.specs.Prelude.{◌≡◌, [], None, length, IsTrue, IfOk, OnErr};
ghost use Rattle.linked_zone.specs.Loans.{KeepsLoans};
ghost use Rattle.res_update.specs.Answered.{IsAnswered};
ghost use Rattle.res_update.specs.Tests.{resource_refusal};
ghost use Rattle.mac_base.specs.Outcomes.{done_outcome};
ghost use Rattle.mac_base.specs.declared.resource_call.ResourceCall.TheVariants.{OpenResFile};
ghost use Rattle.res_files.specs.FilesOn.{HonestAt};
ghost use Rattle.res_manager.specs.Crash.{LeavesForks};
ghost use Rattle.res_manager.specs.Steps.{ResourceSteps, state_of, takes_memory};
ghost use Rattle.res_manager.specs.Tests.{AreLent};

use crate::getting::get;
use crate::opening::open;
use crate::quiet::{add, change, info, look};
use crate::tests::test_number;
use crate::updating::update;
use fork_disk::store::ForkStore;
use mac_base::error::{HostFull, OsErr};
use mac_base::{GrowZone, Outcome, ResourceCall, Results};
use mem_calls::MemoryManager;
use res_files::{MOST_FILES, ResourceFiles};
use std::alloc::Global;

/// Makes a call of the Resource Manager. One that loads a resource makes its place by a call of the Memory Manager,
/// which asks the grow-zone procedure where it finds no room. The blocks that are lent come in any order. HostFull
/// comes only where the call isn't refused, from calls that take host memory for a row, a name, a fork or a table, and
/// before any device call of an update; then neither zone nor files have changed. A file that was updated with success
/// reads back as the table that was saved.
pub fn make<S: ForkStore, G: GrowZone>(
    files: &mut ResourceFiles<S>,
    memory: &mut MemoryManager,
    lent: &[u32],
    alloc: Global,
    call: &ResourceCall<'_>,
    procedure: &mut G,
) -> Result<Outcome, HostFull>
    requires lent { AreLent memory.old.heap.table lent.now }
    requires unasked { G.asks procedure.old ≡ [] }
    ensures step { IfOk result (λ outcome. ResourceSteps S.ForkStore memory.old files.old call.now (G.asks procedure.new) outcome memory.new files.new) }
    ensures leaves { LeavesForks S.ForkStore memory.old files.old call.now result memory.new files.new }
    ensures source { G.source procedure.new ≡ G.source procedure.old }
    ensures loans { KeepsLoans memory.old memory.new }
    ensures lent { memory.new.heap.table.lent ≡ memory.old.heap.table.lent }
    ensures shape { memory.new.shape ≡ memory.old.shape }
    ensures count { length files.new.stores ≡ length files.old.stores }
    ensures unchanged { OnErr result (memory.new ≡ memory.old) }
    ensures unasked { OnErr result (G.asks procedure.new ≡ []) }
    ensures same { OnErr result (IsAnswered (HonestAt S.is_honest files.new.stores) (state_of S.fork memory.new files.new) (state_of S.fork memory.old files.old)) }
    ensures full { OnErr result (IsTrue (takes_memory (state_of S.fork memory.old files.old) call.now)) }
    ensures late { OnErr result (resource_refusal (state_of S.fork memory.old files.old) call.now ≡ None) }
{
    match *call {
        ResourceCall::Getting(call) => Ok(get(files, memory, call, procedure)),
        ResourceCall::Looking(call) => Ok(look(files, call)),
        ResourceCall::Changing(call) => Ok(done(change(files, memory, call))),
        ResourceCall::Writing(call) => update(files, memory, lent, call),
        ResourceCall::OpenResFile(number) => open_file(files, memory, number),
        ResourceCall::AddResource {
            handle,
            kind,
            id,
            ref name,
        } => {
            let name = name.as_ref().map(|name| name.as_slice());
            Ok(done(add(files, memory, alloc, handle, kind, id, name)?))
        }
        ResourceCall::GetResInfo(handle) => info(files, handle),
    }
}

/// The outcome of a call that gives nothing.
fn done(given: Result<(), OsErr>) -> Outcome
    ensures { result ≡ done_outcome given }
{
    given.map(|()| Results::Nothing)
}

/// OpenResFile: opens a file, or gives its number where it is open already.
fn open_file<S: ForkStore>(
    files: &mut ResourceFiles<S>,
    memory: &MemoryManager,
    number: u32,
) -> Result<Outcome, HostFull>
    ensures step { IfOk result (λ outcome. ResourceSteps S.ForkStore memory.now files.old (OpenResFile number) [] outcome memory.now files.new) }
    ensures leaves { LeavesForks S.ForkStore memory.now files.old (OpenResFile number) result memory.now files.new }
    ensures same { OnErr result (IsAnswered (HonestAt S.is_honest files.new.stores) (state_of S.fork memory.now files.new) (state_of S.fork memory.now files.old)) }
    ensures full { OnErr result (IsTrue (takes_memory (state_of S.fork memory.now files.old) (OpenResFile number))) }
    ensures late { OnErr result (resource_refusal (state_of S.fork memory.now files.old) (OpenResFile number) ≡ None) }
    ensures count { length files.new.stores ≡ length files.old.stores }
{
    if let Err(code) = test_number(files, number) {
        return Ok(Err(code));
    }
    prove!(files.count() <= MOST_FILES);
    let number = number as u8;
    if files.is_open(number) {
        return Ok(Ok(Results::Number(number as u32)));
    }
    open(files, number)
}
