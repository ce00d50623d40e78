//! Loads of resources: a row's bytes come into a block of the zone.

ghost use Rattle.std.specs.Prelude.{◌≡◌, [], Some, true, false, not, ◌||◌, length, IsTrue, IsFalse, IsSome, IfOk, IfSome, OnOk, OnErr, IfErr, MatchResult, ◌≤◌, ◌<◌, ℕ, List, if◌then◌else◌};
ghost use Rattle.linked_zone.specs.Loans.{KeepsLoans};
ghost use Rattle.mac_base.specs.declared.releasing.ReleasingCall.TheVariants.{DisposesHandle};
ghost use Rattle.mac_base.specs.HandleTable.{is_full, with_flags};
ghost use Rattle.mac_base.specs.Heap.{with_table, with_emptied};
ghost use Rattle.mac_base.specs.Releasing.{heap_released};
ghost use Rattle.mac_base.specs.Outcomes.{Outcome};
ghost use Rattle.res_update.specs.Changes.{handles_forgotten};
ghost use Rattle.mac_base.specs.Released.{disposed_in};
ghost use Rattle.res_files.specs.FilesOn.{FailedAt, HonestAt, NoneFailed};
ghost use Rattle.res_files.specs.Stores.{KeepsStores};
ghost use Rattle.res_update.specs.Answered.{AnswersFor};
ghost use Rattle.res_table.specs.OpenFiles.{row_at};
ghost use Rattle.res_manager.specs.Loading.{LoadSteps, AreAnswered, IsPlaced, IsFilled, HasBytes, flags_for, loaded_with, place_call, handle_placed};
ghost use Rattle.res_update.specs.Steps.{Memory};

use crate::watch::{Before, Watched};
use bitflags::Flags;
use fork_disk::store::ForkStore;
use mac_base::error::OsErr;
use mac_base::handle::Handle;
use mac_base::resource::ResAttrs;
use mac_base::{GrowZone, block};
use mem_calls::{MemoryManager, state_of};
use res_files::ResourceFiles;
use res_table::chain::RowPlace;
use std::marker::Brand;

/// The handle of the row at a place. Where its bytes are to be loaded and aren't, they come into a block that is made
/// for them, with the flags that the row's attributes say; else a row without a handle gets an empty one. Each refusal
/// of the Memory Manager is answered, and ioErr where the device failed: then the row has the handle that it had,
/// empty, or none.
pub(crate) fn get_row<S: ForkStore, G: GrowZone>(
    files: &mut ResourceFiles<S>,
    memory: &mut MemoryManager,
    place: RowPlace,
    loads: bool,
    procedure: &mut G,
) -> Result<Handle, OsErr>
    requires unasked { G.asks procedure.old ≡ [] }
    requires there { IsSome (row_at place files.old.files) }
    ensures step { LoadSteps S.ForkStore memory.old files.old place loads (G.asks procedure.new) result memory.new files.new }
    ensures keeps { KeepsStores S.ForkStore files.old.stores files.new.stores }
    ensures source { G.source procedure.new ≡ G.source procedure.old }
    ensures loans { KeepsLoans memory.old memory.new }
    ensures lent { memory.new.heap.table.lent ≡ memory.old.heap.table.lent }
    ensures shape { memory.new.shape ≡ memory.old.shape }
    ensures count { length files.new.stores ≡ length files.old.stores }
{
    let row = files.row(place).unwrap();
    let own = row.handle;
    let size = row.resource.datum.length;
    let attributes = row.resource.attributes;
    if let Some(handle) = own {
        if serves(memory, handle, loads) {
            return Ok(handle);
        }
    }
    let handle = make_place::<S, G, Brand>(files, memory, own, size, loads, procedure)?;
    if loads {
        load_bytes(
            files,
            memory,
            place,
            handle,
            size,
            own.is_some(),
            attributes,
        )?;
    }
    files.set_handle(place, Some(handle));
    Ok(handle)
}

/// Whether a handle serves as it is: it has a block, or nothing is to be loaded.
fn serves(memory: &MemoryManager, handle: Handle, loads: bool) -> bool
    ensures { result ≡ (is_full memory.now.heap.table handle || not loads) }
{
    // The address of the first block says that the heap is sound.
    prove!(memory.first_block() > 0);
    !loads || memory.hget_state(handle).is_ok()
}

/// Makes the place for a row's bytes, under the row's own handle or a new one, and the rows forget what answers dispose
/// of.
fn make_place<S: ForkStore, G: GrowZone, B: Before<S>>(
    files: &mut ResourceFiles<S>,
    memory: &mut MemoryManager,
    own: Option<Handle>,
    size: u32,
    loads: bool,
    procedure: &mut G,
) -> Result<Handle, OsErr>
    requires unasked { G.asks procedure.old ≡ [] }
    requires before { files.old ≡ B.files }
    ensures step { (outcome : Outcome) × Memory memory.old.shape memory.old.heap (place_call own size loads) (G.asks procedure.new) outcome memory.new.heap × (result ≡ handle_placed own outcome) }
    ensures placed { loads ≡ true → IfOk result (λ handle. IsPlaced memory.new.heap handle size) }
    ensures forgotten { files.new ≡ record files.old { files = handles_forgotten (disposed_in (G.asks procedure.new)) files.old.files } }
    ensures source { G.source procedure.new ≡ G.source procedure.old }
    ensures loans { KeepsLoans memory.old memory.new }
    ensures shape { memory.new.shape ≡ memory.old.shape }
{
    let mut watched = Watched::<S, G, B>::new(files, procedure);
    request_place(memory, own, size, loads, &mut watched)
}

/// The call of the Memory Manager that makes the place for a row's bytes.
fn request_place<G: GrowZone>(
    memory: &mut MemoryManager,
    own: Option<Handle>,
    size: u32,
    loads: bool,
    procedure: &mut G,
) -> Result<Handle, OsErr>
    requires unasked { G.asks procedure.old ≡ [] }
    ensures step { (outcome : Outcome) × Memory memory.old.shape memory.old.heap (place_call own size loads) (G.asks procedure.new) outcome memory.new.heap × (result ≡ handle_placed own outcome) }
    ensures placed { loads ≡ true → IfOk result (λ handle. IsPlaced memory.new.heap handle size) }
    ensures source { G.source procedure.new ≡ G.source procedure.old }
    ensures loans { KeepsLoans memory.old memory.new }
    ensures shape { memory.new.shape ≡ memory.old.shape }
{
    let made = match own {
        Some(handle) => memory
            .reallocate_handle(handle, size, procedure)
            .and(Ok(handle)),
        None if loads => memory.new_handle(size, procedure),
        None => memory.new_empty_handle(procedure),
    };
    // The count of loans says that each is a pointer's or a locked handle's, the address of the first block that the
    // heap is sound.
    prove!(memory.lent_count() <= 8);
    prove!(memory.first_block() > 0);
    made
}

/// Loads the bytes of the row at a place into the block that was made for them, with these attributes' flags. After a
/// fault the place is undone.
fn load_bytes<S: ForkStore>(
    files: &mut ResourceFiles<S>,
    memory: &mut MemoryManager,
    place: RowPlace,
    handle: Handle,
    size: u32,
    is_own: bool,
    attributes: ResAttrs,
) -> Result<(), OsErr>
    requires placed { IsPlaced memory.old.heap handle size }
    requires long { HasBytes size (row_at place files.old.files) }
    ensures loaded { OnOk result ((bytes : List ℕ) × AreAnswered (HonestAt S.is_honest files.new.stores place.file) size (row_at place files.old.files) bytes
        × (memory.new.heap ≡ loaded_with handle (flags_for attributes) bytes memory.old.heap)) }
    ensures undone { OnErr result (memory.new.heap ≡ (if is_own then with_emptied memory.old.heap handle else heap_released (DisposesHandle handle) memory.old.heap)) }
    ensures code { IfErr result (λ code. code ≡ OsErr.IoErr) }
    ensures some { OnErr result (0 < size) }
    ensures loans { KeepsLoans memory.old memory.new }
    ensures lent { memory.new.heap.table.lent ≡ memory.old.heap.table.lent }
    ensures shape { memory.new.shape ≡ memory.old.shape }
    ensures files { AnswersFor (HonestAt S.is_honest files.new.stores) files.old.files files.new.files }
    ensures keeps { KeepsStores S.ForkStore files.old.stores files.new.stores }
    ensures loads { files.new.loads ≡ files.old.loads }
    ensures count { length files.new.stores ≡ length files.old.stores }
    ensures cause { MatchResult result (λ _. NoneFailed S.failures files.old.stores files.new.stores) (λ _. FailedAt S.failures place.file files.old.stores files.new.stores) }
{
    if let Err(code) = read_bytes(files, memory, place, handle, size) {
        undo(memory, handle, is_own);
        return Err(code);
    }
    set_flags(memory, handle, attributes);
    Ok(())
}

/// Reads the bytes of the row at a place into the block that was made for them. Where it has none, no device is asked.
fn read_bytes<S: ForkStore>(
    files: &mut ResourceFiles<S>,
    memory: &mut MemoryManager,
    place: RowPlace,
    handle: Handle,
    size: u32,
) -> Result<(), OsErr>
    requires placed { IsPlaced memory.old.heap handle size }
    requires long { HasBytes size (row_at place files.old.files) }
    ensures filled { (bytes : List ℕ) × IsFilled handle bytes memory.old.heap memory.new.heap
        × OnOk result (AreAnswered (HonestAt S.is_honest files.new.stores place.file) size (row_at place files.old.files) bytes) }
    ensures code { IfErr result (λ code. code ≡ OsErr.IoErr) }
    ensures some { OnErr result (0 < size) }
    ensures loans { KeepsLoans memory.old memory.new }
    ensures shape { memory.new.shape ≡ memory.old.shape }
    ensures files { AnswersFor (HonestAt S.is_honest files.new.stores) files.old.files files.new.files }
    ensures keeps { KeepsStores S.ForkStore files.old.stores files.new.stores }
    ensures loads { files.new.loads ≡ files.old.loads }
    ensures count { length files.new.stores ≡ length files.old.stores }
    ensures cause { MatchResult result (λ _. NoneFailed S.failures files.old.stores files.new.stores) (λ _. FailedAt S.failures place.file files.old.stores files.new.stores) }
{
    if size == 0 {
        return Ok(());
    }
    files
        .read(place, memory.contents_mut(handle.number()))
        .map_err(|_| OsErr::IoErr)
}

/// Undoes a load whose bytes couldn't be read: the row's own handle is empty again, and a new one is gone.
fn undo(memory: &mut MemoryManager, handle: Handle, is_own: bool)
    requires { (bytes : List ℕ) × IsFilled handle bytes memory.old.heap memory.old.heap }
    ensures heap { memory.new.heap ≡ (if is_own then with_emptied memory.old.heap handle else heap_released (DisposesHandle handle) memory.old.heap) }
    ensures loans { KeepsLoans memory.old memory.new }
    ensures shape { memory.new.shape ≡ memory.old.shape }
{
    // Neither is refused: the handle is live, unlocked and not lent.
    let _ = if is_own {
        memory.empty_handle(handle)
    } else {
        memory.dispose_handle(handle)
    };
}

/// Gives the handle of a loaded row the flags that the row's attributes say.
fn set_flags(memory: &mut MemoryManager, handle: Handle, attributes: ResAttrs)
    requires { (bytes : List ℕ) × IsFilled handle bytes memory.old.heap memory.old.heap }
    ensures heap { memory.new.heap ≡ with_table (with_flags handle (flags_for attributes) memory.old.heap.table) memory.old.heap }
    ensures loans { KeepsLoans memory.old memory.new }
    ensures shape { memory.new.shape ≡ memory.old.shape }
{
    // It isn't refused: the handle has a block that isn't lent.
    let _ = memory.hset_state(handle, state_of(flags_for(attributes)));
}

/// The flags of the handle of a loaded row with these attributes.
fn flags_for(attributes: ResAttrs) -> block::Flags
    ensures { result ≡ flags_for attributes }
{
    block::Flags {
        lock: attributes.contains(ResAttrs::LOCKED),
        purge: attributes.contains(ResAttrs::PURGEABLE),
        resource: true,
    }
}
