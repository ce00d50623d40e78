//! When the calls of the Resource Manager are refused before any work.

ghost use Rattle.std.specs.Prelude.{◌≡◌, ◌&&◌, true, false, nat_le, length, is_some, option_copied, IfOk, IfSome, IfNone, IsSomeAnd, IsTrue, Some};
ghost use Rattle.std.specs.Option.{option_map_or, option_or};
ghost use Rattle.mac_base.specs.HandleTable.{is_full, is_lent};
ghost use Rattle.mac_base.specs.Tests.{unless_passed};
ghost use Rattle.mac_base.specs.declared.resource_call.ResourceCall.TheVariants.{Writing, AddResource};
ghost use Rattle.mac_base.specs.declared.resource_call.WritingCall.TheVariants.{WriteResource, UpdateResFile, CloseResFile};
ghost use Rattle.mem_calls.specs.Testing.{Answers};
ghost use Rattle.res_update.specs.Files.{file_named};
ghost use Rattle.res_update.specs.Tests.{is_id, may_be_added};
ghost use Rattle.res_update.specs.Updates.{new_row, row_passes};
ghost use Rattle.res_table.specs.OpenFiles.{is_open, place_of_handle, row_at};
ghost use Rattle.res_table.specs.Rows.{is_changed};
ghost use Rattle.res_manager.specs.Steps.{state_of};
ghost use Rattle.res_manager.specs.Tests.{AreLent, Tests, early_tests};

use crate::rows::attributes_at;
use bitflags::Flags;
use fork_disk::store::ForkStore;
use mac_base::block::Status;
use mac_base::error::OsErr;
use mac_base::handle::{Handle, Ptr};
use mac_base::name::MAX_NAME;
use mac_base::resource::{ResAttrs, ResType};
use mem_calls::MemoryManager;
use res_files::ResourceFiles;
use res_table::chain::RowPlace;

/// The most blocks that may be lent at a time.
const MOST_LOANS: u32 = 8;

/// Refuses a call with a code where a test isn't passed.
pub(crate) fn require(passed: bool, code: OsErr) -> Result<(), OsErr>
    ensures { Answers (unless_passed code passed) result }
{
    if passed { Ok(()) } else { Err(code) }
}

/// The number of the current file. Some file is open, or the call is refused.
pub(crate) fn test_file<S: ForkStore>(files: &ResourceFiles<S>) -> Result<u8, OsErr>
    ensures passed { Answers (unless_passed OsErr.ResFNotFound (is_some files.now.files.current)) result }
    ensures value { IfOk result (λ number. (files.now.files.current ≡ Some number) × IsTrue (is_open number files.now.files)) }
{
    files.current().ok_or(OsErr::ResFNotFound)
}

/// The place of the row with a handle. Some file is open, or the call is refused; where no row has the handle, with a
/// code.
pub(crate) fn test_row<S: ForkStore>(
    files: &ResourceFiles<S>,
    handle: Handle,
    code: OsErr,
) -> Result<RowPlace, OsErr>
    ensures passed { Answers (option_or (unless_passed OsErr.ResFNotFound (is_some files.now.files.current)) (unless_passed code (is_some (place_of_handle handle files.now.files)))) result }
    ensures value { IfOk result (λ place. place_of_handle handle files.now.files ≡ Some place) }
    ensures there { IfOk result (λ place. IsSomeAnd (row_at place files.now.files) (λ r. r.handle ≡ Some handle)) }
{
    test_file(files)?;
    files.row_of_handle(handle).ok_or(code)
}

/// Tests that a number is a possible id, and gives the id.
pub(crate) fn test_id(id: i64) -> Result<i16, OsErr>
    ensures passed { Answers (unless_passed OsErr.ParamErr (is_id id)) result }
    ensures value { IfOk result (λ given. given ≡ id) }
{
    i16::try_from(id).map_err(|_| OsErr::ParamErr)
}

/// Tests that there is a file of a number, open or not.
pub(crate) fn test_number<S: ForkStore>(files: &ResourceFiles<S>, number: u32) -> Result<(), OsErr>
    ensures { Answers (unless_passed OsErr.FnfErr (nat_le 1 number && nat_le number (length files.now.stores))) result }
{
    require(
        1 <= number && number as usize <= files.count(),
        OsErr::FnfErr,
    )
}

/// The number of the file that is named, or else of the current one. It is open, or the call is refused.
pub(crate) fn test_open<S: ForkStore>(
    files: &ResourceFiles<S>,
    named: Option<u32>,
) -> Result<u8, OsErr>
    ensures passed { Answers (unless_passed OsErr.ResFNotFound (option_map_or (λ k. is_open k files.now.files) (file_named named files.now.files) false)) result }
    ensures value { IfOk result (λ number. (file_named named files.now.files ≡ Some number) × IsTrue (is_open number files.now.files)) }
{
    let Some(number) = named else {
        return test_file(files);
    };
    if number as usize > files.count() {
        return Err(OsErr::ResFNotFound);
    }
    let number = number as u8;
    require(files.is_open(number), OsErr::ResFNotFound)?;
    Ok(number)
}

/// The number of the file that an update writes. Some file is open, this one is, and the handle of no changed row is
/// lent; or the call is refused.
pub(crate) fn test_changed<S: ForkStore>(
    files: &ResourceFiles<S>,
    memory: &MemoryManager,
    lent: &[u32],
    named: Option<u32>,
) -> Result<u8, OsErr>
    requires { AreLent memory.now.heap.table lent.now }
    ensures passed { Tests (state_of S.fork memory.now files.now) (early_tests (Writing (UpdateResFile named))) result }
    ensures value { IfOk result (λ number. (file_named named files.now.files ≡ Some number) × IsTrue (is_open number files.now.files)) }
{
    test_file(files)?;
    let number = test_open(files, named)?;
    require(
        !files.has_changed_row_among(number, lent),
        OsErr::MemLockedErr,
    )?;
    Ok(number)
}

/// The number of the file that is closed. Some file is open, this one is, and the handle of none of its rows is lent;
/// or the call is refused.
pub(crate) fn test_closing<S: ForkStore>(
    files: &ResourceFiles<S>,
    memory: &MemoryManager,
    lent: &[u32],
    named: Option<u32>,
) -> Result<u8, OsErr>
    requires { AreLent memory.now.heap.table lent.now }
    ensures passed { Tests (state_of S.fork memory.now files.now) (early_tests (Writing (CloseResFile named))) result }
    ensures value { IfOk result (λ number. (file_named named files.now.files ≡ Some number) × IsTrue (is_open number files.now.files)) }
{
    test_file(files)?;
    let number = test_open(files, named)?;
    require(!files.has_row_among(number, lent), OsErr::MemLockedErr)?;
    Ok(number)
}

/// The place of the row that WriteResource writes, if it is changed. Some file is open, some row has the handle, and it
/// isn't lent where its row is changed; or the call is refused.
pub(crate) fn test_written<S: ForkStore>(
    files: &ResourceFiles<S>,
    memory: &MemoryManager,
    handle: Handle,
) -> Result<Option<RowPlace>, OsErr>
    ensures passed { Tests (state_of S.fork memory.now files.now) (early_tests (Writing (WriteResource handle))) result }
    ensures changed { IfOk result (λ found. IfSome found (λ place. (row_passes is_changed handle files.now.files ≡ true)
        × (place_of_handle handle files.now.files ≡ Some place) × IsSomeAnd (row_at place files.now.files) (λ r. r.handle ≡ Some handle))) }
    ensures unchanged { IfOk result (λ found. IfNone found (row_passes is_changed handle files.now.files ≡ false)) }
{
    let place = test_row(files, handle, OsErr::ResNotFound)?;
    if !attributes_at(files, place).contains(ResAttrs::CHANGED) {
        return Ok(None);
    }
    require(!is_lent(memory, handle), OsErr::MemLockedErr)?;
    Ok(Some(place))
}

/// The number of the current file, and the id of the resource that AddResource makes of a handle's block. Some file is
/// open, the id is a possible one, and the file has room for the resource; or the call is refused.
pub(crate) fn test_adding<S: ForkStore>(
    files: &ResourceFiles<S>,
    memory: &MemoryManager,
    handle: Handle,
    kind: ResType,
    id: i64,
    name: Option<&[u8]>,
) -> Result<(u8, i16), OsErr>
    ensures passed { Tests (state_of S.fork memory.now files.now) (early_tests (AddResource handle kind id (option_copied name.entry))) result }
    ensures value { IfOk result (λ found. (files.now.files.current ≡ Some found.0) × IsTrue (is_open found.0 files.now.files) × (found.1 ≡ id)) }
{
    let number = test_file(files)?;
    let id = test_id(id)?;
    let passes = may_be_added(files, memory, handle, kind, id, name);
    require(passes, OsErr::AddResFailed)?;
    Ok((number, id))
}

/// Whether a handle is lent. Only what has a block is.
pub(crate) fn is_lent(memory: &MemoryManager, handle: Handle) -> bool
    ensures { result ≡ is_lent memory.now.heap.table handle }
{
    // The count of loans says that each is a pointer's or a locked handle's.
    prove!(memory.lent_count() <= MOST_LOANS);
    memory.status(handle.number()) == Status::Lent
}

/// Whether a number is a handle that has a block.
pub(crate) fn is_full(memory: &MemoryManager, handle: Handle) -> bool
    ensures { result ≡ is_full memory.now.heap.table handle }
{
    let number = handle.number();
    match memory.status(number) {
        Status::Full | Status::Lent => memory.get_ptr_size(Ptr::new(number)).is_err(),
        Status::Empty | Status::NotLive => false,
    }
}

/// Whether a handle can become a resource of the current file: it has a block and is no resource, and the file has room
/// for one more of this type and name.
fn may_be_added<S: ForkStore>(
    files: &ResourceFiles<S>,
    memory: &MemoryManager,
    handle: Handle,
    kind: ResType,
    id: i16,
    name: Option<&[u8]>,
) -> bool
    ensures { result ≡ may_be_added (state_of S.fork memory.now files.now) handle (new_row handle kind id (option_copied name.entry)) }
{
    is_full(memory, handle)
        && files.row_of_handle(handle).is_none()
        && name.is_none_or(|name| name.len() <= MAX_NAME)
        && files.has_room(kind, name)
}
