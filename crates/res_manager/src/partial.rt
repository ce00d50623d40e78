//! Reads of some of a resource's bytes.

ghost use Rattle.std.specs.Prelude.{◌≡◌, ◌+◌, ◌≤◌, nat_le, length, IfOk, IfSome};
ghost use Rattle.mac_base.specs.HandleTable.{is_full};
ghost use Rattle.res_update.specs.Answered.{IsAnswered};
ghost use Rattle.res_update.specs.Partial.{data_at, end_of_part, part_asked};
ghost use Rattle.res_files.specs.FilesOn.{HonestAt};
ghost use Rattle.res_files.specs.Stores.{KeepsStores};
ghost use Rattle.res_manager.specs.Partial.{ReadsPartOn};
ghost use Rattle.res_manager.specs.Steps.{state_of};
ghost use Rattle.res_table.specs.OpenFiles.{row_at};

use crate::tests::{is_full, test_row};
use fork_disk::store::ForkStore;
use mac_base::error::OsErr;
use mac_base::handle::Handle;
use mem_calls::MemoryManager;
use res_files::ResourceFiles;
use res_table::chain::RowPlace;
use res_update::PartialEnd;

/// ReadPartialResource: reads as many bytes as the buffer holds of those that a resource has in its file, from an
/// offset on, whether or not it is in memory (Inside Macintosh: More Macintosh Toolbox, chapter 1, "Reading and Writing
/// Partial Resources"). Where it reads none the buffer stays; after ioErr it holds any bytes.
pub fn read_partial<S: ForkStore>(
    files: &mut ResourceFiles<S>,
    memory: &MemoryManager,
    handle: Handle,
    offset: u32,
    buffer: &mut [u8],
) -> PartialEnd
    ensures reads { ReadsPartOn S.ForkStore memory.now files.old handle offset buffer.old buffer.new result files.new }
    ensures keeps { KeepsStores S.ForkStore files.old.stores files.new.stores }
    ensures same { IsAnswered (HonestAt S.is_honest files.new.stores) (state_of S.fork memory.now files.old) (state_of S.fork memory.now files.new) }
    ensures count { length files.new.stores ≡ length files.old.stores }
{
    let place = match find_part(files, handle, offset, buffer.len()) {
        Ok(place) => place,
        Err(end) => return end,
    };
    match files.read_part(place, offset, buffer) {
        Ok(()) => end_of_part(is_full(memory, handle)),
        Err(_) => PartialEnd::Refused(OsErr::IoErr),
    }
}

/// The end of a call that read or wrote its bytes, by whether the resource is in memory.
pub(crate) fn end_of_part(in_memory: bool) -> PartialEnd
    ensures { result ≡ end_of_part in_memory }
{
    if in_memory {
        PartialEnd::InMemory
    } else {
        PartialEnd::Done
    }
}

/// The place of the resource with a handle that has so many bytes from an offset on, or how the call ends.
fn find_part<S: ForkStore>(
    files: &ResourceFiles<S>,
    handle: Handle,
    offset: u32,
    count: usize,
) -> Result<RowPlace, PartialEnd>
    ensures found { result ≡ part_asked handle offset count files.now.files }
    ensures within { IfOk result (λ place. IfSome (row_at place files.now.files) (λ r. offset + count ≤ length r.resource.datum)) }
{
    let place = test_row(files, handle, OsErr::ResNotFound).map_err(PartialEnd::Refused)?;
    if !has_part(length_at(files, place), offset as usize, count) {
        return Err(PartialEnd::OutOfBounds);
    }
    Ok(place)
}

/// How many bytes the resource at a place has in its file.
pub(crate) fn length_at<S: ForkStore>(files: &ResourceFiles<S>, place: RowPlace) -> usize
    ensures { result ≡ length (data_at place files.now.files) }
{
    match files.row(place) {
        Some(row) => row.resource.datum.length as usize,
        None => 0,
    }
}

/// Whether there are so many of some bytes from an offset on.
fn has_part(length: usize, offset: usize, count: usize) -> bool
    ensures { result ≡ nat_le (offset + count) length }
{
    offset <= length && count <= length - offset
}
