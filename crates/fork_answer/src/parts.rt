//! What is shown of a file that is a resource fork, of which only those parts are read that it takes.

ghost use Rattle.std.specs.Prelude.{◌≡◌, IfErr, IfNone, IfSome};
ghost use Rattle.std.specs.List.{AllByRecursion};
ghost use Rattle.fork_bytes.specs.Reading.{IsWithin};
ghost use Rattle.fork_rows.specs.Opening.{IsReadyWith};
ghost use Rattle.mac_files.specs.Containers.{is_raw};
ghost use Rattle.fork_answer.specs.Answer.{Answers, IsQuiet};
ghost use Rattle.fork_answer.specs.InParts.{IsNotRaw, IsReadAs, IsReadWhole, IsReady, Never, ShowsRows, TellsInParts};

use crate::answer::{Failure, list, list_types, write};
use crate::request::Request;
use fork_bytes::fault::ForkFault;
use fork_bytes::layout::Limits;
use fork_bytes::place::PlacedRow;
use fork_disk::store::ForkStore;
use fork_list::find::{Wanted, find_row};
use fork_list::has_marked;
use fork_rows::fault::OpenFault;
use fork_rows::table::PlacedRows;
use fork_rows::{read_part, read_rows_within};
use mac_files::is_raw;
use std::alloc::Global;
use std::io::Write;

/// By so many bytes, the first, a container is known.
const FRONT_LENGTH: usize = 128;

/// Whether a file is a resource fork and nothing else, by its length and its first 128 bytes. None where the device
/// fails.
fn is_fork_alone<S: ForkStore>(store: &mut S) -> Option<bool>
    requires { IsReady S.ForkStore store.old }
    ensures raw { TellsInParts S.ForkStore store.old store.new (λ file is. is ≡ is_raw file) Never result }
    ensures cause { IfSome result (λ _. S.failures store.new ≡ S.failures store.old) }
{
    let Ok(size) = store.len() else {
        return None;
    };
    let mut bytes = [0; FRONT_LENGTH];
    let front = &mut bytes[..FRONT_LENGTH.min(size as usize)];
    match store.read_at(0, front) {
        Ok(()) => Some(is_raw(size as usize, front)),
        Err(_) => None,
    }
}

/// The resources of a file that is a resource fork and nothing else, with the places of their bytes, or why it has
/// none. Of the file are read its first 256 bytes, the map, and four bytes for each resource. None where it isn't known
/// as such a fork, and where the device fails.
pub fn rows_in_parts<S: ForkStore>(
    alloc: Global,
    store: &mut S,
) -> Option<Result<PlacedRows, ForkFault>>
    requires { IsReady S.ForkStore store.old }
    ensures rows { TellsInParts S.ForkStore store.old store.new IsReadAs IsNotRaw result }
    ensures cause { IfSome result (λ _. S.failures store.new ≡ S.failures store.old) }
{
    if !is_fork_alone(store)? {
        return None;
    }
    match read_rows_within(alloc, store, Limits::FORMAT) {
        Ok(table) => Some(Ok(table.rows)),
        Err(OpenFault::Fork(fault)) => Some(Err(fault)),
        Err(OpenFault::Device) => None,
    }
}

/// Writes the bytes of a resource, and reads no others. None where the device fails.
fn get_part<S: ForkStore, W: Write>(
    alloc: Global,
    wanted: &Wanted,
    store: &mut S,
    rows: &[PlacedRow],
    output: &mut W,
) -> Option<Result<(), Failure>>
    requires { IsReadyWith S.ForkStore store.old (λ file. AllByRecursion (IsWithin file) rows.now) }
    ensures shows { TellsInParts S.ForkStore store.old store.new
        (ShowsRows (Request.Get wanted.now) rows.now (W.contents output.old) (W.contents output.new)) Never result }
    ensures cause { IfSome result (λ _. S.failures store.new ≡ S.failures store.old) }
    ensures none { IfNone result (output.new ≡ output.old) }
    ensures quiet { IfSome result (λ shown. IfErr shown (λ failure. IsQuiet failure → output.new ≡ output.old)) }
{
    let Some(row) = find_row(rows, wanted) else {
        return Some(Err(Failure::NotFound));
    };
    match read_part(alloc, store, row.datum.offset, row.datum.length) {
        Ok(part) => Some(write(&part, output)),
        Err(OpenFault::Fork(_)) => Some(Err(Failure::HostFull)),
        Err(OpenFault::Device) => None,
    }
}

/// Writes what is asked for of a file that is a resource fork and nothing else, as `answer` does: of the file are read
/// its first 256 bytes, the map, four bytes for each resource, and the bytes that are written. None, and nothing is
/// written, where the file isn't known as such a fork, where a resource of a list may be compressed, so that its bytes
/// have to be read, and where the device fails.
pub fn answer_in_parts<S: ForkStore, W: Write>(
    alloc: Global,
    request: &Request,
    store: &mut S,
    output: &mut W,
) -> Option<Result<(), Failure>>
    requires { IsReady S.ForkStore store.old }
    ensures answer { TellsInParts S.ForkStore store.old store.new
        (λ file. Answers request.now file (W.contents output.old) (W.contents output.new)) (IsReadWhole request.now) result }
    ensures cause { IfSome result (λ _. S.failures store.new ≡ S.failures store.old) }
    ensures none { IfNone result (output.new ≡ output.old) }
    ensures quiet { IfSome result (λ shown. IfErr shown (λ failure. IsQuiet failure → output.new ≡ output.old)) }
{
    let placed = match rows_in_parts(alloc, store)? {
        Ok(placed) => placed,
        Err(fault) => return Some(Err(Failure::Fork(fault))),
    };
    let rows = placed.as_slice();
    match request {
        Request::List(choice) => {
            if has_marked(rows) {
                return None;
            }
            Some(list(alloc, choice, rows, output))
        }
        Request::Types(choice) => Some(list_types(alloc, choice, rows, output)),
        Request::Get(wanted) => get_part(alloc, wanted, store, rows, output),
    }
}
