//! Resource files: how they begin and end, their forks, and the handles that they forget.

ghost use Rattle.std.specs.Prelude.{◌≡◌, length};
ghost use Rattle.held_files.specs.Told.{BeginTold, DisposeTold, EndTold, ForgetTold, ForkTold, OpenTold, fork_size, fork_sized};

use held_files::files::ForkFiles;
use held_files::held::MrFiles;
use held_zone::host_err::HostErr;
use held_zone::zone::MhZone;
use mac_base::error::{NO_ERR, OsErr};
use mac_base::handle::Handle;
use std::alloc::Global;

/// Begins files of which none is open. InUse where they have begun.
#[unsafe(no_mangle)]
pub extern "C" fn mr_begin(alloc: Global, files: &mut MrFiles) -> i16
    ensures { BeginTold files.old.held.files result files.new.held.files }
{
    if let Some(begun) = files.take(alloc) {
        files.put(begun);
        return HostErr::InUse.code();
    }
    match ForkFiles::create(alloc) {
        Ok(begun) => {
            files.put(begun);
            NO_ERR
        }
        Err(_) => OsErr::MemFullErr.code(),
    }
}

/// Ends files. What isn't written stays unwritten.
#[unsafe(no_mangle)]
pub extern "C" fn mr_end(alloc: Global, files: &mut MrFiles) -> i16
    ensures { EndTold files.old.held.files result files.new.held.files }
{
    match files.take(alloc) {
        Some(begun) => {
            drop(begun);
            NO_ERR
        }
        None => HostErr::NotThere.code(),
    }
}

/// Opens a file on a copy of a fork, and makes it the current one (OpenResFile).
#[unsafe(no_mangle)]
pub extern "C" fn mr_open(
    alloc: Global,
    files: &mut MrFiles,
    zone: &mut MhZone,
    fork: &[u8],
    file: &mut u32,
) -> i16
    ensures { OpenTold zone.old.held.session files.old.held.files fork.now result file.old file.new zone.new.held.session files.new.held.files }
{
    files.open(alloc, zone, fork, file)
}

/// How many bytes the fork of a file has now. NoneSuch where there is no such number.
#[unsafe(no_mangle)]
pub extern "C" fn mr_fork_size(
    alloc: Global,
    files: &mut MrFiles,
    file: u32,
    size: &mut usize,
) -> i16
    ensures { ForkTold (fork_size file) files.old.held.files result size.old size.new files.new.held.files }
{
    let Some(begun) = files.take(alloc) else {
        return HostErr::NotThere.code();
    };
    let code = match begun.fork(file) {
        Some(fork) => {
            *size = fork.len();
            NO_ERR
        }
        None => HostErr::NoneSuch.code(),
    };
    files.put(begun);
    code
}

/// Copies the fork of a file as it is now. NoneSuch where there is no such number, BadNumber where C has room for more
/// bytes or fewer.
#[unsafe(no_mangle)]
pub extern "C" fn mr_fork(alloc: Global, files: &mut MrFiles, file: u32, bytes: &mut [u8]) -> i16
    ensures { ForkTold (fork_sized file (length bytes.old)) files.old.held.files result bytes.old bytes.new files.new.held.files }
{
    let Some(begun) = files.take(alloc) else {
        return HostErr::NotThere.code();
    };
    let code = match begun.fork(file) {
        Some(fork) if fork.len() == bytes.len() => {
            bytes.copy_from_slice(fork);
            NO_ERR
        }
        Some(_) => HostErr::BadNumber.code(),
        None => HostErr::NoneSuch.code(),
    };
    files.put(begun);
    code
}

/// DisposeHandle, and no resource has the handle then.
#[unsafe(no_mangle)]
pub extern "C" fn mr_dispose_handle(
    alloc: Global,
    files: &mut MrFiles,
    zone: &mut MhZone,
    handle: u32,
) -> i16
    ensures { DisposeTold zone.old.held.session files.old.held.files handle result zone.new.held.session files.new.held.files }
{
    files.dispose(alloc, zone, Handle::new(handle))
}

/// No resource has a handle that an answer of the grow-zone procedure disposed of in the zone's last call.
#[unsafe(no_mangle)]
pub extern "C" fn mr_forget(alloc: Global, files: &mut MrFiles, zone: &mut MhZone) -> i16
    ensures { ForgetTold zone.old.held.session files.old.held.files result zone.new.held.session files.new.held.files }
{
    files.forget(alloc, zone)
}
