//! How a file of the host is opened, locked against other programs, and synced.

ghost use Rattle.std.specs.IoError.{error_kind};
ghost use Rattle.std.specs.Prelude.{◌≡◌, [], false, true, IfOk, IfErr, OnOk};
ghost use Rattle.std.specs.Path.{path_buf_bytes};
ghost use Rattle.host_paths.specs.Asked.{is_regular};
ghost use Rattle.run_stores.specs.Claiming.{HasLock, IsClaimed, IsNamed, LeadsTo, Makes, Opens, SettlesName, SyncsFolder, as_claimed, as_opened, is_known, is_unwritable};
ghost use Rattle.run_stores.specs.Opening.{because};
ghost use Rattle.run_stores.specs.Refusing.{CantClaim, CantLock, CantMake, CantOpen, CantSettleName, CantSyncFolder, HasMoved, IsOpening, IsRefused};

use crate::opened::{NewFile, NotOpened, Refusal};
use fork_disk::HostFile;
use host_paths::{
    Access, Found, HostCalls, Locking, Syncing, folder_name, follow, found_of, found_over, lock,
    open, open_or_make, sync,
};
use std::fs::File;
use std::io;
use std::io::ErrorKind;
use std::path::PathBuf;

/// How often a run may name a file.
#[derive(Clone, Copy)]
pub enum Naming {
    /// Several times. It is opened for each name, and what is written by one of them the others don't see.
    Repeated,
    /// Once.
    Once,
}

/// Why the host doesn't open a file, by its error.
fn unopened(error: io::Error) -> NotOpened
    ensures { result ≡ because (error_kind error) }
{
    NotOpened::because(error.kind())
}

/// Whether a file is one of these.
fn is_known(known: &[Found], found: &Found) -> bool
    ensures { result ≡ is_known known.now found.now }
{
    known.iter().any(|one| one.is_same(found))
}

/// Syncs the folder of a path, where it can be read.
fn sync_folder(rt: &HostRuntime, to: &PathBuf, calls: &mut HostCalls) -> Result<(), NotOpened>
    ensures syncs { OnOk result (SyncsFolder (path_buf_bytes to.now) calls.old.events calls.new.events) }
    ensures fails { IfErr result (λ why. CantSyncFolder (path_buf_bytes to.now) why calls.old.events calls.new.events) }
{
    match open(rt, folder_name(to), Access::Read, calls) {
        Ok(folder) => sync(&folder, calls).map_err(unopened).map(|_| ()),
        Err(error) if error.kind() == ErrorKind::PermissionDenied => Ok(()),
        Err(error) => Err(unopened(error)),
    }
}

/// Syncs the folder of where the path of a file leads that was made, where it can be read, so that a crash leaves the
/// file its name.
fn settle_name(rt: &HostRuntime, path: &str, calls: &mut HostCalls) -> Result<(), NotOpened>
    ensures settles { OnOk result (SettlesName path.now calls.old.events calls.new.events) }
    ensures fails { IfErr result (λ why. CantSettleName path.now why calls.old.events calls.new.events) }
{
    match follow(rt, path, calls) {
        Ok(to) => sync_folder(rt, &to, calls),
        Err(error) => Err(unopened(error)),
    }
}

/// Makes the file of a path, with length 0.
fn made(rt: &HostRuntime, path: &str, calls: &mut HostCalls) -> Result<File, NotOpened>
    ensures opens { IfOk result (λ file. Makes path.now file calls.old.events calls.new.events) }
    ensures fails { IfErr result (λ why. CantMake path.now why calls.old.events calls.new.events) }
{
    let file = match open_or_make(rt, path, calls) {
        Ok(file) => file,
        Err(error) => return Err(unopened(error)),
    };
    match settle_name(rt, path, calls) {
        Ok(()) => Ok(file),
        Err(why) => Err(why),
    }
}

/// Whether an error of this kind says of a file that it may not be written.
fn is_unwritable(kind: ErrorKind) -> bool
    ensures { result ≡ is_unwritable kind }
{
    match kind {
        ErrorKind::PermissionDenied | ErrorKind::ReadOnlyFilesystem => true,
        _ => false,
    }
}

/// The file of a path, to read and to write it. A missing one is made, with length 0. Where it may only be read it is
/// opened to be read: the system refuses each write and each cut of it then, and nothing changes. An error is that of
/// the first try.
fn opened(rt: &HostRuntime, path: &str, calls: &mut HostCalls) -> Result<File, NotOpened>
    ensures opens { IfOk result (λ file. Opens path.now file calls.old.events calls.new.events) }
    ensures fails { IfErr result (λ why. CantOpen path.now why calls.old.events calls.new.events) }
{
    let why = match open(rt, path, Access::Both, calls) {
        Ok(file) => return Ok(file),
        Err(why) => why,
    };
    if why.kind() == ErrorKind::NotFound {
        return made(rt, path, calls);
    }
    if !is_unwritable(why.kind()) {
        return Err(unopened(why));
    }
    match open(rt, path, Access::Read, calls) {
        Ok(file) => Ok(file),
        Err(_) => Err(unopened(why)),
    }
}

/// Locks a file. Where the file system has no locks, there is none.
fn take_lock(file: &File, calls: &mut HostCalls) -> Result<(), NotOpened>
    ensures locks { OnOk result (HasLock file.now calls.old.events calls.new.events) }
    ensures fails { IfErr result (λ why. CantLock file.now why calls.old.events calls.new.events) }
{
    match lock(file, calls) {
        Ok(Locking::Taken | Locking::NotOffered) => Ok(()),
        Ok(Locking::Busy) => Err(NotOpened::InUse),
        Err(error) => Err(unopened(error)),
    }
}

/// Refuses a path that doesn't lead to this file any more: another program has put one in its place.
fn refuse_moved(
    rt: &HostRuntime,
    path: &str,
    file: &Found,
    calls: &mut HostCalls,
) -> Result<(), NotOpened>
    ensures leads { OnOk result (LeadsTo path.now file.now calls.old.events calls.new.events) }
    ensures moved { IfErr result (λ why. HasMoved path.now file.now why calls.old.events calls.new.events) }
{
    match found_over(rt, path, calls) {
        Ok(Some(there)) if there.is_same(file) => Ok(()),
        Ok(_) => Err(NotOpened::InUse),
        Err(error) => Err(unopened(error)),
    }
}

/// Locks the file that was opened by a path, and syncs it, so that a crash leaves what is read of it. It is refused where
/// another program has the lock, or has put another file there. A device or a pipe is left as it is. It says whether the
/// file was synced.
fn claim(
    rt: &HostRuntime,
    path: &str,
    file: &File,
    found: &Found,
    calls: &mut HostCalls,
) -> Result<bool, NotOpened>
    ensures claims { IfOk result (λ was_synced. IsClaimed path.now file.now found.now was_synced calls.old.events calls.new.events) }
    ensures regular { IfErr result (λ why. is_regular found.now.kind ≡ true) }
    ensures fails { IfErr result (λ why. CantClaim path.now file.now found.now why calls.old.events calls.new.events) }
{
    if !found.is_regular() {
        return Ok(false);
    }
    take_lock(file, calls)?;
    refuse_moved(rt, path, found, calls)?;
    match sync(file, calls) {
        Ok(Syncing::Done) => Ok(true),
        Ok(Syncing::NotOffered) => Ok(false),
        Err(error) => Err(unopened(error)),
    }
}

/// Opens the file of a path, where these were opened before it, and claims it: the file, which one it is, and whether it
/// was synced. One of these is claimed already; it is refused where a run may name each file once.
fn claimed(
    rt: &HostRuntime,
    path: &str,
    naming: Naming,
    known: &[Found],
    calls: &mut HostCalls,
) -> Result<(File, Found, bool), NotOpened>
    ensures named { calls.old.events ≡ [] → IfOk result (λ opened. IsNamed (as_claimed calls.new.events) naming known.now path.now opened) }
    ensures refused { calls.old.events ≡ [] → IfErr result (λ why. IsRefused naming known.now path.now why calls.new.events) }
{
    let file = opened(rt, path, calls)?;
    let found = match found_of(&file, calls) {
        Ok(found) => found,
        Err(error) => return Err(unopened(error)),
    };
    let was_synced = match (is_known(known, &found), naming) {
        (false, _) => claim(rt, path, &file, &found, calls)?,
        (true, Naming::Repeated) => false,
        (true, Naming::Once) => return Err(NotOpened::Twice),
    };
    Ok((file, found, was_synced))
}

/// Opens the file of a path, where these were opened before it, and claims it; with the calls of the system by which that
/// was done, or refused.
pub fn open_claimed(
    rt: &HostRuntime,
    path: &str,
    naming: Naming,
    known: &[Found],
) -> Result<NewFile, Refusal>
    ensures { IsOpening as_opened naming known.now path.now result }
{
    let mut calls = HostCalls::new();
    match claimed(rt, path, naming, known, &mut calls) {
        Ok((file, id, was_synced)) => Ok(NewFile {
            file: HostFile::new(file).having_synced(was_synced),
            id,
            calls,
        }),
        Err(why) => Err(Refusal { why, calls }),
    }
}
