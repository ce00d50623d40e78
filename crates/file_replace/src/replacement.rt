//! A file is put in the place of another.

ghost use Rattle.std.specs.Prelude.{◌≡◌, true, Err, IfErr};
ghost use Rattle.fork_disk.specs.Disk.{Counts};
ghost use Rattle.file_replace.specs.Place.{IfHonest, IsClear};
ghost use Rattle.file_replace.specs.Replacing.{CallsOf, CallsToDress, CallsToFill, CallsToPrepare, CallsToPut, CallsToRename, Dresses, Fills, HasEmpty, Moves, Prepares, Puts, ReplacesFile, RoseTwice};

use crate::place::{FolderSync, Replaces};
use crate::rights::{Owner, Rights, mode_for};

/// A step of a replacement, in their order.
#[derive(Clone, Copy, Debug, PartialEq, Eq)]
pub enum Step {
    /// The new file is made beside the old one.
    Create,
    /// It is written.
    Write,
    /// It gets the owner and the group of the old one, as far as they may be given.
    SetOwner,
    /// It gets its mode.
    SetMode,
    /// It is synced.
    Sync,
    /// The path is asked whether it leads to what it led to before.
    Check,
    /// It is renamed to the path.
    Rename,
    /// The folder is synced.
    SyncFolder,
}

/// The step that failed, and why.
#[derive(Debug, Drop)]
pub(crate) struct Stopped<E> {
    pub(crate) step: Step,
    pub(crate) error: E,
}

/// Why a file wasn't replaced, or not for good.
#[derive(Debug, Drop)]
pub struct Fault<E> {
    /// The step that failed. Until the rename the old file is there, after it the new one.
    pub step: Step,
    /// Why it did.
    pub error: E,
    /// The file that was made beside may be there still: the removal failed too.
    pub is_left: bool,
}

/// A step failed.
fn failed<T, E>(step: Step, error: E) -> Result<T, Stopped<E>>
    ensures { result ≡ Err (record { step = step; error = error }) }
{
    Err(Stopped { step, error })
}

/// Gives the file beside the owner of the old file, as far as the system lets this user, and then the mode that it may
/// have there. Where there is no old one it keeps the host's own. Returns the owner that was set.
fn dress<R: Replaces>(
    place: &mut R,
    old: Option<Rights>,
) -> Result<Option<Owner>, Stopped<R::Error>>
    ensures calls { CallsToDress old result (R.seen place.old).calls (R.seen place.new).calls }
    ensures dresses { IfHonest (Dresses old result) (R.seen place.old) (R.seen place.new) }
    ensures cause { Counts (R.failures place.old) (R.failures place.new) result }
    ensures stays { R.spot place.new ≡ R.spot place.old }
{
    let Some(rights) = old else {
        return Ok(None);
    };
    let now = match place.set_owner(rights.owner) {
        Ok(now) => now,
        Err(error) => return failed(Step::SetOwner, error),
    };
    let keeps_user = now.user == rights.owner.user;
    let keeps_group = now.group == rights.owner.group;
    let mode = mode_for(rights.mode, keeps_user, keeps_group);
    match place.set_mode(mode) {
        Ok(()) => Ok(Some(now)),
        Err(error) => failed(Step::SetMode, error),
    }
}

/// Writes the empty file that was made beside the path, gives it its owner and its mode, and syncs it.
fn fill<R: Replaces>(
    place: &mut R,
    bytes: &[u8],
    old: Option<Rights>,
) -> Result<Option<Owner>, Stopped<R::Error>>
    requires { HasEmpty (R.seen place.old) }
    ensures calls { CallsToFill old bytes.now result (R.seen place.old).calls (R.seen place.new).calls }
    ensures fills { IfHonest (Fills old bytes.now result) (R.seen place.old) (R.seen place.new) }
    ensures cause { Counts (R.failures place.old) (R.failures place.new) result }
    ensures stays { R.spot place.new ≡ R.spot place.old }
{
    if let Err(error) = place.write(bytes) {
        return failed(Step::Write, error);
    }
    let owner = match dress(place, old) {
        Ok(owner) => owner,
        Err(stopped) => return Err(stopped),
    };
    // before the path leads to it
    match place.sync() {
        Ok(()) => Ok(owner),
        Err(error) => failed(Step::Sync, error),
    }
}

/// Makes a file of these bytes beside the path, and syncs it. In the place of an old file, of which these are the
/// rights, it gets its owner and its mode, as far as it may have them, and is private until then. Returns the owner
/// that it has. Where this fails, no file is left beside, or that is said.
pub fn prepare<R: Replaces>(
    place: &mut R,
    bytes: &[u8],
    old: Option<Rights>,
) -> Result<Option<Owner>, Fault<R::Error>>
    requires { IsClear (R.seen place.old) }
    ensures calls { CallsToPrepare old bytes.now result (R.seen place.old).calls (R.seen place.new).calls }
    ensures prepares { IfHonest (Prepares old bytes.now result) (R.seen place.old) (R.seen place.new) }
    ensures cause { Counts (R.failures place.old) (R.failures place.new) result }
    ensures stays { R.spot place.new ≡ R.spot place.old }
    ensures beside { IfErr result (λ fault. fault.is_left ≡ true → R.may_leave place.new ≡ true) }
    ensures left { IfErr result (λ fault. fault.is_left ≡ true → RoseTwice (R.failures place.old) (R.failures place.new)) }
{
    if let Err(error) = place.create(old.is_some()) {
        return Err(Fault {
            step: Step::Create,
            error,
            is_left: false,
        });
    }
    match fill(place, bytes, old) {
        Ok(owner) => Ok(owner),
        Err(Stopped { step, error }) => Err(Fault {
            step,
            error,
            is_left: place.remove().is_err(),
        }),
    }
}

/// Renames the file beside to the path, if that leads to what it led to before.
fn rename_checked<R: Replaces>(place: &mut R) -> Result<(), Stopped<R::Error>>
    ensures calls { CallsToRename result (R.seen place.old).calls (R.seen place.new).calls }
    ensures moves { IfHonest (Moves result) (R.seen place.old) (R.seen place.new) }
    ensures cause { Counts (R.failures place.old) (R.failures place.new) result }
    ensures stays { R.spot place.new ≡ R.spot place.old }
{
    if let Err(error) = place.check() {
        return failed(Step::Check, error);
    }
    match place.rename() {
        Ok(()) => Ok(()),
        Err(error) => failed(Step::Rename, error),
    }
}

/// Puts the file that was prepared beside the path in the place of the one at the path, and syncs the folder. Where
/// that fails before the rename, the old file is there, untouched, and the new one is removed.
pub fn put<R: Replaces>(place: &mut R) -> Result<FolderSync, Fault<R::Error>>
    ensures calls { CallsToPut result (R.seen place.old).calls (R.seen place.new).calls }
    ensures puts { IfHonest (Puts result) (R.seen place.old) (R.seen place.new) }
    ensures cause { Counts (R.failures place.old) (R.failures place.new) result }
    ensures stays { R.spot place.new ≡ R.spot place.old }
    ensures beside { IfErr result (λ fault. fault.is_left ≡ true → R.may_leave place.new ≡ true) }
    ensures left { IfErr result (λ fault. fault.is_left ≡ true → RoseTwice (R.failures place.old) (R.failures place.new)) }
{
    if let Err(Stopped { step, error }) = rename_checked(place) {
        return Err(Fault {
            step,
            error,
            is_left: place.remove().is_err(),
        });
    }
    match place.sync_folder() {
        Ok(answer) => Ok(answer),
        Err(error) => Err(Fault {
            step: Step::SyncFolder,
            error,
            is_left: false,
        }),
    }
}

/// Puts a file of these bytes in the place of the one at the path, of which these are the rights, or at a path that has
/// none. It is made beside the path, written, synced and renamed. Where that fails before the rename, the old file is
/// there, untouched.
pub fn replace<R: Replaces>(
    place: &mut R,
    bytes: &[u8],
    old: Option<Rights>,
) -> Result<FolderSync, Fault<R::Error>>
    requires { IsClear (R.seen place.old) }
    ensures calls { CallsOf old bytes.now result (R.seen place.old).calls (R.seen place.new).calls }
    ensures replaces { IfHonest (ReplacesFile old bytes.now result) (R.seen place.old) (R.seen place.new) }
    ensures cause { Counts (R.failures place.old) (R.failures place.new) result }
    ensures stays { R.spot place.new ≡ R.spot place.old }
    ensures beside { IfErr result (λ fault. fault.is_left ≡ true → R.may_leave place.new ≡ true) }
    ensures left { IfErr result (λ fault. fault.is_left ≡ true → RoseTwice (R.failures place.old) (R.failures place.new)) }
{
    match prepare(place, bytes, old) {
        Ok(_) => put(place),
        Err(fault) => Err(fault),
    }
}
