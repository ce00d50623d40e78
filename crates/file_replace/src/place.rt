//! A path at which a file is replaced, and the name beside it at which the new file is made.

ghost use Rattle.std.specs.Prelude.{◌≡◌, ℕ, [], Bool, true, is_ok, IfErr};
ghost use Rattle.fork_disk.specs.Disk.{Counts};
ghost use Rattle.file_replace.specs.declared.calls.Call.TheVariants as calls;
ghost use Rattle.file_replace.specs.Place.{Seen, IsClear};
ghost use Rattle.file_replace.specs.Spot.{Spot};
ghost use Rattle.file_replace.specs.OnPlace.{Does, now_of, told};

use crate::rights::Owner;
use std::collections::LinkedList;

/// A file as clauses see it: its bytes, to whom it belongs, and its mode, who may read, write and run it.
#[derive(Drop)]
pub struct PlainFile {
    pub bytes: LinkedList<u8>,
    pub owner: Owner,
    pub mode: u32,
}

/// What the host answers where it is asked to sync a folder.
#[derive(Clone, Copy, Debug, PartialEq, Eq)]
pub enum FolderSync {
    /// A crash leaves the folder's names as they are.
    Done,
    /// The file system, or the folder's mode, offers no sync of it.
    NotOffered,
}

/// What happened at a path and beside it, of which a crash may undo some.
#[derive(Drop)]
pub enum Event {
    /// A start found this file at the path, or none.
    Found(Option<PlainFile>),
    /// A file was made beside the path.
    Made,
    /// The file beside was changed, at least in part.
    Changed,
    /// The file beside was synced while it was this.
    Synced(PlainFile),
    /// A sync of the file beside failed.
    Failed,
    /// The file beside was renamed to the path.
    Renamed,
    /// It may have been renamed to the path: that failed.
    Tried,
    /// The folder was to be synced, and this was answered.
    Asked(FolderSync),
}

/// A path at which a file is replaced, and the name beside it at which the new file is made. Each call may fail, and
/// what it leaves then is said beside it.
///
/// What is promised of files holds of an *honest* place: one that does what it answers, and at which nobody else
/// writes. A rename is atomic there: the path has the file that it had, or the one that was beside it. A place that is
/// honest after a call was so before it.
pub trait Replaces {
    /// Why a call failed.
    type Error: Drop;

    /// What the path has and what is beside it, what happened since a start, and that the place is honest.
    ghost seen: { Self → Seen };

    /// A file may be beside the path.
    ghost may_leave: { Self → Bool };

    /// How often a call has failed.
    ghost failures: { Self → ℕ };

    /// Its path, what that has to have, and its folder. No call changes these.
    ghost spot: { Self → Spot };

    /// Makes an empty file beside the path, at a name that no file has. A private one can be read by its owner alone
    /// until it gets its mode. Where it fails, no file was made.
    fn create(&mut self, is_private: bool) -> Result<(), Self::Error>
        requires { IsClear (seen self.old) }
        ensures creates { Does (calls.Create is_private) (is_ok result) [] (seen self.old) (seen self.new) }
        ensures cause { Counts (failures self.old) (failures self.new) result }
        ensures stays { spot self.new ≡ spot self.old };

    /// Writes all these bytes to the end of the file beside. Where it fails, that file may be any.
    fn write(&mut self, bytes: &[u8]) -> Result<(), Self::Error>
        ensures writes { Does calls.Write (is_ok result) bytes.now (seen self.old) (seen self.new) }
        ensures cause { Counts (failures self.old) (failures self.new) result }
        ensures stays { spot self.new ≡ spot self.old };

    /// Gives the file beside an owner and a group, as far as the system lets this user, and returns those that it has
    /// then. Its mode may lose bits by that. Where it fails, that file may be any.
    fn set_owner(&mut self, owner: Owner) -> Result<Owner, Self::Error>
        ensures sets { Does (calls.SetOwner owner (now_of owner result)) (is_ok result) [] (seen self.old) (seen self.new) }
        ensures cause { Counts (failures self.old) (failures self.new) result }
        ensures stays { spot self.new ≡ spot self.old };

    /// Gives the file beside a mode. Where it fails, that file may be any.
    fn set_mode(&mut self, mode: u32) -> Result<(), Self::Error>
        ensures sets { Does (calls.SetMode mode) (is_ok result) [] (seen self.old) (seen self.new) }
        ensures cause { Counts (failures self.old) (failures self.new) result }
        ensures stays { spot self.new ≡ spot self.old };

    /// Makes the file beside stable, so that a crash leaves it as it is. A sync that failed makes nothing stable, and
    /// may have dropped what waited for it: after one, none of that file counts.
    fn sync(&mut self) -> Result<(), Self::Error>
        ensures syncs { Does calls.Sync (is_ok result) [] (seen self.old) (seen self.new) }
        ensures cause { Counts (failures self.old) (failures self.new) result }
        ensures stays { spot self.new ≡ spot self.old };

    /// Asks whether the path still leads to what it led to when it was opened, and fails where it doesn't. Nothing
    /// changes.
    fn check(&mut self) -> Result<(), Self::Error>
        ensures checks { Does calls.Check (is_ok result) [] (seen self.old) (seen self.new) }
        ensures cause { Counts (failures self.old) (failures self.new) result }
        ensures stays { spot self.new ≡ spot self.old };

    /// Renames the file beside to the path. The file that was there is gone. Where it fails, all of this was done or
    /// nothing.
    fn rename(&mut self) -> Result<(), Self::Error>
        ensures renames { Does calls.Rename (is_ok result) [] (seen self.old) (seen self.new) }
        ensures cause { Counts (failures self.old) (failures self.new) result }
        ensures stays { spot self.new ≡ spot self.old };

    /// Makes the folder's names stable, so that a crash leaves the path with the file that it has.
    fn sync_folder(&mut self) -> Result<FolderSync, Self::Error>
        ensures syncs { Does (calls.SyncFolder (told result)) (is_ok result) [] (seen self.old) (seen self.new) }
        ensures cause { Counts (failures self.old) (failures self.new) result }
        ensures stays { spot self.new ≡ spot self.old };

    /// Removes the file beside, and fails only where one may be left. The path is as it was in any case.
    fn remove(&mut self) -> Result<(), Self::Error>
        ensures removes { Does calls.Remove (is_ok result) [] (seen self.old) (seen self.new) }
        ensures left { IfErr result (λ _. may_leave self.new ≡ true) }
        ensures cause { Counts (failures self.old) (failures self.new) result }
        ensures stays { spot self.new ≡ spot self.old };
}
