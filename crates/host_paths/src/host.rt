//! Calls of the system at paths and on open files, each noted with its answer in a record that only clauses read. What
//! is said of them rests on this: each function here that notes a call makes that one and no other.

ghost use Rattle.std.specs.Prelude.{◌≡◌, ◌≤◌, ◌∷◌, OnOk, is_ok, length};
ghost use Rattle.host_paths.specs.Asked.{answer_of, asked_user, done_answer, is_folder, is_regular, named_path, opened, or_kind, said_of, same_file};
ghost use Rattle.host_paths.specs.Following.{is_link};
ghost use Rattle.host_paths.specs.declared.host.HostCall.TheVariants.{At, Give, Lock, Make, Of, Open, OpenOrMake, Over, ReadLink, Remove, Rename, SetMode, Sync, User, Write};

use crate::limits::Longest;
use fork_disk::Record;
use std::collections::LinkedList;
use std::fs::{File, Metadata, OpenOptions, Permissions, TryLockError};
use std::io::{ErrorKind, Write};
use std::os::unix::fs::{MetadataExt, OpenOptionsExt, PermissionsExt, fchown};
use std::path::PathBuf;
use std::{fs, io};

/// The bits of a mode that say who may read, write and run a file, and the special ones.
const MODE_BITS: u32 = 0o7777;

/// What a file is.
#[derive(Clone, Copy, Debug, PartialEq, Eq)]
pub enum FileKind {
    Regular,
    Folder,
    Link,
    /// A device, a pipe or a socket.
    Other,
}

/// What the system says of a file.
#[derive(Clone, Copy)]
pub struct Found {
    pub kind: FileKind,
    /// The device that it is on.
    pub device: u64,
    /// Its number there: no other file on that device has it.
    pub number: u64,
    pub user: u32,
    pub group: u32,
    /// Who may read, write and run it, and the special bits.
    pub mode: u32,
    /// How many names it has.
    pub names: u64,
}

/// What the system answered where it was asked for a file.
#[derive(Clone, Copy)]
pub enum Answer {
    Is(Found),
    /// There is none.
    Nothing,
    /// The call failed, with an error of this kind.
    Failed(ErrorKind),
}

/// How a file is opened.
#[derive(Clone, Copy, PartialEq, Eq)]
pub enum Access {
    Read,
    Write,
    Both,
}

/// How a file was locked.
#[derive(Clone, Copy, PartialEq, Eq)]
pub enum Locking {
    Taken,
    /// Another process holds its lock.
    Busy,
    /// The file system has no locks.
    NotOffered,
}

/// What the system answers where it is asked to sync a file or a folder.
#[derive(Clone, Copy, PartialEq, Eq)]
pub enum Syncing {
    /// A crash leaves it as it is.
    Done,
    /// The file system offers no sync of it.
    NotOffered,
}

/// A call of the system, with its answer: where it failed, of which kind the error was.
#[derive(Drop)]
pub enum HostCall {
    /// It was asked what is at this path. A link isn't followed.
    At(LinkedList<u8>, Answer),
    /// It was asked what this path leads to, over links.
    Over(LinkedList<u8>, Answer),
    /// It was asked what this open file is.
    Of(File, Answer),
    /// It was asked which path the link at this path names.
    ReadLink(LinkedList<u8>, Result<LinkedList<u8>, ErrorKind>),
    /// It was to open what this path leads to. Nothing is made or emptied.
    Open(Access, LinkedList<u8>, Result<File, ErrorKind>),
    /// It was to open what this path leads to, to read and to write it, and to make it where there is nothing. Nothing
    /// is emptied.
    OpenOrMake(LinkedList<u8>, Result<File, ErrorKind>),
    /// It was to lock this file, without waiting.
    Lock(File, Result<Locking, ErrorKind>),
    /// It was to sync this file or folder.
    Sync(File, Result<Syncing, ErrorKind>),
    /// It was to make a file of this mode at this path, which has nothing.
    Make(u32, LinkedList<u8>, Option<File>),
    /// It was to rename what is at the first path to the second, and whether it did.
    Rename(LinkedList<u8>, LinkedList<u8>, bool),
    /// It was to remove what is at this path, and whether there is nothing now.
    Remove(LinkedList<u8>, bool),
    /// It was to write all these bytes to this file, and whether it did.
    Write(File, LinkedList<u8>, bool),
    /// It was to give this file to a user, if one is named, and to a group, and whether it did.
    Give(File, Option<u32>, u32, bool),
    /// It was to give this file this mode, and whether it did.
    SetMode(File, u32, bool),
    /// It was asked for which user this process acts.
    User(Option<u32>),
    /// It was asked whether this open folder has nothing in it.
    Empty(File, Option<bool>),
}

/// The calls, the newest first.
pub type HostCalls = Record<HostCall>;

/// These bytes were to be written to this file, which isn't a regular one, and whether they were.
#[derive(Drop)]
pub struct StreamWrite {
    pub file: File,
    pub bytes: LinkedList<u8>,
    pub is_done: bool,
}

/// The writes to what is no regular file, the newest first.
pub type StreamCalls = Record<StreamWrite>;

/// A folder was to be opened by this path, to be synced.
#[derive(Drop)]
pub struct FolderOpen {
    pub path: LinkedList<u8>,
    /// It is open, or why it isn't.
    pub answer: Result<File, ErrorKind>,
}

/// How folders were opened, the newest first.
pub type FolderOpenCalls = Record<FolderOpen>;

/// What a file is, by what the system says.
fn kind_of(metadata: &Metadata) -> FileKind {
    if metadata.is_file() {
        FileKind::Regular
    } else if metadata.is_dir() {
        FileKind::Folder
    } else if metadata.is_symlink() {
        FileKind::Link
    } else {
        FileKind::Other
    }
}

impl Found {
    /// What the system says of a file.
    fn of(metadata: &Metadata) -> Found {
        Found {
            kind: kind_of(metadata),
            device: metadata.dev(),
            number: metadata.ino(),
            user: metadata.uid(),
            group: metadata.gid(),
            mode: metadata.mode() & MODE_BITS,
            names: metadata.nlink(),
        }
    }

    /// Whether it is a regular file.
    pub fn is_regular(&self) -> bool
        ensures { result ≡ is_regular self.now.kind }
    {
        matches!(self.kind, FileKind::Regular)
    }

    /// Whether it is a folder.
    pub fn is_folder(&self) -> bool
        ensures { result ≡ is_folder self.now.kind }
    {
        matches!(self.kind, FileKind::Folder)
    }

    /// Whether it is a link.
    pub fn is_link(&self) -> bool
        ensures { result ≡ is_link self.now.kind }
    {
        matches!(self.kind, FileKind::Link)
    }

    /// Whether it is the same file as another.
    pub fn is_same(&self, other: &Found) -> bool
        ensures { result ≡ same_file self.now other.now }
    {
        self.device == other.device && self.number == other.number
    }
}

/// What the system says of a file that may not be there.
fn if_any(asked: io::Result<Metadata>) -> io::Result<Option<Found>> {
    match asked {
        Ok(metadata) => Ok(Some(Found::of(&metadata))),
        Err(error) if error.kind() == ErrorKind::NotFound => Ok(None),
        Err(error) => Err(error),
    }
}

/// An answer as it is noted.
fn answer_of(found: &io::Result<Option<Found>>) -> Answer
    ensures { result ≡ answer_of found.now }
{
    match found {
        Ok(Some(found)) => Answer::Is(*found),
        Ok(None) => Answer::Nothing,
        Err(error) => Answer::Failed(error.kind()),
    }
}

/// The same of a file that is open.
fn said_of(found: &io::Result<Found>) -> Answer
    ensures { result ≡ said_of found.now }
{
    match found {
        Ok(found) => Answer::Is(*found),
        Err(error) => Answer::Failed(error.kind()),
    }
}

/// What is at a path, if anything. A link is not followed.
pub fn found_at(rt: &HostRuntime, path: &str, log: &mut HostCalls) -> io::Result<Option<Found>>
    ensures { log.new.events ≡ At path.now (answer_of result) ∷ log.old.events }
{
    let found = if_any(fs::symlink_metadata(rt, path));
    let answer = answer_of(&found);
    *log = Record::of_events_beside(log, &path, &answer);
    found
}

/// What a path leads to over links, if anything.
pub fn found_over(rt: &HostRuntime, path: &str, log: &mut HostCalls) -> io::Result<Option<Found>>
    ensures { log.new.events ≡ Over path.now (answer_of result) ∷ log.old.events }
{
    let found = if_any(fs::metadata(rt, path));
    let answer = answer_of(&found);
    *log = Record::of_events_beside(log, &path, &answer);
    found
}

/// What an open file is.
pub fn found_of(file: &File, log: &mut HostCalls) -> io::Result<Found>
    ensures { log.new.events ≡ Of file.now (said_of result) ∷ log.old.events }
{
    let found = file.metadata().map(|metadata| Found::of(&metadata));
    let answer = said_of(&found);
    *log = Record::of_events_beside(log, file, &answer);
    found
}

/// The path that the link at a path names.
pub(crate) fn link_at(rt: &HostRuntime, path: &str, log: &mut HostCalls) -> io::Result<PathBuf>
    ensures { log.new.events ≡ ReadLink path.now (named_path result) ∷ log.old.events }
{
    let named = fs::read_link(rt, path);
    *log = Record::of_events_beside(log, &path, &named);
    named
}

/// Opens what a path leads to. Nothing is made or emptied.
pub fn open(rt: &HostRuntime, path: &str, access: Access, log: &mut HostCalls) -> io::Result<File>
    ensures { log.new.events ≡ Open access path.now (or_kind result) ∷ log.old.events }
{
    let file = OpenOptions::new()
        .read(access != Access::Write)
        .write(access != Access::Read)
        .open(rt, path);
    *log = Record::of_events_beside(log, &(access, path), &file);
    file
}

/// Opens a folder, to sync it.
pub fn open_to_sync(rt: &HostRuntime, path: &str, log: &mut FolderOpenCalls) -> io::Result<File>
    ensures { log.new.events ≡ record { path = path.now; answer = or_kind result } ∷ log.old.events }
{
    let folder = File::open(rt, path);
    *log = Record::of_events_beside(log, &path, &folder);
    folder
}

/// Opens what a path leads to, to read and to write it. A missing file is made, empty. Nothing is emptied.
pub fn open_or_make(rt: &HostRuntime, path: &str, log: &mut HostCalls) -> io::Result<File>
    ensures { log.new.events ≡ OpenOrMake path.now (or_kind result) ∷ log.old.events }
{
    let file = OpenOptions::new()
        .read(true)
        .write(true)
        .create(true)
        .open(rt, path);
    *log = Record::of_events_beside(log, &path, &file);
    file
}

/// Locks an open file against others that do so, without waiting.
pub fn lock(file: &File, log: &mut HostCalls) -> io::Result<Locking>
    ensures { log.new.events ≡ Lock file.now (or_kind result) ∷ log.old.events }
{
    let locking = match file.try_lock() {
        Ok(()) => Ok(Locking::Taken),
        Err(TryLockError::WouldBlock) => Ok(Locking::Busy),
        Err(TryLockError::Error(error)) if error.kind() == ErrorKind::Unsupported => {
            Ok(Locking::NotOffered)
        }
        Err(TryLockError::Error(error)) => Err(error),
    };
    *log = Record::of_events_beside(log, file, &locking);
    locking
}

/// Makes an open file or folder stable, so that a crash leaves it as it is, if that is offered.
pub fn sync(file: &File, log: &mut HostCalls) -> io::Result<Syncing>
    ensures { log.new.events ≡ Sync file.now (or_kind result) ∷ log.old.events }
{
    let syncing = match file.sync_all() {
        Ok(()) => Ok(Syncing::Done),
        Err(error) if is_not_offered(error.kind()) => Ok(Syncing::NotOffered),
        Err(error) => Err(error),
    };
    *log = Record::of_events_beside(log, file, &syncing);
    syncing
}

/// Makes an open file stable, so that a crash leaves it as it is. Where that isn't offered, it fails.
pub fn sync_file(file: &File, log: &mut HostCalls) -> io::Result<()>
    ensures { log.new.events ≡ Sync file.now (done_answer result) ∷ log.old.events }
{
    let done = file.sync_all();
    *log = Record::of_events_beside(log, file, &done);
    done
}

/// Whether an error of this kind says that the file system doesn't offer a call.
fn is_not_offered(kind: ErrorKind) -> bool {
    matches!(kind, ErrorKind::InvalidInput | ErrorKind::Unsupported)
}

/// Makes an empty file of a mode at a path that has none.
pub(crate) fn make(rt: &HostRuntime, path: &str, mode: u32, log: &mut HostCalls) -> io::Result<File>
    ensures { log.new.events ≡ Make mode path.now (opened result) ∷ log.old.events }
{
    let file = OpenOptions::new()
        .write(true)
        .create_new(true)
        .mode(mode)
        .open(rt, path);
    *log = Record::of_events_beside(log, &(mode, path), &file);
    file
}

/// Renames what is at a path to another.
pub(crate) fn rename(rt: &HostRuntime, from: &str, to: &str, log: &mut HostCalls) -> io::Result<()>
    ensures { log.new.events ≡ Rename from.now to.now (is_ok result) ∷ log.old.events }
{
    let done = fs::rename(rt, from, to);
    *log = Record::of_events_beside(log, &(from, to), &done);
    done
}

/// What became of a file that was to be removed: where there is none, nothing is left to be done.
fn if_gone(removed: io::Result<()>) -> io::Result<()> {
    match removed {
        Err(error) if error.kind() == ErrorKind::NotFound => Ok(()),
        _ => removed,
    }
}

/// Removes the file at a path, if there is one.
pub(crate) fn remove(rt: &HostRuntime, path: &str, log: &mut HostCalls) -> io::Result<()>
    ensures { log.new.events ≡ Remove path.now (is_ok result) ∷ log.old.events }
{
    let done = if_gone(fs::remove_file(rt, path));
    *log = Record::of_events_beside(log, &path, &done);
    done
}

/// Writes all these bytes to an open file that has none, where one may be so long: a write past that would end the
/// process.
pub fn write_whole(
    file: &File,
    bytes: &[u8],
    longest: Longest,
    log: &mut HostCalls,
) -> io::Result<()>
    ensures noted { log.new.events ≡ Write file.now bytes.now (is_ok result) ∷ log.old.events }
    ensures fits { OnOk result (length bytes.now ≤ longest.bytes) }
{
    let mut writer = file;
    let done: io::Result<()> = if bytes.len() as u64 > longest.bytes {
        Err(ErrorKind::FileTooLarge.into())
    } else {
        writer.write_all(bytes)
    };
    *log = Record::of_events_beside(log, &(file, bytes), &done);
    done
}

/// Writes all these bytes to what is no regular file, which may be of any length.
pub fn write_stream(file: &File, bytes: &[u8], log: &mut StreamCalls) -> io::Result<()>
    ensures { log.new.events ≡ record { file = file.now; bytes = bytes.now; is_done = is_ok result } ∷ log.old.events }
{
    let mut writer = file;
    let done = writer.write_all(bytes);
    *log = Record::of_events_beside(log, &(file, bytes), &done);
    done
}

/// Gives an open file to a user, if one is named, and to a group.
pub fn give(file: &File, user: Option<u32>, group: u32, log: &mut HostCalls) -> io::Result<()>
    ensures { log.new.events ≡ Give file.now user group (is_ok result) ∷ log.old.events }
{
    let done = fchown(file, user, Some(group));
    *log = Record::of_events_beside(log, &(file, user, group), &done);
    done
}

/// Gives an open file a mode.
pub fn set_mode(file: &File, mode: u32, log: &mut HostCalls) -> io::Result<()>
    ensures { log.new.events ≡ SetMode file.now mode (is_ok result) ∷ log.old.events }
{
    let done = file.set_permissions(Permissions::from_mode(mode));
    *log = Record::of_events_beside(log, &(file, mode), &done);
    done
}

/// The user for whom this process acts, as Linux says. Elsewhere none is known.
pub fn this_user(rt: &HostRuntime, log: &mut HostCalls) -> io::Result<u32>
    ensures { log.new.events ≡ User (asked_user result) ∷ log.old.events }
{
    let user = fs::metadata(rt, "/proc/self").map(|metadata| metadata.uid());
    *log = Record::of_events_beside(log, &user, &());
    user
}
