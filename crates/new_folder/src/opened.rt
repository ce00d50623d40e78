//! An open folder, and what is made in it.

ghost use Rattle.std.specs.Prelude.{◌≡◌, ◌⊎◌, [], ◌∷◌, true, Some, is_ok, IfOk, OnOk, option_map, string_bytes};
ghost use Rattle.host_paths.specs.declared.host.HostCall.TheVariants.{Empty};
ghost use Rattle.new_folder.specs.Checked.{IsChecked, IsOwned, Opens, OpensMade, emptiness, is_made, is_shared, path_by, path_in};
ghost use Rattle.new_folder.specs.NewFolder.{Makes, event, is_single, path_below, with_file};

use crate::calls::{FolderCall, FolderCalls, FolderNoted, note, note_path, note_written};
use crate::names::check_single;
use fork_disk::Record;
use host_paths::{Access, Found, HostCalls, Longest, found_at, found_of, open, write_whole};
use std::alloc::AllocError;
use std::fs::File;
use std::io::{Error, ErrorKind};
use std::os::fd::AsRawFd;
use std::{fs, io};

/// The bits of a mode that let others than the owner write.
const OTHERS_WRITE: u32 = 0o022;

/// Where Linux has the files that this process has open, by their numbers.
const DESCRIPTORS: &str = "/proc/self/fd/";

/// What is between a folder and a name in it.
const SLASH: &str = "/";

/// Why a folder isn't written to.
#[derive(Debug, Drop)]
pub enum NoNewFolder {
    /// There is a folder, and it isn't empty.
    NotEmpty,
    /// There is a folder of another user, and others than its owner may write there.
    Shared,
    /// There is no `/proc` as Linux has it, by which what is made is made in the folder that is open.
    NoProc(Error),
    /// It can't be made, opened or looked into.
    Host(Error),
}

impl From<Error> for NoNewFolder {
    fn from(error: Error) -> NoNewFolder {
        NoNewFolder::Host(error)
    }
}

impl From<AllocError> for NoNewFolder {
    fn from(error: AllocError) -> NoNewFolder {
        NoNewFolder::Host(error.into())
    }
}

/// What is at a path isn't the folder that was made there.
fn replaced() -> Error {
    Error::new(
        ErrorKind::PermissionDenied,
        "another program put something else in its place",
    )
}

/// Opens a folder. What is no folder isn't opened.
fn open_folder(rt: &HostRuntime, path: &str, log: &mut HostCalls) -> io::Result<File>
    ensures { IfOk result (λ folder. Opens path.now folder log.old.events log.new.events) }
{
    let path = format!(in rt.alloc(); "{path}/")?;
    open(rt, path.as_str(), Access::Read, log)
}

/// Whether an open folder is the one that is at a path, and belongs to this user.
fn is_made(here: &Found, there: &Found, owner: u32) -> bool
    ensures { result ≡ is_made here.now there.now owner }
{
    here.is_folder() && there.is_folder() && here.is_same(there) && here.user == owner
}

/// Opens the folder that this run made at a path. What was put in its place meanwhile is refused.
fn open_made(rt: &HostRuntime, path: &str, owner: u32, log: &mut HostCalls) -> io::Result<File>
    ensures { IfOk result (λ folder. OpensMade path.now owner folder log.old.events log.new.events) }
{
    let folder = open_folder(rt, path, log)?;
    let here = found_of(&folder, log)?;
    match found_at(rt, path, log)? {
        Some(there) if is_made(&here, &there, owner) => Ok(folder),
        _ => Err(replaced()),
    }
}

/// Makes the folder of a path, or opens one that is there.
pub(crate) fn made_or_there(
    rt: &HostRuntime,
    path: &str,
    owner: u32,
    log: &mut HostCalls,
) -> io::Result<File>
    ensures { IfOk result (λ folder. OpensMade path.now owner folder log.old.events log.new.events ⊎ Opens path.now folder log.old.events log.new.events) }
{
    match fs::create_dir(rt, path) {
        Ok(()) => open_made(rt, path, owner, log),
        Err(error) if error.kind() == ErrorKind::AlreadyExists => open_folder(rt, path, log),
        Err(error) => Err(error),
    }
}

/// Whether a folder belongs to another user, and others than that one may write there.
fn is_shared(found: &Found, owner: u32) -> bool
    ensures { result ≡ is_shared found.now owner }
{
    found.user != owner && found.mode & OTHERS_WRITE != 0
}

/// The path of something in an open folder, by the number of its descriptor.
fn path_by(rt: &HostRuntime, number: i32, name: &str) -> Result<String, AllocError>
    ensures { IfOk result (λ path. string_bytes path ≡ path_by number name.now) }
{
    format!(in rt.alloc(); "{DESCRIPTORS}{number}{SLASH}{name}")
}

/// The same of the open folder itself.
fn path_in(rt: &HostRuntime, folder: &File, name: &str) -> Result<String, AllocError>
    ensures { IfOk result (λ path. string_bytes path ≡ path_in folder.now name.now) }
{
    path_by(rt, folder.as_raw_fd(), name)
}

/// Whether an open folder has nothing in it, by its path.
fn is_empty(rt: &HostRuntime, folder: &File, path: &str, log: &mut HostCalls) -> io::Result<bool>
    requires { path.now ≡ path_in folder.now [] }
    ensures { log.new.events ≡ Empty folder.now (emptiness result) ∷ log.old.events }
{
    let is = match fs::read_dir(rt, path) {
        Ok(mut entries) => Ok(entries.next().is_none()),
        Err(error) => Err(error),
    };
    *log = Record::of_events_beside(log, folder, &is);
    is
}

/// Refuses a folder that has something in it.
fn check_empty(rt: &HostRuntime, folder: &File, log: &mut HostCalls) -> Result<(), NoNewFolder>
    ensures { OnOk result (log.new.events ≡ Empty folder.now (Some true) ∷ log.old.events) }
{
    let path = path_in(rt, folder, "")?;
    if is_empty(rt, folder, path.as_str(), log)? {
        Ok(())
    } else {
        Err(NoNewFolder::NotEmpty)
    }
}

/// Refuses one of another user where others may write.
fn check_owner(folder: &File, owner: u32, log: &mut HostCalls) -> Result<(), NoNewFolder>
    ensures { OnOk result (IsOwned owner folder.now log.old.events log.new.events) }
{
    if is_shared(&found_of(folder, log)?, owner) {
        Err(NoNewFolder::Shared)
    } else {
        Ok(())
    }
}

/// Refuses a folder that has something in it, and one of another user where others may write.
pub(crate) fn check(
    rt: &HostRuntime,
    folder: &File,
    owner: u32,
    log: &mut HostCalls,
) -> Result<(), NoNewFolder>
    ensures { OnOk result (IsChecked owner folder.now log.old.events log.new.events) }
{
    check_empty(rt, folder, log)?;
    check_owner(folder, owner, log)
}

/// Writes these bytes to a file that was made, and notes whether it did.
fn write_made(file: &File, bytes: &[u8], longest: Longest, log: &mut FolderCalls) -> io::Result<()>
    ensures { log.new.events ≡ event FolderCall.Write (is_ok result) bytes.now ∷ log.old.events }
{
    let mut calls = HostCalls::new();
    let written = write_whole(file, bytes, longest, &mut calls);
    note_written(log, written.is_ok(), file, bytes, &calls);
    written
}

/// A folder that is open: what is made in it is there, whatever its path leads to meanwhile.
#[derive(Drop)]
pub(crate) struct Opened<'a> {
    pub(crate) rt: &'a HostRuntime,
    pub(crate) folder: File,
    /// How long a file may be that this process writes.
    pub(crate) longest: Longest,
    /// The calls by which it was opened.
    pub(crate) asked: HostCalls,
}

impl<'a> Opened<'a> {
    /// The path of something in it that isn't there, by this name.
    fn new_path(&self, name: &str) -> io::Result<String>
        ensures path { IfOk result (λ path. string_bytes path ≡ path_in self.now.folder name.now) }
        ensures single { OnOk result (is_single name.now ≡ true) }
    {
        check_single(name)?;
        Ok(path_in(self.rt, &self.folder, name)?)
    }

    /// Makes a folder of this name, which isn't there, and notes whether it did.
    pub(crate) fn create_folder(&self, name: &str, log: &mut FolderCalls) -> io::Result<()>
        ensures noted { log.new.events ≡ event FolderCall.MakeFolder (is_ok result) name.now ∷ log.old.events }
        ensures single { OnOk result (is_single name.now ≡ true) }
    {
        let created = match self.new_path(name) {
            Ok(path) => fs::create_dir(self.rt, path.as_str()),
            Err(error) => Err(error),
        };
        let call = FolderCall::MakeFolder;
        let is_done = created.is_ok();
        note(log, FolderNoted { call, is_done }, name.as_bytes());
        created
    }

    /// Opens the folder of this name, which this run made.
    fn inner(&self, name: &str, owner: u32) -> io::Result<Opened<'a>>
        ensures { IfOk result (λ inner. OpensMade (path_in self.now.folder name.now) owner inner.folder [] inner.asked.events) }
    {
        let path = path_in(self.rt, &self.folder, name)?;
        let mut asked = HostCalls::new();
        let folder = open_made(self.rt, path.as_str(), owner, &mut asked)?;
        Ok(Opened {
            rt: self.rt,
            folder,
            longest: self.longest,
            asked,
        })
    }

    /// The same, and notes whether it did.
    pub(crate) fn open_inner(
        &self,
        name: &str,
        owner: u32,
        log: &mut FolderCalls,
    ) -> io::Result<Opened<'a>>
        ensures opens { IfOk result (λ inner. OpensMade (path_in self.now.folder name.now) owner inner.folder [] inner.asked.events) }
        ensures noted { log.new.events ≡ event FolderCall.OpenFolder (is_ok result) name.now ∷ log.old.events }
    {
        let inner = self.inner(name, owner);
        let call = FolderCall::OpenFolder;
        let is_done = inner.is_ok();
        note(log, FolderNoted { call, is_done }, name.as_bytes());
        inner
    }

    /// Makes an empty file of this name, which isn't there, and notes whether it did, where this folder is itself the
    /// one of this name in the folder that is written to. No link is followed.
    fn create_file(
        &self,
        folder: Option<&str>,
        name: &str,
        log: &mut FolderCalls,
    ) -> io::Result<File>
        ensures noted { log.new.events ≡ event FolderCall.MakeFile (is_ok result) (path_below (option_map (λ f. f.now) folder.entry) name.now) ∷ log.old.events }
        ensures single { OnOk result (is_single name.now ≡ true) }
    {
        let created = match self.new_path(name) {
            Ok(path) => File::create_new(self.rt, path.as_str()),
            Err(error) => Err(error),
        };
        let call = FolderCall::MakeFile;
        let is_done = created.is_ok();
        note_path(log, FolderNoted { call, is_done }, folder, name);
        created
    }

    /// Makes a file of these bytes, where this folder is itself the one of this name in the folder that is written to.
    pub(crate) fn write_file(
        &self,
        folder: Option<&str>,
        name: &str,
        bytes: &[u8],
        log: &mut FolderCalls,
    ) -> io::Result<()>
        ensures made { Makes result (with_file (path_below (option_map (λ f. f.now) folder.entry) name.now) bytes.now log.old.events) log.old.events log.new.events }
        ensures single { OnOk result (is_single name.now ≡ true) }
    {
        let file = self.create_file(folder, name, log)?;
        write_made(&file, bytes, self.longest, log)
    }
}
