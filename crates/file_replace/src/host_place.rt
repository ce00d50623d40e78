//! A path of the host.

ghost use Rattle.std.specs.Prelude.{◌≡◌, [], ◌∷◌, true, None, is_ok, is_some, IfErr, IfOk, MatchResult, OnErr, OnOk};
ghost use Rattle.std.specs.Path.{path_buf_bytes};
ghost use Rattle.fork_disk.specs.Disk.{Counts};
ghost use Rattle.file_replace.specs.Beneath.{Gives, GivesIt, Has, MakesIt, RemovesIt, RenamesIt, SetsMode, SyncsFolder, SyncsIt, WritesIt, open_answer};
ghost use Rattle.file_replace.specs.Calls.{seen_at};
ghost use Rattle.file_replace.specs.LeftBeside.{IsMadeLeft};
ghost use Rattle.file_replace.specs.OnHost.{IsSpot, spot_of};
ghost use Rattle.file_replace.specs.OnPlace.{Does, now_of, told};
ghost use Rattle.file_replace.specs.Place.{IsClear};
ghost use Rattle.file_replace.specs.declared.calls.Call.TheVariants as calls;
ghost use Rattle.file_replace.specs.Held.{wanted_of};
ghost use Rattle.file_replace.specs.declared.calls.HeldCall.TheVariants.{OpenFolder, Put};
ghost use Rattle.host_paths.specs.Asked.{KeepsAsking, folder_name};

use crate::calls::{Call, HeldCalls, Noted, PlaceCalls, Wanted, note, note_at, note_folder};
use crate::place::{FolderSync, Replaces};
use crate::rights::Owner;
use crate::world::FolderWorld;
use fork_disk::Record;
use host_paths::{
    Beside, FolderOpenCalls, HostCalls, Longest, Syncing, folder_name, found_at, found_of, give,
    leads_to, open_to_sync, set_mode, sync, sync_file, write_whole,
};
use std::fs::File;
use std::io;
use std::io::ErrorKind;
use std::marker::PhantomData;
use std::path::PathBuf;

/// What a path has to have when a file is renamed to it.
#[derive(Drop)]
pub enum There {
    /// This open file, by this very path.
    This(File),
    /// Nothing, not even a link.
    Nothing,
    /// Whatever is there.
    Anything,
}

/// A path of the host at which a file is replaced, and no link. Each call of the system is noted with its answer, in a
/// record that only clauses read. It is honest where these answers are those of the folder that its world describes, so
/// that nobody else wrote there. Where it is dropped, the file beside is removed.
#[derive(Drop)]
pub struct FileReplacer<'a, W: FolderWorld> {
    rt: &'a HostRuntime,
    path: PathBuf,
    there: There,
    /// None where the folder can't be read, so that it can't be synced.
    folder: Option<File>,
    /// The calls by which it was opened.
    begun: FolderOpenCalls,
    beside: Option<Beside<'a>>,
    failures: u64,
    log: PlaceCalls,
    /// The calls at its path and beside it.
    asked: HostCalls,
    world: PhantomData<W>,
}

/// Opens the folder of a path, to sync it, if its mode lets it be read.
fn open_folder(
    rt: &HostRuntime,
    path: &PathBuf,
    asked: &mut FolderOpenCalls,
) -> io::Result<Option<File>>
    ensures { IfOk result (λ folder. asked.new.events ≡ record { path = folder_name (path_buf_bytes path.now); answer = open_answer folder } ∷ asked.old.events) }
{
    match open_to_sync(rt, folder_name(path), asked) {
        Ok(folder) => Ok(Some(folder)),
        Err(error) if error.kind() == ErrorKind::PermissionDenied => Ok(None),
        Err(error) => Err(error),
    }
}

/// Gives a file an owner and a group, or else the group alone, and returns those that it has then.
fn give_to(file: &File, owner: Owner, asked: &mut HostCalls) -> io::Result<Owner>
    ensures { Gives file.now owner result asked.old.events asked.new.events }
{
    if give(file, Some(owner.user), owner.group, asked).is_err() {
        let _ = give(file, None, owner.group, asked);
    }
    match found_of(file, asked) {
        Ok(found) => Ok(Owner {
            user: found.user,
            group: found.group,
        }),
        Err(error) => Err(error),
    }
}

/// What a path has to have, as it is noted.
fn wanted_of(there: &There) -> Wanted
    ensures { result ≡ wanted_of there.now }
{
    match there {
        There::This(_) => Wanted::Same,
        There::Nothing => Wanted::Nothing,
        There::Anything => Wanted::Anything,
    }
}

/// Whether a path has what it has to have.
fn has(rt: &HostRuntime, path: &str, there: &There, asked: &mut HostCalls) -> io::Result<bool>
    ensures has { IfOk result (λ is. Has there.now path.now is asked.old.events asked.new.events) }
    ensures asks { KeepsAsking asked.old.events asked.new.events }
{
    match there {
        There::This(file) => leads_to(rt, path, file, asked),
        There::Nothing => Ok(found_at(rt, path, asked)?.is_none()),
        There::Anything => Ok(true),
    }
}

impl<'a, W: FolderWorld> FileReplacer<'a, W> {
    /// The place of a path, which is no link, and beside which nothing was made so far. A file is renamed to it only
    /// while the path has what it has to have. That is noted, and
    /// whether its folder was opened.
    pub fn new(
        rt: &'a HostRuntime,
        path: &PathBuf,
        there: There,
        log: &mut HeldCalls,
    ) -> io::Result<FileReplacer<'a, W>>
        ensures start { IfOk result (λ place. place.log.events ≡ []) }
        ensures spot { IfOk result (λ place. IsSpot (path_buf_bytes path.now) there (spot_of place)) }
        ensures none { IfOk result (λ place. place.beside ≡ None) }
        ensures opens { log.new.events ≡ OpenFolder (wanted_of there) (is_ok result) ∷ log.old.events }
    {
        let wanted = wanted_of(&there);
        let place = FileReplacer::opened(rt, path, there);
        note_folder(log, wanted, place.is_ok());
        place
    }

    /// The place of a path, whose folder is opened.
    fn opened(rt: &'a HostRuntime, path: &PathBuf, there: There) -> io::Result<FileReplacer<'a, W>>
        ensures start { IfOk result (λ place. place.log.events ≡ []) }
        ensures spot { IfOk result (λ place. IsSpot (path_buf_bytes path.now) there (spot_of place)) }
        ensures none { IfOk result (λ place. place.beside ≡ None) }
    {
        let mut begun = FolderOpenCalls::new();
        let folder = open_folder(rt, path, &mut begun)?;
        Ok(FileReplacer {
            rt,
            folder,
            begun,
            path: PathBuf::from_str(rt.alloc(), path.as_str())?,
            there,
            beside: None,
            failures: 0,
            log: Record::new(),
            asked: HostCalls::new(),
            world: PhantomData,
        })
    }

    /// Notes the calls that were made there.
    pub(crate) fn note_put(&self, log: &mut HeldCalls)
        ensures { log.new.events ≡ Put (path_buf_bytes self.now.path) self.now.log.events ∷ log.old.events }
    {
        note_at(log, self.path.as_str(), &self.log);
    }

    /// The path of the file that was made beside and neither renamed nor removed, if there is one. It stays there.
    pub fn into_left(self) -> Option<PathBuf>
        ensures some { is_some result ≡ is_some self.entry.beside }
        ensures made { IsMadeLeft result }
    {
        let FileReplacer { beside, .. } = self;
        match beside {
            Some(beside) => Some(beside.into_path()),
            None => None,
        }
    }

    /// The file beside is renamed or removed.
    fn forget(&mut self)
        ensures { self.new ≡ record self.old { beside = None } }
    {
        if let Some(beside) = self.beside.take() {
            let _ = beside.into_path();
        }
    }

    /// Notes a call with its answer, and counts a failure.
    fn answered<T: Drop>(
        &mut self,
        call: Call,
        bytes: &[u8],
        answer: io::Result<T>,
    ) -> io::Result<T>
        ensures cause { Counts self.old.failures self.new.failures result }
        ensures same { result ≡ answer }
        ensures beside { self.new.beside ≡ self.old.beside }
        ensures asked { self.new.asked ≡ self.old.asked }
        ensures stays { spot_of self.new ≡ spot_of self.old }
        ensures noted { self.new.log.events ≡ (record { call = call; is_done = is_ok answer }, bytes.now) ∷ self.old.log.events }
    {
        let is_done = answer.is_ok();
        note(&mut self.log, Noted { call, is_done }, bytes);
        if !is_done {
            self.failures = self.failures.saturating_add(1);
        }
        answer
    }
}

/// Syncs a folder, if it could be opened and the host offers that.
fn sync_offered(folder: &Option<File>, asked: &mut HostCalls) -> io::Result<FolderSync>
    ensures { SyncsFolder folder.now result asked.old.events asked.new.events }
{
    let Some(folder) = folder else {
        return Ok(FolderSync::NotOffered);
    };
    match sync(folder, asked) {
        Ok(Syncing::Done) => Ok(FolderSync::Done),
        Ok(Syncing::NotOffered) => Ok(FolderSync::NotOffered),
        Err(error) => Err(error),
    }
}

impl<'a, W: FolderWorld> Replaces for FileReplacer<'a, W> {
    type Error = io::Error;

    ghost seen = { λ place. seen_at W.held place.log.events };

    ghost may_leave = { λ place. is_some place.beside };

    ghost failures = { λ place. place.failures };

    ghost spot = { spot_of };

    fn create(&mut self, is_private: bool) -> io::Result<()>
        requires { IsClear (seen_at W.held self.old.log.events) }
        ensures creates { Does (calls.Create is_private) (is_ok result) [] (seen_at W.held self.old.log.events) (seen_at W.held self.new.log.events) }
        ensures cause { Counts self.old.failures self.new.failures result }
        ensures stays { spot_of self.new ≡ spot_of self.old }
        ensures made { MakesIt (path_buf_bytes self.old.path) is_private self.new.beside result self.old.asked.events self.new.asked.events }
        ensures same { OnErr result (self.new.beside ≡ self.old.beside) }
    {
        let answer = match Beside::make(self.rt, &self.path, is_private, &mut self.asked) {
            Ok(beside) => {
                self.beside = Some(beside);
                Ok(())
            }
            Err(error) => Err(error),
        };
        self.answered(Call::Create(is_private), &[], answer)
    }

    fn write(&mut self, bytes: &[u8]) -> io::Result<()>
        ensures writes { Does calls.Write (is_ok result) bytes.now (seen_at W.held self.old.log.events) (seen_at W.held self.new.log.events) }
        ensures cause { Counts self.old.failures self.new.failures result }
        ensures stays { spot_of self.new ≡ spot_of self.old }
        ensures written { WritesIt self.old.beside bytes.now result self.old.asked.events self.new.asked.events }
        ensures same { self.new.beside ≡ self.old.beside }
    {
        let longest = Longest::of_process(self.rt);
        let answer = match &self.beside {
            Some(beside) => write_whole(beside.file(), bytes, longest, &mut self.asked),
            None => Err(ErrorKind::NotFound.into()),
        };
        self.answered(Call::Write, bytes, answer)
    }

    fn set_owner(&mut self, owner: Owner) -> io::Result<Owner>
        ensures sets { Does (calls.SetOwner owner (now_of owner result)) (is_ok result) [] (seen_at W.held self.old.log.events) (seen_at W.held self.new.log.events) }
        ensures cause { Counts self.old.failures self.new.failures result }
        ensures stays { spot_of self.new ≡ spot_of self.old }
        ensures given { GivesIt self.old.beside owner result self.old.asked.events self.new.asked.events }
        ensures same { self.new.beside ≡ self.old.beside }
    {
        let answer = match &self.beside {
            Some(beside) => give_to(beside.file(), owner, &mut self.asked),
            None => Err(ErrorKind::NotFound.into()),
        };
        let now = match &answer {
            Ok(now) => *now,
            Err(_) => owner,
        };
        self.answered(Call::SetOwner(owner, now), &[], answer)
    }

    fn set_mode(&mut self, mode: u32) -> io::Result<()>
        ensures sets { Does (calls.SetMode mode) (is_ok result) [] (seen_at W.held self.old.log.events) (seen_at W.held self.new.log.events) }
        ensures cause { Counts self.old.failures self.new.failures result }
        ensures stays { spot_of self.new ≡ spot_of self.old }
        ensures set { SetsMode self.old.beside mode result self.old.asked.events self.new.asked.events }
        ensures same { self.new.beside ≡ self.old.beside }
    {
        let answer = match &self.beside {
            Some(beside) => set_mode(beside.file(), mode, &mut self.asked),
            None => Err(ErrorKind::NotFound.into()),
        };
        self.answered(Call::SetMode(mode), &[], answer)
    }

    fn sync(&mut self) -> io::Result<()>
        ensures syncs { Does calls.Sync (is_ok result) [] (seen_at W.held self.old.log.events) (seen_at W.held self.new.log.events) }
        ensures cause { Counts self.old.failures self.new.failures result }
        ensures stays { spot_of self.new ≡ spot_of self.old }
        ensures synced { SyncsIt self.old.beside result self.old.asked.events self.new.asked.events }
        ensures same { self.new.beside ≡ self.old.beside }
    {
        let answer = match &self.beside {
            Some(beside) => sync_file(beside.file(), &mut self.asked),
            None => Err(ErrorKind::NotFound.into()),
        };
        self.answered(Call::Sync, &[], answer)
    }

    fn check(&mut self) -> io::Result<()>
        ensures checks { Does calls.Check (is_ok result) [] (seen_at W.held self.old.log.events) (seen_at W.held self.new.log.events) }
        ensures cause { Counts self.old.failures self.new.failures result }
        ensures stays { spot_of self.new ≡ spot_of self.old }
        ensures asked { OnOk result (Has self.old.there (path_buf_bytes self.old.path) true self.old.asked.events self.new.asked.events) }
        ensures asks { KeepsAsking self.old.asked.events self.new.asked.events }
        ensures same { self.new.beside ≡ self.old.beside }
    {
        let answer = match has(self.rt, self.path.as_str(), &self.there, &mut self.asked) {
            Ok(true) => Ok(()),
            Ok(false) => Err(io::Error::other("it leads to another file")),
            Err(error) => Err(error),
        };
        self.answered(Call::Check, &[], answer)
    }

    fn rename(&mut self) -> io::Result<()>
        ensures renames { Does calls.Rename (is_ok result) [] (seen_at W.held self.old.log.events) (seen_at W.held self.new.log.events) }
        ensures cause { Counts self.old.failures self.new.failures result }
        ensures stays { spot_of self.new ≡ spot_of self.old }
        ensures renamed { RenamesIt self.old.beside (path_buf_bytes self.old.path) result self.old.asked.events self.new.asked.events }
        ensures kept { MatchResult result (λ _. self.new.beside ≡ None) (λ _. self.new.beside ≡ self.old.beside) }
    {
        let answer = match &self.beside {
            Some(beside) => beside.rename(&self.path, &mut self.asked),
            None => Err(ErrorKind::NotFound.into()),
        };
        if answer.is_ok() {
            self.forget();
        }
        self.answered(Call::Rename, &[], answer)
    }

    fn sync_folder(&mut self) -> io::Result<FolderSync>
        ensures syncs { Does (calls.SyncFolder (told result)) (is_ok result) [] (seen_at W.held self.old.log.events) (seen_at W.held self.new.log.events) }
        ensures cause { Counts self.old.failures self.new.failures result }
        ensures stays { spot_of self.new ≡ spot_of self.old }
        ensures folder { SyncsFolder self.old.folder result self.old.asked.events self.new.asked.events }
        ensures same { self.new.beside ≡ self.old.beside }
    {
        let answer = sync_offered(&self.folder, &mut self.asked);
        let told = match &answer {
            Ok(told) => *told,
            Err(_) => FolderSync::NotOffered,
        };
        self.answered(Call::SyncFolder(told), &[], answer)
    }

    fn remove(&mut self) -> io::Result<()>
        ensures removes { Does calls.Remove (is_ok result) [] (seen_at W.held self.old.log.events) (seen_at W.held self.new.log.events) }
        ensures left { IfErr result (λ _. is_some self.new.beside ≡ true) }
        ensures cause { Counts self.old.failures self.new.failures result }
        ensures stays { spot_of self.new ≡ spot_of self.old }
        ensures removed { RemovesIt self.old.beside result self.old.asked.events self.new.asked.events }
        ensures kept { MatchResult result (λ _. self.new.beside ≡ None) (λ _. self.new.beside ≡ self.old.beside) }
    {
        let answer = match &self.beside {
            Some(beside) => beside.remove(&mut self.asked),
            None => Ok(()),
        };
        if answer.is_ok() {
            self.forget();
        }
        self.answered(Call::Remove, &[], answer)
    }
}
