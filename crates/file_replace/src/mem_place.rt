//! A path in memory.

ghost use Rattle.std.specs.Prelude.{◌≡◌, ◌↔◌, [], ◌∷◌, None, true, option_copied, is_ok, IfErr, IsErr, IsTrue, MatchOption};
ghost use Rattle.fork_disk.specs.Calls.{next_call};
ghost use Rattle.fork_disk.specs.Disk.{Counts};
ghost use Rattle.file_replace.specs.Place.{IsClear};
ghost use Rattle.file_replace.specs.OnPlace.{answered, now_of, told, Does};
ghost use Rattle.file_replace.specs.Memory.{seen, with_owner, noted, place_seen, spot_in, CountsCall, IsTurn};
ghost use Rattle.file_replace.specs.declared.calls.Call.TheVariants as calls;
ghost use Rattle.file_replace.specs.declared.place.Event.TheVariants.{Found};

use crate::calls::{self, Call, Noted, PlaceCalls};
use crate::place::{Event, FolderSync, Replaces};
use crate::rights::Owner;
use fork_disk::Record;
use fork_disk::disk::DiskFault;
use std::alloc::Global;

/// A file in memory.
#[derive(Debug, Drop)]
pub struct MemFile {
    pub bytes: Vec<u8>,
    pub owner: Owner,
    pub mode: u32,
}

/// A path in memory. It is honest. Its n-th call fails, to try what is built on it: a write has then put half of its
/// bytes, and any other call has changed nothing. It also fails where the host refuses it memory for a write.
#[derive(Drop)]
pub struct MemPlace {
    alloc: Global,
    path: Option<MemFile>,
    beside: Option<MemFile>,
    /// The user and the group alone that its files may have, if there are such.
    only: (Option<u32>, Option<u32>),
    turn: u64,
    calls: u64,
    failures: u64,
    log: Record<Event>,
    made: PlaceCalls,
}

/// Notes what a call did, for clauses alone.
fn note(log: &mut Record<Event>, call: Noted, beside: &Option<MemFile>)
    ensures { log.new.events ≡ noted call beside.now log.old.events }
{
    *log = Record::of_events_beside(log, &call, beside);
}

/// Gives a file an owner, if there is one.
fn give(file: &mut Option<MemFile>, owner: Owner)
    ensures { file.new ≡ with_owner owner file.old }
{
    if let Some(file) = file {
        file.owner = owner;
    }
}

/// A record that begins with what a start found.
fn begun(path: &Option<MemFile>) -> Record<Event>
    ensures { result.events ≡ Found (seen path.now) ∷ [] }
{
    Record::of_events_beside(&Record::new(), path, path)
}

impl MemPlace {
    /// A path that has this file, or none, and whose call of this number fails, where the first is 1. With 0 none does.
    pub fn new(alloc: Global, path: Option<MemFile>, turn: u64) -> MemPlace
        ensures path { result.path ≡ path }
        ensures beside { result.beside ≡ None }
        ensures start { result.log.events ≡ Found (seen path) ∷ [] }
        ensures turn { result.turn ≡ turn }
        ensures calls { result.calls ≡ 0 }
    {
        MemPlace {
            alloc,
            log: begun(&path),
            path,
            beside: None,
            only: (None, None),
            turn,
            calls: 0,
            failures: 0,
            made: Record::new(),
        }
    }

    /// The same, of whose files the user and the group can't be others than these, where they are given.
    pub fn with_only(self, user: Option<u32>, group: Option<u32>) -> MemPlace
        ensures { result ≡ record self { only = (user, group) } }
    {
        MemPlace {
            only: (user, group),
            ..self
        }
    }

    /// The owner that a file gets where this one is asked for.
    fn given(&self, owner: Owner) -> Owner {
        Owner {
            user: self.only.0.unwrap_or(owner.user),
            group: self.only.1.unwrap_or(owner.group),
        }
    }

    /// The file at the path.
    pub fn file(&self) -> Option<&MemFile>
        ensures { option_copied result ≡ self.now.path }
    {
        self.path.as_ref()
    }

    /// The file beside it.
    pub fn beside(&self) -> Option<&MemFile>
        ensures { option_copied result ≡ self.now.beside }
    {
        self.beside.as_ref()
    }

    /// How many calls were made, the one that failed among them.
    pub fn calls(&self) -> u64
        ensures { result ≡ self.now.calls }
    {
        self.calls
    }

    /// Counts a call, and returns whether it is to fail.
    fn is_turn(&mut self) -> bool
        ensures path { self.new.path ≡ self.old.path }
        ensures beside { self.new.beside ≡ self.old.beside }
        ensures log { self.new.log ≡ self.old.log }
        ensures made { self.new.made ≡ self.old.made }
        ensures failures { self.new.failures ≡ self.old.failures }
        ensures calls { self.new.calls ≡ next_call self.old.calls }
        ensures turn { IsTrue result ↔ (self.new.calls ≡ self.old.turn) }
        ensures same_turn { self.new.turn ≡ self.old.turn }
    {
        self.calls = self.calls.saturating_add(1);
        self.calls == self.turn
    }

    /// Notes a call that was done, or counts the failure of one that wasn't.
    fn answer<T: Drop>(&mut self, call: Call, bytes: &[u8], done: Option<T>) -> Result<T, DiskFault>
        ensures path { self.new.path ≡ self.old.path }
        ensures beside { self.new.beside ≡ self.old.beside }
        ensures noted { self.new.log.events ≡ noted (record { call = call; is_done = is_ok result }) self.old.beside self.old.log.events }
        ensures made { self.new.made.events ≡ answered call (is_ok result) bytes.now ∷ self.old.made.events }
        ensures cause { Counts self.old.failures self.new.failures result }
        ensures same { MatchOption done (IsErr result) (λ value. result ≡ Ok value) }
        ensures calls { self.new.calls ≡ self.old.calls }
        ensures same_turn { self.new.turn ≡ self.old.turn }
    {
        let is_done = done.is_some();
        note(&mut self.log, Noted { call, is_done }, &self.beside);
        calls::note(&mut self.made, Noted { call, is_done }, bytes);
        match done {
            Some(value) => Ok(value),
            None => {
                self.failures = self.failures.saturating_add(1);
                Err(DiskFault)
            }
        }
    }
}

impl Replaces for MemPlace {
    type Error = DiskFault;

    ghost seen = { place_seen };

    ghost may_leave = { λ _. true };

    ghost failures = { λ place. place.failures };

    ghost spot = { spot_in };

    fn create(&mut self, is_private: bool) -> Result<(), DiskFault>
        requires { IsClear (place_seen self.old) }
        ensures creates { Does (calls.Create is_private) (is_ok result) [] (place_seen self.old) (place_seen self.new) }
        ensures cause { Counts self.old.failures self.new.failures result }
        ensures stays { spot_in self.new ≡ spot_in self.old }
        ensures counted { CountsCall self.old self.new result }
        ensures kept { IsTurn self.old → (self.new.path ≡ self.old.path) × (self.new.beside ≡ self.old.beside) }
    {
        if self.is_turn() {
            return self.answer(Call::Create(is_private), &[], None);
        }
        self.beside = Some(MemFile {
            bytes: Vec::new(self.alloc),
            owner: Owner { user: 0, group: 0 },
            mode: 0o644,
        });
        self.answer(Call::Create(is_private), &[], Some(()))
    }

    fn write(&mut self, bytes: &[u8]) -> Result<(), DiskFault>
        ensures writes { Does calls.Write (is_ok result) bytes.now (place_seen self.old) (place_seen self.new) }
        ensures cause { Counts self.old.failures self.new.failures result }
        ensures stays { spot_in self.new ≡ spot_in self.old }
        ensures counted { CountsCall self.old self.new result }
        ensures path { self.new.path ≡ self.old.path }
    {
        let is_turn = self.is_turn();
        let part = if is_turn {
            &bytes[..bytes.len() / 2]
        } else {
            bytes
        };
        let done = match &mut self.beside {
            Some(file) => file.bytes.extend_from_slice(part).is_ok() && !is_turn,
            None => false,
        };
        self.answer(Call::Write, bytes, done.then_some(()))
    }

    fn set_owner(&mut self, owner: Owner) -> Result<Owner, DiskFault>
        ensures sets { Does (calls.SetOwner owner (now_of owner result)) (is_ok result) [] (place_seen self.old) (place_seen self.new) }
        ensures cause { Counts self.old.failures self.new.failures result }
        ensures stays { spot_in self.new ≡ spot_in self.old }
        ensures counted { CountsCall self.old self.new result }
        ensures kept { IsTurn self.old → (self.new.path ≡ self.old.path) × (self.new.beside ≡ self.old.beside) }
    {
        if self.is_turn() {
            return self.answer(Call::SetOwner(owner, owner), &[], None);
        }
        let now = self.given(owner);
        give(&mut self.beside, now);
        self.answer(Call::SetOwner(owner, now), &[], Some(now))
    }

    fn set_mode(&mut self, mode: u32) -> Result<(), DiskFault>
        ensures sets { Does (calls.SetMode mode) (is_ok result) [] (place_seen self.old) (place_seen self.new) }
        ensures cause { Counts self.old.failures self.new.failures result }
        ensures stays { spot_in self.new ≡ spot_in self.old }
        ensures counted { CountsCall self.old self.new result }
        ensures kept { IsTurn self.old → (self.new.path ≡ self.old.path) × (self.new.beside ≡ self.old.beside) }
    {
        if self.is_turn() {
            return self.answer(Call::SetMode(mode), &[], None);
        }
        if let Some(file) = &mut self.beside {
            file.mode = mode;
        }
        self.answer(Call::SetMode(mode), &[], Some(()))
    }

    fn sync(&mut self) -> Result<(), DiskFault>
        ensures syncs { Does calls.Sync (is_ok result) [] (place_seen self.old) (place_seen self.new) }
        ensures cause { Counts self.old.failures self.new.failures result }
        ensures stays { spot_in self.new ≡ spot_in self.old }
        ensures counted { CountsCall self.old self.new result }
        ensures kept { IsTurn self.old → (self.new.path ≡ self.old.path) × (self.new.beside ≡ self.old.beside) }
    {
        let done = !self.is_turn();
        self.answer(Call::Sync, &[], done.then_some(()))
    }

    fn check(&mut self) -> Result<(), DiskFault>
        ensures checks { Does calls.Check (is_ok result) [] (place_seen self.old) (place_seen self.new) }
        ensures cause { Counts self.old.failures self.new.failures result }
        ensures stays { spot_in self.new ≡ spot_in self.old }
        ensures counted { CountsCall self.old self.new result }
        ensures kept { IsTurn self.old → (self.new.path ≡ self.old.path) × (self.new.beside ≡ self.old.beside) }
    {
        let done = !self.is_turn();
        self.answer(Call::Check, &[], done.then_some(()))
    }

    fn rename(&mut self) -> Result<(), DiskFault>
        ensures renames { Does calls.Rename (is_ok result) [] (place_seen self.old) (place_seen self.new) }
        ensures cause { Counts self.old.failures self.new.failures result }
        ensures stays { spot_in self.new ≡ spot_in self.old }
        ensures counted { CountsCall self.old self.new result }
        ensures kept { IsTurn self.old → (self.new.path ≡ self.old.path) × (self.new.beside ≡ self.old.beside) }
    {
        if self.is_turn() {
            return self.answer(Call::Rename, &[], None);
        }
        self.path = self.beside.take();
        self.answer(Call::Rename, &[], Some(()))
    }

    fn sync_folder(&mut self) -> Result<FolderSync, DiskFault>
        ensures syncs { Does (calls.SyncFolder (told result)) (is_ok result) [] (place_seen self.old) (place_seen self.new) }
        ensures cause { Counts self.old.failures self.new.failures result }
        ensures stays { spot_in self.new ≡ spot_in self.old }
        ensures counted { CountsCall self.old self.new result }
        ensures kept { IsTurn self.old → (self.new.path ≡ self.old.path) × (self.new.beside ≡ self.old.beside) }
    {
        if self.is_turn() {
            return self.answer(Call::SyncFolder(FolderSync::NotOffered), &[], None);
        }
        self.answer(
            Call::SyncFolder(FolderSync::Done),
            &[],
            Some(FolderSync::Done),
        )
    }

    fn remove(&mut self) -> Result<(), DiskFault>
        ensures removes { Does calls.Remove (is_ok result) [] (place_seen self.old) (place_seen self.new) }
        ensures left { IfErr result (λ _. true ≡ true) }
        ensures cause { Counts self.old.failures self.new.failures result }
        ensures stays { spot_in self.new ≡ spot_in self.old }
        ensures counted { CountsCall self.old self.new result }
        ensures kept { IsTurn self.old → (self.new.path ≡ self.old.path) × (self.new.beside ≡ self.old.beside) }
    {
        if self.is_turn() {
            return self.answer(Call::Remove, &[], None);
        }
        self.beside = None;
        self.answer(Call::Remove, &[], Some(()))
    }
}
