//! Where a file is to be put: over a file, at a path that has none, or into a stream.

ghost use Rattle.std.specs.Prelude.{◌≡◌, [], IfErr, IfOk, None, Some};
ghost use Rattle.std.specs.Path.{path_buf_bytes};
ghost use Rattle.host_paths.specs.Asked.{KeepsAsking};
ghost use Rattle.file_replace.specs.Held.{BacksUp, MakesOver, MakesPrepared, PreparesAt, PreparesHeld, backup_name};
ghost use Rattle.file_replace.specs.Opening.{Asks, HasMoved, IsNoStream, IsOpened, IsStream, IsUnopened, OpensAs};

use crate::calls::{HeldCalls, note_asked};
use crate::held::{Held, unopened};
use crate::host_place::There;
use crate::prepared::{NewFile, Prepared, Stream, put_over};
use crate::told::NotReplaced;
use crate::world::FolderWorld;
use host_paths::{Access, Found, HostCalls, follow, found_of, found_over, open};
use std::alloc::AllocError;
use std::fs::File;
use std::path::PathBuf;

/// A path that is open to be written.
#[derive(Drop)]
pub enum Destination {
    /// A regular file, which is locked.
    Existing(Held),
    /// A path that has nothing so far.
    New(NewPath),
    /// No regular file, as a device or a pipe.
    Stream(OpenStream),
}

/// A path that has nothing so far, and is no link.
#[derive(Drop)]
pub struct NewPath {
    path: PathBuf,
}

/// What is no regular file, open to be written.
#[derive(Drop)]
pub struct OpenStream {
    pub(crate) file: File,
    /// By which path it was opened.
    pub(crate) path: PathBuf,
}

/// Opens what is no regular file. Nothing is made or emptied. What it is is asked of what was opened.
#[tactic(auto, using(crate::proofs::Opening::never_moved))]
fn open_stream(
    rt: &HostRuntime,
    path: &str,
    asked: &mut HostCalls,
) -> Result<OpenStream, NotReplaced>
    ensures stream { IfOk result (λ stream. IsStream path.now stream.file asked.old.events asked.new.events) }
    ensures path { IfOk result (λ stream. path_buf_bytes stream.path ≡ path.now) }
    ensures refuses { IfErr result (λ refusal. IsUnopened (IsNoStream path.now asked.old.events asked.new.events) refusal asked.new.events) }
    ensures asks { KeepsAsking asked.old.events asked.new.events }
{
    let own_path = PathBuf::from_str(rt.alloc(), path)?;
    let file = match open(rt, path, Access::Write, asked) {
        Ok(file) => file,
        Err(error) => return Err(unopened(error)),
    };
    match found_of(&file, asked) {
        Ok(here) if here.is_regular() => Err(NotReplaced::Moved),
        Ok(_) => Ok(OpenStream {
            file,
            path: own_path,
        }),
        Err(error) => Err(unopened(error)),
    }
}

impl Destination {
    /// Opens a path that is to be written. A regular file is locked, and links are followed to it. At a path that has
    /// nothing, nothing is made. It fails where the path can't be looked up or opened, where another program holds the
    /// file's lock, and where another puts something else at the path at the same time. What was asked is noted.
    pub fn open(
        rt: &HostRuntime,
        path: &str,
        log: &mut HeldCalls,
    ) -> Result<Destination, NotReplaced>
        ensures { Asks (OpensAs path.now result) log.old.events log.new.events }
    {
        let mut asked = HostCalls::new();
        let destination = Destination::open_at(rt, path, &mut asked);
        note_asked(log, &asked);
        destination
    }

    /// The same, and notes each call.
    #[tactic(auto, using(crate::proofs::Opening::never_moved))]
    fn open_at(
        rt: &HostRuntime,
        path: &str,
        asked: &mut HostCalls,
    ) -> Result<Destination, NotReplaced>
        ensures { asked.old.events ≡ [] → OpensAs path.now result asked.new.events }
    {
        match found_over(rt, path, asked) {
            Ok(Some(found)) => Destination::open_found(rt, path, &found, asked),
            Ok(None) => match follow(rt, path, asked) {
                Ok(path) => Ok(Destination::New(NewPath { path })),
                Err(error) => Err(unopened(error)),
            },
            Err(error) => Err(unopened(error)),
        }
    }

    /// Opens what was found at a path.
    #[tactic(auto, using(crate::proofs::Opening::unopened_since))]
    fn open_found(
        rt: &HostRuntime,
        path: &str,
        found: &Found,
        asked: &mut HostCalls,
    ) -> Result<Destination, NotReplaced>
        ensures opened { IfOk result (λ destination. IsOpened path.now found.now destination asked.old.events asked.new.events) }
        ensures refuses { IfErr result (λ refusal. IsUnopened (HasMoved path.now found.now asked.old.events asked.new.events) refusal asked.new.events) }
        ensures asks { KeepsAsking asked.old.events asked.new.events }
    {
        if found.is_regular() {
            match Held::open_found(rt, path, found, asked) {
                Ok(held) => Ok(Destination::Existing(held)),
                Err(refusal) => Err(refusal),
            }
        } else {
            match open_stream(rt, path, asked) {
                Ok(stream) => Ok(Destination::Stream(stream)),
                Err(refusal) => Err(refusal),
            }
        }
    }

    /// Makes a file of these bytes beside the path, to be put there. Of a stream nothing is done yet.
    pub fn prepare<'a, F: FolderWorld>(
        self,
        rt: &'a HostRuntime,
        bytes: &'a [u8],
        log: &mut HeldCalls,
    ) -> Result<Prepared<'a, F>, NotReplaced>
        ensures { PreparesAt F.held self bytes.now result log.old.events log.new.events }
    {
        match self {
            Destination::Existing(held) => held.prepared(rt, bytes, log),
            Destination::New(new) => new.prepared(rt, bytes, log),
            Destination::Stream(to) => Ok(Prepared::Stream(Stream { to, bytes })),
        }
    }
}

impl NewPath {
    /// Makes a file of these bytes beside the path.
    fn prepared<'a, F: FolderWorld>(
        self,
        rt: &'a HostRuntime,
        bytes: &[u8],
        log: &mut HeldCalls,
    ) -> Result<Prepared<'a, F>, NotReplaced>
        ensures { MakesPrepared F.held (path_buf_bytes self.path) There.Nothing None 1 bytes.now result log.old.events log.new.events }
    {
        match NewFile::prepare(rt, self.path, There::Nothing, bytes, None, 1, log) {
            Ok(file) => Ok(Prepared::File(file)),
            Err(stop) => Err(NotReplaced::Stopped(stop)),
        }
    }
}

/// The path of a file's backup.
fn backup_of(rt: &HostRuntime, path: &PathBuf) -> Result<PathBuf, AllocError>
    ensures { IfOk result (λ name. path_buf_bytes name ≡ backup_name (path_buf_bytes path.now)) }
{
    let mut name = String::from_str(rt.alloc(), path.as_str())?;
    name.push('~')?;
    PathBuf::from_str(rt.alloc(), name.as_str())
}

impl Held {
    /// Makes a file of the new bytes beside this one, to be put in its place. The old bytes are those that were read of
    /// it. Where the new ones are the same, nothing is done. Where the old ones are to be kept, a copy of them is put
    /// at the file's name with a tilde, NAME~, before that; the file itself isn't touched.
    pub fn prepare<'a, F: FolderWorld, B: FolderWorld>(
        self,
        rt: &'a HostRuntime,
        old: &[u8],
        new: &[u8],
        keeps_old: bool,
        log: &mut HeldCalls,
    ) -> Result<Prepared<'a, F>, NotReplaced>
        ensures { PreparesHeld F.held B.held keeps_old self old.now new.now result log.old.events log.new.events }
    {
        if old == new {
            return Ok(Prepared::Unchanged);
        }
        self.prepared_over::<F, B>(rt, old, new, keeps_old, log)
    }

    /// Makes a file of these bytes beside this one, after a copy of it, where one is to be kept.
    fn prepared_over<'a, F: FolderWorld, B: FolderWorld>(
        self,
        rt: &'a HostRuntime,
        old: &[u8],
        new: &[u8],
        keeps_old: bool,
        log: &mut HeldCalls,
    ) -> Result<Prepared<'a, F>, NotReplaced>
        ensures { MakesOver F.held B.held keeps_old self old.now new.now result log.old.events log.new.events }
    {
        if !keeps_old {
            return self.prepared(rt, new, log);
        }
        match self.back_up::<B>(rt, old, log) {
            Ok(()) => self.prepared(rt, new, log),
            Err(refusal) => Err(refusal),
        }
    }

    /// Puts a copy of the file beside it.
    fn back_up<B: FolderWorld>(
        &self,
        rt: &HostRuntime,
        bytes: &[u8],
        log: &mut HeldCalls,
    ) -> Result<(), NotReplaced>
        ensures { BacksUp B.held self.now bytes.now result log.old.events log.new.events }
    {
        let name = backup_of(rt, &self.path)?;
        match put_over::<B>(rt, &name, bytes, self.rights, log) {
            Ok(_) => Ok(()),
            Err(stop) => Err(NotReplaced::NoBackup { name, stop }),
        }
    }

    /// Makes a file of these bytes beside this one.
    fn prepared<'a, F: FolderWorld>(
        self,
        rt: &'a HostRuntime,
        bytes: &[u8],
        log: &mut HeldCalls,
    ) -> Result<Prepared<'a, F>, NotReplaced>
        ensures { MakesPrepared F.held (path_buf_bytes self.path) (There.This self.file) (Some self.rights) self.names bytes.now result log.old.events log.new.events }
    {
        let Held {
            file,
            path,
            rights,
            names,
        } = self;
        match NewFile::prepare(rt, path, There::This(file), bytes, Some(rights), names, log) {
            Ok(file) => Ok(Prepared::File(file)),
            Err(stop) => Err(NotReplaced::Stopped(stop)),
        }
    }
}
