//! A file that is open and locked, to be replaced.

ghost use Rattle.std.specs.Prelude.{◌≡◌, List, [], IfErr, IfOk, OnOk};
ghost use Rattle.std.specs.Path.{path_buf_bytes};
ghost use Rattle.host_paths.specs.Asked.{KeepsAsking};
ghost use Rattle.host_paths.specs.declared.host.HostCall.{HostCall};
ghost use Rattle.file_replace.specs.Opening.{Asks, Holds, HoldsAnother, IsAnother, IsLocked, IsOwn, IsUnopened, OpensHeld, is_one, rights_of};

use crate::calls::{HeldCalls, note_asked};
use crate::rights::{Owner, Rights};
use crate::told::NotReplaced;
use host_paths::{
    Access, Found, HostCalls, Locking, follow, found_at, found_of, found_over, lock, open,
};
use std::fs::File;
use std::io;
use std::io::ErrorKind;
use std::path::PathBuf;

/// A file that is open to be replaced. It is locked until this is dropped or put, so read it after it is opened.
#[derive(Drop)]
pub struct Held {
    pub(crate) file: File,
    pub(crate) path: PathBuf,
    pub(crate) rights: Rights,
    pub(crate) names: u64,
}

/// Why a file that can't be opened isn't changed.
pub(crate) fn unopened(error: io::Error) -> NotReplaced
    ensures { (calls : List HostCall) → IsUnopened ⊥ result calls }
{
    if error.kind() == ErrorKind::OutOfMemory {
        NotReplaced::HostFull
    } else {
        NotReplaced::Open(error)
    }
}

/// Locks a file against others that do so. Where the file system has no locks, there is none.
fn lock_it(file: &File, asked: &mut HostCalls) -> Result<(), NotReplaced>
    ensures locked { OnOk result (IsLocked file.now asked.old.events asked.new.events) }
    ensures refuses { IfErr result (λ refusal. IsUnopened ⊥ refusal asked.new.events) }
    ensures asks { KeepsAsking asked.old.events asked.new.events }
{
    match lock(file, asked) {
        Ok(Locking::Taken) | Ok(Locking::NotOffered) => Ok(()),
        Ok(Locking::Busy) => Err(NotReplaced::InUse),
        Err(error) => Err(NotReplaced::Open(error)),
    }
}

/// Whether what a path led to, what was opened, and what is at the path that was opened are one regular file.
fn is_one(found: &Found, here: &Found, there: &Found) -> bool
    ensures { result ≡ is_one found.now here.now there.now }
{
    here.is_regular() && here.is_same(found) && there.is_same(here)
}

/// To whom a file belongs, and its mode.
fn rights_of(found: &Found) -> Rights
    ensures { result ≡ rights_of found.now }
{
    Rights {
        owner: Owner {
            user: found.user,
            group: found.group,
        },
        mode: found.mode,
    }
}

impl Held {
    /// Opens a regular file that is to be replaced, and locks it. A link is followed: the file that it leads to is
    /// replaced. It fails where there is none, or no regular file, where it may not be read and written, where another
    /// program holds its lock, and where another replaces it at the same time. What was asked is noted.
    pub fn open(rt: &HostRuntime, path: &str, log: &mut HeldCalls) -> Result<Held, NotReplaced>
        ensures { Asks (OpensHeld path.now result) log.old.events log.new.events }
    {
        let mut asked = HostCalls::new();
        let held = Held::open_at(rt, path, &mut asked);
        note_asked(log, &asked);
        held
    }

    /// The same, and notes each call.
    #[tactic(auto, using(crate::proofs::Opening::never_moved, crate::proofs::Opening::held_refused, crate::proofs::Opening::held_found))]
    fn open_at(rt: &HostRuntime, path: &str, asked: &mut HostCalls) -> Result<Held, NotReplaced>
        ensures { asked.old.events ≡ [] → OpensHeld path.now result asked.new.events }
    {
        match found_over(rt, path, asked) {
            Ok(Some(found)) => {
                if found.is_regular() {
                    Held::open_found(rt, path, &found, asked)
                } else {
                    Err(NotReplaced::NotAFile)
                }
            }
            Ok(None) => Err(NotReplaced::Open(ErrorKind::NotFound.into())),
            Err(error) => Err(unopened(error)),
        }
    }

    /// Opens the regular file that was found at a path.
    #[tactic(auto, using(crate::proofs::Opening::never_moved))]
    pub(crate) fn open_found(
        rt: &HostRuntime,
        path: &str,
        found: &Found,
        asked: &mut HostCalls,
    ) -> Result<Held, NotReplaced>
        ensures holds { IfOk result (λ held. Holds path.now held found.now asked.old.events asked.new.events) }
        ensures refuses { IfErr result (λ refusal. IsUnopened (HoldsAnother path.now found.now asked.old.events asked.new.events) refusal asked.new.events) }
        ensures asks { KeepsAsking asked.old.events asked.new.events }
    {
        let path = match follow(rt, path, asked) {
            Ok(path) => path,
            Err(error) => return Err(unopened(error)),
        };
        let file = match open(rt, path.as_str(), Access::Both, asked) {
            Ok(file) => file,
            Err(error) => return Err(unopened(error)),
        };
        match lock_it(&file, asked) {
            Ok(()) => Held::locked(rt, path, file, found, asked),
            Err(refusal) => Err(refusal),
        }
    }

    /// What was opened and locked, if it is the file that was found, and this path is its own.
    #[tactic(auto, using(crate::proofs::Opening::never_moved))]
    fn locked(
        rt: &HostRuntime,
        path: PathBuf,
        file: File,
        found: &Found,
        asked: &mut HostCalls,
    ) -> Result<Held, NotReplaced>
        ensures own { IfOk result (λ held. IsOwn held path file found.now asked.old.events asked.new.events) }
        ensures refuses { IfErr result (λ refusal. IsUnopened (IsAnother (path_buf_bytes path) file found.now asked.old.events asked.new.events) refusal asked.new.events) }
        ensures asks { KeepsAsking asked.old.events asked.new.events }
    {
        let here = match found_of(&file, asked) {
            Ok(here) => here,
            Err(error) => return Err(unopened(error)),
        };
        match found_at(rt, path.as_str(), asked) {
            Ok(Some(there)) if is_one(found, &here, &there) => Ok(Held {
                file,
                path,
                rights: rights_of(&here),
                names: here.names,
            }),
            Ok(_) => Err(NotReplaced::Moved),
            Err(error) => Err(unopened(error)),
        }
    }

    /// The open file, to read it.
    pub fn file(&self) -> &File
        ensures { result.now ≡ self.now.file }
    {
        &self.file
    }
}
