//! The new file that is made beside a path, and what killed programs left of such.

ghost use Rattle.std.specs.Prelude.{◌≡◌, ◌∷◌, ◌++◌, codes, IfOk, IfSome, Some, is_ok};
ghost use Rattle.std.specs.Bool.{OnFalse, OnTrue};
ghost use Rattle.std.specs.Char.{is_ascii_digit};
ghost use Rattle.std.specs.List.{list_all};
ghost use Rattle.std.specs.Path.{path_buf_bytes};
ghost use Rattle.host_paths.specs.Left.{AreUsers, IsLeft, IsNewName, KeepsSwept, MayHaveGiven, OnlyBeside, RemovesNone, is_number, is_of_users, last_name};
ghost use Rattle.host_paths.specs.Made.{IsOthers, IsOurs, MakesAt, MakesBeside, file_of, mode_of, path_of};
ghost use Rattle.host_paths.specs.Naming.{IsMadePath, path_beside};
ghost use Rattle.host_paths.specs.declared.host.HostCall.TheVariants.{Remove, Rename};

use crate::host::{
    Access, Found, HostCalls, Locking, found_at, found_of, lock, make, open, remove, rename,
    this_user,
};
use crate::links::{folder_name, leads_to};
use crate::made_path::{AFTER_NUMBER, BEFORE_NUMBER, MadePath};
use std::fs::File;
use std::io::ErrorKind;
use std::path::PathBuf;
use std::{fs, io};

/// How many names are tried for the new file, and how many files that may have been left are looked at.
const MOST_NAMES: u32 = 1000;

/// How many names of a folder are read.
const MOST_ENTRIES: usize = 100_000;

/// The user who may give a file away.
const ROOT: u32 = 0;

/// A file that was made beside a path, open and locked. When it is dropped it is removed.
pub struct Beside<'a> {
    rt: &'a HostRuntime,
    file: File,
    path: MadePath,
}

impl Drop for Beside<'_> {
    fn drop(self) {
        let Beside { rt, file: _, path } = self;
        let _ = fs::remove_file(rt, path.as_str());
    }
}

/// The number in the name of a file that is made beside another, if it is such a name.
fn number_in(name: &[u8]) -> Option<&[u8]>
    ensures { IfSome result (λ digits. name.now ≡ codes ".resfork-" ++ digits.now ++ codes ".new") }
{
    match name.strip_prefix(BEFORE_NUMBER.as_bytes()) {
        Some(rest) => rest.strip_suffix(AFTER_NUMBER.as_bytes()),
        None => None,
    }
}

/// Whether each of these bytes is a digit.
fn are_digits(bytes: &[u8]) -> bool
    ensures { result ≡ list_all is_ascii_digit bytes.now }
{
    bytes.iter().all(|byte| byte.is_ascii_digit())
}

/// Whether a text is a number.
fn is_number(text: &[u8]) -> bool
    ensures { result ≡ is_number text.now }
{
    text.len() != 0 && are_digits(text)
}

/// Whether a file of this name is made beside another.
fn is_new_name(name: &str) -> bool
    ensures { OnTrue result (IsNewName name.now) }
{
    match number_in(name.as_bytes()) {
        Some(number) => is_number(number),
        None => false,
    }
}

/// The owner that root's new file may have got: that of the file which is to be replaced.
fn given_owner(rt: &HostRuntime, path: &PathBuf, user: u32, log: &mut HostCalls) -> Option<u32>
    ensures { MayHaveGiven (path_buf_bytes path.now) user result log.old.events log.new.events }
{
    if user != ROOT {
        return None;
    }
    match found_at(rt, path.as_str(), log) {
        Ok(Some(found)) => Some(found.user),
        _ => None,
    }
}

/// The users of whom files are removed that were left beside a path: the one of this process, and the owner that root's
/// new file may have got.
fn users_at(rt: &HostRuntime, path: &PathBuf, log: &mut HostCalls) -> Option<(u32, Option<u32>)>
    ensures { AreUsers (path_buf_bytes path.now) result log.old.events log.new.events }
{
    match this_user(rt, log) {
        Ok(user) => Some((user, given_owner(rt, path, user, log))),
        Err(_) => None,
    }
}

/// Whether it is a regular file of one of these users.
fn is_of_users(found: &Found, users: (u32, Option<u32>)) -> bool
    ensures { result ≡ is_of_users found.now users }
{
    found.is_regular() && (found.user == users.0 || Some(found.user) == users.1)
}

/// Opens and locks a file that was left: a regular one of one of these users, of which no process holds the lock, and
/// whose path is its own.
fn left_at(
    rt: &HostRuntime,
    path: &str,
    users: (u32, Option<u32>),
    log: &mut HostCalls,
) -> io::Result<Option<File>>
    ensures left { IfOk result (λ left. IfSome left (λ file. IsLeft path.now users file log.old.events log.new.events)) }
    ensures kept { RemovesNone log.old.events log.new.events }
{
    let Some(found) = found_at(rt, path, log)? else {
        return Ok(None);
    };
    if !is_of_users(&found, users) {
        return Ok(None);
    }
    let file = open(rt, path, Access::Read, log)?;
    let here = found_of(&file, log)?;
    let locking = lock(&file, log)?;
    if here.is_same(&found) && locking == Locking::Taken && leads_to(rt, path, &file, log)? {
        Ok(Some(file))
    } else {
        Ok(None)
    }
}

/// Removes a file that was left.
fn remove_left(
    rt: &HostRuntime,
    path: &str,
    users: (u32, Option<u32>),
    log: &mut HostCalls,
) -> io::Result<()>
    requires { IsNewName (last_name path.now) }
    ensures { KeepsSwept (Some users) log.old.events log.new.events }
{
    match left_at(rt, path, users, log)? {
        Some(_file) => remove(rt, path, log),
        None => Ok(()),
    }
}

/// Removes the new files that killed programs of these users left in a folder.
fn sweep_folder(rt: &HostRuntime, folder: &str, users: (u32, Option<u32>), log: &mut HostCalls)
    ensures { KeepsSwept (Some users) log.old.events log.new.events }
{
    let Ok(entries) = fs::read_dir(rt, folder) else {
        return;
    };
    let mut looked_at = 0;
    for entry in entries.take(MOST_ENTRIES) {
        let Ok(entry) = entry else {
            continue;
        };
        if looked_at < MOST_NAMES && is_new_name(entry.file_name()) {
            looked_at += 1;
            let _ = remove_left(rt, entry.path().as_str(), users, log);
        }
    }
}

/// Removes the new files that killed programs of this user left in the folder of a path. Where the folder can't be
/// read, and where no user is known, none is removed.
fn sweep(rt: &HostRuntime, path: &PathBuf, log: &mut HostCalls)
    ensures { OnlyBeside (path_buf_bytes path.now) log.old.events log.new.events }
{
    match users_at(rt, path, log) {
        Some(users) => sweep_folder(rt, folder_name(path), users, log),
        None => {}
    }
}

/// Whether a new file is this program's still. Another one that removes what was left may have come before it was
/// locked: it holds the lock then, or the path doesn't lead to this file. Where a file can't be locked at all, no
/// program removes it.
fn is_ours(rt: &HostRuntime, path: &str, file: &File, log: &mut HostCalls) -> bool
    ensures ours { OnTrue result (IsOurs path.now file.now log.old.events log.new.events) }
    ensures others { OnFalse result (IsOthers path.now file.now log.old.events log.new.events) }
    ensures kept { RemovesNone log.old.events log.new.events }
{
    match lock(file, log) {
        Ok(Locking::Taken) => match leads_to(rt, path, file, log) {
            Ok(is) => is,
            Err(_) => true,
        },
        Ok(Locking::Busy) => false,
        Ok(Locking::NotOffered) | Err(_) => true,
    }
}

/// The mode with which a new file is made.
fn mode_of(is_private: bool) -> u32
    ensures { result ≡ mode_of is_private }
{
    if is_private { 0o600 } else { 0o666 }
}

impl<'a> Beside<'a> {
    /// Makes an empty file beside a path, at a name that no file has, and locks it. What killed programs left there is
    /// removed first.
    pub fn make(
        rt: &'a HostRuntime,
        path: &PathBuf,
        is_private: bool,
        log: &mut HostCalls,
    ) -> io::Result<Beside<'a>>
        ensures made { IfOk result (λ beside. MakesBeside (path_buf_bytes path.now) is_private beside log.new.events) }
        ensures only { OnlyBeside (path_buf_bytes path.now) log.old.events log.new.events }
    {
        sweep(rt, path, log);
        for number in 0..MOST_NAMES {
            if let Some(beside) = Beside::make_at(rt, path, number, is_private, log)? {
                return Ok(beside);
            }
        }
        Err(ErrorKind::AlreadyExists.into())
    }

    /// Makes an empty file beside a path, by its number, and locks it. None where there is one already, and where
    /// another process took it before it was locked.
    fn make_at(
        rt: &'a HostRuntime,
        path: &PathBuf,
        number: u32,
        is_private: bool,
        log: &mut HostCalls,
    ) -> io::Result<Option<Beside<'a>>>
        ensures made { MakesAt is_private (path_beside (path_buf_bytes path.now) number) result log.old.events log.new.events }
        ensures kept { RemovesNone log.old.events log.new.events }
    {
        let path = MadePath::beside(rt, path, number)?;
        let file = match make(rt, path.as_str(), mode_of(is_private), log) {
            Ok(file) => file,
            Err(error) if error.kind() == ErrorKind::AlreadyExists => return Ok(None),
            Err(error) => return Err(error),
        };
        if !is_ours(rt, path.as_str(), &file, log) {
            return Ok(None);
        }
        Ok(Some(Beside { rt, file, path }))
    }

    /// The open file.
    pub fn file(&self) -> &File
        ensures { result.now ≡ file_of self.now }
    {
        &self.file
    }

    /// Renames it to a path. It is at its own still where that fails.
    pub fn rename(&self, to: &PathBuf, log: &mut HostCalls) -> io::Result<()>
        ensures { log.new.events ≡ Rename (path_of self.now) (path_buf_bytes to.now) (is_ok result) ∷ log.old.events }
    {
        rename(self.rt, self.path.as_str(), to.as_str(), log)
    }

    /// Removes it, if it is there.
    pub fn remove(&self, log: &mut HostCalls) -> io::Result<()>
        ensures { log.new.events ≡ Remove (path_of self.now) (is_ok result) ∷ log.old.events }
    {
        remove(self.rt, self.path.as_str(), log)
    }

    /// The path at which it was made. Nothing there is removed.
    pub fn into_path(self) -> PathBuf
        ensures same { path_buf_bytes result ≡ path_of self.entry }
        ensures made { ∥ IsMadePath (path_buf_bytes result) ∥₁ }
    {
        let Beside {
            rt: _,
            file: _,
            path,
        } = self;
        path.into_path()
    }
}
