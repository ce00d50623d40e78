//! Where a path leads.

ghost use Rattle.std.specs.IoError.{error_kind};
ghost use Rattle.std.specs.Prelude.{◌≡◌, ◌⊎◌, ℕ, List, [], ◌∷◌, Ok, Err, unwrap_or, IfOk, IfErr, OnErr};
ghost use Rattle.std.specs.Path.{path_buf_bytes, path_bytes, path_parent};
ghost use Rattle.host_paths.specs.Asked.{AsksBoth, CantTell, KeepsAsking, LeadsTo, folder_name};
ghost use Rattle.host_paths.specs.Following.{CantFollow, Follows, after_link, is_link_found};
ghost use Rattle.std.specs.declared.io.ErrorKind.TheVariants.{OutOfMemory};
ghost use Rattle.host_paths.specs.declared.host.HostCall.TheVariants.{ReadLink};

use crate::host::{Found, HostCalls, found_at, found_of, link_at};
use std::fs::File;
use std::io;
use std::path::{Path, PathBuf};

/// How many links a path may lead over, as Linux counts them.
const MOST_LINKS: u32 = 40;

/// The folder of a file.
pub(crate) fn folder_of<'a>(path: &'a PathBuf) -> Path<'a>
    ensures { path_bytes result ≡ unwrap_or (path_parent (path_buf_bytes path.now)) [] }
{
    match path.parent() {
        Some(folder) => folder,
        None => Path::new(""),
    }
}

/// The name of a file's folder, as it is opened.
pub fn folder_name<'a>(path: &'a PathBuf) -> &'a str
    ensures { result.now ≡ folder_name (path_buf_bytes path.now) }
{
    let folder = folder_of(path).as_str();
    if folder.as_bytes() == b"".as_slice() {
        "."
    } else {
        folder
    }
}

/// Whether a path is that of this open file. A link is not followed.
pub fn leads_to(rt: &HostRuntime, path: &str, file: &File, log: &mut HostCalls) -> io::Result<bool>
    ensures leads { IfOk result (λ is. LeadsTo path.now file.now is log.old.events log.new.events) }
    ensures asks { AsksBoth path.now file.now log.old.events log.new.events }
    ensures fails { OnErr result (CantTell path.now file.now log.old.events log.new.events) }
{
    match found_at(rt, path, log)? {
        Some(there) => Ok(there.is_same(&found_of(file, log)?)),
        None => Ok(false),
    }
}

/// The path that the link at a path names.
fn after_link(rt: &HostRuntime, path: &PathBuf, log: &mut HostCalls) -> io::Result<PathBuf>
    ensures after { IfOk result (λ next. (named : List ℕ) × (path_buf_bytes next ≡ after_link (path_buf_bytes path.now) named)
        × (log.new.events ≡ ReadLink (path_buf_bytes path.now) (Ok named) ∷ log.old.events)) }
    ensures fails { IfErr result (λ error. (log.new.events ≡ ReadLink (path_buf_bytes path.now) (Err (error_kind error)) ∷ log.old.events)
        ⊎ ((named : List ℕ) × (log.new.events ≡ ReadLink (path_buf_bytes path.now) (Ok named) ∷ log.old.events) × (error_kind error ≡ OutOfMemory))) }
    ensures asks { KeepsAsking log.old.events log.new.events }
{
    let named = link_at(rt, path.as_str(), log)?;
    Ok(folder_of(path).join(rt.alloc(), named.as_str())?)
}

/// Whether what was found at a path is a link.
fn is_link_found(found: &Option<Found>) -> bool
    ensures { result ≡ is_link_found found.now }
{
    match found {
        Some(found) => found.is_link(),
        None => false,
    }
}

/// The path of the file that this path leads to, over links. There may be no file. What was asked is noted.
pub fn follow(rt: &HostRuntime, path: &str, log: &mut HostCalls) -> io::Result<PathBuf>
    ensures follows { IfOk result (λ to. Follows path.now (path_buf_bytes to) log.old.events log.new.events) }
    ensures fails { IfErr result (λ error. CantFollow path.now (error_kind error) log.old.events log.new.events) }
    ensures asks { KeepsAsking log.old.events log.new.events }
{
    let mut here = PathBuf::from_str(rt.alloc(), path)?;
    for _turn in 0..MOST_LINKS {
        let found = found_at(rt, here.as_str(), log)?;
        if !is_link_found(&found) {
            return Ok(here);
        }
        here = after_link(rt, &here, log)?;
    }
    Err(io::ErrorKind::FilesystemLoop.into())
}

/// The same, for one who needs no note of it.
pub fn followed(rt: &HostRuntime, path: &str) -> io::Result<PathBuf> {
    follow(rt, path, &mut HostCalls::new())
}
