//! What a path leads to, whatever it is called.

ghost use Rattle.std.specs.Prelude.{◌≡◌, IfOk};
ghost use Rattle.host_paths.specs.Identified.{Identifies, Names};

use crate::host::{Found, HostCalls, found_over};
use crate::links::{folder_name, follow};
use std::io;

/// What a path leads to, over links: two paths of one identity lead to the same file.
#[derive(Debug, PartialEq, Eq, Drop)]
pub struct Identity {
    /// The device of what is there, or of the folder in which it would be.
    device: u64,
    /// Its number on that device.
    number: u64,
    /// The name in that folder, where there is nothing so far.
    name: Option<String>,
}

impl Identity {
    /// The same of what was found, or of a name in it.
    fn of(found: &Found, name: Option<String>) -> Identity
        ensures { result ≡ record { device = found.now.device; number = found.now.number; name = name } }
    {
        Identity {
            device: found.device,
            number: found.number,
            name,
        }
    }

    /// What a path leads to: a file or something else, or a place for one in a folder. It fails where the system
    /// doesn't let the path be looked up, and where there is no such folder. What was asked is noted.
    pub fn of_path(rt: &HostRuntime, path: &str, log: &mut HostCalls) -> io::Result<Identity>
        ensures { IfOk result (λ it. Identifies path.now it log.old.events log.new.events) }
    {
        match found_over(rt, path, log)? {
            Some(found) => Ok(Identity::of(&found, None)),
            None => Identity::of_new(rt, path, log),
        }
    }

    /// What a path leads to at which there is nothing so far.
    fn of_new(rt: &HostRuntime, path: &str, log: &mut HostCalls) -> io::Result<Identity>
        ensures { IfOk result (λ it. Names path.now it log.old.events log.new.events) }
    {
        let path = follow(rt, path, log)?;
        let Some(folder) = found_over(rt, folder_name(&path), log)? else {
            return Err(io::ErrorKind::NotFound.into());
        };
        let Some(name) = path.file_name() else {
            return Err(io::ErrorKind::InvalidFilename.into());
        };
        let name = String::from_str(rt.alloc(), name)?;
        Ok(Identity::of(&folder, Some(name)))
    }
}
