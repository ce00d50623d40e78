//! The files of the host that were opened.

ghost use Rattle.std.specs.Prelude.{◌≡◌, ◌++◌, ◌∷◌, [], false};

use fork_disk::{HostFile, Record};
use host_paths::{Found, HostCalls};
use std::collections::LinkedList;
use std::io::ErrorKind;

/// A file of the host as it was opened. No sync of `settle` has failed.
#[derive(Drop)]
pub struct NewFile {
    pub file: HostFile,
    /// Which file it is, as it was found.
    pub id: Found,
    /// The calls of the system by which it was opened. Only clauses read them.
    pub calls: HostCalls,
    ghost unspent: { file.is_spent ≡ false },
}

/// Why the host doesn't open a file.
#[derive(Clone, Copy)]
pub enum NotOpened {
    /// There is no such folder.
    NoFolder,
    /// It is a folder.
    Folder,
    /// It may not be read, or not be made.
    Denied,
    /// It is missing where nothing can be made.
    ReadOnly,
    /// Another program has it open, and has locked it.
    InUse,
    /// A word before this one names the same file.
    Twice,
    /// The host has another reason.
    Other,
}

impl NotOpened {
    ghost use Rattle.std.specs.Prelude.{◌≡◌, ◌≢◌};
    ghost use Rattle.run_stores.specs.Opening.{because, reason};

    /// What an error of this kind says.
    pub fn because(kind: ErrorKind) -> NotOpened
        ensures kind { result ≡ because kind }
        ensures first { result ≢ NotOpened.Twice }
    {
        match kind {
            ErrorKind::NotFound | ErrorKind::NotADirectory => NotOpened::NoFolder,
            ErrorKind::IsADirectory => NotOpened::Folder,
            ErrorKind::PermissionDenied => NotOpened::Denied,
            ErrorKind::ReadOnlyFilesystem => NotOpened::ReadOnly,
            _ => NotOpened::Other,
        }
    }

    /// The reason, and what to do, after the name of the file.
    pub fn reason(self) -> &'static [u8]
        ensures { result.now ≡ reason self }
    {
        match self {
            NotOpened::NoFolder => b": there is no such folder; make it first\n",
            NotOpened::Folder => b": it is a folder; name a file\n",
            NotOpened::Denied =>
                b": permission denied; ask its owner for it, or name another file\n",
            NotOpened::ReadOnly =>
                b": it is missing, and nothing can be made there; name another file\n",
            NotOpened::InUse =>
                b": another program is at work on it; wait for its end, or name another file\n",
            NotOpened::Twice => b": a word before it names the same file; name another file\n",
            NotOpened::Other => b": the system refuses it; name another file\n",
        }
    }
}

/// Why a file isn't opened, and by which calls of the system that was found.
#[derive(Drop)]
pub struct Refusal {
    pub why: NotOpened,
    /// Only clauses read them.
    pub calls: HostCalls,
}

/// The paths that were asked for, with what each gave, the oldest first.
pub type OpenedFiles = Record<(LinkedList<u8>, Result<NewFile, Refusal>)>;

/// Notes that a path was asked for, and what it gave.
pub fn note(opened: &mut OpenedFiles, path: &str, file: &Result<NewFile, Refusal>)
    ensures { opened.new.events ≡ opened.old.events ++ (path.now, file.now) ∷ [] }
{
    *opened = Record::of_events_beside(opened, &path, file);
}
