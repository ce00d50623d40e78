//! Why a file wasn't replaced, as it is reported.

ghost use Rattle.std.specs.Prelude.{◌≡◌};
ghost use Rattle.file_replace.specs.declared.told.NotReplaced.TheVariants.{HostFull};

use crate::replacement::Step;
use crate::stop::Stop;
use path_text::FileName;
use std::alloc::AllocError;
use std::error::Error;
use std::fmt::{Display, Formatter, Write};
use std::path::PathBuf;
use std::{fmt, io};

/// Writes what is reported, with these words before and after it.
fn put_between<W: Write, D: Display>(
    f: &mut Formatter<W>,
    before: &str,
    told: &D,
    following: &str,
) -> fmt::Result {
    write!(f, "{before}{told}{following}")
}

/// Why a file has not been replaced, or not for good. Its text says what failed and why, what there is now, and what to
/// do.
#[derive(Debug, Drop)]
pub enum NotReplaced {
    /// The file can't be opened to be changed.
    Open(io::Error),
    /// It is no regular file, so no other can be renamed over it.
    NotAFile,
    /// Another program holds its lock.
    InUse,
    /// Another program put something else at its path while it was opened.
    Moved,
    /// A step of the replacement failed.
    Stopped(Stop),
    /// A step of writing the backup failed: the file wasn't changed.
    NoBackup { name: PathBuf, stop: Stop },
    /// It is no regular file, and the bytes couldn't be written to it as a whole.
    Stream(io::Error),
    /// The host has no memory. Nothing was written.
    HostFull,
}

/// What is said before and after the error of a step.
fn words_of_step(step: Step) -> (&'static str, &'static str) {
    match step {
        Step::Create => (
            "no new file can be made beside it: ",
            "; name another file with -o",
        ),
        Step::Write | Step::SetOwner | Step::SetMode | Step::Sync => {
            ("the new file can't be written: ", "")
        }
        Step::Check => ("another program has just replaced it: ", "; try again"),
        Step::Rename => (
            "the new file can't be renamed to it: ",
            "; name another file with -o",
        ),
        Step::SyncFolder => (
            "its folder can't be synced: ",
            "; if the machine stops now, the old file may be back",
        ),
    }
}

/// Writes which file was left, where one was.
pub(crate) fn put_left<W: Write>(left: &Option<PathBuf>, f: &mut Formatter<W>) -> fmt::Result {
    match left {
        Some(path) => put_between(
            f,
            "; ",
            &FileName(path.as_str()),
            " was left, and can be removed",
        ),
        None => Ok(()),
    }
}

impl Stop {
    /// What failed, why, and what to do.
    fn put<W: Write>(&self, f: &mut Formatter<W>) -> fmt::Result {
        let (before, following) = words_of_step(self.step);
        put_between(f, before, &self.error, following)?;
        put_left(&self.left, f)
    }

    /// The same of the file that was to be replaced, and whether it is changed.
    fn put_of_file<W: Write>(&self, f: &mut Formatter<W>) -> fmt::Result {
        f.write_str(match self.step {
            Step::SyncFolder => "changed, but ",
            _ => "not changed: ",
        })?;
        self.put(f)
    }

    /// The same of its backup, which was to have this name.
    fn put_of_backup<W: Write>(&self, name: &PathBuf, f: &mut Formatter<W>) -> fmt::Result {
        put_between(
            f,
            "not changed: at its backup ",
            &FileName(name.as_str()),
            ", ",
        )?;
        self.put(f)
    }
}

impl Display for NotReplaced {
    fn fmt<W: Write>(&self, f: &mut Formatter<W>) -> fmt::Result {
        match self {
            NotReplaced::Open(error) => put_between(
                f,
                "not changed: it can't be opened for that: ",
                error,
                "; name another file with -o",
            ),
            NotReplaced::NotAFile => f.write_str(
                "not changed: it is no regular file, and only those are replaced as a whole; name another file with -o",
            ),
            NotReplaced::InUse => {
                f.write_str("not changed: another program is at work on it; try again after that")
            }
            NotReplaced::Moved => {
                f.write_str("not changed: another program has just replaced it; try again")
            }
            NotReplaced::Stopped(stop) => stop.put_of_file(f),
            NotReplaced::NoBackup { name, stop } => stop.put_of_backup(name, f),
            NotReplaced::Stream(error) => { put_between(f, "not written as a whole: ", error, "") }
            NotReplaced::HostFull => f.write_str("not changed: the host has no memory"),
        }
    }
}

impl Error for NotReplaced {}

impl From<AllocError> for NotReplaced {
    ghost from_gives = { λ _ refusal. refusal ≡ HostFull };

    fn from(_: AllocError) -> NotReplaced {
        NotReplaced::HostFull
    }
}
