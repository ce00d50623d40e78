//! The bytes of files, and the names in a folder.

ghost use Rattle.std.specs.Prelude.{◌≡◌, ◌≢◌, ◌∷◌, ◌<◌, ◌≤◌, ◌^◌, Err, IfErr, IfOk, IfSome, length};
ghost use Rattle.std.specs.IoError.{error_kind};
ghost use Rattle.file_acts.specs.Acts.{Reads, ReadsHeld, ReadsOnly, ReadsOther, bytes_read};
ghost use Rattle.file_acts.specs.Reading.{IsNotRead, IsToldUnread};
ghost use Rattle.file_acts.specs.Saved.{JustRead, ShowsSaved};
ghost use Rattle.file_acts.specs.declared.acts.Act.TheVariants as act;

use crate::acts::{Acts, note_front, note_held, note_listed, note_read};
use crate::host::Host;
use crate::message::Problem;
use fork_words::INPUT;
use path_text::FileName;
use std::alloc::{AllocError, Global};
use std::fs::File;
use std::io::{ErrorKind, Read};
use std::{fs, io};
use thiserror::Error;

/// Why the bytes of a file aren't read.
#[derive(Debug, Drop, Error)]
pub enum NotRead {
    /// The file fails, or the host has no memory.
    #[error("can't be read: {0}")]
    Failed(io::Error),
    /// There are more than these.
    #[error("is longer than the limit of {0} bytes; --limit SIZE reads more")]
    TooLong(u64),
}

impl From<io::Error> for NotRead {
    ghost use Rattle.std.specs.Prelude.{◌≡◌};
    ghost use Rattle.file_acts.specs.declared.input.NotRead.TheVariants as not_read;

    ghost from_gives = { λ error why. why ≡ not_read.Failed error };

    fn from(error: io::Error) -> NotRead {
        NotRead::Failed(error)
    }
}

/// All bytes that the reader gives. There is room for so many at first: where they are no more, none of them is moved.
fn read_all<R: Read + Drop>(alloc: Global, mut reader: R, expected: usize) -> io::Result<Vec<u8>>
    ensures all { IfOk result (λ bytes. IfSome (R.remaining reader) (λ all. bytes.items ≡ all)) }
    ensures retried { IfErr result (λ error. error_kind error ≢ ErrorKind.Interrupted) }
{
    let mut bytes = Vec::with_capacity(alloc, expected)?;
    reader.read_to_end(&mut bytes)?;
    Ok(bytes)
}

/// All bytes that the reader gives, if they are no more than these; of more, one is read that shows it.
fn read_within<R: Read + Drop>(
    alloc: Global,
    reader: R,
    expected: usize,
    most: u64,
) -> Result<Vec<u8>, NotRead>
    ensures all { IfOk result (λ bytes. IfSome (R.remaining reader) (λ all. (bytes.items ≡ all) × (length all ≤ most))) }
    ensures refused { IfErr result (IsNotRead (R.remaining reader) most) }
    ensures few { IfOk result (λ bytes. length bytes.items ≤ most) }
{
    let bytes = read_all(alloc, reader.take(most.saturating_add(1)), expected)?;
    if bytes.len() as u64 > most {
        return Err(NotRead::TooLong(most));
    }
    Ok(bytes)
}

/// All bytes of a file, if they are no more than these, into room for as many as it has and one more, for the read that
/// finds the end.
fn read_file(alloc: Global, file: &File, most: u64) -> Result<Vec<u8>, NotRead>
    ensures { IfOk result (λ bytes. length bytes.items ≤ most) }
{
    let found = file.metadata()?;
    if found.is_file() && found.len() > most {
        return Err(NotRead::TooLong(most));
    }
    let expected = (found.len() as usize).saturating_add(1);
    read_within(alloc, file, expected, most)
}

/// The bytes of what this path leads to, or of the standard input, if they aren't too many.
fn read_path(host: &Host<'_>, path: &str) -> Result<Vec<u8>, NotRead>
    ensures { IfOk result (λ bytes. length bytes.items ≤ host.now.limit) }
{
    if path == INPUT {
        return read_within(host.alloc(), host.rt.stdin(), 0, host.limit);
    }
    read_file(host.alloc(), &fs::open(host.rt, path)?, host.limit)
}

/// The same, noted.
fn read_whole(host: &Host<'_>, path: &str, acts: &mut Acts) -> Result<Vec<u8>, NotRead>
    ensures notes { acts.new.events ≡ act.Read path.now (bytes_read result) ∷ acts.old.events }
    ensures few { IfOk result (λ bytes. length bytes.items ≤ host.now.limit) }
    ensures quiet { ReadsOnly path.now acts.old.events acts.new.events }
{
    let read = read_path(host, path);
    note_read(acts, path, &read);
    read
}

/// The bytes of the file of this name, or of the standard input, which `-` is. `Problem::Read` where a call fails, the
/// host has no memory, or there are more bytes than the host's limit.
pub fn read(host: &Host<'_>, file: &str, acts: &mut Acts) -> Result<Vec<u8>, Problem>
    ensures reads { Reads file.now result acts.old.events acts.new.events }
    ensures few { IfOk result (λ bytes. length bytes.items ≤ host.now.limit) }
    ensures quiet { ReadsOnly file.now acts.old.events acts.new.events }
    ensures seen { ShowsSaved acts.old.events acts.new.events }
{
    match read_whole(host, file, acts) {
        Ok(bytes) => Ok(bytes),
        Err(error) => Err(Problem::Read(error)),
    }
}

/// The same of a file that belongs to another, with its path in the problem: `Problem::Unread`.
pub fn read_other(host: &Host<'_>, path: &str, acts: &mut Acts) -> Result<Vec<u8>, Problem>
    ensures reads { ReadsOther path.now result acts.old.events acts.new.events }
    ensures few { IfOk result (λ bytes. length bytes.items ≤ host.now.limit) }
    ensures quiet { ReadsOnly path.now acts.old.events acts.new.events }
    ensures seen { ShowsSaved acts.old.events acts.new.events }
{
    match read_whole(host, path, acts) {
        Ok(bytes) => Ok(bytes),
        Err(error) => Err(unread(host.alloc(), path, error)),
    }
}

/// The bytes of a file that is held. `Problem::Read` comes as above.
pub fn read_held(host: &Host<'_>, file: &File, acts: &mut Acts) -> Result<Vec<u8>, Problem>
    ensures reads { ReadsHeld file.now result acts.old.events acts.new.events }
    ensures few { IfOk result (λ bytes. length bytes.items ≤ host.now.limit) }
    ensures just { IfOk result (λ bytes. JustRead bytes.items acts.new.events) }
    ensures seen { ShowsSaved acts.old.events acts.new.events }
{
    let read = read_file(host.alloc(), file, host.limit);
    note_held(acts, file, &read);
    match read {
        Ok(bytes) => Ok(bytes),
        Err(error) => Err(Problem::Read(error)),
    }
}

/// The bytes of the file of a path, or of its beginning where they are more than so many. What is no file, as a pipe, is
/// refused before it is opened, and so is a file that is longer than the limit.
fn read_beginning(host: &Host<'_>, path: &str, most: u64) -> Result<Vec<u8>, NotRead> {
    let found = fs::metadata(host.rt, path)?;
    if !found.is_file() {
        return Err(NotRead::Failed(io::Error::new(
            ErrorKind::InvalidInput,
            "it is no regular file",
        )));
    }
    if found.len() > host.limit {
        return Err(NotRead::TooLong(host.limit));
    }
    let file = fs::open(host.rt, path)?;
    Ok(read_all(host.alloc(), file.take(most), 0)?)
}

/// The same, noted.
pub fn read_front(
    host: &Host<'_>,
    path: &str,
    most: u64,
    acts: &mut Acts,
) -> Result<Vec<u8>, NotRead>
    ensures notes { acts.new.events ≡ act.ReadFront path.now most (bytes_read result) ∷ acts.old.events }
    ensures quiet { ReadsOnly path.now acts.old.events acts.new.events }
    ensures seen { ShowsSaved acts.old.events acts.new.events }
{
    let read = read_beginning(host, path, most);
    note_front(acts, path, most, &read);
    read
}

/// That a file which belongs to another isn't read: `Problem::Unread`, or `HostFull` without memory for its path.
pub fn unread(alloc: Global, path: &str, error: NotRead) -> Problem
    ensures { IsToldUnread result }
{
    let path = FileName(path);
    match format!(in alloc; "{path}") {
        Ok(path) => Problem::Unread { path, error },
        Err(_) => Problem::HostFull,
    }
}

/// What is in a folder, by name, but for what begins with a dot.
fn names_at(host: &Host<'_>, path: &str) -> io::Result<Vec<String>> {
    let alloc = host.alloc();
    let mut names = Vec::new(alloc);
    for entry in fs::read_dir(host.rt, path)? {
        let entry = entry?;
        let name = entry.file_name();
        if !name.starts_with(".") {
            let name = String::from_str(alloc, name)?;
            names.push(name).map_err(AllocError::from)?;
        }
    }
    Ok(names)
}

/// The same, noted.
pub fn names_in(host: &Host<'_>, path: &str, acts: &mut Acts) -> Result<Vec<String>, Problem>
    ensures notes { acts.new.events ≡ act.Listed path.now ∷ acts.old.events }
    ensures quiet { ReadsOnly path.now acts.old.events acts.new.events }
    ensures seen { ShowsSaved acts.old.events acts.new.events }
{
    let names = names_at(host, path);
    note_listed(acts, path);
    match names {
        Ok(names) => Ok(names),
        Err(error) => Err(unread(host.alloc(), path, NotRead::Failed(error))),
    }
}
