//! The bytes of the file that is looked at.

ghost use Rattle.std.specs.Prelude.{◌≡◌, ◌∷◌, ◌≤◌, IfErr, IfOk, length};
ghost use Rattle.zone_view.specs.Reading.{IsReadFault, IsReading, Opens, answer_of, most_bytes};

use fork_disk::Record;
use host_paths::{Access, HostCalls, found_of, found_over, open};
use std::alloc::Global;
use std::collections::LinkedList;
use std::fs::File;
use std::io::{self, Read};
use std::marker::Model;
use thiserror::Error;

/// The most bytes of a file that are read, 1 GB: no Macintosh with these zones had as many.
const MOST: u64 = 1 << 30;

/// What a file gave that was to be read.
#[derive(Drop)]
pub enum ReadAnswer {
    /// All its bytes.
    Bytes(LinkedList<u8>),
    /// It has more than are read.
    TooLong,
    Failed,
}

/// The files that were to be read, the newest first. Only clauses read it.
pub type FileReads = Record<(File, ReadAnswer)>;

/// What was done with the host's files. Only clauses read it.
#[derive(Drop)]
pub struct Acts {
    calls: HostCalls,
    reads: FileReads,
}

impl Model for Acts {
    ghost use Rattle.zone_view.specs.Reading.{Acts};

    ghost Value = { Acts };

    ghost view = { λ a. record { calls = a.calls.events; reads = a.reads.events } };
}

impl Acts {
    ghost use Rattle.std.specs.Prelude.{[]};

    /// Nothing so far.
    pub fn new() -> Acts
        ensures { result ≡ record { calls = []; reads = [] } }
    {
        Acts {
            calls: HostCalls::new(),
            reads: FileReads::new(),
        }
    }
}

/// Why a file isn't read.
#[derive(Debug, Drop, Error)]
pub enum NotRead {
    /// There is none.
    #[error("there is no such file")]
    Missing,
    /// It is a pipe, a device, a folder or the like.
    #[error("it isn't a plain file")]
    NotPlain,
    /// It is longer than what is read.
    #[error("it has more than 1073741824 bytes")]
    TooLong,
    /// The system doesn't let it be found, opened or read, or the host has no memory for its bytes.
    #[error("it can't be read: {0}")]
    Failed(io::Error),
}

impl From<io::Error> for NotRead {
    ghost use Rattle.std.specs.Prelude.{◌≡◌};
    ghost use Rattle.zone_view.specs.declared.reading.NotRead.TheVariants.{Failed};

    ghost from_gives = { λ error why. why ≡ Failed error };

    fn from(error: io::Error) -> NotRead {
        NotRead::Failed(error)
    }
}

/// All bytes of an open file, into room for as many as it has and one more, for the read that finds the end.
fn read_file(alloc: Global, file: &File) -> io::Result<Vec<u8>> {
    let most = MOST + 1;
    let room = file.metadata()?.len().min(MOST) as usize + 1;
    let mut bytes = Vec::with_capacity(alloc, room)?;
    file.take(most).read_to_end(&mut bytes)?;
    Ok(bytes)
}

/// All bytes of an open file that has no more than are read.
fn read_within(alloc: Global, file: &File) -> Result<Vec<u8>, NotRead>
    ensures few { IfOk result (λ bytes. length bytes.items ≤ most_bytes) }
    ensures fault { IfErr result IsReadFault }
{
    let bytes = read_file(alloc, file)?;
    if bytes.len() as u64 > MOST {
        return Err(NotRead::TooLong);
    }
    Ok(bytes)
}

/// Notes that a file was to be read.
fn note_read(reads: &mut FileReads, file: &File, read: &Result<Vec<u8>, NotRead>)
    ensures { reads.new.events ≡ (file.now, answer_of read.now) ∷ reads.old.events }
{
    *reads = Record::of_events_beside(reads, file, read);
}

/// The bytes of an open file, noted.
fn read_noted(alloc: Global, file: &File, reads: &mut FileReads) -> Result<Vec<u8>, NotRead>
    ensures noted { reads.new.events ≡ (file.now, answer_of result) ∷ reads.old.events }
    ensures few { IfOk result (λ bytes. length bytes.items ≤ most_bytes) }
    ensures fault { IfErr result IsReadFault }
{
    let read = read_within(alloc, file);
    note_read(reads, file, &read);
    read
}

/// Opens the plain file of a path to be read. A pipe that nobody writes to would keep the opening waiting, so it is asked
/// first what the path leads to.
fn opened(rt: &HostRuntime, path: &str, calls: &mut HostCalls) -> Result<File, NotRead>
    ensures { Opens path.now result calls.old.events calls.new.events }
{
    let Some(there) = found_over(rt, path, calls)? else {
        return Err(NotRead::Missing);
    };
    if !there.is_regular() {
        return Err(NotRead::NotPlain);
    }
    let file = open(rt, path, Access::Read, calls)?;
    if !found_of(&file, calls)?.is_regular() {
        return Err(NotRead::NotPlain);
    }
    Ok(file)
}

/// All bytes of the file of a path. Just that file is opened, to be read, and only if it is a plain one.
pub fn read_path(rt: &HostRuntime, path: &str, acts: &mut Acts) -> Result<Vec<u8>, NotRead>
    ensures { IsReading path.now result acts.old acts.new }
{
    let file = opened(rt, path, &mut acts.calls)?;
    read_noted(rt.alloc(), &file, &mut acts.reads)
}
