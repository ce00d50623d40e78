//! What was done with the host's files and with the standard output, for clauses alone.

ghost use Rattle.std.specs.Prelude.{◌≡◌, ◌∷◌, Some, is_ok, string_bytes};
ghost use Rattle.host_paths.specs.Asked.{answer_of};
ghost use Rattle.file_acts.specs.Acts.{Knows, Prints, ReadsNothing, ReadsOnly, WritesNothing, bytes_read};
ghost use Rattle.file_acts.specs.Saved.{ShowsSaved};
ghost use Rattle.file_acts.specs.declared.acts.Act.TheVariants as act;

use crate::host::{Host, OUTPUT};
use crate::input::NotRead;
use crate::message::Problem;
use file_replace::{HeldCall, HeldCalls};
use fork_disk::store::PlainStore;
use fork_disk::{FileDisk, Record, World};
use host_paths::{Answer, Found, HostCall, HostCalls, Identity, found_over};
use new_folder::{FolderCalls, FolderNoted};
use std::collections::LinkedList;
use std::fs::File;
use std::io;
use std::io::Write;

/// Something that was done.
#[derive(Drop)]
pub enum Act {
    /// The file that this path leads to was to be read, or the standard input, which `-` is; and its bytes, if it was.
    Read(LinkedList<u8>, Option<LinkedList<u8>>),
    /// The same of so many bytes at its beginning.
    ReadFront(LinkedList<u8>, u64, Option<LinkedList<u8>>),
    /// The file that this path leads to was read in parts, by these calls on it; and which file of the world it was.
    ReadParts(LinkedList<u8>, u64, LinkedList<(LinkedList<u64>, LinkedList<u8>)>),
    /// This open file was to be read, and its bytes, if it was.
    ReadHeld(File, Option<LinkedList<u8>>),
    /// It was asked what this path leads to.
    Asked(LinkedList<u8>, Answer),
    /// It was asked which file this path leads to, by these calls.
    Identified(LinkedList<u8>, LinkedList<HostCall>),
    /// It was asked what is in the folder that this path leads to.
    Listed(LinkedList<u8>),
    /// These bytes were to be written to the standard output, and whether all of them were.
    Printed(LinkedList<u8>, bool),
    /// A file was opened to be written, prepared or put, by these calls.
    Saved(LinkedList<HeldCall>),
    /// Files were made in a folder, by these calls.
    Unpacked(LinkedList<(FolderNoted, LinkedList<u8>)>),
}

/// What was done, the newest first.
pub type Acts = Record<Act>;

/// Notes that a path was to be read.
pub(crate) fn note_read(acts: &mut Acts, path: &str, read: &Result<Vec<u8>, NotRead>)
    ensures { acts.new.events ≡ act.Read path.now (bytes_read read.now) ∷ acts.old.events }
{
    *acts = Record::of_events_beside(acts, &path, read);
}

/// Notes that the beginning of a file was to be read.
pub(crate) fn note_front(acts: &mut Acts, path: &str, most: u64, read: &Result<Vec<u8>, NotRead>)
    ensures { acts.new.events ≡ act.ReadFront path.now most (bytes_read read.now) ∷ acts.old.events }
{
    *acts = Record::of_events_beside(acts, &(path, most), read);
}

/// Notes that a file was read in parts.
pub fn note_parts<W: World>(acts: &mut Acts, path: &str, store: &PlainStore<FileDisk<W>>)
    ensures { acts.new.events ≡ act.ReadParts path.now store.now.disk.number store.now.disk.log.events ∷ acts.old.events }
{
    *acts = Record::of_events_beside(acts, &path, store);
}

/// Notes that an open file was to be read.
pub(crate) fn note_held(acts: &mut Acts, file: &File, read: &Result<Vec<u8>, NotRead>)
    ensures { acts.new.events ≡ act.ReadHeld file.now (bytes_read read.now) ∷ acts.old.events }
{
    *acts = Record::of_events_beside(acts, file, read);
}

/// Notes what a path leads to.
fn note_asked(acts: &mut Acts, path: &str, found: &io::Result<Option<Found>>)
    ensures { acts.new.events ≡ act.Asked path.now (answer_of found.now) ∷ acts.old.events }
{
    *acts = Record::of_events_beside(acts, &path, found);
}

/// Notes by which calls it was asked which file a path leads to.
fn note_identified(acts: &mut Acts, path: &str, calls: &HostCalls)
    ensures { acts.new.events ≡ act.Identified path.now calls.now.events ∷ acts.old.events }
{
    *acts = Record::of_events_beside(acts, &path, calls);
}

/// Notes that it was asked what is in a folder.
pub(crate) fn note_listed(acts: &mut Acts, path: &str)
    ensures { acts.new.events ≡ act.Listed path.now ∷ acts.old.events }
{
    *acts = Record::of_events_beside(acts, &path, &());
}

/// Notes what was to be written to the standard output.
fn note_printed(acts: &mut Acts, bytes: &[u8], done: &io::Result<()>)
    ensures { acts.new.events ≡ act.Printed bytes.now (is_ok done.now) ∷ acts.old.events }
{
    *acts = Record::of_events_beside(acts, &bytes, done);
}

/// Notes by which calls a file was opened to be written, prepared or put.
pub fn note_saved(acts: &mut Acts, calls: &HeldCalls)
    ensures { acts.new.events ≡ act.Saved calls.now.events ∷ acts.old.events }
{
    *acts = Record::of_events_beside(acts, calls, &());
}

/// Notes by which calls files were made in a folder.
pub fn note_unpacked(acts: &mut Acts, calls: &FolderCalls)
    ensures { acts.new.events ≡ act.Unpacked calls.now.events ∷ acts.old.events }
{
    *acts = Record::of_events_beside(acts, calls, &());
}

/// What a path leads to over links, if anything; an error where the system doesn't say.
pub fn look_at(host: &Host<'_>, path: &str, acts: &mut Acts) -> io::Result<Option<Found>>
    ensures asks { acts.new.events ≡ act.Asked path.now (answer_of result) ∷ acts.old.events }
    ensures quiet { ReadsOnly path.now acts.old.events acts.new.events }
    ensures seen { ShowsSaved acts.old.events acts.new.events }
{
    let found = found_over(host.rt, path, &mut HostCalls::new());
    note_asked(acts, path, &found);
    found
}

/// What the path of a file leads to. None of the standard input or output, and of a path that can't be looked up: such
/// a one can't be opened either.
pub fn identity_of(host: &Host<'_>, path: &str, acts: &mut Acts) -> Option<Identity>
    ensures asks { Knows path.now result acts.old.events acts.new.events }
    ensures quiet { WritesNothing acts.old.events acts.new.events }
    ensures seen { ShowsSaved acts.old.events acts.new.events }
{
    if path == OUTPUT {
        return None;
    }
    let mut calls = HostCalls::new();
    let identity = Identity::of_path(host.rt, path, &mut calls);
    note_identified(acts, path, &calls);
    match identity {
        Ok(identity) => Some(identity),
        Err(_) => None,
    }
}

/// Writes bytes to the standard output. An error where it doesn't take all of them.
pub fn write_out(host: &Host<'_>, bytes: &[u8], acts: &mut Acts) -> io::Result<()>
    ensures prints { acts.new.events ≡ act.Printed bytes.now (is_ok result) ∷ acts.old.events }
    ensures quiet { ReadsNothing acts.old.events acts.new.events }
{
    let done = host.output().write_all(bytes);
    note_printed(acts, bytes, &done);
    done
}

/// The same: `Problem::Print` where it doesn't take all of them.
pub fn print(host: &Host<'_>, bytes: &[u8], acts: &mut Acts) -> Result<(), Problem>
    ensures prints { Prints bytes.now result acts.old.events acts.new.events }
    ensures quiet { ReadsNothing acts.old.events acts.new.events }
{
    match write_out(host, bytes, acts) {
        Ok(()) => Ok(()),
        Err(error) => Err(Problem::Print(error)),
    }
}

/// The same of a text, in one piece.
pub fn write_text(host: &Host<'_>, text: &String, acts: &mut Acts) -> Result<(), Problem>
    ensures prints { Prints (string_bytes text.now) result acts.old.events acts.new.events }
    ensures quiet { ReadsNothing acts.old.events acts.new.events }
{
    print(host, text.as_bytes(), acts)
}
