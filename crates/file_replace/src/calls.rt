//! The calls that were made at a path of the host, for clauses alone.

ghost use Rattle.std.specs.Prelude.{◌≡◌, [], ◌∷◌};
ghost use Rattle.std.specs.Path.{path_buf_bytes};
ghost use Rattle.file_replace.specs.declared.calls.HeldCall.TheVariants as held;
ghost use Rattle.file_replace.specs.declared.calls.HeldCall.TheVariants.{Asked, OpenFolder, Put};

use crate::place::FolderSync;
use crate::prepared::Stream;
use crate::rights::Owner;
use fork_disk::Record;
use host_paths::{HostCall, HostCalls, StreamCalls};
use std::collections::LinkedList;

/// A call of the system at a path, or on the file beside it.
#[derive(Clone, Copy)]
pub enum Call {
    /// It made the file beside, and whether its owner alone can read that until it gets its mode.
    Create(bool),
    /// It wrote to the end of it.
    Write,
    /// It was to give it this owner, and it has the second then.
    SetOwner(Owner, Owner),
    /// It gave it this mode.
    SetMode(u32),
    /// It synced it.
    Sync,
    /// It asked whether the path still leads to what it led to.
    Check,
    /// It renamed it to the path.
    Rename,
    /// It was to sync the folder, and this was answered.
    SyncFolder(FolderSync),
    /// It removed the file beside.
    Remove,
}

/// A call, and whether it was done.
#[derive(Clone, Copy)]
pub struct Noted {
    pub call: Call,
    pub is_done: bool,
}

/// The calls with their answers, the newest first, and the bytes that were given to each.
pub type PlaceCalls = Record<(Noted, LinkedList<u8>)>;

/// What a path has to have when a file is renamed to it.
#[derive(Clone, Copy, Debug, PartialEq, Eq)]
pub enum Wanted {
    /// The file that was opened there.
    Same,
    /// Nothing, not even a link.
    Nothing,
    /// Whatever is there.
    Anything,
}

/// What was done for a file.
#[derive(Drop)]
pub enum HeldCall {
    /// A path was opened to be written, or was to be, by these calls.
    Asked(LinkedList<HostCall>),
    /// It was to open the folder in which a file is put, where the path has this, and whether it did.
    OpenFolder(Wanted, bool),
    /// A file was put at this path, or was to be, by these calls.
    Put(LinkedList<u8>, LinkedList<(Noted, LinkedList<u8>)>),
    /// These bytes were to be written to what this path led to, no regular file, and whether they were.
    Stream(LinkedList<u8>, bool, LinkedList<u8>),
}

/// What was done for a file, the newest first.
pub type HeldCalls = Record<HeldCall>;

/// Notes the calls that a file took, and at which path.
pub(crate) fn note_at(log: &mut HeldCalls, path: &str, calls: &PlaceCalls)
    ensures { log.new.events ≡ Put path.now calls.now.events ∷ log.old.events }
{
    *log = Record::of_events_beside(log, &path, calls);
}

/// Notes whether the folder was opened in which a file is put, and what its path has to have then.
pub(crate) fn note_folder(log: &mut HeldCalls, wanted: Wanted, is_done: bool)
    ensures { log.new.events ≡ OpenFolder wanted is_done ∷ log.old.events }
{
    *log = Record::of_events_beside(log, &wanted, &is_done);
}

/// Notes by which calls a path was opened.
pub(crate) fn note_asked(log: &mut HeldCalls, asked: &HostCalls)
    ensures { log.new.events ≡ Asked asked.now.events ∷ log.old.events }
{
    *log = Record::of_events_beside(log, asked, &());
}

/// Notes what was to be written to what is no regular file, and by which path that was opened, by this call of the host.
pub(crate) fn note_stream(
    log: &mut HeldCalls,
    is_done: bool,
    stream: &Stream<'_>,
    _calls: &StreamCalls,
)
    requires { _calls.now.events ≡ record { file = stream.now.to.file; bytes = stream.now.bytes.now; is_done = is_done } ∷ [] }
    ensures { log.new.events ≡ held.Stream (path_buf_bytes stream.now.to.path) is_done stream.now.bytes.now ∷ log.old.events }
{
    *log = Record::of_events_beside(log, &is_done, stream);
}

/// Notes a call with its answer.
pub(crate) fn note(calls: &mut PlaceCalls, noted: Noted, bytes: &[u8])
    ensures { calls.new.events ≡ (noted, bytes.now) ∷ calls.old.events }
{
    *calls = Record::of_events_beside(calls, &noted, &bytes);
}
