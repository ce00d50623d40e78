//! The calls that were made in a folder, for clauses alone.

ghost use Rattle.std.specs.Prelude.{◌≡◌, [], ◌∷◌, Some, option_map};
ghost use Rattle.host_paths.specs.declared.host.HostCall.TheVariants as host;
ghost use Rattle.new_folder.specs.NewFolder.{event, path_below};

use fork_disk::Record;
use host_paths::HostCalls;
use std::collections::LinkedList;
use std::fs::File;

/// A call of the system in a folder that is written to.
#[derive(Clone, Copy)]
pub enum FolderCall {
    /// It made the folder or found an empty one, and opened it.
    Begin,
    /// It made a folder in it that wasn't there.
    MakeFolder,
    /// It opened that one.
    OpenFolder,
    /// It made a file that wasn't there.
    MakeFile,
    /// It wrote to the end of that one.
    Write,
}

/// A call, and whether it was done.
#[derive(Clone, Copy)]
pub struct FolderNoted {
    pub call: FolderCall,
    pub is_done: bool,
}

/// The calls with their answers, the newest first; and which path each was given, or which bytes.
pub type FolderCalls = Record<(FolderNoted, LinkedList<u8>)>;

/// Notes a call with its answer, and the bytes that it was given.
pub(crate) fn note(log: &mut FolderCalls, noted: FolderNoted, bytes: &[u8])
    ensures { log.new.events ≡ (noted, bytes.now) ∷ log.old.events }
{
    *log = Record::of_events_beside(log, &noted, &bytes);
}

/// Notes that these bytes were to be written to a file, by this call of the host.
pub(crate) fn note_written(
    log: &mut FolderCalls,
    is_done: bool,
    _file: &File,
    bytes: &[u8],
    _calls: &HostCalls,
)
    requires { _calls.now.events ≡ host.Write _file.now bytes.now is_done ∷ [] }
    ensures { log.new.events ≡ event FolderCall.Write is_done bytes.now ∷ log.old.events }
{
    let call = FolderCall::Write;
    note(log, FolderNoted { call, is_done }, bytes);
}

/// Notes a call with its answer, and what it was given: a name in a folder of this name.
fn note_in(log: &mut FolderCalls, noted: FolderNoted, folder: &[u8], name: &[u8])
    ensures { log.new.events ≡ (noted, path_below (Some folder.now) name.now) ∷ log.old.events }
{
    *log = Record::of_events_beside(log, &noted, &(folder, name));
}

/// Notes a call with its answer, and the path below the folder that it was given.
pub(crate) fn note_path(log: &mut FolderCalls, noted: FolderNoted, folder: Option<&str>, name: &str)
    ensures { log.new.events ≡ (noted, path_below (option_map (λ f. f.now) folder.entry) name.now) ∷ log.old.events }
{
    match folder {
        Some(folder) => note_in(log, noted, folder.as_bytes(), name.as_bytes()),
        None => note(log, noted, name.as_bytes()),
    }
}
