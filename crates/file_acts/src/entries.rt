//! What is in folders.

ghost use Rattle.std.specs.Prelude.{◌≡◌, ◌∷◌};
ghost use Rattle.file_acts.specs.Acts.{ReadsOnly};
ghost use Rattle.file_acts.specs.Saved.{ShowsSaved};
ghost use Rattle.file_acts.specs.declared.acts.Act.TheVariants as act;

use crate::acts::{Acts, note_listed};
use crate::host::Host;
use crate::input::NotRead;
use crate::message::Problem;
use std::alloc::AllocError;
use std::collections::BTreeMap;
use std::fs::FileType;
use std::io::ErrorKind;
use std::{fs, io};

/// The most files and folders that are known at one time.
const MOST_ENTRIES: usize = 1_000_000;

/// What is in a folder: a file, or another folder.
#[derive(Clone, Copy, Debug, PartialEq, Eq)]
pub enum Entry {
    File,
    Folder,
}

/// Files and folders, by their paths.
pub type Entries = BTreeMap<String, Entry>;

/// Which entry something of a folder is. Links, devices and pipes are none.
fn entry_of(found: &FileType) -> Option<Entry> {
    if found.is_dir() {
        Some(Entry::Folder)
    } else if found.is_file() {
        Some(Entry::File)
    } else {
        None
    }
}

/// That there are more files and folders than are looked at.
pub fn too_many() -> io::Error {
    io::Error::new(
        ErrorKind::InvalidInput,
        "there are too many files and folders below it: name folders in it",
    )
}

/// Adds the files and folders that are in a folder, by their paths.
fn add_entries(host: &Host<'_>, folder: &str, entries: &mut Entries) -> io::Result<()> {
    let alloc = host.alloc();
    for found in fs::read_dir(host.rt, folder)? {
        let found = found?;
        if let Some(entry) = entry_of(&found.file_type()?) {
            if entries.len() >= MOST_ENTRIES {
                return Err(too_many());
            }
            let path = String::from_str(alloc, found.path().as_str())?;
            entries.insert(path, entry).map_err(AllocError::from)?;
        }
    }
    Ok(())
}

/// Adds the files and folders that are in a folder, by their paths, hidden ones too. Links aren't followed: they are left
/// out, and so are devices and pipes. `Problem::Read` comes where the folder can't be listed, and where more than a million
/// files and folders would be known.
pub fn list_entries(
    host: &Host<'_>,
    folder: &str,
    entries: &mut Entries,
    acts: &mut Acts,
) -> Result<(), Problem>
    ensures notes { acts.new.events ≡ act.Listed folder.now ∷ acts.old.events }
    ensures quiet { ReadsOnly folder.now acts.old.events acts.new.events }
    ensures seen { ShowsSaved acts.old.events acts.new.events }
{
    let listed = add_entries(host, folder, entries);
    note_listed(acts, folder);
    match listed {
        Ok(()) => Ok(()),
        Err(error) => Err(Problem::Read(NotRead::Failed(error))),
    }
}
