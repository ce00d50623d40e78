//! Folders and files with their paths.

ghost use Rattle.std.specs.Prelude.{◌≡◌, List, IfOk, is_some, option_map};
ghost use Rattle.hfs_volume.specs.declared.entry.Entry.{Entry};
ghost use Rattle.volume_names.specs.Paths.{HasFolders};
ghost use Rattle.volume_names.specs.Things.{path_of_thing, things_of};

use crate::folders::{Folders, folders_by_id, path_of};
use hfs_volume::entry::Entry;
use hfs_volume::name::Name;
use std::alloc::{AllocError, Global};

/// The path of a folder or a file in a volume with these folders: the names of the folders that it is in, from the root on, and
/// its own. It has none where a folder that it is in is missing, is in itself, or is 256 folders below the root.
pub fn path_of_thing(
    alloc: Global,
    folders: &Folders,
    entry: &Entry,
) -> Result<Option<Vec<Name>>, AllocError>
    ensures { (entries : List Entry) → HasFolders folders.now entries →
        IfOk result (λ found. option_map (λ path. path.items) found ≡ path_of_thing entries entry.now) }
{
    if !entry.is_folder() && !entry.is_file() {
        return Ok(None);
    }
    let Some(mut path) = path_of(alloc, folders, entry.parent)? else {
        return Ok(None);
    };
    path.push(entry.name)?;
    Ok(Some(path))
}

/// Whether a record is of a folder or a file that has a path.
fn is_thing(alloc: Global, folders: &Folders, entry: &Entry) -> Result<bool, AllocError>
    ensures { (entries : List Entry) → HasFolders folders.now entries →
        IfOk result (λ is. is ≡ is_some (path_of_thing entries entry.now)) }
{
    Ok(path_of_thing(alloc, folders, entry)?.is_some())
}

/// The folders and files of a volume with these records that have a path, in the order of the catalog. The only error is that
/// the host has no memory.
pub fn list_things(alloc: Global, entries: &[Entry]) -> Result<Vec<Entry>, AllocError>
    ensures { IfOk result (λ things. things.items ≡ things_of entries.now) }
{
    let folders = folders_by_id(alloc, entries)?;
    let mut things = Vec::new(alloc);
    for entry in entries {
        if is_thing(alloc, &folders, entry)? {
            things.push(*entry)?;
        }
    }
    Ok(things)
}
