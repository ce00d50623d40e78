//! Which thing a path names.

ghost use Rattle.std.specs.Prelude.{◌≡◌, List, map, position};
ghost use Rattle.hfs_volume.specs.declared.entry.Entry.{Entry};
ghost use Rattle.volume_names.specs.Paths.{HasFolders, items_of};
ghost use Rattle.volume_names.specs.Things.{has_path, place_of};

use crate::folders::{Folders, leads_to};
use crate::letters::{Rule, is_same_text};
use hfs_volume::entry::Entry;

/// Whether a thing has a path by a rule.
fn has_path(rule: Rule, folders: &Folders, thing: &Entry, path: &[Vec<u8>]) -> bool
    ensures { (entries : List Entry) → HasFolders folders.now entries → result ≡ has_path rule entries (map items_of path.now) thing.now }
{
    let [others @ .., name] = path else {
        return false;
    };
    if !thing.is_folder() && !thing.is_file() {
        return false;
    }
    if !is_same_text(rule, thing.name.as_bytes(), name) {
        return false;
    }
    leads_to(rule, folders, thing.parent, others)
}

/// The first thing whose path is the same by a rule.
fn find_by(rule: Rule, folders: &Folders, things: &[Entry], path: &[Vec<u8>]) -> Option<usize>
    ensures { (entries : List Entry) → HasFolders folders.now entries → result ≡ position (has_path rule entries (map items_of path.now)) things.now }
{
    for (index, thing) in things.iter().enumerate() {
        if has_path(rule, folders, thing, path) {
            return Some(index);
        }
    }
    None
}

/// Which of these things has this path in a volume with these folders: the first with just these names, else the first whose
/// names are the same to the File Manager.
pub fn find_thing(folders: &Folders, things: &[Entry], path: &[Vec<u8>]) -> Option<usize>
    ensures { (entries : List Entry) → HasFolders folders.now entries → result ≡ place_of entries (map items_of path.now) things.now }
{
    match find_by(Rule::Bytes, folders, things, path) {
        Some(place) => Some(place),
        None => find_by(Rule::Letters, folders, things, path),
    }
}
