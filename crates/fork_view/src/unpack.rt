//! The resources of a fork written to a folder.

ghost use Rattle.std.specs.Prelude.{◌≡◌, None, IfOk, codes, map, option_map};
ghost use Rattle.new_folder.specs.NewFolder.{Makes, with_file, with_folder};
ghost use Rattle.fork_folder.specs.Unpacked.{unpacked, unpacked_file};
ghost use Rattle.fork_view.specs.Unpacking.{IsManifestText, Unpacks, all_calls, entered, files_calls, opened_folder, with_unpacked};

use crate::manifest::text_of_all;
use fork_bytes::table::Table;
use fork_folder::files::File as Unpacked;
use fork_folder::unpacked;
use mac_base::resource::ResType;
use new_folder::{FolderCalls, InnerFolder, NewFolder, NoNewFolder};
use path_text::FileName;
use std::alloc::{AllocError, Global};
use std::io;
use thiserror::Error;

/// The file that says what isn't in the files of the resources.
const MANIFEST: &str = "resources.json";

/// What is unpacked, and where to.
#[derive(Drop)]
pub struct Unpacking<'a> {
    /// The types; none for all types.
    pub kinds: Vec<ResType>,
    pub folder: &'a str,
}

/// Why not all is unpacked.
#[derive(Debug, Drop, Error)]
pub enum NotUnpacked {
    /// There is a folder, and it isn't empty.
    #[error("not unpacked: there are files in {folder}, and nothing is overwritten; name a new folder", folder = FileName(.0.as_str()))]
    NotEmpty(String),
    /// There is a folder of another user, and others than its owner may write there.
    #[error("not unpacked: {folder} belongs to another user, and others may write there; name a new folder", folder = FileName(.0.as_str()))]
    Shared(String),
    /// There is no `/proc` as Linux has it.
    #[error("not unpacked: /proc, by which all is made in the folder that is open, isn't there: {0}")]
    NoProc(io::Error),
    /// A folder can't be made, or not be looked into.
    #[error("not unpacked: the folder {path} can't be made: {error}", path = FileName(.folder.as_str()))]
    NoFolder { folder: String, error: io::Error },
    /// A file can't be written.
    #[error("not all is unpacked: {path} can't be written: {error}", path = FileName(.file.as_str()))]
    NoFile { file: String, error: io::Error },
    /// The host has no memory.
    #[error("the host has no memory")]
    HostFull,
}

impl From<AllocError> for NotUnpacked {
    fn from(_: AllocError) -> NotUnpacked {
        NotUnpacked::HostFull
    }
}

/// Why the folder that is unpacked to isn't one.
fn no_outer(alloc: Global, folder: &str, why: NoNewFolder) -> NotUnpacked {
    let Ok(folder) = String::from_str(alloc, folder) else {
        return NotUnpacked::HostFull;
    };
    match why {
        NoNewFolder::NotEmpty => NotUnpacked::NotEmpty(folder),
        NoNewFolder::Shared => NotUnpacked::Shared(folder),
        NoNewFolder::NoProc(error) => NotUnpacked::NoProc(error),
        NoNewFolder::Host(error) => NotUnpacked::NoFolder { folder, error },
    }
}

/// The folder of a type isn't made.
fn no_inner(alloc: Global, outer: &str, kind: &str, error: io::Error) -> NotUnpacked {
    match format!(in alloc; "{outer}/{kind}") {
        Ok(folder) => NotUnpacked::NoFolder { folder, error },
        Err(_) => NotUnpacked::HostFull,
    }
}

/// The file of a resource isn't written.
fn no_file(alloc: Global, outer: &str, file: &Unpacked<'_>, error: io::Error) -> NotUnpacked {
    let kind = file.folder.as_str();
    let name = file.name.as_str();
    match format!(in alloc; "{outer}/{kind}/{name}") {
        Ok(file) => NotUnpacked::NoFile { file, error },
        Err(_) => NotUnpacked::HostFull,
    }
}

/// The manifest isn't written.
fn no_manifest(alloc: Global, outer: &str, error: io::Error) -> NotUnpacked {
    match format!(in alloc; "{outer}/{MANIFEST}") {
        Ok(file) => NotUnpacked::NoFile { file, error },
        Err(_) => NotUnpacked::HostFull,
    }
}

/// A folder that is unpacked to, and what it's named.
#[derive(Drop)]
struct Outer<'a> {
    alloc: Global,
    name: &'a str,
    folder: NewFolder<'a>,
}

impl<'a> Outer<'a> {
    /// Makes the folder that is unpacked to, or opens one that is there.
    fn begin(
        rt: &'a HostRuntime,
        name: &'a str,
        log: &mut FolderCalls,
    ) -> Result<Outer<'a>, NotUnpacked>
        ensures { Makes result (opened_folder name.now log.old.events) log.old.events log.new.events }
    {
        let alloc = rt.alloc();
        match NewFolder::begin(rt, name, log) {
            Ok(folder) => Ok(Outer {
                alloc,
                name,
                folder,
            }),
            Err(why) => Err(no_outer(alloc, name, why)),
        }
    }

    /// A new folder for a type.
    fn new_inner(
        &self,
        kind: &'a str,
        log: &mut FolderCalls,
    ) -> Result<InnerFolder<'a>, NotUnpacked>
        ensures name { IfOk result (λ inner. inner.name.now ≡ kind.now) }
        ensures made { Makes result (with_folder kind.now log.old.events) log.old.events log.new.events }
    {
        match self.folder.make_folder(kind, log) {
            Ok(inner) => Ok(inner),
            Err(error) => Err(no_inner(self.alloc, self.name, kind, error)),
        }
    }

    /// The folder of a type that is open, or where that is another, a new one.
    fn inner(
        &self,
        latest: Option<InnerFolder<'a>>,
        kind: &'a str,
        log: &mut FolderCalls,
    ) -> Result<InnerFolder<'a>, NotUnpacked>
        ensures name { IfOk result (λ inner. inner.name.now ≡ kind.now) }
        ensures made { Makes result (entered (option_map (λ inner. inner.name.now) latest.entry) kind.now log.old.events) log.old.events log.new.events }
    {
        let Some(inner) = latest else {
            return self.new_inner(kind, log);
        };
        if inner.name == kind {
            Ok(inner)
        } else {
            self.new_inner(kind, log)
        }
    }

    /// Makes the file of a resource, in the folder of its type.
    fn write(
        &self,
        latest: Option<InnerFolder<'a>>,
        file: &'a Unpacked<'a>,
        log: &mut FolderCalls,
    ) -> Result<InnerFolder<'a>, NotUnpacked>
        ensures name { IfOk result (λ inner. inner.name.now ≡ (unpacked_file file.now).folder) }
        ensures made { Makes result (with_unpacked (option_map (λ inner. inner.name.now) latest.entry) (unpacked_file file.now) log.old.events) log.old.events log.new.events }
    {
        let inner = self.inner(latest, file.folder.as_str(), log)?;
        match inner.write_file(file.name.as_str(), file.row.datum.as_slice(), log) {
            Ok(()) => Ok(inner),
            Err(error) => Err(no_file(self.alloc, self.name, file, error)),
        }
    }

    /// Makes the files of resources, and their folders.
    fn write_all(&self, files: &'a [Unpacked<'a>], log: &mut FolderCalls) -> Result<(), NotUnpacked>
        ensures { Makes result (files_calls None (map unpacked_file files.now) log.old.events) log.old.events log.new.events }
    {
        let mut latest = None;
        for file in files {
            latest = Some(self.write(latest, file, log)?);
        }
        Ok(())
    }

    /// Makes the manifest, of this text.
    fn write_manifest(&self, text: &str, log: &mut FolderCalls) -> Result<(), NotUnpacked>
        ensures { Makes result (with_file (codes "resources.json") text.now log.old.events) log.old.events log.new.events }
    {
        match self.folder.write_file(MANIFEST, text.as_bytes(), log) {
            Ok(()) => Ok(()),
            Err(error) => Err(no_manifest(self.alloc, self.name, error)),
        }
    }
}

/// Writes these files to a new folder or an empty one, and at last a manifest of this text.
fn write_files<'a>(
    rt: &'a HostRuntime,
    folder: &'a str,
    files: &'a [Unpacked<'a>],
    text: &str,
    log: &mut FolderCalls,
) -> Result<(), NotUnpacked>
    ensures { Makes result (all_calls folder.now (map unpacked_file files.now) text.now log.old.events) log.old.events log.new.events }
{
    let outer = Outer::begin(rt, folder, log)?;
    outer.write_all(files, log)?;
    outer.write_manifest(text, log)
}

/// Writes the resources of a table to a new folder or an empty one, and at last `resources.json`: where that is, all is
/// there. That says what the file is, and all of its fork but the bytes of those resources. A folder that is there must
/// be empty, and no other user's in which others may write. Each folder of a type and
/// each file is made anew, in the folder that is open; what is there already is refused, and no link is followed. Each
/// call of the system is noted with its answer, in a record that only clauses read.
pub fn unpack(
    rt: &HostRuntime,
    unpacking: &Unpacking<'_>,
    file: &[u8],
    table: &Table<'_>,
    log: &mut FolderCalls,
) -> Result<(), NotUnpacked>
    ensures { Unpacks unpacking.now.folder.now (unpacked unpacking.now.kinds.items table.now.rows) (IsManifestText file.now unpacking.now.kinds.items table.now) result log.old.events log.new.events }
{
    let alloc = rt.alloc();
    let files = unpacked(alloc, unpacking.kinds.as_slice(), table.rows.as_slice())?;
    let listed = files.as_slice();
    let text = text_of_all(alloc, file, table, listed)?;
    write_files(rt, unpacking.folder, listed, text.as_str(), log)
}
