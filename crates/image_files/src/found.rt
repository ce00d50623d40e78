//! Which volume, folder or file a path names.

ghost use Rattle.std.specs.Prelude.{◌≡◌, ◌+◌, ◌<◌, ◌^◌, [], None, length, map, position, IfOk};
ghost use Rattle.volume_names.specs.Paths.{items_of};
ghost use Rattle.image_files.specs.Finding.{AreFolders, Finds, FindsBelow, FindsIn, FindsNames, IsMissing, file_named, found_at, is_called, is_digit, number_of, part_named, thing_named, volume_by, volume_named, volume_numbered};
ghost use Rattle.image_files.specs.FilesRead.{volume_at};

use crate::contents::{Contents, Place};
use crate::files::Files;
use crate::item::Info;
use crate::volume::VolumeFiles;
use image_paths::ImagePath;
use mfs_volume::volume::MfsVolume;
use std::alloc::{AllocError, AllocFailed, Global};
use thiserror::Error;
use volume_names::folders::Folders;
use volume_names::letters::{Rule, is_same_text};
use volume_names::{find_thing, folders_by_id};

/// What a path names.
#[derive(Clone, Copy, Debug, PartialEq, Eq)]
pub enum Found {
    /// The whole image, of several volumes.
    Image,
    /// A volume: its number among the contents, from 0 on.
    Volume(usize),
    Folder(Place),
    File(Place),
}

/// Why a path names nothing. Names have numbers from 1 on.
#[derive(Clone, Copy, Debug, PartialEq, Eq, Error)]
pub enum NotFound {
    /// There is nothing of this name, of a volume, a folder or a file, where those before it lead.
    #[error("there is nothing named by name {0} of the path")]
    Missing(usize),
    /// The last name is of a file, and a folder is asked for.
    #[error("it is a file, and no folder")]
    NotFolder,
    /// The volume isn't read: its number among the contents, from 0 on.
    #[error("the volume can't be read")]
    Refused(usize),
    /// The host has no memory.
    #[error("the host has no memory")]
    HostFull,
}

impl From<AllocError> for NotFound {
    ghost use Rattle.std.specs.Prelude.{◌≡◌};
    ghost use Rattle.image_files.specs.declared.found.NotFound.TheVariants.{HostFull};

    ghost from_gives = { λ _ fault. fault ≡ HostFull };

    fn from(_: AllocError) -> NotFound {
        NotFound::HostFull
    }
}

impl<T: Drop> From<AllocFailed<T>> for NotFound {
    ghost use Rattle.std.specs.Prelude.{◌≡◌};
    ghost use Rattle.image_files.specs.declared.found.NotFound.TheVariants.{HostFull};

    ghost from_gives = { λ _ fault. fault ≡ HostFull };

    fn from(_: AllocFailed<T>) -> NotFound {
        NotFound::HostFull
    }
}

/// The first file of an MFS volume with a name that is the same by a rule.
fn find_by(rule: Rule, volume: &MfsVolume, name: &[u8]) -> Option<usize>
    ensures { result ≡ position (is_called rule name.now) volume.now.files.items }
{
    volume
        .files
        .iter()
        .position(|file| is_same_text(rule, file.name_bytes(), name))
}

/// Which file a path names in an MFS volume, which has no folders.
fn find_mfs(volume: &MfsVolume, names: &[Vec<u8>]) -> Option<usize>
    ensures { result ≡ file_named volume.now (map items_of names.now) }
{
    let [name] = names else {
        return None;
    };
    match find_by(Rule::Bytes, volume, name) {
        Some(file) => Some(file),
        None => find_by(Rule::Letters, volume, name),
    }
}

/// The folders of a volume; an MFS volume has none.
pub(crate) fn folders_of(alloc: Global, files: &Files) -> Result<Folders, AllocError>
    ensures { IfOk result (λ folders. AreFolders folders files.now) }
{
    match files {
        Files::Hfs(volume, _) => folders_by_id(alloc, &volume.entries),
        Files::Mfs(_) => Ok(Folders::new(alloc)),
    }
}

/// Which thing a path names in a volume with these folders.
fn find_thing_in(folders: &Folders, files: &Files, names: &[Vec<u8>]) -> Option<usize>
    requires { AreFolders folders.now files.now }
    ensures { result ≡ thing_named files.now (map items_of names.now) }
{
    match files {
        Files::Hfs(_, things) => find_thing(folders, things, names),
        Files::Mfs(volume) => find_mfs(volume, names),
    }
}

/// How many names are before the first one with which a path names nothing, which names nothing as a whole.
fn leading(folders: &Folders, files: &Files, names: &[Vec<u8>]) -> usize
    requires folders { AreFolders folders.now files.now }
    requires some { 0 < length names.now }
    requires missing { thing_named files.now (map items_of names.now) ≡ None }
    ensures { IsMissing files.now (map items_of names.now) result }
{
    for count in 1..names.len() {
        if find_thing_in(folders, files, &names[..count]).is_none() {
            return count - 1;
        }
    }
    names.len().saturating_sub(1)
}

/// What a thing of a volume of this number is.
fn found_at(number: usize, volume: &VolumeFiles, thing: usize) -> Found
    ensures { result ≡ found_at number volume.now.files thing }
{
    let place = Place {
        volume: number,
        thing,
    };
    match volume.info(thing) {
        Some(Info::Folder(_)) => Found::Folder(place),
        Some(Info::File(_)) | None => Found::File(place),
    }
}

/// What a path names in a volume of this number, after so many names that led to it.
fn find_in(
    alloc: Global,
    number: usize,
    volume: &VolumeFiles,
    before: usize,
    names: &[Vec<u8>],
) -> Result<Found, NotFound>
    requires { before + length names.now < 2 ^ 64 }
    ensures { FindsIn number volume.now.files before (map items_of names.now) result }
{
    if names.is_empty() {
        return Ok(Found::Volume(number));
    }
    let folders = folders_of(alloc, &volume.files)?;
    match find_thing_in(&folders, &volume.files, names) {
        Some(thing) => Ok(found_at(number, volume, thing)),
        None => {
            let count = leading(&folders, &volume.files, names);
            Err(NotFound::Missing(before + count + 1))
        }
    }
}

/// Whether a byte is a digit.
fn is_digit(byte: u8) -> bool
    ensures { result ≡ is_digit byte }
{
    47 < byte && byte < 58
}

/// The number that the digits of a text are, if it has one to five and nothing else.
fn number_of(text: &[u8]) -> Option<u32>
    ensures { result ≡ number_of text.now }
{
    if text.is_empty() || text.len() > 5 {
        return None;
    }
    let mut number: u32 = 0;
    for byte in text {
        if !is_digit(*byte) {
            return None;
        }
        number = 10 * number + (*byte - 48) as u32;
    }
    Some(number)
}

/// The number of a partition that a name is, if it is `#` and a number.
fn part_of(name: &[u8]) -> Option<u32>
    ensures { result ≡ part_named name.now }
{
    match name {
        [b'#', digits @ ..] => number_of(digits),
        _ => None,
    }
}

impl Contents {
    /// The first volume whose name is the same by a rule.
    fn volume_by(&self, rule: Rule, name: &[u8]) -> Option<usize>
        ensures { result ≡ volume_by rule self.now.volumes.items name.now }
    {
        self.volumes.iter().position(|placed| match &placed.found {
            Ok(volume) => is_same_text(rule, volume.name().as_bytes(), name),
            Err(_) => false,
        })
    }

    /// The first volume of a partition of this number.
    fn volume_numbered(&self, number: u32) -> Option<usize>
        ensures { result ≡ volume_numbered self.now.volumes.items number }
    {
        self.volumes
            .iter()
            .position(|placed| placed.part as u32 == number)
    }

    /// The volume that a name is of: `#` and the number of a partition, or the name of a volume.
    fn volume_of(&self, name: &[u8]) -> Option<usize>
        ensures { result ≡ volume_named self.now.volumes.items name.now }
    {
        if let Some(number) = part_of(name) {
            return self.volume_numbered(number);
        }
        match self.volume_by(Rule::Bytes, name) {
            Some(volume) => Some(volume),
            None => self.volume_by(Rule::Letters, name),
        }
    }

    /// What the names after those that led to a volume name.
    fn find_below(
        &self,
        alloc: Global,
        number: usize,
        before: usize,
        names: &[Vec<u8>],
    ) -> Result<Found, NotFound>
        requires { before + length names.now < 2 ^ 64 }
        ensures { FindsBelow number (volume_at self.now number) before (map items_of names.now) result }
    {
        match self.volume_at(number) {
            Some(volume) => find_in(alloc, number, volume, before, names),
            None => Err(NotFound::Refused(number)),
        }
    }

    /// What the names of a path lead to.
    fn find_names(&self, alloc: Global, names: &[Vec<u8>]) -> Result<Found, NotFound>
        ensures { FindsNames self.now (map items_of names.now) result }
    {
        if self.volumes.len() == 1 {
            return self.find_below(alloc, 0, 0, names);
        }
        let [first, others @ ..] = names else {
            return Ok(Found::Image);
        };
        match self.volume_of(first) {
            Some(number) => self.find_below(alloc, number, 1, others),
            None => Err(NotFound::Missing(1)),
        }
    }
}

/// What a path names. Names are compared byte by byte; where nothing has just these, as the File Manager compares them,
/// where case doesn't count. Where an image has several volumes, the first name is a volume's, or `#` and the number of its
/// partition.
pub fn find(alloc: Global, contents: &Contents, path: &ImagePath) -> Result<Found, NotFound>
    ensures { Finds contents.now path.now result }
{
    match contents.find_names(alloc, &path.names)? {
        Found::File(_) if path.is_folder => Err(NotFound::NotFolder),
        found => Ok(found),
    }
}
