//! The bytes of a file in an image.

ghost use Rattle.std.specs.Prelude.{◌≡◌, ℕ, length, option_map, IfSome};
ghost use Rattle.hfs_tree.specs.Reads.{Learns, HasBytes};
ghost use Rattle.mac_write.specs.Parts.{view};
ghost use Rattle.mac_write.specs.Targets.{unwritten};
ghost use Rattle.mac_write.specs.declared.target.Target.TheVariants as target;
ghost use Rattle.image_files.specs.FilesRead.{asked_size, contained, file_at, file_of, fork_if, fork_of_file, has_fork, here, in_single, parts_of, volume_at};
ghost use Rattle.image_files.specs.Forks.{CountsFile, Gives};

use crate::contents::{Contents, Place};
use crate::fork::fork_of;
use crate::item::{FileInfo, Info};
use crate::refusal::FileRefusal;
use crate::volume::VolumeFiles;
use fork_disk::disk::ForkDisk;
use hfs_volume::entry::Which;
use mac_write::mac_file::MacFile;
use mac_write::refusal::Refusal;
use mac_write::{Target, write_file};
use std::alloc::Global;

/// Which forks of a file are read.
#[derive(Clone, Copy, Debug, PartialEq, Eq)]
pub enum Forks {
    Data,
    Resource,
    Both,
}

/// A file: its volume, which of the things of this it is, its name, and what the volume says of it.
#[derive(Clone, Copy)]
struct FileHere<'a> {
    volume: &'a VolumeFiles,
    thing: usize,
    name: &'a [u8],
    info: FileInfo,
}

impl Forks {
    /// Whether a fork is one of these.
    fn has(self, which: Which) -> bool
        ensures { result ≡ has_fork self which }
    {
        match self {
            Forks::Both => true,
            Forks::Data => which == Which::Data,
            Forks::Resource => which == Which::Resource,
        }
    }
}

impl Contents {
    /// The volume of a number, if it is read.
    pub fn volume_at(&self, number: usize) -> Option<&VolumeFiles>
        ensures value { option_map (λ volume. volume.now) result ≡ volume_at self.now number }
        ensures there { IfSome result (λ volume. volume.now.view.file ≡ self.now.size) }
    {
        match &self.volumes.get(number)?.found {
            Ok(volume) => Some(volume),
            Err(_) => None,
        }
    }

    /// The file at a place.
    fn file_at(&self, place: Place) -> Option<FileHere<'_>>
        ensures value { option_map here result ≡ file_at self.now place }
        ensures there { IfSome result (λ file. file.volume.now.view.file ≡ self.now.size) }
    {
        let volume = self.volume_at(place.volume)?;
        let name = volume.name_of(place.thing)?;
        match volume.info(place.thing)? {
            Info::File(info) => Some(FileHere {
                volume,
                thing: place.thing,
                name,
                info,
            }),
            Info::Folder(_) => None,
        }
    }
}

/// The bytes of a fork of a file. Only these are read. Refused are more bytes than the limit before any is read, then a
/// fault of the fork.
pub fn read_fork<D: ForkDisk>(
    alloc: Global,
    disk: &mut D,
    contents: &Contents,
    place: Place,
    which: Which,
    limit: u64,
) -> Result<Vec<u8>, FileRefusal>
    requires { HasBytes D.ForkDisk disk.old (λ file. contents.now.size ≡ length file) }
    ensures reads { D.is_honest disk.new → Learns D.ForkDisk disk.old disk.new
        (λ file. Gives (fork_of_file file (file_at contents.now place) which limit) result) }
    ensures cause { CountsFile (D.failures disk.old) (D.failures disk.new) result }
{
    let Some(file) = contents.file_at(place) else {
        return Err(FileRefusal::NoFile);
    };
    let size = file.info.fork_size(which) as u64;
    if size > limit {
        return Err(FileRefusal::TooLong(size, limit));
    }
    fork_of(alloc, disk, file.volume, file.thing, which)
}

impl FileHere<'_> {
    /// How many bytes the forks that are asked for have.
    fn asked_size(&self, asked: Forks) -> u64
        ensures { result ≡ asked_size self.now.info asked }
    {
        let data = if asked.has(Which::Data) {
            self.info.data_size
        } else {
            0
        };
        let resource = if asked.has(Which::Resource) {
            self.info.resource_size
        } else {
            0
        };
        data as u64 + resource as u64
    }

    /// A fork, if it is asked for; else no bytes.
    fn fork_if<D: ForkDisk>(
        &self,
        alloc: Global,
        disk: &mut D,
        asked: Forks,
        which: Which,
    ) -> Result<Vec<u8>, FileRefusal>
        requires { HasBytes D.ForkDisk disk.old (λ file. self.now.volume.now.view.file ≡ length file) }
        ensures reads { D.is_honest disk.new → Learns D.ForkDisk disk.old disk.new
            (λ file. Gives (fork_if file (here self.now) asked which) result) }
        ensures cause { CountsFile (D.failures disk.old) (D.failures disk.new) result }
    {
        if asked.has(which) {
            fork_of(alloc, disk, self.volume, self.thing, which)
        } else {
            Ok(Vec::new(alloc))
        }
    }

    /// The file with these forks, out of any container.
    fn with_forks<'a>(&'a self, data_fork: &'a [u8], resource_fork: &'a [u8]) -> MacFile<'a>
        ensures { view result ≡ parts_of (here self.now) data_fork.now resource_fork.now }
    {
        MacFile {
            name: self.name,
            finder: self.info.finder,
            created: self.info.created as u64,
            modified: self.info.changed as u64,
            comment: &[],
            data_fork,
            resource_fork,
        }
    }
}

/// A file in AppleSingle, which MacBinary can't hold for this.
fn in_single(alloc: Global, file: &MacFile, refusal: Refusal) -> Result<Vec<u8>, FileRefusal>
    ensures single { Gives (in_single (view file.now) refusal (unwritten target.AppleSingle (view file.now))) result }
    ensures cause { (count : ℕ) → CountsFile count count result }
{
    match write_file(alloc, Target::AppleSingle, file) {
        Ok(bytes) => Ok(bytes),
        Err(Refusal::HostFull) => Err(FileRefusal::HostFull),
        Err(_) => Err(FileRefusal::Unwritten(refusal)),
    }
}

/// A file in a container: in MacBinary, or in AppleSingle where MacBinary can't hold it.
fn contained(alloc: Global, file: &MacFile) -> Result<Vec<u8>, FileRefusal>
    ensures contained { Gives (contained (view file.now)) result }
    ensures cause { (count : ℕ) → CountsFile count count result }
{
    match write_file(alloc, Target::MacBinary, file) {
        Ok(bytes) => Ok(bytes),
        Err(Refusal::HostFull) => Err(FileRefusal::HostFull),
        Err(refusal) => in_single(alloc, file, refusal),
    }
}

/// A file as the bytes of a MacBinary file: its name, type, creator, Finder flags, dates, and those forks that are asked
/// for; another fork is left empty. A name that MacBinary can't hold makes it an AppleSingle file. Refused are forks
/// with more bytes than the limit before any is read, then a fault of the data fork, then one of the resource fork.
pub fn read_file<D: ForkDisk>(
    alloc: Global,
    disk: &mut D,
    contents: &Contents,
    place: Place,
    asked: Forks,
    limit: u64,
) -> Result<Vec<u8>, FileRefusal>
    requires { HasBytes D.ForkDisk disk.old (λ file. contents.now.size ≡ length file) }
    ensures reads { D.is_honest disk.new → Learns D.ForkDisk disk.old disk.new
        (λ file. Gives (file_of file (file_at contents.now place) asked limit) result) }
    ensures cause { CountsFile (D.failures disk.old) (D.failures disk.new) result }
{
    let Some(file) = contents.file_at(place) else {
        return Err(FileRefusal::NoFile);
    };
    let size = file.asked_size(asked);
    if size > limit {
        return Err(FileRefusal::TooLong(size, limit));
    }
    let data_fork = file.fork_if(alloc, disk, asked, Which::Data)?;
    let resource_fork = file.fork_if(alloc, disk, asked, Which::Resource)?;
    contained(alloc, &file.with_forks(&data_fork, &resource_fork))
}
