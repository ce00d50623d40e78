//! What a path names in an image.

ghost use Rattle.std.specs.Prelude.{◌≡◌, ◌≤◌, length, IfOk};
ghost use Rattle.fork_disk.specs.Disk.{bytes_at};
ghost use Rattle.hfs_tree.specs.Reads.{HasBytes, Learns};
ghost use Rattle.image_open.specs.Opening.{OpensAt, OpensImage, ReadsFile, StatesFile, holds_fork, if_image, is_other};

use disk_image::fault::{ImageFault, OpenFault};
use disk_image::known::Known;
use fork_disk::disk::ForkDisk;
use hfs_tree::fault::ReadFault;
use image_files::contents::Contents;
use image_files::file::Forks;
use image_files::found::{Found, NotFound};
use image_files::refusal::FileRefusal;
use image_files::{ImagePath, PathFault, StillDisk, find, read_contents, read_file};
use mac_files::{is_raw, kind_of};
use std::alloc::Global;

/// What an image has, a path in it, and what this names.
#[derive(Drop)]
pub struct Opened {
    pub contents: Contents,
    pub path: ImagePath,
    pub found: Result<Found, NotFound>,
}

/// Why nothing is looked for in an image.
#[derive(Clone, Copy, Debug)]
pub enum NotOpened {
    /// The text is no path.
    Path(PathFault),
    /// The image isn't read.
    Image(OpenFault),
}

/// Opens an image, and looks for what a text names in it.
pub fn open_path<D: StillDisk>(alloc: Global, disk: D, text: &str) -> (D, Result<Opened, NotOpened>)
    ensures { D.is_honest result.0 → Learns D.ForkDisk disk result.0 (OpensAt text.now result.1) }
{
    let path = match ImagePath::parse(alloc, text) {
        Ok(path) => path,
        Err(fault) => return (disk, Err(NotOpened::Path(fault))),
    };
    let (disk, contents) = read_contents(alloc, disk);
    let contents = match contents {
        Ok(contents) => contents,
        Err(fault) => return (disk, Err(NotOpened::Image(fault))),
    };
    let found = find(alloc, &contents, &path);
    let opened = Opened {
        contents,
        path,
        found,
    };
    (disk, Ok(opened))
}

/// Why no bytes of a file are read.
#[derive(Drop)]
pub enum NotRead {
    /// Nothing is looked for.
    NotOpened(NotOpened),
    /// The path names nothing, or something else than a file.
    NoFile(Opened),
    /// The file isn't read.
    Refused(FileRefusal),
}

/// The bytes of what a path names, if that is a file.
fn file_of<D: StillDisk>(
    alloc: Global,
    disk: D,
    opened: Opened,
    limit: u64,
) -> (D, Result<Vec<u8>, NotRead>)
    requires { HasBytes D.ForkDisk disk (λ file. opened.contents.size ≡ length file) }
    ensures { D.is_honest result.0 → Learns D.ForkDisk disk result.0 (StatesFile opened limit result.1) }
{
    let Ok(Found::File(place)) = opened.found else {
        return (disk, Err(NotRead::NoFile(opened)));
    };
    let mut disk = disk;
    let read = read_file(
        alloc,
        &mut disk,
        &opened.contents,
        place,
        Forks::Both,
        limit,
    );
    (disk, read.map_err(NotRead::Refused))
}

/// The file that a text names in an image, as the bytes of a MacBinary file, or of an AppleSingle file where only this can hold
/// its name.
pub fn read_path<D: StillDisk>(
    alloc: Global,
    disk: D,
    text: &str,
    limit: u64,
) -> (D, Result<Vec<u8>, NotRead>)
    ensures { D.is_honest result.0 → Learns D.ForkDisk disk result.0 (ReadsFile text.now limit result.1) }
{
    let (after, opened) = open_path(alloc, disk, text);
    match opened {
        Ok(opened) => file_of(alloc, after, opened, limit),
        Err(fault) => (after, Err(NotRead::NotOpened(fault))),
    }
}

/// How many bytes at the beginning of a file say whether it is a resource fork or a container.
const FRONT: u64 = 4096;

/// Whether a file of so many bytes which begins so is a resource fork or a container.
fn is_other(size: u64, front: &[u8]) -> bool
    ensures { result ≡ is_other size front.now }
{
    is_raw(size as usize, front) || kind_of(front).is_known()
}

/// So many bytes at the beginning of a disk.
fn front_of<D: ForkDisk>(alloc: Global, disk: &mut D, size: usize) -> Result<Vec<u8>, ReadFault>
    requires { HasBytes D.ForkDisk disk.old (λ file. size ≤ length file) }
    ensures reads { D.is_honest disk.new → Learns D.ForkDisk disk.old disk.new (λ file. IfOk result (λ front. front.items ≡ bytes_at size 0 file)) }
{
    let mut front = vec![in alloc; 0; size]?;
    disk.read_at(0, &mut front)?;
    Ok(front)
}

/// Whether a disk is a resource fork or a container of a file.
fn holds_fork<D: ForkDisk>(alloc: Global, disk: &mut D) -> Result<bool, ReadFault>
    ensures reads { D.is_honest disk.new → Learns D.ForkDisk disk.old disk.new (λ file. IfOk result (λ is. is ≡ holds_fork file)) }
{
    let size = disk.len()?;
    let front = front_of(alloc, disk, FRONT.min(size) as usize)?;
    Ok(is_other(size, &front))
}

/// What was opened; none where it isn't known as an image.
fn if_image(opened: Result<Opened, NotOpened>) -> Result<Option<Opened>, NotOpened>
    ensures { result ≡ if_image opened }
{
    match opened {
        Ok(opened) => Ok(Some(opened)),
        Err(NotOpened::Image(OpenFault::Image(ImageFault::Refused(Known::Other)))) => Ok(None),
        Err(fault) => Err(fault),
    }
}

/// Opens what may be an image: none where it is a resource fork, a container, or isn't known as an image.
pub fn open_image<D: StillDisk>(alloc: Global, disk: D) -> (D, Result<Option<Opened>, NotOpened>)
    ensures { D.is_honest result.0 → Learns D.ForkDisk disk result.0 (OpensImage result.1) }
{
    let mut disk = disk;
    let held = match holds_fork(alloc, &mut disk) {
        Ok(held) => held,
        Err(fault) => return (disk, Err(NotOpened::Image(OpenFault::Read(fault)))),
    };
    if held {
        return (disk, Ok(None));
    }
    let (after, opened) = open_path(alloc, disk, "");
    (after, if_image(opened))
}
