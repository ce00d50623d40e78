//! A file of an old Macintosh: what its bytes are known as, and what it is out of any container.

ghost use Rattle.std.specs.Prelude.{◌≡◌, length, is_some, true, IfSome};
ghost use Rattle.std.specs.Option.{option_copied};
ghost use Rattle.mac_files.specs.BinHexFiles.{view as bin_hex_view};
ghost use Rattle.mac_files.specs.Kinds.{kind_of};
ghost use Rattle.mac_files.specs.OldFiles.{Opens, data_archive, fork_of, fork_with, kind_by, said, said_by, said_in, said_of_text, told_bytes, whole};
ghost use Rattle.mac_files.specs.Parts.{AreWithin, lies_within};

use crate::archive::{Archive, archive_of};
use crate::bin_hex::fault::BinHexFault;
use crate::bin_hex::file::BinHexFile;
use crate::bin_hex::read_bin_hex;
use crate::container::Container;
use crate::contents::{Contents, Dates, FinderInfo};
use crate::fault::ContainerFault;
use crate::kind::{FileKind, kind_of};
use crate::part::Part;
use crate::read::read_contents;
use std::alloc::Global;
use thiserror::Error;

/// Why a file isn't read.
#[derive(Clone, Copy, Debug, Error)]
pub enum FileFault {
    /// Its container is damaged.
    #[error("{0}")]
    Container(ContainerFault),
    /// Its BinHex text is damaged, or stands for too many bytes.
    #[error("{0}")]
    Text(BinHexFault),
    /// The host has no memory for what its text stands for.
    #[error("the host has no memory")]
    HostFull,
}

/// What a file is, out of any container. A part that there isn't is empty, but of a resource fork it is known whether
/// there is one: in a container, one of no bytes is none.
#[derive(Clone, Copy, Debug)]
pub struct FileView<'a> {
    /// The name, in the characters of a Macintosh.
    pub name: &'a [u8],
    /// The comment of the Finder's Get Info.
    pub comment: &'a [u8],
    pub finder: Option<FinderInfo>,
    pub dates: Option<Dates>,
    pub data_fork: &'a [u8],
    pub resource_fork: Option<&'a [u8]>,
}

/// The bytes of a part, if there is one.
fn told_bytes(part: Option<Part>, file: &[u8]) -> &[u8]
    requires { IfSome part (λ part. lies_within (length file.now) part ≡ true) }
    ensures { result.now ≡ told_bytes part file.now }
{
    match part {
        Some(part) => part.bytes(file),
        None => &file[..0],
    }
}

/// What a container says of a file, whose parts are in these bytes.
fn view_in(contents: Contents, bytes: &[u8]) -> FileView<'_>
    requires { AreWithin (length bytes.now) contents }
    ensures { said result ≡ said_in bytes.now contents }
{
    FileView {
        name: told_bytes(contents.name, bytes),
        comment: told_bytes(contents.comment, bytes),
        finder: contents.finder,
        dates: contents.dates,
        data_fork: told_bytes(contents.data_fork, bytes),
        resource_fork: contents.resource_fork.map(|part| part.bytes(bytes)),
    }
}

/// A file that is nothing but a resource fork.
fn view_of_whole(bytes: &[u8]) -> FileView<'_>
    ensures { said result ≡ whole bytes.now }
{
    FileView {
        name: &bytes[..0],
        comment: &bytes[..0],
        finder: None,
        dates: None,
        data_fork: &bytes[..0],
        resource_fork: Some(bytes),
    }
}

/// A fork of these bytes. One of no bytes is none.
fn fork_with(bytes: &[u8]) -> Option<&[u8]>
    ensures { option_copied result ≡ fork_with bytes.now }
{
    if bytes.is_empty() { None } else { Some(bytes) }
}

/// The file that a BinHex text stands for.
fn view_of_text(file: &BinHexFile) -> FileView<'_>
    ensures { said result ≡ said_of_text (bin_hex_view file.now) }
{
    FileView {
        name: file.name(),
        comment: &file.bytes[..0],
        finder: Some(FinderInfo {
            kind: file.kind,
            creator: file.creator,
            flags: file.flags,
        }),
        dates: None,
        data_fork: file.data_fork(),
        resource_fork: fork_with(file.resource_fork()),
    }
}

/// A file that was opened.
#[derive(Drop)]
pub enum OldFile<'a> {
    /// Its parts are parts of the bytes, which are known as this.
    Own(FileKind, FileView<'a>),
    /// What a BinHex text stands for.
    Text(BinHexFile),
}

impl<'a> OldFile<'a> {
    /// The file that bytes hold. Where they are known as neither a container nor a text, it is taken for nothing but a
    /// resource fork. An error comes exactly where the container or the text has a fault, and is the first; or where
    /// the host has no memory for what the text stands for.
    pub fn open(alloc: Global, bytes: &'a [u8]) -> Result<OldFile<'a>, FileFault>
        ensures { Opens (kind_of bytes.now) bytes.now result }
    {
        let kind = kind_of(bytes);
        match kind {
            FileKind::Container(container) => open_container(container, bytes),
            FileKind::BinHex => open_text(alloc, bytes),
            FileKind::Archive(_) | FileKind::Unknown => {
                Ok(OldFile::Own(kind, view_of_whole(bytes)))
            }
        }
    }

    /// What its bytes are known as.
    pub fn kind(&self) -> FileKind
        ensures { result ≡ kind_by self.now }
    {
        match self {
            OldFile::Own(kind, _) => *kind,
            OldFile::Text(_) => FileKind::BinHex,
        }
    }

    /// What the file is.
    pub fn view(&self) -> FileView<'_>
        ensures { said result ≡ said_by self.now }
    {
        match self {
            OldFile::Own(_, view) => *view,
            OldFile::Text(file) => view_of_text(file),
        }
    }

    /// Whether it has a resource fork.
    pub fn has_fork(&self) -> bool
        ensures { result ≡ is_some (said_by self.now).resource_fork }
    {
        matches!(self.view().resource_fork, Some(_))
    }

    /// Its resource fork; no bytes where there is none.
    pub fn fork(&self) -> &[u8]
        ensures { result.now ≡ fork_of self.now }
    {
        match self.view().resource_fork {
            Some(fork) => fork,
            None => &[],
        }
    }

    /// The archive or the image of a disk that its data fork is known as, or None.
    pub fn data_archive(&self) -> Option<Archive>
        ensures { result ≡ data_archive (said_by self.now) }
    {
        archive_of(self.view().data_fork)
    }
}

/// The file in a container.
fn open_container<'a>(container: Container, bytes: &'a [u8]) -> Result<OldFile<'a>, FileFault>
    ensures { Opens (FileKind.Container container) bytes.now result }
{
    match read_contents(container, bytes) {
        Ok(contents) => Ok(OldFile::Own(FileKind::Container(container), view_in(contents, bytes))),
        Err(fault) => Err(FileFault::Container(fault)),
    }
}

/// The file of a BinHex text.
fn open_text<'a>(alloc: Global, text: &[u8]) -> Result<OldFile<'a>, FileFault>
    ensures { Opens FileKind.BinHex text.now result }
{
    match read_bin_hex(alloc, text) {
        Ok(file) => Ok(OldFile::Text(file)),
        Err(BinHexFault::HostFull) => Err(FileFault::HostFull),
        Err(fault) => Err(FileFault::Text(fault)),
    }
}
