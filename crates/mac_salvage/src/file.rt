//! What is kept of a file in spite of a fault of its container.

ghost use Rattle.std.specs.Prelude.{◌≡◌, length, option_and_then, option_map};
ghost use Rattle.mac_files.specs.Kinds.{kind_of};
ghost use Rattle.mac_files.specs.OldFiles.{IsUnopened};
ghost use Rattle.mac_salvage.specs.InSpite.{OpensInSpite, fault_by, forks_by, kind_by, left_by, left_in, whole_fork};

use crate::place::{ForkLeft, Places, left_in, places_of, text_places};
use crate::text::bytes_left;
use mac_files::kind::{FileKind, kind_of};
use mac_files::old_file::{FileFault, OldFile};
use mac_files::part::Part;
use std::alloc::Global;

/// A file that was opened, whether its container has a fault or not.
#[derive(Drop)]
pub enum FileLeft<'a> {
    /// It has none.
    Whole(OldFile<'a>),
    /// Its forks are at these places of its bytes, as far as these reach.
    Parts {
        fault: FileFault,
        kind: FileKind,
        file: &'a [u8],
        places: Places,
    },
    /// Its forks are at these places of the bytes that a BinHex text stands for.
    Text {
        fault: FileFault,
        bytes: Vec<u8>,
        places: Places,
    },
}

/// The fork of these bytes, all of which are there.
fn whole_fork(bytes: &[u8]) -> ForkLeft<'_>
    ensures { left_by result ≡ whole_fork bytes.now }
{
    ForkLeft {
        said: bytes.len(),
        bytes,
    }
}

/// The fork at a place, if it is listed.
fn fork_at(bytes: &[u8], place: Option<Part>) -> Option<ForkLeft<'_>>
    ensures { option_map left_by result ≡ option_and_then (left_in bytes.now) place }
{
    left_in(bytes, place?)
}

impl FileLeft<'_> {
    /// What its bytes are known as.
    pub fn kind(&self) -> FileKind
        ensures { result ≡ kind_by self.now }
    {
        match self {
            FileLeft::Whole(file) => file.kind(),
            FileLeft::Parts { kind, .. } => *kind,
            FileLeft::Text { .. } => FileKind::BinHex,
        }
    }

    /// The first fault of its container, if it has one.
    pub fn fault(&self) -> Option<FileFault>
        ensures { result ≡ fault_by self.now }
    {
        match self {
            FileLeft::Whole(_) => None,
            FileLeft::Parts { fault, .. } | FileLeft::Text { fault, .. } => Some(*fault),
        }
    }

    /// Its data fork, if it has one and some of its bytes are there.
    pub fn data_fork(&self) -> Option<ForkLeft<'_>>
        ensures { option_map left_by result ≡ (forks_by self.now).data_fork }
    {
        match self {
            FileLeft::Whole(file) => {
                let bytes = file.view().data_fork;
                if bytes.is_empty() {
                    None
                } else {
                    Some(whole_fork(bytes))
                }
            }
            FileLeft::Parts { file, places, .. } => fork_at(file, places.data_fork),
            FileLeft::Text { bytes, places, .. } => fork_at(bytes, places.data_fork),
        }
    }

    /// Its resource fork, if it has one and some of its bytes are there.
    pub fn resource_fork(&self) -> Option<ForkLeft<'_>>
        ensures { option_map left_by result ≡ (forks_by self.now).resource_fork }
    {
        match self {
            FileLeft::Whole(file) => match file.view().resource_fork {
                Some(bytes) => Some(whole_fork(bytes)),
                None => None,
            },
            FileLeft::Parts { file, places, .. } => fork_at(file, places.resource_fork),
            FileLeft::Text { bytes, places, .. } => fork_at(bytes, places.resource_fork),
        }
    }
}

/// The forks of a file: all their bytes where its container has no fault, and else those that are there, at the places
/// that its header or its list says. In a BinHex text a wrong character is read as a digit, and the others keep their
/// places. An error comes only of such a text: where nothing comes after the line that each tool writes, it stands for
/// more bytes than are read of it, or the host has no memory.
#[tactic(auto, using(crate::proofs::Opening::parts_fault, crate::proofs::Opening::parts_forks))]
pub fn open_in_spite<'a>(alloc: Global, file: &'a [u8]) -> Result<FileLeft<'a>, FileFault>
    ensures { OpensInSpite file.now result }
{
    let fault = match OldFile::open(alloc, file) {
        Ok(whole) => return Ok(FileLeft::Whole(whole)),
        Err(fault) => fault,
    };
    match kind_of(file) {
        FileKind::BinHex => text_in_spite(alloc, fault, file),
        kind => Ok(FileLeft::Parts {
            fault,
            kind,
            file,
            places: places_of(kind, file),
        }),
    }
}

/// The forks of a BinHex text with a fault.
#[tactic(auto, using(crate::proofs::Opening::text_fault, crate::proofs::Opening::text_forks, crate::proofs::Opening::shut_for))]
fn text_in_spite<'a>(
    alloc: Global,
    fault: FileFault,
    text: &'a [u8],
) -> Result<FileLeft<'a>, FileFault>
    requires kind { kind_of text.now ≡ FileKind.BinHex }
    requires fault { IsUnopened FileKind.BinHex text.now fault }
    ensures { OpensInSpite text.now result }
{
    if let FileFault::HostFull = fault {
        return Err(FileFault::HostFull);
    }
    match bytes_left(alloc, text) {
        Ok(Some(bytes)) => {
            let places = text_places(&bytes);
            Ok(FileLeft::Text {
                fault,
                bytes,
                places,
            })
        }
        Ok(None) => Err(fault),
        Err(_) => Err(FileFault::HostFull),
    }
}
