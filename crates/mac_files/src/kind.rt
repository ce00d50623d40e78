//! What a file is known as.

ghost use Rattle.std.specs.Prelude.{◌≡◌};
ghost use Rattle.mac_files.specs.Kinds.{is_alone, is_known, kind_of, kind_text};

use crate::archive::{Archive, archive_of};
use crate::bin_hex::is_bin_hex;
use crate::container::{Container, Version, container_of};

/// What a file is known as by its bytes.
#[derive(Clone, Copy, Debug, PartialEq, Eq)]
pub enum FileKind {
    /// Its parts are parts of its bytes.
    Container(Container),
    /// A text that stands for the bytes of its parts.
    BinHex,
    /// It holds files, and isn't read here.
    Archive(Archive),
    /// None of these.
    Unknown,
}

impl FileKind {
    /// Whether the whole of such a file is its resource fork, or is taken for one.
    pub fn is_alone(self) -> bool
        ensures { result ≡ is_alone self }
    {
        match self {
            FileKind::Container(Container::Raw) | FileKind::Archive(_) | FileKind::Unknown => true,
            FileKind::Container(
                Container::AppleSingle | Container::AppleDouble | Container::MacBinary(_),
            )
            | FileKind::BinHex => false,
        }
    }

    /// Whether such a file is known to have a resource fork in it, or to be one.
    pub fn is_known(self) -> bool
        ensures { result ≡ is_known self }
    {
        match self {
            FileKind::Container(_) | FileKind::BinHex => true,
            FileKind::Archive(_) | FileKind::Unknown => false,
        }
    }

    /// What such a file is called, by what is read of it.
    pub fn name(self) -> &'static str
        ensures { result.now ≡ kind_text self }
    {
        match self {
            FileKind::Container(Container::Raw) | FileKind::Archive(_) | FileKind::Unknown => {
                "a resource fork"
            }
            FileKind::Container(Container::AppleSingle) => "an AppleSingle file",
            FileKind::Container(Container::AppleDouble) => "an AppleDouble file",
            FileKind::Container(Container::MacBinary(Version::I)) => "a MacBinary file",
            FileKind::Container(Container::MacBinary(Version::II)) => "a MacBinary II file",
            FileKind::Container(Container::MacBinary(Version::III)) => "a MacBinary III file",
            FileKind::BinHex => "a BinHex file",
        }
    }
}

/// What a file is known as by its bytes: the container comes before the text, and the text before the archive.
pub fn kind_of(file: &[u8]) -> FileKind
    ensures { result ≡ kind_of file.now }
{
    if let Some(container) = container_of(file) {
        return FileKind::Container(container);
    }
    if is_bin_hex(file) {
        return FileKind::BinHex;
    }
    match archive_of(file) {
        Some(archive) => FileKind::Archive(archive),
        None => FileKind::Unknown,
    }
}
