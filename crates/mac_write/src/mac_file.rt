//! What a file is, out of any container.

ghost use Rattle.std.specs.Prelude.{◌≡◌};
ghost use Rattle.mac_files.specs.BinHexFiles.{view as bin_hex_view};
ghost use Rattle.mac_files.specs.OldFiles.{kind_by, said_by};
ghost use Rattle.mac_write.specs.OldParts.{date_by, old_parts};
ghost use Rattle.mac_write.specs.Parts.{bin_hex_parts, mac_date, view};

use mac_files::OldFile;
use mac_files::bin_hex::file::BinHexFile;
use mac_files::container::Container;
use mac_files::contents::FinderInfo;
use mac_files::kind::FileKind;

/// What a file is, out of any container. What a container doesn't say is empty or zero.
#[derive(Clone, Copy, Debug)]
pub struct MacFile<'a> {
    /// The name, in the characters of a Macintosh.
    pub name: &'a [u8],
    pub finder: FinderInfo,
    /// When the file was made, in seconds from the beginning of 1904; 0 is not known.
    pub created: u64,
    /// When it was last changed, counted in the same way.
    pub modified: u64,
    /// The comment of the Finder's Get Info.
    pub comment: &'a [u8],
    pub data_fork: &'a [u8],
    pub resource_fork: &'a [u8],
}

/// Seconds from the beginning of 1904 to that of 2000.
const TO_2000: u64 = 3_029_529_600;

/// A date that isn't known, in AppleSingle and AppleDouble.
const UNKNOWN: u32 = 0x8000_0000;

/// A file of which the Finder knows nothing.
const NO_FINDER: FinderInfo = FinderInfo {
    kind: [0; 4],
    creator: [0; 4],
    flags: 0,
};

/// A date of AppleSingle, which counts from the beginning of 2000 with a sign, in seconds from the beginning of 1904.
fn mac_date(date: u32) -> u64
    ensures { result ≡ mac_date date }
{
    if date == UNKNOWN {
        0
    } else if date < UNKNOWN {
        date as u64 + TO_2000
    } else {
        date as u64 - (0x1_0000_0000 - TO_2000)
    }
}

/// A date as a file of this kind counts it, in seconds from the beginning of 1904.
fn date_by(kind: FileKind, date: u32) -> u64
    ensures { result ≡ date_by kind date }
{
    match kind {
        FileKind::Container(Container::AppleSingle | Container::AppleDouble) => mac_date(date),
        FileKind::Container(Container::Raw | Container::MacBinary(_))
        | FileKind::BinHex
        | FileKind::Archive(_)
        | FileKind::Unknown => date as u64,
    }
}

/// What an opened file is.
pub fn parts_of<'a>(file: &'a OldFile<'_>) -> MacFile<'a>
    ensures { view result ≡ old_parts (kind_by file.now) (said_by file.now) }
{
    let told = file.view();
    let kind = file.kind();
    let (created, modified) = match told.dates {
        Some(dates) => (date_by(kind, dates.created), date_by(kind, dates.modified)),
        None => (0, 0),
    };
    MacFile {
        name: told.name,
        finder: told.finder.unwrap_or(NO_FINDER),
        created,
        modified,
        comment: told.comment,
        data_fork: told.data_fork,
        resource_fork: file.fork(),
    }
}

/// What the file of a BinHex text is, which gives no dates and no comment.
pub(crate) fn bin_hex_parts(file: &BinHexFile) -> MacFile<'_>
    ensures { view result ≡ bin_hex_parts (bin_hex_view file.now) }
{
    MacFile {
        name: file.name(),
        finder: FinderInfo {
            kind: file.kind,
            creator: file.creator,
            flags: file.flags,
        },
        created: 0,
        modified: 0,
        comment: &file.bytes[..0],
        data_fork: file.data_fork(),
        resource_fork: file.resource_fork(),
    }
}
