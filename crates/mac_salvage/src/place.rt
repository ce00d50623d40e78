//! Where a container says that the forks are, and the bytes that are there.

ghost use Rattle.std.specs.Prelude.{◌≡◌, ◌≤◌, length, option_map};
ghost use Rattle.mac_files.specs.BinHex.{data_length, header_end, resource_length};
ghost use Rattle.mac_salvage.specs.InSpite.{left_by, left_in};
ghost use Rattle.mac_salvage.specs.Places.{nowhere, places_of, text_places, mac_binary_places};

use crate::apple::apple_places;
use mac_files::container::Container;
use mac_files::kind::FileKind;
use mac_files::mac_binary::{data_fork, resource_fork};
use mac_files::number::read_four;
use mac_files::part::Part;

/// A fork, as far as its bytes are there.
#[derive(Clone, Copy, Debug)]
pub struct ForkLeft<'a> {
    /// How many bytes it has as its container says.
    pub said: usize,
    /// Those of them that are there: at least one, unless it is said to have none.
    pub bytes: &'a [u8],
}

/// Where the forks of a file are. One that isn't listed is None.
#[derive(Clone, Copy, Debug)]
pub struct Places {
    pub data_fork: Option<Part>,
    pub resource_fork: Option<Part>,
}

/// That no fork is listed.
const NOWHERE: Places = Places {
    data_fork: None,
    resource_fork: None,
};

/// The fork at a place, or None where none of its bytes are there.
#[tactic(auto, using(crate::proofs::Reaching::reached, crate::proofs::Reaching::reached_count))]
pub fn left_in(bytes: &[u8], part: Part) -> Option<ForkLeft<'_>>
    ensures { option_map left_by result ≡ left_in bytes.now part }
{
    let start = part.offset.min(bytes.len());
    let count = part.length.min(bytes.len() - start);
    if count == 0 {
        return None;
    }
    Some(ForkLeft {
        said: part.length,
        bytes: &bytes[start..start + count],
    })
}

/// The places in a file that is known as this.
pub fn places_of(kind: FileKind, file: &[u8]) -> Places
    ensures { result ≡ places_of kind file.now }
{
    match kind {
        FileKind::Container(Container::AppleSingle | Container::AppleDouble) => apple_places(file),
        FileKind::Container(Container::MacBinary(_)) => mac_binary_places(file),
        FileKind::Container(Container::Raw)
        | FileKind::BinHex
        | FileKind::Archive(_)
        | FileKind::Unknown => NOWHERE,
    }
}

/// How many bytes the header of MacBinary has.
const MAC_BINARY_HEADER: usize = 128;

/// Where the forks are by the lengths in the header of MacBinary.
fn mac_binary_places(file: &[u8]) -> Places
    ensures { result ≡ mac_binary_places file.now }
{
    if file.len() < MAC_BINARY_HEADER {
        return NOWHERE;
    }
    Places {
        data_fork: Some(data_fork(file)),
        resource_fork: Some(resource_fork(file)),
    }
}

/// Where the forks are by the lengths in the header of the bytes that a BinHex text stands for. Two bytes of a CRC come
/// before each.
#[tactic(auto, unfolding(mac_files::specs::BinHex::data_length, mac_files::specs::BinHex::resource_length))]
pub fn text_places(bytes: &[u8]) -> Places
    ensures { result ≡ text_places bytes.now }
{
    let name = bytes.first().copied().unwrap_or(0) as usize;
    let header_end = name + 20;
    if bytes.len() < header_end {
        return NOWHERE;
    }
    let data = Part {
        offset: header_end + 2,
        length: read_four(bytes, name + 12) as usize,
    };
    let resources = Part {
        offset: data.offset + data.length + 2,
        length: read_four(bytes, name + 16) as usize,
    };
    Places {
        data_fork: Some(data),
        resource_fork: Some(resources),
    }
}
