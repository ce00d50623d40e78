//! By which bytes a container is known.

ghost use Rattle.std.specs.Prelude.{◌≡◌};
ghost use Rattle.mac_files.specs.Containers.{container_of, has_fork_parts, is_fork_header, is_raw_by};

use crate::mac_binary::version_of;
use crate::number::read_four;

/// The version of MacBinary.
#[derive(Clone, Copy, Debug, PartialEq, Eq)]
pub enum Version {
    I,
    II,
    III,
}

/// What the bytes of a file are.
#[derive(Clone, Copy, Debug, PartialEq, Eq)]
pub enum Container {
    /// A resource fork and nothing else.
    Raw,
    /// Both forks.
    AppleSingle,
    /// All but the data fork, which is a file of its own.
    AppleDouble,
    /// Both forks.
    MacBinary(Version),
}

/// How many bytes the header of a resource fork has.
const FORK_HEADER_LENGTH: usize = 16;

/// The first four bytes of AppleSingle and of AppleDouble.
const APPLE_SINGLE: &[u8; 4] = b"\x00\x05\x16\x00";

const APPLE_DOUBLE: &[u8; 4] = b"\x00\x05\x16\x07";

/// Whether the file begins with the header of a resource fork: no offset and no length reaches 2^24, and the map has
/// its 28 bytes.
#[tactic(auto, unfolding(crate::specs::Containers::is_fork_header))]
fn is_fork_header(file: &[u8]) -> bool
    ensures { result ≡ is_fork_header file.now }
{
    file.len() >= FORK_HEADER_LENGTH
        && file[0] == 0
        && file[4] == 0
        && file[8] == 0
        && file[12] == 0
        && read_four(file, 12) >= 28
}

/// Whether a file of so many bytes begins with the header of a fork whose data and map lie within it. No text does,
/// since a byte of the header is zero.
#[tactic(auto, unfolding(crate::specs::Containers::has_fork_parts))]
pub(crate) fn has_fork_parts(size: usize, front: &[u8]) -> bool
    ensures { result ≡ has_fork_parts size front.now }
{
    front.len() >= FORK_HEADER_LENGTH
        && front[..FORK_HEADER_LENGTH].contains(&0)
        && read_four(front, 0) as usize + read_four(front, 8) as usize <= size
        && read_four(front, 4) as usize + read_four(front, 12) as usize <= size
        && read_four(front, 12) >= 28
}

/// The container that the bytes of a file are known as, or None. A file that begins with the header of a resource fork
/// is Raw.
pub fn container_of(file: &[u8]) -> Option<Container>
    ensures { result ≡ container_of file.now }
{
    if is_fork_header(file) {
        Some(Container::Raw)
    } else if file.starts_with(APPLE_SINGLE) {
        Some(Container::AppleSingle)
    } else if file.starts_with(APPLE_DOUBLE) {
        Some(Container::AppleDouble)
    } else {
        version_of(file).map(Container::MacBinary)
    }
}

/// Whether a file of so many bytes is a resource fork and nothing else, by its first 128 bytes, or all where it has
/// fewer.
pub fn is_raw(size: usize, front: &[u8]) -> bool
    ensures { result ≡ is_raw_by size front.now }
{
    is_fork_header(front) || container_of(front).is_none() && has_fork_parts(size, front)
}
