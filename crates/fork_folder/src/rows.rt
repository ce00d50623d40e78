//! The rows of a manifest's entries.

ghost use Rattle.std.specs.Prelude.{◌≡◌, IfOk, Err, map, option_map};
ghost use Rattle.fork_folder.specs.Packed.{Answers, Fails, folder_of, listed, packed, row_with};

use fork_bytes::table::{Contents, Row, Rows};
use mac_base::name::Name;
use mac_base::resource::{ResAttrs, ResType, Resource};
use path_text::FileName;
use std::alloc::{AllocError, AllocFailed, Global};
use std::collections::BTreeMap;
use thiserror::Error;

/// What a manifest says of a resource: all but its bytes, which are those of a file.
#[derive(Drop)]
pub struct Entry {
    pub kind: ResType,
    pub id: i16,
    pub name: Option<Name>,
    pub attributes: ResAttrs,
    /// The path of the file, below the folder.
    pub file: String,
}

/// What is bad in the entry of a resource.
#[derive(Clone, Copy, Debug, Error)]
pub enum Flaw {
    /// Its type isn't four characters of MacRoman.
    #[error("its type isn't four characters of MacRoman")]
    Kind,
    /// Its name has a character that MacRoman lacks, or more than 255.
    #[error("its name isn't at most 255 characters of MacRoman")]
    Name,
    /// The path of its file leads elsewhere than into a folder of the folder.
    #[error("its file isn't one in a folder of the folder")]
    Path,
}

/// Why a folder's files aren't packed.
#[derive(Debug, Drop, Error)]
pub enum PackFault {
    /// The manifest is no JSON: what is wrong, and where.
    #[error("it isn't what unpack writes: {0}")]
    BadManifest(String),
    /// It is JSON, and this member, of the manifest or of a resource in it, is missing, or is no such value.
    #[error("it isn't what unpack writes: `{0}` is missing, or isn't such as unpack writes")]
    BadMember(&'static str),
    /// What it says of the resource in this file isn't so of any.
    #[error("what it says of the resource in {path} is bad: {what}", path = FileName(.file.as_str()))]
    BadEntry { file: String, what: Flaw },
    /// What it says of the 240 extra bytes are none.
    #[error("`extra`, of 480 hexadecimal digits, is bad")]
    BadExtra,
    /// The file of this path, which the manifest names, isn't there.
    #[error("the manifest names {path}, which isn't there", path = FileName(.0.as_str()))]
    NoFile(String),
    /// The file of this path is there, and the manifest doesn't name it.
    #[error("resources.json doesn't name {path}, which is there; --add takes such files, with types, ids and names by their paths", path = FileName(.0.as_str()))]
    Unlisted(String),
    /// The file of this path isn't named as those that are unpacked.
    #[error("{path} isn't named as unpack names files, TYPE/ID NAME.bin", path = FileName(.0.as_str()))]
    Unnamed(String),
    /// The file of this path isn't the next one of its type and id.
    #[error("{path} isn't named as the next resource of its type and id: unpack counts those, as TYPE/ID.bin and TYPE/ID.2.bin", path = FileName(.0.as_str()))]
    Taken(String),
    /// The host has no memory.
    #[error("the host has no memory")]
    HostFull,
}

impl From<AllocError> for PackFault {
    ghost use Rattle.std.specs.Prelude.{◌≡◌};
    ghost use Rattle.fork_folder.specs.declared.rows.PackFault.TheVariants.{HostFull};

    ghost from_gives = { λ _ e. e ≡ HostFull };

    fn from(_: AllocError) -> PackFault {
        PackFault::HostFull
    }
}

impl<T: Drop> From<AllocFailed<T>> for PackFault {
    ghost use Rattle.std.specs.Prelude.{◌≡◌};
    ghost use Rattle.fork_folder.specs.declared.rows.PackFault.TheVariants.{HostFull};

    ghost from_gives = { λ _ e. e ≡ HostFull };

    fn from(_: AllocFailed<T>) -> PackFault {
        PackFault::HostFull
    }
}

/// The row of an entry, with these bytes.
fn row_with<'a>(entry: &Entry, bytes: &'a [u8]) -> Result<Row<'a>, AllocError>
    ensures { IfOk result (λ row. row ≡ row_with (listed entry.now) bytes.now) }
{
    let name = match &entry.name {
        Some(name) => Some(name.clone()?),
        None => None,
    };
    Ok(Resource {
        kind: entry.kind,
        id: entry.id,
        name,
        attributes: entry.attributes,
        datum: Contents::new(bytes),
    })
}

/// The bytes of the file of a path, if there is one.
fn bytes_at<'a>(files: &'a BTreeMap<String, Vec<u8>>, path: &str) -> Option<&'a [u8]>
    ensures { option_map (λ bytes. bytes.now) result ≡ folder_of files.now path.now }
{
    match files.get(path) {
        Some(bytes) => Some(bytes.as_slice()),
        None => None,
    }
}

/// The file of an entry isn't there.
fn missing(alloc: Global, entry: &Entry) -> PackFault
    ensures { Fails result (Err (listed entry.now).file) }
{
    match String::from_str(alloc, entry.file.as_str()) {
        Ok(path) => PackFault::NoFile(path),
        Err(_) => PackFault::HostFull,
    }
}

/// The rows of a manifest's entries, in their order, each with the bytes that the folder's file of its path has. One
/// error is the first path of which there is no file; the other is that the host has no memory.
pub fn packed<'a>(
    alloc: Global,
    entries: &[Entry],
    files: &'a BTreeMap<String, Vec<u8>>,
) -> Result<Rows<'a>, PackFault>
    ensures { Answers result (packed (folder_of files.now) (map listed entries.now)) }
{
    let mut rows = Vec::new(alloc);
    let mut left = entries;
    while let Some((entry, after)) = left.split_first() {
        let Some(bytes) = bytes_at(files, entry.file.as_str()) else {
            return Err(missing(alloc, entry));
        };
        rows.push(row_with(entry, bytes)?)?;
        left = after;
    }
    Ok(Rows::new(rows))
}
